//! What the rule of a board knows of a pass. No value of these types is made.
use crate::entry::Entry;
use crate::state::BoardState;
use std::collections::LinkedList;

// A crew, by its number, with the entries that were made with its pass. In a clause a `LinkedList` is a list.
pub struct Made {
    pub crew: u64,
    pub entries: LinkedList<Entry>,
}

pub struct View {
    // The board as it was opened.
    pub opened: BoardState,
    pub crews: LinkedList<Made>,
    // Whether the pass has the turn, and the history that it then took.
    pub turn: bool,
    pub taken: LinkedList<Entry>,
}
