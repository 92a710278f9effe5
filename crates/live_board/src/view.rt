//! What the rule of a live board knows of a pass. No value of these types is made.
use crate::entry::LiveEntry;
use crate::state::LiveState;
use outage_board::Entry;
use std::collections::LinkedList;

// A pass number, with the entries that were made under it. In a clause a `LinkedList` is a list.
pub struct Own {
    pub pass: u64,
    pub entries: LinkedList<Entry>,
}

pub struct View {
    // The board as it was opened.
    pub opened: LiveState,
    pub number: u64,
    pub own: LinkedList<Own>,
    pub spare: LinkedList<u64>,
    pub seen: LinkedList<LiveEntry>,
    // The shorter of two histories, right after two passes were joined: one step tells that it begins the longer one.
    pub told: LinkedList<LiveEntry>,
    pub turn: bool,
}
