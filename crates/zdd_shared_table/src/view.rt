//! What the rule of the store knows of a seat. No value of these types is made.
use std::collections::LinkedList;

// A word that is being searched for, and how many slots the search has passed.
pub struct Probe {
    pub word: u64,
    pub passed: u64,
}

// In a clause a `LinkedList` is a list, and a number has no greatest value.
pub struct View {
    // The number of the table's slots.
    pub size: u64,
    // References, each with its word.
    pub known: LinkedList<(u64, u64)>,
    // How many searches found every slot filled with another word, and the words that they asked for.
    pub fulls: u64,
    pub missed: LinkedList<u64>,
    // The references whose slots the seat filled.
    pub fills: LinkedList<u64>,
    pub share: u64,
    pub probe: Probe,
}
