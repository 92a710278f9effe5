//! The crew part of a deck, and each fault of it.

mod crews;
mod decks;
