//! From the bytes of a deck to its tree and its crews, or its first fault; what the bytes of a deck stand for; and what
//! is read of statements that are written one a line.
//!
//! It stands on `crew_script` for the parts of a deck and its crews, on `galileo_lexer` and `galileo_tree` for the
//! tokens and the statements of a text, and on `tree_check` and `fault_model` for the tree that
//! they stand for. The layers that write a deck get from its laws what is read of one.
#![tactic(auto)]

mod deck;
mod fault;
pub mod laws;

pub use deck::{CrewPart, DeckEnd, DeckParts, read_deck};
pub use fault::{DeckFault, FaultCode};
