//! The statements of a fault tree in the Galileo notation, read from its text.
//!
//! Stands on galileo_lexer for the tokens and on fault_words for names, kinds and places. `parse` reads
//! token by token into statements and keeps no list of tokens. Its contract gives the layer above exactly the
//! statements that the text spells, with the places of their tokens, or the first fault.
#![tactic(auto)]

mod bytes;
mod fault;
mod grammar;
mod laws;
mod lexeme;
mod raw;
mod reader;
mod tree;

pub use fault::{ParseFault, What};
pub use grammar::parse;
pub use laws::{parses_its_text, parses_one_way};
pub use raw::{
    Placed, PlacedList, RawAttribute, RawAttributes, RawBasic, RawGate, RawTop, Statement,
};
pub use tree::RawTree;
