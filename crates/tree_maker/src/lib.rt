//! A large deck by a rule, to try the program with.
//!
//! For each number from 0 to 999,999 there is one made deck, with 313 to 610 units and one crew that asks for most of
//! them. It stands on `edge_io` for the bytes, on `itoa` for numbers, and on `deck_reading` for what they stand for.
//! It gives the layer above the deck that the command `make` shows, and the law that each of them is well formed.
#![tactic(auto)]

mod crew;
mod deck;
pub mod laws;
mod text;
mod tree;

pub use deck::made;
