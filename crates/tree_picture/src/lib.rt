//! A fault tree as a picture in the DOT language, which Graphviz draws.
//!
//! It stands on `text_pieces` and `edge_io` for the output and on `itoa` for numbers, on `fault_model` and `unit_sets`
//! for the tree and its units, and on `deck_reading` and `crew_script` for the words of gates and the lines of a text.
//! [`put_picture`] puts exactly the text that its clause names, or a front of it where the sink fails. Two laws tell
//! what that text shows.
#![tactic(auto)]

mod label;
pub mod laws;
mod lines;
mod picture;
mod shape;

pub use picture::put_picture;
