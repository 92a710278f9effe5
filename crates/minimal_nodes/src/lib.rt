//! The cut family of one node of a fault tree, by operations on minimal families in a worker's own memory.
//!
//! This crate stands on `many_families` and `tree_families`. From references to the cut families of what a
//! node reads it makes one to exactly the node's cut family; where the room for nodes is used up it gives
//! `Spent`, and what the memory had it still has. No call takes memory.
#![tactic(auto)]

mod gates;
mod nodes;

pub use nodes::cut_family;
