//! The cut family of one node of a fault tree in a shared node store, from those of what it reads.
//!
//! This crate stands on `zdd_product` for the operations on families, and on `tree_families` for the
//! recipe by which the family of a node is got and for the laws that its end is the node's cut family.
//! A layer that goes up a tree, node after node and with as many threads as it likes, calls it for each
//! node.
//!
//! What that layer gets: the answer is a reference that the seat knows as exactly the node's cut family;
//! what the seat fills on the way, and what it asks a full store for, is due to the tree; and `Full` comes
//! only from a search of this call that passed every slot. The steps of which recipes consist are there for a
//! layer with other recipes. No call but `Rooms::new` takes memory.
#![tactic(auto)]

mod nodes;
mod recipes;
mod rooms;
mod steps;

pub use nodes::cut_family;
pub use recipes::{make_gate, multiply_all};
pub use rooms::{Rooms, gather};
pub use steps::single;
