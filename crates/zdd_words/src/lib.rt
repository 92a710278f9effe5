//! References to the nodes of a shared diagram, and the words that hold such nodes.
//!
//! This crate stands on `unit_sets` and starts no threads. A node has a level, which is a unit's number,
//! and two references, lo and hi. Contracts see a `NodeRef` as its number and a word by its level, its
//! lo and its hi, so that the store above can say what a slot holds by arithmetic on words alone.
#![tactic(auto)]

mod node_ref;
mod word;

pub use node_ref::NodeRef;
pub use word::{Parts, SPREAD, home, pack, unpack};
