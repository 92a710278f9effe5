//! The families of the nodes of a fault tree: which family a node has, by which operations on the
//! families of what it reads it is got, and which families those operations may make on the way.
//!
//! This crate stands on `fault_definitions` for the tree and its static reading and on `zdd_families` for the
//! operations and the parts of their results, and has no code that runs. A layer that builds diagrams of a tree gets
//! from it that the recipe of each node, followed to its end, gives the node's cut family, and that what its operations
//! make is due to the tree.
#![tactic(auto)]

pub mod laws;
