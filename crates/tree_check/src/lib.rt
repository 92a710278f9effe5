//! From the statements of a text to its fault tree, or to its first fault.
//!
//! It stands on `galileo_tree` for the statements, on `name_index` for their names, on `graph_cycles` for cycles, and
//! on `fault_model` for the tree. Its contract gives the layer above the one tree that the statements stand for,
//! exactly where no class of faults occurs, and else the first class that occurs, at its first place. Laws say that a
//! text has one tree or one first fault.
#![tactic(auto)]

mod assembly;
mod checking;
mod classes;
mod cycles;
mod examining;
mod fault;
mod gates;
mod laws;
mod naming;
mod numbered;
mod numbering;
mod spares;
mod statements;

pub use checking::check;
pub use fault::{CheckCode, CheckFault};
pub use laws::{
    some_tree_or_some_fault, statements_have_one_first_fault, statements_have_one_tree,
    tree_or_fault,
};
