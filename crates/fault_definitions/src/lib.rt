//! What a fault tree is, when it fails, and what its cuts and failing orders are.
//!
//! The definitions in `specs/` are what every answer above is stated in: the tree, its triggers and ranks, the static
//! reading, cuts and the cut list, steps and failing orders. They know no diagram, no cache and no counter. The crate
//! stands on `fault_words` for names and kinds, on `unit_sets` for what a set of units has, and on `flat_rows` for
//! lists that grow.
//!
//! A layer above gets the parts that a tree is made of, and the laws of the definitions, as functions with one clause
//! each in `laws`.
#![tactic(auto)]

pub mod laws;
mod list;
mod node;
mod parts;

pub use list::{AttributeList, AttributeLists, InputLists, KindList, NameTable, NodeList};
pub use node::NodeNo;
pub use parts::{MOST_GATES, TreeParts};
