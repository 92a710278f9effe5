//! A dynamic fault tree as the Galileo manual writes it, and what it says of sets and orders of failed units.
//!
//! It stands on `fault_definitions` for what a tree is and when it fails, on `fault_words` for the names, on
//! `unit_sets` for sets of units, and on `graph_cycles` for ranks and an order from below.
//!
//! A layer above gets a `Tree` that keeps all rules of a well-formed text, whose readers give exactly its parts, and
//! the static reading of any node under any set. A contract sees a tree as its parts with the rank of each node, a name
//! as its bytes, a node as its number, and a list as its items.
#![tactic(auto)]

mod order;
mod ranking;
mod reading;
mod tree;
mod trigger;

pub use fault_definitions::{
    AttributeList, AttributeLists, InputLists, KindList, MOST_GATES, NameTable, NodeList, NodeNo,
    TreeParts, laws,
};
pub use fault_words::{Attribute, GateKind, Name, Place, is_bare_name};
pub use order::Order;
pub use reading::{Scratch, eval_static};
pub use tree::Tree;
pub use unit_sets::NoMemory;
