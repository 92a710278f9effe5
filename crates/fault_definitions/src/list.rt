//! The lists of which the parts of a tree are made.
use crate::node::NodeNo;
use fault_words::{Attribute, GateKind, Name};
use flat_rows::GrowingList;

/// The names of a tree's nodes, in the order of their numbers.
pub type NameTable = GrowingList<Name>;

/// The kinds of a tree's gates, in the order of their numbers.
pub type KindList = GrowingList<GateKind>;

/// Nodes, as the inputs of a gate from left to right.
pub type NodeList = GrowingList<NodeNo>;

/// The inputs of each of a tree's gates, in the order of their numbers.
pub type InputLists = GrowingList<NodeList>;

/// The attributes of a unit, in the order of its definition.
pub type AttributeList = GrowingList<Attribute>;

/// The attributes of each of a tree's units, in the order of their numbers.
pub type AttributeLists = GrowingList<AttributeList>;
