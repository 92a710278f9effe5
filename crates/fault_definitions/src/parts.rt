//! The parts of which a tree is made.
use crate::list::{AttributeLists, InputLists, KindList, NameTable};
use crate::node::NodeNo;

/// The most gates of a tree.
pub const MOST_GATES: usize = 16_383;

/// The parts of a tree, each in the order of the numbers: a name for each node, a kind and a list of inputs for each
/// gate, and a list of attributes for each unit.
#[derive(Drop)]
pub struct TreeParts {
    pub names: NameTable,
    pub kinds: KindList,
    pub inputs: InputLists,
    pub attributes: AttributeLists,
    pub top: NodeNo,
}
