//! Room for the references of what a node reads.
ghost use Rattle.std.specs.Prelude.{◌≡◌, ◌≤◌, ℕ, All, IfOk, length, map, take};
ghost use Rattle.fault_definitions.specs.Tree.{IsNodeOf};
ghost use Rattle.fault_definitions.specs.Trigger.{below};
ghost use Rattle.zdd_nodes.specs.Reading.{reference_of};

use fault_model::{NoMemory, NodeNo, Tree};
use std::alloc::Global;
use zdd_words::NodeRef;

/// Room that the families of the nodes of a tree are built in: for the references of what a node reads,
/// and for its votes.
#[derive(Drop)]
pub struct Rooms {
    pub list: Vec<NodeRef>,
    pub votes: Vec<NodeRef>,
}

impl Rooms {
    ghost use Rattle.zdd_nodes.specs.Room.{HaveRoomFor};

    /// Room for every node of a tree.
    pub fn new(alloc: Global, tree: &Tree) -> Result<Rooms, NoMemory>
        ensures { IfOk result (HaveRoomFor tree.now) }
    {
        let places = most_below(tree);
        Ok(Rooms {
            list: vec![in alloc; NodeRef::EMPTY; places]?,
            votes: vec![in alloc; NodeRef::EMPTY; places]?,
        })
    }
}

// How many nodes any node of the tree reads at most.
fn most_below(tree: &Tree) -> usize
    ensures { (node : ℕ) → IsNodeOf tree.now node → length (below tree.now node) ≤ result }
{
    let last = tree.units() + tree.gates();
    let mut most = 0;
    for number in 1..last + 1 {
        most = most.max(tree.below(NodeNo(number)).len());
    }
    most
}

/// Puts the references of some nodes, from a list with a reference for each node, at the front of another list.
pub fn gather(nodes: &[NodeNo], references: &[NodeRef], list: &mut [NodeRef])
    requires within { All (λ node. (1 ≤ node) × (node ≤ length references.now)) nodes.now }
    requires room { length nodes.now ≤ length list.old }
    ensures list { take (length nodes.now) list.new ≡ map (reference_of references.now) nodes.now }
    ensures size { length list.new ≡ length list.old }
{
    for i in 0..nodes.len() {
        list[i] = references[nodes[i].index()];
    }
}
