//! The list of a node, from those of the nodes that it reads.
ghost use Rattle.std.specs.Prelude.{◌≡◌, [], length, take, All, OnOk};
ghost use Rattle.fault_definitions.specs.Tree.{IsNodeOf, node_count};
ghost use Rattle.cutset_lists.specs.Generation.{AddsSome, each_rule, Follows, gate_rule, HasList, IsNodeList};
ghost use Rattle.cutset_lists.specs.Generation.{StartsFrom};

use crate::minimal::reduce;
use crate::order::shortest_first;
use crate::overlap::{are_apart, are_two_apart};
use crate::product::multiply;
use crate::votes::at_least;
use crate::{NoMemory, Room, Sets};
use fault_model::{GateKind, NodeNo, Tree};

// Adds the lists of nodes.
fn some_of<'h>(
    room: Room<'h>,
    lists: &[Sets<'h>],
    nodes: &[NodeNo],
    sets: &mut Sets<'h>,
) -> Result<(), NoMemory>
    requires { All (HasList lists.now) nodes.now }
    ensures { OnOk result (AddsSome lists.now nodes.now sets.old sets.new) }
{
    let apart = are_apart(room.alloc, lists, nodes)?;
    for node in nodes {
        sets.append(&lists[node.index()])?;
    }
    reduce(room, sets, apart)
}

// Puts in the unions of a set of each node's list, one list after another.
fn each_in_turn<'h>(
    room: Room<'h>,
    lists: &[Sets<'h>],
    nodes: &[NodeNo],
    sets: &mut Sets<'h>,
) -> Result<(), NoMemory>
    requires { StartsFrom lists.now nodes.now sets.old }
    ensures { OnOk result (Follows lists.now (each_rule nodes.now) sets.new) }
{
    let all_apart = are_apart(room.alloc, lists, nodes)?;
    sets.push(&[])?;
    for node in nodes {
        let list = &lists[node.index()];
        let apart = all_apart || are_two_apart(room.alloc, sets, list)?;
        multiply(room, sets, list, apart)?;
    }
    Ok(())
}

// Puts in the unions of a set of each node's list.
fn each_of<'h>(
    room: Room<'h>,
    lists: &[Sets<'h>],
    nodes: &[NodeNo],
    sets: &mut Sets<'h>,
) -> Result<(), NoMemory>
    requires { StartsFrom lists.now nodes.now sets.old }
    ensures { OnOk result (Follows lists.now (each_rule nodes.now) sets.new) }
{
    let order = shortest_first(room.alloc, lists, nodes)?;
    each_in_turn(room, lists, order.as_slice(), sets)
}

// The first of the nodes, where there is one.
fn first_of(nodes: &[NodeNo]) -> &[NodeNo]
    ensures { result.now ≡ take 1 nodes.now }
{
    if nodes.is_empty() { nodes } else { &nodes[..1] }
}

// Puts in the list of a gate.
fn gate_list<'h>(
    room: Room<'h>,
    lists: &[Sets<'h>],
    kind: GateKind,
    inputs: &[NodeNo],
    sets: &mut Sets<'h>,
) -> Result<(), NoMemory>
    requires { StartsFrom lists.now inputs.now sets.old }
    ensures { OnOk result (Follows lists.now (gate_rule kind inputs.now) sets.new) }
{
    match kind {
        GateKind::And
        | GateKind::Pand
        | GateKind::Seq
        | GateKind::Csp
        | GateKind::Wsp
        | GateKind::Hsp => each_of(room, lists, inputs, sets),
        GateKind::Or => some_of(room, lists, inputs, sets),
        GateKind::Votes(least, _) => at_least(room, lists, least, inputs, sets),
        GateKind::Por => some_of(room, lists, first_of(inputs), sets),
        GateKind::Fdep => Ok(()),
    }
}

/// Puts the list of a node of the tree into one that has no sets. A unit's is itself alone, and what its triggers have.
pub fn node_list<'h>(
    room: Room<'h>,
    tree: &Tree,
    lists: &[Sets<'h>],
    node: NodeNo,
    sets: &mut Sets<'h>,
) -> Result<(), NoMemory>
    requires node { IsNodeOf tree.now node }
    requires all { length lists.now ≡ node_count tree.now }
    requires none { sets.old ≡ [] }
    ensures { OnOk result (IsNodeList tree.now lists.now node sets.new) }
{
    let below = tree.below(node);
    if node.0 > tree.units() {
        return gate_list(room, lists, tree.kind(node), below, sets);
    }
    sets.push(&[node.unit()])?;
    some_of(room, lists, below, sets)
}
