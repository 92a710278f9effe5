//! The cut family of a node.
ghost use Rattle.std.specs.Prelude.{◌≡◌, ◌≤◌, false, All, IfErr, IfOk, MatchResult, length};
ghost use Rattle.fault_definitions.specs.CutFamily.{IsCutFamily};
ghost use Rattle.fault_definitions.specs.Tree.{IsNodeOf, is_fdep, node_count};
ghost use Rattle.fault_definitions.specs.Trigger.{below};
ghost use Rattle.tree_families.specs.Due.{IsDueToTree};
ghost use Rattle.tree_families.specs.Recipe.{IsMadeBy, StandFor, node_recipe};
ghost use Rattle.zdd_families.specs.Map.{Knows};
ghost use Rattle.zdd_shared_table.specs.Seats.{map_of};
ghost use Rattle.zdd_product.specs.Seats.{Gave, WasFull};
ghost use Rattle.zdd_product.specs.Voting.{families};
ghost use Rattle.zdd_nodes.specs.Reading.{KnowsBelow, families_below};
ghost use Rattle.zdd_nodes.specs.Room.{HaveRoomFor};

use crate::recipes::{make_gate, make_unit};
use crate::rooms::{Rooms, gather};
use fault_model::{NodeNo, Tree};
use zdd_product::Ops;
use zdd_shared_table::Full;
use zdd_words::NodeRef;

/// The cut family of a node, from a list that has at the place of each node that this one reads a
/// reference which the seat knows as that node's cut family. What the room holds afterwards is left open.
pub fn cut_family(
    ops: &mut Ops,
    tree: &Tree,
    node: NodeNo,
    families: &[NodeRef],
    rooms: &mut Rooms,
) -> Result<NodeRef, Full>
    requires node { IsNodeOf tree.now node }
    requires read { is_fdep tree.now node ≡ false }
    requires all { node_count tree.now ≤ length families.now }
    requires below { KnowsBelow (map_of ops.old) tree.now families.now node }
    requires room { HaveRoomFor tree.now rooms.old }
    ensures gives { IfOk result (Gave (IsCutFamily tree.now node) (IsDueToTree tree.now) ops.old ops.new) }

    // Only a search that passed every slot of the store ends the call, and it is counted.
    ensures full { IfErr result (λ _. WasFull (IsDueToTree tree.now) ops.old ops.new) }
    ensures room { HaveRoomFor tree.now rooms.new }
{
    // Tells the proof what a tree keeps.
    tree.units();
    let made = follow(ops, tree, node, families, rooms)?;
    ops.minimal(made)
}

// What the recipe of a node makes before its end.
fn follow(
    ops: &mut Ops,
    tree: &Tree,
    node: NodeNo,
    families: &[NodeRef],
    rooms: &mut Rooms,
) -> Result<NodeRef, Full>
    requires node { IsNodeOf tree.now node }
    requires read { is_fdep tree.now node ≡ false }
    requires all { node_count tree.now ≤ length families.now }
    requires below { KnowsBelow (map_of ops.old) tree.now families.now node }
    requires room { HaveRoomFor tree.now rooms.old }
    ensures made { let recipe = node_recipe tree.now node
        (families_below (map_of ops.old) tree.now families.now node) in
        MatchResult result (Gave (IsMadeBy recipe) (IsDueToTree tree.now) ops.old ops.new)
        (λ _. WasFull (IsDueToTree tree.now) ops.old ops.new) }
    ensures room { HaveRoomFor tree.now rooms.new }
{
    let nodes = tree.below(node);
    gather(nodes, families, &mut rooms.list[..]);
    make(
        ops,
        tree,
        node,
        &rooms.list[..nodes.len()],
        &mut rooms.votes[..],
    )
}

// The same, from the references of what the node reads.
fn make(
    ops: &mut Ops,
    tree: &Tree,
    node: NodeNo,
    list: &[NodeRef],
    room: &mut [NodeRef],
) -> Result<NodeRef, Full>
    requires node { IsNodeOf tree.now node }
    requires read { is_fdep tree.now node ≡ false }
    requires room { length (below tree.now node) ≤ length room.old }
    requires knows { All (Knows (map_of ops.old)) list.now }
    requires stand { StandFor (IsCutFamily tree.now) (below tree.now node) (families (map_of ops.old) list.now) }
    ensures made { let recipe = node_recipe tree.now node (families (map_of ops.old) list.now) in
        MatchResult result (Gave (IsMadeBy recipe) (IsDueToTree tree.now) ops.old ops.new)
        (λ _. WasFull (IsDueToTree tree.now) ops.old ops.new) }
    ensures size { length room.new ≡ length room.old }
{
    if node.number() > tree.units() {
        return make_gate(ops, tree.kind(node), list, room);
    }
    make_unit(ops, node.unit(), list)
}
