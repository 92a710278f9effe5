//! The path family of a node.
ghost use Rattle.std.specs.Prelude.{◌≡◌, ◌≤◌, false, All, IfErr, IfOk, MatchResult, length};
ghost use Rattle.fault_definitions.specs.Tree.{IsNodeOf, is_fdep, node_count};
ghost use Rattle.fault_definitions.specs.Trigger.{below};
ghost use Rattle.tree_families.specs.Recipe.{IsMadeBy, IsProductOfAll, StandFor, alone};
ghost use Rattle.zdd_families.specs.Map.{Knows};
ghost use Rattle.zdd_shared_table.specs.Seats.{map_of};
ghost use Rattle.zdd_product.specs.Seats.{Gave, WasFull};
ghost use Rattle.zdd_product.specs.Voting.{families};
ghost use Rattle.zdd_nodes.specs.Reading.{families_below};
ghost use Rattle.zdd_nodes.specs.Room.{HaveRoomFor};
ghost use Rattle.path_sets.specs.Building.{HasPathsBelow};
ghost use Rattle.path_sets.specs.Dual.{path_recipe};
ghost use Rattle.path_sets.specs.Due.{IsDueToKeptUnit, IsDueToPaths};
ghost use Rattle.path_sets.specs.Paths.{IsPathFamily};

use crate::dual::dual_kind;
use fault_model::{NodeNo, Tree};
use unit_sets::UnitNo;
use zdd_nodes::{Rooms, gather, make_gate, multiply_all, single};
use zdd_product::Ops;
use zdd_shared_table::Full;
use zdd_words::NodeRef;

/// The path family of a node, from a list that has at the place of each node that this one reads a reference which the
/// seat knows as that node's path family. What the room holds afterwards is left open.
pub(crate) fn path_family(
    ops: &mut Ops,
    tree: &Tree,
    node: NodeNo,
    references: &[NodeRef],
    rooms: &mut Rooms,
) -> Result<NodeRef, Full>
    requires node { IsNodeOf tree.now node }
    requires read { is_fdep tree.now node ≡ false }
    requires all { node_count tree.now ≤ length references.now }
    requires below { HasPathsBelow (map_of ops.old) tree.now references.now node }
    requires room { HaveRoomFor tree.now rooms.old }
    ensures gives { IfOk result (Gave (IsPathFamily tree.now node) (IsDueToPaths tree.now) ops.old ops.new) }
    ensures full { IfErr result (λ _. WasFull (IsDueToPaths tree.now) ops.old ops.new) }
    ensures room { HaveRoomFor tree.now rooms.new }
{
    // Tells the proof what a tree keeps.
    tree.units();
    let made = follow(ops, tree, node, references, rooms)?;
    ops.minimal(made)
}

// What the dual recipe of a node makes before its end.
fn follow(
    ops: &mut Ops,
    tree: &Tree,
    node: NodeNo,
    references: &[NodeRef],
    rooms: &mut Rooms,
) -> Result<NodeRef, Full>
    requires node { IsNodeOf tree.now node }
    requires read { is_fdep tree.now node ≡ false }
    requires all { node_count tree.now ≤ length references.now }
    requires below { HasPathsBelow (map_of ops.old) tree.now references.now node }
    requires room { HaveRoomFor tree.now rooms.old }
    ensures made { let recipe = path_recipe tree.now node
        (families_below (map_of ops.old) tree.now references.now node) in
        MatchResult result (Gave (IsMadeBy recipe) (IsDueToPaths tree.now) ops.old ops.new)
        (λ _. WasFull (IsDueToPaths tree.now) ops.old ops.new) }
    ensures room { HaveRoomFor tree.now rooms.new }
{
    let nodes = tree.below(node);
    gather(nodes, references, &mut rooms.list[..]);
    make(
        ops,
        tree,
        node,
        &rooms.list[..nodes.len()],
        &mut rooms.votes[..],
    )
}

// The same, from the references of what the node reads.
fn make(
    ops: &mut Ops,
    tree: &Tree,
    node: NodeNo,
    list: &[NodeRef],
    room: &mut [NodeRef],
) -> Result<NodeRef, Full>
    requires node { IsNodeOf tree.now node }
    requires read { is_fdep tree.now node ≡ false }
    requires room { length (below tree.now node) ≤ length room.old }
    requires knows { All (Knows (map_of ops.old)) list.now }
    requires stand { StandFor (IsPathFamily tree.now) (below tree.now node) (families (map_of ops.old) list.now) }
    ensures made { let recipe = path_recipe tree.now node (families (map_of ops.old) list.now) in
        MatchResult result (Gave (IsMadeBy recipe) (IsDueToPaths tree.now) ops.old ops.new)
        (λ _. WasFull (IsDueToPaths tree.now) ops.old ops.new) }
    ensures size { length room.new ≡ length room.old }
{
    if node.number() > tree.units() {
        return make_gate(ops, dual_kind(tree.kind(node)), list, room);
    }
    keep_unit(ops, node.unit(), list)
}

// A unit stays in service with itself and each of its triggers.
fn keep_unit(ops: &mut Ops, unit: UnitNo, triggers: &[NodeRef]) -> Result<NodeRef, Full>
    requires { All (Knows (map_of ops.old)) triggers.now }
    ensures { let fs = families (map_of ops.old) triggers.now in
        MatchResult result (Gave (IsProductOfAll (alone unit) fs) (IsDueToKeptUnit unit fs) ops.old ops.new)
        (λ _. WasFull (IsDueToKeptUnit unit fs) ops.old ops.new) }
{
    ops.is_sound();
    let own = single(ops, unit)?;
    multiply_all(ops, own, triggers)
}
