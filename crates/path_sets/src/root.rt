//! The path families of all nodes of a tree, from below, and the reference of the top event's.
ghost use Rattle.std.specs.Prelude.{◌≡◌, ◌≤◌, ◌<◌, false, IfErr, IfOk, IsErrOf, OnOk, length};
ghost use Rattle.fault_definitions.specs.Tree.{IsNodeOf, is_fdep, node_count};
ghost use Rattle.zdd_shared_table.specs.Seats.{map_of};
ghost use Rattle.zdd_product.specs.Seats.{KnowsOne, WasFull, WentAll, WentOn};
ghost use Rattle.zdd_nodes.specs.Room.{HaveRoomFor};
ghost use Rattle.zdd_build.specs.Workers.{CountsAsBefore};
ghost use Rattle.path_sets.specs.Building.{HasAllPaths, HasMade, HasPathsBelow};
ghost use Rattle.path_sets.specs.Due.{IsDueToPaths};
ghost use Rattle.path_sets.specs.Paths.{IsPathFamily};

use crate::nodes::path_family;
use fault_model::{GateKind, NodeNo, Tree};
use std::alloc::Global;
use zdd_build::{BuildEnd, TEAM_SHARE};
use zdd_nodes::Rooms;
use zdd_product::{Ops, OpsRefused};
use zdd_shared_table::{Full, NodeStore, StoreSeat};
use zdd_words::NodeRef;

/// The reference of the minimal path sets of a tree: the least sets of units that keep the top event from failing where
/// all other units have failed.
pub fn path_root(
    alloc: Global,
    tree: &Tree,
    store: &NodeStore,
    seat: &mut StoreSeat,
) -> Result<NodeRef, BuildEnd>
    requires own { seat.old.store ≡ store.now }
    requires share { TEAM_SHARE ≤ seat.old.share }
    ensures paths { IfOk result (λ r. KnowsOne (map_of seat.new) r (IsPathFamily tree.now tree.now.top)) }

    // What the seat knew it knows, and whatever the answer is, it has filled and missed only what is due to the dual
    // building.
    ensures went { WentAll (IsDueToPaths tree.now) seat.old seat.new }
    ensures share { seat.new.share ≡ seat.old.share }
    ensures full { IsErrOf result BuildEnd.Full → seat.old.fulls < seat.new.fulls }

    // All memory is taken before the first node is made.
    ensures no_memory { IsErrOf result BuildEnd.NoMemory → CountsAsBefore seat.old seat.new }
{
    seat.is_sound();
    let nodes = (tree.units() + tree.gates()) as usize;
    let mut references = vec![in alloc; NodeRef::EMPTY; nodes]?;
    let mut rooms = Rooms::new(alloc, tree)?;
    make_by_seat(alloc, tree, store, seat, &mut references[..], &mut rooms)?;
    Ok(references[tree.top().index()])
}

// Makes the path families of all nodes by a seat that is split off, and joins it again.
fn make_by_seat(
    alloc: Global,
    tree: &Tree,
    store: &NodeStore,
    seat: &mut StoreSeat,
    references: &mut [NodeRef],
    rooms: &mut Rooms,
) -> Result<(), BuildEnd>
    requires own { seat.old.store ≡ store.now }
    requires share { 2 ≤ seat.old.share }
    requires all { node_count tree.now ≤ length references.old }
    requires room { HaveRoomFor tree.now rooms.old }
    ensures paths { OnOk result (HasAllPaths (map_of seat.new) tree.now references.new) }
    ensures size { length references.new ≡ length references.old }
    ensures went { WentAll (IsDueToPaths tree.now) seat.old seat.new }
    ensures share { seat.new.share ≡ seat.old.share }
    ensures full { IsErrOf result BuildEnd.Full → seat.old.fulls < seat.new.fulls }
    ensures no_memory { IsErrOf result BuildEnd.NoMemory → CountsAsBefore seat.old seat.new }
{
    let mut ops = match Ops::new(alloc, store, store.split(seat, 1)) {
        Ok(ops) => ops,
        Err(refused) => {
            let OpsRefused { seat: back, cause } = refused;
            store.join(seat, back);
            return Err(BuildEnd::from(cause));
        }
    };
    let ended = make_all(&mut ops, tree, references, rooms);
    store.join(seat, ops.into_seat());
    ended?;
    Ok(())
}

// Makes the path families of all nodes, each after those of what it reads.
fn make_all(
    ops: &mut Ops,
    tree: &Tree,
    references: &mut [NodeRef],
    rooms: &mut Rooms,
) -> Result<(), Full>
    requires all { node_count tree.now ≤ length references.old }
    requires room { HaveRoomFor tree.now rooms.old }
    ensures on { OnOk result (WentOn (IsDueToPaths tree.now) ops.old ops.new) }
    ensures paths { OnOk result (HasAllPaths (map_of ops.new) tree.now references.new) }
    ensures full { IfErr result (λ _. WasFull (IsDueToPaths tree.now) ops.old ops.new) }
    ensures size { length references.new ≡ length references.old }
{
    // Tells the proof what the seat keeps.
    ops.is_sound();
    for node in tree.bottom_up() {
        make_one(ops, tree, *node, references, rooms)?;
    }
    Ok(())
}

// Makes the path family of one node, if it has one.
fn make_one(
    ops: &mut Ops,
    tree: &Tree,
    node: NodeNo,
    references: &mut [NodeRef],
    rooms: &mut Rooms,
) -> Result<(), Full>
    requires node { IsNodeOf tree.now node }
    requires all { node_count tree.now ≤ length references.old }
    requires below { HasPathsBelow (map_of ops.old) tree.now references.old node }
    requires room { HaveRoomFor tree.now rooms.old }
    ensures made { OnOk result (HasMade tree.now node ops.old ops.new references.old references.new) }
    ensures full { IfErr result (λ _. WasFull (IsDueToPaths tree.now) ops.old ops.new) }
    ensures size { length references.new ≡ length references.old }
    ensures room { HaveRoomFor tree.now rooms.new }
{
    // Tells the proof what the seat keeps.
    ops.is_sound();
    if is_fdep(tree, node) {
        return Ok(());
    }
    let family = path_family(ops, tree, node, references, rooms)?;
    references[node.index()] = family;
    Ok(())
}

// Whether a node is an `fdep`, which has no family.
fn is_fdep(tree: &Tree, node: NodeNo) -> bool
    requires { IsNodeOf tree.now node }
    ensures { result ≡ is_fdep tree.now node }
{
    node.number() > tree.units() && tree.kind(node) == GateKind::Fdep
}
