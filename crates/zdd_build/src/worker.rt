//! One worker: its seat with the operations of the store, a memory of its own, and what it has found.
ghost use Rattle.std.specs.Prelude.{◌≡◌, ◌≤◌, true, [], length, vec_capacity, IfErr, IfOk, IfSome};
ghost use Rattle.fault_definitions.specs.CutFamily.{IsCutFamily};
ghost use Rattle.fault_definitions.specs.Tree.{FaultTree};
ghost use Rattle.tree_families.specs.Due.{IsDueToTree};
ghost use Rattle.zdd_shared_table.specs.Seats.{map_of};
ghost use Rattle.zdd_product.specs.Seats.{Gave, KnowsOne, WasFull};
ghost use Rattle.zdd_nodes.specs.Room.{HaveRoomFor};
ghost use Rattle.family_memory.specs.Memory.{Has, family_in};
ghost use Rattle.zdd_build.specs.Building.{CanRead};
ghost use Rattle.zdd_build.specs.Workers.{CanWork, GoesOn, IsEquipped, KeepsSeat};

use crate::own::own_family;
use crate::task::Task;
use family_copies::{Copies, export};
use family_memory::{FamilyMemory, Room, Spent};
use fault_model::{NoMemory, NodeNo, Tree};
use std::alloc::Global;
use zdd_nodes::{Rooms, cut_family};
use zdd_product::Ops;
use zdd_shared_table::Full;
use zdd_words::NodeRef;

/// How many nodes a worker's memory takes at most. Every model that was measured needs less.
pub(crate) const OWN_NODES: usize = 262_144;

// A memory that holds more nodes than this is cleared before the next node of the tree.
const KEPT_NODES: usize = 131_072;

// How many answers of operations a worker's memory keeps at most.
const OWN_ANSWERS: usize = 65_536;

/// The reference that was found for the node at a place.
#[derive(Clone, Copy)]
pub(crate) struct Finding {
    pub place: usize,
    pub family: NodeRef,
}

/// A worker. `work` counts the nodes that it has made in its memory, and `full` tells that it found the store full.
#[derive(Drop)]
pub(crate) struct Worker<'s> {
    pub ops: Ops<'s>,
    pub memory: FamilyMemory,
    pub copies: Copies,
    pub rooms: Rooms,
    pub found: Vec<Finding>,
    pub work: usize,
    pub full: bool,
}

/// All that a worker needs beside its seat.
#[derive(Drop)]
pub(crate) struct Tools {
    pub memory: FamilyMemory,
    pub copies: Copies,
    pub rooms: Rooms,
    pub found: Vec<Finding>,
}

impl Tools {
    /// Tools for the places of a task, with all memory that they ever take.
    pub fn new(alloc: Global, task: Task, own_nodes: usize) -> Result<Tools, NoMemory>
        requires { own_nodes ≤ 262144 }
        ensures nodes { IfOk result (λ tools. tools.memory.room ≡ own_nodes) }
        ensures places { IfOk result (λ tools. length task.entry.places.now ≤ vec_capacity tools.found) }
        ensures copies { IfOk result (λ tools. tools.copies ≡ []) }
        ensures found { IfOk result (λ tools. tools.found.items ≡ []) }
        ensures rooms { IfOk result (λ tools. HaveRoomFor task.entry.tree.now tools.rooms) }
    {
        let room = Room {
            nodes: own_nodes,
            slots: own_nodes * 2,
            answers: OWN_ANSWERS.min(own_nodes),
        };
        Ok(Tools {
            found: Vec::with_capacity(alloc, task.places.len())?,
            rooms: Rooms::new(alloc, task.tree)?,
            copies: Copies::new(alloc, own_nodes)?,
            // The largest comes last, so that no failure has to let it go.
            memory: FamilyMemory::new(alloc, room)?,
        })
    }
}

// Forgets what the memory holds, with the notes of it.
fn forget(worker: &mut Worker)
    ensures copies { worker.new.copies ≡ [] }
    ensures equipped { (tree : FaultTree) → IsEquipped tree worker.old → IsEquipped tree worker.new }
    ensures keeps { KeepsSeat worker.old worker.new }
{
    worker.memory.clear();
    worker.copies.forget();
}

// Forgets what the memory holds where that is much.
fn keep_few(worker: &mut Worker)
    ensures equipped { (tree : FaultTree) → IsEquipped tree worker.old → IsEquipped tree worker.new }
    ensures keeps { KeepsSeat worker.old worker.new }
{
    if worker.memory.count() > KEPT_NODES {
        forget(worker);
    }
}

// The cut family of a node in the worker's memory. Where the room is used up all is made once more in an empty memory.
fn own_or_anew(
    worker: &mut Worker,
    tree: &Tree,
    node: NodeNo,
    references: &[NodeRef],
) -> Result<NodeRef, Spent>
    requires reads { CanRead (map_of worker.old.ops) tree.now references.now node }
    requires equipped { IsEquipped tree.now worker.old }
    ensures has { IfOk result (λ own. Has worker.new.memory own) }
    ensures family { IfOk result (λ own. IsCutFamily tree.now node (family_in worker.new.memory own)) }
    ensures equipped { IsEquipped tree.now worker.new }
    ensures keeps { KeepsSeat worker.old worker.new }
{
    if let Ok(own) = own_family(worker, tree, node, references) {
        return Ok(own);
    }
    forget(worker);
    own_family(worker, tree, node, references)
}

// The reference of the store for the cut family of a node: made in the worker's memory, or, where that is used up,
// by the recipe over the store.
fn shared_family(
    worker: &mut Worker,
    tree: &Tree,
    node: NodeNo,
    references: &[NodeRef],
) -> Result<NodeRef, Full>
    requires reads { CanRead (map_of worker.old.ops) tree.now references.now node }
    requires equipped { IsEquipped tree.now worker.old }
    ensures gives { IfOk result (Gave (IsCutFamily tree.now node) (IsDueToTree tree.now) worker.old.ops
        worker.new.ops) }
    ensures full { IfErr result (λ _. WasFull (IsDueToTree tree.now) worker.old.ops worker.new.ops) }
    ensures equipped { IsEquipped tree.now worker.new }
    ensures found { worker.new.found ≡ worker.old.found }
    ensures same { worker.new.full ≡ worker.old.full }
{
    // Tells the proof what a tree keeps.
    tree.units();
    match own_or_anew(worker, tree, node, references) {
        Ok(own) => export(&worker.memory, &mut worker.copies, &mut worker.ops, own),
        Err(_) => {
            forget(worker);
            cut_family(&mut worker.ops, tree, node, references, &mut worker.rooms)
        }
    }
}

/// Makes the cut family of a node. Where the store was found full the worker knows that.
pub(crate) fn make(
    worker: &mut Worker,
    task: Task,
    node: NodeNo,
    references: &[NodeRef],
) -> Result<NodeRef, Full>
    requires reads { CanRead (map_of worker.old.ops) task.tree.now references.now node }
    requires can { CanWork task worker.old }
    ensures gives { IfOk result (λ r. KnowsOne (map_of worker.new.ops) r (IsCutFamily task.entry.tree.now node)) }
    ensures full { IfErr result (λ _. worker.new.full ≡ true) }
    ensures goes_on { GoesOn task.entry worker.old worker.new }
{
    keep_few(worker);
    let before = worker.memory.count();
    let family = match shared_family(worker, task.tree, node, references) {
        Ok(family) => family,
        Err(full) => {
            worker.full = true;
            return Err(full);
        }
    };
    let made = worker.memory.count().saturating_sub(before);
    worker.work = worker.work.saturating_add(made);
    Ok(family)
}

/// Makes the cut family of a node in the worker's own memory alone. Where that is too small there is none: the node is
/// left to the first worker, which makes it by the recipe over the store.
pub(crate) fn make_own(
    worker: &mut Worker,
    task: Task,
    node: NodeNo,
    references: &[NodeRef],
) -> Option<NodeRef>
    requires reads { CanRead (map_of worker.old.ops) task.tree.now references.now node }
    requires can { CanWork task worker.old }
    ensures gives { IfSome result (λ r. KnowsOne (map_of worker.new.ops) r (IsCutFamily task.entry.tree.now node)) }
    ensures goes_on { GoesOn task.entry worker.old worker.new }
{
    // Tells the proof what a tree keeps.
    task.tree.units();
    keep_few(worker);
    let Ok(own) = own_or_anew(worker, task.tree, node, references) else {
        return None;
    };
    match export(&worker.memory, &mut worker.copies, &mut worker.ops, own) {
        Ok(family) => Some(family),
        Err(_) => {
            worker.full = true;
            None
        }
    }
}
