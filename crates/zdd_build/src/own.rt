//! The cut family of a node in a worker's own memory.
ghost use Rattle.std.specs.Prelude.{◌≡◌, ◌≤◌, All, IfErr, IfOk, OnOk, length, take};
ghost use Rattle.fault_definitions.specs.CutFamily.{IsCutFamily};
ghost use Rattle.fault_definitions.specs.Tree.{IsNodeOf};
ghost use Rattle.fault_definitions.specs.Trigger.{below};
ghost use Rattle.family_memory.specs.Memory.{Gave, Has, RanOut, Went};
ghost use Rattle.many_families.specs.Lists.{families};
ghost use Rattle.tree_families.specs.Recipe.{StandFor};
ghost use Rattle.zdd_shared_table.specs.Seats.{map_of};
ghost use Rattle.family_copies.specs.Copies.{AreCopies};
ghost use Rattle.zdd_build.specs.Building.{CanRead, HasFamily};
ghost use Rattle.zdd_build.specs.Workers.{IsEquipped, KeepsSeat};

use crate::worker::Worker;
use family_copies::import;
use family_memory::Spent;
use fault_model::{NodeNo, Tree};
use minimal_nodes::cut_family;
use zdd_words::NodeRef;

// Brings the cut family of one node into a worker's memory.
fn read_one(
    worker: &mut Worker,
    tree: &Tree,
    node: NodeNo,
    references: &[NodeRef],
) -> Result<NodeRef, Spent>
    requires node { IsNodeOf tree.now node }
    requires within { node ≤ length references.now }
    requires knows { HasFamily (map_of worker.old.ops) tree.now references.now node }
    requires copies { AreCopies worker.old.memory (map_of worker.old.ops) worker.old.copies }
    ensures gives { IfOk result (Gave (IsCutFamily tree.now node) worker.old.memory worker.new.memory) }
    ensures spent { IfErr result (λ _. RanOut worker.old.memory worker.new.memory) }
    ensures copies { AreCopies worker.new.memory (map_of worker.new.ops) worker.new.copies }
    ensures keeps { KeepsSeat worker.old worker.new }
    ensures rooms { worker.new.rooms ≡ worker.old.rooms }
{
    // Tells the proof what a tree keeps.
    tree.units();
    let shared = references[node.index()];
    import(
        &mut worker.memory,
        &mut worker.copies,
        &mut worker.ops,
        shared,
    )
}

// Brings the families of what a node reads into the worker's memory, in the order in which it reads them.
fn read_below(
    worker: &mut Worker,
    tree: &Tree,
    node: NodeNo,
    references: &[NodeRef],
) -> Result<(), Spent>
    requires reads { CanRead (map_of worker.old.ops) tree.now references.now node }
    requires equipped { IsEquipped tree.now worker.old }
    ensures went { Went worker.old.memory worker.new.memory }
    ensures has { OnOk result (All (Has worker.new.memory)
        (take (length (below tree.now node)) worker.new.rooms.list.items)) }
    ensures stand { OnOk result (StandFor (IsCutFamily tree.now) (below tree.now node)
        (families worker.new.memory (take (length (below tree.now node)) worker.new.rooms.list.items))) }
    ensures equipped { IsEquipped tree.now worker.new }
    ensures keeps { KeepsSeat worker.old worker.new }
{
    // Tells the proof what the memory keeps.
    worker.memory.is_sound();
    let nodes = tree.below(node);
    for i in 0..nodes.len() {
        let own = read_one(worker, tree, nodes[i], references)?;
        worker.rooms.list[i] = own;
    }
    Ok(())
}

/// The cut family of a node in the worker's memory, from a list with a reference of the store for each node.
pub(crate) fn own_family(
    worker: &mut Worker,
    tree: &Tree,
    node: NodeNo,
    references: &[NodeRef],
) -> Result<NodeRef, Spent>
    requires reads { CanRead (map_of worker.old.ops) tree.now references.now node }
    requires equipped { IsEquipped tree.now worker.old }
    ensures gives { IfOk result (Gave (IsCutFamily tree.now node) worker.old.memory worker.new.memory) }
    ensures equipped { IsEquipped tree.now worker.new }
    ensures keeps { KeepsSeat worker.old worker.new }
{
    // Tells the proof what the memory keeps.
    worker.memory.is_sound();
    read_below(worker, tree, node, references)?;
    let count = tree.below(node).len();
    cut_family(
        &mut worker.memory,
        tree,
        node,
        &worker.rooms.list[..count],
        &mut worker.rooms.votes[..],
    )
}
