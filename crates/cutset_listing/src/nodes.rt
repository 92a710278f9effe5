//! The number of nodes of a diagram.
ghost use Rattle.std.specs.Prelude.{◌≡◌, ◌<◌, [], length, IfOk, OnOk, slice_index_or};
ghost use Rattle.zdd_families.specs.Nodes.{IsNodeCount};
ghost use Rattle.zdd_families.specs.Map.{Knows, family};
ghost use Rattle.zdd_shared_table.specs.Seats.{map_of};
ghost use Rattle.cutset_listing.specs.Nodes.{with_node};

use indexmap::IndexSet;
use std::alloc::Global;
use unit_sets::NoMemory;
use zdd_shared_table::{NodeStore, StoreSeat};
use zdd_words::NodeRef;

// Puts a reference behind those that a search has met, unless it is among them or a terminal.
fn meet(met: &mut IndexSet<NodeRef>, r: NodeRef) -> Result<(), NoMemory>
    ensures { OnOk result (met.new.keys ≡ with_node r met.old.keys) }
{
    if r != NodeRef::EMPTY && r != NodeRef::UNIT {
        met.insert(r)?;
    }
    Ok(())
}

/// The number of distinct families, other than the one without sets and that of the empty set alone, that are got from
/// a reference's family, itself included, by splitting at the least unit again and again.
pub fn node_count(
    alloc: Global,
    store: &NodeStore,
    seat: &mut StoreSeat,
    root: NodeRef,
) -> Result<u64, NoMemory>
    requires own { seat.old.store ≡ store.now }
    requires knows { Knows (map_of seat.old) root }
    ensures count { IfOk result (IsNodeCount (family (map_of seat.old) root)) }
    ensures seat { seat.new ≡ seat.old }
{
    let mut met = IndexSet::new(alloc);
    count_met(&mut met, store, seat, root)
}

// Meets a reference's node and all nodes below it, where none is met yet, and counts them.
fn count_met(
    met: &mut IndexSet<NodeRef>,
    store: &NodeStore,
    seat: &mut StoreSeat,
    root: NodeRef,
) -> Result<u64, NoMemory>
    requires own { seat.old.store ≡ store.now }
    requires knows { Knows (map_of seat.old) root }
    requires none { met.old.keys ≡ [] }
    ensures count { IfOk result (IsNodeCount (family (map_of seat.old) root)) }
    ensures seat { seat.new ≡ seat.old }
{
    // Tells the proof that different references have different families.
    seat.is_sound();
    meet(met, root)?;
    let mut place = 0;
    while place < met.len() {
        let parts = store.parts(seat, met[place]);
        // Tells the proof that both are parts of the node's word.
        parts.lo.number();
        parts.hi.number();
        meet(met, parts.lo)?;
        meet(met, parts.hi)?;
        place += 1;
    }
    Ok(met.len() as u64)
}
