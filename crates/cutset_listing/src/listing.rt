//! The sets of a known reference as a list.
ghost use Rattle.std.specs.Prelude.{◌≡◌, ◌≤◌, IfOk, OnOk, IsErrOf};
ghost use Rattle.unit_sets.specs.CutOrder.{weight, weight_limit};
ghost use Rattle.zdd_families.specs.Map.{Knows, family};
ghost use Rattle.zdd_shared_table.specs.Seats.{map_of};
ghost use Rattle.cutset_listing.specs.Listing.{HasHeavyList, HasSetsOf, LacksEmptySet};

use crate::walk::find;
use std::alloc::Global;
use unit_sets::{CutList, ListEnd};
use zdd_shared_table::{NodeStore, StoreSeat};
use zdd_words::NodeRef;

/// The sets of a reference's family, each once, by size and then lexicographically by unit numbers.
///
/// `ListLimit` comes exactly where the sets weigh more than a list may, and memory for the sets is there.
pub fn list(
    alloc: Global,
    store: &NodeStore,
    seat: &mut StoreSeat,
    root: NodeRef,
) -> Result<CutList, ListEnd>
    requires own { seat.old.store ≡ store.now }
    requires knows { Knows (map_of seat.old) root }
    requires filled { LacksEmptySet (family (map_of seat.old) root) }
    ensures sets { IfOk result (HasSetsOf (family (map_of seat.old) root)) }
    ensures within { OnOk result (weight (family (map_of seat.old) root) ≤ weight_limit) }
    ensures limit { IsErrOf result ListEnd.ListLimit → HasHeavyList (family (map_of seat.old) root) }
    ensures seat { seat.new ≡ seat.old }
{
    // Tells the proof that the family's sets rise and stand in order.
    seat.is_sound();
    let found = find(alloc, store, seat, root)?;
    found.cut_list(alloc)
}
