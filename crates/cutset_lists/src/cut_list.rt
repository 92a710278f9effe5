//! The cut list of a tree.
ghost use Rattle.std.specs.Prelude.{◌≡◌, ◌<◌, ◌≤◌, length, All, IfOk, IsErrOf};
ghost use Rattle.fault_definitions.specs.Cut.{IsCutList};
ghost use Rattle.unit_sets.specs.CutOrder.{IsInCutOrder, weight, weight_limit};
ghost use Rattle.unit_sets.specs.UnitList.{IsRising};
ghost use Rattle.cutset_lists.specs.Generation.{HasHeavyCutList};

use crate::bottom_up::top_list;
use crate::minimal::minimize;
use crate::{Room, Sets};
use fault_model::Tree;
use linked_list_allocator::LocalHeap;
use std::alloc::Global;
use unit_sets::{CutList, ListEnd};

/// How many bytes the lists on the way have together at most: 512 MiB, a multiple of what a cut list within its limit
/// takes. What sorts and compares a list takes about as much again beside it.
pub const ROOM: usize = 512 << 20;

/// The minimal cut sets of a tree, by size and then lexicographically by unit numbers.
///
/// They are sets of units that fail the top event in the static reading and no longer do without any one of their
/// members. `NoMemory` may come of any tree, since the lists on the way may be larger than the answer: it comes where
/// they would take more than `ROOM` bytes.
pub fn mcs_by_lists(alloc: Global, tree: &Tree) -> Result<CutList, ListEnd>
    ensures cut_list { IfOk result (IsCutList tree.now) }
    ensures within { IfOk result (λ cuts. weight cuts ≤ weight_limit) }

    // Only the weight of the cut list itself counts, and not that of a list on the way.
    ensures limit { IsErrOf result ListEnd.ListLimit → HasHeavyCutList tree.now }
{
    mcs_within(alloc, tree, ROOM)
}

/// The same, where the lists on the way have so many bytes together.
pub fn mcs_within(alloc: Global, tree: &Tree, bytes: usize) -> Result<CutList, ListEnd>
    ensures cut_list { IfOk result (IsCutList tree.now) }
    ensures within { IfOk result (λ cuts. weight cuts ≤ weight_limit) }
    ensures limit { IsErrOf result ListEnd.ListLimit → HasHeavyCutList tree.now }
{
    let heap = LocalHeap::new(alloc, bytes)?;
    let room = Room { heap: &heap, alloc };
    let mut sets = top_list(room, tree)?;
    minimize(room, &mut sets)?;
    cut_list(alloc, &sets)
}

// The sets as a cut list.
fn cut_list(alloc: Global, sets: &Sets) -> Result<CutList, ListEnd>
    requires filled { All (λ set. 0 < length set) sets.now }
    requires rising { All IsRising sets.now }
    requires ordered { IsInCutOrder sets.now }

    ensures cuts { IfOk result (λ cuts. cuts ≡ sets.now) }
    ensures within { IfOk result (λ cuts. weight cuts ≤ weight_limit) }
    ensures limit { IsErrOf result ListEnd.ListLimit → weight_limit < weight sets.now }
{
    let mut cuts = CutList::new(alloc);
    for i in 0..sets.len() {
        cuts.push(sets.row(i))?;
    }
    Ok(cuts)
}
