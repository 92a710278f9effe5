//! The orders of each cut set that fail the top event.
ghost use Rattle.std.specs.Prelude.{◌≡◌, ◌<◌, ◌≤◌, All, IfOk, IsErrOf};
ghost use Rattle.fault_definitions.specs.Tree.{IsUnitOf};
ghost use Rattle.cut_sequences.specs.Orders.{order_limit, order_lists, order_total};
ghost use Rattle.cut_sequences.specs.Working.{IsEndOfListed};

use crate::lists::gather;
use crate::rounds::all_shares;
use crate::share::Sets;
use crate::{OrderEnd, OrderLists};
use deck_limits::{MOST_ORDERED, MOST_WORKERS};
use fault_model::Tree;
use std::alloc::Global;
use std::thread::Threads;
use unit_sets::CutList;

/// The most orders that are listed over all sets.
pub const ORDER_LIMIT: u64 = 2_000_000;

// The place after the last set that is listed. All that come after it are larger: the sets stand by their sizes, so it
// is found by halves.
fn end_of_listed(cuts: &CutList, most: u32) -> usize
    ensures { IsEndOfListed cuts.now most result }
{
    let mut low = 0;
    let mut high = cuts.len();
    while low < high {
        let middle = low + (high - low) / 2;
        if cuts.members(middle).len() <= most as usize {
            low = middle + 1;
        } else {
            high = middle;
        }
    }
    high
}

/// For each set of at most `most` members, its orders that can happen and fail the top event, in lexicographic order by
/// unit numbers. Larger sets are not listed.
///
/// The answer is the same for any number of workers. `NoMemory` may come instead of either answer.
pub fn orders<R: Threads + Sync>(
    rt: &R,
    alloc: Global,
    tree: &Tree,
    cuts: &CutList,
    most: u32,
    workers: u32,
) -> Result<OrderLists, OrderEnd>
    requires most { most ≤ MOST_ORDERED }
    requires some { 1 ≤ workers }
    requires few { workers ≤ MOST_WORKERS }
    requires units { All (λ cut. All (IsUnitOf tree.now) cut) cuts.now }

    ensures listed { IfOk result (λ lists. lists ≡ order_lists tree.now cuts.now most) }
    ensures within { IfOk result (λ lists. order_total lists ≤ order_limit) }

    // Only where the listed sets have more orders than the limit.
    ensures limit { IsErrOf result OrderEnd.OrderLimit
        → order_limit < order_total (order_lists tree.now cuts.now most) }
{
    let end = end_of_listed(cuts, most);
    // A worker without a set would cost its thread.
    let workers = (workers as usize).min(end.max(1));
    let sets = Sets { tree, cuts, most };
    let shares = all_shares(rt, alloc, sets, end, workers)?;
    gather(shares, cuts.len())
}
