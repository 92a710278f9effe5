//! The orders of the sets of a cut list.
ghost use Rattle.std.specs.Prelude.{◌≡◌, ◌<◌, ◌≤◌, [], None, length, true, IfOk, IsErrOf, slice_index_or, sum_by};
ghost use Rattle.cut_sequences.specs.Dealing.{AreShares, gathered};
ghost use Rattle.cut_sequences.specs.Orders.{is_listed, orders_at, order_limit, order_total};

use crate::share::Share;
use crate::{ORDER_LIMIT, OrderEnd};
use deck_limits::MOST_WORKERS;
use std::marker::Model;
use unit_sets::UnitNo;

/// For each set of a cut list its failing orders, in lexicographic order, or that it is not listed.
///
/// The set of a place lies in the share of one worker: the worker's number is what is left of the place divided by the
/// number of workers. A share ends with the last set that the worker has listed, or later.
#[derive(Drop)]
pub struct OrderLists {
    shares: Vec<Share>,
    sets: usize,
    total: u64,
}

impl Model for OrderLists {
    ghost use Rattle.std.specs.Prelude.{◌≡◌, List, Option, ℕ};
    ghost use Rattle.cut_sequences.specs.Dealing.{AreShares, gathered};
    ghost use Rattle.cut_sequences.specs.Orders.{order_total};

    ghost Value = { List (Option (List (List ℕ))) };

    ghost view = { λ lists. gathered lists.sets lists.shares.items };

    ghost invariant = { λ lists. AreShares (gathered lists.sets lists.shares.items) lists.shares.items
        × (lists.total ≡ order_total (gathered lists.sets lists.shares.items)) };
}

impl OrderLists {
    /// The number of sets.
    pub fn sets(&self) -> usize
        ensures { result ≡ length self.now }
    {
        self.sets
    }

    /// The number of orders of all listed sets.
    pub fn total(&self) -> u64
        ensures { result ≡ order_total self.now }
    {
        self.total
    }

    // The share that has the list of a set, and the set's place among those of the share.
    fn share_of(&self, i: usize) -> (&Share, usize)
        ensures { slice_index_or result.0.now result.1 None ≡ slice_index_or self.now i None }
    {
        let workers = self.shares.len();
        (&self.shares[i % workers], i / workers)
    }

    /// Whether the set of a place is listed.
    pub fn listed(&self, i: usize) -> bool
        requires { i < length self.now }
        ensures { result ≡ is_listed self.now i }
    {
        let (share, place) = self.share_of(i);
        share.listed(place)
    }

    /// The number of orders of a listed set.
    pub fn count(&self, i: usize) -> usize
        requires within { i < length self.now }
        requires listed { is_listed self.now i ≡ true }
        ensures { result ≡ length (orders_at self.now i) }
    {
        let (share, place) = self.share_of(i);
        share.count(place)
    }

    /// The order of a number, from 0, of a listed set.
    pub fn order(&self, i: usize, j: usize) -> &[UnitNo]
        requires within { i < length self.now }
        requires listed { is_listed self.now i ≡ true }
        requires order { j < length (orders_at self.now i) }
        ensures { result.now ≡ slice_index_or (orders_at self.now i) j [] }
    {
        let (share, place) = self.share_of(i);
        share.order(place, j)
    }
}

// The number of orders of some shares.
fn total_of(shares: &[Share]) -> u64
    requires { length shares.now ≤ MOST_WORKERS }
    ensures { result ≡ sum_by order_total shares.now }
{
    let mut total = 0;
    for share in shares {
        total += share.total() as u64;
    }
    total
}

/// The lists of so many sets, from the shares of all workers.
pub fn gather(shares: Vec<Share>, sets: usize) -> Result<OrderLists, OrderEnd>
    requires shares { AreShares (gathered sets shares.items) shares.items }
    requires few { length shares.items ≤ MOST_WORKERS }

    ensures lists { IfOk result (λ lists. lists ≡ gathered sets shares.items) }
    ensures within { IfOk result (λ lists. order_total lists ≤ order_limit) }
    ensures limit { IsErrOf result OrderEnd.OrderLimit → order_limit < order_total (gathered sets shares.items) }
{
    let total = total_of(shares.as_slice());
    if total > ORDER_LIMIT {
        return Err(OrderEnd::OrderLimit);
    }
    Ok(OrderLists {
        shares,
        sets,
        total,
    })
}
