//! The sets that one worker gets, and their orders in one buffer.
ghost use Rattle.std.specs.Prelude.{◌≡◌, ◌<◌, ◌≤◌, [], length, true, slice_index_or};
ghost use Rattle.flat_rows.specs.Rows.{start_of};
ghost use Rattle.cut_sequences.specs.Orders.{order_limit, order_total, orders_of, orders_at, is_listed};
ghost use Rattle.cut_sequences.specs.Going.{CanGoOn};
ghost use Rattle.cut_sequences.specs.Holding.{lists_of, HoldsShare};
ghost use Rattle.cut_sequences.specs.Working.{AddsList, AddsSets, CanGrow, CanWork, WentOn, lists_due, share_of};

use crate::OrderEnd;
use crate::search::Search;
use fault_model::Tree;
use flat_rows::Rows;
use std::alloc::Global;
use std::marker::Model;
use unit_sets::{CutList, UnitNo};

/// The orders of a worker's sets, one after another. A contract sees the list of its sets' lists.
#[derive(Drop)]
pub struct Share {
    orders: Rows<UnitNo>,
    // Where the orders of each set end, which begin where those of the set before end.
    ends: Vec<usize>,
    listed: Vec<bool>,
}

impl Model for Share {
    ghost use Rattle.std.specs.Prelude.{List, Option, ℕ};
    ghost use Rattle.cut_sequences.specs.Holding.{lists_of, HoldsShare};

    ghost Value = { List (Option (List (List ℕ))) };

    ghost view = { λ share. lists_of share };

    ghost invariant = { λ share. HoldsShare share };
}

/// The sets whose orders the workers list: those of a tree's cut list with at most so many members.
#[derive(Clone, Copy)]
pub struct Sets<'a> {
    pub tree: &'a Tree,
    pub cuts: &'a CutList,
    pub most: u32,
}

/// The share of a worker so far, and the place of the first set that it still lacks.
#[derive(Drop)]
pub struct Work {
    pub share: Share,
    pub next: usize,
}

/// Where the workers stop: at the set of a place, or as soon as they have more than so many orders each.
#[derive(Clone, Copy)]
pub struct Stop {
    pub place: usize,
    pub orders: usize,
}

// Where the orders of the set of a place begin: at the end of those of the set before it.
fn start(ends: &[usize], i: usize) -> usize
    requires { i ≤ length ends.now }
    ensures { result ≡ start_of 0 ends.now i }
{
    if i == 0 { 0 } else { ends[i - 1] }
}

impl Share {
    /// The share of no set.
    pub fn new(alloc: Global) -> Share
        ensures { result ≡ [] }
    {
        Share {
            orders: Rows::new(alloc),
            ends: Vec::new(alloc),
            listed: Vec::new(alloc),
        }
    }

    /// The number of orders of all sets.
    pub fn total(&self) -> usize
        ensures value { result ≡ order_total self.now }
        ensures few { result ≤ order_limit }
    {
        self.orders.len()
    }

    /// Whether the set of a place is listed. After the last place none is.
    pub fn listed(&self, i: usize) -> bool
        ensures { result ≡ is_listed self.now i }
    {
        i < self.listed.len() && self.listed[i]
    }

    /// The number of orders of a listed set.
    pub fn count(&self, i: usize) -> usize
        requires { is_listed self.now i ≡ true }
        ensures { result ≡ length (orders_at self.now i) }
    {
        self.ends[i] - start(self.ends.as_slice(), i)
    }

    /// The order of a number, from 0, of the set of a place.
    pub fn order(&self, i: usize, j: usize) -> &[UnitNo]
        requires { j < length (orders_at self.now i) }
        ensures { result.now ≡ slice_index_or (orders_at self.now i) j [] }
    {
        self.orders.row(start(self.ends.as_slice(), i) + j)
    }
}

// A share that grows: the search has its orders, and goes on with those of the next set.
#[derive(Drop)]
struct GrowingShare<'t> {
    search: Search<'t>,
    ends: Vec<usize>,
    listed: Vec<bool>,
}

impl<'t> GrowingShare<'t> {
    // Lists the orders of one set more, if it is not too large.
    fn add_set(&mut self, sets: Sets, set: &[UnitNo]) -> Result<(), OrderEnd>
        requires grows { CanGrow sets self.old }
        requires set { CanGoOn sets.tree.now [] set.now }
        requires some { 0 < length set.now }
        ensures { AddsList sets.entry self.old self.new (orders_of sets.entry.tree.now sets.entry.most set.now) result }
    {
        let small = set.len() <= sets.most as usize;
        if small {
            self.search.list_set(set)?;
        }
        self.ends.push(self.search.orders.len())?;
        self.listed.push(small)?;
        Ok(())
    }

    // The share as far as it has grown.
    fn end(self) -> Share
        requires { HoldsShare (share_of self) }
        ensures { result ≡ lists_of (share_of self.entry) }
    {
        let GrowingShare {
            search,
            ends,
            listed,
        } = self;
        let Search { orders, .. } = search;
        Share {
            orders,
            ends,
            listed,
        }
    }

    // Lists the orders of a worker's sets from a place on, until the worker has to stop: answers the place of the next
    // set.
    fn add_sets(
        &mut self,
        sets: Sets,
        workers: usize,
        stop: Stop,
        from: usize,
    ) -> Result<usize, OrderEnd>
        requires can { CanWork sets workers stop }
        requires grows { CanGrow sets self.old }
        ensures { AddsSets sets.entry workers stop self.old from self.new result }
    {
        let mut next = from;
        while next < stop.place && self.search.orders.len() <= stop.orders {
            self.add_set(sets, sets.cuts.members(next))?;
            next += workers;
        }
        Ok(next)
    }
}

// The search goes on with the orders of a share.
fn growing_from<'t>(search: Search<'t>, share: Share) -> GrowingShare<'t>
    ensures search { result.search.replay ≡ search.entry.replay }
    ensures share { share ≡ lists_of (share_of result) }
    ensures held { HoldsShare (share_of result) }
{
    let Share {
        orders,
        ends,
        listed,
    } = share;
    let mut search = search;
    search.orders = orders;
    GrowingShare {
        search,
        ends,
        listed,
    }
}

/// Goes on with a worker's sets, every so many sets one, until it has to stop.
pub fn go_on(
    alloc: Global,
    sets: Sets,
    workers: usize,
    stop: Stop,
    work: Work,
) -> Result<Work, OrderEnd>
    requires { CanWork sets workers stop }
    ensures { WentOn (lists_due sets.entry) workers stop work result }
{
    let search = Search::new(alloc, sets.tree)?;
    let Work { share, next } = work;
    let mut growing = growing_from(search, share);
    match growing.add_sets(sets, workers, stop, next) {
        Ok(next) => Ok(Work {
            share: growing.end(),
            next,
        }),
        Err(end) => {
            drop(growing);
            Err(end)
        }
    }
}
