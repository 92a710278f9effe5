//! The walk that finds the sets of a family: hi before lo, so that sets of one size come in lexicographic order.
ghost use Rattle.std.specs.Prelude.{◌≡◌, ◌≢◌, ◌+◌, ◌<◌, ◌≤◌, ℕ, List, ◌∷◌, [], ◌++◌, true, false, length, IfOk, OnOk};
ghost use Rattle.std.specs.Prelude.{IsErrOf};
ghost use Rattle.std.specs.List.{AllByRecursion};
ghost use Rattle.unit_sets.specs.CutOrder.{weight, weight_limit};
ghost use Rattle.zdd_families.specs.Map.{Knows, family};
ghost use Rattle.zdd_shared_table.specs.Seats.{map_of};
ghost use Rattle.cutset_listing.specs.BySize.{of_size, at_size};
ghost use Rattle.cutset_listing.specs.Visits.{CanRead, Descends, IsPending, IsTooHeavy, Keeps, visits_ahead};
ghost use Rattle.cutset_listing.specs.Visits.{visits_left, WalksOn, with_later};

use crate::found::Found;
use std::alloc::Global;
use unit_sets::{CutList, ListEnd, NoMemory, UnitNo};
use zdd_shared_table::{NodeStore, StoreSeat};
use zdd_words::NodeRef;

// The most units that a path has: one of each level.
const LEVELS: usize = UnitNo::MAX as usize;

// A node whose sets are still to be found, and how many units of the path stand before them.
#[derive(Clone, Copy)]
pub(crate) struct Pending {
    node: NodeRef,
    before: usize,
}

// Where a walk stands: the units on the way to the last node, the nodes that are still to be visited, and what was
// found, with its weight.
#[derive(Drop)]
pub(crate) struct Walk {
    path: Vec<UnitNo>,
    pending: Vec<Pending>,
    found: Found,
    weight: u64,
}

/// The sets of a reference's family, apart by their size.
pub(crate) fn find(
    alloc: Global,
    store: &NodeStore,
    seat: &mut StoreSeat,
    root: NodeRef,
) -> Result<Found, ListEnd>
    requires { CanRead store.now seat.old root }
    ensures sets { IfOk result (λ found. (size : ℕ)
        → at_size found size ≡ of_size size (family (map_of seat.old) root)) }
    ensures within { OnOk result (weight (family (map_of seat.old) root) ≤ weight_limit) }
    ensures limit { IsErrOf result ListEnd.ListLimit → weight_limit < weight (family (map_of seat.old) root) }
    ensures seat { seat.new ≡ seat.old }
{
    let mut walk = Walk::new(alloc, root)?;
    loop {
        if !walk.visit(alloc, store, seat)? {
            return Ok(walk.found);
        }
    }
}

impl Walk {
    fn new(alloc: Global, root: NodeRef) -> Result<Walk, NoMemory>
        ensures path { IfOk result (λ walk. walk.path.items ≡ []) }
        ensures pending { IfOk result (λ walk. walk.pending.items ≡ record { node = root; before = 0 } ∷ []) }
        ensures found { IfOk result (λ walk. walk.found ≡ []) }
        ensures weight { IfOk result (λ walk. walk.weight ≡ 0) }
    {
        let path = Vec::with_capacity(alloc, LEVELS)?;
        let mut pending = Vec::with_capacity(alloc, LEVELS + 1)?;
        pending.push(Pending {
            node: root,
            before: 0,
        })?;
        Ok(Walk {
            path,
            pending,
            found: Found::new(alloc),
            weight: 0,
        })
    }

    // Visits the last of the pending nodes. False where there is none.
    fn visit(
        &mut self,
        alloc: Global,
        store: &NodeStore,
        seat: &mut StoreSeat,
    ) -> Result<bool, ListEnd>
        requires own { seat.old.store ≡ store.now }
        requires light { self.old.weight ≤ weight_limit }
        requires pending { AllByRecursion (IsPending (map_of seat.old) self.old.path.items) self.old.pending.items }
        ensures on { OnOk result (WalksOn (map_of seat.old) self.old self.old.pending.items self.new
            self.new.pending.items) }
        ensures light { OnOk result (self.new.weight ≤ weight_limit) }
        ensures fewer { IfOk result (λ visited. visited ≡ true
            → visits_left (map_of seat.old) self.new.pending.items
            < visits_left (map_of seat.old) self.old.pending.items) }
        ensures done { IfOk result (λ visited. visited ≡ false → self.new.pending.items ≡ []) }
        ensures limit { IsErrOf result ListEnd.ListLimit
            → IsTooHeavy (map_of seat.old) self.old self.old.pending.items }
        ensures seat { seat.new ≡ seat.old }
    {
        match self.pending.pop() {
            Some(last) => {
                self.path.truncate(last.before);
                match self.enter(alloc, store, seat, last) {
                    Ok(()) => Ok(true),
                    Err(end) => Err(end),
                }
            }
            None => Ok(false),
        }
    }

    // Enters a node at the end of the path: the first of its sets is found, the others stay pending.
    fn enter(
        &mut self,
        alloc: Global,
        store: &NodeStore,
        seat: &mut StoreSeat,
        at: Pending,
    ) -> Result<(), ListEnd>
        requires node { CanRead store.now seat.old at.node }
        requires light { self.old.weight ≤ weight_limit }
        requires at_end { length self.old.path.items ≡ at.before }
        ensures on { OnOk result (WalksOn (map_of seat.old) self.old (self.old.pending.items ++ at ∷ []) self.new
            self.new.pending.items) }
        ensures light { OnOk result (self.new.weight ≤ weight_limit) }
        ensures fewer { OnOk result (visits_left (map_of seat.old) self.new.pending.items
            < visits_left (map_of seat.old) (self.old.pending.items ++ at ∷ [])) }
        ensures limit { IsErrOf result ListEnd.ListLimit
            → IsTooHeavy (map_of seat.old) self.old (self.old.pending.items ++ at ∷ []) }
        ensures seat { seat.new ≡ seat.old }
    {
        if at.node == NodeRef::EMPTY {
            return Ok(());
        }
        self.descend(store, seat, at.node)?;
        self.keep(alloc)
    }

    // Goes down from a node that has sets, by hi as far as it goes: to the end of the first set.
    fn descend(
        &mut self,
        store: &NodeStore,
        seat: &mut StoreSeat,
        node: NodeRef,
    ) -> Result<(), NoMemory>
        requires node { CanRead store.now seat.old node }
        requires filled { node ≢ 0 }
        ensures on { OnOk result (Descends (map_of seat.old) self.old node self.new 1) }
        ensures seat { seat.new ≡ seat.old }
    {
        let mut at = node;
        while at != NodeRef::UNIT {
            at = self.open(store, seat, at)?;
        }
        Ok(())
    }

    // Takes the unit of a node at the end of the path, and puts off the sets without it. Gives those with it.
    fn open(
        &mut self,
        store: &NodeStore,
        seat: &mut StoreSeat,
        node: NodeRef,
    ) -> Result<NodeRef, NoMemory>
        requires node { CanRead store.now seat.old node }
        requires inner { 2 ≤ node }
        ensures on { IfOk result (Descends (map_of seat.old) self.old node self.new) }
        ensures fewer { IfOk result (λ hi. visits_ahead (map_of seat.old) self.new hi
            < visits_ahead (map_of seat.old) self.old node) }
        ensures knows { IfOk result (Knows (map_of seat.old)) }
        ensures filled { IfOk result (λ hi. hi ≢ 0) }
        ensures seat { seat.new ≡ seat.old }
    {
        let parts = store.parts(seat, node);
        put_off(
            &mut self.pending,
            Pending {
                node: parts.lo,
                before: self.path.len(),
            },
        )?;
        self.path.push(parts.level)?;
        Ok(parts.hi)
    }

    // Keeps the units of the path, which are a set.
    fn keep(&mut self, alloc: Global) -> Result<(), ListEnd>
        requires light { self.old.weight ≤ weight_limit }
        ensures kept { OnOk result (Keeps self.old self.new) }
        ensures light { OnOk result (self.new.weight ≤ weight_limit) }
        ensures limit { IsErrOf result ListEnd.ListLimit
            → weight_limit < self.old.weight + (1 + length self.old.path.items) }
    {
        let weight = self.weight + 1 + self.path.len() as u64;
        if weight > CutList::WEIGHT_LIMIT {
            return Err(ListEnd::ListLimit);
        }
        self.found.add(alloc, &self.path)?;
        self.weight = weight;
        Ok(())
    }
}

// Puts a node to those that are to be visited, unless it has no sets.
fn put_off(pending: &mut Vec<Pending>, at: Pending) -> Result<(), NoMemory>
    ensures { OnOk result (pending.new.items ≡ with_later pending.old.items at) }
{
    if at.node != NodeRef::EMPTY {
        pending.push(at)?;
    }
    Ok(())
}
