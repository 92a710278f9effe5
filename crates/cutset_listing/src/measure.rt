//! How large a family is, from the sizes of its parts.
ghost use Rattle.std.specs.Prelude.{◌≡◌, ◌≢◌, ◌+◌, ◌<◌, ◌≤◌, ℕ, List, Some, [], length, IfOk, OnOk, IsErrOf};
ghost use Rattle.unit_sets.specs.CutOrder.{weight, weight_limit};
ghost use Rattle.zdd_families.specs.Map.{Knows, family};
ghost use Rattle.zdd_shared_table.specs.Seats.{map_of};
ghost use Rattle.cutset_listing.specs.FamilySizes.{AreSizes, IsSizeOf, size_at, with_size};
ghost use Rattle.cutset_listing.specs.Visits.{CanRead};

use indexmap::IndexMap;
use std::alloc::Global;
use std::marker::Model;
use unit_sets::{CutList, ListEnd, NoMemory};
use zdd_shared_table::{NodeStore, StoreSeat};
use zdd_words::NodeRef;

/// How many sets a family has, and what they weigh in a list: 1 for each set and 1 for each member.
#[derive(Clone, Copy)]
pub struct FamilySize {
    pub sets: u64,
    pub weight: u64,
}

/// How large a reference's family is. Each node is visited once, however many sets there are.
///
/// `ListLimit` comes exactly where the sets weigh more than a list may, and memory for a size of each node is there.
pub fn size(
    alloc: Global,
    store: &NodeStore,
    seat: &mut StoreSeat,
    root: NodeRef,
) -> Result<FamilySize, ListEnd>
    requires own { seat.old.store ≡ store.now }
    requires knows { Knows (map_of seat.old) root }
    ensures sets { IfOk result (λ size. size.sets ≡ length (family (map_of seat.old) root)) }
    ensures weight { IfOk result (λ size. size.weight ≡ weight (family (map_of seat.old) root)) }
    ensures within { OnOk result (weight (family (map_of seat.old) root) ≤ weight_limit) }
    ensures limit { IsErrOf result ListEnd.ListLimit → weight_limit < weight (family (map_of seat.old) root) }
    ensures seat { seat.new ≡ seat.old }
{
    let mut sizes = Sizes::new(alloc);
    sizes.of(store, seat, root)
}

// The sizes that were found, each with its reference.
#[derive(Drop)]
struct Sizes {
    found: IndexMap<NodeRef, FamilySize>,
}

impl Model for Sizes {
    ghost use Rattle.std.specs.Prelude.{ℕ, List};
    ghost use Rattle.cutset_listing.specs.declared.measure.FamilySize.{FamilySize};

    ghost Value = { List (ℕ × FamilySize) };

    ghost view = { λ sizes. sizes.found.entries };
}

impl Sizes {
    fn new(alloc: Global) -> Sizes
        ensures { result ≡ [] }
    {
        Sizes {
            found: IndexMap::new(alloc),
        }
    }

    // The size of a reference's family: of a node it is found once, from the sizes of its parts.
    #[cycle(of)]
    fn of(
        &mut self,
        store: &NodeStore,
        seat: &mut StoreSeat,
        r: NodeRef,
    ) -> Result<FamilySize, ListEnd>
        requires node { CanRead store.now seat.old r }
        requires found { AreSizes (map_of seat.old) self.old }
        ensures found { OnOk result (AreSizes (map_of seat.old) self.new) }
        ensures size { IfOk result (IsSizeOf (family (map_of seat.old) r)) }
        ensures limit { IsErrOf result ListEnd.ListLimit → weight_limit < weight (family (map_of seat.old) r) }
        ensures seat { seat.new ≡ seat.old }
    {
        if r == NodeRef::EMPTY {
            return Ok(FamilySize { sets: 0, weight: 0 });
        }
        if r == NodeRef::UNIT {
            return Ok(FamilySize { sets: 1, weight: 1 });
        }
        if let Some(size) = self.at(r) {
            return Ok(size);
        }
        let size = self.of_parts(store, seat, r)?;
        self.put(r, size)?;
        Ok(size)
    }

    // The size of a node's family: its sets without the node's unit, and those with it.
    #[cycle(of)]
    fn of_parts(
        &mut self,
        store: &NodeStore,
        seat: &mut StoreSeat,
        r: NodeRef,
    ) -> Result<FamilySize, ListEnd>
        requires node { CanRead store.now seat.old r }
        requires inner { 2 ≤ r }
        requires found { AreSizes (map_of seat.old) self.old }
        ensures found { OnOk result (AreSizes (map_of seat.old) self.new) }
        ensures size { IfOk result (IsSizeOf (family (map_of seat.old) r)) }
        ensures limit { IsErrOf result ListEnd.ListLimit → weight_limit < weight (family (map_of seat.old) r) }
        ensures seat { seat.new ≡ seat.old }
    {
        let parts = store.parts(seat, r);
        let lo = self.of(store, seat, parts.lo)?;
        let hi = self.of(store, seat, parts.hi)?;
        branch_size(lo, hi)
    }

    // The size that was found for a reference.
    fn at(&self, r: NodeRef) -> Option<FamilySize>
        ensures { result ≡ size_at self.now r }
    {
        self.found.get(&r).copied()
    }

    // Keeps the size of a reference's family.
    fn put(&mut self, r: NodeRef, size: FamilySize) -> Result<(), NoMemory>
        ensures { OnOk result ((q : ℕ) → size_at self.new q ≡ with_size r size self.old q) }
    {
        self.found.insert(r, size)?;
        Ok(())
    }
}

// The size of a branch: the sets of lo, and those of hi with one unit more each.
fn branch_size(lo: FamilySize, hi: FamilySize) -> Result<FamilySize, ListEnd>
    requires lo { lo.weight ≤ weight_limit }
    requires hi { hi.weight ≤ weight_limit }
    requires sets { (lo.sets ≤ lo.weight) × (hi.sets ≤ hi.weight) }
    ensures sets { IfOk result (λ size. size.sets ≡ lo.sets + hi.sets) }
    ensures weight { IfOk result (λ size. size.weight ≡ lo.weight + (hi.weight + hi.sets)) }
    ensures within { OnOk result (lo.weight + (hi.weight + hi.sets) ≤ weight_limit) }
    ensures limit { IsErrOf result ListEnd.ListLimit → weight_limit < lo.weight + (hi.weight + hi.sets) }
{
    let weight = lo.weight + hi.weight + hi.sets;
    if weight > CutList::WEIGHT_LIMIT {
        return Err(ListEnd::ListLimit);
    }
    Ok(FamilySize {
        sets: lo.sets + hi.sets,
        weight,
    })
}
