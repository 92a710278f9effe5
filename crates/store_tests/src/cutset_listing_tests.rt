//! Lists and sizes of the sets of some diagrams.
ghost use Rattle.std.specs.Prelude.{◌≡◌, ◌≢◌, ◌+◌, ◌*◌, ◌<◌, ◌≤◌, ℕ, IfOk, OnOk};
ghost use Rattle.unit_sets.specs.Unit.{IsUnit};
ghost use Rattle.zdd_families.specs.Map.{family};
ghost use Rattle.zdd_shared_table.specs.Seats.{map_of};
ghost use Rattle.cutset_listing.specs.Listing.{LacksEmptySet};
ghost use Rattle.store_tests.specs.Made.{IsMade, Keeps};

use cutset_listing::{list, node_count, size};
use std::alloc::Global;
use std::test::Fail;
use unit_sets::{CutList, ListEnd, UnitNo};
use zdd_shared_table::{NodeStore, StoreSeat, StoreStart};
use zdd_words::NodeRef;

fn unit(number: u16) -> Result<UnitNo, Fail>
    ensures { IfOk result (λ made. made ≡ number) }
{
    Ok(UnitNo::new(number).ok_or("no unit")?)
}

// A node of the store.
fn put(
    store: &NodeStore,
    seat: &mut StoreSeat,
    level: u16,
    lo: NodeRef,
    hi: NodeRef,
) -> Result<NodeRef, Fail>
    requires own { seat.old.store ≡ store.now }
    requires lo { IsMade (map_of seat.old) level lo }
    requires hi { IsMade (map_of seat.old) level hi }
    requires filled { hi ≢ 0 }
    ensures store { seat.new.store ≡ seat.old.store }
    ensures keeps { OnOk result (Keeps (map_of seat.old) (map_of seat.new)) }
    ensures made { IfOk result (λ r. (below : ℕ) → below < level → IsMade (map_of seat.new) below r) }
    ensures filled { IfOk result (λ r. r ≢ 0) }
    ensures lacks { IfOk result (λ r. LacksEmptySet (family (map_of seat.old) lo)
        → LacksEmptySet (family (map_of seat.new) r)) }
{
    seat.is_sound();
    let r = store.node(seat, unit(level)?, lo, hi)?;
    Ok(r)
}

// Whether the list has these sets, each written as its units and then zeros.
fn has(cuts: &CutList, sets: &[[u16; 3]]) -> bool {
    let mut same = cuts.len() == sets.len();
    for i in 0..cuts.len() {
        let members = cuts.members(i);
        same = same && i < sets.len() && members.len() <= 3;
        for j in 0..3 {
            let number = if j < members.len() {
                members[j].number()
            } else {
                0
            };
            same = same && i < sets.len() && sets[i][j] == number;
        }
    }
    same
}

// Each two of the units 1, 2 and 3.
fn two_of_three(store: &NodeStore, seat: &mut StoreSeat) -> Result<NodeRef, Fail>
    requires own { seat.old.store ≡ store.now }
    ensures store { seat.new.store ≡ seat.old.store }
    ensures made { IfOk result (IsMade (map_of seat.new) 0) }
    ensures lacks { IfOk result (λ r. LacksEmptySet (family (map_of seat.new) r)) }
{
    let third = put(store, seat, 3, NodeRef::EMPTY, NodeRef::UNIT)?;
    let both = put(store, seat, 2, NodeRef::EMPTY, third)?;
    let either = put(store, seat, 2, third, NodeRef::UNIT)?;
    put(store, seat, 1, both, either)
}

// The sets 1 2 and 3.
fn two_and_one(store: &NodeStore, seat: &mut StoreSeat) -> Result<NodeRef, Fail>
    requires own { seat.old.store ≡ store.now }
    ensures store { seat.new.store ≡ seat.old.store }
    ensures made { IfOk result (IsMade (map_of seat.new) 0) }
    ensures lacks { IfOk result (λ r. LacksEmptySet (family (map_of seat.new) r)) }
{
    let three = put(store, seat, 3, NodeRef::EMPTY, NodeRef::UNIT)?;
    let two = put(store, seat, 2, NodeRef::EMPTY, NodeRef::UNIT)?;
    put(store, seat, 1, three, two)
}

// The sets 1 2, 3 4 and so on.
fn pairs(store: &NodeStore, seat: &mut StoreSeat, count: u16) -> Result<NodeRef, Fail>
    requires own { seat.old.store ≡ store.now }
    requires few { count ≤ 2047 }
    ensures store { seat.new.store ≡ seat.old.store }
    ensures made { IfOk result (IsMade (map_of seat.new) 0) }
    ensures lacks { IfOk result (λ r. LacksEmptySet (family (map_of seat.new) r)) }
{
    let mut all = NodeRef::EMPTY;
    let mut left = count;
    while left > 0 {
        let second = put(store, seat, 2 * left, NodeRef::EMPTY, NodeRef::UNIT)?;
        all = put(store, seat, 2 * left - 1, all, second)?;
        left -= 1;
    }
    Ok(all)
}

// One of 1 and 2 with one of 3 and 4 and so on.
fn ways(store: &NodeStore, seat: &mut StoreSeat, count: u16) -> Result<NodeRef, Fail>
    requires own { seat.old.store ≡ store.now }
    requires some { 1 ≤ count }
    requires few { count ≤ 2047 }
    ensures store { seat.new.store ≡ seat.old.store }
    ensures made { IfOk result (IsMade (map_of seat.new) 0) }
    ensures lacks { IfOk result (λ r. LacksEmptySet (family (map_of seat.new) r)) }
{
    let mut all = NodeRef::UNIT;
    let mut left = count;
    while left > 0 {
        let second = put(store, seat, 2 * left, NodeRef::EMPTY, all)?;
        all = put(store, seat, 2 * left - 1, second, all)?;
        left -= 1;
    }
    Ok(all)
}

// Whether a family is listed as these sets, is as large as their list, and has so many nodes.
fn gives(
    alloc: Global,
    store: &NodeStore,
    seat: &mut StoreSeat,
    root: NodeRef,
    sets: &[[u16; 3]],
    nodes: u64,
) -> Result<bool, Fail>
    requires own { seat.old.store ≡ store.now }
    requires made { IsMade (map_of seat.old) 0 root }
    requires lacks { LacksEmptySet (family (map_of seat.old) root) }
    ensures { seat.new ≡ seat.old }
{
    let counted = node_count(alloc, store, seat, root)?;
    let of = size(alloc, store, seat, root)?;
    let cuts = list(alloc, store, seat, root)?;
    let is_so_large = of.sets == sets.len() as u64 && of.weight == cuts.weight();
    Ok(has(&cuts, sets) && is_so_large && counted == nodes)
}

// Each two of the units 1, 2 and 3 are three sets and four nodes. The smaller of two sets comes first.
fn small_ones(alloc: Global, store: &NodeStore, seat: &mut StoreSeat) -> Result<(bool, bool), Fail>
    requires { seat.old.store ≡ store.now }
{
    let root = two_of_three(store, seat)?;
    let first = gives(
        alloc,
        store,
        seat,
        root,
        &[[1, 2, 0], [1, 3, 0], [2, 3, 0]],
        4,
    )?;
    let root = two_and_one(store, seat)?;
    let second = gives(alloc, store, seat, root, &[[3, 0, 0], [1, 2, 0]], 3)?;
    Ok((first, second))
}

fn small(alloc: Global) -> Result<(bool, bool), Fail> {
    let StoreStart { store, mut seat } = NodeStore::new(alloc, 10)?;
    small_ones(alloc, &store, &mut seat)
}

#[test]
fn smaller_sets_come_first(rt: HostRuntime) -> Result<(), Fail> {
    assert_eq!(rt; small(rt.alloc())?, (true, true));
    Ok(())
}

// How many sets the family without sets has and what they weigh, what that of the empty set weighs, and how many nodes
// each has.
fn empty_ones(
    alloc: Global,
    store: &NodeStore,
    seat: &mut StoreSeat,
) -> Result<(usize, u64, u64, u64, u64), Fail>
    requires { seat.old.store ≡ store.now }
{
    let none = node_count(alloc, store, seat, NodeRef::EMPTY)?;
    let unit = node_count(alloc, store, seat, NodeRef::UNIT)?;
    let no_sets = size(alloc, store, seat, NodeRef::EMPTY)?;
    let one_set = size(alloc, store, seat, NodeRef::UNIT)?;
    let cuts = list(alloc, store, seat, NodeRef::EMPTY)?;
    Ok((cuts.len(), no_sets.weight, one_set.weight, none, unit))
}

fn empty(alloc: Global) -> Result<(usize, u64, u64, u64, u64), Fail> {
    let StoreStart { store, mut seat } = NodeStore::new(alloc, 10)?;
    empty_ones(alloc, &store, &mut seat)
}

#[test]
fn the_family_without_sets_is_the_empty_list(rt: HostRuntime) -> Result<(), Fail> {
    assert_eq!(rt; empty(rt.alloc())?, (0, 0, 1, 0, 0));
    Ok(())
}

// How many of the sets of a list are 1 2, 3 4 and so on, up to the first that isn't.
fn pairs_in(cuts: &CutList) -> usize {
    for i in 0..cuts.len() {
        let members = cuts.members(i);
        if members.len() != 2
            || members[0].number() as usize != i.saturating_mul(2).saturating_add(1)
            || members[1].number() as usize != i.saturating_mul(2).saturating_add(2)
        {
            return i;
        }
    }
    cuts.len()
}

// How many sets there are, how many of them are as they should be, and how many nodes there are.
fn told_pairs(
    alloc: Global,
    store: &NodeStore,
    seat: &mut StoreSeat,
) -> Result<(usize, usize, u64), Fail>
    requires { seat.old.store ≡ store.now }
{
    let root = pairs(store, seat, 600)?;
    let nodes = node_count(alloc, store, seat, root)?;
    let cuts = list(alloc, store, seat, root)?;
    Ok((cuts.len(), pairs_in(&cuts), nodes))
}

fn six_hundred(alloc: Global) -> Result<(usize, usize, u64), Fail> {
    let StoreStart { store, mut seat } = NodeStore::new(alloc, 11)?;
    told_pairs(alloc, &store, &mut seat)
}

#[test]
fn six_hundred_pairs_have_twelve_hundred_nodes(rt: HostRuntime) -> Result<(), Fail> {
    assert_eq!(rt; six_hundred(rt.alloc())?, (600, 600, 1200));
    Ok(())
}

// How many sets nineteen ways make, and their weight, by their list and by their nodes.
fn within_limit(
    alloc: Global,
    store: &NodeStore,
    seat: &mut StoreSeat,
) -> Result<(usize, u64, u64, u64), Fail>
    requires { seat.old.store ≡ store.now }
    ensures { seat.new.store ≡ seat.old.store }
{
    let root = ways(store, seat, 19)?;
    let of = size(alloc, store, seat, root)?;
    let cuts = list(alloc, store, seat, root)?;
    Ok((cuts.len(), cuts.weight(), of.sets, of.weight))
}

// Whether the sets of a family are past the limit.
fn is_past(
    alloc: Global,
    store: &NodeStore,
    seat: &mut StoreSeat,
    root: NodeRef,
) -> Result<bool, Fail>
    requires own { seat.old.store ≡ store.now }
    requires made { IsMade (map_of seat.old) 0 root }
    ensures { seat.new ≡ seat.old }
{
    Ok(match size(alloc, store, seat, root) {
        Ok(_) => false,
        Err(end) => end == ListEnd::ListLimit,
    })
}

// Whether twenty ways are past the limit, by their list and by their nodes, and how many nodes they have.
fn past_limit(
    alloc: Global,
    store: &NodeStore,
    seat: &mut StoreSeat,
) -> Result<(bool, bool, u64), Fail>
    requires { seat.old.store ≡ store.now }
{
    let root = ways(store, seat, 20)?;
    let nodes = node_count(alloc, store, seat, root)?;
    let by_nodes = is_past(alloc, store, seat, root)?;
    let by_list = match list(alloc, store, seat, root) {
        Ok(_) => false,
        Err(end) => end == ListEnd::ListLimit,
    };
    Ok((by_list, by_nodes, nodes))
}

fn limits(alloc: Global) -> Result<((usize, u64, u64, u64), (bool, bool, u64)), Fail> {
    let StoreStart { store, mut seat } = NodeStore::new(alloc, 10)?;
    let within = within_limit(alloc, &store, &mut seat)?;
    let past = past_limit(alloc, &store, &mut seat)?;
    Ok((within, past))
}

#[test]
fn the_limit_is_met_between_nineteen_and_twenty(rt: HostRuntime) -> Result<(), Fail> {
    let (within, past) = limits(rt.alloc())?;
    assert_eq!(rt; within, (524_288, 10_485_760, 524_288, 10_485_760));
    assert_eq!(rt; past, (true, true, 40));
    Ok(())
}

// What 2,047 pairs are in sets and in weight, and whether as many ways are past the limit: 4,094 levels each.
fn deep_ones(
    alloc: Global,
    store: &NodeStore,
    seat: &mut StoreSeat,
) -> Result<(u64, u64, bool), Fail>
    requires { seat.old.store ≡ store.now }
{
    let root = pairs(store, seat, 2_047)?;
    let of = size(alloc, store, seat, root)?;
    let root = ways(store, seat, 2_047)?;
    Ok((of.sets, of.weight, is_past(alloc, store, seat, root)?))
}

fn deep(alloc: Global) -> Result<(u64, u64, bool), Fail> {
    let StoreStart { store, mut seat } = NodeStore::new(alloc, 14)?;
    deep_ones(alloc, &store, &mut seat)
}

#[test]
fn diagrams_of_all_levels_are_measured(rt: HostRuntime) -> Result<(), Fail> {
    assert_eq!(rt; deep(rt.alloc())?, (2_047, 6_141, true));
    Ok(())
}
