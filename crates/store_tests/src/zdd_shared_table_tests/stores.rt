//! The store by one thread.
ghost use Rattle.std.specs.Prelude.{◌≡◌, ◌<◌, ◌≤◌, IfOk};
ghost use Rattle.zdd_families.specs.Map.{Knows};
ghost use Rattle.zdd_shared_table.specs.Seats.{map_of};

use crate::zdd_shared_table_tests::asking::{are_told, is_full, single, singles};
use std::alloc::Global;
use std::test::Fail;
use unit_sets::UnitNo;
use worked_families::unit;
use zdd_shared_table::{Full, NodeStore, StoreSeat, StoreStart};
use zdd_words::NodeRef;

fn have_numbers(refs: &[NodeRef], wanted: &[u32]) -> bool {
    for i in 0..refs.len() {
        if i >= wanted.len() || refs[i].number() != wanted[i] {
            return false;
        }
    }
    refs.len() == wanted.len()
}

// Whether the nodes of some levels have references of these numbers, and each level asked again has its own.
fn gives_in(
    alloc: Global,
    store: &NodeStore,
    seat: &mut StoreSeat,
    levels: &[UnitNo],
    wanted: &[u32],
) -> Result<bool, Fail>
    requires { seat.old.store ≡ store.now }
{
    let refs = singles(alloc, store, seat, levels).ok_or("full too soon")?;
    let told = are_told(store, seat, levels, refs.as_slice())?;
    Ok(told && have_numbers(refs.as_slice(), wanted))
}

// The same in a new store of so many bits.
fn gives(alloc: Global, bits: u32, levels: &[UnitNo], wanted: &[u32]) -> Result<bool, Fail>
    requires few { 10 ≤ bits }
    requires many { bits ≤ 25 }
{
    let StoreStart { store, mut seat } = NodeStore::new(alloc, bits)?;
    gives_in(alloc, &store, &mut seat, levels, wanted)
}

#[test]
fn nodes_get_the_slots_of_their_homes(rt: HostRuntime) -> Result<(), Fail> {
    let one = unit(1)?;
    let two = unit(2)?;
    assert!(rt; gives(rt.alloc(), 10, &[one, one, two], &[384, 384, 133])?);
    assert!(rt; gives(rt.alloc(), 20, &[one], &[391_289])?);
    assert!(rt; gives(rt.alloc(), 25, &[one], &[12_521_205])?);
    Ok(())
}

// The level of a node, and the numbers of its lo and hi: none of a terminal.
fn parts_of(store: &NodeStore, seat: &mut StoreSeat, r: NodeRef) -> Option<(u16, u32, u32)>
    requires own { seat.old.store ≡ store.now }
    requires known { Knows (map_of seat.old) r }
    ensures { seat.new ≡ seat.old }
{
    if r.number() < 2 {
        return None;
    }
    let parts = store.parts(seat, r);
    Some((parts.level.number(), parts.lo.number(), parts.hi.number()))
}

// The node of two sets of one unit each.
fn both(store: &NodeStore, seat: &mut StoreSeat, low: UnitNo, high: UnitNo) -> Result<NodeRef, Full>
    requires own { seat.old.store ≡ store.now }
    requires ordered { low < high }
    ensures store { seat.new.store ≡ seat.old.store }
    ensures known { IfOk result (λ r. Knows (map_of seat.new) r) }
{
    let second = single(store, seat, high)?;
    store.node(seat, low, second, NodeRef::UNIT)
}

// Whether the parts of such a node are these, and so are those of the node of the second set alone.
fn has_parts_in(store: &NodeStore, seat: &mut StoreSeat) -> Result<bool, Fail>
    requires { seat.old.store ≡ store.now }
{
    let low = unit(1)?;
    let high = unit(2)?;
    if low >= high {
        return Err("units fall".into());
    }
    let both = both(store, seat, low, high)?;
    let first = parts_of(store, seat, both);
    let second = single(store, seat, high)?;
    Ok(first == Some((1, 133, 1)) && parts_of(store, seat, second) == Some((2, 0, 1)))
}

fn has_parts(alloc: Global) -> Result<bool, Fail> {
    let StoreStart { store, mut seat } = NodeStore::new(alloc, 10)?;
    has_parts_in(&store, &mut seat)
}

#[test]
fn a_node_of_two_sets_has_its_parts(rt: HostRuntime) -> Result<(), Fail> {
    assert!(rt; has_parts(rt.alloc())?);
    Ok(())
}

// As many units as a store has slots, from a number on.
fn units_from(alloc: Global, first: u16) -> Result<Vec<UnitNo>, Fail> {
    let mut units = Vec::new(alloc);
    for place in 0..1_024u16 {
        units.push(unit(first.saturating_add(place))?)?;
    }
    Ok(units)
}

// Whether a store with as many units as slots is full for one unit more, and again, and one of its own units has its
// reference then.
fn is_filled_in(alloc: Global, store: &NodeStore, seat: &mut StoreSeat) -> Result<bool, Fail>
    requires { seat.old.store ≡ store.now }
{
    let levels = units_from(alloc, 1_001)?;
    let refs = singles(alloc, store, seat, levels.as_slice()).ok_or("full too soon")?;
    let full = is_full(store, seat, 1)? && is_full(store, seat, 1)?;
    let again = single(store, seat, unit(1_500)?)?;
    Ok(full && refs.get(499) == Some(&again))
}

fn is_filled(alloc: Global) -> Result<bool, Fail> {
    let StoreStart { store, mut seat } = NodeStore::new(alloc, 10)?;
    is_filled_in(alloc, &store, &mut seat)
}

#[test]
fn a_full_store_is_told_and_knows_what_it_has(rt: HostRuntime) -> Result<(), Fail> {
    assert!(rt; is_filled(rt.alloc())?);
    Ok(())
}

// Whether a seat knows the parts of a node that a split one made, once that is joined, and makes the same node itself.
fn is_learnt_in(store: &NodeStore, seat: &mut StoreSeat) -> Result<bool, Fail>
    requires own { seat.old.store ≡ store.now }
    requires share { 2 ≤ seat.old.share }
{
    let level = unit(7)?;
    let mut other = store.split(seat, 1);
    let made = single(store, &mut other, level)?;
    store.join(seat, other);
    let parts = parts_of(store, seat, made);
    Ok(parts == Some((7, 0, 1)) && single(store, seat, level)? == made)
}

fn is_learnt(alloc: Global) -> Result<bool, Fail> {
    let StoreStart { store, mut seat } = NodeStore::new(alloc, 10)?;
    is_learnt_in(&store, &mut seat)
}

#[test]
fn a_seat_learns_what_a_joined_one_made(rt: HostRuntime) -> Result<(), Fail> {
    assert!(rt; is_learnt(rt.alloc())?);
    Ok(())
}
