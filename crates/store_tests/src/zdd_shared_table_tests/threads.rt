//! Threads with seats that were split off fill one store at once.
ghost use Rattle.std.specs.Prelude.{◌≡◌, ◌≤◌, IfSome};
ghost use Rattle.std.specs.Thread.{IsSync};

use crate::zdd_shared_table_tests::asking::{are_told, is_full, singles};
use std::alloc::Global;
use std::process::Abort;
use std::test::Fail;
use std::thread::{Threads, join};
use unit_sets::UnitNo;
use worked_families::unit;
use zdd_shared_table::{NodeStore, StoreSeat, StoreStart};
use zdd_words::NodeRef;

// How many slots a store has, by its bits.
const BITS: u32 = 10;

const SLOTS: usize = 1_024;

// A seat that asked for some levels, and the references that it was given.
#[derive(Drop)]
struct Ran {
    seat: StoreSeat,
    refs: Vec<NodeRef>,
}

// What two threads were given, by a seat that takes in both.
fn together(store: &NodeStore, left: Ran, right: Ran) -> Option<Ran>
    requires left { left.seat.store ≡ store.now }
    requires right { right.seat.store ≡ store.now }
    ensures { IfSome result (λ ran. ran.seat.store ≡ store.now) }
{
    let Ran { mut seat, mut refs } = left;
    store.join(&mut seat, right.seat);
    refs.extend_from_slice(right.refs.as_slice()).ok()?;
    Some(Ran { seat, refs })
}

// So many threads, each for its part of the levels. The references stand in the order of the levels.
fn fork<R: Threads + Sync>(
    rt: &R,
    alloc: Global,
    store: &NodeStore,
    mut seat: StoreSeat,
    threads: u64,
    levels: &[UnitNo],
) -> Option<Ran>
    requires own { seat.store ≡ store.now }
    requires share { threads ≤ seat.share }
    ensures { IfSome result (λ ran. ran.seat.store ≡ store.now) }
{
    if threads <= 1 {
        let refs = singles(alloc, store, &mut seat, levels)?;
        return Some(Ran { seat, refs });
    }
    let half = threads / 2;
    let (left, right) = levels.split_at(levels.len() / 2);
    let other = store.split(&mut seat, half);
    let (a, b) = join(
        rt,
        move || -> Option<Ran>
            requires { IsSync R.row × (seat.store ≡ store.now) × (half ≤ seat.share) }
            ensures { IfSome result (λ ran. ran.seat.store ≡ store.entry.now) }
        { fork(rt, alloc, store, seat, half, left) },
        move || -> Option<Ran>
            requires { IsSync R.row × (other.store ≡ store.now) × (half ≤ other.share) }
            ensures { IfSome result (λ ran. ran.seat.store ≡ store.entry.now) }
        { fork(rt, alloc, store, other, half, right) },
    );
    together(store, a?, b?)
}

// In how many slots of the store some references are.
fn slots_of(alloc: Global, refs: &[NodeRef]) -> Result<usize, Fail> {
    let mut seen = vec![in alloc; false; SLOTS]?;
    for r in refs {
        let number = r.number() as usize;
        if number < 2 || number >= SLOTS + 2 {
            return Err("no such slot".into());
        }
        seen[number - 2] = true;
    }
    Ok(seen.iter().filter(|is_seen| **is_seen).count())
}

// Whether threads are given the references that a seat which takes in all of them is given for the same levels: in how
// many slots these are, and whether the store is full then.
fn agreed<R: Threads + Sync>(
    rt: &R,
    alloc: Global,
    store: &NodeStore,
    seat: StoreSeat,
    threads: u64,
    levels: &[UnitNo],
) -> Result<(bool, usize, bool), Fail>
    requires own { seat.store ≡ store.now }
    requires share { threads ≤ seat.share }
{
    let Ran { mut seat, refs } = fork(rt, alloc, store, seat, threads, levels).ok_or(
        "full too soon",
    )?;
    let told = are_told(store, &mut seat, levels, refs.as_slice())?;
    let full = is_full(store, &mut seat, 2_000)?;
    let slots = slots_of(alloc, refs.as_slice())?;
    Ok((told, slots, full))
}

// The same in a new store.
fn told_with<R: Threads + Sync>(
    rt: &R,
    alloc: Global,
    threads: u64,
    levels: &[UnitNo],
) -> Result<(bool, usize, bool), Fail> {
    if threads > 16 {
        return Err("too many threads".into());
    }
    let StoreStart { store, seat } = NodeStore::new(alloc, BITS)?;
    agreed(rt, alloc, &store, seat, threads, levels)
}

// Numbers that look random, by three shifts.
fn scattered(seed: u64) -> u64 {
    let mut n = seed;
    n ^= n << 13;
    n ^= n >> 7;
    n ^= n << 17;
    n
}

// How levels follow each other.
#[derive(Clone, Copy)]
enum Shape {
    // From 1 up to 1000 and back again.
    UpAndDown,
    // From 1 to 1000 in no order.
    Scattered,
    // From 1 to 1024 time and again, each time beginning 128 levels later.
    Turned,
}

// The level at a place, from 0.
fn level_at(shape: Shape, place: u64, seed: u64) -> u16 {
    let number = match shape {
        Shape::UpAndDown => place.min(1_999u64.saturating_sub(place)),
        Shape::Scattered => seed % 1_000,
        Shape::Turned => place.saturating_add(place / 1_024 * 128),
    };
    (number % 1_024) as u16 + 1
}

// So many levels of a shape.
fn levels_of(alloc: Global, shape: Shape, count: u64) -> Result<Vec<UnitNo>, Fail> {
    let mut seed = 88_172_645_463_325_252;
    let mut levels = Vec::new(alloc);
    for place in 0..count {
        seed = scattered(seed);
        levels.push(unit(level_at(shape, place, seed))?)?;
    }
    Ok(levels)
}

// What threads tell that ask for so many levels together.
fn told<R: Threads + Sync>(
    rt: &R,
    alloc: Global,
    threads: u64,
    count: u64,
    shape: Shape,
) -> Result<(bool, usize, bool), Fail> {
    let levels = levels_of(alloc, shape, count)?;
    told_with(rt, alloc, threads, levels.as_slice())
}

#[test]
fn threads_are_given_the_same_references(rt: HostRuntime) -> Result<(), Fail> {
    let two = told(&rt, rt.alloc(), 2, 2_000, Shape::UpAndDown)?;
    assert!(&rt; two == (true, 1_000, false));
    let sixteen = told(&rt, rt.alloc(), 16, 32_000, Shape::Scattered)?;
    assert!(rt; sixteen == (true, 1_000, false));
    Ok(())
}

// Each thread asks for all of 1024 levels: where they agree, each is given each slot once.
#[test]
fn eight_threads_fill_a_store_and_agree_on_each_slot(rt: HostRuntime) -> Result<(), Fail> {
    let eight = told(&rt, rt.alloc(), 8, 8_192, Shape::Turned)?;
    assert!(rt; eight == (true, 1_024, true));
    Ok(())
}
