//! Stores that are full, or nearly so.
ghost use Rattle.std.specs.Prelude.{◌≡◌, ◌≤◌};

use crate::trees::{Team, cut_count};
use edge_io::Free;
use std::alloc::Global;
use std::process::Abort;
use std::test::Fail;
use std::thread::Threads;
use worked_stores::store_with;
use worked_trees::{or_of_pairs, tree_of};
use zdd_build::{BuildEnd, build, build_within};
use zdd_shared_table::{NodeStore, StoreSeat, StoreStart};
use zdd_words::NodeRef;

// Whether a store was full: its end is that, or a reference.
fn is_full(end: Result<NodeRef, BuildEnd>) -> Result<bool, Fail> {
    match end {
        Ok(_) => Ok(false),
        Err(BuildEnd::Full) => Ok(true),
        Err(BuildEnd::NoMemory) => Err("no memory".into()),
    }
}

// Whether a deck fills the slots that are left of a store.
fn fills<R: Threads + Sync>(
    rt: &R,
    alloc: Global,
    deck: &str,
    store: &NodeStore,
    seat: &mut StoreSeat,
    workers: u32,
) -> Result<bool, Fail>
    requires own { seat.old.store ≡ store.now }
    requires share { 64 ≤ seat.old.share }
    requires workers { (1 ≤ workers) × (workers ≤ 16) }
{
    let tree = tree_of(alloc, deck.as_bytes())?;
    is_full(build(rt, alloc, &tree, store, seat, workers, &Free))
}

// The same, where no worker has a memory of its own.
fn fills_bare<R: Threads + Sync>(
    rt: &R,
    alloc: Global,
    deck: &str,
    store: &NodeStore,
    seat: &mut StoreSeat,
) -> Result<bool, Fail>
    requires own { seat.old.store ≡ store.now }
    requires share { 64 ≤ seat.old.share }
{
    let tree = tree_of(alloc, deck.as_bytes())?;
    is_full(build_within(rt, alloc, &tree, store, seat, 4, 0, &Free))
}

// Whether the cuts A B fill a store of 2^10 slots of which so many are left.
fn pair_fills<R: Threads + Sync>(rt: &R, alloc: Global, left: u16) -> Result<bool, Fail> {
    let StoreStart { store, mut seat } = store_with(alloc, left)?;
    fills(
        rt,
        alloc,
        "toplevel T; T and A B; A; B;",
        &store,
        &mut seat,
        2,
    )
}

#[test]
fn three_nodes_are_enough_for_two_units(rt: HostRuntime) -> Result<(), Fail> {
    for left in 0..65u16 {
        assert_eq!(&rt; pair_fills(&rt, rt.alloc(), left)?, left < 3, "{left}");
    }
    Ok(())
}

// An `or` of so many units.
fn or_of_units(alloc: Global, units: usize) -> Result<String, Fail> {
    let mut deck = format!(in alloc; "toplevel T; T or")?;
    for i in 0..units {
        deck.push_str(format!(in alloc; " u{i}")?.as_str())?;
    }
    deck.push_str(";\n")?;
    for i in 0..units {
        deck.push_str(format!(in alloc; "u{i};\n")?.as_str())?;
    }
    Ok(deck)
}

// Whether a deck fills a new store of so many bits.
fn fills_new<R: Threads + Sync>(rt: &R, alloc: Global, deck: &str, bits: u32) -> Result<bool, Fail>
    requires few { 10 ≤ bits }
    requires many { bits ≤ 25 }
{
    let StoreStart { store, mut seat } = NodeStore::new(alloc, bits)?;
    fills(rt, alloc, deck, &store, &mut seat, 4)
}

// The same of 10 bits, where no worker has a memory of its own.
fn fills_new_bare<R: Threads + Sync>(rt: &R, alloc: Global, deck: &str) -> Result<bool, Fail> {
    let StoreStart { store, mut seat } = NodeStore::new(alloc, 10)?;
    fills_bare(rt, alloc, deck, &store, &mut seat)
}

// Asserted of a deck here, where nothing is owned.
fn check_pairs<R: Threads + Sync + Abort>(rt: &R, alloc: Global, deck: &str) -> Result<(), Fail> {
    assert!(rt; !fills_new(rt, alloc, deck, 20)?);
    assert!(rt; fills_new(rt, alloc, deck, 10)?);
    let team = Team {
        workers: 4,
        own_nodes: 65_536,
    };
    assert_eq!(rt; cut_count(rt, alloc, deck.as_bytes(), team, &Free)?, 600);
    Ok(())
}

#[test]
fn six_hundred_pairs_fill_a_small_store(rt: HostRuntime) -> Result<(), Fail> {
    let deck = or_of_pairs(rt.alloc(), 600)?;
    check_pairs(&rt, rt.alloc(), deck.as_str())
}

// One unit after the other, in the store alone, this `or` takes some forty thousand nodes.
fn check_units<R: Threads + Sync + Abort>(rt: &R, alloc: Global, deck: &str) -> Result<(), Fail> {
    assert!(rt; !fills_new(rt, alloc, deck, 10)?);
    assert!(rt; fills_new_bare(rt, alloc, deck)?);
    Ok(())
}

#[test]
fn a_wide_or_is_made_in_a_memory_of_the_worker(rt: HostRuntime) -> Result<(), Fail> {
    let deck = or_of_units(rt.alloc(), 300)?;
    check_units(&rt, rt.alloc(), deck.as_str())
}
