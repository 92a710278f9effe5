//! Random families of the units 1 to 4, as words with a bit for each set.
use crate::family_copies_tests::families::family_of;
use crate::family_copies_tests::sending::{Bench, Sizes, bench_of, put_out, sent};
use std::alloc::Global;
use std::process::Abort;
use std::test::Fail;
use worked_families::{ops_on, spelled};
use zdd_product::Ops;
use zdd_shared_table::{NodeStore, StoreStart};
use zdd_words::NodeRef;

// The sets of a word, each with a 0 behind it: a set's number has a bit for each unit, 1 the lowest.
fn sets_of(alloc: Global, bits: u16) -> Result<Vec<u16>, Fail> {
    let mut sets = Vec::new(alloc);
    for mask in 0..16u16 {
        if bits >> mask & 1 == 1 {
            push_units(&mut sets, mask)?;
            sets.push(0)?;
        }
    }
    Ok(sets)
}

fn push_units(sets: &mut Vec<u16>, mask: u16) -> Result<(), Fail> {
    for number in 1..5u16 {
        if mask >> (number - 1) & 1 == 1 {
            sets.push(number)?;
        }
    }
    Ok(())
}

// The word of listed sets.
fn word_of(sets: &[u16]) -> u16 {
    let mut bits = 0u16;
    let mut mask = 0u16;
    for number in sets {
        if *number == 0 {
            bits |= 1 << (mask & 15);
            mask = 0;
        } else {
            mask |= 1 << (number.saturating_sub(1) & 3);
        }
    }
    bits
}

fn has_set(bits: u16, mask: u16) -> bool {
    bits >> (mask & 15) & 1 == 1
}

fn includes_other(bits: u16, mask: u16) -> bool {
    (0..16u16).any(|part| part != mask && has_set(bits, part) && part & mask == part)
}

fn minimal(bits: u16) -> u16 {
    let mut least = 0;
    for mask in 0..16u16 {
        if has_set(bits, mask) && !includes_other(bits, mask) {
            least |= 1 << mask;
        }
    }
    least
}

// The word of a family of a memory that goes by a store and another memory into another store. It is listed alike in
// both stores.
fn carried(
    alloc: Global,
    bench: &mut Bench,
    own: NodeRef,
    ops: &mut Ops,
    other: &mut Ops,
) -> Result<u16, Fail> {
    let sent = sent(
        &bench.here,
        &mut bench.few,
        own,
        ops,
        &mut bench.there,
        &mut bench.notes,
    )?;
    let Some(copy) = sent.copy else {
        return Err("the other memory is too small".into());
    };
    let moved = put_out(&bench.there, &mut bench.notes, other, copy)?;
    let first = spelled(alloc, ops, sent.shared)?;
    let second = spelled(alloc, other, moved)?;
    if first.as_slice() != second.as_slice() {
        return Err("the stores differ".into());
    }
    Ok(word_of(second.as_slice()))
}

// The family of the sets of a word, alone in the first memory. The second has none.
fn family_alone(alloc: Global, bench: &mut Bench, bits: u16) -> Result<NodeRef, Fail> {
    bench.here.clear();
    bench.there.clear();
    let sets = sets_of(alloc, bits)?;
    Ok(family_of(&mut bench.here, sets.as_slice())?)
}

// Asserted of stores and memories here, where nothing is owned.
fn rounds<R: Abort>(
    rt: &R,
    alloc: Global,
    bench: &mut Bench,
    ops: &mut Ops,
    other: &mut Ops,
) -> Result<(), Fail> {
    let mut seed = 1u16;
    for _ in 0..200u32 {
        seed = seed.wrapping_mul(25_173).wrapping_add(13_849);
        let bits = seed.rotate_left(5) & seed.rotate_left(11) & 0xfffe;
        let own = family_alone(alloc, bench, bits)?;
        let word = carried(alloc, bench, own, ops, other)?;
        assert_eq!(rt; word, minimal(bits), "{bits}");
    }
    Ok(())
}

// The same with a second store.
fn rounds_into<R: Abort>(
    rt: &R,
    alloc: Global,
    bench: &mut Bench,
    ops: &mut Ops,
) -> Result<(), Fail> {
    let StoreStart { store, seat } = NodeStore::new(alloc, 13)?;
    let mut other = ops_on(alloc, &store, seat)?;
    rounds(rt, alloc, bench, ops, &mut other)
}

// The same with a first store.
fn rounds_from<R: Abort>(rt: &R, alloc: Global, bench: &mut Bench) -> Result<(), Fail> {
    let StoreStart { store, seat } = NodeStore::new(alloc, 13)?;
    let mut ops = ops_on(alloc, &store, seat)?;
    rounds_into(rt, alloc, bench, &mut ops)
}

#[test]
fn families_are_the_same_in_another_store(rt: HostRuntime) -> Result<(), Fail> {
    let sizes = Sizes {
        few: 2,
        notes: 64,
        nodes: 64,
    };
    let mut bench = bench_of(rt.alloc(), sizes)?;
    rounds_from(&rt, rt.alloc(), &mut bench)
}
