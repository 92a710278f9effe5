//! Families that are copied out and in again, notes that spare a second copy, rooms that are used up, full stores, and
//! all levels.
use crate::families::has;
use crate::family_copies_tests::families::{down_from, family_of, one_of_each_pair};
use crate::family_copies_tests::sending::{Bench, Sizes, bench_of, listed, put_out, sent};
use crate::rows::part;
use family_copies::{Copies, export, import};
use family_memory::FamilyMemory;
use std::alloc::Global;
use std::test::Fail;
use std::thread::join;
use worked_families::ops_on;
use zdd_product::Ops;
use zdd_shared_table::{NodeStore, StoreStart};
use zdd_words::NodeRef;

// A small family, and its spelling.
const SMALL: [u16; 5] = [1, 2, 0, 3, 0];

// The family of a row: the units or the pairs of units up to a number, as a set each, as one set, or one of each pair.
fn family_by(alloc: Global, memory: &mut FamilyMemory, row: &str) -> Result<NodeRef, Fail> {
    let last = part(row, 2).parse::<u16>()?;
    let shape = part(row, 1);
    if shape == "pairs" {
        return Ok(one_of_each_pair(memory, last)?);
    }
    if shape == "mixed" {
        return Ok(family_of(memory, &[1, 2, 0, 1, 3, 0, 2, 4, 0, last, 0])?);
    }
    let sets = down_from(alloc, last, shape == "singles")?;
    Ok(family_of(memory, sets.as_slice())?)
}

// A family that is exported and then imported by the same notes: whether no node was made. And whether the same nodes
// are made again, when it is imported after all was forgotten, and then once more.
fn noted(
    memory: &mut FamilyMemory,
    notes: &mut Copies,
    ops: &mut Ops,
    own: NodeRef,
) -> Result<bool, Fail> {
    if !has(memory, own) {
        return Err("no such reference".into());
    }
    memory.is_sound();
    notes.forget();
    let before = memory.count();
    let shared = export(memory, notes, ops, own)?;
    let noted = import(memory, notes, ops, shared)?;
    let made = memory.count() - before;
    memory.clear();
    notes.forget();
    let first = import(memory, notes, ops, shared)?;
    let nodes = memory.count();
    memory.clear();
    notes.forget();
    let second = import(memory, notes, ops, shared)?;
    Ok(noted == own && made == 0 && first == second && memory.count() == nodes && nodes > 0)
}

// A family of a memory that goes by a store into another memory and back into the store: whether it is the same node
// there, and how many nodes the other memory has.
fn returned(bench: &mut Bench, own: NodeRef, ops: &mut Ops) -> Result<(bool, usize), Fail> {
    let sent = sent(
        &bench.here,
        &mut bench.few,
        own,
        ops,
        &mut bench.there,
        &mut bench.notes,
    )?;
    let Some(copy) = sent.copy else {
        return Err("the other memory is too small".into());
    };
    let again = put_out(&bench.there, &mut bench.notes, ops, copy)?;
    Ok((again == sent.shared, bench.there.count()))
}

// Whether a store has no room for a family.
fn is_full(
    memory: &FamilyMemory,
    notes: &mut Copies,
    own: NodeRef,
    ops: &mut Ops,
) -> Result<bool, Fail> {
    if !has(memory, own) {
        return Err("no such reference".into());
    }
    notes.forget();
    Ok(export(memory, notes, ops, own).is_err())
}

// Whether a family is listed as the small one is spelled.
fn is_small(
    alloc: Global,
    memory: &FamilyMemory,
    notes: &mut Copies,
    ops: &mut Ops,
    own: NodeRef,
) -> Result<bool, Fail> {
    let sets = listed(alloc, memory, notes, ops, own)?;
    Ok(sets.as_slice() == SMALL.as_slice())
}

// Whether the second memory has no room for a family, and whether a small family of it is the same before and after.
fn spent_around(
    alloc: Global,
    bench: &mut Bench,
    ops: &mut Ops,
    own: NodeRef,
) -> Result<(bool, bool), Fail> {
    let small = family_of(&mut bench.there, &SMALL)?;
    let before = is_small(alloc, &bench.there, &mut bench.notes, ops, small)?;
    let sent = sent(
        &bench.here,
        &mut bench.few,
        own,
        ops,
        &mut bench.there,
        &mut bench.notes,
    )?;
    let after = is_small(alloc, &bench.there, &mut bench.notes, ops, small)?;
    Ok((sent.copy.is_none(), before && after))
}

// Whether the store has no room for a family, and whether a small family is listed the same before and after.
fn full_around(
    alloc: Global,
    bench: &mut Bench,
    ops: &mut Ops,
    own: NodeRef,
) -> Result<(bool, bool), Fail> {
    let small = family_of(&mut bench.here, &SMALL)?;
    let before = is_small(alloc, &bench.here, &mut bench.few, ops, small)?;
    let full = is_full(&bench.here, &mut bench.notes, own, ops)?;
    let after = is_small(alloc, &bench.here, &mut bench.few, ops, small)?;
    Ok((full, before && after))
}

// What is told of the case of a row.
fn told(alloc: Global, bench: &mut Bench, ops: &mut Ops, row: &str) -> Result<String, Fail> {
    let own = family_by(alloc, &mut bench.here, row)?;
    let (first, second) = match part(row, 0) {
        "noted" => {
            let is = noted(&mut bench.here, &mut bench.notes, ops, own)?;
            return Ok(format!(in alloc; "{is}")?);
        }
        "spent" => spent_around(alloc, bench, ops, own)?,
        "full" => full_around(alloc, bench, ops, own)?,
        _ => {
            let (same, nodes) = returned(bench, own, ops)?;
            return Ok(format!(in alloc; "{same} {nodes}")?);
        }
    };
    Ok(format!(in alloc; "{first} {second}")?)
}

fn sizes_in(row: &str) -> Result<Sizes, Fail> {
    Ok(Sizes {
        few: part(row, 4).parse::<usize>()?,
        notes: part(row, 5).parse::<usize>()?,
        nodes: part(row, 6).parse::<usize>()?,
    })
}

// The same in a store of the size of the row.
fn told_in(alloc: Global, bench: &mut Bench, row: &str) -> Result<String, Fail> {
    let bits = part(row, 3).parse::<u32>()?;
    if bits < 10 || bits > 14 {
        return Err("no such store".into());
    }
    let StoreStart { store, seat } = NodeStore::new(alloc, bits)?;
    let mut ops = ops_on(alloc, &store, seat)?;
    told(alloc, bench, &mut ops, row)
}

// The same with memories of the sizes of the row.
fn told_of(alloc: Global, row: &str) -> Result<String, Fail> {
    let mut bench = bench_of(alloc, sizes_in(row)?)?;
    let told = told_in(alloc, &mut bench, row);
    drop(bench);
    told
}

// What is done with which family, the bits of the store, for how many nodes the two notes and the second memory have
// room, and what is told. There are 2^60 ways down sixty pairs: no copying ends that takes each of them.
const ROWS: &str = "\
noted|mixed|5|10|2|64|64|true
spent|singles|100|10|2|64|64|true true
full|singles|1100|10|2|65536|64|true true
returned|pairs|60|10|1024|120|120|true 120";

#[test]
fn families_are_copied_out_and_in(rt: HostRuntime) -> Result<(), Fail> {
    for row in ROWS.lines() {
        assert_eq!(rt; told_of(rt.alloc(), row)?.as_str(), part(row, 7), "{row}");
    }
    Ok(())
}

// Whether all units come back, as a set each and as one set.
fn all_come_back(alloc: Global) -> Result<bool, Fail> {
    let singles = told_of(alloc, "returned|singles|4095|14|2|4095|4095")?;
    let set = told_of(alloc, "returned|set|4095|14|2|4095|4095")?;
    Ok(singles.as_str() == "true 4095" && set.as_str() == "true 4095")
}

// One of two closures runs on a thread that was forked.
#[test]
fn all_levels_on_a_thread_of_their_own(rt: HostRuntime) -> Result<(), Fail> {
    let alloc = rt.alloc();
    let (first, ()) = join(&rt, move || all_come_back(alloc), || ());
    assert!(rt; first?);
    let ((), second) = join(&rt, || (), move || all_come_back(alloc));
    assert!(rt; second?);
    Ok(())
}
