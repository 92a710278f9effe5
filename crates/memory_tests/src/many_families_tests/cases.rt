//! Cases: a row says what is asked, in a memory with room for how many nodes and answers, and of what.
use crate::families::{End, has, memory_of};
use crate::many_families_tests::deep::{
    all_units_agree, is_as_long, is_spent, pairs_agree, set_of_all_agrees,
};
use crate::many_families_tests::plain::word_in;
use crate::many_families_tests::rounds::{agree_in_rounds, agree_on_row};
use crate::many_families_tests::words::{family_of, word_of};
use crate::rows::{number, part};
use family_memory::FamilyMemory;
use std::alloc::Global;
use std::test::Fail;
use zdd_words::NodeRef;

// Whether it is told that no set of the first family of a row includes one of the second.
fn includes_none(memory: &mut FamilyMemory, row: &str) -> Result<bool, End> {
    let first = family_of(memory, word_in(part(row, 3)))?;
    let second = family_of(memory, word_in(part(row, 4)))?;
    if !has(memory, first) || !has(memory, second) {
        return Err(End::Absent);
    }
    Ok(memory.includes_none(first, second))
}

// Whether the operation of a row uses up the room, all nodes of it, where a family that stood before stands.
fn stands_where_spent(alloc: Global, memory: &mut FamilyMemory, row: &str) -> Result<bool, Fail> {
    let word = word_in(part(row, 6));
    let kept = family_of(memory, word)?;
    let spent = is_spent(alloc, memory, row)?;
    Ok(spent && word_of(memory, kept) == word && memory.count() == usize::from(number(row, 7)?))
}

// Whether a memory has no nodes, and the family of the empty set no units.
fn is_new(memory: &FamilyMemory) -> bool {
    memory.count() == 0 && memory.level(NodeRef::UNIT) == 4_096 && memory.last(NodeRef::UNIT) == 0
}

// Whether what is asked is so.
fn is_so(alloc: Global, memory: &mut FamilyMemory, row: &str) -> Result<bool, Fail> {
    Ok(match part(row, 0) {
        "rounds" => agree_in_rounds(memory)?,
        "five families" => agree_on_row(memory, row)?,
        "includes" => includes_none(memory, row)? == part(row, 5).starts_with("none"),
        "chain" => is_as_long(alloc, memory, row)?,
        "all units" => all_units_agree(memory)?,
        "set of all" => set_of_all_agrees(memory)?,
        "many ways" => pairs_agree(memory)?,
        "spent" => stands_where_spent(alloc, memory, row)?,
        "new" => is_new(memory),
        _ => return Err("nothing is asked".into()),
    })
}

// The same in a memory of its own. Its sizes are powers of two.
fn is_so_by_itself(alloc: Global, row: &str) -> Result<bool, Fail> {
    let nodes = 1usize << number(row, 1)?.min(16);
    let mut memory = memory_of(alloc, nodes, 1usize << number(row, 2)?.min(16))?;
    is_so(alloc, &mut memory, row)
}

// Rounds where most answers are lost, as there are few, and where all are kept. Then five families that share no unit,
// all units of one below all of the next, or in between each other; in the fourth of these rows one never holds back.
// Then two families, and `none` where it is told that no set of the first includes one of the second.
const LISTS: &str = "\
rounds|16|4
rounds|16|16
five families|12|10|1.2.|3.4.|5.||
five families|12|10|12.|3.45.|||
five families|12|10|1.23.|4.5.|||
five families|12|10|1.23.|4.5.|.||
five families|12|10|1.3.|2.4.|5.||
five families|12|10|1.5.|2.|3.|4.|
includes|12|4|1.|23.|none: one, and two with three
includes|12|4|23.|1.|none
includes|12|4|1.|2.|none
includes|12|4|13.|24.15.|none: one with three, and two with four or one with five, where each of these passes three
includes|12|4|13.|24.23.|none: each of the second has two
includes|12|4|13.24.|14.23.|this is not told
includes|12|4|1.2.|34.35.|none
includes|12|4|1.23.|3.|these are included
includes|12|4|5.|12.|none: these are more
includes|12|4|.|1.|none: the empty set, and one";

#[test]
fn calls_agree_with_plain_lists(rt: HostRuntime) -> Result<(), Fail> {
    for row in LISTS.lines() {
        assert!(rt; is_so_by_itself(rt.alloc(), row)?, "{row}");
    }
    Ok(())
}

// Chains: an operation on how many units or pairs of units, and how many nodes there are then, or are on the way down
// by the sets with or without each level. Votes of k over n units have k(n - k + 1) nodes, of which the last unit's
// stood before, beside the nodes of the n units. Where none of the first 51 pairs of a hundred has a unit, there are
// too few for 50 votes; 50 units are enough. At the end what uses up a room, a family that stood before, and how many
// nodes there is room for.
const CHAINS: &str = "\
chain|16|12|union|units|1000|without|1000
chain|16|12|union|units|1000|with|1
chain|16|12|product|units|1000|without|1
chain|16|12|product|units|1000|with|1000
chain|16|12|1|units|1008|nodes|2015
chain|16|12|1008|units|1008|nodes|2015
chain|16|12|2|units|1008|nodes|3021
chain|16|12|100|units|200|nodes|10299
chain|16|12|200|units|300|nodes|20499
chain|16|12|50|pairs|100|without|102
chain|16|12|50|pairs|100|with|50
all units|16|10
set of all|16|10
many ways|16|12
new|1|4
spent|6|4|single|units|100|12.13.23.14.24.34.|64
spent|7|12|20|units|40|12.34.25.|128";

#[test]
fn chains_go_down_all_levels_and_use_up_rooms(rt: HostRuntime) -> Result<(), Fail> {
    for row in CHAINS.lines() {
        assert!(rt; is_so_by_itself(rt.alloc(), row)?, "{row}");
    }
    Ok(())
}
