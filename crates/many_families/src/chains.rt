//! The union of many families in an order of their units, and of a few at once, unit by unit: each level takes one
//! node, whatever the number of families.
ghost use Rattle.std.specs.Prelude.{◌<◌, ◌≤◌, All, length};
ghost use Rattle.zdd_families.specs.Least.{IsLeastOfAll};
ghost use Rattle.family_memory.specs.Memory.{Has};
ghost use Rattle.minimal_operations.specs.Operands.{Answers};
ghost use Rattle.many_families.specs.Chains.{AreFrom, AreAllLowered, IsLowest, uppers};
ghost use Rattle.many_families.specs.Lists.{families};

use crate::many::union_of_all;
use family_memory::{FamilyMemory, Spent};
use minimal_operations::{half_at, rid_node, union};
use unit_sets::UnitNo;
use zdd_words::NodeRef;

// How many families are united at once: each is looked at on each level.
const AT_ONCE: usize = 16;

/// The minimal sets of the union of all families of the places, which stand in an order of their units: of a few at
/// once, of more in two parts. What the places hold afterwards is left open.
pub(crate) fn unite_places(
    memory: &mut FamilyMemory,
    places: &mut [NodeRef],
) -> Result<NodeRef, Spent>
    requires { All (Has memory.old) places.old }
    ensures { Answers (IsLeastOfAll (families memory.old places.old)) memory.old memory.new result }
{
    memory.is_sound();
    if places.len() <= AT_ONCE {
        return unite_levels(memory, places);
    }
    let end = end_of_first(memory, places);
    let first = unite_places(memory, &mut places[..end])?;
    let second = unite_places(memory, &mut places[end..])?;
    union(memory, first, second)
}

// Where the first part of some families ends: behind those whose sets all begin with the first unit, which one node
// puts on top of the rest, or else in the middle.
fn end_of_first(memory: &FamilyMemory, list: &[NodeRef]) -> usize
    requires has { All (Has memory.now) list.now }
    requires many { 2 ≤ length list.now }
    ensures some { 1 ≤ result }
    ensures rest { result < length list.now }
{
    let level = memory.level(list[0]);
    for place in 0..list.len() {
        let r = list[place];
        if memory.level(r) != level && place > 0 {
            return place;
        }
        if !begins_alike(memory, r) {
            break;
        }
    }
    list.len() / 2
}

// Whether all sets of a family begin with the same unit.
fn begins_alike(memory: &FamilyMemory, r: NodeRef) -> bool
    requires { Has memory.now r }
{
    r.number() >= 2 && memory.parts(r).lo.number() == 0
}

// Whether two at most are to be united, or one of them has the empty set, which all others include.
fn are_few(list: &[NodeRef]) -> bool {
    let mut some: usize = 0;
    for place in 0..list.len() {
        let number = list[place].number();
        if number == 1 {
            return true;
        }
        if number > 0 {
            some = some.saturating_add(1);
        }
    }
    some < 3
}

// A reference with the least level.
fn lowest(memory: &FamilyMemory, list: &[NodeRef]) -> NodeRef
    requires { All (Has memory.now) list.now }
    ensures { IsLowest memory.now list.now result }
{
    memory.is_sound();
    let mut first = NodeRef::EMPTY;
    for place in 0..list.len() {
        if memory.level(list[place]) < memory.level(first) {
            first = list[place];
        }
    }
    first
}

// The union of a few families from their least unit on: of their sets that lack it, and of those that have it.
fn unite_levels(memory: &mut FamilyMemory, list: &mut [NodeRef]) -> Result<NodeRef, Spent>
    requires { All (Has memory.old) list.old }
    ensures { Answers (IsLeastOfAll (families memory.old list.old)) memory.old memory.new result }
{
    memory.is_sound();
    let first = lowest(memory, list);
    if first.number() < 2 || are_few(list) {
        return union_of_all(memory, list);
    }
    let level = memory.parts(first).level;
    let all = unite_uppers(memory, level, list)?;
    lower_all(memory, level, list);
    let lo = unite_levels(memory, list)?;
    rid_node(memory, level, lo, all)
}

// The union of the sets of all families that have the unit, it taken out, by the halves of the list.
fn unite_uppers(
    memory: &mut FamilyMemory,
    level: UnitNo,
    list: &[NodeRef],
) -> Result<NodeRef, Spent>
    requires has { All (Has memory.old) list.now }
    requires from { AreFrom memory.old level list.now }
    ensures { Answers (IsLeastOfAll (uppers level (families memory.old list.now))) memory.old memory.new result }
{
    memory.is_sound();
    if list.is_empty() {
        return Ok(NodeRef::EMPTY);
    }
    if list.len() == 1 {
        return Ok(half_at(memory, level, list[0]).hi);
    }
    let middle = list.len() / 2;
    let first = unite_uppers(memory, level, &list[..middle])?;
    let second = unite_uppers(memory, level, &list[middle..])?;
    union(memory, first, second)
}

// Puts in the place of each reference that of its sets without the unit.
fn lower_all(memory: &FamilyMemory, level: UnitNo, list: &mut [NodeRef])
    requires has { All (Has memory.now) list.old }
    requires from { AreFrom memory.now level list.old }
    ensures { AreAllLowered memory.now level list.old list.new }
{
    memory.is_sound();
    for place in 0..list.len() {
        list[place] = half_at(memory, level, list[place]).lo;
    }
}
