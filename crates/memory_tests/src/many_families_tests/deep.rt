//! Chains of many units, families with many more ways down than nodes, and all levels.
use crate::families::{End, Many, Two, all_of, both, either, has, one};
use crate::rows::{number, part};
use family_memory::FamilyMemory;
use std::alloc::Global;
use std::test::Fail;
use zdd_words::NodeRef;

// How many pairs of units there are: with a pair the ways down are twice as many.
const PAIRS: u16 = 60;

// One of the numbers from 1 to a count: the even ones first, which rise, and then the odd ones, which fall.
fn mixed(place: u16, count: u16) -> u16 {
    if place <= count / 2 {
        place.saturating_mul(2)
    } else {
        count
            .saturating_sub(place)
            .saturating_mul(2)
            .saturating_add(1)
    }
}

// The families of so many single units or of as many pairs of units, in an order that mixes them.
fn links(
    alloc: Global,
    memory: &mut FamilyMemory,
    kind: &str,
    count: u16,
) -> Result<Vec<NodeRef>, Fail> {
    let mut list = Vec::new(alloc);
    for place in 0..count {
        let number = mixed(place + 1, count);
        let second = number.saturating_mul(2);
        let link = if kind == "units" {
            one(memory, number)?
        } else {
            either(memory, second.saturating_sub(1), second)?
        };
        list.push(link)?;
    }
    Ok(list)
}

// How many nodes there are from one on to a terminal, by their sets with the level or by those without it.
fn steps(memory: &FamilyMemory, r: NodeRef, with: bool) -> usize {
    let mut left = r;
    for count in 0..4_096usize {
        if left.number() < 2 || !has(memory, left) {
            return count;
        }
        let parts = memory.parts(left);
        left = if with { parts.hi } else { parts.lo };
    }
    4_096
}

// What the operation of a row makes of its links: `union`, `product`, or how many votes there have to be.
fn made(alloc: Global, memory: &mut FamilyMemory, row: &str) -> Result<Result<NodeRef, End>, Fail> {
    let call = match part(row, 3) {
        "union" => Many::UnionInOrder,
        "product" => Many::ProductInOrder,
        _ => Many::Votes(usize::from(number(row, 3)?)),
    };
    let list = links(alloc, memory, part(row, 4), number(row, 5)?)?;
    let mut table = vec![in alloc; NodeRef::EMPTY; list.len()]?;
    Ok(all_of(memory, call, list.as_slice(), table.as_mut_slice()))
}

/// Whether there are so many nodes as a row says when its operation is done, or so many are on one way down.
pub(crate) fn is_as_long(
    alloc: Global,
    memory: &mut FamilyMemory,
    row: &str,
) -> Result<bool, Fail> {
    let made = made(alloc, memory, row)??;
    let count = match part(row, 6) {
        "nodes" => memory.count(),
        way => steps(memory, made, way == "with"),
    };
    Ok(count == usize::from(number(row, 7)?))
}

// Whether single units up to a number use up the room.
fn fills(memory: &mut FamilyMemory, last: u16) -> bool {
    for number in 0..last {
        if let Err(End::Spent) = one(memory, number.saturating_add(1)) {
            return true;
        }
    }
    false
}

/// Whether the operation of a row uses up the room, or single units do.
pub(crate) fn is_spent(alloc: Global, memory: &mut FamilyMemory, row: &str) -> Result<bool, Fail> {
    if part(row, 3) == "single" {
        return Ok(fills(memory, number(row, 5)?));
    }
    Ok(matches!(made(alloc, memory, row)?, Err(End::Spent)))
}

// All units, but for each so many-th: each as a set of its own by unions, or all as one set by products.
fn units(memory: &mut FamilyMemory, call: Two, none: NodeRef, skip: u16) -> Result<NodeRef, End> {
    let mut all = none;
    for number in (1..4_096u16).rev() {
        if number % skip.max(1) != 0 {
            let first = one(memory, number)?;
            all = both(memory, call, first, all)?;
        }
    }
    Ok(all)
}

/// Whether all units and the odd ones, joined and parted, are all and the even ones.
pub(crate) fn all_units_agree(memory: &mut FamilyMemory) -> Result<bool, End> {
    let all = units(memory, Two::Union, NodeRef::EMPTY, 4_096)?;
    let odd = units(memory, Two::Union, NodeRef::EMPTY, 2)?;
    let joined = both(memory, Two::Union, odd, all)?;
    let even = both(memory, Two::Without, all, odd)?;
    Ok(joined == all && has(memory, even) && memory.level(even) == 2)
}

/// Whether the set of all units stays the same with most of them, and with one of the odd ones.
pub(crate) fn set_of_all_agrees(memory: &mut FamilyMemory) -> Result<bool, End> {
    let odd = units(memory, Two::Union, NodeRef::EMPTY, 2)?;
    let whole = units(memory, Two::Product, NodeRef::UNIT, 4_096)?;
    let most = units(memory, Two::Product, NodeRef::UNIT, 3)?;
    let first = both(memory, Two::Product, most, whole)?;
    let second = both(memory, Two::Product, odd, whole)?;
    Ok(first == whole && second == whole)
}

// The sets of one unit of each pair, with those of a family of later units.
fn with_pairs(memory: &mut FamilyMemory, below: NodeRef) -> Result<NodeRef, End> {
    let mut made = below;
    for pair in 0..PAIRS {
        let second = PAIRS.saturating_sub(pair).saturating_mul(2);
        let one = either(memory, second.saturating_sub(1), second)?;
        made = both(memory, Two::Product, one, made)?;
    }
    Ok(made)
}

/// The pairs with one later unit, those with another, and those with either: whether the union of the first two is the
/// third, and the third without the second is the first. They end in time only where answers are kept.
pub(crate) fn pairs_agree(memory: &mut FamilyMemory) -> Result<bool, End> {
    let later = one(memory, 2 * PAIRS + 1)?;
    let first = with_pairs(memory, later)?;
    let later = one(memory, 2 * PAIRS + 2)?;
    let second = with_pairs(memory, later)?;
    let later = either(memory, 2 * PAIRS + 1, 2 * PAIRS + 2)?;
    let third = with_pairs(memory, later)?;
    let all = both(memory, Two::Union, first, second)?;
    let left = both(memory, Two::Without, third, second)?;
    Ok(all == third && left == first)
}
