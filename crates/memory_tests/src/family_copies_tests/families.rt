//! Families in a memory, from lists of units.
use crate::families::{End, Two, both, either, one};
use family_memory::FamilyMemory;
use std::alloc::Global;
use std::test::Fail;
use zdd_words::NodeRef;

/// The minimal sets of those that a list spells, each with a 0 behind it.
pub(crate) fn family_of(memory: &mut FamilyMemory, spelled: &[u16]) -> Result<NodeRef, End> {
    let mut all = NodeRef::EMPTY;
    let mut set = NodeRef::UNIT;
    for number in spelled {
        if *number == 0 {
            all = both(memory, Two::Union, all, set)?;
            set = NodeRef::UNIT;
        } else {
            let unit = one(memory, *number)?;
            set = both(memory, Two::Product, unit, set)?;
        }
    }
    Ok(all)
}

/// The sets with one unit of each of so many pairs, from the last pair on. A pair has two nodes, and what is below
/// them is the same on either side: from the top down there are twice as many ways with each pair more.
pub(crate) fn one_of_each_pair(memory: &mut FamilyMemory, pairs: u16) -> Result<NodeRef, End> {
    let mut all = NodeRef::UNIT;
    for pair in 0..pairs {
        let last = pairs.saturating_sub(pair).saturating_mul(2);
        let link = either(memory, last.saturating_sub(1), last)?;
        all = both(memory, Two::Product, link, all)?;
    }
    Ok(all)
}

/// The units from a number down to 1, each as a set of its own or all as one set.
pub(crate) fn down_from(alloc: Global, last: u16, apart: bool) -> Result<Vec<u16>, Fail> {
    let mut sets = Vec::new(alloc);
    for number in 0..last {
        sets.push(last.saturating_sub(number))?;
        if apart {
            sets.push(0)?;
        }
    }
    if !apart {
        sets.push(0)?;
    }
    Ok(sets)
}
