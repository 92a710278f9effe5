//! Families made from words, and read as words.
use crate::families::{End, Two, both, has, one};
use family_memory::FamilyMemory;
use zdd_words::NodeRef;

// The family of one set.
fn set_of(memory: &mut FamilyMemory, set: u32) -> Result<NodeRef, End> {
    let mut made = NodeRef::UNIT;
    for number in 1..6u16 {
        if set >> (number - 1) & 1 == 1 {
            let unit = one(memory, number)?;
            made = both(memory, Two::Product, unit, made)?;
        }
    }
    Ok(made)
}

/// The minimal sets of a word.
pub(crate) fn family_of(memory: &mut FamilyMemory, word: u32) -> Result<NodeRef, End> {
    let mut family = NodeRef::EMPTY;
    for set in 0..32u32 {
        if word >> set & 1 == 1 {
            let one = set_of(memory, set)?;
            family = both(memory, Two::Union, one, family)?;
        }
    }
    Ok(family)
}

// Of a family the sets with a unit, it taken out, or the others. No set has a lesser unit.
fn half(memory: &FamilyMemory, r: NodeRef, number: u16, with: bool) -> NodeRef {
    if r.number() >= 2 && has(memory, r) {
        let parts = memory.parts(r);
        if parts.level.number() == number {
            return if with { parts.hi } else { parts.lo };
        }
    }
    if with { NodeRef::EMPTY } else { r }
}

// Whether a family has a set.
fn contains(memory: &FamilyMemory, r: NodeRef, set: u32) -> bool {
    let mut left = r;
    for number in 1..6u16 {
        left = half(memory, left, number, set >> (number - 1) & 1 == 1);
    }
    left == NodeRef::UNIT
}

/// The word of a family without units above 5.
pub(crate) fn word_of(memory: &FamilyMemory, r: NodeRef) -> u32 {
    let mut word = 0;
    for set in 0..32u32 {
        if contains(memory, r, set) {
            word |= 1 << set;
        }
    }
    word
}
