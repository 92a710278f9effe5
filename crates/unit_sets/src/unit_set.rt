//! Sets of units, a bit for each.
ghost use Rattle.std.specs.Prelude.{◌≡◌, ℕ, ◌/◌, ◌<◌, ◌==◌, ◌&&◌, ◌||◌, [], length, not, IfOk};
ghost use Rattle.unit_sets.specs.UnitList.{among, is_within, IsUnitSet, outside, with_unit, without_unit};
ghost use Rattle.unit_sets.specs.Words.{has_bit, units_of};

use crate::{NoMemory, UnitNo};
use std::alloc::Global;
use std::marker::Model;

const WORDS: usize = 64;

/// A set of units. It has room for every unit, so only `new` takes memory.
#[derive(Drop)]
pub struct UnitSet {
    // The bit u % 64 of the word u / 64 stands for the unit u.
    words: Vec<u64>,
}

impl Model for UnitSet {
    ghost use Rattle.std.specs.Prelude.{List, ℕ};
    ghost use Rattle.unit_sets.specs.Words.{units_of, HoldsUnits};

    ghost Value = { List ℕ };

    ghost view = { λ s. units_of s.words.items };

    ghost invariant = { λ s. HoldsUnits s.words.items };
}

// Whether the bit of a number is set.
fn bit(words: &[u64], number: u16) -> bool
    requires { number / 64 < length words.now }
    ensures { result ≡ has_bit words.now number }
{
    let number = number as usize;
    words[number / 64] >> (number % 64) & 1 == 1
}

// Sets the bit of a number, and leaves the others.
fn set_bit(words: &mut [u64], number: u16)
    requires { number / 64 < length words.old }
    ensures { (v : ℕ) → has_bit words.new v ≡ ((number == v) || has_bit words.old v) }
{
    let number = number as usize;
    words[number / 64] |= 1 << (number % 64);
}

// Clears the bit of a number, and leaves the others.
fn clear_bit(words: &mut [u64], number: u16)
    requires { number / 64 < length words.old }
    ensures { (v : ℕ) → has_bit words.new v ≡ (has_bit words.old v && not (v == number)) }
{
    let number = number as usize;
    words[number / 64] &= !(1 << (number % 64));
}

// Whether each bit that is set in the words is set in the others.
fn is_covered(words: &[u64], others: &[u64]) -> bool
    requires all_words { length words.now ≡ 64 }
    requires all_others { length others.now ≡ 64 }
    ensures { result ≡ is_within (units_of others.now) (units_of words.now) }
{
    for k in 0..WORDS {
        let word = words[k];
        if word & others[k] != word {
            return false;
        }
    }
    true
}

// How many bits are set in the words and not in the others.
fn count_outside(words: &[u64], others: &[u64]) -> u32
    requires all_words { length words.now ≡ 64 }
    requires all_others { length others.now ≡ 64 }
    ensures { result ≡ length (outside (units_of others.now) (units_of words.now)) }
{
    let mut count = 0;
    for k in 0..WORDS {
        count += (words[k] & !others[k]).count_ones();
    }
    count
}

impl UnitSet {
    /// The empty set.
    pub fn new(alloc: Global) -> Result<UnitSet, NoMemory>
        ensures { IfOk result (λ set. set ≡ []) }
    {
        let words = vec![in alloc; 0; WORDS]?;
        Ok(UnitSet { words })
    }

    /// Whether the unit is a member.
    pub fn contains(&self, unit: UnitNo) -> bool
        ensures value { result ≡ among self.now unit }
        ensures set { IsUnitSet self.now }
    {
        bit(&self.words, unit.number())
    }

    /// Adds a unit, and says whether the set changed.
    pub fn insert(&mut self, unit: UnitNo) -> bool
        ensures changed { result ≡ not (among self.old unit) }
        ensures after { self.new ≡ with_unit unit self.old }
    {
        let fresh = !bit(&self.words, unit.number());
        set_bit(&mut self.words, unit.number());
        fresh
    }

    /// Takes a unit out, and says whether the set changed.
    pub fn remove(&mut self, unit: UnitNo) -> bool
        ensures changed { result ≡ among self.old unit }
        ensures after { self.new ≡ without_unit unit self.old }
    {
        let there = bit(&self.words, unit.number());
        clear_bit(&mut self.words, unit.number());
        there
    }

    /// Whether every member is in the other set.
    pub fn subset(&self, other: &UnitSet) -> bool
        ensures { result ≡ is_within other.now self.now }
    {
        is_covered(&self.words, &other.words)
    }

    /// How many members are not in the other set.
    pub fn count_without(&self, other: &UnitSet) -> u32
        ensures { result ≡ length (outside other.now self.now) }
    {
        count_outside(&self.words, &other.words)
    }
}
