//! A node as a word of 64 bits, and where its search begins.
ghost use Rattle.std.specs.Prelude.{◌≡◌, ◌<◌, ◌≤◌, ◌^◌};
ghost use Rattle.zdd_words.specs.Word.{hi_of, home_of, level_of, lo_of, packed};

use crate::NodeRef;
use unit_sets::UnitNo;

// How far lo and the level are shifted.
const LO_SHIFT: u32 = 26;

const LEVEL_SHIFT: u32 = 52;

/// An odd number near 2^64 divided by the golden ratio: its products spread neighbouring keys of a table, as Knuth's
/// section 6.4 says of multiplicative hashing.
pub const SPREAD: u64 = 11_400_714_819_323_198_485;

/// What a node word says: a level, and the references of both parts.
#[derive(Clone, Copy, Debug, PartialEq, Eq)]
pub struct Parts {
    pub level: UnitNo,
    pub lo: NodeRef,
    pub hi: NodeRef,
}

/// The word of a node.
pub fn pack(level: UnitNo, lo: NodeRef, hi: NodeRef) -> u64
    ensures value { result ≡ packed level lo hi }

    // What was packed comes back.
    ensures level_comes_back { level_of result ≡ level }
    ensures lo_comes_back { lo_of result ≡ lo }
    ensures hi_comes_back { hi_of result ≡ hi }
{
    let level = u64::from(level.number());
    let lo = u64::from(lo.number());
    let hi = u64::from(hi.number());
    level << LEVEL_SHIFT | lo << LO_SHIFT | hi
}

// The level that a word has.
fn level_in(word: u64) -> UnitNo
    requires { 1 ≤ level_of word }
    ensures { result ≡ level_of word }
{
    UnitNo::new((word >> LEVEL_SHIFT) as u16).unwrap()
}

/// The node that a word holds.
pub fn unpack(word: u64) -> Parts
    requires { 1 ≤ level_of word }
    ensures level { result.level ≡ level_of word }
    ensures lo { result.lo ≡ lo_of word }
    ensures hi { result.hi ≡ hi_of word }

    // The word comes back from its parts.
    ensures word_comes_back { packed result.level result.lo result.hi ≡ word }
{
    Parts {
        level: level_in(word),
        lo: NodeRef::in_lowest_bits(word >> LO_SHIFT),
        hi: NodeRef::in_lowest_bits(word),
    }
}

/// The slot at which the search for a word begins, in a table of 2^bits slots.
pub fn home(word: u64, bits: u32) -> usize
    requires few { 10 ≤ bits }
    requires many { bits ≤ 25 }
    ensures value { result ≡ home_of word bits }
    ensures within { result < 2 ^ bits }
{
    (word.wrapping_mul(SPREAD) >> (64 - bits)) as usize
}
