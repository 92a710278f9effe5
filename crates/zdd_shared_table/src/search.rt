//! The search for a word in the table: from its home slot by slot, round the end.
ghost use Rattle.std.specs.Prelude.{◌≡◌, ◌+◌, ◌<◌, ◌≤◌, ◌^◌, MatchBool, IfSome, IfNone};
ghost use Rattle.zdd_families.specs.Map.{IsNode};
ghost use Rattle.zdd_shared_table.specs.Known.{find};
ghost use Rattle.zdd_shared_table.specs.Views.{loaded, exchanged, passed_on, searched_all};
ghost use Rattle.zdd_shared_table.specs.Rule.{round};
ghost use Rattle.zdd_shared_table.specs.Seats.{IsSoundView};
ghost use Rattle.zdd_shared_table.specs.Search.{IsSearch, HasEnded, StaysSeat};

use crate::rule::{Asked, Exchanges, Loads, NodeRule};
use crate::view::View;
use atomic_table::{Seat, Shared};
use std::marker::Brand;
use zdd_words::home;

/// The words of the table, as threads share them.
pub(crate) type Words = Shared<(), View, u32, NodeRule>;

/// What a thread steps with.
pub(crate) type Place = Seat<(), View>;

// Loads the slot at which the search stands.
fn load<A: Asked>(words: &Words, seat: &mut Place, word: u64, passed: usize, slot: usize) -> u64
    requires asked { (word ≡ A.word) × (passed ≡ A.passed) }
    requires own { seat.old.table_id ≡ words.now.table_id }
    requires inside { slot < words.now.table_id.words }
    requires search { IsSearch words.now.key seat.old.me.0 word passed slot }
    ensures stays { StaysSeat seat.old seat.new }
    ensures view { seat.new.me.0 ≡ loaded word passed slot result seat.old.me.0 }
    ensures sound { IsSoundView seat.new.me.0 }
{
    words.load::<Loads<A>>(seat, slot)
}

// Fills the slot at which the search stands, if it is still empty.
fn exchange<A: Asked>(words: &Words, seat: &mut Place, word: u64, passed: usize, slot: usize) -> u64
    requires asked { (word ≡ A.word) × (passed ≡ A.passed) }
    requires own { seat.old.table_id ≡ words.now.table_id }
    requires inside { slot < words.now.table_id.words }
    requires search { IsSearch words.now.key seat.old.me.0 word passed slot }
    ensures stays { StaysSeat seat.old seat.new }
    ensures view { seat.new.me.0 ≡ exchanged word passed slot result seat.old.me.0 }
    ensures sound { IsSoundView seat.new.me.0 }
{
    words.compare_exchange::<Exchanges<A>>(seat, slot, 0, word)
}

// Whether the search ends at this slot: it holds the word, or it was empty and is filled with it.
// An exchange costs more than a load and shuts other threads out, so only an empty slot is exchanged.
fn ends_at(words: &Words, seat: &mut Place, word: u64, passed: usize, slot: usize) -> bool
    requires own { seat.old.table_id ≡ words.now.table_id }
    requires inside { slot < words.now.table_id.words }
    requires search { IsSearch words.now.key seat.old.me.0 word passed slot }
    ensures stays { StaysSeat seat.old seat.new }
    ensures view { MatchBool result (HasEnded word slot seat.old.me.0 seat.new.me.0)
        (seat.new.me.0 ≡ passed_on word passed seat.old.me.0) }
    ensures sound { IsSoundView seat.new.me.0 }
{
    let met = load::<Brand>(words, seat, word, passed, slot);
    if met != 0 {
        return met == word;
    }
    let found = exchange::<Brand>(words, seat, word, passed, slot);
    found == 0 || found == word
}

// The slot after this one, round the end.
fn next(slot: usize, size: usize) -> usize
    requires { slot < size }
    ensures { result ≡ round size (slot + 1) }
{
    let next = slot + 1;
    if next < size { next } else { 0 }
}

/// The slot that holds the word, which the seat may have filled, or `None` where each slot holds another.
pub(crate) fn search(
    words: &Words,
    seat: &mut Place,
    bits: u32,
    size: usize,
    word: u64,
) -> Option<usize>
    requires few { 10 ≤ bits }
    requires many { bits ≤ 25 }
    requires key { words.now.key ≡ bits }
    requires size { (size ≡ 2 ^ bits) × (words.now.table_id.words ≡ size) }
    requires own { seat.old.table_id ≡ words.now.table_id }
    requires sized { seat.old.me.0.size ≡ size }
    requires node { IsNode (find seat.old.me.0.known) word }
    requires sound { IsSoundView seat.old.me.0 }
    ensures stays { StaysSeat seat.old seat.new }
    ensures found { IfSome result (λ slot. (slot < size) × HasEnded word slot seat.old.me.0 seat.new.me.0) }
    ensures passed_all { IfNone result (seat.new.me.0 ≡ searched_all word seat.old.me.0) }
    ensures sound { IsSoundView seat.new.me.0 }
{
    let mut slot = home(word, bits);
    for passed in 0..size {
        if ends_at(words, seat, word, passed, slot) {
            return Some(slot);
        }
        slot = next(slot, size);
    }
    None
}
