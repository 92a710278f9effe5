//! How large a store a run gets.
ghost use Rattle.std.specs.Prelude.{◌≡◌, ◌≤◌};
ghost use Rattle.picture_engine.specs.StoreSize.{bits_for};
ghost use Rattle.picture_engine.specs.Words.{asked};

use crate::words::{Mark, read_words};
use board_words::Word;
use outage_engine::{LEAST_BITS, STORE_BITS};

/// How large a store the picture of these words is to get: two to the power of so many slots.
pub fn store_bits(words: &[Word]) -> u32
    ensures bits { result ≡ bits_for (asked words.now) }
    ensures few { 10 ≤ result }
    ensures many { result ≤ 25 }
{
    match read_words(words) {
        Some(Mark::Cut(_)) => STORE_BITS,
        Some(Mark::Nothing) | None => LEAST_BITS,
    }
}
