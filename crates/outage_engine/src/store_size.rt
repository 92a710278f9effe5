//! How large a store a run gets.
ghost use Rattle.std.specs.Prelude.{◌≡◌, ◌≤◌};
ghost use Rattle.board_words.specs.Command.{command_of};
ghost use Rattle.outage_engine.specs.StoreSize.{bits_for};

use crate::Word;
use board_words::{Command, Show, read};

/// Where diagrams are made, the store has two to the power of this slots.
pub const STORE_BITS: u32 = 20;

/// A command that makes none gets the least store, since each slot is filled with a zero at the start.
pub const LEAST_BITS: u32 = 10;

/// How large a store the command of these words is to get: two to the power of so many slots.
pub fn store_bits(words: &[Word]) -> u32
    ensures bits { result ≡ bits_for (command_of words.now) }
    ensures few { 10 ≤ result }
    ensures many { result ≤ 25 }
{
    match read(words) {
        None | Some(Command::Help | Command::Check | Command::Print) => LEAST_BITS,
        Some(Command::Make { show, .. }) if show == Show::Deck => LEAST_BITS,
        Some(_) => STORE_BITS,
    }
}
