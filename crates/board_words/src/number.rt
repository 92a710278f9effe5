//! Numbers as words.
ghost use Rattle.std.specs.Prelude.{◌≡◌};
ghost use Rattle.board_words.specs.Number.{number_within};

use decimal_numerals::{is_numeral, number};

// The most digits of a number among the words.
const MOST_DIGITS: usize = 6;

/// The number that a word says, where it is within these bounds.
pub fn number_within(least: u32, most: u32, word: &[u8]) -> Option<u32>
    ensures { result ≡ number_within least most word.now }
{
    if !is_numeral(MOST_DIGITS, word) {
        return None;
    }
    let number = number(word);
    if least <= number && number <= most {
        Some(number)
    } else {
        None
    }
}
