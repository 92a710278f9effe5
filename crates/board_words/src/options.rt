//! Options with their values.
ghost use Rattle.std.specs.Prelude.{◌≡◌, map, None, Some, MatchOption};
ghost use Rattle.std.specs.List.{list_any};
ghost use Rattle.board_words.specs.Options.{are_options, is_known, is_said_once, number_said};
ghost use Rattle.board_words.specs.Options.{value_of};

use crate::Word;
use crate::number::number_within;

/// Whether the words are known options, each with a value behind it, and none twice.
pub fn are_options(known: &[&[u8]], words: &[Word]) -> bool
    ensures { result ≡ are_options (map (λ word. word.now) known.now) words.now }
{
    let mut rest = words;
    while let [option, _, behind @ ..] = rest {
        if !is_said_once(known, option.as_slice(), behind) {
            return false;
        }
        rest = behind;
    }
    rest.is_empty()
}

// Whether a word is a known option and not among the options behind it.
fn is_said_once(known: &[&[u8]], word: &[u8], rest: &[Word]) -> bool
    ensures { result ≡ is_said_once (map (λ word. word.now) known.now) word.now rest.now }
{
    is_known(known, word) && value_of(word, rest).is_none()
}

fn is_known(known: &[&[u8]], word: &[u8]) -> bool
    ensures { result ≡ is_known (map (λ word. word.now) known.now) word.now }
{
    match known {
        [option, rest @ ..] => word == *option || is_known(rest, word),
        [] => false,
    }
}

/// The value behind an option, where the option is said.
pub fn value_of<'a>(option: &[u8], words: &'a [Word]) -> Option<&'a Word>
    ensures { MatchOption result (value_of option.now words.now ≡ None)
        (λ value. value_of option.now words.now ≡ Some value.now) }
{
    let mut left = words;
    while let [word, value, more @ ..] = left {
        if word.as_slice() == option {
            return Some(value);
        }
        left = more;
    }
    None
}

// The number behind an option, which has to be within these bounds, and the default where the option isn't said.
pub(crate) fn number_said(
    words: &[Word],
    option: &[u8],
    least: u32,
    most: u32,
    default: Option<u32>,
) -> Option<u32>
    ensures { result ≡ number_said least most default (value_of option.now words.now) }
{
    match value_of(option, words) {
        Some(value) => number_within(least, most, value.as_slice()),
        None => default,
    }
}
