//! The words of the program, and what they ask for.
ghost use Rattle.std.specs.Prelude.{◌≡◌, IfSome, Some};
ghost use Rattle.picture_engine.specs.Words.{IsNumbered, asked, mark_in, mark_said};

use board_words::{Word, are_options, number_within, value_of};
use deck_limits::HIGHEST_CUT;

/// What is marked in a picture.
#[derive(Clone, Copy, PartialEq, Eq)]
pub enum Mark {
    /// Nothing.
    Nothing,
    /// The units of the minimal cut set of this number, from 1, in the order of the cut list.
    Cut(u32),
}

/// What the words ask to be marked, the program's name left out; `None` where they ask for no picture.
pub(crate) fn read_words(words: &[Word]) -> Option<Mark>
    ensures mark { result ≡ asked words.now }
    ensures numbered { IfSome result IsNumbered }
{
    let [first, options @ ..] = words else {
        return None;
    };
    if first.as_slice() == b"picture".as_slice() {
        mark_in(options)
    } else {
        None
    }
}

fn mark_in(options: &[Word]) -> Option<Mark>
    ensures mark { result ≡ mark_in options.now }
    ensures numbered { IfSome result IsNumbered }
{
    if !are_options(&[b"--cut"], options) {
        return None;
    }
    match value_of(b"--cut", options) {
        Some(number) => cut_said(number.as_slice()),
        None => Some(Mark::Nothing),
    }
}

#[tactic(auto, using(crate::proofs::Numbers::at_least_one))]
fn cut_said(number: &[u8]) -> Option<Mark>
    ensures mark { result ≡ mark_said (Some number.now) }
    ensures numbered { IfSome result IsNumbered }
{
    let number = number_within(1, HIGHEST_CUT, number)?;
    Some(Mark::Cut(number))
}
