//! Tests of the bytes of a word.
ghost use Rattle.std.specs.Prelude.{◌≡◌, ◌≤◌, length};
ghost use Rattle.std.specs.List.{prefix_len};
ghost use Rattle.std.specs.Char.{is_ascii_digit};
ghost use Rattle.std.specs.Str.{str_eq_ignore_ascii_case};
ghost use Rattle.galileo_tree.specs.GateWord.{votes_if, votes_of, gate_word};

use decimal_numerals::{are_digits, number};
use fault_words::GateKind;

// The most digits of each number of a `KofN`.
const MOST_DIGITS: usize = 9;

// The kind of a gate that a word says.
#[tactic(auto, unfolding(crate::specs::GateWord::gate_word))]
pub(crate) fn gate_word(word: &[u8]) -> Option<GateKind>
    ensures { result ≡ gate_word word.now }
{
    if word.eq_ignore_ascii_case(b"and") {
        Some(GateKind::And)
    } else if word.eq_ignore_ascii_case(b"or") {
        Some(GateKind::Or)
    } else if word.eq_ignore_ascii_case(b"pand") {
        Some(GateKind::Pand)
    } else if word.eq_ignore_ascii_case(b"por") {
        Some(GateKind::Por)
    } else if word.eq_ignore_ascii_case(b"seq") {
        Some(GateKind::Seq)
    } else if word.eq_ignore_ascii_case(b"fdep") {
        Some(GateKind::Fdep)
    } else if word.eq_ignore_ascii_case(b"csp") {
        Some(GateKind::Csp)
    } else if word.eq_ignore_ascii_case(b"wsp") {
        Some(GateKind::Wsp)
    } else if word.eq_ignore_ascii_case(b"hsp") {
        Some(GateKind::Hsp)
    } else {
        votes(word)
    }
}

// K, `of` and N.
fn votes(word: &[u8]) -> Option<GateKind>
    ensures { result ≡ votes_of word.now }
{
    let (front, behind) = word.split_at(digit_count(word));
    if behind.len() < 2 {
        return None;
    }
    let (of, back) = behind.split_at(2);
    votes_if(front, of, back)
}

// How many digits stand at the front.
fn digit_count(word: &[u8]) -> usize
    ensures count { result ≡ prefix_len is_ascii_digit word.now }
    ensures within { result ≤ length word.now }
{
    let mut count = 0;
    while count < word.len() && word[count].is_ascii_digit() {
        count += 1;
    }
    count
}

fn votes_if(front: &[u8], of: &[u8], back: &[u8]) -> Option<GateKind>
    ensures { result ≡ votes_if front.now of.now back.now }
{
    if are_digits(MOST_DIGITS, front)
        && of.eq_ignore_ascii_case(b"of")
        && are_digits(MOST_DIGITS, back)
    {
        Some(GateKind::Votes(number(front), number(back)))
    } else {
        None
    }
}
