//! Faults that show at the statements, before names have numbers.
ghost use Rattle.std.specs.Prelude.{◌≡◌, drop, filter, map};
ghost use Rattle.tree_check.specs.Said.{basics, tops};
ghost use Rattle.tree_check.specs.Classes.{first, is_replicated, replicated};

use fault_words::Place;
use galileo_tree::{RawAttribute, Statement};

/// The word of the top statement after so many.
pub(crate) fn top_after(statements: &[Statement], count: usize) -> Option<Place>
    ensures { result ≡ first (map (λ top. top.word) (drop count (tops statements.now))) }
{
    let mut to_pass = count;
    for statement in statements {
        if let Statement::Top(top) = statement {
            if to_pass == 0 {
                return Some(top.word);
            }
            to_pass -= 1;
        }
    }
    None
}

/// The first value of an attribute `repl` that is not 1.
pub(crate) fn replication(statements: &[Statement]) -> Option<Place>
    ensures { result ≡ first (replicated (basics statements.now)) }
{
    for statement in statements {
        if let Statement::Basic(basic) = statement {
            if let Some(place) = replication_among(basic.attributes.as_slice()) {
                return Some(place);
            }
        }
    }
    None
}

fn replication_among(attributes: &[RawAttribute]) -> Option<Place>
    ensures { result ≡ first (map (λ raw. raw.value_place) (filter is_replicated attributes.now)) }
{
    for attribute in attributes {
        if is_replicated(attribute) {
            return Some(attribute.value_place);
        }
    }
    None
}

fn is_replicated(raw: &RawAttribute) -> bool
    ensures { result ≡ is_replicated raw.now }
{
    let word = raw.attribute.word.as_slice();
    let value = raw.attribute.value.as_slice();
    word.eq_ignore_ascii_case(b"repl") && value != b"1".as_slice()
}

/// The name of the basic event after so many.
pub(crate) fn unit_after(statements: &[Statement], count: usize) -> Option<Place>
    ensures { result ≡ first (map (λ basic. basic.name.place) (drop count (basics statements.now))) }
{
    let mut to_pass = count;
    for statement in statements {
        if let Statement::Basic(basic) = statement {
            if to_pass == 0 {
                return Some(basic.name.place);
            }
            to_pass -= 1;
        }
    }
    None
}
