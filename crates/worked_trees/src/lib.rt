//! Fault trees, their cut lists and crews for the tests of the crates above, read from the texts of decks.
#![tactic(auto)]

ghost use Rattle.std.specs.Prelude.{◌<◌, ◌+◌, All, IfOk};
ghost use Rattle.fault_definitions.specs.Cut.{IsCutList};
ghost use Rattle.fault_definitions.specs.Tree.{IsUnitOf, unit_count};

mod texts;

use crew_script::{Dockets, LONGEST_DECK, read_crews};
use cutset_lists::mcs_by_lists;
use fault_model::Tree;
use galileo_tree::parse;
use std::alloc::Global;
use std::test::Fail;
pub use texts::{or_of_pairs, random_text};
use tree_check::check;
use unit_sets::{CutList, UnitNo};

/// How long the text of a worked tree may be, in bytes.
pub const LONGEST_TEXT: usize = 1_000_000;

/// The tree of a text. A text that is too long, or that is refused, fails the test.
pub fn tree_of(alloc: Global, text: &[u8]) -> Result<Tree, Fail> {
    if text.len() > LONGEST_TEXT {
        return Err("the text is too long".into());
    }
    let raw = parse(alloc, text)?;
    Ok(check(alloc, raw)?)
}

/// The cut list of a tree. One that is too heavy fails the test.
#[tactic(auto, using(crate::proofs::Cuts::are_of_units, crate::proofs::Cuts::are_known))]
pub fn cuts_of(alloc: Global, tree: &Tree) -> Result<CutList, Fail>
    ensures cut_list { IfOk result (IsCutList tree.now) }
    ensures units { IfOk result (λ cuts. All (All (IsUnitOf tree.now)) cuts) }
    ensures known { IfOk result (λ cuts. All (All (λ unit. unit < unit_count tree.now + 1)) cuts) }
{
    Ok(mcs_by_lists(alloc, tree)?)
}

/// The crews of a crew part. One that is too long, or that is refused, fails the test.
pub fn dockets_of(alloc: Global, text: &[u8]) -> Result<Dockets, Fail> {
    if text.len() > LONGEST_DECK {
        return Err("the crew part is too long".into());
    }
    match read_crews(alloc, text, 1) {
        Ok(dockets) => Ok(dockets),
        Err(_) => Err("the crew part is refused".into()),
    }
}

/// Units by their numbers, as `1 2`.
pub fn numbers_of(alloc: Global, units: &[UnitNo]) -> Result<String, Fail> {
    let mut text = String::new(alloc);
    for unit in units {
        if !text.is_empty() {
            text.push(' ')?;
        }
        let number = unit.number();
        text.push_str(format!(in alloc; "{number}")?.as_str())?;
    }
    Ok(text)
}

/// The sets of a cut list by the numbers of their units, as `3, 1 2`.
pub fn sets_of(alloc: Global, cuts: &CutList) -> Result<String, Fail> {
    let mut text = String::new(alloc);
    for i in 0..cuts.len() {
        if i > 0 {
            text.push_str(", ")?;
        }
        text.push_str(numbers_of(alloc, cuts.members(i))?.as_str())?;
    }
    Ok(text)
}
