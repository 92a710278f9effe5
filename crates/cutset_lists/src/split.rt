//! A list in two parts: the sets that include one of another list, and the rest.
ghost use Rattle.std.specs.Prelude.{◌≡◌, [], true, OnOk};
ghost use Rattle.cutset_lists.specs.Sets.{Splits};
ghost use Rattle.cutset_lists.specs.Waiting.{AreFilled, AreReady};

use crate::waiting::Waiting;
use crate::{NoMemory, Sets};
use std::alloc::Global;

/// Whether each set has a unit. If so, the sets can wait at their units.
pub fn are_filled(sets: &Sets) -> bool
    ensures { result ≡ true → AreFilled sets.now }
{
    for i in 0..sets.len() {
        if sets.row(i).is_empty() {
            return false;
        }
    }
    true
}

// Adds those sets of a list that include one of another, whose sets wait, and puts the rest into a list of its own. A
// set that includes one may also go to the rest: then it is multiplied.
fn spread(
    waiting: &mut Waiting,
    list: &Sets,
    other: &Sets,
    including: &mut Sets,
    rest: &mut Sets,
) -> Result<(), NoMemory>
    requires waiting { AreReady other.now waiting.old }
    requires rest { rest.old ≡ [] }
    ensures { OnOk result (Splits list.now other.now including.old including.new rest.new) }
{
    for i in 0..list.len() {
        let set = list.row(i);
        if waiting.finds(other, set, set.len() + 1) {
            including.push(set)?;
        } else {
            rest.push(set)?;
        }
    }
    Ok(())
}

/// Adds the sets of a list that include one of another list, and puts the rest into a list of its own.
pub fn split(
    alloc: Global,
    list: &Sets,
    other: &Sets,
    including: &mut Sets,
    rest: &mut Sets,
) -> Result<(), NoMemory>
    requires filled { AreFilled other.now }
    requires rest { rest.old ≡ [] }
    ensures { OnOk result (Splits list.now other.now including.old including.new rest.new) }
{
    let mut waiting = Waiting::new(alloc)?;
    waiting.take_up(other, usize::MAX)?;
    spread(&mut waiting, list, other, including, rest)
}
