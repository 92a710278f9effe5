//! Lists that are true where two others are.
ghost use Rattle.std.specs.Prelude.{OnOk};
ghost use Rattle.cutset_lists.specs.Sets.{AddsUnions, AddsProduct};

use crate::merge::merge;
use crate::{NoMemory, Sets, UnitNo};
use std::alloc::Global;

// Adds the unions of one set with each of a list.
fn add_unions(
    sets: &mut Sets,
    union: &mut Vec<UnitNo>,
    set: &[UnitNo],
    list: &Sets,
) -> Result<(), NoMemory>
    ensures { OnOk result (AddsUnions set.now list.now sets.old sets.new) }
{
    for i in 0..list.len() {
        merge(union, set, list.row(i))?;
        sets.push(union.as_slice())?;
    }
    Ok(())
}

// Adds the unions of each set of one list with each of another.
pub fn add_all_unions(
    alloc: Global,
    sets: &mut Sets,
    left: &Sets,
    right: &Sets,
) -> Result<(), NoMemory>
    ensures { OnOk result (AddsProduct left.now right.now sets.old sets.new) }
{
    let mut union = Vec::new(alloc);
    for i in 0..left.len() {
        add_unions(sets, &mut union, left.row(i), right)?;
    }
    Ok(())
}
