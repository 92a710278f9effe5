//! The minimal sets of a list.
ghost use Rattle.std.specs.Prelude.{◌≡◌, [], map, IfOk, OnOk};
ghost use Rattle.std.specs.List.{list_any};
ghost use Rattle.unit_sets.specs.CutOrder.{IsInCutOrder};
ghost use Rattle.unit_sets.specs.UnitList.{is_within};
ghost use Rattle.cutset_lists.specs.Cuts.{units_of};
ghost use Rattle.cutset_lists.specs.Sets.{is_smaller_within, IsSortedFrom, IsMinimalFrom, IsReducedFrom};

use crate::sifting::sifted;
use crate::sort::Cut;
use crate::{NoMemory, Room, Sets, UnitNo};
use std::alloc::Global;
use std::mem;

// From so many sets on, a table of those that wait pays for its making.
const MANY: usize = 64;

// The sets of a list, each once, in the order of cut lists.
fn sorted<'a>(alloc: Global, sets: &'a Sets) -> Result<Vec<Cut<'a>>, NoMemory>
    ensures { IfOk result (λ cuts. IsSortedFrom sets.now (map units_of cuts.items)) }
{
    let mut cuts = Vec::with_capacity(alloc, sets.len())?;
    for i in 0..sets.len() {
        let units = sets.row(i);
        cuts.push(Cut { units })?;
    }
    cuts.sort()?;
    cuts.dedup();
    Ok(cuts)
}

// Whether the units of a set are all in another.
fn is_subset(set: &[UnitNo], smaller: &[UnitNo]) -> bool
    ensures { result ≡ is_within set.now smaller.now }
{
    for unit in smaller {
        if !set.contains(unit) {
            return false;
        }
    }
    true
}

// Whether the list, which goes by size, has a smaller set within this one.
fn has_smaller_within(sets: &Sets, set: &[UnitNo]) -> bool
    requires { IsInCutOrder sets.now }
    ensures { result ≡ list_any (is_smaller_within set.now) sets.now }
{
    for i in 0..sets.len() {
        let smaller = sets.row(i);
        if smaller.len() >= set.len() {
            return false;
        }
        if is_subset(set, smaller) {
            return true;
        }
    }
    false
}

// The minimal ones of few sets in the order of cut lists: each is compared with all that were kept.
fn few(kept: &mut Sets, cuts: &[Cut]) -> Result<(), NoMemory>
    requires order { IsInCutOrder (map units_of cuts.now) }
    requires none { kept.old ≡ [] }
    ensures { OnOk result (IsMinimalFrom (map units_of cuts.now) kept.new) }
{
    for cut in cuts {
        if !has_smaller_within(kept, cut.units) {
            kept.push(cut.units)?;
        }
    }
    Ok(())
}

// The minimal ones of sets in the order of cut lists. An empty set comes first there, and is within all others.
fn minimal_of(alloc: Global, kept: &mut Sets, cuts: &[Cut]) -> Result<(), NoMemory>
    requires order { IsInCutOrder (map units_of cuts.now) }
    requires none { kept.old ≡ [] }
    ensures { OnOk result (IsMinimalFrom (map units_of cuts.now) kept.new) }
{
    if cuts.len() < MANY {
        return few(kept, cuts);
    }
    if cuts[0].units.is_empty() {
        return kept.push(&[]);
    }
    sifted(alloc, kept, cuts)
}

// Puts the minimal sets of a list, in the order of cut lists, into one that has none.
fn minimal(alloc: Global, kept: &mut Sets, sets: &Sets) -> Result<(), NoMemory>
    requires { kept.old ≡ [] }
    ensures { OnOk result (IsMinimalFrom sets.now kept.new) }
{
    let cuts = sorted(alloc, sets)?;
    minimal_of(alloc, kept, cuts.as_slice())
}

/// Leaves the minimal sets of a list, in the order of cut lists.
pub fn minimize<'h>(room: Room<'h>, sets: &mut Sets<'h>) -> Result<(), NoMemory>
    ensures { OnOk result (IsMinimalFrom sets.old sets.new) }
{
    let all = mem::replace(sets, room.no_sets());
    minimal(room.alloc, sets, &all)
}

/// Leaves the sets that have no other within them, unless it is known that none has.
pub fn reduce<'h>(room: Room<'h>, sets: &mut Sets<'h>, apart: bool) -> Result<(), NoMemory>
    ensures { OnOk result (IsReducedFrom sets.old sets.new) }
{
    if apart { Ok(()) } else { minimize(room, sets) }
}
