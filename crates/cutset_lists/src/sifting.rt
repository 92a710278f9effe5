//! The minimal sets of a long list: the smaller sets that were kept wait at their units for a set that has them within.
ghost use Rattle.std.specs.Prelude.{◌≡◌, [], map, OnOk};
ghost use Rattle.unit_sets.specs.CutOrder.{IsInCutOrder};
ghost use Rattle.cutset_lists.specs.Cuts.{units_of};
ghost use Rattle.cutset_lists.specs.Sets.{IsMinimalFrom};
ghost use Rattle.cutset_lists.specs.Waiting.{AreFilled, AreReady};

use crate::sort::Cut;
use crate::waiting::Waiting;
use crate::{NoMemory, Sets};
use std::alloc::Global;

// Keeps the minimal ones, where none waits and none is kept yet.
fn sift(waiting: &mut Waiting, kept: &mut Sets, cuts: &[Cut]) -> Result<(), NoMemory>
    requires order { IsInCutOrder (map units_of cuts.now) }
    requires filled { AreFilled (map units_of cuts.now) }
    requires waiting { AreReady kept.old waiting.old }
    requires none { kept.old ≡ [] }
    ensures { OnOk result (IsMinimalFrom (map units_of cuts.now) kept.new) }
{
    for cut in cuts {
        let size = cut.units.len();
        waiting.take_up(kept, size)?;
        if !waiting.finds(kept, cut.units, size) {
            kept.push(cut.units)?;
        }
    }
    Ok(())
}

/// The minimal ones of sets in the order of cut lists, each of which has a unit.
pub fn sifted(alloc: Global, kept: &mut Sets, cuts: &[Cut]) -> Result<(), NoMemory>
    requires order { IsInCutOrder (map units_of cuts.now) }
    requires filled { AreFilled (map units_of cuts.now) }
    requires none { kept.old ≡ [] }
    ensures { OnOk result (IsMinimalFrom (map units_of cuts.now) kept.new) }
{
    let mut waiting = Waiting::new(alloc)?;
    sift(&mut waiting, kept, cuts)
}
