//! How waves are filled, one after the other: a wave takes each unit that is left and may be out beside those that it
//! has taken, and the others are left for the next.
ghost use Rattle.std.specs.Prelude.{◌≡◌, ◌≤◌, ℕ, [], ◌∷◌, ◌++◌, true, false, All, OnOk};
ghost use Rattle.unit_sets.specs.UnitList.{among};
ghost use Rattle.margin_policy.specs.Asked.{has_repeat};
ghost use Rattle.wave_planner.specs.Ends.{AreFreeAlone};
ghost use Rattle.wave_planner.specs.Filling.{is_free, out_after, passed, taken};
ghost use Rattle.wave_planner.specs.Waves.{AreFirstFit};

use flat_rows::Rows;
use residual_ledger::Ledger;
use std::alloc::Global;
use unit_sets::{NoMemory, UnitNo};

// Whether a unit may be out beside those that are out, which may be out together. So a cut set without the unit keeps
// enough, and of those with it the counts alone are asked: a step for each, up to the first that would be tight.
fn may_go(ledger: &Ledger, margin: u32, unit: UnitNo) -> bool
    requires known { unit ≤ ledger.now.units }
    requires in_service { among ledger.now.out unit ≡ false }
    requires free { is_free ledger.now.cuts margin ledger.now.out ≡ true }
    ensures { result ≡ is_free ledger.now.cuts margin (unit ∷ ledger.now.out) }
{
    // The list tells the proof that no cut set has a unit twice.
    ledger.cuts();
    for place in ledger.holding(unit) {
        // The unit is one of those that are left.
        if ledger.residual(*place as usize) - 1 <= margin {
            return false;
        }
    }
    true
}

// A unit goes out and into the wave, or it stays for later where some cut set would be tight.
fn try_unit(
    ledger: &mut Ledger,
    margin: u32,
    unit: UnitNo,
    wave: &mut Vec<UnitNo>,
    rest: &mut Vec<UnitNo>,
) -> Result<(), NoMemory>
    requires known { unit ≤ ledger.old.units }
    requires in_service { among ledger.old.out unit ≡ false }
    requires free { is_free ledger.old.cuts margin ledger.old.out ≡ true }
    ensures ledger { ledger.new ≡ record ledger.old {
      out = out_after (is_free ledger.old.cuts margin) ledger.old.out unit;
    } }
    ensures wave { OnOk result (wave.new.items
        ≡ wave.old.items ++ taken (is_free ledger.old.cuts margin) ledger.old.out (unit ∷ [])) }
    ensures rest { OnOk result (rest.new.items
        ≡ rest.old.items ++ passed (is_free ledger.old.cuts margin) ledger.old.out (unit ∷ [])) }
{
    if may_go(ledger, margin, unit) {
        ledger.out(unit);
        wave.push(unit)?;
    } else {
        rest.push(unit)?;
    }
    Ok(())
}

// Parts the units that are left into those of the next wave, which go out, and the rest.
fn part(
    ledger: &mut Ledger,
    margin: u32,
    left: &[UnitNo],
    wave: &mut Vec<UnitNo>,
    rest: &mut Vec<UnitNo>,
) -> Result<(), NoMemory>
    requires known { All (λ unit. unit ≤ ledger.old.units) left.now }
    requires differ { has_repeat left.now ≡ false }
    requires free { is_free ledger.old.cuts margin [] ≡ true }
    requires none_out { ledger.old.out ≡ [] }
    requires no_wave { wave.old.items ≡ [] }
    requires no_rest { rest.old.items ≡ [] }
    ensures ledger { ledger.new ≡ record ledger.old { out = ledger.new.out } }
    ensures wave { OnOk result (wave.new.items ≡ taken (is_free ledger.old.cuts margin) [] left.now) }
    ensures rest { OnOk result (rest.new.items ≡ passed (is_free ledger.old.cuts margin) [] left.now) }
    ensures out { OnOk result ((unit : ℕ) → among ledger.new.out unit ≡ among wave.new.items unit) }
{
    for unit in left {
        try_unit(ledger, margin, *unit, wave, rest)?;
    }
    Ok(())
}

// Puts the units of a wave back, which are all that are out.
fn put_back(ledger: &mut Ledger, wave: &[UnitNo])
    requires known { All (λ unit. unit ≤ ledger.old.units) wave.now }
    requires differ { has_repeat wave.now ≡ false }
    requires out { (unit : ℕ) → among ledger.old.out unit ≡ among wave.now unit }
    ensures { ledger.new ≡ record ledger.old { out = [] } }
{
    for unit in wave {
        ledger.back(*unit);
    }
}

// Adds the wave of the units that are left, and leaves the others.
fn next_wave(
    alloc: Global,
    ledger: &mut Ledger,
    margin: u32,
    left: &mut Vec<UnitNo>,
    waves: &mut Rows<UnitNo>,
) -> Result<(), NoMemory>
    requires known { All (λ unit. unit ≤ ledger.old.units) left.old.items }
    requires differ { has_repeat left.old.items ≡ false }
    requires free { is_free ledger.old.cuts margin [] ≡ true }
    requires none_out { ledger.old.out ≡ [] }
    ensures ledger { OnOk result (ledger.new ≡ ledger.old) }
    ensures left { OnOk result (left.new.items ≡ passed (is_free ledger.old.cuts margin) [] left.old.items) }
    ensures waves { OnOk result (waves.new
        ≡ waves.old ++ taken (is_free ledger.old.cuts margin) [] left.old.items ∷ []) }
{
    let mut wave = Vec::new(alloc);
    let mut rest = Vec::new(alloc);
    part(ledger, margin, left.as_slice(), &mut wave, &mut rest)?;
    put_back(ledger, wave.as_slice());
    waves.push(wave.as_slice())?;
    *left = rest;
    Ok(())
}

/// Fills waves until no unit is left. Each wave asks each unit that is left for its own cut sets, so a wave takes at
/// most as many steps as there are units and members of cut sets.
pub(crate) fn fill_waves(
    alloc: Global,
    ledger: &mut Ledger,
    margin: u32,
    wanted: &[UnitNo],
    waves: &mut Rows<UnitNo>,
) -> Result<(), NoMemory>
    requires known { All (λ unit. unit ≤ ledger.old.units) wanted.now }
    requires differ { has_repeat wanted.now ≡ false }
    requires alone { AreFreeAlone ledger.old.cuts margin wanted.now }
    requires none_out { ledger.old.out ≡ [] }
    requires no_waves { waves.old ≡ [] }
    ensures { OnOk result (AreFirstFit ledger.old.cuts margin wanted.now waves.new) }
{
    let mut left = Vec::from_slice(alloc, wanted)?;
    while !left.is_empty() {
        next_wave(alloc, ledger, margin, &mut left, waves)?;
    }
    Ok(())
}
