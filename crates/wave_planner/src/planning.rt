//! The plan of an outage in waves.
ghost use Rattle.std.specs.Prelude.{◌≡◌, ◌≤◌, [], ◌∷◌, false, All, IfErr, IfOk, MatchOption, OnOk, slice_get};
ghost use Rattle.deck_limits.specs.declared.TheConstants.{GREATEST_MARGIN};
ghost use Rattle.unit_sets.specs.Unit.{most_units};
ghost use Rattle.unit_sets.specs.UnitList.{among};
ghost use Rattle.residual_ledger.specs.Residual.{HasUnitsUpTo};
ghost use Rattle.residual_ledger.specs.Tight.{tight};
ghost use Rattle.margin_policy.specs.Asked.{has_repeat};
ghost use Rattle.wave_planner.specs.Ends.{AreFreeAlone, IsFirstStuck, IsPlanEnd};
ghost use Rattle.wave_planner.specs.Waves.{AreFirstFit};

use crate::Waves;
use crate::filling::fill_waves;
use flat_rows::Rows;
use residual_ledger::Ledger;
use std::alloc::{AllocError, Global};
use unit_sets::{CutList, UnitNo};

/// A unit that may not be out of service, not even alone.
#[derive(Clone, Copy)]
pub struct Stuck {
    pub unit: UnitNo,
    /// The number, from 1, of the first cut set that has too few members in service while the unit is out.
    pub cut: u32,
}

/// Why there is no plan.
#[derive(Clone, Copy)]
pub enum PlanEnd {
    /// A wanted unit may not even be out alone. This is the first such one, in the order wanted.
    Impossible(Stuck),
    /// Memory was refused.
    NoMemory,
}

impl From<AllocError> for PlanEnd {
    ghost use Rattle.std.specs.Prelude.{◌≡◌};
    ghost use Rattle.wave_planner.specs.declared.planning.PlanEnd.TheVariants.{NoMemory};

    ghost from_gives = { λ _ end. end ≡ NoMemory };

    fn from(_e: AllocError) -> PlanEnd {
        PlanEnd::NoMemory
    }
}

// The number, from 1, of the first cut set that is tight with a unit out beside those that are out.
fn first_tight(ledger: &Ledger, margin: u32, unit: UnitNo) -> Option<u32>
    requires known { unit ≤ ledger.now.units }
    requires in_service { among ledger.now.out unit ≡ false }
    ensures { result ≡ slice_get (tight (unit ∷ ledger.now.out) margin ledger.now.cuts) 0 }
{
    // The list tells the proof that it has few cut sets.
    ledger.cuts();
    match ledger.first_tight_after(unit, margin) {
        Some(place) => Some(place as u32 + 1),
        None => None,
    }
}

// The first of some units that may not be out alone.
fn first_stuck(ledger: &Ledger, margin: u32, wanted: &[UnitNo]) -> Option<Stuck>
    requires known { All (λ unit. unit ≤ ledger.now.units) wanted.now }
    requires none_out { ledger.now.out ≡ [] }
    ensures { MatchOption result (AreFreeAlone ledger.now.cuts margin wanted.now)
        (IsFirstStuck ledger.now.cuts margin wanted.now) }
{
    for unit in wanted {
        if let Some(cut) = first_tight(ledger, margin, *unit) {
            return Some(Stuck { unit: *unit, cut });
        }
    }
    None
}

/// The first-fit waves of the units that are wanted. Each cut set keeps more members in service than the margin while
/// the units of a wave are out, in whatever order they go out. The number of waves need not be the least.
///
/// The units of the cut list and those that are wanted are at most `units`.
pub fn plan(
    alloc: Global,
    units: u32,
    cuts: &CutList,
    margin: u32,
    wanted: &[UnitNo],
) -> Result<Waves, PlanEnd>
    requires limit { units ≤ most_units }
    requires cuts { HasUnitsUpTo units cuts.now }
    requires margin { margin ≤ GREATEST_MARGIN }
    requires known { All (λ unit. unit ≤ units) wanted.now }
    requires differ { has_repeat wanted.now ≡ false }

    ensures waves { IfOk result (AreFirstFit cuts.now margin wanted.now) }

    // Only a unit that may not be out alone makes a plan impossible, and each such one does.
    ensures possible { OnOk result (AreFreeAlone cuts.now margin wanted.now) }
    ensures end { IfErr result (IsPlanEnd cuts.now margin wanted.now) }
{
    let mut ledger = Ledger::new(alloc, units, cuts)?;
    if let Some(stuck) = first_stuck(&ledger, margin, wanted) {
        return Err(PlanEnd::Impossible(stuck));
    }
    let mut waves = Rows::new(alloc);
    fill_waves(alloc, &mut ledger, margin, wanted, &mut waves)?;
    Ok(Waves::of(waves))
}
