//! The ledger, and the first cut set that is left with too few members.
ghost use Rattle.std.specs.Prelude.{◌≡◌, ◌≤◌, ◌<◌, ◌+◌, [], ◌∷◌, ◌++◌, true, false, length, filter, All, IfOk};
ghost use Rattle.std.specs.Prelude.{position, ◌^◌};
ghost use Rattle.unit_sets.specs.Unit.{most_units};
ghost use Rattle.unit_sets.specs.UnitList.{among, with_unit, without_unit, IsUnitSet};
ghost use Rattle.residual_ledger.specs.Residual.{residual, cut_at, HasUnitsUpTo};
ghost use Rattle.residual_ledger.specs.Tight.{is_tight};
ghost use Rattle.residual_ledger.specs.Holding.{holding};
ghost use Rattle.residual_ledger.specs.Kept.{residuals, HasLeast};
ghost use Rattle.residual_ledger.specs.Ledger.{IsLedgerFor, IsFirstHolding};

use crate::blocks::Blocks;
use crate::counts;
use crate::holding::Holding;
use std::alloc::Global;
use std::marker::Model;
use unit_sets::{CutList, NoMemory, UnitNo, UnitSet};

/// Which units are out, and how many members of each cut set are not.
///
/// Only `new` takes memory. A change touches the cut sets that hold the unit, and their blocks.
#[derive(Drop)]
pub struct Ledger {
    units: u32,
    cuts: CutList,
    out: UnitSet,
    // What each cut set has left.
    counts: Vec<u32>,
    // The least of each block of counts, so that a search passes over blocks.
    blocks: Blocks,
    holding: Holding,
}

impl Model for Ledger {
    ghost use Rattle.residual_ledger.specs.Ledger.{LedgerView, KeepsLedger};

    ghost Value = { LedgerView };

    ghost view = { λ l. record { units = l.units; cuts = l.cuts; out = l.out } };

    ghost invariant = { λ l. KeepsLedger l.units l.cuts l.out l.counts.items
        l.blocks.least.items l.blocks.lowest.items l.holding.ends.items l.holding.rows.items };
}

// A copy of the cut sets.
fn copied(cuts: &CutList) -> Result<CutList, NoMemory>
    ensures { IfOk result (λ copy. copy ≡ cuts.now) }
{
    cuts.clone()
}

impl Ledger {
    /// A ledger over a copy of the list, with no unit out.
    pub fn new(alloc: Global, units: u32, cuts: &CutList) -> Result<Ledger, NoMemory>
        requires limit { units ≤ most_units }
        requires known { HasUnitsUpTo units cuts.now }
        ensures { IfOk result (λ ledger. ledger ≡ record { units = units; cuts = cuts.now; out = [] }) }
    {
        // The length tells the proof that the list is in order.
        cuts.len();
        let holding = Holding::new(alloc, units, cuts)?;
        let counts = counts::sizes(alloc, cuts)?;
        let blocks = Blocks::new(alloc, counts.as_slice())?;
        let out = UnitSet::new(alloc)?;
        let cuts = copied(cuts)?;
        Ok(Ledger {
            units,
            cuts,
            out,
            counts,
            blocks,
            holding,
        })
    }

    /// Whether a unit is out.
    pub fn is_out(&self, unit: UnitNo) -> bool
        ensures value { result ≡ among self.now.out unit }
        ensures set { IsUnitSet self.now.out }
    {
        self.out.contains(unit)
    }

    /// The cut sets.
    pub fn cuts(&self) -> &CutList
        ensures value { result.now ≡ self.now.cuts }
        ensures whole { IsLedgerFor self.now.units self.now.cuts }
    {
        &self.cuts
    }

    /// How many members of the cut set at a place are not out.
    pub fn residual(&self, i: usize) -> u32
        requires { i < length self.now.cuts }
        ensures { result ≡ residual self.now.out (cut_at self.now.cuts i) }
    {
        self.counts[i]
    }

    /// For each cut set, how many of its members are not out.
    pub fn counts(&self) -> &[u32]
        ensures { result.now ≡ residuals self.now.out self.now.cuts }
    {
        self.counts.as_slice()
    }

    /// The places of the cut sets that hold a unit, in rising order.
    pub fn holding(&self, unit: UnitNo) -> &[u32]
        requires { unit ≤ self.now.units }
        ensures { result.now ≡ holding self.now.cuts unit }
    {
        // A unit's number is not 0, so its row has one before it.
        unit.number();
        self.holding.row(unit)
    }

    /// The least count of each block of cut sets.
    pub fn least(&self) -> &[u32]
        ensures { HasLeast (residuals self.now.out self.now.cuts) result.now }
    {
        self.blocks.least.as_slice()
    }

    /// Takes a unit out.
    pub fn out(&mut self, unit: UnitNo)
        requires known { unit ≤ self.old.units }
        requires in_service { among self.old.out unit ≡ false }
        ensures { self.new ≡ record self.old { out = with_unit unit self.old.out } }
    {
        // A unit's number is not 0, so its row has one before it.
        unit.number();
        let row = self.holding.row(unit);
        counts::lower(self.counts.as_mut_slice(), &mut self.blocks, row);
        self.out.insert(unit);
    }

    /// Puts a unit back into service.
    pub fn back(&mut self, unit: UnitNo)
        requires known { unit ≤ self.old.units }
        requires out { among self.old.out unit ≡ true }
        ensures { self.new ≡ record self.old { out = without_unit unit self.old.out } }
    {
        // A unit's number is not 0, so its row has one before it.
        unit.number();
        let row = self.holding.row(unit);
        counts::raise(self.counts.as_mut_slice(), row);
        self.blocks.refresh(self.counts.as_slice(), row);
        self.out.remove(unit);
    }

    // Whether the cut set at a place would have at most so many members in service, with all asked units out too.
    fn would_be_tight(&self, place: usize, asked: &[UnitNo], most: u32) -> bool
        requires there { place < length self.now.cuts }
        requires in_service { All (λ unit. among self.now.out unit ≡ false) asked.now }
        ensures { result ≡ is_tight (asked.now ++ self.now.out) most (cut_at self.now.cuts place) }
    {
        let left = self.counts[place];
        left.saturating_sub(most) as usize <= asked.len()
            && left - count_asked(self.cuts.members(place), asked) <= most
    }

    // The first of the cut sets with a unit that stand before a place and would be tight, or that place.
    fn first_holding(&self, unit: UnitNo, asked: &[UnitNo], most: u32, before: usize) -> usize
        requires known { unit ≤ self.now.units }
        requires inside { before ≤ length self.now.cuts }
        requires in_service { All (λ unit. among self.now.out unit ≡ false) asked.now }
        ensures { IsFirstHolding unit (is_tight (asked.now ++ self.now.out) most) self.now.cuts before result }
    {
        for place in self.holding(unit) {
            let place = *place as usize;
            if place >= before {
                return before;
            }
            if self.would_be_tight(place, asked, most) {
                return place;
            }
        }
        before
    }

    /// The place, from 0, of the first cut set that would have at most so many members in service with all asked
    /// units out too.
    pub fn first_tight_after_all(&self, asked: &[UnitNo], most: u32) -> Option<usize>
        requires known { All (λ unit. unit ≤ self.now.units) asked.now }
        requires in_service { All (λ unit. among self.now.out unit ≡ false) asked.now }
        ensures { result ≡ position (is_tight (asked.now ++ self.now.out) most) self.now.cuts }
    {
        let mut first = self.blocks.first_at_most(self.counts.as_slice(), most);
        for unit in asked {
            first = self.first_holding(*unit, asked, most, first);
        }
        if first < self.counts.len() {
            Some(first)
        } else {
            None
        }
    }

    /// The place, from 0, of the first cut set that would have at most so many members in service with the unit out
    /// too.
    pub fn first_tight_after(&self, unit: UnitNo, most: u32) -> Option<usize>
        requires known { unit ≤ self.now.units }
        requires in_service { among self.now.out unit ≡ false }
        ensures { result ≡ position (is_tight (unit ∷ self.now.out) most) self.now.cuts }
    {
        self.first_tight_after_all(&[unit], most)
    }
}

// How many members of a cut set are asked.
fn count_asked(members: &[UnitNo], asked: &[UnitNo]) -> u32
    requires few { length members.now < 2 ^ 32 }
    ensures { result ≡ length (filter (among asked.now) members.now) }
{
    let mut count = 0;
    for unit in members {
        if asked.contains(unit) {
            count += 1;
        }
    }
    count
}
