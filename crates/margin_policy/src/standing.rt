//! Who holds what, at which margin, and the decision on a request.
ghost use Rattle.std.specs.Prelude.{◌≡◌, ◌≤◌, ◌+◌, ◌++◌, false, length, All, IfOk, None, is_none};
ghost use Rattle.unit_sets.specs.Unit.{most_units};
ghost use Rattle.unit_sets.specs.UnitList.{among};
ghost use Rattle.residual_ledger.specs.Residual.{HasUnitsUpTo};
ghost use Rattle.residual_ledger.specs.Tight.{tight};
ghost use Rattle.margin_policy.specs.Asked.{has_repeat};
ghost use Rattle.margin_policy.specs.Held.{holder_of, units_out, with_held, with_all_held, without_held, first_holder};
ghost use Rattle.margin_policy.specs.Decide.{granted_unless, is_supervisor, decide_take, decide_return, decide_margin};
ghost use Rattle.margin_policy.specs.Standing.{nothing_held, IsRequestFor, reply_of, after};

use crate::{AskedUnits, Reply, Request};
use deck_limits::GREATEST_MARGIN;
use residual_ledger::Ledger;
use std::alloc::Global;
use std::marker::Model;
use unit_sets::{CrewNo, CutList, NoMemory, UnitNo};

/// The units that are out with their holders, the margin in force and the supervisor.
///
/// Only `new` takes memory.
#[derive(Drop)]
pub struct Standing {
    ledger: Ledger,
    margin: u32,
    supervisor: Option<CrewNo>,
    // The holder of each unit that is out, at the unit's number.
    held: Vec<Option<CrewNo>>,
}

impl Model for Standing {
    ghost use Rattle.margin_policy.specs.Standing.{StandingView, KeepsStanding};

    ghost Value = { StandingView };

    ghost view = { λ s. record {
      units = s.ledger.units;
      cuts = s.ledger.cuts;
      margin = s.margin;
      supervisor = s.supervisor;
      held = s.held.items;
    } };

    ghost invariant = { λ s. KeepsStanding s.ledger s.margin s.held.items };
}

impl Standing {
    /// A standing over a copy of the cut list, with nothing out.
    pub fn new(
        alloc: Global,
        units: u32,
        cuts: &CutList,
        margin: u32,
        supervisor: Option<CrewNo>,
    ) -> Result<Standing, NoMemory>
        requires limit { units ≤ most_units }
        requires known { HasUnitsUpTo units cuts.now }
        requires margin { margin ≤ GREATEST_MARGIN }
        ensures { IfOk result (λ standing. standing ≡ record {
          units = units;
          cuts = cuts.now;
          margin = margin;
          supervisor = supervisor;
          held = nothing_held units;
        }) }
    {
        let held = vec![in alloc; None; units as usize + 1]?;
        let ledger = Ledger::new(alloc, units, cuts)?;
        // The list tells the proof that it is in order and has known units alone.
        ledger.cuts();
        Ok(Standing {
            ledger,
            margin,
            supervisor,
            held,
        })
    }

    /// The crew that holds a unit, if it is out.
    pub fn holder(&self, unit: UnitNo) -> Option<CrewNo>
        ensures value { result ≡ holder_of self.now.held unit }
        ensures all { length self.now.held ≡ self.now.units + 1 }
    {
        match self.held.get(unit.number() as usize) {
            Some(holder) => *holder,
            None => None,
        }
    }

    /// The counts of what each cut set keeps in service.
    pub fn ledger(&self) -> &Ledger
        ensures { result.now ≡ record { units = self.now.units; cuts = self.now.cuts; out = units_out self.now.held } }
    {
        &self.ledger
    }

    /// The margin in force.
    pub fn margin(&self) -> u32
        ensures value { result ≡ self.now.margin }
        ensures within { result ≤ GREATEST_MARGIN }
    {
        self.margin
    }

    // The holder of the first of some units that is out.
    fn first_holder(&self, units: &[UnitNo]) -> Option<CrewNo>
        ensures { result ≡ first_holder self.now.held units.now }
    {
        for unit in units {
            let holder = self.holder(*unit);
            if holder.is_some() {
                return holder;
            }
        }
        None
    }

    // Granted, unless some cut set would be tight with some units out too that are in service.
    fn unless_tight(&self, asked: &[UnitNo], most: u32) -> Reply
        requires known { All (λ unit. unit ≤ self.now.units) asked.now }
        requires in_service { All (λ unit. among (units_out self.now.held) unit ≡ false) asked.now }
        ensures { result ≡ granted_unless (tight (asked.now ++ units_out self.now.held) most self.now.cuts) }
    {
        match self.ledger.first_tight_after_all(asked, most) {
            Some(place) => Reply::Denied(place as u32 + 1),
            None => Reply::Granted,
        }
    }

    fn decide_take(&self, asked: &AskedUnits) -> Reply
        requires { All (λ unit. unit ≤ self.now.units) asked.now.units }
        ensures { result ≡ decide_take self.now.cuts self.now.held self.now.margin asked.now }
    {
        if asked.unknown() {
            return Reply::UnknownUnit;
        }
        match self.first_holder(asked.units()) {
            Some(holder) => Reply::AlreadyOut(holder),
            None => self.unless_tight(asked.units(), self.margin),
        }
    }

    fn decide_return(&self, crew: CrewNo, unit: UnitNo) -> Reply
        ensures { result ≡ decide_return crew (holder_of self.now.held unit) }
    {
        match self.holder(unit) {
            None => Reply::NotOut,
            Some(holder) if holder.0 == crew.0 => Reply::Granted,
            Some(holder) => Reply::HeldBy(holder),
        }
    }

    fn is_supervisor(&self, crew: CrewNo) -> bool
        ensures { result ≡ is_supervisor self.now.supervisor crew }
    {
        match self.supervisor {
            None => false,
            Some(supervisor) => crew.0 == supervisor.0,
        }
    }

    fn decide_margin(&self, crew: CrewNo, number: u32) -> Reply
        ensures { result ≡ decide_margin self.now.cuts self.now.held self.now.supervisor crew number }
    {
        if !self.is_supervisor(crew) {
            return Reply::NotSupervisor;
        }
        self.unless_tight(&[], number)
    }

    /// The reply to a request of a crew.
    pub fn decide(&self, crew: CrewNo, request: &Request) -> Reply
        requires { IsRequestFor self.now.units request.now }
        ensures { result ≡ reply_of self.now crew request.now }
    {
        match request {
            Request::Take(asked) => self.decide_take(asked),
            Request::Return(None) => Reply::UnknownUnit,
            Request::Return(Some(unit)) => self.decide_return(crew, *unit),
            Request::Margin(number) => self.decide_margin(crew, *number),
        }
    }

    // A crew takes a unit that is in service.
    fn take(&mut self, crew: CrewNo, unit: UnitNo)
        requires known { unit ≤ self.old.units }
        requires in_service { holder_of self.old.held unit ≡ None }
        ensures { self.new ≡ record self.old { held = with_held crew unit self.old.held } }
    {
        self.ledger.out(unit);
        self.held[unit.number() as usize] = Some(crew);
    }

    // A crew takes some units that are in service.
    fn take_all(&mut self, crew: CrewNo, units: &[UnitNo])
        requires known { All (λ unit. unit ≤ self.old.units) units.now }
        requires once { has_repeat units.now ≡ false }
        requires in_service { first_holder self.old.held units.now ≡ None }
        ensures { self.new ≡ record self.old { held = with_all_held crew units.now self.old.held } }
    {
        for unit in units {
            self.take(crew, *unit);
        }
    }

    // A unit that is out comes back.
    fn put_back(&mut self, unit: UnitNo)
        requires known { unit ≤ self.old.units }
        requires out { is_none (holder_of self.old.held unit) ≡ false }
        ensures { self.new ≡ record self.old { held = without_held unit self.old.held } }
    {
        self.ledger.back(unit);
        self.held[unit.number() as usize] = None;
    }

    /// Does what the reply grants, and nothing where it grants nothing.
    pub fn apply(&mut self, crew: CrewNo, request: &Request, reply: Reply)
        requires asked { IsRequestFor self.old.units request.now }
        requires decided { reply ≡ reply_of self.old crew request.now }
        ensures { self.new ≡ after self.old crew request.now reply }
    {
        if reply != Reply::Granted {
            return;
        }
        match request {
            Request::Take(asked) => self.take_all(crew, asked.units()),
            Request::Return(None) => {}
            Request::Return(Some(unit)) => self.put_back(*unit),
            Request::Margin(number) => self.margin = *number,
        }
    }
}
