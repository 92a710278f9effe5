//! The board that threads ask: its state stands in a slot, to which one word gives the turn.
ghost use Rattle.std.specs.Prelude.{◌≡◌, ◌-◌, ◌<◌, ◌≤◌, [], ◌∷◌, ◌++◌, length, IfOk, OnOk, OnErr};
ghost use Rattle.unit_sets.specs.Unit.{most_units};
ghost use Rattle.residual_ledger.specs.Residual.{HasUnitsUpTo};
ghost use Rattle.margin_policy.specs.Standing.{IsRequestFor};
ghost use Rattle.live_board.specs.Histories.{IsLiveHistory, BeginsWith, EndsWith};
ghost use Rattle.live_board.specs.Boards.{setup_of, IfAnswered, IfFull, next_place};
ghost use Rattle.live_board.specs.Views.{numbers_from, AreOwn, gained, IsLonger};
ghost use Rattle.live_board.specs.Rule.{HasEachOnce};
ghost use Rattle.live_board.specs.Passes.{first_pass, new_pass, call_made};

use crate::entry::{Answer, Call, MOST_ENTRIES, MOST_PASSES};
use crate::live_log::LiveLog;
use crate::pass::Pass;
use crate::sharing::{divide, unite};
use crate::state::LiveState;
use crate::table::{BoardTable, laid};
use crate::turns::{ask_in_turn, copy_in_turn};
use deck_limits::GREATEST_MARGIN;
use margin_policy::Request;
use std::alloc::Global;
use std::marker::Model;
use std::sync::Wait;
use unit_sets::{CrewNo, CutList, NoMemory};

/// A board that threads ask. A contract sees which board it is, and what it was opened for.
#[derive(Drop)]
pub struct LiveBoard {
    table: BoardTable,
    room: u32,
}

impl Model for LiveBoard {
    ghost use Rattle.std.specs.Prelude.{◌≡◌};
    ghost use Rattle.live_board.specs.Passes.{OpenLive};

    ghost Value = { OpenLive };

    ghost view = { λ board. record {
      table = board.table.shared.table_id;
      setup = board.table.shared.key.value.setup;
    } };

    ghost invariant = { λ board. (board.table.shared.table_id.words ≡ 1)
        × (board.room ≡ board.table.shared.key.value.setup.room) };
}

/// A board, and its first pass.
#[derive(Drop)]
pub struct LiveStart {
    pub board: LiveBoard,
    pub pass: Pass,
}

// The place of the entry behind a call.
fn place_after(call: &Call, answer: Answer) -> u32
    requires { IfAnswered answer (λ reply. call.now.place < MOST_ENTRIES) }
    ensures { result ≡ next_place answer call.now.place }
{
    match answer {
        Answer::Answered(_) => call.place + 1,
        Answer::HistoryFull => call.place,
    }
}

impl LiveBoard {
    /// A board over a copy of the cut list, with nothing out and an empty history, which gets room for so many entries.
    /// Its pass has the number 0, and the other `passes - 1` numbers to spare. Of the other calls `log` alone takes
    /// memory.
    pub fn open(
        alloc: Global,
        units: u32,
        cuts: &CutList,
        margin: u32,
        supervisor: Option<CrewNo>,
        passes: u32,
        room: u32,
    ) -> Result<LiveStart, NoMemory>
        requires limit { units ≤ most_units }
        requires known { HasUnitsUpTo units cuts.now }
        requires margin { margin ≤ GREATEST_MARGIN }
        requires some_pass { 0 < passes }
        requires few_passes { passes ≤ MOST_PASSES }
        requires some_room { 0 < room }
        requires room { room ≤ MOST_ENTRIES }
        ensures setup { IfOk result (λ start.
            start.board.setup ≡ setup_of units cuts.now margin supervisor passes room) }
        ensures pass { IfOk result (λ start. start.pass ≡ first_pass start.board (numbers_from 1 (passes - 1))) }
    {
        let state = LiveState::open(alloc, units, cuts, margin, supervisor, passes, room)?;
        let (table, seat) = laid(alloc, state)?;
        Ok(LiveStart {
            board: LiveBoard { table, room },
            pass: Pass {
                seat,
                number: 0,
                next: 0,
                first: 1,
                left: passes - 1,
            },
        })
    }

    /// A new pass, which has seen as much as the old one. It has the first of the old one's spare numbers, and none to
    /// spare.
    pub fn split(&self, pass: &mut Pass) -> Pass
        requires own { pass.old.board ≡ self.now }
        requires spare { 0 < length pass.old.spare }
        ensures number { pass.old.spare ≡ result.number ∷ pass.new.spare }
        ensures old { pass.new ≡ record pass.old { spare = pass.new.spare } }
        ensures new { result ≡ new_pass self.now result.number pass.old.seen }
    {
        let seat = divide(&self.table.shared, &mut pass.seat);
        let number = pass.first;
        pass.first += 1;
        pass.left -= 1;
        Pass {
            seat,
            number,
            next: 0,
            first: 0,
            left: 0,
        }
    }

    /// Takes another pass in: its numbers come behind the pass's own, each with what was made under it, and the pass
    /// has seen the longer of both histories. The other's spare numbers are lost.
    pub fn join(&self, pass: &mut Pass, other: Pass)
        requires own { pass.old.board ≡ self.now }
        requires others { other.board ≡ self.now }
        ensures seen { IsLonger pass.old.seen other.seen pass.new.seen }
        ensures numbers { pass.new.own ≡ pass.old.own ++ other.own }
        ensures once { HasEachOnce pass.new.own }
        ensures stays { pass.new ≡ record pass.old { seen = pass.new.seen; own = pass.new.own } }
    {
        let Pass { seat, .. } = other;
        unite(&self.table.shared, &mut pass.seat, seat);
    }

    /// Waits for the turn, decides a request of a crew, and gives the turn back. The answer is `HistoryFull` exactly
    /// where the history has as many entries as there is room for. Takes no memory.
    pub fn ask<W: Wait>(&self, rt: &W, pass: &mut Pass, crew: CrewNo, request: &Request) -> Answer
        requires own { pass.old.board ≡ self.now }
        requires asked { IsRequestFor self.now.setup.opening.units request.now }
        ensures live { IsLiveHistory self.now.setup.opening pass.new.seen }
        ensures begins { BeginsWith pass.new.seen pass.old.seen }
        ensures ends { IfAnswered result (λ reply.
            EndsWith self.now.setup.room pass.old.seen (call_made pass.old crew request.now reply) pass.new.seen) }
        ensures gains { IfAnswered result (λ reply.
            pass.new.own ≡ gained (call_made pass.old crew request.now reply) pass.old.own) }
        ensures within { length pass.new.seen ≤ self.now.setup.room }
        ensures full { IfFull result (length pass.new.seen ≡ self.now.setup.room) }
        ensures unchanged { IfFull result (pass.new.own ≡ pass.old.own) }
        ensures agrees { AreOwn pass.new.seen pass.new.own }
        ensures stays { pass.new ≡ record pass.old { seen = pass.new.seen; own = pass.new.own } }
    {
        let call = Call {
            pass: pass.number,
            place: pass.next,
            crew,
            request: *request,
        };
        let answer = ask_in_turn(rt, &self.table.shared, &mut pass.seat, &call);
        pass.next = place_after(&call, answer);
        answer
    }

    /// Waits for the turn, copies the whole history, and gives the turn back. Room for it is reserved before the turn
    /// is asked for.
    pub fn log<W: Wait>(&self, rt: &W, alloc: Global, pass: &mut Pass) -> Result<LiveLog, NoMemory>
        requires own { pass.old.board ≡ self.now }
        ensures log { IfOk result (λ log. log ≡ pass.new.seen) }
        ensures live { OnOk result (IsLiveHistory self.now.setup.opening pass.new.seen) }
        ensures begins { OnOk result (BeginsWith pass.new.seen pass.old.seen) }
        ensures within { OnOk result (length pass.new.seen ≤ self.now.setup.room) }
        ensures agrees { OnOk result (AreOwn pass.new.seen pass.new.own) }
        ensures stays { OnOk result (pass.new ≡ record pass.old { seen = pass.new.seen }) }
        ensures no_memory { OnErr result (pass.new ≡ pass.old) }
    {
        let mut entries = Vec::with_capacity(alloc, self.room as usize)?;
        copy_in_turn(rt, &self.table.shared, &mut pass.seat, &mut entries);
        Ok(LiveLog::of(entries))
    }
}
