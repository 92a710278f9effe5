//! The state of a live board: how things stand, and the history that leaves them so.
ghost use Rattle.std.specs.Prelude.{◌≡◌, ◌<◌, ◌≤◌, true, false, [], ◌∷◌, ◌++◌, length, vec_capacity, IfOk};
ghost use Rattle.unit_sets.specs.Unit.{most_units};
ghost use Rattle.residual_ledger.specs.Residual.{HasUnitsUpTo};
ghost use Rattle.margin_policy.specs.Standing.{IsRequestFor};
ghost use Rattle.live_board.specs.Histories.{made_by};
ghost use Rattle.live_board.specs.Boards.{setup_of, IsLive, decision, replied, IsAnswer, after_answer, IfAnswered};

use crate::entry::{Answer, Call, LiveEntry, MOST_ENTRIES};
use deck_limits::GREATEST_MARGIN;
use margin_policy::Standing;
use outage_board::Entry;
use std::alloc::Global;
use std::marker::{Model, PhantomData};
use unit_sets::{CrewNo, CutList, NoMemory, UnitNo};

/// What a board was opened for, and its history. Every state keeps that the history is live, and that there is room for
/// all of it.
///
/// Only `open` takes memory.
#[derive(Drop)]
pub struct LiveState {
    opening_margin: u32,
    passes: u32,
    room: u32,
    standing: Standing,
    history: Vec<LiveEntry>,
    // Takes no bytes: a call that moves an entry has to be told of the types inside its request.
    inside: PhantomData<UnitNo>,
}

impl Model for LiveState {
    ghost use Rattle.std.specs.Prelude.{vec_capacity};
    ghost use Rattle.outage_board.specs.Kept.{emptied};
    ghost use Rattle.live_board.specs.Boards.{LiveView};
    ghost use Rattle.live_board.specs.Kept.{KeepsState};

    ghost Value = { LiveView };

    ghost view = { λ s. record {
      setup = record {
        opening = emptied s.opening_margin s.standing;
        passes = s.passes;
        room = s.room;
      };
      history = s.history.items;
    } };

    ghost invariant = { λ s. KeepsState (record {
      setup = record {
        opening = emptied s.opening_margin s.standing;
        passes = s.passes;
        room = s.room;
      };
      history = s.history.items;
    }) s.standing (vec_capacity s.history) };
}

impl LiveState {
    /// A state with the empty history, and room for so many entries.
    pub(crate) fn open(
        alloc: Global,
        units: u32,
        cuts: &CutList,
        margin: u32,
        supervisor: Option<CrewNo>,
        passes: u32,
        room: u32,
    ) -> Result<LiveState, NoMemory>
        requires limit { units ≤ most_units }
        requires known { HasUnitsUpTo units cuts.now }
        requires margin { margin ≤ GREATEST_MARGIN }
        requires room { room ≤ MOST_ENTRIES }
        ensures { IfOk result (λ state. state ≡ record {
          setup = setup_of units cuts.now margin supervisor passes room;
          history = [];
        }) }
    {
        let history = Vec::with_capacity(alloc, room as usize)?;
        let standing = Standing::new(alloc, units, cuts, margin, supervisor)?;
        Ok(LiveState {
            opening_margin: margin,
            passes,
            room,
            standing,
            history,
            inside: PhantomData,
        })
    }

    // The entry of a call, with the decision on it.
    fn decided(&self, call: &Call) -> LiveEntry
        requires { IsRequestFor self.now.setup.opening.units call.now.request }
        ensures { result ≡ replied call.now (decision self.now call.now) }
    {
        LiveEntry {
            pass: call.pass,
            entry: Entry {
                crew: call.crew,
                place: call.place,
                request: call.request,
                reply: self.standing.decide(call.crew, &call.request),
            },
        }
    }

    // Applies an entry that was decided, and keeps it.
    fn keep(&mut self, call: &Call, made: &LiveEntry)
        requires asked { IsRequestFor self.old.setup.opening.units call.now.request }
        requires decided { made.now ≡ replied call.now (decision self.old call.now) }
        requires place { call.now.place ≡ length (made_by call.now.pass self.old.history) }
        requires room { length self.old.history < self.old.setup.room }
        ensures { self.new ≡ record self.old { history = self.old.history ++ made.now ∷ [] } }
    {
        let entry = &made.entry;
        self.standing.apply(entry.crew, &entry.request, entry.reply);
        self.history.push_reserved(*made);
    }

    // Whether there is room for no further entry.
    fn is_full(&self) -> bool
        ensures full { result ≡ true → length self.now.history ≡ self.now.setup.room }
        ensures room { result ≡ false → length self.now.history < self.now.setup.room }
        ensures live { IsLive self.now }
    {
        self.history.len() >= self.room as usize
    }

    /// Decides a call, applies the reply and adds the entry to the history, where there is room for it.
    pub(crate) fn answer(&mut self, call: &Call) -> Answer
        requires asked { IsRequestFor self.old.setup.opening.units call.now.request }
        requires place { call.now.place ≡ length (made_by call.now.pass self.old.history) }
        ensures right { IsAnswer self.old call.now result }
        ensures state { self.new ≡ after_answer self.old call.now result }
        ensures live { IsLive (after_answer self.old call.now result) }
        ensures low { IfAnswered result (λ reply. call.now.place < MOST_ENTRIES) }
    {
        if self.is_full() {
            return Answer::HistoryFull;
        }
        let made = self.decided(call);
        self.keep(call, &made);
        Answer::Answered(made.entry.reply)
    }

    /// Copies the history into an empty list that has room for it.
    pub(crate) fn copy_into(&self, copy: &mut Vec<LiveEntry>)
        requires empty { copy.old.items ≡ [] }
        requires room { self.now.setup.room ≤ vec_capacity copy.old }
        ensures copied { copy.new.items ≡ self.now.history }
        ensures live { IsLive self.now }
    {
        copy_all(self.history.as_slice(), copy);
    }
}

// Copies entries into an empty list that has room for them.
fn copy_all(history: &[LiveEntry], copy: &mut Vec<LiveEntry>)
    requires empty { copy.old.items ≡ [] }
    requires room { length history.now ≤ vec_capacity copy.old }
    ensures { copy.new.items ≡ history.now }
{
    for made in history {
        copy.push_reserved(*made);
    }
}
