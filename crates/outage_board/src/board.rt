//! The board that threads share: its state stands in a slot, to which one word gives the turn.
ghost use Rattle.std.specs.Prelude.{◌≡◌, ◌↔◌, ◌<◌, ◌≤◌, [], ◌∷◌, ◌++◌, length, slice_get, Some, IfOk, IfSome, IfNone};
ghost use Rattle.std.specs.Prelude.{IsNone};
ghost use Rattle.residual_ledger.specs.Residual.{HasUnitsUpTo};
ghost use Rattle.fault_definitions.specs.Tree.{unit_count};
ghost use Rattle.outage_board.specs.Histories.{docket_of};
ghost use Rattle.outage_board.specs.Boards.{deck_of};
ghost use Rattle.outage_board.specs.Passes.{new_passes, AreOf, HaveAll, MadeAll};

use crate::Entry;
use crate::dealing::{dealt, gathered};
use crate::pass::{CrewPass, Passes};
use crate::state::BoardState;
use crate::table::{BoardTable, emptied, laid};
use crate::turns::serve_in_turn;
use crew_script::Dockets;
use deck_limits::GREATEST_MARGIN;
use fault_model::Tree;
use std::alloc::Global;
use std::marker::Model;
use std::sync::Wait;
use unit_sets::{CutList, NoMemory};

/// A board that threads share. A contract sees which board it is, and the deck that it was opened for.
#[derive(Drop)]
pub struct Board {
    table: BoardTable,
}

impl Model for Board {
    ghost use Rattle.std.specs.Prelude.{◌≡◌};
    ghost use Rattle.outage_board.specs.Passes.{OpenBoard};

    ghost Value = { OpenBoard };

    ghost view = { λ board. record { table = board.table.shared.table_id; deck = board.table.shared.key.value.deck } };

    ghost invariant = { λ board. (board.table.shared.table_id.words ≡ 1) × (board.table.shared.table_id.slots ≡ 1) };
}

/// A board, and a pass for each crew.
#[derive(Drop)]
pub struct BoardStart {
    pub board: Board,
    pub passes: Passes,
}

impl Board {
    /// A board of a deck with the empty history, and one pass for each crew in the order of the crews. Nothing else
    /// of a board takes memory.
    pub fn open(
        alloc: Global,
        tree: &Tree,
        cuts: &CutList,
        dockets: &Dockets,
        margin: u32,
    ) -> Result<BoardStart, NoMemory>
        requires known { HasUnitsUpTo (unit_count tree.now) cuts.now }
        requires margin { margin ≤ GREATEST_MARGIN }
        ensures deck { IfOk result (λ start. start.board.deck ≡ deck_of tree.now cuts.now dockets.now margin) }
        ensures passes { IfOk result (λ start. start.passes.passes ≡ new_passes start.board 0 (length dockets.now)) }
        ensures room { IfOk result (λ start. start.passes.room ≡ length dockets.now) }
        ensures own { IfOk result (λ start. AreOf start.board start.passes.passes) }
        ensures all { IfOk result (λ start. HaveAll start.board.deck start.passes.passes) }
    {
        let state = BoardState::open(alloc, tree, cuts, dockets, margin)?;
        let crews = state.crews();
        let passes = match Vec::with_capacity(alloc, crews as usize) {
            Ok(passes) => passes,
            Err(end) => {
                drop(state);
                return Err(end);
            }
        };
        match laid(alloc, state) {
            Ok((table, place)) => {
                let passes = dealt(&table.shared, place, crews, passes);
                Ok(BoardStart {
                    board: Board { table },
                    passes: Passes::of(passes, crews as usize),
                })
            }
            Err(end) => {
                drop(passes);
                Err(end)
            }
        }
    }

    /// Waits for the turn, serves the next request of the pass's crew, and gives the turn back. None exactly where as
    /// many entries were made with the pass as its crew's docket has requests. Takes no memory.
    pub fn serve<W: Wait>(&self, rt: &W, pass: &mut CrewPass) -> Option<Entry>
        requires own { pass.old.board ≡ self.now }
        ensures none { IsNone result ↔ (length pass.old.made
            ≡ length (docket_of self.now.deck.dockets pass.old.crew.0)) }
        ensures unchanged { IfNone result (pass.new ≡ pass.old) }
        ensures board { pass.new.board ≡ pass.old.board }
        ensures same_crew { pass.new.crew ≡ pass.old.crew }
        ensures crew { IfSome result (λ entry. entry.crew ≡ pass.old.crew) }
        ensures place { IfSome result (λ entry. entry.place ≡ length pass.old.made) }
        ensures request { IfSome result (λ entry.
            slice_get (docket_of self.now.deck.dockets pass.old.crew.0) entry.place ≡ Some entry.request) }
        ensures made { IfSome result (λ entry. pass.new ≡ record pass.old { made = pass.old.made ++ entry ∷ [] }) }
    {
        let entry = serve_in_turn(rt, &self.table.shared, &mut pass.seat, pass.crew);
        if let Some(entry) = &entry {
            pass.next = entry.place + 1;
        }
        entry
    }

    /// The state at the end, once all passes have come back.
    pub fn close(self, passes: Passes) -> BoardState
        requires own { AreOf self passes.passes }
        requires all { HaveAll self.deck passes.passes }
        ensures deck { result.deck ≡ self.deck }
        ensures made { MadeAll result.history passes.passes }
    {
        let place = gathered(&self.table.shared, passes);
        emptied(self.table.close_with(place))
    }
}
