//! The table in which a board keeps its state.
ghost use Rattle.std.specs.Prelude.{◌≡◌, ◌<◌, [], length, IfOk};
ghost use Rattle.std.specs.Mem.Slots.{slots_items, slots_len, IsFull};
ghost use mathlib.Core.Option.{some};
ghost use lib.ListN.{get_elem?};
ghost use Rattle.outage_board.specs.Views.{first_view};

use crate::rule::TurnRule;
use crate::state::BoardState;
use crate::turns::{FREE, Place};
use crate::view::View;
use atomic_table::{Closed, Refused, Table};
use std::alloc::{AllocFailed, Global};
use std::snapshot::Snapshot;
use unit_sets::NoMemory;

/// One word, which gives the turn, and one slot, which holds the state.
pub(crate) type BoardTable = Table<BoardState, View, Snapshot<BoardState>, TurnRule, Global>;

/// The table of a board without history, whose turn is free, and a place at it that has all crews.
pub(crate) fn laid(alloc: Global, state: BoardState) -> Result<(BoardTable, Place), NoMemory>
    requires empty { state.history ≡ [] }
    ensures opened { IfOk result (λ made. made.0.shared.key.value ≡ state) }
    ensures words { IfOk result (λ made. made.0.shared.table_id.words ≡ 1) }
    ensures slots { IfOk result (λ made. made.0.shared.table_id.slots ≡ 1) }
    ensures own { IfOk result (λ made. made.1.table_id ≡ made.0.shared.table_id) }
    ensures place { IfOk result (λ made. made.1.me ≡ (first_view made.0.shared.key.value, [])) }
{
    let opened = Snapshot::of(&state);
    let mut slots = match Vec::with_capacity(alloc, 1) {
        Ok(slots) => slots,
        Err(end) => {
            drop(state);
            return Err(end);
        }
    };
    slots.push_reserved(state);
    match Table::new(alloc, &[FREE], slots, &opened) {
        Ok(made) => Ok(made),
        // The slots come back for want of memory, as its value does where a push fails.
        Err(Refused { slots }) => Err(NoMemory::from(AllocFailed { value: slots })),
    }
}

/// The state that a closed table holds.
pub(crate) fn emptied(mut closed: Closed<BoardState, Global>) -> BoardState
    requires one { slots_len closed.slots ≡ 1 }
    requires full { IsFull closed.slots }
    ensures { get_elem? (slots_items closed.slots) 0 ≡ some result }
{
    let state = closed.take(0);
    closed.free();
    state
}
