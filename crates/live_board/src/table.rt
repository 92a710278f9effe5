//! The table in which a live board keeps its state.
ghost use Rattle.std.specs.Prelude.{◌≡◌, [], IfOk};
ghost use Rattle.live_board.specs.Views.{first_view};

use crate::rule::HistoryRule;
use crate::state::LiveState;
use crate::view::View;
use atomic_table::{Refused, Seat, Shared, Table};
use std::alloc::{AllocFailed, Global};
use std::snapshot::Snapshot;
use unit_sets::NoMemory;

/// One word, which gives the turn, and one slot, which holds the state.
pub(crate) type BoardTable = Table<LiveState, View, Snapshot<LiveState>, HistoryRule, Global>;

/// The word and the slot of a board, as threads share them.
pub(crate) type Words = Shared<LiveState, View, Snapshot<LiveState>, HistoryRule>;

/// What a thread steps with.
pub(crate) type Place = Seat<LiveState, View>;

// The value of the word while nobody has the turn, and while somebody has it.
pub(crate) const FREE: u64 = 0;

pub(crate) const TAKEN: u64 = 1;

/// The table of a board without history, whose turn is free, and the first place at it.
pub(crate) fn laid(alloc: Global, state: LiveState) -> Result<(BoardTable, Place), NoMemory>
    requires empty { state.history ≡ [] }
    ensures opened { IfOk result (λ made. made.0.shared.key.value ≡ state) }
    ensures words { IfOk result (λ made. made.0.shared.table_id.words ≡ 1) }
    ensures own { IfOk result (λ made. made.1.table_id ≡ made.0.shared.table_id) }
    ensures place { IfOk result (λ made. made.1.me ≡ (first_view made.0.shared.key.value, [])) }
{
    let opened = Snapshot::of(&state);
    let mut slots = match Vec::with_capacity(alloc, 1) {
        Ok(slots) => slots,
        Err(end) => {
            drop(state);
            return Err(end);
        }
    };
    slots.push_reserved(state);
    match Table::new(alloc, &[FREE], slots, &opened) {
        Ok(made) => Ok(made),
        // The slots come back for want of memory, as its value does where a push fails.
        Err(Refused { slots }) => Err(AllocFailed { value: slots })?,
    }
}
