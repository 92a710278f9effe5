//! The whole history of a live board, as it was at some moment.
ghost use Rattle.std.specs.Prelude.{◌≡◌, ◌<◌, length, slice_get, Some};

use crate::entry::LiveEntry;
use std::marker::{Model, PhantomData};
use unit_sets::UnitNo;

/// The entries of a history, in order. A contract sees their list.
#[derive(Drop)]
pub struct LiveLog {
    entries: Vec<LiveEntry>,
    // Takes no bytes: a call that moves an entry has to be told of the types inside its request.
    inside: PhantomData<UnitNo>,
}

impl Model for LiveLog {
    ghost use Rattle.std.specs.Prelude.{List};
    ghost use Rattle.live_board.specs.declared.entry.LiveEntry.{LiveEntry};

    ghost Value = { List LiveEntry };

    ghost view = { λ log. log.entries.items };
}

impl LiveLog {
    pub(crate) fn of(entries: Vec<LiveEntry>) -> LiveLog
        ensures { result ≡ entries.items }
    {
        LiveLog {
            entries,
            inside: PhantomData,
        }
    }

    /// How many entries there are.
    pub fn len(&self) -> usize
        ensures { result ≡ length self.now }
    {
        self.entries.len()
    }

    /// The entry at a place, from 0.
    pub fn entry(&self, i: usize) -> &LiveEntry
        requires { i < length self.now }
        ensures { slice_get self.now i ≡ Some result.now }
    {
        &self.entries[i]
    }
}
