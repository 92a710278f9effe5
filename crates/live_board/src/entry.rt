//! What a live history is made of, and how large a board may be.
use margin_policy::{Reply, Request};
use outage_board::Entry;
use unit_sets::CrewNo;

/// The most passes that a board may have.
pub const MOST_PASSES: u32 = 64;

/// The most entries that a board may have room for.
pub const MOST_ENTRIES: u32 = 1_000_000;

/// An entry with the number of the pass that made it. The place of the entry is how many earlier ones have this number.
#[derive(Clone, Copy)]
pub struct LiveEntry {
    pub pass: u32,
    pub entry: Entry,
}

/// What a pass is answered.
#[derive(Clone, Copy, Debug, PartialEq, Eq)]
pub enum Answer {
    /// The request was decided, with this reply, and stands in the history.
    Answered(Reply),
    /// The history has as many entries as there is room for.
    HistoryFull,
}

/// What a crew asks with a pass, which has made as many entries before as the place says.
#[derive(Clone, Copy)]
pub(crate) struct Call {
    pub(crate) pass: u32,
    pub(crate) place: u32,
    pub(crate) crew: CrewNo,
    pub(crate) request: Request,
}
