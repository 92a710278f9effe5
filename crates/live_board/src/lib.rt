//! The live board: threads of a caller ask it, each with a pass of its own, and what they ask stands in one history.
//!
//! It stands on `outage_board` for entries and legal histories, and on `margin_policy` for the decision. There are no
//! dockets: a pass asks what its thread wants. A contract sees a pass as the history that it has seen and, for each of
//! its numbers, the entries that were made under it. After each call that takes the turn both agree, so who asks knows
//! the place of its own calls in the one history, whatever other threads do.
#![tactic(auto)]

mod board;
mod entry;
pub mod laws;
mod live_log;
mod pass;
mod rule;
mod sharing;
mod state;
mod table;
mod turns;
mod view;

pub use board::{LiveBoard, LiveStart};
pub use entry::{Answer, LiveEntry, MOST_ENTRIES, MOST_PASSES};
pub use live_log::LiveLog;
pub use pass::Pass;
pub use unit_sets::NoMemory;
