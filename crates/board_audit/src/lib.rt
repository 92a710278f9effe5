//! The audit of a printed log: whether it is one that the board of its deck can have made, or where it leaves that.
//!
//! It stands on `outage_board`, which makes the entries of a deck's crews, on `board_report` for the line of an entry,
//! on `text_pieces` and `itoa` for names and numbers as texts show them, and on `crew_script`, `margin_policy`,
//! `fault_model` and `unit_sets` for what a deck is made of. A contract says the verdict as a relation between the
//! bytes of the log and the legal histories of the deck, so whoever keeps a log and its deck needs no more than these
//! to know that each of its replies was due.
#![tactic(auto)]

mod auditing;
mod front;
pub mod laws;
mod line;
mod part;
mod verdict;

pub use auditing::audit;
pub use unit_sets::NoMemory;
pub use verdict::Verdict;
