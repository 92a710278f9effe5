//! The outage board: one history of decided requests, which the crews of a deck make together.
//!
//! It stands on `crew_script` for the crews and what they ask, and on `margin_policy` for the decision. A contract
//! sees a `BoardState` as the deck that it was opened for and its history, and every board keeps that the history is
//! legal and has the requests of each docket in order, each once. So the layer above gets, for each call of `serve`,
//! the one entry that the definition names.
#![tactic(auto)]

mod board;
mod dealing;
mod docket;
mod entry;
pub mod laws;
mod pass;
mod requests;
mod rule;
mod state;
mod table;
mod turns;
mod unit_names;
mod view;

pub use board::{Board, BoardStart};
pub use entry::Entry;
pub use pass::{CrewPass, Passes};
pub use state::BoardState;
pub use unit_sets::NoMemory;
