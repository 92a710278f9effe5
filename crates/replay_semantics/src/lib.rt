//! Replay: the units of a fault tree fail one after another, and each order of failures either can happen or cannot,
//! and fails the top event or does not.
//!
//! The crate stands on `fault_model` for the tree, for steps and for failing orders, and on `flat_rows` for rows of
//! nodes. A failure spreads from a unit to all that fails by it, and is undone from the list of the nodes that failed
//! with it, so that a push and a pop touch only what changes. What makes that sound are the laws of the growing order:
//! what has failed stays failed, and what fails now fails at the last place.
//!
//! A layer above gets a `Replay`, seen as its tree and its order, whose answers are whether the order is admissible and
//! whether the top event has a step under it, and with them the static bound; and the laws as functions with one clause
//! each in `laws`.
#![tactic(auto)]

mod admission;
mod failures;
pub mod laws;
mod readers;
mod replay;
mod steps;

pub use fault_model::NoMemory;
pub use replay::{Pushed, Replay};
