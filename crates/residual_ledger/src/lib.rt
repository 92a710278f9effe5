//! Live counts of what each cut set keeps in service while units go out and come back.
//!
//! It stands on unit_sets alone. A contract sees a `Ledger` as its number of units, its cut list and the
//! set of the units that are out, and every count as one made anew from these. So a layer above decides
//! by definitions over lists, and never speaks of the rows that are kept.
#![tactic(auto)]

mod blocks;
mod counts;
mod holding;
pub mod laws;
mod ledger;

pub use ledger::Ledger;
pub use unit_sets::NoMemory;
