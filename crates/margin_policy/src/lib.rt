//! The decision on a crew's request: units that are taken and returned, and the margin that a supervisor may change.
//!
//! It stands on residual_ledger, which counts what each cut set keeps in service. A contract sees a `Standing`
//! as its units, cut list, margin, supervisor and the map of holders, and the reply as the definition of the
//! decision at these. So the board above keeps a history of replies without a word on how they are found.
#![tactic(auto)]

mod asked;
pub mod laws;
mod request;
mod standing;

pub use asked::AskedUnits;
pub use request::{Reply, Request};
pub use standing::Standing;
pub use unit_sets::NoMemory;
