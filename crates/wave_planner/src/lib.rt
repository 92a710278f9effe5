//! Waves of units that are to be out of service: each wave may be out as a whole, and each unit is in the first wave
//! that takes it.
//!
//! It stands on `residual_ledger` for what cut sets keep in service while a wave is filled, and on `margin_policy`,
//! `crew_script` and `outage_board` for its laws: that every order of taking a wave's units is granted, and what the
//! crew part that [`put_waves`] writes stands for. For the text it stands on `edge_io`, `text_pieces` and
//! `fault_model`.
#![tactic(auto)]

mod filling;
pub mod laws;
mod planning;
mod text;
mod waves;

pub use planning::{PlanEnd, Stuck, plan};
pub use text::put_waves;
pub use waves::Waves;
