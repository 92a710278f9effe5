//! Copies of families between a worker's own memory and the shared store.
//!
//! A family that the store holds is imported into the memory, where operations keep families minimal all the
//! way, and a finished one is exported, so that the store gets its parts and nothing else. Each node is copied
//! once: `Copies` notes which references are copies of one another, in both directions, within room that is
//! taken when it is made. Where that room is used up the copying goes on without notes.
#![tactic(auto)]

mod copies;
mod exporting;
mod importing;
mod slots;

pub use copies::Copies;
pub use exporting::export;
pub use importing::import;
