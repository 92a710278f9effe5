//! Operations on the families of a shared node store, with answers kept for one thread.
//!
//! An `Ops` works on one store by one seat that it owns. It stands on `zdd_shared_table` for the store and on
//! `zdd_families` for what the operations are and the laws by which they are computed from parts. Contracts see an
//! `Ops` as its seat.
//!
//! What the layer above gets: each answer is a reference that the seat knows as exactly the family of the
//! operation; what the seat fills on the way, and what it asks a full store for, is due to the operation;
//! and `Full` comes only from a search of this call that passed every slot. No call but `Ops::new` takes memory.
#![tactic(auto)]

mod halves;
mod minimals;
mod ops;
mod products;
mod unions;
mod votes;
mod withouts;

pub use ops::{Ops, OpsRefused};
