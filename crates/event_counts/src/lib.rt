//! A count of events, which stays at its last value, and when such a count rose. Contracts say by it that something
//! happened in this very call. Stands on std alone.
#![tactic(auto)]

mod count;

pub use count::Count;
