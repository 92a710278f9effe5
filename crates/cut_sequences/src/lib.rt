//! Failing orders: of each cut set, the orders of its units that can happen and fail the top event.
//!
//! The crate stands on `replay_semantics`, which lets units fail one after another, on `fault_model` for failing
//! orders, on `unit_sets` for cut lists, and on `flat_rows` for lists of orders. A depth-first search goes through the
//! orders of a set in lexicographic order, and turns back where the units so far cannot happen one after another. The
//! sets are dealt to the workers in turn, and each worker lists the orders of its sets in one buffer that is never
//! copied. They do so in rounds, after each of which the orders of all are counted.
//!
//! A layer above gets `OrderLists`, seen as the list of all sets' lists of orders: exactly the orders that fail the top
//! event, whatever the number of workers, and `OrderLimit` exactly where there are too many.
#![tactic(auto)]

pub mod laws;
mod listing;
mod lists;
mod refusal;
mod rounds;
mod search;
mod share;

pub use listing::{ORDER_LIMIT, orders};
pub use lists::OrderLists;
pub use refusal::OrderEnd;
