//! The node store of shared diagrams, which any number of threads fill at once without a lock.
//!
//! A store is a table of 2^bits words. A word that is not 0 is a node, its slot is the node's reference,
//! and it never changes again. A thread works with a `StoreSeat`, which takes no bytes: contracts see what
//! it knows, how many of its searches found the store full, which slots it filled, and its share. It stands
//! on `atomic_table`, whose rule holds between any two atomic steps of any seats, on `zdd_words` for the
//! words and on `zdd_families` for the families that references stand for.
//!
//! What the layer above gets: a reference that a seat knows stands for the same family for good; two
//! references that one seat knows are equal exactly where their families are, also where they come from
//! different threads; and `Full` comes only from a search that passed every slot, which the seat counts. No
//! call waits for another thread, and none but `NodeStore::new` takes memory.
#![tactic(auto)]

pub mod laws;
mod rule;
mod search;
mod seat;
mod store;
mod view;
mod zeros;

pub use seat::StoreSeat;
pub use store::{Full, NodeStore, StoreStart};
