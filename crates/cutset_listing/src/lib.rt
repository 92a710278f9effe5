//! The cut sets of a diagram as a list, how many they are, and the number of its nodes.
//!
//! It stands on `zdd_shared_table` for the nodes of the store, on `zdd_families` for the law that counts them, on
//! `flat_rows` for lists that lie in one buffer and on `indexmap` for the nodes that were seen. A walk finds each set
//! once and puts it to the sets of its size; a diagram gives the sets of one size in lexicographic order, so nothing is
//! sorted. The layers above get exactly the sets of a known reference's family, in the order of a `CutList`; how many
//! they are and what they weigh, in a time that goes by the nodes alone; and the number of different families that
//! splitting at least units reaches. The seat stays as it was.
#![tactic(auto)]

mod found;
mod listing;
mod measure;
mod nodes;
mod walk;

pub use listing::list;
pub use measure::{FamilySize, size};
pub use nodes::node_count;
