//! The minimal path sets of a fault tree, in the node store that has its cut sets.
//!
//! A path set keeps the top event from failing whatever else fails; a planner may ask which of them a set of outages
//! leaves whole. The crate stands on `tree_families` for the laws of recipes, on `zdd_nodes` for their steps in the
//! store, and on `cutset_listing` for a family's sets in order. The path family of a node is built as its cut family
//! is, by the dual kind of each gate, on one seat and by no workers.
//!
//! A layer above gets a reference that the seat knows as the family of exactly the minimal path sets, or their list.
//! `Full` comes only where a search of this call passed every slot of the store, and whatever was filled on the way is
//! due to the dual building.
#![tactic(auto)]

mod dual;
pub mod laws;
mod listing;
mod nodes;
mod root;
mod whole;

pub use listing::{PathEnd, path_list};
pub use root::path_root;
pub use whole::whole_path;
