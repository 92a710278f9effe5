//! A memory of diagrams for one worker, in which each reference stands for a minimal family.
//!
//! Its room is taken whole when it is made, and touched only as it fills; no later call takes memory. A
//! node is made once its parts stand, is never changed, and goes when the memory is cleared. Beside it stand the
//! greatest unit of its sets, how many units these have, and marks of their units, by which some families are known to
//! include no set of some others. An index finds equal nodes, and a table keeps answers of operations; both are there
//! for speed alone. Equal families may have different references. This crate stands on `zdd_families` and
//! `kept_answers`, and starts no threads.
#![tactic(auto)]

mod extents;
mod index;
mod memory;

pub use memory::{FamilyMemory, Room, Spent};
