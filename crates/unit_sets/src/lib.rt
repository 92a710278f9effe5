//! Units of a fault tree by number, fixed sets of units, and ordered lists of cut sets.
//!
//! Every crate of the board speaks in its types. It stands on `flat_rows`, in whose rows a list keeps its sets.
//! Contracts see a `UnitNo` as its number, which is 1 to 4095, a `UnitSet` as the rising list of its members, and
//! a `CutList` as a list of such lists.
#![tactic(auto)]

mod cut_list;
pub mod laws;
mod refusal;
mod request;
mod unit_no;
mod unit_set;

pub use cut_list::{CutList, compare_cuts};
pub use refusal::{ListEnd, PushEnd};
pub use request::{Act, CrewNo};
use std::alloc::AllocError;
pub use unit_no::UnitNo;
pub use unit_set::UnitSet;

/// Memory was refused.
pub type NoMemory = AllocError;
