//! The minimal cut sets of a fault tree by lists of sets, which also meets trees whose cut list is small and whose
//! diagram is not.
//!
//! It stands on `fault_model` for the tree and its reading, and on `flat_rows` for lists that lie in one buffer. From
//! below upwards each node gets a list of sets that stands for it: the node fails exactly where some set of the list
//! has failed. Which sets are left out on the way is a matter of speed alone, since the sets that can spare no unit are
//! picked from the list of the top event at the end. The layers above learn that the answer is the cut list of the
//! tree. The lists on the way lie in one heap of a stated size, so that no tree takes all memory of the machine.
#![tactic(auto)]

mod bottom_up;
mod combine;
mod cut_list;
mod gate;
mod marks;
mod merge;
mod minimal;
mod order;
mod overlap;
mod plan;
mod product;
mod room;
mod sifting;
mod sort;
mod split;
mod votes;
mod waiting;

pub use cut_list::{ROOM, mcs_by_lists, mcs_within};
use flat_rows::Rows;
use linked_list_allocator::LocalHeap;
use room::Room;
use unit_sets::{NoMemory, UnitNo};

// A list of sets of units, each in rising order. It lies in the heap of the lists on the way.
type Sets<'h> = Rows<UnitNo, &'h LocalHeap>;
