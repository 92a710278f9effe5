//! The minimal path sets of a tree as a list.
ghost use Rattle.std.specs.Prelude.{◌≡◌, ◌≤◌, ◌<◌, IfOk, IsErrOf};
ghost use Rattle.unit_sets.specs.CutOrder.{weight, weight_limit};
ghost use Rattle.zdd_product.specs.Seats.{WentAll};
ghost use Rattle.path_sets.specs.Due.{IsDueToPaths};
ghost use Rattle.path_sets.specs.Paths.{HasHeavyPathList, IsPathList};

use crate::root::path_root;
use cutset_listing::list;
use fault_model::Tree;
use std::alloc::{AllocError, Global};
use unit_sets::{CutList, ListEnd};
use zdd_build::{BuildEnd, TEAM_SHARE};
use zdd_shared_table::{NodeStore, StoreSeat};

/// Why the path list was not made.
#[derive(Clone, Copy, Debug, PartialEq, Eq)]
pub enum PathEnd {
    /// Every slot of the store is filled.
    Full,
    /// The list would weigh more than `CutList::WEIGHT_LIMIT`.
    ListLimit,
    /// Memory was refused.
    NoMemory,
}

impl From<AllocError> for PathEnd {
    ghost use Rattle.std.specs.Prelude.{◌≡◌};
    ghost use Rattle.path_sets.specs.declared.listing.PathEnd.TheVariants.{NoMemory};

    ghost from_gives = { λ _ end. end ≡ NoMemory };

    fn from(_e: AllocError) -> PathEnd {
        PathEnd::NoMemory
    }
}

impl From<BuildEnd> for PathEnd {
    ghost use Rattle.std.specs.Prelude.{◌≡◌};
    ghost use Rattle.path_sets.specs.Ends.{end_of_build};

    ghost from_gives = { λ build end. end ≡ end_of_build build };

    fn from(end: BuildEnd) -> PathEnd {
        match end {
            BuildEnd::Full => PathEnd::Full,
            BuildEnd::NoMemory => PathEnd::NoMemory,
        }
    }
}

impl From<ListEnd> for PathEnd {
    ghost use Rattle.std.specs.Prelude.{◌≡◌};
    ghost use Rattle.path_sets.specs.Ends.{end_of_list};

    ghost from_gives = { λ list end. end ≡ end_of_list list };

    fn from(end: ListEnd) -> PathEnd {
        match end {
            ListEnd::ListLimit => PathEnd::ListLimit,
            ListEnd::NoMemory => PathEnd::NoMemory,
        }
    }
}

/// The minimal path sets of a tree, by size and then lexicographically by unit numbers.
pub fn path_list(
    alloc: Global,
    tree: &Tree,
    store: &NodeStore,
    seat: &mut StoreSeat,
) -> Result<CutList, PathEnd>
    requires own { seat.old.store ≡ store.now }
    requires share { TEAM_SHARE ≤ seat.old.share }
    ensures paths { IfOk result (IsPathList tree.now) }
    ensures within { IfOk result (λ paths. weight paths ≤ weight_limit) }

    // Only the weight of the path list itself counts.
    ensures limit { IsErrOf result PathEnd.ListLimit → HasHeavyPathList tree.now }
    ensures full { IsErrOf result PathEnd.Full → seat.old.fulls < seat.new.fulls }

    // As for `path_root`.
    ensures went { WentAll (IsDueToPaths tree.now) seat.old seat.new }
    ensures share { seat.new.share ≡ seat.old.share }
{
    // Tells the proof what a tree keeps.
    tree.units();
    let root = path_root(alloc, tree, store, seat)?;
    let paths = list(alloc, store, seat, root)?;
    // Tells the proof that the list is in order.
    paths.len();
    Ok(paths)
}
