//! Why a list was not made or did not grow.
use std::alloc::{AllocError, AllocFailed};

/// Why a cut set was not added to a list.
#[derive(Clone, Copy, Debug, PartialEq, Eq)]
pub enum PushEnd {
    /// The list would weigh more than `CutList::WEIGHT_LIMIT`.
    ListLimit,
    /// Memory was refused.
    NoMemory,
}

/// Why a list of cut sets was not made.
#[derive(Clone, Copy, Debug, PartialEq, Eq)]
pub enum ListEnd {
    /// The list would weigh more than `CutList::WEIGHT_LIMIT`.
    ListLimit,
    /// Memory was refused.
    NoMemory,
}

impl From<AllocError> for PushEnd {
    ghost use Rattle.std.specs.Prelude.{◌≡◌};
    ghost use Rattle.unit_sets.specs.declared.refusal.PushEnd.TheVariants.{NoMemory};

    ghost from_gives = { λ _ end. end ≡ NoMemory };

    fn from(_e: AllocError) -> PushEnd {
        PushEnd::NoMemory
    }
}

impl<T: Drop> From<AllocFailed<T>> for PushEnd {
    ghost use Rattle.std.specs.Prelude.{◌≡◌};
    ghost use Rattle.unit_sets.specs.declared.refusal.PushEnd.TheVariants.{NoMemory};

    ghost from_gives = { λ _ end. end ≡ NoMemory };

    fn from(_e: AllocFailed<T>) -> PushEnd {
        PushEnd::NoMemory
    }
}

impl From<AllocError> for ListEnd {
    ghost use Rattle.std.specs.Prelude.{◌≡◌};
    ghost use Rattle.unit_sets.specs.declared.refusal.ListEnd.TheVariants.{NoMemory};

    ghost from_gives = { λ _ end. end ≡ NoMemory };

    fn from(_e: AllocError) -> ListEnd {
        ListEnd::NoMemory
    }
}

impl<T: Drop> From<AllocFailed<T>> for ListEnd {
    ghost use Rattle.std.specs.Prelude.{◌≡◌};
    ghost use Rattle.unit_sets.specs.declared.refusal.ListEnd.TheVariants.{NoMemory};

    ghost from_gives = { λ _ end. end ≡ NoMemory };

    fn from(_e: AllocFailed<T>) -> ListEnd {
        ListEnd::NoMemory
    }
}

impl From<PushEnd> for ListEnd {
    ghost use Rattle.std.specs.Prelude.{◌≡◌};
    ghost use Rattle.unit_sets.specs.Refusal.{list_end};

    ghost from_gives = { λ push end. end ≡ list_end push };

    fn from(end: PushEnd) -> ListEnd {
        match end {
            PushEnd::ListLimit => ListEnd::ListLimit,
            PushEnd::NoMemory => ListEnd::NoMemory,
        }
    }
}
