//! Why orders were not listed.
use std::alloc::{AllocError, AllocFailed};

/// Why the orders of the sets of a cut list were not listed.
#[derive(Clone, Copy, Debug, PartialEq, Eq)]
pub enum OrderEnd {
    /// The listed sets have more than `ORDER_LIMIT` orders.
    OrderLimit,
    /// Memory was refused.
    NoMemory,
}

impl From<AllocError> for OrderEnd {
    ghost use Rattle.std.specs.Prelude.{◌≡◌};
    ghost use Rattle.cut_sequences.specs.declared.refusal.OrderEnd.TheVariants.{NoMemory};

    ghost from_gives = { λ _ end. end ≡ NoMemory };

    fn from(_e: AllocError) -> OrderEnd {
        OrderEnd::NoMemory
    }
}

impl<T: Drop> From<AllocFailed<T>> for OrderEnd {
    ghost use Rattle.std.specs.Prelude.{◌≡◌};
    ghost use Rattle.cut_sequences.specs.declared.refusal.OrderEnd.TheVariants.{NoMemory};

    ghost from_gives = { λ _ end. end ≡ NoMemory };

    fn from(_e: AllocFailed<T>) -> OrderEnd {
        OrderEnd::NoMemory
    }
}
