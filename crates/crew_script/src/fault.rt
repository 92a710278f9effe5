//! Why a crew part was refused.
use fault_words::Place;
use std::alloc::AllocError;

/// The faults of a crew part. The first is that of a deck without one.
#[derive(Clone, Copy, PartialEq, Eq)]
pub enum CrewCode {
    /// No line is `@crews`.
    NoCrewPart,
    /// The line is of no form.
    BadLine,
    /// The crew has the name of an earlier one.
    DuplicateCrew,
    /// A request stands before the first crew.
    RequestBeforeCrew,
    /// There are more crews than `MOST_CREWS`.
    TooManyCrews,
    /// There are more requests than `MOST_REQUESTS`.
    TooManyRequests,
}

/// Why a crew part was refused.
#[derive(Clone, Copy)]
pub enum CrewFault {
    /// The fault of the first line that has one, and that line's first column.
    Fault(CrewCode, Place),
    NoMemory,
}

impl From<AllocError> for CrewFault {
    ghost use Rattle.std.specs.Prelude.{◌≡◌};
    ghost use Rattle.crew_script.specs.declared.fault.CrewFault.TheVariants.{NoMemory};

    ghost from_gives = { λ _ fault. fault ≡ NoMemory };

    fn from(_error: AllocError) -> CrewFault {
        CrewFault::NoMemory
    }
}
