//! Why statements stand for no tree.
use fault_words::Place;
use std::alloc::{AllocError, AllocFailed};

/// The classes of faults, in the order in which they are tried.
#[derive(Clone, Copy, Debug, PartialEq, Eq)]
pub enum CheckCode {
    /// There is no top statement.
    NoToplevel,
    /// There is a second top statement.
    TwoToplevels,
    /// A name is defined again.
    DuplicateName,
    /// A name is used and defined nowhere.
    Undefined,
    /// A gate K of N has K = 0, K above N, or not exactly N inputs.
    Votes,
    /// An `fdep` is an input of a gate other than `and` or `or`.
    DummyInput,
    /// A gate other than `fdep` has no inputs.
    NoInputs,
    /// An `fdep` has fewer than two inputs.
    FdepShape,
    /// A dependent of an `fdep` is a gate.
    DependentGate,
    /// A spare is a gate.
    SpareNotBasic,
    /// A spare serves two gates, or one gate twice.
    SharedSpare,
    /// An attribute `repl` has a value other than 1.
    Replicated,
    /// The top event is an `fdep`.
    TopIsFdep,
    /// A definition leads to itself.
    Cycle,
    /// There are more basic events than `UnitNo::MAX`.
    TooManyUnits,
    /// There are more gates than `MOST_GATES`.
    TooManyGates,
}

/// Why a text was refused.
#[derive(Clone, Copy, Debug)]
pub enum CheckFault {
    /// The first class that occurs, and its first place.
    Fault(CheckCode, Place),
    NoMemory,
}

impl From<AllocError> for CheckFault {
    ghost use Rattle.std.specs.Prelude.{◌≡◌};
    ghost use Rattle.tree_check.specs.declared.fault.CheckFault.TheVariants.{NoMemory};

    ghost from_gives = { λ _ fault. fault ≡ NoMemory };

    fn from(_error: AllocError) -> CheckFault {
        CheckFault::NoMemory
    }
}

impl<T: Drop> From<AllocFailed<T>> for CheckFault {
    ghost use Rattle.std.specs.Prelude.{◌≡◌};
    ghost use Rattle.tree_check.specs.declared.fault.CheckFault.TheVariants.{NoMemory};

    ghost from_gives = { λ _ fault. fault ≡ NoMemory };

    fn from(_error: AllocFailed<T>) -> CheckFault {
        CheckFault::NoMemory
    }
}
