//! Why a run ends without the text of its command.
ghost use Rattle.std.specs.Prelude.{◌≡◌};
ghost use Rattle.outage_engine.specs.Answers.{refusal_status};

use crate::Status;
use deck_reading::DeckFault;
use std::alloc::AllocError;

/// A refusal, whose line is written.
#[derive(Clone, Copy)]
pub(crate) enum Refusal {
    /// The words are no command.
    Usage,
    /// The source failed.
    ReadFault,
    /// The input is too long.
    TooLong,
    /// The deck has this fault first.
    Fault(DeckFault),
    /// The cut list is too heavy.
    ListLimit,
    /// There are too many failing orders.
    OrderLimit,
}

/// Why there is no answer.
#[derive(Clone, Copy)]
pub(crate) enum RunEnd {
    Refused(Refusal),
    NoMemory,
}

impl Refusal {
    /// How a run that is refused so ends.
    pub(crate) fn status(&self) -> Status
        ensures { result ≡ refusal_status self.now }
    {
        match self {
            Refusal::Usage => Status::Usage,
            Refusal::ReadFault => Status::ReadFault,
            Refusal::TooLong => Status::TooLong,
            Refusal::Fault(fault) => Status::Refused(*fault),
            Refusal::ListLimit => Status::ListLimit,
            Refusal::OrderLimit => Status::OrderLimit,
        }
    }
}

impl From<AllocError> for RunEnd {
    ghost use Rattle.std.specs.Prelude.{◌≡◌};
    ghost use Rattle.outage_engine.specs.declared.refusal.RunEnd.TheVariants.{NoMemory};

    ghost from_gives = { λ _ end. end ≡ NoMemory };

    fn from(_e: AllocError) -> RunEnd {
        RunEnd::NoMemory
    }
}
