//! How a run ends.
ghost use Rattle.std.specs.Prelude.{◌≡◌};
ghost use Rattle.outage_engine.specs.Codes.{code_of};

use deck_reading::DeckFault;

/// How the cut sets were found, if they were asked for.
#[derive(Clone, Copy, PartialEq, Eq)]
pub enum Method {
    /// No cut sets were asked for.
    Plain,
    /// By lists of sets, since the store was full.
    Lists,
    /// By the diagram of each node in the store.
    Diagram,
}

/// How a run ends.
#[derive(Clone, Copy, PartialEq, Eq)]
pub enum Status {
    /// The command's text was written.
    Done(Method),
    /// The deck has this fault first.
    Refused(DeckFault),
    /// The cut list weighs more than `CutList::WEIGHT_LIMIT`: 1 for each set and 1 for each member.
    ListLimit,
    /// The sets that are small enough have more failing orders than `ORDER_LIMIT`.
    OrderLimit,
    /// The words are no command.
    Usage,
    /// The source failed.
    ReadFault,
    /// The source has more than `INPUT_LIMIT` bytes.
    TooLong,
    /// The sink failed.
    WriteFault,
    /// There was not enough memory, and nothing was written.
    NoMemory,
}

impl Status {
    /// The exit status of the program.
    pub fn code(&self) -> u8
        ensures { result ≡ code_of self.now }
    {
        match self {
            Status::Done(_) => 0,
            Status::Refused(_) | Status::ListLimit | Status::OrderLimit => 1,
            Status::Usage => 2,
            Status::ReadFault | Status::TooLong => 3,
            Status::WriteFault => 4,
            Status::NoMemory => 5,
        }
    }
}
