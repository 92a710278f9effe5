//! How a run ends.
ghost use Rattle.std.specs.Prelude.{◌≡◌};

use crate::refusal::Refusal;

/// How a run ends.
#[derive(Clone, Copy, PartialEq, Eq)]
pub enum PictureEnd {
    /// The picture was written.
    Done,
    /// There is no picture.
    Refused(Refusal),
    /// The output failed.
    WriteFault,
    /// There was not enough memory, and nothing was written.
    NoMemory,
}

impl PictureEnd {
    ghost use Rattle.picture_engine.specs.Ends.{code_of};

    /// The exit status.
    pub fn code(&self) -> u8
        ensures { result ≡ code_of self.now }
    {
        match self {
            PictureEnd::Done => 0,
            PictureEnd::Refused(refusal) => refusal.code(),
            PictureEnd::WriteFault => 4,
            PictureEnd::NoMemory => 5,
        }
    }
}
