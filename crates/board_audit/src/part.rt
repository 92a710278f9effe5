//! A text that is gone through piece by piece.
ghost use Rattle.std.specs.Prelude.{◌≡◌, Some, decimal};
ghost use Rattle.board_audit.specs.Pieces.{lent, past};

use itoa::Buffer;
use std::marker::Model;

/// What of a text is left behind the pieces that were passed. A contract sees these bytes, or None once the text went
/// on with something else than the next piece.
#[derive(Drop)]
pub(crate) struct Part<'a> {
    rest: Option<&'a [u8]>,
}

impl<'a> Model for Part<'a> {
    ghost use Rattle.std.specs.Prelude.{ℕ, List, Option};
    ghost use Rattle.board_audit.specs.Pieces.{lent};

    ghost Value = { Option (List ℕ) };

    ghost view = { λ part. lent part.rest };
}

impl<'a> Part<'a> {
    pub(crate) fn new(text: &'a [u8]) -> Part<'a>
        ensures { result ≡ Some text.now }
    {
        Part { rest: Some(text) }
    }

    /// Passes a piece, if the text goes on with it.
    pub(crate) fn pass(&mut self, piece: &[u8])
        ensures { self.new ≡ past piece.now self.old }
    {
        self.rest = behind(self.rest, piece);
    }

    /// What is left, where every piece was there.
    pub(crate) fn rest(&self) -> Option<&'a [u8]>
        ensures { lent result ≡ self.now }
    {
        self.rest
    }
}

// What follows a piece at the front of a text.
fn behind<'a>(text: Option<&'a [u8]>, piece: &[u8]) -> Option<&'a [u8]>
    ensures { lent result ≡ past piece.now (lent text.entry) }
{
    text?.strip_prefix(piece)
}

/// Passes a number.
pub(crate) fn pass_number(part: &mut Part<'_>, number: u64)
    ensures { part.new ≡ past (decimal number) part.old }
{
    part.pass(Buffer::new().format(number).as_bytes());
}
