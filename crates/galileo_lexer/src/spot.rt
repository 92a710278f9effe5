//! Where the next byte stands.
ghost use Rattle.std.specs.Prelude.{◌≡◌, ◌+◌, ◌<◌, ◌≤◌};
ghost use Rattle.galileo_lexer.specs.Spot.{step, along, place_of};

use crate::bytes::LINE_FEED;
use crate::lexer::LONGEST_TEXT;
use crate::token::LexPlace;

/// The next byte's offset in the text, its line, and the offset of that line's first byte.
#[derive(Clone, Copy)]
pub(crate) struct Spot {
    pub(crate) offset: usize,
    pub(crate) line: u32,
    pub(crate) line_start: usize,
}

impl Spot {
    ghost use Rattle.galileo_lexer.specs.Spot.{origin};

    pub(crate) fn origin() -> Spot
        ensures { result ≡ origin }
    {
        Spot {
            offset: 0,
            line: 1,
            line_start: 0,
        }
    }

    // The spot behind this byte.
    pub(crate) fn step(self, byte: u8) -> Spot
        requires offset { self.offset < LONGEST_TEXT }
        requires line { self.line ≤ self.offset + 1 }
        ensures { result ≡ step self byte }
    {
        let offset = self.offset + 1;
        if byte == LINE_FEED {
            Spot {
                offset,
                line: self.line + 1,
                line_start: offset,
            }
        } else {
            Spot { offset, ..self }
        }
    }

    // The spot at this offset, on the same line.
    pub(crate) fn along(self, offset: usize) -> Spot
        ensures { result ≡ along self offset }
    {
        Spot { offset, ..self }
    }

    pub(crate) fn place(self) -> LexPlace
        requires offset { self.offset ≤ LONGEST_TEXT }
        requires line { self.line_start ≤ self.offset }
        ensures { result ≡ place_of self }
    {
        LexPlace {
            line: self.line,
            column: (self.offset - self.line_start) as u32 + 1,
        }
    }
}
