//! The parts of a deck.
ghost use Rattle.std.specs.Prelude.{◌≡◌, ◌↔◌, ◌+◌, ◌≤◌, false, length, IfSome, IsNone};
ghost use Rattle.std.specs.List.{list_any};
ghost use Rattle.crew_script.specs.Deck.{is_crews, lines_of, split_of};

use crate::text_lines::TextLines;
use deck_limits::MOST_BYTES;

/// The most bytes that a deck may have.
pub const LONGEST_DECK: usize = MOST_BYTES;

/// Where the crew part of a deck begins: the place of its first byte, and the number of its first line.
#[derive(Clone, Copy)]
pub struct CrewsAt {
    pub start: usize,
    pub line: u32,
}

/// The parts of a deck: how many bytes the tree part has, and where the crew part begins, if the deck has one.
#[derive(Clone, Copy)]
pub struct Split {
    pub tree: usize,
    pub crews: Option<CrewsAt>,
}

/// The parts of a deck. The first line `@crews` divides it, wherever it stands.
pub fn split_deck(bytes: &[u8]) -> Split
    requires { length bytes.now ≤ LONGEST_DECK }
    ensures split { result ≡ split_of bytes.now }
    ensures within { result.tree ≤ length bytes.now }
    ensures none { IsNone result.crews ↔ (list_any is_crews (lines_of bytes.now) ≡ false) }
    ensures start { IfSome result.crews (λ crews. crews.start ≤ length bytes.now) }
    ensures first { IfSome result.crews (λ crews. 1 ≤ crews.line) }
    ensures last { IfSome result.crews (λ crews. crews.line ≤ LONGEST_DECK + 1) }
{
    let mut place = 0;
    let mut line: u32 = 1;
    let mut lines = TextLines::new(bytes);
    while let Some(row) = lines.next() {
        let behind = place + row.len() + 1;
        if is_crews(row) {
            let start = behind.min(bytes.len());
            let crews = CrewsAt {
                start,
                line: line + 1,
            };
            return Split {
                tree: place,
                crews: Some(crews),
            };
        }
        place = behind;
        line += 1;
    }
    Split {
        tree: bytes.len(),
        crews: None,
    }
}

// Whether a line divides a deck. A carriage return at its end counts for nothing.
fn is_crews(line: &[u8]) -> bool
    ensures { result ≡ is_crews line.now }
{
    line == b"@crews".as_slice() || line == b"@crews\r".as_slice()
}
