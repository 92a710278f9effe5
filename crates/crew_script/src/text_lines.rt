//! The lines of a text.
ghost use Rattle.std.specs.Prelude.{◌≡◌, ◌≤◌, ◌==◌, length};
ghost use Rattle.std.specs.List.{position_or_len};
ghost use Rattle.crew_script.specs.Deck.{lines_of};
ghost use Rattle.crew_script.specs.TextLines.{TakesLine};

use std::marker::Model;

/// The lines of a text that are not read yet. A contract sees their list.
#[derive(Drop)]
pub(crate) struct TextLines<'a> {
    rest: Option<&'a [u8]>,
}

impl<'a> Model for TextLines<'a> {
    ghost use Rattle.std.specs.Prelude.{ℕ, List};
    ghost use Rattle.crew_script.specs.TextLines.{left};

    ghost Value = { List (List ℕ) };

    ghost view = { λ lines. left lines.rest };
}

impl<'a> TextLines<'a> {
    pub(crate) fn new(text: &'a [u8]) -> TextLines<'a>
        ensures { result ≡ lines_of text.now }
    {
        TextLines { rest: Some(text) }
    }

    /// The next line, without its line feed, or None where none is left.
    pub(crate) fn next(&mut self) -> Option<&'a [u8]>
        ensures { TakesLine self.old result self.new }
    {
        let rest = self.rest?;
        let end = place_of(b'\n', rest);
        if end < rest.len() {
            self.rest = Some(&rest[end + 1..]);
            Some(&rest[..end])
        } else {
            self.rest = None;
            Some(rest)
        }
    }
}

/// Where a byte stands first, or how many bytes there are where it stands nowhere.
pub fn place_of(mark: u8, bytes: &[u8]) -> usize
    ensures place { result ≡ position_or_len (λ byte. byte == mark) bytes.now }
    ensures within { result ≤ length bytes.now }
{
    let mut place = 0;
    while place < bytes.len() && bytes[place] != mark {
        place += 1;
    }
    place
}
