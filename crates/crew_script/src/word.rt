//! The words of a line.
ghost use Rattle.std.specs.Prelude.{◌≡◌, ◌≤◌, ◌&&◌, ◌||◌, [], ◌∷◌, IfOk, false, true, drop, length};
ghost use Rattle.std.specs.List.{position_or_len, prefix_len};
ghost use Rattle.fault_words.specs.Name.{is_bare_name};
ghost use Rattle.crew_script.specs.Words.{is_blank, words_of, words, first_of, InQuotes, Closed, parts};
ghost use Rattle.crew_script.specs.Words.{begins_bare, begins_blank, broken};
ghost use Rattle.crew_script.specs.Lines.{says, is_comment, is_bare_kind, is_quoted_kind, begins_comment, name_in};
ghost use Rattle.crew_script.specs.Taking.{TakesWord};

use crate::text_lines::place_of;
use fault_words::{Name, is_bare_name};
use std::alloc::{AllocError, Global};
use std::marker::Model;

const QUOTE: u8 = b'"';

// How a word is written. A broken one is none: its quotation mark has no other, or a byte that is no blank right
// behind that.
#[derive(Clone, Copy)]
pub(crate) enum WordKind {
    Bare,
    Quoted,
    Broken,
}

/// A word's bytes, or what stands between its quotation marks.
#[derive(Drop)]
pub(crate) struct Word<'a> {
    kind: WordKind,
    text: &'a [u8],
}

impl<'a> Model for Word<'a> {
    ghost use Rattle.crew_script.specs.Words.{Word as Seen};

    ghost Value = { Seen };

    ghost view = { λ word. record { kind = word.kind; text = word.text.now } };
}

impl<'a> Word<'a> {
    pub(crate) fn text(&self) -> &[u8]
        ensures { result.now ≡ self.now.text }
    {
        self.text
    }

    pub(crate) fn is_bare(&self) -> bool
        ensures { result ≡ is_bare_kind self.now.kind }
    {
        matches!(self.kind, WordKind::Bare)
    }

    /// The word of a form, in any case.
    pub(crate) fn says(&self, form: &[u8]) -> bool
        ensures { result ≡ says self.now form.now }
    {
        self.is_bare() && self.text.eq_ignore_ascii_case(form)
    }

    /// Whether the word begins a comment.
    pub(crate) fn is_comment(&self) -> bool
        ensures { result ≡ is_comment self.now }
    {
        self.is_bare() && begins_comment(self.text)
    }

    // Whether the word may be a name by the way it is written.
    fn is_written_as_name(&self) -> bool
        ensures { result ≡ (is_quoted_kind self.now.kind
            || (is_bare_kind self.now.kind && is_bare_name self.now.text)) }
    {
        match self.kind {
            WordKind::Bare => is_bare_name(self.text),
            WordKind::Quoted => true,
            WordKind::Broken => false,
        }
    }

    /// The name that the word is, or None where it is none.
    pub(crate) fn name(&self, alloc: Global) -> Result<Option<Name>, AllocError>
        ensures { IfOk result (λ name. name ≡ name_in self.now) }
    {
        if self.is_written_as_name() {
            Name::new(alloc, self.text)
        } else {
            Ok(None)
        }
    }
}

fn begins_comment(text: &[u8]) -> bool
    ensures { result ≡ begins_comment text.now }
{
    match text {
        [first, ..] => *first == b'#',
        [] => false,
    }
}

#[tactic(auto, unfolding(crate::specs::Words::is_blank))]
fn is_blank(byte: u8) -> bool
    ensures { result ≡ is_blank byte }
{
    byte == 9 || (11 <= byte && byte <= 13) || byte == 32
}

/// The words of a line that are not read yet. A contract sees their list.
#[derive(Drop)]
pub(crate) struct Words<'a> {
    line: &'a [u8],
}

impl<'a> Model for Words<'a> {
    ghost use Rattle.std.specs.Prelude.{List};
    ghost use Rattle.crew_script.specs.Words.{Word as Seen, words_of};

    ghost Value = { List Seen };

    ghost view = { λ words. words_of words.line.now };
}

impl<'a> Words<'a> {
    pub(crate) fn new(line: &'a [u8]) -> Words<'a>
        ensures { result ≡ words_of line.now }
    {
        Words { line }
    }

    /// The next word, or None where none is left.
    pub(crate) fn next(&mut self) -> Option<Word<'a>>
        ensures word { result ≡ first_of self.old }
        ensures rest { self.new ≡ drop 1 self.old }
    {
        let taken = first_word(skip_blanks(self.line))?;
        self.line = taken.behind;
        Some(taken.word)
    }
}

// A word, and what follows it in its line.
#[derive(Drop)]
struct TakenWord<'a> {
    word: Word<'a>,
    behind: &'a [u8],
}

// The first word of what begins with no blank, or None where nothing is left.
fn first_word(bytes: &[u8]) -> Option<TakenWord<'_>>
    requires { begins_blank bytes.now ≡ false }
    ensures { TakesWord (words_of bytes.now) result }
{
    match bytes {
        [] => None,
        [first, behind @ ..] if *first == QUOTE => Some(quoted(behind)),
        _ => Some(bare(bytes)),
    }
}

// The bare word that begins here.
#[tactic(auto, using(crate::proofs::WordLemmas::bare_from))]
fn bare(bytes: &[u8]) -> TakenWord<'_>
    requires begins { begins_bare bytes.now ≡ true }
    requires no_blank { begins_blank bytes.now ≡ false }
    ensures { words_of bytes.now ≡ result.word ∷ words_of result.behind.now }
{
    let (text, behind) = bytes.split_at(blank_at(bytes));
    TakenWord {
        word: Word {
            kind: WordKind::Bare,
            text,
        },
        behind,
    }
}

// The quoted word whose first quotation mark stands before these bytes.
fn quoted(bytes: &[u8]) -> TakenWord<'_>
    ensures { words (InQuotes []) bytes.now ≡ result.word ∷ words_of result.behind.now }
{
    let end = place_of(QUOTE, bytes);
    if end < bytes.len() {
        closed(&bytes[..end], &bytes[end + 1..])
    } else {
        broken(bytes)
    }
}

// The quoted word with this text in front of these bytes.
fn closed<'a>(text: &'a [u8], behind: &'a [u8]) -> TakenWord<'a>
    ensures { words (Closed text.now) behind.now ≡ result.word ∷ words_of result.behind.now }
{
    if parts(behind) {
        TakenWord {
            word: Word {
                kind: WordKind::Quoted,
                text,
            },
            behind,
        }
    } else {
        broken(behind)
    }
}

// No word; the rest of the line is left out, for the line has no form.
fn broken(bytes: &[u8]) -> TakenWord<'_>
    ensures word { result.word ≡ broken }
    ensures rest { words_of result.behind.now ≡ [] }
{
    TakenWord {
        word: Word {
            kind: WordKind::Broken,
            text: &bytes[..0],
        },
        behind: &bytes[..0],
    }
}

// Whether a line goes on like this behind a word.
fn parts(bytes: &[u8]) -> bool
    ensures { result ≡ parts bytes.now }
{
    match bytes {
        [first, ..] => is_blank(*first),
        [] => true,
    }
}

// Where the first blank stands, or the end.
fn blank_at(bytes: &[u8]) -> usize
    ensures place { result ≡ position_or_len is_blank bytes.now }
    ensures within { result ≤ length bytes.now }
{
    let mut place = 0;
    while place < bytes.len() && !is_blank(bytes[place]) {
        place += 1;
    }
    place
}

// What is left behind the blanks at the front.
fn skip_blanks(bytes: &[u8]) -> &[u8]
    ensures same { words_of result.now ≡ words_of bytes.now }
    ensures begins { begins_blank result.now ≡ false }
{
    &bytes[blanks(bytes)..]
}

// How many blanks stand at the front.
fn blanks(bytes: &[u8]) -> usize
    ensures count { result ≡ prefix_len is_blank bytes.now }
    ensures within { result ≤ length bytes.now }
{
    let mut count = 0;
    while count < bytes.len() && is_blank(bytes[count]) {
        count += 1;
    }
    count
}
