//! A token with its text.
ghost use Rattle.std.specs.Prelude.{◌≡◌, ◌≤◌, [], ◌∷◌, ◌++◌, length, take, true, IfOk, IfErr, OnOk};
ghost use Rattle.galileo_tree.specs.Lexeme.{is_equals, is_semicolon, is_bare, is_name, is_value, is_top_word};
ghost use Rattle.galileo_tree.specs.Lexeme.{is_word_kind, is_quoted_kind};
ghost use Rattle.galileo_tree.specs.GateWord.{kind_said};
ghost use Rattle.galileo_tree.specs.declared.fault.ParseFault.TheVariants.{NoMemory};

use crate::bytes::gate_word;
use crate::fault::ParseFault;
use crate::raw::{Placed, PlacedList};
use fault_words::{GateKind, Name, Place, SHORT_NAME, is_bare_name};
use galileo_lexer::TokenKind;
use std::alloc::Global;
use std::marker::Model;

/// A token's kind, the text of its word or between its quotes, and its place. A contract sees it as these.
#[derive(Drop)]
pub(crate) struct Lexeme<'a> {
    kind: TokenKind,
    // the whole text from the first byte of the lexeme's own on, which `Name::front` copies faster than a slice of its
    // length
    behind: &'a [u8],
    count: usize,
    place: Place,
}

impl<'a> Model for Lexeme<'a> {
    ghost use Rattle.std.specs.Prelude.{◌≤◌, length, take};
    ghost use Rattle.galileo_tree.specs.Lexeme.{Lexeme as Seen, HasNameText};

    ghost Value = { Seen };

    ghost view = { λ lexeme. record {
      kind = lexeme.kind;
      text = take lexeme.count lexeme.behind.now;
      place = lexeme.place;
    } };

    ghost invariant = { λ lexeme.
        (lexeme.count ≤ length lexeme.behind.now)
        × HasNameText lexeme.kind (take lexeme.count lexeme.behind.now) };
}

impl<'a> Lexeme<'a> {
    ghost use Rattle.galileo_tree.specs.Lexeme.{HasNameText, placed};

    /// The lexeme whose text has the first bytes of what is left of the whole.
    #[inline(always)]
    pub(crate) fn new(kind: TokenKind, behind: &'a [u8], count: usize, place: Place) -> Lexeme<'a>
        requires inside { count ≤ length behind.now }
        requires form { HasNameText kind (take count behind.now) }
        ensures { result ≡ record { kind = kind; text = take count behind.now; place = place } }
    {
        Lexeme {
            kind,
            behind,
            count,
            place,
        }
    }

    fn text(&self) -> &[u8]
        ensures { result.now ≡ self.now.text }
    {
        &self.behind[..self.count]
    }

    pub(crate) fn place(&self) -> Place
        ensures { result ≡ self.now.place }
    {
        self.place
    }

    #[tactic(auto, unfolding(crate::specs::Lexeme::is_equals))]
    pub(crate) fn is_equals(&self) -> bool
        ensures { result ≡ is_equals self.now }
    {
        matches!(self.kind, TokenKind::Equals)
    }

    #[tactic(auto, unfolding(crate::specs::Lexeme::is_semicolon))]
    pub(crate) fn is_semicolon(&self) -> bool
        ensures { result ≡ is_semicolon self.now }
    {
        matches!(self.kind, TokenKind::Semicolon)
    }

    fn is_word(&self) -> bool
        ensures { result ≡ is_word_kind self.now.kind }
    {
        matches!(self.kind, TokenKind::Word)
    }

    fn is_quoted(&self) -> bool
        ensures { result ≡ is_quoted_kind self.now.kind }
    {
        matches!(self.kind, TokenKind::Quoted)
    }

    /// A word that is a bare name.
    #[tactic(auto, unfolding(crate::specs::Lexeme::is_bare, crate::specs::Lexeme::is_value))]
    pub(crate) fn is_bare(&self) -> bool
        ensures bare { result ≡ is_bare self.now }
        ensures value { result ≡ true → is_value self.now ≡ true }
    {
        self.is_word() && is_bare_name(self.text())
    }

    #[tactic(auto, unfolding(crate::specs::Lexeme::is_name, crate::specs::Lexeme::is_value))]
    pub(crate) fn is_name(&self) -> bool
        ensures named { result ≡ is_name self.now }
        ensures value { result ≡ true → is_value self.now ≡ true }
    {
        self.is_quoted() || self.is_bare()
    }

    #[tactic(auto, unfolding(crate::specs::Lexeme::is_value))]
    pub(crate) fn is_value(&self) -> bool
        ensures { result ≡ is_value self.now }
    {
        self.is_word() || self.is_quoted()
    }

    /// The word `toplevel`, in any case.
    #[tactic(auto, unfolding(crate::specs::Lexeme::is_top_word))]
    pub(crate) fn is_top_word(&self) -> bool
        ensures { result ≡ is_top_word self.now }
    {
        self.is_word() && self.text().eq_ignore_ascii_case(b"toplevel")
    }

    /// The kind of a gate that the lexeme says.
    #[tactic(auto, unfolding(crate::specs::GateWord::kind_said))]
    pub(crate) fn kind_said(&self) -> Option<GateKind>
        ensures { result ≡ kind_said self.now }
    {
        if self.is_word() {
            gate_word(self.text())
        } else {
            None
        }
    }

    /// The text of a word or a quoted lexeme, as a name.
    #[inline(always)]
    pub(crate) fn name(&self, alloc: Global) -> Result<Name, ParseFault>
        requires { is_value self.now ≡ true }
        ensures name { IfOk result (λ name. name ≡ self.now.text) }
        ensures memory { IfErr result (λ fault. fault ≡ NoMemory) }
    {
        Ok(Name::front(alloc, self.behind, self.count)?)
    }

    /// The name that the lexeme writes, with its place.
    #[inline(always)]
    pub(crate) fn placed(&self, alloc: Global) -> Result<Placed, ParseFault>
        requires { is_value self.now ≡ true }
        ensures placed { IfOk result (λ found. found ≡ placed self.now) }
        ensures memory { IfErr result (λ fault. fault ≡ NoMemory) }
    {
        Ok(Placed {
            name: self.name(alloc)?,
            place: self.place,
        })
    }

    /// Puts the name that the lexeme writes, with its place, behind a list. A short name is made where it is to stay: a
    /// text may have millions of them, and to build each apart and then move it takes longer than to read it.
    #[inline(always)]
    pub(crate) fn add_to(&self, alloc: Global, list: &mut PlacedList) -> Result<(), ParseFault>
        requires { is_value self.now ≡ true }
        ensures added { OnOk result (list.new ≡ list.old ++ placed self.now ∷ []) }
        ensures memory { IfErr result (λ fault. fault ≡ NoMemory) }
    {
        if self.count > SHORT_NAME || self.behind.len() < SHORT_NAME {
            return self.add_long_to(alloc, list);
        }
        list.push(Placed {
            name: Name::short(self.behind, self.count),
            place: self.place,
        })?;
        Ok(())
    }

    // The same for a name of any length, wherever it stands.
    #[inline(never)]
    fn add_long_to(&self, alloc: Global, list: &mut PlacedList) -> Result<(), ParseFault>
        requires { is_value self.now ≡ true }
        ensures added { OnOk result (list.new ≡ list.old ++ placed self.now ∷ []) }
        ensures memory { IfErr result (λ fault. fault ≡ NoMemory) }
    {
        list.push(self.placed(alloc)?)?;
        Ok(())
    }
}
