//! The lexemes of a text, one after the other.
ghost use Rattle.std.specs.Prelude.{◌≡◌, ◌≤◌, length};
ghost use Rattle.galileo_tree.specs.Lexeme.{place_at, lexeme_of};
ghost use Rattle.galileo_tree.specs.Parsed.{lexemes_of};
ghost use Rattle.galileo_tree.specs.Reads.{Nexts, Wants, IsAtEnd, EndsAt};
ghost use Rattle.galileo_lexer.specs.Spelling.{IsSpelled};

use crate::fault::{ParseFault, What};
use crate::lexeme::Lexeme;
use fault_words::Place;
use galileo_lexer::{LONGEST_TEXT, LexPlace, Lexer, Token, TokenKind, tokens_are_spelled};
use std::marker::Model;

/// A lexer with the text that it reads. A contract sees it as the lexemes that are still to come.
#[derive(Drop)]
pub(crate) struct Reader<'a> {
    text: &'a [u8],
    lexer: Lexer<'a>,
}

impl<'a> Model for Reader<'a> {
    ghost use Rattle.std.specs.Prelude.{All, map};
    ghost use Rattle.galileo_lexer.specs.Spelling.{IsSpelled};
    ghost use Rattle.galileo_tree.specs.Lexeme.{Stream, lexeme_of};

    ghost Value = { Stream };

    ghost view = { λ reader. record {
      lexemes = map (lexeme_of reader.text.now) reader.lexer.tokens;
      ending = reader.lexer.ending;
    } };

    ghost invariant = { λ reader. All (IsSpelled reader.text.now) reader.lexer.tokens };
}

impl<'a> Reader<'a> {
    pub(crate) fn new(text: &'a [u8]) -> Reader<'a>
        requires { length text.now ≤ LONGEST_TEXT }
        ensures { result ≡ lexemes_of text.now }
    {
        // Each token lies in the text.
        tokens_are_spelled();
        let lexer = Lexer::new(text);
        Reader { text, lexer }
    }

    /// The next lexeme, or None at the end of the text.
    #[inline(always)]
    pub(crate) fn next(&mut self) -> Result<Option<Lexeme<'a>>, ParseFault>
        ensures { Nexts self.old result self.new }
    {
        match self.lexer.next() {
            Ok(Some(token)) => Ok(Some(lexeme(self.text, token))),
            Ok(None) => Ok(None),
            Err(fault) => Err(ParseFault::Lex(fault)),
        }
    }

    /// The next lexeme, where the text must go on with what is wanted.
    #[inline(always)]
    pub(crate) fn want(&mut self, wanted: What) -> Result<Lexeme<'a>, ParseFault>
        ensures { Wants wanted self.old result self.new }
    {
        match self.next()? {
            Some(lexeme) => Ok(lexeme),
            None => Err(ParseFault::Expected(wanted, self.end())),
        }
    }

    /// The place of the end of the text, where no lexeme is left.
    pub(crate) fn end(&self) -> Place
        requires { IsAtEnd self.now }
        ensures { EndsAt self.now result }
    {
        place(self.lexer.end())
    }
}

fn place(at: LexPlace) -> Place
    ensures { result ≡ place_at at }
{
    Place {
        line: at.line,
        column: at.column,
    }
}

// The lexeme of a token of this text: the bytes of a word or of a mark, or those between the quotes of a quoted token.
#[inline(always)]
fn lexeme(text: &[u8], token: Token) -> Lexeme<'_>
    requires { IsSpelled text.now token }
    ensures { result ≡ lexeme_of text.now token }
{
    let place = place(token.place);
    match token.kind {
        TokenKind::Quoted => {
            let first = token.start + 1;
            Lexeme::new(token.kind, &text[first..], token.end - 1 - first, place)
        }
        TokenKind::Word | TokenKind::Equals | TokenKind::Semicolon => {
            Lexeme::new(
                token.kind,
                &text[token.start..],
                token.end - token.start,
                place,
            )
        }
    }
}
