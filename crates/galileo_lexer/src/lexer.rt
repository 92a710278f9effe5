//! The lexer: the next token of a text, or its first fault. What reads a token is inlined into its reader, so that the
//! token's parts stay in registers: through memory a token of one byte takes twice the time.
ghost use Rattle.std.specs.Prelude.{◌≡◌, ◌≢◌, ◌<◌, ◌≤◌, false, length, drop, slice_index, Ok, None};
ghost use Rattle.galileo_lexer.specs.Lexed.{Between, lexed, tokens_of, next_of, after};
ghost use Rattle.galileo_lexer.specs.Bytes.{is_blank};
ghost use Rattle.galileo_lexer.specs.Spot.{IsSpot};
ghost use Rattle.galileo_lexer.specs.Found.{Finds};

use crate::bytes::{EQUALS, QUOTE, SEMICOLON, SLASH, is_blank, is_word_byte};
use crate::constructs::{Found, comment_end, mark, quoted, word};
use crate::spot::Spot;
use crate::token::{LexCode, LexFault, LexPlace, Token, TokenKind};
use deck_limits::MOST_BYTES;
use std::marker::Model;

/// The greatest number of bytes of a text: those of a deck.
pub const LONGEST_TEXT: usize = MOST_BYTES;

/// Reads a text token by token. It borrows the text and takes no memory.
#[derive(Drop)]
pub struct Lexer<'a> {
    text: &'a [u8],
    spot: Spot,
    fault: Option<LexFault>,
}

impl<'a> Model for Lexer<'a> {
    ghost use Rattle.galileo_lexer.specs.Lexed.{Lexed};

    ghost Value = { Lexed };

    ghost use Rattle.galileo_lexer.specs.Lexer.{still_to_come, IsLexer};

    ghost view = { still_to_come };

    ghost invariant = { IsLexer };
}

impl<'a> Lexer<'a> {
    /// A lexer at the start of the text.
    pub fn new(text: &'a [u8]) -> Lexer<'a>
        requires { length text.now ≤ LONGEST_TEXT }
        ensures { result ≡ tokens_of text.now }
    {
        Lexer {
            text,
            spot: Spot::origin(),
            fault: None,
        }
    }

    /// The next token, or None at the end of the text. After a fault the same fault comes again.
    #[inline(always)]
    pub fn next(&mut self) -> Result<Option<Token>, LexFault>
        ensures answer { result ≡ next_of self.old.tokens self.old.ending }
        ensures rest { self.new ≡ after self.old }
    {
        if let Some(fault) = self.fault {
            return Err(fault);
        }
        match find(self.text, self.spot) {
            Found::Token(token, spot) => {
                self.spot = spot;
                Ok(Some(token))
            }
            Found::End(spot) => {
                self.spot = spot;
                Ok(None)
            }
            Found::Fault(fault) => {
                self.fault = Some(fault);
                Err(fault)
            }
        }
    }

    /// The place of the end of the text, where no token and no fault is left.
    pub fn end(&self) -> LexPlace
        requires { next_of self.now.tokens self.now.ending ≡ Ok None }
        ensures { self.now.ending ≡ Ok result }
    {
        match find(self.text, self.spot) {
            Found::End(spot) => spot.place(),
            _ => unreachable!(),
        }
    }
}

// The first token behind the spot, the end of the text or a fault. Blanks and comments are passed over.
#[inline(always)]
fn find(text: &[u8], start: Spot) -> Found
    requires small { length text.now ≤ LONGEST_TEXT }
    requires spot { IsSpot start text.now }
    ensures { Finds text.now (lexed Between start (drop start.offset text.now)) result }
{
    let mut spot = start;
    while spot.offset < text.len() {
        let byte = text[spot.offset];
        if is_blank(byte) {
            spot = spot.step(byte);
        } else if byte == SLASH {
            match comment_end(text, spot) {
                Ok(after) => spot = after,
                Err(fault) => return Found::Fault(fault),
            }
        } else {
            return token_at(text, spot, byte);
        }
    }
    Found::End(spot)
}

// The token that begins with this byte, which is no blank and no slash.
#[inline(always)]
fn token_at(text: &[u8], spot: Spot, byte: u8) -> Found
    requires small { length text.now ≤ LONGEST_TEXT }
    requires spot { IsSpot spot text.now }
    requires inside { spot.offset < length text.now }
    requires byte { byte ≡ slice_index text.now spot.offset }
    requires no_blank { is_blank byte ≡ false }
    requires no_slash { byte ≢ 47 }
    ensures { Finds text.now (lexed Between spot (drop spot.offset text.now)) result }
{
    match byte {
        QUOTE => quoted(text, spot),
        EQUALS => mark(TokenKind::Equals, spot),
        SEMICOLON => mark(TokenKind::Semicolon, spot),
        _ if is_word_byte(byte) => word(text, spot),
        _ => Found::Fault(LexFault {
            code: LexCode::BadByte,
            place: spot.place(),
        }),
    }
}
