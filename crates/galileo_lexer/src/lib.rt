//! The tokens of a fault tree in the Galileo notation, read from bytes one after the other.
//!
//! Stands on `deck_limits` alone, for the bytes of a text. A `Lexer` takes no memory: it borrows the text, and a token
//! is a kind with the place where its bytes lie. Contracts see a `Lexer` as what is still to come of its text, the
//! tokens and then the end of the text or the first fault, so the crate above reads a list of tokens without keeping
//! one.
//! That this list is right is said in the notation's own terms by the laws of `laws`: the text is a
//! sequence of blanks, comments and token spellings, and a fault stands exactly where no token can.
#![tactic(auto)]

mod bytes;
mod constructs;
mod laws;
mod lexer;
mod spot;
mod token;

pub use laws::{places_count_line_feeds, reads_its_text, reads_one_way, tokens_are_spelled};
pub use lexer::{LONGEST_TEXT, Lexer};
pub use token::{LexCode, LexFault, LexPlace, Token, TokenKind};
