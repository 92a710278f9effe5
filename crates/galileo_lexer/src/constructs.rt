//! Comments and tokens, each read from its first byte on.
ghost use Rattle.std.specs.Prelude.{◌≡◌, ◌<◌, ◌≤◌, ◌+◌, length, drop, slice_index, true, false, MatchResult};
ghost use Rattle.galileo_lexer.specs.Bytes.{is_word_byte};
ghost use Rattle.galileo_lexer.specs.Spot.{IsSpot, step, along};
ghost use Rattle.galileo_lexer.specs.Lexed.{Between, InLine, InBlock, lexed, failed, with_token, token_from};
ghost use Rattle.galileo_lexer.specs.Found.{Finds, Passes, fault_at, named};

use crate::bytes::{LINE_FEED, QUOTE, SLASH, STAR, is_quotable, is_word_byte};
use crate::lexer::LONGEST_TEXT;
use crate::spot::Spot;
use crate::token::{LexCode, LexFault, Token, TokenKind};
use deck_limits::LONGEST_NAME;

// What stands next in the text, with the spot behind it.
#[derive(Clone, Copy)]
pub(crate) enum Found {
    Token(Token, Spot),
    End(Spot),
    Fault(LexFault),
}

fn fault(code: LexCode, spot: Spot) -> LexFault
    requires offset { spot.offset ≤ LONGEST_TEXT }
    requires line { spot.line_start ≤ spot.offset }
    ensures { result ≡ fault_at code spot }
{
    LexFault {
        code,
        place: spot.place(),
    }
}

// The token of one byte.
#[inline(always)]
pub(crate) fn mark(kind: TokenKind, spot: Spot) -> Found
    requires offset { spot.offset < LONGEST_TEXT }
    requires line { spot.line_start ≤ spot.offset }
    ensures { result ≡ Found.Token (token_from kind spot (spot.offset + 1)) (along spot (spot.offset + 1)) }
{
    let end = spot.offset + 1;
    let token = Token {
        kind,
        start: spot.offset,
        end,
        place: spot.place(),
    };
    Found::Token(token, spot.along(end))
}

// The token of a name with so many bytes of text, which ends in front of `end`.
#[inline(always)]
fn name(kind: TokenKind, start: Spot, end: usize, size: usize) -> Found
    requires offset { start.offset ≤ LONGEST_TEXT }
    requires line { start.line_start ≤ start.offset }
    ensures { result ≡ named kind start end size }
{
    if size > LONGEST_NAME {
        return Found::Fault(fault(LexCode::NameTooLong, start));
    }
    let token = Token {
        kind,
        start: start.offset,
        end,
        place: start.place(),
    };
    Found::Token(token, start.along(end))
}

// The word that begins here, as long as its bytes go on.
#[inline(always)]
pub(crate) fn word(text: &[u8], start: Spot) -> Found
    requires small { length text.now ≤ LONGEST_TEXT }
    requires spot { IsSpot start text.now }
    requires inside { start.offset < length text.now }
    requires first { is_word_byte (slice_index text.now start.offset) ≡ true }
    ensures { Finds text.now (lexed Between start (drop start.offset text.now)) result }
{
    let mut end = start.offset + 1;
    while end < text.len() && is_word_byte(text[end]) {
        end += 1;
    }
    name(TokenKind::Word, start, end, end - start.offset)
}

// The quoted token that begins here.
pub(crate) fn quoted(text: &[u8], start: Spot) -> Found
    requires small { length text.now ≤ LONGEST_TEXT }
    requires spot { IsSpot start text.now }
    requires inside { start.offset < length text.now }
    requires first { slice_index text.now start.offset ≡ 34 }
    ensures { Finds text.now (lexed Between start (drop start.offset text.now)) result }
{
    let first = start.offset + 1;
    let mut end = first;
    while end < text.len() {
        let byte = text[end];
        if byte == QUOTE {
            if end == first {
                return Found::Fault(fault(LexCode::EmptyName, start));
            }
            return name(TokenKind::Quoted, start, end + 1, end - first);
        }
        if !is_quotable(byte) {
            return Found::Fault(fault(LexCode::BadByte, start.along(end)));
        }
        end += 1;
    }
    Found::Fault(fault(LexCode::OpenQuote, start))
}

// The spot behind the comment that this slash begins.
pub(crate) fn comment_end(text: &[u8], start: Spot) -> Result<Spot, LexFault>
    requires small { length text.now ≤ LONGEST_TEXT }
    requires spot { IsSpot start text.now }
    requires inside { start.offset < length text.now }
    requires first { slice_index text.now start.offset ≡ 47 }
    ensures { Passes text.now start (lexed Between start (drop start.offset text.now)) result }
{
    let second = start.offset + 1;
    if second < text.len() {
        if text[second] == SLASH {
            return Ok(line_end(text, start.along(second)));
        }
        if text[second] == STAR {
            return block_end(text, start, start.along(second + 1));
        }
    }
    Err(fault(LexCode::BadByte, start))
}

// The line feed, or the end of the text, that ends a comment.
fn line_end(text: &[u8], start: Spot) -> Spot
    requires small { length text.now ≤ LONGEST_TEXT }
    requires spot { IsSpot start text.now }
    ensures same { lexed InLine start (drop start.offset text.now)
        ≡ lexed Between result (drop result.offset text.now) }
    ensures onward { start.offset ≤ result.offset }
    ensures spot { IsSpot result text.now }
{
    let mut end = start.offset;
    while end < text.len() && text[end] != LINE_FEED {
        end += 1;
    }
    start.along(end)
}

// The spot behind the first star and slash from here on, in the comment that began at `start`.
fn block_end(text: &[u8], start: Spot, inside: Spot) -> Result<Spot, LexFault>
    requires small { length text.now ≤ LONGEST_TEXT }
    requires start { IsSpot start text.now }
    requires spot { IsSpot inside text.now }
    requires onward { start.offset < inside.offset }
    ensures { Passes text.now start (lexed (InBlock start false) inside (drop inside.offset text.now)) result }
{
    let mut spot = inside;
    let mut starred = false;
    while spot.offset < text.len() {
        let byte = text[spot.offset];
        spot = spot.step(byte);
        if starred && byte == SLASH {
            return Ok(spot);
        }
        starred = byte == STAR;
    }
    Err(fault(LexCode::OpenComment, start))
}
