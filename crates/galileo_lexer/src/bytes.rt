//! The classes of bytes.
ghost use Rattle.std.specs.Prelude.{◌≡◌};
ghost use Rattle.galileo_lexer.specs.Bytes.{is_blank, is_word_byte, is_quotable};

pub(crate) const LINE_FEED: u8 = 10;

pub(crate) const QUOTE: u8 = b'"';

pub(crate) const STAR: u8 = b'*';

pub(crate) const SLASH: u8 = b'/';

pub(crate) const SEMICOLON: u8 = b';';

pub(crate) const EQUALS: u8 = b'=';

#[tactic(auto, unfolding(crate::specs::Bytes::is_blank))]
pub(crate) fn is_blank(byte: u8) -> bool
    ensures { result ≡ is_blank byte }
{
    (9 <= byte && byte <= 13) || byte == 32
}

// Each byte of a word stands at its own place, and a comma at every other place: most of a text is words, and one load
// tells a byte's class where the tests of the definition would take up to six comparisons.
static WORD_BYTES: [u8; 256] = *b"\
    ,,,,,,,,,,,,,,,,,,,,,,,,,,,,,,,,\
    ,,,,,,,,,,,+,-.,0123456789,,,,,,\
    ,ABCDEFGHIJKLMNOPQRSTUVWXYZ,,,,_\
    ,abcdefghijklmnopqrstuvwxyz,,,,,\
    ,,,,,,,,,,,,,,,,,,,,,,,,,,,,,,,,\
    ,,,,,,,,,,,,,,,,,,,,,,,,,,,,,,,,\
    ,,,,,,,,,,,,,,,,,,,,,,,,,,,,,,,,\
    ,,,,,,,,,,,,,,,,,,,,,,,,,,,,,,,,";

#[inline(always)]
pub(crate) fn is_word_byte(byte: u8) -> bool
    ensures { result ≡ is_word_byte byte }
{
    WORD_BYTES[byte as usize] != b','
}

#[tactic(auto, unfolding(crate::specs::Bytes::is_quotable))]
pub(crate) fn is_quotable(byte: u8) -> bool
    ensures { result ≡ is_quotable byte }
{
    32 <= byte && byte <= 126 && byte != QUOTE
}
