//! What the lexer gives: tokens, faults and their places in the text.

/// A place in the text. Lines and columns begin at 1, each byte is one column wide, and a line feed, and nothing
/// else, ends a line.
#[derive(Clone, Copy, Debug, PartialEq, Eq)]
pub struct LexPlace {
    pub line: u32,
    pub column: u32,
}

/// What a token is.
#[derive(Clone, Copy, Debug, PartialEq, Eq)]
pub enum TokenKind {
    /// Letters and digits of ASCII and the bytes `_-.+`, as many as follow one another.
    Word,
    /// A text between two quotes.
    Quoted,
    /// `=`
    Equals,
    /// `;`
    Semicolon,
}

/// A token: the bytes from `start` up to `end` of the text, quotes included, and the place of the first.
#[derive(Clone, Copy, Debug, PartialEq, Eq)]
pub struct Token {
    pub kind: TokenKind,
    pub start: usize,
    pub end: usize,
    pub place: LexPlace,
}

/// Why no token can be formed.
#[derive(Clone, Copy, Debug, PartialEq, Eq)]
pub enum LexCode {
    /// A byte that begins no token, or that may not stand between quotes.
    BadByte,
    /// The text ends after an opening quote.
    OpenQuote,
    /// The text ends in a comment that `/*` began.
    OpenComment,
    /// Nothing stands between two quotes.
    EmptyName,
    /// A word or a quoted text of more than 255 bytes.
    NameTooLong,
}

/// A fault of the text: what it is, and where.
#[derive(Clone, Copy, Debug, PartialEq, Eq)]
pub struct LexFault {
    pub code: LexCode,
    pub place: LexPlace,
}
