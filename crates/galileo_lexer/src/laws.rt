//! The laws that say what a reading is in the notation's own terms. Their bodies are empty: each is its clause.
ghost use Rattle.std.specs.Prelude.{◌≡◌, ℕ, ◌+◌, List, All, length};
ghost use Rattle.galileo_lexer.specs.Lexed.{Lexed, tokens_of};
ghost use Rattle.galileo_lexer.specs.Pieces.{Reads};
ghost use Rattle.galileo_lexer.specs.Spelling.{IsSpelled};
ghost use Rattle.galileo_lexer.specs.Spot.{IsLastLine, line_feeds, place_behind};

/// The tokens and the end of a text are a reading of it: the text is a sequence of blanks, comments and token
/// spellings, each word and line comment as long as it can be, and its tokens are these with their places. Where
/// there is a fault it stands behind such a sequence, at the first token that cannot be formed.
pub fn reads_its_text()
    ensures { (text : List ℕ) → Reads text (tokens_of text) }
{}

/// A text has one reading.
pub fn reads_one_way()
    ensures { (text : List ℕ) (read : Lexed) → Reads text read → tokens_of text ≡ read }
{}

/// Each token lies in the text, and is spelled there as its kind says; its place is that of its first byte.
pub fn tokens_are_spelled()
    ensures { (text : List ℕ) → All (IsSpelled text) (tokens_of text).tokens }
{}

/// A line is 1 more than the line feeds before the place, and a column 1 more than the bytes since the last of them, or
/// since the start.
pub fn places_count_line_feeds()
    ensures line { (before : List ℕ) → (place_behind before).line ≡ 1 + line_feeds before }
    ensures column { (before line : List ℕ) → IsLastLine before line → (place_behind before).column ≡ 1 + length line }
{}
