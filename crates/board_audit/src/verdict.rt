//! What an audit answers.

/// How far a log agrees with its deck.
#[derive(Clone, Copy)]
pub enum Verdict {
    /// To its end, and it has the lines of all requests.
    Yes,
    /// Its first line is not the head of a log of all requests.
    Header,
    /// Up to the entry before this one, counted from 1.
    Entry(u32),
    /// It has the lines of all requests, and more bytes follow.
    Rest,
}
