//! The words of a command line, and the command that they say.
//!
//! It stands on `decimal_numerals` for numbers and on `deck_limits` for the greatest margin. Its contract gives the
//! layer above the command of the words exactly where they are one. A list of words is one command at most. Two laws
//! tell the spellings of the commands: each is read as its command, and nothing else is read as one. [`spoken_words`]
//! are those that a program was started with. A program with words of its own reads its options by [`are_options`],
//! [`value_of`] and [`number_within`].
#![tactic(auto)]

mod command;
mod laws;
mod number;
mod options;
mod spoken;
mod word;

pub use command::{Command, Show, read};
pub use laws::{numbers_are_within_bounds, only_spellings_are_read, spellings_are_read};
pub use number::number_within;
pub use options::{are_options, value_of};
pub use spoken::spoken_words;
pub use word::{NoMemory, Word};
