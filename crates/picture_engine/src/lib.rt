//! A whole run of the program that draws: from its words and a deck to a picture, or to the line that says why there
//! is none.
//!
//! It stands on `tree_picture` for the picture, on `outage_engine` for the deck and its cut sets, on `board_words` for
//! the words, and on `board_report` and `text_pieces` for the lines of refusals. The contract of [`run`] is the
//! program's own.
#![tactic(auto)]

mod end;
mod finding;
mod refusal;
mod running;
mod store_size;
mod telling;
mod words;

pub use board_words::Word;
pub use end::PictureEnd;
pub use refusal::Refusal;
pub use running::run;
pub use store_size::store_bits;
pub use words::Mark;
