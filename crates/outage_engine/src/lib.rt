//! What the program does: it reads the words and the deck, finds the cut sets, serves the crews, and writes the text of
//! its answer.
//!
//! It stands on every layer below. The contracts of [`run`], [`run_cuts`] and [`run_board`] are the product's own:
//! which text the sink took for which bytes of the source, and when each status comes.
#![tactic(auto)]

mod answer;
mod found;
mod input;
pub mod laws;
mod listing;
mod means;
mod opening;
mod refusal;
mod running;
mod sizes;
mod status;
mod store_size;
mod summary;
mod tell;

pub use board_words::Word;
pub use found::{Found, find_cuts};
pub use running::{run, run_board, run_cuts};
pub use status::{Method, Status};
pub use store_size::{LEAST_BITS, STORE_BITS, store_bits};
