//! Texts put piece by piece on an output, and the words and names that more than one text has.
//!
//! It stands on `edge_io` for the output and on `itoa` for numbers, and on `fault_words` for names and the kinds of
//! gates. Each call puts exactly the text that its clause names, or a front of it where the sink fails.
#![tactic(auto)]

mod gate_word;
mod pieces;
mod shown;

pub use gate_word::put_gate_word;
pub use pieces::put_all;
pub use shown::{put_named, put_shown};
