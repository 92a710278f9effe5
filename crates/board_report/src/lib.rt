//! The texts that the program writes.
//!
//! It hands on the texts of cut sets, of `cut_texts`. It has those of a board: its log, the units that are out with
//! their holders, and what is left of each cut set; and those that speak of a deck: a tree in its own grammar, that a
//! deck is well formed, the summary of a made deck, and the lines of refusals.
//!
//! For the output it stands on `edge_io` and `text_pieces`, on `itoa` for numbers, on `fault_model` and `unit_sets` for
//! the names of units, on `outage_board`, `margin_policy` and `residual_ledger` for a board, its requests and replies,
//! and what is left of each cut set, on `crew_script` for the names of crews and the faults of a crew part, on
//! `galileo_lexer`, `galileo_tree` and `tree_check` for the faults of a tree, and on `deck_reading` for what a printed
//! tree is read as. Each call puts exactly the text that its clause names, or a front of it where the sink fails.
#![tactic(auto)]

mod at_end;
mod board;
mod check;
mod counted;
mod fault;
mod holders;
pub mod laws;
mod left;
mod log;
mod notice;
mod print;
mod summary;

pub use board::put_board;
pub use check::put_check;
pub use cut_texts::{UnitTexts, put_cuts, put_diagram, put_sizes};
pub use deck_reading::{DeckFault, FaultCode};
pub use fault::put_fault;
pub use notice::{Notice, put_notice};
pub use print::put_tree;
pub use summary::put_summary;
