//! The texts of a tree's cut sets: the sets with their failing orders, and how large they and their diagram are.
//!
//! It stands on `edge_io` and `text_pieces` for the output and on `itoa` for numbers, on `fault_model` and `unit_sets`
//! for trees and cut lists, on `flat_rows` for the texts of units, and on `cut_sequences` for the orders that are
//! listed for cut sets. Each call puts exactly the text that its clause names, or a front of it where the sink fails.
#![tactic(auto)]

mod cuts;
mod diagram;
mod line;
mod lines;
mod spelled;
mod unit_texts;

pub use cuts::{put_count_line, put_cuts, put_titled_line, top_name};
pub use diagram::{put_diagram, put_sizes};
pub use unit_texts::UnitTexts;
