//! What follows a fault tree in a deck: the crews and their requests.
//!
//! A deck is a tree part and, behind a line `@crews`, a crew part. The contract of [`split_deck`] gives the layer
//! above both parts by their places, and that of [`read_crews`] the crews that the lines of the crew part say, each
//! with its requests in order, or the first line's fault. The laws in `laws` say the same as relations on whole
//! texts. It stands on `fault_words` for names and places, and on `unit_sets` for the numbers of crews.
#![tactic(auto)]

mod copies;
mod crews;
mod deck;
mod dockets;
mod fault;
pub mod laws;
mod line;
mod names;
mod text_lines;
mod word;

pub use crews::read_crews;
pub use deck::{CrewsAt, LONGEST_DECK, Split, split_deck};
pub use dockets::{Ask, AskList, Crew, Dockets, MOST_CREWS, MOST_REQUESTS};
pub use fault::{CrewCode, CrewFault};
pub use names::NameList;
pub use text_lines::place_of;
