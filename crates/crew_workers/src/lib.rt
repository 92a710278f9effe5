//! Workers that serve the crews of a board, each crew by a thread of its own.
//!
//! It stands on `outage_board`, whose passes the workers hold, and on `edge_io` for the pace that holds workers back.
//! The layer above gets from [`serve_all`] the state of the board in which every crew's docket is used up: its
//! history is legal, and has the requests of each docket in order, each once. Nothing here takes memory, and no
//! clause says which thread made an entry.
#![tactic(auto)]

mod serving;

pub use serving::serve_all;
