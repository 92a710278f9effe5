//! Tests of trees as they are checked, made, drawn and solved by lists. A file has the tests of the crate that it is
//! named after.
#![tactic(auto)]

#[cfg(test)]
mod cutset_lists_tests;
#[cfg(test)]
mod rows;
#[cfg(test)]
mod text_pieces_tests;
#[cfg(test)]
mod tree_check_tests;
#[cfg(test)]
mod tree_maker_tests;
#[cfg(test)]
mod tree_picture_tests;
