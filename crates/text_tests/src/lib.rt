//! Tests of what is read and written as text: bytes and their limits, numerals, tokens, statements, command lines and
//! crew parts. A file has the tests of the crate that it is named after.
#![tactic(auto)]

#[cfg(test)]
mod board_words_tests;
#[cfg(test)]
mod crew_script_tests;
#[cfg(test)]
mod decimal_numerals_tests;
#[cfg(test)]
mod edge_io_tests;
#[cfg(test)]
mod event_counts_tests;
#[cfg(test)]
mod galileo_lexer_tests;
#[cfg(test)]
mod galileo_tree_tests;
#[cfg(test)]
mod rows;
