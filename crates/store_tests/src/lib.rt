//! Tests of the shared store: its words and nodes, operations on families, the cut families of nodes, and their lists.
//! A file or a folder has the tests of the crate that it is named after.
#![tactic(auto)]

#[cfg(test)]
mod cutset_listing_tests;
#[cfg(test)]
mod kept_answers_tests;
#[cfg(test)]
mod zdd_nodes_tests;
#[cfg(test)]
mod zdd_product_tests;
#[cfg(test)]
mod zdd_shared_table_tests;
#[cfg(test)]
mod zdd_words_tests;
