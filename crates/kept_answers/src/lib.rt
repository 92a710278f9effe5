//! Answers of operations on diagrams, each kept in the one place that its question has.
//!
//! A layer above asks before it computes, and tells what it has computed. A later answer takes the place of an earlier
//! one, so what is kept is there for speed alone: contracts say only where the entries come from. This crate stands on
//! `zdd_words` and starts no threads.
#![tactic(auto)]

mod answers;

pub use answers::{Answers, Entry, Operation, Question};
