//! Tests of what is worked out over trees in plain lists: rows, units and sets, cycles, readings of trees, orders and
//! the orders of cut sets. A file has the tests of the crate that it is named after.
#![tactic(auto)]

#[cfg(test)]
mod cut_sequences_tests;
#[cfg(test)]
mod fault_model_tests;
#[cfg(test)]
mod flat_rows_tests;
#[cfg(test)]
mod graph_cycles_tests;
#[cfg(test)]
mod replay_semantics_tests;
#[cfg(test)]
mod unit_sets_tests;
