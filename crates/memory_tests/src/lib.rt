//! Tests of families in a worker's own memory: operations on them, the cut families of nodes, and copies between a
//! memory and the shared store. A folder has the tests of the crate that it is named after; what they share stands
//! beside them.
#![tactic(auto)]

#[cfg(test)]
mod families;
#[cfg(test)]
mod family_copies_tests;
#[cfg(test)]
mod many_families_tests;
#[cfg(test)]
mod minimal_nodes_tests;
#[cfg(test)]
mod rows;
