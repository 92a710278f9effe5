//! Tests of `zdd_build`: trees that are built in a shared store, compared with what the list method says of them. The
//! folder `path_sets_tests` has those of `path_sets`.
#![tactic(auto)]

#[cfg(test)]
mod held;
#[cfg(test)]
mod path_sets_tests;
#[cfg(test)]
mod random;
#[cfg(test)]
mod stores;
#[cfg(test)]
mod trees;
