//! Tests of `board_report`: the texts that the program writes. The folder `board_audit_tests` has those of
//! `board_audit`.
#![tactic(auto)]

#[cfg(test)]
mod board_audit_tests;
#[cfg(test)]
mod puts;
#[cfg(test)]
mod tables;
#[cfg(test)]
mod tests;
