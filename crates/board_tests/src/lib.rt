//! Tests of boards: counts of the units that are in, replies to requests, boards that crews or threads share, the
//! workers that serve crews, and plans of outages. A file has the tests of the crate that it is named after;
//! `letters` has what several of them use.
#![tactic(auto)]

#[cfg(test)]
mod crew_workers_tests;
#[cfg(test)]
mod held_pace_tests;
#[cfg(test)]
mod letters;
#[cfg(test)]
mod live_board_tests;
#[cfg(test)]
mod margin_policy_tests;
#[cfg(test)]
mod outage_board_tests;
#[cfg(test)]
mod residual_ledger_tests;
#[cfg(test)]
mod wave_planner_tests;
