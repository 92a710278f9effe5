//! Tests of `outage_engine` and `picture_engine`: whole runs, from the bytes read to the bytes written.
#![tactic(auto)]

#[cfg(test)]
mod board_tests;
#[cfg(test)]
mod diagram_tests;
#[cfg(test)]
mod held_tests;
#[cfg(test)]
mod limit_tests;
#[cfg(test)]
mod make_tests;
#[cfg(test)]
mod picture_tests;
#[cfg(test)]
mod runs;
#[cfg(test)]
mod tests;
