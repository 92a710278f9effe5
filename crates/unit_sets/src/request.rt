//! Crews, and what is done with a unit.
/// The number of a crew: its place, from 0, among the crews of a deck.
#[derive(Clone, Copy, Debug, PartialEq, Eq)]
pub struct CrewNo(pub u32);

/// What a crew may do with a unit: take it out of service, or return it.
#[derive(Clone, Copy, Debug, PartialEq, Eq)]
pub enum Act {
    Take,
    Return,
}
