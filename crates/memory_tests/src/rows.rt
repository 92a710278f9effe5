//! The parts of a row: words with a `|` between them.
use std::test::Fail;

/// The part of a row at a place.
pub(crate) fn part(row: &str, place: usize) -> &str {
    row.split('|').nth(place).unwrap_or("")
}

/// The number of a row at a place.
pub(crate) fn number(row: &str, place: usize) -> Result<u16, Fail> {
    Ok(part(row, place).parse::<u16>()?)
}
