//! The parts of a row: texts with a `>` between them.

/// The part of a row at a place.
pub(crate) fn part(row: &str, place: usize) -> &str {
    row.split('>').nth(place).unwrap_or("")
}
