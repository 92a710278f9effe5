//! Families as texts: a digit for each unit of a set, and a point behind it, so that `.` is the family of the empty
//! set.
use std::alloc::Global;
use std::test::Fail;

/// The part of a row at a place.
pub(crate) fn part(row: &str, place: usize) -> &str {
    row.split('|').nth(place).unwrap_or("")
}

/// The units of a family of a row, with a 0 for each point.
pub(crate) fn numbers_at(alloc: Global, row: &str, place: usize) -> Result<Vec<u16>, Fail> {
    let mut numbers = Vec::new(alloc);
    for byte in part(row, place).as_bytes() {
        let number = if *byte == b'.' {
            0
        } else {
            byte.wrapping_sub(b'0')
        };
        numbers.push(u16::from(number))?;
    }
    Ok(numbers)
}

/// So many units as a set each, from one down in steps.
pub(crate) fn singles(alloc: Global, first: u16, count: u16, step: u16) -> Result<Vec<u16>, Fail> {
    let mut numbers = Vec::new(alloc);
    for place in 0..count {
        numbers.push(first.saturating_sub(place.saturating_mul(step)))?;
        numbers.push(0)?;
    }
    Ok(numbers)
}
