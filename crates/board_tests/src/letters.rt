//! Units by letters: the unit 1 is `a`.
use std::alloc::Global;
use std::test::Fail;
use unit_sets::UnitNo;

/// The units of the letters in a text.
pub(crate) fn units_of(alloc: Global, text: &str) -> Result<Vec<UnitNo>, Fail> {
    let mut units = Vec::new(alloc);
    for letter in text.as_bytes() {
        if letter.is_ascii_lowercase() {
            let number = u16::from(letter.wrapping_sub(b'a')) + 1;
            units.push(UnitNo::new(number).ok_or("no unit")?)?;
        }
    }
    Ok(units)
}
