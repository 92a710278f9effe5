//! Digits, numerals and their numbers.
use decimal_numerals::{are_digits, is_numeral, number};
use std::process::Abort;
use std::test::Fail;

// Whether a text is of one to four digits or not, as is told, and a numeral of so many or not.
fn is_so(text: &str, digits: bool, numeral: bool) -> bool {
    are_digits(4, text.as_bytes()) == digits && is_numeral(4, text.as_bytes()) == numeral
}

// Whether this is so of each line.
fn check_lines(rt: &impl Abort, lines: &str, digits: bool, numeral: bool) {
    for line in lines.split('\n') {
        assert!(rt; is_so(line, digits, numeral), "{line}");
    }
}

#[test]
fn numerals_are_digits_without_a_leading_zero(rt: HostRuntime) -> Result<(), Fail> {
    check_lines(&rt, "0\n70\n1234", true, true);
    check_lines(&rt, "00\n07", true, false);
    check_lines(&rt, "\n12345\n1 2\n/9\n9:", false, false);
    Ok(())
}

// Whether up to nine digits write this number.
fn write_number(digits: &str, due: u32) -> bool {
    are_digits(9, digits.as_bytes()) && number(digits.as_bytes()) == due
}

#[test]
fn up_to_nine_digits_write_their_number(rt: HostRuntime) -> Result<(), Fail> {
    assert_eq!(rt; number(b""), 0);
    assert!(rt;
        write_number("0", 0)
            && write_number("0012", 12)
            && write_number("102030405", 102030405)
            && write_number("999999999", 999999999)
    );
    Ok(())
}
