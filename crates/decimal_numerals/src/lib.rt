//! Decimal numerals, as every text of the project writes its numbers.
//!
//! It stands on std alone. A layer above gets whether bytes are digits, or the one way to write a number, and the
//! number that up to nine digits write.
#![tactic(auto)]

ghost use Rattle.std.specs.Prelude.{◌≡◌, ◌≤◌, length, true};
ghost use Rattle.std.specs.List.{list_all};
ghost use Rattle.std.specs.Char.{is_ascii_digit};
ghost use Rattle.decimal_numerals.specs.Numeral.{are_digits, has_leading_zero, is_numeral, number_from};

/// Whether a text is one digit or more, and no more than so many.
pub fn are_digits(most: usize, text: &[u8]) -> bool
    ensures { result ≡ are_digits most text.now }
{
    1 <= text.len() && text.len() <= most && all_digits(text)
}

/// Whether a text is such digits with no zero in front of others.
pub fn is_numeral(most: usize, text: &[u8]) -> bool
    ensures { result ≡ is_numeral most text.now }
{
    are_digits(most, text) && !has_leading_zero(text)
}

/// The number that up to nine digits write.
pub fn number(digits: &[u8]) -> u32
    requires few { length digits.now ≤ 9 }
    requires digits { list_all is_ascii_digit digits.now ≡ true }
    ensures value { result ≡ number_from 0 digits.now }
    ensures small { result ≤ 999999999 }
{
    let mut number: u32 = 0;
    for digit in digits {
        number = 10 * number + u32::from(*digit - b'0');
    }
    number
}

fn all_digits(text: &[u8]) -> bool
    ensures { result ≡ list_all is_ascii_digit text.now }
{
    text.iter().all(|byte| byte.is_ascii_digit())
}

fn has_leading_zero(text: &[u8]) -> bool
    ensures { result ≡ has_leading_zero text.now }
{
    match text {
        [first, _, ..] => *first == b'0',
        _ => false,
    }
}
