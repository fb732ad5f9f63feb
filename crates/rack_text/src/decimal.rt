// Decimal numbers.
ghost use Rattle.std.specs.Prelude.{◌≡◌, ◌+◌, ◌*◌, ◌<◌, ◌^◌, IsTrue, SomeIff};
ghost use Rattle.std.specs.Char.{is_ascii_digit, digit_value};
ghost use Rattle.rack_text.specs.Decimal as spec;
ghost use Rattle.rack_text.specs.Decimal.{IsDecimal, decimal_value, decimal_number};

// Below this a number and one digit more fit into 64 bits, where a step is many times shorter.
const SHORT: u128 = 1 << 60;

/// The number that decimal digits write, most significant first, with zeros in front or without.
///
/// It is `None` exactly where the text is empty, holds a byte outside `0` to `9`, or writes a
/// number past 2^128 - 1. That bound is this project's own.
pub fn read_decimal(text: &[u8]) -> Option<u128>
    ensures value { result ≡ decimal_number text.now }
    ensures exactly { SomeIff result
        (IsDecimal text.now × (decimal_value text.now < 2 ^ 128)) (decimal_value text.now) }
{
    if text.is_empty() {
        return None;
    }
    let mut number: u128 = 0;
    for &byte in text {
        number = with_digit(number, byte)?;
    }
    Some(number)
}

/// Whether the text is decimal: one digit `0` to `9` or more, and nothing else.
pub fn is_decimal(text: &[u8]) -> bool
    ensures { result ≡ spec.is_decimal text.now }
{
    !text.is_empty() && text.iter().all(|byte| byte.is_ascii_digit())
}

// The number that one more digit makes of this one, where the byte is a digit and it fits.
fn with_digit(number: u128, byte: u8) -> Option<u128>
    ensures { SomeIff result
        (IsTrue (is_ascii_digit byte) × (number * 10 + digit_value byte < 2 ^ 128))
        (number * 10 + digit_value byte) }
{
    if !byte.is_ascii_digit() {
        return None;
    }
    let digit = byte - b'0';
    if number < SHORT {
        return Some(u128::from(number as u64 * 10 + u64::from(digit)));
    }
    let digit = u128::from(digit);
    number.checked_mul(10)?.checked_add(digit)
}
