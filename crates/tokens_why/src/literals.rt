// Integer literals: their values.
ghost use Rattle.std.specs.Prelude.{◌+◌, ◌*◌, ◌≤◌, ◌<◌, pos};
ghost use Rattle.std.specs.Option.{SomeIff};
ghost use Rattle.tokens_why.specs.Literal as spec;
ghost use Rattle.tokens_why.specs.Literal.{greatest};

use crate::bytes::{digit_value, radix_of};

/// The greatest value of a literal.
const GREATEST: u128 = (1 << 127) - 1;

/// A number with one digit more, if it isn't too big.
fn with_digit(number: u128, radix: u8, digit: u8) -> Option<u128>
    ensures { SomeIff result (number * radix + digit ≤ greatest) (number * radix + digit) }
{
    let scaled = number.checked_mul(u128::from(radix))?;
    let sum = scaled.checked_add(u128::from(digit))?;
    if sum <= GREATEST { Some(sum) } else { None }
}

/// The number that digits write, if it isn't too big; `_` counts for nothing.
fn number(digits: &[u8], radix: u8) -> Option<u128>
    requires { 0 < radix }
    ensures { SomeIff result (spec.digits_value radix 0 digits.now ≤ greatest)
        (spec.digits_value radix 0 digits.now) }
{
    let mut number = 0;
    for byte in digits {
        if *byte != b'_' {
            let Some(more) = with_digit(number, radix, digit_value(*byte)) else {
                return None;
            };
            number = more;
        }
    }
    Some(number)
}

fn magnitude(literal: &[u8]) -> Option<u128>
    ensures { SomeIff result (spec.literal_value literal.now ≤ greatest)
        (spec.literal_value literal.now) }
{
    if literal.len() < 2 {
        return number(literal, 10);
    }
    let radix = radix_of(literal[1]);
    if radix == 0 {
        number(literal, 10)
    } else {
        number(&literal[2..], radix)
    }
}

/// The value of an integer literal, unless it exceeds 2^127 - 1.
///
/// A literal is decimal, or has `0x`, `0o` or `0b` in front, letters of either case; `_` may come after the first digit.
pub fn literal_value(literal: &[u8]) -> Option<i128>
    ensures { SomeIff result (spec.literal_value literal.now ≤ greatest)
        (pos (spec.literal_value literal.now)) }
{
    match magnitude(literal) {
        Some(value) => Some(value as i128),
        None => None,
    }
}
