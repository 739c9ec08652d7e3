// Integers of 128 bits in decimal.
// They depend on nothing.
ghost use Rattle.std.specs.Prelude.{◌≡◌, ◌<◌, ◌≤◌, Some, IfSome, IfOk, pos};
ghost use Rattle.std.specs.Option.{option_map};
ghost use Rattle.std.specs.String.{string_bytes};
ghost use Rattle.word_tables.specs.integers.Integers.{number_from, number_below, negative, integer};

use std::alloc::{AllocError, Global};

const MINUS: u8 = b'-';

// The number that decimal digits write, where it is below a bound.
fn digits(word: &[u8], bound: u128) -> Option<u128>
    requires some { 0 < bound }
    requires fits { bound ≤ 170141183460469231731687303715884105729 }
    ensures number { result ≡ number_from bound 0 word.now }
    ensures below { IfSome result (λ n. n < bound) }
{
    let mut number = 0u128;
    for c in word {
        if *c < b'0' || *c > b'9' {
            return None;
        }
        // no digit after a greater number stays below any bound that is asked for
        if number > 17014118346046923173168730371588410572 {
            return None;
        }
        let next = number * 10 + u128::from(*c - b'0');
        if next >= bound {
            return None;
        }
        number = next;
    }
    Some(number)
}

// The number that a word writes without leading zeros, where it is below a bound.
fn number_below(word: &[u8], bound: u128) -> Option<u128>
    requires some { 0 < bound }
    requires fits { bound ≤ 170141183460469231731687303715884105729 }
    ensures number { result ≡ number_below bound word.now }
    ensures below { IfSome result (λ n. n < bound) }
{
    match word {
        [] => None,
        [_] => digits(word, bound),
        [first, ..] => {
            if *first == b'0' {
                None
            } else {
                digits(word, bound)
            }
        }
    }
}

// The integer of a word without a sign.
fn unsigned(word: &[u8]) -> Option<i128>
    ensures { result ≡ option_map pos
        (number_below 170141183460469231731687303715884105728 word.now) }
{
    match number_below(word, 170141183460469231731687303715884105728) {
        Some(n) => Some(n as i128),
        None => None,
    }
}

// The integer of a word after a minus.
fn negative_integer(word: &[u8]) -> Option<i128>
    ensures { result ≡ option_map negative
        (number_below 170141183460469231731687303715884105729 word.now) }
{
    match number_below(word, 170141183460469231731687303715884105729) {
        Some(n) => Some(opposite(n)),
        None => None,
    }
}

// A number with a minus.
fn opposite(n: u128) -> i128
    requires { n ≤ 170141183460469231731687303715884105728 }
    ensures { result ≡ negative n }
{
    if n == 0 { 0 } else { -1 - (n - 1) as i128 }
}

/// The integer that a word writes: decimal digits without leading zeros, after a minus or not, of 128 bits with its
/// sign; none where it writes none.
pub fn integer(word: &[u8]) -> Option<i128>
    ensures { result ≡ integer word.now }
{
    match word {
        [] => None,
        [first, rest @ ..] => {
            if *first == MINUS {
                negative_integer(rest)
            } else {
                unsigned(word)
            }
        }
    }
}

/// The word of an integer, which is read back as that integer. Only want of memory refuses.
pub fn integer_word(alloc: Global, n: i128) -> Result<String, AllocError>
    ensures { IfOk result (λ v. integer (string_bytes v) ≡ Some n) }
{
    let word = n.to_string(alloc)?;
    Ok(word)
}
