// The numbers that words write.
// They depend on nothing; what a line makes depends on them.
ghost use Rattle.std.specs.Prelude.{◌≡◌};
ghost use Rattle.word_tables.specs.integers.Integers.{number_from};
ghost use Rattle.step_lines.specs.tree_lines.Words.{number};

// The number of decimal digits.
fn digits(word: &[u8]) -> Option<usize>
    ensures { result ≡ number_from 18446744073709551616 0 word.now }
{
    let mut number = 0u64;
    for c in word {
        if *c < b'0' || *c > b'9' {
            return None;
        }
        let next = u128::from(number) * 10 + u128::from(*c - b'0');
        if next >= 18446744073709551616 {
            return None;
        }
        number = next as u64;
    }
    Some(number as usize)
}

/// The number of 64 bits that a word writes in decimal, without leading zeros; none where it writes none.
pub fn number_of_word(word: &[u8]) -> Option<usize>
    ensures { result ≡ number word.now }
{
    match word {
        [] => None,
        [_] => digits(word),
        [first, ..] => { if *first == b'0' { None } else { digits(word) } }
    }
}
