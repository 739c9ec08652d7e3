// Words of a line, and the numbers that they write.
// They depend on the words of trees' lines; what a line makes depends on them.
ghost use Rattle.std.specs.Prelude.{◌≡◌, ◌<◌, ◌+◌, Some, None, length, take, drop, IfOk, MatchOption};
ghost use Rattle.std.specs.Str.{bytes_eq};
ghost use Rattle.std.specs.Option.{option_map};
ghost use Rattle.step_lines.specs.tree_lines.Words.{number, each, texts};
ghost use Rattle.step_lines.specs.Steps.{before_colon, after_colon};

use crate::tree_lines::number_of_word;
use std::alloc::{AllocError, Global};

// Whether a word is this one.
pub(crate) fn is(word: &[u8], text: &str) -> bool
    ensures { result ≡ bytes_eq word.now text.now }
{
    word == text.as_bytes()
}

// The place of the first colon.
pub(crate) fn colon(words: &[&[u8]]) -> Option<usize>
    ensures { MatchOption result (after_colon (texts words.now) ≡ None) (λ i. (i < length words.now)
        × (before_colon (texts words.now) ≡ texts (take i words.now))
        × (after_colon (texts words.now) ≡ Some (texts (drop (i + 1) words.now)))) }
{
    for i in 0..words.len() {
        if is(words[i], ":") {
            return Some(i);
        }
    }
    None
}

// The numbers that words write; none where one writes no number.
pub(crate) fn numbers(alloc: Global, words: &[&[u8]]) -> Result<Option<Vec<usize>>, AllocError>
    ensures { IfOk result (λ o. option_map (λ v. v.items) o ≡ each number (texts words.now)) }
{
    let mut all = Vec::new(alloc);
    for word in words {
        match number_of_word(word) {
            Some(n) => all.push(n)?,
            None => return Ok(None),
        }
    }
    Ok(Some(all))
}
