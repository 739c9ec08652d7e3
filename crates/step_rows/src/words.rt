// The numbers that words write.
use step_lines::integer;

/// The number of a word, or 0.
pub(crate) fn number_of(word: &str) -> usize {
    match integer(word.as_bytes()) {
        Some(n) => usize::try_from(n).unwrap_or(0),
        None => 0,
    }
}
