// A table of words.
ghost use Rattle.std.specs.Prelude.{◌≡◌, ℕ, ◌<◌, length, slice_get, IsTrue};
ghost use Rattle.word_tables.specs.Words.{ascends, texts, place_in_words, Finds};

use std::cmp::Ordering;
use std::marker::Model;

/// `N` words, each below the next by its bytes. Contracts see the list of the words, each as the list of its bytes.
#[derive(Drop)]
pub struct WordTable<const N: usize> {
    words: &'static [&'static str],
}

impl<const N: usize> Model for WordTable<N> {
    ghost use Rattle.std.specs.Prelude.{List, ℕ, ◌≡◌, length, IsTrue};
    ghost use Rattle.word_tables.specs.Words.{ascends, texts};

    ghost Value = { List (List ℕ) };

    ghost view = { λ t. texts t.words.now };

    ghost invariant = { λ t. (length t.words.now ≡ N) × IsTrue (ascends (texts t.words.now)) };
}

impl<const N: usize> WordTable<N> {
    /// The table of these words, which ascend by their bytes and differ.
    pub fn new(words: &'static [&'static str]) -> WordTable<N>
        requires count { length words.now ≡ N }
        requires ascending { IsTrue (ascends (texts words.now)) }
        ensures { result ≡ texts words.now }
    {
        WordTable { words }
    }

    /// The word at a place.
    pub fn word(&self, i: usize) -> &'static str
        requires { i < N }
        ensures { slice_get self.now i ≡ Some result.now }
    {
        let words = self.words;
        words[i]
    }

    /// The place of a word, and nothing where it isn't in the table: the inverse of `word`.
    pub fn find(&self, word: &[u8]) -> Option<usize>
        ensures inverse { Finds self.now word.now result }
        ensures place { result ≡ place_in_words word.now self.now }
    {
        search(self.words, word)
    }
}

/// The place of a word among ascending words, by binary search.
fn search(words: &[&'static str], word: &[u8]) -> Option<usize>
    requires { IsTrue (ascends (texts words.now)) }
    ensures { Finds (texts words.now) word.now result }
{
    let mut low = 0;
    let mut high = words.len();
    while low < high {
        let middle = low + (high - low) / 2;
        match words[middle].as_bytes().cmp(&word) {
            Ordering::Less => low = middle + 1,
            Ordering::Equal => return Some(middle),
            Ordering::Greater => high = middle,
        }
    }
    None
}
