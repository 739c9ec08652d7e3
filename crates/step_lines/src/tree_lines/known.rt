// What is known before a line: the task, the names of the table, and what the lines so far have made.
// It depends on names and words; the lines of each kind depend on it.
ghost use Rattle.std.specs.Prelude.{◌≡◌, All, IfOk, IfSome};
ghost use Rattle.std.specs.Option.{option_map};
ghost use Rattle.trees.specs.Node.{tree_at, Holds};
ghost use Rattle.tasks.specs.Meaning.{trees_at};
ghost use Rattle.step_lines.specs.tree_lines.Words.{at_number, each, pairs, texts};

use crate::tree_lines::names::TableNames;
use crate::tree_lines::words::number_of_word;
use name_tables::name_entries::NameEntry;
use std::alloc::{AllocError, Global};
use tasks::Task;
use trees::store::{Store, TermId};

/// What is known before a line: the task, the table with its names, and what the lines so far have made, each kind counted
/// from 0.
#[derive(Clone, Copy)]
pub struct EarlierLines<'a> {
    pub task: &'a Task,
    pub table: &'a [NameEntry],
    pub names: &'a TableNames,
    pub types: &'a [TermId],
    pub patterns: &'a [TermId],
    pub expressions: &'a [TermId],
}

/// The thing of a number.
pub fn thing(store: &Store, things: &[TermId], word: &[u8]) -> Option<TermId>
    requires { All (Holds store.now) things.now }
    ensures number { result ≡ at_number things.now word.now }
    ensures tree { option_map (tree_at store.now) result
        ≡ at_number (trees_at store.now things.now) word.now }
    ensures held { IfSome result (Holds store.now) }
{
    let _ = store;
    let place = number_of_word(word)?;
    things.get(place).copied()
}

/// The things of numbers; none where one isn't there.
pub fn things_at(
    alloc: Global,
    store: &Store,
    things: &[TermId],
    words: &[&[u8]],
) -> Result<Option<Vec<TermId>>, AllocError>
    requires { All (Holds store.now) things.now }
    ensures { IfOk result (λ o. option_map (λ v. v.items) o
        ≡ each (at_number things.now) (texts words.now)) }
{
    let mut all = Vec::new(alloc);
    for word in words {
        match thing(store, things, word) {
            Some(found) => all.push(found)?,
            None => return Ok(None),
        }
    }
    Ok(Some(all))
}

/// The things of numbers two by two; none where one isn't there.
pub(crate) fn pairs_at(
    alloc: Global,
    store: &Store,
    firsts: &[TermId],
    seconds: &[TermId],
    words: &[&[u8]],
) -> Result<Option<Vec<(TermId, TermId)>>, AllocError>
    requires firsts { All (Holds store.now) firsts.now }
    requires seconds { All (Holds store.now) seconds.now }
    ensures { IfOk result (λ o. option_map (λ v. v.items) o
        ≡ pairs (at_number firsts.now) (at_number seconds.now) (texts words.now)) }
{
    let mut all = Vec::new(alloc);
    let mut i = 0;
    while i < words.len() {
        let Some(first) = thing(store, firsts, words[i]) else {
            return Ok(None);
        };
        if i + 1 == words.len() {
            return Ok(None);
        }
        let Some(second) = thing(store, seconds, words[i + 1]) else {
            return Ok(None);
        };
        all.push((first, second))?;
        i += 2;
    }
    Ok(Some(all))
}
