// The lines of types and of patterns.
// They depend on uses and on the trees of words; the reader of lines depends on them.
ghost use Rattle.std.specs.Prelude.{◌≡◌, All, IfOk, IfSome};
ghost use Rattle.std.specs.Option.{option_map};
ghost use Rattle.trees.specs.Node.{tree_at, Holds, Grows};
ghost use Rattle.tasks.specs.Meaning.{task_at, trees_at};
ghost use Rattle.step_lines.specs.tree_lines.Words.{at_number, one, texts};
ghost use Rattle.step_lines.specs.tree_lines.Lines.{one_tree, type_of_line, pattern_by, pattern_of_line};
ghost use Rattle.step_lines.specs.declared.tree_lines.kinds.NodeWord.TheVariants.{Con};
ghost use Rattle.step_lines.specs.tree_lines.Made.{IsTreeMade, IsTypeHeld, KnownHeld, earlier_at};

use crate::tree_lines::forms::one_node;
use crate::tree_lines::kinds::{NodeWord, find_pattern_word};
use crate::tree_lines::known::EarlierLines;
use crate::tree_lines::names::{meaning_of, type_of_symbol};
use crate::tree_lines::nodes::tree_of;
use crate::tree_lines::uses::{all_types, pattern_of_use, use_of_words};
use std::alloc::{AllocError, Global};
use trees::store::{Store, TermId};

/// The type of a line `y`, by the words after that letter. Only want of memory refuses.
pub fn line_type(
    alloc: Global,
    store: &mut Store,
    x: &EarlierLines<'_>,
    words: &[&[u8]],
) -> Result<Option<TermId>, AllocError>
    requires { KnownHeld store.old x.now }
    ensures tree { IfOk result (λ o. option_map (tree_at store.new) o
        ≡ type_of_line (task_at store.old x.now.task.now) x.now.table.now
        (earlier_at store.old x.now) (texts words.now)) }
    ensures held { IfOk result (λ o. IfSome o (IsTypeHeld store.new)) }
    ensures grows { Grows store.old store.new }
{
    let [name, rest @ ..] = words else {
        return Ok(None);
    };
    let Some(named) = meaning_of(alloc, store, x.names, x.table, name)? else {
        return Ok(None);
    };
    let symbol = named.symbol;
    match all_types(alloc, store, x, named, rest)? {
        Some(types) => type_of_symbol(store, symbol, &types),
        None => Ok(None),
    }
}

// The pattern of a constructor.
fn pattern_of_symbol(
    alloc: Global,
    store: &mut Store,
    x: &EarlierLines<'_>,
    words: &[&[u8]],
) -> Result<Option<TermId>, AllocError>
    requires { KnownHeld store.old x.now }
    ensures made { IfOk result (IsTreeMade store.new
        (pattern_by (task_at store.old x.now.task.now) x.now.table.now
        (earlier_at store.old x.now) Con (texts words.now))) }
    ensures grows { Grows store.old store.new }
{
    match use_of_words(alloc, store, x, x.patterns, words)? {
        Some(used) => pattern_of_use(alloc, store, &used),
        None => Ok(None),
    }
}

// The pattern of a word and one thing.
fn pattern_of_one(
    store: &mut Store,
    word: NodeWord,
    things: &[TermId],
    words: &[&[u8]],
) -> Result<Option<TermId>, AllocError>
    requires { All (Holds store.old) things.now }
    ensures made { IfOk result (IsTreeMade store.new
        (one (at_number (trees_at store.old things.now)) (one_tree word) (texts words.now))) }
    ensures grows { Grows store.old store.new }
{
    let node = one_node(store, word, things, words);
    tree_of(store, node)
}

// The pattern of a word.
fn pattern_of_word(
    alloc: Global,
    store: &mut Store,
    x: &EarlierLines<'_>,
    word: NodeWord,
    words: &[&[u8]],
) -> Result<Option<TermId>, AllocError>
    requires { KnownHeld store.old x.now }
    ensures made { IfOk result (IsTreeMade store.new
        (pattern_by (task_at store.old x.now.task.now) x.now.table.now
        (earlier_at store.old x.now) word (texts words.now))) }
    ensures grows { Grows store.old store.new }
{
    match word {
        NodeWord::Con => pattern_of_symbol(alloc, store, x, words),
        NodeWord::As => pattern_of_one(store, word, x.patterns, words),
        _ => pattern_of_one(store, word, x.types, words),
    }
}

/// The pattern of a line `p`, by the words after that letter; none where they make no pattern, or one whose parts don't
/// fit. Only want of memory refuses.
pub fn line_pattern(
    alloc: Global,
    store: &mut Store,
    x: &EarlierLines<'_>,
    words: &[&[u8]],
) -> Result<Option<TermId>, AllocError>
    requires { KnownHeld store.old x.now }
    ensures made { IfOk result (IsTreeMade store.new
        (pattern_of_line (task_at store.old x.now.task.now) x.now.table.now
        (earlier_at store.old x.now) (texts words.now))) }
    ensures grows { Grows store.old store.new }
{
    let [kind, rest @ ..] = words else {
        return Ok(None);
    };
    match find_pattern_word(kind) {
        Some(word) => pattern_of_word(alloc, store, x, word, rest),
        None => Ok(None),
    }
}
