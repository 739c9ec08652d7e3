// The words of numbers, and the numbers of the lines that trees have.
// They depend on the store; the words of a node depend on them.
ghost use Rattle.std.specs.Prelude.{◌≡◌, ◌<◌, [], None, All, IfOk, IfSome, OnOk};
ghost use Rattle.tasks.specs.trees.Tree.{Two, HCell};
ghost use Rattle.tasks.specs.trees.Node.{tree_at, Holds};
ghost use Rattle.tasks.specs.trees.Sorts.{IsList, sort_of};
ghost use Rattle.tasks.specs.trees.declared.Sort.{Sort};
ghost use Rattle.tasks.specs.Typing.{members};
ghost use Rattle.step_lines.specs.tree_lines.Words.{number};
ghost use Rattle.step_writing.specs.tree_writing.Referring.{words_of, PushesNumbers, line_at, HasLine, Refers, ReferAll};

use std::alloc::{AllocError, Global};
use tasks::{Node, Store, TermId};

// The word of a number, in decimal.
fn number_word(alloc: Global, n: usize) -> Result<Vec<u8>, AllocError>
    ensures { IfOk result (λ v. number v.items ≡ Some n) }
{
    let digits = n.to_string(alloc)?;
    Ok(digits.into_bytes())
}

/// Appends the words of numbers.
pub fn push_numbers(
    alloc: Global,
    words: &mut Vec<Vec<u8>>,
    numbers: &[usize],
) -> Result<(), AllocError>
    ensures { OnOk result (PushesNumbers (words_of words.old.items) (words_of words.new.items)
        numbers.now) }
{
    for number in numbers {
        let word = number_word(alloc, *number)?;
        words.push(word)?;
    }
    Ok(())
}

/// The number of a tree's line, where it has one.
pub fn find_line(lines: &[Option<usize>], id: TermId) -> Option<usize>
    ensures { result ≡ line_at lines.now id }
{
    match lines.get(id.0) {
        Some(number) => *number,
        None => None,
    }
}

/// The number of a tree's line.
pub fn line_number(store: &Store, lines: &[Option<usize>], id: TermId) -> usize
    requires held { Holds store.now id }
    requires line { HasLine store.now lines.now (tree_at store.now id) }
    ensures { Refers store.now lines.now (sort_of (tree_at store.now id)) result
        (tree_at store.now id) }
{
    store.laws();
    match find_line(lines, id) {
        Some(number) => number,
        None => unreachable!(),
    }
}

// The first member of a list and the list of the others.
fn first_and_others(store: &Store, list: TermId) -> Option<(TermId, TermId)>
    requires { Holds store.now list }
    ensures cell { IfSome result (λ p. tree_at store.now list
        ≡ Two HCell (tree_at store.now p.0) (tree_at store.now p.1)) }
    ensures below { IfSome result (λ p. (p.0.0 < list.0) × (p.1.0 < list.0)) }
    ensures none { result ≡ None → members (tree_at store.now list) ≡ [] }
{
    match store.node(list) {
        Node::Cell(first, others) => Some((first, others)),
        _ => None,
    }
}

/// The numbers of the lines of a list's members.
pub(crate) fn list_numbers(
    alloc: Global,
    store: &Store,
    lines: &[Option<usize>],
    list: TermId,
) -> Result<Vec<usize>, AllocError>
    requires held { Holds store.now list }
    requires lines { All (HasLine store.now lines.now) (members (tree_at store.now list)) }
    ensures { IfOk result (λ v. (sort : Sort) → IsList sort (tree_at store.now list)
        → ReferAll store.now lines.now sort v.items (members (tree_at store.now list))) }
{
    store.laws();
    let mut all = Vec::new(alloc);
    let mut rest = list;
    while let Some((first, others)) = first_and_others(store, rest) {
        all.push(line_number(store, lines, first))?;
        rest = others;
    }
    Ok(all)
}
