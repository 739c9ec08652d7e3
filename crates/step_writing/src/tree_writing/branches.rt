// The lines of matches.
// They depend on the words of numbers; the writer of lines depends on them.
ghost use Rattle.std.specs.Prelude.{◌≡◌, ◌<◌, [], None, IfOk, IfSome, OnOk};
ghost use Rattle.tasks.specs.trees.Tree.{Two, HArm, HCell, HCase};
ghost use Rattle.tasks.specs.trees.Node.{tree_at, Holds};
ghost use Rattle.tasks.specs.trees.Sorts.{IsList, sort_of};
ghost use Rattle.tasks.specs.trees.declared.Sort.TheVariants.{Branch, Term};
ghost use Rattle.step_writing.specs.tree_writing.Referring.{words_of, HasLine};
ghost use Rattle.step_writing.specs.tree_writing.Plain.{ReadsBack};
ghost use Rattle.step_writing.specs.tree_writing.Branches.{branch_list, PushesBranches, BranchLines, IsArm};

use crate::tree_writing::naming::Source;
use crate::tree_writing::plain::one_word;
use crate::tree_writing::referring::{line_number, push_numbers};
use std::alloc::{AllocError, Global};
use tasks::{Node, Store, TermId};

// The pattern and the body of a branch.
fn arm_of(store: &Store, id: TermId) -> Option<(TermId, TermId)>
    requires { Holds store.now id }
    ensures arm { IfSome result (λ p. tree_at store.now id
        ≡ Two HArm (tree_at store.now p.0) (tree_at store.now p.1)) }
    ensures below { IfSome result (λ p. (p.0.0 < id.0) × (p.1.0 < id.0)) }
    ensures none { result ≡ None → IsArm (tree_at store.now id) → ⊥ }
{
    match store.node(id) {
        Node::Arm(pattern, body) => Some((pattern, body)),
        _ => None,
    }
}

// The pattern and the body of a list's first branch, and the list of the others.
fn first_branch(store: &Store, list: TermId) -> Option<(TermId, TermId, TermId)>
    requires held { Holds store.now list }
    ensures branch { IfSome result (λ p. tree_at store.now list ≡ Two HCell
        (Two HArm (tree_at store.now p.0) (tree_at store.now p.1)) (tree_at store.now p.2)) }
    ensures below { IfSome result (λ p. (p.0.0 < list.0) × (p.1.0 < list.0) × (p.2.0 < list.0)) }
    ensures none { result ≡ None → branch_list (tree_at store.now list) ≡ [] }
{
    match store.node(list) {
        Node::Cell(first, others) => match arm_of(store, first) {
            Some((pattern, body)) => Some((pattern, body, others)),
            None => None,
        },
        _ => None,
    }
}

// Appends the words of a list's branches.
fn push_branches(
    alloc: Global,
    x: &Source<'_>,
    words: &mut Vec<Vec<u8>>,
    list: TermId,
) -> Result<(), AllocError>
    requires held { Holds x.now.store.now list }
    requires lines { BranchLines x.now.store.now x.now.lines.now (tree_at x.now.store.now list) }
    ensures { OnOk result (PushesBranches x.now.store.now x.now.lines.now
        (tree_at x.now.store.now list) (words_of words.old.items) (words_of words.new.items)) }
{
    x.store.laws();
    let mut rest = list;
    while let Some((pattern, body, others)) = first_branch(x.store, rest) {
        let first = line_number(x.store, x.lines, pattern);
        let second = line_number(x.store, x.lines, body);
        push_numbers(alloc, words, &[first, second])?;
        rest = others;
    }
    Ok(())
}

/// The words of the line of a match, which are read back as it wherever the lines before it are those.
/// Only want of memory refuses.
pub(crate) fn match_words(
    alloc: Global,
    x: &Source<'_>,
    term: TermId,
    list: TermId,
) -> Result<Vec<Vec<u8>>, AllocError>
    requires term_held { Holds x.now.store.now term }
    requires list_held { Holds x.now.store.now list }
    requires term { sort_of (tree_at x.now.store.now term) ≡ Term }
    requires list { IsList Branch (tree_at x.now.store.now list) }
    requires line { HasLine x.now.store.now x.now.lines.now (tree_at x.now.store.now term) }
    requires lines { BranchLines x.now.store.now x.now.lines.now (tree_at x.now.store.now list) }
    ensures { IfOk result (λ v. ReadsBack x.now.store.now x.now.table.now x.now.lines.now
        (Two HCase (tree_at x.now.store.now term) (tree_at x.now.store.now list))
        (words_of v.items)) }
{
    x.store.laws();
    let mut words = one_word(alloc, x, b"match", term)?;
    push_branches(alloc, x, &mut words, list)?;
    Ok(words)
}
