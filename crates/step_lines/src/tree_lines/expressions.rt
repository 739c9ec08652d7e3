// The lines of terms and formulas.
// They depend on uses and on the trees of words; the reader of lines depends on them.
ghost use Rattle.std.specs.Prelude.{◌≡◌, length, map, Some, IfOk, IfSome};
ghost use Rattle.std.specs.Option.{option_map};
ghost use Rattle.trees.specs.Tree.{Two, HCell};
ghost use Rattle.trees.specs.Node.{tree_at, node_tree, parts_of, Holds, AreBelow, Grows};
ghost use Rattle.tasks.specs.Meaning.{task_at};
ghost use Rattle.step_lines.specs.tree_lines.Words.{texts};
ghost use Rattle.step_lines.specs.tree_lines.Named.{cells};
ghost use Rattle.step_lines.specs.tree_lines.Lines.{match_tree, match_by_words, plain_by, expression_by, expression_of_line};
ghost use Rattle.step_lines.specs.declared.tree_lines.kinds.NodeWord.TheVariants.{Sym};
ghost use Rattle.step_lines.specs.tree_lines.Made.{IsTreeMade, KnownHeld, branch_at, earlier_at, pairs_in, PairsHeld};

use crate::tree_lines::forms::{
    if_node, integer_node, lone_node, one_node, two_node, variable_node,
};
use crate::tree_lines::kinds::{NodeWord, find_expression_word};
use crate::tree_lines::known::{EarlierLines, pairs_at, thing};
use crate::tree_lines::nodes::{add_node, tree_of};
use crate::tree_lines::uses::{tree_of_use, use_of_words};
use std::alloc::{AllocError, Global};
use trees::store::{Grow, Node, Store, TermId};

// A list with a branch more; none where it doesn't fit.
fn add_branch(
    store: &mut Store,
    branch: (TermId, TermId),
    list: TermId,
) -> Result<Option<TermId>, AllocError>
    requires pattern { Holds store.old branch.0 }
    requires body { Holds store.old branch.1 }
    requires list { Holds store.old list }
    ensures made { IfOk result (IsTreeMade store.new
        (Some (Two HCell (branch_at store.old branch) (tree_at store.old list)))) }
    ensures grows { Grows store.old store.new }
{
    match add_node(store, Node::Arm(branch.0, branch.1))? {
        Some(arm) => add_node(store, Node::Cell(arm, list)),
        None => Ok(None),
    }
}

// The list of branches; none where they don't fit.
fn branch_list(
    store: &mut Store,
    branches: &[(TermId, TermId)],
) -> Result<Option<TermId>, AllocError>
    requires { PairsHeld store.old branches.now }
    ensures made { IfOk result (IsTreeMade store.new
        (Some (cells (map (branch_at store.old) branches.now)))) }
    ensures grows { Grows store.old store.new }
{
    let mut list = store.add(Node::End)?;
    let mut i = branches.len();
    while i > 0 {
        i -= 1;
        match add_branch(store, branches[i], list)? {
            Some(longer) => list = longer,
            None => return Ok(None),
        }
    }
    Ok(Some(list))
}

// The term or formula of a match on a term, by its branches.
fn case_of_branches(
    store: &mut Store,
    scrutinee: TermId,
    branches: &[(TermId, TermId)],
) -> Result<Option<TermId>, AllocError>
    requires scrutinee { Holds store.old scrutinee }
    requires branches { PairsHeld store.old branches.now }
    ensures made { IfOk result (IsTreeMade store.new
        (Some (match_tree (tree_at store.old scrutinee) (pairs_in store.old branches.now)))) }
    ensures grows { Grows store.old store.new }
{
    match branch_list(store, branches)? {
        Some(list) => add_node(store, Node::Case(scrutinee, list)),
        None => Ok(None),
    }
}

// The term or formula of a match, by its words.
fn match_of_words(
    alloc: Global,
    store: &mut Store,
    x: &EarlierLines<'_>,
    words: &[&[u8]],
) -> Result<Option<TermId>, AllocError>
    requires { KnownHeld store.old x.now }
    ensures made { IfOk result (IsTreeMade store.new
        (match_by_words (task_at store.old x.now.task.now) x.now.table.now
        (earlier_at store.old x.now) (texts words.now))) }
    ensures grows { Grows store.old store.new }
{
    let [first, rest @ ..] = words else {
        return Ok(None);
    };
    let Some(scrutinee) = thing(store, x.expressions, first) else {
        return Ok(None);
    };
    match pairs_at(alloc, store, x.patterns, x.expressions, rest)? {
        Some(branches) => case_of_branches(store, scrutinee, &branches),
        None => Ok(None),
    }
}

// The term or formula of a symbol.
fn expression_of_symbol(
    alloc: Global,
    store: &mut Store,
    x: &EarlierLines<'_>,
    words: &[&[u8]],
) -> Result<Option<TermId>, AllocError>
    requires { KnownHeld store.old x.now }
    ensures made { IfOk result (IsTreeMade store.new
        (expression_by (task_at store.old x.now.task.now) x.now.table.now
        (earlier_at store.old x.now) Sym (texts words.now))) }
    ensures grows { Grows store.old store.new }
{
    match use_of_words(alloc, store, x, x.expressions, words)? {
        Some(used) => tree_of_use(alloc, store, &used),
        None => Ok(None),
    }
}

// The node of a word other than `sym` and `match`.
fn plain_node(store: &Store, x: &EarlierLines<'_>, word: NodeWord, words: &[&[u8]]) -> Option<Node>
    requires { KnownHeld store.now x.now }
    ensures tree { option_map (node_tree store.now) result
        ≡ plain_by (task_at store.now x.now.task.now) x.now.table.now (earlier_at store.now x.now)
        word (texts words.now) }
    ensures below { IfSome result (λ n. AreBelow (length store.now) (parts_of n)) }
{
    match word {
        NodeWord::Bound | NodeWord::Param => variable_node(store, word, x.types, words),
        NodeWord::Num => integer_node(store, words),
        NodeWord::True => lone_node(store, Node::True, words),
        NodeWord::False => lone_node(store, Node::False, words),
        NodeWord::Not => one_node(store, word, x.expressions, words),
        NodeWord::Forall | NodeWord::Exists => {
            two_node(store, word, x.types, x.expressions, words)
        }
        NodeWord::If => if_node(store, x.expressions, words),
        _ => two_node(store, word, x.expressions, x.expressions, words),
    }
}

// The term or formula of a word other than `sym` and `match`.
fn plain_expression(
    store: &mut Store,
    x: &EarlierLines<'_>,
    word: NodeWord,
    words: &[&[u8]],
) -> Result<Option<TermId>, AllocError>
    requires { KnownHeld store.old x.now }
    ensures made { IfOk result (IsTreeMade store.new
        (plain_by (task_at store.old x.now.task.now) x.now.table.now
        (earlier_at store.old x.now) word (texts words.now))) }
    ensures grows { Grows store.old store.new }
{
    let node = plain_node(store, x, word, words);
    tree_of(store, node)
}

// The term or formula of a word.
fn expression_of_word(
    alloc: Global,
    store: &mut Store,
    x: &EarlierLines<'_>,
    word: NodeWord,
    words: &[&[u8]],
) -> Result<Option<TermId>, AllocError>
    requires { KnownHeld store.old x.now }
    ensures made { IfOk result (IsTreeMade store.new
        (expression_by (task_at store.old x.now.task.now) x.now.table.now
        (earlier_at store.old x.now) word (texts words.now))) }
    ensures grows { Grows store.old store.new }
{
    match word {
        NodeWord::Sym => expression_of_symbol(alloc, store, x, words),
        NodeWord::Match => match_of_words(alloc, store, x, words),
        _ => plain_expression(store, x, word, words),
    }
}

/// The term or formula of a line `e`, by the words after that letter; none where they make none, or one whose parts don't
/// fit. Only want of memory refuses.
pub fn line_expression(
    alloc: Global,
    store: &mut Store,
    x: &EarlierLines<'_>,
    words: &[&[u8]],
) -> Result<Option<TermId>, AllocError>
    requires { KnownHeld store.old x.now }
    ensures made { IfOk result (IsTreeMade store.new
        (expression_of_line (task_at store.old x.now.task.now) x.now.table.now
        (earlier_at store.old x.now) (texts words.now))) }
    ensures grows { Grows store.old store.new }
{
    let [kind, rest @ ..] = words else {
        return Ok(None);
    };
    match find_expression_word(kind) {
        Some(word) => expression_of_word(alloc, store, x, word, rest),
        None => Ok(None),
    }
}
