// All lines of trees: one for each part that is a type, a pattern, a term or a formula, before those that refer to it.
// They depend on the words of one line and on marks; nothing else of this crate depends on them.
ghost use Rattle.std.specs.Prelude.{◌≡◌, ◌<◌, ◌+◌, ◌++◌, ◌∷◌, [], ◌↔◌, ◌⊎◌, length, All, IsTrue, IfOk, OnOk, IfSome, IfNone};
ghost use Rattle.tasks.specs.trees.Node.{tree_at, Holds};
ghost use Rattle.tasks.specs.trees.Sorts.{sort_of};
ghost use Rattle.tasks.specs.Meaning.{trees_at};
ghost use Rattle.step_writing.specs.tree_writing.Spelt.{AreNamesOf};
ghost use Rattle.step_writing.specs.tree_writing.Referring.{words_of};
ghost use Rattle.step_writing.specs.tree_writing.Naming.{SourceHeld};
ghost use Rattle.step_writing.specs.tree_writing.Text.{line_text};
ghost use Rattle.step_writing.specs.tree_writing.Whole.{kind_of_sort, IsOfKind, letter, TopNamed, KindLines, LineBack, count_of, CountsLine, IsWritten, HaveLines, LacksName, TreesHeld, IsWritingOf, IsNextLine, next_tree};
ghost use Rattle.step_writing.specs.declared.tree_writing.writer.LineKind.{LineKind};

use crate::tree_writing::expressions::expression_words;
use crate::tree_writing::marking::mark_trees;
use crate::tree_writing::naming::{Source, table_symbol, type_words};
use crate::tree_writing::spelling::SymbolNames;
use crate::tree_writing::used::pattern_words;
use name_tables::{NameEntry, NameOf};
use std::alloc::{AllocError, Global};
use tasks::{Node, Sort, Store, TermId};

/// What a line makes.
#[derive(Clone, Copy)]
pub enum LineKind {
    Type,
    Pattern,
    Expression,
}

/// The text of the lines of trees, and the number of each tree's line by its number in the store.
#[derive(Drop)]
pub struct WrittenLines {
    pub text: Vec<u8>,
    pub numbers: Vec<Option<usize>>,
}

// What is written: the trees that are in these, as they are marked, by the names of a table.
#[derive(Clone, Copy)]
pub(crate) struct Trees<'a> {
    store: &'a Store,
    table: &'a [NameEntry],
    names: &'a SymbolNames,
    roots: &'a [TermId],
    marks: &'a [bool],
}

// What was written so far, with the number of lines of each kind.
#[derive(Drop)]
pub(crate) struct Writing {
    text: Vec<u8>,
    numbers: Vec<Option<usize>>,
    types: usize,
    patterns: usize,
    expressions: usize,
}

// What the line of a tree makes; none for a list and a branch, which have no line.
fn kind_of(store: &Store, id: TermId) -> Option<LineKind>
    requires { Holds store.now id }
    ensures { result ≡ kind_of_sort (sort_of (tree_at store.now id)) }
{
    match store.sort(id) {
        Sort::Kind => Some(LineKind::Type),
        Sort::Pattern => Some(LineKind::Pattern),
        Sort::Term | Sort::Formula => Some(LineKind::Expression),
        Sort::List | Sort::Branch => None,
    }
}

// Whether the symbol at the top of a tree has a name.
fn has_name(store: &Store, names: &SymbolNames, table: &[NameEntry], id: TermId) -> bool
    requires names { AreNamesOf store.now table.now names.now }
    requires held { Holds store.now id }
    ensures { IsTrue result ↔ TopNamed table.now (tree_at store.now id) }
{
    store.laws();
    match store.node(id) {
        Node::TyVar(_) => false,
        Node::TyRigid(k) => names
            .find_spelling(store, table, NameOf::Rigid(k), names.end)
            .is_some(),
        Node::TyApp(k, list) => names
            .find_spelling(store, table, table_symbol(k), list)
            .is_some(),
        Node::Fun(k, list, _, _) => names
            .find_spelling(store, table, NameOf::Symbol(k), list)
            .is_some(),
        Node::Pred(k, list, _) => names
            .find_spelling(store, table, NameOf::Symbol(k), list)
            .is_some(),
        Node::PatCon(k, list, _, _) => names
            .find_spelling(store, table, NameOf::Symbol(k), list)
            .is_some(),
        _ => true,
    }
}

// The words of the line of a tree.
fn tree_words(
    alloc: Global,
    x: &Source<'_>,
    kind: LineKind,
    id: TermId,
) -> Result<Vec<Vec<u8>>, AllocError>
    requires source { SourceHeld x.now }
    requires held { Holds x.now.store.now id }
    requires kind { IsOfKind kind (tree_at x.now.store.now id) }
    requires named { TopNamed x.now.table.now (tree_at x.now.store.now id) }
    requires lines { KindLines x.now.store.now x.now.lines.now kind (tree_at x.now.store.now id) }
    ensures { IfOk result (λ v. LineBack x.now.store.now x.now.table.now x.now.lines.now kind
        (tree_at x.now.store.now id) (words_of v.items)) }
{
    x.store.laws();
    match kind {
        LineKind::Type => type_words(alloc, x, id),
        LineKind::Pattern => pattern_words(alloc, x, id),
        LineKind::Expression => expression_words(alloc, x, id),
    }
}

/// Appends a line of words.
pub fn push_line(text: &mut Vec<u8>, first: u8, words: &[Vec<u8>]) -> Result<(), AllocError>
    ensures { OnOk result (text.new.items ≡ text.old.items ++ line_text (first ∷ [])
        (words_of words.now)) }
{
    text.push(first)?;
    for word in words {
        text.push(b' ')?;
        text.extend_from_slice(word)?;
    }
    text.push(b'\n')?;
    Ok(())
}

// The letter of a line.
fn letter(kind: LineKind) -> u8
    ensures { result ∷ [] ≡ letter kind }
{
    match kind {
        LineKind::Type => b'y',
        LineKind::Pattern => b'p',
        LineKind::Expression => b'e',
    }
}

// How many lines of a kind there are.
fn count(w: &Writing, kind: LineKind) -> usize
    ensures { result ≡ count_of kind w.now }
{
    match kind {
        LineKind::Type => w.types,
        LineKind::Pattern => w.patterns,
        LineKind::Expression => w.expressions,
    }
}

// Counts a line of a kind.
fn add_one(w: &mut Writing, kind: LineKind)
    requires { count_of kind w.old < length w.old.numbers.items }
    ensures { CountsLine kind w.old w.new }
{
    match kind {
        LineKind::Type => w.types += 1,
        LineKind::Pattern => w.patterns += 1,
        LineKind::Expression => w.expressions += 1,
    }
}

// Writes the line of the next tree, whose parts have been written.
fn write_tree(
    alloc: Global,
    x: &Trees<'_>,
    w: &mut Writing,
    kind: LineKind,
) -> Result<(), AllocError>
    requires trees { TreesHeld x.now }
    requires writing { IsWritingOf x.now w.old }
    requires next { IsNextLine x.now (length w.old.numbers.items) kind }
    requires named { TopNamed x.now.table.now (next_tree x.now w.old) }
    ensures writing { OnOk result (IsWritingOf x.now w.new) }
    ensures longer { OnOk result (length w.new.numbers.items ≡ length w.old.numbers.items + 1) }
{
    x.store.laws();
    let id = TermId(w.numbers.len());
    let source = Source {
        store: x.store,
        table: x.table,
        names: x.names,
        lines: &w.numbers,
    };
    let words = tree_words(alloc, &source, kind, id)?;
    push_line(&mut w.text, letter(kind), &words)?;
    let number = count(w, kind);
    w.numbers.push(Some(number))?;
    add_one(w, kind);
    Ok(())
}

// Passes over the next tree, which has no line.
fn skip(x: &Trees<'_>, w: &mut Writing) -> Result<(), AllocError>
    requires writing { IsWritingOf x.now w.old }
    requires none { (k : LineKind) → IsNextLine x.now (length w.old.numbers.items) k → ⊥ }
    ensures writing { OnOk result (IsWritingOf x.now w.new) }
    ensures longer { OnOk result (length w.new.numbers.items ≡ length w.old.numbers.items + 1) }
{
    let _ = x;
    w.numbers.push(None)?;
    Ok(())
}

// What the line of a tree makes, where it is marked and has one.
fn next_kind(x: &Trees<'_>, i: usize) -> Option<LineKind>
    requires trees { TreesHeld x.now }
    requires within { i < length x.now.marks.now }
    ensures some { IfSome result (IsNextLine x.now i) }
    ensures none { IfNone result ((k : LineKind) → IsNextLine x.now i k → ⊥) }
{
    if x.marks[i] {
        kind_of(x.store, TermId(i))
    } else {
        None
    }
}

// Writes the next tree, if it has a line; not where it has no name.
fn write_next(alloc: Global, x: &Trees<'_>, w: &mut Writing) -> Result<bool, AllocError>
    requires trees { TreesHeld x.now }
    requires writing { IsWritingOf x.now w.old }
    requires within { length w.old.numbers.items < length x.now.marks.now }
    ensures writing { IfOk result (λ b. IsTrue b → IsWritingOf x.now w.new) }
    ensures longer { IfOk result (λ b. IsTrue b
        → length w.new.numbers.items ≡ length w.old.numbers.items + 1) }
    ensures lacks { IfOk result (λ b. IsTrue b
        ⊎ LacksName x.now.table.now (trees_at x.now.store.now x.now.roots.now)) }
{
    let i = w.numbers.len();
    let Some(kind) = next_kind(x, i) else {
        skip(x, w)?;
        return Ok(true);
    };
    if !has_name(x.store, x.names, x.table, TermId(i)) {
        return Ok(false);
    }
    write_tree(alloc, x, w, kind)?;
    Ok(true)
}

// Writes all marked trees; none where one has no name.
fn write_marked(alloc: Global, x: &Trees<'_>) -> Result<Option<Writing>, AllocError>
    requires { TreesHeld x.now }
    ensures some { IfOk result (λ o. IfSome o (λ w. IsWritingOf x.now w)) }
    ensures all { IfOk result (λ o. IfSome o (λ w.
        length w.numbers.items ≡ length x.now.marks.now)) }
    ensures none { IfOk result (λ o. IfNone o
        (LacksName x.now.table.now (trees_at x.now.store.now x.now.roots.now))) }
{
    let mut w = Writing {
        text: Vec::new(alloc),
        numbers: Vec::new(alloc),
        types: 0,
        patterns: 0,
        expressions: 0,
    };
    while w.numbers.len() < x.marks.len() {
        if !write_next(alloc, x, &mut w)? {
            return Ok(None);
        }
    }
    Ok(Some(w))
}

/// The lines of trees with all their parts, each once and before those that refer to it; none where a part has no name.
/// Only want of memory refuses.
pub fn written_trees(
    alloc: Global,
    store: &Store,
    names: &SymbolNames,
    table: &[NameEntry],
    roots: &[TermId],
) -> Result<Option<WrittenLines>, AllocError>
    requires names { AreNamesOf store.now table.now names.now }
    requires held { All (Holds store.now) roots.now }
    ensures written { IfOk result (λ o. IfSome o (λ w. IsWritten store.now table.now
        (trees_at store.now roots.now) w.text.items w.numbers.items)) }
    ensures lines { IfOk result (λ o. IfSome o (λ w. HaveLines store.now w.numbers.items
        (trees_at store.now roots.now))) }
    ensures none { IfOk result (λ o. IfNone o
        (LacksName table.now (trees_at store.now roots.now))) }
{
    let marks = mark_trees(alloc, store, roots)?;
    let x = Trees {
        store,
        table,
        names,
        roots,
        marks: &marks,
    };
    match write_marked(alloc, &x)? {
        Some(w) => {
            let Writing {
                text,
                numbers,
                types: _,
                patterns: _,
                expressions: _,
            } = w;
            Ok(Some(WrittenLines { text, numbers }))
        }
        None => Ok(None),
    }
}
