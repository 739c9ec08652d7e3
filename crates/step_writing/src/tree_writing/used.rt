// The lines of patterns, and of symbols on terms.
// They depend on symbols written by their names and on plain lines; the writer of lines depends on them.
ghost use Rattle.std.specs.Prelude.{All, IfOk, OnOk};
ghost use Rattle.tasks.specs.trees.Node.{tree_at, Holds};
ghost use Rattle.tasks.specs.trees.Sorts.{IsList};
ghost use Rattle.tasks.specs.trees.declared.Sort.TheVariants.{Kind};
ghost use Rattle.tasks.specs.Typing.{members};
ghost use Rattle.name_tables.specs.declared.name_entries.names.NameOf.TheVariants.{Symbol};
ghost use Rattle.step_writing.specs.tree_writing.Spelt.{IsSpelt};
ghost use Rattle.step_writing.specs.tree_writing.Referring.{words_of, HasLine};
ghost use Rattle.step_writing.specs.tree_writing.Naming.{SourceHeld};
ghost use Rattle.step_writing.specs.tree_writing.Used.{PushesParts, AreUseWords, IsNamed, NodeLines, HasPatternForm, IsApplied, PatternBack, ExpressionBack};

use crate::tree_writing::naming::{Source, push_symbol};
use crate::tree_writing::plain::one_word;
use crate::tree_writing::referring::{list_numbers, push_numbers};
use name_tables::NameOf;
use std::alloc::{AllocError, Global};
use tasks::{Node, TermId};

// Appends the words of a list's members.
fn push_parts(
    alloc: Global,
    x: &Source<'_>,
    words: &mut Vec<Vec<u8>>,
    list: TermId,
) -> Result<(), AllocError>
    requires held { Holds x.now.store.now list }
    requires lines { All (HasLine x.now.store.now x.now.lines.now)
        (members (tree_at x.now.store.now list)) }
    ensures { OnOk result (PushesParts x.now.store.now x.now.lines.now
        (tree_at x.now.store.now list) (words_of words.old.items) (words_of words.new.items)) }
{
    let numbers = list_numbers(alloc, x.store, x.lines, list)?;
    push_numbers(alloc, words, &numbers)
}

// The words of a symbol at types on parts.
fn use_words(
    alloc: Global,
    x: &Source<'_>,
    word: &[u8],
    symbol: usize,
    types: TermId,
    parts: TermId,
) -> Result<Vec<Vec<u8>>, AllocError>
    requires source { SourceHeld x.now }
    requires types_held { Holds x.now.store.now types }
    requires parts_held { Holds x.now.store.now parts }
    requires types { IsList Kind (tree_at x.now.store.now types) }
    requires spelt { IsSpelt x.now.table.now (Symbol symbol)
        (members (tree_at x.now.store.now types)) }
    requires type_lines { All (HasLine x.now.store.now x.now.lines.now)
        (members (tree_at x.now.store.now types)) }
    requires part_lines { All (HasLine x.now.store.now x.now.lines.now)
        (members (tree_at x.now.store.now parts)) }
    ensures { IfOk result (λ v. AreUseWords x.now.store.now x.now.table.now x.now.lines.now
        word.now symbol (tree_at x.now.store.now types) (tree_at x.now.store.now parts)
        (words_of v.items)) }
{
    let mut words = Vec::new(alloc);
    words.push(Vec::from_slice(alloc, word)?)?;
    push_symbol(alloc, x, &mut words, NameOf::Symbol(symbol), types)?;
    push_parts(alloc, x, &mut words, parts)?;
    Ok(words)
}

/// The words of the line of a pattern, which are read back as it wherever the lines before it are those.
/// Only want of memory refuses.
pub(crate) fn pattern_words(
    alloc: Global,
    x: &Source<'_>,
    id: TermId,
) -> Result<Vec<Vec<u8>>, AllocError>
    requires source { SourceHeld x.now }
    requires held { Holds x.now.store.now id }
    requires pattern { HasPatternForm (tree_at x.now.store.now id) }
    requires named { IsNamed x.now.table.now (tree_at x.now.store.now id) }
    requires lines { NodeLines x.now.store.now x.now.lines.now (tree_at x.now.store.now id) }
    ensures { IfOk result (λ v. PatternBack x.now.store.now x.now.table.now x.now.lines.now
        (tree_at x.now.store.now id) (words_of v.items)) }
{
    x.store.laws();
    match x.store.node(id) {
        Node::PatAny(ty) => one_word(alloc, x, b"any", ty),
        Node::PatVar(ty) => one_word(alloc, x, b"var", ty),
        Node::PatAlias(a) => one_word(alloc, x, b"as", a),
        Node::PatCon(symbol, types, parts, _) => use_words(alloc, x, b"con", symbol, types, parts),
        _ => unreachable!(),
    }
}

/// The words of the line of a symbol on terms, which are read back as it wherever the lines before it are those.
/// Only want of memory refuses.
pub(crate) fn applied_words(
    alloc: Global,
    x: &Source<'_>,
    id: TermId,
) -> Result<Vec<Vec<u8>>, AllocError>
    requires source { SourceHeld x.now }
    requires held { Holds x.now.store.now id }
    requires applied { IsApplied (tree_at x.now.store.now id) }
    requires named { IsNamed x.now.table.now (tree_at x.now.store.now id) }
    requires lines { NodeLines x.now.store.now x.now.lines.now (tree_at x.now.store.now id) }
    ensures { IfOk result (λ v. ExpressionBack x.now.store.now x.now.table.now x.now.lines.now
        (tree_at x.now.store.now id) (words_of v.items)) }
{
    x.store.laws();
    match x.store.node(id) {
        Node::Fun(symbol, types, parts, _) => use_words(alloc, x, b"sym", symbol, types, parts),
        Node::Pred(symbol, types, parts) => use_words(alloc, x, b"sym", symbol, types, parts),
        _ => unreachable!(),
    }
}
