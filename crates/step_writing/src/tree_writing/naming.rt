// Symbols written by their names, and the lines of types.
// They depend on names by symbols and on the words of numbers; the lines of terms depend on them.
ghost use Rattle.std.specs.Prelude.{◌≡◌, [], Some, All, IfOk, OnOk};
ghost use Rattle.tasks.specs.trees.Node.{tree_at, Holds};
ghost use Rattle.tasks.specs.trees.Sorts.{IsList};
ghost use Rattle.tasks.specs.trees.declared.Sort.TheVariants.{Kind};
ghost use Rattle.tasks.specs.Typing.{members};
ghost use Rattle.tasks.specs.Task.{TaskTree};
ghost use Rattle.step_lines.specs.tree_lines.Named.{named_type_at};
ghost use Rattle.step_lines.specs.tree_lines.Lines.{Earlier, type_of_line};
ghost use Rattle.step_writing.specs.tree_writing.Spelt.{IsSpelt};
ghost use Rattle.step_writing.specs.tree_writing.Referring.{words_of, HasLine, AreLines, ReferAll};
ghost use Rattle.step_writing.specs.tree_writing.Naming.{types_after, PushesSymbol, type_name, TypeSpelt, TypeLines, SourceHeld};

use crate::tree_writing::referring::{list_numbers, push_numbers};
use crate::tree_writing::spelling::SymbolNames;
use name_tables::{NameEntry, NameOf};
use std::alloc::{AllocError, Global};
use tasks::{Node, Store, TermId};

/// What a line is written from: the store, the table with its names, and the number of each tree's line by its number in
/// the store.
#[derive(Clone, Copy)]
pub(crate) struct Source<'a> {
    pub store: &'a Store,
    pub table: &'a [NameEntry],
    pub names: &'a SymbolNames,
    pub lines: &'a [Option<usize>],
}

// The numbers of the lines of the types that follow a name.
fn type_numbers(
    alloc: Global,
    x: &Source<'_>,
    list: TermId,
    whole: bool,
) -> Result<Vec<usize>, AllocError>
    requires held { Holds x.now.store.now list }
    requires lines { All (HasLine x.now.store.now x.now.lines.now)
        (members (tree_at x.now.store.now list)) }
    requires types { IsList Kind (tree_at x.now.store.now list) }
    ensures { IfOk result (λ v. ReferAll x.now.store.now x.now.lines.now Kind v.items
        (types_after whole (members (tree_at x.now.store.now list)))) }
{
    if whole {
        list_numbers(alloc, x.store, x.lines, list)
    } else {
        Ok(Vec::new(alloc))
    }
}

/// Appends a symbol's name, and the words of the types at which the name isn't.
pub(crate) fn push_symbol(
    alloc: Global,
    x: &Source<'_>,
    words: &mut Vec<Vec<u8>>,
    symbol: NameOf,
    list: TermId,
) -> Result<(), AllocError>
    requires source { SourceHeld x.now }
    requires held { Holds x.now.store.now list }
    requires lines { All (HasLine x.now.store.now x.now.lines.now)
        (members (tree_at x.now.store.now list)) }
    requires types { IsList Kind (tree_at x.now.store.now list) }
    requires spelt { IsSpelt x.now.table.now symbol (members (tree_at x.now.store.now list)) }
    ensures { OnOk result (PushesSymbol x.now.store.now x.now.table.now x.now.lines.now symbol
        (members (tree_at x.now.store.now list)) (words_of words.old.items)
        (words_of words.new.items)) }
{
    x.store.laws();
    let Some(spelling) = x.names.find_spelling(x.store, x.table, symbol, list) else {
        unreachable!()
    };
    let numbers = type_numbers(alloc, x, list, spelling.whole)?;
    words.push(Vec::from_slice(alloc, spelling.name)?)?;
    push_numbers(alloc, words, &numbers)
}

/// What a type symbol is in a table.
pub(crate) fn table_symbol(symbol: usize) -> NameOf
    ensures { result ≡ type_name symbol }
{
    if symbol == 0 {
        NameOf::Int
    } else {
        NameOf::Symbol(symbol)
    }
}

// The symbol of a type and the list of its types.
#[tactic(auto, using(crate::proofs::tree_writing::Reading::no_other_type, crate::proofs::tree_writing::Reading::rigid_same, crate::proofs::tree_writing::Reading::rigid_spelt, crate::proofs::tree_writing::Reading::app_same, crate::proofs::tree_writing::Reading::empty_list))]
fn type_parts(x: &Source<'_>, ty: TermId) -> (NameOf, TermId)
    requires source { SourceHeld x.now }
    requires held { Holds x.now.store.now ty }
    requires spelt { TypeSpelt x.now.table.now (tree_at x.now.store.now ty) }
    requires lines { TypeLines x.now.store.now x.now.lines.now (tree_at x.now.store.now ty) }
    ensures held { Holds x.now.store.now result.1 }
    ensures lines { All (HasLine x.now.store.now x.now.lines.now)
        (members (tree_at x.now.store.now result.1)) }
    ensures types { IsList Kind (tree_at x.now.store.now result.1) }
    ensures spelt { IsSpelt x.now.table.now result.0 (members (tree_at x.now.store.now result.1)) }
    ensures same { named_type_at result.0 (members (tree_at x.now.store.now result.1))
        ≡ Some (tree_at x.now.store.now ty) }
{
    x.store.laws();
    match x.store.node(ty) {
        Node::TyRigid(symbol) => (NameOf::Rigid(symbol), x.names.end),
        Node::TyApp(symbol, list) => (table_symbol(symbol), list),
        _ => unreachable!(),
    }
}

/// The words of the line of a type, which are read back as that type wherever the lines before it are those.
/// Only want of memory refuses.
pub(crate) fn type_words(
    alloc: Global,
    x: &Source<'_>,
    ty: TermId,
) -> Result<Vec<Vec<u8>>, AllocError>
    requires source { SourceHeld x.now }
    requires held { Holds x.now.store.now ty }
    requires spelt { TypeSpelt x.now.table.now (tree_at x.now.store.now ty) }
    requires lines { TypeLines x.now.store.now x.now.lines.now (tree_at x.now.store.now ty) }
    ensures { IfOk result (λ v. (t : TaskTree) (r : Earlier)
        → AreLines x.now.store.now x.now.lines.now r
        → type_of_line t x.now.table.now r (words_of v.items)
        ≡ Some (tree_at x.now.store.now ty)) }
{
    let (symbol, list) = type_parts(x, ty);
    let mut words = Vec::new(alloc);
    push_symbol(alloc, x, &mut words, symbol, list)?;
    Ok(words)
}
