// The constructors of tuples among the entries of a signature.
ghost use Rattle.std.specs.Prelude.{◌≡◌, List};
ghost use Rattle.trees.specs.Tree.{Tree};
ghost use Rattle.tasks.specs.Vocabulary.{is_constructor_kind};
ghost use Rattle.tasks.specs.Meaning.{symbol_at, symbols_at};
ghost use Rattle.tasks.specs.Entries.{is_tuple, tuple_in};

use crate::{SymbolInfo, SymbolKind};

/// Whether an entry of this kind is a constructor.
pub fn is_constructor_kind(kind: SymbolKind) -> bool
    ensures { result ≡ is_constructor_kind kind }
{
    match kind {
        SymbolKind::Constructor => true,
        SymbolKind::Kind | SymbolKind::Function => false,
        SymbolKind::Predicate | SymbolKind::Projection => false,
    }
}

/// Whether an entry is a constructor of tuples of a width.
pub fn is_tuple(info: &SymbolInfo, width: usize) -> bool
    ensures { (s : List Tree) → is_tuple width (symbol_at s info.now) ≡ result }
{
    is_constructor_kind(info.kind)
        && info.theory.as_slice() == b"BuiltIn".as_slice()
        && info.vars == width
        && info.args.len() == width
}

/// The first constructor of tuples of a width among the entries of a signature.
pub fn tuple_among(symbols: &[SymbolInfo], width: usize) -> Option<usize>
    ensures { (s : List Tree) → tuple_in (symbols_at s symbols.now) width ≡ result }
{
    for (number, info) in symbols.iter().enumerate() {
        if is_tuple(info, width) {
            return Some(number);
        }
    }
    None
}
