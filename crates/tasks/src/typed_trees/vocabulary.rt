// What typing may name: the symbols of a task, by a look-up, or those of a signature.
// It depends on look-ups; all that is typed is typed over it.
ghost use Rattle.std.specs.Prelude.{◌≡◌, IsTrue, ◌↔◌, IfSome};
ghost use Rattle.std.specs.Option.{option_map};
ghost use Rattle.tasks.specs.Typing.{entry};
ghost use Rattle.tasks.specs.Vocabulary.{is_empty};
ghost use Rattle.tasks.specs.Meaning.{symbol_at, SymbolHeld};
ghost use Rattle.tasks.specs.typed_trees.Named.{vocabulary_at, VocabularyHeld};

use crate::{Lookup, Signature, SymbolInfo, SymbolKind, is_constructor};
use trees::store::Store;

/// What typing may name.
#[derive(Clone, Copy)]
pub enum Vocabulary<'a> {
    /// The symbols that a task declares; in patterns, the constructors of its algebraic declarations.
    OfTask(&'a Lookup<'a>),
    /// All entries of a signature; in patterns, its constructors. Those without a theory are type variables of a goal.
    OfSignature(&'a Signature),
}

// The entry of a symbol.
pub(crate) fn entry<'a>(store: &Store, v: &Vocabulary<'a>, symbol: usize) -> Option<&'a SymbolInfo>
    requires { VocabularyHeld store.now v.now }
    ensures tree { option_map (λ i. symbol_at store.now i.now) result
        ≡ entry (vocabulary_at store.now v.now) symbol }
    ensures held { IfSome result (λ i. SymbolHeld store.now i.now) }
{
    let _ = store;
    match v {
        Vocabulary::OfTask(look) => look.task.sig.symbols.get(symbol),
        Vocabulary::OfSignature(signature) => signature.symbols.get(symbol),
    }
}

// Whether an entry has no theory.
fn has_no_theory(info: &SymbolInfo) -> bool
    ensures { result ≡ is_empty info.now.theory }
{
    info.theory.as_slice().is_empty()
}

// Whether a symbol is a type variable of a goal.
pub(crate) fn is_rigid_symbol(store: &Store, v: &Vocabulary<'_>, symbol: usize) -> bool
    ensures { result ≡ (vocabulary_at store.now v.now).rigid symbol }
{
    match v {
        Vocabulary::OfTask(look) => look.is_rigid(store, symbol),
        Vocabulary::OfSignature(signature) => match signature.symbols.get(symbol) {
            Some(info) => has_no_theory(info),
            None => false,
        },
    }
}

// Whether types, terms and formulas may name a symbol.
pub(crate) fn is_usable(store: &Store, v: &Vocabulary<'_>, symbol: usize) -> bool
    requires { VocabularyHeld store.now v.now }
    ensures { result ≡ (vocabulary_at store.now v.now).usable symbol }
{
    match v {
        Vocabulary::OfTask(look) => symbol == 0 || look.is_made(store, symbol),
        Vocabulary::OfSignature(signature) => match signature.symbols.get(symbol) {
            Some(info) => !has_no_theory(info),
            None => false,
        },
    }
}

// Whether patterns may name a symbol.
pub(crate) fn is_matched(store: &Store, v: &Vocabulary<'_>, symbol: usize) -> bool
    requires { VocabularyHeld store.now v.now }
    ensures { result ≡ (vocabulary_at store.now v.now).matched symbol }
{
    match v {
        Vocabulary::OfTask(look) => is_constructor(store, look.role(store, symbol)),
        Vocabulary::OfSignature(signature) => match signature.symbols.get(symbol) {
            Some(info) => info.kind == SymbolKind::Constructor,
            None => false,
        },
    }
}
