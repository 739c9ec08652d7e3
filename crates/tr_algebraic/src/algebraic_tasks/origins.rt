// Where the propositions of a task with laws come from.
ghost use Rattle.std.specs.Prelude.{◌≡◌, ◌+◌, ◌≤◌, List, length, slice_get};
ghost use Rattle.tasks.specs.Task.{SymbolTree};
ghost use Rattle.tasks.specs.Meaning.{declarations_at};
ghost use Rattle.tr_algebraic.specs.algebraic_tasks.Origins.{placed_from, origins};

use crate::algebraic_forms::{LawKind, LawSearch, search_laws};
use tasks::{Body, Decl, Store};

/// A proposition of the old task, by its number, or a law of an algebraic type.
#[derive(Clone, Copy)]
pub enum PropositionOrigin {
    Proposition(usize),
    Law(LawKind),
}

/// Where the k-th proposition from here on comes from, where so many propositions of the old task are before these declarations;
/// none where there are not so many.
pub fn origin_of(store: &Store, decls: &[Decl], place: usize, k: usize) -> Option<PropositionOrigin>
    requires fits { place + length decls.now ≤ usize.MAX }
    ensures { (symbols : List SymbolTree) → result ≡ slice_get
        (origins (placed_from symbols place (declarations_at store.now decls.now))) k }
{
    match decls.split_first() {
        Some((first, rest)) => match &first.body {
            Body::Prop(_) => {
                if k == 0 {
                    return Some(PropositionOrigin::Proposition(place));
                }
                origin_of(store, rest, place + 1, k - 1)
            }
            Body::Algebraics(types) => match search_laws(store, types.as_slice(), k) {
                LawSearch::Here(kind) => Some(PropositionOrigin::Law(kind)),
                LawSearch::After(left) => origin_of(store, rest, place, left),
            },
            _ => origin_of(store, rest, place, k),
        },
        None => None,
    }
}
