// Closed terms that the store need not hold, and a body with one for its variable 0.
// They depend on the store and on the instance walk of binders; shapes depend on them.
ghost use Rattle.std.specs.Prelude.{◌≡◌, ◌↔◌, IsTrue};
ghost use Rattle.trees.specs.Node.{tree_at, Holds};
ghost use Rattle.trees.specs.Binding.{Bound, instantiating};
ghost use Rattle.rules.specs.Terms.{term_at, TermHeld};

use trees::binders::Put;
use trees::store::Store;
use trees::{Node, TermId};

/// A held term, or a parameter of a type. It is closed.
#[derive(Clone, Copy)]
pub enum Term {
    Held(TermId),
    Param(usize, TermId),
}

// Whether a tree is a term.
fn is_term(store: &Store, term: Term, id: TermId) -> bool
    requires term { TermHeld store.now term }
    requires held { Holds store.now id }
    ensures { IsTrue result ↔ (tree_at store.now id ≡ term_at store.now term) }
{
    match term {
        Term::Held(known) => store.same(id, known),
        Term::Param(number, ty) => match store.node(id) {
            Node::Param(found, known) => found == number && store.same(known, ty),
            _ => false,
        },
    }
}

// Whether a tree is the variable of an index and a type.
fn is_variable(store: &Store, id: TermId, index: usize, ty: TermId) -> bool
    requires held { Holds store.now id }
    requires ty_held { Holds store.now ty }
    ensures { IsTrue result ↔ (tree_at store.now id ≡ Bound index (tree_at store.now ty)) }
{
    match store.node(id) {
        Node::Bound(found, known) => found == index && store.same(known, ty),
        _ => false,
    }
}

impl Put for Term {
    ghost change_over = { λ v s. instantiating (term_at s v) };

    ghost Ready = { λ v s. TermHeld s v };

    fn is_put(&self, s: &Store, e: TermId, depth: usize, made: TermId) -> Option<bool> {
        if s.loose(e) <= depth {
            return Some(s.same(made, e));
        }
        match s.node(e) {
            Node::Bound(index, ty) => {
                if index == depth {
                    Some(is_term(s, *self, made))
                } else {
                    Some(is_variable(s, made, index - 1, ty))
                }
            }
            _ => None,
        }
    }
}
