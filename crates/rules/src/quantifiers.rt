// The rows of quantifiers.
// They depend on what premises add; the checker of a step depends on them.
ghost use Rattle.std.specs.Prelude.{◌≡◌, ◌↔◌, [], ◌∷◌, IsTrue, IfSome, All, false};
ghost use Rattle.std.specs.Option.{option_map};
ghost use Rattle.trees.specs.Tree.{loose};
ghost use Rattle.trees.specs.Node.{tree_at, Holds};
ghost use Rattle.trees.specs.Binding.{inst};
ghost use Rattle.tasks.specs.Meaning.{trees_at};
ghost use Rattle.rules.specs.Rows.{Adds, IsNew, AtTerm, AtNew, signed};
ghost use Rattle.rules.specs.Terms.{term_at, TermHeld};
ghost use Rattle.rules.specs.Meaning.{sequent_of, premises_of, TriedHeld, pair_at, PairHeld};

use crate::apart::has_type;
use crate::shape::{Instance, Not};
use crate::term::Term;
use crate::tried::{Tried, adds_one};
use trees::TermId;
use trees::binders::has_param;
use trees::store::Store;

// Whether the one premise adds a body with a term put in, as it is or negated.
fn adds_put(x: &Tried<'_>, body: TermId, term: Term, sign: bool) -> bool
    requires tried { TriedHeld x.now }
    requires body_held { Holds x.now.store.now body }
    requires term { TermHeld x.now.store.now term }
    ensures { IsTrue result ↔ Adds (sequent_of x.now) (premises_of x.now)
        ((signed sign (inst (tree_at x.now.store.now body) (term_at x.now.store.now term)) ∷ [])
        ∷ []) }
{
    if sign {
        adds_one(x, &Instance { body, term })
    } else {
        adds_one(x, &Not(Instance { body, term }))
    }
}

/// The body of a quantifier at a term of its type.
pub fn at_term(
    x: &Tried<'_>,
    quantifier: Option<(TermId, TermId)>,
    term: TermId,
    sign: bool,
) -> bool
    requires tried { TriedHeld x.now }
    requires quantifier { IfSome quantifier (PairHeld x.now.store.now) }
    requires term { TermHeld x.now.store.now (Term.Held term) }
    ensures { IsTrue result ↔ AtTerm (option_map (pair_at x.now.store.now) quantifier)
        (sequent_of x.now) (tree_at x.now.store.now term) sign (premises_of x.now) }
{
    match quantifier {
        Some((ty, body)) => has_type(x.store, term, ty)
            && adds_put(x, body, Term::Held(term), sign),
        None => false,
    }
}

// Whether no formula has a parameter of this number.
fn is_new(store: &Store, sequent: &[TermId], number: usize) -> bool
    requires { All (Holds store.now) sequent.now }
    ensures { IsTrue result ↔ IsNew number (trees_at store.now sequent.now) }
{
    for formula in sequent {
        if has_param(store, *formula, number) {
            return false;
        }
    }
    true
}

/// The body of a quantifier at a parameter that the sequent doesn't have.
pub fn at_new(
    x: &Tried<'_>,
    quantifier: Option<(TermId, TermId)>,
    number: usize,
    sign: bool,
) -> bool
    requires tried { TriedHeld x.now }
    requires quantifier { IfSome quantifier (PairHeld x.now.store.now) }
    requires closed { IfSome quantifier (λ p. loose (tree_at x.now.store.now p.0) ≡ 0) }
    ensures { IsTrue result ↔ AtNew (option_map (pair_at x.now.store.now) quantifier)
        (sequent_of x.now) number sign (premises_of x.now) }
{
    match quantifier {
        Some((ty, body)) => is_new(x.store, x.sequent, number)
            && adds_put(x, body, Term::Param(number, ty), sign),
        None => false,
    }
}
