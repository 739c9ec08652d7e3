// The rows of constructors and projections: `distinct`, `inject` and `project`.
// They depend on what premises add; the checker of a step depends on them.
ghost use Rattle.std.specs.Prelude.{◌≡◌, ◌↔◌, [], ◌∷◌, ◌++◌, ◌<◌, slice_get, All, None, IsTrue, IfSome};
ghost use Rattle.std.specs.Option.{option_map};
ghost use Rattle.trees.specs.Node.{tree_at, Holds};
ghost use Rattle.tasks.specs.Meaning.{trees_at};
ghost use Rattle.tasks.specs.Roles.{role, is_constructor};
ghost use Rattle.tasks.specs.Typing.{members};
ghost use Rattle.rules.specs.Trees.{RDistinct, RInject, RProject};
ghost use Rattle.rules.specs.Rows.{equal_each, projected};
ghost use Rattle.rules.specs.Meaning.{task_of, TriedHeld, RowOf};

use crate::{
    Equal, Shape, Tried, adds_none, adds_one, application_parts, equation_sides, formula_at,
    premise,
};
use tasks::{Role, is_constructor};
use trees::store::Store;
use trees::{Node, TermId};

// Whether a symbol is a constructor of an algebraic declaration.
fn is_made_as_constructor(x: &Tried<'_>, symbol: usize) -> bool
    requires { TriedHeld x.now }
    ensures { result ≡ is_constructor (role (task_of x.now) symbol) }
{
    is_constructor(x.store, x.look.role(x.store, symbol))
}

// Of a projection its constructor and the place of its field.
fn projection(x: &Tried<'_>, symbol: usize) -> Option<(usize, usize)>
    requires { TriedHeld x.now }
    ensures { result ≡ projected (role (task_of x.now) symbol) }
{
    match x.look.role(x.store, symbol) {
        Role::Projection(con, field) => Some((con.symbol, field)),
        _ => None,
    }
}

/// An equation of two different constructors.
pub fn distinct(x: &Tried<'_>, i: usize) -> bool
    requires { TriedHeld x.now }
    ensures { IsTrue result ↔ RowOf x.now (RDistinct i) }
{
    match equation_sides(x.store, formula_at(x, i)) {
        Some((a, b)) => match (application_parts(x.store, a), application_parts(x.store, b)) {
            (Some((c, _, _)), Some((d, _, _))) => is_made_as_constructor(x, c)
                && is_made_as_constructor(x, d)
                && c != d
                && adds_none(x),
            _ => false,
        },
        None => false,
    }
}

// The first member of a list, and the list of the others.
fn uncons(store: &Store, list: TermId) -> Option<(TermId, TermId)>
    requires { Holds store.now list }
    ensures none { result ≡ None → members (tree_at store.now list) ≡ [] }
    ensures some { IfSome result (λ p. members (tree_at store.now list)
        ≡ tree_at store.now p.0 ∷ members (tree_at store.now p.1)) }
    ensures held { IfSome result (λ p. Holds store.now p.0 × Holds store.now p.1) }
    ensures below { IfSome result (λ p. p.1.0 < list.0) }
{
    match store.node(list) {
        Node::Cell(a, rest) => Some((a, rest)),
        _ => None,
    }
}

// Whether formulas are the equations of the members of two lists.
fn are_equations(store: &Store, formulas: &[TermId], ts: TermId, us: TermId) -> bool
    requires formulas_held { All (Holds store.now) formulas.now }
    requires ts_held { Holds store.now ts }
    requires us_held { Holds store.now us }
    ensures { IsTrue result ↔ (trees_at store.now formulas.now
        ≡ equal_each (members (tree_at store.now ts)) (members (tree_at store.now us))) }
{
    match uncons(store, ts) {
        Some((t, more)) => match uncons(store, us) {
            Some((u, others)) => match formulas.split_first() {
                Some((first, rest)) => Equal(t, u).is(store, *first)
                    && are_equations(store, rest, more, others),
                None => false,
            },
            None => formulas.is_empty(),
        },
        None => formulas.is_empty(),
    }
}

// Whether a sequent is another with those equations after it.
fn adds_equations(
    store: &Store,
    premise: &[TermId],
    sequent: &[TermId],
    ts: TermId,
    us: TermId,
) -> bool
    requires premise_held { All (Holds store.now) premise.now }
    requires sequent_held { All (Holds store.now) sequent.now }
    requires ts_held { Holds store.now ts }
    requires us_held { Holds store.now us }
    ensures { IsTrue result ↔ (trees_at store.now premise.now
        ≡ trees_at store.now sequent.now ++ equal_each (members (tree_at store.now ts))
        (members (tree_at store.now us))) }
{
    match sequent.split_first() {
        Some((a, more)) => match premise.split_first() {
            Some((b, rest)) => store.same(*b, *a) && adds_equations(store, rest, more, ts, us),
            None => false,
        },
        None => are_equations(store, premise, ts, us),
    }
}

/// An equation of one constructor on two lists of arguments.
pub fn inject(x: &Tried<'_>, i: usize) -> bool
    requires { TriedHeld x.now }
    ensures { IsTrue result ↔ RowOf x.now (RInject i) }
{
    match equation_sides(x.store, formula_at(x, i)) {
        Some((a, b)) => match (application_parts(x.store, a), application_parts(x.store, b)) {
            (Some((c, _, ts)), Some((d, _, us))) => is_made_as_constructor(x, c)
                && c == d
                && x.premises.len() == 1
                && adds_equations(x.store, premise(x, 0), x.sequent, ts, us),
            _ => false,
        },
        None => false,
    }
}

// The member of a list at a place.
fn member(store: &Store, list: TermId, place: usize) -> Option<TermId>
    requires { Holds store.now list }
    ensures tree { option_map (tree_at store.now) result
        ≡ slice_get (members (tree_at store.now list)) place }
    ensures held { IfSome result (Holds store.now) }
{
    match store.node(list) {
        Node::Cell(a, rest) => {
            if place == 0 {
                Some(a)
            } else {
                member(store, rest, place - 1)
            }
        },
        _ => None,
    }
}

/// A projection of its constructor.
pub fn project(x: &Tried<'_>, e: TermId) -> bool
    requires tried { TriedHeld x.now }
    requires held { Holds x.now.store.now e }
    ensures { IsTrue result ↔ RowOf x.now (RProject (tree_at x.now.store.now e)) }
{
    match application_parts(x.store, e) {
        Some((f, _, args)) => match projection(x, f) {
            Some((constructor, field)) => match member(x.store, args, 0) {
                Some(inner) => match application_parts(x.store, inner) {
                    Some((c, _, fields)) => match member(x.store, fields, field) {
                        Some(t) => c == constructor && adds_one(x, &Equal(e, t)),
                        None => false,
                    },
                    None => false,
                },
                None => false,
            },
            None => false,
        },
        None => false,
    }
}
