// The rows of connectives.
// They depend on what premises add; the checker of a step depends on them.
ghost use Rattle.std.specs.Prelude.{◌↔◌, IsTrue, IfSome};
ghost use Rattle.std.specs.Option.{option_map};
ghost use Rattle.trees.specs.Node.{tree_at, Holds};
ghost use Rattle.rules.specs.Rows.{Adds, where_true, where_false, Holding, Failing};
ghost use Rattle.rules.specs.Meaning.{sequent_of, premises_of, TriedHeld};

use crate::shape::Not;
use crate::tried::{Tried, adds_both, adds_each, adds_pairs};
use trees::{Node, Op, TermId};

// What a connective gives where it holds.
fn where_true(x: &Tried<'_>, op: Op, a: TermId, b: TermId) -> bool
    requires tried { TriedHeld x.now }
    requires a_held { Holds x.now.store.now a }
    requires b_held { Holds x.now.store.now b }
    ensures { IsTrue result ↔ Adds (sequent_of x.now) (premises_of x.now)
        (where_true op (tree_at x.now.store.now a) (tree_at x.now.store.now b)) }
{
    match op {
        Op::And | Op::AndThen => adds_both(x, &a, &b),
        Op::Or | Op::OrElse => adds_each(x, &a, &b),
        Op::Imp => adds_each(x, &Not(a), &b),
        Op::Iff => adds_pairs(x, &a, &b, &Not(a), &Not(b)),
    }
}

// What it gives where its negation holds.
fn where_false(x: &Tried<'_>, op: Op, a: TermId, b: TermId) -> bool
    requires tried { TriedHeld x.now }
    requires a_held { Holds x.now.store.now a }
    requires b_held { Holds x.now.store.now b }
    ensures { IsTrue result ↔ Adds (sequent_of x.now) (premises_of x.now)
        (where_false op (tree_at x.now.store.now a) (tree_at x.now.store.now b)) }
{
    match op {
        Op::And | Op::AndThen => adds_each(x, &Not(a), &Not(b)),
        Op::Or | Op::OrElse => adds_both(x, &Not(a), &Not(b)),
        Op::Imp => adds_both(x, &a, &Not(b)),
        Op::Iff => adds_pairs(x, &a, &Not(b), &Not(a), &b),
    }
}

/// A connective that holds.
pub fn connective_holds(x: &Tried<'_>, op: Op, f: Option<TermId>) -> bool
    requires tried { TriedHeld x.now }
    requires held { IfSome f (Holds x.now.store.now) }
    ensures { IsTrue result ↔ Holding op (sequent_of x.now) (option_map (tree_at x.now.store.now) f)
        (premises_of x.now) }
{
    match f {
        Some(id) => match x.store.node(id) {
            Node::Join(found, a, b) => found == op && where_true(x, op, a, b),
            _ => false,
        },
        None => false,
    }
}

/// A connective that fails.
pub fn connective_fails(x: &Tried<'_>, op: Op, f: Option<TermId>) -> bool
    requires tried { TriedHeld x.now }
    requires held { IfSome f (Holds x.now.store.now) }
    ensures { IsTrue result ↔ Failing op (sequent_of x.now) (option_map (tree_at x.now.store.now) f)
        (premises_of x.now) }
{
    match f {
        Some(id) => match x.store.node(id) {
            Node::Join(found, a, b) => found == op && where_false(x, op, a, b),
            _ => false,
        },
        None => false,
    }
}
