// The rows of equality: `refl`, `replace`, `letdef` and `ifdef`.
// They depend on what premises add; the checker of a step depends on them.
ghost use Rattle.std.specs.Prelude.{◌≡◌, ◌↔◌, IsTrue, IsSomeAnd};
ghost use Rattle.trees.specs.Tree.{loose};
ghost use Rattle.trees.specs.Node.{tree_at, Holds};
ghost use Rattle.trees.specs.Sorts.{type_of};
ghost use Rattle.tasks.specs.Vocabulary.{of_task};
ghost use Rattle.tasks.specs.Open.{OpenTyped};
ghost use Rattle.rules.specs.Trees.{RRefl, RReplace, RLetDef, RIfDef};
ghost use Rattle.rules.specs.Rows.{IsTemplate};
ghost use Rattle.rules.specs.Meaning.{task_of, TriedHeld, RowOf};

use crate::apart::equation_sides;
use crate::shape::{Alike, Equal, Instance, Join, Not};
use crate::term::Term;
use crate::tried::{Tried, adds_one, formula_at};
use tasks::typed_trees::{is_ground, variable_has_type};
use trees::binders::is_changed;
use trees::{Node, Op, Sort, TermId};

/// A term equals itself.
pub fn refl(x: &Tried<'_>, term: TermId) -> bool
    requires tried { TriedHeld x.now }
    requires held { Holds x.now.store.now term }
    ensures { IsTrue result ↔ RowOf x.now (RRefl (tree_at x.now.store.now term)) }
{
    x.store.sort(term) == Sort::Term && adds_one(x, &Equal(term, term))
}

/// A `let` put out.
pub fn let_def(x: &Tried<'_>, e: TermId) -> bool
    requires tried { TriedHeld x.now }
    requires held { Holds x.now.store.now e }
    requires closed { loose (tree_at x.now.store.now e) ≡ 0 }
    ensures { IsTrue result ↔ RowOf x.now (RLetDef (tree_at x.now.store.now e)) }
{
    match x.store.node(e) {
        Node::Let(value, body) => adds_one(
            x,
            &Alike {
                e,
                other: Instance {
                    body,
                    term: Term::Held(value),
                },
            },
        ),
        _ => false,
    }
}

/// An `if` by its two cases.
pub fn if_def(x: &Tried<'_>, e: TermId) -> bool
    requires tried { TriedHeld x.now }
    requires held { Holds x.now.store.now e }
    ensures { IsTrue result ↔ RowOf x.now (RIfDef (tree_at x.now.store.now e)) }
{
    match x.store.node(e) {
        Node::If(c, a, b) => adds_one(
            x,
            &Join {
                op: Op::And,
                left: Join {
                    op: Op::Imp,
                    left: c,
                    right: Alike { e, other: a },
                },
                right: Join {
                    op: Op::Imp,
                    left: Not(c),
                    right: Alike { e, other: b },
                },
            },
        ),
        _ => false,
    }
}

// Whether a template takes a term.
fn fits_template(x: &Tried<'_>, term: TermId, template: TermId) -> bool
    requires tried { TriedHeld x.now }
    requires term_held { Holds x.now.store.now term }
    requires held { Holds x.now.store.now template }
    requires open { OpenTyped (of_task (task_of x.now)) (tree_at x.now.store.now template) }
    ensures { IsTrue result ↔ IsSomeAnd (type_of (tree_at x.now.store.now term))
        (λ ty. IsTemplate (task_of x.now) ty (tree_at x.now.store.now template)) }
{
    match x.store.ty(term) {
        Some(ty) => is_template(x, template, ty),
        None => false,
    }
}

// Whether a tree that is typed as far as it goes is a formula in which the variable 0 may be open, at a type.
fn is_template(x: &Tried<'_>, e: TermId, ty: TermId) -> bool
    requires e_held { Holds x.now.store.now e }
    requires ty_held { Holds x.now.store.now ty }
    requires open { OpenTyped (of_task (task_of x.now)) (tree_at x.now.store.now e) }
    ensures { IsTrue result ↔ IsTemplate (task_of x.now) (tree_at x.now.store.now ty)
        (tree_at x.now.store.now e) }
{
    if x.store.sort(e) != Sort::Formula {
        return false;
    }
    if x.store.loose(e) > 1 {
        return false;
    }
    if !is_ground(x.store, e) {
        return false;
    }
    variable_has_type(x.store, e, ty)
}

/// One side of an equation in the place of the other.
pub fn replace(x: &Tried<'_>, i: usize, j: usize, template: TermId) -> bool
    requires tried { TriedHeld x.now }
    requires held { Holds x.now.store.now template }
    requires open { OpenTyped (of_task (task_of x.now)) (tree_at x.now.store.now template) }
    ensures { IsTrue result ↔ RowOf x.now (RReplace i j (tree_at x.now.store.now template)) }
{
    match (equation_sides(x.store, formula_at(x, i)), formula_at(x, j)) {
        (Some((a, b)), Some(made)) => fits_template(x, a, template)
            && is_changed(x.store, &Term::Held(a), template, made)
            && adds_one(
                x,
                &Instance {
                    body: template,
                    term: Term::Held(b),
                },
            ),
        _ => false,
    }
}
