// The place of a proposition, a local or a goal that isn't taken: it has a `let` or `match`.
ghost use Rattle.std.specs.Prelude.{◌≡◌, ◌≤◌, length, All};
ghost use Rattle.std.specs.List.{list_any};
ghost use Rattle.tasks.specs.trees.Node.{trees_at, Holds};
ghost use Rattle.tasks.specs.Meaning.{body_at, declarations_at, task_at, BodyHeld, DeclHeld, TaskHeld};
ghost use Rattle.tr_if.specs.conditionals.Conditionals.{has_let_or_match};
ghost use Rattle.tr_if.specs.Eliminated.{says_let_or_match, before_refused, refused_place};

use crate::conditionals::has_let_or_match;
use tasks::{Body, Decl, Store, Task, TermId};

// Whether a declaration is a proposition with one.
fn says_let_or_match(store: &Store, body: &Body) -> bool
    requires { BodyHeld store.now body.now }
    ensures { result ≡ says_let_or_match (body_at store.now body.now) }
{
    match body {
        Body::Prop(formula) => has_let_or_match(store, *formula),
        _ => false,
    }
}

// How many declarations come before the first such proposition.
fn before_refused(store: &Store, decls: &[Decl]) -> usize
    requires { All (DeclHeld store.now) decls.now }
    ensures count { result ≡ before_refused (declarations_at store.now decls.now) }
    ensures within { result ≤ length decls.now }
{
    match decls.split_first() {
        Some((first, rest)) => {
            if says_let_or_match(store, &first.body) {
                0
            } else {
                before_refused(store, rest) + 1
            }
        }
        None => 0,
    }
}

// Whether one of these formulas has one.
fn any_let_or_match(store: &Store, formulas: &[TermId]) -> bool
    requires { All (Holds store.now) formulas.now }
    ensures { result ≡ list_any has_let_or_match (trees_at store.now formulas.now) }
{
    match formulas.split_first() {
        Some((first, rest)) => has_let_or_match(store, *first) || any_let_or_match(store, rest),
        None => false,
    }
}

/// The place of the first proposition with a `let` or `match`, or the number of declarations where a local or the goal has one.
pub(crate) fn refused_place(store: &Store, task: &Task) -> Option<usize>
    requires { TaskHeld store.now task.now }
    ensures { result ≡ refused_place (task_at store.now task.now) }
{
    let decls = task.decls.as_slice();
    let decl = before_refused(store, decls);
    if decl < decls.len()
        || (any_let_or_match(store, task.locals.as_slice()) || has_let_or_match(store, task.goal))
    {
        Some(decl)
    } else {
        None
    }
}
