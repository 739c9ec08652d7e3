// The row of `matchdef`.
// It depends on the test and the variables of a pattern; the checker of a step depends on it.
ghost use Rattle.std.specs.Prelude.{◌≡◌, ◌↔◌, [], ◌∷◌, IsTrue, IfSome};
ghost use Rattle.std.specs.Option.{option_map};
ghost use Rattle.trees.specs.Tree.{Two, HCase, loose};
ghost use Rattle.trees.specs.Node.{tree_at, Holds};
ghost use Rattle.trees.specs.Binding.{inst_many};
ghost use Rattle.tasks.specs.MatchTests.{bind, test};
ghost use Rattle.rules.specs.Trees.{RMatchDef};
ghost use Rattle.rules.specs.Forms.{match_of};
ghost use Rattle.rules.specs.Rows.{unfolded, Adds};
ghost use Rattle.rules.specs.Meaning.{task_of, sequent_of, premises_of, TriedHeld, RowOf};
ghost use Rattle.rules.specs.term_rules.Matches.{IsTriedReady, match_parts_at, MatchPartsHeld};

use crate::term_rules::binds::Bindings;
use crate::term_rules::pattern_tests::is_test;
use crate::{Alike, Join, Not, Shape, Tried, adds_one, is_end};
use trees::binders::is_changed;
use trees::store::Store;
use trees::{Node, Op, TermId};

// The body of a branch with the terms for its pattern's variables.
#[derive(Clone, Copy)]
struct Branch<'a> {
    x: &'a Tried<'a>,
    pattern: TermId,
    term: TermId,
    body: TermId,
}

impl<'a> Shape for Branch<'a> {
    ghost tree = { λ v s. inst_many (tree_at s v.body) (bind (task_of v.x.now) (tree_at s v.pattern)
        (tree_at s v.term)) };

    ghost IsHeld = { λ v s. IsTriedReady v.x.now v.pattern v.term s × Holds s v.body };

    fn is(&self, store: &Store, id: TermId) -> bool {
        let bindings = Bindings {
            x: self.x,
            pattern: self.pattern,
            term: self.term,
        };
        is_changed(store, &bindings, self.body, id)
    }
}

// The test of a pattern, asked of a term.
#[derive(Clone, Copy)]
struct Test<'a> {
    x: &'a Tried<'a>,
    pattern: TermId,
    term: TermId,
}

impl<'a> Shape for Test<'a> {
    ghost tree = { λ v s. test (task_of v.x.now) (tree_at s v.pattern) (tree_at s v.term) };

    ghost IsHeld = { λ v s. IsTriedReady v.x.now v.pattern v.term s };

    fn is(&self, store: &Store, id: TermId) -> bool {
        let _ = store;
        is_test(self.x, self.pattern, self.term, id)
    }
}

// A `match` of a term with these branches.
#[derive(Clone, Copy)]
struct Match {
    term: TermId,
    branches: TermId,
}

impl Shape for Match {
    ghost tree = { λ v s. Two HCase (tree_at s v.term) (tree_at s v.branches) };

    ghost IsHeld = { λ v s. Holds s v.term × Holds s v.branches };

    fn is(&self, store: &Store, id: TermId) -> bool {
        match store.node(id) {
            Node::Case(a, b) => store.same(a, self.term) && store.same(b, self.branches),
            _ => false,
        }
    }
}

// The scrutinee of a `match`, its first pattern and body, and the list of the other branches.
fn match_parts(store: &Store, e: TermId) -> Option<(TermId, TermId, TermId, TermId)>
    requires { Holds store.now e }
    ensures tree { option_map (match_parts_at store.now) result ≡ match_of (tree_at store.now e) }
    ensures held { IfSome result (MatchPartsHeld store.now) }
{
    match store.node(e) {
        Node::Case(term, branches) => match store.node(branches) {
            Node::Cell(first, rest) => match store.node(first) {
                Node::Arm(pattern, body) => Some((term, pattern, body, rest)),
                _ => None,
            },
            _ => None,
        },
        _ => None,
    }
}

// Whether the one premise adds the equation by which a `match` is unfolded.
fn adds_unfolded<'a>(
    x: &'a Tried<'a>,
    e: TermId,
    term: TermId,
    pattern: TermId,
    body: TermId,
    rest: TermId,
) -> bool
    requires tried { TriedHeld x.now }
    requires held { Holds x.now.store.now e }
    requires ready { IsTriedReady x.now pattern term x.now.store.now }
    requires body_held { Holds x.now.store.now body }
    requires rest_held { Holds x.now.store.now rest }
    ensures { IsTrue result ↔ Adds (sequent_of x.now) (premises_of x.now) ((unfolded
        (test (task_of x.now) (tree_at x.now.store.now pattern) (tree_at x.now.store.now term))
        (bind (task_of x.now) (tree_at x.now.store.now pattern) (tree_at x.now.store.now term))
        (tree_at x.now.store.now e) (tree_at x.now.store.now term) (tree_at x.now.store.now body)
        (tree_at x.now.store.now rest) ∷ []) ∷ []) }
{
    let first = Branch {
        x,
        pattern,
        term,
        body,
    };
    if is_end(x.store, rest) {
        return adds_one(x, &Alike { e, other: first });
    }
    let test = Test { x, pattern, term };
    let others = Match {
        term,
        branches: rest,
    };
    adds_one(
        x,
        &Join {
            op: Op::And,
            left: Join {
                op: Op::Imp,
                left: test,
                right: Alike { e, other: first },
            },
            right: Join {
                op: Op::Imp,
                left: Not(test),
                right: Alike { e, other: others },
            },
        },
    )
}

/// A `match` unfolded by its first branch.
pub fn match_def<'a>(x: &'a Tried<'a>, e: TermId) -> bool
    requires tried { TriedHeld x.now }
    requires held { Holds x.now.store.now e }
    requires closed { loose (tree_at x.now.store.now e) ≡ 0 }
    ensures { IsTrue result ↔ RowOf x.now (RMatchDef (tree_at x.now.store.now e)) }
{
    match match_parts(x.store, e) {
        Some((term, pattern, body, rest)) => adds_unfolded(x, e, term, pattern, body, rest),
        None => false,
    }
}
