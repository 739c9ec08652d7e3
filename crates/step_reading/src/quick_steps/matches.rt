// The row of `matchdef`, told by the body of the first branch, made in the store with the terms for its pattern's variables.
// It depends on what a pattern asks; the rows of rules depend on it.
ghost use Rattle.std.specs.Prelude.{◌≡◌, ◌↔◌, [], ◌∷◌, List, None, Some, IsTrue, IfOk, IfSome};
ghost use Rattle.std.specs.Option.{option_map};
ghost use Rattle.trees.specs.declared.Sort.TheVariants.{Formula};
ghost use Rattle.trees.specs.Tree.{Tree, Two, HCase, loose};
ghost use Rattle.trees.specs.Node.{tree_at, trees_at, Holds, Grows};
ghost use Rattle.trees.specs.Binding.{inst_many};
ghost use Rattle.trees.specs.binders.Visits.{AreHeldOfSort};
ghost use Rattle.tasks.specs.Conjunctions.{conjunction};
ghost use Rattle.rules.specs.Trees.{RMatchDef};
ghost use Rattle.rules.specs.Forms.{match_of};
ghost use Rattle.rules.specs.Rows.{unfolded, Adds, IsRuleRow};
ghost use Rattle.rules.specs.term_rules.Matches.{match_parts_at, MatchPartsHeld};
ghost use Rattle.step_reading.specs.quick_steps.Places.{task_here, sequent_here, premises_here, PlaceHeld};

use crate::quick_steps::asking::ask_all;
use crate::quick_steps::place::Place;
use rules::term_rules::match_def;
use rules::{Alike, Join, Not, Shape, Tried, adds_one, is_end};
use std::alloc::{AllocError, Global};
use tasks::{Node, Op, Sort, Store, TermId};
use trees::binders::index_bounds::put_terms;

// Whether a tree is the conjunction of formulas.
fn is_conjunction(store: &Store, formulas: &[TermId], id: TermId) -> bool
    requires formulas { AreHeldOfSort Sort.Formula store.now formulas.now }
    requires held { Holds store.now id }
    ensures { IsTrue result ↔ (tree_at store.now id
        ≡ conjunction (trees_at store.now formulas.now)) }
{
    match formulas.split_first() {
        Some((first, rest)) => {
            if rest.is_empty() {
                return store.same(id, *first);
            }
            match store.node(id) {
                Node::Join(op, a, b) => op == Op::And
                    && store.same(a, *first)
                    && is_conjunction(store, rest, b),
                _ => false,
            }
        }
        None => match store.node(id) {
            Node::True => true,
            _ => false,
        },
    }
}

// A conjunction of formulas.
#[derive(Clone, Copy)]
struct Conjunction<'a> {
    formulas: &'a [TermId],
}

impl<'a> Shape for Conjunction<'a> {
    ghost tree = { λ v s. conjunction (trees_at s v.formulas.now) };

    ghost IsHeld = { λ v s. AreHeldOfSort Formula s v.formulas.now };

    fn is(&self, store: &Store, id: TermId) -> bool {
        is_conjunction(store, self.formulas, id)
    }
}

// A `match` of a term with these branches.
#[derive(Clone, Copy)]
struct Match {
    term: TermId,
    branches: TermId,
}

impl Shape for Match {
    ghost tree = { λ v s. Two HCase (tree_at s v.term) (tree_at s v.branches) };

    ghost IsHeld = { λ v s. Holds s v.term × Holds s v.branches };

    fn is(&self, store: &Store, id: TermId) -> bool {
        match store.node(id) {
            Node::Case(a, b) => store.same(a, self.term) && store.same(b, self.branches),
            _ => false,
        }
    }
}

// The scrutinee of a `match`, its first pattern and body, and the list of the other branches.
fn match_parts(store: &Store, e: TermId) -> Option<(TermId, TermId, TermId, TermId)>
    requires { Holds store.now e }
    ensures tree { option_map (match_parts_at store.now) result ≡ match_of (tree_at store.now e) }
    ensures held { IfSome result (MatchPartsHeld store.now) }
{
    match store.node(e) {
        Node::Case(term, branches) => match store.node(branches) {
            Node::Cell(first, rest) => match store.node(first) {
                Node::Arm(pattern, body) => Some((term, pattern, body, rest)),
                _ => None,
            },
            _ => None,
        },
        _ => None,
    }
}

// Whether the one premise adds the equation by which a `match` is unfolded, told by the tests of its first pattern and by the body
// with the terms for the pattern's variables.
fn adds_unfolded(
    store: &Store,
    place: &Place<'_>,
    e: TermId,
    term: TermId,
    rest: TermId,
    tests: &[TermId],
    made: TermId,
) -> bool
    requires place { PlaceHeld store.now place.now }
    requires held { Holds store.now e }
    requires term_held { Holds store.now term }
    requires rest_held { Holds store.now rest }
    requires tests { AreHeldOfSort Sort.Formula store.now tests.now }
    requires made_held { Holds store.now made }
    ensures { (body : Tree) (terms : List Tree) → tree_at store.now made ≡ inst_many body terms
        → IsTrue result ↔ Adds (sequent_here store.now place.now)
        (premises_here store.now place.now)
        ((unfolded (conjunction (trees_at store.now tests.now)) terms (tree_at store.now e)
        (tree_at store.now term) body (tree_at store.now rest) ∷ []) ∷ []) }
{
    let x = Tried {
        store,
        look: place.look,
        sequent: place.sequent,
        before: place.before,
        premises: place.premises,
    };
    let first = Alike { e, other: made };
    if is_end(store, rest) {
        return adds_one(&x, &first);
    }
    let test = Conjunction { formulas: tests };
    let others = Match {
        term,
        branches: rest,
    };
    adds_one(
        &x,
        &Join {
            op: Op::And,
            left: Join {
                op: Op::Imp,
                left: test,
                right: first,
            },
            right: Join {
                op: Op::Imp,
                left: Not(test),
                right: Alike { e, other: others },
            },
        },
    )
}

// The row as the kernel tells it.
fn is_kernel_row(store: &Store, place: &Place<'_>, e: TermId) -> bool
    requires place { PlaceHeld store.now place.now }
    requires held { Holds store.now e }
    requires closed { loose (tree_at store.now e) ≡ 0 }
    ensures { IsTrue result ↔ IsRuleRow (task_here store.now place.now)
        (sequent_here store.now place.now) (RMatchDef (tree_at store.now e))
        (premises_here store.now place.now) }
{
    let x = Tried {
        store,
        look: place.look,
        sequent: place.sequent,
        before: place.before,
        premises: place.premises,
    };
    match_def(&x, e)
}

// The row of a `match` of these parts: by the kernel where its first pattern isn't asked.
fn is_unfolded(
    alloc: Global,
    store: &mut Store,
    place: &Place<'_>,
    e: TermId,
    parts: (TermId, TermId, TermId, TermId),
) -> Result<bool, AllocError>
    requires place { PlaceHeld store.old place.now }
    requires held { Holds store.old e }
    requires closed { loose (tree_at store.old e) ≡ 0 }
    requires parts { match_of (tree_at store.old e) ≡ Some (match_parts_at store.old parts) }
    requires parts_held { MatchPartsHeld store.old parts }
    ensures told { IfOk result (λ b. IsTrue b ↔ IsRuleRow (task_here store.old place.now)
        (sequent_here store.old place.now) (RMatchDef (tree_at store.old e))
        (premises_here store.old place.now)) }
    ensures grows { Grows store.old store.new }
{
    let (term, pattern, body, rest) = parts;
    if store.sort(term) != Sort::Term {
        return Ok(is_kernel_row(store, place, e));
    }
    let mut tests = Vec::new(alloc);
    let mut terms = Vec::new(alloc);
    let look = *place.look;
    let asked = ask_all(alloc, store, look, pattern, &[term], &mut tests, &mut terms)?;
    if !asked {
        return Ok(is_kernel_row(store, place, e));
    }
    let made = put_terms(alloc, store, body, terms.as_slice())?;
    Ok(adds_unfolded(store, place, e, term, rest, tests.as_slice(), made))
}

/// A `match` unfolded by its first branch.
pub(crate) fn match_unfolded(
    alloc: Global,
    store: &mut Store,
    place: &Place<'_>,
    e: TermId,
) -> Result<Option<bool>, AllocError>
    requires place { PlaceHeld store.old place.now }
    requires held { Holds store.old e }
    ensures told { IfOk result (λ o. IfSome o (λ b. IsTrue b
        ↔ IsRuleRow (task_here store.old place.now) (sequent_here store.old place.now)
        (RMatchDef (tree_at store.old e)) (premises_here store.old place.now))) }
    ensures kept { IfOk result (λ o. o ≡ None → store.new ≡ store.old) }
    ensures grows { Grows store.old store.new }
{
    if store.loose(e) != 0 {
        return Ok(None);
    }
    let Some(parts) = match_parts(store, e) else {
        return Ok(None);
    };
    let told = is_unfolded(alloc, store, place, e, parts)?;
    Ok(Some(told))
}
