// The clauses of inductive predicates: their form, and where the predicates of their group stand.
// They depend on the store; the checks of declarations depend on them.
ghost use Rattle.std.specs.Prelude.{◌≡◌, ◌↔◌, IsTrue, Contains};
ghost use Rattle.trees.specs.Node.{tree_at, Holds};
ghost use Rattle.tasks.specs.Clauses.{IsFree};
ghost use Rattle.tasks.specs.Equations.{cells, type_variables};
ghost use Rattle.checks.specs.decl_checks.Values.{is_member};
ghost use Rattle.checks.specs.decl_checks.Clauses.{rule, conclusion, IsOfPredicate, TopHasOwnTypes, HasClauseForm, TopIsFree, IsPositive, ArePositive, IsPositiveClause};

use crate::match_cover::are_own_variables;
use crate::node_tests::{NodeTest, each_passes};
use std::alloc::Global;
use trees::store::Store;
use trees::{Node, Op, TermId};

// Whether a number is in a list.
#[tactic(auto, using(tasks::proofs::Declared::any_iff))]
pub(crate) fn is_among(numbers: &[usize], number: usize) -> bool
    ensures test { result ≡ is_member numbers.now number }
    ensures among { IsTrue result ↔ Contains numbers.now number }
{
    numbers.iter().any(|n| *n == number)
}

// The predicates of a group stand at so many type variables, in order, and no other type variable occurs.
#[derive(Drop)]
struct OwnTypes<'a> {
    group: &'a [usize],
    vars: usize,
}

impl<'a> NodeTest for OwnTypes<'a> {
    ghost Passes = { λ v s. TopHasOwnTypes v.group.now (cells (type_variables 0 v.vars)) v.vars };

    fn passes(&self, store: &Store, node: Node) -> bool {
        match node {
            Node::TyVar(number) => number < self.vars,
            Node::Pred(symbol, a, _) => {
                !is_among(self.group, symbol) || are_own_variables(store, a, self.vars)
            }
            _ => true,
        }
    }
}

// No predicate of a group.
#[derive(Drop)]
struct Free<'a> {
    group: &'a [usize],
}

impl<'a> NodeTest for Free<'a> {
    ghost Passes = { λ v s. TopIsFree v.group.now };

    fn passes(&self, store: &Store, node: Node) -> bool {
        let _ = store;
        match node {
            Node::Pred(symbol, _, _) => !is_among(self.group, symbol),
            _ => true,
        }
    }
}

// Whether no predicate of a group is in a tree.
fn is_free(alloc: Global, store: &Store, group: &[usize], e: TermId) -> bool
    requires { Holds store.now e }
    ensures { IsTrue result ↔ IsFree group.now (tree_at store.now e) }
{
    each_passes(alloc, store, &Free { group }, e)
}

// What comes after the quantifiers of a clause.
fn rule(store: &Store, clause: TermId) -> TermId
    requires { Holds store.now clause }
    ensures tree { tree_at store.now result ≡ rule (tree_at store.now clause) }
    ensures held { Holds store.now result }
{
    match store.node(clause) {
        Node::Forall(_, b) => rule(store, b),
        _ => clause,
    }
}

// What comes after the premises.
fn conclusion(store: &Store, e: TermId) -> TermId
    requires { Holds store.now e }
    ensures tree { tree_at store.now result ≡ conclusion (tree_at store.now e) }
    ensures held { Holds store.now result }
{
    match store.node(e) {
        Node::Join(Op::Imp, _, b) => conclusion(store, b),
        _ => e,
    }
}

// Whether a formula is a predicate at so many type variables of its own.
fn is_of_predicate(store: &Store, symbol: usize, vars: usize, e: TermId) -> bool
    requires { Holds store.now e }
    ensures { IsTrue result
        ↔ IsOfPredicate symbol (cells (type_variables 0 vars)) (tree_at store.now e) }
{
    match store.node(e) {
        Node::Pred(found, a, _) => found == symbol && are_own_variables(store, a, vars),
        _ => false,
    }
}

/// Whether a clause of a predicate has its form and type variables.
pub(crate) fn has_form(
    alloc: Global,
    store: &Store,
    group: &[usize],
    symbol: usize,
    vars: usize,
    clause: TermId,
) -> bool
    requires { Holds store.now clause }
    ensures { IsTrue result ↔ HasClauseForm group.now symbol vars (cells (type_variables 0 vars))
        (tree_at store.now clause) }
{
    let last = conclusion(store, rule(store, clause));
    is_of_predicate(store, symbol, vars, last)
        && each_passes(alloc, store, &OwnTypes { group, vars }, clause)
}

// Whether the predicates of a group are in a formula in positive places only.
fn is_positive(alloc: Global, store: &Store, group: &[usize], e: TermId) -> bool
    requires { Holds store.now e }
    ensures { IsTrue result ↔ IsPositive group.now (tree_at store.now e) }
{
    match store.node(e) {
        Node::Pred(_, _, b) => is_free(alloc, store, group, b),
        Node::Join(op, a, b) => match op {
            Op::And | Op::AndThen | Op::Or | Op::OrElse => {
                is_positive(alloc, store, group, a) && is_positive(alloc, store, group, b)
            }
            Op::Imp => is_free(alloc, store, group, a) && is_positive(alloc, store, group, b),
            Op::Iff => is_free(alloc, store, group, a) && is_free(alloc, store, group, b),
        },
        Node::Forall(_, b) | Node::Exists(_, b) => is_positive(alloc, store, group, b),
        _ => is_free(alloc, store, group, e),
    }
}

// Whether the predicates of a group are in positive places of the premises, and not in the arguments of the conclusion.
fn are_positive(alloc: Global, store: &Store, group: &[usize], e: TermId) -> bool
    requires { Holds store.now e }
    ensures { IsTrue result ↔ ArePositive group.now (tree_at store.now e) }
{
    match store.node(e) {
        Node::Join(Op::Imp, a, b) => {
            is_positive(alloc, store, group, a) && are_positive(alloc, store, group, b)
        }
        Node::Pred(_, _, b) => is_free(alloc, store, group, b),
        _ => is_free(alloc, store, group, e),
    }
}

/// Whether the predicates of a group are in a clause where they may.
pub(crate) fn is_positive_clause(
    alloc: Global,
    store: &Store,
    group: &[usize],
    clause: TermId,
) -> bool
    requires { Holds store.now clause }
    ensures { IsTrue result ↔ IsPositiveClause group.now (tree_at store.now clause) }
{
    are_positive(alloc, store, group, rule(store, clause))
}
