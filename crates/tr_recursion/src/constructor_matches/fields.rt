// The arguments of a constructor's application, and those that are a pattern's variables.
ghost use Rattle.std.specs.Prelude.{◌≡◌, ℕ, ◌++◌, IfOk, OnOk};
ghost use Rattle.trees.specs.Tree.{Tree, Two, Three, HEq, HFun, HPatCon};
ghost use Rattle.trees.specs.Node.{tree_at, trees_at, Holds};
ghost use Rattle.trees.specs.Sorts.{IsList};
ghost use Rattle.trees.specs.binders.Visits.{HoldTerms};
ghost use Rattle.tasks.specs.Typing.{members};
ghost use Rattle.tr_inline.specs.inlining.branch_equations.Branches.{bound_fields};
ghost use Rattle.tr_recursion.specs.constructor_matches.Asked.{IsApplicationAt, part_members};

use evidence::Draft;
use std::alloc::AllocError;
use tasks::{Grow, Store};
use trees::{Node, Sort, TermId};

/// A function's application, by numbers.
#[derive(Clone, Copy)]
pub(crate) struct Application {
    pub function: usize,
    pub types: TermId,
    pub args: TermId,
    pub ty: TermId,
}

/// The parts of a function's application.
pub(crate) fn application_parts(draft: &Draft, id: TermId) -> Application
    requires held { Holds draft.now.trees id }
    requires application { (f : ℕ) × ((xs : Tree) × ((as' : Tree) × ((ty : Tree)
        × (tree_at draft.now.trees id ≡ Three (HFun f) xs as' ty)))) }
    ensures { IsApplicationAt draft.now.trees id result }
{
    match draft.store().node(id) {
        Node::Fun(function, types, args, ty) => Application {
            function,
            types,
            args,
            ty,
        },
        _ => unreachable!(),
    }
}

/// The right side of an equation.
pub(crate) fn right_side(draft: &Draft, id: TermId) -> TermId
    requires held { Holds draft.now.trees id }
    requires equation { (l : Tree) × ((r : Tree) × (tree_at draft.now.trees id ≡ Two HEq l r)) }
    ensures held { Holds draft.now.trees result }
    ensures tree { (l : Tree) × (tree_at draft.now.trees id
        ≡ Two HEq l (tree_at draft.now.trees result)) }
{
    match draft.store().node(id) {
        Node::Eq(_, right) => right,
        _ => unreachable!(),
    }
}

/// The members of a list of terms, after others.
pub(crate) fn push_terms(
    store: &Store,
    list: TermId,
    terms: &mut Vec<TermId>,
) -> Result<(), AllocError>
    requires list { Holds store.now list }
    requires sort { IsList Sort.Term (tree_at store.now list) }
    requires terms { HoldTerms store.now terms.old.items }
    ensures held { OnOk result (HoldTerms store.now terms.new.items) }
    ensures trees { OnOk result (trees_at store.now terms.new.items
        ≡ trees_at store.now terms.old.items ++ members (tree_at store.now list)) }
{
    match store.node(list) {
        Node::Cell(first, rest) => {
            terms.push(first)?;
            push_terms(store, rest, terms)
        }
        _ => Ok(()),
    }
}

/// Those of the terms that the variables among patterns are, after others.
pub(crate) fn push_bound(
    store: &Store,
    patterns: TermId,
    own: &[TermId],
    terms: &mut Vec<TermId>,
) -> Result<(), AllocError>
    requires patterns { Holds store.now patterns }
    requires own { HoldTerms store.now own.now }
    requires terms { HoldTerms store.now terms.old.items }
    ensures held { OnOk result (HoldTerms store.now terms.new.items) }
    ensures trees { OnOk result (trees_at store.now terms.new.items
        ≡ trees_at store.now terms.old.items
        ++ bound_fields (members (tree_at store.now patterns)) (trees_at store.now own.now)) }
{
    match store.node(patterns) {
        Node::Cell(first, rest) => match own.split_first() {
            Some((term, others)) => match store.node(first) {
                Node::PatVar(_) => {
                    terms.push(*term)?;
                    push_bound(store, rest, others, terms)
                }
                _ => push_bound(store, rest, others, terms),
            },
            None => Ok(()),
        },
        _ => Ok(()),
    }
}

/// The members of a list of terms.
pub(crate) fn list_terms(draft: &Draft, list: TermId) -> Result<Vec<TermId>, AllocError>
    requires held { Holds draft.now.trees list }
    requires sort { IsList Sort.Term (tree_at draft.now.trees list) }
    ensures held { IfOk result (λ v. HoldTerms draft.now.trees v.items) }
    ensures trees { IfOk result (λ v. trees_at draft.now.trees v.items
        ≡ members (tree_at draft.now.trees list)) }
{
    let mut terms = Vec::new(draft.allocator());
    push_terms(draft.store(), list, &mut terms)?;
    Ok(terms)
}

/// The arguments of a constructor's application that the variables of a pattern are.
pub(crate) fn own_fields(
    draft: &Draft,
    pattern: TermId,
    scrutinee: TermId,
) -> Result<Vec<TermId>, AllocError>
    requires pattern_held { Holds draft.now.trees pattern }
    requires pattern { (k : ℕ) × ((xs : Tree) × ((ps : Tree) × ((ty : Tree)
        × (tree_at draft.now.trees pattern ≡ Three (HPatCon k) xs ps ty)))) }
    requires scrutinee_held { Holds draft.now.trees scrutinee }
    requires application { (f : ℕ) × ((xs : Tree) × ((as' : Tree) × ((ty : Tree)
        × (tree_at draft.now.trees scrutinee ≡ Three (HFun f) xs as' ty)))) }
    ensures held { IfOk result (λ v. HoldTerms draft.now.trees v.items) }
    ensures trees { IfOk result (λ v. trees_at draft.now.trees v.items
        ≡ bound_fields (part_members (tree_at draft.now.trees pattern))
        (part_members (tree_at draft.now.trees scrutinee))) }
{
    let own = application_parts(draft, scrutinee);
    let args = list_terms(draft, own.args)?;
    match draft.store().node(pattern) {
        Node::PatCon(_, _, patterns, _) => {
            let mut fields = Vec::new(draft.allocator());
            push_bound(draft.store(), patterns, &args, &mut fields)?;
            Ok(fields)
        }
        _ => unreachable!(),
    }
}
