// Variables that binders bind, lists of terms, and terms put in for variables, over a store.
// They depend on the store; the equations of branches depend on them.
ghost use Rattle.std.specs.Prelude.{◌≡◌, ◌+◌, ◌++◌, ◌<◌, ◌≤◌, ℕ, length, get_or, IfOk, OnOk};
ghost use Rattle.trees.specs.Tree.{Tree, One, HBound, size, loose};
ghost use Rattle.trees.specs.Binding.{inst_many};
ghost use Rattle.trees.specs.Node.{tree_at, trees_at, Holds, Grows};
ghost use Rattle.trees.specs.Sorts.{sort_of, IsList};
ghost use Rattle.trees.specs.declared.Sort.TheVariants.{Kind, Term};
ghost use Rattle.trees.specs.binders.Visits.{HoldsTerm, HoldTerms, HoldTypes};
ghost use Rattle.tasks.specs.Equations.{cells};
ghost use Rattle.tr_inline.specs.inlining.branch_equations.Branches.{variables_above};
ghost use Rattle.tr_recursion.specs.recursion_forms.Made.{HaveRoom};

use std::alloc::{AllocError, Global};
use trees::binders::inst_many;
use trees::store::{Grow, Store};
use trees::{Node, TermId};

// A variable of a type, that many binders up; want of memory where no machine number is so large.
fn variable(store: &mut Store, inner: usize, below: usize, ty: TermId) -> Result<TermId, AllocError>
    requires held { Holds store.old ty }
    requires kind { sort_of (tree_at store.old ty) ≡ Kind }
    ensures held { IfOk result (HoldsTerm store.new) }
    ensures tree { IfOk result (λ id. tree_at store.new id
        ≡ One (HBound (inner + below)) (tree_at store.old ty)) }
    ensures grows { Grows store.old store.new }
{
    let Some(index) = inner.checked_add(below) else {
        return Err(AllocError);
    };
    if index == usize::MAX {
        return Err(AllocError);
    }
    store.add(Node::Bound(index, ty))
}

/// The variables that binders of these types bind, with so many binders below them, after others.
pub(crate) fn push_variables(
    store: &mut Store,
    below: usize,
    types: &[TermId],
    terms: &mut Vec<TermId>,
) -> Result<(), AllocError>
    requires types { HoldTypes store.old types.now }
    requires terms { HoldTerms store.old terms.old.items }
    ensures held { OnOk result (HoldTerms store.new terms.new.items) }
    ensures trees { OnOk result (trees_at store.new terms.new.items
        ≡ trees_at store.old terms.old.items
        ++ variables_above below (trees_at store.old types.now)) }
    ensures grows { Grows store.old store.new }
{
    match types.split_first() {
        Some((first, rest)) => {
            let made = variable(store, rest.len(), below, *first)?;
            terms.push(made)?;
            push_variables(store, below, rest, terms)
        }
        None => Ok(()),
    }
}

/// The list of these terms.
pub(crate) fn list_of(store: &mut Store, terms: &[TermId]) -> Result<TermId, AllocError>
    requires { HoldTerms store.old terms.now }
    ensures held { IfOk result (Holds store.new) }
    ensures list { IfOk result (λ id. IsList Term (tree_at store.new id)) }
    ensures tree { IfOk result (λ id. tree_at store.new id
        ≡ cells (trees_at store.old terms.now)) }
    ensures grows { Grows store.old store.new }
{
    match terms.split_first() {
        Some((first, rest)) => {
            let tail = list_of(store, rest)?;
            store.add(Node::Cell(*first, tail))
        }
        None => store.add(Node::End),
    }
}

// A number above the sizes and the loose variables of terms, or the greatest number.
fn room_of(store: &Store, terms: &[TermId]) -> u64
    requires { HoldTerms store.now terms.now }
    ensures { result < u64.MAX → HaveRoom result (trees_at store.now terms.now) }
{
    match terms.split_first() {
        Some((first, rest)) => {
            let own = store
                .size(*first)
                .saturating_add(store.loose(*first) as u64);
            own.max(room_of(store, rest))
        }
        None => 0,
    }
}

/// Terms put in for the variables of an expression; want of memory where no machine number is as large as a variable in it.
pub(crate) fn put_terms(
    alloc: Global,
    store: &mut Store,
    e: TermId,
    terms: &[TermId],
) -> Result<TermId, AllocError>
    requires e { Holds store.old e }
    requires terms { HoldTerms store.old terms.now }
    ensures held { IfOk result (Holds store.new) }
    ensures sort { IfOk result (λ id. sort_of (tree_at store.new id)
        ≡ sort_of (tree_at store.old e)) }
    ensures tree { IfOk result (λ id. tree_at store.new id
        ≡ inst_many (tree_at store.old e) (trees_at store.old terms.now)) }
    ensures grows { Grows store.old store.new }
{
    store.laws();
    let room = room_of(store, terms);
    if room.saturating_add(store.size(e)) == u64::MAX {
        return Err(AllocError);
    }
    inst_many(alloc, store, e, terms)
}
