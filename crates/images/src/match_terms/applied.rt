// Constructors and projections at a list of types, on terms.
ghost use Rattle.std.specs.Prelude.{◌≡◌, ◌∷◌, [], ◌++◌, Some, All, IfOk, OnOk, map};
ghost use Rattle.trees.specs.Tree.{Tree};
ghost use Rattle.trees.specs.Node.{tree_at, trees_at, Holds};
ghost use Rattle.trees.specs.Sorts.{sort_of, IsList};
ghost use Rattle.trees.specs.binders.Visits.{HoldTerms, HoldTypes, HoldsTerm};
ghost use Rattle.tasks.specs.Task.{symbol_or};
ghost use Rattle.tasks.specs.Equations.{cells};
ghost use Rattle.tasks.specs.Typing.{members};
ghost use Rattle.tasks.specs.Meaning.{task_at};
ghost use Rattle.tasks.specs.Looking.{LookupHeld};
ghost use Rattle.tasks.specs.MatchTests.{apply_list, field, fields, rebuilt};
ghost use Rattle.images.specs.PatternTerms.{HasClosedResult};
ghost use Rattle.images.specs.match_terms.Asking.{task_under, AtHeld};

use std::alloc::{AllocError, Global};
use tasks::Lookup;
use trees::binders::inst_types;
use trees::store::{Grow, Store};
use trees::{Node, Sort, TermId};

/// The task, and the types that a constructor or projection is at: their list, and its members.
#[derive(Clone, Copy)]
pub(crate) struct At<'a> {
    pub look: Lookup<'a>,
    pub types: TermId,
    pub members: &'a [TermId],
}

/// The members of a list of types, after others.
pub(crate) fn push_members(
    store: &Store,
    list: TermId,
    out: &mut Vec<TermId>,
) -> Result<(), AllocError>
    requires held { Holds store.now list }
    requires types { IsList Sort.Kind (tree_at store.now list) }
    requires out_held { HoldTypes store.now out.old.items }
    ensures trees { OnOk result (trees_at store.now out.new.items
        ≡ trees_at store.now out.old.items ++ members (tree_at store.now list)) }
    ensures held { OnOk result (HoldTypes store.now out.new.items) }
{
    match store.node(list) {
        Node::Cell(first, rest) => {
            out.push(first)?;
            push_members(store, rest, out)
        }
        _ => Ok(()),
    }
}

// The type of a function's result.
fn result_of(store: &Store, look: Lookup<'_>, function: usize) -> TermId
    requires look { LookupHeld store.now look }
    requires result { HasClosedResult (task_under store.now look) function }
    ensures held { Holds store.now result }
    ensures is { (symbol_or (task_under store.now look.entry).symbols function).result
        ≡ Some (tree_at store.now result) }
{
    let _ = store;
    match look.task.sig.symbols.get(function) {
        Some(info) => match info.result {
            Some(ty) => ty,
            None => unreachable!(),
        },
        None => unreachable!(),
    }
}

// A function on a list of arguments.
fn apply<G: Grow>(
    alloc: Global,
    g: &mut G,
    at: At<'_>,
    function: usize,
    args: TermId,
) -> Result<TermId, AllocError>
    requires at { AtHeld (G.trees g.old) at }
    requires result { HasClosedResult (task_under (G.trees g.old) at.look) function }
    requires args_held { Holds (G.trees g.old) args }
    requires args { IsList Sort.Term (tree_at (G.trees g.old) args) }
    ensures term { IfOk result (HoldsTerm (G.trees g.new)) }
    ensures tree { IfOk result (λ id. tree_at (G.trees g.new) id
        ≡ apply_list (task_under (G.trees g.old) at.entry.look) function
        (tree_at (G.trees g.old) at.entry.types) (tree_at (G.trees g.old) args)) }
    ensures grows { G.grows g.old g.new }
{
    let result = result_of(g.store(), at.look, function);
    let ty = inst_types(alloc, g, result, at.members)?;
    let made = g.add(Node::Fun(function, at.types, args, ty))?;
    Ok(made)
}

// A list of terms.
fn add_list<G: Grow>(g: &mut G, terms: &[TermId]) -> Result<TermId, AllocError>
    requires { HoldTerms (G.trees g.old) terms.now }
    ensures held { IfOk result (Holds (G.trees g.new)) }
    ensures list { IfOk result (λ id. IsList Sort.Term (tree_at (G.trees g.new) id)) }
    ensures tree { IfOk result (λ id. tree_at (G.trees g.new) id
        ≡ cells (trees_at (G.trees g.old) terms.now)) }
    ensures grows { G.grows g.old g.new }
{
    match terms.split_first() {
        Some((first, rest)) => {
            let tail = add_list(g, rest)?;
            let list = g.add(Node::Cell(*first, tail))?;
            Ok(list)
        }
        None => {
            let list = g.add(Node::End)?;
            Ok(list)
        }
    }
}

// These projections on a list of arguments, after others.
fn push_applied<G: Grow>(
    alloc: Global,
    g: &mut G,
    at: At<'_>,
    projections: &[usize],
    args: TermId,
    out: &mut Vec<TermId>,
) -> Result<(), AllocError>
    requires at { AtHeld (G.trees g.old) at }
    requires results { All (HasClosedResult (task_under (G.trees g.old) at.look)) projections.now }
    requires args_held { Holds (G.trees g.old) args }
    requires args { IsList Sort.Term (tree_at (G.trees g.old) args) }
    requires out_held { HoldTerms (G.trees g.old) out.old.items }
    ensures held { OnOk result (HoldTerms (G.trees g.new) out.new.items) }
    ensures trees { OnOk result (trees_at (G.trees g.new) out.new.items
        ≡ trees_at (G.trees g.old) out.old.items ++ map
        (λ j. apply_list (task_under (G.trees g.old) at.entry.look) j
        (tree_at (G.trees g.old) at.entry.types) (tree_at (G.trees g.old) args)) projections.now) }
    ensures grows { G.grows g.old g.new }
{
    match projections.split_first() {
        Some((first, rest)) => {
            let made = apply(alloc, g, at, *first, args)?;
            out.push(made)?;
            push_applied(alloc, g, at, rest, args, out)
        }
        None => Ok(()),
    }
}

/// These projections of a term.
pub(crate) fn fields<G: Grow>(
    alloc: Global,
    g: &mut G,
    at: At<'_>,
    projections: &[usize],
    term: TermId,
) -> Result<Vec<TermId>, AllocError>
    requires at { AtHeld (G.trees g.old) at }
    requires results { All (HasClosedResult (task_under (G.trees g.old) at.look)) projections.now }
    requires term { HoldsTerm (G.trees g.old) term }
    ensures held { IfOk result (λ v. HoldTerms (G.trees g.new) v.items) }
    ensures trees { IfOk result (λ v. trees_at (G.trees g.new) v.items
        ≡ fields (task_under (G.trees g.old) at.entry.look) projections.now
        (tree_at (G.trees g.old) at.entry.types) (tree_at (G.trees g.old) term)) }
    ensures grows { G.grows g.old g.new }
{
    let args = add_list(g, &[term])?;
    let mut out = Vec::new(alloc);
    push_applied(alloc, g, at, projections, args, &mut out)?;
    Ok(out)
}

/// A constructor on these projections of a term.
pub(crate) fn rebuild<G: Grow>(
    alloc: Global,
    g: &mut G,
    at: At<'_>,
    constructor: usize,
    projections: &[usize],
    term: TermId,
) -> Result<TermId, AllocError>
    requires at { AtHeld (G.trees g.old) at }
    requires results { All (HasClosedResult (task_under (G.trees g.old) at.look))
        (constructor ∷ projections.now) }
    requires term { HoldsTerm (G.trees g.old) term }
    ensures term { IfOk result (HoldsTerm (G.trees g.new)) }
    ensures tree { IfOk result (λ id. tree_at (G.trees g.new) id
        ≡ rebuilt (task_under (G.trees g.old) at.entry.look) constructor projections.now
        (tree_at (G.trees g.old) at.entry.types) (tree_at (G.trees g.old) term)) }
    ensures grows { G.grows g.old g.new }
{
    let out = fields(alloc, g, at, projections, term)?;
    let args = add_list(g, out.as_slice())?;
    let made = apply(alloc, g, at, constructor, args)?;
    Ok(made)
}
