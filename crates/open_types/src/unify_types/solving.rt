// How the bindings are made to solve a further equation: it is taken apart down to unknowns, which are bound in turn.
// It depends on bindings, merged types and resolved types; `solve` goes through the equations so.
ghost use Rattle.std.specs.Prelude.{◌≡◌, ◌≢◌, ◌≤◌, true, false, None, IfOk};
ghost use Rattle.trees.specs.Node.{tree_at, Grows};
ghost use Rattle.open_types.specs.unify_types.Assigned.{Variable};
ghost use Rattle.open_types.specs.unify_types.Bound.{IsTriangular, type_bound, bound_over, BindingsHeld};
ghost use Rattle.open_types.specs.unify_types.Solution.{IsEquation};
ghost use Rattle.open_types.specs.unify_types.Further.{IsListEquation, IsUnbound, AreMerged, Unifies, Fails};

use crate::unify_types::Equation;
use crate::unify_types::bindings::Bindings;
use crate::unify_types::decomposing::{arguments, members, unknown_of};
use crate::unify_types::merging::root;
use crate::unify_types::resolving::{build, has_sought};
use std::alloc::{AllocError, Global};
use std::collections::{HashMap, HashSet};
use trees::TermId;
use trees::store::Store;

// Binds an unknown, which is the left side of an equation, to the right side under the bindings; it doesn't if it occurs
// there.
fn eliminate(
    alloc: Global,
    store: &mut Store,
    rigid: usize,
    bindings: &mut Bindings,
    unknown: usize,
    e: Equation,
) -> Result<bool, AllocError>
    requires equation { IsEquation store.old e }
    requires above { rigid ≤ unknown }
    requires unknown { tree_at store.old e.left ≡ Variable unknown }
    requires unbound { type_bound unknown bindings.old ≡ None }
    requires bound { BindingsHeld store.old bindings.old }
    requires triangular { IsTriangular rigid (bound_over store.old bindings.old) }
    ensures solved { IfOk result (λ yes. yes ≡ true
        → Unifies rigid store.old bindings.old e store.new bindings.new) }
    ensures failed { IfOk result (λ yes. yes ≡ false → Fails rigid store.old bindings.old e) }
    ensures grows { Grows store.old store.new }
{
    let mut known = HashMap::new(alloc);
    let ty = build(store, rigid, bindings, &mut known, usize::MAX, e.right)?;
    if store.same(e.left, ty) {
        return Ok(true);
    }
    let mut clear = HashSet::new(alloc);
    if has_sought(store, &mut clear, rigid, Some(unknown), ty)? {
        return Ok(false);
    }
    bindings.add_binding(unknown, ty)?;
    Ok(true)
}

// Takes an equation between types apart, down to unknowns, which it binds; it doesn't if it has no solution. What was made the
// same is remembered, so that shared types are taken apart once.
#[cycle(unification)]
fn unify_sides(
    alloc: Global,
    store: &mut Store,
    rigid: usize,
    bindings: &mut Bindings,
    merged: &mut HashMap<usize, TermId>,
    steps: usize,
    e: Equation,
) -> Result<bool, AllocError>
    requires equation { IsEquation store.old e }
    requires bound { BindingsHeld store.old bindings.old }
    requires triangular { IsTriangular rigid (bound_over store.old bindings.old) }
    requires merged { AreMerged rigid (bound_over store.old bindings.old) store.old merged.old }
    ensures solved { IfOk result (λ yes. yes ≡ true
        → Unifies rigid store.old bindings.old e store.new bindings.new) }
    ensures failed { IfOk result (λ yes. yes ≡ false → Fails rigid store.old bindings.old e) }
    ensures merged { IfOk result (λ yes. yes ≡ true
        → AreMerged rigid (bound_over store.new bindings.new) store.new merged.new) }
    ensures grows { Grows store.old store.new }
{
    let left = root(store, rigid, bindings, merged, usize::MAX, e.left)?;
    let right = root(store, rigid, bindings, merged, usize::MAX, e.right)?;
    if store.same(left, right) {
        return Ok(true);
    }
    if steps == 0 {
        return Err(AllocError);
    }
    let roots = Equation { left, right };
    unify_roots(alloc, store, rigid, bindings, merged, steps - 1, roots)
}

#[cycle(unification)]
fn unify_roots(
    alloc: Global,
    store: &mut Store,
    rigid: usize,
    bindings: &mut Bindings,
    merged: &mut HashMap<usize, TermId>,
    steps: usize,
    e: Equation,
) -> Result<bool, AllocError>
    requires equation { IsEquation store.old e }
    requires differ { tree_at store.old e.left ≢ tree_at store.old e.right }
    requires left_unbound { IsUnbound bindings.old (tree_at store.old e.left) }
    requires right_unbound { IsUnbound bindings.old (tree_at store.old e.right) }
    requires bound { BindingsHeld store.old bindings.old }
    requires triangular { IsTriangular rigid (bound_over store.old bindings.old) }
    requires merged { AreMerged rigid (bound_over store.old bindings.old) store.old merged.old }
    ensures solved { IfOk result (λ yes. yes ≡ true
        → Unifies rigid store.old bindings.old e store.new bindings.new) }
    ensures failed { IfOk result (λ yes. yes ≡ false → Fails rigid store.old bindings.old e) }
    ensures merged { IfOk result (λ yes. yes ≡ true
        → AreMerged rigid (bound_over store.new bindings.new) store.new merged.new) }
    ensures grows { Grows store.old store.new }
{
    if let Some(unknown) = unknown_of(store, rigid, e.left) {
        return eliminate(alloc, store, rigid, bindings, unknown, e);
    }
    if let Some(unknown) = unknown_of(store, rigid, e.right) {
        let turned = Equation {
            left: e.right,
            right: e.left,
        };
        return eliminate(alloc, store, rigid, bindings, unknown, turned);
    }
    match arguments(store, rigid, e) {
        Some(lists) => {
            if !unify_lists(alloc, store, rigid, bindings, merged, steps, lists)? {
                return Ok(false);
            }
            merged.insert(e.left.0, e.right)?;
            Ok(true)
        }
        None => Ok(false),
    }
}

#[cycle(unification)]
fn unify_lists(
    alloc: Global,
    store: &mut Store,
    rigid: usize,
    bindings: &mut Bindings,
    merged: &mut HashMap<usize, TermId>,
    steps: usize,
    e: Equation,
) -> Result<bool, AllocError>
    requires lists { IsListEquation store.old e }
    requires bound { BindingsHeld store.old bindings.old }
    requires triangular { IsTriangular rigid (bound_over store.old bindings.old) }
    requires merged { AreMerged rigid (bound_over store.old bindings.old) store.old merged.old }
    ensures solved { IfOk result (λ yes. yes ≡ true
        → Unifies rigid store.old bindings.old e store.new bindings.new) }
    ensures failed { IfOk result (λ yes. yes ≡ false → Fails rigid store.old bindings.old e) }
    ensures merged { IfOk result (λ yes. yes ≡ true
        → AreMerged rigid (bound_over store.new bindings.new) store.new merged.new) }
    ensures grows { Grows store.old store.new }
{
    if store.same(e.left, e.right) {
        return Ok(true);
    }
    if steps == 0 {
        return Err(AllocError);
    }
    match members(store, rigid, e) {
        Some((first, rest)) => {
            if !unify_sides(alloc, store, rigid, bindings, merged, steps - 1, first)? {
                return Ok(false);
            }
            unify_lists(alloc, store, rigid, bindings, merged, steps - 1, rest)
        }
        None => Ok(false),
    }
}

/// Makes the bindings solve a further equation, if they can. Its parts are made the same in order, each under the bindings
/// that those before it made.
pub fn unify(
    alloc: Global,
    store: &mut Store,
    rigid: usize,
    bindings: &mut Bindings,
    e: Equation,
) -> Result<bool, AllocError>
    requires equation { IsEquation store.old e }
    requires bound { BindingsHeld store.old bindings.old }
    requires triangular { IsTriangular rigid (bound_over store.old bindings.old) }
    ensures solved { IfOk result (λ yes. yes ≡ true
        → Unifies rigid store.old bindings.old e store.new bindings.new) }
    ensures failed { IfOk result (λ yes. yes ≡ false → Fails rigid store.old bindings.old e) }
    ensures grows { Grows store.old store.new }
{
    let mut merged = HashMap::new(alloc);
    unify_sides(alloc, store, rigid, bindings, &mut merged, usize::MAX, e)
}
