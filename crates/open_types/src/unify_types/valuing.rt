// The unknowns that a solution determines.
// They depend on resolved types; a solution keeps them.
ghost use Rattle.std.specs.Prelude.{ℕ, ◌≤◌, IfOk, OnOk};
ghost use Rattle.trees.specs.Node.{Grows};
ghost use Rattle.open_types.specs.unify_types.Bound.{IsTriangular, bound_over, BindingsHeld, AreUnderSubstitution};
ghost use Rattle.open_types.specs.unify_types.Valued.{AreValues, IsTreated};

use crate::unify_types::bindings::Bindings;
use crate::unify_types::resolving::{build, has_sought};
use std::alloc::{AllocError, Global};
use std::collections::{HashMap, HashSet};
use trees::TermId;
use trees::store::Store;

// The value of an unknown, if its type has no unknown left.
fn add_value(
    alloc: Global,
    store: &mut Store,
    rigid: usize,
    bindings: &Bindings,
    known: &mut HashMap<usize, TermId>,
    values: &mut HashMap<usize, TermId>,
    unknown: usize,
) -> Result<(), AllocError>
    requires bound { BindingsHeld store.old bindings.now }
    requires triangular { IsTriangular rigid (bound_over store.old bindings.now) }
    requires unknown { rigid ≤ unknown }
    requires known { AreUnderSubstitution rigid (bound_over store.old bindings.now) store.old
        known.old }
    requires values { AreValues rigid (bound_over store.old bindings.now) store.old values.old }
    ensures known { OnOk result (AreUnderSubstitution rigid (bound_over store.old bindings.now)
        store.new
        known.new) }
    ensures values { OnOk result (AreValues rigid (bound_over store.old bindings.now) store.new
        values.new) }
    ensures treated { OnOk result (IsTreated rigid (bound_over store.old bindings.now) values.new
        unknown) }
    ensures kept { OnOk result ((u : ℕ) → IsTreated rigid (bound_over store.old bindings.now)
        values.old u → IsTreated rigid (bound_over store.old bindings.now) values.new u) }
    ensures grows { Grows store.old store.new }
{
    let ty = match bindings.get(unknown) {
        Some(ty) => ty,
        None => return Ok(()),
    };
    let made = build(store, rigid, bindings, known, usize::MAX, ty)?;
    let mut clear = HashSet::new(alloc);
    if has_sought(store, &mut clear, rigid, None, made)? {
        return Ok(());
    }
    values.insert(unknown, made)?;
    Ok(())
}

/// The unknowns whose types have no unknown left, with the numbers of their types.
pub fn determined_unknowns(
    alloc: Global,
    store: &mut Store,
    rigid: usize,
    bindings: &Bindings,
) -> Result<HashMap<usize, TermId>, AllocError>
    requires bound { BindingsHeld store.old bindings.now }
    requires triangular { IsTriangular rigid (bound_over store.old bindings.now) }
    ensures values { IfOk result (AreValues rigid (bound_over store.new bindings.now) store.new) }
    ensures treated { IfOk result (λ values. (u : ℕ) → rigid ≤ u
        → IsTreated rigid (bound_over store.new bindings.now) values u) }
    ensures grows { Grows store.old store.new }
{
    let mut known = HashMap::new(alloc);
    let mut values = HashMap::new(alloc);
    for i in 0..bindings.len() {
        let unknown = bindings.unknown_at(i);
        add_value(
            alloc,
            store,
            rigid,
            bindings,
            &mut known,
            &mut values,
            unknown,
        )?;
    }
    Ok(values)
}
