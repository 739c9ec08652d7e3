// What a type is known to be the same as: the type of a bound unknown, or one that it was made the same as.
// They depend on the bindings; solving depends on them.
ghost use Rattle.std.specs.Prelude.{MatchOption, IfOk};
ghost use Rattle.trees.specs.Node.{tree_at, Holds};
ghost use Rattle.open_types.specs.unify_types.Assigned.{IsType};
ghost use Rattle.open_types.specs.unify_types.Bound.{IsTriangular, bound_over, BindingsHeld};
ghost use Rattle.open_types.specs.unify_types.Further.{IsUnbound, StandsFor, AreMerged};

use crate::unify_types::bindings::Bindings;
use std::alloc::AllocError;
use std::collections::HashMap;
use trees::store::Store;
use trees::{Node, TermId};

// The type that a type was made the same as, if it was.
fn merged_type(
    store: &Store,
    rigid: usize,
    bindings: &Bindings,
    merged: &HashMap<usize, TermId>,
    ty: TermId,
) -> Option<TermId>
    requires held { Holds store.now ty }
    requires bound { BindingsHeld store.now bindings.now }
    requires triangular { IsTriangular rigid (bound_over store.now bindings.now) }
    requires merged { AreMerged rigid (bound_over store.now bindings.now) store.now merged.now }
    ensures { MatchOption result (IsUnbound bindings.now (tree_at store.now ty))
        (StandsFor rigid (bound_over store.now bindings.now) store.now (tree_at store.now ty)) }
{
    let _ = rigid;
    match store.node(ty) {
        Node::TyVar(unknown) => bindings.get(unknown),
        _ => merged.get(&ty.0).copied(),
    }
}

/// The type at the end of those that a type was made the same as. No path is as long as `steps` allows.
pub fn root(
    store: &Store,
    rigid: usize,
    bindings: &Bindings,
    merged: &HashMap<usize, TermId>,
    steps: usize,
    ty: TermId,
) -> Result<TermId, AllocError>
    requires held { Holds store.now ty }
    requires typed { IsType (tree_at store.now ty) }
    requires bound { BindingsHeld store.now bindings.now }
    requires triangular { IsTriangular rigid (bound_over store.now bindings.now) }
    requires merged { AreMerged rigid (bound_over store.now bindings.now) store.now merged.now }
    ensures stands { IfOk result
        (StandsFor rigid (bound_over store.now bindings.now) store.now (tree_at store.now ty)) }
    ensures unbound { IfOk result (λ id. IsUnbound bindings.now (tree_at store.now id)) }
{
    if steps == 0 {
        return Err(AllocError);
    }
    match merged_type(store, rigid, bindings, merged, ty) {
        Some(next) => root(store, rigid, bindings, merged, steps - 1, next),
        None => Ok(ty),
    }
}
