// Types and arguments put into a body.
ghost use Rattle.std.specs.Prelude.{◌≡◌, ◌+◌, ◌<◌, All, IsTrue, IfOk};
ghost use Rattle.trees.specs.Tree.{loose, size};
ghost use Rattle.trees.specs.Binding.{inst_types, inst_many};
ghost use Rattle.trees.specs.Node.{tree_at, Holds};
ghost use Rattle.trees.specs.Sorts.{IsList};
ghost use Rattle.tasks.specs.Typing.{members};
ghost use Rattle.trees.specs.binders.Visits.{AreHeldOfSort};

use crate::full_bodies::members::list_members;
use std::alloc::{AllocError, Global};
use trees::binders::{inst_many, inst_types};
use trees::store::{Grow, Store};
use trees::{Sort, TermId};

// Whether a tree is so small that its indices fit where it is put under as many binders as another such tree has nodes.
fn is_small(store: &Store, id: TermId) -> bool
    requires { Holds store.now id }
    ensures { IsTrue result → loose (tree_at store.now id) + size (tree_at store.now id)
        < 6000000000000000000 }
{
    let most_open = 3_000_000_000_000_000_000usize;
    let most_nodes = 3_000_000_000_000_000_000u64;
    store.loose(id) < most_open && store.size(id) < most_nodes
}

// Whether each is.
fn are_small(store: &Store, ids: &[TermId]) -> bool
    requires { AreHeldOfSort Sort.Term store.now ids.now }
    ensures { IsTrue result → All (λ id. loose (tree_at store.now id) + size (tree_at store.now id)
        < 6000000000000000000) ids.now }
{
    match ids.split_first() {
        Some((first, rest)) => is_small(store, *first) && are_small(store, rest),
        None => true,
    }
}

/// A body with a list of types for its type variables.
pub fn put_types<G: Grow>(
    alloc: Global,
    g: &mut G,
    body: TermId,
    types: TermId,
) -> Result<TermId, AllocError>
    requires body_held { Holds (G.trees g.old) body }
    requires types_held { Holds (G.trees g.old) types }
    requires types { IsList Sort.Kind (tree_at (G.trees g.old) types) }
    ensures held { IfOk result (Holds (G.trees g.new)) }
    ensures tree { IfOk result (λ id. tree_at (G.trees g.new) id
        ≡ inst_types (tree_at (G.trees g.old) body) (members (tree_at (G.trees g.old) types))) }
    ensures grows { G.grows g.old g.new }
{
    let of_types = list_members(alloc, g.store(), types, Sort::Kind)?;
    let made = inst_types(alloc, g, body, &of_types)?;
    Ok(made)
}

/// A body with a list of arguments for its parameters. Where the body or an argument has 3 * 10^18 nodes, as no tree of a
/// task that is small enough has, it says want of memory.
pub fn put_arguments<G: Grow>(
    alloc: Global,
    g: &mut G,
    body: TermId,
    args: TermId,
) -> Result<TermId, AllocError>
    requires body_held { Holds (G.trees g.old) body }
    requires args_held { Holds (G.trees g.old) args }
    requires args { IsList Sort.Term (tree_at (G.trees g.old) args) }
    ensures held { IfOk result (Holds (G.trees g.new)) }
    ensures tree { IfOk result (λ id. tree_at (G.trees g.new) id
        ≡ inst_many (tree_at (G.trees g.old) body) (members (tree_at (G.trees g.old) args))) }
    ensures grows { G.grows g.old g.new }
{
    let of_args = list_members(alloc, g.store(), args, Sort::Term)?;
    g.store().laws();
    if !is_small(g.store(), body) || !are_small(g.store(), &of_args) {
        return Err(AllocError);
    }
    let made = inst_many(alloc, g, body, &of_args)?;
    Ok(made)
}
