// The variables of quantifiers.
// They depend on drafts and on types; the walk depends on them.
ghost use Rattle.std.specs.Prelude.{◌≡◌, IfOk, OnOk, length, map, All};
ghost use Rattle.trees.specs.Node.{tree_at, Holds, Grows};
ghost use Rattle.trees.specs.Sorts.{sort_of};
ghost use Rattle.trees.specs.declared.Sort.TheVariants.{Formula};
ghost use Rattle.name_resolution.specs.Abstract.{texts_of_names, bound_names_of, binders_of};
ghost use Rattle.name_resolution.specs.Naming.{where_at};
ghost use Rattle.open_types.specs.Pieces.{quantify, locals_of_type, untyped, binder_locals, binder_vars, binders_vars, bound};
ghost use Rattle.open_types.specs.Drafts.{HoldsType, WorldHeld, IsReady, IsMade, IsBound, local_at};

use crate::draft::{Constraints, make, new_unknown};
use crate::locals::Local;
use crate::types::type_of_form;
use name_resolution::World;
use std::alloc::{AllocError, Global};
use surface::{BinderTree, Name};
use trees::store::{Grow, Node, Store, TermId};

/// A formula under quantifiers, the first one outermost.
pub fn quantify(
    store: &mut Store,
    draft: &Constraints,
    all: bool,
    bound: &[Local<'_>],
    body: TermId,
) -> Result<TermId, AllocError>
    requires bound { All (λ l. HoldsType store.old l.ty) bound.now }
    requires body { Holds store.old body }
    requires formula { sort_of (tree_at store.old body) ≡ Formula }
    requires ready { IsReady store.old draft.now }
    ensures made { IfOk result (IsMade store.old draft.now store.new (quantify all (map (local_at
        store.old) bound.now) (tree_at store.old body))) }
    ensures formula { IfOk result (λ id. sort_of (tree_at store.new id) ≡ Formula) }
    ensures grows { Grows store.old store.new }
{
    let Some((first, rest)) = bound.split_first() else {
        return Ok(body);
    };
    let inner = quantify(store, draft, all, rest, body)?;
    if all {
        make(store, draft, Node::Forall(first.ty, inner))
    } else {
        make(store, draft, Node::Exists(first.ty, inner))
    }
}

/// Variables of one type, after those that are there.
#[tactic(auto, using(crate::proofs::Binding::bound_none, crate::proofs::Binding::bound_first))]
fn bind_typed<'a>(
    store: &Store,
    draft: &Constraints,
    locals: &mut Vec<Local<'a>>,
    names: &'a [Name],
    ty: TermId,
) -> Result<(), AllocError>
    requires ty { HoldsType store.now ty }
    requires ready { IsReady store.now draft.now }
    requires held { All (λ l. HoldsType store.now l.ty) locals.old.items }
    ensures { OnOk result (IsBound store.now draft.now locals.old.items store.now draft.now
        locals.new.items 0 0 (locals_of_type (tree_at store.now ty) (texts_of_names names.now))) }
{
    let Some((first, rest)) = names.split_first() else {
        return Ok(());
    };
    locals.push(Local {
        name: first.text.as_slice(),
        ty,
    })?;
    bind_typed(store, draft, locals, rest, ty)
}

/// Variables each of which takes an unknown, at a token.
fn bind_untyped<'a>(
    store: &mut Store,
    draft: &mut Constraints,
    locals: &mut Vec<Local<'a>>,
    names: &'a [Name],
    token: usize,
) -> Result<(), AllocError>
    requires ready { IsReady store.old draft.old }
    requires held { All (λ l. HoldsType store.old l.ty) locals.old.items }
    ensures bound { OnOk result (IsBound store.old draft.old locals.old.items store.new draft.new
        locals.new.items token (length names.now) (untyped (length draft.old.takers) (texts_of_names
        names.now))) }
    ensures grows { Grows store.old store.new }
{
    let Some((first, rest)) = names.split_first() else {
        return Ok(());
    };
    let ty = new_unknown(store, draft, token)?;
    locals.push(Local {
        name: first.text.as_slice(),
        ty,
    })?;
    bind_untyped(store, draft, locals, rest, token)
}

// The variables of a binder.
fn bind_one<'a>(
    alloc: Global,
    store: &mut Store,
    draft: &mut Constraints,
    locals: &mut Vec<Local<'a>>,
    binder: &'a BinderTree,
    world: &World<'_>,
    token: usize,
) -> Result<(), AllocError>
    requires world { WorldHeld store.old world.now }
    requires ready { IsReady store.old draft.old }
    requires held { All (λ l. HoldsType store.old l.ty) locals.old.items }
    ensures bound { OnOk result (IsBound store.old draft.old locals.old.items store.new draft.new
        locals.new.items token (binder_vars (bound_names_of binder.now).names (bound_names_of
        binder.now).of_type) (binder_locals (where_at store.old world.now) (length draft.old.takers)
        (bound_names_of binder.now).names (bound_names_of binder.now).of_type)) }
    ensures grows { Grows store.old store.new }
{
    let names = binder.names.as_slice();
    match &binder.ty {
        Some(ty) => {
            let ty = type_of_form(alloc, store, world, ty)?;
            bind_typed(store, draft, locals, names, ty)
        }
        None => bind_untyped(store, draft, locals, names, token),
    }
}

/// The variables of binders, after those that are there.
pub fn bind<'a>(
    alloc: Global,
    store: &mut Store,
    draft: &mut Constraints,
    locals: &mut Vec<Local<'a>>,
    binders: &'a [BinderTree],
    world: &World<'_>,
    token: usize,
) -> Result<(), AllocError>
    requires world { WorldHeld store.old world.now }
    requires ready { IsReady store.old draft.old }
    requires held { All (λ l. HoldsType store.old l.ty) locals.old.items }
    ensures bound { OnOk result (IsBound store.old draft.old locals.old.items store.new draft.new
        locals.new.items token (binders_vars (binders_of binders.now)) (bound (where_at store.old
        world.now) (length draft.old.takers) (binders_of binders.now))) }
    ensures grows { Grows store.old store.new }
{
    let Some((first, rest)) = binders.split_first() else {
        return Ok(());
    };
    bind_one(alloc, store, draft, locals, first, world, token)?;
    bind(alloc, store, draft, locals, rest, world, token)
}
