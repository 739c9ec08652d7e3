// The bodies of a group's members: one walk after another, into one draft.
ghost use Rattle.std.specs.Prelude.{◌≡◌, ◌++◌, List, length, map, true, All, IfOk, OnOk};
ghost use Rattle.std.specs.Option.{is_some};
ghost use Rattle.tasks.specs.trees.Tree.{Tree};
ghost use Rattle.tasks.specs.trees.Node.{tree_at, Holds, Grows};
ghost use Rattle.tasks.specs.trees.Sorts.{sort_of};
ghost use Rattle.tasks.specs.Meaning.{trees_at};
ghost use Rattle.name_resolution.specs.Naming.{where_at};
ghost use Rattle.open_types.specs.Drafts.{HoldsType, WorldHeld, IsReady, local_at, due};
ghost use Rattle.elab_groups.specs.members.Sources.{member_at, members_at, signed_at, SignedHeld, IsResolved, AreResolved};
ghost use Rattle.elab_groups.specs.Groups.{typed_locals, member_piece, member_pieces};
ghost use Rattle.elab_groups.specs.Bodies.{IsBodyWalked, AreBodiesWalked};

use crate::members::{MemberSource, Signed, over_vars, push_param_names};
use name_resolution::World;
use open_types::{Constraints, Local, Locals, walk};
use std::alloc::{AllocError, Global};
use tasks::{Grow, Node, Store, TermId, Text};

// The variables of these names and types, after those that are there.
fn push_locals<'a>(
    list: &mut Vec<Local<'a>>,
    names: &'a [Text],
    types: &[TermId],
) -> Result<(), AllocError>
    ensures locals { OnOk result ((s : List Tree) → map (local_at s) list.new.items ≡ map
        (local_at s) list.old.items ++ typed_locals names.now (trees_at s types.now)) }
    ensures held { OnOk result ((s : List Tree) → All (HoldsType s) types.now → All
        (λ (l : Local). HoldsType s l.ty) list.old.items → All (λ (l : Local). HoldsType s l.ty)
        list.new.items) }
{
    let Some((name, others)) = names.split_first() else {
        return Ok(());
    };
    let Some((ty, rest)) = types.split_first() else {
        return Ok(());
    };
    list.push(Local {
        name: name.as_slice(),
        ty: *ty,
    })?;
    push_locals(list, others, rest)
}

// The body of a member, where it has one.
fn walk_body(
    alloc: Global,
    store: &mut Store,
    draft: &mut Constraints,
    world: &World<'_>,
    m: &MemberSource<'_>,
    signed: &Signed,
) -> Result<TermId, AllocError>
    requires world { WorldHeld store.old world.now }
    requires ready { IsReady store.old draft.old }
    requires signed { SignedHeld store.old signed.now }
    requires resolved { IsResolved (where_at store.old world.now) (member_at m.now)
        (signed_at store.old signed.now) }
    ensures walked { IfOk result (IsBodyWalked (member_piece (where_at store.old world.now)
        (length draft.old.takers) (member_at m.now) (signed_at store.old signed.now)) store.old
        draft.old store.new draft.new) }
    ensures sort { IfOk result (λ id. is_some (member_at m.now).body ≡ true → sort_of
        (tree_at store.new id) ≡ due signed.now.result) }
    ensures grows { Grows store.old store.new }
{
    let Some(e) = m.body else {
        let end = store.add(Node::End)?;
        return Ok(end);
    };
    let mut names = Vec::new(alloc);
    push_param_names(alloc, &mut names, m.params)?;
    let mut list = Vec::new(alloc);
    push_locals(&mut list, names.as_slice(), signed.args.as_slice())?;
    let own = over_vars(world, signed.vars.as_slice());
    let locals = Locals::Inside(list.as_slice(), &Locals::Outside);
    walk(alloc, store, draft, e, &own, &locals, signed.result)
}

/// The bodies of members, after those that are there.
pub fn walk_bodies(
    alloc: Global,
    store: &mut Store,
    draft: &mut Constraints,
    world: &World<'_>,
    ids: &mut Vec<TermId>,
    members: &[MemberSource<'_>],
    signed: &[Signed],
) -> Result<(), AllocError>
    requires world { WorldHeld store.old world.now }
    requires ready { IsReady store.old draft.old }
    requires ids { All (Holds store.old) ids.old.items }
    requires signed { All (SignedHeld store.old) signed.now }
    requires resolved { AreResolved (where_at store.old world.now) (members_at members.now)
        (map (signed_at store.old) signed.now) }
    ensures walked { OnOk result (AreBodiesWalked (member_pieces (where_at store.old world.now)
        (length draft.old.takers) (members_at members.now) (map (signed_at store.old) signed.now))
        (members_at members.now) signed.now store.old draft.old ids.old.items store.new draft.new
        ids.new.items) }
    ensures grows { Grows store.old store.new }
{
    let Some((first, rest)) = members.split_first() else {
        return Ok(());
    };
    let Some((one, others)) = signed.split_first() else {
        return Ok(());
    };
    let id = walk_body(alloc, store, draft, world, first, one)?;
    ids.push(id)?;
    walk_bodies(alloc, store, draft, world, ids, rest, others)
}
