// The members of a group, each with its parts in the surface tree, and what is seen in them.
ghost use Rattle.std.specs.Prelude.{◌≡◌, ◌++◌, ◌∷◌, [], map, OnOk};
ghost use Rattle.surface.specs.SurfaceDeclarations.{member_of};
ghost use Rattle.name_resolution.specs.variables.Entered.{seen_at};
ghost use Rattle.elab_groups.specs.parts.Declarations.{group_member};
ghost use Rattle.elab_groups.specs.members.Members.{members_seen};
ghost use Rattle.elab_groups.specs.members.Sources.{member_at, members_at};

use crate::members::params::enter_params;
use name_resolution::variables::{Seen, enter_form, enter_variables};
use std::alloc::{AllocError, Global};
use surface::{Expr, MemberTree, OpName, ParamTree, TypeTree};

/// A function where it has a result's type, else a predicate; without a body it has no definition.
#[derive(Clone, Copy)]
pub struct MemberSource<'a> {
    pub name: &'a OpName,
    pub params: &'a [ParamTree],
    pub result: Option<&'a TypeTree>,
    pub body: Option<&'a Expr>,
}

/// The members after `with`, after those that are there.
pub fn gather_members<'a>(
    list: &mut Vec<MemberSource<'a>>,
    members: &'a [MemberTree],
) -> Result<(), AllocError>
    ensures { OnOk result (members_at list.new.items ≡ members_at list.old.items ++ map group_member
        (map member_of members.now)) }
{
    let Some((first, rest)) = members.split_first() else {
        return Ok(());
    };
    list.push(MemberSource {
        name: &first.name,
        params: first.params.as_slice(),
        result: first.result.as_ref(),
        body: Some(&first.body),
    })?;
    gather_members(list, rest)
}

// The type variables and tuples of a member, after those that are there.
fn enter_member(alloc: Global, seen: &mut Seen, m: &MemberSource<'_>) -> Result<(), AllocError>
    ensures { OnOk result (seen_at seen.new ≡ members_seen (seen_at seen.old)
        (member_at m.now ∷ [])) }
{
    enter_params(alloc, seen, m.params)?;
    if let Some(ty) = m.result {
        enter_form(alloc, seen, ty)?;
    }
    match m.body {
        Some(e) => enter_variables(alloc, seen, e),
        None => Ok(()),
    }
}

/// Those of members, after those that are there.
pub fn enter_members(
    alloc: Global,
    seen: &mut Seen,
    members: &[MemberSource<'_>],
) -> Result<(), AllocError>
    ensures { OnOk result (seen_at seen.new ≡ members_seen (seen_at seen.old)
        (members_at members.now)) }
{
    let Some((first, rest)) = members.split_first() else {
        return Ok(());
    };
    enter_member(alloc, seen, first)?;
    enter_members(alloc, seen, rest)
}
