// The signatures of members, and their entries.
ghost use Rattle.std.specs.Prelude.{◌≡◌, ◌++◌, ◌∷◌, [], ℕ, List, length, map, All, IfOk, OnOk};
ghost use Rattle.trees.specs.Tree.{Tree};
ghost use Rattle.trees.specs.Node.{Grows};
ghost use Rattle.tasks.specs.Meaning.{symbols_at};
ghost use Rattle.name_resolution.specs.Naming.{where_at, scope_at};
ghost use Rattle.open_types.specs.Drafts.{SymbolTyped, WorldHeld};
ghost use Rattle.elab_groups.specs.parts.Entries.{IsSignature, AreScopes, wanting_tuples};
ghost use Rattle.elab_groups.specs.parts.Outcomes.{over, setting};
ghost use Rattle.elab_groups.specs.members.Members.{signature_of, signed_entries};
ghost use Rattle.elab_groups.specs.members.Sources.{member_at, members_at, signed_at, SignedHeld, IsEntered};

use crate::members::naming::over_vars;
use crate::members::params::{kind_of, push_params, signature_seen};
use crate::members::sources::MemberSource;
use crate::parts::{Place, join_words, push_tuples, world_over};
use name_resolution::{World, own_name};
use open_types::type_of_form;
use scopes::{Scope, Seq, Text};
use std::alloc::{AllocError, Global};
use tasks::{Signature, SymbolInfo};
use trees::store::{Store, TermId};

/// The type variables of a signature, the types of its parameters and of its result.
#[derive(Drop)]
pub struct Signed {
    pub vars: Seq<Text>,
    pub args: Seq<TermId>,
    pub result: Option<TermId>,
}

/// The signatures of members, whose entries stand from a number on.
#[derive(Drop)]
pub struct Signatures {
    pub number: usize,
    pub list: Vec<Signed>,
}

// The signature of a member, whether its names are there or not.
fn sign(
    alloc: Global,
    store: &mut Store,
    world: &World<'_>,
    m: &MemberSource<'_>,
) -> Result<Signed, AllocError>
    requires { WorldHeld store.old world.now }
    ensures held { IfOk result (SignedHeld store.new) }
    ensures signed { IfOk result (λ it. signed_at store.new it ≡ signature_of
        (where_at store.old world.now) (member_at m.now)) }
    ensures grows { Grows store.old store.new }
{
    let vars = signature_seen(alloc, m.params, m.result)?.vars;
    let own = over_vars(world, vars.as_slice());
    let mut args = Vec::new(alloc);
    push_params(alloc, store, &mut args, m.params, &own)?;
    let result = match m.result {
        Some(ty) => Some(type_of_form(alloc, store, &own, ty)?),
        None => None,
    };
    Ok(Signed {
        vars,
        args: Seq::from_vec(args),
        result,
    })
}

// The signatures of members, after those that are there.
fn sign_all(
    alloc: Global,
    store: &mut Store,
    world: &World<'_>,
    list: &mut Vec<Signed>,
    members: &[MemberSource<'_>],
) -> Result<(), AllocError>
    requires world { WorldHeld store.old world.now }
    requires list { All (SignedHeld store.old) list.old.items }
    ensures held { OnOk result (All (SignedHeld store.new) list.new.items) }
    ensures signed { OnOk result (map (signed_at store.new) list.new.items ≡ map
        (signed_at store.old) list.old.items ++ map (signature_of (where_at store.old world.now))
        (members_at members.now)) }
    ensures grows { Grows store.old store.new }
{
    let Some((first, rest)) = members.split_first() else {
        return Ok(());
    };
    let one = sign(alloc, store, world, first)?;
    list.push(one)?;
    sign_all(alloc, store, world, list, rest)
}

// The signatures of members over a signature and scopes.
fn sign_members(
    alloc: Global,
    store: &mut Store,
    sig: &Signature,
    scope: &Scope,
    members: &[MemberSource<'_>],
) -> Result<Vec<Signed>, AllocError>
    requires signature { IsSignature store.old sig.now.symbols }
    requires scopes { AreScopes store.old (length sig.now.symbols) scope.now }
    ensures held { IfOk result (λ list. All (SignedHeld store.new) list.items) }
    ensures signed { IfOk result (λ list. map (signed_at store.new) list.items ≡ map
        (signature_of (over (symbols_at store.old sig.now.symbols)
        (scope_at store.old scope.now) [])) (members_at members.now)) }
    ensures grows { Grows store.old store.new }
{
    let world = world_over(sig, scope, &[], true);
    let mut list = Vec::new(alloc);
    sign_all(alloc, store, &world, &mut list, members)?;
    Ok(list)
}

// The entry of a member with its signature.
fn push_member(
    alloc: Global,
    store: &Store,
    sig: &mut Signature,
    place: &Place<'_>,
    m: &MemberSource<'_>,
    signed: &Signed,
) -> Result<(), AllocError>
    ensures entries { OnOk result (symbols_at store.now sig.new.symbols ≡ symbols_at store.now
        sig.old.symbols ++ signed_entries place.now.theory.now place.now.within.now
        (member_at m.now ∷ []) (signed_at store.now signed.now ∷ [])) }
    ensures typed { OnOk result (SignedHeld store.now signed.now → All (SymbolTyped store.now)
        sig.old.symbols → All (SymbolTyped store.now) sig.new.symbols) }
    ensures ints { OnOk result (sig.new.ints ≡ sig.old.ints) }
{
    let _ = store;
    let own = own_name(alloc, m.name.style, m.name.text.as_slice())?;
    let info = SymbolInfo {
        theory: Text::from_slice(alloc, place.theory)?,
        name: join_words(alloc, place.within, own.as_slice())?,
        kind: kind_of(m.result),
        vars: signed.vars.len(),
        args: Seq::from_slice(alloc, signed.args.as_slice())?,
        result: signed.result,
    };
    sig.symbols.push(info)
}

// The entries of members with their signatures, of which there is one for each.
fn push_entries(
    alloc: Global,
    store: &Store,
    sig: &mut Signature,
    place: &Place<'_>,
    members: &[MemberSource<'_>],
    signed: &[Signed],
) -> Result<(), AllocError>
    ensures entries { OnOk result (symbols_at store.now sig.new.symbols ≡ symbols_at store.now
        sig.old.symbols ++ signed_entries place.now.theory.now place.now.within.now
        (members_at members.now) (map (signed_at store.now) signed.now)) }
    ensures typed { OnOk result (All (SignedHeld store.now) signed.now → All (SymbolTyped store.now)
        sig.old.symbols → All (SymbolTyped store.now) sig.new.symbols) }
    ensures ints { OnOk result (sig.new.ints ≡ sig.old.ints) }
{
    let Some((first, rest)) = members.split_first() else {
        return Ok(());
    };
    let Some((one, others)) = signed.split_first() else {
        return Ok(());
    };
    push_member(alloc, store, sig, place, first, one)?;
    push_entries(alloc, store, sig, place, rest, others)
}

/// The entries of the tuples of those of some widths whose constructors aren't there, then those of members, whether their names
/// are there or not.
pub fn push_group(
    alloc: Global,
    store: &mut Store,
    sig: &mut Signature,
    scope: &Scope,
    place: &Place<'_>,
    widths: &[usize],
    members: &[MemberSource<'_>],
) -> Result<Signatures, AllocError>
    requires signature { IsSignature store.old sig.old.symbols }
    requires scopes { AreScopes store.old (length sig.old.symbols) scope.now }
    ensures entered { IfOk result (IsEntered (setting place.now store.old sig.old scope.now)
        (symbols_at store.old sig.old.symbols ++ wanting_tuples
        (symbols_at store.old sig.old.symbols) widths.now) (members_at members.now) sig.old
        store.new sig.new) }
    ensures grows { Grows store.old store.new }
{
    push_tuples(alloc, store, sig, widths)?;
    let number = sig.symbols.len();
    let list = sign_members(alloc, store, sig, scope, members)?;
    push_entries(alloc, store, sig, place, members, list.as_slice())?;
    Ok(Signatures { number, list })
}
