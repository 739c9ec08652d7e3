// Groups where they are: what is made of them, or their first fault.
ghost use Rattle.std.specs.Prelude.{◌≡◌, List, length, map, true, All, IfOk, IfErr};
ghost use Rattle.std.specs.List.{AllByRecursion};
ghost use Rattle.std.specs.Option.{is_some};
ghost use Rattle.tasks.specs.trees.Node.{Grows};
ghost use Rattle.tasks.specs.Meaning.{trees_at, body_at, BodyHeld, declarations_at, DeclHeld};
ghost use Rattle.name_resolution.specs.Naming.{where_at};
ghost use Rattle.open_types.specs.Drafts.{WorldHeld};
ghost use Rattle.open_types.specs.Scoped.{IsScoped};
ghost use Rattle.elab_groups.specs.parts.Elaborated.{IsTypingFault};
ghost use Rattle.elab_groups.specs.parts.Entries.{IsSignature, AreScopes};
ghost use Rattle.elab_groups.specs.parts.Outcomes.{setting, IsKept};
ghost use Rattle.elab_groups.specs.members.Sources.{member_at, members_at, signed_at, SignedHeld, IsScopedSignature, AreResolved};
ghost use Rattle.elab_groups.specs.Groups.{most_variables, bodies_pieces, pieces_notes, group_body, group_decls, IsGroupElaborated, IsGroupRefusal};
ghost use Rattle.elab_groups.specs.Bodies.{AreDefined, AllHaveBodies, AreBodies, IsGroupMade};

use crate::equations::push_definitions;
use crate::members::{
    MemberSource, Signatures, Signed, check_members, declare_members, enter_members, push_group,
};
use crate::parts::{
    ElabFault, Elaborated, Place, TypingFault, join_words, naming_fault, typing_fault, world_over,
};
use crate::solving::solve_group;
use name_resolution::variables::Seen;
use name_resolution::{Scope, World, own_name};
use std::alloc::{AllocError, Global};
use tasks::{Body, Decl, Seq, Signature, Store, TermId, Text};

// What a group's first member has in its declaration: the definitions of all members, or its own number where it has no body.
fn body_of_group(
    alloc: Global,
    store: &mut Store,
    first: &MemberSource<'_>,
    number: usize,
    signed: &[Signed],
    bodies: &[TermId],
) -> Result<Body, AllocError>
    requires signed { All (SignedHeld store.old) signed.now }
    requires bodies { is_some (member_at first.now).body ≡ true → AreBodies store.old signed.now
        bodies.now }
    ensures held { IfOk result (BodyHeld store.new) }
    ensures body { IfOk result (λ b. body_at store.new b ≡ group_body (member_at first.now).body
        number (map (signed_at store.old) signed.now) (trees_at store.old bodies.now)) }
    ensures grows { Grows store.old store.new }
{
    if first.body.is_none() {
        return Ok(Body::Symbol(number));
    }
    let mut defs = Seq::new(alloc);
    push_definitions(alloc, store, &mut defs, number, signed, bodies)?;
    Ok(Body::Defs(defs))
}

// The declaration of a group with its bodies, whose entries stand from a number on.
fn group_decls(
    alloc: Global,
    store: &mut Store,
    place: &Place<'_>,
    members: &[MemberSource<'_>],
    number: usize,
    signed: &[Signed],
    bodies: &[TermId],
) -> Result<Seq<Decl>, AllocError>
    requires signed { All (SignedHeld store.old) signed.now }
    requires whole { AllHaveBodies (members_at members.now) }
    requires bodies { AreDefined (members_at members.now) → AreBodies store.old signed.now
        bodies.now }
    ensures held { IfOk result (All (DeclHeld store.new)) }
    ensures decls { IfOk result (λ ds. declarations_at store.new ds ≡ group_decls
        place.now.theory.now place.now.within.now (members_at members.now) number
        (map (signed_at store.old) signed.now) (trees_at store.old bodies.now)) }
    ensures grows { Grows store.old store.new }
{
    let mut decls = Seq::new(alloc);
    let Some((first, _)) = members.split_first() else {
        return Ok(decls);
    };
    let Some((one, _)) = signed.split_first() else {
        return Ok(decls);
    };
    let body = body_of_group(alloc, store, first, number, signed, bodies)?;
    let own = own_name(alloc, first.name.style, first.name.text.as_slice())?;
    decls.push(Decl {
        theory: Text::from_slice(alloc, place.theory)?,
        name: join_words(alloc, place.within, own.as_slice())?,
        vars: one.vars.len(),
        body,
    })?;
    Ok(decls)
}

// A group whose names are there and whose entries are made.
fn type_group(
    alloc: Global,
    store: &mut Store,
    world: &World<'_>,
    place: &Place<'_>,
    members: &[MemberSource<'_>],
    entered: &Signatures,
) -> Result<Elaborated, TypingFault>
    requires world { WorldHeld store.old world.now }
    requires scoped { IsScoped (where_at store.old world.now) }
    requires signed { All (SignedHeld store.old) entered.now.list.items }
    requires own { AllByRecursion IsScopedSignature
        (map (signed_at store.old) entered.now.list.items) }
    requires resolved { AreResolved (where_at store.old world.now) (members_at members.now)
        (map (signed_at store.old) entered.now.list.items) }
    requires each { length entered.now.list.items ≡ length members.now }
    requires whole { AllHaveBodies (members_at members.now) }
    ensures ok { IfOk result (IsGroupMade (where_at store.old world.now) place.now.theory.now
        place.now.within.now (members_at members.now) entered.now.number
        (map (signed_at store.old) entered.now.list.items) store.new) }
    ensures err { IfErr result (IsTypingFault
        (most_variables (map (signed_at store.old) entered.now.list.items))
        (pieces_notes (bodies_pieces (where_at store.old world.now) (members_at members.now)
        (map (signed_at store.old) entered.now.list.items)))) }
    ensures grows { Grows store.old store.new }
{
    let signed = entered.list.as_slice();
    let it = solve_group(alloc, store, world, members, signed)?;
    let bodies = it.trees.as_slice();
    let decls = group_decls(alloc, store, place, members, entered.number, signed, bodies)?;
    Ok(Elaborated {
        decls,
        rigid: Seq::new(alloc),
        matches: it.matches,
    })
}

/// A group of functions, predicates or constants, each with a definition or the only one without.
pub fn elaborate_group(
    alloc: Global,
    store: &mut Store,
    sig: &mut Signature,
    scope: &mut Scope,
    place: &Place<'_>,
    members: &[MemberSource<'_>],
) -> Result<Elaborated, ElabFault>
    requires signature { IsSignature store.old sig.old.symbols }
    requires scopes { AreScopes store.old (length sig.old.symbols) scope.old }
    requires whole { AllHaveBodies (members_at members.now) }
    ensures ok { IfOk result (IsGroupElaborated (setting place.now store.old sig.old scope.old)
        (members_at members.now) sig.old store.new sig.new scope.new) }
    ensures kept { IfOk result (IsKept store.new sig.new scope.new) }
    ensures err { IfErr result (IsGroupRefusal (setting place.now store.old sig.old scope.old)
        (members_at members.now)) }
    ensures grows { Grows store.old store.new }
{
    let mut seen = Seen {
        vars: Seq::new(alloc),
        widths: Seq::new(alloc),
    };
    enter_members(alloc, &mut seen, members)?;
    let widths = seen.widths.as_slice();
    let entered = push_group(alloc, store, sig, scope, place, widths, members)?;
    let mut before = Vec::new(alloc);
    match declare_members(alloc, scope, &mut before, members, entered.number) {
        Ok(()) => {
            let world = world_over(sig, scope, &[], true);
            match check_members(alloc, &world, members) {
                Ok(()) => match type_group(alloc, store, &world, place, members, &entered) {
                    Ok(made) => Ok(made),
                    Err(fault) => Err(typing_fault(place.decl, fault)),
                },
                Err(fault) => Err(naming_fault(place.decl, fault)),
            }
        }
        Err(fault) => Err(naming_fault(place.decl, fault)),
    }
}
