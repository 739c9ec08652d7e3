// Groups of inductive predicates where they are: what is made of them, or their first fault.
ghost use Rattle.std.specs.Prelude.{◌≡◌, length, All, IfOk, IfErr};
ghost use Rattle.tasks.specs.trees.Node.{Holds, Grows};
ghost use Rattle.tasks.specs.Meaning.{trees_at, declarations_at, DeclHeld};
ghost use Rattle.name_resolution.specs.Naming.{where_at};
ghost use Rattle.open_types.specs.Drafts.{WorldHeld};
ghost use Rattle.open_types.specs.Scoped.{IsScoped};
ghost use Rattle.elab_groups.specs.parts.Elaborated.{IsTypingFault};
ghost use Rattle.elab_groups.specs.parts.Entries.{IsSignature, AreScopes};
ghost use Rattle.elab_groups.specs.parts.Outcomes.{setting, IsKept};
ghost use Rattle.elab_groups.specs.members.Sources.{IsEntered, AreResolved};
ghost use Rattle.elab_groups.specs.Groups.{most_variables, bodies_pieces, pieces_notes};
ghost use Rattle.elab_declarations.specs.inductive_declarations.Inductives.{as_members, formula_members, clause_signatures, before_inductives, inductive_decls, IsInductiveElaborated, IsInductiveRefusal};
ghost use Rattle.elab_declarations.specs.inductive_declarations.Sources.{predicates_at, AreInductivesMade};

use crate::inductive_declarations::clauses::{push_induced, sign_inductives};
use crate::inductive_declarations::naming::{check_inductives, declare_group};
use crate::inductive_declarations::sources::{enter_inductives, push_formulas, push_predicates};
use elab_groups::members::{Signatures, push_group, signature_seen};
use elab_groups::parts::{
    ElabFault, Elaborated, Place, TypingFault, join_words, naming_fault, typing_fault, world_over,
};
use elab_groups::solve_group;
use name_resolution::variables::Seen;
use name_resolution::{Scope, World, own_name};
use std::alloc::{AllocError, Global};
use surface::IndTree;
use tasks::{Body, Decl, Seq, Signature, Store, TermId, Text};

// The declaration of a group with its clauses, whose entries stand from a number on.
fn inductive_decls(
    alloc: Global,
    store: &Store,
    place: &Place<'_>,
    inductives: &[IndTree],
    number: usize,
    bodies: &[TermId],
) -> Result<Seq<Decl>, AllocError>
    requires held { All (Holds store.now) bodies.now }
    requires each { length bodies.now ≡ length (formula_members (predicates_at inductives.now)) }
    ensures held { IfOk result (All (DeclHeld store.now)) }
    ensures decls { IfOk result (λ ds. declarations_at store.now ds ≡ inductive_decls
        place.now.theory.now place.now.within.now (predicates_at inductives.now) number
        (trees_at store.now bodies.now)) }
{
    let _ = store;
    let mut decls = Seq::new(alloc);
    let Some((first, _)) = inductives.split_first() else {
        return Ok(decls);
    };
    let mut list = Seq::new(alloc);
    push_induced(alloc, &mut list, number, inductives, bodies)?;
    let vars = signature_seen(alloc, first.params.as_slice(), None)?.vars;
    let own = own_name(alloc, first.name.style, first.name.text.as_slice())?;
    decls.push(Decl {
        theory: Text::from_slice(alloc, place.theory)?,
        name: join_words(alloc, place.within, own.as_slice())?,
        vars: vars.len(),
        body: Body::Inductives(list),
    })?;
    Ok(decls)
}

// A group whose names are there and whose entries are made, from a number on.
fn type_inductives(
    alloc: Global,
    store: &mut Store,
    world: &World<'_>,
    place: &Place<'_>,
    inductives: &[IndTree],
    number: usize,
) -> Result<Elaborated, TypingFault>
    requires world { WorldHeld store.old world.now }
    requires scoped { IsScoped (where_at store.old world.now) }
    requires resolved { AreResolved (where_at store.old world.now)
        (formula_members (predicates_at inductives.now))
        (clause_signatures (predicates_at inductives.now)) }
    ensures ok { IfOk result (AreInductivesMade (where_at store.old world.now)
        place.now.theory.now place.now.within.now (predicates_at inductives.now) number
        store.new) }
    ensures err { IfErr result (IsTypingFault
        (most_variables (clause_signatures (predicates_at inductives.now)))
        (pieces_notes (bodies_pieces (where_at store.old world.now)
        (formula_members (predicates_at inductives.now))
        (clause_signatures (predicates_at inductives.now))))) }
    ensures grows { Grows store.old store.new }
{
    let mut clauses = Vec::new(alloc);
    push_formulas(&mut clauses, inductives)?;
    let mut signed = Vec::new(alloc);
    sign_inductives(alloc, &mut signed, inductives)?;
    let it = solve_group(alloc, store, world, clauses.as_slice(), signed.as_slice())?;
    let bodies = it.trees.as_slice();
    let decls = inductive_decls(alloc, store, place, inductives, number, bodies)?;
    Ok(Elaborated {
        decls,
        rigid: Seq::new(alloc),
        matches: it.matches,
    })
}

// The entries of a group, after those of its tuples, whether their names are there or not.
fn enter_group(
    alloc: Global,
    store: &mut Store,
    sig: &mut Signature,
    scope: &Scope,
    place: &Place<'_>,
    inductives: &[IndTree],
) -> Result<Signatures, AllocError>
    requires signature { IsSignature store.old sig.old.symbols }
    requires scopes { AreScopes store.old (length sig.old.symbols) scope.now }
    ensures entered { IfOk result (IsEntered (setting place.now store.old sig.old scope.now)
        (before_inductives (setting place.now store.old sig.old scope.now)
        (predicates_at inductives.now)) (as_members (predicates_at inductives.now)) sig.old
        store.new sig.new) }
    ensures grows { Grows store.old store.new }
{
    let mut seen = Seen {
        vars: Seq::new(alloc),
        widths: Seq::new(alloc),
    };
    enter_inductives(alloc, &mut seen, inductives)?;
    let mut members = Vec::new(alloc);
    push_predicates(&mut members, inductives)?;
    let widths = seen.widths.as_slice();
    push_group(alloc, store, sig, scope, place, widths, members.as_slice())
}

/// A group of inductive predicates with their clauses.
pub fn elaborate_inductives(
    alloc: Global,
    store: &mut Store,
    sig: &mut Signature,
    scope: &mut Scope,
    place: &Place<'_>,
    inductives: &[IndTree],
) -> Result<Elaborated, ElabFault>
    requires signature { IsSignature store.old sig.old.symbols }
    requires scopes { AreScopes store.old (length sig.old.symbols) scope.old }
    ensures ok { IfOk result (IsInductiveElaborated
        (setting place.now store.old sig.old scope.old) (predicates_at inductives.now) sig.old
        store.new sig.new scope.new) }
    ensures kept { IfOk result (IsKept store.new sig.new scope.new) }
    ensures err { IfErr result (IsInductiveRefusal
        (setting place.now store.old sig.old scope.old) (predicates_at inductives.now)) }
    ensures grows { Grows store.old store.new }
{
    let entered = enter_group(alloc, store, sig, scope, place, inductives)?;
    let number = entered.number;
    match declare_group(alloc, scope, inductives, number, place.decl) {
        Ok(()) => {
            let world = world_over(sig, scope, &[], true);
            match check_inductives(alloc, &world, inductives) {
                Ok(()) => match type_inductives(alloc, store, &world, place, inductives, number) {
                    Ok(made) => Ok(made),
                    Err(fault) => Err(typing_fault(place.decl, fault)),
                },
                Err(fault) => Err(naming_fault(place.decl, fault)),
            }
        }
        Err(fault) => Err(naming_fault(place.decl, fault)),
    }
}
