// A declaration of a theory that is no use, clone or scope: it is elaborated and checked, and then known.
// They depend on elaboration, on side conditions and on what is known of theories.
ghost use Rattle.std.specs.Prelude.{◌≡◌, map, length, All, IfOk, IfErr, IfSome, OnOk};
ghost use Rattle.tasks.specs.trees.Node.{Grows};
ghost use Rattle.tasks.specs.Meaning.{symbols_at, declarations_at, SymbolHeld, DeclHeld};
ghost use Rattle.surface.specs.SurfaceDeclarations.{decl_of};
ghost use Rattle.surface.specs.Declarations.{write_decl};
ghost use Rattle.elaboration_laws.specs.checks.decl_checks.Checks.{HasNoFault};
ghost use Rattle.elab_groups.specs.open_types.Drafts.{match_at};
ghost use Rattle.elab_groups.specs.parts.Declarations.{declaration};
ghost use Rattle.elab_groups.specs.parts.Entries.{IsSignature, AreScopes};
ghost use Rattle.elab_groups.specs.parts.Outcomes.{setting_where, IsKept};
ghost use Rattle.elab_declarations.specs.Outcomes.{IsLogical, IsElaborated, IsRefusal};
ghost use Rattle.elaboration_laws.specs.Lists.{IsGroupWhole};
ghost use Rattle.theories.specs.side_conditions.Sides.{IsCovered, IsMatch, IsSideFault, bodies};
ghost use Rattle.theory_states.specs.Meaning.{state_at, StateHeld};
ghost use Rattle.theory_states.specs.Uses.{OrMemory};
ghost use Rattle.elaboration_laws.specs.TypedStates.{state_setting, IsTypedState};
ghost use Rattle.elaboration_laws.specs.Quoted.{IsQuotedLexeme};
ghost use Rattle.elaboration_laws.specs.Sound.{IsSoundState};
ghost use Rattle.theories.specs.declaring.Declared.{IsDeclared, IsDeclaredFault};
ghost use Rattle.theories.specs.declaring.Steps.{IsRefusedBy, IsRefusedFor, IsNextState};

use crate::declaring::faults::{elaboration_fault, side_fault};
use crate::declaring::kept::push_made;
use crate::declaring::made::push_declared;
use crate::side_conditions::check_sides;
use elab_declarations::elaborate;
use elab_groups::parts::Elaborated;
use std::alloc::Global;
use surface::DeclTree;
use tasks::{Signature, Store};
use theory_states::{Opened, SourceFault, Typed};

// What a declaration makes, whose names come into the scope of the open theory.
fn elaborate_next(
    alloc: Global,
    store: &mut Store,
    sig: &mut Signature,
    open: &mut Opened,
    decl: &DeclTree,
) -> Result<Elaborated, SourceFault>
    requires signature { IsSignature store.old sig.old.symbols }
    requires scopes { AreScopes store.old (length sig.old.symbols) open.old.scope }
    requires logical { IsLogical (decl_of decl.now) }
    ensures ok { IfOk result (λ made. IfSome (declaration (decl_of decl.now)) (λ d. IsElaborated
        (setting_where open.old.path open.old.within.items open.old.count store.old sig.old
        open.old.scope) d sig.old store.new sig.new open.new.scope made)) }
    ensures kept { IfOk result (IsKept store.new sig.new open.new.scope) }
    ensures err { IfErr result (λ f. IfSome (declaration (decl_of decl.now)) (λ d. IsRefusedBy
        (setting_where open.old.path open.old.within.items open.old.count store.old sig.old
        open.old.scope) d f)) }
    ensures opened { open.new ≡ record open.old { scope = open.new.scope } }
    ensures grows { Grows store.old store.new }
{
    let path = open.path.as_slice();
    let within = open.within.as_slice();
    match elaborate(
        alloc,
        store,
        sig,
        &mut open.scope,
        path,
        within,
        decl,
        open.count,
    ) {
        Ok(made) => Ok(made),
        Err(fault) => Err(elaboration_fault(fault)),
    }
}

// What is made, whose side conditions are right, in the declaration of a number.
fn check_made(
    alloc: Global,
    store: &Store,
    sig: &Signature,
    made: Elaborated,
    decl: usize,
) -> Result<Elaborated, SourceFault>
    requires symbols { All (SymbolHeld store.now) sig.now.symbols }
    requires matches { All (IsMatch store.now (symbols_at store.now sig.now.symbols)) made.matches }
    requires held { All (DeclHeld store.now) made.decls }
    ensures same { IfOk result (λ m. m ≡ made) }
    ensures covered { IfOk result (λ _. All (IsCovered (symbols_at store.now sig.now.symbols))
        (map (match_at store.now) made.matches)) }
    ensures checked { IfOk result (λ _. All (HasNoFault (symbols_at store.now sig.now.symbols))
        (bodies (declarations_at store.now made.decls))) }
    ensures refused { IfErr result (IsRefusedFor decl (symbols_at store.now sig.now.symbols)
        (map (match_at store.now) made.matches) (bodies (declarations_at store.now made.decls))) }
{
    match check_sides(
        alloc,
        store,
        sig,
        made.matches.as_slice(),
        made.decls.as_slice(),
    ) {
        Ok(()) => Ok(made),
        Err(fault) => Err(side_fault(decl, fault)),
    }
}

// What a declaration makes, whose names, types and side conditions are right.
fn elaborate_checked(
    alloc: Global,
    store: &mut Store,
    typed: &mut Typed,
    open: &mut Opened,
    decl: &DeclTree,
) -> Result<Elaborated, SourceFault>
    requires state { StateHeld store.old typed.old open.old }
    requires typed { IsTypedState (state_at store.old typed.old open.old) }
    requires logical { IsLogical (decl_of decl.now) }
    ensures ok { IfOk result (IsNextState store.old typed.old open.old (decl_of decl.now) store.new
        typed.new open.new) }
    ensures err { IfErr result (OrMemory (IsDeclaredFault (decl_of decl.now)
        (state_at store.old typed.old open.old))) }
    ensures count { open.new.count ≡ open.old.count }
    ensures grows { Grows store.old store.new }
{
    let made = elaborate_next(alloc, store, &mut typed.sig, open, decl)?;
    store.laws();
    check_made(alloc, store, &typed.sig, made, open.count)
}

/// A declaration of the open theory that is no `use`, `clone` or `scope`: what it makes is known afterwards, or its first fault is
/// given. After a refusal the theories are used no more.
pub fn type_declaration(
    alloc: Global,
    store: &mut Store,
    typed: &mut Typed,
    open: &mut Opened,
    decl: &DeclTree,
) -> Result<(), SourceFault>
    requires held { StateHeld store.old typed.old open.old }
    requires typed { IsTypedState (state_at store.old typed.old open.old) }
    requires logical { IsLogical (decl_of decl.now) }
    ensures ok { OnOk result (IsDeclared (decl_of decl.now)
        (state_at store.old typed.old open.old) (state_at store.new typed.new open.new)) }
    ensures held { OnOk result (StateHeld store.new typed.new open.new) }
    ensures typed { OnOk result (IsTypedState (state_at store.new typed.new open.new)) }
    ensures sound { OnOk result (IsGroupWhole (decl_of decl.now)
        → All IsQuotedLexeme (write_decl (decl_of decl.now))
        → IsSoundState (state_at store.old typed.old open.old)
        → IsSoundState (state_at store.new typed.new open.new)) }
    ensures count { OnOk result (open.new.count ≡ open.old.count) }
    ensures ints { OnOk result (typed.new.sig.ints ≡ typed.old.sig.ints) }
    ensures err { IfErr result (OrMemory (IsDeclaredFault (decl_of decl.now)
        (state_at store.old typed.old open.old))) }
    ensures grows { Grows store.old store.new }
{
    let made = elaborate_checked(alloc, store, typed, open, decl)?;
    store.laws();
    push_declared(alloc, &open.scope, decl, &mut open.moves)?;
    push_made(alloc, store, typed, open, decl, made)?;
    Ok(())
}
