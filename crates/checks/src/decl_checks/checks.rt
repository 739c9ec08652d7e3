// The checks of a declaration: the clauses of inductive predicates, recursive definitions, values of algebraic types.
// They depend on clauses, structure and values; the theories of a source depend on them.
ghost use Rattle.std.specs.Prelude.{◌≡◌, ◌↔◌, ◌++◌, IsTrue, IsOk, All, MatchOption, OnOk};
ghost use Rattle.trees.specs.Node.{Holds};
ghost use Rattle.tasks.specs.Task.{symbol_or};
ghost use Rattle.tasks.specs.Task.{Defines, Induces, Constructs};
ghost use Rattle.tasks.specs.Meaning.{trees_at, symbols_at, definitions_at, inductives_at, algebraics_at, body_at, InductiveHeld, AlgebraicHeld, DeclHeld};
ghost use Rattle.checks.specs.decl_checks.Checks.{own_clauses, all_clauses, group_of, IsFirstWithout, HasNoFault, HasFault, TakesMemory, IsAnswerTo, HasMemory, ClausesAnswer};
ghost use Rattle.checks.specs.decl_checks.Meaning.{clause_at, own_clauses_at, ClausesHeld, PassesAs, DefinitionHeld};

use crate::decl_checks::CheckFault;
use crate::decl_checks::clauses::{has_form, is_positive_clause};
use crate::decl_checks::structure::{choices, is_structural};
use crate::decl_checks::values::are_inhabited;
use crate::recursive_groups::is_recursive_by_number;
use std::alloc::{AllocError, Global};
use tasks::{Alg, Body, Decl, Def, Ind, Signature};
use trees::TermId;
use trees::store::Store;

/// The greatest number of choices of arguments that a recursive group may have.
const CHOICES: usize = 4096;

// The clauses of a predicate, each with it, after others.
fn push_own(
    store: &Store,
    symbol: usize,
    clauses: &[TermId],
    out: &mut Vec<(usize, TermId)>,
) -> Result<(), AllocError>
    requires held { All (Holds store.now) clauses.now }
    requires out_held { ClausesHeld store.now out.old.items }
    ensures tree { OnOk result (own_clauses_at store.now out.new.items
        ≡ own_clauses_at store.now out.old.items
        ++ own_clauses symbol (trees_at store.now clauses.now)) }
    ensures held { OnOk result (ClausesHeld store.now out.new.items) }
{
    match clauses.split_first() {
        Some((first, rest)) => {
            out.push((symbol, *first))?;
            push_own(store, symbol, rest, out)
        }
        None => Ok(()),
    }
}

// The clauses of predicates, after others.
fn push_all(
    store: &Store,
    inductives: &[Ind],
    out: &mut Vec<(usize, TermId)>,
) -> Result<(), AllocError>
    requires held { All (InductiveHeld store.now) inductives.now }
    requires out_held { ClausesHeld store.now out.old.items }
    ensures tree { OnOk result (own_clauses_at store.now out.new.items
        ≡ own_clauses_at store.now out.old.items
        ++ all_clauses (inductives_at store.now inductives.now)) }
    ensures held { OnOk result (ClausesHeld store.now out.new.items) }
{
    match inductives.split_first() {
        Some((first, rest)) => {
            push_own(store, first.symbol, first.clauses.as_slice(), out)?;
            push_all(store, rest, out)
        }
        None => Ok(()),
    }
}

// The number of a symbol's type variables.
fn vars_of(store: &Store, sig: &Signature, symbol: usize) -> usize
    ensures { result ≡ (symbol_or (symbols_at store.now sig.now.symbols) symbol).vars }
{
    let _ = store;
    match sig.symbols.get(symbol) {
        Some(info) => info.vars,
        None => 0,
    }
}

// Whether a clause of a predicate passes: its form, or where the group is in it.
fn passes(
    alloc: Global,
    store: &Store,
    sig: &Signature,
    group: &[usize],
    positive: bool,
    symbol: usize,
    clause: TermId,
) -> bool
    requires { Holds store.now clause }
    ensures { IsTrue result ↔ PassesAs (symbols_at store.now sig.now.symbols) group.now positive
        (clause_at store.now (symbol, clause)) }
{
    if positive {
        is_positive_clause(alloc, store, group, clause)
    } else {
        has_form(
            alloc,
            store,
            group,
            symbol,
            vars_of(store, sig, symbol),
            clause,
        )
    }
}

// The place of the first clause that does not pass.
fn first_without(
    alloc: Global,
    store: &Store,
    sig: &Signature,
    group: &[usize],
    positive: bool,
    clauses: &[(usize, TermId)],
) -> Option<usize>
    requires { ClausesHeld store.now clauses.now }
    ensures { MatchOption result
        (All (PassesAs (symbols_at store.now sig.now.symbols) group.now positive)
        (own_clauses_at store.now clauses.now))
        (IsFirstWithout (PassesAs (symbols_at store.now sig.now.symbols) group.now positive)
        (own_clauses_at store.now clauses.now)) }
{
    match clauses.split_first() {
        Some((first, rest)) => {
            if !passes(alloc, store, sig, group, positive, first.0, first.1) {
                return Some(0);
            }
            let count = clauses.len();
            match first_without(alloc, store, sig, group, positive, rest) {
                Some(place) => {
                    prove!(place < count);
                    Some(place + 1)
                }
                None => None,
            }
        }
        None => None,
    }
}

// The symbols of predicates, after others.
fn push_group(store: &Store, inductives: &[Ind], out: &mut Vec<usize>) -> Result<(), AllocError>
    ensures { OnOk result (out.new.items
        ≡ out.old.items ++ group_of (inductives_at store.now inductives.now)) }
{
    match inductives.split_first() {
        Some((first, rest)) => {
            out.push(first.symbol)?;
            push_group(store, rest, out)
        }
        None => Ok(()),
    }
}

// The check of the clauses of a group: all have their form, then all are positive.
fn check_listed(
    alloc: Global,
    store: &Store,
    sig: &Signature,
    group: &[usize],
    clauses: &[(usize, TermId)],
) -> Result<(), CheckFault>
    requires { ClausesHeld store.now clauses.now }
    ensures { ClausesAnswer (symbols_at store.now sig.now.symbols) group.now
        (own_clauses_at store.now clauses.now) result }
{
    if let Some(clause) = first_without(alloc, store, sig, group, false, clauses) {
        return Err(CheckFault::BadClause { clause });
    }
    if let Some(clause) = first_without(alloc, store, sig, group, true, clauses) {
        return Err(CheckFault::NotPositive { clause });
    }
    Ok(())
}

// The check of inductive predicates.
fn check_clauses(
    alloc: Global,
    store: &Store,
    sig: &Signature,
    inductives: &[Ind],
) -> Result<(), CheckFault>
    requires { All (InductiveHeld store.now) inductives.now }
    ensures { IsAnswerTo (symbols_at store.now sig.now.symbols)
        (Induces (inductives_at store.now inductives.now)) result }
{
    let mut group = Vec::new(alloc);
    push_group(store, inductives, &mut group)?;
    let mut clauses = Vec::new(alloc);
    push_all(store, inductives, &mut clauses)?;
    check_listed(alloc, store, sig, group.as_slice(), clauses.as_slice())
}

// The check of a group of definitions: not too many choices of arguments, then one at which it is structural.
fn check_definitions(
    alloc: Global,
    store: &Store,
    sig: &Signature,
    defs: &[Def],
) -> Result<(), CheckFault>
    requires { All (DefinitionHeld store.now) defs.now }
    ensures { IsAnswerTo (symbols_at store.now sig.now.symbols)
        (Defines (definitions_at store.now defs.now)) result }
{
    if !is_recursive_by_number(alloc, store, defs) {
        return Ok(());
    }
    let count = choices(store, sig, defs);
    if count > CHOICES {
        return Err(CheckFault::GroupTooWide);
    }
    match is_structural(alloc, store, sig, defs, count) {
        Ok(true) => Ok(()),
        Ok(false) => Err(CheckFault::NotStructural),
        Err(_) => Err(CheckFault::Memory),
    }
}

// The check of algebraic types: each has a finite value.
fn check_types(
    alloc: Global,
    store: &Store,
    sig: &Signature,
    types: &[Alg],
) -> Result<(), CheckFault>
    requires { All (AlgebraicHeld store.now) types.now }
    ensures { IsAnswerTo (symbols_at store.now sig.now.symbols)
        (Constructs (algebraics_at store.now types.now)) result }
{
    let _ = sig;
    match are_inhabited(alloc, store, types) {
        Ok(true) => Ok(()),
        Ok(false) => Err(CheckFault::Uninhabited),
        Err(_) => Err(CheckFault::Memory),
    }
}

// The check of what a declaration says.
fn check_body(alloc: Global, store: &Store, sig: &Signature, decl: &Decl) -> Result<(), CheckFault>
    requires { DeclHeld store.now decl.now }
    ensures { IsAnswerTo (symbols_at store.now sig.now.symbols)
        (body_at store.now decl.now.body) result }
{
    match &decl.body {
        Body::Inductives(inductives) => check_clauses(alloc, store, sig, inductives.as_slice()),
        Body::Defs(defs) => check_definitions(alloc, store, sig, defs.as_slice()),
        Body::Algebraics(types) => check_types(alloc, store, sig, types.as_slice()),
        _ => Ok(()),
    }
}

/// The first thing that is wrong with a declaration. Inductive predicates: the first clause without its form, then the first in
/// which the group is where it may not. Recursive definitions: too many choices of arguments, then none that is structural.
/// Algebraic types: one without a finite value. Nothing is wrong with any other declaration. Want of memory comes only where
/// memory is taken: for inductive predicates, recursive definitions that aren't too wide, and algebraic types.
pub fn check_decl(
    alloc: Global,
    store: &Store,
    sig: &Signature,
    decl: &Decl,
) -> Result<(), CheckFault>
    requires { DeclHeld store.now decl.now }

    ensures right { HasMemory result → (IsOk result
        ↔ HasNoFault (symbols_at store.now sig.now.symbols) (body_at store.now decl.now.body)) }
    ensures refused { HasMemory result → (f : CheckFault) → (result ≡ Err f)
        ↔ HasFault (symbols_at store.now sig.now.symbols) (body_at store.now decl.now.body) f }
    ensures memory { result ≡ Err CheckFault.Memory
        → TakesMemory (symbols_at store.now sig.now.symbols) (body_at store.now decl.now.body) }
{
    check_body(alloc, store, sig, decl)
}
