// What groups of inductive predicates say: their clauses, and then their inversion formulas.
// It depends on what groups say and on inversion formulas; spelling groups out depends on it.
ghost use Rattle.std.specs.Prelude.{◌≡◌, ◌+◌, ◌≤◌, ◌++◌, map, length, All, OnOk, IfOk, IfSome, [], ◌∷◌};
ghost use Rattle.std.specs.Option.{option_map};
ghost use Rattle.declarations.specs.spelled_groups.Groups.{inductive_facts};
ghost use Rattle.trees.specs.Node.{trees_at, Holds, Grows};
ghost use Rattle.tasks.specs.Facts.{clause_facts, all_clause_facts, inversion_fact};
ghost use Rattle.tasks.specs.Meaning.{symbols_at, inductive_at, inductives_at, body_at, InductiveHeld, SymbolHeld};
ghost use Rattle.declarations.specs.Stored.{IsValidIn};
ghost use Rattle.declarations.specs.spelled_groups.Making.{MemberIsFit};
ghost use Rattle.declarations.specs.spelled_groups.Stored.{facts_at, SaidHeld};

use crate::spelled_groups::inversions::inversion;
use crate::spelled_groups::said::{Said, vars_of};
use std::alloc::{AllocError, Global};
use tasks::{Body, Decl, Fact, Ind, Signature};
use trees::TermId;
use trees::store::Store;

// The clauses of a predicate from a number on, after others.
fn push_clauses(
    store: &Store,
    symbol: usize,
    vars: usize,
    from: usize,
    clauses: &[TermId],
    said: &mut Vec<Said>,
) -> Result<(), AllocError>
    requires clauses { All (Holds store.now) clauses.now }
    requires fits { from + length clauses.now ≤ usize.MAX }
    requires said { All (SaidHeld store.now) said.old.items }
    ensures said { OnOk result (facts_at store.now said.new.items
        ≡ facts_at store.now said.old.items
        ++ clause_facts symbol vars from (trees_at store.now clauses.now)) }
    ensures held { OnOk result (All (SaidHeld store.now) said.new.items) }
{
    match clauses.split_first() {
        Some((first, rest)) => {
            said.push(Said {
                name: Fact::Clause(symbol, from),
                vars,
                formula: *first,
            })?;
            push_clauses(store, symbol, vars, from + 1, rest, said)
        }
        None => Ok(()),
    }
}

// The clauses of predicates, after others.
fn push_all_clauses(
    store: &Store,
    sig: &Signature,
    inductives: &[Ind],
    said: &mut Vec<Said>,
) -> Result<(), AllocError>
    requires inductives { All (InductiveHeld store.now) inductives.now }
    requires said { All (SaidHeld store.now) said.old.items }
    ensures said { OnOk result (facts_at store.now said.new.items
        ≡ facts_at store.now said.old.items ++ all_clause_facts
        (symbols_at store.now sig.now.symbols) (inductives_at store.now inductives.now)) }
    ensures held { OnOk result (All (SaidHeld store.now) said.new.items) }
{
    match inductives.split_first() {
        Some((first, rest)) => {
            let vars = vars_of(store, sig, first.symbol);
            push_clauses(store, first.symbol, vars, 0, first.clauses.as_slice(), said)?;
            push_all_clauses(store, sig, rest, said)
        }
        None => Ok(()),
    }
}

// The inversion formula of a predicate, after others.
fn push_inversion(
    store: &mut Store,
    sig: &Signature,
    inductive: &Ind,
    said: &mut Vec<Said>,
) -> Result<(), AllocError>
    requires symbols { All (SymbolHeld store.old) sig.now.symbols }
    requires fit { MemberIsFit store.old sig.now.symbols inductive.now }
    requires said { All (SaidHeld store.old) said.old.items }
    ensures said { OnOk result (facts_at store.new said.new.items
        ≡ facts_at store.old said.old.items ++ inversion_fact
        (symbols_at store.old sig.now.symbols) (inductive_at store.old inductive.now) ∷ []) }
    ensures held { OnOk result (All (SaidHeld store.new) said.new.items) }
    ensures grows { Grows store.old store.new }
{
    let Some(info) = sig.symbols.get(inductive.symbol) else {
        unreachable!()
    };
    let formula = inversion(store, inductive.symbol, info, inductive.clauses.as_slice())?;
    said.push(Said {
        name: Fact::Inversion(inductive.symbol),
        vars: info.vars,
        formula,
    })?;
    Ok(())
}

// The inversion formulas of predicates, after others.
fn push_inversions(
    store: &mut Store,
    sig: &Signature,
    inductives: &[Ind],
    said: &mut Vec<Said>,
) -> Result<(), AllocError>
    requires symbols { All (SymbolHeld store.old) sig.now.symbols }
    requires fit { All (MemberIsFit store.old sig.now.symbols) inductives.now }
    requires said { All (SaidHeld store.old) said.old.items }
    ensures said { OnOk result (facts_at store.new said.new.items
        ≡ facts_at store.old said.old.items ++ map
        (inversion_fact (symbols_at store.old sig.now.symbols))
        (inductives_at store.old inductives.now)) }
    ensures held { OnOk result (All (SaidHeld store.new) said.new.items) }
    ensures grows { Grows store.old store.new }
{
    match inductives.split_first() {
        Some((first, rest)) => {
            push_inversion(store, sig, first, said)?;
            push_inversions(store, sig, rest, said)
        }
        None => Ok(()),
    }
}

/// The clauses and inversion formulas of a group of inductive predicates; none of another declaration.
pub fn inductives_said(
    alloc: Global,
    store: &mut Store,
    sig: &Signature,
    decl: &Decl,
) -> Result<Option<Vec<Said>>, AllocError>
    requires valid { IsValidIn store.old sig.now.symbols decl.now }
    ensures said { IfOk result (λ o. option_map (λ v. facts_at store.new v.items) o
        ≡ inductive_facts (symbols_at store.old sig.now.symbols)
        (body_at store.old decl.now.body)) }
    ensures held { IfOk result (λ o. IfSome o (λ v. All (SaidHeld store.new) v.items)) }
    ensures grows { Grows store.old store.new }
{
    match &decl.body {
        Body::Inductives(inductives) => {
            let mut said = Vec::new(alloc);
            push_all_clauses(store, sig, inductives.as_slice(), &mut said)?;
            push_inversions(store, sig, inductives.as_slice(), &mut said)?;
            Ok(Some(said))
        }
        _ => Ok(None),
    }
}
