// From which clause or inversion formula each proposition of a group of inductive predicates comes.
// It depends on the declarations; the transformation of inductive predicates depends on it.
ghost use Rattle.std.specs.Prelude.{ℕ, List, map};
ghost use Rattle.trees.specs.Node.{trees_at};
ghost use Rattle.tasks.specs.Task.{SymbolTree};
ghost use Rattle.tasks.specs.Facts.{clause_facts, all_clause_facts, inversion_fact};
ghost use Rattle.tasks.specs.Looking.{fact_name};
ghost use Rattle.tasks.specs.Meaning.{inductives_at, declaration_at};
ghost use Rattle.declarations.specs.Said.{IsFactSearch};
ghost use Rattle.declarations.specs.spelled_groups.Groups.{inductive_facts};
ghost use Rattle.declarations.specs.spelled_groups.Spelled.{spelling_said};

use crate::{FactSearch, own_origin};
use tasks::{Body, Decl, Fact, Ind};
use trees::TermId;
use trees::store::Store;

// Among the clauses of a predicate.
fn origin_in_clauses(store: &Store, symbol: usize, clauses: &[TermId], k: usize) -> FactSearch
    ensures { (vars : ℕ) → IsFactSearch (map fact_name
        (clause_facts symbol vars 0 (trees_at store.now clauses.now))) k result }
{
    let _ = store;
    if k < clauses.len() {
        FactSearch::Here(Fact::Clause(symbol, k))
    } else {
        FactSearch::After(k - clauses.len())
    }
}

// Among the clauses of predicates.
fn origin_in_all_clauses(store: &Store, inductives: &[Ind], k: usize) -> FactSearch
    ensures { (symbols : List SymbolTree) → IsFactSearch (map fact_name
        (all_clause_facts symbols (inductives_at store.now inductives.now))) k result }
{
    match inductives.split_first() {
        Some((first, rest)) => {
            match origin_in_clauses(store, first.symbol, first.clauses.as_slice(), k) {
                FactSearch::Here(name) => FactSearch::Here(name),
                FactSearch::After(left) => origin_in_all_clauses(store, rest, left),
            }
        }
        None => FactSearch::After(k),
    }
}

// Among the inversion formulas of predicates.
fn origin_in_inversions(store: &Store, inductives: &[Ind], k: usize) -> FactSearch
    ensures { (symbols : List SymbolTree) → IsFactSearch (map fact_name
        (map (inversion_fact symbols) (inductives_at store.now inductives.now))) k result }
{
    match inductives.split_first() {
        Some((first, rest)) => {
            if k == 0 {
                FactSearch::Here(Fact::Inversion(first.symbol))
            } else {
                origin_in_inversions(store, rest, k - 1)
            }
        }
        None => FactSearch::After(k),
    }
}

/// Where the k-th proposition from here on comes from, if it is one of the declaration's, where groups of inductive predicates are
/// spelled out and so many propositions of the old task are before the declaration.
pub fn inductives_origin(store: &Store, decl: &Decl, place: usize, k: usize) -> FactSearch
    ensures { (symbols : List SymbolTree) → IsFactSearch (map fact_name
        (spelling_said inductive_facts symbols place (declaration_at store.now decl.now))) k
        result }
{
    match &decl.body {
        Body::Inductives(inductives) => {
            match origin_in_all_clauses(store, inductives.as_slice(), k) {
                FactSearch::Here(name) => FactSearch::Here(name),
                FactSearch::After(left) => origin_in_inversions(store, inductives.as_slice(), left),
            }
        }
        _ => own_origin(decl, place, k),
    }
}
