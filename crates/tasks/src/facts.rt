// The names of facts, in order.
// A step of a derivation cites a fact by its name; a transformation takes it by its place among all facts.
ghost use Rattle.std.specs.Prelude.{◌≡◌, ◌+◌, ◌≤◌, ◌++◌, map, length, OnOk};
ghost use Rattle.tasks.specs.declared.facts.Fact.TheVariants.{Equation as equation_name, Inversion as inversion_name};
ghost use Rattle.tasks.specs.Looking.{stored_clause_facts, all_clause_names, fact_names};

use crate::{Body, Def, Ind};
use std::alloc::AllocError;
use trees::TermId;

/// A fact of a task, by what it is cited by.
#[derive(Clone, Copy)]
pub enum Fact {
    /// A proposition, by its number among the propositions.
    Proposition(usize),
    /// The equation of a defined symbol.
    Equation(usize),
    /// A clause of an inductive predicate, by the predicate and the clause's number among its clauses.
    Clause(usize, usize),
    /// The inversion formula of an inductive predicate.
    Inversion(usize),
}

// The equations of definitions, after others.
fn push_equations(defs: &[Def], facts: &mut Vec<Fact>) -> Result<(), AllocError>
    ensures { OnOk result (facts.new.items ≡ facts.old.items
        ++ map (λ d. equation_name d.symbol) defs.now) }
{
    match defs.split_first() {
        Some((first, rest)) => {
            facts.push(Fact::Equation(first.symbol))?;
            push_equations(rest, facts)
        }
        None => Ok(()),
    }
}

// The clauses of a predicate from a number on, after others.
fn push_clauses(
    symbol: usize,
    from: usize,
    clauses: &[TermId],
    facts: &mut Vec<Fact>,
) -> Result<(), AllocError>
    requires { from + length clauses.now ≤ usize.MAX }
    ensures { OnOk result (facts.new.items ≡ facts.old.items
        ++ stored_clause_facts symbol from clauses.now) }
{
    match clauses.split_first() {
        Some((_, rest)) => {
            facts.push(Fact::Clause(symbol, from))?;
            push_clauses(symbol, from + 1, rest, facts)
        }
        None => Ok(()),
    }
}

// The clauses of predicates, after others.
fn push_all_clauses(inductives: &[Ind], facts: &mut Vec<Fact>) -> Result<(), AllocError>
    ensures { OnOk result (facts.new.items ≡ facts.old.items ++ all_clause_names inductives.now) }
{
    match inductives.split_first() {
        Some((first, rest)) => {
            push_clauses(first.symbol, 0, first.clauses.as_slice(), facts)?;
            push_all_clauses(rest, facts)
        }
        None => Ok(()),
    }
}

// The inversion formulas of predicates, after others.
fn push_inversions(inductives: &[Ind], facts: &mut Vec<Fact>) -> Result<(), AllocError>
    ensures { OnOk result (facts.new.items ≡ facts.old.items
        ++ map (λ i. inversion_name i.symbol) inductives.now) }
{
    match inductives.split_first() {
        Some((first, rest)) => {
            facts.push(Fact::Inversion(first.symbol))?;
            push_inversions(rest, facts)
        }
        None => Ok(()),
    }
}

// The facts of a declaration before which so many propositions stand, after others.
pub(crate) fn push_facts(body: &Body, said: usize, facts: &mut Vec<Fact>) -> Result<(), AllocError>
    ensures { OnOk result (facts.new.items ≡ facts.old.items ++ fact_names said body.now) }
{
    match body {
        Body::Defs(defs) => push_equations(defs.as_slice(), facts),
        Body::Inductives(inductives) => {
            push_all_clauses(inductives.as_slice(), facts)?;
            push_inversions(inductives.as_slice(), facts)
        }
        Body::Prop(_) => Ok(facts.push(Fact::Proposition(said))?),
        _ => Ok(()),
    }
}
