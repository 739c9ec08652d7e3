// The rows that cite a fact of the task at types: a proposition, an equation, a clause or an inversion formula.
// They depend on what premises add and on the look-up; the checker of a step depends on them.
ghost use Rattle.std.specs.Prelude.{◌≡◌, ◌↔◌, slice_get, All, IsTrue, IfSome};
ghost use Rattle.std.specs.Option.{option_map, option_and_then};
ghost use Rattle.trees.specs.Node.{tree_at, Holds};
ghost use Rattle.tasks.specs.Task.{props, symbol_or};
ghost use Rattle.tasks.specs.Roles.{role};
ghost use Rattle.tasks.specs.Meaning.{trees_at, proposition_at};
ghost use Rattle.rules.specs.Trees.{RFact, RDef, RClause, RInv};
ghost use Rattle.rules.specs.Rows as table;
ghost use Rattle.rules.specs.Rows.{equation, clauses};
ghost use Rattle.rules.specs.Meaning.{task_of, TriedHeld, RowOf};

use crate::fact_rules::inversion::Inversion;
use crate::{AtTypes, Tried, adds_one};
use tasks::{Proposition, Role, nth_proposition};
use trees::TermId;

// The proposition of a number. That an index gives held formulas is no clause of a look-up, so it is asked.
fn proposition(x: &Tried<'_>, number: usize) -> Option<Proposition>
    requires { TriedHeld x.now }
    ensures tree { option_map (proposition_at x.now.store.now) result
        ≡ slice_get (props (task_of x.now)) number }
    ensures held { IfSome result (λ p. Holds x.now.store.now p.formula) }
{
    match x.look.proposition(x.store, number) {
        Some(said) => {
            if x.store.holds(said.formula) {
                Some(said)
            } else {
                nth_proposition(x.store, x.look.task, number)
            }
        },
        None => None,
    }
}

/// A proposition at types.
pub fn fact(x: &Tried<'_>, number: usize, types: &[TermId]) -> bool
    requires tried { TriedHeld x.now }
    requires held { All (Holds x.now.store.now) types.now }
    ensures { IsTrue result ↔ RowOf x.now (RFact number (trees_at x.now.store.now types.now)) }
{
    match proposition(x, number) {
        Some(said) => types.len() == said.vars
            && adds_one(
                x,
                &AtTypes {
                    e: said.formula,
                    types,
                },
            ),
        None => false,
    }
}

// The equation of a symbol.
fn equation(x: &Tried<'_>, symbol: usize) -> Option<TermId>
    requires tried { TriedHeld x.now }
    ensures tree { option_map (tree_at x.now.store.now) result
        ≡ equation (role (task_of x.now) symbol) }
    ensures held { IfSome result (Holds x.now.store.now) }
{
    match x.look.role(x.store, symbol) {
        Role::Defined(e) => Some(e),
        _ => None,
    }
}

// The clauses of a predicate.
fn clauses<'a>(x: &Tried<'a>, symbol: usize) -> Option<&'a [TermId]>
    requires tried { TriedHeld x.now }
    ensures trees { option_map (λ cs. trees_at x.now.store.now cs.now) result
        ≡ clauses (role (task_of x.now) symbol) }
    ensures held { IfSome result (λ cs. All (Holds x.now.store.now) cs.now) }
{
    match x.look.role(x.store, symbol) {
        Role::Inductive(cs) => Some(cs),
        _ => None,
    }
}

// The number of a symbol's type variables.
#[tactic(auto, using(crate::proofs::fact_rules::Lists::none_mapped))]
fn vars_of(x: &Tried<'_>, symbol: usize) -> usize
    ensures { result ≡ (symbol_or (task_of x.now).symbols symbol).vars }
{
    match x.look.task.sig.symbols.get(symbol) {
        Some(info) => info.vars,
        None => 0,
    }
}

// Whether there are as many types as a symbol has type variables.
fn at_types(x: &Tried<'_>, symbol: usize, types: &[TermId]) -> bool
    ensures { IsTrue result ↔ table.IsAtTypes (task_of x.now) symbol
        (trees_at x.now.store.now types.now) }
{
    types.len() == vars_of(x, symbol)
}

/// The equation of a symbol at types.
pub fn def(x: &Tried<'_>, symbol: usize, types: &[TermId]) -> bool
    requires tried { TriedHeld x.now }
    requires held { All (Holds x.now.store.now) types.now }
    ensures { IsTrue result ↔ RowOf x.now (RDef symbol (trees_at x.now.store.now types.now)) }
{
    match equation(x, symbol) {
        Some(e) => at_types(x, symbol, types) && adds_one(x, &AtTypes { e: e, types }),
        None => false,
    }
}

// The clause of a number.
fn nth_clause(x: &Tried<'_>, symbol: usize, number: usize) -> Option<TermId>
    requires tried { TriedHeld x.now }
    ensures tree { option_map (tree_at x.now.store.now) result
        ≡ option_and_then (λ cs. slice_get cs number) (clauses (role (task_of x.now) symbol)) }
    ensures held { IfSome result (Holds x.now.store.now) }
{
    clauses(x, symbol)?.get(number).copied()
}

/// A clause of a predicate at types.
pub fn clause(x: &Tried<'_>, symbol: usize, number: usize, types: &[TermId]) -> bool
    requires tried { TriedHeld x.now }
    requires held { All (Holds x.now.store.now) types.now }
    ensures { IsTrue result ↔ RowOf x.now
        (RClause symbol number (trees_at x.now.store.now types.now)) }
{
    match nth_clause(x, symbol, number) {
        Some(a) => at_types(x, symbol, types) && adds_one(x, &AtTypes { e: a, types }),
        None => false,
    }
}

// The types of a symbol's arguments.
#[tactic(auto, using(crate::proofs::fact_rules::Lists::none_mapped))]
fn args_of<'a>(x: &Tried<'a>, symbol: usize) -> &'a [TermId]
    requires { TriedHeld x.now }
    ensures trees { trees_at x.now.store.now result.now
        ≡ (symbol_or (task_of x.now).symbols symbol).args }
    ensures held { All (Holds x.now.store.now) result.now }
{
    match x.look.task.sig.symbols.get(symbol) {
        Some(info) => info.args.as_slice(),
        None => &[],
    }
}

/// The inversion formula of a predicate at types.
pub fn inv<'a>(x: &'a Tried<'a>, symbol: usize, types: &'a [TermId]) -> bool
    requires tried { TriedHeld x.now }
    requires held { All (Holds x.now.store.now) types.now }
    ensures { IsTrue result ↔ RowOf x.now (RInv symbol (trees_at x.now.store.now types.now)) }
{
    match clauses(x, symbol) {
        Some(cs) => {
            if !at_types(x, symbol, types) {
                return false;
            }
            let formula = Inversion {
                symbol,
                args: args_of(x, symbol),
                clauses: cs,
                types,
            };
            adds_one(x, &formula)
        },
        None => false,
    }
}
