// The signatures of clauses, which have type variables alone, and the clauses of each predicate among those of a group.
ghost use Rattle.std.specs.Prelude.{◌≡◌, ◌++◌, List, None, [], length, map, All, IfOk, OnOk};
ghost use Rattle.tasks.specs.trees.Tree.{Tree};
ghost use Rattle.tasks.specs.trees.Node.{Holds};
ghost use Rattle.tasks.specs.Meaning.{trees_at, inductives_at, InductiveHeld};
ghost use Rattle.name_resolution.specs.Abstract.{expression_of};
ghost use Rattle.name_resolution.specs.variables.Seen.{seen};
ghost use Rattle.elab_groups.specs.parts.Declarations.{signature_variables};
ghost use Rattle.elab_groups.specs.members.Sources.{parameters_of, signed_at, SignedHeld};
ghost use Rattle.elab_declarations.specs.inductive_declarations.Inductives.{formula_members, clause_signature, clause_signatures, induced};
ghost use Rattle.elab_declarations.specs.inductive_declarations.Sources.{predicate_at, predicates_at, clauses_at};

use elab_groups::members::{Signed, signature_seen};
use name_resolution::variables::{Seen, enter_variables};
use std::alloc::{AllocError, Global};
use surface::{ClauseTree, Expr, IndTree, ParamTree};
use tasks::{Ind, Seq, TermId, Text};

// The type variables of a clause: those of its predicate's parameters, then its others.
fn clause_vars(alloc: Global, params: &[ParamTree], prop: &Expr) -> Result<Seq<Text>, AllocError>
    ensures { IfOk result (λ vars. vars ≡ (seen (record {
      vars = signature_variables
          (parameters_of params.now) None;
      widths = [];
    }) (expression_of prop.now)).vars) }
{
    let mut seen = Seen {
        vars: signature_seen(alloc, params, None)?.vars,
        widths: Seq::new(alloc),
    };
    enter_variables(alloc, &mut seen, prop)?;
    Ok(seen.vars)
}

// The signatures of a predicate's clauses, after those that are there.
fn sign_clauses(
    alloc: Global,
    list: &mut Vec<Signed>,
    inductive: &IndTree,
    clauses: &[ClauseTree],
) -> Result<(), AllocError>
    ensures held { OnOk result ((s : List Tree) → All (SignedHeld s) list.old.items → All
        (SignedHeld s) list.new.items) }
    ensures signed { OnOk result ((s : List Tree) → map (signed_at s) list.new.items ≡ map
        (signed_at s) list.old.items ++ map (clause_signature (predicate_at inductive.now))
        (clauses_at clauses.now)) }
{
    let Some((first, rest)) = clauses.split_first() else {
        return Ok(());
    };
    let vars = clause_vars(alloc, inductive.params.as_slice(), &first.prop)?;
    list.push(Signed {
        vars,
        args: Seq::new(alloc),
        result: None,
    })?;
    sign_clauses(alloc, list, inductive, rest)
}

/// The signatures of the clauses of predicates, after those that are there.
pub fn sign_inductives(
    alloc: Global,
    list: &mut Vec<Signed>,
    inductives: &[IndTree],
) -> Result<(), AllocError>
    ensures held { OnOk result ((s : List Tree) → All (SignedHeld s) list.old.items → All
        (SignedHeld s) list.new.items) }
    ensures signed { OnOk result ((s : List Tree) → map (signed_at s) list.new.items ≡ map
        (signed_at s) list.old.items ++ clause_signatures (predicates_at inductives.now)) }
{
    let Some((first, rest)) = inductives.split_first() else {
        return Ok(());
    };
    sign_clauses(alloc, list, first, first.clauses.as_slice())?;
    sign_inductives(alloc, list, rest)
}

/// The clauses of predicates, whose entries stand from a number on, after those that are there: `bodies` has those of all.
pub fn push_induced(
    alloc: Global,
    list: &mut Seq<Ind>,
    number: usize,
    inductives: &[IndTree],
    bodies: &[TermId],
) -> Result<(), AllocError>
    requires { length bodies.now ≡ length (formula_members (predicates_at inductives.now)) }
    ensures held { OnOk result ((s : List Tree) → All (Holds s) bodies.now → All (InductiveHeld s)
        list.old → All (InductiveHeld s) list.new) }
    ensures induced { OnOk result ((s : List Tree) → inductives_at s list.new ≡ inductives_at s
        list.old ++ induced number (predicates_at inductives.now) (trees_at s bodies.now)) }
{
    let Some((first, rest)) = inductives.split_first() else {
        return Ok(());
    };
    let count = first.clauses.len();
    list.push(Ind {
        symbol: number,
        clauses: Seq::from_slice(alloc, &bodies[..count])?,
    })?;
    match number.checked_add(1) {
        Some(next) => push_induced(alloc, list, next, rest, &bodies[count..]),
        None => Err(AllocError),
    }
}
