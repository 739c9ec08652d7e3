// Inductive predicates and their clauses as members of groups, and what is seen in them.
ghost use Rattle.std.specs.Prelude.{◌≡◌, ◌++◌, map, OnOk};
ghost use Rattle.surface.specs.SurfaceDeclarations.{declared_name};
ghost use Rattle.name_resolution.specs.variables.Entered.{seen_at};
ghost use Rattle.elab_groups.specs.parts.Declarations.{symbol};
ghost use Rattle.elab_groups.specs.members.Sources.{members_at};
ghost use Rattle.elab_declarations.specs.inductive_declarations.Inductives.{clauses_seen, inductives_seen, as_members, formula, formula_members};
ghost use Rattle.elab_declarations.specs.inductive_declarations.Sources.{predicates_at, clauses_at};

use elab_groups::members::{MemberSource, enter_params};
use name_resolution::variables::{Seen, enter_variables};
use std::alloc::{AllocError, Global};
use surface::{ClauseTree, IndTree, OpName};

/// Predicates without their clauses, after the members that are there.
pub fn push_predicates<'a>(
    list: &mut Vec<MemberSource<'a>>,
    inductives: &'a [IndTree],
) -> Result<(), AllocError>
    ensures { OnOk result (members_at list.new.items ≡ members_at list.old.items ++ as_members
        (predicates_at inductives.now)) }
{
    let Some((first, rest)) = inductives.split_first() else {
        return Ok(());
    };
    list.push(MemberSource {
        name: &first.name,
        params: first.params.as_slice(),
        result: None,
        body: None,
    })?;
    push_predicates(list, rest)
}

// The clauses of a predicate of a name, after the members that are there.
fn push_clauses<'a>(
    list: &mut Vec<MemberSource<'a>>,
    name: &'a OpName,
    clauses: &'a [ClauseTree],
) -> Result<(), AllocError>
    ensures { OnOk result (members_at list.new.items ≡ members_at list.old.items ++ map
        (formula (symbol (declared_name name.now))) (clauses_at clauses.now)) }
{
    let Some((first, rest)) = clauses.split_first() else {
        return Ok(());
    };
    list.push(MemberSource {
        name,
        params: &[],
        result: None,
        body: Some(&first.prop),
    })?;
    push_clauses(list, name, rest)
}

/// The clauses of predicates, after the members that are there.
pub fn push_formulas<'a>(
    list: &mut Vec<MemberSource<'a>>,
    inductives: &'a [IndTree],
) -> Result<(), AllocError>
    ensures { OnOk result (members_at list.new.items ≡ members_at list.old.items ++ formula_members
        (predicates_at inductives.now)) }
{
    let Some((first, rest)) = inductives.split_first() else {
        return Ok(());
    };
    push_clauses(list, &first.name, first.clauses.as_slice())?;
    push_formulas(list, rest)
}

// The type variables and tuples of clauses, after those that are there.
fn enter_clauses(alloc: Global, seen: &mut Seen, clauses: &[ClauseTree]) -> Result<(), AllocError>
    ensures { OnOk result (seen_at seen.new ≡ clauses_seen (seen_at seen.old)
        (clauses_at clauses.now)) }
{
    let Some((first, rest)) = clauses.split_first() else {
        return Ok(());
    };
    enter_variables(alloc, seen, &first.prop)?;
    enter_clauses(alloc, seen, rest)
}

/// Those of predicates, after those that are there.
pub fn enter_inductives(
    alloc: Global,
    seen: &mut Seen,
    inductives: &[IndTree],
) -> Result<(), AllocError>
    ensures { OnOk result (seen_at seen.new ≡ inductives_seen (seen_at seen.old)
        (predicates_at inductives.now)) }
{
    let Some((first, rest)) = inductives.split_first() else {
        return Ok(());
    };
    enter_params(alloc, seen, first.params.as_slice())?;
    enter_clauses(alloc, seen, first.clauses.as_slice())?;
    enter_inductives(alloc, seen, rest)
}
