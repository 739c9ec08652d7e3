// The names that inductive predicates and their clauses make, and the first fault of those that they use.
ghost use Rattle.std.specs.Prelude.{◌≡◌, ◌++◌, ◌∷◌, [], true, List, OnOk};
ghost use Rattle.tasks.specs.trees.Tree.{Tree};
ghost use Rattle.name_resolution.specs.Naming.{where_at, Tells};
ghost use Rattle.elab_groups.specs.parts.Declarations.{clauses_fault, inductives_fault, made_by_inductives, made_fault};
ghost use Rattle.elab_groups.specs.parts.Outcomes.{declared_in};
ghost use Rattle.elab_declarations.specs.NewNames.{indexed_names};
ghost use Rattle.elab_declarations.specs.inductive_declarations.Inductives.{with_clauses, with_inductives, clause_names, clauses_made, inductive_made, inductives_made};
ghost use Rattle.elab_declarations.specs.inductive_declarations.Sources.{predicate_at, predicates_at, clauses_at};

use crate::new_names::declare_new;
use elab_groups::members::{MemberSource, check_params, declare_member};
use indexmap::IndexSet;
use name_resolution::{Names, NamingFault, Scope, Table, World, check, own_name};
use std::alloc::Global;
use surface::{ClauseTree, IndTree, Style};
use tasks::Text;

// The first fault of the names that clauses use.
fn check_clauses(
    alloc: Global,
    world: &World<'_>,
    clauses: &[ClauseTree],
) -> Result<(), NamingFault>
    requires { world.now.new_vars ≡ true }
    ensures { (s : List Tree) → Tells result (clauses_fault (where_at s world.now)
        (clauses_at clauses.now)) }
{
    let Some((first, rest)) = clauses.split_first() else {
        return Ok(());
    };
    check(alloc, &first.prop, world, &Names::Outside, true)?;
    check_clauses(alloc, world, rest)
}

/// The first fault of the names that predicates use.
pub fn check_inductives(
    alloc: Global,
    world: &World<'_>,
    inductives: &[IndTree],
) -> Result<(), NamingFault>
    requires { world.now.new_vars ≡ true }
    ensures { (s : List Tree) → Tells result (inductives_fault (where_at s world.now)
        (predicates_at inductives.now)) }
{
    let Some((first, rest)) = inductives.split_first() else {
        return Ok(());
    };
    check_params(alloc, first.params.as_slice(), world)?;
    check_clauses(alloc, world, first.clauses.as_slice())?;
    check_inductives(alloc, world, rest)
}

// The names that clauses make; `named` has the names of those before them.
fn declare_clauses(
    alloc: Global,
    scope: &mut Scope,
    named: &mut IndexSet<Vec<u8>>,
    clauses: &[ClauseTree],
    decl: usize,
) -> Result<(), NamingFault>
    ensures ok { OnOk result (scope.new ≡ with_clauses decl (clauses_at clauses.now) scope.old) }
    ensures named { OnOk result (indexed_names named.new ≡ indexed_names named.old ++ clause_names
        (clauses_at clauses.now)) }
    ensures told { Tells result (clauses_made (declared_in scope.old Table.Propositions)
        (indexed_names named.old) (clauses_at clauses.now)) }
{
    let Some((first, rest)) = clauses.split_first() else {
        return Ok(());
    };
    let own = own_name(alloc, Style::Plain, first.name.text.as_slice())?;
    declare_new(scope, Table::Propositions, named, own, first.name.at, decl)?;
    declare_clauses(alloc, scope, named, rest, decl)
}

// The names that a predicate makes: its own, those of its parameters, and those of its clauses.
fn declare_inductive(
    alloc: Global,
    scope: &mut Scope,
    before: &mut Vec<Text>,
    named: &mut IndexSet<Vec<u8>>,
    inductive: &IndTree,
    number: usize,
    decl: usize,
) -> Result<(), NamingFault>
    ensures ok { OnOk result (scope.new ≡ with_inductives decl number
        (predicate_at inductive.now ∷ []) scope.old) }
    ensures before { OnOk result (before.new.items ≡ before.old.items ++
        (predicate_at inductive.now).called.name ∷ []) }
    ensures named { OnOk result (indexed_names named.new ≡ indexed_names named.old ++ clause_names
        (predicate_at inductive.now).clauses) }
    ensures told { Tells result (inductive_made (declared_in scope.old Table.Symbols)
        (declared_in scope.old Table.Propositions) before.old.items
        (indexed_names named.old) (predicate_at inductive.now)) }
{
    let own = own_name(alloc, inductive.name.style, inductive.name.text.as_slice())?;
    let params = inductive.params.as_slice();
    let m = MemberSource {
        name: &inductive.name,
        params,
        result: None,
        body: None,
    };
    declare_member(alloc, scope, before.as_slice(), own.as_slice(), &m, number)?;
    before.push(own)?;
    let clauses = inductive.clauses.as_slice();
    declare_clauses(alloc, scope, named, clauses, decl)
}

// The names that predicates make, which stand for the entries from a number on, and those of their clauses, which stand for the
// declaration's number; `before` and `named` have those of the predicates before them and of their clauses.
fn declare_inductives(
    alloc: Global,
    scope: &mut Scope,
    before: &mut Vec<Text>,
    named: &mut IndexSet<Vec<u8>>,
    inductives: &[IndTree],
    number: usize,
    decl: usize,
) -> Result<(), NamingFault>
    ensures ok { OnOk result (scope.new ≡ with_inductives decl number
        (predicates_at inductives.now) scope.old) }
    ensures told { Tells result (inductives_made (declared_in scope.old Table.Symbols)
        (declared_in scope.old Table.Propositions) before.old.items
        (indexed_names named.old) (predicates_at inductives.now)) }
{
    let Some((first, rest)) = inductives.split_first() else {
        return Ok(());
    };
    declare_inductive(alloc, scope, before, named, first, number, decl)?;
    match number.checked_add(1) {
        Some(next) => declare_inductives(alloc, scope, before, named, rest, next, decl),
        None => Err(NamingFault::Memory),
    }
}

/// The names that a group makes, whose entries stand from a number on, and whose declaration has the number `decl`.
pub fn declare_group(
    alloc: Global,
    scope: &mut Scope,
    inductives: &[IndTree],
    number: usize,
    decl: usize,
) -> Result<(), NamingFault>
    ensures ok { OnOk result (scope.new ≡ with_inductives decl number
        (predicates_at inductives.now) scope.old) }
    ensures told { Tells result (made_fault (declared_in scope.old) [] (made_by_inductives
        (predicates_at inductives.now))) }
{
    let mut before = Vec::new(alloc);
    let mut named = IndexSet::new(alloc);
    declare_inductives(
        alloc,
        scope,
        &mut before,
        &mut named,
        inductives,
        number,
        decl,
    )
}
