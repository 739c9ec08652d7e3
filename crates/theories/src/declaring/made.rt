// The names that declarations made, as moves.
// They depend on what scopes know; the typing of declarations depends on them.
ghost use Rattle.std.specs.Prelude.{◌≡◌, ◌++◌, ◌∷◌, [], map, option_map, OnOk};
ghost use Rattle.elab_groups.specs.scopes.declared.Referent.TheVariants as stands;
ghost use Rattle.elab_groups.specs.scopes.declared.Table.TheVariants.{Types, Symbols, Propositions};
ghost use Rattle.surface.specs.SurfaceDeclarations.{decl_of, declared_name, plain_name, member_of, constructor_of, algebraic_of, clause_of, inductive_of};
ghost use Rattle.elab_groups.specs.parts.Declarations.{makes, word, symbol, group_member, constructor, algebraic_type, clause, inductive_predicate, names_of_parameters, made_by_constructors, made_type_names, made_by_members, made_by_clauses, made_by_inductives};
ghost use Rattle.elab_groups.specs.members.Sources.{parameters_of};
ghost use Rattle.theories.specs.declaring.Made.{thing_named, brought_as, moves_made, moves_declared};

use elab_groups::parts::{Scope, Table, TypeName, own_name};
use std::alloc::{AllocError, Global};
use surface::{
    AlgTree, ClauseTree, ConTree, DeclNode, DeclTree, IndTree, MemberTree, Name, OpName, ParamTree,
    Style,
};
use tasks::Text;
use theory_states::Move;

fn entry_at(number: Option<usize>) -> Option<TypeName>
    ensures { result ≡ option_map stands.Entry number }
{
    match number {
        Some(number) => Some(TypeName::Entry(number)),
        None => None,
    }
}

// What a name in a table stands for; in the other tables than that of types it is a number.
fn thing_named(scope: &Scope, table: Table, name: &[u8]) -> Option<TypeName>
    ensures { result ≡ thing_named scope.now table name.now }
{
    match table {
        Table::Types => scope.look_type_at(&[], name),
        Table::Symbols => entry_at(scope.look_at(Table::Symbols, &[], name)),
        Table::Propositions => entry_at(scope.look_at(Table::Propositions, &[], name)),
        Table::Scopes => entry_at(scope.look_at(Table::Scopes, &[], name)),
    }
}

// A name in a table.
fn push_name(
    scope: &Scope,
    table: Table,
    name: Text,
    moves: &mut Vec<Move<usize>>,
) -> Result<(), AllocError>
    ensures { OnOk result (moves.new.items ≡ moves.old.items ++ brought_as table name
        (thing_named scope.now table name)) }
{
    match thing_named(scope, table, name.as_slice()) {
        Some(thing) => {
            moves.push(Move::Brings(table, name, thing))?;
            Ok(())
        }
        None => Ok(()),
    }
}

// A type, a constructor or a field.
fn push_plain(
    scope: &Scope,
    table: Table,
    name: &Name,
    moves: &mut Vec<Move<usize>>,
) -> Result<(), AllocError>
    ensures { OnOk result (moves.new.items ≡ moves.old.items ++ moves_made scope.now
        (makes table (word name.now) ∷ [])) }
{
    let text = name.text.clone()?;
    push_name(scope, table, text, moves)
}

// A function or a predicate.
fn push_symbol(
    alloc: Global,
    scope: &Scope,
    name: &OpName,
    moves: &mut Vec<Move<usize>>,
) -> Result<(), AllocError>
    ensures { OnOk result (moves.new.items ≡ moves.old.items ++ moves_made scope.now
        (makes Symbols (symbol (declared_name name.now)) ∷ [])) }
{
    let text = own_name(alloc, name.style, name.text.as_slice())?;
    push_name(scope, Table::Symbols, text, moves)
}

// A clause, an axiom, a lemma or a goal.
fn push_proposition(
    alloc: Global,
    scope: &Scope,
    name: &Name,
    moves: &mut Vec<Move<usize>>,
) -> Result<(), AllocError>
    ensures { OnOk result (moves.new.items ≡ moves.old.items ++ moves_made scope.now
        (makes Propositions (symbol (plain_name name.now)) ∷ [])) }
{
    let text = own_name(alloc, Style::Plain, name.text.as_slice())?;
    push_name(scope, Table::Propositions, text, moves)
}

// Fields.
fn push_names(scope: &Scope, names: &[Name], moves: &mut Vec<Move<usize>>) -> Result<(), AllocError>
    ensures { OnOk result (moves.new.items ≡ moves.old.items ++ moves_made scope.now
        (map (makes Symbols) (map word names.now))) }
{
    let Some((first, rest)) = names.split_first() else {
        return Ok(());
    };
    push_plain(scope, Table::Symbols, first, moves)?;
    push_names(scope, rest, moves)
}

fn push_fields(
    scope: &Scope,
    fields: &[ParamTree],
    moves: &mut Vec<Move<usize>>,
) -> Result<(), AllocError>
    ensures { OnOk result (moves.new.items ≡ moves.old.items ++ moves_made scope.now
        (map (makes Symbols) (names_of_parameters (parameters_of fields.now)))) }
{
    let Some((first, rest)) = fields.split_first() else {
        return Ok(());
    };
    push_names(scope, first.names.as_slice(), moves)?;
    push_fields(scope, rest, moves)
}

// Constructors, each before its fields.
fn push_constructors(
    scope: &Scope,
    cons: &[ConTree],
    moves: &mut Vec<Move<usize>>,
) -> Result<(), AllocError>
    ensures { OnOk result (moves.new.items ≡ moves.old.items ++ moves_made scope.now
        (made_by_constructors (map constructor (map constructor_of cons.now)))) }
{
    let Some((first, rest)) = cons.split_first() else {
        return Ok(());
    };
    push_plain(scope, Table::Symbols, &first.name, moves)?;
    push_fields(scope, first.fields.as_slice(), moves)?;
    push_constructors(scope, rest, moves)
}

// The constructors of a type with their fields; the constructor of a record makes no name.
fn push_alternatives(
    scope: &Scope,
    of: &AlgTree,
    moves: &mut Vec<Move<usize>>,
) -> Result<(), AllocError>
    ensures { OnOk result (moves.new.items ≡ moves.old.items ++ moves_made scope.now
        (made_by_constructors (algebraic_type (algebraic_of of.now)).constructors)) }
{
    let fields = of.fields.as_slice();
    if let [_, ..] = fields {
        return push_fields(scope, fields, moves);
    }
    push_constructors(scope, of.cons.as_slice(), moves)
}

fn push_types(
    scope: &Scope,
    types: &[AlgTree],
    moves: &mut Vec<Move<usize>>,
) -> Result<(), AllocError>
    ensures { OnOk result (moves.new.items ≡ moves.old.items ++ moves_made scope.now
        (made_type_names (map algebraic_type (map algebraic_of types.now)))) }
{
    let Some((first, rest)) = types.split_first() else {
        return Ok(());
    };
    push_plain(scope, Table::Types, &first.name, moves)?;
    push_alternatives(scope, first, moves)?;
    push_types(scope, rest, moves)
}

fn push_members(
    alloc: Global,
    scope: &Scope,
    members: &[MemberTree],
    moves: &mut Vec<Move<usize>>,
) -> Result<(), AllocError>
    ensures { OnOk result (moves.new.items ≡ moves.old.items ++ moves_made scope.now
        (made_by_members (map group_member (map member_of members.now)))) }
{
    let Some((first, rest)) = members.split_first() else {
        return Ok(());
    };
    push_symbol(alloc, scope, &first.name, moves)?;
    push_members(alloc, scope, rest, moves)
}

fn push_clauses(
    alloc: Global,
    scope: &Scope,
    clauses: &[ClauseTree],
    moves: &mut Vec<Move<usize>>,
) -> Result<(), AllocError>
    ensures { OnOk result (moves.new.items ≡ moves.old.items ++ moves_made scope.now
        (made_by_clauses (map clause (map clause_of clauses.now)))) }
{
    let Some((first, rest)) = clauses.split_first() else {
        return Ok(());
    };
    push_proposition(alloc, scope, &first.name, moves)?;
    push_clauses(alloc, scope, rest, moves)
}

fn push_inductives(
    alloc: Global,
    scope: &Scope,
    predicates: &[IndTree],
    moves: &mut Vec<Move<usize>>,
) -> Result<(), AllocError>
    ensures { OnOk result (moves.new.items ≡ moves.old.items ++ moves_made scope.now
        (made_by_inductives (map inductive_predicate (map inductive_of predicates.now)))) }
{
    let Some((first, rest)) = predicates.split_first() else {
        return Ok(());
    };
    push_symbol(alloc, scope, &first.name, moves)?;
    push_clauses(alloc, scope, first.clauses.as_slice(), moves)?;
    push_inductives(alloc, scope, rest, moves)
}

/// Puts the names that a declaration made after other moves, in reading order, each with what it stands for in the scopes. A `use`,
/// a `clone` and a `scope` make none here. Only want of memory refuses.
pub fn push_declared(
    alloc: Global,
    scope: &Scope,
    decl: &DeclTree,
    moves: &mut Vec<Move<usize>>,
) -> Result<(), AllocError>
    ensures { OnOk result (moves.new.items ≡ moves.old.items ++ moves_declared scope.now
        (decl_of decl.now)) }
{
    match &decl.node {
        DeclNode::TypeDecl(name, _, _) => push_plain(scope, Table::Types, name, moves),
        DeclNode::Algebraic(types) => push_types(scope, types.as_slice(), moves),
        DeclNode::Function(name, _, _, _, others) => {
            push_symbol(alloc, scope, name, moves)?;
            push_members(alloc, scope, others.as_slice(), moves)
        }
        DeclNode::Predicate(name, _, _, others) => {
            push_symbol(alloc, scope, name, moves)?;
            push_members(alloc, scope, others.as_slice(), moves)
        }
        DeclNode::Constant(name, _, _) => push_symbol(alloc, scope, name, moves),
        DeclNode::Inductive(predicates) => {
            push_inductives(alloc, scope, predicates.as_slice(), moves)
        }
        DeclNode::Prop(_, name, _) => push_proposition(alloc, scope, name, moves),
        DeclNode::UseTheory(_, _, _) => Ok(()),
        DeclNode::CloneTheory(_, _, _, _) => Ok(()),
        DeclNode::ScopeDecl(_, _) => Ok(()),
    }
}
