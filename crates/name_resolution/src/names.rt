// The names of an expression in reading order: the first that isn't there, is of another kind, or has another number of
// arguments.
// They depend on what names mean, on operators and on the names of types.
ghost use Rattle.std.specs.Prelude.{◌≡◌, not, List, [], Some, option_map};
ghost use Rattle.tasks.specs.trees.Tree.{Tree};
ghost use Rattle.tasks.specs.Meaning.{symbol_at};
ghost use Rattle.tasks.specs.Task.{int_symbol};
ghost use Rattle.name_resolution.specs.Abstract.{expression_of, expressions_of, record_expression, value_fields_of, field_values_of, grouped, triggers_of, let_name, more_alternatives, first_form, side_by_side, alternatives_of, branches_of};
ghost use Rattle.name_resolution.specs.Faults.{first_of, fault_if, fault, faults, symbol_fault, field_fault, name_fault, entry_fault, triggers_fault, branch_fault, branches_fault, has_alternative};
ghost use Rattle.name_resolution.specs.declared.NamingFault.TheVariants.{WrongKind};
ghost use Rattle.name_resolution.specs.Naming.{Tells, names_at, where_at, symbol_named};
ghost use Rattle.surface.specs.Surface as code;

use crate::NamingFault;
use crate::bound::{Names, is_variable};
use crate::operators::{Operation, infix_operation, own_name, prefix_operator};
use crate::patterns::{check_alternatives, check_patterns};
use crate::records::{Fields, check_record};
use crate::triggers::{is_formula_head, is_predicate, is_projection, trigger_of};
use crate::type_names::{check_binders, check_form, refuse_if};
use crate::world::World;
use std::alloc::Global;
use surface::{BranchTree, Expr, ExprNode, FieldValue, Name, Pat, PatNode, TriggerTree};
use tasks::{Seq, SymbolInfo, Text};

// A use of an entry with so many arguments.
fn check_entry(due: bool, token: usize, count: usize, info: &SymbolInfo) -> Result<(), NamingFault>
    ensures { (s : List Tree) → Tells result (entry_fault due token count (symbol_at s info.now)) }
{
    let wrong = due != is_predicate(info.kind);
    refuse_if(wrong, NamingFault::WrongKind { token })?;
    refuse_if(info.args.len() != count, NamingFault::Arity { token })
}

// A use of a number without an entry, which counts as the entry of `int`, with so many arguments.
fn check_absent(due: bool, token: usize, count: usize) -> Result<(), NamingFault>
    ensures { Tells result (entry_fault due token count int_symbol) }
{
    refuse_if(due, NamingFault::WrongKind { token })?;
    refuse_if(count != 0, NamingFault::Arity { token })
}

// A use of a symbol with so many arguments.
fn check_use(
    world: &World<'_>,
    due: bool,
    token: usize,
    scopes: &[Text],
    name: &[u8],
    count: usize,
) -> Result<(), NamingFault>
    ensures { (s : List Tree) → Tells result (symbol_fault (where_at s world.now) due token count
        (symbol_named world.now.scope.now scopes.now name.now)) }
{
    let Some(symbol) = world.symbol_named(scopes, name) else {
        return Err(NamingFault::Unknown { token });
    };
    match world.symbols.get(symbol) {
        Some(info) => check_entry(due, token, count, info),
        None => check_absent(due, token, count),
    }
}

// The name of a field after a term.
fn check_field(
    world: &World<'_>,
    due: bool,
    token: usize,
    scopes: &[Text],
    name: &[u8],
) -> Result<(), NamingFault>
    ensures { (s : List Tree) → Tells result (field_fault (where_at s world.now) due token
        (symbol_named world.now.scope.now scopes.now name.now)) }
{
    let Some(symbol) = world.symbol_named(scopes, name) else {
        return Err(NamingFault::Unknown { token });
    };
    let Some(info) = world.symbols.get(symbol) else {
        return Err(NamingFault::WrongKind { token });
    };
    refuse_if(!is_projection(info.kind), NamingFault::WrongKind { token })?;
    check_entry(due, token, 1, info)
}

// A name that is before so many arguments.
fn check_name(
    world: &World<'_>,
    names: &Names<'_>,
    due: bool,
    token: usize,
    scopes: &[Text],
    name: &[u8],
    count: usize,
) -> Result<(), NamingFault>
    ensures { (s : List Tree) → Tells result (name_fault (where_at s world.now)
        (names_at names.now) due token scopes.now name.now count) }
{
    if !is_variable(names, scopes, name) {
        return check_use(world, due, token, scopes, name, count);
    }
    refuse_if(due, NamingFault::WrongKind { token })?;
    refuse_if(count != 0, NamingFault::Arity { token })
}

/// The name that a `let` binds, where its pattern is a name.
pub fn let_name(patterns: &[Pat]) -> Option<&Name>
    ensures { let_name (code.patterns patterns.now) ≡ option_map (λ n. n.now.text) result }
{
    if patterns.len() != 1 {
        return None;
    }
    match &patterns[0].node {
        PatNode::Var(name) => Some(name),
        PatNode::Wild => None,
        PatNode::Con(_, _) => None,
        PatNode::Group(_) => None,
        PatNode::Alias(_, _) => None,
        PatNode::Fields(_, _) => None,
    }
}

// Whether a branch has an alternative.
fn has_alternative(branches: &[BranchTree]) -> bool
    ensures { result ≡ has_alternative (branches_of branches.now) }
{
    let Some((first, rest)) = branches.split_first() else {
        return false;
    };
    match first.alternatives.as_slice().split_first() {
        Some(_) => true,
        None => has_alternative(rest),
    }
}

/// The first fault of an expression's names, where a formula is due or a term.
#[cycle(naming)]
pub fn check(
    alloc: Global,
    e: &Expr,
    world: &World<'_>,
    names: &Names<'_>,
    due: bool,
) -> Result<(), NamingFault>
    ensures { (s : List Tree) → Tells result (fault (where_at s world.now) world.now.new_vars
        (names_at names.now) due (expression_of e.now)) }
{
    let token = e.at.main;
    match &e.node {
        ExprNode::Apply(name, arguments) => {
            let own = own_name(alloc, name.style, name.text.as_slice())?;
            let scopes = name.scopes.as_slice();
            check_name(
                world,
                names,
                due,
                token,
                scopes,
                own.as_slice(),
                arguments.len(),
            )?;
            check_all(alloc, arguments.as_slice(), world, names)
        }
        ExprNode::Int(_) => refuse_if(due, NamingFault::WrongKind { token }),
        ExprNode::True => refuse_if(!due, NamingFault::WrongKind { token }),
        ExprNode::False => refuse_if(!due, NamingFault::WrongKind { token }),
        ExprNode::Cast(inner, ty) => {
            refuse_if(due, NamingFault::WrongKind { token })?;
            check(alloc, inner.get(), world, names, false)?;
            check_form(alloc, ty, world)
        }
        ExprNode::Dot(inner, field) => {
            let own = own_name(alloc, field.style, field.text.as_slice())?;
            check(alloc, inner.get(), world, names, false)?;
            check_field(
                world,
                due,
                field.at,
                field.scopes.as_slice(),
                own.as_slice(),
            )
        }
        ExprNode::Fields(fields, _) => {
            check_fields(alloc, fields.as_slice(), world, names, due, token)
        }
        ExprNode::Not(inner) => {
            refuse_if(!due, NamingFault::WrongKind { token })?;
            check(alloc, inner.get(), world, names, true)
        }
        ExprNode::If(test, left, right) => {
            check(alloc, test.get(), world, names, true)?;
            check(alloc, left.get(), world, names, due)?;
            check(alloc, right.get(), world, names, due)
        }
        ExprNode::Group(parts) => check_group(alloc, parts.as_slice(), world, names, due, token),
        ExprNode::Prefix(op, inner) => {
            let own = prefix_operator(alloc, op)?;
            check_name(world, names, due, token, &[], own.as_slice(), 1)?;
            check(alloc, inner.get(), world, names, false)
        }
        ExprNode::Binary(left, op, right) => match infix_operation(op) {
            Operation::Connective(_) => {
                check(alloc, left.get(), world, names, true)?;
                refuse_if(!due, NamingFault::WrongKind { token })?;
                check(alloc, right.get(), world, names, true)
            }
            Operation::Equality(_) => {
                check(alloc, left.get(), world, names, false)?;
                refuse_if(!due, NamingFault::WrongKind { token })?;
                check(alloc, right.get(), world, names, false)
            }
            Operation::Symbol(name) => {
                check(alloc, left.get(), world, names, false)?;
                check_name(world, names, due, token, &[], name, 2)?;
                check(alloc, right.get(), world, names, false)
            }
        },
        ExprNode::Let(patterns, value, body) => match let_name(patterns.as_slice()) {
            Some(name) => {
                check(alloc, value.get(), world, names, false)?;
                let inside = Names::Inside(name.text.as_slice(), &*names);
                check(alloc, body.get(), world, &inside, due)
            }
            None => {
                let pattern = patterns.as_slice();
                let mut bound = Seq::new(alloc);
                check_patterns(alloc, pattern, world, &mut bound)?;
                check(alloc, value.get(), world, names, false)?;
                let inside = Names::Among(bound.as_slice(), &*names);
                check(alloc, body.get(), world, &inside, due)
            }
        },
        ExprNode::Quant(_, binders, triggers, body) => {
            refuse_if(!due, NamingFault::WrongKind { token })?;
            check_binders(alloc, binders.as_slice(), world)?;
            let inside = Names::Under(binders.as_slice(), &*names);
            check_triggers(alloc, triggers, world, &inside)?;
            check(alloc, body.get(), world, &inside, true)
        }
        ExprNode::Match(values, _, branches) => {
            check_all(alloc, values.as_slice(), world, names)?;
            check_cases(alloc, branches.as_slice(), world, names, due, token)
        }
    }
}

// The branches of a `match` at a token.
#[cycle(naming)]
fn check_cases(
    alloc: Global,
    branches: &[BranchTree],
    world: &World<'_>,
    names: &Names<'_>,
    due: bool,
    token: usize,
) -> Result<(), NamingFault>
    ensures { (s : List Tree) → Tells result (first_of (fault_if (not (has_alternative
        (branches_of branches.now))) (WrongKind token)) (branches_fault (where_at s world.now)
        world.now.new_vars (names_at names.now) due (branches_of branches.now))) }
{
    refuse_if(!has_alternative(branches), NamingFault::WrongKind { token })?;
    check_branches(alloc, branches, world, names, due)
}

#[cycle(naming)]
fn check_all(
    alloc: Global,
    list: &[Expr],
    world: &World<'_>,
    names: &Names<'_>,
) -> Result<(), NamingFault>
    ensures { (s : List Tree) → Tells result (faults (where_at s world.now) world.now.new_vars
        (names_at names.now) (expressions_of list.now)) }
{
    for e in list {
        check(alloc, e, world, names, false)?;
    }
    Ok(())
}

// The fields of a record: their names, then their values.
#[cycle(naming)]
fn check_fields(
    alloc: Global,
    fields: &[FieldValue],
    world: &World<'_>,
    names: &Names<'_>,
    due: bool,
    token: usize,
) -> Result<(), NamingFault>
    ensures { (s : List Tree) → Tells result (fault (where_at s world.now) world.now.new_vars
        (names_at names.now) due (record_expression token (value_fields_of fields.now)
        (field_values_of fields.now))) }
{
    refuse_if(due, NamingFault::WrongKind { token })?;
    check_record(alloc, world, true, token, Fields::Values(fields))?;
    check_values(alloc, fields, world, names)
}

#[cycle(naming)]
fn check_values(
    alloc: Global,
    fields: &[FieldValue],
    world: &World<'_>,
    names: &Names<'_>,
) -> Result<(), NamingFault>
    ensures { (s : List Tree) → Tells result (faults (where_at s world.now) world.now.new_vars
        (names_at names.now) (field_values_of fields.now)) }
{
    for field in fields {
        check(alloc, &field.value, world, names, false)?;
    }
    Ok(())
}

// Expressions in parentheses: one is itself, any other number of them is a tuple.
#[cycle(naming)]
fn check_group(
    alloc: Global,
    list: &[Expr],
    world: &World<'_>,
    names: &Names<'_>,
    due: bool,
    token: usize,
) -> Result<(), NamingFault>
    ensures { (s : List Tree) → Tells result (fault (where_at s world.now) world.now.new_vars
        (names_at names.now) due (grouped token (expressions_of list.now))) }
{
    if list.len() == 1 {
        return check(alloc, &list[0], world, names, due);
    }
    refuse_if(due, NamingFault::WrongKind { token })?;
    check_all(alloc, list, world, names)
}

#[cycle(naming)]
fn check_triggers(
    alloc: Global,
    triggers: &Option<TriggerTree>,
    world: &World<'_>,
    names: &Names<'_>,
) -> Result<(), NamingFault>
    ensures { (s : List Tree) → Tells result (triggers_fault
        (where_at s world.now) world.now.new_vars (names_at names.now) (triggers_of triggers.now)) }
{
    match triggers {
        Some(terms) => check_terms(alloc, terms.terms.as_slice(), world, names),
        None => Ok(()),
    }
}

#[cycle(naming)]
fn check_terms(
    alloc: Global,
    list: &[Expr],
    world: &World<'_>,
    names: &Names<'_>,
) -> Result<(), NamingFault>
    ensures { (s : List Tree) → Tells result (triggers_fault
        (where_at s world.now) world.now.new_vars (names_at names.now) (expressions_of list.now)) }
{
    for e in list {
        let due = is_formula_head(alloc, trigger_of(e).head, world, names)?;
        check(alloc, e, world, names, due)?;
    }
    Ok(())
}

// What is under the names of the first of some alternatives.
#[cycle(naming)]
fn check_under(
    alloc: Global,
    body: &Expr,
    first: &[Pat],
    rest: &[Seq<Pat>],
    world: &World<'_>,
    names: &Names<'_>,
    due: bool,
) -> Result<(), NamingFault>
    ensures { (s : List Tree) → Tells result (branch_fault (where_at s world.now) world.now.new_vars
        (names_at names.now) due (more_alternatives (first_form (code.patterns first.now))
        (side_by_side (code.patterns first.now)) (alternatives_of rest.now))
        (expression_of body.now)) }
{
    let mut bound = Seq::new(alloc);
    check_alternatives(alloc, first, rest, world, &mut bound)?;
    let inside = Names::Among(bound.as_slice(), &*names);
    check(alloc, body, world, &inside, due)
}

#[cycle(naming)]
fn check_branch(
    alloc: Global,
    branch: &BranchTree,
    world: &World<'_>,
    names: &Names<'_>,
    due: bool,
) -> Result<(), NamingFault>
    ensures { (s : List Tree) → Tells result (branch_fault (where_at s world.now) world.now.new_vars
        (names_at names.now) due (alternatives_of branch.now.alternatives)
        (expression_of branch.now.body)) }
{
    let body = &branch.body;
    match branch.alternatives.as_slice().split_first() {
        Some((first, rest)) => check_under(alloc, body, first.as_slice(), rest, world, names, due),
        None => check(alloc, body, world, names, due),
    }
}

#[cycle(naming)]
fn check_branches(
    alloc: Global,
    list: &[BranchTree],
    world: &World<'_>,
    names: &Names<'_>,
    due: bool,
) -> Result<(), NamingFault>
    ensures { (s : List Tree) → Tells result (branches_fault
        (where_at s world.now) world.now.new_vars (names_at names.now) due (branches_of list.now)) }
{
    for branch in list {
        check_branch(alloc, branch, world, names, due)?;
    }
    Ok(())
}
