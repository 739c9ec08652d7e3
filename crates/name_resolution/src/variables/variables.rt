// The type variables of an expression and the widths of its tuples, by first appearance.
// They depend on the surface trees alone; elaboration begins with them.
ghost use Rattle.std.specs.Prelude.{◌≡◌, ◌==◌, cond, OnOk};
ghost use Rattle.name_resolution.specs.Abstract.{type_expression_of, forms_of, bound_names_of, binders_of, expression_of, expressions_of, field_values_of, triggers_of, abstract_pattern_of, patterns_of, field_patterns_of, side_by_side, alternatives_of, branches_of};
ghost use Rattle.surface.specs.Surface as code;
ghost use Rattle.name_resolution.specs.variables.Seen.{has_width, with_variable, with_width, form_seen, forms_seen, type_seen, binders_seen, all_seen, pattern_seen, patterns_seen, alternatives_seen, branches_seen};
ghost use Rattle.name_resolution.specs.variables.Seen as fold;
ghost use Rattle.name_resolution.specs.variables.Entered.{seen_at};

use crate::{let_name, variable_named};
use std::alloc::{AllocError, Global};
use surface::{
    BinderTree, BranchTree, Expr, ExprNode, FieldPat, FieldValue, Pat, PatNode, TriggerTree,
    TypeNode, TypeTree,
};
use tasks::{Seq, Text};

/// The type variables and the widths of tuples that were seen, in this order.
#[derive(Drop)]
pub struct Seen {
    pub vars: Seq<Text>,
    pub widths: Seq<usize>,
}

// A type variable, entered where it isn't there.
fn enter_variable(alloc: Global, seen: &mut Seen, name: &[u8]) -> Result<(), AllocError>
    ensures { OnOk result (seen_at seen.new ≡ with_variable name.now (seen_at seen.old)) }
{
    if variable_named(seen.vars.as_slice(), name).is_some() {
        return Ok(());
    }
    let text = Text::from_slice(alloc, name)?;
    seen.vars.push(text)
}

// Whether a width is among these.
fn has_width(widths: &[usize], width: usize) -> bool
    ensures { result ≡ has_width width widths.now }
{
    match widths.split_first() {
        Some((first, rest)) => *first == width || has_width(rest, width),
        None => false,
    }
}

// A width of tuples, entered where it isn't there.
fn enter_width(seen: &mut Seen, width: usize) -> Result<(), AllocError>
    ensures { OnOk result (seen_at seen.new ≡ with_width width (seen_at seen.old)) }
{
    if has_width(seen.widths.as_slice(), width) {
        return Ok(());
    }
    seen.widths.push(width)
}

// The width of what is in parentheses: one alone is no tuple.
fn enter_tuple(seen: &mut Seen, width: usize) -> Result<(), AllocError>
    ensures { OnOk result (seen_at seen.new ≡ cond (width == 1) (seen_at seen.old) (with_width width
        (seen_at seen.old))) }
{
    if width == 1 {
        Ok(())
    } else {
        enter_width(seen, width)
    }
}

/// Those of a type, after those that are there.
#[cycle(form_entering)]
pub fn enter_form(alloc: Global, seen: &mut Seen, ty: &TypeTree) -> Result<(), AllocError>
    ensures { OnOk result (seen_at seen.new
        ≡ form_seen (seen_at seen.old) (type_expression_of ty.now)) }
{
    match &ty.node {
        TypeNode::Var(name) => enter_variable(alloc, seen, name.as_slice()),
        TypeNode::Named(_, types) => enter_forms(alloc, seen, types.as_slice()),
        TypeNode::Group(types) => {
            enter_tuple(seen, types.len())?;
            enter_forms(alloc, seen, types.as_slice())
        }
    }
}

#[cycle(form_entering)]
fn enter_forms(alloc: Global, seen: &mut Seen, types: &[TypeTree]) -> Result<(), AllocError>
    ensures { OnOk result (seen_at seen.new ≡ forms_seen (seen_at seen.old) (forms_of types.now)) }
{
    for ty in types {
        enter_form(alloc, seen, ty)?;
    }
    Ok(())
}

// Those of a binder's type, where it has one.
fn enter_binder(alloc: Global, seen: &mut Seen, binder: &BinderTree) -> Result<(), AllocError>
    ensures { OnOk result (seen_at seen.new ≡ type_seen (seen_at seen.old)
        (bound_names_of binder.now).of_type) }
{
    match &binder.ty {
        Some(ty) => enter_form(alloc, seen, ty),
        None => Ok(()),
    }
}

fn enter_binders(alloc: Global, seen: &mut Seen, binders: &[BinderTree]) -> Result<(), AllocError>
    ensures { OnOk result (seen_at seen.new ≡ binders_seen (seen_at seen.old)
        (binders_of binders.now)) }
{
    for binder in binders {
        enter_binder(alloc, seen, binder)?;
    }
    Ok(())
}

// The widths of a pattern's tuples.
#[cycle(pattern_entering)]
fn enter_pattern(seen: &mut Seen, p: &Pat) -> Result<(), AllocError>
    ensures { OnOk result (seen_at seen.new
        ≡ pattern_seen (seen_at seen.old) (abstract_pattern_of p.now)) }
{
    match &p.node {
        PatNode::Wild => Ok(()),
        PatNode::Var(_) => Ok(()),
        PatNode::Con(_, parts) => enter_all_patterns(seen, parts.as_slice()),
        PatNode::Group(parts) => {
            enter_tuple(seen, parts.len())?;
            enter_all_patterns(seen, parts.as_slice())
        }
        PatNode::Alias(inner, _) => enter_pattern(seen, inner.get()),
        PatNode::Fields(fields, _) => enter_field_patterns(seen, fields.as_slice()),
    }
}

#[cycle(pattern_entering)]
fn enter_field_patterns(seen: &mut Seen, fields: &[FieldPat]) -> Result<(), AllocError>
    ensures { OnOk result (seen_at seen.new ≡ patterns_seen (seen_at seen.old)
        (field_patterns_of fields.now)) }
{
    for field in fields {
        enter_pattern(seen, &field.value)?;
    }
    Ok(())
}

#[cycle(pattern_entering)]
fn enter_all_patterns(seen: &mut Seen, list: &[Pat]) -> Result<(), AllocError>
    ensures { OnOk result (seen_at seen.new ≡ patterns_seen (seen_at seen.old)
        (patterns_of list.now)) }
{
    for p in list {
        enter_pattern(seen, p)?;
    }
    Ok(())
}

// The widths of patterns side by side, which are a tuple where they are more than one.
fn enter_patterns(seen: &mut Seen, list: &[Pat]) -> Result<(), AllocError>
    ensures { OnOk result (seen_at seen.new ≡ pattern_seen (seen_at seen.old) (side_by_side
        (code.patterns list.now))) }
{
    enter_tuple(seen, list.len())?;
    enter_all_patterns(seen, list)
}

fn enter_alternatives(seen: &mut Seen, list: &[Seq<Pat>]) -> Result<(), AllocError>
    ensures { OnOk result (seen_at seen.new ≡ alternatives_seen (seen_at seen.old)
        (alternatives_of list.now)) }
{
    for patterns in list {
        enter_patterns(seen, patterns.as_slice())?;
    }
    Ok(())
}

/// Those of an expression, after those that are there.
#[cycle(entering)]
pub fn enter_variables(alloc: Global, seen: &mut Seen, e: &Expr) -> Result<(), AllocError>
    ensures { OnOk result (seen_at seen.new ≡ fold.seen (seen_at seen.old) (expression_of e.now)) }
{
    match &e.node {
        ExprNode::Apply(_, arguments) => enter_all(alloc, seen, arguments.as_slice()),
        ExprNode::Int(_) => Ok(()),
        ExprNode::True => Ok(()),
        ExprNode::False => Ok(()),
        ExprNode::Group(parts) => {
            enter_tuple(seen, parts.len())?;
            enter_all(alloc, seen, parts.as_slice())
        }
        ExprNode::Cast(inner, ty) => {
            enter_variables(alloc, seen, inner.get())?;
            enter_form(alloc, seen, ty)
        }
        ExprNode::Prefix(_, inner) => enter_variables(alloc, seen, inner.get()),
        ExprNode::Dot(inner, _) => enter_variables(alloc, seen, inner.get()),
        ExprNode::Fields(fields, _) => enter_values(alloc, seen, fields.as_slice()),
        ExprNode::Not(inner) => enter_variables(alloc, seen, inner.get()),
        ExprNode::Binary(left, _, right) => {
            enter_variables(alloc, seen, left.get())?;
            enter_variables(alloc, seen, right.get())
        }
        ExprNode::If(test, left, right) => {
            enter_variables(alloc, seen, test.get())?;
            enter_variables(alloc, seen, left.get())?;
            enter_variables(alloc, seen, right.get())
        }
        ExprNode::Quant(_, binders, triggers, body) => {
            enter_binders(alloc, seen, binders.as_slice())?;
            enter_triggers(alloc, seen, triggers)?;
            enter_variables(alloc, seen, body.get())
        }
        ExprNode::Let(patterns, value, body) => match let_name(patterns.as_slice()) {
            Some(_) => {
                enter_variables(alloc, seen, value.get())?;
                enter_variables(alloc, seen, body.get())
            }
            None => {
                enter_variables(alloc, seen, value.get())?;
                enter_patterns(seen, patterns.as_slice())?;
                enter_variables(alloc, seen, body.get())
            }
        },
        ExprNode::Match(values, _, branches) => {
            enter_tuple(seen, values.len())?;
            enter_all(alloc, seen, values.as_slice())?;
            enter_branches(alloc, seen, branches.as_slice())
        }
    }
}

#[cycle(entering)]
fn enter_triggers(
    alloc: Global,
    seen: &mut Seen,
    triggers: &Option<TriggerTree>,
) -> Result<(), AllocError>
    ensures { OnOk result (seen_at seen.new ≡ all_seen (seen_at seen.old)
        (triggers_of triggers.now)) }
{
    match triggers {
        Some(terms) => enter_all(alloc, seen, terms.terms.as_slice()),
        None => Ok(()),
    }
}

#[cycle(entering)]
fn enter_all(alloc: Global, seen: &mut Seen, list: &[Expr]) -> Result<(), AllocError>
    ensures { OnOk result (seen_at seen.new ≡ all_seen (seen_at seen.old)
        (expressions_of list.now)) }
{
    for e in list {
        enter_variables(alloc, seen, e)?;
    }
    Ok(())
}

#[cycle(entering)]
fn enter_values(alloc: Global, seen: &mut Seen, fields: &[FieldValue]) -> Result<(), AllocError>
    ensures { OnOk result (seen_at seen.new ≡ all_seen (seen_at seen.old)
        (field_values_of fields.now)) }
{
    for field in fields {
        enter_variables(alloc, seen, &field.value)?;
    }
    Ok(())
}

// Those of a branch.
#[cycle(entering)]
fn enter_branch(alloc: Global, seen: &mut Seen, branch: &BranchTree) -> Result<(), AllocError>
    ensures { OnOk result (seen_at seen.new ≡ fold.seen (alternatives_seen (seen_at seen.old)
        (alternatives_of branch.now.alternatives)) (expression_of branch.now.body)) }
{
    enter_alternatives(seen, branch.alternatives.as_slice())?;
    enter_variables(alloc, seen, &branch.body)
}

#[cycle(entering)]
fn enter_branches(alloc: Global, seen: &mut Seen, list: &[BranchTree]) -> Result<(), AllocError>
    ensures { OnOk result (seen_at seen.new ≡ branches_seen (seen_at seen.old)
        (branches_of list.now)) }
{
    for branch in list {
        enter_branch(alloc, seen, branch)?;
    }
    Ok(())
}
