// The heads of triggers, by which it is told whether a trigger is a formula.
// They depend on operators and on what names mean.
ghost use Rattle.std.specs.Prelude.{◌≡◌, List, IfOk};
ghost use Rattle.tasks.specs.trees.Tree.{Tree};
ghost use Rattle.name_resolution.specs.Abstract.{expression_of, expressions_of, grouped};
ghost use Rattle.name_resolution.specs.Abstract.{operator_meaning};
ghost use Rattle.name_resolution.specs.Faults.{is_predicate, is_projection, trigger_head, trigger_named, trigger_other, operator_head, is_formula_head, makes_formulas};
ghost use Rattle.name_resolution.specs.Faults as faults;
ghost use Rattle.name_resolution.specs.Naming.{names_at, where_at, head_at, symbol_named};
ghost use Rattle.surface.specs.Surface.{op_of};

use crate::bound::{Names, is_variable};
use crate::operators::{Operation, infix_operation, own_name, prefix_operator};
use crate::world::World;
use std::alloc::{AllocError, Global};
use surface::{Expr, ExprNode, OpName, QName};
use tasks::{SymbolKind, Text};

/// The head of a trigger: a name with its scopes, a prefix operator, an infix one, equality or with `false` its negation, or
/// no name.
#[derive(Clone, Copy)]
pub enum TriggerHead<'a> {
    Name(&'a QName),
    Prefix(&'a OpName),
    Infix(&'a [u8]),
    Equality(bool),
    Other,
}

/// The head of a trigger and the token that stands for it.
#[derive(Clone, Copy)]
pub struct Trigger<'a> {
    pub token: usize,
    pub head: TriggerHead<'a>,
}

/// Whether a symbol makes formulas.
pub fn is_predicate(kind: SymbolKind) -> bool
    ensures { result ≡ is_predicate kind }
{
    match kind {
        SymbolKind::Predicate => true,
        SymbolKind::Kind | SymbolKind::Function => false,
        SymbolKind::Constructor | SymbolKind::Projection => false,
    }
}

/// Whether a kind is that of a field's function.
pub fn is_projection(kind: SymbolKind) -> bool
    ensures { result ≡ is_projection kind }
{
    match kind {
        SymbolKind::Projection => true,
        SymbolKind::Kind | SymbolKind::Function => false,
        SymbolKind::Constructor | SymbolKind::Predicate => false,
    }
}

// A trigger without a name at its head.
fn no_head(token: usize) -> Trigger<'static>
    ensures head { head_at result.head ≡ trigger_other }
    ensures token { result.token ≡ token }
{
    Trigger {
        token,
        head: TriggerHead::Other,
    }
}

// The head of two operands with an operator between.
fn infix_head(op: &OpName) -> TriggerHead<'_>
    ensures { head_at result ≡ operator_head
        (operator_meaning (op_of op.now).terminal (op_of op.now).text) }
{
    match infix_operation(op) {
        Operation::Connective(_) => TriggerHead::Other,
        Operation::Equality(same) => TriggerHead::Equality(same),
        Operation::Symbol(name) => TriggerHead::Infix(name),
    }
}

/// The head of a trigger and its token. Parentheses round one trigger are looked through.
#[cycle(heads)]
pub fn trigger_of(e: &Expr) -> Trigger<'_>
    ensures head { head_at result.head ≡ trigger_head (expression_of e.now) }
    ensures token { result.token ≡ faults.token (expression_of e.now) }
{
    let token = e.at.main;
    match &e.node {
        ExprNode::Apply(name, _) => Trigger {
            token,
            head: TriggerHead::Name(name),
        },
        ExprNode::Prefix(op, _) => Trigger {
            token,
            head: TriggerHead::Prefix(op),
        },
        ExprNode::Binary(_, op, _) => Trigger {
            token,
            head: infix_head(op),
        },
        ExprNode::Group(parts) => group_trigger(parts.as_slice(), token),
        ExprNode::Int(_) => no_head(token),
        ExprNode::True => no_head(token),
        ExprNode::False => no_head(token),
        ExprNode::Cast(_, _) => no_head(token),
        ExprNode::Match(_, _, _) => no_head(token),
        ExprNode::Dot(_, _) => no_head(token),
        ExprNode::Fields(_, _) => no_head(token),
        ExprNode::Not(_) => no_head(token),
        ExprNode::If(_, _, _) => no_head(token),
        ExprNode::Let(_, _, _) => no_head(token),
        ExprNode::Quant(_, _, _, _) => no_head(token),
    }
}

#[cycle(heads)]
fn group_trigger(list: &[Expr], token: usize) -> Trigger<'_>
    ensures head { head_at result.head ≡ trigger_head (grouped token (expressions_of list.now)) }
    ensures token { result.token ≡ faults.token (grouped token (expressions_of list.now)) }
{
    if list.len() == 1 {
        trigger_of(&list[0])
    } else {
        no_head(token)
    }
}

/// Whether the entry for which a name stands makes formulas. A number without an entry counts as that of `int`.
pub fn names_predicate(world: &World<'_>, scopes: &[Text], name: &[u8]) -> bool
    ensures { (s : List Tree) → result ≡ makes_formulas (where_at s world.now)
        (symbol_named world.now.scope.now scopes.now name.now) }
{
    let Some(symbol) = world.symbol_named(scopes, name) else {
        return false;
    };
    match world.symbols.get(symbol) {
        Some(info) => is_predicate(info.kind),
        None => false,
    }
}

// Whether a name is that of a predicate, which no variable hides.
fn is_formula_name(world: &World<'_>, names: &Names<'_>, scopes: &[Text], name: &[u8]) -> bool
    ensures { (s : List Tree) → result ≡ is_formula_head (where_at s world.now) (names_at names.now)
        (trigger_named scopes.now name.now) }
{
    if is_variable(names, scopes, name) {
        false
    } else {
        names_predicate(world, scopes, name)
    }
}

/// Whether a trigger with this head is a formula.
pub fn is_formula_head(
    alloc: Global,
    head: TriggerHead<'_>,
    world: &World<'_>,
    names: &Names<'_>,
) -> Result<bool, AllocError>
    ensures { IfOk result (λ yes. (s : List Tree) → yes ≡ is_formula_head (where_at s world.now)
        (names_at names.now) (head_at head.entry)) }
{
    match head {
        TriggerHead::Name(name) => {
            let own = own_name(alloc, name.style, name.text.as_slice())?;
            let scopes = name.scopes.as_slice();
            Ok(is_formula_name(world, names, scopes, own.as_slice()))
        }
        TriggerHead::Prefix(op) => {
            let own = prefix_operator(alloc, op)?;
            Ok(is_formula_name(world, names, &[], own.as_slice()))
        }
        TriggerHead::Infix(name) => Ok(is_formula_name(world, names, &[], name)),
        TriggerHead::Equality(same) => Ok(same),
        TriggerHead::Other => Ok(false),
    }
}
