// The tokens of an expression.
ghost use Rattle.std.specs.Prelude.{◌≡◌, ◌++◌, ◌∷◌, [], map, option_map};
ghost use Rattle.tokens_why.specs.declared.terminal.Terminal.TheVariants.{Arrow, EndWord, LetWord, MatchWord, WithWord, Equal};
ghost use Rattle.surface.specs.Lexeme.{terminals, mark, at};
ghost use Rattle.surface.specs.Forms.{form_list, write_called};
ghost use Rattle.surface.specs.Trees.{alternative_list, bar_before, write, tree_fields, write_row, write_list, write_branches, write_trigger, write_terms, apply, group, cast};
ghost use Rattle.surface.specs.unparse.Putting.{Puts};
ghost use Rattle.surface.specs.Surface.{called_of, form_of, patterns, tree_of, arm_of, terms_of, trees, branches, trigger, tree_part_of, tree_names, tree_values};

use crate::unparse::parts::{
    operator_terminal, push_alternatives, push_bar, push_binders, push_called, push_patterns,
    push_semicolon, push_terminal, push_type, quantifier_terminal, separator_terminal,
};
use crate::unparse::writing::Written;
use crate::{BranchTree, Expr, ExprNode, FieldValue, Pat, QName, TriggerTree, TypeTree};
use tokens_why::Terminal;

/// Puts an expression's tokens after others.
#[cycle(writing)]
pub fn push_expr(e: &Expr, out: &mut Written)
    ensures { Puts out.old out.new (terminals (write (tree_of e.now))) }
{
    match &e.node {
        ExprNode::Apply(function, arguments) => push_apply(function, arguments.as_slice(), out),
        ExprNode::Int(_) => push_terminal(Terminal::Int, out),
        ExprNode::True => push_terminal(Terminal::TrueWord, out),
        ExprNode::False => push_terminal(Terminal::FalseWord, out),
        ExprNode::Group(parts) => push_group(parts.as_slice(), out),
        ExprNode::Cast(inner, ty) => push_cast(inner.get(), ty, out),
        ExprNode::Match(scrutinees, bar, arms) => {
            push_scrutinees(scrutinees.as_slice(), out);
            push_arms(*bar, arms.as_slice(), out)
        }
        ExprNode::Dot(of, field) => {
            push_expr(of.get(), out);
            out.push(Terminal::Dot);
            push_called(field, out)
        }
        ExprNode::Fields(fields, semi) => {
            out.push(Terminal::LBrace);
            push_field_values(fields.as_slice(), out);
            push_semicolon(*semi, out);
            push_terminal(Terminal::RBrace, out)
        }
        ExprNode::Prefix(operator, operand) => {
            push_after(operator_terminal(operator), operand.get(), out)
        }
        ExprNode::Not(operand) => push_after(Terminal::NotWord, operand.get(), out),
        ExprNode::Binary(left, operator, right) => {
            push_expr(left.get(), out);
            push_after(operator_terminal(operator), right.get(), out)
        }
        ExprNode::If(condition, consequent, alternative) => {
            push_after(Terminal::IfWord, condition.get(), out);
            push_after(Terminal::ThenWord, consequent.get(), out);
            push_after(Terminal::ElseWord, alternative.get(), out)
        }
        ExprNode::Let(bound, value, body) => {
            push_value(value.get(), bound.as_slice(), out);
            push_after(Terminal::InWord, body.get(), out)
        }
        ExprNode::Quant(forall, binders, triggers, body) => {
            out.push(quantifier_terminal(*forall));
            push_binders(binders.as_slice(), out);
            push_triggers(triggers, out);
            push_after(Terminal::Dot, body.get(), out)
        }
    }
}

/// An expression after a token.
#[cycle(writing)]
fn push_after(terminal: Terminal, e: &Expr, out: &mut Written)
    ensures { Puts out.old out.new (terminal ∷ terminals
        (write (tree_of e.now))) }
{
    out.push(terminal);
    push_expr(e, out)
}

#[cycle(writing)]
fn push_apply(function: &QName, arguments: &[Expr], out: &mut Written)
    ensures { Puts out.old out.new (terminals
        (write (apply (at 0) (called_of function.now) (trees (map tree_of arguments.now))))) }
{
    push_called(function, out);
    push_row(arguments, out)
}

#[cycle(writing)]
fn push_group(parts: &[Expr], out: &mut Written)
    ensures { Puts out.old out.new (terminals
        (write (group (at 0) (trees (map tree_of parts.now))))) }
{
    out.push(Terminal::LParen);
    push_list(parts, out);
    push_terminal(Terminal::RParen, out)
}

#[cycle(writing)]
fn push_cast(inner: &Expr, ty: &TypeTree, out: &mut Written)
    ensures { Puts out.old out.new (terminals
        (write (cast (at 0) (tree_of inner.now) (form_of ty.now)))) }
{
    out.push(Terminal::LParen);
    push_expr(inner, out);
    out.push(Terminal::Colon);
    push_type(ty, out);
    push_terminal(Terminal::RParen, out)
}

/// `match` and the scrutinees.
#[cycle(writing)]
fn push_scrutinees(of: &[Expr], out: &mut Written)
    ensures { Puts out.old out.new (terminals
        (mark MatchWord ∷ write_list (trees (map tree_of of.now)))) }
{
    out.push(Terminal::MatchWord);
    push_list(of, out)
}

/// `with`, the branches and `end`.
#[cycle(writing)]
fn push_arms(bar: bool, arms: &[BranchTree], out: &mut Written)
    ensures { Puts out.old out.new (terminals
        (mark WithWord ∷ bar_before bar ++
        (write_branches (branches (map arm_of arms.now)) ++ (mark EndWord ∷ [])))) }
{
    out.push(Terminal::WithWord);
    push_bar(bar, out);
    push_branches(arms, out);
    push_terminal(Terminal::EndWord, out)
}

/// `let`, the patterns, `=` and the value.
#[cycle(writing)]
fn push_value(value: &Expr, bound: &[Pat], out: &mut Written)
    ensures { Puts out.old out.new (terminals
        (mark LetWord ∷ form_list (patterns bound.now)
        ++ (mark Equal ∷ write (tree_of value.now)))) }
{
    out.push(Terminal::LetWord);
    push_patterns(bound, out);
    out.push(Terminal::Equal);
    push_expr(value, out)
}

#[cycle(writing)]
fn push_row(exprs: &[Expr], out: &mut Written)
    ensures { Puts out.old out.new (terminals
        (write_row (trees (map tree_of exprs.now)))) }
{
    for e in exprs {
        push_expr(e, out);
    }
}

#[cycle(writing)]
fn push_list(exprs: &[Expr], out: &mut Written)
    ensures { Puts out.old out.new (terminals
        (write_list (trees (map tree_of exprs.now)))) }
{
    if let [first, rest @ ..] = exprs {
        push_expr(first, out);
        for e in rest {
            out.push(Terminal::Comma);
            push_expr(e, out);
        }
    }
}

#[cycle(writing)]
fn push_field_value(field: &FieldValue, out: &mut Written)
    ensures { Puts out.old out.new (terminals (write_called (tree_part_of field.now).name
        ++ (mark Equal ∷ write (tree_part_of field.now).tree))) }
{
    push_called(&field.name, out);
    push_after(Terminal::Equal, &field.value, out)
}

// The fields of a record with their values, with semicolons between.
#[cycle(writing)]
fn push_field_values(of: &[FieldValue], out: &mut Written)
    ensures { Puts out.old out.new (terminals (tree_fields
        (tree_names (map tree_part_of of.now))
        (tree_values (map tree_part_of of.now)))) }
{
    if let [first, rest @ ..] = of {
        push_field_value(first, out);
        for field in rest {
            out.push(Terminal::Semi);
            push_field_value(field, out);
        }
    }
}

#[cycle(writing)]
fn push_arm(arm: &BranchTree, out: &mut Written)
    ensures { Puts out.old out.new (terminals
        (alternative_list (arm_of arm.now).alternatives ++
        (mark Arrow ∷ write (arm_of arm.now).body))) }
{
    push_alternatives(arm.alternatives.as_slice(), out);
    out.push(Terminal::Arrow);
    push_expr(&arm.body, out)
}

#[cycle(writing)]
fn push_branches(arms: &[BranchTree], out: &mut Written)
    ensures { Puts out.old out.new (terminals
        (write_branches (branches (map arm_of arms.now)))) }
{
    if let [first, rest @ ..] = arms {
        push_arm(first, out);
        for arm in rest {
            out.push(Terminal::Bar);
            push_arm(arm, out);
        }
    }
}

#[cycle(writing)]
fn push_triggers(triggers: &Option<TriggerTree>, out: &mut Written)
    ensures { Puts out.old out.new (terminals
        (write_trigger (trigger (option_map terms_of triggers.now)))) }
{
    match triggers {
        None => (),
        Some(t) => {
            out.push(Terminal::LBrack);
            push_terms(t.terms.as_slice(), t.bars.as_slice(), out);
            push_terminal(Terminal::RBrack, out)
        }
    }
}

#[cycle(writing)]
fn push_terms(terms: &[Expr], bars: &[bool], out: &mut Written)
    ensures { Puts out.old out.new (terminals
        (write_terms (trees (map tree_of terms.now)) bars.now)) }
{
    if let [first, rest @ ..] = terms {
        push_expr(first, out);
        let mut left = bars;
        for e in rest {
            if let [bar, others @ ..] = left {
                out.push(separator_terminal(*bar));
                left = others;
            } else {
                out.push(Terminal::Comma);
            }
            push_expr(e, out);
        }
    }
}
