// Terms and formulas, where they are known to be there: each call reads one, and says where it ends.
ghost use Rattle.std.specs.Prelude.{false, true, ◌&&◌, ◌||◌, ◌≡◌, ◌<◌, ◌∷◌, IfOk, map, not, option_map};
ghost use Rattle.parser.specs.parse_terms.Common.{same, is_prefix, arm_of, terms_of, tree_of, tree_part_of, trees, ends_open};
ghost use Rattle.grammar.specs.declared.symbols.Symbol.TheVariants as rule;
ghost use Rattle.tokens_why.specs.declared.terminal.Terminal.TheVariants as t;
ghost use Rattle.surface.specs.Surface.{trigger as trigger_of};
ghost use Rattle.parser.specs.parse_terms.Reading.{CanRead, CanRun, Climb, IsReadClosed, IsExpr, IsRead, is_name_at, takes_infix, terminal_at};
ghost use Rattle.parser.specs.parse_terms.Sources.{lexemes};
ghost use Rattle.parser.specs.parse_terms.Fields.{IsReadPlain};
ghost use Rattle.parser.specs.parse_terms.Records.{IsReadTreeField};
ghost use Rattle.parser.specs.parse_terms.Terms.{IsBranch, IsReadTrigger};

use crate::parse_terms::fields::{at_field, with_fields};
use crate::parse_terms::names::{head_name, lower_name};
use crate::parse_terms::operators::{
    at_name, at_operator, at_prefix, at_quantifier, at_separator, integer_tree, operator, past_bar,
    past_semicolon,
};
use crate::parse_terms::parts::{alternative, binder};
use crate::parse_terms::patterns::pattern;
use crate::parse_terms::source::Source;
use crate::parse_terms::tokens::{at_atom, at_next_field, is_at, place, terminal};
use crate::parse_terms::types::type_tree;
use grammar::{prec_of, right_of};
use outside::{Boxed, Seq};
use std::alloc::{AllocError, Global};
use surface::{At, BinderTree, BranchTree, Expr, ExprNode, FieldValue, Pat, TriggerTree};
use tokens_why::Terminal;

/// A term or formula, whether it ends in an open form, and the token after it.
#[derive(Drop)]
pub struct ReadExpression {
    pub tree: Expr,
    pub is_open: bool,
    pub end: usize,
}

/// A tree after which operators may follow, and how tightly it binds.
#[derive(Drop)]
struct ReadOperand {
    tree: Expr,
    tight: u8,
    is_open: bool,
    end: usize,
}

fn goes_on(source: Source, is_open: bool, m: u8, tight: u8, i: usize) -> bool
    ensures { result ≡ (not is_open
        && takes_infix m tight (terminal_at (lexemes source.entry) i)) }
{
    !is_open && at_operator(source, m, tight, i)
}

/// A term or formula of a level. Only want of memory refuses.
#[cycle(descent)]
pub fn expression(
    alloc: Global,
    source: Source,
    m: u8,
    i: usize,
) -> Result<ReadExpression, AllocError>
    requires { CanRead (lexemes source) (rule.Expr m) i }
    ensures read { IfOk result (λ r. IsExpr (lexemes source.entry) m i (tree_of r.tree) r.end) }
    ensures is_open { IfOk result (λ r. r.is_open ≡ ends_open (tree_of r.tree)) }
{
    let mut left = operand(alloc, source, m, i)?;
    'operators: while goes_on(source, left.is_open, m, left.tight, left.end) {
        left = operation(alloc, source, m, i, left)?;
    }
    Ok(ReadExpression {
        tree: left.tree,
        is_open: left.is_open,
        end: left.end,
    })
}

/// A term or formula of any level, and the token after it.
#[cycle(descent)]
fn any_expression(alloc: Global, source: Source, i: usize) -> Result<(Expr, usize), AllocError>
    requires { CanRead (lexemes source) (rule.Expr 0) i }
    ensures { IfOk result (λ r. IsExpr (lexemes source.entry) 0 i (tree_of r.0) r.1) }
{
    let read = expression(alloc, source, 0, i)?;
    Ok((read.tree, read.end))
}

/// The same in a box, which is dropped by one call where a later part finds no memory: the proof of a function grows with
/// the trees that it drops itself.
#[cycle(descent)]
fn boxed_expression(
    alloc: Global,
    source: Source,
    i: usize,
) -> Result<(Boxed<Expr>, usize), AllocError>
    requires { CanRead (lexemes source) (rule.Expr 0) i }
    ensures { IfOk result (λ r. IsExpr (lexemes source.entry) 0 i (tree_of r.0) r.1) }
{
    let (tree, end) = any_expression(alloc, source, i)?;
    let held = Boxed::new(alloc, tree)?;
    Ok((held, end))
}

/// What stands to the left of an operator, with the operator and its right operand.
#[cycle(descent)]
fn operation(
    alloc: Global,
    source: Source,
    m: u8,
    i: usize,
    left: ReadOperand,
) -> Result<ReadOperand, AllocError>
    requires climb { Climb (lexemes source) m i (tree_of left.tree) left.tight left.end }
    requires goes_on { (not (ends_open (tree_of left.tree))
        && takes_infix m left.tight (terminal_at (lexemes source) left.end)) ≡ true }
    ensures climb { IfOk result
        (λ r. Climb (lexemes source.entry) m i (tree_of r.tree) r.tight r.end) }
    ensures is_open { IfOk result (λ r. r.is_open ≡ ends_open (tree_of r.tree)) }
    ensures ahead { IfOk result (λ r. left.end < r.end) }
{
    let ReadOperand {
        tree: left_tree,
        tight: _,
        is_open: _,
        end,
    } = left;
    let sign = terminal(source, end);
    let first = Boxed::new(alloc, left_tree)?;
    let name = operator(alloc, source, end)?;
    let right = expression(alloc, source, right_of(sign), end + 1)?;
    let second = Boxed::new(alloc, right.tree)?;
    let here = At {
        first: i,
        main: end,
    };
    let tree = Expr::new(here, ExprNode::Binary(first, name, second));
    Ok(ReadOperand {
        tree,
        tight: prec_of(sign),
        is_open: right.is_open,
        end: right.end,
    })
}

/// What is before the first operator of a level.
#[cycle(descent)]
fn operand(alloc: Global, source: Source, m: u8, i: usize) -> Result<ReadOperand, AllocError>
    requires { CanRead (lexemes source) (rule.Expr m) i }
    ensures climb { IfOk result
        (λ r. Climb (lexemes source.entry) m i (tree_of r.tree) r.tight r.end) }
    ensures is_open { IfOk result (λ r. r.is_open ≡ ends_open (tree_of r.tree)) }
{
    let is_negation = is_at(source, i, Terminal::NotWord);
    if is_negation {
        return negation(alloc, source, m, i);
    }
    if at_prefix(source, i) {
        return prefix(alloc, source, m, i);
    }
    let is_choice = is_at(source, i, Terminal::IfWord);
    if is_choice {
        return choice(alloc, source, m, i);
    }
    let is_binding = is_at(source, i, Terminal::LetWord);
    if is_binding {
        return let_in(alloc, source, m, i);
    }
    if at_quantifier(source, i) {
        return quantification(alloc, source, m, i);
    }
    let (tree, end) = primary(alloc, source, i)?;
    Ok(ReadOperand {
        tree,
        tight: 9,
        is_open: false,
        end,
    })
}

/// A `not` and its operand.
#[cycle(descent)]
fn negation(alloc: Global, source: Source, m: u8, i: usize) -> Result<ReadOperand, AllocError>
    requires can { CanRead (lexemes source) (rule.Expr m) i }
    requires word { same t.NotWord (terminal_at (lexemes source) i) ≡ true }
    ensures climb { IfOk result
        (λ r. Climb (lexemes source.entry) m i (tree_of r.tree) r.tight r.end) }
    ensures is_open { IfOk result (λ r. r.is_open ≡ ends_open (tree_of r.tree)) }
{
    let inner = expression(alloc, source, 3, i + 1)?;
    let tree = Expr::negation(alloc, place(i), inner.tree)?;
    Ok(ReadOperand {
        tree,
        tight: 3,
        is_open: inner.is_open,
        end: inner.end,
    })
}

/// A prefix operator and its operand.
#[cycle(descent)]
fn prefix(alloc: Global, source: Source, m: u8, i: usize) -> Result<ReadOperand, AllocError>
    requires can { CanRead (lexemes source) (rule.Expr m) i }
    requires sign { is_prefix (terminal_at (lexemes source) i) ≡ true }
    ensures climb { IfOk result
        (λ r. Climb (lexemes source.entry) m i (tree_of r.tree) r.tight r.end) }
    ensures is_open { IfOk result (λ r. r.is_open ≡ ends_open (tree_of r.tree)) }
{
    let name = operator(alloc, source, i)?;
    let inner = expression(alloc, source, 8, i + 1)?;
    let tree = Expr::prefix(alloc, place(i), name, inner.tree)?;
    Ok(ReadOperand {
        tree,
        tight: 8,
        is_open: inner.is_open,
        end: inner.end,
    })
}

/// An `if` with its condition and its two sides.
#[cycle(descent)]
fn choice(alloc: Global, source: Source, m: u8, i: usize) -> Result<ReadOperand, AllocError>
    requires can { CanRead (lexemes source) (rule.Expr m) i }
    requires word { same t.IfWord (terminal_at (lexemes source) i) ≡ true }
    ensures climb { IfOk result
        (λ r. Climb (lexemes source.entry) m i (tree_of r.tree) r.tight r.end) }
    ensures is_open { IfOk result (λ r. r.is_open ≡ ends_open (tree_of r.tree)) }
{
    let (condition, j) = boxed_expression(alloc, source, i + 1)?;
    let (yes, n) = boxed_expression(alloc, source, j + 1)?;
    let (no, end) = boxed_expression(alloc, source, n + 1)?;
    let tree = Expr::new(place(i), ExprNode::If(condition, yes, no));
    Ok(ReadOperand {
        tree,
        tight: 0,
        is_open: true,
        end,
    })
}

/// A `let`.
#[cycle(descent)]
fn let_in(alloc: Global, source: Source, m: u8, i: usize) -> Result<ReadOperand, AllocError>
    requires can { CanRead (lexemes source) (rule.Expr m) i }
    requires word { same t.LetWord (terminal_at (lexemes source) i) ≡ true }
    ensures climb { IfOk result
        (λ r. Climb (lexemes source.entry) m i (tree_of r.tree) r.tight r.end) }
    ensures is_open { IfOk result (λ r. r.is_open ≡ ends_open (tree_of r.tree)) }
{
    let mut bound: Vec<Pat> = Vec::new(alloc);
    let (first, mut j) = pattern(alloc, source, i + 1)?;
    bound.push(first)?;
    'more: while is_at(source, j, Terminal::Comma) {
        let (next, end) = pattern(alloc, source, j + 1)?;
        bound.push(next)?;
        j = end;
    }
    let (value, n) = boxed_expression(alloc, source, j + 1)?;
    let (body, last) = boxed_expression(alloc, source, n + 1)?;
    let tree = Expr::new(place(i), ExprNode::Let(Seq::from_vec(bound), value, body));
    Ok(ReadOperand {
        tree,
        tight: 0,
        is_open: true,
        end: last,
    })
}

/// A quantifier with what it binds and its body.
#[cycle(descent)]
fn quantification(alloc: Global, source: Source, m: u8, i: usize) -> Result<ReadOperand, AllocError>
    requires can { CanRead (lexemes source) (rule.Expr m) i }
    requires word { (same t.ForallWord (terminal_at (lexemes source) i)
        || same t.ExistsWord (terminal_at (lexemes source) i)) ≡ true }
    ensures climb { IfOk result
        (λ r. Climb (lexemes source.entry) m i (tree_of r.tree) r.tight r.end) }
    ensures is_open { IfOk result (λ r. r.is_open ≡ ends_open (tree_of r.tree)) }
{
    let forall = is_at(source, i, Terminal::ForallWord);
    let mut binders: Vec<BinderTree> = Vec::new(alloc);
    let (first, mut j) = binder(alloc, source, i + 1)?;
    binders.push(first)?;
    'more: while is_at(source, j, Terminal::Comma) {
        let (next, end) = binder(alloc, source, j + 1)?;
        binders.push(next)?;
        j = end;
    }
    let (triggers, following) = trigger(alloc, source, j)?;
    let (body, last) = any_expression(alloc, source, following)?;
    let bound = Seq::from_vec(binders);
    let tree = Expr::quantifier(alloc, place(i), forall, bound, triggers, body)?;
    Ok(ReadOperand {
        tree,
        tight: 0,
        is_open: true,
        end: last,
    })
}

/// The trigger of a quantifier, if there is one, and where its body begins.
#[cycle(descent)]
fn trigger(
    alloc: Global,
    source: Source,
    i: usize,
) -> Result<(Option<TriggerTree>, usize), AllocError>
    requires can { CanRead (lexemes source) rule.Binders i }
    requires last { same t.Comma (terminal_at (lexemes source) i) ≡ false }
    ensures { IfOk result (λ r. IsReadTrigger (lexemes source.entry) i
        (trigger_of (option_map terms_of r.0)) r.1) }
{
    let is_given = is_at(source, i, Terminal::LBrack);
    if is_given {
        let mut terms: Vec<Expr> = Vec::new(alloc);
        let mut bars: Vec<bool> = Vec::new(alloc);
        let (first, mut j) = any_expression(alloc, source, i + 1)?;
        terms.push(first)?;
        'terms: while at_separator(source, j) {
            let bar = is_at(source, j, Terminal::Bar);
            let (next, end) = any_expression(alloc, source, j + 1)?;
            terms.push(next)?;
            bars.push(bar)?;
            j = end;
        }
        let tree = TriggerTree::new(Seq::from_vec(terms), Seq::from_vec(bars));
        return Ok((Some(tree), j + 1 + 1));
    }
    Ok((None, i + 1))
}

/// An application or an atom.
#[cycle(descent)]
fn primary(alloc: Global, source: Source, i: usize) -> Result<(Expr, usize), AllocError>
    requires { CanRead (lexemes source) rule.Prim i }
    ensures { IfOk result
        (λ r. IsReadClosed (lexemes source.entry) rule.Prim i (tree_of r.0) (tree_of r.0) r.1) }
{
    if at_name(source, i) {
        let (name, j) = head_name(alloc, source, i)?;
        let has_field = at_field(source, &name, j);
        if has_field {
            let alone = Expr::new(place(i), ExprNode::Apply(name, Seq::new(alloc)));
            let (tree, end) = with_fields(alloc, source, i, alone, j)?;
            return Ok((tree, end));
        }
        let (parts, end) = arguments(alloc, source, j)?;
        return Ok((Expr::new(place(i), ExprNode::Apply(name, parts)), end));
    }
    let (tree, end) = plain_atom(alloc, source, i)?;
    Ok((tree, end))
}

/// An expression that stands as an argument.
#[cycle(descent)]
fn atom(alloc: Global, source: Source, i: usize) -> Result<(Expr, usize), AllocError>
    requires { CanRead (lexemes source) rule.Atom i }
    ensures { IfOk result
        (λ r. IsReadClosed (lexemes source.entry) rule.Atom i (tree_of r.0) (tree_of r.0) r.1) }
{
    if at_name(source, i) {
        let (name, j) = head_name(alloc, source, i)?;
        let has_field = at_field(source, &name, j);
        let alone = Expr::new(place(i), ExprNode::Apply(name, Seq::new(alloc)));
        if has_field {
            let (tree, end) = with_fields(alloc, source, i, alone, j)?;
            return Ok((tree, end));
        }
        return Ok((alone, j));
    }
    let (tree, end) = plain_atom(alloc, source, i)?;
    Ok((tree, end))
}

/// Arguments side by side.
#[cycle(descent)]
fn arguments(alloc: Global, source: Source, i: usize) -> Result<(Seq<Expr>, usize), AllocError>
    requires { CanRead (lexemes source) rule.Args i }
    ensures { IfOk result
        (λ r. IsRead (lexemes source.entry) rule.Args i (trees (map tree_of r.0)) r.1) }
{
    let mut parts: Vec<Expr> = Vec::new(alloc);
    let mut j = i;
    'arguments: while at_atom(source, j) {
        let (next, end) = atom(alloc, source, j)?;
        parts.push(next)?;
        j = end;
    }
    Ok((Seq::from_vec(parts), j))
}

/// An atom that is no name.
#[cycle(descent)]
fn plain_atom(alloc: Global, source: Source, i: usize) -> Result<(Expr, usize), AllocError>
    requires can { CanRead (lexemes source) rule.Atom i }
    requires unnamed { is_name_at (lexemes source) i ≡ false }
    ensures { IfOk result
        (λ r. IsReadClosed (lexemes source.entry) rule.Atom i (tree_of r.0) (tree_of r.0) r.1) }
{
    let here = place(i);
    let is_integer = is_at(source, i, Terminal::Int);
    if is_integer {
        return Ok((integer_tree(source, i), i + 1));
    }
    let is_true = is_at(source, i, Terminal::TrueWord);
    if is_true {
        return Ok((Expr::new(here, ExprNode::True), i + 1));
    }
    let is_false = is_at(source, i, Terminal::FalseWord);
    if is_false {
        return Ok((Expr::new(here, ExprNode::False), i + 1));
    }
    let is_match = is_at(source, i, Terminal::MatchWord);
    if is_match {
        let (plain, j) = cases(alloc, source, i)?;
        let (tree, end) = with_fields(alloc, source, i, plain, j)?;
        return Ok((tree, end));
    }
    let is_record = is_at(source, i, Terminal::LBrace);
    if is_record {
        let (plain, j) = term_record(alloc, source, i)?;
        let (tree, end) = with_fields(alloc, source, i, plain, j)?;
        return Ok((tree, end));
    }
    let (plain, j) = enclosed(alloc, source, i)?;
    let (tree, end) = with_fields(alloc, source, i, plain, j)?;
    Ok((tree, end))
}

/// What is in parentheses: terms, or one with its type.
#[cycle(descent)]
fn enclosed(alloc: Global, source: Source, i: usize) -> Result<(Expr, usize), AllocError>
    requires can { CanRead (lexemes source) rule.Atom i }
    requires unnamed { is_name_at (lexemes source) i ≡ false }
    requires opens { same t.LParen (terminal_at (lexemes source) i) ≡ true }
    ensures { IfOk result (λ r. IsReadPlain (lexemes source.entry) i (tree_of r.0) r.1) }
{
    let here = place(i);
    let following = i + 1;
    let is_empty = is_at(source, following, Terminal::RParen);
    if is_empty {
        return Ok((
            Expr::new(here, ExprNode::Group(Seq::new(alloc))),
            following + 1,
        ));
    }
    let (first, mut j) = any_expression(alloc, source, following)?;
    let is_cast = is_at(source, j, Terminal::Colon);
    if is_cast {
        let held = Boxed::new(alloc, first)?;
        let (ty, end) = type_tree(alloc, source, j + 1)?;
        let tree = Expr::new(here, ExprNode::Cast(held, ty));
        return Ok((tree, end + 1));
    }
    let mut parts: Vec<Expr> = Vec::new(alloc);
    parts.push(first)?;
    'members: while is_at(source, j, Terminal::Comma) {
        let (next, end) = any_expression(alloc, source, j + 1)?;
        parts.push(next)?;
        j = end;
    }
    Ok((
        Expr::new(here, ExprNode::Group(Seq::from_vec(parts))),
        j + 1,
    ))
}

/// A record.
#[cycle(descent)]
fn term_record(alloc: Global, source: Source, i: usize) -> Result<(Expr, usize), AllocError>
    requires can { CanRead (lexemes source) rule.Atom i }
    requires opens { same t.LBrace (terminal_at (lexemes source) i) ≡ true }
    ensures { IfOk result (λ r. IsReadPlain (lexemes source.entry) i (tree_of r.0) r.1) }
{
    let mut fields: Vec<FieldValue> = Vec::new(alloc);
    let (first, mut j) = field_value(alloc, source, i + 1)?;
    fields.push(first)?;
    'more: while at_next_field(source, j) {
        let (next, end) = field_value(alloc, source, j + 1)?;
        fields.push(next)?;
        j = end;
    }
    let (semi, end) = past_semicolon(source, j);
    let here = place(i);
    let tree = Expr::new(here, ExprNode::Fields(Seq::from_vec(fields), semi));
    Ok((tree, end + 1))
}

/// A field of a record and its value.
#[cycle(descent)]
fn field_value(alloc: Global, source: Source, i: usize) -> Result<(FieldValue, usize), AllocError>
    requires { CanRun (lexemes source) (λ k. rule.Qlid ∷ rule.Take t.Equal ∷ rule.Expr 0 ∷ k) i }
    ensures { IfOk result (λ r. IsReadTreeField (lexemes source.entry) i (tree_part_of r.0) r.1) }
{
    let (name, j) = lower_name(alloc, source, i)?;
    let (value, end) = any_expression(alloc, source, j + 1)?;
    Ok((FieldValue { name, value }, end))
}

/// A `match`.
#[cycle(descent)]
fn cases(alloc: Global, source: Source, i: usize) -> Result<(Expr, usize), AllocError>
    requires can { CanRead (lexemes source) rule.Atom i }
    requires word { same t.MatchWord (terminal_at (lexemes source) i) ≡ true }
    ensures { IfOk result (λ r. IsReadPlain (lexemes source.entry) i (tree_of r.0) r.1) }
{
    let mut scrutinees: Vec<Expr> = Vec::new(alloc);
    let (first, mut j) = any_expression(alloc, source, i + 1)?;
    scrutinees.push(first)?;
    'scrutinees: while is_at(source, j, Terminal::Comma) {
        let (next, end) = any_expression(alloc, source, j + 1)?;
        scrutinees.push(next)?;
        j = end;
    }
    let (bar, begin) = past_bar(source, j + 1);
    let mut arms: Vec<BranchTree> = Vec::new(alloc);
    let (arm, mut n) = branch(alloc, source, begin)?;
    arms.push(arm)?;
    'arms: while is_at(source, n, Terminal::Bar) {
        let (more, end) = branch(alloc, source, n + 1)?;
        arms.push(more)?;
        n = end;
    }
    let here = place(i);
    let tree = Expr::new(
        here,
        ExprNode::Match(Seq::from_vec(scrutinees), bar, Seq::from_vec(arms)),
    );
    Ok((tree, n + 1))
}

/// A branch of a `match`.
#[cycle(descent)]
fn branch(alloc: Global, source: Source, i: usize) -> Result<(BranchTree, usize), AllocError>
    requires { CanRun (lexemes source) (λ k. rule.Pat ∷ rule.Arm ∷ k) i }
    ensures { IfOk result (λ r. IsBranch (lexemes source.entry) i (arm_of r.0) r.1) }
{
    let mut alternatives: Vec<Seq<Pat>> = Vec::new(alloc);
    let (first, mut j) = alternative(alloc, source, i)?;
    alternatives.push(first)?;
    'alternatives: while is_at(source, j, Terminal::Bar) {
        let (next, end) = alternative(alloc, source, j + 1)?;
        alternatives.push(next)?;
        j = end;
    }
    let (body, last) = any_expression(alloc, source, j + 1)?;
    let tree = BranchTree::new(Seq::from_vec(alternatives), body);
    Ok((tree, last))
}
