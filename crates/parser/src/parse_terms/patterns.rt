// Patterns, where they are known to be there: each call reads one, and says where it ends.
ghost use Rattle.std.specs.Prelude.{true, ◌≡◌, ◌<◌, ◌∷◌, IfOk};
ghost use Rattle.parser.specs.parse_terms.Common.{same, pattern_of, patterns, form_part_of};
ghost use Rattle.grammar.specs.declared.symbols.Symbol.TheVariants as rule;
ghost use Rattle.parser.specs.parse_terms.Patterns.{IsBare};
ghost use Rattle.parser.specs.parse_terms.Reading.{CanRead, CanRun, IsRead, terminal_at};
ghost use Rattle.parser.specs.parse_terms.Records.{IsReadFormField};
ghost use Rattle.tokens_why.specs.declared.terminal.Terminal.TheVariants as t;
ghost use Rattle.parser.specs.parse_terms.Sources.{lexemes};

use crate::parse_terms::names::{lower_name, upper_name};
use crate::parse_terms::operators::past_semicolon;
use crate::parse_terms::source::Source;
use crate::parse_terms::tokens::{at_next_field, at_pattern, is_at, name_at, place};
use outside::Seq;
use std::alloc::{AllocError, Global};
use surface::{FieldPat, Pat, PatNode};
use tokens_why::Terminal;

/// A pattern, and the token after it. Only want of memory refuses.
#[cycle(pattern_descent)]
pub fn pattern(alloc: Global, source: Source, i: usize) -> Result<(Pat, usize), AllocError>
    requires { CanRead (lexemes source) rule.Pat i }
    ensures { IfOk result (λ r. IsRead (lexemes source.entry) rule.Pat i (pattern_of r.0) r.1) }
{
    let (inner, end) = bare_pattern(alloc, source, i)?;
    let is_named = is_at(source, end, Terminal::AsWord);
    if is_named {
        let following = end + 1;
        let name = name_at(alloc, source, following)?;
        let here = place(i);
        let tree = Pat::alias(alloc, here, inner, name)?;
        return Ok((tree, following + 1));
    }
    Ok((inner, end))
}

/// A pattern without the name that may follow.
#[cycle(pattern_descent)]
fn bare_pattern(alloc: Global, source: Source, i: usize) -> Result<(Pat, usize), AllocError>
    requires { CanRead (lexemes source) rule.Pat i }
    ensures { IfOk result (λ r. IsBare (lexemes source.entry) i (pattern_of r.0) r.1) }
{
    let is_constructor = is_at(source, i, Terminal::Uident);
    if is_constructor {
        let here = place(i);
        let (name, j) = upper_name(alloc, source, i)?;
        let (parts, end) = pattern_parts(alloc, source, j)?;
        return Ok((Pat::new(here, PatNode::Con(name, parts)), end));
    }
    let (tree, end) = pattern_atom(alloc, source, i)?;
    Ok((tree, end))
}

/// A pattern that stands as a part.
#[cycle(pattern_descent)]
fn pattern_atom(alloc: Global, source: Source, i: usize) -> Result<(Pat, usize), AllocError>
    requires { CanRead (lexemes source) rule.Patom i }
    ensures { IfOk result (λ r. IsRead (lexemes source.entry) rule.Patom i (pattern_of r.0) r.1) }
{
    let here = place(i);
    let is_wild = is_at(source, i, Terminal::Wild);
    if is_wild {
        return Ok((Pat::new(here, PatNode::Wild), i + 1));
    }
    let is_name = is_at(source, i, Terminal::Lident);
    if is_name {
        let name = name_at(alloc, source, i)?;
        return Ok((Pat::new(here, PatNode::Var(name)), i + 1));
    }
    let is_constant = is_at(source, i, Terminal::Uident);
    if is_constant {
        let (name, end) = upper_name(alloc, source, i)?;
        return Ok((Pat::new(here, PatNode::Con(name, Seq::new(alloc))), end));
    }
    let is_record = is_at(source, i, Terminal::LBrace);
    if is_record {
        return pattern_record(alloc, source, i);
    }
    let (parts, end) = pattern_list(alloc, source, i + 1)?;
    Ok((Pat::new(here, PatNode::Group(parts)), end))
}

/// A record.
#[cycle(pattern_descent)]
fn pattern_record(alloc: Global, source: Source, i: usize) -> Result<(Pat, usize), AllocError>
    requires can { CanRead (lexemes source) rule.Patom i }
    requires opens { same t.LBrace (terminal_at (lexemes source) i) ≡ true }
    ensures { IfOk result (λ r. IsRead (lexemes source.entry) rule.Patom i (pattern_of r.0) r.1) }
{
    let mut fields: Vec<FieldPat> = Vec::new(alloc);
    let (first, mut j) = pattern_field(alloc, source, i + 1)?;
    fields.push(first)?;
    'more: while at_next_field(source, j) {
        let (next, end) = pattern_field(alloc, source, j + 1)?;
        fields.push(next)?;
        j = end;
    }
    let (semi, end) = past_semicolon(source, j);
    let here = place(i);
    let tree = Pat::new(here, PatNode::Fields(Seq::from_vec(fields), semi));
    Ok((tree, end + 1))
}

/// A field of a record and its pattern.
#[cycle(pattern_descent)]
fn pattern_field(alloc: Global, source: Source, i: usize) -> Result<(FieldPat, usize), AllocError>
    requires { CanRun (lexemes source) (λ k. rule.Qlid ∷ rule.Take t.Equal ∷ rule.Pat ∷ k) i }
    ensures { IfOk result (λ r. IsReadFormField (lexemes source.entry) i (form_part_of r.0) r.1) }
{
    let (name, j) = lower_name(alloc, source, i)?;
    let (value, end) = pattern(alloc, source, j + 1)?;
    Ok((FieldPat { name, value }, end))
}

/// Patterns side by side.
#[cycle(pattern_descent)]
fn pattern_parts(alloc: Global, source: Source, i: usize) -> Result<(Seq<Pat>, usize), AllocError>
    requires { CanRead (lexemes source) rule.Patoms i }
    ensures { IfOk result (λ r. IsRead (lexemes source.entry) rule.Patoms i (patterns r.0) r.1) }
{
    let mut parts: Vec<Pat> = Vec::new(alloc);
    let mut j = i;
    'parts: while at_pattern(source, j) {
        let (next, end) = pattern_atom(alloc, source, j)?;
        parts.push(next)?;
        j = end;
    }
    Ok((Seq::from_vec(parts), j))
}

/// Patterns in parentheses after the first one.
#[cycle(pattern_descent)]
fn pattern_list(alloc: Global, source: Source, i: usize) -> Result<(Seq<Pat>, usize), AllocError>
    requires { CanRead (lexemes source) rule.Ptuple i }
    ensures { IfOk result (λ r. IsRead (lexemes source.entry) rule.Ptuple i (patterns r.0) r.1) }
{
    let mut parts: Vec<Pat> = Vec::new(alloc);
    let is_empty = is_at(source, i, Terminal::RParen);
    if is_empty {
        return Ok((Seq::from_vec(parts), i + 1));
    }
    let (first, mut j) = pattern(alloc, source, i)?;
    parts.push(first)?;
    'more: while is_at(source, j, Terminal::Comma) {
        let (next, end) = pattern(alloc, source, j + 1)?;
        parts.push(next)?;
        j = end;
    }
    Ok((Seq::from_vec(parts), j + 1))
}
