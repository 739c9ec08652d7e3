// Types, where they are known to be there: each call reads one, and says where it ends.
ghost use Rattle.std.specs.Prelude.{◌<◌, IfOk};
ghost use Rattle.parser.specs.parse_terms.Common.{Atype, Targs, Ttuple, TypeOf, form_of, types};
ghost use Rattle.parser.specs.parse_terms.Reading.{CanRead, IsRead};
ghost use Rattle.parser.specs.parse_terms.Sources.{lexemes};

use crate::parse_terms::names::lower_name;
use crate::parse_terms::source::Source;
use crate::parse_terms::tokens::{at_type, is_at, place, text};
use outside::Seq;
use std::alloc::{AllocError, Global};
use surface::{TypeNode, TypeTree};
use tokens_why::Terminal;

/// A type, and the token after it. Only want of memory refuses.
#[cycle(type_descent)]
pub fn type_tree(alloc: Global, source: Source, i: usize) -> Result<(TypeTree, usize), AllocError>
    requires { CanRead (lexemes source) TypeOf i }
    ensures { IfOk result (λ r. IsRead (lexemes source.entry) TypeOf i (form_of r.0) r.1) }
{
    let here = place(i);
    let is_variable = is_at(source, i, Terminal::TyVar);
    if is_variable {
        let word = text(alloc, source, i)?;
        return Ok((TypeTree::new(here, TypeNode::Var(word)), i + 1));
    }
    let is_group = is_at(source, i, Terminal::LParen);
    if is_group {
        let (parts, end) = type_list(alloc, source, i + 1)?;
        return Ok((TypeTree::new(here, TypeNode::Group(parts)), end));
    }
    let (name, j) = lower_name(alloc, source, i)?;
    let (arguments, end) = type_arguments(alloc, source, j)?;
    Ok((TypeTree::new(here, TypeNode::Named(name, arguments)), end))
}

/// A type that stands as an argument, and the token after it. Only want of memory refuses.
#[cycle(type_descent)]
pub fn argument(alloc: Global, source: Source, i: usize) -> Result<(TypeTree, usize), AllocError>
    requires { CanRead (lexemes source) Atype i }
    ensures { IfOk result (λ r. IsRead (lexemes source.entry) Atype i (form_of r.0) r.1) }
{
    let here = place(i);
    let is_variable = is_at(source, i, Terminal::TyVar);
    if is_variable {
        let word = text(alloc, source, i)?;
        return Ok((TypeTree::new(here, TypeNode::Var(word)), i + 1));
    }
    let is_group = is_at(source, i, Terminal::LParen);
    if is_group {
        let (parts, end) = type_list(alloc, source, i + 1)?;
        return Ok((TypeTree::new(here, TypeNode::Group(parts)), end));
    }
    let (name, end) = lower_name(alloc, source, i)?;
    Ok((
        TypeTree::new(here, TypeNode::Named(name, Seq::new(alloc))),
        end,
    ))
}

/// Types side by side, and the token after them. Only want of memory refuses.
#[cycle(type_descent)]
pub fn type_arguments(
    alloc: Global,
    source: Source,
    i: usize,
) -> Result<(Seq<TypeTree>, usize), AllocError>
    requires { CanRead (lexemes source) Targs i }
    ensures { IfOk result (λ r. IsRead (lexemes source.entry) Targs i (types r.0) r.1) }
{
    let mut arguments: Vec<TypeTree> = Vec::new(alloc);
    let mut j = i;
    'arguments: while at_type(source, j) {
        let (next, end) = argument(alloc, source, j)?;
        arguments.push(next)?;
        j = end;
    }
    Ok((Seq::from_vec(arguments), j))
}

/// Types in parentheses after the first one, and the token after them. Only want of memory refuses.
#[cycle(type_descent)]
pub fn type_list(
    alloc: Global,
    source: Source,
    i: usize,
) -> Result<(Seq<TypeTree>, usize), AllocError>
    requires { CanRead (lexemes source) Ttuple i }
    ensures { IfOk result (λ r. IsRead (lexemes source.entry) Ttuple i (types r.0) r.1) }
{
    let mut parts: Vec<TypeTree> = Vec::new(alloc);
    let is_empty = is_at(source, i, Terminal::RParen);
    if is_empty {
        return Ok((Seq::from_vec(parts), i + 1));
    }
    let (first, mut j) = type_tree(alloc, source, i)?;
    parts.push(first)?;
    'more: while is_at(source, j, Terminal::Comma) {
        let (next, end) = type_tree(alloc, source, j + 1)?;
        parts.push(next)?;
        j = end;
    }
    Ok((Seq::from_vec(parts), j + 1))
}
