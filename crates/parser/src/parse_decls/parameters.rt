// Parameters of what is declared: types side by side, some of them with names.
ghost use Rattle.std.specs.Prelude.{true, ◌≡◌, IfOk, map};
ghost use Rattle.parser.specs.parse_decls.Common.{param_of, CanRead, IsRead, lexemes};
ghost use Rattle.grammar.specs.declared.symbols.Symbol.TheVariants as rule;
ghost use Rattle.parser.specs.parse_decls.Params.{IsNamedParam, IsParam, begins_names};

use crate::parse_terms::{Source, argument, at_type, is_at, name_at, place, type_list, type_tree};
use outside::Seq;
use std::alloc::{AllocError, Global};
use surface::{Name, ParamTree, TypeNode, TypeTree};
use tokens_why::Terminal;

/// Whether names, one or more, and a colon stand from a token on.
fn at_names(source: Source, i: usize) -> bool
    ensures { result ≡ begins_names (lexemes source.entry) i }
{
    let is_lower = is_at(source, i, Terminal::Lident);
    if is_lower {
        let mut j = i + 1;
        'names: while is_at(source, j, Terminal::Lident) {
            j = j + 1;
        }
        let is_typed = is_at(source, j, Terminal::Colon);
        return is_typed;
    }
    false
}

/// A parameter with names, after its parenthesis.
fn named_param(alloc: Global, source: Source, i: usize) -> Result<(ParamTree, usize), AllocError>
    requires can { CanRead (lexemes source) rule.Pparen i }
    requires names { begins_names (lexemes source) i ≡ true }
    ensures { IfOk result (λ r. IsNamedParam (lexemes source.entry) i (param_of r.0) r.1) }
{
    let mut names: Vec<Name> = Vec::new(alloc);
    let first = name_at(alloc, source, i)?;
    names.push(first)?;
    let mut j = i + 1;
    'names: while is_at(source, j, Terminal::Lident) {
        let next = name_at(alloc, source, j)?;
        names.push(next)?;
        j = j + 1;
    }
    let (ty, end) = type_tree(alloc, source, j + 1)?;
    let param = ParamTree {
        names: Seq::from_vec(names),
        ty,
    };
    Ok((param, end + 1))
}

/// A parameter, or fields of one type, and the token after it. Only want of memory refuses.
pub fn param(alloc: Global, source: Source, i: usize) -> Result<(ParamTree, usize), AllocError>
    requires { CanRead (lexemes source) rule.Param i }
    ensures { IfOk result (λ r. IsParam (lexemes source.entry) i (param_of r.0) r.1) }
{
    let is_paren = is_at(source, i, Terminal::LParen);
    if is_paren {
        let following = i + 1;
        let is_named = at_names(source, following);
        if is_named {
            let (named, end) = named_param(alloc, source, following)?;
            return Ok((named, end));
        }
        let (parts, close) = type_list(alloc, source, following)?;
        let here = place(i);
        let group = TypeTree::new(here, TypeNode::Group(parts));
        let listed = ParamTree {
            names: Seq::new(alloc),
            ty: group,
        };
        return Ok((listed, close));
    }
    let (one, following) = argument(alloc, source, i)?;
    let single = ParamTree {
        names: Seq::new(alloc),
        ty: one,
    };
    Ok((single, following))
}

/// Parameters side by side, and the token after them. Only want of memory refuses.
pub fn params(
    alloc: Global,
    source: Source,
    i: usize,
) -> Result<(Seq<ParamTree>, usize), AllocError>
    requires { CanRead (lexemes source) rule.Params i }
    ensures { IfOk result
        (λ r. IsRead (lexemes source.entry) rule.Params i (map param_of r.0) r.1) }
{
    let mut params: Vec<ParamTree> = Vec::new(alloc);
    let mut j = i;
    'params: while at_type(source, j) {
        let (next, end) = param(alloc, source, j)?;
        params.push(next)?;
        j = end;
    }
    Ok((Seq::from_vec(params), j))
}
