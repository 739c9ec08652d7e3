// Definitions of what is declared, with the members after `with`.
ghost use Rattle.std.specs.Prelude.{◌+◌, ◌∷◌, IfOk, map, option_map};
ghost use Rattle.parser.specs.parse_decls.Common.{member_of, CanRead, CanRun, IsRead, lexemes};
ghost use Rattle.grammar.specs.declared.symbols.Symbol.TheVariants as rule;
ghost use Rattle.surface.specs.Surface.{form_of, tree_of};
ghost use Rattle.parser.specs.parse_decls.Bodies.{IsReadMember, IsResult, IsReadValue, body_part};

use crate::parse_decls::declared::declared_name;
use crate::parse_decls::parameters::params;
use crate::parse_terms::{Source, expression, is_at, type_tree};
use outside::{Boxed, Seq};
use std::alloc::{AllocError, Global};
use surface::{Expr, MemberTree, TypeTree};
use tokens_why::Terminal;

/// The value of a constant, if it has one, and the token after it. Only want of memory refuses.
pub fn value(alloc: Global, source: Source, i: usize) -> Result<(Option<Expr>, usize), AllocError>
    requires { CanRun (lexemes source) (λ k. rule.Value ∷ rule.Decls ∷ k) i }
    ensures { IfOk result
        (λ r. IsReadValue (lexemes source.entry) i (option_map tree_of r.0) r.1) }
{
    let is_given = is_at(source, i, Terminal::Equal);
    if is_given {
        let read = expression(alloc, source, 0, i + 1)?;
        return Ok((Some(read.tree), read.end));
    }
    Ok((None, i))
}

/// The result type of a member, if it has one, and where the equality sign stands.
fn member_result(
    alloc: Global,
    source: Source,
    i: usize,
) -> Result<(Option<TypeTree>, usize), AllocError>
    requires { CanRead (lexemes source) rule.Member i }
    ensures { IfOk result
        (λ r. IsResult (lexemes source.entry) i (option_map form_of r.0) r.1) }
{
    let is_typed = is_at(source, i, Terminal::Colon);
    if is_typed {
        let (ty, end) = type_tree(alloc, source, i + 1)?;
        return Ok((Some(ty), end));
    }
    Ok((None, i))
}

/// A member after `with`, and the token after it.
fn member(alloc: Global, source: Source, i: usize) -> Result<(MemberTree, usize), AllocError>
    requires { CanRun (lexemes source) (λ k. rule.Op ∷ rule.Params ∷ rule.Member ∷ k) i }
    ensures { IfOk result (λ r. IsReadMember (lexemes source.entry) i (member_of r.0) r.1) }
{
    let (name, j) = declared_name(alloc, source, i)?;
    let (params, n) = params(alloc, source, j)?;
    let (result, equal) = member_result(alloc, source, n)?;
    let body = expression(alloc, source, 0, equal + 1)?;
    let member = MemberTree {
        name,
        params,
        result,
        body: body.tree,
    };
    Ok((member, body.end))
}

/// The members, each after `with`, and the token after them.
fn members(alloc: Global, source: Source, i: usize) -> Result<(Seq<MemberTree>, usize), AllocError>
    requires { CanRead (lexemes source) rule.Members i }
    ensures { IfOk result
        (λ r. IsRead (lexemes source.entry) rule.Members i (map member_of r.0) r.1) }
{
    let mut members: Vec<MemberTree> = Vec::new(alloc);
    let mut j = i;
    'members: while is_at(source, j, Terminal::WithWord) {
        let (next, end) = member(alloc, source, j + 1)?;
        members.push(next)?;
        j = end;
    }
    Ok((Seq::from_vec(members), j))
}

/// A definition and its other members.
#[derive(Drop)]
pub struct Definition {
    pub definition: Option<Expr>,
    pub members: Seq<MemberTree>,
    pub end: usize,
}

/// A definition, if there is one, and its other members. Only want of memory refuses.
pub fn body(alloc: Global, source: Source, i: usize) -> Result<Definition, AllocError>
    requires { CanRead (lexemes source) rule.Body i }
    ensures { IfOk result (λ r. IsRead (lexemes source.entry) rule.Body i
        (body_part (option_map tree_of r.definition) (map member_of r.members)) r.end) }
{
    let is_given = is_at(source, i, Terminal::Equal);
    if is_given {
        let read = expression(alloc, source, 0, i + 1)?;
        // A box is dropped by one call where the members find no memory, and the tree form by form.
        let held = Boxed::new(alloc, read.tree)?;
        let (others, end) = members(alloc, source, read.end)?;
        return Ok(Definition {
            definition: Some(held.into_inner()),
            members: others,
            end,
        });
    }
    Ok(Definition {
        definition: None,
        members: Seq::new(alloc),
        end: i,
    })
}
