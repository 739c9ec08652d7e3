// Declarations of types, where they are known to be there: each call reads one, and says where it ends.
ghost use Rattle.std.specs.Prelude.{false, true, ◌≡◌, ◌+◌, ◌∷◌, [], IfOk, map};
ghost use Rattle.parser.specs.parse_decls.Common.{same, algebraic_of, constructor_of, decl_of, param_of, CanRead, CanRun, IsRead, terminal_at, lexemes};
ghost use Rattle.grammar.specs.declared.symbols.Symbol.TheVariants as rule;
ghost use Rattle.tokens_why.specs.declared.terminal.Terminal.TheVariants as t;
ghost use Rattle.parser.specs.parse_decls.Bodies.{IsDecl};
ghost use Rattle.parser.specs.parse_decls.Types.{IsReadBody, IsReadAlgebraic, IsCon, IsConstructor, IsConstructors, IsReadNames, IsRecord, begins_algebraic};

use crate::parse_decls::parameters::param;
use crate::parse_terms::{
    Source, at_next_field, at_type, is_at, name_at, past_semicolon, place, type_tree,
};
use outside::Seq;
use std::alloc::{AllocError, Global};
use surface::{AlgTree, ConTree, DeclNode, DeclTree, Name, ParamTree};
use tokens_why::Terminal;

/// The type variables that stand side by side, and the token after them. Only want of memory refuses.
pub fn variables(alloc: Global, source: Source, i: usize) -> Result<(Seq<Name>, usize), AllocError>
    ensures { IfOk result (λ r. IsReadNames (lexemes source.entry) i r.0 r.1) }
{
    let mut names: Vec<Name> = Vec::new(alloc);
    let mut j = i;
    'names: while is_at(source, j, Terminal::TyVar) {
        let next = name_at(alloc, source, j)?;
        names.push(next)?;
        j = j + 1;
    }
    Ok((Seq::from_vec(names), j))
}

/// Whether constructors or the fields of a record begin, and no type.
fn at_algebraic(source: Source, i: usize) -> bool
    ensures { result ≡ begins_algebraic (terminal_at (lexemes source.entry) i)
        (terminal_at (lexemes source.entry) (i + 1)) }
{
    is_at(source, i, Terminal::LBrace)
        || is_at(source, i, Terminal::Bar)
        || (is_at(source, i, Terminal::Uident) && !is_at(source, i + 1, Terminal::Dot))
}

/// A constructor with its fields.
fn constructor(alloc: Global, source: Source, i: usize) -> Result<(ConTree, usize), AllocError>
    requires name { same t.Uident (terminal_at (lexemes source) i) ≡ true }
    requires can { CanRead (lexemes source) rule.Fields (i + 1) }
    ensures { IfOk result
        (λ r. IsConstructor (lexemes source.entry) i (constructor_of r.0) r.1) }
{
    let name = name_at(alloc, source, i)?;
    let mut parts: Vec<ParamTree> = Vec::new(alloc);
    let mut j = i + 1;
    'fields: while at_type(source, j) {
        let (next, end) = param(alloc, source, j)?;
        parts.push(next)?;
        j = end;
    }
    let fields = Seq::from_vec(parts);
    Ok((ConTree { name, fields }, j))
}

/// Constructors with bars between them.
fn constructors(
    alloc: Global,
    source: Source,
    i: usize,
) -> Result<(Seq<ConTree>, usize), AllocError>
    requires name { same t.Uident (terminal_at (lexemes source) i) ≡ true }
    requires can { CanRead (lexemes source) rule.Fields (i + 1) }
    ensures { IfOk result
        (λ r. IsConstructors (lexemes source.entry) i (map constructor_of r.0) r.1) }
{
    let mut cons: Vec<ConTree> = Vec::new(alloc);
    let (first, mut j) = constructor(alloc, source, i)?;
    cons.push(first)?;
    'more: while is_at(source, j, Terminal::Bar) {
        let (next, end) = constructor(alloc, source, j + 1)?;
        cons.push(next)?;
        j = end;
    }
    Ok((Seq::from_vec(cons), j))
}

/// Constructors after an equality sign, whether a bar is before them, and the token after.
fn alternatives(
    alloc: Global,
    source: Source,
    i: usize,
) -> Result<(bool, Seq<ConTree>, usize), AllocError>
    requires can { CanRead (lexemes source) rule.Con i }
    requires none { same t.LBrace (terminal_at (lexemes source) i) ≡ false }
    ensures { IfOk result
        (λ r. IsCon (lexemes source.entry) i r.0 (map constructor_of r.1) [] false r.2) }
{
    let is_barred = is_at(source, i, Terminal::Bar);
    if is_barred {
        let (following, after) = constructors(alloc, source, i + 1)?;
        return Ok((true, following, after));
    }
    let (cons, end) = constructors(alloc, source, i)?;
    Ok((false, cons, end))
}

/// A field of a record with its type.
fn record_field(alloc: Global, source: Source, i: usize) -> Result<(ParamTree, usize), AllocError>
    requires { CanRead (lexemes source) rule.RecordField i }
    ensures { IfOk result
        (λ r. IsRead (lexemes source.entry) rule.RecordField i (param_of r.0) r.1) }
{
    let name = name_at(alloc, source, i)?;
    let (ty, end) = type_tree(alloc, source, i + 1 + 1)?;
    let mut names: Vec<Name> = Vec::new(alloc);
    names.push(name)?;
    let field = ParamTree {
        names: Seq::from_vec(names),
        ty,
    };
    Ok((field, end))
}

/// The fields of a record after its brace, whether a semicolon is after them, and the token after
/// the other brace.
fn record_fields(
    alloc: Global,
    source: Source,
    i: usize,
) -> Result<(Seq<ParamTree>, bool, usize), AllocError>
    requires { CanRun (lexemes source) (λ k. rule.RecordField ∷ rule.RecordRest ∷ k) i }
    ensures { IfOk result (λ r. IsRecord (lexemes source.entry) i (map param_of r.0) r.1 r.2) }
{
    let mut parts: Vec<ParamTree> = Vec::new(alloc);
    let (first, mut j) = record_field(alloc, source, i)?;
    parts.push(first)?;
    'more: while at_next_field(source, j) {
        let (next, end) = record_field(alloc, source, j + 1)?;
        parts.push(next)?;
        j = end;
    }
    let (semi, end) = past_semicolon(source, j);
    Ok((Seq::from_vec(parts), semi, end + 1))
}

/// An algebraic type of which the name and the variables were read, after its equality sign.
fn algebraic(
    alloc: Global,
    source: Source,
    i: usize,
    name: Name,
    vars: Seq<Name>,
) -> Result<(AlgTree, usize), AllocError>
    requires { CanRead (lexemes source) rule.Con i }
    ensures { IfOk result
        (λ r. IsReadBody (lexemes source.entry) i name vars (algebraic_of r.0) r.1) }
{
    let is_record = is_at(source, i, Terminal::LBrace);
    if is_record {
        let (fields, semi, close) = record_fields(alloc, source, i + 1)?;
        let record = AlgTree {
            name,
            vars,
            bar: false,
            cons: Seq::new(alloc),
            fields,
            semi,
        };
        return Ok((record, close));
    }
    let (bar, cons, end) = alternatives(alloc, source, i)?;
    let tree = AlgTree {
        name,
        vars,
        bar,
        cons,
        fields: Seq::new(alloc),
        semi: false,
    };
    Ok((tree, end))
}

/// An algebraic type from its name on.
fn algebraic_type(alloc: Global, source: Source, i: usize) -> Result<(AlgTree, usize), AllocError>
    requires { CanRun (lexemes source) (λ k. rule.Take t.Lident ∷ rule.Algvars ∷ k) i }
    ensures { IfOk result (λ r. IsReadAlgebraic (lexemes source.entry) i (algebraic_of r.0) r.1) }
{
    let name = name_at(alloc, source, i)?;
    let (vars, j) = variables(alloc, source, i + 1)?;
    let (tree, end) = algebraic(alloc, source, j + 1, name, vars)?;
    Ok((tree, end))
}

/// A declaration of a type, or of algebraic types, and the token after it.
/// Only want of memory refuses.
pub fn type_declaration(
    alloc: Global,
    source: Source,
    i: usize,
) -> Result<(DeclTree, usize), AllocError>
    requires can { CanRead (lexemes source) rule.Decls i }
    requires word { same t.TypeWord (terminal_at (lexemes source) i) ≡ true }
    ensures { IfOk result (λ r. IsDecl (lexemes source.entry) i (decl_of r.0) r.1) }
{
    let here = place(i);
    let name = name_at(alloc, source, i + 1)?;
    let (vars, j) = variables(alloc, source, i + 1 + 1)?;
    let is_defined = is_at(source, j, Terminal::Equal);
    if is_defined {
        let following = j + 1;
        let is_algebraic = at_algebraic(source, following);
        if is_algebraic {
            let (first, after) = algebraic(alloc, source, following, name, vars)?;
            let mut types: Vec<AlgTree> = Vec::new(alloc);
            types.push(first)?;
            let mut n = after;
            'others: while is_at(source, n, Terminal::WithWord) {
                let (next, end) = algebraic_type(alloc, source, n + 1)?;
                types.push(next)?;
                n = end;
            }
            let tree = DeclTree::new(here, DeclNode::Algebraic(Seq::from_vec(types)));
            return Ok((tree, n));
        }
        let (ty, last) = type_tree(alloc, source, following)?;
        return Ok((
            DeclTree::new(here, DeclNode::TypeDecl(name, vars, Some(ty))),
            last,
        ));
    }
    Ok((DeclTree::new(here, DeclNode::TypeDecl(name, vars, None)), j))
}
