// Declarations of functions, predicates, constants, inductive predicates and propositions.
ghost use Rattle.std.specs.Prelude.{true, ◌≡◌, ◌+◌, IfOk};
ghost use Rattle.parser.specs.parse_decls.Common.{same, prop_word, decl_of, CanRead, terminal_at, lexemes};
ghost use Rattle.grammar.specs.declared.symbols.Symbol.TheVariants as rule;
ghost use Rattle.tokens_why.specs.declared.terminal.Terminal.TheVariants as t;
ghost use Rattle.parser.specs.parse_decls.Bodies.{IsDecl};

use crate::parse_decls::bodies::{body, value};
use crate::parse_decls::clauses::inductive_predicate;
use crate::parse_decls::declared::{declared_name, prop_name};
use crate::parse_decls::parameters::params;
use crate::parse_terms::{Source, expression, is_at, place, type_tree};
use outside::Seq;
use std::alloc::{AllocError, Global};
use surface::{DeclNode, DeclTree, IndTree, PropKind};
use tokens_why::Terminal;

/// A constant, and the token after it. Only want of memory refuses.
pub fn constant_declaration(
    alloc: Global,
    source: Source,
    i: usize,
) -> Result<(DeclTree, usize), AllocError>
    requires can { CanRead (lexemes source) rule.Decls i }
    requires word { same t.ConstantWord (terminal_at (lexemes source) i) ≡ true }
    ensures { IfOk result (λ r. IsDecl (lexemes source.entry) i (decl_of r.0) r.1) }
{
    let (name, colon) = declared_name(alloc, source, i + 1)?;
    let (ty, j) = type_tree(alloc, source, colon + 1)?;
    let (given, end) = value(alloc, source, j)?;
    let here = place(i);
    let tree = DeclTree::new(here, DeclNode::Constant(name, ty, given));
    Ok((tree, end))
}

/// A function with its members, and the token after it. Only want of memory refuses.
pub fn function_declaration(
    alloc: Global,
    source: Source,
    i: usize,
) -> Result<(DeclTree, usize), AllocError>
    requires can { CanRead (lexemes source) rule.Decls i }
    requires word { same t.FunctionWord (terminal_at (lexemes source) i) ≡ true }
    ensures { IfOk result (λ r. IsDecl (lexemes source.entry) i (decl_of r.0) r.1) }
{
    let (name, j) = declared_name(alloc, source, i + 1)?;
    let (bound, colon) = params(alloc, source, j)?;
    let (ty, n) = type_tree(alloc, source, colon + 1)?;
    let read = body(alloc, source, n)?;
    let here = place(i);
    let tree = DeclTree::new(
        here,
        DeclNode::Function(name, bound, ty, read.definition, read.members),
    );
    Ok((tree, read.end))
}

/// A predicate with its members, and the token after it. Only want of memory refuses.
pub fn predicate_declaration(
    alloc: Global,
    source: Source,
    i: usize,
) -> Result<(DeclTree, usize), AllocError>
    requires can { CanRead (lexemes source) rule.Decls i }
    requires word { same t.PredicateWord (terminal_at (lexemes source) i) ≡ true }
    ensures { IfOk result (λ r. IsDecl (lexemes source.entry) i (decl_of r.0) r.1) }
{
    let (name, j) = declared_name(alloc, source, i + 1)?;
    let (bound, n) = params(alloc, source, j)?;
    let read = body(alloc, source, n)?;
    let here = place(i);
    let tree = DeclTree::new(
        here,
        DeclNode::Predicate(name, bound, read.definition, read.members),
    );
    Ok((tree, read.end))
}

/// Inductive predicates, and the token after them. Only want of memory refuses.
pub fn inductive_declaration(
    alloc: Global,
    source: Source,
    i: usize,
) -> Result<(DeclTree, usize), AllocError>
    requires can { CanRead (lexemes source) rule.Decls i }
    requires word { same t.InductiveWord (terminal_at (lexemes source) i) ≡ true }
    ensures { IfOk result (λ r. IsDecl (lexemes source.entry) i (decl_of r.0) r.1) }
{
    let mut of: Vec<IndTree> = Vec::new(alloc);
    let (first, mut j) = inductive_predicate(alloc, source, i + 1)?;
    of.push(first)?;
    'more: while is_at(source, j, Terminal::WithWord) {
        let (next, end) = inductive_predicate(alloc, source, j + 1)?;
        of.push(next)?;
        j = end;
    }
    let here = place(i);
    let tree = DeclTree::new(here, DeclNode::Inductive(Seq::from_vec(of)));
    Ok((tree, j))
}

/// An axiom, a lemma or a goal, and the token after it. Only want of memory refuses.
pub fn prop_declaration(
    alloc: Global,
    source: Source,
    kind: PropKind,
    i: usize,
) -> Result<(DeclTree, usize), AllocError>
    requires can { CanRead (lexemes source) rule.Decls i }
    requires word { same (prop_word kind) (terminal_at (lexemes source) i) ≡ true }
    ensures { IfOk result (λ r. IsDecl (lexemes source.entry) i (decl_of r.0) r.1) }
{
    let name = prop_name(alloc, source, i + 1)?;
    let prop = expression(alloc, source, 0, i + 1 + 1 + 1)?;
    let here = place(i);
    let tree = DeclTree::new(here, DeclNode::Prop(kind, name, prop.tree));
    Ok((tree, prop.end))
}
