// Declarations, theories and files, where they are known to be there: each call reads one, and says where it ends.
ghost use Rattle.std.specs.Prelude.{false, true, not, ◌≡◌, ◌+◌, ◌∷◌, [], IfOk, Some, map};
ghost use Rattle.parser.specs.parse_decls.Common.{same, read, decl_of, file_of, theory_of, CanRead, IsRead, terminal_at, lexemes};
ghost use Rattle.grammar.specs.declared.symbols.Symbol.TheVariants as rule;
ghost use Rattle.tokens_why.specs.declared.terminal.Terminal.TheVariants as t;
ghost use Rattle.surface.specs.SurfaceDeclarations.{decls as decls_of};
ghost use Rattle.parser.specs.parse_decls.Bodies.{IsDecl};
ghost use Rattle.parser.specs.parse_decls.Files.{IsReadFile, IsTheory, begins_theory};

use crate::parse_decls::clones::{clone_declaration, prop_kind, use_declaration};
use crate::parse_decls::declaring::{
    constant_declaration, function_declaration, inductive_declaration, predicate_declaration,
    prop_declaration,
};
use crate::parse_decls::types::type_declaration;
use crate::parse_terms::{Source, is_at, name_at, place, terminal};
use outside::Seq;
use std::alloc::{AllocError, Global};
use surface::{DeclNode, DeclTree, File, TheoryTree};
use tokens_why::Terminal;

/// A declaration with parameters, a definition, clauses or a proposition.
fn symbol_declaration(
    alloc: Global,
    source: Source,
    i: usize,
) -> Result<(DeclTree, usize), AllocError>
    requires can { CanRead (lexemes source) rule.Decls i }
    requires no_end { same t.EndWord (terminal_at (lexemes source) i) ≡ false }
    requires no_scope { same t.ScopeWord (terminal_at (lexemes source) i) ≡ false }
    requires no_type { same t.TypeWord (terminal_at (lexemes source) i) ≡ false }
    requires no_use { same t.UseWord (terminal_at (lexemes source) i) ≡ false }
    requires no_clone { same t.CloneWord (terminal_at (lexemes source) i) ≡ false }
    ensures { IfOk result (λ r. IsDecl (lexemes source.entry) i (decl_of r.0) r.1) }
{
    let is_function = is_at(source, i, Terminal::FunctionWord);
    if is_function {
        let (function, n) = function_declaration(alloc, source, i)?;
        return Ok((function, n));
    }
    let is_predicate = is_at(source, i, Terminal::PredicateWord);
    if is_predicate {
        let (predicate, n) = predicate_declaration(alloc, source, i)?;
        return Ok((predicate, n));
    }
    let is_constant = is_at(source, i, Terminal::ConstantWord);
    if is_constant {
        let (constant, n) = constant_declaration(alloc, source, i)?;
        return Ok((constant, n));
    }
    let is_inductive = is_at(source, i, Terminal::InductiveWord);
    if is_inductive {
        let (group, n) = inductive_declaration(alloc, source, i)?;
        return Ok((group, n));
    }
    let kind = prop_kind(terminal(source, i));
    let (prop, end) = prop_declaration(alloc, source, kind, i)?;
    Ok((prop, end))
}

/// A declaration that holds no others.
fn flat_declaration(
    alloc: Global,
    source: Source,
    i: usize,
) -> Result<(DeclTree, usize), AllocError>
    requires can { CanRead (lexemes source) rule.Decls i }
    requires no_end { same t.EndWord (terminal_at (lexemes source) i) ≡ false }
    requires no_scope { same t.ScopeWord (terminal_at (lexemes source) i) ≡ false }
    ensures { IfOk result (λ r. IsDecl (lexemes source.entry) i (decl_of r.0) r.1) }
{
    let is_type = is_at(source, i, Terminal::TypeWord);
    if is_type {
        let (ty, n) = type_declaration(alloc, source, i)?;
        return Ok((ty, n));
    }
    let is_use = is_at(source, i, Terminal::UseWord);
    if is_use {
        let (used, n) = use_declaration(alloc, source, i)?;
        return Ok((used, n));
    }
    let is_clone = is_at(source, i, Terminal::CloneWord);
    if is_clone {
        let (cloned, n) = clone_declaration(alloc, source, i)?;
        return Ok((cloned, n));
    }
    let (symbol, end) = symbol_declaration(alloc, source, i)?;
    Ok((symbol, end))
}

fn goes_on(source: Source, i: usize) -> bool
    ensures { result ≡ not (same t.EndWord (terminal_at (lexemes source.entry) i)) }
{
    !is_at(source, i, Terminal::EndWord)
}

/// A declaration, and the token after it.
#[cycle(declarations)]
fn declaration(alloc: Global, source: Source, i: usize) -> Result<(DeclTree, usize), AllocError>
    requires can { CanRead (lexemes source) rule.Decls i }
    requires word { same t.EndWord (terminal_at (lexemes source) i) ≡ false }
    ensures { IfOk result (λ r. IsDecl (lexemes source.entry) i (decl_of r.0) r.1) }
{
    let is_scope = is_at(source, i, Terminal::ScopeWord);
    if is_scope {
        let (inner, n) = scope(alloc, source, i)?;
        return Ok((inner, n));
    }
    let (flat, end) = flat_declaration(alloc, source, i)?;
    Ok((flat, end))
}

/// A scope with its declarations.
#[cycle(declarations)]
fn scope(alloc: Global, source: Source, i: usize) -> Result<(DeclTree, usize), AllocError>
    requires can { CanRead (lexemes source) rule.Decls i }
    requires word { same t.ScopeWord (terminal_at (lexemes source) i) ≡ true }
    ensures { IfOk result (λ r. IsDecl (lexemes source.entry) i (decl_of r.0) r.1) }
{
    let here = place(i);
    let name = name_at(alloc, source, i + 1)?;
    let (of, end) = declarations(alloc, source, i + 1 + 1)?;
    let tree = DeclTree::new(here, DeclNode::ScopeDecl(name, of));
    Ok((tree, end))
}

/// Declarations up to their `end`, and the token after it. Only want of memory refuses.
#[cycle(declarations)]
pub fn declarations(
    alloc: Global,
    source: Source,
    i: usize,
) -> Result<(Seq<DeclTree>, usize), AllocError>
    requires { CanRead (lexemes source) rule.Decls i }
    ensures { IfOk result
        (λ r. IsRead (lexemes source.entry) rule.Decls i (decls_of (map decl_of r.0)) r.1) }
{
    let mut items: Vec<DeclTree> = Vec::new(alloc);
    let mut j = i;
    'items: while goes_on(source, j) {
        let (next, end) = declaration(alloc, source, j)?;
        items.push(next)?;
        j = end;
    }
    Ok((Seq::from_vec(items), j + 1))
}

fn at_theory(source: Source, i: usize) -> bool
    ensures { result ≡ begins_theory (terminal_at (lexemes source.entry) i) }
{
    is_at(source, i, Terminal::TheoryWord) || is_at(source, i, Terminal::ModuleWord)
}

/// A theory or module, and the token after it.
fn theory(alloc: Global, source: Source, i: usize) -> Result<(TheoryTree, usize), AllocError>
    requires can { CanRead (lexemes source) rule.File i }
    requires word { begins_theory (terminal_at (lexemes source) i) ≡ true }
    ensures { IfOk result (λ r. IsTheory (lexemes source.entry) i (theory_of r.0) r.1) }
{
    let here = place(i);
    let is_module = is_at(source, i, Terminal::ModuleWord);
    let name = name_at(alloc, source, i + 1)?;
    let (decls, end) = declarations(alloc, source, i + 1 + 1)?;
    let tree = TheoryTree {
        at: here,
        module: is_module,
        name,
        decls,
    };
    Ok((tree, end))
}

/// The tree of tokens that are one file. Only want of memory refuses.
///
/// Its places are the numbers of its tokens.
pub fn whole_file(alloc: Global, source: Source) -> Result<File, AllocError>
    requires { IsReadFile (lexemes source) }
    ensures { IfOk result (λ f.
        read (lexemes source.entry) 0 false (rule.File ∷ []) ≡ Some (file_of f, tt)) }
{
    let mut theories: Vec<TheoryTree> = Vec::new(alloc);
    let mut j = 0;
    'more: while at_theory(source, j) {
        let (next, end) = theory(alloc, source, j)?;
        theories.push(next)?;
        j = end;
    }
    let file = File {
        theories: Seq::from_vec(theories),
    };
    Ok(file)
}
