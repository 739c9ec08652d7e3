// The declarations `use` and `clone`, where they are known to be there: each call reads one, and says where it ends.
ghost use Rattle.std.specs.Prelude.{false, true, ◌≡◌, ◌+◌, IfOk, map};
ghost use Rattle.parser.specs.parse_decls.Common.{same, decl_of, element_of, CanRead, IsRead, terminal_at, lexemes};
ghost use Rattle.grammar.specs.declared.symbols.Symbol.TheVariants as rule;
ghost use Rattle.tokens_why.specs.declared.terminal.Terminal.TheVariants as t;
ghost use Rattle.grammar.specs.reading.Rows.{use_part as used_part};
ghost use Rattle.parser.specs.parse_decls.Bodies.{IsDecl};
ghost use Rattle.parser.specs.parse_decls.Clones.{begins_symbol, prop_kind as prop_kind_of, symbol_word_of as symbol_word_of};

use crate::parse_decls::types::variables;
use crate::parse_terms::{
    Source, head_name, is_at, lower_name, name_at, place, terminal, text, type_tree,
};
use outside::{Seq, Text};
use std::alloc::{AllocError, Global};
use surface::{DeclNode, DeclTree, ElemNode, ElemTree, Link, Name, Path, PropKind, SymbolWord};
use tokens_why::Terminal;

/// The theory that is used or cloned, and the token after it.
#[derive(Drop)]
struct UsedTheory {
    link: Link,
    path: Path,
    name: Option<Name>,
    end: usize,
}

/// The path of a theory.
fn path(alloc: Global, source: Source, i: usize) -> Result<(Path, usize), AllocError>
    requires { CanRead (lexemes source) rule.Path i }
    ensures { IfOk result (λ r. IsRead (lexemes source.entry) rule.Path i r.0 r.1) }
{
    let mut parts: Vec<Text> = Vec::new(alloc);
    let mut j = i;
    'parts: while is_at(source, j, Terminal::Lident) {
        let word = text(alloc, source, j)?;
        parts.push(word)?;
        j = j + 1 + 1;
    }
    let last = text(alloc, source, j)?;
    parts.push(last)?;
    let tree = Path {
        at: i,
        parts: Seq::from_vec(parts),
    };
    Ok((tree, j + 1))
}

/// The name after `as`, if there is one.
fn name_after_as(
    alloc: Global,
    source: Source,
    i: usize,
) -> Result<(Option<Name>, usize), AllocError>
    requires { CanRead (lexemes source) rule.Renamed i }
    ensures { IfOk result (λ r. IsRead (lexemes source.entry) rule.Renamed i r.0 r.1) }
{
    let is_named = is_at(source, i, Terminal::AsWord);
    if is_named {
        let following = i + 1;
        let name = name_at(alloc, source, following)?;
        return Ok((Some(name), following + 1));
    }
    Ok((None, i))
}

/// What comes after `use`, or after `clone` up to its elements.
fn used_theory(alloc: Global, source: Source, i: usize) -> Result<UsedTheory, AllocError>
    requires { CanRead (lexemes source) rule.Used i }
    ensures { IfOk result (λ r. IsRead (lexemes source.entry) rule.Used i
        (used_part r.link r.path r.name) r.end) }
{
    let is_exported = is_at(source, i, Terminal::ExportWord);
    if is_exported {
        let (exported, end) = path(alloc, source, i + 1)?;
        return Ok(UsedTheory {
            link: Link::Export,
            path: exported,
            name: None,
            end,
        });
    }
    let is_imported = is_at(source, i, Terminal::ImportWord);
    if is_imported {
        let (imported, n) = path(alloc, source, i + 1)?;
        let (rename, after) = name_after_as(alloc, source, n)?;
        return Ok(UsedTheory {
            link: Link::Import,
            path: imported,
            name: rename,
            end: after,
        });
    }
    let (bare, j) = path(alloc, source, i)?;
    let (name, last) = name_after_as(alloc, source, j)?;
    Ok(UsedTheory {
        link: Link::Bare,
        path: bare,
        name,
        end: last,
    })
}

/// The kind of a proposition, by its first word.
pub fn prop_kind(word: Terminal) -> PropKind
    ensures { result ≡ prop_kind_of word }
{
    match word {
        Terminal::AxiomWord => PropKind::Axiom,
        Terminal::LemmaWord => PropKind::Lemma,
        _ => PropKind::Goal,
    }
}

fn at_symbol(source: Source, i: usize) -> bool
    ensures { result ≡ begins_symbol (terminal_at (lexemes source.entry) i) }
{
    matches!(
        terminal(source, i),
        Terminal::FunctionWord | Terminal::ConstantWord | Terminal::PredicateWord
    )
}

fn symbol_word(word: Terminal) -> SymbolWord
    ensures { result ≡ symbol_word_of word }
{
    match word {
        Terminal::FunctionWord => SymbolWord::Function,
        Terminal::ConstantWord => SymbolWord::Constant,
        _ => SymbolWord::Predicate,
    }
}

/// A type that a clone replaces.
fn type_element(alloc: Global, source: Source, i: usize) -> Result<(ElemTree, usize), AllocError>
    requires can { CanRead (lexemes source) rule.Elem i }
    requires word { same t.TypeWord (terminal_at (lexemes source) i) ≡ true }
    ensures { IfOk result
        (λ r. IsRead (lexemes source.entry) rule.Elem i (element_of r.0) r.1) }
{
    let (name, j) = lower_name(alloc, source, i + 1)?;
    let (vars, n) = variables(alloc, source, j)?;
    let (ty, end) = type_tree(alloc, source, n + 1)?;
    let tree = ElemTree {
        at: i,
        node: ElemNode::TypeElem(name, vars, ty),
    };
    Ok((tree, end))
}

/// A symbol that a clone replaces.
fn symbol_element(alloc: Global, source: Source, i: usize) -> Result<(ElemTree, usize), AllocError>
    requires can { CanRead (lexemes source) rule.Elem i }
    requires word { begins_symbol (terminal_at (lexemes source) i) ≡ true }
    ensures { IfOk result
        (λ r. IsRead (lexemes source.entry) rule.Elem i (element_of r.0) r.1) }
{
    let word = symbol_word(terminal(source, i));
    let (replaced, j) = head_name(alloc, source, i + 1)?;
    let (by, end) = head_name(alloc, source, j + 1)?;
    let tree = ElemTree {
        at: i,
        node: ElemNode::SymbolElem(word, replaced, by),
    };
    Ok((tree, end))
}

/// A proposition whose kind a clone sets, or all axioms.
fn prop_element(alloc: Global, source: Source, i: usize) -> Result<(ElemTree, usize), AllocError>
    requires can { CanRead (lexemes source) rule.Elem i }
    requires no_type { same t.TypeWord (terminal_at (lexemes source) i) ≡ false }
    requires no_symbol { begins_symbol (terminal_at (lexemes source) i) ≡ false }
    ensures { IfOk result
        (λ r. IsRead (lexemes source.entry) rule.Elem i (element_of r.0) r.1) }
{
    let following = i + 1;
    let is_all = is_at(source, following, Terminal::Dot);
    if is_all {
        let all = ElemTree {
            at: i,
            node: ElemNode::AllAxioms,
        };
        return Ok((all, following + 1));
    }
    let kind = prop_kind(terminal(source, i));
    let (name, end) = head_name(alloc, source, following)?;
    let tree = ElemTree {
        at: i,
        node: ElemNode::PropElem(kind, name),
    };
    Ok((tree, end))
}

/// An element of a clone's substitution.
fn element(alloc: Global, source: Source, i: usize) -> Result<(ElemTree, usize), AllocError>
    requires { CanRead (lexemes source) rule.Elem i }
    ensures { IfOk result
        (λ r. IsRead (lexemes source.entry) rule.Elem i (element_of r.0) r.1) }
{
    let is_type = is_at(source, i, Terminal::TypeWord);
    if is_type {
        let (ty, n) = type_element(alloc, source, i)?;
        return Ok((ty, n));
    }
    let is_symbol = at_symbol(source, i);
    if is_symbol {
        let (symbol, j) = symbol_element(alloc, source, i)?;
        return Ok((symbol, j));
    }
    let (prop, end) = prop_element(alloc, source, i)?;
    Ok((prop, end))
}

/// The elements of a clone after `with`, or none.
fn substitution(
    alloc: Global,
    source: Source,
    i: usize,
) -> Result<(Seq<ElemTree>, usize), AllocError>
    requires { CanRead (lexemes source) rule.Subst i }
    ensures { IfOk result
        (λ r. IsRead (lexemes source.entry) rule.Subst i (map element_of r.0) r.1) }
{
    let mut elements: Vec<ElemTree> = Vec::new(alloc);
    let is_given = is_at(source, i, Terminal::WithWord);
    if is_given {
        let (first, mut j) = element(alloc, source, i + 1)?;
        elements.push(first)?;
        'more: while is_at(source, j, Terminal::Comma) {
            let (next, end) = element(alloc, source, j + 1)?;
            elements.push(next)?;
            j = end;
        }
        return Ok((Seq::from_vec(elements), j));
    }
    Ok((Seq::from_vec(elements), i))
}

/// A `use`, and the token after it. Only want of memory refuses.
pub fn use_declaration(
    alloc: Global,
    source: Source,
    i: usize,
) -> Result<(DeclTree, usize), AllocError>
    requires can { CanRead (lexemes source) rule.Decls i }
    requires word { same t.UseWord (terminal_at (lexemes source) i) ≡ true }
    ensures { IfOk result (λ r. IsDecl (lexemes source.entry) i (decl_of r.0) r.1) }
{
    let here = place(i);
    let theory = used_theory(alloc, source, i + 1)?;
    let tree = DeclTree::new(
        here,
        DeclNode::UseTheory(theory.link, theory.path, theory.name),
    );
    Ok((tree, theory.end))
}

/// A `clone` with its elements, and the token after it. Only want of memory refuses.
pub fn clone_declaration(
    alloc: Global,
    source: Source,
    i: usize,
) -> Result<(DeclTree, usize), AllocError>
    requires can { CanRead (lexemes source) rule.Decls i }
    requires word { same t.CloneWord (terminal_at (lexemes source) i) ≡ true }
    ensures { IfOk result (λ r. IsDecl (lexemes source.entry) i (decl_of r.0) r.1) }
{
    let here = place(i);
    let theory = used_theory(alloc, source, i + 1)?;
    let (elements, end) = substitution(alloc, source, theory.end)?;
    let tree = DeclTree::new(
        here,
        DeclNode::CloneTheory(theory.link, theory.path, theory.name, elements),
    );
    Ok((tree, end))
}
