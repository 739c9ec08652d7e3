// The answer to a theory: what its last declaration becomes, what its matches leave, or the first fault.
ghost use Rattle.std.specs.Prelude.{length, All, OnOk};
ghost use Rattle.tasks.specs.Meaning.{DeclHeld};
ghost use Rattle.elab_groups.specs.parts.Entries.{IsSignature, AreScopes};

use crate::made::put_made;
use crate::sides::{put_covers, put_sides};
use elab_declarations::{ElabFault, Elaborated, begin, elaborate, is_logical, no_names};
use elab_groups::parts::Scope;
use parser::std_theories::{drop_file, parse};
use row_texts::{put_entries, put_numbered};
use std::alloc::{AllocError, Global};
use surface::{DeclNode, DeclTree, File, lex};
use tasks::{Signature, Store};

// A fault by its name, its declaration and its token or equation.
fn put_fault(
    alloc: Global,
    text: &mut String,
    name: &str,
    decl: usize,
    place: usize,
) -> Result<(), AllocError> {
    put_numbered(alloc, text, name, decl)?;
    put_numbered(alloc, text, " ", place)
}

fn put_refusal(alloc: Global, text: &mut String, fault: ElabFault) -> Result<(), AllocError> {
    match fault {
        ElabFault::Memory => text.push_str("Memory"),
        ElabFault::Unknown { decl, token } => put_fault(alloc, text, "Unknown ", decl, token),
        ElabFault::Duplicate { decl, token } => put_fault(alloc, text, "Duplicate ", decl, token),
        ElabFault::WrongKind { decl, token } => put_fault(alloc, text, "WrongKind ", decl, token),
        ElabFault::Arity { decl, token } => put_fault(alloc, text, "Arity ", decl, token),
        ElabFault::Clash { decl, k } => put_fault(alloc, text, "Clash ", decl, k),
        ElabFault::Undetermined { decl, token } => put_fault(
            alloc,
            text,
            "Undetermined ",
            decl,
            token,
        ),
    }
}

// What is asked of a theory's last declaration: what it becomes, which shapes its matches leave, which of them leave one, or the
// first fault of its side conditions.
#[derive(Clone, Copy)]
enum Asked {
    Made,
    Covers,
    Open,
    Sides,
}

// What is asked of the last declaration, whose entries stand from a number on; of an earlier one nothing is said.
#[tactic(auto, using(crate::proofs::Held::symbols_held))]
fn put_last(
    alloc: Global,
    text: &mut String,
    store: &Store,
    sig: &Signature,
    from: usize,
    made: &Elaborated,
    asked: Asked,
) -> Result<(), AllocError>
    requires signature { IsSignature store.now sig.now.symbols }
    requires decls { All (DeclHeld store.now) made.now.decls }
{
    match asked {
        Asked::Covers => put_covers(alloc, text, store, sig, made.matches.as_slice(), true),
        Asked::Open => put_covers(alloc, text, store, sig, made.matches.as_slice(), false),
        Asked::Sides => put_sides(alloc, text, store, sig, made),
        Asked::Made => {
            put_numbered(alloc, text, "Made ", sig.symbols.len())?;
            put_entries(alloc, text, store, &[], sig.symbols.as_slice(), from)?;
            put_made(alloc, text, store, made)
        }
    }
}

// Elaborates the declarations of a scope `S`, which is open, all under one number, as far as they are no `use`, `clone` or `scope`.
fn elaborate_inside(
    alloc: Global,
    store: &mut Store,
    sig: &mut Signature,
    scope: &mut Scope,
    decls: &[DeclTree],
    at: usize,
) -> Result<(), ElabFault>
    requires signature { IsSignature store.old sig.old.symbols }
    requires scopes { AreScopes store.old (length sig.old.symbols) scope.old }
    ensures signature { OnOk result (IsSignature store.new sig.new.symbols) }
    ensures scopes { OnOk result (AreScopes store.new (length sig.new.symbols) scope.new) }
{
    let Some((first, rest)) = decls.split_first() else {
        return Ok(());
    };
    if !is_logical(first) {
        return Ok(());
    }
    elaborate(alloc, store, sig, scope, b"T", b"S.", first, at)?;
    elaborate_inside(alloc, store, sig, scope, rest, at)
}

// The declarations of a scope that is named `S`.
#[tactic(auto, using(crate::proofs::Held::opened_scopes))]
fn elaborate_scope(
    alloc: Global,
    store: &mut Store,
    sig: &mut Signature,
    scope: &mut Scope,
    decls: &[DeclTree],
    at: usize,
) -> Result<(), ElabFault>
    requires signature { IsSignature store.old sig.old.symbols }
    requires scopes { AreScopes store.old (length sig.old.symbols) scope.old }
    ensures signature { OnOk result (IsSignature store.new sig.new.symbols) }
    ensures scopes { OnOk result (AreScopes store.new (length sig.new.symbols) scope.new) }
{
    if scope.open("S").is_err() {
        return Err(ElabFault::Memory);
    }
    elaborate_inside(alloc, store, sig, scope, decls, at)?;
    if scope.is_nested() {
        let _ = scope.close();
    }
    Ok(())
}

// Declarations, the first of which has the number `at`.
#[derive(Clone, Copy)]
struct CountedDecls<'a> {
    decls: &'a [DeclTree],
    at: usize,
}

// What is asked of the last of these declarations.
fn put_answer(
    alloc: Global,
    text: &mut String,
    store: &mut Store,
    sig: &mut Signature,
    scope: &mut Scope,
    counted: CountedDecls<'_>,
    asked: Asked,
) -> Result<(), AllocError>
    requires signature { IsSignature store.old sig.old.symbols }
    requires scopes { AreScopes store.old (length sig.old.symbols) scope.old }
{
    let Some((first, others)) = counted.decls.split_first() else {
        return Ok(());
    };
    let at = counted.at;
    let rest = CountedDecls {
        decls: others,
        at: at.saturating_add(1),
    };
    if let DeclNode::ScopeDecl(_, inner) = &first.node {
        return match elaborate_scope(alloc, store, sig, scope, inner.as_slice(), at) {
            Ok(()) => put_answer(alloc, text, store, sig, scope, rest, asked),
            Err(fault) => put_refusal(alloc, text, fault),
        };
    }
    if !is_logical(first) {
        return text.push_str("no declaration");
    }
    let from = sig.symbols.len();
    match elaborate(alloc, store, sig, scope, b"T", b"", first, at) {
        Ok(made) => {
            if others.is_empty() {
                put_last(alloc, text, store, sig, from, &made, asked)
            } else {
                put_answer(alloc, text, store, sig, scope, rest, asked)
            }
        }
        Err(fault) => put_refusal(alloc, text, fault),
    }
}

// What is asked of a theory's declarations, which are counted from 1.
fn describe_all(
    alloc: Global,
    text: &mut String,
    decls: &[DeclTree],
    asked: Asked,
) -> Result<(), AllocError> {
    let mut store = Store::new(alloc)?;
    let mut sig = begin(alloc)?;
    let Ok(mut scope) = Scope::new(alloc) else {
        return Err(AllocError);
    };
    no_names(&scope);
    let counted = CountedDecls { decls, at: 1 };
    put_answer(
        alloc, text, &mut store, &mut sig, &mut scope, counted, asked,
    )
}

// What is asked of the first theory of a file.
fn put_first(
    alloc: Global,
    text: &mut String,
    file: &File,
    asked: Asked,
) -> Result<(), AllocError> {
    match file.theories.as_slice().first() {
        Some(theory) => describe_all(alloc, text, theory.decls.as_slice(), asked),
        None => text.push_str("no theory"),
    }
}

// What is asked of the first theory of a source.
fn put_source(
    alloc: Global,
    text: &mut String,
    source: &str,
    asked: Asked,
) -> Result<(), AllocError> {
    let bytes = source.as_bytes();
    let Ok(tokens) = lex(alloc, bytes) else {
        return text.push_str("no tokens");
    };
    match parse(alloc, &tokens, bytes) {
        Ok(file) => {
            let put = put_first(alloc, text, &file, asked);
            drop_file(file);
            put
        }
        Err(_) => text.push_str("no source"),
    }
}

// What is asked of a source, and the source.
fn split_asked(line: &str) -> (Asked, &str) {
    if let Some(source) = line.strip_prefix("covers ") {
        return (Asked::Covers, source);
    }
    if let Some(source) = line.strip_prefix("open ") {
        return (Asked::Open, source);
    }
    match line.strip_prefix("sides ") {
        Some(source) => (Asked::Sides, source),
        None => (Asked::Made, line),
    }
}

/// The answer to a line: a source, before which one of the words `covers`, `open` and `sides` may be there.
pub(crate) fn describe(alloc: Global, line: &str) -> Result<String, AllocError> {
    let mut text = String::new(alloc);
    let (asked, source) = split_asked(line);
    put_source(alloc, &mut text, source, asked)?;
    Ok(text)
}
