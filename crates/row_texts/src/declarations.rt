// Entries of a signature, and declarations with their bodies.
use crate::printing::{put_name, put_numbered, put_symbol, put_tree, put_trees};
use std::alloc::{AllocError, Global};
use tasks::{Alg, Body, Con, Decl, SymbolInfo, SymbolKind};
use trees::store::Store;

fn kind_word(kind: SymbolKind) -> &'static str {
    match kind {
        SymbolKind::Kind => " type ",
        SymbolKind::Function => " function ",
        SymbolKind::Predicate => " predicate ",
        SymbolKind::Constructor => " constructor ",
        SymbolKind::Projection => " projection ",
    }
}

// A letter with a symbol.
fn put_marked(
    alloc: Global,
    text: &mut String,
    names: &[SymbolInfo],
    letter: &str,
    symbol: usize,
) -> Result<(), AllocError> {
    text.push_str(letter)?;
    put_symbol(alloc, text, names, symbol)
}

// An entry: its theory, its name, what it is, and its types.
fn put_entry(
    alloc: Global,
    text: &mut String,
    store: &Store,
    names: &[SymbolInfo],
    info: &SymbolInfo,
) -> Result<(), AllocError> {
    text.push_str("|")?;
    put_name(text, info.theory.as_slice())?;
    text.push_str(" ")?;
    put_name(text, info.name.as_slice())?;
    put_numbered(alloc, text, kind_word(info.kind), info.vars)?;
    put_trees(alloc, text, store, names, info.args.as_slice())?;
    match info.result {
        Some(ty) => put_tree(alloc, text, store, names, ty),
        None => Ok(()),
    }
}

/// The entries of a signature from a number on.
pub fn put_entries(
    alloc: Global,
    text: &mut String,
    store: &Store,
    names: &[SymbolInfo],
    symbols: &[SymbolInfo],
    from: usize,
) -> Result<(), AllocError> {
    for (number, info) in symbols.iter().enumerate() {
        if number >= from {
            put_entry(alloc, text, store, names, info)?;
        }
    }
    Ok(())
}

fn put_constructor(
    alloc: Global,
    text: &mut String,
    store: &Store,
    names: &[SymbolInfo],
    con: &Con,
) -> Result<(), AllocError> {
    put_marked(alloc, text, names, "c", con.symbol)?;
    put_trees(alloc, text, store, names, con.fields.as_slice())?;
    for projection in con.projections.as_slice() {
        put_marked(alloc, text, names, "^", *projection)?;
    }
    Ok(())
}

fn put_algebraic(
    alloc: Global,
    text: &mut String,
    store: &Store,
    names: &[SymbolInfo],
    alg: &Alg,
) -> Result<(), AllocError> {
    put_marked(alloc, text, names, "@", alg.symbol)?;
    for con in alg.cons.as_slice() {
        put_constructor(alloc, text, store, names, con)?;
    }
    Ok(())
}

fn put_body(
    alloc: Global,
    text: &mut String,
    store: &Store,
    names: &[SymbolInfo],
    body: &Body,
) -> Result<(), AllocError> {
    match body {
        Body::TypeSymbol(symbol) => put_marked(alloc, text, names, "t", *symbol),
        Body::Symbol(symbol) => put_marked(alloc, text, names, "s", *symbol),
        Body::Defs(defs) => {
            for def in defs.as_slice() {
                put_marked(alloc, text, names, "d", def.symbol)?;
                put_tree(alloc, text, store, names, def.equation)?;
            }
            Ok(())
        }
        Body::Inductives(inductives) => {
            for ind in inductives.as_slice() {
                put_marked(alloc, text, names, "i", ind.symbol)?;
                put_trees(alloc, text, store, names, ind.clauses.as_slice())?;
            }
            Ok(())
        }
        Body::Algebraics(types) => {
            for alg in types.as_slice() {
                put_algebraic(alloc, text, store, names, alg)?;
            }
            Ok(())
        }
        Body::Prop(formula) => put_tree(alloc, text, store, names, *formula),
    }
}

/// A declaration: its theory, its name, how many type variables it has, and its body.
pub fn put_declaration(
    alloc: Global,
    text: &mut String,
    store: &Store,
    names: &[SymbolInfo],
    decl: &Decl,
) -> Result<(), AllocError> {
    put_name(text, decl.theory.as_slice())?;
    text.push_str(" ")?;
    put_name(text, decl.name.as_slice())?;
    put_numbered(alloc, text, " ", decl.vars)?;
    text.push_str(" ")?;
    put_body(alloc, text, store, names, &decl.body)
}
