// Declarations in the place of algebraic types.
// They depend on the laws; the transformation of algebraic types depends on them.
ghost use Rattle.std.specs.Prelude.{◌≡◌, ◌++◌, map, All, IfOk, OnOk};
ghost use Rattle.trees.specs.Node.{trees_at, Holds, Grows};
ghost use Rattle.tasks.specs.Task.{symbol_or, made_by_cons};
ghost use Rattle.tasks.specs.Meaning.{symbols_at, cons_at, algebraics_at, declaration_at, declarations_at, DeclHeld, SymbolHeld};
ghost use Rattle.declarations.specs.Stored.{IsValidIn};
ghost use Rattle.declarations.specs.spelled_groups.Spelled.{as_symbol};
ghost use Rattle.declarations.specs.spelled_groups.Stored.{IsDeclaredAs};
ghost use Rattle.tr_algebraic.specs.algebraic_forms.Groups.{as_formula, as_law, group_laws, group_symbols, algebraic_rule};
ghost use Rattle.tr_algebraic.specs.algebraic_forms.Making.{AlgIsFit};

use crate::algebraic_forms::laws::type_laws;
use std::alloc::{AllocError, Global};
use tasks::{Alg, Body, Con, Decl, Signature};
use trees::TermId;
use trees::store::Store;

// The number of a symbol's type variables.
fn vars_of(store: &Store, sig: &Signature, symbol: usize) -> usize
    ensures { result ≡ (symbol_or (symbols_at store.now sig.now.symbols) symbol).vars }
{
    let _ = store;
    match sig.symbols.get(symbol) {
        Some(info) => info.vars,
        None => 0,
    }
}

// A declaration of the theory and name of another.
fn declared_as(decl: &Decl, vars: usize, body: Body) -> Result<Decl, AllocError>
    ensures { IfOk result (IsDeclaredAs decl.now vars body) }
{
    Ok(Decl {
        theory: decl.theory.clone()?,
        name: decl.name.clone()?,
        vars,
        body,
    })
}

// Symbols of a group, after other declarations.
fn push_symbols(
    store: &Store,
    sig: &Signature,
    decl: &Decl,
    symbols: &[usize],
    decls: &mut Vec<Decl>,
) -> Result<(), AllocError>
    requires held { All (DeclHeld store.now) decls.old.items }
    ensures decls { OnOk result (declarations_at store.now decls.new.items
        ≡ declarations_at store.now decls.old.items
        ++ map (as_symbol (symbols_at store.now sig.now.symbols)
        (declaration_at store.now decl.now)) symbols.now) }
    ensures held { OnOk result (All (DeclHeld store.now) decls.new.items) }
{
    match symbols.split_first() {
        Some((first, rest)) => {
            let vars = vars_of(store, sig, *first);
            decls.push(declared_as(decl, vars, Body::Symbol(*first))?)?;
            push_symbols(store, sig, decl, rest, decls)
        }
        None => Ok(()),
    }
}

// Constructors, each before its projections, after other declarations.
fn push_constructors(
    store: &Store,
    sig: &Signature,
    decl: &Decl,
    cons: &[Con],
    decls: &mut Vec<Decl>,
) -> Result<(), AllocError>
    requires held { All (DeclHeld store.now) decls.old.items }
    ensures decls { OnOk result (declarations_at store.now decls.new.items
        ≡ declarations_at store.now decls.old.items
        ++ map (as_symbol (symbols_at store.now sig.now.symbols)
        (declaration_at store.now decl.now)) (made_by_cons (cons_at store.now cons.now))) }
    ensures held { OnOk result (All (DeclHeld store.now) decls.new.items) }
{
    match cons.split_first() {
        Some((first, rest)) => {
            push_symbols(store, sig, decl, &[first.symbol], decls)?;
            push_symbols(store, sig, decl, first.projections.as_slice(), decls)?;
            push_constructors(store, sig, decl, rest, decls)
        }
        None => Ok(()),
    }
}

// Types, each before its constructors, after other declarations.
fn push_types(
    store: &Store,
    sig: &Signature,
    decl: &Decl,
    types: &[Alg],
    decls: &mut Vec<Decl>,
) -> Result<(), AllocError>
    requires held { All (DeclHeld store.now) decls.old.items }
    ensures decls { OnOk result (declarations_at store.now decls.new.items
        ≡ declarations_at store.now decls.old.items
        ++ group_symbols (symbols_at store.now sig.now.symbols)
        (declaration_at store.now decl.now) (algebraics_at store.now types.now)) }
    ensures held { OnOk result (All (DeclHeld store.now) decls.new.items) }
{
    match types.split_first() {
        Some((first, rest)) => {
            let vars = vars_of(store, sig, first.symbol);
            decls.push(declared_as(decl, vars, Body::TypeSymbol(first.symbol))?)?;
            push_constructors(store, sig, decl, first.cons.as_slice(), decls)?;
            push_types(store, sig, decl, rest, decls)
        }
        None => Ok(()),
    }
}

// Formulas as propositions with so many type variables, after other declarations.
fn push_formulas(
    store: &Store,
    decl: &Decl,
    vars: usize,
    formulas: &[TermId],
    decls: &mut Vec<Decl>,
) -> Result<(), AllocError>
    requires formulas { All (Holds store.now) formulas.now }
    requires held { All (DeclHeld store.now) decls.old.items }
    ensures decls { OnOk result (declarations_at store.now decls.new.items
        ≡ declarations_at store.now decls.old.items ++ map
        (as_formula (declaration_at store.now decl.now) vars) (trees_at store.now formulas.now)) }
    ensures held { OnOk result (All (DeclHeld store.now) decls.new.items) }
{
    match formulas.split_first() {
        Some((first, rest)) => {
            decls.push(declared_as(decl, vars, Body::Prop(*first))?)?;
            push_formulas(store, decl, vars, rest, decls)
        }
        None => Ok(()),
    }
}

// The laws of types, after other declarations.
fn push_laws(
    alloc: Global,
    store: &mut Store,
    sig: &Signature,
    decl: &Decl,
    types: &[Alg],
    decls: &mut Vec<Decl>,
) -> Result<(), AllocError>
    requires symbols { All (SymbolHeld store.old) sig.now.symbols }
    requires decl { DeclHeld store.old decl.now }
    requires types { All (AlgIsFit store.old) types.now }
    requires held { All (DeclHeld store.old) decls.old.items }
    ensures decls { OnOk result (declarations_at store.new decls.new.items
        ≡ declarations_at store.old decls.old.items
        ++ map (as_law (declaration_at store.old decl.now))
        (group_laws (symbols_at store.old sig.now.symbols)
        (algebraics_at store.old types.now))) }
    ensures held { OnOk result (All (DeclHeld store.new) decls.new.items) }
    ensures grows { Grows store.old store.new }
{
    match types.split_first() {
        Some((first, rest)) => {
            let vars = vars_of(store, sig, first.symbol);
            let laws = type_laws(alloc, store, vars, first)?;
            push_formulas(store, decl, vars, &laws, decls)?;
            push_laws(alloc, store, sig, decl, rest, decls)
        }
        None => Ok(()),
    }
}

/// What is put in the place of a declaration, after other declarations: the declaration itself, or algebraic types as symbols, and
/// then their laws.
///
/// Only want of memory refuses.
pub fn push_in_place(
    alloc: Global,
    store: &mut Store,
    sig: &Signature,
    decl: &Decl,
    decls: &mut Vec<Decl>,
) -> Result<(), AllocError>
    requires valid { IsValidIn store.old sig.now.symbols decl.now }
    requires held { All (DeclHeld store.old) decls.old.items }
    ensures decls { OnOk result (declarations_at store.new decls.new.items
        ≡ declarations_at store.old decls.old.items
        ++ algebraic_rule (symbols_at store.old sig.now.symbols)
        (declaration_at store.old decl.now)) }
    ensures held { OnOk result (All (DeclHeld store.new) decls.new.items) }
    ensures grows { Grows store.old store.new }
{
    match &decl.body {
        Body::Algebraics(types) => {
            push_types(store, sig, decl, types.as_slice(), decls)?;
            push_laws(alloc, store, sig, decl, types.as_slice(), decls)
        }
        _ => Ok(decls.push(decl.clone()?)?),
    }
}
