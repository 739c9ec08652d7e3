// Declarations in the place of a group.
// They depend on what the group says; spelling groups out depends on them.
ghost use Rattle.std.specs.Prelude.{◌≡◌, ◌++◌, map, All, IfOk, IfSome, OnOk};
ghost use Rattle.std.specs.Option.{option_map};
ghost use Rattle.tasks.specs.Meaning.{symbols_at, declaration_at, declarations_at, DeclHeld};
ghost use Rattle.declarations.specs.spelled_groups.Spelled.{as_symbol, as_proposition, spelled_out, in_place};
ghost use Rattle.declarations.specs.spelled_groups.Stored.{facts_at, SaidHeld, IsDeclaredAs};

use crate::spelled_groups::said::{Said, vars_of};
use std::alloc::{AllocError, Global};
use tasks::{Body, Decl, Signature, made_by};
use trees::store::Store;

// A declaration of the theory and name of another.
fn declared_as(decl: &Decl, vars: usize, body: Body) -> Result<Decl, AllocError>
    ensures { IfOk result (IsDeclaredAs decl.now vars body) }
{
    Ok(Decl {
        theory: decl.theory.clone()?,
        name: decl.name.clone()?,
        vars,
        body,
    })
}

// The symbols of a group, after other declarations.
fn push_symbols(
    store: &Store,
    sig: &Signature,
    decl: &Decl,
    symbols: &[usize],
    decls: &mut Vec<Decl>,
) -> Result<(), AllocError>
    requires held { All (DeclHeld store.now) decls.old.items }
    ensures decls { OnOk result (declarations_at store.now decls.new.items
        ≡ declarations_at store.now decls.old.items
        ++ map (as_symbol (symbols_at store.now sig.now.symbols)
        (declaration_at store.now decl.now)) symbols.now) }
    ensures held { OnOk result (All (DeclHeld store.now) decls.new.items) }
{
    match symbols.split_first() {
        Some((first, rest)) => {
            let vars = vars_of(store, sig, *first);
            decls.push(declared_as(decl, vars, Body::Symbol(*first))?)?;
            push_symbols(store, sig, decl, rest, decls)
        }
        None => Ok(()),
    }
}

// What a group says, as propositions, after other declarations.
fn push_propositions(
    store: &Store,
    decl: &Decl,
    said: &[Said],
    decls: &mut Vec<Decl>,
) -> Result<(), AllocError>
    requires said { All (SaidHeld store.now) said.now }
    requires held { All (DeclHeld store.now) decls.old.items }
    ensures decls { OnOk result (declarations_at store.now decls.new.items
        ≡ declarations_at store.now decls.old.items
        ++ map (as_proposition (declaration_at store.now decl.now)) (facts_at store.now said.now)) }
    ensures held { OnOk result (All (DeclHeld store.now) decls.new.items) }
{
    match said.split_first() {
        Some((first, rest)) => {
            decls.push(declared_as(decl, first.vars, Body::Prop(first.formula))?)?;
            push_propositions(store, decl, rest, decls)
        }
        None => Ok(()),
    }
}

// A group's symbols, and then what it says, after other declarations.
fn push_spelled(
    alloc: Global,
    store: &Store,
    sig: &Signature,
    decl: &Decl,
    said: &[Said],
    decls: &mut Vec<Decl>,
) -> Result<(), AllocError>
    requires said { All (SaidHeld store.now) said.now }
    requires held { All (DeclHeld store.now) decls.old.items }
    ensures decls { OnOk result (declarations_at store.now decls.new.items
        ≡ declarations_at store.now decls.old.items
        ++ spelled_out (symbols_at store.now sig.now.symbols) (declaration_at store.now decl.now)
        (facts_at store.now said.now)) }
    ensures held { OnOk result (All (DeclHeld store.now) decls.new.items) }
{
    let symbols = made_by(alloc, &decl.body)?;
    push_symbols(store, sig, decl, symbols.as_slice(), decls)?;
    push_propositions(store, decl, said, decls)
}

/// What is put in the place of a declaration, after other declarations: the declaration itself, or the group that says this.
pub fn push_in_place(
    alloc: Global,
    store: &Store,
    sig: &Signature,
    decl: &Decl,
    said: Option<Vec<Said>>,
    decls: &mut Vec<Decl>,
) -> Result<(), AllocError>
    requires said { IfSome said (λ v. All (SaidHeld store.now) v.items) }
    requires decl { DeclHeld store.now decl.now }
    requires held { All (DeclHeld store.now) decls.old.items }
    ensures decls { OnOk result (declarations_at store.now decls.new.items
        ≡ declarations_at store.now decls.old.items
        ++ in_place (symbols_at store.now sig.now.symbols) (declaration_at store.now decl.now)
        (option_map (λ v. facts_at store.now v.items) said)) }
    ensures held { OnOk result (All (DeclHeld store.now) decls.new.items) }
{
    match said {
        Some(said) => push_spelled(alloc, store, sig, decl, said.as_slice(), decls),
        None => Ok(decls.push(decl.clone()?)?),
    }
}
