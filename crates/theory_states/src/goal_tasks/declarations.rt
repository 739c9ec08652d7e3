// The symbols that are in declarations and formulas, each once. A tree that is shared is looked at once.
// They depend on the store and the tasks.
ghost use Rattle.std.specs.Prelude.{◌≡◌, [], ◌++◌, length, All, IfOk, OnOk};
ghost use Rattle.trees.specs.Node.{tree_at, parts_of, head_of_node, Holds, AreBelow};
ghost use Rattle.tasks.specs.Task.{Defines, Induces, symbol_or};
ghost use Rattle.tasks.specs.Meaning.{trees_at, symbol_at, symbols_at, definitions_at, inductives_at, body_at, declarations_at, SymbolHeld, InductiveHeld, BodyHeld, DeclHeld};
ghost use Rattle.theory_states.specs.goal_tasks.Named.{head_named, named, inner_named, all_named, signature_named, signatures_named, body_named, declarations_named, formulas_of};
ghost use Rattle.theory_states.specs.goal_tasks.Gathered.{GainsSymbols, AreGathered, Walks};

use indexmap::IndexSet;
use std::alloc::{AllocError, Global};
use tasks::{Body, Decl, Def, Ind, Signature, SymbolInfo, made_by};
use trees::store::Store;
use trees::{Node, Parts, TermId};

// Notes what the operator of a node names.
fn note_head(found: &mut IndexSet<usize>, node: Node) -> Result<(), AllocError>
    ensures { OnOk result (GainsSymbols found.old.keys found.new.keys
        (head_named (head_of_node node))) }
{
    match node {
        Node::TyApp(symbol, _)
        | Node::Fun(symbol, _, _, _)
        | Node::Pred(symbol, _, _)
        | Node::PatCon(symbol, _, _, _) => {
            found.insert(symbol)?;
            Ok(())
        }
        _ => Ok(()),
    }
}

// Notes what is in a tree, unless that was done.
#[cycle(trees)]
fn note_tree(
    store: &Store,
    found: &mut IndexSet<usize>,
    done: &mut IndexSet<usize>,
    e: TermId,
) -> Result<(), AllocError>
    requires walk { AreGathered store.now found.old.keys done.old.keys }
    requires held { Holds store.now e }
    ensures { OnOk result (Walks store.now found.old.keys found.new.keys done.new.keys
        (named (tree_at store.now e))) }
{
    if done.contains(&e.0) {
        return Ok(());
    }
    note_head(found, store.node(e))?;
    note_parts(store, found, done, e)?;
    done.insert(e.0)?;
    Ok(())
}

// Notes what is in the children of a tree.
#[cycle(trees)]
fn note_parts(
    store: &Store,
    found: &mut IndexSet<usize>,
    done: &mut IndexSet<usize>,
    e: TermId,
) -> Result<(), AllocError>
    requires walk { AreGathered store.now found.old.keys done.old.keys }
    requires held { Holds store.now e }
    ensures { OnOk result (Walks store.now found.old.keys found.new.keys done.new.keys
        (inner_named (tree_at store.now e))) }
{
    match store.node(e).parts() {
        Parts::None => Ok(()),
        Parts::One(a) => note_tree(store, found, done, a),
        Parts::Two(a, b) => {
            note_tree(store, found, done, a)?;
            note_tree(store, found, done, b)
        }
        Parts::Three(x, y, z) => {
            note_tree(store, found, done, x)?;
            note_tree(store, found, done, y)?;
            note_tree(store, found, done, z)
        }
    }
}

// Notes what is in trees.
fn note_trees(
    store: &Store,
    found: &mut IndexSet<usize>,
    done: &mut IndexSet<usize>,
    trees: &[TermId],
) -> Result<(), AllocError>
    requires walk { AreGathered store.now found.old.keys done.old.keys }
    requires held { All (Holds store.now) trees.now }
    ensures { OnOk result (Walks store.now found.old.keys found.new.keys done.new.keys
        (all_named (trees_at store.now trees.now))) }
{
    for tree in trees {
        note_tree(store, found, done, *tree)?;
    }
    Ok(())
}

// Notes what is in the types of the symbol with this number, if there is one.
fn note_symbol(
    store: &Store,
    sig: &Signature,
    found: &mut IndexSet<usize>,
    done: &mut IndexSet<usize>,
    symbol: usize,
) -> Result<(), AllocError>
    requires walk { AreGathered store.now found.old.keys done.old.keys }
    requires symbols_held { All (SymbolHeld store.now) sig.now.symbols }
    ensures { OnOk result (Walks store.now found.old.keys found.new.keys done.new.keys
        (signature_named (symbol_or (symbols_at store.now sig.now.symbols) symbol))) }
{
    match sig.symbols.get(symbol) {
        Some(info) => {
            note_trees(store, found, done, info.args.as_slice())?;
            match info.result {
                Some(ty) => note_tree(store, found, done, ty),
                None => Ok(()),
            }
        }
        None => Ok(()),
    }
}

// Notes what is in the types of symbols.
fn note_symbols(
    store: &Store,
    sig: &Signature,
    found: &mut IndexSet<usize>,
    done: &mut IndexSet<usize>,
    symbols: &[usize],
) -> Result<(), AllocError>
    requires walk { AreGathered store.now found.old.keys done.old.keys }
    requires symbols_held { All (SymbolHeld store.now) sig.now.symbols }
    ensures { OnOk result (Walks store.now found.old.keys found.new.keys done.new.keys
        (signatures_named (symbols_at store.now sig.now.symbols) symbols.now)) }
{
    for symbol in symbols {
        note_symbol(store, sig, found, done, *symbol)?;
    }
    Ok(())
}

// Notes what is in equations.
fn note_equations(
    store: &Store,
    found: &mut IndexSet<usize>,
    done: &mut IndexSet<usize>,
    defs: &[Def],
) -> Result<(), AllocError>
    requires walk { AreGathered store.now found.old.keys done.old.keys }
    requires held { All (λ (d : Def). Holds store.now d.equation) defs.now }
    ensures { OnOk result (Walks store.now found.old.keys found.new.keys done.new.keys
        (all_named (formulas_of (Defines (definitions_at store.now defs.now))))) }
{
    for def in defs {
        note_tree(store, found, done, def.equation)?;
    }
    Ok(())
}

// Notes what is in clauses.
fn note_clauses(
    store: &Store,
    found: &mut IndexSet<usize>,
    done: &mut IndexSet<usize>,
    inductives: &[Ind],
) -> Result<(), AllocError>
    requires walk { AreGathered store.now found.old.keys done.old.keys }
    requires held { All (InductiveHeld store.now) inductives.now }
    ensures { OnOk result (Walks store.now found.old.keys found.new.keys done.new.keys
        (all_named (formulas_of (Induces (inductives_at store.now inductives.now))))) }
{
    for inductive in inductives {
        note_trees(store, found, done, inductive.clauses.as_slice())?;
    }
    Ok(())
}

// Notes what is in what a declaration says.
fn note_said(
    store: &Store,
    found: &mut IndexSet<usize>,
    done: &mut IndexSet<usize>,
    body: &Body,
) -> Result<(), AllocError>
    requires walk { AreGathered store.now found.old.keys done.old.keys }
    requires held { BodyHeld store.now body.now }
    ensures { OnOk result (Walks store.now found.old.keys found.new.keys done.new.keys
        (all_named (formulas_of (body_at store.now body.now)))) }
{
    match body {
        Body::Defs(defs) => note_equations(store, found, done, defs.as_slice()),
        Body::Inductives(inductives) => note_clauses(store, found, done, inductives.as_slice()),
        Body::Prop(formula) => note_tree(store, found, done, *formula),
        _ => Ok(()),
    }
}

// Notes what is in a declaration and in the types of what it makes.
fn note_declaration(
    alloc: Global,
    store: &Store,
    sig: &Signature,
    found: &mut IndexSet<usize>,
    done: &mut IndexSet<usize>,
    decl: &Decl,
) -> Result<(), AllocError>
    requires walk { AreGathered store.now found.old.keys done.old.keys }
    requires symbols_held { All (SymbolHeld store.now) sig.now.symbols }
    requires held { DeclHeld store.now decl.now }
    ensures { OnOk result (Walks store.now found.old.keys found.new.keys done.new.keys
        (body_named (symbols_at store.now sig.now.symbols) (body_at store.now decl.now.body))) }
{
    let made = made_by(alloc, &decl.body)?;
    note_symbols(store, sig, found, done, made.as_slice())?;
    note_said(store, found, done, &decl.body)
}

// Notes what is in declarations, in the types of what they make, and then in a goal.
fn note_task(
    alloc: Global,
    store: &Store,
    sig: &Signature,
    found: &mut IndexSet<usize>,
    done: &mut IndexSet<usize>,
    decls: &[Decl],
    goal: TermId,
) -> Result<(), AllocError>
    requires walk { AreGathered store.now found.old.keys done.old.keys }
    requires symbols_held { All (SymbolHeld store.now) sig.now.symbols }
    requires held { All (DeclHeld store.now) decls.now }
    requires goal_held { Holds store.now goal }
    ensures { OnOk result (Walks store.now found.old.keys found.new.keys done.new.keys
        (declarations_named (symbols_at store.now sig.now.symbols)
        (declarations_at store.now decls.now) ++ named (tree_at store.now goal))) }
{
    for decl in decls {
        note_declaration(alloc, store, sig, found, done, decl)?;
    }
    note_tree(store, found, done, goal)
}

// Puts the symbols that are in declarations, in the types of what they make, and in a goal into a set.
fn gather_named(
    alloc: Global,
    store: &Store,
    sig: &Signature,
    found: &mut IndexSet<usize>,
    decls: &[Decl],
    goal: TermId,
) -> Result<(), AllocError>
    requires symbols_held { All (SymbolHeld store.now) sig.now.symbols }
    requires held { All (DeclHeld store.now) decls.now }
    requires goal_held { Holds store.now goal }
    ensures { OnOk result (GainsSymbols found.old.keys found.new.keys
        (declarations_named (symbols_at store.now sig.now.symbols)
        (declarations_at store.now decls.now) ++ named (tree_at store.now goal))) }
{
    let mut done = IndexSet::new(alloc);
    note_task(alloc, store, sig, found, &mut done, decls, goal)
}

/// The symbols that are in declarations, in the types of what they make, and in a goal. Only want of memory refuses.
pub fn named_in(
    alloc: Global,
    store: &Store,
    sig: &Signature,
    decls: &[Decl],
    goal: TermId,
) -> Result<IndexSet<usize>, AllocError>
    requires symbols_held { All (SymbolHeld store.now) sig.now.symbols }
    requires held { All (DeclHeld store.now) decls.now }
    requires goal_held { Holds store.now goal }
    ensures { IfOk result (λ found. GainsSymbols [] found.keys
        (declarations_named (symbols_at store.now sig.now.symbols)
        (declarations_at store.now decls.now) ++ named (tree_at store.now goal))) }
{
    let mut found = IndexSet::new(alloc);
    gather_named(alloc, store, sig, &mut found, decls, goal)?;
    Ok(found)
}
