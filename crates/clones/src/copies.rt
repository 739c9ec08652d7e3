// Copies of declarations under a map of symbols.
// They depend on the map of trees and on the tasks' declarations.
ghost use Rattle.std.specs.Prelude.{◌≡◌, ◌++◌, map, All, IfOk, IfSome, OnOk};
ghost use Rattle.std.specs.Option.{option_map};
ghost use Rattle.trees.specs.Node.{tree_at, Holds, Grows};
ghost use Rattle.tasks.specs.Task.{Defines, Induces, Constructs};
ghost use Rattle.tasks.specs.Meaning.{trees_at, symbol_at, definitions_at, inductives_at, cons_at, algebraics_at, body_at, declaration_at, SymbolHeld, InductiveHeld, ConHeld, AlgebraicHeld, BodyHeld, DeclHeld};
ghost use Rattle.clones.specs.Mapped.{mapped};
ghost use Rattle.clones.specs.Meaning.{map_at, MapHeld, AreKnown};
ghost use Rattle.clones.specs.Copies.{DefHeld, con_mapped, body_mapped, declaration_copied, entry_copied};

use crate::maps::{MappedTrees, SymbolMap, map_symbol, map_tree};
use std::alloc::{AllocError, Global};
use tasks::{Alg, Body, Con, Decl, Def, Ind, Seq, SymbolInfo, Text};
use trees::TermId;
use trees::store::Store;

// Mapped trees.
fn map_trees(
    alloc: Global,
    store: &mut Store,
    morphism: &SymbolMap,
    known: &mut MappedTrees,
    trees: &[TermId],
) -> Result<Seq<TermId>, AllocError>
    requires map_held { MapHeld store.old morphism.now }
    requires known { AreKnown (map_at store.old morphism.now) store.old known.old }
    requires held { All (Holds store.old) trees.now }
    ensures tree { IfOk result (λ v. trees_at store.new v
        ≡ map (mapped (map_at store.old morphism.now)) (trees_at store.old trees.now)) }
    ensures new_held { IfOk result (All (Holds store.new)) }
    ensures new_known { OnOk result (AreKnown (map_at store.old morphism.now) store.new known.new) }
    ensures grows { Grows store.old store.new }
{
    let mut out = Vec::new(alloc);
    for tree in trees {
        let copy = map_tree(alloc, store, morphism, known, *tree)?;
        out.push(copy)?;
    }
    Ok(Seq::from_vec(out))
}

// Copies of definitions, as what a declaration says.
fn copy_defs(
    alloc: Global,
    store: &mut Store,
    morphism: &SymbolMap,
    known: &mut MappedTrees,
    defs: &[Def],
) -> Result<Body, AllocError>
    requires map_held { MapHeld store.old morphism.now }
    requires known { AreKnown (map_at store.old morphism.now) store.old known.old }
    requires held { All (DefHeld store.old) defs.now }
    ensures tree { IfOk result (λ v. body_at store.new v ≡ body_mapped
        (map_at store.old morphism.now) (Defines (definitions_at store.old defs.now))) }
    ensures new_held { IfOk result (BodyHeld store.new) }
    ensures new_known { OnOk result (AreKnown (map_at store.old morphism.now) store.new known.new) }
    ensures grows { Grows store.old store.new }
{
    let mut out = Vec::new(alloc);
    for def in defs {
        let symbol = map_symbol(store, morphism, def.symbol);
        let equation = map_tree(alloc, store, morphism, known, def.equation)?;
        out.push(Def { symbol, equation })?;
    }
    Ok(Body::Defs(Seq::from_vec(out)))
}

// Copies of predicates with their clauses, as what a declaration says.
fn copy_inds(
    alloc: Global,
    store: &mut Store,
    morphism: &SymbolMap,
    known: &mut MappedTrees,
    inds: &[Ind],
) -> Result<Body, AllocError>
    requires map_held { MapHeld store.old morphism.now }
    requires known { AreKnown (map_at store.old morphism.now) store.old known.old }
    requires held { All (InductiveHeld store.old) inds.now }
    ensures tree { IfOk result (λ v. body_at store.new v ≡ body_mapped
        (map_at store.old morphism.now) (Induces (inductives_at store.old inds.now))) }
    ensures new_held { IfOk result (BodyHeld store.new) }
    ensures new_known { OnOk result (AreKnown (map_at store.old morphism.now) store.new known.new) }
    ensures grows { Grows store.old store.new }
{
    let mut out = Vec::new(alloc);
    for ind in inds {
        let symbol = map_symbol(store, morphism, ind.symbol);
        let clauses = map_trees(alloc, store, morphism, known, ind.clauses.as_slice())?;
        out.push(Ind { symbol, clauses })?;
    }
    Ok(Body::Inductives(Seq::from_vec(out)))
}

// What symbols become.
fn map_symbols(
    alloc: Global,
    store: &Store,
    morphism: &SymbolMap,
    symbols: &[usize],
) -> Result<Seq<usize>, AllocError>
    ensures { IfOk result (λ v. v ≡ map (map_at store.now morphism.now).symbols symbols.now) }
{
    let mut out = Vec::new(alloc);
    for symbol in symbols {
        out.push(map_symbol(store, morphism, *symbol))?;
    }
    Ok(Seq::from_vec(out))
}

// Copies of constructors.
fn copy_cons(
    alloc: Global,
    store: &mut Store,
    morphism: &SymbolMap,
    known: &mut MappedTrees,
    cons: &[Con],
) -> Result<Seq<Con>, AllocError>
    requires map_held { MapHeld store.old morphism.now }
    requires known { AreKnown (map_at store.old morphism.now) store.old known.old }
    requires held { All (ConHeld store.old) cons.now }
    ensures tree { IfOk result (λ v. cons_at store.new v
        ≡ map (con_mapped (map_at store.old morphism.now)) (cons_at store.old cons.now)) }
    ensures new_held { IfOk result (All (ConHeld store.new)) }
    ensures new_known { OnOk result (AreKnown (map_at store.old morphism.now) store.new known.new) }
    ensures grows { Grows store.old store.new }
{
    let mut out = Vec::new(alloc);
    for con in cons {
        let symbol = map_symbol(store, morphism, con.symbol);
        let projections = map_symbols(alloc, store, morphism, con.projections.as_slice())?;
        let fields = map_trees(alloc, store, morphism, known, con.fields.as_slice())?;
        out.push(Con {
            symbol,
            fields,
            projections,
        })?;
    }
    Ok(Seq::from_vec(out))
}

// Copies of algebraic types, as what a declaration says.
fn copy_algs(
    alloc: Global,
    store: &mut Store,
    morphism: &SymbolMap,
    known: &mut MappedTrees,
    algs: &[Alg],
) -> Result<Body, AllocError>
    requires map_held { MapHeld store.old morphism.now }
    requires known { AreKnown (map_at store.old morphism.now) store.old known.old }
    requires held { All (AlgebraicHeld store.old) algs.now }
    ensures tree { IfOk result (λ v. body_at store.new v ≡ body_mapped
        (map_at store.old morphism.now) (Constructs (algebraics_at store.old algs.now))) }
    ensures new_held { IfOk result (BodyHeld store.new) }
    ensures new_known { OnOk result (AreKnown (map_at store.old morphism.now) store.new known.new) }
    ensures grows { Grows store.old store.new }
{
    let mut out = Vec::new(alloc);
    for alg in algs {
        let symbol = map_symbol(store, morphism, alg.symbol);
        let cons = copy_cons(alloc, store, morphism, known, alg.cons.as_slice())?;
        out.push(Alg { symbol, cons })?;
    }
    Ok(Body::Algebraics(Seq::from_vec(out)))
}

// A copy of what a declaration says.
fn copy_body(
    alloc: Global,
    store: &mut Store,
    morphism: &SymbolMap,
    known: &mut MappedTrees,
    body: &Body,
) -> Result<Body, AllocError>
    requires map_held { MapHeld store.old morphism.now }
    requires known { AreKnown (map_at store.old morphism.now) store.old known.old }
    requires held { BodyHeld store.old body.now }
    ensures tree { IfOk result (λ v. body_at store.new v
        ≡ body_mapped (map_at store.old morphism.now) (body_at store.old body.now)) }
    ensures new_held { IfOk result (BodyHeld store.new) }
    ensures new_known { OnOk result (AreKnown (map_at store.old morphism.now) store.new known.new) }
    ensures grows { Grows store.old store.new }
{
    match body {
        Body::TypeSymbol(symbol) => Ok(Body::TypeSymbol(map_symbol(store, morphism, *symbol))),
        Body::Symbol(symbol) => Ok(Body::Symbol(map_symbol(store, morphism, *symbol))),
        Body::Defs(defs) => copy_defs(alloc, store, morphism, known, defs.as_slice()),
        Body::Inductives(inds) => copy_inds(alloc, store, morphism, known, inds.as_slice()),
        Body::Algebraics(algs) => copy_algs(alloc, store, morphism, known, algs.as_slice()),
        Body::Prop(formula) => {
            let formula = map_tree(alloc, store, morphism, known, *formula)?;
            Ok(Body::Prop(formula))
        }
    }
}

// A name after the names of scopes.
fn name_within(alloc: Global, within: &[u8], name: &Text) -> Result<Text, AllocError>
    ensures { IfOk result (λ v. v ≡ within.now ++ name.now) }
{
    let mut bytes = Vec::from_slice(alloc, within)?;
    bytes.extend_from_slice(name.as_slice())?;
    Ok(Text::from_vec(bytes))
}

/// A copy of a declaration in a theory, whose name is after the names of its scopes, each followed by a dot. Only want of memory
/// refuses.
pub fn copy_decl(
    alloc: Global,
    store: &mut Store,
    morphism: &SymbolMap,
    known: &mut MappedTrees,
    theory: &[u8],
    within: &[u8],
    decl: &Decl,
) -> Result<Decl, AllocError>
    requires map_held { MapHeld store.old morphism.now }
    requires known { AreKnown (map_at store.old morphism.now) store.old known.old }
    requires held { DeclHeld store.old decl.now }
    ensures tree { IfOk result (λ v. declaration_at store.new v
        ≡ declaration_copied (map_at store.old morphism.now) theory.now within.now
        (declaration_at store.old decl.now)) }
    ensures new_held { IfOk result (DeclHeld store.new) }
    ensures new_known { OnOk result (AreKnown (map_at store.old morphism.now) store.new known.new) }
    ensures grows { Grows store.old store.new }
{
    let theory = Text::from_slice(alloc, theory)?;
    let name = name_within(alloc, within, &decl.name)?;
    let body = copy_body(alloc, store, morphism, known, &decl.body)?;
    Ok(Decl {
        theory,
        name,
        vars: decl.vars,
        body,
    })
}

// The mapped type of a result, if there is one.
fn map_result(
    alloc: Global,
    store: &mut Store,
    morphism: &SymbolMap,
    known: &mut MappedTrees,
    ty: Option<TermId>,
) -> Result<Option<TermId>, AllocError>
    requires map_held { MapHeld store.old morphism.now }
    requires known { AreKnown (map_at store.old morphism.now) store.old known.old }
    requires held { IfSome ty (Holds store.old) }
    ensures tree { IfOk result (λ v. option_map (tree_at store.new) v
        ≡ option_map (mapped (map_at store.old morphism.now)) (option_map (tree_at store.old) ty)) }
    ensures new_held { IfOk result (λ v. IfSome v (Holds store.new)) }
    ensures new_known { OnOk result (AreKnown (map_at store.old morphism.now) store.new known.new) }
    ensures grows { Grows store.old store.new }
{
    match ty {
        Some(ty) => {
            let made = map_tree(alloc, store, morphism, known, ty)?;
            Ok(Some(made))
        }
        None => Ok(None),
    }
}

/// A copy of a symbol's entry in a theory, whose name is after the names of its scopes, each followed by a dot. Only want of
/// memory refuses.
pub fn copy_entry(
    alloc: Global,
    store: &mut Store,
    morphism: &SymbolMap,
    known: &mut MappedTrees,
    theory: &[u8],
    within: &[u8],
    info: &SymbolInfo,
) -> Result<SymbolInfo, AllocError>
    requires map_held { MapHeld store.old morphism.now }
    requires known { AreKnown (map_at store.old morphism.now) store.old known.old }
    requires held { SymbolHeld store.old info.now }
    ensures tree { IfOk result (λ v. symbol_at store.new v
        ≡ entry_copied (map_at store.old morphism.now) theory.now within.now
        (symbol_at store.old info.now)) }
    ensures new_held { IfOk result (SymbolHeld store.new) }
    ensures new_known { OnOk result (AreKnown (map_at store.old morphism.now) store.new known.new) }
    ensures grows { Grows store.old store.new }
{
    let args = map_trees(alloc, store, morphism, known, info.args.as_slice())?;
    let result_type = map_result(alloc, store, morphism, known, info.result)?;
    let theory = Text::from_slice(alloc, theory)?;
    let name = name_within(alloc, within, &info.name)?;
    Ok(SymbolInfo {
        theory,
        name,
        kind: info.kind,
        vars: info.vars,
        args,
        result: result_type,
    })
}
