// The sides of elements, and the first element that is wrong.
// They depend on right sides, on names of the theory and on replacements; clones depend on them.
ghost use Rattle.std.specs.Prelude.{◌≡◌, ◌++◌, ◌<◌, ◌↔◌, ℕ, List, [], None, Some, length, map, slice_get, All, IfOk, IfErr, OnOk, IsTrue, option_map, IfSome};
ghost use Rattle.tasks.specs.trees.Tree.{Tree};
ghost use Rattle.tasks.specs.trees.Node.{tree_at, Holds, Grows};
ghost use Rattle.tasks.specs.Task.{symbol_or, int_symbol};
ghost use Rattle.tasks.specs.Meaning.{symbols_at, symbol_at, trees_at, declarations_at, SymbolHeld, DeclHeld};
ghost use Rattle.surface.specs.SurfaceDeclarations.{element_of, element_by};
ghost use Rattle.clones.specs.Mapped.{mapped};
ghost use Rattle.clones.specs.Meaning.{map_at, MapHeld, AreKnown};
ghost use Rattle.elab_groups.specs.parts.Entries.{IsSignature};
ghost use Rattle.clones.specs.clone_elements.Left.{symbol_at_place};
ghost use Rattle.clones.specs.clone_elements.Replacements.{with_sides, symbol_for, symbols_replaced, has_all, is_all, no_effects, kept, map_of, tried_map, effects_of, types_replaced};
ghost use Rattle.clones.specs.clone_elements.Elements.{left_token, right_token, has_vars, is_wrong_at, is_wrong, is_kind_of_word, IsSameSignature, Replaces, IsRightSide, SideTold, SidesTold};
ghost use Rattle.clones.specs.clone_elements.Origins.{origin_at};
ghost use Rattle.clones.specs.clone_elements.Meaning.{right_at, side_at, sides_at, SideHeld, effects_at, type_pairs_at, symbol_pairs, TypeForHeld, TrialHeld, IsElementRefused, IsReplacement};

use crate::clone_elements::left::ClonedTheory;
use crate::clone_elements::replacements::{
    Effects, Side, SymbolFor, TypeFor, enter_side, kept_symbols, map_of, symbol_at_place,
    types_replaced, vars_of,
};
use crate::clone_elements::rights::Right;
use crate::{MappedTrees, SymbolMap, map_tree, no_trees};
use indexmap::IndexMap;
use std::alloc::{AllocError, AllocFailed, Global};
use surface::{ElemNode, ElemTree, SymbolWord};
use tasks::{Signature, Store, SymbolInfo, SymbolKind, TermId};

/// What is wrong with the elements of a clone, at a token, or want of memory.
#[derive(Clone, Copy)]
pub enum ElementFault {
    Memory,
    BadSubstitution { token: usize },
}

impl From<AllocError> for ElementFault {
    ghost use Rattle.std.specs.Prelude.{◌≡◌};
    ghost use Rattle.clones.specs.declared.clone_elements.elements.ElementFault.TheVariants.{Memory as NoMemory};

    ghost from_gives = { λ _ e. e ≡ NoMemory };

    fn from(_: AllocError) -> ElementFault {
        ElementFault::Memory
    }
}

impl<T: Drop> From<AllocFailed<T>> for ElementFault {
    ghost use Rattle.std.specs.Prelude.{◌≡◌};
    ghost use Rattle.clones.specs.declared.clone_elements.elements.ElementFault.TheVariants.{Memory as NoMemory};

    ghost from_gives = { λ _ e. e ≡ NoMemory };

    fn from(_: AllocFailed<T>) -> ElementFault {
        ElementFault::Memory
    }
}

/// What the elements of a clone replace, what becomes of the declarations that they name, and whether all other axioms stay axioms.
#[derive(Drop)]
pub struct Replacement {
    pub types: Vec<TypeFor>,
    pub symbols: Vec<SymbolFor>,
    pub effects: Effects,
    pub all_axioms: bool,
}

// What elements are compared over: the signature, the theory, and the map of its types.
#[derive(Clone, Copy)]
struct Trial<'a> {
    sig: &'a Signature,
    source: &'a ClonedTheory<'a>,
    morphism: &'a SymbolMap,
}

// The token of the left name of an element.
fn left_token(element: &ElemTree) -> usize
    ensures { result ≡ left_token (element_of element.now) }
{
    match &element.node {
        ElemNode::TypeElem(name, _, _) => name.at,
        ElemNode::SymbolElem(_, name, _) => name.at,
        ElemNode::PropElem(_, name) => name.at,
        ElemNode::AllAxioms => element.at,
    }
}

// The token at which another kind or signature is refused.
fn right_token(element: &ElemTree) -> usize
    ensures { result ≡ right_token (element_of element.now) }
{
    match &element.node {
        ElemNode::TypeElem(name, _, _) => name.at,
        ElemNode::SymbolElem(_, _, name) => name.at,
        ElemNode::PropElem(_, name) => name.at,
        ElemNode::AllAxioms => element.at,
    }
}

// Whether the right side of an element has the number of type variables of a symbol.
fn has_vars(sig: &Signature, symbol: usize, node: &ElemNode, right: Right) -> bool
    ensures { (s : List Tree) (token : ℕ) → result ≡ has_vars (symbols_at s sig.now.symbols) symbol
        (element_by node.now token) (right_at s right) }
{
    match node {
        ElemNode::TypeElem(_, vars, _) => vars_of(sig, symbol) == vars.len(),
        ElemNode::SymbolElem(_, _, _) => match right {
            Right::Symbol(other) => vars_of(sig, symbol) == vars_of(sig, other),
            Right::Type(_) => true,
            Right::Nothing => true,
        },
        ElemNode::PropElem(_, _) => true,
        ElemNode::AllAxioms => true,
    }
}

// Whether an element that names something is refused at its left name.
fn is_wrong_at(trial: &Trial<'_>, effects: &Effects, side: &Side<'_>) -> bool
    ensures { (s : List Tree) → result ≡ is_wrong_at (symbols_at s trial.now.sig.now.symbols)
        (origin_at s trial.now.source.now) (effects_at effects.now)
        (element_of side.now.element.now) (right_at s side.now.right) side.now.left }
{
    match side.left {
        Some(place) => match effects.get(&place) {
            Some(_) => true,
            None => {
                let symbol = symbol_at_place(trial.source.decls, place);
                !has_vars(trial.sig, symbol, &side.element.node, side.right)
            }
        },
        None => true,
    }
}

// Whether an element is refused at its left name.
fn is_wrong(trial: &Trial<'_>, effects: &Effects, side: &Side<'_>) -> bool
    ensures { (s : List Tree) → result ≡ is_wrong (symbols_at s trial.now.sig.now.symbols)
        (origin_at s trial.now.source.now) (effects_at effects.now)
        (element_of side.now.element.now) (right_at s side.now.right) side.now.left }
{
    match &side.element.node {
        ElemNode::AllAxioms => false,
        ElemNode::TypeElem(_, _, _) => is_wrong_at(trial, effects, side),
        ElemNode::SymbolElem(_, _, _) => is_wrong_at(trial, effects, side),
        ElemNode::PropElem(_, _) => is_wrong_at(trial, effects, side),
    }
}

// Whether a symbol's kind is that of a word.
fn is_kind(kind: SymbolKind, word: SymbolWord) -> bool
    ensures { result ≡ is_kind_of_word kind word }
{
    match kind {
        SymbolKind::Kind => false,
        SymbolKind::Predicate => match word {
            SymbolWord::Predicate => true,
            SymbolWord::Function => false,
            SymbolWord::Constant => false,
        },
        SymbolKind::Function | SymbolKind::Constructor | SymbolKind::Projection => match word {
            SymbolWord::Predicate => false,
            SymbolWord::Function => true,
            SymbolWord::Constant => true,
        },
    }
}

// Whether types, mapped, are others.
fn same_types(
    alloc: Global,
    store: &mut Store,
    morphism: &SymbolMap,
    known: &mut MappedTrees,
    types: &[TermId],
    others: &[TermId],
) -> Result<bool, AllocError>
    requires map_held { MapHeld store.old morphism.now }
    requires known { AreKnown (map_at store.old morphism.now) store.old known.old }
    requires held { All (Holds store.old) types.now }
    requires others_held { All (Holds store.old) others.now }
    ensures same { IfOk result (λ b. IsTrue b
        ↔ (map (mapped (map_at store.old morphism.now)) (trees_at
        store.old types.now) ≡ trees_at store.old others.now)) }
    ensures known { OnOk result (AreKnown (map_at store.old morphism.now) store.new known.new) }
    ensures grows { Grows store.old store.new }
{
    let Some((first, rest)) = types.split_first() else {
        return Ok(others.is_empty());
    };
    let Some((other, following)) = others.split_first() else {
        return Ok(false);
    };
    let made = map_tree(alloc, store, morphism, known, *first)?;
    if store.same(made, *other) {
        same_types(alloc, store, morphism, known, rest, following)
    } else {
        Ok(false)
    }
}

// Whether a result's type, mapped, is another one.
fn same_result(
    alloc: Global,
    store: &mut Store,
    morphism: &SymbolMap,
    known: &mut MappedTrees,
    ty: Option<TermId>,
    other: Option<TermId>,
) -> Result<bool, AllocError>
    requires map_held { MapHeld store.old morphism.now }
    requires known { AreKnown (map_at store.old morphism.now) store.old known.old }
    requires held { IfSome ty (Holds store.old) }
    requires other_held { IfSome other (Holds store.old) }
    ensures same { IfOk result (λ b. IsTrue b ↔ (option_map (mapped (map_at store.old morphism.now))
        (option_map (tree_at store.old) ty) ≡ option_map (tree_at store.old) other)) }
    ensures known { OnOk result (AreKnown (map_at store.old morphism.now) store.new known.new) }
    ensures grows { Grows store.old store.new }
{
    match ty {
        Some(ty) => match other {
            Some(other) => {
                let made = map_tree(alloc, store, morphism, known, ty)?;
                Ok(store.same(made, other))
            }
            None => Ok(false),
        },
        None => Ok(other.is_none()),
    }
}

/// The entry of a number, and that of `int` where there is none.
pub fn entry_or(sig: &Signature, symbol: usize) -> &SymbolInfo
    requires { 0 < length sig.now.symbols }
    ensures entry { (s : List Tree) → slice_get (symbols_at s sig.now.symbols) 0 ≡ Some int_symbol
        → symbol_at s result.now ≡ symbol_or (symbols_at s sig.now.symbols) symbol }
    ensures held { (s : List Tree) → All (SymbolHeld s) sig.now.symbols → SymbolHeld s result.now }
{
    match sig.symbols.get(symbol) {
        Some(info) => info,
        None => &sig.symbols.as_slice()[0],
    }
}

// Whether the types of a symbol, mapped, are those of another.
fn same_signature(
    alloc: Global,
    store: &mut Store,
    morphism: &SymbolMap,
    known: &mut MappedTrees,
    info: &SymbolInfo,
    other: &SymbolInfo,
) -> Result<bool, AllocError>
    requires map_held { MapHeld store.old morphism.now }
    requires known { AreKnown (map_at store.old morphism.now) store.old known.old }
    requires held { SymbolHeld store.old info.now }
    requires other_held { SymbolHeld store.old other.now }
    ensures same { IfOk result (λ b. IsTrue b ↔ IsSameSignature (map_at store.old morphism.now)
        (symbol_at store.old info.now) (symbol_at store.old other.now)) }
    ensures known { OnOk result (AreKnown (map_at store.old morphism.now) store.new known.new) }
    ensures grows { Grows store.old store.new }
{
    let types = info.args.as_slice();
    let args = same_types(alloc, store, morphism, known, types, other.args.as_slice())?;
    let results = same_result(alloc, store, morphism, known, info.result, other.result)?;
    Ok(args && results)
}

// Whether the symbol of the declaration at a place may be replaced by another one.
fn replaces(
    alloc: Global,
    store: &mut Store,
    trial: &Trial<'_>,
    known: &mut MappedTrees,
    word: SymbolWord,
    place: usize,
    other: usize,
) -> Result<bool, AllocError>
    requires trial { TrialHeld store.old trial.now }
    requires known { AreKnown (map_at store.old trial.now.morphism.now) store.old known.old }
    ensures same { IfOk result (λ b. IsTrue b ↔ Replaces (symbols_at store.old
        trial.now.sig.now.symbols) (map_at store.old trial.now.morphism.now) word
        (symbol_at_place (declarations_at store.old trial.now.source.now.decls.now) place) other) }
    ensures known { OnOk result (AreKnown (map_at store.old trial.now.morphism.now) store.new
        known.new) }
    ensures grows { Grows store.old store.new }
{
    let symbol = symbol_at_place(trial.source.decls, place);
    let old = entry_or(trial.sig, symbol);
    let new = entry_or(trial.sig, other);
    let kind = is_kind(new.kind, word);
    let same = same_signature(alloc, store, trial.morphism, known, old, new)?;
    Ok(kind && same)
}

// Whether an element is right at its right name.
fn is_right(
    alloc: Global,
    store: &mut Store,
    trial: &Trial<'_>,
    known: &mut MappedTrees,
    side: &Side<'_>,
) -> Result<bool, AllocError>
    requires trial { TrialHeld store.old trial.now }
    requires known { AreKnown (map_at store.old trial.now.morphism.now) store.old known.old }
    ensures right { IfOk result (λ b. IsTrue b ↔ IsRightSide (symbols_at store.old
        trial.now.sig.now.symbols) (origin_at store.old trial.now.source.now)
        (map_at store.old trial.now.morphism.now) (element_of side.now.element.now) side.now.left
        (right_at store.old side.now.right)) }
    ensures known { OnOk result (AreKnown (map_at store.old trial.now.morphism.now) store.new
        known.new) }
    ensures grows { Grows store.old store.new }
{
    match &side.element.node {
        ElemNode::SymbolElem(word, _, _) => match side.left {
            Some(place) => match side.right {
                Right::Symbol(other) => replaces(alloc, store, trial, known, *word, place, other),
                Right::Type(_) => Ok(true),
                Right::Nothing => Ok(true),
            },
            None => Ok(true),
        },
        ElemNode::TypeElem(_, _, _) => Ok(true),
        ElemNode::PropElem(_, _) => Ok(true),
        ElemNode::AllAxioms => Ok(true),
    }
}

// The token at which an element is refused, if it is.
fn check_side(
    alloc: Global,
    store: &mut Store,
    trial: &Trial<'_>,
    known: &mut MappedTrees,
    effects: &Effects,
    side: &Side<'_>,
) -> Result<Option<usize>, AllocError>
    requires trial { TrialHeld store.old trial.now }
    requires known { AreKnown (map_at store.old trial.now.morphism.now) store.old known.old }
    ensures told { IfOk result (SideTold (symbols_at store.old trial.now.sig.now.symbols)
        (origin_at store.old trial.now.source.now) (map_at store.old trial.now.morphism.now)
        (effects_at effects.now) (side_at store.old side.now)) }
    ensures known { OnOk result (AreKnown (map_at store.old trial.now.morphism.now) store.new
        known.new) }
    ensures grows { Grows store.old store.new }
{
    if is_wrong(trial, effects, side) {
        return Ok(Some(left_token(side.element)));
    }
    if is_right(alloc, store, trial, known, side)? {
        Ok(None)
    } else {
        Ok(Some(right_token(side.element)))
    }
}

// The token at which the first element is refused, if one is. The effects of those before it are entered.
fn check_sides(
    alloc: Global,
    store: &mut Store,
    trial: &Trial<'_>,
    known: &mut MappedTrees,
    effects: &mut Effects,
    sides: &[Side<'_>],
) -> Result<Option<usize>, AllocError>
    requires trial { TrialHeld store.old trial.now }
    requires known { AreKnown (map_at store.old trial.now.morphism.now) store.old known.old }
    requires sides { All (SideHeld store.old) sides.now }
    ensures told { IfOk result (SidesTold (symbols_at store.old trial.now.sig.now.symbols)
        (origin_at store.old trial.now.source.now) (map_at store.old trial.now.morphism.now)
        (effects_at effects.old) (sides_at store.old sides.now)) }
    ensures effects { IfOk result (λ o. o ≡ None → effects_at effects.new
        ≡ with_sides (sides_at store.old sides.now) (effects_at effects.old)) }
    ensures grows { Grows store.old store.new }
{
    let Some((first, rest)) = sides.split_first() else {
        return Ok(None);
    };
    match check_side(alloc, store, trial, known, effects, first)? {
        Some(token) => Ok(Some(token)),
        None => {
            enter_side(effects, first)?;
            check_sides(alloc, store, trial, known, effects, rest)
        }
    }
}

// The symbols that elements replace by others, after others.
fn push_symbols(
    source: &ClonedTheory<'_>,
    symbols: &mut Vec<SymbolFor>,
    sides: &[Side<'_>],
) -> Result<(), AllocError>
    ensures { OnOk result ((s : List Tree) → symbol_pairs symbols.new.items ≡ symbol_pairs
        symbols.old.items ++ symbols_replaced (origin_at s source.now) (sides_at s sides.now)) }
{
    let Some((first, rest)) = sides.split_first() else {
        return Ok(());
    };
    push_symbol(source, symbols, first)?;
    push_symbols(source, symbols, rest)
}

// The symbol that an element replaces by another, after others.
fn push_symbol(
    source: &ClonedTheory<'_>,
    symbols: &mut Vec<SymbolFor>,
    side: &Side<'_>,
) -> Result<(), AllocError>
    ensures { OnOk result ((s : List Tree) → symbol_pairs symbols.new.items ≡ symbol_pairs
        symbols.old.items ++ symbol_for (origin_at s source.now) side.now.left
        (right_at s side.now.right)) }
{
    match side.left {
        Some(place) => match side.right {
            Right::Symbol(new) => {
                let symbol = symbol_at_place(source.decls, place);
                symbols.push(SymbolFor { symbol, new })?;
                Ok(())
            }
            Right::Type(_) => Ok(()),
            Right::Nothing => Ok(()),
        },
        None => Ok(()),
    }
}

fn is_all(node: &ElemNode) -> bool
    ensures { (token : ℕ) → result ≡ is_all (element_by node.now token) }
{
    match node {
        ElemNode::TypeElem(_, _, _) => false,
        ElemNode::SymbolElem(_, _, _) => false,
        ElemNode::PropElem(_, _) => false,
        ElemNode::AllAxioms => true,
    }
}

// Whether one of the elements keeps all axioms.
fn has_all(sides: &[Side<'_>]) -> bool
    ensures { (s : List Tree) → result ≡ has_all (sides_at s sides.now) }
{
    match sides.split_first() {
        Some((first, rest)) => is_all(&first.element.node) || has_all(rest),
        None => false,
    }
}

// The symbols of all own declarations, in order.
fn own_symbols(alloc: Global, source: &ClonedTheory<'_>) -> Result<Vec<usize>, AllocError>
    ensures { IfOk result (λ v. (s : List Tree) → v.items ≡ kept (origin_at s source.now)
        no_effects) }
{
    let none: Effects = IndexMap::new(alloc);
    kept_symbols(alloc, source, &none)
}

// The map by which signatures are compared: types that aren't replaced count as their copies.
fn tried_map(
    alloc: Global,
    store: &Store,
    sig: &Signature,
    source: &ClonedTheory<'_>,
    types: &[TypeFor],
) -> Result<SymbolMap, AllocError>
    requires { All (TypeForHeld store.now) types.now }
    ensures is { IfOk result (λ m. map_at store.now m
        ≡ map_of (type_pairs_at store.now types.now) []
        (length sig.now.symbols) (kept (origin_at store.now source.now) no_effects)) }
    ensures held { IfOk result (MapHeld store.now) }
{
    let all = own_symbols(alloc, source)?;
    map_of(alloc, store, types, &[], sig.symbols.len(), all.as_slice())
}

// The first element that is wrong, and the effects of those before it.
fn find_wrong(
    alloc: Global,
    store: &mut Store,
    trial: &Trial<'_>,
    effects: &mut Effects,
    sides: &[Side<'_>],
) -> Result<Option<usize>, AllocError>
    requires trial { TrialHeld store.old trial.now }
    requires sides { All (SideHeld store.old) sides.now }
    ensures told { IfOk result (SidesTold (symbols_at store.old trial.now.sig.now.symbols)
        (origin_at store.old trial.now.source.now) (map_at store.old trial.now.morphism.now)
        (effects_at effects.old) (sides_at store.old sides.now)) }
    ensures effects { IfOk result (λ o. o ≡ None → effects_at effects.new
        ≡ with_sides (sides_at store.old sides.now) (effects_at effects.old)) }
    ensures grows { Grows store.old store.new }
{
    let mut known = no_trees(alloc);
    check_sides(alloc, store, trial, &mut known, effects, sides)
}

// The effects of elements on what they name are entered, under a map of types, unless an element is wrong.
fn check_elements<'a>(
    alloc: Global,
    store: &mut Store,
    sig: &'a Signature,
    source: &'a ClonedTheory<'a>,
    morphism: &'a SymbolMap,
    effects: &mut Effects,
    sides: &[Side<'_>],
) -> Result<(), ElementFault>
    requires signature { IsSignature store.old sig.now.symbols }
    requires decls { All (DeclHeld store.old) source.now.decls.now }
    requires map_held { MapHeld store.old morphism.now }
    requires none { effects_at effects.old ≡ no_effects }
    requires sides { All (SideHeld store.old) sides.now }
    ensures right { OnOk result (SidesTold (symbols_at store.old sig.now.symbols)
        (origin_at store.old source.now) (map_at store.old morphism.now) no_effects
        (sides_at store.old sides.now) None) }
    ensures effects { OnOk result (effects_at effects.new ≡ effects_of
        (sides_at store.old sides.now)) }
    ensures err { IfErr result (IsElementRefused (symbols_at store.old sig.now.symbols)
        (origin_at store.old source.now) (map_at store.old morphism.now)
        (sides_at store.old sides.now)) }
    ensures grows { Grows store.old store.new }
{
    let trial = Trial {
        sig,
        source,
        morphism,
    };
    match find_wrong(alloc, store, &trial, effects, sides)? {
        Some(token) => Err(ElementFault::BadSubstitution { token }),
        None => Ok(()),
    }
}

// The effects of elements on what they name are entered, with the types for type symbols, unless an element is wrong.
fn find_effects(
    alloc: Global,
    store: &mut Store,
    sig: &Signature,
    source: &ClonedTheory<'_>,
    types: &[TypeFor],
    effects: &mut Effects,
    sides: &[Side<'_>],
) -> Result<(), ElementFault>
    requires signature { IsSignature store.old sig.now.symbols }
    requires decls { All (DeclHeld store.old) source.now.decls.now }
    requires held { All (TypeForHeld store.old) types.now }
    requires types { type_pairs_at store.old types.now ≡ types_replaced
        (symbols_at store.old sig.now.symbols) (origin_at store.old source.now)
        (sides_at store.old sides.now) }
    requires none { effects_at effects.old ≡ no_effects }
    requires sides { All (SideHeld store.old) sides.now }
    ensures right { OnOk result (SidesTold (symbols_at store.old sig.now.symbols)
        (origin_at store.old source.now) (tried_map (symbols_at store.old sig.now.symbols)
        (origin_at store.old source.now) (sides_at store.old sides.now)) no_effects
        (sides_at store.old sides.now) None) }
    ensures effects { OnOk result (effects_at effects.new ≡ effects_of
        (sides_at store.old sides.now)) }
    ensures err { IfErr result (IsElementRefused (symbols_at store.old sig.now.symbols)
        (origin_at store.old source.now) (tried_map (symbols_at store.old sig.now.symbols)
        (origin_at store.old source.now) (sides_at store.old sides.now))
        (sides_at store.old sides.now)) }
    ensures grows { Grows store.old store.new }
{
    let morphism = tried_map(alloc, store, sig, source, types)?;
    check_elements(alloc, store, sig, source, &morphism, effects, sides)
}

/// What the elements of a clone replace, or the first element that is wrong. Beside that only want of memory refuses.
pub fn make_replacement(
    alloc: Global,
    store: &mut Store,
    sig: &Signature,
    source: &ClonedTheory<'_>,
    sides: &[Side<'_>],
) -> Result<Replacement, ElementFault>
    requires signature { IsSignature store.old sig.now.symbols }
    requires decls { All (DeclHeld store.old) source.now.decls.now }
    requires sides { All (SideHeld store.old) sides.now }
    ensures right { OnOk result (SidesTold (symbols_at store.old sig.now.symbols)
        (origin_at store.old source.now) (tried_map (symbols_at store.old sig.now.symbols)
        (origin_at store.old source.now) (sides_at store.old sides.now)) no_effects
        (sides_at store.old sides.now) None) }
    ensures replacement { IfOk result (IsReplacement store.new
        (symbols_at store.old sig.now.symbols) (origin_at store.old source.now)
        (sides_at store.old sides.now)) }
    ensures err { IfErr result (IsElementRefused (symbols_at store.old sig.now.symbols)
        (origin_at store.old source.now) (tried_map (symbols_at store.old sig.now.symbols)
        (origin_at store.old source.now) (sides_at store.old sides.now))
        (sides_at store.old sides.now)) }
    ensures grows { Grows store.old store.new }
{
    let types = types_replaced(alloc, sig, source, sides)?;
    let mut symbols = Vec::new(alloc);
    push_symbols(source, &mut symbols, sides)?;
    let mut effects: Effects = IndexMap::new(alloc);
    find_effects(
        alloc,
        store,
        sig,
        source,
        types.as_slice(),
        &mut effects,
        sides,
    )?;
    Ok(Replacement {
        types,
        symbols,
        effects,
        all_axioms: has_all(sides),
    })
}
