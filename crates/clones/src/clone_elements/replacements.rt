// What the elements of a clone replace, and what axioms become.
// It depends on the sides of elements; the first wrong element and the copies depend on it.
ghost use Rattle.std.specs.Prelude.{◌≡◌, ◌++◌, ℕ, List, length, All, IfOk, OnOk};
ghost use Rattle.tasks.specs.trees.Tree.{Tree};
ghost use Rattle.tasks.specs.trees.Node.{tree_at};
ghost use Rattle.tasks.specs.Task.{symbol_or};
ghost use Rattle.tasks.specs.Meaning.{symbols_at, body_at, declarations_at};
ghost use Rattle.surface.specs.SurfaceDeclarations.{element_of, element_by};
ghost use Rattle.open_types.specs.Drafts.{HoldsType};
ghost use Rattle.clones.specs.Meaning.{map_at, MapHeld};
ghost use Rattle.clones.specs.clone_elements.Left.{abstract_symbol, symbol_at_place};
ghost use Rattle.clones.specs.clone_elements.Replacements.{element_effect, with_side, is_replaced, type_with, type_for, replaced_types, types_replaced, with_symbol, with_type, with_numbers, with_symbols, with_mapped_types, map_of, kept_at, kept};
ghost use Rattle.clones.specs.clone_elements.Origins.{origin_at};
ghost use Rattle.clones.specs.clone_elements.Meaning.{right_at, RightHeld, side_at, sides_at, SideHeld, effects_at, type_pairs_at, symbol_pairs, TypeForHeld};

use crate::SymbolMap;
use crate::clone_elements::left::ClonedTheory;
use crate::clone_elements::rights::Right;
use indexmap::IndexMap;
use std::alloc::{AllocError, Global};
use surface::{ElemNode, ElemTree, PropKind};
use tasks::{Body, Decl, Signature, Store, TermId, made_by};

/// What becomes of a declaration that an element names: it is replaced, or an axiom becomes one of its kinds.
#[derive(Clone, Copy)]
pub enum Effect {
    Replaced,
    Becomes(PropKind),
}

/// An element, the place of the declaration that its left side names, and what is on its right.
#[derive(Clone, Copy)]
pub struct Side<'a> {
    pub element: &'a ElemTree,
    pub left: Option<usize>,
    pub right: Right,
}

/// What becomes of the declarations that elements named, by their places.
pub type Effects = IndexMap<usize, Effect>;

/// A type symbol, and the type that it becomes.
#[derive(Clone, Copy)]
pub struct TypeFor {
    pub symbol: usize,
    pub ty: TermId,
}

/// A symbol, and the one that it becomes.
#[derive(Clone, Copy)]
pub struct SymbolFor {
    pub symbol: usize,
    pub new: usize,
}

// What an element says of the declaration that it names.
fn element_effect(node: &ElemNode) -> Option<Effect>
    ensures { (token : ℕ) → result ≡ element_effect (element_by node.now token) }
{
    match node {
        ElemNode::TypeElem(_, _, _) => Some(Effect::Replaced),
        ElemNode::SymbolElem(_, _, _) => Some(Effect::Replaced),
        ElemNode::PropElem(kind, _) => Some(Effect::Becomes(*kind)),
        ElemNode::AllAxioms => None,
    }
}

/// The effect of an element on the declaration that it names. Only want of memory refuses.
pub fn enter_side(effects: &mut Effects, side: &Side<'_>) -> Result<(), AllocError>
    ensures { OnOk result ((s : List Tree) → effects_at effects.new
        ≡ with_side (side_at s side.now) (effects_at effects.old)) }
{
    let Some(place) = side.left else {
        return Ok(());
    };
    let Some(effect) = element_effect(&side.element.node) else {
        return Ok(());
    };
    effects.insert(place, effect)?;
    Ok(())
}

/// The symbol of an abstract declaration, and 0 for any other.
pub fn symbol_of(decl: &Decl) -> usize
    ensures { (s : List Tree) → result ≡ abstract_symbol (body_at s decl.now.body) }
{
    match decl.body {
        Body::TypeSymbol(symbol) => symbol,
        Body::Symbol(symbol) => symbol,
        _ => 0,
    }
}

/// Whether an element replaces the declaration at a place. It is no where no element names it, or makes another proposition of it.
pub fn is_replaced(effects: &Effects, place: usize) -> bool
    ensures { result ≡ is_replaced (effects_at effects.now place) }
{
    match effects.get(&place) {
        Some(Effect::Replaced) => true,
        Some(Effect::Becomes(_)) => false,
        None => false,
    }
}

/// The number of type variables of a symbol, by its entry; 0 where the signature has none of that number.
pub fn vars_of(sig: &Signature, symbol: usize) -> usize
    ensures { (s : List Tree) → result ≡ (symbol_or (symbols_at s sig.now.symbols) symbol).vars }
{
    match sig.symbols.get(symbol) {
        Some(info) => info.vars,
        None => 0,
    }
}

/// The symbol of the declaration at a place.
pub fn symbol_at_place(decls: &[Decl], place: usize) -> usize
    ensures { (s : List Tree) → result ≡ symbol_at_place (declarations_at s decls.now) place }
{
    match decls.get(place) {
        Some(decl) => symbol_of(decl),
        None => 0,
    }
}

// The type for the type symbol at a place, if an element with so many type variables is right, after others.
fn push_type_at(
    sig: &Signature,
    source: &ClonedTheory<'_>,
    effects: &Effects,
    types: &mut Vec<TypeFor>,
    place: usize,
    vars: usize,
    ty: TermId,
) -> Result<(), AllocError>
    ensures types { OnOk result ((s : List Tree) → type_pairs_at s types.new.items
        ≡ type_pairs_at s types.old.items
        ++ type_with (symbols_at s sig.now.symbols) (origin_at s source.now)
        (effects_at effects.now) place vars (tree_at s ty)) }
    ensures held { OnOk result ((s : List Tree) → All (TypeForHeld s) types.old.items → HoldsType s
        ty → All (TypeForHeld s) types.new.items) }
{
    let symbol = symbol_at_place(source.decls, place);
    if effects.get(&place).is_some() || vars_of(sig, symbol) != vars {
        return Ok(());
    }
    types.push(TypeFor { symbol, ty })?;
    Ok(())
}

// The type for the type symbol of an element, if it is right, after others.
fn push_type(
    sig: &Signature,
    source: &ClonedTheory<'_>,
    effects: &Effects,
    types: &mut Vec<TypeFor>,
    side: &Side<'_>,
) -> Result<(), AllocError>
    ensures types { OnOk result ((s : List Tree) → type_pairs_at s types.new.items ≡ type_pairs_at s
        types.old.items ++ type_for (symbols_at s sig.now.symbols) (origin_at s source.now)
        (effects_at effects.now) (element_of side.now.element.now) side.now.left
        (right_at s side.now.right)) }
    ensures held { OnOk result ((s : List Tree) → All (TypeForHeld s) types.old.items → RightHeld s
        side.now.right → All (TypeForHeld s) types.new.items) }
{
    match &side.element.node {
        ElemNode::TypeElem(_, vars, _) => match side.left {
            Some(place) => match side.right {
                Right::Type(ty) => push_type_at(sig, source, effects, types, place, vars.len(), ty),
                Right::Symbol(_) => Ok(()),
                Right::Nothing => Ok(()),
            },
            None => Ok(()),
        },
        ElemNode::SymbolElem(_, _, _) => Ok(()),
        ElemNode::PropElem(_, _) => Ok(()),
        ElemNode::AllAxioms => Ok(()),
    }
}

// The types for the type symbols of the elements that are right, after others.
fn push_types(
    sig: &Signature,
    source: &ClonedTheory<'_>,
    effects: &mut Effects,
    types: &mut Vec<TypeFor>,
    sides: &[Side<'_>],
) -> Result<(), AllocError>
    ensures types { OnOk result ((s : List Tree) → type_pairs_at s types.new.items ≡ type_pairs_at s
        types.old.items ++ replaced_types (symbols_at s sig.now.symbols) (origin_at s source.now)
        (effects_at effects.old) (sides_at s sides.now)) }
    ensures held { OnOk result ((s : List Tree) → All (TypeForHeld s) types.old.items → All
        (SideHeld s) sides.now → All (TypeForHeld s) types.new.items) }
{
    let Some((first, rest)) = sides.split_first() else {
        return Ok(());
    };
    push_type(sig, source, effects, types, first)?;
    enter_side(effects, first)?;
    push_types(sig, source, effects, types, rest)
}

// The types for the type symbols of the elements that are right, after others, where no element is before them.
fn push_all_types(
    alloc: Global,
    sig: &Signature,
    source: &ClonedTheory<'_>,
    types: &mut Vec<TypeFor>,
    sides: &[Side<'_>],
) -> Result<(), AllocError>
    ensures types { OnOk result ((s : List Tree) → type_pairs_at s types.new.items ≡ type_pairs_at s
        types.old.items ++ types_replaced (symbols_at s sig.now.symbols) (origin_at s source.now)
        (sides_at s sides.now)) }
    ensures held { OnOk result ((s : List Tree) → All (TypeForHeld s) types.old.items → All
        (SideHeld s) sides.now → All (TypeForHeld s) types.new.items) }
{
    let mut effects: Effects = IndexMap::new(alloc);
    push_types(sig, source, &mut effects, types, sides)
}

/// The types for the type symbols of the elements that are right. Only want of memory refuses.
pub fn types_replaced(
    alloc: Global,
    sig: &Signature,
    source: &ClonedTheory<'_>,
    sides: &[Side<'_>],
) -> Result<Vec<TypeFor>, AllocError>
    ensures types { IfOk result (λ v. (s : List Tree) → type_pairs_at s v.items ≡ types_replaced
        (symbols_at s sig.now.symbols) (origin_at s source.now) (sides_at s sides.now)) }
    ensures held { IfOk result (λ v. (s : List Tree) → All (SideHeld s) sides.now → All
        (TypeForHeld s) v.items) }
{
    let mut types = Vec::new(alloc);
    push_all_types(alloc, sig, source, &mut types, sides)?;
    Ok(types)
}

// The symbols of the declaration at a place, unless it is replaced, after others.
fn push_kept(
    alloc: Global,
    source: &ClonedTheory<'_>,
    effects: &Effects,
    out: &mut Vec<usize>,
    place: usize,
) -> Result<(), AllocError>
    ensures { OnOk result ((s : List Tree) → out.new.items ≡ out.old.items ++ kept_at (origin_at s
        source.now) (effects_at effects.now) place) }
{
    if is_replaced(effects, place) {
        return Ok(());
    }
    let Some(decl) = source.decls.get(place) else {
        return Ok(());
    };
    let made = made_by(alloc, &decl.body)?;
    out.extend_from_slice(made.as_slice())
}

/// The symbols of own declarations that aren't replaced, in order. Only want of memory refuses.
pub fn kept_symbols(
    alloc: Global,
    source: &ClonedTheory<'_>,
    effects: &Effects,
) -> Result<Vec<usize>, AllocError>
    ensures { IfOk result (λ v. (s : List Tree) → v.items ≡ kept (origin_at s source.now)
        (effects_at effects.now)) }
{
    let mut out = Vec::new(alloc);
    for place in source.own {
        push_kept(alloc, source, effects, &mut out, *place)?;
    }
    Ok(out)
}

// A symbol becomes another one.
fn put_symbol(morphism: &mut SymbolMap, symbol: usize, new: usize) -> Result<(), AllocError>
    ensures is { OnOk result ((s : List Tree) → map_at s morphism.new
        ≡ with_symbol symbol new (map_at s morphism.old)) }
    ensures held { (s : List Tree) → MapHeld s morphism.old → MapHeld s morphism.new }
{
    morphism.add_symbol(symbol, new)
}

// Each of these symbols becomes the next number. No memory holds so many entries that a number doesn't fit.
fn put_numbers(morphism: &mut SymbolMap, first: usize, others: &[usize]) -> Result<(), AllocError>
    ensures is { OnOk result ((s : List Tree) → map_at s morphism.new
        ≡ with_numbers first others.now (map_at s morphism.old)) }
    ensures held { OnOk result ((s : List Tree) → MapHeld s morphism.old → MapHeld s morphism.new) }
{
    let mut number = first;
    for symbol in others {
        put_symbol(morphism, *symbol, number)?;
        let Some(next) = number.checked_add(1) else {
            return Err(AllocError);
        };
        number = next;
    }
    Ok(())
}

// Symbols become others.
fn put_symbols(morphism: &mut SymbolMap, symbols: &[SymbolFor]) -> Result<(), AllocError>
    ensures is { OnOk result ((s : List Tree) → map_at s morphism.new
        ≡ with_symbols (symbol_pairs symbols.now) (map_at s morphism.old)) }
    ensures held { OnOk result ((s : List Tree) → MapHeld s morphism.old → MapHeld s morphism.new) }
{
    let Some((first, rest)) = symbols.split_first() else {
        return Ok(());
    };
    put_symbol(morphism, first.symbol, first.new)?;
    put_symbols(morphism, rest)
}

// Type symbols become types.
fn put_types(store: &Store, morphism: &mut SymbolMap, types: &[TypeFor]) -> Result<(), AllocError>
    requires { All (TypeForHeld store.now) types.now }
    ensures is { OnOk result (map_at store.now morphism.new
        ≡ with_mapped_types (type_pairs_at store.now types.now) (map_at store.now morphism.old)) }
    ensures held { OnOk result (MapHeld store.now morphism.old → MapHeld store.now morphism.new) }
{
    let Some((first, rest)) = types.split_first() else {
        return Ok(());
    };
    morphism.add_type(store, first.symbol, first.ty)?;
    put_types(store, morphism, rest)
}

// Further symbols become the numbers from one on, symbols others, and type symbols types; of equal ones the last counts.
fn fill_map(
    store: &Store,
    morphism: &mut SymbolMap,
    types: &[TypeFor],
    symbols: &[SymbolFor],
    first: usize,
    others: &[usize],
) -> Result<(), AllocError>
    requires { All (TypeForHeld store.now) types.now }
    ensures is { OnOk result (map_at store.now morphism.new ≡ with_mapped_types
        (type_pairs_at store.now types.now) (with_symbols (symbol_pairs symbols.now)
        (with_numbers first others.now (map_at store.now morphism.old)))) }
    ensures held { OnOk result (MapHeld store.now morphism.old → MapHeld store.now morphism.new) }
{
    put_numbers(morphism, first, others)?;
    put_symbols(morphism, symbols)?;
    put_types(store, morphism, types)
}

/// The map under which type symbols become types, symbols others, and further ones the numbers from one on. Only want of memory
/// refuses.
pub fn map_of(
    alloc: Global,
    store: &Store,
    types: &[TypeFor],
    symbols: &[SymbolFor],
    first: usize,
    others: &[usize],
) -> Result<SymbolMap, AllocError>
    requires { All (TypeForHeld store.now) types.now }
    ensures is { IfOk result (λ m. map_at store.now m ≡ map_of (type_pairs_at store.now types.now)
        (symbol_pairs symbols.now) first others.now) }
    ensures held { IfOk result (MapHeld store.now) }
{
    let mut morphism = SymbolMap::new(alloc);
    fill_map(store, &mut morphism, types, symbols, first, others)?;
    Ok(morphism)
}
