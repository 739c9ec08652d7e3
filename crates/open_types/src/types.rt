// The types that forms stand for.
// They depend on what names mean and on the binding functions; the walk depends on them.
ghost use Rattle.std.specs.Prelude.{◌≡◌, List, None, Some, IfOk, IfSome, length, slice_get, All, option_map};
ghost use Rattle.std.specs.Option.{option_copied};
ghost use Rattle.trees.specs.Node.{tree_at, Holds, Grows};
ghost use Rattle.trees.specs.Sorts.{IsList, int_type};
ghost use Rattle.trees.specs.Binding.{inst_types};
ghost use Rattle.trees.specs.declared.Sort.TheVariants.{Kind};
ghost use Rattle.tasks.specs.Meaning.{trees_at};
ghost use Rattle.tasks.specs.Equations.{cells};
ghost use Rattle.name_resolution.specs.Abstract.{type_expression_of, forms_of};
ghost use Rattle.name_resolution.specs.Where.{place_of};
ghost use Rattle.name_resolution.specs.Naming.{where_at, meaning_at, type_named};
ghost use Rattle.tasks.specs.Task.{SymbolTree};
ghost use Rattle.open_types.specs.Patterns.{result_or_int, entry_of};
ghost use Rattle.open_types.specs.Pieces.{type_at, types_at, applied_meaning, variable_at, tuple_type, group_type};
ghost use Rattle.open_types.specs.Drafts.{HoldsType, SymbolTyped, WorldHeld, MeaningHeld, symbol_got};

use name_resolution::{World, own_name, variable_named};
use scopes::{Seq, Text, TypeName};
use std::alloc::{AllocError, Global};
use surface::{TypeNode, TypeTree};
use tasks::SymbolInfo;
use trees::binders::inst_types;
use trees::store::{Grow, Node, Store, TermId};

/// The list of these types.
pub fn list_of(store: &mut Store, ids: &[TermId]) -> Result<TermId, AllocError>
    requires { All (HoldsType store.old) ids.now }
    ensures held { IfOk result (Holds store.new) }
    ensures list { IfOk result (λ id. IsList Kind (tree_at store.new id)) }
    ensures tree { IfOk result (λ id. tree_at store.new id ≡ cells (trees_at store.old ids.now)) }
    ensures grows { Grows store.old store.new }
{
    match ids.split_first() {
        Some((first, rest)) => {
            let list = list_of(store, rest)?;
            store.add(Node::Cell(*first, list))
        }
        None => store.add(Node::End),
    }
}

/// A type at types.
pub fn put_types(
    alloc: Global,
    store: &mut Store,
    ty: TermId,
    types: &[TermId],
) -> Result<TermId, AllocError>
    requires ty { HoldsType store.old ty }
    requires types { All (HoldsType store.old) types.now }
    ensures held { IfOk result (HoldsType store.new) }
    ensures tree { IfOk result (λ id. tree_at store.new id ≡ inst_types (tree_at store.old ty)
        (trees_at store.old types.now)) }
    ensures grows { Grows store.old store.new }
{
    inst_types(alloc, store, ty, types)
}

// The type that a name with arguments stands for.
fn apply_meaning(
    alloc: Global,
    store: &mut Store,
    meaning: TypeName,
    types: &[TermId],
) -> Result<TermId, AllocError>
    requires meaning { MeaningHeld store.old meaning }
    requires types { All (HoldsType store.old) types.now }
    ensures held { IfOk result (HoldsType store.new) }
    ensures tree { IfOk result (λ id. tree_at store.new id
        ≡ applied_meaning (Some (meaning_at store.old
        meaning)) (trees_at store.old types.now)) }
    ensures grows { Grows store.old store.new }
{
    match meaning {
        TypeName::Entry(symbol) => {
            let list = list_of(store, types)?;
            store.add(Node::TyApp(symbol, list))
        }
        TypeName::Alias { vars: _, ty } => put_types(alloc, store, TermId(ty), types),
    }
}

/// The type `int`.
pub fn int(store: &Store) -> TermId
    ensures held { HoldsType store.now result }
    ensures tree { tree_at store.now result ≡ int_type }
{
    store.int_type()
}

/// The number of an entry; without one it is 0, that of `int`.
pub fn entry_number(symbol: Option<usize>) -> usize
    ensures { (es : List SymbolTree) → entry_of es (Some result) ≡ entry_of es symbol }
{
    match symbol {
        Some(number) => number,
        None => 0,
    }
}

/// An entry by its number, if it is there.
pub fn entry_at(symbols: &[SymbolInfo], number: usize) -> Option<&SymbolInfo>
    ensures { option_copied result ≡ slice_get symbols.now number }
{
    symbols.get(number)
}

/// The type of an entry's result, where it has one, or else `int`.
pub fn result_type(store: &Store, info: Option<&SymbolInfo>) -> TermId
    requires { IfSome (option_copied info) (SymbolTyped store.now) }
    ensures held { HoldsType store.now result }
    ensures tree { tree_at store.now result ≡ result_or_int
        (symbol_got store.now (option_copied info.entry)).result }
{
    let Some(info) = info else {
        return int(store);
    };
    match info.result {
        Some(ty) => ty,
        None => int(store),
    }
}

// The type variable of a name.
fn type_variable(store: &mut Store, world: &World<'_>, name: &[u8]) -> Result<TermId, AllocError>
    ensures held { IfOk result (HoldsType store.new) }
    ensures tree { IfOk result (λ id. tree_at store.new id ≡ variable_at (place_of name.now
        world.now.vars.now)) }
    ensures grows { Grows store.old store.new }
{
    match variable_named(world.vars, name) {
        Some(number) => store.add(Node::TyVar(number)),
        None => Ok(int(store)),
    }
}

// The type that a name after its scopes stands for at types.
fn named_type(
    alloc: Global,
    store: &mut Store,
    world: &World<'_>,
    scopes: &[Text],
    name: &[u8],
    types: &[TermId],
) -> Result<TermId, AllocError>
    requires world { WorldHeld store.old world.now }
    requires types { All (HoldsType store.old) types.now }
    ensures held { IfOk result (HoldsType store.new) }
    ensures tree { IfOk result (λ id. tree_at store.new id ≡ applied_meaning (option_map (meaning_at
        store.old) (type_named world.now.scope.now scopes.now name.now)) (trees_at store.old
        types.now)) }
    ensures grows { Grows store.old store.new }
{
    match world.type_named(scopes, name) {
        Some(meaning) => apply_meaning(alloc, store, meaning, types),
        None => Ok(int(store)),
    }
}

// The type of the tuples of these types.
fn tuple_type(
    alloc: Global,
    store: &mut Store,
    world: &World<'_>,
    types: &[TermId],
) -> Result<TermId, AllocError>
    requires world { WorldHeld store.old world.now }
    requires types { All (HoldsType store.old) types.now }
    ensures held { IfOk result (HoldsType store.new) }
    ensures tree { IfOk result (λ id. tree_at store.new id ≡ tuple_type (where_at store.old
        world.now) (length types.now) (trees_at store.old types.now)) }
    ensures grows { Grows store.old store.new }
{
    let symbol = entry_number(world.tuple_named(types.len()));
    let info = entry_at(world.symbols, symbol);
    let ty = result_type(store, info);
    put_types(alloc, store, ty, types)
}

// The type of what is in parentheses: one type is itself, any other number of them is a tuple.
fn group_type(
    alloc: Global,
    store: &mut Store,
    world: &World<'_>,
    types: &[TermId],
) -> Result<TermId, AllocError>
    requires world { WorldHeld store.old world.now }
    requires types { All (HoldsType store.old) types.now }
    ensures held { IfOk result (HoldsType store.new) }
    ensures tree { IfOk result (λ id. tree_at store.new id ≡ group_type (where_at store.old
        world.now) (trees_at store.old types.now)) }
    ensures grows { Grows store.old store.new }
{
    if types.len() == 1 {
        Ok(types[0])
    } else {
        tuple_type(alloc, store, world, types)
    }
}

/// The type that a form stands for.
#[cycle(type_forming)]
pub fn type_of_form(
    alloc: Global,
    store: &mut Store,
    world: &World<'_>,
    ty: &TypeTree,
) -> Result<TermId, AllocError>
    requires { WorldHeld store.old world.now }
    ensures held { IfOk result (HoldsType store.new) }
    ensures tree { IfOk result (λ id. tree_at store.new id ≡ type_at (where_at store.old world.now)
        (type_expression_of ty.now)) }
    ensures grows { Grows store.old store.new }
{
    match &ty.node {
        TypeNode::Var(name) => type_variable(store, world, name.as_slice()),
        TypeNode::Named(name, args) => {
            let own = own_name(alloc, name.style, name.text.as_slice())?;
            let types = types_of_forms(alloc, store, world, args.as_slice())?;
            let scopes = name.scopes.as_slice();
            named_type(
                alloc,
                store,
                world,
                scopes,
                own.as_slice(),
                types.as_slice(),
            )
        }
        TypeNode::Group(parts) => {
            let types = types_of_forms(alloc, store, world, parts.as_slice())?;
            group_type(alloc, store, world, types.as_slice())
        }
    }
}

#[cycle(type_forming)]
fn types_of_forms(
    alloc: Global,
    store: &mut Store,
    world: &World<'_>,
    list: &[TypeTree],
) -> Result<Vec<TermId>, AllocError>
    requires { WorldHeld store.old world.now }
    ensures held { IfOk result (λ types. All (HoldsType store.new) types.items) }
    ensures trees { IfOk result (λ types. trees_at store.new types.items ≡ types_at (where_at
        store.old world.now) (forms_of list.now)) }
    ensures grows { Grows store.old store.new }
{
    let mut types = Vec::new(alloc);
    for ty in list {
        let id = type_of_form(alloc, store, world, ty)?;
        types.push(id)?;
    }
    Ok(types)
}
