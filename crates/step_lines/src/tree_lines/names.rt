// What the names of a table stand for, found by name.
// They depend on the name tables and on nodes; what a line makes depends on them.
ghost use Rattle.std.specs.Prelude.{◌≡◌, Some, length, slice_get, IfOk, IfSome};
ghost use Rattle.std.specs.Option.{option_map};
ghost use Rattle.trees.specs.Tree.{One, HTyApp};
ghost use Rattle.trees.specs.Node.{tree_at, Grows};
ghost use Rattle.trees.specs.binders.Visits.{HoldTypes};
ghost use Rattle.tasks.specs.Meaning.{trees_at};
ghost use Rattle.name_tables.specs.declared.name_entries.names.NameOf.TheVariants.{Rigid};
ghost use Rattle.step_lines.specs.tree_lines.Named.{cells, entry_type, entry_types, entry_named, meaning, named_type_at};
ghost use Rattle.step_lines.specs.tree_lines.Made.{IsNamesOf, IsTypeHeld, named_meaning};

use crate::tree_lines::nodes::type_list;
use name_tables::name_entries::{NameEntry, NameOf};
use std::alloc::{AllocError, Global};
use std::collections::HashMap;
use trees::store::{Grow, Node, Store, TermId};

/// What a name stands for: a symbol, and the types at which it is there; none where it is whole.
#[derive(Drop)]
pub struct Named {
    pub symbol: NameOf,
    pub types: Vec<TermId>,
}

/// The names of a table: the place of the first entry with each name.
#[derive(Drop)]
pub struct TableNames {
    pub places: HashMap<Vec<u8>, usize>,
}

impl TableNames {
    /// The names of a table. Only want of memory refuses.
    pub fn new(alloc: Global, table: &[NameEntry]) -> Result<TableNames, AllocError>
        ensures { IfOk result (λ n. IsNamesOf n table.now) }
    {
        let mut places = HashMap::new(alloc);
        let mut i = table.len();
        while i > 0 {
            i -= 1;
            let name = Vec::from_slice(alloc, table[i].name.as_slice())?;
            places.insert(name, i)?;
        }
        Ok(TableNames { places })
    }

    /// The first entry with a name.
    pub fn find_entry<'a>(&self, table: &'a [NameEntry], name: &[u8]) -> Option<&'a NameEntry>
        requires { IsNamesOf self.now table.now }
        ensures { option_map (λ e. e.now) result ≡ entry_named table.now name.now }
    {
        match self.places.get(name) {
            Some(place) => table.get(*place),
            None => None,
        }
    }
}

// The type of a type symbol at types.
fn applied_type(
    store: &mut Store,
    symbol: usize,
    types: &[TermId],
) -> Result<Option<TermId>, AllocError>
    requires { HoldTypes store.old types.now }
    ensures tree { IfOk result (λ o. option_map (tree_at store.new) o
        ≡ Some (One (HTyApp symbol) (cells (trees_at store.old types.now)))) }
    ensures held { IfOk result (λ o. IfSome o (IsTypeHeld store.new)) }
    ensures grows { Grows store.old store.new }
{
    let list = type_list(store, types)?;
    Ok(Some(store.add(Node::TyApp(symbol, list))?))
}

// A type variable of a goal, which takes no types.
fn rigid_type(
    store: &mut Store,
    symbol: usize,
    types: &[TermId],
) -> Result<Option<TermId>, AllocError>
    ensures tree { IfOk result (λ o. option_map (tree_at store.new) o
        ≡ named_type_at (Rigid symbol) (trees_at store.old types.now)) }
    ensures held { IfOk result (λ o. IfSome o (IsTypeHeld store.new)) }
    ensures grows { Grows store.old store.new }
{
    match types {
        [] => Ok(Some(store.add(Node::TyRigid(symbol))?)),
        _ => Ok(None),
    }
}

/// The type of a symbol at types.
pub(crate) fn type_of_symbol(
    store: &mut Store,
    symbol: NameOf,
    types: &[TermId],
) -> Result<Option<TermId>, AllocError>
    requires { HoldTypes store.old types.now }
    ensures tree { IfOk result (λ o. option_map (tree_at store.new) o
        ≡ named_type_at symbol (trees_at store.old types.now)) }
    ensures held { IfOk result (λ o. IfSome o (IsTypeHeld store.new)) }
    ensures grows { Grows store.old store.new }
{
    match symbol {
        NameOf::Int => applied_type(store, 0, types),
        NameOf::Symbol(k) => applied_type(store, k, types),
        NameOf::Rigid(k) => rigid_type(store, k, types),
    }
}

// The entry at a place.
fn entry_at(table: &[NameEntry], place: usize) -> Option<&NameEntry>
    ensures { option_map (λ e. e.now) result ≡ slice_get table.now place }
{
    table.get(place)
}

// The type that the entry at a place stands for, by so many entries one under another at most.
fn type_of_entry(
    alloc: Global,
    store: &mut Store,
    table: &[NameEntry],
    most: usize,
    place: usize,
) -> Result<Option<TermId>, AllocError>
    ensures tree { IfOk result (λ o. option_map (tree_at store.new) o
        ≡ entry_type most table.now place) }
    ensures held { IfOk result (λ o. IfSome o (IsTypeHeld store.new)) }
    ensures grows { Grows store.old store.new }
{
    if most == 0 {
        return Ok(None);
    }
    let Some(entry) = entry_at(table, place) else {
        return Ok(None);
    };
    let mut types = Vec::new(alloc);
    for under in entry.types.as_slice() {
        match type_of_entry(alloc, store, table, most - 1, *under)? {
            Some(ty) => types.push(ty)?,
            None => return Ok(None),
        }
    }
    type_of_symbol(store, entry.symbol, &types)
}

// The types that the entries at places stand for.
fn types_of_entries(
    alloc: Global,
    store: &mut Store,
    table: &[NameEntry],
    places: &[usize],
) -> Result<Option<Vec<TermId>>, AllocError>
    ensures trees { IfOk result (λ o. option_map (λ v. trees_at store.new v.items) o
        ≡ entry_types table.now places.now) }
    ensures held { IfOk result (λ o. IfSome o (λ v. HoldTypes store.new v.items)) }
    ensures grows { Grows store.old store.new }
{
    let mut types = Vec::new(alloc);
    for place in places {
        match type_of_entry(alloc, store, table, table.len(), *place)? {
            Some(ty) => types.push(ty)?,
            None => return Ok(None),
        }
    }
    Ok(Some(types))
}

/// What a name of a table stands for; none where no entry has it, or one of its types is none. Only want of memory refuses.
pub fn meaning_of(
    alloc: Global,
    store: &mut Store,
    names: &TableNames,
    table: &[NameEntry],
    name: &[u8],
) -> Result<Option<Named>, AllocError>
    requires { IsNamesOf names.now table.now }
    ensures meaning { IfOk result (λ o. option_map (named_meaning store.new) o
        ≡ meaning table.now name.now) }
    ensures held { IfOk result (λ o. IfSome o (λ n. HoldTypes store.new n.types.items)) }
    ensures grows { Grows store.old store.new }
{
    let Some(entry) = names.find_entry(table, name) else {
        return Ok(None);
    };
    match types_of_entries(alloc, store, table, entry.types.as_slice())? {
        Some(types) => Ok(Some(Named {
            symbol: entry.symbol,
            types,
        })),
        None => Ok(None),
    }
}
