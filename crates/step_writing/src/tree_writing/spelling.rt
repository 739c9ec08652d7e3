// The names of a table, found by a symbol and the types at which it is there.
// They depend on names by their bytes; the words of a node depend on them.
ghost use Rattle.std.specs.Prelude.{◌≡◌, ◌+◌, ◌<◌, List, length, IfOk, OnOk, IfSome, IsSome, slice_get};
ghost use Rattle.std.specs.Option.{option_map};
ghost use Rattle.tasks.specs.trees.Tree.{Tree};
ghost use Rattle.tasks.specs.trees.Node.{tree_at, Holds, Grows};
ghost use Rattle.tasks.specs.Meaning.{trees_at};
ghost use Rattle.step_lines.specs.tree_lines.Named.{cells};
ghost use Rattle.step_lines.specs.tree_lines.Made.{IsNamesOf};
ghost use Rattle.step_writing.specs.tree_writing.Spelt.{Spells, IsSpelt, key_of, AreNoted, AreNamesOf};

use name_tables::{NameEntry, NameOf};
use std::alloc::{AllocError, Global};
use std::collections::HashMap;
use step_lines::tree_lines::{TableNames, meaning_of, type_list};
use tasks::{Grow, Node, Store, TermId};

/// A name of a symbol, and whether the symbol is whole under it.
#[derive(Clone, Copy)]
pub struct Spelling<'a> {
    pub name: &'a [u8],
    pub whole: bool,
}

/// The places of the names of a table, by symbols and by lists of types: that of none for a symbol that is whole.
#[derive(Drop)]
pub struct SymbolNames {
    pub places: HashMap<(usize, usize, usize), usize>,
    pub end: TermId,
}

// What is looked up: the kind of the symbol, its entry, and the number of the list of types.
fn lookup_key(symbol: NameOf, list: TermId) -> (usize, usize, usize)
    ensures { result ≡ key_of symbol list.0 }
{
    match symbol {
        NameOf::Int => (0, 0, list.0),
        NameOf::Rigid(k) => (1, k, list.0),
        NameOf::Symbol(k) => (2, k, list.0),
    }
}

// Adds the name at a place, where it is for something.
fn add_name(
    alloc: Global,
    store: &mut Store,
    names: &TableNames,
    table: &[NameEntry],
    places: &mut HashMap<(usize, usize, usize), usize>,
    place: usize,
) -> Result<(), AllocError>
    requires names { IsNamesOf names.now table.now }
    requires within { place < length table.now }
    requires noted { AreNoted store.old table.now places.old place }
    ensures noted { OnOk result (AreNoted store.new table.now places.new (place + 1)) }
    ensures grows { Grows store.old store.new }
{
    let Some(named) = meaning_of(alloc, store, names, table, table[place].name.as_slice())? else {
        return Ok(());
    };
    let list = type_list(store, &named.types)?;
    places.insert(lookup_key(named.symbol, list), place)?;
    Ok(())
}

impl SymbolNames {
    /// The names of a table. Only want of memory refuses.
    pub fn new(
        alloc: Global,
        store: &mut Store,
        names: &TableNames,
        table: &[NameEntry],
    ) -> Result<SymbolNames, AllocError>
        requires { IsNamesOf names.now table.now }
        ensures names { IfOk result (AreNamesOf store.new table.now) }
        ensures grows { Grows store.old store.new }
    {
        let end = store.add(Node::End)?;
        let mut places = HashMap::new(alloc);
        for place in 0..table.len() {
            add_name(alloc, store, names, table, &mut places, place)?;
        }
        Ok(SymbolNames { places, end })
    }

    /// A name of a symbol: one under which it is whole, else one at the types of a list.
    pub fn find_spelling<'a>(
        &self,
        store: &Store,
        table: &'a [NameEntry],
        symbol: NameOf,
        list: TermId,
    ) -> Option<Spelling<'a>>
        requires names { AreNamesOf store.now table.now self.now }
        requires held { Holds store.now list }
        ensures spells { IfSome result (λ w. (types : List Tree)
            → tree_at store.now list ≡ cells types
            → Spells table.now symbol types w.name.now w.whole) }
        ensures found { (types : List Tree) → tree_at store.now list ≡ cells types
            → IsSpelt table.now symbol types → IsSome result }
    {
        store.laws();
        if let Some(place) = self.places.get(&lookup_key(symbol, self.end)) {
            return spelling_at(table, *place, true);
        }
        match self.places.get(&lookup_key(symbol, list)) {
            Some(place) => spelling_at(table, *place, false),
            None => None,
        }
    }
}

// The name at a place.
fn spelling_at(table: &[NameEntry], place: usize, whole: bool) -> Option<Spelling<'_>>
    ensures name { option_map (λ w. w.name.now) result
        ≡ option_map (λ e. e.name) (slice_get table.now place) }
    ensures whole { IfSome result (λ w. w.whole ≡ whole) }
{
    match table.get(place) {
        Some(entry) => Some(Spelling {
            name: entry.name.as_slice(),
            whole,
        }),
        None => None,
    }
}
