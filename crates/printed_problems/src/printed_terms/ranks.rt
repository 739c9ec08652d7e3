// The sorts of the arguments and results of symbols, by the types of their entries in the signature.
ghost use Rattle.std.specs.Prelude.{◌≡◌, ◌∷◌, ◌++◌, [], length, get_or, All, IfSome, IfOk, OnOk};
ghost use Rattle.std.specs.Option.{option_map};
ghost use Rattle.std.specs.List.{flat_map};
ghost use Rattle.trees.specs.Node.{tree_at, Holds};
ghost use Rattle.tasks.specs.Meaning.{trees_at, symbols_at, SymbolHeld};
ghost use Rattle.printed_problems.specs.printed_terms.Texts.{each_after, joined};
ghost use Rattle.printed_problems.specs.printed_terms.Ranks.{entry_number, is_for, place_for, type_places, rank_by, rank_of, sorts_at};
ghost use Rattle.printed_problems.specs.printed_terms.Meaning.{printing, CanPrint, Appends};

use crate::printed_terms::printer::TermPrinter;
use crate::printed_terms::sorts::push_sort_at;
use name_tables::{NameEntry, NameOf};
use std::alloc::{AllocError, Global};
use tasks::{Seq, SymbolInfo};
use trees::store::{Node, Store, TermId};

/// The places of the types of a symbol's arguments, and that of its result's, which a predicate has none of.
#[derive(Drop)]
pub struct Rank {
    pub args: Seq<usize>,
    pub result: Option<usize>,
}

// The entry in the signature of what a name stands for.
fn entry_symbol(name: NameOf) -> usize
    ensures { result ≡ entry_number name }
{
    match name {
        NameOf::Int => 0,
        NameOf::Rigid(symbol) => symbol,
        NameOf::Symbol(symbol) => symbol,
    }
}

// Whether a name stands for a symbol at the types of these places.
fn is_for(entry: &NameEntry, symbol: usize, types: &[usize]) -> bool
    ensures { result ≡ is_for symbol types.now entry.now }
{
    entry_symbol(entry.symbol) == symbol && entry.types.as_slice() == types
}

// The place of the name of a symbol at the types of these places, or the number of names.
fn place_for(names: &[NameEntry], symbol: usize, types: &[usize]) -> usize
    ensures { result ≡ place_for names.now symbol types.now }
{
    for place in 0..names.len() {
        if is_for(&names[place], symbol, types) {
            return place;
        }
    }
    names.len()
}

// The place of the type for which a type variable stands, or the number of names.
fn place_of_variable(names: &[NameEntry], types: &[usize], number: usize) -> usize
    ensures { result ≡ get_or types.now number (length names.now) }
{
    match types.get(number) {
        Some(place) => *place,
        None => names.len(),
    }
}

fn push_place(places: &mut Vec<usize>, place: usize) -> Result<(), AllocError>
    ensures { OnOk result (places.new.items ≡ places.old.items ++ place ∷ []) }
{
    places.push(place)?;
    Ok(())
}

// Appends the places of a type, or of the members of a list of types, whose variables stand for types at places.
fn push_places(
    alloc: Global,
    store: &Store,
    names: &[NameEntry],
    types: &[usize],
    ty: TermId,
    places: &mut Vec<usize>,
) -> Result<(), AllocError>
    requires { Holds store.now ty }
    ensures { OnOk result (places.new.items ≡ places.old.items ++ type_places names.now types.now
        (tree_at store.now ty)) }
{
    match store.node(ty) {
        Node::TyVar(number) => push_place(places, place_of_variable(names, types, number)),
        Node::TyRigid(symbol) => push_place(places, place_for(names, symbol, &[])),
        Node::TyApp(symbol, args) => {
            let mut inner = Vec::new(alloc);
            push_places(alloc, store, names, types, args, &mut inner)?;
            push_place(places, place_for(names, symbol, inner.as_slice()))
        }
        Node::Cell(first, rest) => {
            push_places(alloc, store, names, types, first, places)?;
            push_places(alloc, store, names, types, rest, places)
        }
        _ => Ok(()),
    }
}

// The places of types of the signature, whose variables stand for the types at these places.
fn type_places(
    alloc: Global,
    store: &Store,
    names: &[NameEntry],
    types: &[usize],
    sorts: &[TermId],
) -> Result<Vec<usize>, AllocError>
    requires { All (Holds store.now) sorts.now }
    ensures { IfOk result (λ v. v.items ≡ flat_map (type_places names.now types.now) (trees_at
        store.now sorts.now)) }
{
    let mut places = Vec::new(alloc);
    for sort in sorts {
        push_places(alloc, store, names, types, *sort, &mut places)?;
    }
    Ok(places)
}

// The place of a type of the signature, or the number of names.
fn place_of_type(
    alloc: Global,
    store: &Store,
    names: &[NameEntry],
    types: &[usize],
    ty: TermId,
) -> Result<usize, AllocError>
    requires { Holds store.now ty }
    ensures { IfOk result (λ p. p ≡ get_or (type_places names.now types.now (tree_at store.now ty))
        0 (length names.now)) }
{
    let mut places = Vec::new(alloc);
    push_places(alloc, store, names, types, ty, &mut places)?;
    match places.first() {
        Some(place) => Ok(*place),
        None => Ok(names.len()),
    }
}

// The rank of a symbol with these types in the signature, at the types of these places.
fn rank_by(
    alloc: Global,
    store: &Store,
    names: &[NameEntry],
    types: &[usize],
    args: &[TermId],
    result_type: Option<TermId>,
) -> Result<Rank, AllocError>
    requires args_held { All (Holds store.now) args.now }
    requires result_held { IfSome result_type (Holds store.now) }
    ensures { IfOk result (λ r. r ≡ rank_by names.now types.now (trees_at store.now args.now)
        (option_map (tree_at store.now) result_type)) }
{
    let places = type_places(alloc, store, names, types, args)?;
    let place = match result_type {
        Some(ty) => Some(place_of_type(alloc, store, names, types, ty)?),
        None => None,
    };
    Ok(Rank {
        args: Seq::from_vec(places),
        result: place,
    })
}

/// The rank of what a name of a table stands for, under the entries of a signature. Only want of memory refuses.
pub fn rank_of(
    alloc: Global,
    store: &Store,
    names: &[NameEntry],
    symbols: &[SymbolInfo],
    entry: &NameEntry,
) -> Result<Rank, AllocError>
    requires { All (SymbolHeld store.now) symbols.now }
    ensures { IfOk result (λ r. r ≡ rank_of names.now (symbols_at store.now symbols.now)
        entry.now) }
{
    let types = entry.types.as_slice();
    let symbol = entry_symbol(entry.symbol);
    if symbol >= symbols.len() {
        return rank_by(alloc, store, names, types, &[], None);
    }
    let info = &symbols[symbol];
    rank_by(
        alloc,
        store,
        names,
        types,
        info.args.as_slice(),
        info.result,
    )
}

// Appends the sorts at places, each after a text.
fn push_each_sort(
    c: &TermPrinter<'_>,
    out: &mut Vec<u8>,
    separator: &[u8],
    places: &[usize],
) -> Result<(), AllocError>
    requires { CanPrint c.now }
    ensures { OnOk result (Appends out.old.items (each_after separator.now (sorts_at
        (printing c.now) places.now)) out.new.items) }
{
    for place in places {
        out.extend_from_slice(separator)?;
        push_sort_at(c, out, *place)?;
    }
    Ok(())
}

/// Appends the sorts at places, with a text between any two.
pub fn push_sorts(
    c: &TermPrinter<'_>,
    out: &mut Vec<u8>,
    separator: &[u8],
    places: &[usize],
) -> Result<(), AllocError>
    requires { CanPrint c.now }
    ensures { OnOk result (Appends out.old.items (joined separator.now (sorts_at
        (printing c.now) places.now)) out.new.items) }
{
    match places.split_first() {
        Some((first, rest)) => {
            push_sort_at(c, out, *first)?;
            push_each_sort(c, out, separator, rest)
        }
        None => Ok(()),
    }
}
