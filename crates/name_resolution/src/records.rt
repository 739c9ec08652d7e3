// The fields of records, by their names: the record to which they belong, their places there, and what is wrong with them.
// They depend on what names mean and on operators; the names of patterns and of expressions depend on them.
ghost use Rattle.std.specs.Prelude.{◌≡◌, List, [], ◌∷◌, IfOk, OnOk, MatchOption, length, get_or, slice_get, slice_set, true, false, not, ◌&&◌};
ghost use Rattle.std.specs.Option.{option_copied};
ghost use Rattle.tasks.specs.trees.Tree.{Tree};
ghost use Rattle.tasks.specs.Task.{symbol_or};
ghost use Rattle.tasks.specs.Meaning.{symbol_at, symbols_at};
ghost use Rattle.name_resolution.specs.Abstract.{field_name_of};
ghost use Rattle.name_resolution.specs.Records.{is_later_projection, constructor_before, is_record, is_field_of, is_projection, place_in, field_place, or_first, entry_of_field, record_named, places_named, none_named, named_after, each_named};
ghost use Rattle.name_resolution.specs.Faults.{place_fault, entry_named_fault, fields_fault, record_fault};
ghost use Rattle.name_resolution.specs.Naming.{Tells, fields_at, where_at, symbol_named};

use crate::NamingFault;
use crate::operators::own_name;
use crate::triggers::is_projection;
use crate::type_names::refuse_if;
use crate::world::World;
use std::alloc::{AllocError, Global};
use surface::{FieldPat, FieldValue, QName};
use tasks::{Seq, SymbolInfo, is_constructor_kind};
use tokens_why::is_lower_own;

/// Fields of a record with their patterns, or with their values.
#[derive(Clone, Copy)]
pub enum Fields<'a> {
    Patterns(&'a [FieldPat]),
    Values(&'a [FieldValue]),
}

/// The name of the first field, and the other fields.
pub fn split_fields(fields: Fields<'_>) -> Option<(&QName, Fields<'_>)>
    ensures { MatchOption result (fields_at fields.entry ≡ []) (λ p. fields_at fields.entry
        ≡ field_name_of p.0.now ∷ fields_at p.1) }
{
    match fields {
        Fields::Patterns(list) => {
            let (first, rest) = list.split_first()?;
            Some((&first.name, Fields::Patterns(rest)))
        }
        Fields::Values(list) => {
            let (first, rest) = list.split_first()?;
            Some((&first.name, Fields::Values(rest)))
        }
    }
}

// Whether an entry is a projection.
fn is_projection_at(symbols: &[SymbolInfo], number: usize) -> bool
    ensures { (s : List Tree) → result
        ≡ is_projection (symbol_or (symbols_at s symbols.now) number).kind }
{
    match symbols.get(number) {
        Some(info) => is_projection(info.kind),
        None => false,
    }
}

// Whether an entry after the first is a projection.
fn is_later_projection(symbols: &[SymbolInfo], number: usize) -> bool
    ensures { (s : List Tree) → result ≡ is_later_projection (symbols_at s symbols.now) number }
{
    number > 0 && is_projection_at(symbols, number)
}

// The entry at or before a number that is no projection.
fn constructor_before(symbols: &[SymbolInfo], number: usize) -> usize
    ensures { (s : List Tree) → result ≡ constructor_before (symbols_at s symbols.now) number }
{
    let mut at = number;
    while is_later_projection(symbols, at) {
        at -= 1;
    }
    at
}

// Whether an entry is the constructor of a record.
fn is_record(info: &SymbolInfo) -> bool
    ensures { (s : List Tree) → result ≡ is_record (symbol_at s info.now) }
{
    is_constructor_kind(info.kind) && is_lower_own(info.name.as_slice())
}

// An entry by its number, if it is there.
fn info_at(symbols: &[SymbolInfo], number: usize) -> Option<&SymbolInfo>
    ensures { option_copied result ≡ slice_get symbols.now number }
{
    symbols.get(number)
}

fn is_record_at(symbols: &[SymbolInfo], number: usize) -> bool
    ensures { (s : List Tree) → result ≡ is_record (symbol_or (symbols_at s symbols.now) number) }
{
    match info_at(symbols, number) {
        Some(info) => is_record(info),
        None => false,
    }
}

// Whether an entry is that of a field of a record.
fn is_field_of(info: &SymbolInfo, owner: usize, number: usize) -> bool
    ensures { (s : List Tree) → result ≡ is_field_of (symbol_at s info.now) owner number }
{
    if !is_record(info) {
        return false;
    }
    if number <= owner {
        return false;
    }
    number - owner <= info.args.len()
}

// The place of an entry among the fields of a record.
fn place_in(symbols: &[SymbolInfo], owner: usize, number: usize) -> Option<usize>
    ensures { (s : List Tree) → result ≡ place_in (symbols_at s symbols.now) owner number }
{
    let info = symbols.get(owner)?;
    if is_field_of(info, owner, number) {
        Some(number - owner - 1)
    } else {
        None
    }
}

// The entry for which the name of a field stands, by the scopes alone.
fn entry_of_field(
    alloc: Global,
    world: &World<'_>,
    name: &QName,
) -> Result<Option<usize>, AllocError>
    ensures { IfOk result (λ found. found ≡ entry_of_field
        (symbol_named world.now.scope.now) (field_name_of name.now)) }
{
    let own = own_name(alloc, name.style, name.text.as_slice())?;
    Ok(world.symbol_named(name.scopes.as_slice(), own.as_slice()))
}

/// The record to which the first of some fields belongs, by its constructor's entry.
pub fn record_named(
    alloc: Global,
    world: &World<'_>,
    fields: Fields<'_>,
) -> Result<usize, AllocError>
    ensures { IfOk result (λ found. (s : List Tree) → found
        ≡ record_named (symbols_at s world.now.symbols.now)
        (symbol_named world.now.scope.now) (fields_at fields.entry)) }
{
    let Some((first, _)) = split_fields(fields) else {
        return Ok(0);
    };
    match entry_of_field(alloc, world, first)? {
        Some(number) => Ok(constructor_before(world.symbols, number)),
        None => Ok(0),
    }
}

/// The place of a field in a record; a name that is none of its fields has the first.
pub fn place_named(
    alloc: Global,
    world: &World<'_>,
    owner: usize,
    name: &QName,
) -> Result<usize, AllocError>
    ensures { IfOk result (λ place. (s : List Tree) → place ≡ or_first (field_place
        (symbols_at s world.now.symbols.now) owner (entry_of_field
        (symbol_named world.now.scope.now) (field_name_of name.now)))) }
{
    let Some(number) = entry_of_field(alloc, world, name)? else {
        return Ok(0);
    };
    match place_in(world.symbols, owner, number) {
        Some(place) => Ok(place),
        None => Ok(0),
    }
}

/// The places of fields in a record; a name that is none of its fields has the first.
pub fn places_named(
    alloc: Global,
    world: &World<'_>,
    owner: usize,
    fields: Fields<'_>,
) -> Result<Vec<usize>, AllocError>
    ensures { IfOk result (λ places. (s : List Tree) → places.items
        ≡ places_named (symbols_at s world.now.symbols.now)
        (symbol_named world.now.scope.now) owner (fields_at fields.entry)) }
{
    let mut places = Vec::new(alloc);
    let mut left = fields;
    while let Some((name, rest)) = split_fields(left) {
        let place = place_named(alloc, world, owner, name)?;
        places.push(place)?;
        left = rest;
    }
    Ok(places)
}

// No field of a record is named yet.
fn none_named(alloc: Global, world: &World<'_>, owner: usize) -> Result<Seq<bool>, AllocError>
    ensures { IfOk result (λ named. (s : List Tree) → named
        ≡ none_named (symbol_or (symbols_at s world.now.symbols.now) owner)) }
{
    let count = match world.symbols.get(owner) {
        Some(info) => info.args.len(),
        None => 0,
    };
    let mut named = Seq::new(alloc);
    for _field in 0..count {
        named.push(false)?;
    }
    Ok(named)
}

// Whether each field is named.
fn each_named(named: &[bool]) -> bool
    ensures { result ≡ each_named named.now }
{
    for it in named {
        if !*it {
            return false;
        }
    }
    true
}

// Whether each field is to be named and one isn't.
fn is_missing(whole: bool, named: &[bool]) -> bool
    ensures { result ≡ (whole && not (each_named named.now)) }
{
    whole && !each_named(named)
}

// Whether the field at a place is named.
fn is_named_at(named: &[bool], place: usize) -> bool
    ensures { result ≡ get_or named.now place false }
{
    match named.get(place) {
        Some(it) => *it,
        None => false,
    }
}

// The field at a place is named.
fn set_named(named: &mut Seq<bool>, place: usize)
    ensures { named.new ≡ slice_set named.old place true }
{
    if place < named.len() {
        named.set(place, true);
    }
}

// A field with its place in a record, where it is named the first time.
fn check_place(named: &mut Seq<bool>, token: usize, place: Option<usize>) -> Result<(), NamingFault>
    ensures fault { Tells result (place_fault named.old token place) }
    ensures named { OnOk result (named.new ≡ slice_set named.old (or_first place) true) }
{
    let Some(place) = place else {
        return Err(NamingFault::WrongKind { token });
    };
    let is_named = is_named_at(named.as_slice(), place);
    refuse_if(is_named, NamingFault::Duplicate { token })?;
    set_named(named, place);
    Ok(())
}

// A field of a record, where it is named the first time.
fn check_named(
    alloc: Global,
    world: &World<'_>,
    owner: usize,
    name: &QName,
    named: &mut Seq<bool>,
) -> Result<(), NamingFault>
    ensures fault { (s : List Tree) → Tells result (entry_named_fault
        (symbols_at s world.now.symbols.now) owner named.old name.now.at (entry_of_field
        (symbol_named world.now.scope.now) (field_name_of name.now))) }
    ensures named { OnOk result ((s : List Tree) → named.new ≡ slice_set named.old (or_first
        (field_place (symbols_at s world.now.symbols.now) owner (entry_of_field
        (symbol_named world.now.scope.now) (field_name_of name.now)))) true) }
{
    let token = name.at;
    let Some(number) = entry_of_field(alloc, world, name)? else {
        return Err(NamingFault::Unknown { token });
    };
    let place = place_in(world.symbols, owner, number);
    check_place(named, token, place)
}

// Fields of a record one after another.
fn check_all_named(
    alloc: Global,
    world: &World<'_>,
    owner: usize,
    fields: Fields<'_>,
    named: &mut Seq<bool>,
) -> Result<(), NamingFault>
    ensures fault { (s : List Tree) → Tells result (fields_fault
        (symbols_at s world.now.symbols.now) (symbol_named world.now.scope.now) owner named.old
        (fields_at fields.entry)) }
    ensures named { OnOk result ((s : List Tree) → named.new ≡ named_after (places_named
        (symbols_at s world.now.symbols.now) (symbol_named world.now.scope.now) owner
        (fields_at fields.entry)) named.old) }
{
    let mut left = fields;
    while let Some((name, rest)) = split_fields(left) {
        check_named(alloc, world, owner, name, named)?;
        left = rest;
    }
    Ok(())
}

/// The first fault of the names of a record's fields at a token; with `whole` each field is to be named.
pub fn check_record(
    alloc: Global,
    world: &World<'_>,
    whole: bool,
    token: usize,
    fields: Fields<'_>,
) -> Result<(), NamingFault>
    ensures { (s : List Tree) → Tells result (record_fault (where_at s world.now) whole token
        (length (fields_at fields.entry)) (fields_at fields.entry)) }
{
    let owner = record_named(alloc, world, fields)?;
    let mut named = none_named(alloc, world, owner)?;
    check_all_named(alloc, world, owner, fields, &mut named)?;
    let is_other = !is_record_at(world.symbols, owner);
    refuse_if(is_other, NamingFault::WrongKind { token })?;
    let missing = is_missing(whole, named.as_slice());
    refuse_if(missing, NamingFault::Arity { token })
}
