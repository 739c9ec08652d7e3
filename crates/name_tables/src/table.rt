// The entries of a name table.
// They depend on what is in a table; the problems and the step files depend on them.
ghost use Rattle.std.specs.Prelude.{◌≡◌, ◌++◌, map, IfOk, OnOk};
ghost use Rattle.trees.specs.Node.{tree_at, Holds};
ghost use Rattle.tasks.specs.Typing.{members};
ghost use Rattle.tasks.specs.Meaning.{task_at, TaskHeld};
ghost use Rattle.name_tables.specs.Named.{IsNameOf};
ghost use Rattle.name_tables.specs.Tables.{is_in, thing_of, occurrence_place, named_thing, entry_at_place, names_of, problem_names, task_names, NamesDiffer};
ghost use Rattle.name_tables.specs.Seen.{occurrence_at, seen_occurrences, KeyHeld, KeysHeld};

use crate::name_entries::{NameEntry, NameOf};
use crate::spelling::name_at_place;
use crate::things::Things;
use crate::walk::Key;
use std::alloc::{AllocError, Global};
use tasks::{Seq, Task};
use trees::store::Store;
use trees::{Node, TermId};

// A symbol's name with those of its scopes.
fn symbol_name(task: &Task, symbol: usize) -> &[u8]
    ensures { IsNameOf task.now symbol result.now }
{
    let symbols = task.sig.symbols.as_slice();
    if symbol < symbols.len() {
        symbols[symbol].name.as_slice()
    } else {
        b"int"
    }
}

fn is_in(symbol: usize, symbols: &[usize]) -> bool
    ensures { result ≡ is_in symbol symbols.now }
{
    symbols.iter().any(|k| *k == symbol)
}

// What a symbol of a table is.
fn name_of(rigid: &[usize], symbol: usize) -> NameOf
    ensures { result ≡ named_thing rigid.now symbol }
{
    if symbol == 0 {
        return NameOf::Int;
    }
    if is_in(symbol, rigid) {
        NameOf::Rigid(symbol)
    } else {
        NameOf::Symbol(symbol)
    }
}

// Appends the places of the members of a list of types.
fn push_places(
    store: &Store,
    things: &Things,
    types: TermId,
    places: &mut Vec<usize>,
) -> Result<(), AllocError>
    requires things_held { KeysHeld store.now things.now }
    requires held { Holds store.now types }
    ensures { OnOk result (places.new.items ≡ places.old.items
        ++ map (λ type. occurrence_place (seen_occurrences store.now things.now) (thing_of type))
        (members (tree_at
        store.now types))) }
{
    match store.node(types) {
        Node::Cell(first, rest) => {
            places.push(things.place_of_type(store, first))?;
            push_places(store, things, rest, places)
        }
        _ => Ok(()),
    }
}

// The entry of what is at a place.
fn entry_of(
    alloc: Global,
    store: &Store,
    task: &Task,
    things: &Things,
    place: usize,
    key: Key,
) -> Result<NameEntry, AllocError>
    requires things_held { KeysHeld store.now things.now }
    requires held { KeyHeld store.now key }
    ensures { IfOk result (λ e. e ≡ entry_at_place (task_at store.now task.now)
        (seen_occurrences store.now
        things.now) place (occurrence_at store.now key)) }
{
    let mut places = Vec::new(alloc);
    push_places(store, things, TermId(key.1), &mut places)?;
    let name = name_at_place(alloc, symbol_name(task, key.0), place)?;
    Ok(NameEntry {
        name,
        symbol: name_of(task.rigid.as_slice(), key.0),
        types: Seq::from_vec(places),
    })
}

/// The names of what is in a table, in order. They differ. Only want of memory refuses.
pub fn names_of(
    alloc: Global,
    store: &Store,
    task: &Task,
    things: &Things,
) -> Result<Vec<NameEntry>, AllocError>
    requires { KeysHeld store.now things.now }
    ensures names { IfOk result (λ v. v.items
        ≡ names_of (task_at store.now task.now) (seen_occurrences
        store.now things.now)) }
    ensures differ { IfOk result (λ v. NamesDiffer v.items) }
{
    let mut names = Vec::new(alloc);
    for key in things.as_slice() {
        let place = names.len();
        names.push(entry_of(alloc, store, task, things, place, *key)?)?;
    }
    // There are no more of them than the greatest number.
    let _count = names.len();
    Ok(names)
}

/// The name table of a task's problem: `int`, the goal's type variables that occur, then each symbol that a declaration makes, in
/// the order of the declarations, at the ground types at which it occurs. The names differ. Only want of memory refuses.
pub fn problem_names(
    alloc: Global,
    store: &Store,
    task: &Task,
) -> Result<Vec<NameEntry>, AllocError>
    requires { TaskHeld store.now task.now }
    ensures names { IfOk result (λ v. v.items ≡ problem_names (task_at store.now task.now)) }
    ensures differ { IfOk result (λ v. NamesDiffer v.items) }
{
    let things = Things::of_problem(alloc, store, task)?;
    names_of(alloc, store, task, &things)
}

/// The name table of a task: `int`, the goal's type variables by first appearance, then each symbol that a declaration makes, in
/// the order of the declarations. Each is whole, and the names differ. Only want of memory refuses.
pub fn task_names(alloc: Global, store: &Store, task: &Task) -> Result<Vec<NameEntry>, AllocError>
    ensures names { IfOk result (λ v. v.items ≡ task_names (task_at store.now task.now)) }
    ensures differ { IfOk result (λ v. NamesDiffer v.items) }
{
    let things = Things::of_task(alloc, store, task)?;
    names_of(alloc, store, task, &things)
}
