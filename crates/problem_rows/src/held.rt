// Tasks of trees that a store holds.
ghost use Rattle.std.specs.Prelude.{All, IfOk, IfSome};
ghost use Rattle.trees.specs.Node.{Holds};
ghost use Rattle.tasks.specs.Meaning.{SymbolHeld, BodyHeld, DeclHeld, TaskHeld};

use crate::given::{Given, field, number_of};
use crate::stack::{Said, read_trees};
use std::alloc::{AllocError, Global};
use std::rc::Rc;
use tasks::{Body, Decl, Seq, Signature, SymbolInfo, SymbolKind, Task, Text};
use trees::store::{Ints, Store, TermId};

/// Those of some numbers that are held.
fn ids(alloc: Global, store: &Store, numbers: &[TermId]) -> Result<Seq<TermId>, AllocError>
    ensures { IfOk result (All (Holds store.now)) }
{
    let mut all = Seq::new(alloc);
    for id in numbers {
        if store.holds(*id) {
            all.push(*id)?;
        }
    }
    Ok(all)
}

fn kind_of(letter: &[u8]) -> SymbolKind {
    match letter {
        b"k" => SymbolKind::Kind,
        b"p" => SymbolKind::Predicate,
        b"c" => SymbolKind::Constructor,
        b"j" => SymbolKind::Projection,
        _ => SymbolKind::Function,
    }
}

// The types of the arguments and that of the result, the last one where the symbol has a result.
fn split_types(kind: SymbolKind, types: &[TermId]) -> (&[TermId], Option<TermId>) {
    match (kind, types) {
        (SymbolKind::Kind | SymbolKind::Predicate, _) => (types, None),
        (_, [args @ .., result]) => (args, Some(*result)),
        _ => (types, None),
    }
}

// A number, if it is held.
fn held_number(store: &Store, id: Option<TermId>) -> Option<TermId>
    ensures { IfSome result (Holds store.now) }
{
    match id {
        Some(id) if store.holds(id) => Some(id),
        _ => None,
    }
}

// The entry of a line with these types.
fn symbol(
    alloc: Global,
    store: &Store,
    line: &[u8],
    types: &[TermId],
) -> Result<SymbolInfo, AllocError>
    ensures { IfOk result (SymbolHeld store.now) }
{
    let kind = kind_of(field(line, 2));
    let (args, end) = split_types(kind, types);
    Ok(SymbolInfo {
        theory: Text::from_slice(alloc, field(line, 0))?,
        name: Text::from_slice(alloc, field(line, 1))?,
        kind,
        vars: number_of(field(line, 3)),
        args: ids(alloc, store, args)?,
        result: held_number(store, end),
    })
}

// The line of each symbol with the types that it says, of which nothing is known yet.
fn types_of(
    alloc: Global,
    store: &mut Store,
    lines: &[Vec<u8>],
) -> Result<Vec<(Vec<u8>, Vec<TermId>)>, AllocError> {
    let mut all = Vec::new(alloc);
    for line in lines {
        let types = read_trees(alloc, store, field(line.as_slice(), 4))?;
        let copy = Vec::from_slice(alloc, line.as_slice())?;
        all.push((copy, types.stack))?;
    }
    Ok(all)
}

fn symbols(
    alloc: Global,
    store: &Store,
    entries: &[(Vec<u8>, Vec<TermId>)],
) -> Result<Seq<SymbolInfo>, AllocError>
    ensures { IfOk result (All (SymbolHeld store.now)) }
{
    let mut all = Seq::new(alloc);
    for (line, types) in entries {
        let one = symbol(alloc, store, line.as_slice(), types.as_slice())?;
        all.push(one)?;
    }
    Ok(all)
}

// The symbols of int.Int from a place on; none where it is 0.
fn ints_from(first: usize) -> Option<Ints> {
    if first == 0 {
        return None;
    }
    let at = |i: usize| first.saturating_add(i);
    Some(Ints {
        neg: first,
        add: at(1),
        sub: at(2),
        mul: at(3),
        lt: at(4),
        le: at(5),
        gt: at(6),
        ge: at(7),
    })
}

// What is declared, by a letter and a number.
fn body(alloc: Global, store: &Store, letter: u8, number: usize) -> Body
    ensures { BodyHeld store.now result }
{
    if letter == b'P' && store.holds(TermId(number)) {
        return Body::Prop(TermId(number));
    }
    if letter == b'A' {
        return Body::Algebraics(Seq::new(alloc));
    }
    if letter == b'K' {
        return Body::TypeSymbol(number);
    }
    Body::Symbol(number)
}

fn declarations(alloc: Global, store: &Store, rows: &[(u8, usize)]) -> Result<Seq<Decl>, AllocError>
    ensures { IfOk result (All (DeclHeld store.now)) }
{
    let mut all = Seq::new(alloc);
    for (letter, number) in rows {
        let one = Decl {
            theory: Text::from_slice(alloc, b"T")?,
            name: Text::from_slice(alloc, b"d")?,
            vars: 0,
            body: body(alloc, store, *letter, *number),
        };
        all.push(one)?;
    }
    Ok(all)
}

// The task of what was read, with these symbols.
fn task(
    alloc: Global,
    store: &Store,
    sig: Signature,
    said: &Said,
    goal: TermId,
) -> Result<Task, AllocError>
    requires symbols { All (SymbolHeld store.now) sig.symbols }
    requires goal { Holds store.now goal }
    ensures { IfOk result (TaskHeld store.now) }
{
    Ok(Task {
        sig: Rc::new(alloc, sig)?,
        rigid: Seq::from_slice(alloc, said.rigid.as_slice())?,
        decls: declarations(alloc, store, said.decls.as_slice())?,
        params: ids(alloc, store, said.params.as_slice())?,
        locals: ids(alloc, store, said.locals.as_slice())?,
        goal,
    })
}

// The task with this goal, if it is held.
fn task_with(
    alloc: Global,
    store: &Store,
    entries: &[(Vec<u8>, Vec<TermId>)],
    ints: Option<Ints>,
    said: &Said,
    goal: TermId,
) -> Result<Option<Task>, AllocError>
    ensures { IfOk result (λ r. IfSome r (TaskHeld store.now)) }
{
    if !store.holds(goal) {
        return Ok(None);
    }
    let sig = Signature {
        symbols: symbols(alloc, store, entries)?,
        ints,
    };
    let made = task(alloc, store, sig, said, goal)?;
    Ok(Some(made))
}

/// The task that a text says, whose last tree is the goal.
pub(crate) fn read_task(
    alloc: Global,
    store: &mut Store,
    given: &Given,
    text: &[u8],
) -> Result<Option<Task>, AllocError>
    ensures { IfOk result (λ r. IfSome r (TaskHeld store.new)) }
{
    let entries = types_of(alloc, store, given.symbols.as_slice())?;
    let mut said = read_trees(alloc, store, text)?;
    let goal = said.stack.pop().unwrap_or(TermId(0));
    let ints = ints_from(given.ints);
    task_with(alloc, store, entries.as_slice(), ints, &said, goal)
}
