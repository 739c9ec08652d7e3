// The answer to a line. Its words are, in postfix order, type variables `'N`, type symbols `tN/K` over the last K types, `=` for
// an equation of the last two types, `!N` for so many type variables that stand for themselves, `?N` that asks for the value of an
// unknown, and `+N` that asks whether it has one.
// It depends on the store and on type equations.
ghost use Rattle.std.specs.Prelude.{◌≡◌, IsTrue};
ghost use Rattle.trees.specs.declared.Sort.TheVariants.{Kind};
ghost use Rattle.trees.specs.Node.{tree_at, Holds};
ghost use Rattle.trees.specs.Sorts.{sort_of};
ghost use Rattle.open_types.specs.unify_types.Pairs.{HoldsEquation, HoldEquations};

use crate::printing::put_type;
use open_types::unify_types::{Equation, Solution, UnifyFault, solve};
use std::alloc::{AllocError, Global};
use trees::store::{Grow, Store};
use trees::{Node, Sort, TermId};

// What was read of a line: types that wait, equations, how many type variables are rigid, and which unknowns are asked for.
#[derive(Drop)]
struct Read {
    types: Vec<TermId>,
    equations: Vec<Equation>,
    rigid: usize,
    asked: Vec<(usize, bool)>,
}

// A number in decimal, or 0.
fn number_of(word: &str) -> usize {
    word.parse::<usize>().unwrap_or(0)
}

// The number of a node, or that of `int` if it doesn't fit.
fn put(store: &mut Store, node: Node) -> Result<TermId, AllocError> {
    if store.accepts(node) {
        let id = store.add(node)?;
        Ok(id)
    } else {
        Ok(store.int_type())
    }
}

// A type symbol over the last types.
fn apply(
    store: &mut Store,
    read: &mut Read,
    symbol: usize,
    count: usize,
) -> Result<(), AllocError> {
    let mut list = TermId(0);
    for _ in 0..count {
        if let Some(ty) = read.types.pop() {
            list = put(store, Node::Cell(ty, list))?;
        }
    }
    let made = put(store, Node::TyApp(symbol, list))?;
    read.types.push(made)?;
    Ok(())
}

// An equation of the last two types.
fn equate(read: &mut Read) -> Result<(), AllocError> {
    if let Some(right) = read.types.pop() {
        if let Some(left) = read.types.pop() {
            read.equations.push(Equation { left, right })?;
        }
    }
    Ok(())
}

fn read_word(store: &mut Store, read: &mut Read, word: &str) -> Result<(), AllocError> {
    if let Some(number) = word.strip_prefix("'") {
        let made = put(store, Node::TyVar(number_of(number)))?;
        read.types.push(made)?;
        return Ok(());
    }
    if let Some(rest) = word.strip_prefix("t") {
        return match rest.split_once('/') {
            Some((symbol, count)) => apply(store, read, number_of(symbol), number_of(count)),
            None => Ok(()),
        };
    }
    if let Some(number) = word.strip_prefix("!") {
        read.rigid = number_of(number);
        return Ok(());
    }
    if let Some(number) = word.strip_prefix("?") {
        read.asked.push((number_of(number), true))?;
        return Ok(());
    }
    if let Some(number) = word.strip_prefix("+") {
        read.asked.push((number_of(number), false))?;
        return Ok(());
    }
    equate(read)
}

fn read_line(alloc: Global, store: &mut Store, line: &str) -> Result<Read, AllocError> {
    let mut read = Read {
        types: Vec::new(alloc),
        equations: Vec::new(alloc),
        rigid: 0,
        asked: Vec::new(alloc),
    };
    for word in line.split(' ') {
        read_word(store, &mut read, word)?;
    }
    Ok(read)
}

fn is_type(store: &Store, id: TermId) -> bool
    ensures { IsTrue result → Holds store.now id × (sort_of (tree_at store.now id) ≡ Kind) }
{
    if !store.holds(id) {
        return false;
    }
    match store.sort(id) {
        Sort::Kind => true,
        _ => false,
    }
}

fn is_of_types(store: &Store, e: Equation) -> bool
    ensures { IsTrue result → HoldsEquation store.now e }
{
    is_type(store, e.left) && is_type(store, e.right)
}

// Whether each equation is one of types that the store holds.
fn are_of_types(store: &Store, equations: &[Equation]) -> bool
    ensures { IsTrue result → HoldEquations store.now equations.now }
{
    match equations.split_first() {
        Some((e, more)) => is_of_types(store, *e) && are_of_types(store, more),
        None => true,
    }
}

// The values of unknowns, or whether they have one; `_` for those that are open.
fn put_values(
    alloc: Global,
    text: &mut String,
    store: &Store,
    solution: &Solution,
    asked: &[(usize, bool)],
) -> Result<(), AllocError> {
    text.push_str("solved")?;
    for (unknown, whole) in asked {
        text.push_str(" ")?;
        match solution.value(*unknown) {
            Some(ty) => {
                if *whole {
                    put_type(alloc, text, store, ty)?;
                } else {
                    text.push_str("+")?;
                }
            }
            None => text.push_str("_")?,
        }
    }
    Ok(())
}

fn put_fault(alloc: Global, text: &mut String, fault: UnifyFault) -> Result<(), AllocError> {
    match fault {
        UnifyFault::Memory => text.push_str("memory"),
        UnifyFault::Clash { k } => {
            text.push_str("clash ")?;
            let digits = k.to_string(alloc)?;
            text.push_str(digits.as_str())
        }
    }
}

// The answer to what was read of a line.
fn put_answer(
    alloc: Global,
    text: &mut String,
    store: &mut Store,
    read: &Read,
) -> Result<(), AllocError> {
    if !are_of_types(store, &read.equations) {
        return text.push_str("no types");
    }
    match solve(alloc, store, read.rigid, &read.equations) {
        Ok(solution) => put_values(alloc, text, store, &solution, &read.asked),
        Err(fault) => put_fault(alloc, text, fault),
    }
}

/// The answer to a line.
pub(crate) fn describe(alloc: Global, line: &str) -> Result<String, AllocError> {
    let mut text = String::new(alloc);
    let mut store = Store::new(alloc)?;
    let read = read_line(alloc, &mut store, line)?;
    put_answer(alloc, &mut text, &mut store, &read)?;
    Ok(text)
}
