// The symbols that a declaration makes, in order.
// They depend on the declarations; the index of a task and the name tables depend on them.
ghost use Rattle.std.specs.Prelude.{◌≡◌, ◌++◌, map, OnOk, IfOk};
ghost use Rattle.tasks.specs.Looking.{made_cons, made_types, made_in, AreMadeBy};

use crate::{Alg, Body, Con, Def, Ind};
use std::alloc::{AllocError, Global};

// The symbols of definitions, after others.
fn push_defs(defs: &[Def], symbols: &mut Vec<usize>) -> Result<(), AllocError>
    ensures { OnOk result (symbols.new.items ≡ symbols.old.items ++ map (λ d. d.symbol) defs.now) }
{
    match defs.split_first() {
        Some((first, rest)) => {
            symbols.push(first.symbol)?;
            push_defs(rest, symbols)
        }
        None => Ok(()),
    }
}

// The symbols of inductive predicates, after others.
fn push_inductives(inductives: &[Ind], symbols: &mut Vec<usize>) -> Result<(), AllocError>
    ensures { OnOk result (symbols.new.items ≡ symbols.old.items
        ++ map (λ i. i.symbol) inductives.now) }
{
    match inductives.split_first() {
        Some((first, rest)) => {
            symbols.push(first.symbol)?;
            push_inductives(rest, symbols)
        }
        None => Ok(()),
    }
}

// The symbols of constructors, each before its projections, after others.
fn push_cons(cons: &[Con], symbols: &mut Vec<usize>) -> Result<(), AllocError>
    ensures { OnOk result (symbols.new.items ≡ symbols.old.items ++ made_cons cons.now) }
{
    match cons.split_first() {
        Some((first, rest)) => {
            symbols.push(first.symbol)?;
            symbols.extend_from_slice(first.projections.as_slice())?;
            push_cons(rest, symbols)
        }
        None => Ok(()),
    }
}

// The symbols of algebraic types, each before its constructors, after others.
fn push_types(types: &[Alg], symbols: &mut Vec<usize>) -> Result<(), AllocError>
    ensures { OnOk result (symbols.new.items ≡ symbols.old.items ++ made_types types.now) }
{
    match types.split_first() {
        Some((first, rest)) => {
            symbols.push(first.symbol)?;
            push_cons(first.cons.as_slice(), symbols)?;
            push_types(rest, symbols)
        }
        None => Ok(()),
    }
}

// The symbols that a declaration makes, after others.
fn push_made(body: &Body, symbols: &mut Vec<usize>) -> Result<(), AllocError>
    ensures { OnOk result (symbols.new.items ≡ symbols.old.items ++ made_in body.now) }
{
    match body {
        Body::TypeSymbol(symbol) => Ok(symbols.push(*symbol)?),
        Body::Symbol(symbol) => Ok(symbols.push(*symbol)?),
        Body::Defs(defs) => push_defs(defs.as_slice(), symbols),
        Body::Inductives(inductives) => push_inductives(inductives.as_slice(), symbols),
        Body::Algebraics(types) => push_types(types.as_slice(), symbols),
        Body::Prop(_) => Ok(()),
    }
}

/// The symbols that a declaration makes, in order: an algebraic type before its constructors, each constructor before
/// its projections. Only want of memory refuses.
pub fn made_by(alloc: Global, body: &Body) -> Result<Vec<usize>, AllocError>
    ensures { IfOk result (λ v. AreMadeBy body.now v.items) }
{
    let mut symbols = Vec::new(alloc);
    push_made(body, &mut symbols)?;
    Ok(symbols)
}
