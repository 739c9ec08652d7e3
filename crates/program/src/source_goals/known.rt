// What the theories of a source tell the reader of a driver.
// It depends on the theories and on the reader; a goal under a driver depends on it.
ghost use Rattle.std.specs.Prelude.{◌≡◌, ◌++◌, List, IfOk, OnOk, map, slice_get, string_bytes};
ghost use Rattle.tasks.specs.trees.Tree.{Tree};
ghost use Rattle.theories.specs.theory_states.goal_tasks.Meaning.{placed, theories_at};
ghost use Rattle.statuses.specs.fault_order.Answers.{Answers};
ghost use Rattle.program.specs.source_goals.Known.{said_names, own_in, own_names_at, names_in, theory_in, known_of, named_bytes};
ghost use Rattle.program.specs.source_goals.Order.{DriverOf};
ghost use Rattle.program.specs.source_goals.Values.{next_after_driver};

use crate::source_goals::driver::fetch_driver;
use drivers::driver_files::Driver;
use statuses::fault_order::{Library, RunFault, Seq};
use std::alloc::{AllocError, Global};
use tasks::{Body, Decl};
use theories::{Theories, Theory};

// Puts the name of a declaration after others, where it says a proposition.
fn push_said(alloc: Global, names: &mut Vec<String>, decl: &Decl) -> Result<(), AllocError>
    ensures { OnOk result (map string_bytes names.new.items
        ≡ map string_bytes names.old.items ++ said_names decl.now.name decl.now.body) }
{
    match &decl.body {
        Body::Prop(_) => {
            names.push(String::from_utf8_lossy(alloc, decl.name.as_slice())?)?;
            Ok(())
        }
        Body::TypeSymbol(_)
        | Body::Symbol(_)
        | Body::Defs(_)
        | Body::Inductives(_)
        | Body::Algebraics(_) => Ok(()),
    }
}

// Puts the name of a proposition after others, where the theory with this path declares it.
fn push_own(
    alloc: Global,
    names: &mut Vec<String>,
    path: &[u8],
    decl: &Decl,
) -> Result<(), AllocError>
    ensures { OnOk result (map string_bytes names.new.items
        ≡ map string_bytes names.old.items ++ own_in path.now decl.now) }
{
    if decl.theory.as_slice() == path {
        push_said(alloc, names, decl)
    } else {
        Ok(())
    }
}

// Puts the name of the proposition with a place after others, where there is one and the theory with this path declares it.
fn push_placed(
    alloc: Global,
    names: &mut Vec<String>,
    path: &[u8],
    decls: &Seq<Decl>,
    place: usize,
) -> Result<(), AllocError>
    ensures { OnOk result (map string_bytes names.new.items
        ≡ map string_bytes names.old.items ++ own_names_at path.now (slice_get decls.now place)) }
{
    match decls.get(place) {
        Some(decl) => push_own(alloc, names, path, decl),
        None => Ok(()),
    }
}

// The names of the propositions among declarations with these places that the theory with this path itself declares.
fn placed_names(
    alloc: Global,
    decls: &Seq<Decl>,
    places: &[usize],
    path: &[u8],
) -> Result<Vec<String>, AllocError>
    ensures { IfOk result (λ v. map string_bytes v.items
        ≡ names_in path.now (placed decls.now places.now)) }
{
    let mut names = Vec::new(alloc);
    for at in 0..places.len() {
        push_placed(alloc, &mut names, path, decls, places[at])?;
    }
    Ok(names)
}

// A theory by its path, with the names of its propositions.
fn known_theory(
    alloc: Global,
    decls: &Seq<Decl>,
    theory: &Theory,
) -> Result<(String, Vec<String>), AllocError>
    ensures { IfOk result (λ its. named_bytes its ≡ theory_in decls.now theory.now) }
{
    let path = theory.path.as_slice();
    let names = placed_names(alloc, decls, theory.visible.as_slice(), path)?;
    let name = String::from_utf8_lossy(alloc, path)?;
    Ok((name, names))
}

// Theories, each by its path, with the names of its propositions.
fn known_theories(
    alloc: Global,
    decls: &Seq<Decl>,
    list: &[Theory],
) -> Result<Vec<(String, Vec<String>)>, AllocError>
    ensures { IfOk result (λ v. map named_bytes v.items ≡ map (theory_in decls.now) list.now) }
{
    let mut known = Vec::new(alloc);
    for at in 0..list.len() {
        known.push(known_theory(alloc, decls, &list[at])?)?;
    }
    Ok(known)
}

/// The driver of a file, over what theories tell.
pub fn driver_over<L: Library>(
    alloc: Global,
    lib: &mut L,
    all: &Theories,
    drv: &str,
) -> Result<Driver, RunFault>
    ensures { (s : List Tree) → Answers (DriverOf (known_of (theories_at s all.now)) drv.now) 1
        next_after_driver (L.state lib.old) (L.state lib.new) result }
{
    let known = known_theories(alloc, &all.decls, all.list.as_slice())?;
    fetch_driver(alloc, lib, &all.sig, &known, drv)
}
