// The stages of a driver for a task: the removals, and its transformations.
// It depends on the transformations; the carrying of tasks depends on it.
ghost use Rattle.std.specs.List.{list_any};
ghost use Rattle.std.specs.Str.{bytes_eq};
ghost use Rattle.std.specs.Prelude.{◌≡◌, ◌++◌, List, IfOk, OnOk, map};
ghost use Rattle.tasks.specs.trees.Tree.{Tree};
ghost use Rattle.tasks.specs.Meaning.{declaration_at, declarations_at, task_at};
ghost use Rattle.stages.specs.Listing.{is_removed_of, name_if, removed_names, removed_of, stages_of};
ghost use Rattle.stages.specs.transformations.Words.{transformation_of};

use crate::transformations::{Remove, Transformation, transformation_of};
use drivers::driver_items::Trans;
use drivers::driver_parts::Driver;
use std::alloc::{AllocError, Global};
use tasks::{Body, Decl, Seq, Task, Text};

// Whether a path is among these.
fn is_among(paths: &[Text], its: &[u8]) -> bool
    ensures { result ≡ list_any (bytes_eq its.now) paths.now }
{
    for path in paths {
        if its == path.as_slice() {
            return true;
        }
    }
    false
}

// Whether a declaration says a proposition of one of these theories.
fn is_removed_of(paths: &[Text], decl: &Decl) -> bool
    ensures { (s : List Tree) → result ≡ is_removed_of paths.now (declaration_at s decl.now) }
{
    match &decl.body {
        Body::Prop(_) => is_among(paths, decl.theory.as_slice()),
        Body::TypeSymbol(_)
        | Body::Symbol(_)
        | Body::Defs(_)
        | Body::Inductives(_)
        | Body::Algebraics(_) => false,
    }
}

// Puts the theory and the name of a declaration after the others, where a driver removes it with all of its theory.
fn push_removed(
    names: &mut Vec<(Text, Text)>,
    paths: &[Text],
    decl: &Decl,
) -> Result<(), AllocError>
    ensures { OnOk result ((s : List Tree) → names.new.items ≡ names.old.items
        ++ name_if paths.now (declaration_at s decl.now)) }
{
    if is_removed_of(paths, decl) {
        let name = (decl.theory.clone()?, decl.name.clone()?);
        names.push(name)?;
    }
    Ok(())
}

// Puts the propositions of these theories after the others.
fn push_all_removed(
    names: &mut Vec<(Text, Text)>,
    paths: &[Text],
    decls: &[Decl],
) -> Result<(), AllocError>
    ensures { OnOk result ((s : List Tree) → names.new.items ≡ names.old.items
        ++ removed_of paths.now (declarations_at s decls.now)) }
{
    for decl in decls {
        push_removed(names, paths, decl)?;
    }
    Ok(())
}

// A copy of names.
fn named_alone(alloc: Global, names: &[(Text, Text)]) -> Result<Vec<(Text, Text)>, AllocError>
    ensures { IfOk result (λ v. v.items ≡ names.now) }
{
    let mut copy = Vec::with_capacity(alloc, names.len())?;
    for pair in names {
        let name = (pair.0.clone()?, pair.1.clone()?);
        copy.push(name)?;
    }
    Ok(copy)
}

// The propositions that a driver removes from a task, by their theories and names.
fn removed_names(
    alloc: Global,
    driver: &Driver,
    task: &Task,
) -> Result<Vec<(Text, Text)>, AllocError>
    ensures { IfOk result (λ v. (s : List Tree) → v.items
        ≡ removed_names driver.now (task_at s task.now)) }
{
    let mut names = named_alone(alloc, driver.removed.as_slice())?;
    push_all_removed(
        &mut names,
        driver.all_removed.as_slice(),
        task.decls.as_slice(),
    )?;
    Ok(names)
}

// Puts the transformations of names after the others.
fn push_stages(stages: &mut Vec<Transformation>, names: &[Trans]) -> Result<(), AllocError>
    ensures { OnOk result (stages.new.items ≡ stages.old.items ++ map transformation_of names.now) }
{
    for name in names {
        stages.push(transformation_of(*name))?;
    }
    Ok(())
}

/// The stages of a driver for a task: the removal of the propositions that the driver removes from it, then the driver's
/// transformations in order.
///
/// Only want of memory refuses.
pub fn stages_of(
    alloc: Global,
    driver: &Driver,
    task: &Task,
) -> Result<Vec<Transformation>, AllocError>
    ensures { IfOk result (λ v. (s : List Tree) → v.items
        ≡ stages_of driver.now (task_at s task.now)) }
{
    let props = removed_names(alloc, driver, task)?;
    let mut stages = Vec::new(alloc);
    stages.push(Transformation::Remove(Remove {
        props: Seq::from_vec(props),
    }))?;
    push_stages(&mut stages, driver.stages.as_slice())?;
    Ok(stages)
}
