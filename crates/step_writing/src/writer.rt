// Step files written: all lines of trees, each tree once, and then the lines of the steps.
// They depend on the lines of trees and on the words of steps; the program's `lift` depends on them.
ghost use Rattle.std.specs.Prelude.{ℕ, Option, None, All, IfOk, IfSome, IfNone, OnOk};
ghost use Rattle.step_writing.specs.tree_writing.Spelt.{AreNamesOf};
ghost use Rattle.kernel.specs.trees.Node.{Grows};
ghost use Rattle.kernel.specs.tasks.Meaning.{task_at, TaskHeld};
ghost use Rattle.kernel.specs.tasks.Valid.{IsValid};
ghost use Rattle.kernel.specs.rules.Meaning.{steps_at, StepsHeld};
ghost use Rattle.kernel.specs.Right.{Closes};
ghost use Rattle.name_tables.specs.Tables.{task_names};
ghost use Rattle.step_reading.specs.Lines.{StepsOf};
ghost use Rattle.kernel.specs.tasks.Words.{NamesAreWords};
ghost use Rattle.step_writing.specs.Named.{AreWords, SymbolsNamed, AreNamed, AreLow, AreSorted};
ghost use Rattle.step_writing.specs.Words.{StepReady};
ghost use Rattle.step_writing.specs.Written.{AddsSteps, StepsReadBack};

use crate::named::{are_words, name_symbols};
use crate::roots::step_roots;
use crate::tree_writing::{SymbolNames, WrittenLines, written_trees};
use crate::words::{Lines, push_step};
use kernel::{Step, Store, Task};
use name_tables::{NameEntry, task_names};
use std::alloc::{AllocError, Global};
use step_lines::tree_lines::TableNames;

// Appends the lines of steps.
fn push_steps(
    alloc: Global,
    x: &Lines<'_>,
    text: &mut Vec<u8>,
    steps: &[Step],
) -> Result<(), AllocError>
    requires held { StepsHeld x.now.store.now steps.now }
    requires ready { All (StepReady x.now) (steps_at x.now.store.now steps.now) }
    requires words { AreWords x.now.table.now }
    ensures { OnOk result (AddsSteps x.now steps.now text.old.items text.new.items) }
{
    for step in steps {
        push_step(alloc, x, text, step)?;
    }
    Ok(())
}

// The text of steps that have names; none where a tree lacks one.
fn steps_text(
    alloc: Global,
    store: &Store,
    names: &SymbolNames,
    table: &[NameEntry],
    steps: &[Step],
) -> Result<Option<Vec<u8>>, AllocError>
    requires names { AreNamesOf store.now table.now names.now }
    requires held { StepsHeld store.now steps.now }
    requires words { AreWords table.now }
    requires sorted { AreSorted (steps_at store.now steps.now) }
    requires symbols { All (SymbolsNamed table.now) (steps_at store.now steps.now) }
    ensures some { IfOk result (λ o. IfSome o (λ v. StepsReadBack table.now
        (steps_at store.now steps.now) v.items)) }
    ensures none { IfOk result (λ o. IfNone o
        (AreNamed table.now (steps_at store.now steps.now) → ⊥)) }
{
    let roots = step_roots(alloc, store, steps)?;
    let Some(written) = written_trees(alloc, store, names, table, &roots)? else {
        return Ok(None);
    };
    let WrittenLines { text, numbers } = written;
    let mut text = text;
    let x = Lines {
        store,
        table,
        names,
        numbers: &numbers,
    };
    push_steps(alloc, &x, &mut text, steps)?;
    Ok(Some(text))
}

/// The file of steps that derive a task, as `write_steps` writes it; none where a symbol in the steps has no name or a name
/// can't be a word of a line. Only want of memory refuses.
pub fn written_steps(
    alloc: Global,
    store: &mut Store,
    task: &Task,
    table: &[NameEntry],
    steps: &[Step],
) -> Result<Option<Vec<u8>>, AllocError>
    requires held { StepsHeld store.old steps.now }
    requires closes { Closes (task_at store.old task.now) (steps_at store.old steps.now) }
    ensures some { IfOk result (λ o. IfSome o (λ v. StepsReadBack table.now
        (steps_at store.old steps.now) v.items)) }
    ensures none { IfOk result (λ o. IfNone o (AreWords table.now
        → AreNamed table.now (steps_at store.old steps.now) → ⊥)) }
    ensures grows { Grows store.old store.new }
{
    let _ = task;
    if !are_words(table) {
        return Ok(None);
    }
    let index = TableNames::new(alloc, table)?;
    let names = SymbolNames::new(alloc, store, &index, table)?;
    if !name_symbols(store, &names, table, steps) {
        return Ok(None);
    }
    steps_text(alloc, store, &names, table, steps)
}

/// The file of steps that derive a task. It is read back as steps with the same trees, by a reader without a tallest
/// tree and by one whose tallest no tree passes. Each symbol in the steps has to have a name, whole or at its types, and
/// the one that a rule names whole; names have no space and no line feed, and none is a colon. Only want of memory refuses.
pub fn write_steps(
    alloc: Global,
    store: &mut Store,
    task: &Task,
    table: &[NameEntry],
    steps: &[Step],
) -> Result<Vec<u8>, AllocError>
    requires held { StepsHeld store.old steps.now }
    requires closes { Closes (task_at store.old task.now) (steps_at store.old steps.now) }
    requires words { AreWords table.now }
    requires named { AreNamed table.now (steps_at store.old steps.now) }
    ensures reads_back { IfOk result (λ v. StepsOf (task_at store.old task.now) table.now None
        v.items (steps_at store.old steps.now)) }
    ensures low { IfOk result (λ v. (tallest : Option ℕ)
        → AreLow tallest (steps_at store.old steps.now)
        → StepsOf (task_at store.old task.now) table.now tallest v.items
        (steps_at store.old steps.now)) }
    ensures grows { Grows store.old store.new }
{
    let found = written_steps(alloc, store, task, table, steps)?;
    match found {
        Some(text) => Ok(text),
        None => unreachable!(),
    }
}

/// The file of steps that derive a valid task, by the names of the task's own table, and so read back as the steps with that
/// table. The names of the task's symbols have no space and no line feed. Only want of memory refuses.
pub fn write_derivation(
    alloc: Global,
    store: &mut Store,
    task: &Task,
    steps: &[Step],
) -> Result<Vec<u8>, AllocError>
    requires task { TaskHeld store.old task.now }
    requires valid { IsValid (task_at store.old task.now) }
    requires names { NamesAreWords (task_at store.old task.now) }
    requires held { StepsHeld store.old steps.now }
    requires closes { Closes (task_at store.old task.now) (steps_at store.old steps.now) }
    ensures reads_back { IfOk result (λ v. StepsOf (task_at store.old task.now)
        (task_names (task_at store.old task.now)) None v.items (steps_at store.old steps.now)) }
    ensures grows { Grows store.old store.new }
{
    let table = task_names(alloc, store, task)?;
    write_steps(alloc, store, task, &table, steps)
}
