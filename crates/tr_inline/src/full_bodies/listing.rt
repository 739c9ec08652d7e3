// Which definitions of a task are inlined.
ghost use Rattle.std.specs.Prelude.{◌≡◌, [], ◌∷◌, IfOk, OnOk};
ghost use Rattle.trees.specs.Node.{Holds};
ghost use Rattle.tasks.specs.Meaning.{definition_at, definitions_at, body_at, task_at, BodyHeld, TaskHeld};
ghost use Rattle.inlining.specs.Inlining.{plain_definitions, inlined_definitions};
ghost use Rattle.tr_inline.specs.full_bodies.Chosen.{chosen};
ghost use Rattle.tr_inline.specs.full_bodies.Listed.{AreDefsHeld, AreAppended};

use crate::full_bodies::choosing::is_chosen;
use checks::recursive_groups::{defining_body, is_recursive};
use inlining::InlineMode;
use std::alloc::{AllocError, Global};
use tasks::{Body, Def, Task};
use trees::store::Store;

// Appends a definition, where its body is chosen.
fn push_definition(
    alloc: Global,
    store: &Store,
    mode: InlineMode,
    def: Def,
    listed: &mut Vec<Def>,
) -> Result<(), AllocError>
    requires held { Holds store.now def.equation }
    requires listed { AreDefsHeld store.now listed.old.items }
    ensures { OnOk result (AreAppended store.now
        (chosen mode (definition_at store.now def ∷ [])) listed.old.items listed.new.items) }
{
    let body = defining_body(store, def.equation);
    let taken = is_chosen(alloc, store, mode, body)?;
    if taken {
        listed.push(def)?;
        return Ok(());
    }
    Ok(())
}

// Appends the definitions of a group whose bodies are chosen.
fn push_definitions(
    alloc: Global,
    store: &Store,
    mode: InlineMode,
    defs: &[Def],
    listed: &mut Vec<Def>,
) -> Result<(), AllocError>
    requires held { AreDefsHeld store.now defs.now }
    requires listed { AreDefsHeld store.now listed.old.items }
    ensures { OnOk result (AreAppended store.now
        (chosen mode (definitions_at store.now defs.now)) listed.old.items listed.new.items) }
{
    for def in defs {
        push_definition(alloc, store, mode, *def, listed)?;
    }
    Ok(())
}

// Appends those of what a declaration says, if it is a group that isn't recursive.
fn push_group(
    alloc: Global,
    store: &Store,
    mode: InlineMode,
    body: &Body,
    listed: &mut Vec<Def>,
) -> Result<(), AllocError>
    requires held { BodyHeld store.now body.now }
    requires listed { AreDefsHeld store.now listed.old.items }
    ensures { OnOk result (AreAppended store.now
        (chosen mode (plain_definitions (body_at store.now body.now))) listed.old.items
        listed.new.items) }
{
    match body {
        Body::Defs(defs) => {
            let group = defs.as_slice();
            if is_recursive(store, group) {
                return Ok(());
            }
            push_definitions(alloc, store, mode, group, listed)?;
            Ok(())
        }
        _ => Ok(()),
    }
}

/// The definitions of a task that are inlined in a mode, from the first to the last.
pub fn definitions_inlined(
    alloc: Global,
    store: &Store,
    task: &Task,
    mode: InlineMode,
) -> Result<Vec<Def>, AllocError>
    requires { TaskHeld store.now task.now }
    ensures are { IfOk result (λ v. definitions_at store.now v.items
        ≡ inlined_definitions mode (task_at store.now task.now).decls) }
    ensures held { IfOk result (λ v. AreDefsHeld store.now v.items) }
{
    let mut listed = Vec::new(alloc);
    for decl in task.decls.as_slice() {
        push_group(alloc, store, mode, &decl.body, &mut listed)?;
    }
    Ok(listed)
}
