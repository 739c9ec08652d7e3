// Full bodies, made from the first definition to the last.
ghost use Rattle.std.specs.Prelude.{◌≡◌, All, IfOk, OnOk};
ghost use Rattle.trees.specs.Node.{tree_at, Holds, Grows};
ghost use Rattle.tasks.specs.Meaning.{definition_at, definitions_at, task_at, TaskHeld};
ghost use Rattle.tasks.specs.Vocabulary.{of_task};
ghost use Rattle.tasks.specs.Valid.{IsDefinition, IsValid};
ghost use Rattle.inlining.specs.images.image_trees.Imaged.{IsTypedSomewhere};
ghost use Rattle.inlining.specs.FullBodies.{next_rule, full_rule};
ghost use Rattle.inlining.specs.Inlining.{inlined_definitions};
ghost use Rattle.tr_inline.specs.full_bodies.FullBodies.{rule_after, AreReady, IsFull};
ghost use Rattle.tr_inline.specs.full_bodies.Inlined.{rule_of, inlined_at};
ghost use Rattle.tr_inline.specs.full_bodies.Listed.{AreDefsHeld};

use crate::full_bodies::fault::InlineFault;
use crate::full_bodies::imaging::inline_whole;
use crate::full_bodies::listing::definitions_inlined;
use crate::full_bodies::uses::{FullBody, Inlining};
use checks::recursive_groups::defining_body;
use inlining::InlineMode;
use std::alloc::{AllocError, Global};
use tasks::{Def, Task};
use trees::TermId;
use trees::store::Store;

// The full body of a body after others, or none where it is large.
fn full_body(
    alloc: Global,
    store: &mut Store,
    inlining: &Inlining,
    body: TermId,
) -> Result<Option<TermId>, AllocError>
    requires ready { AreReady store.old inlining.now.task.now inlining.now.bodies.now }
    requires held { Holds store.old body }
    requires typed { IsTypedSomewhere (rule_of store.old inlining.now) (tree_at store.old body) }
    ensures full { IfOk result (IsFull store.new (inlined_at store.old inlining.now body)) }
    ensures grows { Grows store.old store.new }
{
    match inline_whole(alloc, store, inlining, body) {
        Ok(full) => Ok(Some(full)),
        Err(InlineFault::Large) => Ok(None),
        Err(InlineFault::Memory) => Err(AllocError),
    }
}

// The full body of one definition more, after those of the definitions before.
fn push_full_body(
    alloc: Global,
    store: &mut Store,
    task: &Task,
    def: Def,
    bodies: &mut Vec<FullBody>,
) -> Result<(), AllocError>
    requires ready { AreReady store.old task.now bodies.old.items }
    requires held { Holds store.old def.equation }
    requires defined { IsDefinition (of_task (task_at store.old task.now))
        (definition_at store.old def) }
    ensures ready { OnOk result (AreReady store.new task.now bodies.new.items) }
    ensures rule { OnOk result (rule_after store.new (λ e. e) bodies.new.items
        ≡ next_rule (rule_after store.old (λ e. e) bodies.old.items)
        (definition_at store.old def)) }
    ensures grows { Grows store.old store.new }
{
    let body = defining_body(store, def.equation);
    let inlining = Inlining {
        task,
        bodies: &*bodies,
    };
    let full = full_body(alloc, store, &inlining, body)?;
    let symbol = def.symbol;
    bodies.push(FullBody { symbol, body, full })?;
    Ok(())
}

// The full bodies of definitions of a task, from the first to the last.
fn make_bodies(
    alloc: Global,
    store: &mut Store,
    task: &Task,
    defs: &[Def],
) -> Result<Vec<FullBody>, AllocError>
    requires held { TaskHeld store.old task.now }
    requires valid { IsValid (task_at store.old task.now) }
    requires defs_held { AreDefsHeld store.old defs.now }
    requires defined { All (IsDefinition (of_task (task_at store.old task.now)))
        (definitions_at store.old defs.now) }
    ensures ready { IfOk result (λ v. AreReady store.new task.now v.items) }
    ensures rule { IfOk result (λ v. rule_after store.new (λ e. e) v.items
        ≡ full_rule (definitions_at store.old defs.now)) }
    ensures grows { Grows store.old store.new }
{
    let mut bodies = Vec::new(alloc);
    for def in defs {
        push_full_body(alloc, store, task, *def, &mut bodies)?;
    }
    Ok(bodies)
}

/// The full bodies of the definitions of a task that are inlined in a mode, from the first to the last: in each, the
/// definitions before are inlined.
pub fn full_bodies(
    alloc: Global,
    store: &mut Store,
    task: &Task,
    mode: InlineMode,
) -> Result<Vec<FullBody>, AllocError>
    requires held { TaskHeld store.old task.now }
    requires valid { IsValid (task_at store.old task.now) }
    ensures ready { IfOk result (λ v. AreReady store.new task.now v.items) }
    ensures rule { IfOk result (λ v. rule_after store.new (λ e. e) v.items
        ≡ full_rule (inlined_definitions mode (task_at store.old task.now).decls)) }
    ensures grows { Grows store.old store.new }
{
    let defs = definitions_inlined(alloc, store, task, mode)?;
    let made = make_bodies(alloc, store, task, &defs)?;
    Ok(made)
}
