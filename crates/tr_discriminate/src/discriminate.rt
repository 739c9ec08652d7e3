// The transformation that replaces polymorphic propositions by their wanted instances.
ghost use Rattle.std.specs.Prelude.{◌≡◌, List, IfOk, IfErr};
ghost use Rattle.trees.specs.Tree.{Tree};
ghost use Rattle.trees.specs.Node.{Grows};
ghost use Rattle.tasks.specs.Meaning.{body_at, declarations_at, task_at, TaskHeld};
ghost use Rattle.tasks.specs.Valid.{IsValid};
ghost use Rattle.tr_discriminate.specs.wanted_instances.Discriminated.{is_misplaced, misplaced_from, discriminated_task};
ghost use Rattle.tr_discriminate.specs.instance_sets.Sets.{IsLargeAtSet};
ghost use Rattle.tr_discriminate.specs.Equation.{discriminate_equation};
ghost use Rattle.tr_discriminate.specs.Kept.{discriminate_keeps};

use crate::citing::cite_origin;
use crate::instance_sets::discriminated_declarations;
use evidence::task_parts::{one_task, with_parts};
use evidence::{Draft, StageFault, Transform, fact_lemma};
use std::alloc::{AllocError, Global};
use tasks::{Body, Decl, Fact, Store, Task, TermId};

/// The transformation that replaces each polymorphic proposition by its instances that are wanted. It gives one task, and doesn't take
/// a definition or an inductive declaration.
#[derive(Clone, Copy)]
pub struct Discriminate;

// Whether a declaration may not be there.
fn is_misplaced(body: &Body) -> bool
    ensures { (s : List Tree) → result ≡ is_misplaced (body_at s body.now) }
{
    match body {
        Body::Defs(_) | Body::Inductives(_) => true,
        _ => false,
    }
}

// The place of the first declaration that may not be there.
fn misplaced(decls: &[Decl]) -> Option<usize>
    ensures { (s : List Tree) → result ≡ misplaced_from 0 (declarations_at s decls.now) }
{
    for place in 0..decls.len() {
        if is_misplaced(&decls[place].body) {
            return Some(place);
        }
    }
    None
}

// The task with the instances that are wanted at the last set.
fn discriminated_task(alloc: Global, store: &mut Store, task: &Task) -> Result<Task, StageFault>
    requires held { TaskHeld store.old task.now }
    requires valid { IsValid (task_at store.old task.now) }
    ensures task { IfOk result (λ t. task_at store.new t
        ≡ discriminated_task (task_at store.old task.now)) }
    ensures held { IfOk result (TaskHeld store.new) }
    ensures fault { IfErr result (IsLargeAtSet (task_at store.old task.now)) }
    ensures grows { Grows store.old store.new }
{
    let decls = discriminated_declarations(alloc, store, task)?;
    let params = task.params.clone()?;
    let locals = task.locals.clone()?;
    let made = with_parts(task, decls, params, locals, task.goal)?;
    Ok(made)
}

impl Transform for Discriminate {
    ghost equation = { λ _ from. discriminate_equation from };

    /// The task with wanted instances, or the first definition or inductive declaration. `TooLarge` comes only where that task has more
    /// than 2^20 nodes.
    fn make(&self, alloc: Global, store: &mut Store, task: &Task) -> Result<Vec<Task>, StageFault> {
        if let Some(decl) = misplaced(task.decls.as_slice()) {
            return Err(StageFault::Misplaced { decl });
        }
        let made = discriminated_task(alloc, store, task)?;
        let tasks = one_task(alloc, made)?;
        Ok(tasks)
    }

    fn fact(
        &self,
        from: &Task,
        to: &Task,
        name: Fact,
        types: &[TermId],
        formula: TermId,
        draft: &mut Draft,
    ) -> Result<usize, AllocError> {
        let _ = to;
        match name {
            Fact::Proposition(_) => {
                let step = cite_origin(from, formula, draft)?;
                Ok(step)
            }
            _ => {
                let step = fact_lemma(draft, name, types, formula)?;
                Ok(step)
            }
        }
    }

    fn glue(
        &self,
        from: &Task,
        to: &Vec<Task>,
        ends: &[usize],
        draft: &mut Draft,
    ) -> Result<usize, AllocError> {
        let _ = from;
        let _ = to;
        let _ = draft;
        Ok(ends[0])
    }

    ghost keeps = { λ _ t ts valid gives. discriminate_keeps t ts valid gives };
}
