// The transformation that introduces parameters and premises.
ghost use Rattle.std.specs.Prelude.{◌≡◌, [], ◌∷◌, IfOk};
ghost use Rattle.trees.specs.Node.{Grows};
ghost use Rattle.tasks.specs.Meaning.{task_at, tasks_at, TaskHeld, TasksHeld};
ghost use Rattle.tr_introduce.specs.Introduce.{introduced_task, introduce_equation};
ghost use Rattle.tr_introduce.specs.Kept.{introduce_keeps};

use crate::gluing::glue_goal;
use crate::introduction::introduced_task;
use evidence::task_parts::one_task;
use evidence::{Draft, StageFault, Transform, fact_lemma};
use std::alloc::{AllocError, Global};
use tasks::{Fact, Task};
use trees::TermId;
use trees::store::Store;

/// The transformation that introduces parameters and premises as long as the goal begins with `forall` or `->`. It gives one
/// task.
#[derive(Clone, Copy)]
pub struct Introduce;

impl Transform for Introduce {
    ghost equation = { λ _ from. introduce_equation from };

    /// The task with what is introduced.
    fn make(&self, alloc: Global, store: &mut Store, task: &Task) -> Result<Vec<Task>, StageFault> {
        Ok(introduced_tasks(alloc, store, task)?)
    }

    fn fact(
        &self,
        from: &Task,
        to: &Task,
        name: Fact,
        types: &[TermId],
        formula: TermId,
        draft: &mut Draft,
    ) -> Result<usize, AllocError> {
        let _ = from;
        let _ = to;
        fact_lemma(draft, name, types, formula)
    }

    fn glue(
        &self,
        from: &Task,
        to: &Vec<Task>,
        ends: &[usize],
        draft: &mut Draft,
    ) -> Result<usize, AllocError> {
        let _ = to;
        let params = from.params.as_slice();
        glue_goal(draft, from.locals.as_slice(), from.goal, params, ends[0])
    }

    ghost keeps = { λ _ t ts valid gives. introduce_keeps t ts valid gives };
}

// The task with what is introduced, alone.
fn introduced_tasks(alloc: Global, store: &mut Store, task: &Task) -> Result<Vec<Task>, AllocError>
    requires { TaskHeld store.old task.now }
    ensures held { IfOk result (λ ts. TasksHeld store.new ts.items) }
    ensures tasks { IfOk result (λ ts. tasks_at store.new ts.items
        ≡ introduced_task (task_at store.old task.now) ∷ []) }
    ensures grows { Grows store.old store.new }
{
    let made = introduced_task(alloc, store, task)?;
    let tasks = one_task(alloc, made)?;
    Ok(tasks)
}
