// Transformations, and the laws by which refutations of what they make are brought back.
// They depend on drafts; each transformation's crate gives them once, and `lift_stage` is proved from them alone.
ghost use Rattle.std.specs.Prelude.{◌≡◌, List, [], ◌∷◌, All, Ok, IfOk, IfErr};
ghost use Rattle.trees.specs.Node.{tree_at, Holds, Grows};
ghost use Rattle.tasks.specs.Task.{TaskTree, neg, start};
ghost use Rattle.tasks.specs.Valid.{IsValid};
ghost use Rattle.tasks.specs.Meaning.{trees_at, task_at, tasks_at, TaskHeld, TasksHeld};
ghost use Rattle.evidence.specs.stage_limits.Limits.{limited};
ghost use Rattle.evidence.specs.Drafts.{Extends, Refutes, IsFormulaAt};
ghost use Rattle.evidence.specs.Facts.{IsFact};
ghost use Rattle.evidence.specs.declared.stage.StageFault.{StageFault};
ghost use Rattle.evidence.specs.Stages.{TaskEquation, Gives, stage_equation, IsStageFault};
ghost use Rattle.evidence.specs.Stages.{Keeps, IsOwnTask, InStage, EndIn};

use crate::Draft;
use crate::stage_limits::limit_tasks;
use std::alloc::{AllocError, Global};
use tasks::{Fact, Task};
use trees::TermId;
use trees::store::Store;

/// Why a stage gives no tasks.
#[derive(Clone, Copy)]
pub enum StageFault {
    Memory,
    /// A declaration that the transformation doesn't take, by its place.
    Misplaced { decl: usize },
    /// A task that would be too large.
    TooLarge,
}

impl From<AllocError> for StageFault {
    ghost from_gives = { λ _ e. e ≡ StageFault.Memory };

    fn from(_: AllocError) -> Self {
        StageFault::Memory
    }
}

// The tasks where they aren't too large.
fn limited_tasks(store: &Store, tasks: Vec<Task>) -> Result<Vec<Task>, StageFault>
    requires { TasksHeld store.now tasks.items }
    ensures held { IfOk result (λ ts. TasksHeld store.now ts.items) }
    ensures tasks { IfOk result (λ ts. limited (tasks_at store.now tasks.items)
        ≡ Ok (tasks_at store.now ts.items)) }
    ensures fault { IfErr result (IsStageFault (limited (tasks_at store.now tasks.items))) }
{
    match limit_tasks(store, tasks) {
        Ok(tasks) => Ok(tasks),
        Err(_) => Err(StageFault::TooLarge),
    }
}

/// A transformation of tasks, with what brings refutations of its tasks back.
pub trait Transform {
    /// Which tasks a task becomes, however large they are, or the place of a declaration for which it becomes none.
    ghost equation: { Self → TaskEquation };

    /// The tasks of the equation, however large they are, or why the stage gives none: a transformation whose tasks can't be
    /// made where they are too large may answer `TooLarge` here, and only there.
    fn make(&self, alloc: Global, store: &mut Store, task: &Task) -> Result<Vec<Task>, StageFault>
        requires held { TaskHeld store.old task.now }
        requires valid { IsValid (task_at store.old task.now) }
        ensures held { IfOk result (λ ts. TasksHeld store.new ts.items) }
        ensures tasks { IfOk result (λ ts. equation self.now (task_at store.old task.now)
            ≡ Ok (tasks_at store.new ts.items)) }
        ensures fault { IfErr result
            (IsStageFault (stage_equation (equation self.now) (task_at store.old task.now))) }
        ensures grows { Grows store.old store.new };

    /// The tasks, or the declaration that the transformation doesn't take, or `TooLarge` where a task has more than 2^20 tree
    /// nodes or a tree that is higher than 2,000, or they have more than 2^23 nodes together.
    final fn apply(
        &self,
        alloc: Global,
        store: &mut Store,
        task: &Task,
    ) -> Result<Vec<Task>, StageFault>
        requires held { TaskHeld store.old task.now }
        requires valid { IsValid (task_at store.old task.now) }
        ensures held { IfOk result (λ ts. TasksHeld store.new ts.items) }
        ensures tasks { IfOk result (λ ts. Gives (equation self.now) (task_at store.old task.now)
            (tasks_at store.new ts.items)) }
        ensures fault { IfErr result
            (IsStageFault (stage_equation (equation self.now) (task_at store.old task.now))) }
        ensures grows { Grows store.old store.new }
    {
        match self.make(alloc, store, task) {
            Ok(tasks) => limited_tasks(store, tasks),
            Err(fault) => Err(fault),
        }
    }

    /// A step whose sequent is the negation of a fact of `to` at these types, alone: a proposition, the equation of a
    /// definition, a clause or an inversion formula, by its name, of a task that the draft's task becomes. `formula` is
    /// the fact at the types, as the step that cites it has it.
    fn fact(
        &self,
        from: &Task,
        to: &Task,
        name: Fact,
        types: &[TermId],
        formula: TermId,
        draft: &mut Draft,
    ) -> Result<usize, AllocError>
        requires stage { InStage (equation self.now) draft.old from.now to.now }
        requires types_held { All (Holds draft.old.trees) types.now }
        requires formula { IsFormulaAt draft.old formula }
        requires fact { IsFact draft.old.task (task_at draft.old.trees to.now) name
            (trees_at draft.old.trees types.now) (tree_at draft.old.trees formula) }
        ensures refutes { IfOk result (λ k. Refutes draft.new k
            (neg (tree_at draft.old.trees formula) ∷ [])) }
        ensures grows { Extends draft.old draft.new };

    /// From steps whose sequents are the starts of `to`, the tasks that the draft's task becomes, a step whose sequent is
    /// the start of the draft's task.
    fn glue(
        &self,
        from: &Task,
        to: &Vec<Task>,
        ends: &[usize],
        draft: &mut Draft,
    ) -> Result<usize, AllocError>
        requires own { IsOwnTask draft.old from.now }
        requires to_held { TasksHeld draft.old.trees to.now.items }
        requires gives { Gives (equation self.now) draft.old.task
            (tasks_at draft.old.trees to.now.items) }
        requires ends { EndIn draft.old ends.now (tasks_at draft.old.trees to.now.items) }
        ensures refutes { IfOk result (λ k. Refutes draft.new k (start draft.old.task)) }
        ensures grows { Extends draft.old draft.new };

    /// The tasks that a stage makes of a valid task have its symbols, declare the same, and are valid; their algebraic and inductive groups
    /// are its own.
    ghost keeps: { (x : Self) (t : TaskTree) (ts : List TaskTree) → IsValid t → Gives (equation x) t ts → All (Keeps t) ts };
}
