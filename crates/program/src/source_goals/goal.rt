// The theories of a source that is fetched, and the task of a goal.
// It depends on the reader of sources; goals under a driver depend on it.
ghost use Rattle.std.specs.Prelude.{IfOk};
ghost use Rattle.tasks.specs.Meaning.{symbols_at, task_at, TaskHeld};
ghost use Rattle.theories.specs.theory_states.goal_tasks.Meaning.{theories_at, AllTheoriesHeld, AreTuples};
ghost use Rattle.statuses.specs.fault_order.Answers.{Answers, IsStageAnswer};
ghost use Rattle.program.specs.source_goals.Order.{SourceTheoriesOf, Goal, TaskOf};
ghost use Rattle.program.specs.source_goals.Sources.{AreSourceTheories, IsSourceTask};
ghost use Rattle.program.specs.source_goals.Values.{theories_in, task_in};

use crate::source_goals::source::read_source;
use statuses::fault_order::{Fault, Library, RunFault, fetch_short};
use std::alloc::Global;
use tasks::{Store, Task};
use theories::{TaskFault, Theories, task_of};

/// The theories of the source, which is the first file.
pub fn fetch_theories<L: Library>(
    alloc: Global,
    lib: &mut L,
    store: &mut Store,
    src: &str,
) -> Result<Theories, RunFault>
    ensures answers { Answers (SourceTheoriesOf src.now) 0 (λ _. 1) (L.state lib.old)
        (L.state lib.new)
        (theories_in store.new result) }
    ensures held { IfOk result (AllTheoriesHeld store.new) }
    ensures tuples { IfOk result (λ all. AreTuples (symbols_at store.new all.sig.value.symbols)) }
    ensures source { IfOk result (λ all. AreSourceTheories (theories_at store.new all)) }
{
    let text = fetch_short(lib, 0, src)?;
    read_source(alloc, store, &text)
}

/// The task of a goal of the source's theories, by their names.
pub fn task_in(
    alloc: Global,
    store: &Store,
    all: &Theories,
    theory: &str,
    goal: &str,
) -> Result<Task, RunFault>
    requires held { AllTheoriesHeld store.now all.now }
    requires tuples { AreTuples (symbols_at store.now all.now.sig.value.symbols) }
    requires source { AreSourceTheories (theories_at store.now all.now) }
    ensures answers { IsStageAnswer (TaskOf theory.now goal.now (theories_at store.now all.now))
        (task_in store.now result) }
    ensures held { IfOk result (TaskHeld store.now) }
    ensures source { IfOk result (λ t. IsSourceTask (task_at store.now t)) }
{
    match task_of(alloc, store, all, theory, goal) {
        Ok(task) => Ok(task),
        Err(TaskFault::Memory) => Err(RunFault::Memory),
        Err(TaskFault::NoTheory) => Err(RunFault::Refused(Fault::NoTheory)),
        Err(TaskFault::NoGoal) => Err(RunFault::Refused(Fault::NoGoal)),
    }
}

/// The task of a goal of a source, by the names of its theory and of itself.
///
/// The source is the first file, with the number 0. The first of these is answered, where one is in the way: the file isn't
/// there, can't be read or is too long (15); what is wrong with its text (10 to 14) or with its theories (20 to 40); it has no such
/// theory (60), or the theory no such goal (61). Else only want of memory refuses.
pub fn find_task<L: Library>(
    alloc: Global,
    lib: &mut L,
    store: &mut Store,
    src: &str,
    theory: &str,
    goal: &str,
) -> Result<Task, RunFault>
    ensures answers { Answers (Goal src.now theory.now goal.now) 0 (λ _. 1) (L.state lib.old)
        (L.state lib.new) (task_in store.new result) }
    ensures held { IfOk result (TaskHeld store.new) }
    ensures source { IfOk result (λ t. IsSourceTask (task_at store.new t)) }
{
    let all = fetch_theories(alloc, lib, store, src)?;
    task_in(alloc, store, &all, theory, goal)
}
