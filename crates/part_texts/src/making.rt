// The problems of the parts of a goal.
// They depend on the problem of one task; the texts of parts depend on them.
ghost use Rattle.std.specs.Prelude.{◌≡◌, IfOk, IfErr, OnOk, None};
ghost use Rattle.drivers.specs.driver_items.Syntaxes.{syntax_of};
ghost use Rattle.tasks.specs.Meaning.{task_at, tasks_at, TaskHeld, TasksHeld};
ghost use Rattle.printed_problems.specs.Faults.{print_fault};
ghost use Rattle.printed_problems.specs.Problems.{problem_of};
ghost use Rattle.printed_problems.specs.Made.{IsProblem};
ghost use Rattle.printed_problems.specs.Shared.{IsShared};
ghost use Rattle.part_texts.specs.Problems.{AreProblems, IsPartFault, part_fault_at, first_fault};

use crate::fault::{PartFault, fault_of};
use drivers::driver_parts::Driver;
use printed_problems::{Problem, Shared, problem_after};
use std::alloc::Global;
use tasks::{Store, Task};

// The problem of a part.
fn problem_at<'a>(
    alloc: Global,
    store: &Store,
    driver: &Driver,
    task: &'a Task,
    part: usize,
    shared: &mut Shared<'a>,
) -> Result<Problem, PartFault>
    requires held { TaskHeld store.now task.now }
    requires shared { IsShared (syntax_of driver.now.printer) store.now shared.old }
    ensures problem { IfOk result (IsProblem store.now (problem_of driver.now
        (task_at store.now task.now))) }
    ensures none { IfOk result (λ _. print_fault driver.now (task_at store.now task.now) ≡ None) }
    ensures fault { IfErr result (IsPartFault (part_fault_at part (print_fault driver.now
        (task_at store.now task.now)))) }
    ensures shared { OnOk result (IsShared (syntax_of driver.now.printer) store.now shared.new) }
{
    match problem_after(alloc, store, task, driver, shared) {
        Ok(made) => Ok(made),
        Err(fault) => Err(fault_of(part, fault)),
    }
}

// The problems of the parts of a goal, which share these notes.
fn problems_after<'a>(
    alloc: Global,
    store: &Store,
    driver: &Driver,
    tasks: &'a [Task],
    shared: &mut Shared<'a>,
) -> Result<Vec<Problem>, PartFault>
    requires held { TasksHeld store.now tasks.now }
    requires shared { IsShared (syntax_of driver.now.printer) store.now shared.old }
    ensures problems { IfOk result (λ v. AreProblems store.now driver.now (tasks_at store.now
        tasks.now) v.items) }
    ensures none { IfOk result (λ _. first_fault driver.now 1 (tasks_at store.now tasks.now)
        ≡ None) }
    ensures fault { IfErr result (IsPartFault (first_fault driver.now 1 (tasks_at store.now
        tasks.now))) }
{
    let mut made = Vec::new(alloc);
    for (place, task) in tasks.iter().enumerate() {
        made.push(problem_at(alloc, store, driver, task, place + 1, shared)?)?;
    }
    Ok(made)
}

/// The problems of the parts of a goal under a driver, in order.
///
/// The first fault of the first part that has one is answered: declaration by declaration, then the types of the parameters, the
/// locals, the goal; at each `Unprintable`, then `Polymorphic`, then `NoSyntax`. Else only want of memory refuses.
pub fn problems_of(
    alloc: Global,
    store: &Store,
    driver: &Driver,
    tasks: &[Task],
) -> Result<Vec<Problem>, PartFault>
    requires { TasksHeld store.now tasks.now }
    ensures problems { IfOk result (λ v. AreProblems store.now driver.now (tasks_at store.now
        tasks.now) v.items) }
    ensures none { IfOk result (λ _. first_fault driver.now 1 (tasks_at store.now tasks.now)
        ≡ None) }
    ensures fault { IfErr result (IsPartFault (first_fault driver.now 1 (tasks_at store.now
        tasks.now))) }
{
    let mut shared = Shared::new(alloc);
    problems_after(alloc, store, driver, tasks, &mut shared)
}
