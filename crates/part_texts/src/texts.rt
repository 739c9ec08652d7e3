// The texts of the parts of a goal, one after another.
// They depend on both printers; the program writes them.
ghost use Rattle.std.specs.Prelude.{◌≡◌, ◌++◌, length, IfOk, OnOk};
ghost use Rattle.tasks.specs.Meaning.{task_at, tasks_at, TaskHeld, TasksHeld};
ghost use Rattle.name_tables.specs.Fronts.{IsFrontNoted};
ghost use Rattle.part_texts.specs.Problems.{AreProblems};
ghost use Rattle.part_texts.specs.Texts.{part_text, part_texts, PrintsTask};

use crate::smt_texts::push_smt_problem;
use crate::tff_texts::push_tff_problem;
use drivers::driver_items::Printer;
use drivers::driver_parts::Driver;
use name_tables::Noted;
use printed_problems::Problem;
use printed_problems::printed_terms::TermPrinter;
use std::alloc::{AllocError, Global};
use tasks::{Store, Task};

// Appends the text of a part, in the syntax of the driver's printer.
fn push_part(
    c: &TermPrinter<'_>,
    out: &mut Vec<u8>,
    task: &Task,
    problem: &Problem,
    part: usize,
    parts: usize,
) -> Result<(), AllocError>
    requires printer { PrintsTask c.now task.now problem.now }
    requires held { TaskHeld c.now.store.now task.now }
    ensures { OnOk result (out.new.items ≡ out.old.items ++ part_text c.now.driver.now part parts
        (task_at c.now.store.now task.now)) }
{
    match c.driver.printer {
        Printer::Smt => push_smt_problem(c, out, task, problem, part, parts),
        Printer::Tff => push_tff_problem(c, out, task, problem, part, parts),
    }
}

// The texts of the parts of a goal, for which these declarations are noted.
fn texts_after<'a>(
    alloc: Global,
    store: &Store,
    driver: &Driver,
    tasks: &'a [Task],
    problems: &[Problem],
    noted: &mut Noted<'a>,
) -> Result<Vec<u8>, AllocError>
    requires held { TasksHeld store.now tasks.now }
    requires problems { AreProblems store.now driver.now (tasks_at store.now tasks.now)
        problems.now }
    requires noted { IsFrontNoted store.now noted.old }
    ensures { IfOk result (λ v. v.items ≡ part_texts driver.now (tasks_at store.now tasks.now)) }
{
    let mut out = Vec::new(alloc);
    let parts = tasks.len();
    for place in 0..parts {
        let task = &tasks[place];
        let problem = &problems[place];
        let things = noted.things_of(alloc, store, task)?;
        let c = TermPrinter {
            alloc,
            store,
            driver,
            things: &things,
            names: problem.names.as_slice(),
        };
        push_part(&c, &mut out, task, problem, place + 1, parts)?;
    }
    Ok(out)
}

/// The texts of the parts of a goal, counted from 1, in the syntax of the driver's printer. Only want of memory refuses.
pub fn part_texts(
    alloc: Global,
    store: &Store,
    driver: &Driver,
    tasks: &[Task],
    problems: &[Problem],
) -> Result<Vec<u8>, AllocError>
    requires held { TasksHeld store.now tasks.now }
    requires problems { AreProblems store.now driver.now (tasks_at store.now tasks.now)
        problems.now }
    ensures { IfOk result (λ v. v.items ≡ part_texts driver.now (tasks_at store.now tasks.now)) }
{
    let mut noted = Noted::new(alloc);
    texts_after(alloc, store, driver, tasks, problems, &mut noted)
}
