// The text of a problem.
ghost use Rattle.std.specs.Prelude.{◌≡◌, IfOk, OnOk};
ghost use Rattle.tasks.specs.Meaning.{task_at, TaskHeld};
ghost use Rattle.printed_problems.specs.Made.{problem_at, ProblemHeld};
ghost use Rattle.part_texts.specs.smt_texts.Text.{smt_text_by, smt_text};
ghost use Rattle.printed_problems.specs.printed_terms.Meaning.{printing, CanPrint, Appends};

use crate::smt_texts::lines::{
    push_assertions, push_goal, push_head, push_parameter_lines, push_sort_lines, push_symbol_lines,
};
use drivers::driver_parts::Driver;
use name_tables::Things;
use printed_problems::Problem;
use printed_problems::printed_terms::{TermPrinter, push_preludes};
use std::alloc::{AllocError, Global};
use tasks::Task;
use trees::store::Store;

/// Appends the text of a task's problem, with what is in its table and its names. Only want of memory refuses.
pub fn push_smt_problem(
    c: &TermPrinter<'_>,
    out: &mut Vec<u8>,
    task: &Task,
    problem: &Problem,
    part: usize,
    parts: usize,
) -> Result<(), AllocError>
    requires can { CanPrint c.now }
    requires held { TaskHeld c.now.store.now task.now }
    requires problem_held { ProblemHeld c.now.store.now problem.now }
    ensures { OnOk result (Appends out.old.items
        (smt_text_by (printing c.now) (task_at c.now.store.now
        task.now) (problem_at c.now.store.now problem.now) part parts) out.new.items) }
{
    push_head(c.alloc, out, part, parts)?;
    push_preludes(out, problem.preludes.as_slice())?;
    push_sort_lines(c, out, problem.sorts.as_slice())?;
    push_symbol_lines(
        c,
        out,
        task.sig.symbols.as_slice(),
        problem.symbols.as_slice(),
    )?;
    push_parameter_lines(c, out, task.params.as_slice())?;
    push_assertions(c, out, problem.facts.as_slice())?;
    push_assertions(c, out, problem.locals.as_slice())?;
    push_goal(c, out, problem.goal)?;
    out.extend_from_slice(b"(check-sat)\n")
}

/// The text of a task's problem under a driver, as a part of so many, counted from 1. Only want of memory refuses.
pub fn smt_text(
    alloc: Global,
    store: &Store,
    task: &Task,
    driver: &Driver,
    problem: &Problem,
    part: usize,
    parts: usize,
) -> Result<Vec<u8>, AllocError>
    requires held { TaskHeld store.now task.now }
    requires problem_held { ProblemHeld store.now problem.now }
    ensures { IfOk result (λ v. v.items ≡ smt_text driver.now (task_at store.now task.now)
        (problem_at store.now problem.now) part parts) }
{
    let things = Things::of_problem(alloc, store, task)?;
    let c = TermPrinter {
        alloc,
        store,
        driver,
        things: &things,
        names: problem.names.as_slice(),
    };
    let mut out = Vec::new(alloc);
    push_smt_problem(&c, &mut out, task, problem, part, parts)?;
    Ok(out)
}
