// The text of a problem.
ghost use Rattle.std.specs.Prelude.{◌≡◌, ◌++◌, IfOk, OnOk};
ghost use Rattle.tasks.specs.Meaning.{trees_at, task_at, TaskHeld};
ghost use Rattle.printed_problems.specs.Made.{problem_at, ProblemHeld};
ghost use Rattle.part_texts.specs.tff_texts.Text.{axiom_lines, tff_text_by, tff_text};
ghost use Rattle.printed_problems.specs.printed_terms.Meaning.{printing, CanPrint, Appends};

use crate::tff_texts::lines::{
    push_axioms, push_goal, push_head, push_parameter_lines, push_sort_lines, push_symbol_lines,
};
use drivers::driver_parts::Driver;
use name_tables::Things;
use printed_problems::Problem;
use printed_problems::printed_terms::{TermPrinter, push_preludes};
use std::alloc::{AllocError, Global};
use tasks::Task;
use trees::store::Store;

// Appends the facts and then the locals of a problem as axioms.
fn push_premises(
    c: &TermPrinter<'_>,
    out: &mut Vec<u8>,
    problem: &Problem,
) -> Result<(), AllocError>
    requires can { CanPrint c.now }
    requires held { ProblemHeld c.now.store.now problem.now }
    ensures { OnOk result (Appends out.old.items (axiom_lines (printing c.now) 0 (trees_at
        c.now.store.now problem.now.facts ++ trees_at c.now.store.now problem.now.locals))
        out.new.items) }
{
    let mut premises = Vec::new(c.alloc);
    premises.extend_from_slice(problem.facts.as_slice())?;
    premises.extend_from_slice(problem.locals.as_slice())?;
    push_axioms(c, out, premises.as_slice())
}

/// Appends the text of a task's problem, with what is in its table and its names. Only want of memory refuses.
pub fn push_tff_problem(
    c: &TermPrinter<'_>,
    out: &mut Vec<u8>,
    task: &Task,
    problem: &Problem,
    part: usize,
    parts: usize,
) -> Result<(), AllocError>
    requires can { CanPrint c.now }
    requires held { TaskHeld c.now.store.now task.now }
    requires problem_held { ProblemHeld c.now.store.now problem.now }
    ensures { OnOk result (Appends out.old.items
        (tff_text_by (printing c.now) (task_at c.now.store.now
        task.now) (problem_at c.now.store.now problem.now) part parts) out.new.items) }
{
    push_head(c.alloc, out, part, parts)?;
    push_preludes(out, problem.preludes.as_slice())?;
    push_sort_lines(c, out, problem.sorts.as_slice())?;
    push_symbol_lines(
        c,
        out,
        task.sig.symbols.as_slice(),
        problem.symbols.as_slice(),
    )?;
    push_parameter_lines(c, out, task.params.as_slice())?;
    push_premises(c, out, problem)?;
    push_goal(c, out, problem.goal)
}

/// The text of a task's problem under a driver, as a part of so many, counted from 1. Only want of memory refuses.
pub fn tff_text(
    alloc: Global,
    store: &Store,
    task: &Task,
    driver: &Driver,
    problem: &Problem,
    part: usize,
    parts: usize,
) -> Result<Vec<u8>, AllocError>
    requires held { TaskHeld store.now task.now }
    requires problem_held { ProblemHeld store.now problem.now }
    ensures { IfOk result (λ v. v.items ≡ tff_text driver.now (task_at store.now task.now)
        (problem_at store.now problem.now) part parts) }
{
    let things = Things::of_problem(alloc, store, task)?;
    let c = TermPrinter {
        alloc,
        store,
        driver,
        things: &things,
        names: problem.names.as_slice(),
    };
    let mut out = Vec::new(alloc);
    push_tff_problem(&c, &mut out, task, problem, part, parts)?;
    Ok(out)
}
