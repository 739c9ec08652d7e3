// Tasks whose formulas are changed by one function, everywhere or in the goal alone: what such a task declares stays, and it is valid
// where the function keeps the typing of formulas and the task isn't too large; no code.
//
// Contract: definitions and laws.

ghost use Rattle.evidence.specs.changed_tasks.Laws.{ChangedTasksDeclareTheSame, ChangedTasksAreValid, LargeTasksAreRefused};

/// The laws of tasks whose propositions, locals and goal are changed, or whose goal alone is: they
/// declare the same symbols as the same, and of a valid task are valid where they aren't too large and
/// where what a formula becomes is typed as the formula is; and a task that is too large is refused. It
/// does nothing when it runs.
pub fn law_of_changed_tasks()
    ensures declares { ChangedTasksDeclareTheSame }
    ensures valid { ChangedTasksAreValid }
    ensures large { LargeTasksAreRefused }
{}
