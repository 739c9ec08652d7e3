// The problem of a task under a driver.
ghost use Rattle.std.specs.Prelude.{◌≡◌, ◌++◌, List, All, IfOk, OnOk, None};
ghost use Rattle.trees.specs.Tree.{Tree};
ghost use Rattle.trees.specs.Node.{Holds};
ghost use Rattle.tasks.specs.Meaning.{trees_at, body_at, task_at, BodyHeld, DeclHeld, TaskHeld};
ghost use Rattle.drivers.specs.driver_items.Syntaxes.{syntax_of};
ghost use Rattle.drivers.specs.declared.driver_items.kinds.Syntax.{Syntax};
ghost use Rattle.name_tables.specs.Tables.{problem_things};
ghost use Rattle.name_tables.specs.Seen.{seen_occurrences, KeysHeld};
ghost use Rattle.printed_problems.specs.Problems.{problem_of};
ghost use Rattle.printed_problems.specs.Faults.{print_fault};
ghost use Rattle.printed_problems.specs.Checks.{MeetsFault};
ghost use Rattle.printed_problems.specs.Checked.{IsChecked};
ghost use Rattle.printed_problems.specs.Shared.{IsShared};
ghost use Rattle.printed_problems.specs.Made.{problem_at, ProblemHeld, HasTheory, text_if, IsPreludeTold, PushesTold, ArePreludes, AreNumberedFacts, said_formulas};

use crate::checked::Checked;
use crate::checks::{Checker, check_task};
use crate::fault::PrintFault;
use crate::places::{Question, places_of};
use crate::printed::Problem;
use drivers::driver_parts::Driver;
use name_tables::{Noted, Things, names_of};
use std::alloc::{AllocError, Global};
use tasks::{Body, Decl, Seq, Task, Text};
use trees::store::{Store, TermId};

// Whether a theory has a declaration among these.
fn has_theory(decls: &[Decl], path: &[u8]) -> bool
    ensures { HasTheory decls.now path.now result }
{
    for decl in decls {
        if decl.theory.as_slice() == path {
            return true;
        }
    }
    false
}

// Appends a prelude, if it is told to.
fn push_if(
    alloc: Global,
    told: bool,
    prelude: &Text,
    made: &mut Vec<Text>,
) -> Result<(), AllocError>
    ensures { OnOk result (made.new.items ≡ made.old.items ++ text_if prelude.now told) }
{
    if !told {
        return Ok(());
    }
    made.push(Text::from_slice(alloc, prelude.as_slice())?)?;
    Ok(())
}

// Whether a prelude is asked for: a special one, that of a theory with a declaration among these, or one without a theory.
fn is_told(decls: &[Decl], special: bool, path: &Option<Text>) -> bool
    ensures { IsPreludeTold decls.now special path.now result }
{
    if !special {
        return path.is_none();
    }
    match path {
        Some(theory) => has_theory(decls, theory.as_slice()),
        None => false,
    }
}

// Appends the preludes of theories with a declaration among these, or those without a theory.
fn push_preludes(
    alloc: Global,
    decls: &[Decl],
    special: bool,
    from: &[(Option<Text>, Text)],
    made: &mut Vec<Text>,
) -> Result<(), AllocError>
    ensures { OnOk result (PushesTold decls.now special from.now made.old.items made.new.items) }
{
    for prelude in from {
        push_if(alloc, is_told(decls, special, &prelude.0), &prelude.1, made)?;
    }
    Ok(())
}

// The preludes of a task, in order.
fn preludes_of(alloc: Global, driver: &Driver, task: &Task) -> Result<Seq<Text>, AllocError>
    ensures { IfOk result (ArePreludes driver.now task.now) }
{
    let mut made = Vec::new(alloc);
    let from = driver.preludes.as_slice();
    let decls = task.decls.as_slice();
    push_preludes(alloc, decls, false, from, &mut made)?;
    push_preludes(alloc, decls, true, from, &mut made)?;
    Ok(Seq::from_vec(made))
}

// The propositions of declarations.
fn facts_of(alloc: Global, store: &Store, decls: &[Decl]) -> Result<Seq<TermId>, AllocError>
    requires { All (DeclHeld store.now) decls.now }
    ensures { IfOk result (AreNumberedFacts store.now decls.now) }
{
    let _ = store;
    let mut facts = Seq::new(alloc);
    for decl in decls {
        push_fact(store, &decl.body, &mut facts)?;
    }
    Ok(facts)
}

// Appends what a declaration says.
fn push_fact(store: &Store, body: &Body, facts: &mut Seq<TermId>) -> Result<(), AllocError>
    requires body { BodyHeld store.now body.now }
    requires facts { All (Holds store.now) facts.old }
    ensures held { OnOk result (All (Holds store.now) facts.new) }
    ensures trees { OnOk result (trees_at store.now facts.new ≡ trees_at store.now facts.old ++
        said_formulas (body_at store.now body.now)) }
{
    let _ = store;
    match body {
        Body::Prop(formula) => facts.push(*formula),
        _ => Ok(()),
    }
}

// The problem of a task that can be printed.
fn problem_by(
    alloc: Global,
    store: &Store,
    task: &Task,
    driver: &Driver,
    things: &Things,
) -> Result<Problem, PrintFault>
    requires held { TaskHeld store.now task.now }
    requires things_held { KeysHeld store.now things.now }
    requires things { seen_occurrences store.now things.now
        ≡ problem_things (task_at store.now task.now) }
    ensures problem { IfOk result (λ p. problem_at store.now p ≡ problem_of driver.now (task_at
        store.now task.now)) }
    ensures held { IfOk result (ProblemHeld store.now) }
    ensures memory { MeetsFault result None }
{
    let symbols = places_of(alloc, driver, task, things, Question::IsDeclared)?;
    let sorts = places_of(alloc, driver, task, things, Question::IsSort)?;
    let facts = facts_of(alloc, store, task.decls.as_slice())?;
    let locals = Seq::from_slice(alloc, task.locals.as_slice())?;
    let names = names_of(alloc, store, task, things)?;
    let preludes = preludes_of(alloc, driver, task)?;
    Ok(Problem {
        names: Seq::from_vec(names),
        preludes,
        sorts: Seq::from_vec(sorts),
        symbols: Seq::from_vec(symbols),
        facts,
        locals,
        goal: task.goal,
    })
}

// The problem of a task with these things, or its first fault.
fn problem_of_things(
    alloc: Global,
    store: &Store,
    task: &Task,
    driver: &Driver,
    things: &Things,
    checked: &mut Checked,
) -> Result<Problem, PrintFault>
    requires held { TaskHeld store.now task.now }
    requires things_held { KeysHeld store.now things.now }
    requires things { seen_occurrences store.now things.now
        ≡ problem_things (task_at store.now task.now) }
    requires checked { IsChecked (syntax_of driver.now.printer) store.now checked.old }
    ensures problem { IfOk result (λ p. problem_at store.now p ≡ problem_of driver.now (task_at
        store.now task.now)) }
    ensures held { IfOk result (ProblemHeld store.now) }
    ensures checked { OnOk result (IsChecked (syntax_of driver.now.printer) store.now checked.new) }
    ensures due { MeetsFault result (print_fault driver.now (task_at store.now task.now)) }
{
    let bare = places_of(alloc, driver, task, things, Question::IsBare)?;
    let checker = Checker {
        store,
        task,
        driver,
        things,
        bare: bare.as_slice(),
    };
    check_task(alloc, &checker, checked)?;
    problem_by(alloc, store, task, driver, things)
}

/// The problem of a task under a driver, or its first fault: declaration by declaration, then the types of the parameters, the
/// locals, the goal; at each first a kind or form that the printer lacks, then a schematic type variable, then an interpreted
/// symbol without a template. Want of memory may come at any place.
pub fn problem(
    alloc: Global,
    store: &Store,
    task: &Task,
    driver: &Driver,
) -> Result<Problem, PrintFault>
    requires { TaskHeld store.now task.now }
    ensures problem { IfOk result (λ p. problem_at store.now p ≡ problem_of driver.now (task_at
        store.now task.now)) }
    ensures held { IfOk result (ProblemHeld store.now) }
    ensures due { MeetsFault result (print_fault driver.now (task_at store.now task.now)) }
{
    match Things::of_problem(alloc, store, task) {
        Ok(things) => {
            let mut checked = Checked::new(alloc);
            problem_of_things(alloc, store, task, driver, &things, &mut checked)
        }
        Err(_) => Err(PrintFault::Memory),
    }
}

/// What problems of tasks share: what was noted of declarations, and what was found without a fault.
#[derive(Drop)]
pub struct Shared<'a> {
    pub noted: Noted<'a>,
    pub checked: Checked,
}

impl<'a> Shared<'a> {
    /// What no problems share.
    pub fn new(alloc: Global) -> Shared<'a>
        ensures { (p : Syntax) (s : List Tree) → IsShared p s result }
    {
        Shared {
            noted: Noted::new(alloc),
            checked: Checked::new(alloc),
        }
    }
}

/// The problem of a task under a driver, or its first fault, as `problem`: what was looked at in other tasks isn't looked at
/// again. Parts of one goal mostly differ in their locals and goals alone: the declarations of the second part have the numbers of
/// those of the first one, and what they name, and that it can be printed, is known by these numbers.
pub fn problem_after<'a>(
    alloc: Global,
    store: &Store,
    task: &'a Task,
    driver: &Driver,
    shared: &mut Shared<'a>,
) -> Result<Problem, PrintFault>
    requires shared { IsShared (syntax_of driver.now.printer) store.now shared.old }
    requires held { TaskHeld store.now task.now }
    ensures problem { IfOk result (λ p. problem_at store.now p ≡ problem_of driver.now (task_at
        store.now task.now)) }
    ensures held { IfOk result (ProblemHeld store.now) }
    ensures due { MeetsFault result (print_fault driver.now (task_at store.now task.now)) }
    ensures shared { OnOk result (IsShared (syntax_of driver.now.printer) store.now shared.new) }
{
    match shared.noted.things_of(alloc, store, task) {
        Ok(things) => {
            problem_of_things(alloc, store, task, driver, &things, &mut shared.checked)
        }
        Err(_) => Err(PrintFault::Memory),
    }
}
