// Which lines are right.
// They depend on what a line makes and on the kernel's conditions; the reader of lines depends on them.
ghost use Rattle.std.specs.Prelude.{◌≡◌, ◌≤◌, ◌↔◌, IsTrue, IfOk, OnOk, IfSome, IfNone};
ghost use Rattle.std.specs.Option.{ForSome};
ghost use Rattle.tasks.specs.trees.Tree.{height};
ghost use Rattle.tasks.specs.trees.Node.{tree_at, Holds, Grows};
ghost use Rattle.tasks.specs.trees.Facts.{Each};
ghost use Rattle.tasks.specs.Meaning.{task_at};
ghost use Rattle.rules.specs.Trees.{rule_trees};
ghost use Rattle.rules.specs.Meaning.{rule_at, step_at, steps_at, StepHeld, StepsHeld};
ghost use Rattle.kernel.specs.Open.{OpenIn, StepIsOpen, TemplateIsOpen};
ghost use Rattle.kernel.specs.Right.{IsRight};
ghost use Rattle.step_lines.specs.Made.{IsMadeThing, ThingHeld, thing_at};
ghost use Rattle.step_reading.specs.Marks.{AreMarkedTyped};
ghost use Rattle.step_reading.specs.Lines.{IsGoodTree, IsGood, LineIsRight, line_thing};
ghost use Rattle.step_reading.specs.Reading.{ReaderHeld, MakesGood, ReadHeld, reading_at};

use crate::marks::{are_marked, has_mark, is_open};
use crate::quick_steps::is_right_step;
use crate::read::Read;
use crate::words::split;
use kernel::right_step;
use name_tables::name_entries::NameEntry;
use rules::{Rule, Step};
use std::alloc::{AllocError, Global};
use step_lines::tree_lines::{EarlierLines, TableNames};
use step_lines::{MadeThing, made_by_line};
use tasks::{Index, Lookup, Parts, Store, Task, TermId};

/// What lines are read with: a task with its index, a table with its names, and the height that no tree may pass.
#[derive(Clone, Copy)]
pub(crate) struct Reader<'a> {
    pub task: &'a Task,
    pub index: &'a Index,
    pub table: &'a [NameEntry],
    pub names: &'a TableNames,
    pub tallest: Option<u64>,
}

// Whether a tree is no taller than so many nodes.
fn is_no_taller(store: &Store, id: TermId, most: u64) -> bool
    requires { Holds store.now id }
    ensures { IsTrue result ↔ (height (tree_at store.now id) ≤ most) }
{
    if most == 0 {
        return false;
    }
    match store.node(id).parts() {
        Parts::None => true,
        Parts::One(a) => is_no_taller(store, a, most - 1),
        Parts::Two(a, b) => is_no_taller(store, a, most - 1) && is_no_taller(store, b, most - 1),
        Parts::Three(a, b, c) => is_no_taller(store, a, most - 1)
            && is_no_taller(store, b, most - 1)
            && is_no_taller(store, c, most - 1),
    }
}

// Whether a tree is no taller than the tallest. The store keeps heights below the greatest number, and no store has a tree
// of another.
fn is_low(store: &Store, tallest: Option<u64>, id: TermId) -> bool
    requires { Holds store.now id }
    ensures { IsTrue result ↔ ForSome tallest (λ n. height (tree_at store.now id) ≤ n) }
{
    match tallest {
        Some(most) => {
            let known = store.height(id);
            if known < u64::MAX {
                known <= most
            } else {
                is_no_taller(store, id, most)
            }
        }
        None => true,
    }
}

// Whether a tree is so, and typed as far as it goes.
fn is_good_tree(
    store: &Store,
    x: &Reader<'_>,
    marks: &mut Vec<bool>,
    id: TermId,
) -> Result<bool, AllocError>
    requires reader { ReaderHeld store.now x.now }
    requires held { Holds store.now id }
    requires marks { AreMarkedTyped (task_at store.now x.now.task.now) store.now marks.old.items }
    ensures good { IfOk result (λ b. IsTrue b ↔ IsGoodTree (task_at store.now x.now.task.now)
        x.now.tallest (tree_at store.now id)) }
    ensures marks { OnOk result (AreMarkedTyped (task_at store.now x.now.task.now) store.now
        marks.new.items) }
{
    if !is_low(store, x.tallest, id) {
        return Ok(false);
    }
    is_open(store, x.task, x.index, marks, id)
}

// Whether the terms and formulas that a rule names are marked.
fn names_marked(store: &Store, task: &Task, marks: &[bool], rule: &Rule) -> bool
    requires { AreMarkedTyped (task_at store.now task.now) store.now marks.now }
    ensures { IsTrue result → Each (OpenIn (task_at store.now task.now))
        (rule_trees (rule_at store.now rule.now)) }
{
    match rule {
        Rule::Forall(_, e) | Rule::NotExists(_, e) => has_mark(store, task, marks, *e),
        Rule::Cut(e) | Rule::Refl(e) | Rule::LetDef(e) | Rule::IfDef(e) => {
            has_mark(store, task, marks, *e)
        }
        Rule::MatchDef(e) | Rule::Case(e) | Rule::Project(e) => has_mark(store, task, marks, *e),
        Rule::Bound(e, _) => has_mark(store, task, marks, *e),
        Rule::Trichotomy(a, b) => {
            has_mark(store, task, marks, *a) && has_mark(store, task, marks, *b)
        }
        _ => true,
    }
}

// Whether the template of a replacement is marked.
fn template_marked(store: &Store, task: &Task, marks: &[bool], rule: &Rule) -> bool
    requires { AreMarkedTyped (task_at store.now task.now) store.now marks.now }
    ensures { IsTrue result → TemplateIsOpen (task_at store.now task.now)
        (rule_at store.now rule.now) }
{
    match rule {
        Rule::Replace(_, _, e) => has_mark(store, task, marks, *e),
        _ => true,
    }
}

// Whether all trees of a step are marked.
fn step_marked(store: &Store, task: &Task, marks: &[bool], step: &Step) -> bool
    requires { AreMarkedTyped (task_at store.now task.now) store.now marks.now }
    ensures { IsTrue result → StepIsOpen (task_at store.now task.now) store.now step.now }
{
    are_marked(store, task, marks, step.sequent.as_slice())
        && names_marked(store, task, marks, &step.rule)
        && template_marked(store, task, marks, &step.rule)
        && are_marked(store, task, marks, step.rule.types())
}

// Whether a step is right. Trees that are marked aren't typed again; where one isn't, all of the step's are.
fn is_right(
    alloc: Global,
    store: &mut Store,
    x: &Reader<'_>,
    marks: &[bool],
    before: &[Step],
    step: &Step,
) -> Result<bool, AllocError>
    requires reader { ReaderHeld store.old x.now }
    requires marks { AreMarkedTyped (task_at store.old x.now.task.now) store.old marks.now }
    requires before_held { StepsHeld store.old before.now }
    requires step_held { StepHeld store.old step.now }
    ensures right { IfOk result (λ b. IsTrue b ↔ IsRight (task_at store.old x.now.task.now)
        (steps_at store.old before.now) (step_at store.old step.now)) }
    ensures grows { Grows store.old store.new }
{
    if !step_marked(store, x.task, marks, step) {
        return Ok(right_step(store, x.task, before, step));
    }
    let look = Lookup::with_index(x.task, x.index);
    is_right_step(alloc, store, &look, before, step)
}

// Whether a thing is good over the steps before it.
fn is_good(
    alloc: Global,
    store: &mut Store,
    x: &Reader<'_>,
    marks: &mut Vec<bool>,
    before: &[Step],
    thing: &MadeThing,
) -> Result<bool, AllocError>
    requires reader { ReaderHeld store.old x.now }
    requires marks { AreMarkedTyped (task_at store.old x.now.task.now) store.old marks.old.items }
    requires before_held { StepsHeld store.old before.now }
    requires thing_held { ThingHeld store.old thing.now }
    ensures good { IfOk result (λ b. IsTrue b ↔ IsGood (task_at store.old x.now.task.now)
        x.now.tallest (steps_at store.old before.now) (thing_at store.old thing.now)) }
    ensures marks { OnOk result (AreMarkedTyped (task_at store.old x.now.task.now) store.new
        marks.new.items) }
    ensures grows { Grows store.old store.new }
{
    match thing {
        MadeThing::Type(ty) => is_good_tree(store, x, marks, *ty),
        MadeThing::Pattern(p) => is_good_tree(store, x, marks, *p),
        MadeThing::Expression(e) => is_good_tree(store, x, marks, *e),
        MadeThing::Derived(step) => is_right(alloc, store, x, marks, before, step),
    }
}

// What a line makes.
fn line_thing(
    alloc: Global,
    store: &mut Store,
    x: &Reader<'_>,
    read: &Read,
    line: &[u8],
) -> Result<Option<MadeThing>, AllocError>
    requires reader { ReaderHeld store.old x.now }
    requires read { ReadHeld store.old read.now }
    ensures made { IfOk result (IsMadeThing store.new
        (line_thing (task_at store.old x.now.task.now) x.now.table.now
        (reading_at store.old read.now).earlier line.now)) }
    ensures grows { Grows store.old store.new }
{
    let words = split(alloc, line)?;
    let known = EarlierLines {
        task: x.task,
        table: x.table,
        names: x.names,
        types: &read.types,
        patterns: &read.patterns,
        expressions: &read.expressions,
    };
    made_by_line(alloc, store, &known, &words)
}

/// What a line makes, where the line is right over what was read so far.
pub(crate) fn right_thing(
    alloc: Global,
    store: &mut Store,
    x: &Reader<'_>,
    read: &Read,
    marks: &mut Vec<bool>,
    line: &[u8],
) -> Result<Option<MadeThing>, AllocError>
    requires reader { ReaderHeld store.old x.now }
    requires read { ReadHeld store.old read.now }
    requires marks { AreMarkedTyped (task_at store.old x.now.task.now) store.old marks.old.items }
    ensures none { IfOk result (λ o. IfNone o
        (LineIsRight (task_at store.old x.now.task.now) x.now.table.now x.now.tallest
        (reading_at store.old read.now) line.now → ⊥)) }
    ensures some { IfOk result (λ o. IfSome o
        (λ thing. MakesGood (task_at store.old x.now.task.now) x.now.table.now x.now.tallest
        (reading_at store.old read.now) line.now (thing_at store.new thing))) }
    ensures held { IfOk result (λ o. IfSome o (ThingHeld store.new)) }
    ensures marks { OnOk result
        (AreMarkedTyped (task_at store.old x.now.task.now) store.new marks.new.items) }
    ensures grows { Grows store.old store.new }
{
    let Some(thing) = line_thing(alloc, store, x, read, line)? else {
        return Ok(None);
    };
    if is_good(alloc, store, x, marks, &read.steps, &thing)? {
        Ok(Some(thing))
    } else {
        Ok(None)
    }
}
