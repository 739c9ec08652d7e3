// What the lines of a file have made so far.
// It depends on steps; the reader of lines depends on it.
ghost use Rattle.std.specs.Prelude.{◌≡◌, OnOk};
ghost use Rattle.step_reading.specs.Reading.{IsReadKept};

use rules::Step;
use std::alloc::AllocError;
use step_lines::MadeThing;
use tasks::TermId;

/// What the lines so far have made, each kind counted from 0.
#[derive(Drop)]
pub(crate) struct Read {
    pub types: Vec<TermId>,
    pub patterns: Vec<TermId>,
    pub expressions: Vec<TermId>,
    pub steps: Vec<Step>,
}

/// Puts a thing after those of its kind.
pub(crate) fn keep(read: &mut Read, thing: MadeThing) -> Result<(), AllocError>
    ensures { OnOk result (IsReadKept thing read.old read.new) }
{
    match thing {
        MadeThing::Type(ty) => read.types.push(ty)?,
        MadeThing::Pattern(pattern) => read.patterns.push(pattern)?,
        MadeThing::Expression(expression) => read.expressions.push(expression)?,
        MadeThing::Derived(step) => read.steps.push(step)?,
    }
    Ok(())
}

/// The steps, and no more lines.
pub(crate) fn into_steps(read: Read) -> Vec<Step>
    ensures { result.items ≡ read.steps.items }
{
    let Read {
        types: _,
        patterns: _,
        expressions: _,
        steps,
    } = read;
    steps
}
