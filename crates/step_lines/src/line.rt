// What a line makes.
// It depends on the lines of trees and of steps.
ghost use Rattle.std.specs.Prelude.{IfOk};
ghost use Rattle.trees.specs.Node.{Grows};
ghost use Rattle.tasks.specs.Meaning.{task_at};
ghost use Rattle.step_lines.specs.tree_lines.Words.{texts};
ghost use Rattle.step_lines.specs.tree_lines.Made.{KnownHeld, earlier_at};
ghost use Rattle.step_lines.specs.Steps.{line_made};
ghost use Rattle.step_lines.specs.Made.{IsMadeThing};

use crate::steps::line_step;
use crate::thing::MadeThing;
use crate::tree_lines::{EarlierLines, line_expression, line_pattern, line_type};
use crate::words::is;
use std::alloc::{AllocError, Global};
use trees::store::Store;

/// What a line makes, by its words; none where they make nothing, or a tree whose parts don't fit. Only want of memory
/// refuses.
pub fn made_by_line(
    alloc: Global,
    store: &mut Store,
    x: &EarlierLines<'_>,
    words: &[&[u8]],
) -> Result<Option<MadeThing>, AllocError>
    requires { KnownHeld store.old x.now }
    ensures made { IfOk result (IsMadeThing store.new
        (line_made (task_at store.old x.now.task.now) x.now.table.now
        (earlier_at store.old x.now) (texts words.now))) }
    ensures grows { Grows store.old store.new }
{
    let [first, rest @ ..] = words else {
        return Ok(None);
    };
    if is(first, "y") {
        return match line_type(alloc, store, x, rest)? {
            Some(ty) => Ok(Some(MadeThing::Type(ty))),
            None => Ok(None),
        };
    }
    if is(first, "p") {
        return match line_pattern(alloc, store, x, rest)? {
            Some(pattern) => Ok(Some(MadeThing::Pattern(pattern))),
            None => Ok(None),
        };
    }
    if is(first, "e") {
        return match line_expression(alloc, store, x, rest)? {
            Some(expression) => Ok(Some(MadeThing::Expression(expression))),
            None => Ok(None),
        };
    }
    if is(first, "s") {
        return match line_step(alloc, store, x, rest)? {
            Some(step) => Ok(Some(MadeThing::Derived(step))),
            None => Ok(None),
        };
    }
    Ok(None)
}
