// The words of a line.
// They depend on nothing; the reader of lines depends on them.
ghost use Rattle.std.specs.Prelude.{◌≡◌, IfOk, ◌==◌};
ghost use Rattle.step_lines.specs.tree_lines.Words.{texts};
ghost use Rattle.step_reading.specs.Words.{words_in_line};

use std::alloc::{AllocError, Global};

// The words between single spaces.
pub(crate) fn split<'a>(alloc: Global, line: &'a [u8]) -> Result<Vec<&'a [u8]>, AllocError>
    ensures { IfOk result (λ v. texts v.items ≡ words_in_line line.now) }
{
    line.split(|b| *b == b' ').collect(alloc)
}
