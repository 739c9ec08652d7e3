// The lines of all terms and formulas.
// They depend on plain lines, on symbols on terms and on matches; nothing else of this crate depends on them.
ghost use Rattle.std.specs.Prelude.{IfOk};
ghost use Rattle.tasks.specs.trees.Node.{tree_at, Holds};
ghost use Rattle.step_writing.specs.tree_writing.Referring.{words_of};
ghost use Rattle.step_writing.specs.tree_writing.Naming.{SourceHeld};
ghost use Rattle.step_writing.specs.tree_writing.Used.{IsNamed, IsWritable, NodeLines, ExpressionBack};

use crate::tree_writing::branches::match_words;
use crate::tree_writing::naming::Source;
use crate::tree_writing::plain::plain_words;
use crate::tree_writing::used::applied_words;
use std::alloc::{AllocError, Global};
use tasks::{Node, TermId};

/// The words of the line of a term or a formula, which are read back as it wherever the lines before it are those.
/// Only want of memory refuses.
pub(crate) fn expression_words(
    alloc: Global,
    x: &Source<'_>,
    id: TermId,
) -> Result<Vec<Vec<u8>>, AllocError>
    requires source { SourceHeld x.now }
    requires held { Holds x.now.store.now id }
    requires expression { IsWritable (tree_at x.now.store.now id) }
    requires named { IsNamed x.now.table.now (tree_at x.now.store.now id) }
    requires lines { NodeLines x.now.store.now x.now.lines.now (tree_at x.now.store.now id) }
    ensures { IfOk result (λ v. ExpressionBack x.now.store.now x.now.table.now x.now.lines.now
        (tree_at x.now.store.now id) (words_of v.items)) }
{
    match x.store.node(id) {
        Node::Fun(_, _, _, _) | Node::Pred(_, _, _) => applied_words(alloc, x, id),
        Node::Case(term, list) => match_words(alloc, x, term, list),
        _ => plain_words(alloc, x, id),
    }
}
