// The members of lists in a store.
ghost use Rattle.std.specs.Prelude.{◌≡◌, ◌<◌, ◌≤◌, ◌++◌, All, IfOk, OnOk};
ghost use Rattle.trees.specs.declared.TermId.{TermId};
ghost use Rattle.trees.specs.Node.{tree_at, Holds};
ghost use Rattle.tasks.specs.Typing.{members};
ghost use Rattle.tasks.specs.Meaning.{trees_at};
ghost use Rattle.printed_problems.specs.printed_terms.Meaning.{AreListMembers};

use std::alloc::{AllocError, Global};
use trees::store::{Node, Store, TermId};

// Appends the members of a list.
fn push_members(
    store: &Store,
    list: TermId,
    made: &mut Vec<TermId>,
    below: usize,
) -> Result<(), AllocError>
    requires held { Holds store.now list }
    requires within { list.0 ≤ below }
    requires below { All (λ (id : TermId). id.0 < below) made.old.items }
    ensures are { OnOk result (trees_at store.now made.new.items ≡ trees_at store.now made.old.items
        ++ members (tree_at store.now list)) }
    ensures below { OnOk result (All (λ (id : TermId). id.0 < below) made.new.items) }
{
    match store.node(list) {
        Node::Cell(first, rest) => {
            made.push(first)?;
            push_members(store, rest, made, below)
        }
        _ => Ok(()),
    }
}

/// The members of a list.
pub(crate) fn members(alloc: Global, store: &Store, list: TermId) -> Result<Vec<TermId>, AllocError>
    requires { Holds store.now list }
    ensures { IfOk result (λ v. AreListMembers store.now list v.items) }
{
    let mut made = Vec::new(alloc);
    push_members(store, list, &mut made, list.0)?;
    Ok(made)
}
