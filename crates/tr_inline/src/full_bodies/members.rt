// The members of lists of types and of terms.
ghost use Rattle.std.specs.Prelude.{◌≡◌, ◌++◌, OnOk, IfOk};
ghost use Rattle.trees.specs.Node.{tree_at, trees_at, Holds};
ghost use Rattle.trees.specs.Sorts.{IsList};
ghost use Rattle.tasks.specs.Typing.{members};
ghost use Rattle.trees.specs.binders.Visits.{AreHeldOfSort};

use std::alloc::{AllocError, Global};
use trees::store::Store;
use trees::{Node, Sort, TermId};

// Appends the members of a list of things of this sort.
fn push_members(
    store: &Store,
    list: TermId,
    sort: Sort,
    made: &mut Vec<TermId>,
) -> Result<(), AllocError>
    requires held { Holds store.now list }
    requires list { IsList sort (tree_at store.now list) }
    requires made { AreHeldOfSort sort store.now made.old.items }
    ensures are { OnOk result (trees_at store.now made.new.items ≡ trees_at store.now made.old.items
        ++ members (tree_at store.now list)) }
    ensures made { OnOk result (AreHeldOfSort sort store.now made.new.items) }
{
    match store.node(list) {
        Node::Cell(first, rest) => {
            made.push(first)?;
            push_members(store, rest, sort, made)
        }
        _ => Ok(()),
    }
}

/// The members of a list of things of this sort.
pub fn list_members(
    alloc: Global,
    store: &Store,
    list: TermId,
    sort: Sort,
) -> Result<Vec<TermId>, AllocError>
    requires held { Holds store.now list }
    requires list { IsList sort (tree_at store.now list) }
    ensures are { IfOk result (λ v. trees_at store.now v.items ≡ members (tree_at store.now list)) }
    ensures held { IfOk result (λ v. AreHeldOfSort sort store.now v.items) }
{
    let mut made = Vec::new(alloc);
    push_members(store, list, sort, &mut made)?;
    Ok(made)
}
