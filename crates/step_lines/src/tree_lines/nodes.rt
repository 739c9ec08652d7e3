// Nodes of a line: added where their children fit, lists among them.
// They depend on the store; what a line makes depends on them.
ghost use Rattle.std.specs.Prelude.{◌≡◌, length, Some, All, IfOk, IfSome};
ghost use Rattle.std.specs.Option.{option_map};
ghost use Rattle.trees.specs.Node.{tree_at, node_tree, parts_of, Holds, AreBelow, Grows};
ghost use Rattle.trees.specs.Sorts.{IsList};
ghost use Rattle.trees.specs.declared.Sort.TheVariants.{Kind};
ghost use Rattle.trees.specs.binders.Visits.{HoldTypes};
ghost use Rattle.tasks.specs.Meaning.{trees_at};
ghost use Rattle.step_lines.specs.tree_lines.Named.{cells};
ghost use Rattle.step_lines.specs.tree_lines.Made.{IsTreeMade};

use std::alloc::AllocError;
use trees::store::{Grow, Node, Store, TermId};

/// The tree of a node; none where its children don't fit.
pub(crate) fn add_node(store: &mut Store, node: Node) -> Result<Option<TermId>, AllocError>
    requires { AreBelow (length store.old) (parts_of node) }
    ensures made { IfOk result (IsTreeMade store.new (Some (node_tree store.old node))) }
    ensures grows { Grows store.old store.new }
{
    if store.accepts(node) {
        Ok(Some(store.add(node)?))
    } else {
        Ok(None)
    }
}

/// The tree of a node, where there is one and its children fit.
pub(crate) fn tree_of(store: &mut Store, node: Option<Node>) -> Result<Option<TermId>, AllocError>
    requires { IfSome node (λ n. AreBelow (length store.old) (parts_of n)) }
    ensures made { IfOk result (IsTreeMade store.new (option_map (node_tree store.old) node)) }
    ensures grows { Grows store.old store.new }
{
    match node {
        Some(node) => add_node(store, node),
        None => Ok(None),
    }
}

/// The list of types that are in the store. Out of memory is its one refusal.
pub fn type_list(store: &mut Store, types: &[TermId]) -> Result<TermId, AllocError>
    requires { HoldTypes store.old types.now }
    ensures held { IfOk result (Holds store.new) }
    ensures tree { IfOk result (λ id. tree_at store.new id ≡ cells (trees_at store.old types.now)) }
    ensures list { IfOk result (λ id. IsList Kind (tree_at store.new id)) }
    ensures grows { Grows store.old store.new }
{
    let mut list = store.add(Node::End)?;
    let mut i = types.len();
    while i > 0 {
        i -= 1;
        list = store.add(Node::Cell(types[i], list))?;
    }
    Ok(list)
}

/// The list of trees; none where they don't fit.
pub(crate) fn cell_list(store: &mut Store, items: &[TermId]) -> Result<Option<TermId>, AllocError>
    requires { All (Holds store.old) items.now }
    ensures made { IfOk result (IsTreeMade store.new
        (Some (cells (trees_at store.old items.now)))) }
    ensures grows { Grows store.old store.new }
{
    let mut list = store.add(Node::End)?;
    let mut i = items.len();
    while i > 0 {
        i -= 1;
        match add_node(store, Node::Cell(items[i], list))? {
            Some(longer) => list = longer,
            None => return Ok(None),
        }
    }
    Ok(Some(list))
}
