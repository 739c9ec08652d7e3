// What is typed as far as it goes, told of a tree by its children.
// It depends on typing; a reader of steps asks it of each line once, and where no variable is open the tree is well typed.
ghost use Rattle.std.specs.Prelude.{◌≡◌, ◌↔◌, IsTrue, length};
ghost use Rattle.trees.specs.Node.{tree_at, node_tree, parts_of, head_of_node, Holds, AreBelow};
ghost use Rattle.trees.specs.binders.Depth.{IsUnder};
ghost use Rattle.tasks.specs.Open.{VariableHas, OpenTyped, PartsAreOpen};
ghost use Rattle.tasks.specs.Typing.{pattern_types};
ghost use Rattle.tasks.specs.typed_trees.Named.{vocabulary_at, VocabularyHeld};
ghost use Rattle.tasks.specs.typed_trees.Variables.{HasAt, CanHave, HaveAt, CanHaveAll, BinderFits};

use crate::typed_trees::enclosing::Binders;
use crate::typed_trees::typing::is_top_typed;
use crate::typed_trees::vocabulary::Vocabulary;
use trees::store::Store;
use trees::{Node, Parts, TermId};

// How many variables a node binds in its second child, whose first child is given, on top of so many.
fn depth_under(store: &Store, node: Node, first: TermId, depth: usize) -> usize
    requires { Holds store.now first }
    ensures { IsUnder depth result (head_of_node node) (tree_at store.now first) }
{
    depth.saturating_add(store.binders(node, first))
}

// Whether the variable of so many binders up has a type wherever it is there. It goes down the open parts alone.
#[tactic(auto, using(crate::proofs::typed_trees::Variables::closed_at, crate::proofs::typed_trees::Variables::bound_at, crate::proofs::typed_trees::Variables::bound_can, crate::proofs::typed_trees::Variables::two_at, crate::proofs::typed_trees::Variables::two_can))]
fn variable_has(store: &Store, e: TermId, depth: usize, ty: TermId) -> bool
    requires e_held { Holds store.now e }
    requires ty_held { Holds store.now ty }
    ensures is { IsTrue result → HasAt depth (tree_at store.now ty) (tree_at store.now e) }
    ensures can { CanHave depth (tree_at store.now ty) (tree_at store.now e) → IsTrue result }
{
    if store.loose(e) <= depth {
        return true;
    }
    let node = store.node(e);
    if let Node::Bound(index, known) = node {
        return index != depth || store.same(known, ty);
    }
    match node.parts() {
        Parts::None => true,
        Parts::One(a) => variable_has(store, a, depth, ty),
        Parts::Two(a, b) => {
            let under = depth_under(store, node, a, depth);
            variable_has(store, a, depth, ty) && variable_has(store, b, under, ty)
        },
        Parts::Three(a, b, c) => variable_has(store, a, depth, ty)
            && variable_has(store, b, depth, ty)
            && variable_has(store, c, depth, ty),
    }
}

/// Whether the innermost open variable of a tree has a type wherever it is there.
#[tactic(auto, using(crate::proofs::typed_trees::Variables::at_zero, crate::proofs::typed_trees::Variables::can_zero))]
pub fn variable_has_type(store: &Store, e: TermId, ty: TermId) -> bool
    requires e_held { Holds store.now e }
    requires ty_held { Holds store.now ty }
    ensures { IsTrue result ↔ VariableHas 0 (tree_at store.now ty) (tree_at store.now e) }
{
    variable_has(store, e, 0, ty)
}

// Whether the variables from so many binders up on have the types of a pattern's variables.
fn variables_have(store: &Store, pattern: TermId, depth: usize, e: TermId) -> bool
    requires pattern_held { Holds store.now pattern }
    requires e_held { Holds store.now e }
    ensures is { IsTrue result → HaveAt depth (pattern_types (tree_at store.now pattern))
        (tree_at store.now e) }
    ensures can { CanHaveAll depth (pattern_types (tree_at store.now pattern))
        (tree_at store.now e) → IsTrue result }
{
    match store.node(pattern) {
        Node::PatVar(ty) => variable_has(store, e, depth, ty),
        Node::PatAlias(a) => match store.ty(a) {
            Some(ty) => variable_has(store, e, depth, ty)
                && variables_have(store, a, depth.saturating_add(1), e),
            None => variables_have(store, a, depth, e),
        },
        Node::Cell(a, b) => {
            let following = depth.saturating_add(store.pattern_variables(b));
            variables_have(store, b, depth, e) && variables_have(store, a, following, e)
        },
        Node::PatCon(_, _, b, _) => variables_have(store, b, depth, e),
        _ => true,
    }
}

// Whether the variables that a node binds in its second child have their types there.
fn binder_fits(store: &Store, node: Node) -> bool
    requires { AreBelow (length store.now) (parts_of node) }
    ensures { IsTrue result ↔ BinderFits (node_tree store.now node) }
{
    match node {
        Node::Forall(a, b) | Node::Exists(a, b) => variable_has(store, b, 0, a),
        Node::Let(a, b) => match store.ty(a) {
            Some(ty) => variable_has(store, b, 0, ty),
            None => true,
        },
        Node::Arm(a, b) => variables_have(store, a, 0, b),
        _ => true,
    }
}

/// Whether a tree whose children are typed as far as they go is so itself. It looks at the top, and at a binder down
/// the open part of its body.
pub fn is_open_typed(store: &Store, v: &Vocabulary<'_>, e: TermId) -> bool
    requires v_held { VocabularyHeld store.now v.now }
    requires held { Holds store.now e }
    requires parts { PartsAreOpen (vocabulary_at store.now v.now) (tree_at store.now e) }
    ensures { IsTrue result ↔ OpenTyped (vocabulary_at store.now v.now) (tree_at store.now e) }
{
    let node = store.node(e);
    if let Node::Bound(_, _) = node {
        return true;
    }
    is_top_typed(store, v, &Binders::Outside, node) && binder_fits(store, node)
}
