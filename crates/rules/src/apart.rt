// Trees taken apart, as the rows of the table name them.
// They depend on the store; the rows of the table depend on them.
ghost use Rattle.std.specs.Prelude.{◌≡◌, ◌↔◌, Some, IsTrue, IfSome};
ghost use Rattle.std.specs.Option.{option_map};
ghost use Rattle.trees.specs.Tree.{Leaf, HEnd};
ghost use Rattle.trees.specs.Node.{tree_at, Holds};
ghost use Rattle.trees.specs.Sorts.{type_of};
ghost use Rattle.rules.specs.Forms.{negated, universal, existential, equation_sides, application_parts};
ghost use Rattle.rules.specs.Meaning.{pair_at, PairHeld, applied_at, AppliedHeld};

use trees::store::Store;
use trees::{Node, TermId};

/// Of a negation what it negates.
pub fn negated_formula(store: &Store, f: Option<TermId>) -> Option<TermId>
    requires { IfSome f (Holds store.now) }
    ensures tree { option_map (tree_at store.now) result
        ≡ negated (option_map (tree_at store.now) f) }
    ensures held { IfSome result (Holds store.now) }
{
    match store.node(f?) {
        Node::Not(a) => Some(a),
        _ => None,
    }
}

/// The type and the body of a universal formula.
pub fn universal_parts(store: &Store, f: Option<TermId>) -> Option<(TermId, TermId)>
    requires { IfSome f (Holds store.now) }
    ensures tree { option_map (pair_at store.now) result
        ≡ universal (option_map (tree_at store.now) f) }
    ensures held { IfSome result (PairHeld store.now) }
{
    match store.node(f?) {
        Node::Forall(ty, body) => Some((ty, body)),
        _ => None,
    }
}

/// The type and the body of an existential formula.
pub fn existential_parts(store: &Store, f: Option<TermId>) -> Option<(TermId, TermId)>
    requires { IfSome f (Holds store.now) }
    ensures tree { option_map (pair_at store.now) result
        ≡ existential (option_map (tree_at store.now) f) }
    ensures held { IfSome result (PairHeld store.now) }
{
    match store.node(f?) {
        Node::Exists(ty, body) => Some((ty, body)),
        _ => None,
    }
}

/// The sides of an equation.
pub fn equation_sides(store: &Store, f: Option<TermId>) -> Option<(TermId, TermId)>
    requires { IfSome f (Holds store.now) }
    ensures tree { option_map (pair_at store.now) result
        ≡ equation_sides (option_map (tree_at store.now) f) }
    ensures held { IfSome result (PairHeld store.now) }
{
    match store.node(f?) {
        Node::Eq(a, b) => Some((a, b)),
        _ => None,
    }
}

/// A function's symbol, types and arguments.
pub fn application_parts(store: &Store, e: TermId) -> Option<(usize, TermId, TermId)>
    requires { Holds store.now e }
    ensures tree { option_map (applied_at store.now) result
        ≡ application_parts (tree_at store.now e) }
    ensures held { IfSome result (AppliedHeld store.now) }
{
    match store.node(e) {
        Node::Fun(f, types, args, _) => Some((f, types, args)),
        _ => None,
    }
}

/// Whether a term has a type.
pub fn has_type(store: &Store, term: TermId, ty: TermId) -> bool
    requires term_held { Holds store.now term }
    requires ty_held { Holds store.now ty }
    ensures { IsTrue result ↔ (type_of (tree_at store.now term) ≡ Some (tree_at store.now ty)) }
{
    match store.ty(term) {
        Some(known) => store.same(known, ty),
        None => false,
    }
}

/// Whether a tree is the empty list.
pub fn is_end(store: &Store, id: TermId) -> bool
    requires { Holds store.now id }
    ensures { IsTrue result ↔ (tree_at store.now id ≡ Leaf HEnd) }
{
    match store.node(id) {
        Node::End => true,
        _ => false,
    }
}
