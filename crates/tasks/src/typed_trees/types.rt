// The types of terms and patterns, and instances of types, without memory.
// They depend on the store; binders and what is well typed depend on them.
ghost use Rattle.std.specs.Prelude.{◌≡◌, ◌↔◌, IsTrue, IfSome, length, slice_get};
ghost use Rattle.std.specs.Option.{option_map};
ghost use Rattle.trees.specs.Node.{tree_at, Holds};
ghost use Rattle.trees.specs.Sorts.{type_of};
ghost use Rattle.trees.specs.Binding.{typing, inst_types};
ghost use Rattle.tasks.specs.Typing.{members};
ghost use Rattle.tasks.specs.typed_trees.Types.{listed_types_at, TypesHeld};

use trees::binders::{Put, is_changed};
use trees::store::Store;
use trees::{Node, TermId};

/// Types in order: the members of a list in the store, or those of a slice.
#[derive(Clone, Copy)]
pub enum Types<'a> {
    Listed(TermId),
    Given(&'a [TermId]),
}

// The type of a term or pattern.
pub(crate) fn type_of(store: &Store, e: TermId) -> Option<TermId>
    requires { Holds store.now e }
    ensures tree { option_map (tree_at store.now) result ≡ type_of (tree_at store.now e) }
    ensures held { IfSome result (Holds store.now) }
{
    store.ty(e)
}

// Whether two terms or patterns have one type, or both have none.
pub(crate) fn same_types(store: &Store, a: Option<TermId>, b: Option<TermId>) -> bool
    requires a_held { IfSome a (Holds store.now) }
    requires b_held { IfSome b (Holds store.now) }
    ensures { IsTrue result ↔ (option_map (tree_at store.now) a
        ≡ option_map (tree_at store.now) b) }
{
    match (a, b) {
        (Some(a), Some(b)) => store.same(a, b),
        (None, None) => true,
        _ => false,
    }
}

// Whether a list has so many members.
pub(crate) fn has_members(store: &Store, list: TermId, count: usize) -> bool
    requires { Holds store.now list }
    ensures { IsTrue result ↔ (length (members (tree_at store.now list)) ≡ count) }
{
    match store.node(list) {
        Node::Cell(_, rest) => count > 0 && has_members(store, rest, count - 1),
        _ => count == 0,
    }
}

// The member of a list at a place.
fn member(store: &Store, list: TermId, place: usize) -> Option<TermId>
    requires { Holds store.now list }
    ensures tree { option_map (tree_at store.now) result
        ≡ slice_get (members (tree_at store.now list)) place }
    ensures held { IfSome result (Holds store.now) }
{
    match store.node(list) {
        Node::Cell(first, rest) => {
            if place == 0 {
                Some(first)
            } else {
                member(store, rest, place - 1)
            }
        },
        _ => None,
    }
}

// The type at a place.
fn type_at_place(store: &Store, types: Types<'_>, place: usize) -> Option<TermId>
    requires { TypesHeld store.now types }
    ensures tree { option_map (tree_at store.now) result
        ≡ slice_get (listed_types_at store.now types.entry) place }
    ensures held { IfSome result (Holds store.now) }
{
    match types {
        Types::Listed(list) => member(store, list, place),
        Types::Given(slice) => slice.get(place).copied(),
    }
}

impl Put for Types<'_> {
    ghost change_over = { λ v s. typing (listed_types_at s v) };

    ghost Ready = { λ v s. TypesHeld s v };

    fn is_put(&self, s: &Store, e: TermId, depth: usize, made: TermId) -> Option<bool> {
        if s.above_type_variables(e) == 0 {
            return Some(s.same(made, e));
        }
        match s.node(e) {
            Node::TyVar(number) => match type_at_place(s, *self, number) {
                Some(known) => Some(s.same(made, known)),
                None => Some(s.same(made, e)),
            },
            _ => None,
        }
    }
}

/// Whether a tree is another one at types.
pub fn is_instance(store: &Store, e: TermId, types: Types<'_>, made: TermId) -> bool
    requires e_held { Holds store.now e }
    requires types_held { TypesHeld store.now types }
    requires made_held { Holds store.now made }
    ensures { IsTrue result ↔ (tree_at store.now made
        ≡ inst_types (tree_at store.now e) (listed_types_at store.now types.entry)) }
{
    is_changed(store, &types, e, made)
}
