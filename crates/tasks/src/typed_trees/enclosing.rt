// The binders around a tree, and the types of their variables, without memory.
// They depend on the types of terms; what is well typed depends on them.
ghost use Rattle.std.specs.Prelude.{◌≡◌, slice_get, IfSome};
ghost use Rattle.std.specs.Option.{option_map};
ghost use Rattle.trees.specs.Node.{tree_at, Holds};
ghost use Rattle.tasks.specs.Typing.{option_list, pattern_types, bound_types};
ghost use Rattle.tasks.specs.typed_trees.Binders.{binder_head, binders_at, BindersHeld, IsPlace};

use crate::typed_trees::types::type_of;
use trees::store::Store;
use trees::{Node, TermId};

// A sort of binder.
#[derive(Clone, Copy)]
pub(crate) enum Binder {
    Quantifier,
    Let,
    Arm,
}

// The binders around a tree, each with its first child, innermost first.
#[derive(Clone, Copy)]
pub(crate) enum Binders<'a> {
    Outside,
    Inside(Binder, TermId, &'a Binders<'a>),
}

// What is at a place of a list of types, or how far the place is past its end.
#[derive(Clone, Copy)]
enum Place {
    Found(TermId),
    Past(usize),
}

// A place of a list with at most one type.
fn only_place(store: &Store, known: Option<TermId>, place: usize) -> Place
    requires { IfSome known (Holds store.now) }
    ensures { IsPlace store.now (option_list (option_map (tree_at store.now) known)) place result }
{
    let _ = store;
    match known {
        Some(ty) => {
            if place == 0 {
                Place::Found(ty)
            } else {
                Place::Past(place - 1)
            }
        },
        None => Place::Past(place),
    }
}

// A place of the types of a pattern's variables.
fn of_pattern(store: &Store, pattern: TermId, place: usize) -> Place
    requires { Holds store.now pattern }
    ensures { IsPlace store.now (pattern_types (tree_at store.now pattern)) place result }
{
    match store.node(pattern) {
        Node::PatVar(a) => only_place(store, Some(a), place),
        Node::PatAlias(a) => match only_place(store, type_of(store, a), place) {
            Place::Found(ty) => Place::Found(ty),
            Place::Past(left) => of_pattern(store, a, left),
        },
        Node::Cell(a, b) => match of_pattern(store, b, place) {
            Place::Found(ty) => Place::Found(ty),
            Place::Past(left) => of_pattern(store, a, left),
        },
        Node::PatCon(_, _, b, _) => of_pattern(store, b, place),
        _ => Place::Past(place),
    }
}

// A place of the types of what an operator binds.
fn of_binder(store: &Store, binder: Binder, first: TermId, place: usize) -> Place
    requires { Holds store.now first }
    ensures { IsPlace store.now (bound_types (binder_head binder) (tree_at store.now first)) place
        result }
{
    match binder {
        Binder::Quantifier => only_place(store, Some(first), place),
        Binder::Let => only_place(store, type_of(store, first), place),
        Binder::Arm => of_pattern(store, first, place),
    }
}

// The type of a bound variable.
pub(crate) fn bound_type(store: &Store, binders: &Binders<'_>, index: usize) -> Option<TermId>
    requires { BindersHeld store.now binders.now }
    ensures tree { option_map (tree_at store.now) result
        ≡ slice_get (binders_at store.now binders.now) index }
    ensures held { IfSome result (Holds store.now) }
{
    match binders {
        Binders::Outside => None,
        Binders::Inside(binder, first, outer) => match of_binder(store, *binder, *first, index) {
            Place::Found(ty) => Some(ty),
            Place::Past(left) => bound_type(store, outer, left),
        },
    }
}
