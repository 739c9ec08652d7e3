// Terms that a pattern is asked of, told without making them: a term, or projections of one.
// They depend on the store and the signature; the test and the variables of a pattern depend on them.
ghost use Rattle.std.specs.Prelude.{◌≡◌, ◌↔◌, Some, IsTrue};
ghost use Rattle.trees.specs.Node.{tree_at, Holds};
ghost use Rattle.tasks.specs.Task.{symbol_or};
ghost use Rattle.tasks.specs.Equations.{cells};
ghost use Rattle.tasks.specs.MatchTests.{result_at, fields, rebuilt, constructor_projections, top, other_terms};
ghost use Rattle.rules.specs.Meaning.{task_of, TriedHeld};
ghost use Rattle.rules.specs.term_rules.Asked.{asked_at, AskedHeld, list_at, ListHeld};

use crate::{Tried, is_end};
use tasks::Role;
use tasks::typed_trees::{Types, is_instance};
use trees::{Node, TermId};

// A term that a pattern is asked of: a tree of the store, or a projection of such a term; nothing where there is none.
#[derive(Clone, Copy)]
pub(crate) enum Asked<'a> {
    Nothing,
    Whole(TermId),
    Field(usize, TermId, &'a Asked<'a>),
}

// The terms that a list of patterns is asked of: one, or projections of one.
#[derive(Clone, Copy)]
pub(crate) enum AskedList<'a> {
    One(&'a Asked<'a>),
    Fields(&'a [usize], TermId, &'a Asked<'a>),
}

// Whether a tree is a closed type at a list of types, or the empty list where the type isn't closed.
fn is_type_at(x: &Tried<'_>, ty: TermId, types: TermId, id: TermId) -> bool
    requires tried { TriedHeld x.now }
    requires ty_held { Holds x.now.store.now ty }
    requires types_held { Holds x.now.store.now types }
    requires held { Holds x.now.store.now id }
    ensures { IsTrue result ↔ (tree_at x.now.store.now id
        ≡ result_at (Some (tree_at x.now.store.now ty)) (tree_at x.now.store.now types)) }
{
    if x.store.loose(ty) == 0 {
        is_instance(x.store, ty, Types::Listed(types), id)
    } else {
        is_end(x.store, id)
    }
}

// Whether a tree is the type of a function's result, at a list of types.
#[tactic(auto, using(crate::proofs::term_rules::Lists::none_mapped))]
fn is_result(x: &Tried<'_>, function: usize, types: TermId, id: TermId) -> bool
    requires tried { TriedHeld x.now }
    requires types_held { Holds x.now.store.now types }
    requires held { Holds x.now.store.now id }
    ensures { IsTrue result ↔ (tree_at x.now.store.now id
        ≡ result_at (symbol_or (task_of x.now).symbols function).result
        (tree_at x.now.store.now types)) }
{
    match x.look.task.sig.symbols.get(function) {
        Some(info) => match info.result {
            Some(ty) => is_type_at(x, ty, types, id),
            None => is_end(x.store, id),
        },
        None => is_end(x.store, id),
    }
}

// Whether a tree is a term that is asked.
pub(crate) fn is_asked<'a>(x: &Tried<'_>, asked: &'a Asked<'a>, id: TermId) -> bool
    requires tried { TriedHeld x.now }
    requires asked { AskedHeld x.now.store.now asked.now }
    requires held { Holds x.now.store.now id }
    ensures { IsTrue result ↔ (tree_at x.now.store.now id
        ≡ asked_at (task_of x.now) x.now.store.now asked.now) }
{
    match asked {
        Asked::Nothing => is_end(x.store, id),
        Asked::Whole(known) => x.store.same(id, *known),
        Asked::Field(projection, types, inner) => match x.store.node(id) {
            Node::Fun(f, tys, args, ty) => match x.store.node(args) {
                Node::Cell(a, rest) => f == *projection
                    && x.store.same(tys, *types)
                    && is_asked(x, inner, a)
                    && is_end(x.store, rest)
                    && is_result(x, f, *types, ty),
                _ => false,
            },
            _ => false,
        },
    }
}

// The first of the terms.
pub(crate) fn first_asked<'a>(x: &Tried<'_>, list: AskedList<'a>) -> Asked<'a>
    requires tried { TriedHeld x.now }
    requires list { ListHeld x.now.store.now list }
    ensures held { AskedHeld x.now.store.now result }
    ensures tree { asked_at (task_of x.now) x.now.store.now result
        ≡ top (list_at (task_of x.now) x.now.store.now list.entry) }
{
    match list {
        AskedList::One(a) => *a,
        AskedList::Fields(projections, types, a) => match projections.split_first() {
            Some((first, _)) => Asked::Field(*first, types, a),
            None => Asked::Nothing,
        },
    }
}

// The other terms.
pub(crate) fn other_asked<'a>(x: &Tried<'_>, list: AskedList<'a>) -> AskedList<'a>
    requires tried { TriedHeld x.now }
    requires list { ListHeld x.now.store.now list }
    ensures held { ListHeld x.now.store.now result }
    ensures trees { list_at (task_of x.now) x.now.store.now result
        ≡ other_terms (list_at (task_of x.now) x.now.store.now list.entry) }
{
    match list {
        AskedList::One(a) => AskedList::Fields(&[], TermId(0), a),
        AskedList::Fields(projections, types, a) => match projections.split_first() {
            Some((_, more)) => AskedList::Fields(more, types, a),
            None => AskedList::Fields(projections, types, a),
        },
    }
}

// The projections of a constructor.
pub(crate) fn projections<'a>(x: &Tried<'a>, constructor: usize) -> &'a [usize]
    requires { TriedHeld x.now }
    ensures { result.now ≡ constructor_projections (task_of x.now) constructor }
{
    match x.look.role(x.store, constructor) {
        Role::Constructor(con) => con.projections.as_slice(),
        _ => &[],
    }
}

// Whether a list is that of these projections of a term.
fn are_fields<'a>(
    x: &Tried<'_>,
    projections: &[usize],
    types: TermId,
    term: &'a Asked<'a>,
    list: TermId,
) -> bool
    requires tried { TriedHeld x.now }
    requires types_held { Holds x.now.store.now types }
    requires term { AskedHeld x.now.store.now term.now }
    requires held { Holds x.now.store.now list }
    ensures { IsTrue result ↔ (tree_at x.now.store.now list
        ≡ cells (fields (task_of x.now) projections.now (tree_at x.now.store.now types)
        (asked_at (task_of x.now) x.now.store.now term.now))) }
{
    match projections.split_first() {
        Some((first, more)) => match x.store.node(list) {
            Node::Cell(a, rest) => is_asked(x, &Asked::Field(*first, types, term), a)
                && are_fields(x, more, types, term, rest),
            _ => false,
        },
        None => is_end(x.store, list),
    }
}

// Whether a tree is a constructor on the fields of a term.
pub(crate) fn is_rebuilt<'a>(
    x: &Tried<'_>,
    constructor: usize,
    projections: &[usize],
    types: TermId,
    term: &'a Asked<'a>,
    id: TermId,
) -> bool
    requires tried { TriedHeld x.now }
    requires types_held { Holds x.now.store.now types }
    requires term { AskedHeld x.now.store.now term.now }
    requires held { Holds x.now.store.now id }
    ensures { IsTrue result ↔ (tree_at x.now.store.now id
        ≡ rebuilt (task_of x.now) constructor projections.now (tree_at x.now.store.now types)
        (asked_at (task_of x.now) x.now.store.now term.now)) }
{
    match x.store.node(id) {
        Node::Fun(f, tys, args, ty) => f == constructor
            && x.store.same(tys, types)
            && are_fields(x, projections, types, term, args)
            && is_result(x, f, types, ty),
        _ => false,
    }
}
