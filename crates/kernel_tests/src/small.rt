// The small task: two predicates, an algebraic type, a defined function, an inductive predicate, the theory int.Int, and two
// propositions, one of them polymorphic; the goal is p -> p.
ghost use Rattle.std.specs.Prelude.{◌≡◌, All, IfSome};
ghost use Rattle.trees.specs.Node.{Holds};
ghost use Rattle.tasks.specs.Meaning.{SymbolHeld, ConHeld, BodyHeld, DeclHeld, TaskHeld};

use std::alloc::Global;
use std::process::Abort;
use std::rc::Rc;
use tasks::{Alg, Body, Con, Decl, Def, Ind, Seq, Signature, SymbolInfo, SymbolKind, Task, Text};
use trees::store::{Grow, Store};
use trees::{Ints, Node, TermId};

const MEMORY: &str = "out of memory";

const INT: TermId = TermId(1);

const T: TermId = TermId(4);

static INTS: Ints = Ints {
    neg: 9,
    add: 10,
    sub: 11,
    mul: 12,
    lt: 13,
    le: 14,
    gt: 15,
    ge: 16,
};

// Each entry's kind, the types of its arguments, and of its result, where it has one.
static SYMBOLS: [(SymbolKind, &[TermId], &[TermId]); 17] = [
    (SymbolKind::Kind, &[], &[]),
    (SymbolKind::Predicate, &[], &[]),
    (SymbolKind::Predicate, &[], &[]),
    (SymbolKind::Kind, &[], &[]),
    (SymbolKind::Constructor, &[INT], &[T]),
    (SymbolKind::Projection, &[T], &[INT]),
    (SymbolKind::Constructor, &[], &[T]),
    (SymbolKind::Function, &[INT], &[INT]),
    (SymbolKind::Predicate, &[INT], &[]),
    (SymbolKind::Function, &[INT], &[INT]),
    (SymbolKind::Function, &[INT, INT], &[INT]),
    (SymbolKind::Function, &[INT, INT], &[INT]),
    (SymbolKind::Function, &[INT, INT], &[INT]),
    (SymbolKind::Predicate, &[INT, INT], &[]),
    (SymbolKind::Predicate, &[INT, INT], &[]),
    (SymbolKind::Predicate, &[INT, INT], &[]),
    (SymbolKind::Predicate, &[INT, INT], &[]),
];

/// A store with these nodes.
pub(crate) fn filled_store(rt: &impl Abort, alloc: Global, nodes: &[Node]) -> Store {
    let mut store = Store::new(alloc).expect(rt, MEMORY);
    for (place, node) in nodes.iter().enumerate() {
        assert!(rt; store.accepts(*node));
        let id = store.add(*node).expect(rt, MEMORY);
        assert!(rt; id.0 == place.saturating_add(2));
    }
    store
}

/// A number that is there and held, or that of `int`.
pub(crate) fn held_or_int(store: &Store, id: Option<TermId>) -> TermId
    ensures { Holds store.now result }
{
    match id {
        Some(id) => {
            if store.holds(id) {
                id
            } else {
                store.int_type()
            }
        }
        None => store.int_type(),
    }
}

/// Those numbers that are held.
pub(crate) fn ids_of(rt: &impl Abort, alloc: Global, store: &Store, ids: &[TermId]) -> Seq<TermId>
    ensures { All (Holds store.now) result }
{
    let mut all = Seq::new(alloc);
    for id in ids {
        if store.holds(*id) {
            all.push(*id).expect(rt, MEMORY);
        }
    }
    all
}

// A number, if it is there and held.
fn if_held(store: &Store, id: Option<TermId>) -> Option<TermId>
    ensures { IfSome result (Holds store.now) }
{
    let id = id?;
    if store.holds(id) { Some(id) } else { None }
}

fn text(rt: &impl Abort, alloc: Global, bytes: &[u8]) -> Text {
    Text::from_slice(alloc, bytes).expect(rt, MEMORY)
}

// An entry of the theory T.
fn symbol(
    rt: &impl Abort,
    alloc: Global,
    store: &Store,
    kind: SymbolKind,
    args: &[TermId],
    given: &[TermId],
) -> SymbolInfo
    ensures { SymbolHeld store.now result }
{
    SymbolInfo {
        theory: text(rt, alloc, b"T"),
        name: text(rt, alloc, b"s"),
        kind,
        vars: 0,
        args: ids_of(rt, alloc, store, args),
        result: if_held(store, given.first().copied()),
    }
}

// The entries.
fn symbols(rt: &impl Abort, alloc: Global, store: &Store) -> Seq<SymbolInfo>
    ensures { All (SymbolHeld store.now) result }
{
    let mut all = Seq::new(alloc);
    for (kind, args, given) in SYMBOLS.iter() {
        all.push(symbol(rt, alloc, store, *kind, args, given))
            .expect(rt, MEMORY);
    }
    all
}

// A further declaration of the theory T.
fn declare(
    rt: &impl Abort,
    alloc: Global,
    store: &Store,
    all: &mut Seq<Decl>,
    vars: usize,
    body: Body,
)
    requires body { BodyHeld store.now body }
    requires all { All (DeclHeld store.now) all.old }
    ensures { All (DeclHeld store.now) all.new }
{
    let _ = store;
    all.push(Decl {
        theory: text(rt, alloc, b"T"),
        name: text(rt, alloc, b"d"),
        vars,
        body,
    })
    .expect(rt, MEMORY);
}

// A constructor.
fn con(
    rt: &impl Abort,
    alloc: Global,
    store: &Store,
    symbol: usize,
    fields: &[TermId],
    projections: &[usize],
) -> Con
    ensures { ConHeld store.now result }
{
    Con {
        symbol,
        fields: ids_of(rt, alloc, store, fields),
        projections: Seq::from_slice(alloc, projections).expect(rt, MEMORY),
    }
}

// The type t with its constructors C and D.
fn algebraic(rt: &impl Abort, alloc: Global, store: &Store) -> Body
    ensures { BodyHeld store.now result }
{
    let mut cons = Seq::new(alloc);
    cons.push(con(rt, alloc, store, 4, &[INT], &[5]))
        .expect(rt, MEMORY);
    cons.push(con(rt, alloc, store, 6, &[], &[]))
        .expect(rt, MEMORY);
    let mut types = Seq::new(alloc);
    types.push(Alg { symbol: 3, cons }).expect(rt, MEMORY);
    Body::Algebraics(types)
}

// The function f with its equation.
fn definition_of(rt: &impl Abort, alloc: Global, store: &Store) -> Body
    ensures { BodyHeld store.now result }
{
    let equation = held_or_int(store, Some(TermId(20)));
    let mut defs = Seq::new(alloc);
    defs.push(Def {
        symbol: 7,
        equation,
    })
    .expect(rt, MEMORY);
    Body::Defs(defs)
}

// The predicate r with its clauses.
fn inductive(rt: &impl Abort, alloc: Global, store: &Store) -> Body
    ensures { BodyHeld store.now result }
{
    let mut inductives = Seq::new(alloc);
    inductives
        .push(Ind {
            symbol: 8,
            clauses: ids_of(rt, alloc, store, &[TermId(23), TermId(25)]),
        })
        .expect(rt, MEMORY);
    Body::Inductives(inductives)
}

// The declarations, with the symbols of int.Int or without them.
fn decls(rt: &impl Abort, alloc: Global, store: &Store, ints: bool) -> Seq<Decl>
    ensures { All (DeclHeld store.now) result }
{
    let mut all = Seq::new(alloc);
    declare(rt, alloc, store, &mut all, 0, Body::Symbol(1));
    declare(rt, alloc, store, &mut all, 0, Body::Symbol(2));
    declare(rt, alloc, store, &mut all, 0, algebraic(rt, alloc, store));
    declare(
        rt,
        alloc,
        store,
        &mut all,
        0,
        definition_of(rt, alloc, store),
    );
    declare(rt, alloc, store, &mut all, 0, inductive(rt, alloc, store));
    let axiom = held_or_int(store, Some(TermId(26)));
    declare(rt, alloc, store, &mut all, 0, Body::Prop(axiom));
    let polymorphic = held_or_int(store, Some(TermId(28)));
    declare(rt, alloc, store, &mut all, 1, Body::Prop(polymorphic));
    if ints {
        for k in 9..17 {
            declare(rt, alloc, store, &mut all, 0, Body::Symbol(k));
        }
    }
    all
}

/// The task.
pub(crate) fn small_task(rt: &impl Abort, alloc: Global, store: &Store, ints: bool) -> Task
    ensures { TaskHeld store.now result }
{
    let signature = Signature {
        symbols: symbols(rt, alloc, store),
        ints: Some(INTS),
    };
    Task {
        sig: Rc::new(alloc, signature).expect(rt, MEMORY),
        rigid: Seq::new(alloc),
        decls: decls(rt, alloc, store, ints),
        params: Seq::new(alloc),
        locals: Seq::new(alloc),
        goal: held_or_int(store, Some(TermId(29))),
    }
}
