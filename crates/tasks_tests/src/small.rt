// A small task: lists with their constructors and projections, a predicate on integers, a polymorphic function, a type
// variable of the goal; a proposition, a definition, an inductive predicate; a local and a goal.
ghost use Rattle.std.specs.Prelude.{◌≡◌, All, IfSome};
ghost use Rattle.trees.specs.Node.{Holds};
ghost use Rattle.tasks.specs.Meaning.{SymbolHeld, ConHeld, BodyHeld, DeclHeld, TaskHeld};

use std::alloc::Global;
use std::process::Abort;
use std::rc::Rc;
use tasks::{Alg, Body, Con, Decl, Def, Ind, Seq, Signature, SymbolInfo, SymbolKind, Task, Text};
use trees::TermId;
use trees::store::Store;

const MEMORY: &str = "out of memory";

/// What an entry is, with its number of type variables, the types of at most two arguments, and of its result.
#[derive(Clone, Copy)]
pub(crate) struct Row {
    kind: SymbolKind,
    vars: usize,
    first: Option<TermId>,
    second: Option<TermId>,
    given: Option<TermId>,
}

const INT: Option<TermId> = Some(TermId(1));

const VARIABLE: Option<TermId> = Some(TermId(2));

const LIST: Option<TermId> = Some(TermId(4));

// int, list, Nil, Cons, p, f, the type variable, the two projections of Cons, a defined and an inductive predicate
static ROWS: [Row; 11] = [
    Row {
        kind: SymbolKind::Kind,
        vars: 0,
        first: None,
        second: None,
        given: None,
    },
    Row {
        kind: SymbolKind::Kind,
        vars: 1,
        first: None,
        second: None,
        given: None,
    },
    Row {
        kind: SymbolKind::Constructor,
        vars: 1,
        first: None,
        second: None,
        given: LIST,
    },
    Row {
        kind: SymbolKind::Constructor,
        vars: 1,
        first: VARIABLE,
        second: LIST,
        given: LIST,
    },
    Row {
        kind: SymbolKind::Predicate,
        vars: 0,
        first: INT,
        second: None,
        given: None,
    },
    Row {
        kind: SymbolKind::Function,
        vars: 1,
        first: VARIABLE,
        second: None,
        given: VARIABLE,
    },
    Row {
        kind: SymbolKind::Kind,
        vars: 0,
        first: None,
        second: None,
        given: None,
    },
    Row {
        kind: SymbolKind::Projection,
        vars: 1,
        first: LIST,
        second: None,
        given: VARIABLE,
    },
    Row {
        kind: SymbolKind::Projection,
        vars: 1,
        first: LIST,
        second: None,
        given: LIST,
    },
    Row {
        kind: SymbolKind::Predicate,
        vars: 0,
        first: None,
        second: None,
        given: None,
    },
    Row {
        kind: SymbolKind::Predicate,
        vars: 0,
        first: None,
        second: None,
        given: None,
    },
];

// Those of these numbers that are there and held.
fn held_of(rt: &impl Abort, alloc: Global, store: &Store, ids: [Option<TermId>; 2]) -> Seq<TermId>
    ensures { All (Holds store.now) result }
{
    let mut all = Seq::new(alloc);
    for id in ids {
        if let Some(id) = if_held(store, id) {
            all.push(id).expect(rt, MEMORY);
        }
    }
    all
}

// A number, if it is there and held.
fn if_held(store: &Store, id: Option<TermId>) -> Option<TermId>
    ensures { IfSome result (Holds store.now) }
{
    let id = id?;
    if store.holds(id) { Some(id) } else { None }
}

fn text(rt: &impl Abort, alloc: Global, bytes: &[u8]) -> Text {
    Text::from_slice(alloc, bytes).expect(rt, MEMORY)
}

// An entry of the theory T.
fn symbol(rt: &impl Abort, alloc: Global, store: &Store, row: Row) -> SymbolInfo
    ensures { SymbolHeld store.now result }
{
    SymbolInfo {
        theory: text(rt, alloc, b"T"),
        name: text(rt, alloc, b"s"),
        kind: row.kind,
        vars: row.vars,
        args: held_of(rt, alloc, store, [row.first, row.second]),
        result: if_held(store, row.given),
    }
}

// The entries.
fn symbols(rt: &impl Abort, alloc: Global, store: &Store) -> Seq<SymbolInfo>
    ensures { All (SymbolHeld store.now) result }
{
    let mut all = Seq::new(alloc);
    for row in ROWS.iter() {
        all.push(symbol(rt, alloc, store, *row)).expect(rt, MEMORY);
    }
    all
}

// A further declaration of the theory T.
fn declare(rt: &impl Abort, alloc: Global, store: &Store, all: &mut Seq<Decl>, body: Body)
    requires body { BodyHeld store.now body }
    requires all { All (DeclHeld store.now) all.old }
    ensures { All (DeclHeld store.now) all.new }
{
    let _ = store;
    all.push(Decl {
        theory: text(rt, alloc, b"T"),
        name: text(rt, alloc, b"d"),
        vars: 0,
        body,
    })
    .expect(rt, MEMORY);
}

// A constructor.
fn con(
    rt: &impl Abort,
    alloc: Global,
    store: &Store,
    symbol: usize,
    fields: [Option<TermId>; 2],
    projections: &[usize],
) -> Con
    ensures { ConHeld store.now result }
{
    Con {
        symbol,
        fields: held_of(rt, alloc, store, fields),
        projections: Seq::from_slice(alloc, projections).expect(rt, MEMORY),
    }
}

// Lists with their constructors and projections.
fn lists(rt: &impl Abort, alloc: Global, store: &Store) -> Body
    ensures { BodyHeld store.now result }
{
    let mut cons = Seq::new(alloc);
    cons.push(con(rt, alloc, store, 2, [None, None], &[]))
        .expect(rt, MEMORY);
    cons.push(con(rt, alloc, store, 3, [VARIABLE, LIST], &[7, 8]))
        .expect(rt, MEMORY);
    let mut types = Seq::new(alloc);
    types.push(Alg { symbol: 1, cons }).expect(rt, MEMORY);
    Body::Algebraics(types)
}

// A predicate with its equation.
fn definition_of(rt: &impl Abort, alloc: Global, store: &Store, equation: TermId) -> Body
    requires { Holds store.now equation }
    ensures { BodyHeld store.now result }
{
    let _ = store;
    let mut defs = Seq::new(alloc);
    defs.push(Def {
        symbol: 9,
        equation,
    })
    .expect(rt, MEMORY);
    Body::Defs(defs)
}

// A predicate with two clauses.
fn inductive(rt: &impl Abort, alloc: Global, store: &Store, first: TermId, second: TermId) -> Body
    ensures { BodyHeld store.now result }
{
    let mut inductives = Seq::new(alloc);
    inductives
        .push(Ind {
            symbol: 10,
            clauses: held_of(rt, alloc, store, [Some(first), Some(second)]),
        })
        .expect(rt, MEMORY);
    Body::Inductives(inductives)
}

// The declarations, which say and define by one formula.
fn decls(rt: &impl Abort, alloc: Global, store: &Store, formula: TermId, other: TermId) -> Seq<Decl>
    requires { Holds store.now formula }
    ensures { All (DeclHeld store.now) result }
{
    let mut all = Seq::new(alloc);
    declare(rt, alloc, store, &mut all, lists(rt, alloc, store));
    declare(rt, alloc, store, &mut all, Body::Symbol(4));
    declare(rt, alloc, store, &mut all, Body::Symbol(5));
    declare(rt, alloc, store, &mut all, Body::Prop(formula));
    declare(
        rt,
        alloc,
        store,
        &mut all,
        definition_of(rt, alloc, store, formula),
    );
    declare(
        rt,
        alloc,
        store,
        &mut all,
        inductive(rt, alloc, store, formula, other),
    );
    all
}

/// The task that says, defines and asks one formula, with another one as its local.
pub(crate) fn small_task(
    rt: &impl Abort,
    alloc: Global,
    store: &Store,
    formula: TermId,
    other: TermId,
) -> Task
    requires { Holds store.now formula }
    ensures held { TaskHeld store.now result }
    ensures goal { result.goal ≡ formula }
{
    let signature = Signature {
        symbols: symbols(rt, alloc, store),
        ints: None,
    };
    Task {
        sig: Rc::new(alloc, signature).expect(rt, MEMORY),
        rigid: Seq::from_slice(alloc, &[6]).expect(rt, MEMORY),
        decls: decls(rt, alloc, store, formula, other),
        params: held_of(rt, alloc, store, [INT, None]),
        locals: held_of(rt, alloc, store, [Some(other), None]),
        goal: formula,
    }
}
