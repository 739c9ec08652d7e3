// Names of symbols, whole and at types, and symbols that have none.
// It depends on tree_writing; nothing depends on it.

use name_tables::name_entries::{NameEntry, NameOf};
use std::alloc::Global;
use std::process::Abort;
use step_lines::tree_lines::TableNames;
use step_writing::tree_writing::SymbolNames;
use tasks::{Seq, Text};
use trees::store::{Grow, Store};
use trees::{Node, TermId};

pub(crate) const MEMORY: &str = "out of memory";

const END: TermId = TermId(0);

const INT: TermId = TermId(1);

const LIST: TermId = TermId(3);

// The nodes from the number 2 on: the list of `int`, lists of them, the list of those.
static NODES: [Node; 3] = [
    Node::Cell(INT, END),
    Node::TyApp(1, TermId(2)),
    Node::Cell(LIST, END),
];

// Names with their symbols and the places of their types. The name `lost_6` stands for nothing, and a second `nil_4` is
// never found.
static NAMES: [(&str, NameOf, &[usize]); 9] = [
    ("int_0", NameOf::Int, &[]),
    ("list_1", NameOf::Symbol(1), &[]),
    ("list_2", NameOf::Symbol(1), &[0]),
    ("cons_3", NameOf::Symbol(3), &[0]),
    ("nil_4", NameOf::Symbol(2), &[2]),
    ("a_5", NameOf::Rigid(6), &[]),
    ("lost_6", NameOf::Symbol(4), &[6]),
    ("nil_4", NameOf::Symbol(5), &[]),
    ("p_8", NameOf::Symbol(7), &[]),
];

// A symbol, the number of the list of its types, and its name, with whether it is whole under it.
static FOUND: [(NameOf, usize, &str, bool); 8] = [
    (NameOf::Int, 0, "int_0", true),
    (NameOf::Symbol(1), 2, "list_1", true),
    (NameOf::Symbol(1), 4, "list_1", true),
    (NameOf::Symbol(3), 2, "cons_3", false),
    (NameOf::Symbol(2), 4, "nil_4", false),
    (NameOf::Rigid(6), 0, "a_5", true),
    (NameOf::Symbol(7), 0, "p_8", true),
    (NameOf::Symbol(7), 4, "p_8", true),
];

// Symbols without a name at the types of a list.
static NONE: [(NameOf, usize); 8] = [
    (NameOf::Symbol(3), 0),
    (NameOf::Symbol(3), 4),
    (NameOf::Symbol(2), 2),
    (NameOf::Symbol(4), 0),
    (NameOf::Symbol(5), 0),
    (NameOf::Symbol(6), 0),
    (NameOf::Rigid(7), 0),
    (NameOf::Symbol(0), 0),
];

// A store with the nodes.
fn filled_store(rt: &impl Abort, alloc: Global) -> Store {
    let mut store = Store::new(alloc).expect(rt, MEMORY);
    for node in &NODES {
        assert!(rt; store.accepts(*node));
        store.add(*node).expect(rt, MEMORY);
    }
    store
}

// The name table.
pub(crate) fn table(rt: &impl Abort, alloc: Global) -> Vec<NameEntry> {
    let mut all = Vec::new(alloc);
    for (name, symbol, places) in NAMES.iter() {
        let entry = NameEntry {
            name: Text::from_slice(alloc, name.as_bytes()).expect(rt, MEMORY),
            symbol: *symbol,
            types: Seq::from_slice(alloc, places).expect(rt, MEMORY),
        };
        all.push(entry).expect(rt, MEMORY);
    }
    all
}

fn each_is_found(rt: &impl Abort, alloc: Global, rows: &[(NameOf, usize, &str, bool)]) {
    let mut store = filled_store(rt, alloc);
    let table = table(rt, alloc);
    let names = TableNames::new(alloc, &table).expect(rt, MEMORY);
    let symbols = SymbolNames::new(alloc, &mut store, &names, &table).expect(rt, MEMORY);
    for (symbol, list, name, whole) in rows {
        let list = TermId(*list);
        assert!(rt; store.holds(list));
        let found = symbols
            .find_spelling(&store, &table, *symbol, list)
            .expect(rt, "no name");
        assert!(rt; found.name == name.as_bytes(), "{name}");
        assert!(rt; found.whole == *whole, "{name}");
    }
}

fn each_is_missing(rt: &impl Abort, alloc: Global, rows: &[(NameOf, usize)]) {
    let mut store = filled_store(rt, alloc);
    let table = table(rt, alloc);
    let names = TableNames::new(alloc, &table).expect(rt, MEMORY);
    let symbols = SymbolNames::new(alloc, &mut store, &names, &table).expect(rt, MEMORY);
    for (symbol, list) in rows {
        let list = TermId(*list);
        assert!(rt; store.holds(list));
        assert!(rt;
            symbols
                .find_spelling(&store, &table, *symbol, list)
                .is_none()
        );
    }
}

#[test]
fn symbols_have_names(rt: HostRuntime) {
    each_is_found(&rt, rt.alloc(), &FOUND);
}

#[test]
fn other_symbols_have_none(rt: HostRuntime) {
    each_is_missing(&rt, rt.alloc(), &NONE);
}
