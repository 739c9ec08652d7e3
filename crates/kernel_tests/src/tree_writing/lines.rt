// Lines that are written: of types, of patterns, and of terms and formulas, each once and before those that refer to it.
// It depends on tree_writing; nothing depends on it.
ghost use Rattle.std.specs.Prelude.{All};
ghost use Rattle.trees.specs.Node.{Holds};

use crate::tree_writing::names::{MEMORY, table};
use std::alloc::Global;
use std::process::Abort;
use step_lines::tree_lines::TableNames;
use step_writing::tree_writing::{SymbolNames, find_line, push_line, push_numbers, written_trees};
use trees::store::{Grow, Store};
use trees::{Node, Op, TermId};

const END: TermId = TermId(0);

const INT: TermId = TermId(1);

const INTS: TermId = TermId(3);

// The nodes from the number 2 on.
static NODES: [Node; 28] = [
    Node::Cell(INT, END),
    Node::TyApp(1, TermId(2)),
    Node::TyRigid(6),
    Node::Param(0, INT),
    Node::Bound(0, INTS),
    Node::Num(-5),
    Node::Cell(TermId(5), END),
    Node::Fun(3, TermId(2), TermId(8), INTS),
    Node::Pred(7, END, TermId(8)),
    Node::Eq(TermId(5), TermId(7)),
    Node::True,
    Node::False,
    Node::Not(TermId(11)),
    Node::Join(Op::AndThen, TermId(11), TermId(14)),
    Node::Forall(INTS, TermId(11)),
    Node::Let(TermId(5), TermId(11)),
    Node::If(TermId(12), TermId(5), TermId(7)),
    Node::PatVar(INT),
    Node::Cell(TermId(19), END),
    Node::PatCon(3, TermId(2), TermId(20), INTS),
    Node::PatAlias(TermId(21)),
    Node::PatAny(INTS),
    Node::Arm(TermId(22), TermId(5)),
    Node::Cell(TermId(24), END),
    Node::Case(TermId(6), TermId(25)),
    Node::TyVar(0),
    Node::Pred(4, END, END),
    Node::Not(TermId(28)),
];

// The text of all lines.
const TEXT: &str =
    "y int_0\ny list_1 0\ny a_5\ne param 0 0\ne bound 0 1\ne num -5\ne sym cons_3 0\ne sym p_8 0\ne eq 0 2\ne true\ne false\ne not 5\ne andthen 5 8\ne forall 1 5\ne let 0 5\ne if 6 0 2\np var 0\np con cons_3 0\np as 1\np any 1\ne match 1 2 0\n";

// Of the last tree with a name, the lines of its parts alone, each once.
const MATCH: &str =
    "y int_0\ny list_1 0\ne param 0 0\ne bound 0 1\np var 0\np con cons_3 0\np as 1\ne match 1 2 0\n";

// Trees with the number of the line of the last of them, and the text.
static WRITTEN: [(&[TermId], usize, &str); 4] = [
    (
        &[
            TermId(4),
            TermId(9),
            TermId(10),
            TermId(13),
            TermId(15),
            TermId(16),
            TermId(17),
            TermId(18),
            TermId(23),
            TermId(26),
        ],
        13,
        TEXT,
    ),
    (&[TermId(26)], 2, MATCH),
    (&[TermId(3), TermId(3)], 1, "y int_0\ny list_1 0\n"),
    (&[TermId(13), TermId(12)], 0, "e true\ne false\n"),
];

// A type variable, a predicate without a name, and a formula that has it; and beside others that have names.
static UNNAMED: [&[TermId]; 4] = [
    &[TermId(27)],
    &[TermId(28)],
    &[TermId(29)],
    &[TermId(26), TermId(28)],
];

fn filled_store(rt: &impl Abort, alloc: Global) -> Store {
    let mut store = Store::new(alloc).expect(rt, MEMORY);
    for (place, node) in NODES.iter().enumerate() {
        assert!(rt; store.accepts(*node));
        let id = store.add(*node).expect(rt, MEMORY);
        assert!(rt; id.0 == place.saturating_add(2));
    }
    store
}

// Those numbers that are held.
fn held_of(rt: &impl Abort, alloc: Global, store: &Store, ids: &[TermId]) -> Vec<TermId>
    ensures { All (Holds store.now) result.items }
{
    let mut all = Vec::new(alloc);
    for id in ids {
        if store.holds(*id) {
            all.push(*id).expect(rt, MEMORY);
        }
    }
    all
}

fn each_is_written(rt: &impl Abort, alloc: Global, rows: &[(&[TermId], usize, &str)]) {
    let mut store = filled_store(rt, alloc);
    let table = table(rt, alloc);
    let names = TableNames::new(alloc, &table).expect(rt, MEMORY);
    let symbols = SymbolNames::new(alloc, &mut store, &names, &table).expect(rt, MEMORY);
    for (ids, number, text) in rows {
        let roots = held_of(rt, alloc, &store, ids);
        assert!(rt; roots.len() == ids.len());
        let written = written_trees(alloc, &store, &symbols, &table, &roots).expect(rt, MEMORY);
        let written = written.expect(rt, "no name");
        assert!(rt; written.text.as_slice() == text.as_bytes(), "{text}");
        let last = ids.last().copied().expect(rt, "no tree");
        assert!(rt;
            find_line(&written.numbers, last) == Some(*number),
            "{text}"
        );
        assert!(rt; find_line(&written.numbers, END).is_none(), "{text}");
    }
}

#[test]
fn lines_are_written(rt: HostRuntime) {
    each_is_written(&rt, rt.alloc(), &WRITTEN);
}

fn each_lacks_a_name(rt: &impl Abort, alloc: Global, rows: &[&[TermId]]) {
    let mut store = filled_store(rt, alloc);
    let table = table(rt, alloc);
    let names = TableNames::new(alloc, &table).expect(rt, MEMORY);
    let symbols = SymbolNames::new(alloc, &mut store, &names, &table).expect(rt, MEMORY);
    for ids in rows {
        let roots = held_of(rt, alloc, &store, ids);
        assert!(rt; roots.len() == ids.len());
        let written = written_trees(alloc, &store, &symbols, &table, &roots).expect(rt, MEMORY);
        assert!(rt; written.is_none());
    }
}

#[test]
fn trees_without_names_are_not_written(rt: HostRuntime) {
    each_lacks_a_name(&rt, rt.alloc(), &UNNAMED);
}

#[test]
fn numbers_are_words(rt: HostRuntime) {
    let alloc = rt.alloc();
    let mut words = Vec::new(alloc);
    push_numbers(alloc, &mut words, &[0, 7, 18446744073709551615]).expect(&rt, MEMORY);
    let mut text = Vec::new(alloc);
    push_line(&mut text, b's', &words).expect(&rt, MEMORY);
    assert!(&rt; text.as_slice() == b"s 0 7 18446744073709551615\n".as_slice());
}
