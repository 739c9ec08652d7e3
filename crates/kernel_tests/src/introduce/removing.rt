// Which propositions are removed.
use crate::introduce::small::{Named, filled_store, task, text};
use std::alloc::Global;
use std::process::Abort;
use tasks::Text;
use tr_remove::is_removed;
use trees::{Node, TermId};

static NODES: [Node; 1] = [Node::True];

type Row = (&'static [(&'static str, &'static str)], &'static [usize]);

// Propositions of two theories, and a symbol.
static DECLS: [Named; 4] = [
    ("T", "a", true),
    ("T", "b", true),
    ("U", "a", true),
    ("T", "c", false),
];

// The theories and names that are removed, and the places of the declarations that are left.
static ROWS: [Row; 6] = [
    (&[], &[0, 1, 2, 3]),
    (&[("T", "a")], &[1, 2, 3]),
    (&[("U", "b")], &[0, 1, 2, 3]),
    (&[("U", "a"), ("T", "b")], &[0, 3]),
    (&[("T", "c")], &[0, 1, 2, 3]),
    (&[("T", "a"), ("T", "b"), ("U", "a")], &[3]),
];

// These names as texts.
fn names(rt: &impl Abort, alloc: Global, words: &[(&str, &str)]) -> Vec<(Text, Text)> {
    let mut all = Vec::new(alloc);
    for (theory, name) in words {
        all.push((text(rt, alloc, theory), text(rt, alloc, name)))
            .expect(rt, "out of memory");
    }
    all
}

fn compare(rt: &impl Abort, alloc: Global, row: &Row) {
    let (words, left) = *row;
    let store = filled_store(rt, alloc, &NODES);
    let whole = task(rt, alloc, &store, &[], TermId(2), &DECLS);
    let props = names(rt, alloc, words);
    for (place, decl) in whole.decls.as_slice().iter().enumerate() {
        assert!(rt; is_removed(&props, decl) != left.contains(&place));
    }
}

#[test]
fn propositions_go_by_theory_and_name(rt: HostRuntime) {
    for row in ROWS.iter() {
        compare(&rt, rt.alloc(), row);
    }
}
