// The trees that are in given ones, marked by their numbers in the store.
// They depend on the store; the writer of lines depends on them.
ghost use Rattle.std.specs.Prelude.{◌≡◌, ◌<◌, ℕ, length, All, OnOk, IfOk};
ghost use Rattle.tasks.specs.trees.Node.{Holds, AreBelow};
ghost use Rattle.step_writing.specs.tree_writing.Parts.{IsMarked, is_marked, Marks, MarksParts, RootsMarked, AreMarked};

use std::alloc::{AllocError, Global};
use tasks::{Parts, Store, TermId};

// Marks a tree.
fn mark(marks: &mut Vec<bool>, id: TermId)
    requires { id.0 < length marks.old.items }
    ensures { Marks marks.old.items marks.new.items id.0 }
{
    marks[id.0] = true;
}

// Marks the children of a node.
#[tactic(auto, using(crate::proofs::tree_writing::MarkedParts::one_marked, crate::proofs::tree_writing::MarkedParts::two_marked, crate::proofs::tree_writing::MarkedParts::three_marked))]
fn mark_parts(marks: &mut Vec<bool>, parts: Parts)
    requires { AreBelow (length marks.old.items) parts }
    ensures { MarksParts marks.old.items marks.new.items parts }
{
    match parts {
        Parts::None => {}
        Parts::One(a) => mark(marks, a),
        Parts::Two(a, b) => {
            mark(marks, a);
            mark(marks, b);
        }
        Parts::Three(a, b, c) => {
            mark(marks, a);
            mark(marks, b);
            mark(marks, c);
        }
    }
}

// Makes room for a mark.
#[tactic(auto, using(crate::proofs::tree_writing::MarkedParts::pushed_false))]
fn widen(marks: &mut Vec<bool>, place: usize) -> Result<(), AllocError>
    ensures room { OnOk result (place < length marks.new.items) }
    ensures same { OnOk result ((k : ℕ) → is_marked marks.new.items k
        ≡ is_marked marks.old.items k) }
{
    while marks.len() <= place {
        marks.push(false)?;
    }
    Ok(())
}

// Trees, marked.
fn root_marks(alloc: Global, store: &Store, roots: &[TermId]) -> Result<Vec<bool>, AllocError>
    requires { All (Holds store.now) roots.now }
    ensures { IfOk result (λ v. RootsMarked store.now roots.now v.items) }
{
    let _ = store;
    let mut marks = Vec::new(alloc);
    for root in roots {
        widen(&mut marks, root.0)?;
        mark(&mut marks, *root);
    }
    Ok(marks)
}

/// Trees and all that are in them, marked.
pub(crate) fn mark_trees(
    alloc: Global,
    store: &Store,
    roots: &[TermId],
) -> Result<Vec<bool>, AllocError>
    requires { All (Holds store.now) roots.now }
    ensures { IfOk result (λ v. AreMarked store.now roots.now v.items) }
{
    let mut marks = root_marks(alloc, store, roots)?;
    let mut i = marks.len();
    while i > 0 {
        i -= 1;
        if marks[i] {
            mark_parts(&mut marks, store.node(TermId(i)).parts());
        }
    }
    Ok(marks)
}
