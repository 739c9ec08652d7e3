// Which trees of a file are known to be typed as far as they go: each is asked about once.
// It depends on typing; the reader of lines depends on it.
ghost use Rattle.std.specs.Prelude.{◌≡◌, ◌<◌, ◌⊎◌, ◌↔◌, ℕ, length, All, IsTrue, OnOk, IfOk};
ghost use Rattle.tasks.specs.trees.Node.{tree_at, Holds};
ghost use Rattle.tasks.specs.Meaning.{task_at, TaskHeld};
ghost use Rattle.tasks.specs.Looking.{IsIndexOf};
ghost use Rattle.tasks.specs.Open.{PartsAreOpen};
ghost use Rattle.tasks.specs.Vocabulary.{of_task};
ghost use Rattle.kernel.specs.Open.{OpenIn, IsOpen};
ghost use Rattle.step_reading.specs.Marks.{has_mark, AreMarkedTyped};

use crate::quick_steps::is_top_open;
use std::alloc::AllocError;
use tasks::typed_trees::Vocabulary;
use tasks::{Index, Lookup, Parts, Store, Task, TermId};

/// Whether a tree is marked, and so typed as far as it goes.
#[tactic(auto, using(crate::proofs::Marking::marked_open))]
pub(crate) fn has_mark(store: &Store, task: &Task, marks: &[bool], id: TermId) -> bool
    requires { AreMarkedTyped (task_at store.now task.now) store.now marks.now }
    ensures { IsTrue result → IsOpen (task_at store.now task.now) store.now id }
{
    let _ = store;
    let _ = task;
    id.0 < marks.len() && marks[id.0]
}

/// Whether all trees of a list are marked.
pub(crate) fn are_marked(store: &Store, task: &Task, marks: &[bool], ids: &[TermId]) -> bool
    requires { AreMarkedTyped (task_at store.now task.now) store.now marks.now }
    ensures { IsTrue result → All (IsOpen (task_at store.now task.now) store.now) ids.now }
{
    for id in ids {
        if !has_mark(store, task, marks, *id) {
            return false;
        }
    }
    true
}

// Makes room for a mark.
#[tactic(auto, using(crate::proofs::Marking::pushed_false))]
fn widen(marks: &mut Vec<bool>, place: usize) -> Result<(), AllocError>
    ensures room { OnOk result (place < length marks.new.items) }
    ensures same { OnOk result ((k : ℕ) → has_mark marks.new.items k
        ≡ has_mark marks.old.items k) }
{
    while marks.len() <= place {
        marks.push(false)?;
    }
    Ok(())
}

// Marks a tree.
fn mark(marks: &mut Vec<bool>, id: TermId) -> Result<(), AllocError>
    ensures { OnOk result ((k : ℕ) → IsTrue (has_mark marks.new.items k)
        → IsTrue (has_mark marks.old.items k) ⊎ (k ≡ id.0)) }
{
    widen(marks, id.0)?;
    marks[id.0] = true;
    Ok(())
}

// Whether a tree is typed as far as it goes, as its parts are; if it is, it is marked.
#[tactic(auto, using(crate::proofs::Marking::typed_more))]
fn top_is_open(
    store: &Store,
    task: &Task,
    index: &Index,
    marks: &mut Vec<bool>,
    id: TermId,
) -> Result<bool, AllocError>
    requires task { TaskHeld store.now task.now }
    requires index { IsIndexOf index.now task.now }
    requires held { Holds store.now id }
    requires marks { AreMarkedTyped (task_at store.now task.now) store.now marks.old.items }
    requires parts { PartsAreOpen (of_task (task_at store.now task.now)) (tree_at store.now id) }
    ensures open { IfOk result (λ b. IsTrue b
        ↔ OpenIn (task_at store.now task.now) (tree_at store.now id)) }
    ensures marks { OnOk result (AreMarkedTyped (task_at store.now task.now) store.now
        marks.new.items) }
{
    let look = Lookup::with_index(task, index);
    let alloc = *marks.allocator();
    let open = is_top_open(alloc, store, &Vocabulary::OfTask(&look), id)?;
    if !open {
        return Ok(false);
    }
    mark(marks, id)?;
    Ok(true)
}

/// Whether a tree is typed as far as it goes. Those of its parts that are marked aren't asked about again.
#[cycle(opening)]
pub(crate) fn is_open(
    store: &Store,
    task: &Task,
    index: &Index,
    marks: &mut Vec<bool>,
    id: TermId,
) -> Result<bool, AllocError>
    requires task { TaskHeld store.now task.now }
    requires index { IsIndexOf index.now task.now }
    requires held { Holds store.now id }
    requires marks { AreMarkedTyped (task_at store.now task.now) store.now marks.old.items }
    ensures open { IfOk result (λ b. IsTrue b
        ↔ OpenIn (task_at store.now task.now) (tree_at store.now id)) }
    ensures marks { OnOk result (AreMarkedTyped (task_at store.now task.now) store.now
        marks.new.items) }
{
    if has_mark(store, task, marks, id) {
        return Ok(true);
    }
    if !parts_are_open(store, task, index, marks, id)? {
        return Ok(false);
    }
    top_is_open(store, task, index, marks, id)
}

// Whether the parts of a tree are so.
#[cycle(opening)]
fn parts_are_open(
    store: &Store,
    task: &Task,
    index: &Index,
    marks: &mut Vec<bool>,
    id: TermId,
) -> Result<bool, AllocError>
    requires task { TaskHeld store.now task.now }
    requires index { IsIndexOf index.now task.now }
    requires held { Holds store.now id }
    requires marks { AreMarkedTyped (task_at store.now task.now) store.now marks.old.items }
    ensures open { IfOk result (λ b. IsTrue b
        ↔ PartsAreOpen (of_task (task_at store.now task.now)) (tree_at store.now id)) }
    ensures marks { OnOk result (AreMarkedTyped (task_at store.now task.now) store.now
        marks.new.items) }
{
    match store.node(id).parts() {
        Parts::None => Ok(true),
        Parts::One(a) => is_open(store, task, index, marks, a),
        Parts::Two(a, b) => {
            if !is_open(store, task, index, marks, a)? {
                return Ok(false);
            }
            is_open(store, task, index, marks, b)
        }
        Parts::Three(a, b, c) => {
            if !is_open(store, task, index, marks, a)? {
                return Ok(false);
            }
            if !is_open(store, task, index, marks, b)? {
                return Ok(false);
            }
            is_open(store, task, index, marks, c)
        }
    }
}
