// Whether a parameter occurs in formulas: each number is visited once.
// It depends on the store; the rows of quantifiers depend on it.
ghost use Rattle.std.specs.Prelude.{◌≡◌, ◌↔◌, All, IsTrue, IfOk, OnOk};
ghost use Rattle.tasks.specs.trees.Node.{tree_at, Holds};
ghost use Rattle.tasks.specs.trees.Facts.{has_param};
ghost use Rattle.tasks.specs.Meaning.{trees_at};
ghost use Rattle.rules.specs.Rows.{IsNew};
ghost use Rattle.step_reading.specs.quick_steps.Parameters.{LackParameter};

use std::alloc::{AllocError, Global};
use std::collections::HashSet;
use tasks::{Node, Parts, Store, TermId};

// Whether a parameter occurs in a tree. The numbers in `clear` don't have it.
#[cycle(occurrence)]
fn has_param(
    store: &Store,
    clear: &mut HashSet<usize>,
    e: TermId,
    param: usize,
) -> Result<bool, AllocError>
    requires held { Holds store.now e }
    requires clear { LackParameter param store.now clear.old }
    ensures answer { IfOk result (λ yes. yes ≡ has_param (tree_at store.now e) param) }
    ensures clear { OnOk result (LackParameter param store.now clear.new) }
{
    if param < usize::MAX && store.above_parameters(e) <= param {
        return Ok(false);
    }
    if clear.contains(&e.0) {
        return Ok(false);
    }
    let found = has_param_inside(store, clear, e, param)?;
    if !found {
        clear.insert(e.0)?;
    }
    Ok(found)
}

// The same, by the node of the tree.
#[cycle(occurrence)]
fn has_param_inside(
    store: &Store,
    clear: &mut HashSet<usize>,
    e: TermId,
    param: usize,
) -> Result<bool, AllocError>
    requires held { Holds store.now e }
    requires clear { LackParameter param store.now clear.old }
    ensures answer { IfOk result (λ yes. yes ≡ has_param (tree_at store.now e) param) }
    ensures clear { OnOk result (LackParameter param store.now clear.new) }
{
    let node = store.node(e);
    if let Node::Param(n, _) = node
        && n == param
    {
        return Ok(true);
    }
    match node.parts() {
        Parts::None => Ok(false),
        Parts::One(a) => has_param(store, clear, a, param),
        Parts::Two(a, b) => {
            if has_param(store, clear, a, param)? {
                return Ok(true);
            }
            has_param(store, clear, b, param)
        }
        Parts::Three(a, b, c) => {
            if has_param(store, clear, a, param)? {
                return Ok(true);
            }
            if has_param(store, clear, b, param)? {
                return Ok(true);
            }
            has_param(store, clear, c, param)
        }
    }
}

/// Whether no formula has a parameter of this number.
pub(crate) fn is_new(
    alloc: Global,
    store: &Store,
    sequent: &[TermId],
    number: usize,
) -> Result<bool, AllocError>
    requires { All (Holds store.now) sequent.now }
    ensures { IfOk result (λ b. IsTrue b ↔ IsNew number (trees_at store.now sequent.now)) }
{
    let mut clear = HashSet::new(alloc);
    for formula in sequent {
        let found = has_param(store, &mut clear, *formula, number)?;
        if found {
            return Ok(false);
        }
    }
    Ok(true)
}
