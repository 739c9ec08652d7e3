// Atoms by cases on their conditional terms.
ghost use Rattle.std.specs.Prelude.{◌≡◌, ◌≤◌, Some, IfOk, IfErr};
ghost use Rattle.trees.specs.Tree.{HIf, size};
ghost use Rattle.trees.specs.Node.{tree_at, Holds, Grows};
ghost use Rattle.tr_if.specs.conditionals.Conditionals.{implications, first_if, cases_over};
ghost use Rattle.tr_if.specs.conditionals.Held.{IsFormulaNumber, IsByCases, IsGrowthFault};

use crate::conditionals::firsts::{first_if, if_parts, replace_first};
use crate::conditionals::growth::GrowthFault;
use std::alloc::AllocError;
use trees::store::{Grow, Store};
use trees::{Node, Op, TermId};

const NODES: u64 = 1 << 20;

/// The number, where its tree has no more nodes than a stage allows.
pub(crate) fn bounded(store: &Store, e: TermId) -> Result<TermId, GrowthFault>
    requires { Holds store.now e }
    ensures ok { IfOk result (λ id. id ≡ e) }
    ensures fault { IfErr result (IsGrowthFault (size (tree_at store.now e))) }
{
    if store.size(e) > NODES {
        Err(GrowthFault::TooLarge)
    } else {
        Ok(e)
    }
}

/// `(c -> a) /\ (not c -> b)`.
///
/// Only want of memory refuses.
pub fn implications<G: Grow>(
    g: &mut G,
    condition: TermId,
    a: TermId,
    b: TermId,
) -> Result<TermId, AllocError>
    requires condition { IsFormulaNumber (G.trees g.old) condition }
    requires a { IsFormulaNumber (G.trees g.old) a }
    requires b { IsFormulaNumber (G.trees g.old) b }
    ensures formula { IfOk result (IsFormulaNumber (G.trees g.new)) }
    ensures tree { IfOk result (λ id. tree_at (G.trees g.new) id ≡ implications
        (tree_at (G.trees g.old) condition) (tree_at (G.trees g.old) a)
        (tree_at (G.trees g.old) b)) }
    ensures grows { G.grows g.old g.new }
{
    let negated = g.add(Node::Not(condition))?;
    let then_claim = g.add(Node::Join(Op::Imp, condition, a))?;
    let else_claim = g.add(Node::Join(Op::Imp, negated, b))?;
    let made = g.add(Node::Join(Op::And, then_claim, else_claim))?;
    Ok(made)
}

/// What an atom says by cases on its conditional terms, one at a time, the first one first, or that it has more than 2^20 nodes.
#[cycle(cases)]
pub fn atom_by_cases(store: &mut Store, e: TermId) -> Result<TermId, GrowthFault>
    requires { IsFormulaNumber store.old e }
    ensures cases { IfOk result (IsByCases (tree_at store.old e) store.new) }
    ensures fault { IfErr result
        (IsGrowthFault (size (cases_over (tree_at store.old e) (λ u. u)))) }
    ensures grows { Grows store.old store.new }
{
    match first_if(store, e) {
        None => Ok(e),
        Some(whole) => by_first(store, e, whole),
    }
}

// The same by cases on the first conditional.
#[cycle(cases)]
fn by_first(store: &mut Store, e: TermId, whole: TermId) -> Result<TermId, GrowthFault>
    requires formula { IsFormulaNumber store.old e }
    requires whole { Holds store.old whole }
    requires first { first_if (tree_at store.old e) ≡ Some (tree_at store.old whole) }
    ensures cases { IfOk result (IsByCases (tree_at store.old e) store.new) }
    ensures fault { IfErr result
        (IsGrowthFault (size (cases_over (tree_at store.old e) (λ u. u)))) }
    ensures grows { Grows store.old store.new }
{
    let parts = if_parts(store, whole);
    let first = replace_first(store, e, parts.then_part)?;
    let second = replace_first(store, e, parts.else_part)?;
    let then_part = atom_by_cases(store, first)?;
    let else_part = atom_by_cases(store, second)?;
    let made = implications(store, parts.condition, then_part, else_part)?;
    bounded(store, made)
}
