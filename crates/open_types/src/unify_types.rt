// The solution of type equations.
//
// Contract: a most general solution, or the least prefix without one.

ghost use Rattle.std.specs.Prelude.{◌≡◌, ◌≤◌, ℕ, IfOk, IfErr};
ghost use Rattle.trees.specs.Node.{Grows};
ghost use Rattle.open_types.specs.unify_types.Solution.{IsEquation, AreEquations, HasMostGeneral, IsValue, IsLeastClash};
ghost use Rattle.open_types.specs.unify_types.Pairs.{HoldsEquation, HoldEquations, equations_at, HasPrincipal, IsFixedAs, IsLeastPrefix};
ghost use Rattle.open_types.specs.unify_types.Value.{value_of};

use std::alloc::{AllocError, Global};
use std::collections::HashMap;
use trees::TermId;
use trees::store::Store;

mod bindings;
mod decomposing;
mod merging;
mod resolving;
mod solving;
mod valuing;

use bindings::Bindings;
use solving::unify;
use valuing::determined_unknowns;

/// Two types that are to be the same.
#[derive(Clone, Copy)]
pub struct Equation {
    pub left: TermId,
    pub right: TermId,
}

/// Why equations aren't solved.
#[derive(Clone, Copy)]
pub enum UnifyFault {
    /// Memory is wanting.
    Memory,
    /// The equations 0 to `k` have no solution, and those before `k` have one.
    Clash { k: usize },
}

impl From<AllocError> for UnifyFault {
    ghost use Rattle.std.specs.Prelude.{◌≡◌};
    ghost use Rattle.open_types.specs.declared.unify_types.UnifyFault.TheVariants.{Memory as NoMemory};

    ghost from_gives = { λ _ e. e ≡ NoMemory };

    fn from(_: AllocError) -> Self {
        UnifyFault::Memory
    }
}

/// The types of the unknowns that the equations determine, as numbers of the store.
#[derive(Drop)]
pub struct Solution {
    values: HashMap<usize, TermId>,
}

impl Solution {
    /// The type of an unknown, or `None` where two solutions differ there. The unknown is at least the `rigid_vars` with
    /// which the equations were solved. No memory is taken.
    pub fn value(&self, unknown: usize) -> Option<TermId>
        ensures { result ≡ value_of self.now unknown }
    {
        self.values.get(&unknown).copied()
    }
}

// Both sides of an equation are types by their shape too, since what a store holds is well sorted.
fn has_types(store: &Store, e: Equation)
    requires { HoldsEquation store.now e }
    ensures { IsEquation store.now e }
{
    let _left = store.node(e.left);
    let _right = store.node(e.right);
}

// Both sides of each equation are types by their shape too.
#[tactic(auto, using(crate::proofs::unify_types::Bridge::more_equations, crate::proofs::unify_types::Bridge::no_equations))]
fn have_types(store: &Store, equations: &[Equation])
    requires { HoldEquations store.now equations.now }
    ensures { AreEquations store.now equations.now }
{
    match equations.split_first() {
        Some((first, rest)) => {
            has_types(store, *first);
            have_types(store, rest);
        }
        None => (),
    }
}

/// Solves equations of types. A type variable of number `rigid_vars` or more is an unknown; any other stands for itself.
/// The solution is most general: every other one is an instance of it. Where there is none, the least prefix without one is
/// named. The store may have grown; its earlier numbers keep their trees. This is Robinson's unification.
pub fn solve(
    alloc: Global,
    store: &mut Store,
    rigid_vars: usize,
    equations: &[Equation],
) -> Result<Solution, UnifyFault>
    requires { HoldEquations store.old equations.now }
    ensures general { IfOk result (λ _. HasPrincipal rigid_vars
        (equations_at store.old equations.now)) }
    ensures values { IfOk result (λ solution. (u : ℕ) → rigid_vars ≤ u
        → IsFixedAs rigid_vars (equations_at store.old equations.now) store.new u
        (value_of solution u)) }
    ensures clash { IfErr result (IsLeastPrefix rigid_vars (equations_at store.old equations.now)) }
    ensures grows { Grows store.old store.new }
{
    have_types(store, equations);
    solve_types(alloc, store, rigid_vars, equations)
}

// The same over the numbers of a store.
fn solve_types(
    alloc: Global,
    store: &mut Store,
    rigid_vars: usize,
    equations: &[Equation],
) -> Result<Solution, UnifyFault>
    requires { AreEquations store.old equations.now }
    ensures general { IfOk result (λ _. HasMostGeneral rigid_vars store.old equations.now) }
    ensures values { IfOk result (λ solution. (u : ℕ) → rigid_vars ≤ u
        → IsValue rigid_vars store.old equations.now store.new u (value_of solution u)) }
    ensures clash { IfErr result (IsLeastClash rigid_vars store.old equations.now) }
    ensures grows { Grows store.old store.new }
{
    let mut bindings = Bindings::new(alloc);
    for k in 0..equations.len() {
        let e = equations[k];
        if !unify(alloc, store, rigid_vars, &mut bindings, e)? {
            return Err(UnifyFault::Clash { k });
        }
    }
    let values = determined_unknowns(alloc, store, rigid_vars, &bindings)?;
    Ok(Solution { values })
}
