// What an equation becomes where both sides have the same symbol: that of its arguments, member by member.
// They depend on the store; solving depends on them.
ghost use Rattle.std.specs.Prelude.{◌≡◌, ◌≢◌, ◌≤◌, MatchOption};
ghost use Rattle.trees.specs.Tree.{One, Two, HTyApp, HCell};
ghost use Rattle.trees.specs.Node.{tree_at, Holds};
ghost use Rattle.open_types.specs.unify_types.Assigned.{Variable};
ghost use Rattle.open_types.specs.unify_types.Solution.{IsEquation};
ghost use Rattle.open_types.specs.unify_types.Further.{IsListEquation, NoUnknown, IsNoApplication, IsNoCell, MeansSame, IsNeverMet, IsDecomposed};

use crate::unify_types::Equation;
use trees::store::Store;
use trees::{Node, TermId};

/// The unknown that a number stands for.
pub fn unknown_of(store: &Store, rigid: usize, e: TermId) -> Option<usize>
    requires { Holds store.now e }
    ensures { MatchOption result (NoUnknown rigid (tree_at store.now e))
        (λ u. (rigid ≤ u) × (tree_at store.now e ≡ Variable u)) }
{
    match store.node(e) {
        Node::TyVar(u) => { if rigid <= u { Some(u) } else { None } }
        _ => None,
    }
}

// The symbol and the arguments of a type, if it is an application.
fn application(store: &Store, ty: TermId) -> Option<(usize, TermId)>
    requires { Holds store.now ty }
    ensures { MatchOption result (IsNoApplication (tree_at store.now ty))
        (λ q. Holds store.now q.1
        × (tree_at store.now ty ≡ One (HTyApp q.0) (tree_at store.now q.1))) }
{
    match store.node(ty) {
        Node::TyApp(symbol, list) => Some((symbol, list)),
        _ => None,
    }
}

// The first member of a list and the rest, if it has members.
fn cell(store: &Store, list: TermId) -> Option<(TermId, TermId)>
    requires { Holds store.now list }
    ensures { MatchOption result (IsNoCell (tree_at store.now list))
        (λ q. Holds store.now q.0 × Holds store.now q.1
        × (tree_at store.now list
        ≡ Two HCell (tree_at store.now q.0) (tree_at store.now q.1))) }
{
    match store.node(list) {
        Node::Cell(first, rest) => Some((first, rest)),
        _ => None,
    }
}

/// The equation of the arguments, where both sides have the same type symbol.
#[tactic(auto, using(crate::proofs::unify_types::Decomposed::same_symbol, crate::proofs::unify_types::Decomposed::other_symbol, crate::proofs::unify_types::Decomposed::left_constant, crate::proofs::unify_types::Decomposed::right_constant))]
pub fn arguments(store: &Store, rigid: usize, e: Equation) -> Option<Equation>
    requires equation { IsEquation store.now e }
    requires left_known { NoUnknown rigid (tree_at store.now e.left) }
    requires right_known { NoUnknown rigid (tree_at store.now e.right) }
    requires differ { tree_at store.now e.left ≢ tree_at store.now e.right }
    ensures { MatchOption result (IsNeverMet rigid store.now e)
        (λ a. IsListEquation store.now a × MeansSame rigid store.now e a) }
{
    let _ = rigid;
    match application(store, e.left) {
        Some((first, left)) => match application(store, e.right) {
            Some((second, right)) => {
                if first == second {
                    Some(Equation { left, right })
                } else {
                    None
                }
            }
            None => None,
        },
        None => None,
    }
}

/// The equations of the first members and of the rest, where both lists have members.
#[tactic(auto, using(crate::proofs::unify_types::Decomposed::both_cells, crate::proofs::unify_types::Decomposed::left_end, crate::proofs::unify_types::Decomposed::right_end))]
pub fn members(store: &Store, rigid: usize, e: Equation) -> Option<(Equation, Equation)>
    requires lists { IsListEquation store.now e }
    requires differ { tree_at store.now e.left ≢ tree_at store.now e.right }
    ensures { MatchOption result (IsNeverMet rigid store.now e)
        (λ q. IsDecomposed rigid store.now e q.0 q.1) }
{
    let _ = rigid;
    match cell(store, e.left) {
        Some((x, xs)) => match cell(store, e.right) {
            Some((y, ys)) => {
                let first = Equation { left: x, right: y };
                let rest = Equation {
                    left: xs,
                    right: ys,
                };
                Some((first, rest))
            }
            None => None,
        },
        None => None,
    }
}
