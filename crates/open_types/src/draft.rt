// What the walk of a declaration gives beside its trees.
// It depends on the store and on type equations; each part of the walk depends on it.
ghost use Rattle.std.specs.Prelude.{◌≡◌, ◌<◌, ◌∷◌, [], length, slice_set, Some, OnOk, IfOk, IfSome, option_map};
ghost use Rattle.trees.specs.Tree.{Leaf, HTyVar};
ghost use Rattle.trees.specs.Node.{tree_at, node_tree, parts_of, AreBelow, Grows};
ghost use Rattle.trees.specs.Sorts.{Fits};
ghost use Rattle.open_types.specs.Patterns.{noted, with_match};
ghost use Rattle.open_types.specs.Pieces.{wanting};
ghost use Rattle.open_types.specs.Drafts.{HoldsType, IsReady, IsMade, IsNoted, IsTaken};

use crate::unify_types::Equation;
use scopes::Seq;
use std::alloc::{AllocError, Global};
use trees::store::{Grow, Node, Store, TermId};

/// The patterns of a `match`, or of a `let` of a pattern, by its token: one for each alternative.
#[derive(Drop)]
pub struct MatchAt {
    pub token: usize,
    pub patterns: Seq<TermId>,
}

/// The equations in order; for each type variable the token of the node that takes it, those of the declaration's own first;
/// and the matches in order.
#[derive(Drop)]
pub struct Constraints {
    pub equations: Seq<Equation>,
    pub takers: Seq<usize>,
    pub matches: Seq<MatchAt>,
}

/// A draft without equations, for a declaration with so many type variables.
pub fn start_draft(alloc: Global, rigid: usize) -> Result<Constraints, AllocError>
    ensures equations { IfOk result (λ d. d.equations ≡ []) }
    ensures takers { IfOk result (λ d. length d.takers ≡ rigid) }
    ensures matches { IfOk result (λ d. d.matches ≡ []) }
{
    let mut takers = Vec::new(alloc);
    for _own in 0..rigid {
        takers.push(0)?;
    }
    Ok(Constraints {
        equations: Seq::new(alloc),
        takers: Seq::from_vec(takers),
        matches: Seq::new(alloc),
    })
}

/// A node more in the store; the draft stays.
#[tactic(auto, using(crate::proofs::Growing::ready_grows, crate::proofs::Growing::notes_stay))]
pub fn make(store: &mut Store, draft: &Constraints, node: Node) -> Result<TermId, AllocError>
    requires held { AreBelow (length store.old) (parts_of node) }
    requires fits { Fits (node_tree store.old node) }
    requires ready { IsReady store.old draft.now }
    ensures made { IfOk result (IsMade store.old draft.now store.new (node_tree store.old node)) }
    ensures grows { Grows store.old store.new }
{
    store.add(node)
}

/// A new unknown, which the node at a token takes.
#[tactic(auto, using(crate::proofs::Noting::unknown_noted))]
pub fn new_unknown(
    store: &mut Store,
    draft: &mut Constraints,
    token: usize,
) -> Result<TermId, AllocError>
    requires ready { IsReady store.old draft.old }
    ensures held { IfOk result (HoldsType store.new) }
    ensures tree { IfOk result (λ id. tree_at store.new id ≡ Leaf (HTyVar (length
        draft.old.takers))) }
    ensures noted { OnOk result (IsNoted store.old draft.old store.new draft.new (noted [] (token ∷
        []))) }
    ensures grows { Grows store.old store.new }
{
    let number = draft.takers.len();
    let id = make(store, draft, Node::TyVar(number))?;
    draft.takers.push(token)?;
    Ok(id)
}

/// So many new unknowns, which the node at a token takes.
pub fn unknowns(
    alloc: Global,
    store: &mut Store,
    draft: &mut Constraints,
    token: usize,
    count: usize,
) -> Result<Vec<TermId>, AllocError>
    requires ready { IsReady store.old draft.old }
    ensures taken { IfOk result (λ types. IsTaken store.old draft.old store.new draft.new token
        count types.items) }
    ensures grows { Grows store.old store.new }
{
    let mut types = Vec::new(alloc);
    for _number in 0..count {
        let ty = new_unknown(store, draft, token)?;
        types.push(ty)?;
    }
    Ok(types)
}

// Two types are to be the same.
#[tactic(auto, using(crate::proofs::Noting::equation_noted))]
fn add_equation(
    store: &Store,
    draft: &mut Constraints,
    left: TermId,
    right: TermId,
) -> Result<(), AllocError>
    requires left { HoldsType store.now left }
    requires right { HoldsType store.now right }
    requires ready { IsReady store.now draft.old }
    ensures noted { OnOk result (IsNoted store.now draft.old store.now draft.new (noted ((
      tree_at
          store.now left,
      tree_at store.now right,
    ) ∷ []) [])) }
{
    let _ = store;
    draft.equations.push(Equation { left, right })
}

/// An equation more: a type is the one that is wanted, if one is.
#[tactic(auto, using(crate::proofs::Noting::nothing_noted))]
pub fn equate(
    store: &Store,
    draft: &mut Constraints,
    left: TermId,
    wanted: Option<TermId>,
) -> Result<(), AllocError>
    requires left { HoldsType store.now left }
    requires wanted { IfSome wanted (HoldsType store.now) }
    requires ready { IsReady store.now draft.old }
    ensures noted { OnOk result (IsNoted store.now draft.old store.now draft.new (noted (wanting
        (tree_at store.now left) (option_map (tree_at store.now) wanted)) [])) }
{
    match wanted {
        Some(right) => add_equation(store, draft, left, right),
        None => Ok(()),
    }
}

/// A match more, whose patterns come later. Its place among the matches is told.
#[tactic(auto, using(crate::proofs::Noting::match_noted))]
pub fn reserve(
    alloc: Global,
    store: &Store,
    draft: &mut Constraints,
    token: usize,
) -> Result<usize, AllocError>
    requires ready { IsReady store.now draft.old }
    ensures place { IfOk result (λ place. place ≡ length draft.old.matches) }
    ensures noted { OnOk result (IsNoted store.now draft.old store.now draft.new
        (with_match token [])) }
{
    let _ = store;
    let place = draft.matches.len();
    let patterns = Seq::new(alloc);
    draft.matches.push(MatchAt { token, patterns })?;
    Ok(place)
}

/// The match at a place has these patterns.
pub fn fill(draft: &mut Constraints, place: usize, token: usize, patterns: Seq<TermId>)
    requires { place < length draft.old.matches }
    ensures equations { draft.new.equations ≡ draft.old.equations }
    ensures takers { draft.new.takers ≡ draft.old.takers }
    ensures matches { draft.new.matches ≡ slice_set draft.old.matches place
        (record { token = token; patterns = patterns }) }
{
    draft.matches.set(place, MatchAt { token, patterns });
}
