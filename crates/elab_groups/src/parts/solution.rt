// A formula from its expression: the walk, the solution of its equations, and the types put in.
// It depends on the walk of trees and on unification.
ghost use Rattle.std.specs.Prelude.{◌≡◌, ◌≤◌, ◌++◌, None, IfOk, IfErr, OnOk, [], length, map, true, false, All};
ghost use Rattle.tasks.specs.trees.Node.{tree_at, Holds, Grows};
ghost use Rattle.tasks.specs.Meaning.{trees_at};
ghost use Rattle.name_resolution.specs.Abstract.{expression_of};
ghost use Rattle.name_resolution.specs.Faults.{fault};
ghost use Rattle.name_resolution.specs.Naming.{where_at};
ghost use Rattle.open_types.specs.Pieces.{piece};
ghost use Rattle.open_types.specs.Scoped.{IsScoped};
ghost use Rattle.open_types.specs.Drafts.{HoldsType, WorldHeld, IsReady, MatchHeld, match_at, notes_at, instances};
ghost use Rattle.elab_groups.specs.parts.Elaborated.{IsSolved, IsTypingFault};
ghost use Rattle.elab_groups.specs.parts.Values.{AreKinds, IsTypeNumbered, AreSolutionValues, AreSolvedTypes, notes_after, IsFirstOpen, match_instance, FormulaHeld};

use name_resolution::World;
use open_types::unify_types::{Solution, UnifyFault, solve};
use open_types::{Constraints, Locals, MatchAt, start_draft, walk};
use scopes::Seq;
use std::alloc::{AllocError, AllocFailed, Global};
use surface::Expr;
use tasks::{Grow, Node, Store, TermId};
use trees::binders::inst_types;

/// What is wrong with the types of a declaration.
#[derive(Clone, Copy)]
pub enum TypingFault {
    /// Memory is wanting.
    Memory,
    /// The equations 0 to `k` have no solution, and those before `k` have one.
    Clash { k: usize },
    /// The first node whose types the equations leave open.
    Undetermined { token: usize },
}

impl From<AllocError> for TypingFault {
    ghost use Rattle.std.specs.Prelude.{◌≡◌};
    ghost use Rattle.elab_groups.specs.declared.parts.solution.TypingFault.TheVariants.{Memory as NoMemory};

    ghost from_gives = { λ _ e. e ≡ NoMemory };

    fn from(_: AllocError) -> Self {
        TypingFault::Memory
    }
}

impl<T: Drop> From<AllocFailed<T>> for TypingFault {
    ghost use Rattle.std.specs.Prelude.{◌≡◌};
    ghost use Rattle.elab_groups.specs.declared.parts.solution.TypingFault.TheVariants.{Memory as NoMemory};

    ghost from_gives = { λ _ e. e ≡ NoMemory };

    fn from(_: AllocFailed<T>) -> Self {
        TypingFault::Memory
    }
}

impl From<UnifyFault> for TypingFault {
    ghost use Rattle.std.specs.Prelude.{◌≡◌};
    ghost use Rattle.elab_groups.specs.parts.Values.{typing_fault};

    ghost from_gives = { λ f e. e ≡ typing_fault f };

    fn from(fault: UnifyFault) -> Self {
        match fault {
            UnifyFault::Memory => TypingFault::Memory,
            UnifyFault::Clash { k } => TypingFault::Clash { k },
        }
    }
}

// The type of the type variable of a number: itself, where it is the declaration's own, or its value, where it has one.
fn type_numbered(
    store: &mut Store,
    rigid: usize,
    solution: &Solution,
    number: usize,
) -> Result<Option<TermId>, AllocError>
    requires { AreKinds store.old rigid solution.now }
    ensures answer { IfOk result (IsTypeNumbered store.new rigid solution.now number) }
    ensures grows { Grows store.old store.new }
{
    if number < rigid {
        let ty = store.add(Node::TyVar(number))?;
        return Ok(Some(ty));
    }
    Ok(solution.value(number))
}

// The types of all type variables by number, or the token of the node that takes the first unknown that is left open.
fn determine_types(
    alloc: Global,
    store: &mut Store,
    rigid: usize,
    takers: &[usize],
    solution: &Solution,
) -> Result<Vec<TermId>, TypingFault>
    requires { AreKinds store.old rigid solution.now }
    ensures ok { IfOk result (λ types. AreSolutionValues store.new rigid solution.now
        (length takers.now)
        types.items) }
    ensures err { IfErr result (IsFirstOpen rigid solution.now takers.now) }
    ensures grows { Grows store.old store.new }
{
    let mut types = Vec::new(alloc);
    for (number, taker) in takers.iter().enumerate() {
        match type_numbered(store, rigid, solution, number)? {
            Some(ty) => types.push(ty)?,
            None => return Err(TypingFault::Undetermined { token: *taker }),
        }
    }
    Ok(types)
}

/// The types of all type variables at the most general solution of a draft's equations.
pub fn solve_draft(
    alloc: Global,
    store: &mut Store,
    rigid: usize,
    draft: &Constraints,
) -> Result<Vec<TermId>, TypingFault>
    requires ready { IsReady store.old draft.now }
    requires own { rigid ≤ length draft.now.takers }
    ensures ok { IfOk result (λ types. AreSolvedTypes store.new rigid
        (notes_after rigid (notes_at store.old draft.now)) types.items) }
    ensures err { IfErr result (IsTypingFault rigid
        (notes_after rigid (notes_at store.old draft.now))) }
    ensures grows { Grows store.old store.new }
{
    let solution = solve(alloc, store, rigid, draft.equations.as_slice())?;
    determine_types(alloc, store, rigid, draft.takers.as_slice(), &solution)
}

/// Trees at types, after those that are there.
pub fn put_trees(
    alloc: Global,
    store: &mut Store,
    them: &mut Vec<TermId>,
    ids: &[TermId],
    types: &[TermId],
) -> Result<(), AllocError>
    requires them { All (Holds store.old) them.old.items }
    requires ids { All (Holds store.old) ids.now }
    requires types { All (HoldsType store.old) types.now }
    ensures held { OnOk result (All (Holds store.new) them.new.items) }
    ensures trees { OnOk result (trees_at store.new them.new.items ≡ trees_at store.old
        them.old.items ++ instances (trees_at store.old types.now) (trees_at store.old ids.now)) }
    ensures grows { Grows store.old store.new }
{
    let Some((first, rest)) = ids.split_first() else {
        return Ok(());
    };
    let tree = inst_types(alloc, store, *first, types)?;
    them.push(tree)?;
    put_trees(alloc, store, them, rest, types)
}

// A match at types.
fn put_match(
    alloc: Global,
    store: &mut Store,
    one: &MatchAt,
    types: &[TermId],
) -> Result<MatchAt, AllocError>
    requires one { MatchHeld store.old one.now }
    requires types { All (HoldsType store.old) types.now }
    ensures held { IfOk result (MatchHeld store.new) }
    ensures patterns { IfOk result (λ it. match_at store.new it ≡ match_instance
        (trees_at store.old types.now) (match_at store.old one.now)) }
    ensures grows { Grows store.old store.new }
{
    let mut patterns = Vec::new(alloc);
    put_trees(alloc, store, &mut patterns, one.patterns.as_slice(), types)?;
    Ok(MatchAt {
        token: one.token,
        patterns: Seq::from_vec(patterns),
    })
}

/// Matches at types, after those that are there.
pub fn put_matches(
    alloc: Global,
    store: &mut Store,
    them: &mut Vec<MatchAt>,
    matches: &[MatchAt],
    types: &[TermId],
) -> Result<(), AllocError>
    requires them { All (MatchHeld store.old) them.old.items }
    requires matches { All (MatchHeld store.old) matches.now }
    requires types { All (HoldsType store.old) types.now }
    ensures held { OnOk result (All (MatchHeld store.new) them.new.items) }
    ensures patterns { OnOk result (map (match_at store.new) them.new.items ≡ map
        (match_at store.old) them.old.items ++ map (match_instance (trees_at store.old types.now))
        (map (match_at store.old) matches.now)) }
    ensures grows { Grows store.old store.new }
{
    let Some((first, rest)) = matches.split_first() else {
        return Ok(());
    };
    let one = put_match(alloc, store, first, types)?;
    them.push(one)?;
    put_matches(alloc, store, them, rest, types)
}

/// A formula with the matches in it.
#[derive(Drop)]
pub struct Formula {
    pub tree: TermId,
    pub matches: Seq<MatchAt>,
}

/// The tree of a formula whose names are there, and its matches: what its piece is at every solution of its equations. A fault
/// of its types is the least prefix of the equations without a solution, or the first node that the solutions leave open.
pub fn solve_formula(
    alloc: Global,
    store: &mut Store,
    world: &World<'_>,
    e: &Expr,
) -> Result<Formula, TypingFault>
    requires world { WorldHeld store.old world.now }
    requires scoped { IsScoped (where_at store.old world.now) }
    requires resolved { fault (where_at store.old world.now) false [] true (expression_of e.now) ≡
        None }
    ensures held { IfOk result (FormulaHeld store.new) }
    ensures ok { IfOk result (λ it. IsSolved (length world.now.vars.now)
        (piece (where_at store.old world.now) [] (length world.now.vars.now) None
        (expression_of e.now)) (tree_at store.new it.tree) (map (match_at store.new) it.matches)) }
    ensures err { IfErr result (IsTypingFault (length world.now.vars.now)
        (piece (where_at store.old world.now) [] (length world.now.vars.now) None
        (expression_of e.now)).notes) }
    ensures grows { Grows store.old store.new }
{
    let rigid = world.vars.len();
    let mut draft = start_draft(alloc, rigid)?;
    let tree = walk(alloc, store, &mut draft, e, world, &Locals::Outside, None)?;
    let types = solve_draft(alloc, store, rigid, &draft)?;
    let tree = inst_types(alloc, store, tree, types.as_slice())?;
    let mut matches = Vec::new(alloc);
    put_matches(
        alloc,
        store,
        &mut matches,
        draft.matches.as_slice(),
        types.as_slice(),
    )?;
    Ok(Formula {
        tree,
        matches: Seq::from_vec(matches),
    })
}
