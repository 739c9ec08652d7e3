// The test of a pattern, the terms for its variables, and a constructor on the fields of a term, made in whatever grows by trees.
//
// Contract: exactly the trees of the definitions.

ghost use Rattle.std.specs.Prelude.{◌≡◌, ◌∷◌, [], List, All, IfOk};
ghost use Rattle.trees.specs.Tree.{Tree};
ghost use Rattle.trees.specs.Node.{tree_at, trees_at, Holds};
ghost use Rattle.trees.specs.Sorts.{sort_of, IsList};
ghost use Rattle.tasks.specs.Meaning.{task_at};
ghost use Rattle.tasks.specs.Looking.{LookupHeld};
ghost use Rattle.tasks.specs.Valid.{IsValid};
ghost use Rattle.tasks.specs.MatchTests.{rebuilt, tests, test, bind};
ghost use Rattle.images.specs.PatternTerms.{IsTypedPattern, HasClosedResult};
ghost use Rattle.images.specs.match_terms.Asking.{IsAskedHeld};

mod applied;
mod asking;

use applied::{At, push_members, rebuild};
use asking::{ask_all, conjunction};
use std::alloc::{AllocError, Global};
use tasks::Lookup;
use trees::store::Grow;
use trees::{Sort, TermId};

/// A pattern asked of a term.
#[derive(Drop)]
pub struct Asked {
    /// The equations that make the term match the pattern, in reading order.
    pub tests: Vec<TermId>,
    /// Their conjunction.
    pub test: TermId,
    /// The terms for the variables of the pattern, in reading order.
    pub terms: Vec<TermId>,
}

/// A pattern asked of a term: the equations that make the term match it, their conjunction, which is the pattern's test, and the
/// terms for its variables. The pattern is typed in the task. Only want of memory refuses.
pub fn ask<G: Grow>(
    alloc: Global,
    g: &mut G,
    look: Lookup<'_>,
    pattern: TermId,
    term: TermId,
) -> Result<Asked, AllocError>
    requires look { LookupHeld (G.trees g.old) look }
    requires valid { IsValid (task_at (G.trees g.old) look.task.now) }
    requires pattern_held { Holds (G.trees g.old) pattern }
    requires pattern { (types : List Tree) × IsTypedPattern (task_at (G.trees g.old) look.task.now)
        types (tree_at (G.trees g.old) pattern) }
    requires term_held { Holds (G.trees g.old) term }
    requires term { sort_of (tree_at (G.trees g.old) term) ≡ Sort.Term }
    ensures held { IfOk result (IsAskedHeld (G.trees g.new)) }
    ensures tests { IfOk result (λ a. trees_at (G.trees g.new) a.tests.items
        ≡ tests (task_at (G.trees g.old) look.entry.task.now) (tree_at (G.trees g.old) pattern)
        (tree_at (G.trees g.old) term ∷ [])) }
    ensures test { IfOk result (λ a. tree_at (G.trees g.new) a.test
        ≡ test (task_at (G.trees g.old) look.entry.task.now) (tree_at (G.trees g.old) pattern)
        (tree_at (G.trees g.old) term)) }
    ensures terms { IfOk result (λ a. trees_at (G.trees g.new) a.terms.items
        ≡ bind (task_at (G.trees g.old) look.entry.task.now) (tree_at (G.trees g.old) pattern)
        (tree_at (G.trees g.old) term)) }
    ensures grows { G.grows g.old g.new }
{
    let mut tests = Vec::new(alloc);
    let mut terms = Vec::new(alloc);
    ask_all(alloc, g, look, pattern, &[term], &mut tests, &mut terms)?;
    let test = conjunction(g, tests.as_slice())?;
    Ok(Asked { tests, test, terms })
}

/// A constructor on the fields of a term, told by these projections, at a list of types: each result is a closed type. Only want
/// of memory refuses.
pub fn rebuilt_term<G: Grow>(
    alloc: Global,
    g: &mut G,
    look: Lookup<'_>,
    constructor: usize,
    projections: &[usize],
    types: TermId,
    term: TermId,
) -> Result<TermId, AllocError>
    requires look { LookupHeld (G.trees g.old) look }
    requires results { All (HasClosedResult (task_at (G.trees g.old) look.task.now))
        (constructor ∷ projections.now) }
    requires types_held { Holds (G.trees g.old) types }
    requires types { IsList Sort.Kind (tree_at (G.trees g.old) types) }
    requires term_held { Holds (G.trees g.old) term }
    requires term { sort_of (tree_at (G.trees g.old) term) ≡ Sort.Term }
    ensures held { IfOk result (Holds (G.trees g.new)) }
    ensures tree { IfOk result (λ id. tree_at (G.trees g.new) id
        ≡ rebuilt (task_at (G.trees g.old) look.entry.task.now) constructor projections.now
        (tree_at (G.trees g.old) types) (tree_at (G.trees g.old) term)) }
    ensures grows { G.grows g.old g.new }
{
    let mut members = Vec::new(alloc);
    push_members(g.store(), types, &mut members)?;
    let at = At {
        look,
        types,
        members: members.as_slice(),
    };
    let made = rebuild(alloc, g, at, constructor, projections, term)?;
    Ok(made)
}
