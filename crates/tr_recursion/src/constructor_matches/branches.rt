// The first branch of a closed `match`, asked: its test, and its body at the terms for its pattern's variables.
ghost use Rattle.std.specs.Prelude.{◌≡◌, ◌<◌, [], IfOk};
ghost use Rattle.trees.specs.Tree.{Tree, Two, HCell, HArm};
ghost use Rattle.trees.specs.Node.{tree_at, trees_at, Holds};
ghost use Rattle.trees.specs.Sorts.{sort_of};
ghost use Rattle.evidence.specs.Drafts.{Extends, AddsTrees};
ghost use Rattle.tasks.specs.MatchTests.{test, bind};
ghost use Rattle.tr_inline.specs.inlining.images.PatternTerms.{IsTypedPattern};
ghost use Rattle.trees.specs.binders.Visits.{HoldTerms};
ghost use Rattle.tr_recursion.specs.constructor_matches.Asked.{IsFirstBranch, IsFirstOpened};

use evidence::Draft;
use images::match_terms::{Asked, ask};
use std::alloc::AllocError;
use tasks::{Grow, Lookup};
use trees::binders::index_bounds::put_terms;
use trees::{Node, Sort, TermId};

/// The first branch of a list, and the list of the others.
#[derive(Clone, Copy)]
pub(crate) struct FirstBranch {
    pub pattern: TermId,
    pub body: TermId,
    pub others: TermId,
}

/// The first branch of a list of branches, and the list of the others.
pub(crate) fn first_branch(draft: &Draft, arms: TermId) -> FirstBranch
    requires held { Holds draft.now.trees arms }
    requires branches { (p : Tree) × ((a : Tree) × ((r : Tree)
        × (tree_at draft.now.trees arms ≡ Two HCell (Two HArm p a) r))) }
    ensures pattern_held { Holds draft.now.trees result.pattern }
    ensures body_held { Holds draft.now.trees result.body }
    ensures others_held { Holds draft.now.trees result.others }
    ensures others_below { result.others.0 < arms.0 }
    ensures tree { tree_at draft.now.trees arms ≡ Two HCell
        (Two HArm (tree_at draft.now.trees result.pattern) (tree_at draft.now.trees result.body))
        (tree_at draft.now.trees result.others) }
{
    match draft.store().node(arms) {
        Node::Cell(arm, others) => match draft.store().node(arm) {
            Node::Arm(pattern, body) => FirstBranch {
                pattern,
                body,
                others,
            },
            _ => unreachable!(),
        },
        _ => unreachable!(),
    }
}

/// The test of a pattern, asked of a closed term, and the terms for the pattern's variables.
pub(crate) fn ask_pattern(
    draft: &mut Draft,
    pattern: TermId,
    term: TermId,
) -> Result<Asked, AllocError>
    requires pattern_held { Holds draft.old.trees pattern }
    requires pattern { IsTypedPattern draft.old.task [] (tree_at draft.old.trees pattern) }
    requires term_held { Holds draft.old.trees term }
    requires term { sort_of (tree_at draft.old.trees term) ≡ Sort.Term }
    ensures test_held { IfOk result (λ a. Holds draft.new.trees a.test) }
    ensures test { IfOk result (λ a. tree_at draft.new.trees a.test ≡ test draft.old.task
        (tree_at draft.old.trees pattern) (tree_at draft.old.trees term)) }
    ensures terms_held { IfOk result (λ a. HoldTerms draft.new.trees a.terms.items) }
    ensures terms { IfOk result (λ a. trees_at draft.new.trees a.terms.items ≡ bind draft.old.task
        (tree_at draft.old.trees pattern) (tree_at draft.old.trees term)) }
    ensures grows { AddsTrees draft.old draft.new }
{
    let task = draft.task().clone()?;
    let look = Lookup::without_index(&task);
    let alloc = draft.allocator();
    let asked = ask(alloc, draft, look, pattern, term)?;
    Ok(asked)
}

/// The test of a branch's pattern, and the branch's body at the terms for the pattern's variables.
#[derive(Clone, Copy)]
pub(crate) struct OpenedBranch {
    pub test: TermId,
    pub inner: TermId,
}

/// Opens the first branch of a closed `match`.
pub(crate) fn open_branch(
    draft: &mut Draft,
    whole: TermId,
    scrutinee: TermId,
    first: FirstBranch,
) -> Result<OpenedBranch, AllocError>
    requires asked { IsFirstBranch draft.old whole scrutinee first }
    ensures opened { IfOk result (IsFirstOpened draft.new whole scrutinee first) }
    ensures grows { AddsTrees draft.old draft.new }
{
    let _ = whole;
    let _task = draft.task();
    let asked = ask_pattern(draft, first.pattern, scrutinee)?;
    let alloc = draft.allocator();
    let inner = put_terms(alloc, draft, first.body, &asked.terms)?;
    Ok(OpenedBranch {
        test: asked.test,
        inner,
    })
}
