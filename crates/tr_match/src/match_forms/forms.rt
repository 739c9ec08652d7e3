// The `if` form of a `match`, over what grows by trees.
ghost use Rattle.std.specs.Prelude.{◌≡◌, ◌<◌, List, IfOk};
ghost use Rattle.trees.specs.Tree.{Tree, Two, HCell, HArm};
ghost use Rattle.trees.specs.Node.{tree_at, Holds};
ghost use Rattle.trees.specs.Binding.{inst_many};
ghost use Rattle.tasks.specs.Vocabulary.{of_task};
ghost use Rattle.tasks.specs.Looking.{LookupHeld};
ghost use Rattle.tasks.specs.MatchTests.{test, bind};
ghost use Rattle.tasks.specs.Valid.{IsValid};
ghost use Rattle.images.specs.typing_laws.HasTyping.{HasTyping};
ghost use Rattle.tr_match.specs.match_forms.Forms.{if_form, match_rule};
ghost use Rattle.tr_match.specs.match_forms.Held.{look_task, CanForm, CanOpenBranch};

use images::match_terms::ask;
use std::alloc::{AllocError, Global};
use tasks::{Grow, Lookup, Store};
use trees::binders::index_bounds::put_terms;
use trees::{Node, TermId};

/// The first branch of a list, and the list of the others.
#[derive(Clone, Copy)]
struct FirstBranch {
    pattern: TermId,
    body: TermId,
    others: TermId,
}

// The first branch of a list of branches, and the list of the others.
fn first_branch(store: &Store, branches: TermId) -> FirstBranch
    requires held { Holds store.now branches }
    requires branches { (p : Tree) × ((a : Tree) × ((r : Tree)
        × (tree_at store.now branches ≡ Two HCell (Two HArm p a) r))) }
    ensures pattern_held { Holds store.now result.pattern }
    ensures body_held { Holds store.now result.body }
    ensures others_held { Holds store.now result.others }
    ensures others_below { result.others.0 < branches.0 }
    ensures tree { tree_at store.now branches ≡ Two HCell
        (Two HArm (tree_at store.now result.pattern) (tree_at store.now result.body))
        (tree_at store.now result.others) }
{
    match store.node(branches) {
        Node::Cell(branch, others) => match store.node(branch) {
            Node::Arm(pattern, body) => FirstBranch {
                pattern,
                body,
                others,
            },
            _ => unreachable!(),
        },
        _ => unreachable!(),
    }
}

/// The test of a pattern, and a body at the terms for the pattern's variables.
#[derive(Clone, Copy)]
struct OpenedBranch {
    test: TermId,
    body: TermId,
}

// A branch asked of a term.
fn open_branch<G: Grow>(
    alloc: Global,
    g: &mut G,
    look: Lookup<'_>,
    scrutinee: TermId,
    branch: FirstBranch,
) -> Result<OpenedBranch, AllocError>
    requires { CanOpenBranch (G.trees g.old) look scrutinee branch }
    ensures test_held { IfOk result (λ o. Holds (G.trees g.new) o.test) }
    ensures test { IfOk result (λ o. tree_at (G.trees g.new) o.test
        ≡ test (look_task (G.trees g.old) look.entry) (tree_at (G.trees g.old) branch.pattern)
        (tree_at (G.trees g.old) scrutinee)) }
    ensures body_held { IfOk result (λ o. Holds (G.trees g.new) o.body) }
    ensures body { IfOk result (λ o. tree_at (G.trees g.new) o.body
        ≡ inst_many (tree_at (G.trees g.old) branch.body)
        (bind (look_task (G.trees g.old) look.entry) (tree_at (G.trees g.old) branch.pattern)
        (tree_at (G.trees g.old) scrutinee))) }
    ensures grows { G.grows g.old g.new }
{
    let asked = ask(alloc, g, look, branch.pattern, scrutinee)?;
    let body = put_terms(alloc, g, branch.body, &asked.terms)?;
    Ok(OpenedBranch {
        test: asked.test,
        body,
    })
}

// The form of a list of branches, asked of a term.
fn if_form<G: Grow>(
    alloc: Global,
    g: &mut G,
    look: Lookup<'_>,
    scrutinee: TermId,
    branches: TermId,
) -> Result<TermId, AllocError>
    requires { CanForm (G.trees g.old) look scrutinee branches }
    ensures held { IfOk result (Holds (G.trees g.new)) }
    ensures tree { IfOk result (λ id. tree_at (G.trees g.new) id
        ≡ if_form (look_task (G.trees g.old) look.entry) (tree_at (G.trees g.old) scrutinee)
        (tree_at (G.trees g.old) branches)) }
    ensures grows { G.grows g.old g.new }
{
    let first = first_branch(g.store(), branches);
    let opened = open_branch(alloc, g, look, scrutinee, first)?;
    match g.store().node(first.others) {
        Node::Cell(_, _) => {
            let rest = if_form(alloc, g, look, scrutinee, first.others)?;
            let made = g.add(Node::If(opened.test, opened.body, rest))?;
            Ok(made)
        }
        _ => Ok(opened.body),
    }
}

/// What a typed node becomes once the trees in it have no `match`: a `match` its form, and any other node itself. Only want of
/// memory refuses.
pub fn match_node<G: Grow>(
    alloc: Global,
    g: &mut G,
    look: Lookup<'_>,
    e: TermId,
) -> Result<TermId, AllocError>
    requires look { LookupHeld (G.trees g.old) look }
    requires valid { IsValid (look_task (G.trees g.old) look) }
    requires held { Holds (G.trees g.old) e }
    requires typed { (types : List Tree) × HasTyping (of_task (look_task (G.trees g.old) look))
        types (tree_at (G.trees g.old) e) }
    ensures held { IfOk result (Holds (G.trees g.new)) }
    ensures tree { IfOk result (λ id. tree_at (G.trees g.new) id
        ≡ match_rule (look_task (G.trees g.old) look.entry) (tree_at (G.trees g.old) e)) }
    ensures grows { G.grows g.old g.new }
{
    match g.store().node(e) {
        Node::Case(scrutinee, branches) => {
            let made = if_form(alloc, g, look, scrutinee, branches)?;
            Ok(made)
        }
        _ => Ok(e),
    }
}
