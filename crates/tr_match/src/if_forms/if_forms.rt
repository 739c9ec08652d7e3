// A `match` and its `if` form.
ghost use Rattle.std.specs.Prelude.{◌≡◌, ◌<◌, IfOk};
ghost use Rattle.tasks.specs.trees.Tree.{Tree, Two, HCase, HCell};
ghost use Rattle.tasks.specs.trees.Node.{tree_at, Holds};
ghost use Rattle.evidence.specs.Drafts.{Extends};
ghost use Rattle.congruence.specs.Alike.{Shows, ArePair};
ghost use Rattle.congruence.specs.Conditionals.{IsConditional, IsIfAt, IsMatchAt};
ghost use Rattle.tr_match.specs.if_forms.IfForms.{IsIfForm, HasOthers, HasIf};

use congruence::{
    AlikeBy, CaseLinks, Conditional, alike_branch, alike_cases, cells_of, if_values, match_values,
};
use evidence::Draft;
use std::alloc::AllocError;
use tasks::{Grow, Node, TermId};

// What a `match` asks, and its branches after the first.
#[derive(Clone, Copy)]
struct Others {
    scrutinee: TermId,
    branches: TermId,
}

// What a `match` asks, and its branches after the first.
fn others_of(draft: &Draft, whole: TermId) -> Others
    requires held { Holds draft.now.trees whole }
    requires others { HasOthers (tree_at draft.now.trees whole) }
    ensures scrutinee_held { Holds draft.now.trees result.scrutinee }
    ensures branches_held { Holds draft.now.trees result.branches }
    ensures tree { (first : Tree) × (tree_at draft.now.trees whole
        ≡ Two HCase (tree_at draft.now.trees result.scrutinee)
        (Two HCell first (tree_at draft.now.trees result.branches))) }
{
    match draft.store().node(whole) {
        Node::Case(scrutinee, arms) => match draft.store().node(arms) {
            Node::Cell(_, branches) => Others {
                scrutinee,
                branches,
            },
            _ => unreachable!(),
        },
        _ => unreachable!(),
    }
}

// An `if` by its parts.
fn if_by_parts(draft: &Draft, whole: TermId) -> Conditional
    requires held { Holds draft.now.trees whole }
    requires is { HasIf (tree_at draft.now.trees whole) }
    ensures whole { result.whole ≡ whole }
    ensures condition_held { Holds draft.now.trees result.condition }
    ensures then_held { Holds draft.now.trees result.then_part }
    ensures else_held { Holds draft.now.trees result.else_part }
    ensures below { result.else_part.0 < whole.0 }
    ensures tree { IsIfAt draft.now result }
{
    match draft.store().node(whole) {
        Node::If(condition, then_part, else_part) => Conditional {
            whole,
            condition,
            then_part,
            else_part,
        },
        _ => unreachable!(),
    }
}

// A `match` and an `if` of one condition and one first part, whose other parts are alike.
fn alike_rest(
    draft: &mut Draft,
    left: Conditional,
    right: Conditional,
    rest: AlikeBy,
) -> Result<AlikeBy, AllocError>
    requires left { IsConditional draft.old left }
    requires right { IsConditional draft.old right }
    requires sides { ArePair draft.old left.whole right.whole }
    requires left_is { IsMatchAt draft.old left }
    requires right_is { IsIfAt draft.old right }
    requires condition { left.condition ≡ right.condition }
    requires then_part { left.then_part ≡ right.then_part }
    requires rest { Shows draft.old rest (tree_at draft.old.trees left.else_part)
        (tree_at draft.old.trees right.else_part) }
    ensures shows { IfOk result (λ w. Shows draft.new w (tree_at draft.old.trees left.whole)
        (tree_at draft.old.trees right.whole)) }
    ensures grows { Extends draft.old draft.new }
{
    let one = match_values(draft, left)?;
    let two = if_values(draft, right)?;
    let links = CaseLinks {
        condition: AlikeBy::Same,
        then_part: AlikeBy::Same,
        else_part: rest,
    };
    let made = alike_cases(draft, left, one, right, two, links)?;
    Ok(made)
}

/// A `match`, a closed term or formula, is alike its `if` form: the branches' bodies at the terms for their patterns' variables,
/// under the patterns' tests; the last one under no test. Only want of memory refuses.
pub fn match_evidence(draft: &mut Draft, whole: TermId, form: TermId) -> Result<AlikeBy, AllocError>
    requires pair { ArePair draft.old whole form }
    requires is { IsIfForm draft.old.task (tree_at draft.old.trees whole)
        (tree_at draft.old.trees form) }
    ensures shows { IfOk result (λ w. Shows draft.new w (tree_at draft.old.trees whole)
        (tree_at draft.old.trees form)) }
    ensures grows { Extends draft.old draft.new }
{
    let others = others_of(draft, whole);
    match cells_of(draft, others.branches) {
        None => {
            let made = alike_branch(draft, whole, form)?;
            Ok(made)
        }
        Some(_) => {
            let right = if_by_parts(draft, form);
            let rest = draft.add(Node::Case(others.scrutinee, others.branches))?;
            let inner = match_evidence(draft, rest, right.else_part)?;
            let left = Conditional {
                whole,
                condition: right.condition,
                then_part: right.then_part,
                else_part: rest,
            };
            let made = alike_rest(draft, left, right, inner)?;
            Ok(made)
        }
    }
}
