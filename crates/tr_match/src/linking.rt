// The link of a `match`: its `if` form, and evidence by the cases of the patterns.
ghost use Rattle.std.specs.Prelude.{◌≡◌, List, IfOk};
ghost use Rattle.tasks.specs.trees.Tree.{Tree, Two, HCase};
ghost use Rattle.tasks.specs.trees.Node.{tree_at, Holds};
ghost use Rattle.tasks.specs.trees.Sorts.{WellSorted};
ghost use Rattle.tasks.specs.Vocabulary.{of_task};
ghost use Rattle.evidence.specs.Drafts.{Extends, AddsTrees};
ghost use Rattle.walking.specs.Places.{IsInstanceAt, IsLinkOf};
ghost use Rattle.walking.specs.rule_rewriting.Rules.{HasTypingSomewhere};
ghost use Rattle.tr_match.specs.match_forms.Forms.{match_rule};

use crate::if_forms::match_evidence;
use crate::match_forms::match_node;
use evidence::Draft;
use std::alloc::AllocError;
use tasks::{Grow, Lookup, TermId};
use walking::Linked;

// What a node of the draft's task becomes.
fn form_of(draft: &mut Draft, e: TermId) -> Result<TermId, AllocError>
    requires held { Holds draft.old.trees e }
    requires typed { HasTypingSomewhere (of_task draft.old.task) (tree_at draft.old.trees e) }
    ensures held { IfOk result (Holds draft.new.trees) }
    ensures tree { IfOk result (λ id. tree_at draft.new.trees id
        ≡ match_rule draft.old.task (tree_at draft.old.trees e)) }
    ensures sorted { IfOk result (λ id. WellSorted (tree_at draft.new.trees id)) }
    ensures grows { AddsTrees draft.old draft.new }
{
    let task = draft.task().clone()?;
    let look = Lookup::without_index(&task);
    let alloc = draft.allocator();
    let made = match_node(alloc, draft, look, e)?;
    draft.store().laws();
    Ok(made)
}

/// The link of a `match` at an environment.
pub(crate) fn link_match(
    draft: &mut Draft,
    env: &[TermId],
    e: TermId,
    left: TermId,
    fresh: usize,
) -> Result<Linked, AllocError>
    requires place { IsInstanceAt draft.old env.now e left fresh }
    requires node { (s : Tree) × ((b : Tree) × (tree_at draft.old.trees e ≡ Two HCase s b)) }
    ensures link { IfOk result (IsLinkOf draft.new env.now left fresh
        (match_rule draft.old.task (tree_at draft.old.trees e))) }
    ensures grows { Extends draft.old draft.new }
{
    let _ = env;
    let _ = fresh;
    let _task = draft.task();
    let image = form_of(draft, e)?;
    let right = form_of(draft, left)?;
    let alike = match_evidence(draft, left, right)?;
    Ok(Linked {
        image,
        right,
        alike,
    })
}
