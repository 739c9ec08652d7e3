// What is remembered in a walk: links by the number of an open tree and that of the list of the terms that it can see.
ghost use Rattle.std.specs.Prelude.{◌≡◌, ◌≤◌, ◌++◌, List, length, All, IfOk};
ghost use Rattle.trees.specs.Tree.{Leaf, HEnd, loose};
ghost use Rattle.trees.specs.Node.{tree_at, trees_at, Holds};
ghost use Rattle.trees.specs.Sorts.{sort_of};
ghost use Rattle.evidence.specs.Drafts.{AddsTrees};
ghost use Rattle.images.specs.Templates.{listed};

use crate::linked::Linked;
use congruence::list_after;
use evidence::Draft;
use indexmap::IndexMap;
use std::alloc::AllocError;
use tasks::Grow;
use trees::{Node, Sort, TermId};

/// Links that were made, by the number of the open tree and that of the list of the terms that it can see.
pub(crate) type Links = IndexMap<(usize, usize), Linked>;

/// The terms for the variables that an open tree can see, the last ones.
pub(crate) fn seen_terms<'a>(draft: &Draft, env: &'a [TermId], e: TermId) -> &'a [TermId]
    requires held { Holds draft.now.trees e }
    ensures last { (far : List TermId) × (env.now ≡ far ++ result.now) }
    ensures enough { loose (tree_at draft.now.trees e) ≤ length env.now
        → loose (tree_at draft.now.trees e) ≤ length result.now }
{
    let (_, near) = env.split_at(env.len().saturating_sub(draft.store().loose(e)));
    near
}

/// The list of these terms, which has one number.
pub(crate) fn term_list(draft: &mut Draft, terms: &[TermId]) -> Result<TermId, AllocError>
    requires held { All (Holds draft.old.trees) terms.now }
    requires terms { All (λ id. sort_of (tree_at draft.old.trees id) ≡ Sort.Term) terms.now }
    ensures held { IfOk result (Holds draft.new.trees) }
    ensures tree { IfOk result (λ id. tree_at draft.new.trees id
        ≡ listed (trees_at draft.old.trees terms.now) (Leaf HEnd)) }
    ensures grows { AddsTrees draft.old draft.new }
{
    let end = draft.add(Node::End)?;
    let list = list_after(draft, terms, end)?;
    Ok(list)
}
