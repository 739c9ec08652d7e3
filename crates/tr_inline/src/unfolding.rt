// One definition unfolded in an open tree: the rule of a walk.
ghost use Rattle.std.specs.Prelude.{◌≡◌, IfOk};
ghost use Rattle.trees.specs.Node.{tree_at, Holds};
ghost use Rattle.trees.specs.Sorts.{WellSorted};
ghost use Rattle.trees.specs.Tree.{Tree};
ghost use Rattle.evidence.specs.Drafts.{Extends, AddsTrees};
ghost use Rattle.congruence.specs.Alike.{ArePair};
ghost use Rattle.walking.specs.Places.{IsInstanceAt, IsLinkOf};
ghost use Rattle.tr_inline.specs.Uses.{AreUseParts, IsUseOf};
ghost use Rattle.tr_inline.specs.Definitions.{unfolding_rule, rule_others, IsDefinedIn, defined_later};
ghost use Rattle.tr_inline.specs.Unfolded.{AreUnfolded};

use crate::full_bodies::{defining_body, inst_many, put_arguments, put_types};
use crate::uses::{UseParts, alike_unfolded, find_use};
use congruence::AlikeBy;
use evidence::Draft;
use std::alloc::AllocError;
use tasks::{Def, Grow, TermId};
use walking::{Linked, Rewrite};

/// The rule by which each use of a definition's symbol becomes the body of the definition.
#[derive(Clone, Copy)]
pub(crate) struct Unfold {
    pub def: Def,
}

// A use unfolded, as an open tree and at an environment.
#[derive(Clone, Copy)]
struct UnfoldedAt {
    image: TermId,
    right: TermId,
}

/// The body of a definition at the types and the arguments of a use.
pub(crate) fn unfolded_use(
    draft: &mut Draft,
    def: Def,
    at: UseParts,
    e: TermId,
) -> Result<TermId, AllocError>
    requires defined { IsDefinedIn draft.old def }
    requires used { AreUseParts draft.old.trees def.symbol e at }
    requires sorted { WellSorted (tree_at draft.old.trees e) }
    ensures held { IfOk result (Holds draft.new.trees) }
    ensures tree { IfOk result (λ id. tree_at draft.new.trees id
        ≡ unfolding_rule draft.old.task def.symbol (tree_at draft.old.trees e)) }
    ensures grows { AddsTrees draft.old draft.new }
{
    let _ = e;
    let alloc = draft.allocator();
    let body = defining_body(draft.store(), def.equation);
    let typed = put_types(alloc, draft, body, at.types)?;
    let made = put_arguments(alloc, draft, typed, at.args)?;
    Ok(made)
}

// The same, with its instance.
fn unfolded_at(
    draft: &mut Draft,
    def: Def,
    env: &[TermId],
    e: TermId,
    left: TermId,
    at: UseParts,
    fresh: usize,
) -> Result<UnfoldedAt, AllocError>
    requires defined { IsDefinedIn draft.old def }
    requires place { IsInstanceAt draft.old env.now e left fresh }
    requires used { AreUseParts draft.old.trees def.symbol e at }
    ensures unfolded { IfOk result (λ m. AreUnfolded draft.old draft.new env.now e left fresh
        def.symbol m.image m.right) }
    ensures grows { AddsTrees draft.old draft.new }
{
    let _ = left;
    let _ = fresh;
    let image = unfolded_use(draft, def, at, e)?;
    draft.store().laws();
    let alloc = draft.allocator();
    let right = inst_many(alloc, draft, image, env)?;
    Ok(UnfoldedAt { image, right })
}

// The link of a use.
fn link_use(
    draft: &mut Draft,
    def: Def,
    env: &[TermId],
    e: TermId,
    left: TermId,
    at: UseParts,
    fresh: usize,
) -> Result<Linked, AllocError>
    requires defined { IsDefinedIn draft.old def }
    requires place { IsInstanceAt draft.old env.now e left fresh }
    requires used { AreUseParts draft.old.trees def.symbol e at }
    ensures link { IfOk result (IsLinkOf draft.new env.now left fresh
        (unfolding_rule draft.old.task def.symbol (tree_at draft.old.trees e))) }
    ensures grows { Extends draft.old draft.new }
{
    let made = unfolded_at(draft, def, env, e, left, at, fresh)?;
    let alike = alike_unfolded(draft, def, left, made.right)?;
    Ok(Linked {
        image: made.image,
        right: made.right,
        alike,
    })
}

impl Rewrite for Unfold {
    ghost rule = { λ x t. unfolding_rule t x.def.symbol };

    ghost Ready = { λ x d. IsDefinedIn d x.def };

    ghost stays_ready = { λ x d d1 g r. defined_later d d1 g x.def r };

    ghost others = { λ x t e h. rule_others t x.def.symbol e h };

    fn link(
        &self,
        draft: &mut Draft,
        env: &[TermId],
        e: TermId,
        left: TermId,
        fresh: usize,
    ) -> Result<Linked, AllocError> {
        match find_use(draft, self.def.symbol, e) {
            Some(at) => {
                let made = link_use(draft, self.def, env, e, left, at, fresh)?;
                Ok(made)
            }
            None => Ok(Linked {
                image: e,
                right: left,
                alike: AlikeBy::Same,
            }),
        }
    }
}
