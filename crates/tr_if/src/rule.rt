// The rule for nodes that brings conditionals out, with its evidence.
ghost use Rattle.tr_if.specs.conditionals.Conditionals.{if_rule};
ghost use Rattle.tr_if.specs.Rule.{if_others};

use crate::linking::{link_atom, link_conditional};
use crate::places::OpenAtom;
use congruence::AlikeBy;
use evidence::Draft;
use std::alloc::AllocError;
use tasks::{Grow, Node, TermId};
use walking::{Linked, Rewrite};

/// What an atom or a conditional formula over formulas without conditionals becomes.
#[derive(Clone, Copy)]
pub(crate) struct IfRule;

impl Rewrite for IfRule {
    ghost rule = { λ _ _. if_rule };

    ghost Ready = { λ _ _. Unit {0} };

    ghost stays_ready = { λ _ d d1 x r. r };

    ghost others = { λ _ _. if_others };

    fn link(
        &self,
        draft: &mut Draft,
        env: &[TermId],
        e: TermId,
        left: TermId,
        fresh: usize,
    ) -> Result<Linked, AllocError> {
        match draft.store().node(e) {
            Node::Pred(_, _, _) => {
                let made = link_atom(draft, env, OpenAtom { formula: e, left }, fresh)?;
                Ok(made)
            }
            Node::Eq(_, _) => {
                let made = link_atom(draft, env, OpenAtom { formula: e, left }, fresh)?;
                Ok(made)
            }
            Node::If(_, _, _) => {
                let made = link_conditional(draft, env, e, left, fresh)?;
                Ok(made)
            }
            _ => Ok(Linked {
                image: e,
                right: left,
                alike: AlikeBy::Same,
            }),
        }
    }
}
