// Closed uses of a defined symbol, unfolded alone, for evidence outside of a walk.
ghost use Rattle.std.specs.Prelude.{◌≡◌, IfOk};
ghost use Rattle.trees.specs.Tree.{Tree};
ghost use Rattle.trees.specs.Node.{tree_at};
ghost use Rattle.evidence.specs.Drafts.{Extends};
ghost use Rattle.congruence.specs.Alike.{IsClosedAt, ArePair, Shows};
ghost use Rattle.tr_inline.specs.Uses.{IsUseOf};
ghost use Rattle.tr_inline.specs.Definitions.{unfolding_rule, IsDefinedIn};

use crate::unfolding::unfolded_use;
use crate::uses::{alike_unfolded, find_use};
use congruence::AlikeBy;
use evidence::Draft;
use std::alloc::AllocError;
use tasks::{Def, Grow, TermId};

/// A closed use of a defined symbol, unfolded, and evidence that the two are alike.
#[derive(Clone, Copy)]
pub struct UnfoldedUse {
    pub whole: TermId,
    pub alike: AlikeBy,
}

/// The body of a definition at a closed use, which it is alike. Only want of memory refuses. With `function f (x: int) : int = x + 1`
/// the use `f 3` is alike `3 + 1`: the definition's equation, of which `x` is put in first, shows each half.
pub fn unfold_closed(draft: &mut Draft, def: Def, left: TermId) -> Result<UnfoldedUse, AllocError>
    requires defined { IsDefinedIn draft.old def }
    requires left { IsClosedAt draft.old left }
    requires used { (zs : Tree) × ((ts : Tree)
        × IsUseOf def.symbol (tree_at draft.old.trees left) zs ts) }
    ensures pair { IfOk result (λ m. ArePair draft.new left m.whole) }
    ensures whole { IfOk result (λ m. tree_at draft.new.trees m.whole
        ≡ unfolding_rule draft.old.task def.symbol (tree_at draft.old.trees left)) }
    ensures shows { IfOk result (λ m. Shows draft.new m.alike (tree_at draft.old.trees left)
        (tree_at draft.new.trees m.whole)) }
    ensures grows { Extends draft.old draft.new }
{
    let Some(at) = find_use(draft, def.symbol, left) else {
        unreachable!();
    };
    let whole = unfolded_use(draft, def, at, left)?;
    draft.store().laws();
    let alike = alike_unfolded(draft, def, left, whole)?;
    Ok(UnfoldedUse { whole, alike })
}
