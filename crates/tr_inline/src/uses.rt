// Closed uses of a defined symbol: each is alike the body there, by the definition's equation.
ghost use Rattle.std.specs.Prelude.{◌≡◌, IfOk};
ghost use Rattle.trees.specs.Tree.{Tree};
ghost use Rattle.trees.specs.Binding.{inst_types};
ghost use Rattle.trees.specs.Node.{tree_at, trees_at, Holds};
ghost use Rattle.tasks.specs.Task.{symbol_or};
ghost use Rattle.tasks.specs.Typing.{members};
ghost use Rattle.evidence.specs.Drafts.{Extends};
ghost use Rattle.trees.specs.binders.Visits.{HoldTypes};
ghost use Rattle.congruence.specs.Alike.{Shows, ArePair};
ghost use Rattle.tr_inline.specs.Uses.{IsUseOf, IsFoundUse, IsClosedUse};
ghost use Rattle.tr_inline.specs.Lemmas.{IsLemma};
ghost use Rattle.tr_inline.specs.Definitions.{unfolding_rule, IsDefinedIn};

use crate::full_bodies::{inst_types, list_members};
use crate::lemmas::{Lemma, lemma_at_terms};
use congruence::{AlikeBy, alike_by_step};
use evidence::{Draft, fact_lemma};
use std::alloc::AllocError;
use tasks::{Def, Fact, Grow, TermId};
use trees::{Node, Sort};

/// The types and the arguments of a use.
#[derive(Clone, Copy)]
pub(crate) struct UseParts {
    pub types: TermId,
    pub args: TermId,
}

/// The use of a symbol that a tree is.
pub(crate) fn find_use(draft: &Draft, symbol: usize, e: TermId) -> Option<UseParts>
    requires { Holds draft.now.trees e }
    ensures { IsFoundUse draft.now.trees symbol e result }
{
    match draft.store().node(e) {
        Node::Fun(f, types, args, _) => {
            if f == symbol {
                return Some(UseParts { types, args });
            }
            None
        }
        Node::Pred(p, types, args) => {
            if p == symbol {
                return Some(UseParts { types, args });
            }
            None
        }
        _ => None,
    }
}

// The equation of a definition at the types of a closed use, by the numbers of these.
fn equation_at(
    draft: &mut Draft,
    def: Def,
    at: UseParts,
    types: &[TermId],
) -> Result<Lemma, AllocError>
    requires defined { IsDefinedIn draft.old def }
    requires closed { IsClosedUse draft.old.task (symbol_or draft.old.task.symbols def.symbol)
        (tree_at draft.old.trees at.types) (tree_at draft.old.trees at.args) }
    requires types_held { HoldTypes draft.old.trees types.now }
    requires types { trees_at draft.old.trees types.now
        ≡ members (tree_at draft.old.trees at.types) }
    ensures lemma { IfOk result (IsLemma draft.new) }
    ensures tree { IfOk result (λ m. tree_at draft.new.trees m.formula ≡ inst_types
        (tree_at draft.old.trees def.equation) (members (tree_at draft.old.trees at.types))) }
    ensures grows { Extends draft.old draft.new }
{
    let _ = at;
    let alloc = draft.allocator();
    let formula = inst_types(alloc, draft, def.equation, types)?;
    let step = fact_lemma(draft, Fact::Equation(def.symbol), types, formula)?;
    Ok(Lemma { formula, step })
}

// The same, by the list.
fn equation_lemma(draft: &mut Draft, def: Def, at: UseParts) -> Result<Lemma, AllocError>
    requires defined { IsDefinedIn draft.old def }
    requires types_held { Holds draft.old.trees at.types }
    requires closed { IsClosedUse draft.old.task (symbol_or draft.old.task.symbols def.symbol)
        (tree_at draft.old.trees at.types) (tree_at draft.old.trees at.args) }
    ensures lemma { IfOk result (IsLemma draft.new) }
    ensures tree { IfOk result (λ m. tree_at draft.new.trees m.formula ≡ inst_types
        (tree_at draft.old.trees def.equation) (members (tree_at draft.old.trees at.types))) }
    ensures grows { Extends draft.old draft.new }
{
    let types = list_members(draft.allocator(), draft.store(), at.types, Sort::Kind)?;
    let made = equation_at(draft, def, at, &types)?;
    Ok(made)
}

/// A closed use and the body there are alike.
pub(crate) fn alike_unfolded(
    draft: &mut Draft,
    def: Def,
    left: TermId,
    right: TermId,
) -> Result<AlikeBy, AllocError>
    requires defined { IsDefinedIn draft.old def }
    requires pair { ArePair draft.old left right }
    requires left_is { (zs : Tree) × ((ts : Tree)
        × IsUseOf def.symbol (tree_at draft.old.trees left) zs ts) }
    requires right_is { tree_at draft.old.trees right
        ≡ unfolding_rule draft.old.task def.symbol (tree_at draft.old.trees left) }
    ensures shows { IfOk result (λ a. Shows draft.new a (tree_at draft.old.trees left)
        (tree_at draft.old.trees right)) }
    ensures grows { Extends draft.old draft.new }
{
    let Some(at) = find_use(draft, def.symbol, left) else {
        unreachable!();
    };
    let equation = equation_lemma(draft, def, at)?;
    let lemma = lemma_at_terms(draft, equation, at.args)?;
    let made = alike_by_step(draft, left, right, lemma.step)?;
    Ok(made)
}
