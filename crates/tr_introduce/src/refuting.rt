// From a step that refutes what the negation of a goal gives by a rule, one that refutes the negation.
ghost use Rattle.std.specs.Prelude.{◌≡◌, ◌++◌, List, [], ◌∷◌, length, IfOk};
ghost use Rattle.trees.specs.Tree.{Tree};
ghost use Rattle.trees.specs.Node.{tree_at};
ghost use Rattle.tasks.specs.Task.{neg};
ghost use Rattle.tasks.specs.Meaning.{trees_at};
ghost use Rattle.rules.specs.Meaning.{rule_at, RuleHeld};
ghost use Rattle.evidence.specs.Drafts.{Extends, Refutes, IsFormulaAt, AreFormulas};
ghost use Rattle.tr_introduce.specs.Steps.{negation_rule, Opens};

use evidence::{Draft, by_rule, keep_but, negation};
use rules::Rule;
use std::alloc::AllocError;
use trees::TermId;

// How the negation of a goal is taken apart: that of a quantifier at the parameter of this number, or that of an implication.
#[derive(Clone, Copy)]
pub(crate) enum Opening {
    Universal(usize),
    Implication,
}

// The rule at a place.
fn negation_rule(opening: Opening, place: usize) -> Rule
    ensures tree { (s : List Tree) → rule_at s result ≡ negation_rule opening place }
    ensures held { (s : List Tree) → RuleHeld s result }
{
    match opening {
        Opening::Universal(number) => Rule::NotForall(place, number),
        Opening::Implication => Rule::NotImp(place),
    }
}

// From a step that refutes the formulas with what the negated goal gives, one that refutes them with the negated goal.
pub(crate) fn refute_negated(
    draft: &mut Draft,
    front: &[TermId],
    goal: TermId,
    opening: Opening,
    added: &[TermId],
    step: usize,
) -> Result<usize, AllocError>
    requires front { AreFormulas draft.old front.now }
    requires goal { IsFormulaAt draft.old goal }
    requires added { AreFormulas draft.old added.now }
    requires step { Refutes draft.old step
        (trees_at draft.old.trees front.now ++ trees_at draft.old.trees added.now) }
    requires opens { Opens draft.old.task (trees_at draft.old.trees front.now)
        (tree_at draft.old.trees goal) (negation_rule opening (length front.now))
        (trees_at draft.old.trees added.now) }
    ensures refutes { IfOk result (λ k. Refutes draft.new k
        (trees_at draft.old.trees front.now ++ neg (tree_at draft.old.trees goal) ∷ [])) }
    ensures grows { Extends draft.old draft.new }
{
    let no_goal = negation(draft, goal)?;
    let kept = keep_but(draft, front, &[no_goal], added, step)?;
    let rule = negation_rule(opening, front.len());
    by_rule(draft, front, &[no_goal], rule, &[kept])
}
