// Links of conditional formulas and of atoms: what they become, and evidence that their instances are alike.
ghost use Rattle.std.specs.Prelude.{◌≡◌, IfOk};
ghost use Rattle.tasks.specs.trees.Tree.{Tree, Three, HIf};
ghost use Rattle.tasks.specs.trees.Node.{tree_at, Holds};
ghost use Rattle.tasks.specs.trees.Sorts.{sort_of};
ghost use Rattle.evidence.specs.Drafts.{AddsTrees, Extends};
ghost use Rattle.congruence.specs.Conditionals.{IsConditional, HasValues};
ghost use Rattle.tr_if.specs.conditionals.Conditionals.{implications, cases_over, if_rule};
ghost use Rattle.walking.specs.Places.{IsInstanceAt, IsLinkOf};
ghost use Rattle.tr_if.specs.Atoms.{atom_cases};
ghost use Rattle.tr_if.specs.Firsts.{IsAtomAt, IsFirstCase};
ghost use Rattle.tr_if.specs.Linking.{AreLinkedParts};

use crate::conditionals::{first_if, if_parts, implications};
use crate::firsts::{FirstCase, first_case, first_values};
use crate::implying::implied_values;
use crate::places::{OpenAtom, parts_at};
use congruence::{AlikeBy, CaseLinks, CaseValues, Conditional, alike_cases, if_values};
use evidence::Draft;
use std::alloc::AllocError;
use tasks::{Grow, Sort, TermId};
use walking::Linked;

/// An open condition, and links of what a conditional is alike under it and under its negation.
#[derive(Clone, Copy)]
pub(crate) struct LinkedParts {
    pub condition: TermId,
    pub one: Linked,
    pub two: Linked,
}

// The implications over links, and their instance.
#[derive(Clone, Copy)]
struct Implied {
    image: TermId,
    right: TermId,
}

// The implications over links.
fn make_implications(
    draft: &mut Draft,
    env: &[TermId],
    left: Conditional,
    parts: LinkedParts,
    fresh: usize,
) -> Result<Implied, AllocError>
    requires left { IsConditional draft.old left }
    requires formula { sort_of (tree_at draft.old.trees left.whole) ≡ Sort.Formula }
    requires parts { AreLinkedParts draft.old env.now left parts fresh }
    ensures place { IfOk result (λ m. IsInstanceAt draft.new env.now m.image m.right fresh) }
    ensures image { IfOk result (λ m. tree_at draft.new.trees m.image ≡ implications
        (tree_at draft.old.trees parts.condition) (tree_at draft.old.trees parts.one.image)
        (tree_at draft.old.trees parts.two.image)) }
    ensures right { IfOk result (λ m. tree_at draft.new.trees m.right ≡ implications
        (tree_at draft.old.trees left.condition) (tree_at draft.old.trees parts.one.right)
        (tree_at draft.old.trees parts.two.right)) }
    ensures grows { AddsTrees draft.old draft.new }
{
    let _ = env;
    let _ = fresh;
    let image = implications(draft, parts.condition, parts.one.image, parts.two.image)?;
    let right = implications(draft, left.condition, parts.one.right, parts.two.right)?;
    Ok(Implied { image, right })
}

/// A formula by cases on a condition, over links of what it is alike under it and under its negation.
pub(crate) fn link_cases(
    draft: &mut Draft,
    env: &[TermId],
    left: Conditional,
    values: CaseValues,
    parts: LinkedParts,
    fresh: usize,
) -> Result<Linked, AllocError>
    requires left { IsConditional draft.old left }
    requires formula { sort_of (tree_at draft.old.trees left.whole) ≡ Sort.Formula }
    requires values { HasValues draft.old left values }
    requires parts { AreLinkedParts draft.old env.now left parts fresh }
    ensures link { IfOk result (IsLinkOf draft.new env.now left.whole fresh (implications
        (tree_at draft.old.trees parts.condition) (tree_at draft.old.trees parts.one.image)
        (tree_at draft.old.trees parts.two.image))) }
    ensures grows { Extends draft.old draft.new }
{
    let m = make_implications(draft, env, left, parts, fresh)?;
    let right = Conditional {
        whole: m.right,
        condition: left.condition,
        then_part: parts.one.right,
        else_part: parts.two.right,
    };
    let right_values = implied_values(draft, right)?;
    let links = CaseLinks {
        condition: AlikeBy::Same,
        then_part: parts.one.alike,
        else_part: parts.two.alike,
    };
    let alike = alike_cases(draft, left, values, right, right_values, links)?;
    Ok(Linked {
        image: m.image,
        right: m.right,
        alike,
    })
}

// A conditional formula.
fn link_if(
    draft: &mut Draft,
    env: &[TermId],
    e: TermId,
    left: TermId,
    fresh: usize,
) -> Result<Linked, AllocError>
    requires place { IsInstanceAt draft.old env.now e left fresh }
    requires formula { sort_of (tree_at draft.old.trees e) ≡ Sort.Formula }
    requires node { (c : Tree) × ((a : Tree) × ((b : Tree)
        × (tree_at draft.old.trees e ≡ Three HIf c a b))) }
    ensures link { IfOk result (IsLinkOf draft.new env.now left fresh
        (if_rule (tree_at draft.old.trees e))) }
    ensures grows { Extends draft.old draft.new }
{
    let inner = if_parts(draft.store(), e);
    let at = parts_at(draft, env, e, left, fresh);
    let values = if_values(draft, at)?;
    let parts = LinkedParts {
        condition: inner.condition,
        one: Linked {
            image: inner.then_part,
            right: at.then_part,
            alike: AlikeBy::Same,
        },
        two: Linked {
            image: inner.else_part,
            right: at.else_part,
            alike: AlikeBy::Same,
        },
    };
    let made = link_cases(draft, env, at, values, parts, fresh)?;
    Ok(made)
}

/// A conditional: a term stays.
pub(crate) fn link_conditional(
    draft: &mut Draft,
    env: &[TermId],
    e: TermId,
    left: TermId,
    fresh: usize,
) -> Result<Linked, AllocError>
    requires place { IsInstanceAt draft.old env.now e left fresh }
    requires node { (c : Tree) × ((a : Tree) × ((b : Tree)
        × (tree_at draft.old.trees e ≡ Three HIf c a b))) }
    ensures link { IfOk result (IsLinkOf draft.new env.now left fresh
        (if_rule (tree_at draft.old.trees e))) }
    ensures grows { Extends draft.old draft.new }
{
    match draft.store().sort(e) {
        Sort::Formula => {
            let made = link_if(draft, env, e, left, fresh)?;
            Ok(made)
        }
        _ => Ok(Linked {
            image: e,
            right: left,
            alike: AlikeBy::Same,
        }),
    }
}

// An atom over links of the atoms with either part in the place of its first conditional.
fn link_first(
    draft: &mut Draft,
    env: &[TermId],
    atom: OpenAtom,
    case: FirstCase,
    parts: LinkedParts,
    fresh: usize,
) -> Result<Linked, AllocError>
    requires held { Holds draft.old.trees atom.formula }
    requires case { IsFirstCase draft.old env.now atom fresh case }
    requires parts { AreLinkedParts draft.old env.now (atom_cases atom case) parts fresh }
    ensures link { IfOk result (IsLinkOf draft.new env.now atom.left fresh (implications
        (tree_at draft.old.trees parts.condition) (tree_at draft.old.trees parts.one.image)
        (tree_at draft.old.trees parts.two.image))) }
    ensures grows { Extends draft.old draft.new }
{
    let values = first_values(draft, env, atom, case, fresh)?;
    let left = Conditional {
        whole: atom.left,
        condition: case.at.condition,
        then_part: case.first.left,
        else_part: case.second.left,
    };
    let made = link_cases(draft, env, left, values, parts, fresh)?;
    Ok(made)
}

/// An atom by cases on its conditional terms, one at a time, the first one first.
pub(crate) fn link_atom(
    draft: &mut Draft,
    env: &[TermId],
    atom: OpenAtom,
    fresh: usize,
) -> Result<Linked, AllocError>
    requires { IsAtomAt draft.old env.now atom fresh }
    ensures link { IfOk result (IsLinkOf draft.new env.now atom.left fresh
        (cases_over (tree_at draft.old.trees atom.formula) (λ u. u))) }
    ensures grows { Extends draft.old draft.new }
{
    match first_if(draft.store(), atom.formula) {
        None => Ok(Linked {
            image: atom.formula,
            right: atom.left,
            alike: AlikeBy::Same,
        }),
        Some(whole) => {
            let case = first_case(draft, env, atom, whole, fresh)?;
            let one = link_atom(draft, env, case.first, fresh)?;
            let two = link_atom(draft, env, case.second, fresh)?;
            let parts = LinkedParts {
                condition: case.condition,
                one,
                two,
            };
            let made = link_first(draft, env, atom, case, parts, fresh)?;
            Ok(made)
        }
    }
}
