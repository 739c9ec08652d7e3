// Open expressions at environments, and atoms with another term in the place of their first conditional.
ghost use Rattle.std.specs.Prelude.{◌≡◌, ◌<◌, length, Some, IfOk};
ghost use Rattle.tasks.specs.trees.Tree.{Tree, Three, HIf};
ghost use Rattle.tasks.specs.trees.Sorts.{type_of};
ghost use Rattle.tasks.specs.trees.Node.{tree_at, Holds};
ghost use Rattle.evidence.specs.Drafts.{AddsTrees};
ghost use Rattle.congruence.specs.Conditionals.{IsConditional, IsIfAt};
ghost use Rattle.tr_if.specs.conditionals.Conditionals.{replace_first};
ghost use Rattle.walking.specs.Places.{IsInstanceAt};
ghost use Rattle.tr_if.specs.Firsts.{IsAtomAt, IsFirstOf, IsOpenAt, IsPartFor, IsHoleOf};

use crate::conditionals::{if_parts, replace_first};
use congruence::Conditional;
use evidence::Draft;
use std::alloc::AllocError;
use tasks::{Grow, Node, TermId};
use trees::binders::inst_many;

/// An open atom, and its instance at an environment.
#[derive(Clone, Copy)]
pub(crate) struct OpenAtom {
    pub formula: TermId,
    pub left: TermId,
}

/// The instance of an open expression.
pub(crate) fn place_at(
    draft: &mut Draft,
    env: &[TermId],
    e: TermId,
    fresh: usize,
) -> Result<TermId, AllocError>
    requires { IsOpenAt draft.old env.now e fresh }
    ensures place { IfOk result (λ l. IsInstanceAt draft.new env.now e l fresh) }
    ensures grows { AddsTrees draft.old draft.new }
{
    let _ = fresh;
    let alloc = draft.allocator();
    let made = inst_many(alloc, draft, e, env)?;
    Ok(made)
}

/// The condition and the parts of an instance of a conditional.
pub(crate) fn parts_at(
    draft: &Draft,
    env: &[TermId],
    e: TermId,
    left: TermId,
    fresh: usize,
) -> Conditional
    requires place { IsInstanceAt draft.now env.now e left fresh }
    requires node { (c : Tree) × ((a : Tree) × ((b : Tree)
        × (tree_at draft.now.trees e ≡ Three HIf c a b))) }
    ensures whole { result.whole ≡ left }
    ensures parts { IsConditional draft.now result }
    ensures is { IsIfAt draft.now result }
{
    let _ = env;
    let _ = e;
    let _ = fresh;
    let parts = if_parts(draft.store(), left);
    Conditional {
        whole: left,
        condition: parts.condition,
        then_part: parts.then_part,
        else_part: parts.else_part,
    }
}

/// The atom with another term in the place of its first conditional, and the instance of that.
pub(crate) fn put_part(
    draft: &mut Draft,
    env: &[TermId],
    atom: OpenAtom,
    whole: TermId,
    part: TermId,
    fresh: usize,
) -> Result<OpenAtom, AllocError>
    requires atom { IsAtomAt draft.old env.now atom fresh }
    requires first { IsFirstOf draft.old (tree_at draft.old.trees atom.formula) whole }
    requires part { IsPartFor draft.old env.now whole part fresh }
    ensures atom { IfOk result (λ a. IsAtomAt draft.new env.now a fresh) }
    ensures formula { IfOk result (λ a. tree_at draft.new.trees a.formula
        ≡ replace_first (tree_at draft.old.trees atom.formula) (tree_at draft.old.trees part)) }
    ensures grows { AddsTrees draft.old draft.new }
{
    let _ = whole;
    let formula = replace_first(draft, atom.formula, part)?;
    let left = place_at(draft, env, formula, fresh)?;
    Ok(OpenAtom { formula, left })
}

// How many terms an environment has: a number of a variable, as no memory has more.
fn count_of(env: &[TermId]) -> Result<usize, AllocError>
    ensures count { IfOk result (λ n. n ≡ length env.now) }
    ensures within { IfOk result (λ n. n < usize.MAX) }
{
    if env.len() < usize::MAX {
        Ok(env.len())
    } else {
        Err(AllocError)
    }
}

// The type of a term.
fn type_of_first(draft: &Draft, whole: TermId) -> TermId
    requires typed { (ty : Tree) × (type_of (tree_at draft.now.trees whole) ≡ Some ty) }
    requires held { Holds draft.now.trees whole }
    ensures held { Holds draft.now.trees result }
    ensures is { type_of (tree_at draft.now.trees whole) ≡ Some (tree_at draft.now.trees result) }
{
    match draft.store().ty(whole) {
        Some(ty) => ty,
        None => unreachable!(),
    }
}

/// The instance of the atom with a hole, the variable 0, in the place of its first conditional.
pub(crate) fn open_place(
    draft: &mut Draft,
    env: &[TermId],
    atom: OpenAtom,
    whole: TermId,
    fresh: usize,
) -> Result<TermId, AllocError>
    requires atom { IsAtomAt draft.old env.now atom fresh }
    requires first { IsFirstOf draft.old (tree_at draft.old.trees atom.formula) whole }
    ensures place { IfOk result (IsHoleOf draft.new env.now
        (tree_at draft.old.trees atom.formula) (tree_at draft.old.trees whole)) }
    ensures grows { AddsTrees draft.old draft.new }
{
    let _ = fresh;
    let _task = draft.task();
    let count = count_of(env)?;
    let ty = type_of_first(draft, whole);
    let beyond = draft.add(Node::Bound(count, ty))?;
    let formula = replace_first(draft, atom.formula, beyond)?;
    let alloc = draft.allocator();
    let made = inst_many(alloc, draft, formula, env)?;
    Ok(made)
}
