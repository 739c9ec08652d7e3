// Closed terms put into a tree, replaced by alike ones, one after another.
ghost use Rattle.std.specs.Prelude.{◌≡◌, ◌≢◌, [], ◌∷◌, ◌++◌, IfOk};
ghost use Rattle.trees.specs.Tree.{Tree, loose, pat_vars};
ghost use Rattle.trees.specs.Binding.{inst, inst_many};
ghost use Rattle.trees.specs.Node.{tree_at, trees_at, Holds};
ghost use Rattle.trees.specs.Sorts.{sort_of};
ghost use Rattle.evidence.specs.Drafts.{Extends, AddsTrees};
ghost use Rattle.congruence.specs.Alike.{IsClosedAt, ArePair, Shows, HoleAt};
ghost use Rattle.congruence.specs.Applications.{IsSymbolHeld};
ghost use Rattle.congruence.specs.declared.applications.SymbolAt.TheVariants as symbol;
ghost use Rattle.tr_recursion.specs.constructor_matches.Places.{applied_to, with_terms, AreClosedTerms, IsOpenTree, CanReplaceProjections, CanReplaceOne};
ghost use Rattle.tr_recursion.specs.constructor_matches.Fields.{IsFieldOf};

use congruence::{
    AlikeBy, Replaced, SymbolAt, alike_replaced, chain, instance, list_after, open_hole,
    replace_argument,
};
use evidence::Draft;
use evidence::proof_scripts::{Line, Word, derive};
use std::alloc::AllocError;
use tasks::Grow;
use trees::binders::index_bounds::put_terms;
use trees::{Node, Sort, TermId};

/// What closed terms are put into: a function at types, of a type, which has them as arguments; or an open tree, whose variables they
/// stand for.
#[derive(Clone, Copy)]
pub(crate) enum Around {
    Application(usize, TermId, TermId),
    Open(TermId),
}

// A projection of a constructor's application is alike the field.
fn alike_field(draft: &mut Draft, projected: TermId, field: TermId) -> Result<AlikeBy, AllocError>
    requires pair { ArePair draft.old projected field }
    requires term { sort_of (tree_at draft.old.trees projected) ≡ Sort.Term }
    requires is { IsFieldOf draft.old.task (tree_at draft.old.trees projected)
        (tree_at draft.old.trees field) }
    ensures shows { IfOk result (λ a. Shows draft.new a (tree_at draft.old.trees projected)
        (tree_at draft.old.trees field)) }
    ensures grows { Extends draft.old draft.new }
{
    let claim = draft.add(Node::Eq(projected, field))?;
    let goal = draft.add(Node::Not(claim))?;
    let step = derive(
        draft,
        &[],
        &[goal],
        &[Line::Field(projected, field), Line::Rule(Word::Clash(1, 0))],
    )?;
    Ok(AlikeBy::Terms(step))
}

// An open tree at closed terms, with the variable 0 in the place of one of them.
fn hole_in(
    draft: &mut Draft,
    e: TermId,
    before: &[TermId],
    left: TermId,
    a: TermId,
    following: &[TermId],
) -> Result<TermId, AllocError>
    requires open { IsOpenTree draft.old e (trees_at draft.old.trees before.now
        ++ tree_at draft.old.trees a ∷ trees_at draft.old.trees following.now) }
    requires before { AreClosedTerms draft.old before.now }
    requires following { AreClosedTerms draft.old following.now }
    requires left { IsClosedAt draft.old left }
    requires a { IsClosedAt draft.old a }
    requires term { sort_of (tree_at draft.old.trees a) ≡ Sort.Term }
    requires left_is { tree_at draft.old.trees left ≡ inst_many (tree_at draft.old.trees e)
        (trees_at draft.old.trees before.now
        ++ tree_at draft.old.trees a ∷ trees_at draft.old.trees following.now) }
    ensures hole { IfOk result (λ id. HoleAt draft.new id left left a a) }
    ensures fills { IfOk result (λ id. (x : Tree) → loose x ≡ 0 → pat_vars x ≡ 0
        → inst (tree_at draft.new.trees id) x ≡ inst_many (tree_at draft.old.trees e)
        (trees_at draft.old.trees before.now ++ x ∷ trees_at draft.old.trees following.now)) }
    ensures grows { AddsTrees draft.old draft.new }
{
    let _ = left;
    let _task = draft.task();
    let alloc = draft.allocator();
    let variable = open_hole(draft, a, a)?;
    let mut terms = Vec::from_slice(alloc, before)?;
    terms.push(variable)?;
    terms.extend_from_slice(following)?;
    let made = put_terms(alloc, draft, e, &terms)?;
    Ok(made)
}

// An open tree at closed terms, with one of these replaced by an alike term.
fn replace_variable(
    draft: &mut Draft,
    e: TermId,
    before: &[TermId],
    left: TermId,
    a: TermId,
    b: TermId,
    following: &[TermId],
    alike: AlikeBy,
) -> Result<Replaced, AllocError>
    requires open { IsOpenTree draft.old e (trees_at draft.old.trees before.now
        ++ tree_at draft.old.trees a ∷ trees_at draft.old.trees following.now) }
    requires before { AreClosedTerms draft.old before.now }
    requires following { AreClosedTerms draft.old following.now }
    requires left { IsClosedAt draft.old left }
    requires pair { ArePair draft.old a b }
    requires term { sort_of (tree_at draft.old.trees a) ≡ Sort.Term }
    requires left_is { tree_at draft.old.trees left ≡ inst_many (tree_at draft.old.trees e)
        (trees_at draft.old.trees before.now
        ++ tree_at draft.old.trees a ∷ trees_at draft.old.trees following.now) }
    requires shows { Shows draft.old alike (tree_at draft.old.trees a) (tree_at draft.old.trees b) }
    ensures pair { IfOk result (λ m. ArePair draft.new left m.right) }
    ensures right_is { IfOk result (λ m. tree_at draft.new.trees m.right
        ≡ inst_many (tree_at draft.old.trees e) (trees_at draft.old.trees before.now
        ++ tree_at draft.old.trees b ∷ trees_at draft.old.trees following.now)) }
    ensures shows { IfOk result (λ m. Shows draft.new m.alike (tree_at draft.old.trees left)
        (tree_at draft.new.trees m.right)) }
    ensures grows { Extends draft.old draft.new }
{
    let alloc = draft.allocator();
    let hole = hole_in(draft, e, before, left, a, following)?;
    let right = instance(alloc, draft, hole, b)?;
    let alike = alike_replaced(draft, hole, left, right, a, b, alike)?;
    Ok(Replaced { right, alike })
}

// An application with one of its arguments replaced by an alike term.
fn replace_in_application(
    draft: &mut Draft,
    function: usize,
    types: TermId,
    ty: TermId,
    before: &[TermId],
    left: TermId,
    a: TermId,
    b: TermId,
    following: &[TermId],
    alike: AlikeBy,
) -> Result<Replaced, AllocError>
    requires function { IsSymbolHeld draft.old.trees (symbol.Function function types ty) }
    requires before { AreClosedTerms draft.old before.now }
    requires following { AreClosedTerms draft.old following.now }
    requires left { IsClosedAt draft.old left }
    requires pair { ArePair draft.old a b }
    requires term { sort_of (tree_at draft.old.trees a) ≡ Sort.Term }
    requires left_is { tree_at draft.old.trees left ≡ applied_to draft.old.trees function types ty
        (trees_at draft.old.trees before.now
        ++ tree_at draft.old.trees a ∷ trees_at draft.old.trees following.now) }
    requires shows { Shows draft.old alike (tree_at draft.old.trees a) (tree_at draft.old.trees b) }
    ensures pair { IfOk result (λ m. ArePair draft.new left m.right) }
    ensures right_is { IfOk result (λ m. tree_at draft.new.trees m.right
        ≡ applied_to draft.old.trees function types ty (trees_at draft.old.trees before.now
        ++ tree_at draft.old.trees b ∷ trees_at draft.old.trees following.now)) }
    ensures shows { IfOk result (λ m. Shows draft.new m.alike (tree_at draft.old.trees left)
        (tree_at draft.new.trees m.right)) }
    ensures grows { Extends draft.old draft.new }
{
    let end = draft.add(Node::End)?;
    let rest = list_after(draft, following, end)?;
    let symbol = SymbolAt::Function(function, types, ty);
    let made = replace_argument(draft, symbol, before, left, a, b, rest, alike)?;
    Ok(made)
}

// One of the terms replaced by an alike one.
fn replace_one(
    draft: &mut Draft,
    around: Around,
    before: &[TermId],
    left: TermId,
    a: TermId,
    b: TermId,
    following: &[TermId],
    alike: AlikeBy,
) -> Result<Replaced, AllocError>
    requires can { CanReplaceOne draft.old around before.now left a b following.now }
    requires shows { Shows draft.old alike (tree_at draft.old.trees a) (tree_at draft.old.trees b) }
    ensures pair { IfOk result (λ m. ArePair draft.new left m.right) }
    ensures right_is { IfOk result (λ m. tree_at draft.new.trees m.right
        ≡ with_terms draft.old.trees around (trees_at draft.old.trees before.now
        ++ tree_at draft.old.trees b ∷ trees_at draft.old.trees following.now)) }
    ensures shows { IfOk result (λ m. Shows draft.new m.alike (tree_at draft.old.trees left)
        (tree_at draft.new.trees m.right)) }
    ensures grows { Extends draft.old draft.new }
{
    match around {
        Around::Application(function, types, ty) => {
            let made = replace_in_application(
                draft, function, types, ty, before, left, a, b, following, alike,
            )?;
            Ok(made)
        }
        Around::Open(e) => {
            let made = replace_variable(draft, e, before, left, a, b, following, alike)?;
            Ok(made)
        }
    }
}

// The first of some fields and the others.
fn split_fields(fields: &[TermId]) -> (TermId, &[TermId])
    requires { fields.now ≢ [] }
    ensures { fields.now ≡ result.0 ∷ result.1.now }
{
    match fields.split_first() {
        Some((first, others)) => (*first, others),
        None => unreachable!(),
    }
}

/// Projections of a constructor's application replaced by the fields, one after another, after the terms `before`.
pub(crate) fn replace_fields(
    draft: &mut Draft,
    around: Around,
    before: &mut Vec<TermId>,
    left: TermId,
    terms: &[TermId],
    fields: &[TermId],
) -> Result<Replaced, AllocError>
    requires can { CanReplaceProjections draft.old around before.old.items left terms.now
        fields.now }
    ensures pair { IfOk result (λ m. ArePair draft.new left m.right) }
    ensures right_is { IfOk result (λ m. tree_at draft.new.trees m.right
        ≡ with_terms draft.old.trees around (trees_at draft.old.trees before.old.items
        ++ trees_at draft.old.trees fields.now)) }
    ensures shows { IfOk result (λ m. Shows draft.new m.alike (tree_at draft.old.trees left)
        (tree_at draft.new.trees m.right)) }
    ensures grows { Extends draft.old draft.new }
{
    match terms.split_first() {
        Some((term, others)) => {
            let (field, rest) = split_fields(fields);
            let link = alike_field(draft, *term, field)?;
            let made = replace_one(draft, around, before, left, *term, field, others, link)?;
            before.push(field)?;
            let more = replace_fields(draft, around, before, made.right, others, rest)?;
            let alike = chain(draft, left, made.right, more.right, made.alike, more.alike)?;
            Ok(Replaced {
                right: more.right,
                alike,
            })
        }
        None => Ok(Replaced {
            right: left,
            alike: AlikeBy::Same,
        }),
    }
}
