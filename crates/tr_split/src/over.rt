// From the end of a part under something, which is read from its step, the end of the part alone.
ghost use Rattle.std.specs.Prelude.{◌≡◌, ◌++◌, [], ◌∷◌, List, IfOk};
ghost use Rattle.tasks.specs.trees.Tree.{Tree, Two, HForall, HLet};
ghost use Rattle.tasks.specs.trees.Node.{tree_at, Holds};
ghost use Rattle.tasks.specs.trees.Binding.{inst};
ghost use Rattle.tasks.specs.Task.{neg};
ghost use Rattle.tasks.specs.Meaning.{trees_at};
ghost use Rattle.evidence.specs.Drafts.{Extends, AddsTrees, Refutes, IsFormulaAt, AreFormulas};
ghost use Rattle.tr_split.specs.parts.Split.{imp};
ghost use Rattle.tr_split.specs.parts.Glue.{EndsOfParts, IsNegation, IsImplication};
ghost use Rattle.tr_split.specs.Over.{IsEnd, PartOf, IsBinding, IsClosedIn, IsUniversalEnd, IsTypedTermAt};
ghost use Rattle.tr_split.specs.Over.{whole_of, inner_of, extra_of, wholes, inners, OverHeld};

use evidence::proof_scripts::{Line, Word, derive};
use evidence::{Draft, last_formula, negation};
use std::alloc::AllocError;
use tasks::typed_trees::instances::instance;
use tasks::{Grow, Node, Op, TermId};

// A hypothesis; a quantifier's type, and the term at which it is opened; or the value of a `let`, which is opened there.
#[derive(Clone, Copy)]
pub(crate) enum Over {
    Hypothesis(TermId),
    Universal(TermId, TermId),
    Value(TermId),
}

// What a part's end refutes, without the negation.
fn end_formula(draft: &Draft, end: usize) -> TermId
    requires { IsEnd draft.now end }
    ensures formula { IsFormulaAt draft.now result }
    ensures is { (front : List Tree) (whole : Tree) → Refutes draft.now end
        (front ++ neg whole ∷ []) → tree_at draft.now.trees result ≡ whole }
{
    let negated = last_formula(draft, end);
    under_not(draft, negated)
}

// What a negation negates.
fn under_not(draft: &Draft, id: TermId) -> TermId
    requires formula { IsFormulaAt draft.now id }
    requires negation { IsNegation (tree_at draft.now.trees id) }
    ensures formula { IsFormulaAt draft.now result }
    ensures tree { tree_at draft.now.trees id ≡ neg (tree_at draft.now.trees result) }
{
    match draft.store().node(id) {
        Node::Not(a) => a,
        _ => unreachable!(),
    }
}

// The right side of an implication.
fn right_side(draft: &Draft, id: TermId) -> TermId
    requires formula { IsFormulaAt draft.now id }
    requires implication { IsImplication (tree_at draft.now.trees id) }
    ensures formula { IsFormulaAt draft.now result }
    ensures tree { (a b : Tree) → tree_at draft.now.trees id ≡ imp a b
        → tree_at draft.now.trees result ≡ b }
{
    match draft.store().node(id) {
        Node::Join(_, _, b) => b,
        _ => unreachable!(),
    }
}

// What is under a quantifier or a `let`.
fn under_binder(draft: &Draft, id: TermId) -> TermId
    requires formula { IsFormulaAt draft.now id }
    requires binding { IsBinding (tree_at draft.now.trees id) }
    ensures held { Holds draft.now.trees result }
    ensures universal { (a b : Tree) → tree_at draft.now.trees id ≡ Two HForall a b
        → tree_at draft.now.trees result ≡ b }
    ensures valued { (a b : Tree) → tree_at draft.now.trees id ≡ Two HLet a b
        → tree_at draft.now.trees result ≡ b }
{
    match draft.store().node(id) {
        Node::Forall(_, b) | Node::Let(_, b) => b,
        _ => unreachable!(),
    }
}

// A part under a hypothesis.
fn part_under(
    draft: &mut Draft,
    front: &[TermId],
    hypothesis: TermId,
    end: usize,
) -> Result<usize, AllocError>
    requires front { AreFormulas draft.old front.now }
    requires hypothesis { IsFormulaAt draft.old hypothesis }
    requires end { PartOf draft.old end (trees_at draft.old.trees front.now)
        (imp (tree_at draft.old.trees hypothesis)) }
    ensures refutes { IfOk result (λ k. (part : Tree) → Refutes draft.old end
        (trees_at draft.old.trees front.now ++ neg (imp (tree_at draft.old.trees hypothesis) part)
        ∷ []) → Refutes draft.new k (trees_at draft.old.trees front.now
        ++ tree_at draft.old.trees hypothesis ∷ neg part ∷ [])) }
    ensures grows { Extends draft.old draft.new }
{
    let whole = end_formula(draft, end);
    let part = right_side(draft, whole);
    let no_part = negation(draft, part)?;
    let lines = [
        Line::Cut(whole),
        Line::Holding(Op::Imp, 2),
        Line::Rule(Word::Clash(0, 3)),
        Line::Rule(Word::Clash(3, 1)),
        Line::Given(end, 1),
    ];
    derive(draft, front, &[hypothesis, no_part], &lines)
}

// The body of a part that binds at a term, negated.
fn part_at(draft: &mut Draft, whole: TermId, term: TermId) -> Result<TermId, AllocError>
    requires whole { IsFormulaAt draft.old whole }
    requires term { IsClosedIn draft.old (tree_at draft.old.trees whole) term }
    ensures formula { IfOk result (IsFormulaAt draft.new) }
    ensures universal { IfOk result (λ id. (a b : Tree) → tree_at draft.old.trees whole
        ≡ Two HForall a b → tree_at draft.new.trees id
        ≡ neg (inst b (tree_at draft.old.trees term))) }
    ensures valued { IfOk result (λ id. (a b : Tree) → tree_at draft.old.trees whole
        ≡ Two HLet a b → tree_at draft.new.trees id
        ≡ neg (inst b (tree_at draft.old.trees term))) }
    ensures grows { AddsTrees draft.old draft.new }
{
    let part = under_binder(draft, whole);
    let alloc = draft.allocator();
    let inner = instance(alloc, draft, part, term)?;
    negation(draft, inner)
}

// A part under a quantifier, at a term of its type.
fn part_opened(
    draft: &mut Draft,
    front: &[TermId],
    term: TermId,
    end: usize,
) -> Result<usize, AllocError>
    requires front { AreFormulas draft.old front.now }
    requires end { IsUniversalEnd draft.old end (trees_at draft.old.trees front.now) term }
    ensures refutes { IfOk result (λ k. (ty part : Tree) → Refutes draft.old end
        (trees_at draft.old.trees front.now ++ neg (Two HForall ty part) ∷ [])
        → Refutes draft.new k (trees_at draft.old.trees front.now
        ++ neg (inst part (tree_at draft.old.trees term)) ∷ [])) }
    ensures grows { Extends draft.old draft.new }
{
    let whole = end_formula(draft, end);
    let no_inner = part_at(draft, whole, term)?;
    let lines = [
        Line::Cut(whole),
        Line::Rule(Word::Forall(1, term)),
        Line::Rule(Word::Clash(2, 0)),
        Line::Given(end, 1),
    ];
    derive(draft, front, &[no_inner], &lines)
}

// A part under a `let`, at the value.
fn part_valued(
    draft: &mut Draft,
    front: &[TermId],
    value: TermId,
    end: usize,
) -> Result<usize, AllocError>
    requires front { AreFormulas draft.old front.now }
    requires value { IsTypedTermAt draft.old value }
    requires end { PartOf draft.old end (trees_at draft.old.trees front.now)
        (Two HLet (tree_at draft.old.trees value)) }
    ensures refutes { IfOk result (λ k. (part : Tree) → Refutes draft.old end
        (trees_at draft.old.trees front.now ++ neg (Two HLet (tree_at draft.old.trees value) part)
        ∷ []) → Refutes draft.new k (trees_at draft.old.trees front.now
        ++ neg (inst part (tree_at draft.old.trees value)) ∷ [])) }
    ensures grows { Extends draft.old draft.new }
{
    let whole = end_formula(draft, end);
    let no_inner = part_at(draft, whole, value)?;
    let lines = [
        Line::Cut(whole),
        Line::Rule(Word::LetDef(whole)),
        Line::Holding(Op::Iff, 2),
        Line::Rule(Word::Clash(4, 0)),
        Line::Rule(Word::Clash(1, 3)),
        Line::Given(end, 1),
    ];
    derive(draft, front, &[no_inner], &lines)
}

// A part under any of these.
fn part_end(
    draft: &mut Draft,
    front: &[TermId],
    over: Over,
    end: usize,
) -> Result<usize, AllocError>
    requires front { AreFormulas draft.old front.now }
    requires over { OverHeld draft.old over }
    requires end { PartOf draft.old end (trees_at draft.old.trees front.now)
        (whole_of draft.old.trees over) }
    ensures refutes { IfOk result (λ k. (part : Tree) → Refutes draft.old end
        (trees_at draft.old.trees front.now ++ neg (whole_of draft.old.trees over part) ∷ [])
        → Refutes draft.new k ((trees_at draft.old.trees front.now
        ++ extra_of draft.old.trees over) ++ neg (inner_of draft.old.trees over part) ∷ [])) }
    ensures grows { Extends draft.old draft.new }
{
    match over {
        Over::Hypothesis(hypothesis) => part_under(draft, front, hypothesis, end),
        Over::Universal(_, term) => part_opened(draft, front, term, end),
        Over::Value(value) => part_valued(draft, front, value, end),
    }
}

// From steps that refute the parts of a formula under any of these, steps that refute the parts alone.
pub(crate) fn ends_over(
    draft: &mut Draft,
    front: &[TermId],
    over: Over,
    formula: TermId,
    ends: &[usize],
) -> Result<Vec<usize>, AllocError>
    requires front { AreFormulas draft.old front.now }
    requires over { OverHeld draft.old over }
    requires ends { EndsOfParts draft.old ends.now (trees_at draft.old.trees front.now)
        (wholes draft.old.trees over (tree_at draft.old.trees formula)) }
    ensures ends { IfOk result (λ v. EndsOfParts draft.new v.items
        (trees_at draft.old.trees front.now ++ extra_of draft.old.trees over)
        (inners draft.old.trees over (tree_at draft.old.trees formula))) }
    ensures grows { Extends draft.old draft.new }
{
    let _ = formula;
    let mut made: Vec<usize> = Vec::new(draft.allocator());
    for end in ends {
        let step = part_end(draft, front, over, *end)?;
        made.push(step)?;
    }
    Ok(made)
}
