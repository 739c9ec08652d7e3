// What a rule adds to a sequent, made by the rule's places and trees.
ghost use Rattle.std.specs.Prelude.{◌≡◌, ◌<◌, List, length, slice_get, Some, IfOk};
ghost use Rattle.trees.specs.Tree.{Tree};
ghost use Rattle.trees.specs.Node.{tree_at, Holds};
ghost use Rattle.trees.specs.Sorts.{sort_of};
ghost use Rattle.tasks.specs.Task.{neg};
ghost use Rattle.tasks.specs.Meaning.{trees_at};
ghost use Rattle.rules.specs.Forms.{alike, by_cases, join, equal};
ghost use Rattle.evidence.specs.Drafts.{DraftTree, AddsTrees, AreFormulas, IsFormulaAt};
ghost use Rattle.evidence.specs.proof_scripts.Scripts.{word_rule, WordHeld, IsMaker, HasOnePremise, adds, IsOfTail};
ghost use Rattle.evidence.specs.proof_scripts.Sided.{AreSides};
ghost use Rattle.evidence.specs.proof_scripts.Added.{IsAdded, IsTermFor, IsParameterFor, IsBodyAt, IsNegatedBodyAt, IsBodyAtNew, IsNegatedBodyAtNew};
ghost use Rattle.evidence.specs.proof_scripts.Added.{IsNegated, IsQuantified, IsExpressionAt, AreComparable, IsLet, IsLetEquation, IsIf, IsIfEquation, IsTemplateFor, IsReplaced};

use crate::proof_scripts::line::{Formulas, Sides, Word};
use crate::{Draft, negation};
use std::alloc::AllocError;
use tasks::typed_trees::instances::{instance, parameter};
use trees::store::Grow;
use trees::{Node, Op, Sort, TermId};

// The formula of the tail at a place.
fn at_place(tail: &[TermId], place: usize) -> TermId
    requires { place < length tail.now }
    ensures is { (s : List Tree) → slice_get (trees_at s tail.now) place
        ≡ Some (tree_at s result) }
    ensures formula { (d : DraftTree) → AreFormulas d tail.now → IsFormulaAt d result }
{
    tail[place]
}

// What a negation negates.
fn under_not(draft: &Draft, id: TermId) -> TermId
    requires formula { IsFormulaAt draft.now id }
    requires negation { IsNegated (tree_at draft.now.trees id) }
    ensures formula { IsFormulaAt draft.now result }
    ensures tree { tree_at draft.now.trees id ≡ neg (tree_at draft.now.trees result) }
{
    match draft.store().node(id) {
        Node::Not(a) => a,
        _ => unreachable!(),
    }
}

// The body of a quantifier at a term of its type.
fn make_body(draft: &mut Draft, quantifier: TermId, term: TermId) -> Result<TermId, AllocError>
    requires formula { IsFormulaAt draft.old quantifier }
    requires term { IsTermFor draft.old (tree_at draft.old.trees quantifier) term }
    ensures formula { IfOk result (IsFormulaAt draft.new) }
    ensures tree { IfOk result (λ id. IsBodyAt (tree_at draft.old.trees quantifier)
        (tree_at draft.old.trees term) (tree_at draft.new.trees id)) }
    ensures grows { AddsTrees draft.old draft.new }
{
    let alloc = draft.allocator();
    match draft.store().node(quantifier) {
        Node::Forall(_, body) => instance(alloc, draft, body, term),
        Node::Exists(_, body) => instance(alloc, draft, body, term),
        _ => unreachable!(),
    }
}

// The negation of the same.
fn make_negated_body(
    draft: &mut Draft,
    quantifier: TermId,
    term: TermId,
) -> Result<TermId, AllocError>
    requires formula { IsFormulaAt draft.old quantifier }
    requires term { IsTermFor draft.old (tree_at draft.old.trees quantifier) term }
    ensures formula { IfOk result (IsFormulaAt draft.new) }
    ensures tree { IfOk result (λ id. IsNegatedBodyAt (tree_at draft.old.trees quantifier)
        (tree_at draft.old.trees term) (tree_at draft.new.trees id)) }
    ensures grows { AddsTrees draft.old draft.new }
{
    let inner = make_body(draft, quantifier, term)?;
    negation(draft, inner)
}

// A parameter of the type of a quantifier.
fn make_parameter(
    draft: &mut Draft,
    quantifier: TermId,
    number: usize,
) -> Result<TermId, AllocError>
    requires formula { IsFormulaAt draft.old quantifier }
    requires quantified { IsQuantified (tree_at draft.old.trees quantifier) }
    ensures term { IfOk result (IsTermFor draft.new (tree_at draft.old.trees quantifier)) }
    ensures tree { IfOk result (λ id. IsParameterFor (tree_at draft.old.trees quantifier) number
        (tree_at draft.new.trees id)) }
    ensures grows { AddsTrees draft.old draft.new }
{
    match draft.store().node(quantifier) {
        Node::Forall(ty, _) => parameter(draft, number, ty),
        Node::Exists(ty, _) => parameter(draft, number, ty),
        _ => unreachable!(),
    }
}

// The body of a quantifier at a parameter of its type.
fn make_new_body(draft: &mut Draft, quantifier: TermId, number: usize) -> Result<TermId, AllocError>
    requires formula { IsFormulaAt draft.old quantifier }
    requires quantified { IsQuantified (tree_at draft.old.trees quantifier) }
    ensures formula { IfOk result (IsFormulaAt draft.new) }
    ensures tree { IfOk result (λ id. IsBodyAtNew (tree_at draft.old.trees quantifier) number
        (tree_at draft.new.trees id)) }
    ensures grows { AddsTrees draft.old draft.new }
{
    let term = make_parameter(draft, quantifier, number)?;
    make_body(draft, quantifier, term)
}

// The negation of the same.
fn make_negated_new_body(
    draft: &mut Draft,
    quantifier: TermId,
    number: usize,
) -> Result<TermId, AllocError>
    requires formula { IsFormulaAt draft.old quantifier }
    requires quantified { IsQuantified (tree_at draft.old.trees quantifier) }
    ensures formula { IfOk result (IsFormulaAt draft.new) }
    ensures tree { IfOk result (λ id. IsNegatedBodyAtNew (tree_at draft.old.trees quantifier)
        number (tree_at draft.new.trees id)) }
    ensures grows { AddsTrees draft.old draft.new }
{
    let inner = make_new_body(draft, quantifier, number)?;
    negation(draft, inner)
}

// `=` of two terms, or `<->` of two formulas.
pub(crate) fn make_alike(draft: &mut Draft, a: TermId, b: TermId) -> Result<TermId, AllocError>
    requires alike { AreComparable draft.old a b }
    ensures formula { IfOk result (IsFormulaAt draft.new) }
    ensures tree { IfOk result (λ id. tree_at draft.new.trees id
        ≡ alike (tree_at draft.old.trees a) (tree_at draft.old.trees b)) }
    ensures grows { AddsTrees draft.old draft.new }
{
    match draft.store().sort(a) {
        Sort::Term => draft.add(Node::Eq(a, b)),
        _ => draft.add(Node::Join(Op::Iff, a, b)),
    }
}

// What a `let` is alike: its body at its value.
fn make_let_equation(draft: &mut Draft, whole: TermId) -> Result<TermId, AllocError>
    requires whole { IsExpressionAt draft.old whole }
    requires is { IsLet (tree_at draft.old.trees whole) }
    ensures formula { IfOk result (IsFormulaAt draft.new) }
    ensures tree { IfOk result (λ id. IsLetEquation (tree_at draft.old.trees whole)
        (tree_at draft.new.trees id)) }
    ensures grows { AddsTrees draft.old draft.new }
{
    let alloc = draft.allocator();
    match draft.store().node(whole) {
        Node::Let(value, body) => {
            let inner = instance(alloc, draft, body, value)?;
            make_alike(draft, whole, inner)
        }
        _ => unreachable!(),
    }
}

// Under a condition an expression is alike another.
fn make_guarded(
    draft: &mut Draft,
    cond: TermId,
    whole: TermId,
    part: TermId,
) -> Result<TermId, AllocError>
    requires cond { IsFormulaAt draft.old cond }
    requires alike { AreComparable draft.old whole part }
    ensures formula { IfOk result (IsFormulaAt draft.new) }
    ensures tree { IfOk result (λ id. tree_at draft.new.trees id
        ≡ join Op.Imp (tree_at draft.old.trees cond)
        (alike (tree_at draft.old.trees whole) (tree_at draft.old.trees part))) }
    ensures grows { AddsTrees draft.old draft.new }
{
    let link = make_alike(draft, whole, part)?;
    draft.add(Node::Join(Op::Imp, cond, link))
}

// What an expression is alike where a condition holds, and where it doesn't.
pub(crate) fn make_cases(
    draft: &mut Draft,
    cond: TermId,
    whole: TermId,
    yes: TermId,
    no: TermId,
) -> Result<TermId, AllocError>
    requires cond { IsFormulaAt draft.old cond }
    requires yes { AreComparable draft.old whole yes }
    requires no { AreComparable draft.old whole no }
    ensures formula { IfOk result (IsFormulaAt draft.new) }
    ensures tree { IfOk result (λ id. tree_at draft.new.trees id
        ≡ by_cases (tree_at draft.old.trees cond) (tree_at draft.old.trees whole)
        (tree_at draft.old.trees yes) (tree_at draft.old.trees no)) }
    ensures grows { AddsTrees draft.old draft.new }
{
    let no_cond = negation(draft, cond)?;
    let first = make_guarded(draft, cond, whole, yes)?;
    let second = make_guarded(draft, no_cond, whole, no)?;
    draft.add(Node::Join(Op::And, first, second))
}

// What an `if` is alike by its condition.
fn make_if_equation(draft: &mut Draft, whole: TermId) -> Result<TermId, AllocError>
    requires whole { IsExpressionAt draft.old whole }
    requires is { IsIf (tree_at draft.old.trees whole) }
    ensures formula { IfOk result (IsFormulaAt draft.new) }
    ensures tree { IfOk result (λ id. IsIfEquation (tree_at draft.old.trees whole)
        (tree_at draft.new.trees id)) }
    ensures grows { AddsTrees draft.old draft.new }
{
    match draft.store().node(whole) {
        Node::If(cond, yes, no) => make_cases(draft, cond, whole, yes, no),
        _ => unreachable!(),
    }
}

// A template at the right side of an equation.
fn make_replaced(
    draft: &mut Draft,
    equation: TermId,
    template: TermId,
) -> Result<TermId, AllocError>
    requires equation { IsFormulaAt draft.old equation }
    requires held { Holds draft.old.trees template }
    requires template { IsTemplateFor draft.old (tree_at draft.old.trees equation)
        (tree_at draft.old.trees template) }
    ensures formula { IfOk result (IsFormulaAt draft.new) }
    ensures tree { IfOk result (λ id. IsReplaced (tree_at draft.old.trees equation)
        (tree_at draft.old.trees template) (tree_at draft.new.trees id)) }
    ensures grows { AddsTrees draft.old draft.new }
{
    let alloc = draft.allocator();
    match draft.store().node(equation) {
        Node::Eq(_, b) => instance(alloc, draft, template, b),
        _ => unreachable!(),
    }
}

// A term's equation with itself.
fn make_reflexive(draft: &mut Draft, term: TermId) -> Result<TermId, AllocError>
    requires term { IsExpressionAt draft.old term }
    requires sort { sort_of (tree_at draft.old.trees term) ≡ Sort.Term }
    ensures formula { IfOk result (IsFormulaAt draft.new) }
    ensures tree { IfOk result (λ id. tree_at draft.new.trees id
        ≡ equal (tree_at draft.old.trees term) (tree_at draft.old.trees term)) }
    ensures grows { AddsTrees draft.old draft.new }
{
    draft.add(Node::Eq(term, term))
}

// The formula that the only premise of a rule adds.
fn make_added(draft: &mut Draft, tail: &[TermId], word: Word) -> Result<TermId, AllocError>
    requires tail { AreFormulas draft.old tail.now }
    requires held { WordHeld draft.old.trees word }
    requires one { HasOnePremise word }
    requires rule { IsOfTail draft.old.task (trees_at draft.old.trees tail.now)
        (word_rule draft.old.trees word) }
    ensures added { IfOk result (λ id. IsAdded draft.new id
        (adds (trees_at draft.old.trees tail.now) (word_rule draft.old.trees word))) }
    ensures grows { AddsTrees draft.old draft.new }
{
    match word {
        Word::NotNot(i) => Ok(under_not(draft, under_not(draft, at_place(tail, i)))),
        Word::Forall(i, t) => make_body(draft, at_place(tail, i), t),
        Word::NotExists(i, t) => make_negated_body(draft, under_not(draft, at_place(tail, i)), t),
        Word::Exists(i, n) => make_new_body(draft, at_place(tail, i), n),
        Word::NotForall(i, n) => make_negated_new_body(
            draft,
            under_not(draft, at_place(tail, i)),
            n,
        ),
        Word::Replace(i, _, e) => make_replaced(draft, at_place(tail, i), e),
        Word::LetDef(e) => make_let_equation(draft, e),
        Word::IfDef(e) => make_if_equation(draft, e),
        Word::Refl(e) => make_reflexive(draft, e),
        _ => unreachable!(),
    }
}

// What the premises of a rule add, where there are any.
pub(crate) fn make_sides(
    draft: &mut Draft,
    tail: &[TermId],
    word: Word,
) -> Result<Sides, AllocError>
    requires tail { AreFormulas draft.old tail.now }
    requires held { WordHeld draft.old.trees word }
    requires maker { IsMaker word }
    requires rule { IsOfTail draft.old.task (trees_at draft.old.trees tail.now)
        (word_rule draft.old.trees word) }
    ensures sides { IfOk result (λ s. AreSides draft.new s
        (adds (trees_at draft.old.trees tail.now) (word_rule draft.old.trees word))) }
    ensures grows { AddsTrees draft.old draft.new }
{
    match word {
        Word::NotTrue(_)
        | Word::Clash(_, _)
        | Word::Irrefl(_)
        | Word::False(_)
        | Word::Distinct(_) => Ok(Sides {
            first: None,
            second: None,
        }),
        _ => {
            let id = make_added(draft, tail, word)?;
            Ok(Sides {
                first: Some(Formulas::One(id)),
                second: None,
            })
        }
    }
}
