// The walk of a pattern: its tests and the terms for its variables, asked of terms.
ghost use Rattle.std.specs.Prelude.{◌≡◌, ◌∷◌, [], ◌++◌, ◌<◌, get_or, All, IfOk, OnOk, length};
ghost use Rattle.trees.specs.declared.TermId.{TermId};
ghost use Rattle.trees.specs.Tree.{Tree};
ghost use Rattle.trees.specs.Node.{tree_at, trees_at, Holds};
ghost use Rattle.trees.specs.Sorts.{sort_of, IsList};
ghost use Rattle.trees.specs.binders.Visits.{AreHeldOfSort, HoldTerms, HoldsTerm};
ghost use Rattle.tasks.specs.Conjunctions.{conjunction};
ghost use Rattle.tasks.specs.Looking.{LookupHeld};
ghost use Rattle.tasks.specs.MatchTests.{fields, constructor_projections, con_equation, tests, pattern_terms};
ghost use Rattle.images.specs.PatternTerms.{HasClosedResult};
ghost use Rattle.images.specs.match_terms.Asking.{task_under, CanAsk, AreHeldBoth};

use crate::match_terms::applied::{At, fields, push_members, rebuild};
use std::alloc::{AllocError, Global};
use tasks::{Lookup, Role};
use trees::store::{Grow, Store};
use trees::{Node, Op, Sort, TermId};

/// The conjunction of formulas.
pub(crate) fn conjunction<G: Grow>(g: &mut G, formulas: &[TermId]) -> Result<TermId, AllocError>
    requires { AreHeldOfSort Sort.Formula (G.trees g.old) formulas.now }
    ensures held { IfOk result (Holds (G.trees g.new)) }
    ensures formula { IfOk result (λ id. sort_of (tree_at (G.trees g.new) id) ≡ Sort.Formula) }
    ensures tree { IfOk result (λ id. tree_at (G.trees g.new) id
        ≡ conjunction (trees_at (G.trees g.old) formulas.now)) }
    ensures grows { G.grows g.old g.new }
{
    match formulas.split_first() {
        Some((first, rest)) => {
            if rest.is_empty() {
                return Ok(*first);
            }
            let more = conjunction(g, rest)?;
            let both = g.add(Node::Join(Op::And, *first, more))?;
            Ok(both)
        }
        None => {
            let empty = g.add(Node::True)?;
            Ok(empty)
        }
    }
}

// The projections of a constructor.
fn projections<'a>(store: &Store, look: Lookup<'a>, constructor: usize) -> &'a [usize]
    requires { LookupHeld store.now look }
    ensures { result.now ≡ constructor_projections (task_under store.now look.entry) constructor }
{
    match look.role(store, constructor) {
        Role::Constructor(con) => con.projections.as_slice(),
        _ => &[],
    }
}

/// What a constructor's pattern asks of a term: the equation of the term and the constructor on its fields, and the fields.
#[derive(Drop)]
struct Opened {
    equation: TermId,
    fields: Vec<TermId>,
}

// Opens a term by a constructor at a list of types.
fn open_term<G: Grow>(
    alloc: Global,
    g: &mut G,
    look: Lookup<'_>,
    constructor: usize,
    types: TermId,
    term: TermId,
) -> Result<Opened, AllocError>
    requires look { LookupHeld (G.trees g.old) look }
    requires results { All (HasClosedResult (task_under (G.trees g.old) look))
        (constructor ∷ constructor_projections (task_under (G.trees g.old) look) constructor) }
    requires types_held { Holds (G.trees g.old) types }
    requires types { IsList Sort.Kind (tree_at (G.trees g.old) types) }
    requires term { HoldsTerm (G.trees g.old) term }
    ensures equation_held { IfOk result (λ o. AreHeldOfSort Sort.Formula (G.trees g.new)
        (o.equation ∷ [])) }
    ensures equation { IfOk result (λ o. tree_at (G.trees g.new) o.equation
        ≡ con_equation (task_under (G.trees g.old) look.entry) constructor
        (tree_at (G.trees g.old) types) (tree_at (G.trees g.old) term)) }
    ensures fields_held { IfOk result (λ o. HoldTerms (G.trees g.new) o.fields.items) }
    ensures fields { IfOk result (λ o. trees_at (G.trees g.new) o.fields.items
        ≡ fields (task_under (G.trees g.old) look.entry)
        (constructor_projections (task_under (G.trees g.old) look.entry) constructor)
        (tree_at (G.trees g.old) types) (tree_at (G.trees g.old) term)) }
    ensures grows { G.grows g.old g.new }
{
    let own = projections(g.store(), look, constructor);
    let mut members = Vec::new(alloc);
    push_members(g.store(), types, &mut members)?;
    let at = At {
        look,
        types,
        members: members.as_slice(),
    };
    let made = rebuild(alloc, g, at, constructor, own, term)?;
    let equation = g.add(Node::Eq(term, made))?;
    let fields = fields(alloc, g, at, own, term)?;
    Ok(Opened { equation, fields })
}

// The first of the terms.
fn first_term(terms: &[TermId]) -> TermId
    requires { 0 < length terms.now }
    ensures { result ≡ get_or terms.now 0 result }
{
    terms[0]
}

// The terms after the first.
fn other_terms(terms: &[TermId]) -> &[TermId]
    requires { 0 < length terms.now }
    ensures { (d : TermId) → terms.now ≡ get_or terms.now 0 d ∷ result.now }
{
    match terms.split_first() {
        Some((_, rest)) => rest,
        None => &[],
    }
}

/// The tests of a pattern or of a list of patterns, and the terms for its variables, after others.
pub(crate) fn ask_all<G: Grow>(
    alloc: Global,
    g: &mut G,
    look: Lookup<'_>,
    pattern: TermId,
    terms: &[TermId],
    made: &mut Vec<TermId>,
    bound: &mut Vec<TermId>,
) -> Result<(), AllocError>
    requires ready { CanAsk (G.trees g.old) look pattern terms.now }
    requires held { AreHeldBoth (G.trees g.old) made.old.items bound.old.items }
    ensures held { OnOk result (AreHeldBoth (G.trees g.new) made.new.items bound.new.items) }
    ensures tests { OnOk result (trees_at (G.trees g.new) made.new.items
        ≡ trees_at (G.trees g.old) made.old.items ++ tests (task_under (G.trees g.old) look.entry)
        (tree_at (G.trees g.old) pattern) (trees_at (G.trees g.old) terms.now)) }
    ensures terms { OnOk result (trees_at (G.trees g.new) bound.new.items
        ≡ trees_at (G.trees g.old) bound.old.items
        ++ pattern_terms (task_under (G.trees g.old) look.entry)
        (tree_at (G.trees g.old) pattern) (trees_at (G.trees g.old) terms.now)) }
    ensures grows { G.grows g.old g.new }
{
    match g.store().node(pattern) {
        Node::PatVar(_) => {
            let only = first_term(terms);
            bound.push(only)?;
            Ok(())
        }
        Node::PatAlias(inner) => {
            ask_all(alloc, g, look, inner, terms, made, bound)?;
            let named = first_term(terms);
            bound.push(named)?;
            Ok(())
        }
        Node::Cell(first, more) => {
            let head = first_term(terms);
            let tail = other_terms(terms);
            ask_all(alloc, g, look, first, &[head], made, bound)?;
            ask_all(alloc, g, look, more, tail, made, bound)
        }
        Node::PatCon(constructor, types, parts, _) => {
            let term = first_term(terms);
            let opened = open_term(alloc, g, look, constructor, types, term)?;
            made.push(opened.equation)?;
            let inner = opened.fields.as_slice();
            ask_all(alloc, g, look, parts, inner, made, bound)
        }
        _ => Ok(()),
    }
}
