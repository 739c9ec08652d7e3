// The parts of a formula, gathered in one list.
// They depend on the store; the transformation makes its tasks from them.
ghost use Rattle.std.specs.Prelude.{◌≡◌, [], ◌∷◌, ◌++◌, map, All, IfOk};
ghost use Rattle.trees.specs.Tree.{Two};
ghost use Rattle.trees.specs.Node.{tree_at, head_of_node, Holds, Grows};
ghost use Rattle.tasks.specs.Meaning.{trees_at};
ghost use Rattle.tasks.specs.Task.{neg};
ghost use Rattle.tr_split.specs.parts.Parts.{IsSentence, GainsFormulas, HasTwo, Joins, Wraps};
ghost use Rattle.tr_split.specs.parts.Split.{imp, split};

use std::alloc::{AllocError, Global};
use trees::store::{Grow, Node, Op, Parts, Store, TermId};

// Adds the parts of a formula to a list.
#[cycle(parts)]
pub(crate) fn add_parts(
    alloc: Global,
    store: &mut Store,
    formula: TermId,
    parts: &mut Vec<TermId>,
) -> Result<(), AllocError>
    requires formula_held { Holds store.old formula }
    requires sentence { IsSentence (tree_at store.old formula) }
    requires held { All (Holds store.old) parts.old.items }
    ensures gains { IfOk result (λ _. GainsFormulas store.old store.new parts.old.items
        parts.new.items
        (split (tree_at store.old formula))) }
    ensures grows { Grows store.old store.new }
{
    let node = store.node(formula);
    match node {
        Node::True => Ok(()),
        Node::Join(op, a, b) => add_joined(alloc, store, formula, op, a, b, parts),
        Node::Forall(ty, a) => add_parts_under(alloc, store, node, ty, a, parts),
        Node::Let(value, a) => add_parts_under(alloc, store, node, value, a, parts),
        Node::If(c, a, b) => add_branches(alloc, store, c, a, b, parts),
        _ => {
            parts.push(formula)?;
            Ok(())
        }
    }
}

// Adds the parts of a formula that joins two.
#[cycle(parts)]
fn add_joined(
    alloc: Global,
    store: &mut Store,
    formula: TermId,
    op: Op,
    a: TermId,
    b: TermId,
    parts: &mut Vec<TermId>,
) -> Result<(), AllocError>
    requires formula_held { Holds store.old formula }
    requires joins { Joins store.old formula op a b }
    requires held { All (Holds store.old) parts.old.items }
    ensures gains { IfOk result (λ _. GainsFormulas store.old store.new parts.old.items
        parts.new.items
        (split (tree_at store.old formula))) }
    ensures grows { Grows store.old store.new }
{
    match op {
        Op::And => {
            add_parts(alloc, store, a, parts)?;
            add_parts(alloc, store, b, parts)
        }
        Op::AndThen => {
            add_parts(alloc, store, a, parts)?;
            add_parts_under(alloc, store, Node::Join(Op::Imp, a, b), a, b, parts)
        }
        Op::Imp => add_parts_under(alloc, store, Node::Join(Op::Imp, a, b), a, b, parts),
        Op::Iff => add_both_ways(store, a, b, parts),
        Op::Or | Op::OrElse => {
            parts.push(formula)?;
            Ok(())
        }
    }
}

// Adds the parts of a formula, each as the second child of the node, over the first child.
#[cycle(parts)]
fn add_parts_under(
    alloc: Global,
    store: &mut Store,
    node: Node,
    first: TermId,
    formula: TermId,
    parts: &mut Vec<TermId>,
) -> Result<(), AllocError>
    requires formula_held { Holds store.old formula }
    requires sentence { IsSentence (tree_at store.old formula) }
    requires held { All (Holds store.old) parts.old.items }
    requires first_held { Holds store.old first }
    requires node { HasTwo node }
    requires wraps { Wraps (head_of_node node) (tree_at store.old first) }
    ensures gains { IfOk result (λ _. GainsFormulas store.old store.new parts.old.items
        parts.new.items
        (map (Two (head_of_node node) (tree_at store.old first))
        (split (tree_at store.old formula)))) }
    ensures grows { Grows store.old store.new }
{
    let mut inner = Vec::new(alloc);
    add_parts(alloc, store, formula, &mut inner)?;
    add_wrapped(store, node, first, &inner, parts)
}

// Adds the parts of the branches of a conditional.
#[cycle(parts)]
fn add_branches(
    alloc: Global,
    store: &mut Store,
    test: TermId,
    then: TermId,
    other: TermId,
    parts: &mut Vec<TermId>,
) -> Result<(), AllocError>
    requires test_held { Holds store.old test }
    requires test { IsSentence (tree_at store.old test) }
    requires then_held { Holds store.old then }
    requires then { IsSentence (tree_at store.old then) }
    requires other_held { Holds store.old other }
    requires other { IsSentence (tree_at store.old other) }
    requires held { All (Holds store.old) parts.old.items }
    ensures gains { IfOk result (λ _. GainsFormulas store.old store.new parts.old.items
        parts.new.items
        (map (imp (tree_at store.old test)) (split (tree_at store.old then)) ++ map
        (imp (neg (tree_at store.old test))) (split (tree_at store.old other)))) }
    ensures grows { Grows store.old store.new }
{
    add_parts_under(
        alloc,
        store,
        Node::Join(Op::Imp, test, then),
        test,
        then,
        parts,
    )?;
    let negation = store.add(Node::Not(test))?;
    add_parts_under(
        alloc,
        store,
        Node::Join(Op::Imp, negation, other),
        negation,
        other,
        parts,
    )
}

// Adds an equivalence as two implications.
fn add_both_ways(
    store: &mut Store,
    a: TermId,
    b: TermId,
    parts: &mut Vec<TermId>,
) -> Result<(), AllocError>
    requires a_held { Holds store.old a }
    requires a { IsSentence (tree_at store.old a) }
    requires b_held { Holds store.old b }
    requires b { IsSentence (tree_at store.old b) }
    requires held { All (Holds store.old) parts.old.items }
    ensures gains { IfOk result (λ _. GainsFormulas store.old store.new parts.old.items
        parts.new.items
        (imp (tree_at store.old a) (tree_at store.old b) ∷ imp (tree_at store.old b)
        (tree_at store.old a) ∷ [])) }
    ensures grows { Grows store.old store.new }
{
    let right = store.add(Node::Join(Op::Imp, a, b))?;
    let left = store.add(Node::Join(Op::Imp, b, a))?;
    parts.push(right)?;
    parts.push(left)?;
    Ok(())
}

// Adds each formula as the second child of the node, over the first child.
fn add_wrapped(
    store: &mut Store,
    node: Node,
    first: TermId,
    formulas: &[TermId],
    parts: &mut Vec<TermId>,
) -> Result<(), AllocError>
    requires formulas_held { All (Holds store.old) formulas.now }
    requires sentences { All IsSentence (trees_at store.old formulas.now) }
    requires held { All (Holds store.old) parts.old.items }
    requires first_held { Holds store.old first }
    requires node { HasTwo node }
    requires wraps { Wraps (head_of_node node) (tree_at store.old first) }
    ensures gains { IfOk result (λ _. GainsFormulas store.old store.new parts.old.items
        parts.new.items
        (map (Two (head_of_node node) (tree_at store.old first))
        (trees_at store.old formulas.now))) }
    ensures grows { Grows store.old store.new }
{
    for formula in formulas {
        let whole = wrap_part(store, node, first, *formula)?;
        parts.push(whole)?;
    }
    Ok(())
}

// The node over these children.
fn wrap_part(
    store: &mut Store,
    node: Node,
    first: TermId,
    formula: TermId,
) -> Result<TermId, AllocError>
    requires first_held { Holds store.old first }
    requires formula_held { Holds store.old formula }
    requires sentence { IsSentence (tree_at store.old formula) }
    requires node { HasTwo node }
    requires wraps { Wraps (head_of_node node) (tree_at store.old first) }
    ensures held { IfOk result (Holds store.new) }
    ensures tree { IfOk result (λ id. tree_at store.new id ≡ Two (head_of_node node)
        (tree_at store.old first) (tree_at store.old formula)) }
    ensures grows { Grows store.old store.new }
{
    store.add(node.with_parts(Parts::Two(first, formula)))
}
