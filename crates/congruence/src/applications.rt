// Closed applications of symbols to lists of arguments: their parts, and one argument replaced by an alike term.
ghost use Rattle.std.specs.Prelude.{◌≡◌, ◌<◌, ◌∷◌, All, Some, None, IfOk, IfSome};
ghost use Rattle.trees.specs.Tree.{Tree, Leaf, Two, HCell, HEnd, loose};
ghost use Rattle.trees.specs.Node.{tree_at, trees_at, Holds};
ghost use Rattle.trees.specs.Binding.{inst, Bound};
ghost use Rattle.trees.specs.Sorts.{sort_of, type_of, IsList};
ghost use Rattle.evidence.specs.Drafts.{Extends, AddsTrees};
ghost use Rattle.images.specs.Templates.{listed};
ghost use Rattle.congruence.specs.Alike.{IsClosedAt, ArePair, Shows, HoleAt};
ghost use Rattle.congruence.specs.Applications.{applied, IsSymbolHeld};

use crate::alike::AlikeBy;
use crate::replacing::{alike_replaced, open_hole};
use evidence::Draft;
use std::alloc::AllocError;
use tasks::Grow;
use tasks::typed_trees::instances::instance;
use trees::{Node, Sort, TermId};

/// A symbol at types: a function with the type of its result, or a predicate.
#[derive(Clone, Copy)]
pub enum SymbolAt {
    Function(usize, TermId, TermId),
    Predicate(usize, TermId),
}

/// A symbol at types, on a list of arguments. Only want of memory refuses.
pub fn apply(draft: &mut Draft, symbol: SymbolAt, arguments: TermId) -> Result<TermId, AllocError>
    requires symbol_held { IsSymbolHeld draft.old.trees symbol }
    requires arguments_held { Holds draft.old.trees arguments }
    requires terms { IsList Sort.Term (tree_at draft.old.trees arguments) }
    ensures held { IfOk result (Holds draft.new.trees) }
    ensures tree { IfOk result (λ id. tree_at draft.new.trees id
        ≡ applied draft.old.trees symbol (tree_at draft.old.trees arguments)) }
    ensures grows { AddsTrees draft.old draft.new }
{
    match symbol {
        SymbolAt::Function(f, types, ty) => draft.add(Node::Fun(f, types, arguments, ty)),
        SymbolAt::Predicate(p, types) => draft.add(Node::Pred(p, types, arguments)),
    }
}

/// The list of arguments of an application of this symbol.
pub fn arguments_of(draft: &Draft, symbol: SymbolAt, id: TermId) -> TermId
    requires held { Holds draft.now.trees id }
    requires application { (x : Tree) × (tree_at draft.now.trees id
        ≡ applied draft.now.trees symbol x) }
    ensures held { Holds draft.now.trees result }
    ensures tree { (x : Tree) → tree_at draft.now.trees id ≡ applied draft.now.trees symbol x
        → tree_at draft.now.trees id
        ≡ applied draft.now.trees symbol (tree_at draft.now.trees result) }
{
    match symbol {
        SymbolAt::Function(_, _, _) => match draft.store().node(id) {
            Node::Fun(_, _, arguments, _) => arguments,
            _ => unreachable!(),
        },
        SymbolAt::Predicate(_, _) => match draft.store().node(id) {
            Node::Pred(_, _, arguments) => arguments,
            _ => unreachable!(),
        },
    }
}

/// The list of these terms and a list after them. Only want of memory refuses.
pub fn list_after(draft: &mut Draft, before: &[TermId], list: TermId) -> Result<TermId, AllocError>
    requires before_held { All (Holds draft.old.trees) before.now }
    requires before_terms { All (λ id. sort_of (tree_at draft.old.trees id) ≡ Sort.Term)
        before.now }
    requires list_held { Holds draft.old.trees list }
    requires terms { IsList Sort.Term (tree_at draft.old.trees list) }
    ensures held { IfOk result (Holds draft.new.trees) }
    ensures tree { IfOk result (λ id. tree_at draft.new.trees id
        ≡ listed (trees_at draft.old.trees before.now) (tree_at draft.old.trees list)) }
    ensures terms { IfOk result (λ id. IsList Sort.Term (tree_at draft.new.trees id)) }
    ensures grows { AddsTrees draft.old draft.new }
{
    match before.split_first() {
        Some((first, others)) => {
            let after = list_after(draft, others, list)?;
            let made = draft.add(Node::Cell(*first, after))?;
            Ok(made)
        }
        None => Ok(list),
    }
}

// An application with the variable 0 in the place of one argument.
#[tactic(auto, using(evidence::specs::Laws::AddsTrees_trans))]
fn hole_argument(
    draft: &mut Draft,
    symbol: SymbolAt,
    before: &[TermId],
    left: TermId,
    a: TermId,
    rest: TermId,
) -> Result<TermId, AllocError>
    requires left { IsClosedAt draft.old left }
    requires symbol_held { IsSymbolHeld draft.old.trees symbol }
    requires before_held { All (Holds draft.old.trees) before.now }
    requires rest_held { Holds draft.old.trees rest }
    requires a { IsClosedAt draft.old a }
    requires term { sort_of (tree_at draft.old.trees a) ≡ Sort.Term }
    requires left_is { tree_at draft.old.trees left ≡ applied draft.old.trees symbol
        (listed (trees_at draft.old.trees before.now)
        (Two HCell (tree_at draft.old.trees a) (tree_at draft.old.trees rest))) }
    ensures hole { IfOk result (λ id. HoleAt draft.new id left left a a) }
    ensures fills { IfOk result (λ id. (x : Tree) → loose x ≡ 0
        → inst (tree_at draft.new.trees id) x ≡ applied draft.new.trees symbol
        (listed (trees_at draft.new.trees before.now)
        (Two HCell x (tree_at draft.new.trees rest)))) }
    ensures grows { AddsTrees draft.old draft.new }
{
    let _ = left;
    let _task = draft.task();
    let variable = open_hole(draft, a, a)?;
    let cell = draft.add(Node::Cell(variable, rest))?;
    let list = list_after(draft, before, cell)?;
    let hole = apply(draft, symbol, list)?;
    Ok(hole)
}

// A tree with a hole, with another term there.
fn fill(
    draft: &mut Draft,
    hole: TermId,
    left: TermId,
    a: TermId,
    b: TermId,
) -> Result<TermId, AllocError>
    requires hole { HoleAt draft.old hole left left a a }
    requires left { IsClosedAt draft.old left }
    requires pair { ArePair draft.old a b }
    requires term { sort_of (tree_at draft.old.trees a) ≡ Sort.Term }
    ensures hole { IfOk result (λ id. HoleAt draft.new hole left id a b) }
    ensures pair { IfOk result (ArePair draft.new left) }
    ensures tree { IfOk result (λ id. tree_at draft.new.trees id
        ≡ inst (tree_at draft.old.trees hole) (tree_at draft.old.trees b)) }
    ensures grows { AddsTrees draft.old draft.new }
{
    let _ = left;
    let _ = a;
    let alloc = draft.allocator();
    let made = instance(alloc, draft, hole, b)?;
    Ok(made)
}

/// An application with one argument replaced, and evidence that it is alike the first one.
#[derive(Clone, Copy)]
pub struct Replaced {
    pub right: TermId,
    pub alike: AlikeBy,
}

/// An application with one argument replaced by an alike term, the one after the terms `before`. Only want of memory refuses.
pub fn replace_argument(
    draft: &mut Draft,
    symbol: SymbolAt,
    before: &[TermId],
    left: TermId,
    a: TermId,
    b: TermId,
    rest: TermId,
    alike: AlikeBy,
) -> Result<Replaced, AllocError>
    requires left { IsClosedAt draft.old left }
    requires symbol_held { IsSymbolHeld draft.old.trees symbol }
    requires before_held { All (Holds draft.old.trees) before.now }
    requires rest_held { Holds draft.old.trees rest }
    requires pair { ArePair draft.old a b }
    requires term { sort_of (tree_at draft.old.trees a) ≡ Sort.Term }
    requires left_is { tree_at draft.old.trees left ≡ applied draft.old.trees symbol
        (listed (trees_at draft.old.trees before.now)
        (Two HCell (tree_at draft.old.trees a) (tree_at draft.old.trees rest))) }
    requires shows { Shows draft.old alike (tree_at draft.old.trees a) (tree_at draft.old.trees b) }
    ensures pair { IfOk result (λ m. ArePair draft.new left m.right) }
    ensures right_is { IfOk result (λ m. tree_at draft.new.trees m.right
        ≡ applied draft.old.trees symbol (listed (trees_at draft.old.trees before.now)
        (Two HCell (tree_at draft.old.trees b) (tree_at draft.old.trees rest)))) }
    ensures shows { IfOk result (λ m. Shows draft.new m.alike (tree_at draft.old.trees left)
        (tree_at draft.new.trees m.right)) }
    ensures grows { Extends draft.old draft.new }
{
    let hole = hole_argument(draft, symbol, before, left, a, rest)?;
    let right = fill(draft, hole, left, a, b)?;
    let alike = alike_replaced(draft, hole, left, right, a, b, alike)?;
    Ok(Replaced { right, alike })
}

/// The first member of a list of arguments, and the list of the others.
#[derive(Clone, Copy)]
pub struct Cells {
    pub first: TermId,
    pub others: TermId,
}

/// The first member of a list and the list of the others, where it has a member.
pub fn cells_of(draft: &Draft, list: TermId) -> Option<Cells>
    requires held { Holds draft.now.trees list }
    requires sort { sort_of (tree_at draft.now.trees list) ≡ Sort.List }
    ensures some { IfSome result (λ p. tree_at draft.now.trees list
        ≡ Two HCell (tree_at draft.now.trees p.first) (tree_at draft.now.trees p.others)) }
    ensures first_below { IfSome result (λ p. p.first.0 < list.0) }
    ensures others_below { IfSome result (λ p. p.others.0 < list.0) }
    ensures none { result ≡ None → tree_at draft.now.trees list ≡ Leaf HEnd }
{
    match draft.store().node(list) {
        Node::Cell(first, others) => Some(Cells { first, others }),
        Node::End => None,
        _ => unreachable!(),
    }
}

/// The first member of a list that has one, and the list of the others.
pub fn member_parts(draft: &Draft, list: TermId) -> Cells
    requires held { Holds draft.now.trees list }
    requires cell { (x : Tree) × ((y : Tree) × (tree_at draft.now.trees list ≡ Two HCell x y)) }
    ensures first_held { Holds draft.now.trees result.first }
    ensures others_held { Holds draft.now.trees result.others }
    ensures tree { tree_at draft.now.trees list ≡ Two HCell (tree_at draft.now.trees result.first)
        (tree_at draft.now.trees result.others) }
{
    match draft.store().node(list) {
        Node::Cell(first, others) => Cells { first, others },
        _ => unreachable!(),
    }
}
