// What is well typed over a vocabulary, without memory.
// It depends on types and binders; the kernel asks it of each formula of a sequent.
ghost use Rattle.std.specs.Prelude.{◌≡◌, ◌↔◌, [], IsTrue, IfSome, Some, All, length, map};
ghost use Rattle.std.specs.Option.{option_map};
ghost use Rattle.trees.specs.Tree.{HPred, HFun, HPatCon};
ghost use Rattle.trees.specs.Node.{tree_at, node_tree, parts_of, Holds, AreBelow};
ghost use Rattle.trees.specs.Sorts.{type_of};
ghost use Rattle.trees.specs.Binding.{inst_types};
ghost use Rattle.tasks.specs.Meaning.{trees_at, symbol_at, task_at, SymbolHeld, TaskHeld};
ghost use Rattle.tasks.specs.Typing.{members, IsRigid, IsTypeSymbol, IsUse, MakesTerms, first_body, BranchFits, BranchesFit, TwoTyped, ThreeTyped, TopTyped, TypedUnder, IsTyped};
ghost use Rattle.tasks.specs.Valid.{IsGround, IsGroundFormula, IsTypeOver};
ghost use Rattle.tasks.specs.typed_trees.Binders.{binders_at, BindersHeld};
ghost use Rattle.tasks.specs.typed_trees.Named.{vocabulary_at, VocabularyHeld};

use crate::typed_trees::enclosing::{Binder, Binders, bound_type};
use crate::typed_trees::types::{Types, has_members, is_instance, same_types, type_of};
use crate::typed_trees::vocabulary::{Vocabulary, entry, is_matched, is_rigid_symbol, is_usable};
use crate::{Lookup, SymbolInfo, SymbolKind, Task};
use trees::store::Store;
use trees::{Node, Parts, Sort, TermId};

// Whether a symbol is a type variable of a goal, and an entry without type variables of its own.
fn is_rigid(store: &Store, v: &Vocabulary<'_>, symbol: usize) -> bool
    requires { VocabularyHeld store.now v.now }
    ensures { IsTrue result ↔ IsRigid (vocabulary_at store.now v.now) symbol }
{
    match entry(store, v, symbol) {
        Some(info) => is_rigid_symbol(store, v, symbol)
            && info.kind == SymbolKind::Kind
            && info.vars == 0,
        None => false,
    }
}

// Whether a symbol is a type symbol with as many arguments as a list has.
fn is_type_symbol(store: &Store, v: &Vocabulary<'_>, symbol: usize, arguments: TermId) -> bool
    requires v_held { VocabularyHeld store.now v.now }
    requires held { Holds store.now arguments }
    ensures { IsTrue result ↔ IsTypeSymbol (vocabulary_at store.now v.now) symbol
        (length (members (tree_at store.now arguments))) }
{
    match entry(store, v, symbol) {
        Some(info) => is_usable(store, v, symbol)
            && info.kind == SymbolKind::Kind
            && has_members(store, arguments, info.vars),
        None => false,
    }
}

// Whether a term has the type of a tree at types.
fn argument_fits(store: &Store, argument: TermId, wanted: TermId, types: TermId) -> bool
    requires argument_held { Holds store.now argument }
    requires wanted_held { Holds store.now wanted }
    requires types_held { Holds store.now types }
    ensures { IsTrue result ↔ (type_of (tree_at store.now argument)
        ≡ Some (inst_types (tree_at store.now wanted) (members (tree_at store.now types)))) }
{
    match type_of(store, argument) {
        Some(known) => is_instance(store, wanted, Types::Listed(types), known),
        None => false,
    }
}

// Whether the members of a list have the types of trees at types.
fn arguments_fit(store: &Store, arguments: TermId, wanted: &[TermId], types: TermId) -> bool
    requires arguments_held { Holds store.now arguments }
    requires wanted_held { All (Holds store.now) wanted.now }
    requires types_held { Holds store.now types }
    ensures { IsTrue result ↔ (map type_of (members (tree_at store.now arguments))
        ≡ map (λ a. Some (inst_types a (members (tree_at store.now types))))
        (trees_at store.now wanted.now)) }
{
    match (store.node(arguments), wanted.split_first()) {
        (Node::Cell(first, rest), Some((ty, more))) => argument_fits(store, first, *ty, types)
            && arguments_fit(store, rest, more, types),
        (Node::Cell(_, _), None) => false,
        (_, left) => left.is_none(),
    }
}

// Whether a symbol takes these types and arguments.
fn is_use(store: &Store, info: &SymbolInfo, types: TermId, arguments: TermId) -> bool
    requires info_held { SymbolHeld store.now info.now }
    requires types_held { Holds store.now types }
    requires arguments_held { Holds store.now arguments }
    ensures { IsTrue result ↔ IsUse (symbol_at store.now info.now) (tree_at store.now types)
        (tree_at store.now arguments) }
{
    has_members(store, types, info.vars)
        && arguments_fit(store, arguments, info.args.as_slice(), types)
}

// Whether a symbol's result is this type.
fn result_fits(store: &Store, known: Option<TermId>, types: TermId, made: TermId) -> bool
    requires known_held { IfSome known (Holds store.now) }
    requires types_held { Holds store.now types }
    requires made_held { Holds store.now made }
    ensures { IsTrue result ↔ (option_map (λ r. inst_types r (members (tree_at store.now types)))
        (option_map (tree_at store.now) known) ≡ Some (tree_at store.now made)) }
{
    match known {
        Some(r) => is_instance(store, r, Types::Listed(types), made),
        None => false,
    }
}

// Whether a symbol of this sort makes terms.
fn makes_terms(kind: SymbolKind) -> bool
    ensures { IsTrue result ↔ MakesTerms kind }
{
    match kind {
        SymbolKind::Function | SymbolKind::Constructor | SymbolKind::Projection => true,
        SymbolKind::Kind | SymbolKind::Predicate => false,
    }
}

// Whether a predicate is used as its signature says.
fn is_predicate_use(
    store: &Store,
    v: &Vocabulary<'_>,
    symbol: usize,
    types: TermId,
    arguments: TermId,
) -> bool
    requires v_held { VocabularyHeld store.now v.now }
    requires types_held { Holds store.now types }
    requires arguments_held { Holds store.now arguments }
    ensures { IsTrue result ↔ TwoTyped (vocabulary_at store.now v.now) (HPred symbol)
        (tree_at store.now types) (tree_at store.now arguments) }
{
    match entry(store, v, symbol) {
        Some(info) => is_usable(store, v, symbol)
            && info.kind == SymbolKind::Predicate
            && is_use(store, info, types, arguments),
        None => false,
    }
}

// Whether a function is used as its signature says.
fn is_function_use(
    store: &Store,
    v: &Vocabulary<'_>,
    symbol: usize,
    types: TermId,
    arguments: TermId,
    made: TermId,
) -> bool
    requires v_held { VocabularyHeld store.now v.now }
    requires types_held { Holds store.now types }
    requires arguments_held { Holds store.now arguments }
    requires made_held { Holds store.now made }
    ensures { IsTrue result ↔ ThreeTyped (vocabulary_at store.now v.now) (HFun symbol)
        (tree_at store.now types) (tree_at store.now arguments) (tree_at store.now made) }
{
    match entry(store, v, symbol) {
        Some(info) => is_usable(store, v, symbol)
            && makes_terms(info.kind)
            && is_use(store, info, types, arguments)
            && result_fits(store, info.result, types, made),
        None => false,
    }
}

// Whether a constructor is used in a pattern as its signature says.
fn is_pattern_use(
    store: &Store,
    v: &Vocabulary<'_>,
    symbol: usize,
    types: TermId,
    parts: TermId,
    made: TermId,
) -> bool
    requires v_held { VocabularyHeld store.now v.now }
    requires types_held { Holds store.now types }
    requires parts_held { Holds store.now parts }
    requires made_held { Holds store.now made }
    ensures { IsTrue result ↔ ThreeTyped (vocabulary_at store.now v.now) (HPatCon symbol)
        (tree_at store.now types) (tree_at store.now parts) (tree_at store.now made) }
{
    match entry(store, v, symbol) {
        Some(info) => is_matched(store, v, symbol)
            && info.kind == SymbolKind::Constructor
            && is_use(store, info, types, parts)
            && result_fits(store, info.result, types, made),
        None => false,
    }
}

// Whether a branch takes this type and gives what a body gives.
fn branch_fits(store: &Store, ty: Option<TermId>, first: TermId, branch: TermId) -> bool
    requires ty_held { IfSome ty (Holds store.now) }
    requires first_held { Holds store.now first }
    requires branch_held { Holds store.now branch }
    ensures { IsTrue result ↔ BranchFits (option_map (tree_at store.now) ty)
        (tree_at store.now first) (tree_at store.now branch) }
{
    match store.node(branch) {
        Node::Arm(pattern, body) => same_types(store, type_of(store, pattern), ty)
            && store.sort(body) == store.sort(first)
            && same_types(store, type_of(store, body), type_of(store, first)),
        _ => false,
    }
}

// Whether each branch of a list takes this type and gives what a body gives.
fn branches_fit(store: &Store, ty: Option<TermId>, first: TermId, list: TermId) -> bool
    requires ty_held { IfSome ty (Holds store.now) }
    requires first_held { Holds store.now first }
    requires list_held { Holds store.now list }
    ensures { IsTrue result ↔ BranchesFit (option_map (tree_at store.now) ty)
        (tree_at store.now first) (tree_at store.now list) }
{
    match store.node(list) {
        Node::Cell(branch, rest) => branch_fits(store, ty, first, branch)
            && branches_fit(store, ty, first, rest),
        _ => true,
    }
}

// The body of a list's first branch.
fn first_body(store: &Store, list: TermId) -> TermId
    requires { Holds store.now list }
    ensures tree { tree_at store.now result ≡ first_body (tree_at store.now list) }
    ensures held { Holds store.now result }
{
    match store.node(list) {
        Node::Cell(branch, _) => match store.node(branch) {
            Node::Arm(_, body) => body,
            _ => list,
        },
        _ => list,
    }
}

// Whether an operator's children are as it asks, under binders.
pub(crate) fn is_top_typed(
    store: &Store,
    v: &Vocabulary<'_>,
    binders: &Binders<'_>,
    node: Node,
) -> bool
    requires v_held { VocabularyHeld store.now v.now }
    requires binders_held { BindersHeld store.now binders.now }
    requires held { AreBelow (length store.now) (parts_of node) }
    ensures { IsTrue result ↔ TopTyped (vocabulary_at store.now v.now)
        (binders_at store.now binders.now) (node_tree store.now node) }
{
    match node {
        Node::TyRigid(symbol) => is_rigid(store, v, symbol),
        Node::TyApp(symbol, a) => is_type_symbol(store, v, symbol, a),
        Node::Bound(index, a) => same_types(store, bound_type(store, binders, index), Some(a)),
        Node::Pred(symbol, a, b) => is_predicate_use(store, v, symbol, a, b),
        Node::Fun(symbol, a, b, c) => is_function_use(store, v, symbol, a, b, c),
        Node::Eq(a, b) => same_types(store, type_of(store, a), type_of(store, b)),
        Node::If(_, b, c) => same_types(store, type_of(store, b), type_of(store, c)),
        Node::Case(a, b) => branches_fit(store, type_of(store, a), first_body(store, b), b),
        Node::PatCon(symbol, a, b, c) => is_pattern_use(store, v, symbol, a, b, c),
        _ => true,
    }
}

// Whether a tree is well typed under binders.
fn is_typed_under<'a>(
    store: &Store,
    v: &Vocabulary<'_>,
    binders: &'a Binders<'a>,
    e: TermId,
) -> bool
    requires v_held { VocabularyHeld store.now v.now }
    requires binders_held { BindersHeld store.now binders.now }
    requires held { Holds store.now e }
    ensures { IsTrue result ↔ TypedUnder (vocabulary_at store.now v.now)
        (binders_at store.now binders.now) (tree_at store.now e) }
{
    let node = store.node(e);
    if !is_top_typed(store, v, binders, node) {
        return false;
    }
    match node {
        Node::Forall(a, b) | Node::Exists(a, b) => is_typed_under(store, v, binders, a)
            && is_typed_under(
                store,
                v,
                &Binders::Inside(Binder::Quantifier, a, binders),
                b,
            ),
        Node::Let(a, b) => is_typed_under(store, v, binders, a)
            && is_typed_under(store, v, &Binders::Inside(Binder::Let, a, binders), b),
        Node::Arm(a, b) => is_typed_under(store, v, binders, a)
            && is_typed_under(store, v, &Binders::Inside(Binder::Arm, a, binders), b),
        Node::Cell(a, b) | Node::Pred(_, a, b) | Node::Eq(a, b) | Node::Join(_, a, b) =>
            is_typed_under(store, v, binders, a) && is_typed_under(store, v, binders, b),
        Node::Case(a, b) => is_typed_under(store, v, binders, a)
            && is_typed_under(store, v, binders, b),
        node => match node.parts() {
            Parts::None | Parts::Two(_, _) => true,
            Parts::One(a) => is_typed_under(store, v, binders, a),
            Parts::Three(a, b, c) => is_typed_under(store, v, binders, a)
                && is_typed_under(store, v, binders, b)
                && is_typed_under(store, v, binders, c),
        },
    }
}

/// Whether a tree is well typed over a vocabulary, and so closed.
pub fn is_typed_over(store: &Store, v: &Vocabulary<'_>, e: TermId) -> bool
    requires v_held { VocabularyHeld store.now v.now }
    requires held { Holds store.now e }
    ensures { IsTrue result ↔ TypedUnder (vocabulary_at store.now v.now) [] (tree_at store.now e) }
{
    is_typed_under(store, v, &Binders::Outside, e)
}

/// Whether a tree is well typed over a task, and so closed.
pub fn well_typed(store: &Store, task: &Task, e: TermId) -> bool
    requires task_held { TaskHeld store.now task.now }
    requires held { Holds store.now e }
    ensures { IsTrue result ↔ IsTyped (task_at store.now task.now) (tree_at store.now e) }
{
    let look = Lookup::without_index(task);
    is_typed_over(store, &Vocabulary::OfTask(&look), e)
}

/// Whether no schematic type variable is in a tree: told by what the store keeps of it.
#[tactic(auto, using(crate::proofs::typed_trees::Ground::told_ground))]
pub fn is_ground(store: &Store, e: TermId) -> bool
    requires { Holds store.now e }
    ensures { IsTrue result ↔ IsGround (tree_at store.now e) }
{
    store.above_type_variables(e) == 0
}

/// Whether a tree is a formula that may be in a sequent: closed, typed in the task and free of schematic types.
pub fn is_ground_formula(store: &Store, task: &Task, e: TermId) -> bool
    requires task_held { TaskHeld store.now task.now }
    requires held { Holds store.now e }
    ensures { IsTrue result ↔ IsGroundFormula (task_at store.now task.now) (tree_at store.now e) }
{
    store.sort(e) == Sort::Formula && well_typed(store, task, e) && is_ground(store, e)
}

/// Whether a tree is a type of the task without schematic type variables.
pub fn is_ground_type(store: &Store, task: &Task, e: TermId) -> bool
    requires task_held { TaskHeld store.now task.now }
    requires held { Holds store.now e }
    ensures { IsTrue result ↔ IsTypeOver (task_at store.now task.now) 0 (tree_at store.now e) }
{
    store.sort(e) == Sort::Kind && well_typed(store, task, e) && is_ground(store, e)
}
