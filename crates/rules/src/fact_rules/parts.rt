// The parts of an inversion formula at types, told without making them: a clause gives a disjunct, its premises and the equations
// on its conclusion's arguments the conjuncts.
// They depend on the store and on instances of types; the inversion formula depends on them.
ghost use Rattle.std.specs.Prelude.{◌≡◌, ◌↔◌, ◌+◌, ◌<◌, [], length, All, IsTrue, IfSome, IfNone};
ghost use Rattle.trees.specs.Tree.{Tree, Leaf, Two, HEq, HTrue, HJoin};
ghost use Rattle.trees.specs.Node.{tree_at, Holds};
ghost use Rattle.trees.specs.Binding.{Bound, inst_types};
ghost use Rattle.tasks.specs.Conjunctions.{conjunction};
ghost use Rattle.tasks.specs.Equations.{cells, type_variables, bound_variables};
ghost use Rattle.tasks.specs.Inversion.{argument_equations, clause_parts, given_by, given_by_any};
ghost use Rattle.tasks.specs.Meaning.{trees_at};
ghost use Rattle.rules.specs.Meaning.{PairHeld};

use crate::is_end;
use tasks::typed_trees::{Types, is_instance};
use trees::store::Store;
use trees::{Node, Op, TermId};

// The sides of a formula of a connective.
fn sides(store: &Store, op: Op, e: TermId) -> Option<(TermId, TermId)>
    requires { Holds store.now e }
    ensures some { IfSome result (λ p. tree_at store.now e ≡ Two (HJoin op) (tree_at store.now p.0)
        (tree_at store.now p.1)) }
    ensures none { IfNone result ((a b : Tree) → tree_at store.now e ≡ Two (HJoin op) a b → ⊥) }
    ensures held { IfSome result (PairHeld store.now) }
{
    match store.node(e) {
        Node::Join(found, a, b) => { if found == op { Some((a, b)) } else { None } },
        _ => None,
    }
}

// Whether a tree is another one at types.
fn is_put(store: &Store, types: &[TermId], e: TermId, made: TermId) -> bool
    requires types_held { All (Holds store.now) types.now }
    requires e_held { Holds store.now e }
    requires held { Holds store.now made }
    ensures { IsTrue result ↔ (tree_at store.now made ≡ inst_types (tree_at store.now e)
        (trees_at store.now types.now)) }
{
    is_instance(store, e, Types::Given(types), made)
}

// Whether a tree is the variable of so many binders up, in two summands, of a type at types.
fn is_variable(
    store: &Store,
    types: &[TermId],
    under: usize,
    index: usize,
    ty: TermId,
    made: TermId,
) -> bool
    requires types_held { All (Holds store.now) types.now }
    requires ty_held { Holds store.now ty }
    requires held { Holds store.now made }
    ensures { IsTrue result ↔ (tree_at store.now made
        ≡ inst_types (Bound (under + index) (tree_at store.now ty))
        (trees_at store.now types.now)) }
{
    match store.node(made) {
        Node::Bound(found, known) => found >= index
            && found - index == under
            && is_put(store, types, ty, known),
        _ => false,
    }
}

// Whether a tree says at types that a variable equals an argument.
#[tactic(auto, using(crate::proofs::fact_rules::Putting::two_at))]
fn is_equation(
    store: &Store,
    types: &[TermId],
    under: usize,
    index: usize,
    ty: TermId,
    argument: TermId,
    made: TermId,
) -> bool
    requires types_held { All (Holds store.now) types.now }
    requires ty_held { Holds store.now ty }
    requires argument_held { Holds store.now argument }
    requires held { Holds store.now made }
    ensures { IsTrue result ↔ (tree_at store.now made
        ≡ inst_types (Two HEq (Bound (under + index) (tree_at store.now ty))
        (tree_at store.now argument)) (trees_at store.now types.now)) }
{
    match store.node(made) {
        Node::Eq(a, b) => is_variable(store, types, under, index, ty, a)
            && is_put(store, types, argument, b),
        _ => false,
    }
}

// Whether a tree is `true`.
fn is_true(store: &Store, made: TermId) -> bool
    requires { Holds store.now made }
    ensures { IsTrue result ↔ (tree_at store.now made ≡ Leaf HTrue) }
{
    match store.node(made) {
        Node::True => true,
        _ => false,
    }
}

// Whether there are no equations on a list of arguments.
fn no_equations(store: &Store, under: usize, args: &[TermId], list: TermId) -> bool
    requires list_held { Holds store.now list }
    ensures { IsTrue result ↔ (argument_equations under
        (bound_variables (trees_at store.now args.now)) (tree_at store.now list) ≡ []) }
{
    let _ = under;
    match args.split_first() {
        Some(_) => match store.node(list) {
            Node::Cell(_, _) => false,
            _ => true,
        },
        None => true,
    }
}

// Whether a tree is the conjunction of the equations on a list of arguments, at types.
fn are_equations(
    store: &Store,
    types: &[TermId],
    under: usize,
    args: &[TermId],
    list: TermId,
    made: TermId,
) -> bool
    requires types_held { All (Holds store.now) types.now }
    requires args_held { All (Holds store.now) args.now }
    requires list_held { Holds store.now list }
    requires held { Holds store.now made }
    ensures { IsTrue result ↔ (tree_at store.now made
        ≡ inst_types (conjunction (argument_equations under
        (bound_variables (trees_at store.now args.now)) (tree_at store.now list)))
        (trees_at store.now types.now)) }
{
    match args.split_first() {
        Some((ty, rest)) => match store.node(list) {
            Node::Cell(a, more) => {
                let index = rest.len();
                if no_equations(store, under, rest, more) {
                    return is_equation(store, types, under, index, *ty, a, made);
                }
                match sides(store, Op::And, made) {
                    Some((u, v)) => {
                        if !is_equation(store, types, under, index, *ty, a, u) {
                            return false;
                        }
                        are_equations(store, types, under, rest, more, v)
                    },
                    None => false,
                }
            },
            _ => is_true(store, made),
        },
        None => is_true(store, made),
    }
}

// Whether a clause has no premises and there are no equations on its conclusion's arguments.
fn no_parts(store: &Store, under: usize, args: &[TermId], clause: TermId) -> bool
    requires clause_held { Holds store.now clause }
    ensures { IsTrue result ↔ (clause_parts under (bound_variables (trees_at store.now args.now))
        (tree_at store.now clause) ≡ []) }
{
    match store.node(clause) {
        Node::Pred(_, _, list) => no_equations(store, under, args, list),
        Node::Join(op, _, _) => op != Op::Imp,
        _ => true,
    }
}

// Whether a tree is the conjunction of the premises of a clause and the equations on its conclusion's arguments, at types.
fn are_parts(
    store: &Store,
    types: &[TermId],
    under: usize,
    args: &[TermId],
    clause: TermId,
    made: TermId,
) -> bool
    requires types_held { All (Holds store.now) types.now }
    requires args_held { All (Holds store.now) args.now }
    requires clause_held { Holds store.now clause }
    requires held { Holds store.now made }
    ensures { IsTrue result ↔ (tree_at store.now made
        ≡ inst_types (conjunction (clause_parts under
        (bound_variables (trees_at store.now args.now)) (tree_at store.now clause)))
        (trees_at store.now types.now)) }
{
    match store.node(clause) {
        Node::Pred(_, _, list) => are_equations(store, types, under, args, list, made),
        Node::Join(connective, a, b) => {
            if connective != Op::Imp {
                return is_true(store, made);
            }
            if no_parts(store, under, args, b) {
                return is_put(store, types, a, made);
            }
            match sides(store, Op::And, made) {
                Some((u, v)) => {
                    if !is_put(store, types, a, u) {
                        return false;
                    }
                    are_parts(store, types, under, args, b, v)
                },
                None => false,
            }
        },
        _ => is_true(store, made),
    }
}

// Whether a tree says that a clause gives the predicate, at types.
fn is_given(
    store: &Store,
    types: &[TermId],
    under: usize,
    args: &[TermId],
    clause: TermId,
    made: TermId,
) -> bool
    requires types_held { All (Holds store.now) types.now }
    requires args_held { All (Holds store.now) args.now }
    requires clause_held { Holds store.now clause }
    requires held { Holds store.now made }
    requires small { under + clause.0 < 18446744073709551616 }
    ensures { IsTrue result ↔ (tree_at store.now made
        ≡ inst_types (given_by under (bound_variables (trees_at store.now args.now))
        (tree_at store.now clause)) (trees_at store.now types.now)) }
{
    match store.node(clause) {
        Node::Forall(ty, body) => match store.node(made) {
            Node::Exists(a, b) => {
                if !is_put(store, types, ty, a) {
                    return false;
                }
                is_given(store, types, under + 1, args, body, b)
            },
            _ => false,
        },
        _ => are_parts(store, types, under, args, clause, made),
    }
}

// Whether a tree says that a clause gives the predicate, under no binder, at types.
fn is_given_first(
    store: &Store,
    types: &[TermId],
    args: &[TermId],
    clause: TermId,
    made: TermId,
) -> bool
    requires types_held { All (Holds store.now) types.now }
    requires args_held { All (Holds store.now) args.now }
    requires clause_held { Holds store.now clause }
    requires held { Holds store.now made }
    ensures { IsTrue result ↔ (tree_at store.now made
        ≡ inst_types (given_by 0 (bound_variables (trees_at store.now args.now))
        (tree_at store.now clause)) (trees_at store.now types.now)) }
{
    let _number = clause.0;
    is_given(store, types, 0, args, clause, made)
}

// Whether a tree says that some clause gives the predicate, at types.
pub(crate) fn is_given_by_any(
    store: &Store,
    types: &[TermId],
    args: &[TermId],
    clauses: &[TermId],
    made: TermId,
) -> bool
    requires types_held { All (Holds store.now) types.now }
    requires args_held { All (Holds store.now) args.now }
    requires clauses_held { All (Holds store.now) clauses.now }
    requires held { Holds store.now made }
    ensures { IsTrue result ↔ (tree_at store.now made
        ≡ inst_types (given_by_any (bound_variables (trees_at store.now args.now))
        (trees_at store.now clauses.now)) (trees_at store.now types.now)) }
{
    match clauses.split_first() {
        Some((first, rest)) => {
            let clause = *first;
            if rest.is_empty() {
                return is_given_first(store, types, args, clause, made);
            }
            match sides(store, Op::Or, made) {
                Some((a, b)) => {
                    if !is_given_first(store, types, args, clause, a) {
                        return false;
                    }
                    is_given_by_any(store, types, args, rest, b)
                },
                None => false,
            }
        },
        None => match store.node(made) {
            Node::False => true,
            _ => false,
        },
    }
}

// Whether a list is these trees.
fn is_list(store: &Store, trees: &[TermId], list: TermId) -> bool
    requires trees_held { All (Holds store.now) trees.now }
    requires held { Holds store.now list }
    ensures { IsTrue result ↔ (tree_at store.now list ≡ cells (trees_at store.now trees.now)) }
{
    match trees.split_first() {
        Some((first, rest)) => match store.node(list) {
            Node::Cell(a, more) => store.same(a, *first) && is_list(store, rest, more),
            _ => false,
        },
        None => is_end(store, list),
    }
}

// Whether a list is a predicate's own type variables at these types: the types.
#[tactic(auto, using(crate::proofs::fact_rules::Putting::types_of_store))]
pub(crate) fn are_own_types(store: &Store, types: &[TermId], list: TermId) -> bool
    requires types_held { All (Holds store.now) types.now }
    requires held { Holds store.now list }
    ensures { IsTrue result ↔ (tree_at store.now list
        ≡ inst_types (cells (type_variables 0 (length types.now))) (trees_at store.now types.now)) }
{
    is_list(store, types, list)
}

// Whether a list is the variables of these types, the outermost first, at types.
#[tactic(auto, using(crate::proofs::fact_rules::Putting::two_at))]
pub(crate) fn are_variables(store: &Store, types: &[TermId], args: &[TermId], list: TermId) -> bool
    requires types_held { All (Holds store.now) types.now }
    requires args_held { All (Holds store.now) args.now }
    requires held { Holds store.now list }
    ensures { IsTrue result ↔ (tree_at store.now list
        ≡ inst_types (cells (bound_variables (trees_at store.now args.now)))
        (trees_at store.now types.now)) }
{
    match args.split_first() {
        Some((ty, rest)) => match store.node(list) {
            Node::Cell(a, more) => is_variable(store, types, 0, rest.len(), *ty, a)
                && are_variables(store, types, rest, more),
            _ => false,
        },
        None => is_end(store, list),
    }
}
