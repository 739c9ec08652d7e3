// The branches of a definition whose body is a `match` on one parameter by constructors.
// They depend on the store; what recursive definitions say depends on them.
ghost use Rattle.std.specs.Prelude.{◌≡◌, ◌==◌, nat_lt, List, Some, IfSome};
ghost use Rattle.std.specs.List.{list_all, list_any};
ghost use Rattle.std.specs.Option.{option_map, is_some};
ghost use Rattle.trees.specs.Node.{tree_at, Holds};
ghost use Rattle.tasks.specs.Typing.{members};
ghost use Rattle.checks.specs.decl_checks.Structure.{defining_body};
ghost use Rattle.tr_inline.specs.inlining.branch_equations.Branches.{ConstructorBranch, is_plain_field, constructor_branch, constructor_branches, if_different, matched_parameter, quantifiers, below_quantifiers};
ghost use Rattle.tr_recursion.specs.recursion_forms.Read.{constructor_branch_at, IsBranchHeld, matched_at, HasBranches};

use checks::recursive_groups::defining_body;
use trees::store::Store;
use trees::{Node, TermId};

/// A branch on a constructor, by numbers: the constructor, its types, the patterns of its fields, the type of the whole, and the body.
#[derive(Clone, Copy)]
pub(crate) struct Branch {
    pub symbol: usize,
    pub types: TermId,
    pub fields: TermId,
    pub ty: TermId,
    pub body: TermId,
}

/// The parameter that a body matches on, by the number of parameters after it, and the list of the branches.
#[derive(Clone, Copy)]
pub(crate) struct Matched {
    pub index: usize,
    pub arms: TermId,
}

// Whether patterns are variables and wildcards.
fn are_plain(store: &Store, fields: TermId) -> bool
    requires { Holds store.now fields }
    ensures { result ≡ list_all is_plain_field (members (tree_at store.now fields)) }
{
    match store.node(fields) {
        Node::Cell(first, rest) => match store.node(first) {
            Node::PatVar(_) | Node::PatAny(_) => are_plain(store, rest),
            _ => false,
        },
        _ => true,
    }
}

/// A branch, where its pattern is a constructor on variables and wildcards.
pub(crate) fn branch_of(store: &Store, arm: TermId) -> Option<Branch>
    requires { Holds store.now arm }
    ensures is { option_map (constructor_branch_at store.now) result
        ≡ constructor_branch (tree_at store.now arm) }
    ensures held { IfSome result (IsBranchHeld store.now) }
{
    let Node::Arm(pattern, body) = store.node(arm) else {
        return None;
    };
    match store.node(pattern) {
        Node::PatCon(symbol, types, fields, ty) => {
            if !are_plain(store, fields) {
                return None;
            }
            Some(Branch {
                symbol,
                types,
                fields,
                ty,
                body,
            })
        }
        _ => None,
    }
}

// Whether a constructor is that of a branch.
fn has_constructor(store: &Store, arms: TermId, symbol: usize) -> bool
    requires { Holds store.now arms }
    ensures { (bs : List ConstructorBranch)
        → constructor_branches (tree_at store.now arms) ≡ Some bs
        → result ≡ list_any (λ (x : ConstructorBranch). x.symbol == symbol) bs }
{
    match store.node(arms) {
        Node::Cell(first, rest) => match branch_of(store, first) {
            Some(branch) => branch.symbol == symbol || has_constructor(store, rest, symbol),
            None => false,
        },
        _ => false,
    }
}

// Whether all branches are on constructors, pairwise different.
fn are_branches(store: &Store, arms: TermId) -> bool
    requires { Holds store.now arms }
    ensures { result ≡ is_some (if_different (constructor_branches (tree_at store.now arms))) }
{
    match store.node(arms) {
        Node::Cell(first, rest) => match branch_of(store, first) {
            Some(branch) => {
                are_branches(store, rest) && !has_constructor(store, rest, branch.symbol)
            }
            None => false,
        },
        Node::End => true,
        _ => false,
    }
}

// Whether an equation has a parameter with so many after it.
fn has_parameter(store: &Store, equation: TermId, index: usize) -> bool
    requires { Holds store.now equation }
    ensures { result ≡ nat_lt index (quantifiers (tree_at store.now equation)) }
{
    match store.node(equation) {
        Node::Forall(_, inner) => index == 0 || has_parameter(store, inner, index - 1),
        _ => false,
    }
}

/// The parameter that a definition's body matches on, by its equation, with the branches.
pub(crate) fn matched_parameter(store: &Store, equation: TermId) -> Option<Matched>
    requires { Holds store.now equation }
    ensures is { option_map (matched_at store.now) result
        ≡ matched_parameter (quantifiers (tree_at store.now equation))
        (defining_body (tree_at store.now equation)) }
    ensures held { IfSome result (λ m. Holds store.now m.arms) }
    ensures branches { IfSome result (λ m. HasBranches (tree_at store.now m.arms)) }
{
    let body = defining_body(store, equation);
    let Node::Case(asked, arms) = store.node(body) else {
        return None;
    };
    match store.node(asked) {
        Node::Bound(index, _) => {
            if has_parameter(store, equation, index) && are_branches(store, arms) {
                Some(Matched { index, arms })
            } else {
                None
            }
        }
        _ => None,
    }
}

/// An equation below its quantifiers.
pub(crate) fn below_quantifiers(store: &Store, equation: TermId) -> TermId
    requires { Holds store.now equation }
    ensures held { Holds store.now result }
    ensures tree { tree_at store.now result ≡ below_quantifiers (tree_at store.now equation) }
{
    match store.node(equation) {
        Node::Forall(_, inner) => below_quantifiers(store, inner),
        _ => equation,
    }
}
