// From which equation each proposition of a recursive group comes.
// It depends on branches; the transformation of recursive groups depends on it.
ghost use Rattle.std.specs.Prelude.{◌≡◌, ℕ, List, Some, map, All};
ghost use Rattle.std.specs.List.{flat_map};
ghost use Rattle.trees.specs.Tree.{Tree};
ghost use Rattle.trees.specs.Node.{tree_at, Holds};
ghost use Rattle.tasks.specs.declared.declaration.Def.{Def};
ghost use Rattle.tasks.specs.Task.{SymbolTree, DefinitionTree};
ghost use Rattle.tasks.specs.Looking.{fact_name};
ghost use Rattle.tasks.specs.Meaning.{definition_at, definitions_at, declaration_at, DeclHeld};
ghost use Rattle.declarations.specs.Said.{IsFactSearch};
ghost use Rattle.declarations.specs.spelled_groups.Spelled.{spelling_said};
ghost use Rattle.tr_inline.specs.inlining.branch_equations.Branches.{ConstructorBranch, constructor_branches, branch_fact, member_facts, recursion_facts};

use crate::recursion_forms::branches::matched_parameter;
use checks::recursive_groups::is_recursive;
use declarations::{FactSearch, own_origin};
use tasks::{Body, Decl, Def, Fact};
use trees::store::Store;
use trees::{Node, TermId};

// Among the equations of branches of a definition of a symbol.
fn origin_in_branches(store: &Store, symbol: usize, arms: TermId, k: usize) -> FactSearch
    requires { Holds store.now arms }
    ensures { (symbols : List SymbolTree) (equation : Tree) (i : ℕ)
        (bs : List ConstructorBranch) → constructor_branches (tree_at store.now arms) ≡ Some bs
        → IsFactSearch (map fact_name (map (branch_fact symbols
        (record { symbol = symbol; equation = equation }) i) bs)) k result }
{
    match store.node(arms) {
        Node::Cell(_, rest) => {
            if k == 0 {
                FactSearch::Here(Fact::Equation(symbol))
            } else {
                origin_in_branches(store, symbol, rest, k - 1)
            }
        }
        _ => FactSearch::After(k),
    }
}

// Among what a definition says.
fn origin_in_member(store: &Store, def: &Def, k: usize) -> FactSearch
    requires { Holds store.now def.now.equation }
    ensures { (symbols : List SymbolTree) → IsFactSearch (map fact_name
        (member_facts symbols (definition_at store.now def.now))) k result }
{
    match matched_parameter(store, def.equation) {
        Some(matched) => origin_in_branches(store, def.symbol, matched.arms, k),
        None => {
            if k == 0 {
                FactSearch::Here(Fact::Equation(def.symbol))
            } else {
                FactSearch::After(k - 1)
            }
        }
    }
}

// Among what definitions say.
fn origin_in_members(store: &Store, defs: &[Def], k: usize) -> FactSearch
    requires { All (λ (d : Def). Holds store.now d.equation) defs.now }
    ensures { (symbols : List SymbolTree) → IsFactSearch (map fact_name
        (flat_map (member_facts symbols) (definitions_at store.now defs.now))) k result }
{
    match defs.split_first() {
        Some((first, rest)) => match origin_in_member(store, first, k) {
            FactSearch::Here(name) => FactSearch::Here(name),
            FactSearch::After(left) => origin_in_members(store, rest, left),
        },
        None => FactSearch::After(k),
    }
}

/// Where the k-th proposition from here on comes from, if it is one of the declaration's, where recursive groups are spelled out and
/// so many propositions of the old task are before the declaration.
pub fn recursions_origin(store: &Store, decl: &Decl, place: usize, k: usize) -> FactSearch
    requires { DeclHeld store.now decl.now }
    ensures { (symbols : List SymbolTree) → IsFactSearch (map fact_name
        (spelling_said recursion_facts symbols place (declaration_at store.now decl.now))) k
        result }
{
    match &decl.body {
        Body::Defs(defs) => {
            if is_recursive(store, defs.as_slice()) {
                return origin_in_members(store, defs.as_slice(), k);
            }
            FactSearch::After(k)
        }
        _ => own_origin(decl, place, k),
    }
}
