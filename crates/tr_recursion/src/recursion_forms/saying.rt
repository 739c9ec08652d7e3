// What recursive definitions say, made over a store.
// It depends on the equations of branches; spelling recursive groups out depends on it.
ghost use Rattle.std.specs.Prelude.{◌≡◌, ◌++◌, List, Some, [], ◌∷◌, map, All, IfOk, IfSome, OnOk};
ghost use Rattle.std.specs.List.{flat_map};
ghost use Rattle.std.specs.Option.{option_map};
ghost use Rattle.trees.specs.Node.{tree_at, trees_at, Holds, Grows};
ghost use Rattle.trees.specs.Sorts.{sort_of};
ghost use Rattle.trees.specs.binders.Visits.{HoldTypes};
ghost use Rattle.tasks.specs.Facts.{FactTree};
ghost use Rattle.tasks.specs.Meaning.{symbols_at, definition_at, definitions_at, body_at, SymbolHeld};
ghost use Rattle.declarations.specs.Stored.{IsValidIn};
ghost use Rattle.declarations.specs.spelled_groups.Stored.{facts_at, SaidHeld};
ghost use Rattle.tr_inline.specs.inlining.branch_equations.Branches.{ConstructorBranch, constructor_branches, below_quantifiers, HasSides, member_facts, recursion_facts};
ghost use Rattle.tr_recursion.specs.recursion_forms.Read.{constructor_branch_at, IsBranchHeld};
ghost use Rattle.tr_recursion.specs.recursion_forms.Made.{DefinitionIsFit};
ghost use Rattle.tr_recursion.specs.recursion_forms.Members.{member_branch_fact, MemberIsHeld, BranchesAreSided};

use crate::recursion_forms::branches::{Branch, branch_of, matched_parameter};
use crate::recursion_forms::equations::branch_equation;
use checks::recursive_groups::is_recursive;
use declarations::spelled_groups::Said;
use std::alloc::{AllocError, Global};
use tasks::{Body, Decl, Def, Fact, Signature};
use trees::store::{Grow, Store};
use trees::{Node, TermId};

/// A definition by numbers: its symbol with the number of type variables and the types of the arguments, its equation, and the
/// parameter that its body matches on, by the number of parameters after it.
#[derive(Clone, Copy)]
pub(crate) struct Member<'a> {
    pub symbol: usize,
    pub vars: usize,
    pub args: &'a [TermId],
    pub equation: TermId,
    pub index: usize,
}

// The equation of a branch, after others.
fn push_branch(
    alloc: Global,
    store: &mut Store,
    member: Member<'_>,
    branch: Branch,
    said: &mut Vec<Said>,
) -> Result<(), AllocError>
    requires member { MemberIsHeld store.old member }
    requires branch { IsBranchHeld store.old branch }
    requires fit { HasSides (sort_of (tree_at store.old branch.body))
        (below_quantifiers (tree_at store.old member.equation)) }
    requires said { All (SaidHeld store.old) said.old.items }
    ensures said { OnOk result (facts_at store.new said.new.items
        ≡ facts_at store.old said.old.items
        ++ member_branch_fact store.old member.entry
        (constructor_branch_at store.old branch) ∷ []) }
    ensures held { OnOk result (All (SaidHeld store.new) said.new.items) }
    ensures grows { Grows store.old store.new }
{
    let equation = member.equation;
    let formula = branch_equation(alloc, store, member.args, equation, member.index, branch)?;
    said.push(Said {
        name: Fact::Equation(member.symbol),
        vars: member.vars,
        formula,
    })?;
    Ok(())
}

// The equations of branches, after others.
fn push_branches(
    alloc: Global,
    store: &mut Store,
    member: Member<'_>,
    arms: TermId,
    said: &mut Vec<Said>,
) -> Result<(), AllocError>
    requires member { MemberIsHeld store.old member }
    requires arms { Holds store.old arms }
    requires branches { BranchesAreSided store.old member arms }
    requires said { All (SaidHeld store.old) said.old.items }
    ensures said { OnOk result ((bs : List ConstructorBranch)
        → constructor_branches (tree_at store.old arms) ≡ Some bs
        → facts_at store.new said.new.items ≡ facts_at store.old said.old.items
        ++ map (member_branch_fact store.old member.entry) bs) }
    ensures held { OnOk result (All (SaidHeld store.new) said.new.items) }
    ensures grows { Grows store.old store.new }
{
    match store.node(arms) {
        Node::Cell(first, rest) => {
            let Some(branch) = branch_of(store, first) else {
                unreachable!()
            };
            push_branch(alloc, store, member, branch, said)?;
            push_branches(alloc, store, member, rest, said)
        }
        _ => Ok(()),
    }
}

// What a definition says, after others.
fn push_member(
    alloc: Global,
    store: &mut Store,
    sig: &Signature,
    def: &Def,
    said: &mut Vec<Said>,
) -> Result<(), AllocError>
    requires fit { DefinitionIsFit store.old sig.now.symbols def.now }
    requires symbols { All (SymbolHeld store.old) sig.now.symbols }
    requires said { All (SaidHeld store.old) said.old.items }
    ensures said { OnOk result (facts_at store.new said.new.items
        ≡ facts_at store.old said.old.items ++ member_facts
        (symbols_at store.old sig.now.symbols) (definition_at store.old def.now)) }
    ensures held { OnOk result (All (SaidHeld store.new) said.new.items) }
    ensures grows { Grows store.old store.new }
{
    let Some(info) = sig.symbols.get(def.symbol) else {
        unreachable!()
    };
    match matched_parameter(store, def.equation) {
        Some(matched) => {
            let member = Member {
                symbol: def.symbol,
                vars: info.vars,
                args: info.args.as_slice(),
                equation: def.equation,
                index: matched.index,
            };
            push_branches(alloc, store, member, matched.arms, said)
        }
        None => {
            said.push(Said {
                name: Fact::Equation(def.symbol),
                vars: info.vars,
                formula: def.equation,
            })?;
            Ok(())
        }
    }
}

// What definitions say, after others.
fn push_members(
    alloc: Global,
    store: &mut Store,
    sig: &Signature,
    defs: &[Def],
    said: &mut Vec<Said>,
) -> Result<(), AllocError>
    requires fit { All (DefinitionIsFit store.old sig.now.symbols) defs.now }
    requires symbols { All (SymbolHeld store.old) sig.now.symbols }
    requires said { All (SaidHeld store.old) said.old.items }
    ensures said { OnOk result (facts_at store.new said.new.items
        ≡ facts_at store.old said.old.items ++ flat_map
        (member_facts (symbols_at store.old sig.now.symbols))
        (definitions_at store.old defs.now)) }
    ensures held { OnOk result (All (SaidHeld store.new) said.new.items) }
    ensures grows { Grows store.old store.new }
{
    match defs.split_first() {
        Some((first, rest)) => {
            push_member(alloc, store, sig, first, said)?;
            push_members(alloc, store, sig, rest, said)
        }
        None => Ok(()),
    }
}

/// What a recursive group of definitions says: the equation of each member, or those of its branches; none of another declaration.
pub fn recursions_said(
    alloc: Global,
    store: &mut Store,
    sig: &Signature,
    decl: &Decl,
) -> Result<Option<Vec<Said>>, AllocError>
    requires valid { IsValidIn store.old sig.now.symbols decl.now }
    ensures said { IfOk result (λ o. option_map (λ v. facts_at store.new v.items) o
        ≡ recursion_facts (symbols_at store.old sig.now.symbols)
        (body_at store.old decl.now.body)) }
    ensures held { IfOk result (λ o. IfSome o (λ v. All (SaidHeld store.new) v.items)) }
    ensures grows { Grows store.old store.new }
{
    match &decl.body {
        Body::Defs(defs) => {
            if !is_recursive(store, defs.as_slice()) {
                return Ok(None);
            }
            let mut said = Vec::new(alloc);
            push_members(alloc, store, sig, defs.as_slice(), &mut said)?;
            Ok(Some(said))
        }
        _ => Ok(None),
    }
}
