// The equations that define the members of a group.
ghost use Rattle.std.specs.Prelude.{◌≡◌, ◌++◌, List, map, All, IfOk, OnOk};
ghost use Rattle.tasks.specs.trees.declared.Sort.TheVariants.{Formula, Term};
ghost use Rattle.tasks.specs.trees.Node.{tree_at, Holds, Grows};
ghost use Rattle.tasks.specs.trees.Sorts.{sort_of, IsList};
ghost use Rattle.tasks.specs.declared.declaration.Def.{Def};
ghost use Rattle.tasks.specs.Meaning.{trees_at, definition_at};
ghost use Rattle.tasks.specs.Equations.{cells, bound_variables, for_all};
ghost use Rattle.open_types.specs.Drafts.{HoldsType};
ghost use Rattle.elab_groups.specs.members.Sources.{signed_at, SignedHeld};
ghost use Rattle.elab_groups.specs.Groups.{inner_equation, definitions};
ghost use Rattle.elab_groups.specs.Bodies.{IsBody, AreBodies};

use crate::members::Signed;
use crate::parts::variables;
use open_types::list_of;
use std::alloc::{AllocError, Global};
use tasks::{Def, Grow, Node, Op, Seq, Store, TermId};

// The list of the variables that parameters of these types bind, the outermost first.
fn parameters_list(store: &mut Store, args: &[TermId]) -> Result<TermId, AllocError>
    requires { All (HoldsType store.old) args.now }
    ensures held { IfOk result (Holds store.new) }
    ensures list { IfOk result (λ id. IsList Term (tree_at store.new id)) }
    ensures tree { IfOk result (λ id. tree_at store.new id ≡ cells
        (bound_variables (trees_at store.old args.now))) }
    ensures grows { Grows store.old store.new }
{
    let Some((first, rest)) = args.split_first() else {
        return store.add(Node::End);
    };
    let list = parameters_list(store, rest)?;
    let variable = store.add(Node::Bound(rest.len(), *first))?;
    store.add(Node::Cell(variable, list))
}

// A formula under a quantifier for each of these types, the first outermost.
fn quantify_formula(
    store: &mut Store,
    args: &[TermId],
    formula: TermId,
) -> Result<TermId, AllocError>
    requires args { All (HoldsType store.old) args.now }
    requires formula { Holds store.old formula }
    requires sort { sort_of (tree_at store.old formula) ≡ Formula }
    ensures held { IfOk result (Holds store.new) }
    ensures sort { IfOk result (λ id. sort_of (tree_at store.new id) ≡ Formula) }
    ensures tree { IfOk result (λ id. tree_at store.new id ≡ for_all (trees_at store.old args.now)
        (tree_at store.old formula)) }
    ensures grows { Grows store.old store.new }
{
    let Some((first, rest)) = args.split_first() else {
        return Ok(formula);
    };
    let inner = quantify_formula(store, rest, formula)?;
    store.add(Node::Forall(*first, inner))
}

// The symbol of a number at its own type variables and its parameters, with its body: an equation, or for a predicate an
// equivalence.
fn symbol_equation(
    alloc: Global,
    store: &mut Store,
    number: usize,
    signed: &Signed,
    body: TermId,
) -> Result<TermId, AllocError>
    requires signed { SignedHeld store.old signed.now }
    requires body { IsBody store.old signed.now.result body }
    ensures held { IfOk result (Holds store.new) }
    ensures sort { IfOk result (λ id. sort_of (tree_at store.new id) ≡ Formula) }
    ensures tree { IfOk result (λ id. tree_at store.new id ≡ inner_equation number
        (signed_at store.old signed.now) (signed_at store.old signed.now).result
        (tree_at store.old body)) }
    ensures grows { Grows store.old store.new }
{
    let own = variables(alloc, store, signed.vars.len())?;
    let types = list_of(store, own.as_slice())?;
    let list = parameters_list(store, signed.args.as_slice())?;
    match signed.result {
        Some(ty) => {
            let left = store.add(Node::Fun(number, types, list, ty))?;
            store.add(Node::Eq(left, body))
        }
        None => {
            let left = store.add(Node::Pred(number, types, list))?;
            store.add(Node::Join(Op::Iff, left, body))
        }
    }
}

// The equation of the symbol of a number with its signature and its body.
fn equation(
    alloc: Global,
    store: &mut Store,
    number: usize,
    signed: &Signed,
    body: TermId,
) -> Result<TermId, AllocError>
    requires signed { SignedHeld store.old signed.now }
    requires body { IsBody store.old signed.now.result body }
    ensures held { IfOk result (Holds store.new) }
    ensures tree { IfOk result (λ id. tree_at store.new id ≡ for_all
        (trees_at store.old signed.now.args) (inner_equation number (signed_at store.old signed.now)
        (signed_at store.old signed.now).result (tree_at store.old body))) }
    ensures grows { Grows store.old store.new }
{
    let formula = symbol_equation(alloc, store, number, signed, body)?;
    quantify_formula(store, signed.args.as_slice(), formula)
}

/// The equations of members with their bodies, the first of which has a number, after those that are there.
pub fn push_definitions(
    alloc: Global,
    store: &mut Store,
    defs: &mut Seq<Def>,
    number: usize,
    signed: &[Signed],
    bodies: &[TermId],
) -> Result<(), AllocError>
    requires held { All (λ (d : Def). Holds store.old d.equation) defs.old }
    requires signed { All (SignedHeld store.old) signed.now }
    requires bodies { AreBodies store.old signed.now bodies.now }
    ensures held { OnOk result (All (λ (d : Def). Holds store.new d.equation) defs.new) }
    ensures defined { OnOk result (map (definition_at store.new) defs.new ≡ map
        (definition_at store.old) defs.old ++ definitions number
        (map (signed_at store.old) signed.now) (trees_at store.old bodies.now)) }
    ensures grows { Grows store.old store.new }
{
    let Some((first, rest)) = signed.split_first() else {
        return Ok(());
    };
    let Some((body, others)) = bodies.split_first() else {
        return Ok(());
    };
    let equation = equation(alloc, store, number, first, *body)?;
    defs.push(Def {
        symbol: number,
        equation,
    })?;
    match number.checked_add(1) {
        Some(next) => push_definitions(alloc, store, defs, next, rest, others),
        None => Err(AllocError),
    }
}
