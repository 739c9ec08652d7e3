// What is wanted of a trigger.
// It depends on the heads of triggers, on variables and on drafts; the walk depends on it.
ghost use Rattle.std.specs.Prelude.{◌≡◌, List, IfOk, IfSome, OnOk, length, option_map};
ghost use Rattle.trees.specs.Tree.{Tree};
ghost use Rattle.trees.specs.Node.{tree_at, Grows};
ghost use Rattle.name_resolution.specs.Abstract.{expression_of};
ghost use Rattle.name_resolution.specs.Faults.{trigger_named, is_formula_head, is_formula_trigger};
ghost use Rattle.name_resolution.specs.Naming.{where_at, head_at};
ghost use Rattle.open_types.specs.Pieces.{trigger_wanted, trigger_taken};
ghost use Rattle.open_types.specs.Drafts.{HoldsType, locals_at, names_of_locals, is_due, IsReady, IsNoted};

use crate::draft::{Constraints, new_unknown};
use crate::locals::{Locals, local_named};
use name_resolution::{TriggerHead, World, names_predicate, own_name, prefix_operator, trigger_of};
use scopes::Text;
use std::alloc::{AllocError, Global};
use surface::Expr;
use trees::store::{Store, TermId};

// Whether a name is that of a predicate, which no variable hides.
fn is_formula_name(
    world: &World<'_>,
    locals: &Locals<'_>,
    scopes: &[Text],
    name: &[u8],
) -> Result<bool, AllocError>
    ensures { IfOk result (λ yes. (s : List Tree) → yes ≡ is_formula_head (where_at s world.now)
        (names_of_locals locals.now) (trigger_named scopes.now name.now)) }
{
    match local_named(locals, scopes, name)? {
        Some(_) => Ok(false),
        None => Ok(names_predicate(world, scopes, name)),
    }
}

// Whether a trigger with this head is a formula.
fn is_formula_head(
    alloc: Global,
    head: TriggerHead<'_>,
    world: &World<'_>,
    locals: &Locals<'_>,
) -> Result<bool, AllocError>
    ensures { IfOk result (λ yes. (s : List Tree) → yes ≡ is_formula_head (where_at s world.now)
        (names_of_locals locals.now) (head_at head.entry)) }
{
    match head {
        TriggerHead::Name(name) => {
            let own = own_name(alloc, name.style, name.text.as_slice())?;
            is_formula_name(world, locals, name.scopes.as_slice(), own.as_slice())
        }
        TriggerHead::Prefix(op) => {
            let own = prefix_operator(alloc, op)?;
            is_formula_name(world, locals, &[], own.as_slice())
        }
        TriggerHead::Infix(name) => is_formula_name(world, locals, &[], name),
        TriggerHead::Equality(same) => Ok(same),
        TriggerHead::Other => Ok(false),
    }
}

/// The type that is wanted of a trigger: an unknown that it takes, where it is a term.
pub fn trigger_type(
    alloc: Global,
    store: &mut Store,
    draft: &mut Constraints,
    e: &Expr,
    world: &World<'_>,
    locals: &Locals<'_>,
) -> Result<Option<TermId>, AllocError>
    requires ready { IsReady store.old draft.old }
    ensures due { IfOk result (λ wanted. is_due wanted ≡ is_formula_trigger (where_at store.old
        world.now) (names_of_locals locals.now) (expression_of e.now)) }
    ensures held { IfOk result (λ wanted. IfSome wanted (HoldsType store.new)) }
    ensures wanted { IfOk result (λ wanted. option_map (tree_at store.new) wanted ≡ trigger_wanted
        (where_at store.old world.now) (locals_at store.old locals.now) (length draft.old.takers)
        (expression_of e.now)) }
    ensures noted { OnOk result (IsNoted store.old draft.old store.new draft.new (trigger_taken
        (where_at store.old world.now) (locals_at store.old locals.now) (expression_of e.now))) }
    ensures grows { Grows store.old store.new }
{
    let found = trigger_of(e);
    if is_formula_head(alloc, found.head, world, locals)? {
        return Ok(None);
    }
    let ty = new_unknown(store, draft, found.token)?;
    Ok(Some(ty))
}
