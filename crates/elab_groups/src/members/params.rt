// The parameters of functions and predicates: their names, their types, and what is seen in them.
ghost use Rattle.std.specs.Prelude.{◌≡◌, ◌++◌, List, map, true, All, IfOk, OnOk};
ghost use Rattle.std.specs.Option.{option_copied};
ghost use Rattle.trees.specs.Tree.{Tree};
ghost use Rattle.trees.specs.Node.{tree_at, Grows};
ghost use Rattle.tasks.specs.Meaning.{trees_at};
ghost use Rattle.name_resolution.specs.Naming.{where_at, Tells};
ghost use Rattle.name_resolution.specs.variables.Entered.{seen_at};
ghost use Rattle.open_types.specs.Drafts.{HoldsType, WorldHeld};
ghost use Rattle.elab_groups.specs.parts.Declarations.{word, names_of_parameters, params_seen, params_fault};
ghost use Rattle.elab_groups.specs.parts.Written.{written_token_name};
ghost use Rattle.elab_groups.specs.members.Members.{signature_seen, type_copies, parameter_types, symbol_kind_of};
ghost use Rattle.elab_groups.specs.members.Sources.{parameters_of, result_form};

use crate::parts::{NamedToken, gather};
use name_resolution::variables::{Seen, enter_form};
use name_resolution::{NamingFault, World, check_form};
use open_types::type_of_form;
use scopes::Seq;
use std::alloc::{AllocError, Global};
use surface::{Name, ParamTree, TypeTree};
use tasks::SymbolKind;
use trees::store::{Store, TermId};

/// The first fault of the names of the types of parameters, or of fields.
pub fn check_params(
    alloc: Global,
    params: &[ParamTree],
    world: &World<'_>,
) -> Result<(), NamingFault>
    ensures { (s : List Tree) → Tells result (params_fault (where_at s world.now) world.now.new_vars
        (parameters_of params.now)) }
{
    let Some((first, rest)) = params.split_first() else {
        return Ok(());
    };
    check_form(alloc, &first.ty, world)?;
    check_params(alloc, rest, world)
}

/// The type variables and tuples of parameters, after those that are there.
pub fn enter_params(alloc: Global, seen: &mut Seen, params: &[ParamTree]) -> Result<(), AllocError>
    ensures { OnOk result (seen_at seen.new ≡ params_seen (seen_at seen.old)
        (parameters_of params.now)) }
{
    let Some((first, rest)) = params.split_first() else {
        return Ok(());
    };
    enter_form(alloc, seen, &first.ty)?;
    enter_params(alloc, seen, rest)
}

/// Those of a signature.
pub fn signature_seen(
    alloc: Global,
    params: &[ParamTree],
    of_type: Option<&TypeTree>,
) -> Result<Seen, AllocError>
    ensures { IfOk result (λ seen. seen_at seen ≡ signature_seen (parameters_of params.now)
        (result_form (option_copied of_type.entry))) }
{
    let mut seen = Seen {
        vars: Seq::new(alloc),
        widths: Seq::new(alloc),
    };
    enter_params(alloc, &mut seen, params)?;
    if let Some(ty) = of_type {
        enter_form(alloc, &mut seen, ty)?;
    }
    Ok(seen)
}

// A type for each name of a parameter, or once for none, after those that are there.
fn push_copies(types: &mut Vec<TermId>, ty: TermId, names: &[Name]) -> Result<(), AllocError>
    ensures trees { OnOk result ((s : List Tree) → trees_at s types.new.items ≡ trees_at s
        types.old.items ++ type_copies (tree_at s ty) (map word names.now)) }
    ensures held { OnOk result ((s : List Tree) → HoldsType s ty → All (HoldsType s) types.old.items
        → All (HoldsType s) types.new.items) }
{
    types.push(ty)?;
    match names.split_first() {
        None => Ok(()),
        Some((_, rest)) => {
            if rest.is_empty() {
                Ok(())
            } else {
                push_copies(types, ty, rest)
            }
        }
    }
}

/// The types of parameters, or of fields, after those that are there.
pub fn push_params(
    alloc: Global,
    store: &mut Store,
    types: &mut Vec<TermId>,
    params: &[ParamTree],
    world: &World<'_>,
) -> Result<(), AllocError>
    requires world { WorldHeld store.old world.now }
    requires held { All (HoldsType store.old) types.old.items }
    ensures held { OnOk result (All (HoldsType store.new) types.new.items) }
    ensures types { OnOk result (trees_at store.new types.new.items ≡ trees_at store.old
        types.old.items ++ parameter_types (where_at store.old world.now)
        (parameters_of params.now)) }
    ensures grows { Grows store.old store.new }
{
    let Some((first, rest)) = params.split_first() else {
        return Ok(());
    };
    let ty = type_of_form(alloc, store, world, &first.ty)?;
    push_copies(types, ty, first.names.as_slice())?;
    push_params(alloc, store, types, rest, world)
}

/// What a symbol is: a function where it has a result.
pub fn kind_of(of_type: Option<&TypeTree>) -> SymbolKind
    ensures { result ≡ symbol_kind_of (result_form (option_copied of_type.entry)) }
{
    match of_type {
        Some(_) => SymbolKind::Function,
        None => SymbolKind::Predicate,
    }
}

/// The names of parameters, after those that are there.
pub fn gather_params<'a>(
    list: &mut Vec<NamedToken<'a>>,
    params: &'a [ParamTree],
) -> Result<(), AllocError>
    ensures { OnOk result (map written_token_name list.new.items
        ≡ map written_token_name list.old.items ++ names_of_parameters
        (parameters_of params.now)) }
{
    let Some((first, rest)) = params.split_first() else {
        return Ok(());
    };
    gather(list, first.names.as_slice())?;
    gather_params(list, rest)
}
