// The names of types and type variables in reading order.
// They depend on what names mean; the walk of an expression's names depends on them.
ghost use Rattle.std.specs.Prelude.{◌≡◌, List, Some, option_map};
ghost use Rattle.tasks.specs.trees.Tree.{Tree};
ghost use Rattle.name_resolution.specs.Abstract.{variable_type, type_expression_of, forms_of, bound_names_of, binders_of};
ghost use Rattle.scopes.specs.declared.Referent.TheVariants as stands;
ghost use Rattle.name_resolution.specs.Faults.{fault_if, meaning_fault, form_fault, forms_fault, type_fault, binders_fault};
ghost use Rattle.name_resolution.specs.Naming.{where_at, meaning_at, type_named, Tells, as_result};

use crate::NamingFault;
use crate::operators::own_name;
use crate::world::{World, variable_named};
use scopes::TypeName;
use std::alloc::Global;
use surface::{BinderTree, TypeNode, TypeTree};
use tasks::Text;

/// A fault, if a test says so.
pub fn refuse_if(test: bool, fault: NamingFault) -> Result<(), NamingFault>
    ensures { result ≡ as_result (fault_if test fault) }
{
    if test { Err(fault) } else { Ok(()) }
}

// An entry of so many type variables; a number without an entry counts as that of `int`.
fn check_type(
    world: &World<'_>,
    token: usize,
    symbol: usize,
    count: usize,
) -> Result<(), NamingFault>
    ensures { (s : List Tree) → Tells result (meaning_fault (where_at s world.now) token count (Some
        (stands.Entry symbol))) }
{
    match world.symbols.get(symbol) {
        Some(info) => refuse_if(info.vars != count, NamingFault::Arity { token }),
        None => refuse_if(count != 0, NamingFault::Arity { token }),
    }
}

// A type's name before so many arguments.
fn check_meaning(
    world: &World<'_>,
    token: usize,
    scopes: &[Text],
    name: &[u8],
    count: usize,
) -> Result<(), NamingFault>
    ensures { (s : List Tree) → Tells result (meaning_fault (where_at s world.now) token count
        (option_map (meaning_at s) (type_named world.now.scope.now scopes.now name.now))) }
{
    match world.type_named(scopes, name) {
        None => Err(NamingFault::Unknown { token }),
        Some(TypeName::Entry(symbol)) => check_type(world, token, symbol, count),
        Some(TypeName::Alias { vars, ty: _ }) => {
            refuse_if(vars != count, NamingFault::Arity { token })
        }
    }
}

// A type variable: one of the declaration, or a new one where such are allowed.
fn check_variable(world: &World<'_>, token: usize, name: &[u8]) -> Result<(), NamingFault>
    ensures { (s : List Tree) → Tells result (form_fault (where_at s world.now) world.now.new_vars
        (variable_type token name.now)) }
{
    if world.new_vars {
        return Ok(());
    }
    let missing = variable_named(world.vars, name).is_none();
    refuse_if(missing, NamingFault::Unknown { token })
}

/// The first fault of a type's names.
#[cycle(form_naming)]
pub fn check_form(alloc: Global, ty: &TypeTree, world: &World<'_>) -> Result<(), NamingFault>
    ensures { (s : List Tree) → Tells result (form_fault (where_at s world.now) world.now.new_vars
        (type_expression_of ty.now)) }
{
    match &ty.node {
        TypeNode::Var(name) => check_variable(world, ty.at.main, name.as_slice()),
        TypeNode::Named(name, args) => {
            let own = own_name(alloc, name.style, name.text.as_slice())?;
            let scopes = name.scopes.as_slice();
            check_meaning(world, ty.at.main, scopes, own.as_slice(), args.len())?;
            check_forms(alloc, args.as_slice(), world)
        }
        TypeNode::Group(parts) => check_forms(alloc, parts.as_slice(), world),
    }
}

#[cycle(form_naming)]
fn check_forms(alloc: Global, list: &[TypeTree], world: &World<'_>) -> Result<(), NamingFault>
    ensures { (s : List Tree) → Tells result (forms_fault (where_at s world.now) world.now.new_vars
        (forms_of list.now)) }
{
    for ty in list {
        check_form(alloc, ty, world)?;
    }
    Ok(())
}

// The first fault of a binder's type, where it has one.
fn check_binder(alloc: Global, binder: &BinderTree, world: &World<'_>) -> Result<(), NamingFault>
    ensures { (s : List Tree) → Tells result (type_fault (where_at s world.now) world.now.new_vars
        (bound_names_of binder.now).of_type) }
{
    match &binder.ty {
        Some(ty) => check_form(alloc, ty, world),
        None => Ok(()),
    }
}

/// The first fault of binders' types.
pub fn check_binders(
    alloc: Global,
    binders: &[BinderTree],
    world: &World<'_>,
) -> Result<(), NamingFault>
    ensures { (s : List Tree) → Tells result (binders_fault
        (where_at s world.now) world.now.new_vars (binders_of binders.now)) }
{
    for binder in binders {
        check_binder(alloc, binder, world)?;
    }
    Ok(())
}
