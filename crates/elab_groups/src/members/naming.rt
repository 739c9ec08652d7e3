// The names that members make, and the first fault of those that they use.
ghost use Rattle.std.specs.Prelude.{◌≡◌, ◌++◌, ℕ, true, false, List, map, OnOk};
ghost use Rattle.trees.specs.Tree.{Tree};
ghost use Rattle.scopes.specs.Names.{with_name};
ghost use Rattle.scopes.specs.declared.Referent.TheVariants as stands;
ghost use Rattle.name_resolution.specs.Naming.{where_at, Tells};
ghost use Rattle.open_types.specs.Drafts.{WorldHeld};
ghost use Rattle.elab_groups.specs.parts.Declarations.{token_name, word, words, own_variables, with_vars};
ghost use Rattle.elab_groups.specs.parts.Outcomes.{declared_in};
ghost use Rattle.elab_groups.specs.members.Members.{words_of_parameters, with_members, member_made, members_made, body_fault, member_fault, members_fault};
ghost use Rattle.elab_groups.specs.members.Sources.{parameters_of, member_at, members_at};

use crate::members::params::{check_params, gather_params, signature_seen};
use crate::members::sources::MemberSource;
use crate::parts::{declare, find_repeated};
use name_resolution::{Names, NamingFault, World, check, check_form, own_name, variable_named};
use scopes::{Scope, Table, Text, TypeName};
use std::alloc::{AllocError, Global};
use surface::{Name, ParamTree};

// Names, after those that are there.
fn push_names(alloc: Global, list: &mut Vec<Text>, names: &[Name]) -> Result<(), AllocError>
    ensures { OnOk result (list.new.items ≡ list.old.items ++ words (map word names.now)) }
{
    let Some((first, rest)) = names.split_first() else {
        return Ok(());
    };
    list.push(Text::from_slice(alloc, first.text.as_slice())?)?;
    push_names(alloc, list, rest)
}

/// The names of parameters in order, an empty one for a parameter without, after those that are there.
pub fn push_param_names(
    alloc: Global,
    list: &mut Vec<Text>,
    params: &[ParamTree],
) -> Result<(), AllocError>
    ensures { OnOk result (list.new.items ≡ list.old.items
        ++ words_of_parameters (parameters_of params.now)) }
{
    let Some((first, rest)) = params.split_first() else {
        return Ok(());
    };
    if first.names.is_empty() {
        list.push(Text::from_vec(Vec::new(alloc)))?;
    } else {
        push_names(alloc, list, first.names.as_slice())?;
    }
    push_param_names(alloc, list, rest)
}

/// What names mean with these type variables and no others.
pub fn over_vars<'a>(world: &World<'a>, vars: &'a [Text]) -> World<'a>
    ensures names { (s : List Tree) → where_at s result
        ≡ with_vars (where_at s world.now) vars.now }
    ensures closed { result.new_vars ≡ false }
    ensures held { (s : List Tree) → WorldHeld s world.now → WorldHeld s result }
{
    World {
        symbols: world.symbols,
        scope: world.scope,
        vars,
        new_vars: false,
    }
}

// The first fault of a member's body, where it has one.
fn check_body(alloc: Global, world: &World<'_>, m: &MemberSource<'_>) -> Result<(), NamingFault>
    ensures { (s : List Tree) → Tells result (body_fault (where_at s world.now) (member_at m.now)
        (own_variables (member_at m.now)) (member_at m.now).body) }
{
    let Some(e) = m.body else {
        return Ok(());
    };
    let vars = signature_seen(alloc, m.params, m.result)?.vars;
    let mut names = Vec::new(alloc);
    push_param_names(alloc, &mut names, m.params)?;
    let own = over_vars(world, vars.as_slice());
    let inside = Names::Among(names.as_slice(), &Names::Outside);
    check(alloc, e, &own, &inside, m.result.is_none())
}

// The first fault of the names that a member uses.
fn check_member(alloc: Global, world: &World<'_>, m: &MemberSource<'_>) -> Result<(), NamingFault>
    requires { world.now.new_vars ≡ true }
    ensures { (s : List Tree) → Tells result (member_fault (where_at s world.now)
        (member_at m.now)) }
{
    check_params(alloc, m.params, world)?;
    if let Some(ty) = m.result {
        check_form(alloc, ty, world)?;
    }
    check_body(alloc, world, m)
}

/// The first fault of the names that members use.
pub fn check_members(
    alloc: Global,
    world: &World<'_>,
    members: &[MemberSource<'_>],
) -> Result<(), NamingFault>
    requires { world.now.new_vars ≡ true }
    ensures { (s : List Tree) → Tells result (members_fault (where_at s world.now)
        (members_at members.now)) }
{
    let Some((first, rest)) = members.split_first() else {
        return Ok(());
    };
    check_member(alloc, world, first)?;
    check_members(alloc, world, rest)
}

/// The names that a member makes: its own, which neither the scope nor an earlier member has, and those of its parameters.
pub fn declare_member(
    alloc: Global,
    scope: &mut Scope,
    before: &[Text],
    own: &[u8],
    m: &MemberSource<'_>,
    number: usize,
) -> Result<(), NamingFault>
    ensures ok { OnOk result (scope.new ≡ with_name Table.Symbols own.now (stands.Entry number)
        true scope.old) }
    ensures told { Tells result (member_made (declared_in scope.old Table.Symbols) before.now
        (token_name m.now.name.now.at own.now) (parameters_of m.now.params.now)) }
{
    if variable_named(before, own).is_some() {
        return Err(NamingFault::Duplicate { token: m.name.at });
    }
    let thing = TypeName::Entry(number);
    declare(scope, Table::Symbols, own, thing, m.name.at)?;
    let mut list = Vec::new(alloc);
    gather_params(&mut list, m.params)?;
    match find_repeated(list.as_slice()) {
        Some(token) => Err(NamingFault::Duplicate { token }),
        None => Ok(()),
    }
}

/// The names that members make, which stand for the entries from a number on; `before` has the names of those before them.
pub fn declare_members(
    alloc: Global,
    scope: &mut Scope,
    before: &mut Vec<Text>,
    members: &[MemberSource<'_>],
    number: usize,
) -> Result<(), NamingFault>
    ensures ok { OnOk result (scope.new ≡ with_members number (members_at members.now) scope.old) }
    ensures told { Tells result (members_made (declared_in scope.old Table.Symbols) before.old.items
        (members_at members.now)) }
{
    let Some((first, rest)) = members.split_first() else {
        return Ok(());
    };
    let own = own_name(alloc, first.name.style, first.name.text.as_slice())?;
    declare_member(
        alloc,
        scope,
        before.as_slice(),
        own.as_slice(),
        first,
        number,
    )?;
    before.push(own)?;
    match number.checked_add(1) {
        Some(next) => declare_members(alloc, scope, before, rest, next),
        None => Err(NamingFault::Memory),
    }
}
