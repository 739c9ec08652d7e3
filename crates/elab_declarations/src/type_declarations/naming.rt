// The names that a group of algebraic types makes.
ghost use Rattle.std.specs.Prelude.{◌≡◌, ◌+◌, ◌++◌, ◌∷◌, [], ◌<◌, ◌^◌, length, map, true, IfOk, IfErr, OnOk};
ghost use Rattle.scopes.specs.Names.{with_entry};
ghost use Rattle.name_resolution.specs.Naming.{Tells};
ghost use Rattle.elab_groups.specs.parts.Declarations.{word, words, names_of_parameters, list_fault};
ghost use Rattle.elab_groups.specs.members.Members.{parameter_words};
ghost use Rattle.elab_groups.specs.members.Sources.{parameters_of};
ghost use Rattle.elab_groups.specs.parts.Outcomes.{declared_in};
ghost use Rattle.elab_declarations.specs.NewNames.{indexed_names, name_made};
ghost use Rattle.elab_declarations.specs.type_declarations.Algebraics.{constructors_in, constructors_of, algebraics_of, count_fields, entry_count, group_count, numbered_names, numbered_fields, with_numbered, with_constructors, with_types, symbols_made, constructor_words, constructors_made, types_made};

use crate::new_names::declare_new;
use elab_groups::parts::{find_repeated, gather};
use indexmap::IndexSet;
use name_resolution::NamingFault;
use scopes::{Scope, Table};
use std::alloc::Global;
use surface::{AlgTree, ConTree, Name, ParamTree};

// The name of a type or of a constructor.
fn declare_name(
    scope: &mut Scope,
    table: Table,
    before: &mut IndexSet<Vec<u8>>,
    name: &Name,
    number: usize,
) -> Result<(), NamingFault>
    ensures scope { OnOk result (scope.new ≡ with_entry table name.now.text number true scope.old) }
    ensures before { OnOk result (indexed_names before.new ≡ indexed_names before.old
        ++ name.now.text ∷ []) }
    ensures told { Tells result (name_made (declared_in scope.old table name.now.text)
        (indexed_names before.old) (word name.now)) }
{
    let own = name.text.clone()?;
    declare_new(scope, table, before, own, name.at, number)
}

// The next number.
fn number_after(number: usize) -> Result<usize, NamingFault>
    ensures next { IfOk result (λ next. next ≡ number + 1) }
    ensures err { IfErr result (λ fault. fault ≡ NamingFault.Memory) }
{
    match number.checked_add(1) {
        Some(next) => Ok(next),
        None => Err(NamingFault::Memory),
    }
}

// Names of symbols, which stand for the entries from a number on.
fn declare_symbols(
    scope: &mut Scope,
    before: &mut IndexSet<Vec<u8>>,
    number: &mut usize,
    names: &[Name],
) -> Result<(), NamingFault>
    ensures scope { OnOk result (scope.new ≡ with_numbered (numbered_names number.old (map word
        names.now)) scope.old) }
    ensures before { OnOk result (indexed_names before.new ≡ indexed_names before.old
        ++ words (map word names.now)) }
    ensures number { OnOk result (number.new ≡ number.old + length names.now) }
    ensures told { Tells result (symbols_made (declared_in scope.old Table.Symbols)
        (indexed_names before.old) (map word names.now)) }
{
    let Some((first, rest)) = names.split_first() else {
        return Ok(());
    };
    declare_name(scope, Table::Symbols, before, first, *number)?;
    *number = number_after(*number)?;
    declare_symbols(scope, before, number, rest)
}

// The names of fields of one type, or of one field without a name.
fn declare_parameter(
    scope: &mut Scope,
    before: &mut IndexSet<Vec<u8>>,
    number: &mut usize,
    names: &[Name],
) -> Result<(), NamingFault>
    ensures scope { OnOk result (scope.new ≡ with_numbered (numbered_names number.old (map word
        names.now)) scope.old) }
    ensures before { OnOk result (indexed_names before.new ≡ indexed_names before.old
        ++ words (map word names.now)) }
    ensures number { OnOk result (number.new ≡ number.old + length (parameter_words (map word
        names.now))) }
    ensures told { Tells result (symbols_made (declared_in scope.old Table.Symbols)
        (indexed_names before.old) (map word names.now)) }
{
    if let [_, ..] = names {
        return declare_symbols(scope, before, number, names);
    }
    *number = number_after(*number)?;
    Ok(())
}

// The names of fields, which stand for the entries from a number on.
fn declare_fields(
    scope: &mut Scope,
    before: &mut IndexSet<Vec<u8>>,
    number: &mut usize,
    fields: &[ParamTree],
) -> Result<(), NamingFault>
    ensures scope { OnOk result (scope.new ≡ with_numbered (numbered_fields number.old
        (parameters_of fields.now)) scope.old) }
    ensures before { OnOk result (indexed_names before.new ≡ indexed_names before.old
        ++ words (names_of_parameters (parameters_of fields.now))) }
    ensures number { OnOk result (number.new ≡ number.old + count_fields (parameters_of
        fields.now)) }
    ensures told { Tells result (symbols_made (declared_in scope.old Table.Symbols)
        (indexed_names before.old) (names_of_parameters (parameters_of fields.now))) }
{
    let Some((first, rest)) = fields.split_first() else {
        return Ok(());
    };
    declare_parameter(scope, before, number, first.names.as_slice())?;
    declare_fields(scope, before, number, rest)
}

// The names of constructors, each before those of its fields, which stand for the entries from a number on.
fn declare_constructors(
    scope: &mut Scope,
    before: &mut IndexSet<Vec<u8>>,
    number: &mut usize,
    cons: &[ConTree],
) -> Result<(), NamingFault>
    ensures scope { OnOk result (scope.new ≡ with_constructors number.old (constructors_of cons.now)
        scope.old) }
    ensures before { OnOk result (indexed_names before.new ≡ indexed_names before.old
        ++ constructor_words (constructors_of cons.now)) }
    ensures number { OnOk result (number.new ≡ number.old + entry_count (constructors_of
        cons.now)) }
    ensures told { Tells result (constructors_made (declared_in scope.old Table.Symbols)
        (indexed_names before.old) (constructors_of cons.now)) }
{
    let Some((first, rest)) = cons.split_first() else {
        return Ok(());
    };
    declare_name(scope, Table::Symbols, before, &first.name, *number)?;
    *number = number_after(*number)?;
    declare_fields(scope, before, number, first.fields.as_slice())?;
    declare_constructors(scope, before, number, rest)
}

// The names of the constructors of a type with those of their fields; the constructor of a record has none.
fn declare_alternatives(
    scope: &mut Scope,
    before: &mut IndexSet<Vec<u8>>,
    number: &mut usize,
    of: &AlgTree,
) -> Result<(), NamingFault>
    ensures scope { OnOk result (scope.new ≡ with_constructors number.old (constructors_in of.now)
        scope.old) }
    ensures before { OnOk result (indexed_names before.new ≡ indexed_names before.old
        ++ constructor_words (constructors_in of.now)) }
    ensures number { OnOk result (number.new ≡ number.old + entry_count (constructors_in of.now)) }
    ensures told { Tells result (constructors_made (declared_in scope.old Table.Symbols)
        (indexed_names before.old) (constructors_in of.now)) }
{
    let fields = of.fields.as_slice();
    if let [_, ..] = fields {
        *number = number_after(*number)?;
        return declare_fields(scope, before, number, fields);
    }
    declare_constructors(scope, before, number, of.cons.as_slice())
}

// A type variable that occurs twice among those of a type.
fn check_variables(alloc: Global, vars: &[Name]) -> Result<(), NamingFault>
    ensures { Tells result (list_fault [] (map word vars.now)) }
{
    let mut list = Vec::new(alloc);
    gather(&mut list, vars)?;
    match find_repeated(list.as_slice()) {
        Some(token) => Err(NamingFault::Duplicate { token }),
        None => Ok(()),
    }
}

/// The names that a group made before.
#[derive(Drop)]
pub struct Before {
    pub types: IndexSet<Vec<u8>>,
    pub constructors: IndexSet<Vec<u8>>,
}

/// The names of types, of their constructors and of the fields of these: the types stand for the entries from a number on, the
/// constructors, each before its fields, for those from another.
pub fn declare_types(
    alloc: Global,
    scope: &mut Scope,
    before: &mut Before,
    symbol: usize,
    number: &mut usize,
    types: &[AlgTree],
) -> Result<(), NamingFault>
    requires { symbol + length types.now < 2 ^ 64 }
    ensures scope { OnOk result (scope.new ≡ with_types symbol number.old (algebraics_of types.now)
        scope.old) }
    ensures number { OnOk result (number.new ≡ number.old + group_count (algebraics_of types.now)) }
    ensures told { Tells result (types_made (declared_in scope.old) (indexed_names before.old.types)
        (indexed_names before.old.constructors) (algebraics_of types.now)) }
{
    let Some((first, rest)) = types.split_first() else {
        return Ok(());
    };
    declare_name(scope, Table::Types, &mut before.types, &first.name, symbol)?;
    check_variables(alloc, first.vars.as_slice())?;
    declare_alternatives(scope, &mut before.constructors, number, first)?;
    declare_types(alloc, scope, before, symbol + 1, number, rest)
}
