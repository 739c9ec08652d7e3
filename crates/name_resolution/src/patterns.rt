// The names of patterns in reading order: constructors before so many parts, and variables, each of which occurs once in a
// pattern.
// They depend on what names mean and on operators; the walk of an expression's names depends on them.
ghost use Rattle.std.specs.Prelude.{◌≡◌, List, [], ◌∷◌, ◌++◌, not, OnOk};
ghost use Rattle.std.specs.Option.{is_some};
ghost use Rattle.tasks.specs.trees.Tree.{Tree};
ghost use Rattle.tasks.specs.Meaning.{symbol_at};
ghost use Rattle.name_resolution.specs.Abstract.{more_alternatives, abstract_pattern_of, patterns_of, field_patterns_of, first_form, side_by_side, alternatives_of};
ghost use Rattle.name_resolution.specs.Where.{place_of};
ghost use Rattle.name_resolution.specs.Faults.{fault_if, first_of, constructor_entry_fault, constructor_fault, pattern_fault, patterns_fault, pattern_names, patterns_names, all_among, same_names, later_fault, alternatives_fault};
ghost use Rattle.name_resolution.specs.declared.NamingFault.TheVariants.{Duplicate, WrongKind};
ghost use Rattle.name_resolution.specs.Naming.{Tells, where_at, symbol_named};
ghost use Rattle.surface.specs.Surface as code;

use crate::NamingFault;
use crate::operators::own_name;
use crate::records::{Fields, check_record};
use crate::type_names::refuse_if;
use crate::world::{World, variable_named};
use std::alloc::{AllocError, Global};
use surface::{FieldPat, Pat, PatNode};
use tasks::{Seq, SymbolInfo, Text, is_constructor_kind};

// An entry in the place of a constructor of so many parts.
fn check_constructor_entry(token: usize, count: usize, info: &SymbolInfo) -> Result<(), NamingFault>
    ensures { (s : List Tree) → Tells result (constructor_entry_fault token count
        (symbol_at s info.now)) }
{
    refuse_if(
        !is_constructor_kind(info.kind),
        NamingFault::WrongKind { token },
    )?;
    refuse_if(info.args.len() != count, NamingFault::Arity { token })
}

// A constructor's name before so many parts.
fn check_constructor(
    world: &World<'_>,
    token: usize,
    scopes: &[Text],
    name: &[u8],
    count: usize,
) -> Result<(), NamingFault>
    ensures { (s : List Tree) → Tells result (constructor_fault (where_at s world.now) token count
        (symbol_named world.now.scope.now scopes.now name.now)) }
{
    let Some(symbol) = world.symbol_named(scopes, name) else {
        return Err(NamingFault::Unknown { token });
    };
    match world.symbols.get(symbol) {
        Some(info) => check_constructor_entry(token, count, info),
        None => Err(NamingFault::WrongKind { token }),
    }
}

// A name, put after the others.
fn enter_name(alloc: Global, names: &mut Seq<Text>, name: &[u8]) -> Result<(), AllocError>
    ensures { OnOk result (names.new ≡ names.old ++ name.now ∷ []) }
{
    let text = Text::from_slice(alloc, name)?;
    names.push(text)
}

// A variable of a pattern after the others, where it isn't among them.
fn check_variable(
    alloc: Global,
    token: usize,
    name: &[u8],
    names: &mut Seq<Text>,
) -> Result<(), NamingFault>
    ensures fault { Tells result (fault_if (is_some (place_of name.now names.old))
        (Duplicate token)) }
    ensures names { OnOk result (names.new ≡ names.old ++ name.now ∷ []) }
{
    let found = variable_named(names.as_slice(), name).is_some();
    refuse_if(found, NamingFault::Duplicate { token })?;
    enter_name(alloc, names, name)?;
    Ok(())
}

/// The first fault of a pattern after variables of the same pattern. Its own are put after them.
#[cycle(pattern_naming)]
pub fn check_pattern(
    alloc: Global,
    p: &Pat,
    world: &World<'_>,
    names: &mut Seq<Text>,
) -> Result<(), NamingFault>
    ensures fault { (s : List Tree) → Tells result (pattern_fault (where_at s world.now) names.old
        (abstract_pattern_of p.now)) }
    ensures names { OnOk result (names.new ≡ names.old
        ++ pattern_names (abstract_pattern_of p.now)) }
{
    let token = p.at.main;
    match &p.node {
        PatNode::Wild => Ok(()),
        PatNode::Var(name) => check_variable(alloc, token, name.text.as_slice(), names),
        PatNode::Con(name, parts) => {
            let own = own_name(alloc, name.style, name.text.as_slice())?;
            let scopes = name.scopes.as_slice();
            check_constructor(world, token, scopes, own.as_slice(), parts.len())?;
            check_patterns(alloc, parts.as_slice(), world, names)
        }
        PatNode::Group(parts) => check_patterns(alloc, parts.as_slice(), world, names),
        PatNode::Alias(inner, name) => {
            check_pattern(alloc, inner.get(), world, names)?;
            check_variable(alloc, name.at, name.text.as_slice(), names)
        }
        PatNode::Fields(fields, _) => {
            let fields = fields.as_slice();
            check_record(alloc, world, false, token, Fields::Patterns(fields))?;
            check_field_patterns(alloc, fields, world, names)
        }
    }
}

/// The first fault of several patterns of one pattern, in order. Their variables are put after the others.
#[cycle(pattern_naming)]
pub fn check_patterns(
    alloc: Global,
    list: &[Pat],
    world: &World<'_>,
    names: &mut Seq<Text>,
) -> Result<(), NamingFault>
    ensures fault { (s : List Tree) → Tells result (patterns_fault (where_at s world.now) names.old
        (patterns_of list.now)) }
    ensures names { OnOk result (names.new ≡ names.old ++ patterns_names (patterns_of list.now)) }
{
    for p in list {
        check_pattern(alloc, p, world, names)?;
    }
    Ok(())
}

// The first fault of the patterns of fields, in order. Their variables are put after the others.
#[cycle(pattern_naming)]
fn check_field_patterns(
    alloc: Global,
    fields: &[FieldPat],
    world: &World<'_>,
    names: &mut Seq<Text>,
) -> Result<(), NamingFault>
    ensures fault { (s : List Tree) → Tells result (patterns_fault (where_at s world.now) names.old
        (field_patterns_of fields.now)) }
    ensures names { OnOk result (names.new ≡ names.old
        ++ patterns_names (field_patterns_of fields.now)) }
{
    for field in fields {
        check_pattern(alloc, &field.value, world, names)?;
    }
    Ok(())
}

// The variables of a pattern, put after the others.
#[cycle(pattern_entering)]
fn enter_names(alloc: Global, p: &Pat, names: &mut Seq<Text>) -> Result<(), AllocError>
    ensures { OnOk result (names.new ≡ names.old ++ pattern_names (abstract_pattern_of p.now)) }
{
    match &p.node {
        PatNode::Wild => Ok(()),
        PatNode::Var(name) => enter_name(alloc, names, name.text.as_slice()),
        PatNode::Con(_, parts) => enter_all_names(alloc, parts.as_slice(), names),
        PatNode::Group(parts) => enter_all_names(alloc, parts.as_slice(), names),
        PatNode::Alias(inner, name) => {
            enter_names(alloc, inner.get(), names)?;
            enter_name(alloc, names, name.text.as_slice())
        }
        PatNode::Fields(fields, _) => enter_field_names(alloc, fields.as_slice(), names),
    }
}

#[cycle(pattern_entering)]
fn enter_field_names(
    alloc: Global,
    fields: &[FieldPat],
    names: &mut Seq<Text>,
) -> Result<(), AllocError>
    ensures { OnOk result (names.new ≡ names.old
        ++ patterns_names (field_patterns_of fields.now)) }
{
    for field in fields {
        enter_names(alloc, &field.value, names)?;
    }
    Ok(())
}

#[cycle(pattern_entering)]
fn enter_all_names(alloc: Global, list: &[Pat], names: &mut Seq<Text>) -> Result<(), AllocError>
    ensures { OnOk result (names.new ≡ names.old ++ patterns_names (patterns_of list.now)) }
{
    for p in list {
        enter_names(alloc, p, names)?;
    }
    Ok(())
}

// Whether each of some names is among others.
fn all_among(names: &[Text], others: &[Text]) -> bool
    ensures { result ≡ all_among names.now others.now }
{
    match names.split_first() {
        Some((first, rest)) => {
            variable_named(others, first.as_slice()).is_some() && all_among(rest, others)
        }
        None => true,
    }
}

// Whether two lists have the same names.
fn same_names(names: &[Text], others: &[Text]) -> bool
    ensures { result ≡ same_names names.now others.now }
{
    all_among(names, others) && all_among(others, names)
}

// The first token of patterns side by side.
fn first_token(patterns: &[Pat]) -> usize
    ensures { result ≡ first_form (code.patterns patterns.now) }
{
    match patterns.first() {
        Some(first) => first.at.first,
        None => 0,
    }
}

// The first fault of patterns side by side.
fn check_whole(alloc: Global, patterns: &[Pat], world: &World<'_>) -> Result<(), NamingFault>
    ensures { (s : List Tree) → Tells result (pattern_fault (where_at s world.now) [] (side_by_side
        (code.patterns patterns.now))) }
{
    let mut names = Seq::new(alloc);
    check_patterns(alloc, patterns, world, &mut names)
}

// A later alternative binds the names of the first one.
fn check_same(alloc: Global, patterns: &[Pat], bound: &[Text]) -> Result<(), NamingFault>
    ensures { Tells result (fault_if (not (same_names bound.now (pattern_names (side_by_side
        (code.patterns patterns.now))))) (WrongKind (first_form (code.patterns patterns.now)))) }
{
    let mut names = Seq::new(alloc);
    enter_all_names(alloc, patterns, &mut names)?;
    let token = first_token(patterns);
    refuse_if(
        !same_names(bound, names.as_slice()),
        NamingFault::WrongKind { token },
    )
}

// The first fault of later alternatives.
fn check_later(
    alloc: Global,
    list: &[Seq<Pat>],
    world: &World<'_>,
    bound: &[Text],
) -> Result<(), NamingFault>
    ensures { (s : List Tree) → Tells result (later_fault (where_at s world.now) bound.now
        (alternatives_of list.now)) }
{
    let Some((first, rest)) = list.split_first() else {
        return Ok(());
    };
    check_same(alloc, first.as_slice(), bound)?;
    check_whole(alloc, first.as_slice(), world)?;
    check_later(alloc, rest, world, bound)
}

/// The first fault of alternatives. The names of the first one are put down.
pub fn check_alternatives(
    alloc: Global,
    first: &[Pat],
    rest: &[Seq<Pat>],
    world: &World<'_>,
    names: &mut Seq<Text>,
) -> Result<(), NamingFault>
    requires { names.old ≡ [] }
    ensures fault { (s : List Tree) → Tells result (alternatives_fault (where_at s world.now)
        (more_alternatives (first_form (code.patterns first.now)) (side_by_side
        (code.patterns first.now)) (alternatives_of rest.now))) }
    ensures names { OnOk result (names.new ≡ pattern_names (side_by_side
        (code.patterns first.now))) }
{
    check_patterns(alloc, first, world, names)?;
    check_later(alloc, rest, world, names.as_slice())
}
