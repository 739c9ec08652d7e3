// The rule that a word and arguments say, and what a rule is written as.
// They depend on the table and the forms of rules.
ghost use Rattle.std.specs.Prelude.{◌≡◌, Some, List, slice_get, All, IsTrue, IfOk, IfSome};
ghost use Rattle.std.specs.Option.{option_map};
ghost use Rattle.trees.specs.Tree.{Tree};
ghost use Rattle.rules.specs.Meaning.{rule_at, RuleHeld};
ghost use Rattle.step_lines.specs.rule_words.Arguments.{arguments_at, ArgumentHeld, ArgumentsHeld, have_kinds};
ghost use Rattle.step_lines.specs.rule_words.Forms.{argument_kinds};
ghost use Rattle.step_lines.specs.rule_words.Rules.{rule_row, name_by_word, rule_from};
ghost use Rattle.step_lines.specs.rule_words.Written.{name_and_arguments};

use crate::rule_words::argument::{Argument, ArgumentKind, Kinds};
use crate::rule_words::forms::{
    expression_integer, number_expression, numbers_expression, one_expression, one_number,
    two_expressions, two_numbers,
};
use crate::rule_words::lists::{
    any_numbers, any_pairs, copy_of, number_arguments, number_types, pair_arguments,
    symbol_number_types, symbol_types, type_arguments,
};
use crate::rule_words::name::RuleName;
use crate::rule_words::table::{RULE_NAMES, rule_table, rule_words};
use rules::Rule;
use std::alloc::{AllocError, Global};
use trees::store::Store;

/// What a rule is written as: its name, and its arguments in order.
#[derive(Drop)]
pub struct WrittenRule {
    pub name: RuleName,
    pub arguments: Vec<Argument>,
}

// The name at a place.
fn name_at(names: &[RuleName], place: usize) -> Option<RuleName>
    ensures { result ≡ slice_get names.now place }
{
    names.get(place).copied()
}

/// The rule that a word names.
pub fn name_of_word(word: &[u8]) -> Option<RuleName>
    ensures { result ≡ name_by_word word.now }
{
    match rule_words().find(word) {
        Some(place) => name_at(&RULE_NAMES, place),
        None => None,
    }
}

macro_rules! word_rows {
    (($name_of:expr) $($word:literal $name:ident($($field:ident),*) $form:ident;)*) => {
        match $name_of {
            $(RuleName::$name => $word),*
        }
    };
}

// The word in a rule's row.
fn word_in_row(name: RuleName) -> &'static str
    ensures { result.now ≡ (rule_row name).word }
{
    rule_table!(word_rows, name)
}

/// The word of a rule. It names that rule and no other.
pub fn word_of(name: RuleName) -> &'static str
    ensures word { result.now ≡ (rule_row name).word }
    ensures reads_back { name_by_word result.now ≡ Some name }
{
    word_in_row(name)
}

macro_rules! kinds_of_form {
    (one_number) => {
        Kinds { first: &[ArgumentKind::Number], repeated: &[] }
    };
    (two_numbers) => {
        Kinds { first: &[ArgumentKind::Number, ArgumentKind::Number], repeated: &[] }
    };
    (one_expression) => {
        Kinds { first: &[ArgumentKind::Expression], repeated: &[] }
    };
    (two_expressions) => {
        Kinds { first: &[ArgumentKind::Expression, ArgumentKind::Expression], repeated: &[] }
    };
    (number_expression) => {
        Kinds { first: &[ArgumentKind::Number, ArgumentKind::Expression], repeated: &[] }
    };
    (numbers_expression) => {
        Kinds {
            first: &[ArgumentKind::Number, ArgumentKind::Number, ArgumentKind::Expression],
            repeated: &[],
        }
    };
    (expression_integer) => {
        Kinds { first: &[ArgumentKind::Expression, ArgumentKind::Integer], repeated: &[] }
    };
    (any_numbers) => {
        Kinds { first: &[], repeated: &[ArgumentKind::Number] }
    };
    (any_pairs) => {
        Kinds { first: &[], repeated: &[ArgumentKind::Number, ArgumentKind::Integer] }
    };
    (number_types) => {
        Kinds { first: &[ArgumentKind::Number], repeated: &[ArgumentKind::Type] }
    };
    (symbol_types) => {
        Kinds { first: &[ArgumentKind::Symbol], repeated: &[ArgumentKind::Type] }
    };
    (symbol_number_types) => {
        Kinds {
            first: &[ArgumentKind::Symbol, ArgumentKind::Number],
            repeated: &[ArgumentKind::Type],
        }
    };
}

macro_rules! kinds_rows {
    (($name_of:expr) $($word:literal $name:ident($($field:ident),*) $form:ident;)*) => {
        match $name_of {
            $(RuleName::$name => kinds_of_form!($form)),*
        }
    };
}

/// The kinds of a rule's arguments.
pub fn kinds_of(name: RuleName) -> Kinds
    ensures first { result.first.now ≡ (argument_kinds (rule_row name).form).first }
    ensures repeated { result.repeated.now ≡ (argument_kinds (rule_row name).form).repeated }
{
    rule_table!(kinds_rows, name)
}

// What the arguments of a form are.
macro_rules! read_form {
    (any_numbers, $alloc:expr, $store:expr, $args:expr) => {
        any_numbers($alloc, $store, $args)?
    };
    (any_pairs, $alloc:expr, $store:expr, $args:expr) => {
        any_pairs($alloc, $store, $args)?
    };
    (number_types, $alloc:expr, $store:expr, $args:expr) => {
        number_types($alloc, $store, $args)?
    };
    (symbol_types, $alloc:expr, $store:expr, $args:expr) => {
        symbol_types($alloc, $store, $args)?
    };
    (symbol_number_types, $alloc:expr, $store:expr, $args:expr) => {
        symbol_number_types($alloc, $store, $args)?
    };
    ($form:ident, $alloc:expr, $store:expr, $args:expr) => {
        $form($store, $args)
    };
}

macro_rules! read_rows {
    (($name_of:expr, $alloc:expr, $store:expr, $args:expr)
        $($word:literal $name:ident($($field:ident),*) $form:ident;)*) => {
        match $name_of {
            $(RuleName::$name => match read_form!($form, $alloc, $store, $args) {
                Some(($($field),*)) => Ok(Some(Rule::$name($($field),*))),
                None => Ok(None),
            }),*
        }
    };
}

/// The rule of a name with these arguments; none where they don't have its kinds. Only want of memory refuses.
pub fn rule_of(
    alloc: Global,
    store: &Store,
    name: RuleName,
    arguments: &[Argument],
) -> Result<Option<Rule>, AllocError>
    requires { All (ArgumentHeld store.now) arguments.now }
    ensures rule { IfOk result (λ o. option_map (rule_at store.now) o
        ≡ rule_from name (arguments_at store.now arguments.now)) }
    ensures held { IfOk result (λ o. IfSome o (RuleHeld store.now)) }
{
    rule_table!(read_rows, name, alloc, store, arguments)
}

macro_rules! name_rows {
    (($rule:expr) $($word:literal $name:ident($($field:ident),*) $form:ident;)*) => {
        match $rule {
            $(Rule::$name(..) => RuleName::$name),*
        }
    };
}

// The name of a rule.
fn name_of(rule: &Rule) -> RuleName
    ensures { result ≡ (name_and_arguments rule.now).name }
{
    rule_table!(name_rows, rule)
}

// The arguments of a rule by its form.
macro_rules! argument_form {
    (one_number, $alloc:expr, $i:ident) => {
        copy_of($alloc, &[Argument::Number(*$i)])
    };
    (two_numbers, $alloc:expr, $i:ident, $j:ident) => {
        copy_of($alloc, &[Argument::Number(*$i), Argument::Number(*$j)])
    };
    (one_expression, $alloc:expr, $e:ident) => {
        copy_of($alloc, &[Argument::Expression(*$e)])
    };
    (two_expressions, $alloc:expr, $a:ident, $b:ident) => {
        copy_of($alloc, &[Argument::Expression(*$a), Argument::Expression(*$b)])
    };
    (number_expression, $alloc:expr, $i:ident, $e:ident) => {
        copy_of($alloc, &[Argument::Number(*$i), Argument::Expression(*$e)])
    };
    (numbers_expression, $alloc:expr, $i:ident, $j:ident, $e:ident) => {
        copy_of(
            $alloc,
            &[Argument::Number(*$i), Argument::Number(*$j), Argument::Expression(*$e)],
        )
    };
    (expression_integer, $alloc:expr, $e:ident, $n:ident) => {
        copy_of($alloc, &[Argument::Expression(*$e), Argument::Integer(*$n)])
    };
    (any_numbers, $alloc:expr, $places:ident) => {
        number_arguments($alloc, $places.as_slice())
    };
    (any_pairs, $alloc:expr, $uses:ident) => {
        pair_arguments($alloc, $uses.as_slice())
    };
    (number_types, $alloc:expr, $k:ident, $types:ident) => {
        type_arguments($alloc, &[Argument::Number(*$k)], $types.as_slice())
    };
    (symbol_types, $alloc:expr, $k:ident, $types:ident) => {
        type_arguments($alloc, &[Argument::Symbol(*$k)], $types.as_slice())
    };
    (symbol_number_types, $alloc:expr, $k:ident, $i:ident, $types:ident) => {
        type_arguments($alloc, &[Argument::Symbol(*$k), Argument::Number(*$i)], $types.as_slice())
    };
}

macro_rules! argument_rows {
    (($rule:expr, $alloc:expr)
        $($word:literal $name:ident($($field:ident),*) $form:ident;)*) => {
        match $rule {
            $(Rule::$name($($field),*) => argument_form!($form, $alloc, $($field),*)),*
        }
    };
}

// The arguments of a rule.
fn arguments_of(alloc: Global, rule: &Rule) -> Result<Vec<Argument>, AllocError>
    ensures { IfOk result (λ v. v.items ≡ (name_and_arguments rule.now).arguments) }
{
    rule_table!(argument_rows, rule, alloc)
}

/// What a rule is written as. It is read back as that rule, and its arguments have the kinds of its name. Only want of
/// memory refuses.
pub fn written_rule(alloc: Global, rule: &Rule) -> Result<WrittenRule, AllocError>
    ensures reads_back { IfOk result (λ v. (s : List Tree)
        → rule_from v.name (arguments_at s v.arguments.items) ≡ Some (rule_at s rule.now)) }
    ensures kinds { IfOk result (λ v. (s : List Tree)
        → let ks = argument_kinds (rule_row v.name).form in
        IsTrue (have_kinds ks.first ks.repeated (arguments_at s v.arguments.items))) }
    ensures held { IfOk result (λ v. (s : List Tree) → RuleHeld s rule.now
        → ArgumentsHeld s v.arguments.items) }
{
    let arguments = arguments_of(alloc, rule)?;
    Ok(WrittenRule {
        name: name_of(rule),
        arguments,
    })
}
