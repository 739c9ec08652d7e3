// What a rule with any number of arguments has of them, and such arguments made of a rule.
// They depend on arguments; the rules of words depend on them.
ghost use Rattle.std.specs.Prelude.{◌≡◌, ◌++◌, ℕ, ℤ, List, map, All, IfSome, IfOk};
ghost use Rattle.std.specs.Option.{option_map};
ghost use Rattle.trees.specs.Tree.{Tree};
ghost use Rattle.trees.specs.Node.{Holds};
ghost use Rattle.tasks.specs.Meaning.{trees_at};
ghost use Rattle.rules.specs.Trees.{RuleTree};
ghost use Rattle.step_lines.specs.rule_words.Arguments.{arguments_at, ArgumentHeld, number_in, symbol_in, type_in};
ghost use Rattle.step_lines.specs.rule_words.Forms.{each_argument, argument_pairs, one_then_types, two_then_types};
ghost use Rattle.step_lines.specs.rule_words.Written.{arguments_of_pairs};

use crate::rule_words::argument::{Argument, integer, number, symbol, ty};
use std::alloc::{AllocError, Global};
use tasks::Seq;
use trees::store::{Store, TermId};

pub(crate) fn any_numbers(
    alloc: Global,
    store: &Store,
    args: &[Argument],
) -> Result<Option<Seq<usize>>, AllocError>
    ensures { IfOk result (λ o. o ≡ each_argument number_in (arguments_at store.now args.now)) }
{
    let _ = store;
    let mut all = Vec::new(alloc);
    for argument in args {
        match number(*argument) {
            Some(i) => all.push(i)?,
            None => return Ok(None),
        }
    }
    Ok(Some(Seq::from_vec(all)))
}

pub(crate) fn any_pairs(
    alloc: Global,
    store: &Store,
    args: &[Argument],
) -> Result<Option<Seq<(usize, i128)>>, AllocError>
    ensures { IfOk result (λ o. o ≡ argument_pairs (arguments_at store.now args.now)) }
{
    let _ = store;
    let mut all = Vec::new(alloc);
    let mut place = None;
    for argument in args {
        match place {
            None => {
                let Some(found) = number(*argument) else {
                    return Ok(None);
                };
                place = Some(found);
                continue;
            }
            Some(i) => {
                let Some(n) = integer(*argument) else {
                    return Ok(None);
                };
                all.push((i, n))?;
                place = None;
                continue;
            }
        }
    }
    match place {
        None => Ok(Some(Seq::from_vec(all))),
        Some(_) => Ok(None),
    }
}

// The types that arguments are.
fn types(alloc: Global, store: &Store, args: &[Argument]) -> Result<Option<Seq<TermId>>, AllocError>
    requires { All (ArgumentHeld store.now) args.now }
    ensures types { IfOk result (λ o. option_map (trees_at store.now) o
        ≡ each_argument type_in (arguments_at store.now args.now)) }
    ensures held { IfOk result (λ o. IfSome o (All (Holds store.now))) }
{
    let _ = store;
    let mut all = Vec::new(alloc);
    for argument in args {
        match ty(*argument) {
            Some(y) => all.push(y)?,
            None => return Ok(None),
        }
    }
    Ok(Some(Seq::from_vec(all)))
}

pub(crate) fn number_types(
    alloc: Global,
    store: &Store,
    args: &[Argument],
) -> Result<Option<(usize, Seq<TermId>)>, AllocError>
    requires { All (ArgumentHeld store.now) args.now }
    ensures rule { IfOk result (λ o. (f : ℕ → List Tree → RuleTree)
        → option_map (λ p. f p.0 (trees_at store.now p.1)) o
        ≡ one_then_types number_in f (arguments_at store.now args.now)) }
    ensures held { IfOk result (λ o. IfSome o (λ p. All (Holds store.now) p.1)) }
{
    let [first, rest @ ..] = args else {
        return Ok(None);
    };
    let Some(k) = number(*first) else {
        return Ok(None);
    };
    match types(alloc, store, rest)? {
        Some(found) => Ok(Some((k, found))),
        None => Ok(None),
    }
}

pub(crate) fn symbol_types(
    alloc: Global,
    store: &Store,
    args: &[Argument],
) -> Result<Option<(usize, Seq<TermId>)>, AllocError>
    requires { All (ArgumentHeld store.now) args.now }
    ensures rule { IfOk result (λ o. (f : ℕ → List Tree → RuleTree)
        → option_map (λ p. f p.0 (trees_at store.now p.1)) o
        ≡ one_then_types symbol_in f (arguments_at store.now args.now)) }
    ensures held { IfOk result (λ o. IfSome o (λ p. All (Holds store.now) p.1)) }
{
    let [first, rest @ ..] = args else {
        return Ok(None);
    };
    let Some(k) = symbol(*first) else {
        return Ok(None);
    };
    match types(alloc, store, rest)? {
        Some(found) => Ok(Some((k, found))),
        None => Ok(None),
    }
}

pub(crate) fn symbol_number_types(
    alloc: Global,
    store: &Store,
    args: &[Argument],
) -> Result<Option<(usize, usize, Seq<TermId>)>, AllocError>
    requires { All (ArgumentHeld store.now) args.now }
    ensures rule { IfOk result (λ o. (f : ℕ → ℕ → List Tree → RuleTree)
        → option_map (λ p. f p.0 p.1 (trees_at store.now p.2)) o
        ≡ two_then_types f (arguments_at store.now args.now)) }
    ensures held { IfOk result (λ o. IfSome o (λ p. All (Holds store.now) p.2)) }
{
    let [first, second, rest @ ..] = args else {
        return Ok(None);
    };
    let Some(k) = symbol(*first) else {
        return Ok(None);
    };
    let Some(i) = number(*second) else {
        return Ok(None);
    };
    match types(alloc, store, rest)? {
        Some(found) => Ok(Some((k, i, found))),
        None => Ok(None),
    }
}

pub(crate) fn copy_of(alloc: Global, args: &[Argument]) -> Result<Vec<Argument>, AllocError>
    ensures { IfOk result (λ v. v.items ≡ args.now) }
{
    Vec::from_slice(alloc, args)
}

pub(crate) fn number_arguments(
    alloc: Global,
    numbers: &[usize],
) -> Result<Vec<Argument>, AllocError>
    ensures { IfOk result (λ v. v.items ≡ map Argument.Number numbers.now) }
{
    let mut all = Vec::new(alloc);
    for i in numbers {
        all.push(Argument::Number(*i))?;
    }
    Ok(all)
}

pub(crate) fn pair_arguments(
    alloc: Global,
    pairs: &[(usize, i128)],
) -> Result<Vec<Argument>, AllocError>
    ensures { IfOk result (λ v. v.items ≡ arguments_of_pairs pairs.now) }
{
    let mut all = Vec::new(alloc);
    for (i, n) in pairs {
        all.push(Argument::Number(*i))?;
        all.push(Argument::Integer(*n))?;
    }
    Ok(all)
}

pub(crate) fn type_arguments(
    alloc: Global,
    first: &[Argument],
    types: &[TermId],
) -> Result<Vec<Argument>, AllocError>
    ensures { IfOk result (λ v. v.items ≡ first.now ++ map Argument.Type types.now) }
{
    let mut all = Vec::from_slice(alloc, first)?;
    for y in types {
        all.push(Argument::Type(*y))?;
    }
    Ok(all)
}
