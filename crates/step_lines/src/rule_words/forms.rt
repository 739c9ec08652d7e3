// What a rule with as many arguments as its form says has of them.
// They depend on arguments; the rules of words depend on them.
ghost use Rattle.std.specs.Prelude.{◌≡◌, ℕ, ℤ, List, All, IfSome};
ghost use Rattle.std.specs.Option.{option_map};
ghost use Rattle.trees.specs.Tree.{Tree};
ghost use Rattle.trees.specs.Node.{tree_at, Holds};
ghost use Rattle.rules.specs.Trees.{RuleTree};
ghost use Rattle.step_lines.specs.rule_words.Arguments.{arguments_at, ArgumentHeld, expression_in, integer_in, number_in};
ghost use Rattle.step_lines.specs.rule_words.Forms.{one_argument, two_arguments, three_arguments};

use crate::rule_words::argument::{Argument, expression, integer, number};
use trees::store::{Store, TermId};

pub(crate) fn one_number(store: &Store, args: &[Argument]) -> Option<usize>
    ensures { (f : ℕ → RuleTree) → option_map f result
        ≡ one_argument number_in f (arguments_at store.now args.now) }
{
    let _ = store;
    match args {
        [i] => number(*i),
        _ => None,
    }
}

pub(crate) fn two_numbers(store: &Store, args: &[Argument]) -> Option<(usize, usize)>
    ensures { (f : ℕ → ℕ → RuleTree) → option_map (λ p. f p.0 p.1) result
        ≡ two_arguments number_in number_in f (arguments_at store.now args.now) }
{
    let _ = store;
    match args {
        [i, j] => Some((number(*i)?, number(*j)?)),
        _ => None,
    }
}

pub(crate) fn one_expression(store: &Store, args: &[Argument]) -> Option<TermId>
    requires { All (ArgumentHeld store.now) args.now }
    ensures rule { (f : Tree → RuleTree) → option_map (λ e. f (tree_at store.now e)) result
        ≡ one_argument expression_in f (arguments_at store.now args.now) }
    ensures held { IfSome result (Holds store.now) }
{
    let _ = store;
    match args {
        [e] => Some(expression(*e)?),
        _ => None,
    }
}

pub(crate) fn two_expressions(store: &Store, args: &[Argument]) -> Option<(TermId, TermId)>
    requires { All (ArgumentHeld store.now) args.now }
    ensures rule { (f : Tree → Tree → RuleTree)
        → option_map (λ p. f (tree_at store.now p.0) (tree_at store.now p.1)) result
        ≡ two_arguments expression_in expression_in f (arguments_at store.now args.now) }
    ensures first { IfSome result (λ p. Holds store.now p.0) }
    ensures second { IfSome result (λ p. Holds store.now p.1) }
{
    let _ = store;
    match args {
        [a, b] => Some((expression(*a)?, expression(*b)?)),
        _ => None,
    }
}

pub(crate) fn number_expression(store: &Store, args: &[Argument]) -> Option<(usize, TermId)>
    requires { All (ArgumentHeld store.now) args.now }
    ensures rule { (f : ℕ → Tree → RuleTree)
        → option_map (λ p. f p.0 (tree_at store.now p.1)) result
        ≡ two_arguments number_in expression_in f (arguments_at store.now args.now) }
    ensures held { IfSome result (λ p. Holds store.now p.1) }
{
    let _ = store;
    match args {
        [i, e] => Some((number(*i)?, expression(*e)?)),
        _ => None,
    }
}

pub(crate) fn numbers_expression(store: &Store, args: &[Argument]) -> Option<(usize, usize, TermId)>
    requires { All (ArgumentHeld store.now) args.now }
    ensures rule { (f : ℕ → ℕ → Tree → RuleTree)
        → option_map (λ p. f p.0 p.1 (tree_at store.now p.2)) result
        ≡ three_arguments number_in number_in expression_in f (arguments_at store.now args.now) }
    ensures held { IfSome result (λ p. Holds store.now p.2) }
{
    let _ = store;
    match args {
        [i, j, e] => Some((number(*i)?, number(*j)?, expression(*e)?)),
        _ => None,
    }
}

pub(crate) fn expression_integer(store: &Store, args: &[Argument]) -> Option<(TermId, i128)>
    requires { All (ArgumentHeld store.now) args.now }
    ensures rule { (f : Tree → ℤ → RuleTree)
        → option_map (λ p. f (tree_at store.now p.0) p.1) result
        ≡ two_arguments expression_in integer_in f (arguments_at store.now args.now) }
    ensures held { IfSome result (λ p. Holds store.now p.0) }
{
    let _ = store;
    match args {
        [e, n] => Some((expression(*e)?, integer(*n)?)),
        _ => None,
    }
}
