// The arguments of a rule.
// They depend on the terms' numbers; the rules of a word and arguments depend on them.
ghost use Rattle.std.specs.Prelude.{◌≡◌, List, IfSome};
ghost use Rattle.std.specs.Option.{option_map};
ghost use Rattle.trees.specs.Tree.{Tree};
ghost use Rattle.trees.specs.Node.{tree_at, Holds};
ghost use Rattle.step_lines.specs.rule_words.Arguments.{argument_at, ArgumentHeld, number_in, symbol_in, integer_in, expression_in, type_in};

use trees::store::TermId;

/// An argument of a rule.
#[derive(Clone, Copy)]
pub enum Argument {
    /// A place, a parameter's number, or the number of a proposition or a clause.
    Number(usize),
    /// A symbol, by its entry in the signature.
    Symbol(usize),
    /// A multiplier or a literal.
    Integer(i128),
    /// A term or a formula.
    Expression(TermId),
    /// A type.
    Type(TermId),
}

/// What an argument is.
#[derive(Clone, Copy, PartialEq, Eq)]
pub enum ArgumentKind {
    Number,
    Symbol,
    Integer,
    Expression,
    Type,
}

/// The kinds of a rule's arguments: those of the first ones, then those that stand any number of times, in turn.
#[derive(Clone, Copy)]
pub struct Kinds {
    pub first: &'static [ArgumentKind],
    pub repeated: &'static [ArgumentKind],
}

#[tactic(auto, unfolding(crate::specs::rule_words::Arguments::argument_at, crate::specs::rule_words::Arguments::number_in))]
pub(crate) fn number(argument: Argument) -> Option<usize>
    ensures { (s : List Tree) → result ≡ number_in (argument_at s argument) }
{
    match argument {
        Argument::Number(n) => Some(n),
        Argument::Symbol(_) | Argument::Integer(_) | Argument::Expression(_) | Argument::Type(_) =>
            None,
    }
}

#[tactic(auto, unfolding(crate::specs::rule_words::Arguments::argument_at, crate::specs::rule_words::Arguments::symbol_in))]
pub(crate) fn symbol(argument: Argument) -> Option<usize>
    ensures { (s : List Tree) → result ≡ symbol_in (argument_at s argument) }
{
    match argument {
        Argument::Symbol(k) => Some(k),
        Argument::Number(_) | Argument::Integer(_) | Argument::Expression(_) | Argument::Type(_) =>
            None,
    }
}

#[tactic(auto, unfolding(crate::specs::rule_words::Arguments::argument_at, crate::specs::rule_words::Arguments::integer_in))]
pub(crate) fn integer(argument: Argument) -> Option<i128>
    ensures { (s : List Tree) → result ≡ integer_in (argument_at s argument) }
{
    match argument {
        Argument::Integer(n) => Some(n),
        Argument::Number(_) | Argument::Symbol(_) | Argument::Expression(_) | Argument::Type(_) =>
            None,
    }
}

#[tactic(auto, unfolding(crate::specs::rule_words::Arguments::argument_at, crate::specs::rule_words::Arguments::expression_in, crate::specs::rule_words::Arguments::ArgumentHeld))]
pub(crate) fn expression(argument: Argument) -> Option<TermId>
    ensures tree { (s : List Tree) → option_map (tree_at s) result
        ≡ expression_in (argument_at s argument) }
    ensures held { (s : List Tree) → ArgumentHeld s argument → IfSome result (Holds s) }
{
    match argument {
        Argument::Expression(e) => Some(e),
        Argument::Number(_) | Argument::Symbol(_) | Argument::Integer(_) | Argument::Type(_) =>
            None,
    }
}

#[tactic(auto, unfolding(crate::specs::rule_words::Arguments::argument_at, crate::specs::rule_words::Arguments::type_in, crate::specs::rule_words::Arguments::ArgumentHeld))]
pub(crate) fn ty(argument: Argument) -> Option<TermId>
    ensures tree { (s : List Tree) → option_map (tree_at s) result
        ≡ type_in (argument_at s argument) }
    ensures held { (s : List Tree) → ArgumentHeld s argument → IfSome result (Holds s) }
{
    match argument {
        Argument::Type(y) => Some(y),
        Argument::Number(_)
        | Argument::Symbol(_)
        | Argument::Integer(_)
        | Argument::Expression(_) => None,
    }
}
