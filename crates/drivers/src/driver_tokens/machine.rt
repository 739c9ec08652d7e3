// The machine of driver files: a state that takes one token after another.
// It depends on the terminals; the lines depend on it.
ghost use Rattle.std.specs.Prelude.{◌≡◌};
ghost use Rattle.drivers.specs.driver_tokens.Machine as spec;

use crate::driver_tokens::terminal::{DriverTerminal, DriverWord};

/// What a name belongs to; whether a `meta` is in a block.
#[derive(Clone, Copy)]
pub enum Owner {
    Syntax,
    Remove,
    Meta(bool),
}

/// What is due. A truth value says whether this is in a block.
#[derive(Clone, Copy)]
pub enum DriverState {
    /// A line, or the end.
    Lines(bool),
    /// A word of a theory's path.
    PathWord,
    /// A dot of a path, or a line.
    Path,
    /// A string, which ends a line.
    LineText(bool),
    /// What after `meta` stands.
    MetaName(bool),
    /// The first argument of a `meta`, or a line.
    Arguments(bool),
    /// An argument of a `meta`.
    Argument(bool),
    /// A comma, or a line.
    MoreArguments(bool),
    /// A string or number of a line on answers.
    Value,
    /// A further one, or a line.
    Values,
    /// `type`, `function` or `predicate`.
    NameKind,
    /// `prop` or `allprops`.
    Removal,
    Name(Owner),
    /// A dot of a name, or what comes after the name.
    NameDot(Owner),
    Operator(Owner),
    /// `_` or a closing parenthesis.
    OperatorEnd(Owner),
    OperatorClose(Owner),
}

/// What a token does to a state: it can't be there, or it goes on in a line, or it begins one.
#[derive(Clone, Copy)]
pub enum Transition {
    Stuck,
    Within(DriverState),
    Begins(DriverState),
}

fn line_word(in_block: bool, word: DriverWord) -> Transition
    ensures { result ≡ spec.line_word in_block word }
{
    match (in_block, word) {
        (_, DriverWord::Prelude) => Transition::Begins(DriverState::LineText(in_block)),
        (_, DriverWord::Meta) => Transition::Begins(DriverState::MetaName(in_block)),
        (false, DriverWord::Heading(_)) => Transition::Begins(DriverState::LineText(false)),
        (false, DriverWord::Answer) => Transition::Begins(DriverState::Value),
        (false, DriverWord::Theory) => Transition::Begins(DriverState::PathWord),
        (true, DriverWord::End) => Transition::Begins(DriverState::Lines(false)),
        (true, DriverWord::Syntax) => Transition::Begins(DriverState::NameKind),
        (true, DriverWord::Remove) => Transition::Begins(DriverState::Removal),
        _ => Transition::Stuck,
    }
}

fn line(in_block: bool, x: DriverTerminal) -> Transition
    ensures { result ≡ spec.line_move in_block x }
{
    match x {
        DriverTerminal::Word(word) => line_word(in_block, word),
        _ => Transition::Stuck,
    }
}

fn path_word(x: DriverTerminal) -> Transition
    ensures { result ≡ spec.path_word x }
{
    match x {
        DriverTerminal::Word(_) => Transition::Within(DriverState::Path),
        _ => Transition::Stuck,
    }
}

fn path(x: DriverTerminal) -> Transition
    ensures { result ≡ spec.path x }
{
    match x {
        DriverTerminal::Dot => Transition::Within(DriverState::PathWord),
        _ => line(true, x),
    }
}

fn line_text(in_block: bool, x: DriverTerminal) -> Transition
    ensures { result ≡ spec.line_text_move in_block x }
{
    match x {
        DriverTerminal::Text => Transition::Within(DriverState::Lines(in_block)),
        _ => Transition::Stuck,
    }
}

fn meta_name(in_block: bool, x: DriverTerminal) -> Transition
    ensures { result ≡ spec.meta_name in_block x }
{
    match x {
        DriverTerminal::Text | DriverTerminal::Word(_) => {
            Transition::Within(DriverState::Arguments(in_block))
        }
        _ => Transition::Stuck,
    }
}

fn argument(in_block: bool, x: DriverTerminal) -> Transition
    ensures { result ≡ spec.argument_move in_block x }
{
    match x {
        DriverTerminal::Text | DriverTerminal::Number => {
            Transition::Within(DriverState::MoreArguments(in_block))
        }
        DriverTerminal::Word(DriverWord::Kind(_)) | DriverTerminal::Word(DriverWord::Prop) => {
            Transition::Within(DriverState::Name(Owner::Meta(in_block)))
        }
        _ => Transition::Stuck,
    }
}

fn arguments(in_block: bool, x: DriverTerminal) -> Transition
    ensures { result ≡ spec.arguments_move in_block x }
{
    match argument(in_block, x) {
        Transition::Stuck => line(in_block, x),
        taken => taken,
    }
}

fn more_arguments(in_block: bool, x: DriverTerminal) -> Transition
    ensures { result ≡ spec.more_arguments in_block x }
{
    match x {
        DriverTerminal::Comma => Transition::Within(DriverState::Argument(in_block)),
        _ => line(in_block, x),
    }
}

fn value(x: DriverTerminal) -> Transition
    ensures { result ≡ spec.value x }
{
    match x {
        DriverTerminal::Text | DriverTerminal::Number => Transition::Within(DriverState::Values),
        _ => Transition::Stuck,
    }
}

fn values(x: DriverTerminal) -> Transition
    ensures { result ≡ spec.values x }
{
    match x {
        DriverTerminal::Text | DriverTerminal::Number => Transition::Within(DriverState::Values),
        _ => line(false, x),
    }
}

fn name_kind(x: DriverTerminal) -> Transition
    ensures { result ≡ spec.name_kind x }
{
    match x {
        DriverTerminal::Word(DriverWord::Kind(_)) => Transition::Within(DriverState::Name(
            Owner::Syntax,
        )),
        _ => Transition::Stuck,
    }
}

fn removal(x: DriverTerminal) -> Transition
    ensures { result ≡ spec.removal_move x }
{
    match x {
        DriverTerminal::Word(DriverWord::Prop) => Transition::Within(DriverState::Name(
            Owner::Remove,
        )),
        DriverTerminal::Word(DriverWord::Allprops) => Transition::Within(DriverState::Lines(true)),
        _ => Transition::Stuck,
    }
}

/// What comes after a name.
fn state_after(owner: Owner) -> DriverState
    ensures { result ≡ spec.state_after owner }
{
    match owner {
        Owner::Syntax => DriverState::LineText(true),
        Owner::Remove => DriverState::Lines(true),
        Owner::Meta(in_block) => DriverState::MoreArguments(in_block),
    }
}

fn step_after(owner: Owner, x: DriverTerminal) -> Transition
    ensures { result ≡ spec.step_after owner x }
{
    match owner {
        Owner::Syntax => line_text(true, x),
        Owner::Remove => line(true, x),
        Owner::Meta(in_block) => more_arguments(in_block, x),
    }
}

fn name(owner: Owner, x: DriverTerminal) -> Transition
    ensures { result ≡ spec.name_move owner x }
{
    match x {
        DriverTerminal::Word(_) => Transition::Within(DriverState::NameDot(owner)),
        DriverTerminal::Open => Transition::Within(DriverState::Operator(owner)),
        DriverTerminal::Star => Transition::Within(state_after(owner)),
        _ => Transition::Stuck,
    }
}

fn name_dot(owner: Owner, x: DriverTerminal) -> Transition
    ensures { result ≡ spec.name_dot owner x }
{
    match x {
        DriverTerminal::Dot => Transition::Within(DriverState::Name(owner)),
        _ => step_after(owner, x),
    }
}

fn operator(owner: Owner, x: DriverTerminal) -> Transition
    ensures { result ≡ spec.operator owner x }
{
    match x {
        DriverTerminal::Operator => Transition::Within(DriverState::OperatorEnd(owner)),
        _ => Transition::Stuck,
    }
}

fn operator_end(owner: Owner, x: DriverTerminal) -> Transition
    ensures { result ≡ spec.operator_end owner x }
{
    match x {
        DriverTerminal::Close => Transition::Within(state_after(owner)),
        DriverTerminal::Word(DriverWord::Line) => Transition::Within(DriverState::OperatorClose(
            owner,
        )),
        _ => Transition::Stuck,
    }
}

fn operator_close(owner: Owner, x: DriverTerminal) -> Transition
    ensures { result ≡ spec.operator_close owner x }
{
    match x {
        DriverTerminal::Close => Transition::Within(state_after(owner)),
        _ => Transition::Stuck,
    }
}

/// What a token does to a state.
pub fn step(state: DriverState, x: DriverTerminal) -> Transition
    ensures { result ≡ spec.machine_step state x }
{
    match state {
        DriverState::Lines(in_block) => line(in_block, x),
        DriverState::PathWord => path_word(x),
        DriverState::Path => path(x),
        DriverState::LineText(in_block) => line_text(in_block, x),
        DriverState::MetaName(in_block) => meta_name(in_block, x),
        DriverState::Arguments(in_block) => arguments(in_block, x),
        DriverState::Argument(in_block) => argument(in_block, x),
        DriverState::MoreArguments(in_block) => more_arguments(in_block, x),
        DriverState::Value => value(x),
        DriverState::Values => values(x),
        DriverState::NameKind => name_kind(x),
        DriverState::Removal => removal(x),
        DriverState::Name(owner) => name(owner, x),
        DriverState::NameDot(owner) => name_dot(owner, x),
        DriverState::Operator(owner) => operator(owner, x),
        DriverState::OperatorEnd(owner) => operator_end(owner, x),
        DriverState::OperatorClose(owner) => operator_close(owner, x),
    }
}

/// Whether a file may end in a state.
pub fn may_end(state: DriverState) -> bool
    ensures { result ≡ spec.state_may_end state }
{
    match state {
        DriverState::Lines(in_block)
        | DriverState::Arguments(in_block)
        | DriverState::MoreArguments(in_block)
        | DriverState::NameDot(Owner::Meta(in_block)) => !in_block,
        DriverState::Values => true,
        _ => false,
    }
}
