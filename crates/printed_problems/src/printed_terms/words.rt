// The words of both syntaxes.
ghost use Rattle.std.specs.Prelude.{◌≡◌};
ghost use Rattle.drivers.specs.declared.driver_items.kinds.Syntax.TheVariants.{Smt, Tff};
ghost use Rattle.printed_problems.specs.declared.printed_terms.words.Form.TheVariants.{Connected};
ghost use Rattle.printed_problems.specs.printed_terms.Words.{truth_text, opening, part_separator, binder_opening, before_bound, before_body, variable_letter, before_name, after_name, between_arguments};

use drivers::driver_items::Syntax;
use trees::store::Op;

/// A form with parts in it.
#[derive(Clone, Copy)]
pub enum Form {
    Negation,
    Connected(Op),
    Equality,
    Conditional,
}

/// A form that binds a variable.
#[derive(Clone, Copy)]
pub enum Binder {
    ForAll,
    ThereIs,
    LetIn,
}

pub(crate) fn truth(syntax: Syntax, value: bool) -> &'static [u8]
    ensures { result.now ≡ truth_text syntax value }
{
    match (syntax, value) {
        (Syntax::Smt, true) => b"true",
        (Syntax::Smt, false) => b"false",
        (Syntax::Tff, true) => b"$true",
        (Syntax::Tff, false) => b"$false",
    }
}

// What is before two connected formulas in SMT-LIB.
fn op_opening(op: Op) -> &'static [u8]
    ensures { result.now ≡ opening Smt (Connected op) }
{
    match op {
        Op::And => b"(and ",
        Op::AndThen => b"(and ",
        Op::Or => b"(or ",
        Op::OrElse => b"(or ",
        Op::Imp => b"(=> ",
        Op::Iff => b"(= ",
    }
}

// What is before the parts of a form in SMT-LIB.
fn smt_opening(form: Form) -> &'static [u8]
    ensures { result.now ≡ opening Smt form }
{
    match form {
        Form::Negation => b"(not ",
        Form::Connected(op) => op_opening(op),
        Form::Equality => b"(= ",
        Form::Conditional => b"(ite ",
    }
}

/// What is before the parts of a form.
pub(crate) fn opening(syntax: Syntax, form: Form) -> &'static [u8]
    ensures { result.now ≡ opening syntax form }
{
    match (syntax, form) {
        (Syntax::Smt, _) => smt_opening(form),
        (Syntax::Tff, Form::Negation) => b"(~ ",
        (Syntax::Tff, _) => b"(",
    }
}

// What is between two connected formulas in TFF0.
fn op_between(op: Op) -> &'static [u8]
    ensures { result.now ≡ part_separator Tff (Connected op) }
{
    match op {
        Op::And => b" & ",
        Op::AndThen => b" & ",
        Op::Or => b" | ",
        Op::OrElse => b" | ",
        Op::Imp => b" => ",
        Op::Iff => b" <=> ",
    }
}

/// What is between two parts of a form.
pub(crate) fn separator(syntax: Syntax, form: Form) -> &'static [u8]
    ensures { result.now ≡ part_separator syntax form }
{
    match (syntax, form) {
        (Syntax::Smt, _) => b" ",
        (Syntax::Tff, Form::Connected(op)) => op_between(op),
        (Syntax::Tff, Form::Equality) => b" = ",
        (Syntax::Tff, _) => b"",
    }
}

/// What is before a binder's variable.
pub(crate) fn binder_opening(syntax: Syntax, binder: Binder) -> &'static [u8]
    ensures { result.now ≡ binder_opening syntax binder }
{
    match (syntax, binder) {
        (Syntax::Smt, Binder::ForAll) => b"(forall ((",
        (Syntax::Smt, Binder::ThereIs) => b"(exists ((",
        (Syntax::Smt, Binder::LetIn) => b"(let ((",
        (Syntax::Tff, Binder::ForAll) => b"(! [",
        (Syntax::Tff, Binder::ThereIs) => b"(? [",
        (Syntax::Tff, Binder::LetIn) => b"",
    }
}

/// What is between a binder's variable and its sort or value.
pub(crate) fn before_bound(syntax: Syntax) -> &'static [u8]
    ensures { result.now ≡ before_bound syntax }
{
    match syntax {
        Syntax::Smt => b" ",
        Syntax::Tff => b": ",
    }
}

/// What is before a binder's body.
pub(crate) fn before_body(syntax: Syntax) -> &'static [u8]
    ensures { result.now ≡ before_body syntax }
{
    match syntax {
        Syntax::Smt => b")) ",
        Syntax::Tff => b"] : ",
    }
}

/// The letter of a bound variable.
pub(crate) fn letter(syntax: Syntax) -> &'static [u8]
    ensures { result.now ≡ variable_letter syntax }
{
    match syntax {
        Syntax::Smt => b"x",
        Syntax::Tff => b"X",
    }
}

/// What is before the name of a symbol with arguments.
pub(crate) fn before_name(syntax: Syntax) -> &'static [u8]
    ensures { result.now ≡ before_name syntax }
{
    match syntax {
        Syntax::Smt => b"(",
        Syntax::Tff => b"",
    }
}

/// What is between a name and its arguments.
pub(crate) fn name_after(syntax: Syntax) -> &'static [u8]
    ensures { result.now ≡ after_name syntax }
{
    match syntax {
        Syntax::Smt => b" ",
        Syntax::Tff => b"(",
    }
}

/// What is between two arguments.
pub(crate) fn between_arguments(syntax: Syntax) -> &'static [u8]
    ensures { result.now ≡ between_arguments syntax }
{
    match syntax {
        Syntax::Smt => b" ",
        Syntax::Tff => b",",
    }
}
