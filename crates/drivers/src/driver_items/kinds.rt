// Printers with the syntax of each, transformations, and pieces of templates.
// They depend on the thin collections; names and templates depend on them.
ghost use Rattle.std.specs.Prelude.{◌≡◌};
ghost use Rattle.drivers.specs.driver_items.Syntaxes.{syntax_of};

use outside::Text;

/// The printers, by their words: `smtv2` and `tptp-tff0`.
#[derive(Clone, Copy)]
pub enum Printer {
    Smt,
    Tff,
}

/// The syntaxes of printed problems: SMT-LIB 2.6, and TFF0 of TPTP.
#[derive(Clone, Copy)]
pub enum Syntax {
    Smt,
    Tff,
}

/// The syntax in which a printer writes terms and formulas.
pub fn syntax_of(printer: Printer) -> Syntax
    ensures { result ≡ syntax_of printer }
{
    match printer {
        Printer::Smt => Syntax::Smt,
        Printer::Tff => Syntax::Tff,
    }
}

/// The transformations, by their words.
#[derive(Clone, Copy)]
pub enum Trans {
    Discriminate,
    EliminateAlgebraic,
    EliminateDefinition,
    EliminateIf,
    EliminateInductive,
    EliminateLet,
    EliminateMatch,
    EliminateRecursion,
    InlineAll,
    InlineGoal,
    InlineTrivial,
    IntroducePremises,
    SimplifyFormula,
    SplitGoalRight,
}

/// A piece of a template: bytes as they are, or the argument with this number, which counts from 0.
#[derive(Drop)]
pub enum Piece {
    Literal(Text),
    Argument(usize),
}
