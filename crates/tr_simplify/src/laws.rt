// The laws of connectives, by which of the two sides is `true` or `false`.
ghost use Rattle.std.specs.Prelude.{◌≡◌};
ghost use Rattle.tr_simplify.specs.Laws.{conjunction_law, disjunction_law, implication_law, equivalence_law, law_for};

use trees::Op;

/// Which constant a formula is.
#[derive(Clone, Copy)]
pub enum TruthValue {
    True,
    False,
    /// Neither of both.
    Other,
}

/// What a law makes of a connective.
#[derive(Clone, Copy)]
pub enum LawResult {
    /// No law fits.
    Stays,
    /// The first side.
    First,
    /// The second side.
    Second,
    /// `true`.
    True,
    /// `false`.
    False,
    /// The negation of the first side, by the laws of negations.
    NotFirst,
    /// The negation of the second side, by the laws of negations.
    NotSecond,
}

/// What the first law that fits makes of a connective, by which constants its sides are.
pub(crate) fn law_for(op: Op, first: TruthValue, second: TruthValue) -> LawResult
    ensures { result ≡ law_for op first second }
{
    match op {
        Op::And | Op::AndThen => conjunction_law(first, second),
        Op::Or | Op::OrElse => disjunction_law(first, second),
        Op::Imp => implication_law(first, second),
        Op::Iff => equivalence_law(first, second),
    }
}

fn conjunction_law(first: TruthValue, second: TruthValue) -> LawResult
    ensures { result ≡ conjunction_law first second }
{
    match first {
        TruthValue::True => LawResult::Second,
        TruthValue::False => match second {
            TruthValue::True => LawResult::First,
            _ => LawResult::False,
        },
        TruthValue::Other => match second {
            TruthValue::True => LawResult::First,
            TruthValue::False => LawResult::False,
            TruthValue::Other => LawResult::Stays,
        },
    }
}

fn disjunction_law(first: TruthValue, second: TruthValue) -> LawResult
    ensures { result ≡ disjunction_law first second }
{
    match first {
        TruthValue::False => LawResult::Second,
        TruthValue::True => match second {
            TruthValue::False => LawResult::First,
            _ => LawResult::True,
        },
        TruthValue::Other => match second {
            TruthValue::False => LawResult::First,
            TruthValue::True => LawResult::True,
            TruthValue::Other => LawResult::Stays,
        },
    }
}

fn implication_law(first: TruthValue, second: TruthValue) -> LawResult
    ensures { result ≡ implication_law first second }
{
    match first {
        TruthValue::True => LawResult::Second,
        TruthValue::False => LawResult::True,
        TruthValue::Other => match second {
            TruthValue::True => LawResult::True,
            TruthValue::False => LawResult::NotFirst,
            TruthValue::Other => LawResult::Stays,
        },
    }
}

fn equivalence_law(first: TruthValue, second: TruthValue) -> LawResult
    ensures { result ≡ equivalence_law first second }
{
    match second {
        TruthValue::True => LawResult::First,
        TruthValue::False => match first {
            TruthValue::True => LawResult::Second,
            _ => LawResult::NotFirst,
        },
        TruthValue::Other => match first {
            TruthValue::True => LawResult::Second,
            TruthValue::False => LawResult::NotSecond,
            TruthValue::Other => LawResult::Stays,
        },
    }
}
