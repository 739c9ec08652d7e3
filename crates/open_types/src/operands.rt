// The operands of a use: arguments side by side, those of an operator, or values of fields.
// They depend on the surface trees alone; the walk of uses depends on them.
ghost use Rattle.std.specs.Prelude.{◌≡◌, ◌+◌, MatchOption};
ghost use Rattle.name_resolution.specs.Abstract.{expression_of, no_expressions, more_expressions};
ghost use Rattle.open_types.specs.Drafts.{operands_at, operands_size};
ghost use Rattle.open_types.specs.Sizes.{size_of};

use surface::{Expr, FieldValue};

/// Arguments side by side, the operand of a prefix operator, the two of an infix one, or the values of a record's fields.
#[derive(Clone, Copy)]
pub enum Operands<'a> {
    Many(&'a [Expr]),
    One(&'a Expr),
    Two(&'a Expr, &'a Expr),
    Values(&'a [FieldValue]),
}

/// The first operand, and the others.
pub fn split_operands(operands: Operands<'_>) -> Option<(&Expr, Operands<'_>)>
    ensures operands { MatchOption result (operands_at operands.entry ≡ no_expressions)
        (λ p. operands_at
        operands.entry ≡ more_expressions (expression_of p.0.now) (operands_at p.1)) }
    ensures size { MatchOption result (operands_size operands.entry ≡ 0) (λ p. operands_size
        operands.entry ≡ size_of p.0.now + operands_size p.1) }
{
    match operands {
        Operands::Many(list) => {
            let (first, rest) = list.split_first()?;
            Some((first, Operands::Many(rest)))
        }
        Operands::One(only) => Some((only, Operands::Many(&[]))),
        Operands::Two(left, right) => Some((left, Operands::One(right))),
        Operands::Values(list) => {
            let (first, rest) = list.split_first()?;
            Some((&first.value, Operands::Values(rest)))
        }
    }
}
