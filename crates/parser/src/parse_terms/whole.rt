// Tokens that are one term or formula.
ghost use Rattle.std.specs.Prelude.{false, ◌≡◌, [], ◌∷◌, IfOk, Some};
ghost use Rattle.parser.specs.parse_terms.Common.{from, read, tree_of};
ghost use Rattle.grammar.specs.declared.symbols.Symbol.TheVariants.{Expr as ExprRule};
ghost use Rattle.parser.specs.parse_terms.Sources.{lexemes};
ghost use Rattle.parser.specs.parse_terms.Whole.{IsReadExpression};

use crate::parse_terms::expressions::expression;
use crate::parse_terms::source::Source;
use std::alloc::{AllocError, Global};
use surface::Expr;

/// The tree of the tokens from a place on, which are one term or formula. Only want of memory refuses.
///
/// Its places are the numbers of its tokens.
pub fn whole_expression(alloc: Global, source: Source, i: usize) -> Result<Expr, AllocError>
    requires { IsReadExpression (lexemes source) i }
    ensures { IfOk result (λ e.
        read (from (lexemes source.entry) i) i false (ExprRule 0 ∷ []) ≡ Some (tree_of e, tt)) }
{
    let read = expression(alloc, source, 0, i)?;
    Ok(read.tree)
}
