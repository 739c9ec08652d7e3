// How far the longest expression from a token on goes, or where none stands any more.
ghost use Rattle.std.specs.Prelude.{◌≡◌, ◌∷◌, [], false, List, ℕ, IfOk, IfErr};
ghost use Rattle.grammar.specs.recognise.Common.{IsFault, accepts, OtherWord};
ghost use Rattle.grammar.specs.declared.symbols.Symbol.TheVariants as symbol;
ghost use Rattle.grammar.specs.recognise.Expressions.{EndsAt, IsExpressionRefusal};

use crate::recognise::fault::SyntaxFault;
use crate::recognise::spans::terminals_from;
use crate::{Symbol, SyntaxEnd, first_fault, longest_length};
use std::alloc::{AllocError, Global};
use tokens_why::{Terminal, Token};

/// Where terminals that are no expression go wrong.
fn expression_fault(alloc: Global, terminals: &[Terminal]) -> Result<SyntaxEnd, AllocError>
    requires { accepts (symbol.Expr 0 ∷ []) terminals.now ≡ false }
    ensures { IfOk result (λ f. IsFault (symbol.Expr 0 ∷ []) terminals.now OtherWord f.place
        f.other_stands) }
{
    match first_fault(alloc, Symbol::Expr(0), terminals, Terminal::OtherWord)? {
        Some(fault) => Ok(fault),
        None => unreachable!(),
    }
}

/// The token after the longest expression from a token on.
///
/// A refusal is `Memory`, or `Syntax` at the least token such that no expression begins with the tokens from `from` up to that
/// one (the token after the last one, where they end too early). The work is linear in the tokens.
pub fn expression_end(alloc: Global, tokens: &[Token], from: usize) -> Result<usize, SyntaxFault>
    ensures ends { (text : List ℕ) → IfOk result (EndsAt text tokens.now from) }
    ensures refused { (text : List ℕ) → IfErr result (IsExpressionRefusal text tokens.now from) }
{
    let terminals = terminals_from(alloc, tokens, from)?;
    match longest_length(alloc, Symbol::Expr(0), &terminals)? {
        Some(count) => Ok(from + count),
        None => {
            let fault = expression_fault(alloc, &terminals)?;
            Err(SyntaxFault::Syntax {
                token: from + fault.place,
            })
        }
    }
}
