// The longest expression from a place, or where none stands any more.
ghost use Rattle.parser.specs.parse_terms.Common.{IfOk, IfErr, AreTokens, tree_of};
ghost use Rattle.grammar.specs.recognise.Expressions.{EndsAt, IsExpressionRefusal, IsLongestTreeAt};

use crate::parse_terms::source::Source;
use crate::parse_terms::whole::whole_expression;
use grammar::recognise::{SyntaxFault, expression_end};
use std::alloc::{AllocError, Global};
use surface::Expr;
use tokens_why::Token;

/// The expression that stands from a place up to another.
fn expression_to(
    alloc: Global,
    tokens: &[Token],
    text: &[u8],
    from: usize,
    to: usize,
) -> Result<Expr, AllocError>
    requires tokens { AreTokens text.now tokens.now }
    requires ends { EndsAt text.now tokens.now from to }
    ensures { IfOk result (λ e. IsLongestTreeAt text.now tokens.now from (tree_of e) to) }
{
    let source = Source {
        tokens: &tokens[..to],
        text,
    };
    let tree = whole_expression(alloc, source, from)?;
    Ok(tree)
}

/// The longest expression from a place, with the places of its parts, and where it ends.
///
/// `tokens` are those of `text`. A refusal is `Memory`, or `Syntax` at the least token such that no expression begins with
/// the tokens from the place up to that one (the one after the last, where they end too early). `TooDeep` and `ProgramDecl`
/// never come. The work is linear in the tokens; it calls itself as deep as the tree, whose every level has a token of its own
/// (Why3 manual, "Syntax").
pub fn parse_expr(
    alloc: Global,
    tokens: &[Token],
    text: &[u8],
    from: usize,
) -> Result<(Expr, usize), SyntaxFault>
    requires { AreTokens text.now tokens.now }
    ensures longest { IfOk result (λ p. IsLongestTreeAt text.now tokens.now from (tree_of p.0)
        p.1) }
    ensures refused { IfErr result (IsExpressionRefusal text.now tokens.now from) }
{
    match expression_end(alloc, tokens, from) {
        Ok(to) => {
            let tree = expression_to(alloc, tokens, text, from, to)?;
            Ok((tree, to))
        }
        Err(fault) => Err(fault),
    }
}
