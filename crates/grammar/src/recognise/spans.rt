// What tokens are to the grammar, from one token on.
ghost use Rattle.std.specs.Prelude.{◌≡◌, drop, IfOk};
ghost use Rattle.grammar.specs.recognise.Spans.{terminals_of};

use std::alloc::{AllocError, Global};
use tokens_why::{Terminal, Token, classify};

/// The terminals of tokens.
pub fn terminals(alloc: Global, tokens: &[Token]) -> Result<Vec<Terminal>, AllocError>
    ensures { IfOk result (λ v. v.items ≡ terminals_of tokens.now) }
{
    let mut found = Vec::new(alloc);
    for token in tokens {
        found.push(classify(token.kind))?;
    }
    Ok(found)
}

/// The terminals of the tokens from one on; beyond the last there are none.
pub fn terminals_from(
    alloc: Global,
    tokens: &[Token],
    from: usize,
) -> Result<Vec<Terminal>, AllocError>
    ensures { IfOk result (λ v. v.items ≡ terminals_of (drop from tokens.now)) }
{
    if from < tokens.len() {
        terminals(alloc, &tokens[from..])
    } else {
        Ok(Vec::new(alloc))
    }
}
