// Where a token string of a symbol ends, where tokens are none, and what completes them.
ghost use Rattle.std.specs.Prelude.{true, ◌≡◌, [], ◌∷◌, if◌then◌else◌, IfOk, None, Some, length, option_map, reverse};
ghost use Rattle.grammar.specs.Ends.{Completes, IsFirstFault, IsLongest};
ghost use Rattle.grammar.specs.Machine.{is_safe, may_end, run};

use crate::accept::{count_taken, may_be_empty, take_token};
use crate::shortest::completion;
use crate::symbols::Symbol;
use std::alloc::{AllocError, Global};
use tokens_why::Terminal;

/// Where tokens that are no token string of a symbol go wrong.
///
/// The first `place` of them begin one, and with the next token, where there is one, they begin none. `other_stands` says
/// whether the other terminal that was asked for could come after the first `place`.
#[derive(Clone, Copy)]
pub struct SyntaxEnd {
    pub place: usize,
    pub other_stands: bool,
}

/// Whether a stack may be at its end.
fn may_stop(stack: &[Symbol]) -> bool
    ensures { result ≡ may_end (reverse stack.now) }
{
    for symbol in stack {
        if !may_be_empty(*symbol) {
            return false;
        }
    }
    true
}

fn later_end(stack: &[Symbol], i: usize, best: Option<usize>) -> Option<usize>
    ensures { result ≡ if may_end (reverse stack.now) then Some i else best }
{
    if may_stop(stack) { Some(i) } else { best }
}

/// How many tokens, from the first on, are the longest token string of a symbol; none where no such string is one.
pub fn longest_length(
    alloc: Global,
    start: Symbol,
    tokens: &[Terminal],
) -> Result<Option<usize>, AllocError>
    ensures { IfOk result (λ r. IsLongest (start ∷ []) tokens.now (length tokens.now) r) }
{
    let mut stack: Vec<Symbol> = Vec::new(alloc);
    stack.push(start)?;
    let mut best = later_end(&stack, 0, None);
    for (i, x) in tokens.iter().enumerate() {
        if !take_token(&mut stack, *x)? {
            return Ok(best);
        }
        best = later_end(&stack, i + 1, best);
    }
    Ok(best)
}

/// What is on the stack after tokens that begin a token string of a symbol, or none where they begin none.
fn stack_after(
    alloc: Global,
    start: Symbol,
    tokens: &[Terminal],
) -> Result<Option<Vec<Symbol>>, AllocError>
    ensures { IfOk result (λ r. option_map (λ v. reverse v.items) r ≡ run (start ∷ []) tokens.now) }
{
    let mut stack: Vec<Symbol> = Vec::new(alloc);
    stack.push(start)?;
    for x in tokens {
        if !take_token(&mut stack, *x)? {
            return Ok(None);
        }
    }
    Ok(Some(stack))
}

/// What completes tokens to a token string of a symbol, or none where nothing does.
pub fn complete_tokens(
    alloc: Global,
    start: Symbol,
    tokens: &[Terminal],
) -> Result<Option<Vec<Terminal>>, AllocError>
    requires { is_safe (start ∷ []) None ≡ true }
    ensures { IfOk result (λ r. Completes (start ∷ []) tokens.now (option_map (λ v. v.items) r)) }
{
    match stack_after(alloc, start, tokens)? {
        None => Ok(None),
        Some(mut stack) => {
            let missing = completion(alloc, &mut stack)?;
            Ok(Some(missing))
        }
    }
}

/// The least place at which tokens are no token string of a symbol, and whether another terminal could be there; none
/// where they are one.
pub fn first_fault(
    alloc: Global,
    start: Symbol,
    tokens: &[Terminal],
    other: Terminal,
) -> Result<Option<SyntaxEnd>, AllocError>
    ensures { IfOk result (IsFirstFault (start ∷ []) tokens.now other) }
{
    let place = count_taken(alloc, start, tokens)?;
    match stack_after(alloc, start, &tokens[..place])? {
        None => unreachable!(),
        Some(mut stack) => {
            if place == tokens.len() && may_stop(&stack) {
                return Ok(None);
            }
            let other_stands = take_token(&mut stack, other)?;
            Ok(Some(SyntaxEnd {
                place,
                other_stands,
            }))
        }
    }
}
