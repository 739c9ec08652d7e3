// Whether tokens are a source, or their first fault.
ghost use Rattle.std.specs.Prelude.{◌≡◌, ◌∷◌, [], List, ℕ, IfOk, IfErr};
ghost use Rattle.grammar.specs.recognise.Common.{IsFault, ScopeWord, rest};
ghost use Rattle.grammar.specs.declared.symbols.Symbol.TheVariants as symbol;
ghost use Rattle.grammar.specs.recognise.Depth.{IsShallow};
ghost use Rattle.grammar.specs.recognise.Sources as spec;
ghost use Rattle.grammar.specs.recognise.Sources.{IsSyntaxRefusal, IsSource};
ghost use Rattle.grammar.specs.recognise.Spans.{terminals_of};

use crate::recognise::depth::too_deep;
use crate::recognise::fault::SyntaxFault;
use crate::recognise::spans::terminals;
use crate::{Symbol, SyntaxEnd, first_fault};
use std::alloc::Global;
use tokens_why::{Terminal, Token};

/// Whether a terminal begins a declaration of programs.
fn begins_program(terminal: Terminal) -> bool
    ensures { result ≡ spec.begins_program terminal }
{
    matches!(terminal, Terminal::LetWord | Terminal::ProgramWord)
}

/// The answer for a fault: that of a program's declaration, where a scope could be in its place.
fn answer(found: &[Terminal], fault: SyntaxEnd) -> SyntaxFault
    requires shallow { IsShallow found.now }
    requires fault { IsFault (symbol.File ∷ []) found.now ScopeWord fault.place fault.other_stands }
    ensures { (text : List ℕ) (ts : List Token) → terminals_of ts ≡ found.now → IsSyntaxRefusal
        (rest text ts 0) result }
{
    let token = fault.place;
    if fault.other_stands && token < found.len() && begins_program(found[token]) {
        SyntaxFault::ProgramDecl { token }
    } else {
        SyntaxFault::Syntax { token }
    }
}

/// Whether the tokens are a source.
///
/// A refusal is `Memory`; else `TooDeep` at the first token that is nested deeper than 200; else `Syntax` at the least token
/// such that no source begins with the tokens up to that one (the number of tokens, where they end too early), or in its place
/// `ProgramDecl`, where that token begins a declaration of programs and a scope could be there (Why3 manual, "Syntax":
/// theories and declarations).
pub fn check_source(alloc: Global, tokens: &[Token]) -> Result<(), SyntaxFault>
    ensures source { (text : List ℕ) → IfOk result (λ u. IsSource (rest text tokens.now 0)) }
    ensures shallow { IfOk result (λ u. IsShallow (terminals_of tokens.now)) }
    ensures refused { (text : List ℕ) → IfErr result (IsSyntaxRefusal (rest text tokens.now 0)) }
{
    let found = terminals(alloc, tokens)?;
    if let Some(token) = too_deep(alloc, &found)? {
        return Err(SyntaxFault::TooDeep { token });
    }
    match first_fault(alloc, Symbol::File, &found, Terminal::ScopeWord)? {
        None => Ok(()),
        Some(fault) => Err(answer(&found, fault)),
    }
}
