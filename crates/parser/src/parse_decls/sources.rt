// The file of a source, or its first fault.
ghost use Rattle.parser.specs.parse_decls.Common.{IfOk, IfErr, rest, terminals, file_of};
ghost use Rattle.tokens_why.specs.Tokens.{AreTokens};
ghost use Rattle.grammar.specs.recognise.Depth.{IsShallow};
ghost use Rattle.grammar.specs.recognise.Sources.{IsOnlyFile, IsSyntaxRefusal, IsSource};

use crate::parse_decls::files::whole_file;
use crate::parse_terms::Source;
use grammar::recognise::{SyntaxFault, check_source};
use std::alloc::{AllocError, Global};
use surface::File;
use tokens_why::Token;

/// The file of tokens that are a source.
fn file_of_source(alloc: Global, tokens: &[Token], text: &[u8]) -> Result<File, AllocError>
    requires tokens { AreTokens text.now tokens.now }
    requires source { IsSource (rest text.now tokens.now 0) }
    ensures { IfOk result (λ f. IsOnlyFile (rest text.now tokens.now 0) (file_of f)) }
{
    let source = Source { tokens, text };
    let whole = whole_file(alloc, source)?;
    Ok(whole)
}

/// The file whose tokens these are, with the place of each part.
///
/// `tokens` are those of `text`. A refusal is `Memory`; else `TooDeep` at the first token that is nested deeper than 200; else
/// `Syntax` at the least token such that no source begins with the tokens up to that one (the number of tokens, where they end
/// too early), or in its place `ProgramDecl`, where that token begins a declaration of a program and a scope could be there
/// (Why3 manual, "Syntax": theories and declarations).
pub fn parse(alloc: Global, tokens: &[Token], text: &[u8]) -> Result<File, SyntaxFault>
    requires { AreTokens text.now tokens.now }
    ensures file { IfOk result (λ f. IsOnlyFile (rest text.now tokens.now 0) (file_of f)) }
    ensures shallow { IfOk result (λ f. IsShallow (terminals (rest text.now tokens.now 0))) }
    ensures refused { IfErr result (IsSyntaxRefusal (rest text.now tokens.now 0)) }
{
    match check_source(alloc, tokens) {
        Ok(()) => {
            let whole = file_of_source(alloc, tokens, text)?;
            Ok(whole)
        }
        Err(fault) => Err(fault),
    }
}
