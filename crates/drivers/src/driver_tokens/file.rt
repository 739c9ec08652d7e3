// The lines of a driver text, or the first byte that no driver file allows there.
// They depend on the lexer and the machine; the reader of drivers depends on them.
ghost use Rattle.std.specs.Prelude.{◌≡◌, IfErr, IfOk};
ghost use Rattle.drivers.specs.driver_tokens.File.{Cuts, GivesLines, IsDriverRefusal, lines_in, driver_lines, with_line};
ghost use Rattle.drivers.specs.driver_tokens.Lines.{AreOnlyLines};

use crate::driver_tokens::fault::DriverSyntaxFault;
use crate::driver_tokens::lexer::lex_driver;
use crate::driver_tokens::machine::{DriverState, Transition, may_end, step};
use crate::driver_tokens::token::DriverToken;
use std::alloc::{AllocError, Global};

/// A line, by its tokens: those from number `first` up to number `end`.
#[derive(Clone, Copy)]
pub struct DriverLine {
    pub first: usize,
    pub end: usize,
}

/// The tokens of a driver file, and the lines that they make.
#[derive(Drop)]
pub struct DriverText {
    pub tokens: Vec<DriverToken>,
    pub lines: Vec<DriverLine>,
}

/// A line at the end, if it has tokens.
fn put_line(lines: &mut Vec<DriverLine>, first: usize, end: usize) -> Result<(), AllocError>
    ensures { IfOk result (λ u. lines.new.items ≡ with_line lines.old.items first end) }
{
    if first < end {
        lines.push(DriverLine { first, end })?;
    }
    Ok(())
}

fn cut(
    alloc: Global,
    tokens: &[DriverToken],
    length: usize,
) -> Result<Vec<DriverLine>, DriverSyntaxFault>
    ensures { Cuts tokens.now length result }
{
    let mut lines = Vec::new(alloc);
    let mut state = DriverState::Lines(false);
    let mut first = 0;
    for (i, token) in tokens.iter().enumerate() {
        match step(state, token.terminal) {
            Transition::Stuck => return Err(DriverSyntaxFault::Syntax { byte: token.start }),
            Transition::Within(next) => state = next,
            Transition::Begins(next) => {
                put_line(&mut lines, first, i)?;
                first = i;
                state = next;
            }
        }
    }
    if !may_end(state) {
        return Err(DriverSyntaxFault::Syntax { byte: length });
    }
    put_line(&mut lines, first, tokens.len())?;
    Ok(lines)
}

/// The lines of a driver text.
///
/// A refusal names the first token that no driver file allows there, by its byte, or the first byte with which no token
/// begins; the text's length, where it ends too early.
pub fn read_lines(alloc: Global, text: &[u8]) -> Result<DriverText, DriverSyntaxFault>
    ensures exact { GivesLines text.now result (driver_lines text.now) }
    ensures lines { IfOk result (λ its. AreOnlyLines text.now (lines_in text.now its)) }
    ensures refused { IfErr result (IsDriverRefusal text.now) }
{
    let tokens = lex_driver(alloc, text)?;
    match cut(alloc, &tokens, text.len()) {
        Ok(lines) => Ok(DriverText { tokens, lines }),
        Err(fault) => Err(fault),
    }
}
