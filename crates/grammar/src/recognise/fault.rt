// Why tokens are no source.
ghost use Rattle.std.specs.Prelude.{◌≡◌};
ghost use Rattle.grammar.specs.declared.recognise.fault.SyntaxFault.TheVariants.{Memory as NoMemory};

use std::alloc::AllocError;

/// Why tokens are no source. Tokens count from 0.
///
/// - `Memory`: memory ran out.
/// - `Syntax`: no source begins with the tokens up to this one, or the tokens end too early.
/// - `TooDeep`: this token is nested too deeply.
/// - `ProgramDecl`: at this token a declaration of a program begins.
#[derive(Clone, Copy)]
pub enum SyntaxFault {
    Memory,
    Syntax { token: usize },
    TooDeep { token: usize },
    ProgramDecl { token: usize },
}

impl From<AllocError> for SyntaxFault {
    ghost from_gives = { λ _ e. e ≡ NoMemory };

    fn from(_: AllocError) -> Self {
        SyntaxFault::Memory
    }
}
