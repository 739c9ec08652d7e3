// Why a text has no tokens.
ghost use Rattle.std.specs.Prelude.{◌≡◌};
ghost use Rattle.tokens_why.specs.declared.fault.LexFault.TheVariants.{Memory as NoMemory};

use std::alloc::{AllocError, AllocFailed};

/// Why a text has no tokens. Bytes count from 0.
///
/// - `Memory`: memory ran out.
/// - `Lexical`: at this byte no token, blank, comment or attribute begins, or a comment or attribute that isn't closed.
/// - `BigLiteral`: the integer literal that begins at this byte exceeds 2^127 - 1.
#[derive(Clone, Copy)]
pub enum LexFault {
    Memory,
    Lexical { byte: usize },
    BigLiteral { byte: usize },
}

impl From<AllocError> for LexFault {
    ghost from_gives = { λ _ e. e ≡ NoMemory };

    fn from(_: AllocError) -> Self {
        LexFault::Memory
    }
}

impl<T: Drop> From<AllocFailed<T>> for LexFault {
    ghost from_gives = { λ _ e. e ≡ NoMemory };

    fn from(_: AllocFailed<T>) -> Self {
        LexFault::Memory
    }
}
