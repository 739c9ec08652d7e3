// A token of a driver file, by its bytes.
// It depends on the terminals; the lexer and the lines depend on it.
use crate::driver_tokens::terminal::DriverTerminal;

/// A token: what it is, and the bytes from `start` up to `end`.
#[derive(Clone, Copy)]
pub struct DriverToken {
    pub terminal: DriverTerminal,
    pub start: usize,
    pub end: usize,
}
