// Runs of bytes of one class, where they end.
// They depend on the classes of bytes of sources; the lexer depends on them.
ghost use Rattle.std.specs.Prelude.{◌≡◌, ◌+◌, ◌≤◌, length, drop};
ghost use Rattle.std.specs.List.{prefix_len};
ghost use Rattle.drivers.specs.driver_tokens.Tokens.{is_in_run};

use tokens_why::{is_digit, is_operator_byte, is_word_byte};

/// Bytes that may follow one another in a token.
#[derive(Clone, Copy)]
pub enum Run {
    Word,
    Digit,
    Operator,
}

fn is_in(run: Run, byte: u8) -> bool
    ensures { result ≡ is_in_run run byte }
{
    match run {
        Run::Word => is_word_byte(byte),
        Run::Digit => is_digit(byte),
        Run::Operator => is_operator_byte(byte),
    }
}

/// Where the bytes of a run that stand from a place on end.
pub fn run_end(text: &[u8], from: usize, run: Run) -> usize
    requires { from ≤ length text.now }
    ensures place { result ≡ from + prefix_len (is_in_run run) (drop from text.now) }
    ensures within { (from ≤ result) × (result ≤ length text.now) }
{
    let mut at = from;
    while at < text.len() && is_in(run, text[at]) {
        at += 1;
    }
    at
}
