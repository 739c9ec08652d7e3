// What is between the tokens of a driver: blanks and comments.
// They depend on the comments of sources; the lexer depends on them.
ghost use Rattle.std.specs.Prelude.{◌≡◌, ◌+◌, ◌≤◌, ◌<◌, length, drop};
ghost use Rattle.drivers.specs.driver_tokens.Tokens.{gap_length};

use tokens_why::{comment_end, is_blank, opens_comment};

/// How many bytes the blank or comment at a place takes, or 0 if there is none that is closed.
pub fn piece_length(text: &[u8], at: usize) -> usize
    requires { at < length text.now }
    ensures place { result ≡ gap_length (drop at text.now) }
    ensures within { at + result ≤ length text.now }
{
    if is_blank(text[at]) {
        return 1;
    }
    if !opens_comment(text, at) {
        return 0;
    }
    match comment_end(text, at) {
        Some(end) => end - at,
        None => 0,
    }
}
