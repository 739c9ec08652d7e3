// The names of symbols after those of their scopes, joined by dots.
// They depend on bytes alone; drivers and the names of fields depend on them.
ghost use Rattle.std.specs.Prelude.{◌≡◌};
ghost use Rattle.tokens_why.specs.OwnNames.{is_lower_own, is_lower_after_dot};

use crate::bytes::is_upper;

/// Whether a name without those of its scopes begins otherwise than in upper case: that of `S.a` does, those of `S.C` and
/// `S.C'1` don't.
#[cycle(own_name)]
pub fn is_lower_own(name: &[u8]) -> bool
    ensures { result ≡ is_lower_own name.now }
{
    match name.split_first() {
        Some((first, rest)) => {
            if is_upper(*first) {
                is_lower_after_dot(rest)
            } else {
                true
            }
        }
        None => false,
    }
}

// The same after the first letter of a scope or of the name.
#[cycle(own_name)]
fn is_lower_after_dot(name: &[u8]) -> bool
    ensures { result ≡ is_lower_after_dot name.now }
{
    match name.split_first() {
        Some((first, rest)) => {
            if *first == b'.' {
                is_lower_own(rest)
            } else {
                is_lower_after_dot(rest)
            }
        }
        None => false,
    }
}
