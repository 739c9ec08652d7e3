// A template, with numbers for its marks.
// It depends on nothing; the files of `stress` depend on it.
ghost use Rattle.std.specs.Prelude.{◌≡◌, ℕ, List, ◌∷◌, ◌++◌, drop, IfOk, OnOk};
ghost use Rattle.stress_gen.specs.Texts.{filled};

use std::alloc::{AllocError, Global};

// Appends a byte of a template, or for a mark the next number, if there is one: how many numbers are used after it.
fn push_next(
    alloc: Global,
    text: &mut Vec<u8>,
    byte: u8,
    numbers: &[u64],
    used: usize,
) -> Result<usize, AllocError>
    ensures { IfOk result (λ n. (bytes : List ℕ)
        → text.new.items ++ filled bytes (drop n numbers.now)
        ≡ text.old.items ++ filled (byte ∷ bytes) (drop used numbers.now)) }
{
    if byte == b'%' {
        if let Some(number) = numbers.get(used) {
            let digits = number.to_string(alloc)?;
            text.extend_from_slice(digits.as_bytes())?;
            return Ok(used + 1);
        }
    }
    text.push(byte)?;
    Ok(used)
}

/// Appends a template with these numbers in turn for its marks, `%`.
pub(crate) fn push_filled(
    alloc: Global,
    text: &mut Vec<u8>,
    template: &[u8],
    numbers: &[u64],
) -> Result<(), AllocError>
    ensures { OnOk result (text.new.items ≡ text.old.items ++ filled template.now numbers.now) }
{
    let mut used = 0;
    for byte in template {
        used = push_next(alloc, text, *byte, numbers, used)?;
    }
    Ok(())
}
