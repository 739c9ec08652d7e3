// The words of the program: its name, a file, and a fault as its line has it.
// They depend on the messages and on the library of files; the program `why3lift_explain` depends on them.
ghost use Rattle.std.specs.Prelude.{◌≡◌, ℕ, List, [], IfOk, map, string_bytes};
ghost use Rattle.std.specs.Option.{option_map};
ghost use Rattle.statuses.specs.explain.Words as spec;
ghost use Rattle.statuses.specs.explain.Words.{number_after_digits, numbers_from, GivesWords, FileGives, bytes_of};
ghost use Rattle.statuses.specs.declared.explain.words.ExplainFault.TheVariants.{Memory as NoMemory};

use crate::explain::message::{explain, row_for};
use outside::{FetchFault, Library};
use std::alloc::{AllocError, Global};

/// Why there is no message.
///
/// - `Memory`: memory ran out.
/// - `Usage`: the words aren't the program's name, a file and a fault of the table.
/// - `Absent`, `ReadFault`: the file isn't there, or can't be read.
#[derive(Clone, Copy)]
pub enum ExplainFault {
    Memory,
    Usage,
    Absent,
    ReadFault,
}

impl From<AllocError> for ExplainFault {
    ghost from_gives = { λ _ e. e ≡ NoMemory };

    fn from(_: AllocError) -> Self {
        ExplainFault::Memory
    }
}

// The number of decimal digits.
fn digits(word: &[u8]) -> Option<usize>
    ensures { result ≡ number_after_digits 0 word.now }
{
    let mut number = 0u64;
    for c in word {
        if !c.is_ascii_digit() {
            return None;
        }
        let next = u128::from(number) * 10 + u128::from(*c - b'0');
        if next >= 18446744073709551616 {
            return None;
        }
        number = next as u64;
    }
    Some(number as usize)
}

// The number that a word writes.
fn number(word: &[u8]) -> Option<usize>
    ensures { result ≡ spec.decimal_value word.now }
{
    match word {
        [] => None,
        [_, ..] => digits(word),
    }
}

// The numbers that words write; none where one writes no number.
fn numbers(alloc: Global, words: &[String]) -> Result<Option<Vec<usize>>, AllocError>
    ensures { IfOk result (λ o. option_map (λ v. v.items) o
        ≡ numbers_from [] (map string_bytes words.now)) }
{
    let mut all = Vec::new(alloc);
    for word in words {
        match number(word.as_bytes()) {
            Some(n) => all.push(n)?,
            None => return Ok(None),
        }
    }
    Ok(Some(all))
}

// The fault of the words.
fn fault_of(alloc: Global, words: &[String]) -> Result<Option<Vec<usize>>, AllocError>
    ensures { IfOk result (λ o. option_map (λ v. v.items) o
        ≡ spec.fault_in_words (map string_bytes words.now)) }
{
    match words {
        [_, _, rest @ ..] => numbers(alloc, rest),
        _ => Ok(None),
    }
}

fn file_of(words: &[String]) -> &str
    ensures { result.now ≡ spec.file_in_words (map string_bytes words.now) }
{
    match words.get(1) {
        Some(word) => word.as_str(),
        None => "",
    }
}

fn explain_file<L: Library>(
    alloc: Global,
    lib: &mut L,
    file: &str,
    fault: &[usize],
) -> Result<Vec<u8>, ExplainFault>
    ensures files { (L.state lib.new).files ≡ (L.state lib.old).files }
    ensures gives { FileGives file.now fault.now (L.state lib.old) (L.state lib.new)
        (bytes_of result) }
{
    if row_for(fault).is_none() {
        return Err(ExplainFault::Usage);
    }
    match lib.fetch(file, usize::MAX) {
        Ok(bytes) => match explain(alloc, file, &bytes, fault)? {
            Some(text) => Ok(text),
            None => Err(ExplainFault::Usage),
        },
        Err(FetchFault::Memory) => Err(ExplainFault::Memory),
        Err(FetchFault::Absent) => Err(ExplainFault::Absent),
        Err(FetchFault::Failed) => Err(ExplainFault::ReadFault),
    }
}

/// The message that the words ask for: after the program's name stand the file's name, a code and
/// its numbers.
///
/// `Usage` exactly where they don't, or the table has no such code with so many numbers.
pub fn explain_words<L: Library>(
    alloc: Global,
    lib: &mut L,
    words: &[String],
) -> Result<Vec<u8>, ExplainFault>
    ensures files { (L.state lib.new).files ≡ (L.state lib.old).files }
    ensures gives { GivesWords (map string_bytes words.now) (L.state lib.old) (L.state lib.new)
        (bytes_of result) }
{
    match fault_of(alloc, words)? {
        None => Err(ExplainFault::Usage),
        Some(fault) => explain_file(alloc, lib, file_of(words), &fault),
    }
}
