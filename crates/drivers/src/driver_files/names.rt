// Names of files: whether one is among others, and that of an imported file.
// They depend on the thin collections; the reading of files depends on them.
ghost use Rattle.std.specs.Prelude.{◌≡◌, ◌||◌, IfOk, if◌then◌else◌, length, nat_eq, string_bytes};
ghost use Rattle.word_tables.specs.Words.{is_same_word};
ghost use Rattle.drivers.specs.driver_files.Reading as spec;

use crate::driver_items::part;
use outside::Text;
use std::alloc::{AllocError, Global};

fn is_name(its: &Text, name: &[u8]) -> bool
    ensures { result ≡ is_same_word its.now name.now }
{
    its.as_slice() == name
}

/// Whether a name is among others.
pub fn is_among(names: &[Text], name: &[u8]) -> bool
    ensures { result ≡ spec.is_named_among names.now name.now }
{
    for its in names {
        if is_name(its, name) {
            return true;
        }
    }
    false
}

/// Whether a file can't be imported: no more files may be read at once, or it is being read.
pub fn is_cycle(room: usize, opened: &[Text], name: &[u8]) -> bool
    ensures { result ≡ (nat_eq room 0 || spec.is_named_among opened.now name.now) }
{
    if room == 0 {
        return true;
    }
    is_among(opened, name)
}

/// Where the last `/` ends, with one byte more.
fn end_with(end: usize, next: usize, byte: u8) -> usize
    ensures { result ≡ (if nat_eq byte 47 then next else end) }
{
    if byte == b'/' { next } else { end }
}

/// How many bytes there are up to the last `/`, with it.
fn folder_end(name: &[u8]) -> usize
    ensures { result ≡ length (spec.folder name.now) }
{
    let mut end = 0;
    for (i, byte) in name.iter().enumerate() {
        end = end_with(end, i + 1, *byte);
    }
    end
}

/// The name of an imported file: the folder of the importing one, and the string.
pub fn name_from(alloc: Global, importer: &[u8], string: &[u8]) -> Result<String, AllocError>
    ensures { IfOk result (λ name. string_bytes name ≡ spec.name_from importer.now string.now) }
{
    let mut bytes = Vec::from_slice(alloc, part(importer, 0, folder_end(importer)))?;
    bytes.extend_from_slice(string)?;
    String::from_utf8_lossy(alloc, &bytes)
}
