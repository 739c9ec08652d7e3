// Names as they are printed.
// They depend on texts alone; the entries of a table depend on them.
ghost use Rattle.std.specs.Prelude.{◌≡◌, ◌++◌, map, IfOk, OnOk};
ghost use Rattle.std.specs.List.{flat_map};
ghost use Rattle.name_tables.specs.Spelling.{own_name, spelt, is_spelt_byte, is_prefix_operator_name, fixity, operator_name, clean_byte, lower_case, clean_first, clean, name_at_place};

use std::alloc::{AllocError, Global};
use tasks::Text;

// A name without those of its scopes.
fn own_name(name: &[u8]) -> &[u8]
    ensures { result.now ≡ own_name name.now }
{
    let mut start = 0;
    for place in 0..name.len() {
        if name[place] == b'.' {
            start = place + 1;
        }
    }
    &name[start..]
}

// The word of a character of operators, and nothing for another byte.
fn character_word(byte: u8) -> &'static [u8]
    ensures { result.now ≡ spelt byte }
{
    match byte {
        b'!' => b"_bang",
        b'$' => b"_dollar",
        b'&' => b"_amp",
        b'?' => b"_quest",
        b'@' => b"_at",
        b'^' => b"_caret",
        b'#' => b"_hash",
        b'=' => b"_eq",
        b'<' => b"_lt",
        b'>' => b"_gt",
        b'~' => b"_tilde",
        b'+' => b"_plus",
        b'-' => b"_minus",
        b'*' => b"_star",
        b'/' => b"_slash",
        b'\\' => b"_back",
        b'%' => b"_pct",
        _ => b"",
    }
}

fn is_operator_byte(byte: u8) -> bool
    ensures { result ≡ is_spelt_byte byte }
{
    match character_word(byte) {
        [] => false,
        _ => true,
    }
}

// Whether an operator's name is that of a prefix operator.
fn is_prefix(name: &[u8]) -> bool
    ensures { result ≡ is_prefix_operator_name name.now }
{
    match name.last() {
        Some(byte) => *byte == b'_',
        None => false,
    }
}

fn fixity(prefix: bool) -> &'static [u8]
    ensures { result.now ≡ fixity prefix }
{
    if prefix { b"prefix" } else { b"infix" }
}

// Appends the words of the characters of an operator.
fn push_spelt(made: &mut Vec<u8>, name: &[u8]) -> Result<(), AllocError>
    ensures { OnOk result (made.new.items ≡ made.old.items ++ flat_map spelt name.now) }
{
    for byte in name {
        made.extend_from_slice(character_word(*byte))?;
    }
    Ok(())
}

fn push_operator(made: &mut Vec<u8>, name: &[u8]) -> Result<(), AllocError>
    ensures { OnOk result (made.new.items ≡ made.old.items ++ operator_name name.now) }
{
    made.extend_from_slice(fixity(is_prefix(name)))?;
    push_spelt(made, name)
}

// A byte of a name that isn't an operator's.
fn clean_byte(byte: u8) -> u8
    ensures { result ≡ clean_byte byte }
{
    if byte == b'\'' { b'q' } else { byte }
}

// A letter in lower case.
fn lower(byte: u8) -> u8
    ensures { result ≡ lower_case byte }
{
    if b'A' <= byte && byte <= b'Z' {
        byte + 32
    } else {
        byte
    }
}

fn push_first(made: &mut Vec<u8>, byte: u8) -> Result<(), AllocError>
    ensures { OnOk result (made.new.items ≡ made.old.items ++ clean_first byte) }
{
    if byte == b'_' {
        made.extend_from_slice(b"u_")?;
        return Ok(());
    }
    made.push(lower(clean_byte(byte)))?;
    Ok(())
}

// The bytes of a name after its first one.
fn push_rest(made: &mut Vec<u8>, rest: &[u8]) -> Result<(), AllocError>
    ensures { OnOk result (made.new.items ≡ made.old.items ++ map clean_byte rest.now) }
{
    for byte in rest {
        made.push(clean_byte(*byte))?;
    }
    Ok(())
}

// Appends a name in letters, digits and `_`.
fn push_clean(made: &mut Vec<u8>, name: &[u8]) -> Result<(), AllocError>
    ensures { OnOk result (made.new.items ≡ made.old.items ++ clean name.now) }
{
    match name {
        [] => Ok(()),
        [first, rest @ ..] => {
            if is_operator_byte(*first) {
                return push_operator(made, name);
            }
            push_first(made, *first)?;
            push_rest(made, rest)
        }
    }
}

/// The name under which a symbol is printed that is at a place.
pub fn name_at_place(alloc: Global, name: &[u8], place: usize) -> Result<Text, AllocError>
    ensures { IfOk result (λ v. v ≡ name_at_place name.now place) }
{
    let mut made = Vec::new(alloc);
    push_clean(&mut made, own_name(name))?;
    made.push(b'_')?;
    let digits = place.to_string(alloc)?;
    made.extend_from_slice(digits.as_bytes())?;
    Ok(Text::from_vec(made))
}
