// Classes of bytes, and the bytes at a place of a text.
ghost use Rattle.std.specs.Prelude.{◌≡◌, ◌+◌, ◌<◌, ◌≤◌, ◌&&◌, nat_eq, length, drop};
ghost use Rattle.tokens_why.specs.Common.{prefix_len};
ghost use Rattle.tokens_why.specs.Bytes as spec;
ghost use Rattle.tokens_why.specs.Classes.{is_in_class};
ghost use Rattle.tokens_why.specs.Gap.{byte_in, has_pair};
ghost use Rattle.tokens_why.specs.Literal as literal;

/// Bytes that may follow one another in a token or an attribute.
#[derive(Clone, Copy)]
pub enum Class {
    Word,
    Operator,
    DigitOrLine(u8),
    NoBracket,
}

/// Whether a byte is a blank: a space, a tab, a line feed or a carriage return.
pub fn is_blank(byte: u8) -> bool
    ensures { result ≡ spec.is_blank byte }
{
    byte == b' ' || byte == b'\t' || byte == b'\n' || byte == b'\r'
}

/// Whether a byte is a digit from 0 to 9.
pub fn is_digit(byte: u8) -> bool
    ensures { result ≡ spec.is_digit byte }
{
    b'0' <= byte && byte <= b'9'
}

/// Whether a byte is a letter in upper case.
pub fn is_upper(byte: u8) -> bool
    ensures { result ≡ spec.is_upper byte }
{
    b'A' <= byte && byte <= b'Z'
}

/// Whether a byte is a letter in lower case or `_`.
pub fn is_lower(byte: u8) -> bool
    ensures { result ≡ spec.is_lower byte }
{
    b'a' <= byte && byte <= b'z' || byte == b'_'
}

/// Whether a byte is a letter or `_`.
pub fn is_letter(byte: u8) -> bool
    ensures { result ≡ spec.is_letter byte }
{
    is_lower(byte) || is_upper(byte)
}

/// Whether a byte may be in a word after its first one.
pub fn is_word_byte(byte: u8) -> bool
    ensures { result ≡ spec.is_word_byte byte }
{
    is_letter(byte) || is_digit(byte) || byte == b'\''
}

/// Whether a byte may be in an operator.
pub fn is_operator_byte(byte: u8) -> bool
    ensures { result ≡ spec.is_operator_byte byte }
{
    matches!(
        byte,
        b'!' | b'$'
            | b'&'
            | b'?'
            | b'@'
            | b'^'
            | b'#'
            | b'='
            | b'<'
            | b'>'
            | b'~'
            | b'+'
            | b'-'
            | b'*'
            | b'/'
            | b'\\'
            | b'%'
    )
}

/// The value of a digit, letters counting on from 10, and 36 for any other byte.
pub fn digit_value(byte: u8) -> u8
    ensures { result ≡ literal.digit_value byte }
{
    match byte {
        b'0'..=b'9' => byte - b'0',
        b'a'..=b'z' => byte - b'a' + 10,
        b'A'..=b'Z' => byte - b'A' + 10,
        _ => 36,
    }
}

/// The radix that a letter after `0` names, or 0.
pub fn radix_of(byte: u8) -> u8
    ensures { result ≡ literal.radix_of byte }
{
    match byte {
        b'x' | b'X' => 16,
        b'o' | b'O' => 8,
        b'b' | b'B' => 2,
        _ => 0,
    }
}

fn is_in(class: Class, byte: u8) -> bool
    ensures { result ≡ is_in_class class byte }
{
    match class {
        Class::Word => is_word_byte(byte),
        Class::Operator => is_operator_byte(byte),
        Class::DigitOrLine(radix) => digit_value(byte) < radix || byte == b'_',
        Class::NoBracket => byte != b']',
    }
}

/// Where the bytes of a class that stand from a place on end.
pub fn class_end(text: &[u8], from: usize, class: Class) -> usize
    requires { from ≤ length text.now }
    ensures place { result ≡ from + prefix_len (is_in_class class) (drop from text.now) }
    ensures within { result ≤ length text.now }
{
    let mut at = from;
    while at < text.len() && is_in(class, text[at]) {
        at += 1;
    }
    at
}

/// Whether this byte is at a place.
pub fn is_byte(text: &[u8], at: usize, byte: u8) -> bool
    ensures { result ≡ nat_eq (byte_in text.now at) byte }
{
    if at < text.len() {
        text[at] == byte
    } else {
        false
    }
}

/// Whether these two bytes are at a place.
pub fn is_pair(text: &[u8], at: usize, first: u8, second: u8) -> bool
    requires { at < length text.now }
    ensures { result ≡ has_pair first second (drop at text.now) }
{
    is_byte(text, at, first) && is_byte(text, at + 1, second)
}
