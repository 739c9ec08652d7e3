// The answer to a line: what comes after its first letter, read as that letter says.
use crate::lines::bytes_of;
use crate::readings::{put_expression, put_library, put_source};
use crate::tokens::{put_place, put_tokens, put_value};
use parser::parse_decls::has_one_file;
use parser::parse_terms::has_one_tree;
use std::alloc::{AllocError, Global};

fn put_answer(alloc: Global, out: &mut String, letter: u8, text: &[u8]) -> Result<(), AllocError> {
    match letter {
        b'l' => put_tokens(alloc, out, text),
        b'v' => put_value(alloc, out, text),
        b'w' => put_place(alloc, out, text),
        b'e' => put_expression(alloc, out, text),
        b's' => put_library(alloc, out, text),
        b'f' => put_source(alloc, out, text),
        _ => out.push_str("no letter"),
    }
}

/// The answer to a line.
pub(crate) fn answer(alloc: Global, line: &str) -> Result<String, AllocError> {
    let mut out = String::new(alloc);
    has_one_file();
    has_one_tree();
    if let Some((letter, rest)) = line.as_bytes().split_first() {
        let text = bytes_of(alloc, rest)?;
        put_answer(alloc, &mut out, *letter, &text)?;
    }
    Ok(out)
}
