// A row: its words, the files of its library, and the calls of the outside that fail.
// It depends on nothing; the answers depend on it.
use std::alloc::{AllocError, Global};

/// The words of a run, the program's name first; files by name; the fetches and the puts that fail, by their numbers.
#[derive(Drop)]
pub struct Row {
    pub words: Vec<String>,
    pub files: Vec<(String, Vec<u8>)>,
    pub fetches: Vec<u64>,
    pub outs: Vec<(u64, usize)>,
    pub errs: Vec<(u64, usize)>,
}

// The bytes of a text, in which a backtick stands for a line feed.
fn decode(alloc: Global, text: &str) -> Result<Vec<u8>, AllocError> {
    let mut bytes = Vec::new(alloc);
    for byte in text.as_bytes() {
        bytes.push(if *byte == b'`' { b'\n' } else { *byte })?;
    }
    Ok(bytes)
}

fn number(word: &str) -> u64 {
    word.parse::<u64>().unwrap_or(0)
}

// The number of a put that fails, and how many bytes it takes.
fn failing_put(text: &str) -> (u64, usize) {
    match text.split_once(' ') {
        Some((call, taken)) => (number(call), taken.parse::<usize>().unwrap_or(0)),
        None => (number(text), 0),
    }
}

// A file of blanks, one byte longer than a file may be.
fn push_long(alloc: Global, row: &mut Row, name: &str) -> Result<(), AllocError> {
    let name = String::from_str(alloc, name)?;
    let bytes = vec![in alloc; b' '; 67_108_865]?;
    row.files.push((name, bytes))?;
    Ok(())
}

fn push_file(alloc: Global, row: &mut Row, field: &str) -> Result<(), AllocError> {
    if let Some((name, text)) = field.split_once('=') {
        let file = (String::from_str(alloc, name)?, decode(alloc, text)?);
        row.files.push(file)?;
    }
    Ok(())
}

// A field is a call that fails, a long file, or a file.
fn push_field(alloc: Global, row: &mut Row, field: &str) -> Result<(), AllocError> {
    if let Some(call) = field.strip_prefix("!fetch ") {
        row.fetches.push(number(call))?;
        return Ok(());
    }
    if let Some(put) = field.strip_prefix("!out ") {
        row.outs.push(failing_put(put))?;
        return Ok(());
    }
    if let Some(put) = field.strip_prefix("!err ") {
        row.errs.push(failing_put(put))?;
        return Ok(());
    }
    match field.strip_prefix("!long ") {
        Some(name) => push_long(alloc, row, name),
        None => push_file(alloc, row, field),
    }
}

// The words of a text after the program's name; an empty text has none.
fn words_of(alloc: Global, text: &str) -> Result<Vec<String>, AllocError> {
    let mut words = Vec::new(alloc);
    words.push(String::from_str(alloc, "why3lift")?)?;
    if !text.is_empty() {
        for word in text.split(' ') {
            words.push(String::from_str(alloc, word)?)?;
        }
    }
    Ok(words)
}

/// The row of a line: its words with a blank between two, and then fields, a tab before each.
pub fn read_row(alloc: Global, line: &str) -> Result<Row, AllocError> {
    let (words, fields) = line.split_once('\t').unwrap_or((line, ""));
    let mut row = Row {
        words: words_of(alloc, words)?,
        files: Vec::new(alloc),
        fetches: Vec::new(alloc),
        outs: Vec::new(alloc),
        errs: Vec::new(alloc),
    };
    for field in fields.split('\t') {
        push_field(alloc, &mut row, field)?;
    }
    Ok(row)
}
