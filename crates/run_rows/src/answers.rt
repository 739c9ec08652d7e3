// The answer to a line: the code of the status, what the second sink gained, and what the first one gained. What is lifted is
// checked, and the answer is that of the check.
// It depends on the rows and on the program.
use crate::row::{Row, read_row};
use outside::{MemoryLibrary, MemorySink};
use program::run;
use std::alloc::{AllocError, Global};

// The code of a status, and what the second and the first sink have gained.
#[derive(Drop)]
struct Answer {
    code: u8,
    line: Vec<u8>,
    text: Vec<u8>,
}

fn run_row(alloc: Global, row: Row) -> Result<Answer, AllocError> {
    let Row {
        words,
        files,
        fetches,
        outs,
        errs,
    } = row;
    let mut lib = MemoryLibrary::new(alloc, files, fetches);
    let mut out = MemorySink::new(alloc, outs);
    let mut err = MemorySink::new(alloc, errs);
    let code = run(alloc, &words, &mut lib, &mut out, &mut err).code();
    Ok(Answer {
        code,
        line: Vec::from_slice(alloc, err.written_bytes())?,
        text: Vec::from_slice(alloc, out.written_bytes())?,
    })
}

fn word(words: &[String], at: usize) -> &str {
    match words.get(at) {
        Some(word) => word.as_str(),
        None => "",
    }
}

// The words that check a file against the goal that these words lift to.
fn check_words(alloc: Global, lift: &[String]) -> Result<Vec<String>, AllocError> {
    let mut words = Vec::new(alloc);
    for text in [
        "why3lift",
        "check",
        word(lift, 2),
        word(lift, 4),
        word(lift, 5),
        "@out",
    ] {
        words.push(String::from_str(alloc, text)?)?;
    }
    Ok(words)
}

// What the check of a text answers, over the files of a line.
fn check_text(alloc: Global, line: &str, text: Vec<u8>) -> Result<Answer, AllocError> {
    let mut row = read_row(alloc, line)?;
    row.words = check_words(alloc, &row.words)?;
    row.files.push((String::from_str(alloc, "@out")?, text))?;
    run_row(alloc, row)
}

// Bytes at the end of a text, with a backtick for each line feed.
fn push_bytes(text: &mut Vec<u8>, bytes: &[u8]) -> Result<(), AllocError> {
    for byte in bytes {
        text.push(if *byte == b'\n' { b'`' } else { *byte })?;
    }
    Ok(())
}

fn answer_text(alloc: Global, answer: &Answer) -> Result<String, AllocError> {
    let digits = (answer.code as usize).to_string(alloc)?;
    let mut text = Vec::from_slice(alloc, digits.as_bytes())?;
    text.push(b'\t')?;
    push_bytes(&mut text, &answer.line)?;
    text.push(b'\t')?;
    push_bytes(&mut text, &answer.text)?;
    String::from_utf8_lossy(alloc, &text)
}

/// The answer to a line.
pub(crate) fn describe(alloc: Global, line: &str) -> Result<String, AllocError> {
    let found = run_row(alloc, read_row(alloc, line)?)?;
    if found.code == 0 && line.starts_with("lift ") {
        let again = check_text(alloc, line, found.text)?;
        return answer_text(alloc, &again);
    }
    answer_text(alloc, &found)
}
