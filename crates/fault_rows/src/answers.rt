// What is said of each row of the table, and of each code that has none.
// It depends on the rows and on `explain`.
use crate::row::{Row, read_row};
use statuses::explain::explain;
use std::alloc::{AllocError, Global};

// Its byte 2 is in line 1 and its token 2 begins line 2, so that a message tells what a number 2 counts.
const TEXT: &[u8] = b"a b\nc d\n";

// The codes have two digits.
const CODES: usize = 100;

// The first line of the message of a code with so many numbers, if there is one.
fn head_of(alloc: Global, code: usize, count: usize) -> Result<Option<String>, AllocError> {
    let all = [code, 2, 2, 2];
    let fault = if count < 4 {
        &all[..count + 1]
    } else {
        &all[..0]
    };
    match explain(alloc, "f", TEXT, fault)? {
        None => Ok(None),
        Some(message) => {
            let text = String::from_utf8_lossy(alloc, &message)?;
            let head = text.lines().next().unwrap_or("");
            Ok(Some(String::from_str(alloc, head)?))
        }
    }
}

// The words of a line as `f:2:1: unknown name (refused: 20 2 2)`.
fn words_of(head: &str) -> &str {
    let (_, rest) = head.split_once(": ").unwrap_or(("", head));
    let (words, _) = rest.split_once(" (refused:").unwrap_or((rest, ""));
    words
}

fn row_text(alloc: Global, row: Row<'_>) -> Result<String, AllocError> {
    let code = row.code;
    let numbers = row.numbers;
    match head_of(alloc, code, row.count())? {
        None => format!(in alloc; "{code} {numbers}: no explanation has such numbers\n"),
        Some(head) => {
            if words_of(head.as_str()) == row.words {
                format!(in alloc; "{code} {numbers}: {head}\n")
            } else {
                format!(in alloc; "{code} {numbers}: other words than {head}\n")
            }
        }
    }
}

fn is_explained(alloc: Global, code: usize) -> Result<bool, AllocError> {
    for count in 0..4 {
        if head_of(alloc, code, count)?.is_some() {
            return Ok(true);
        }
    }
    Ok(false)
}

/// A line for each row of the document: its code and numbers, and what `explain` says of them, or that the words are
/// others. Then a line for each code that `explain` has and the document hasn't.
pub fn describe(alloc: Global, document: &str) -> Result<String, AllocError> {
    let mut text = String::new(alloc);
    let mut codes = Vec::new(alloc);
    for line in document.lines() {
        if let Some(row) = read_row(line) {
            codes.push(row.code)?;
            text.push_str(row_text(alloc, row)?.as_str())?;
        }
    }
    for code in 0..CODES {
        if !codes.contains(&code) && is_explained(alloc, code)? {
            text.push_str(format!(in alloc; "{code}: no row\n")?.as_str())?;
        }
    }
    Ok(text)
}
