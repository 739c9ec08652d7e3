// A row of the table of faults.
// It depends on nothing; the answers depend on it.

/// A row: a code, the names of the numbers after it, and the words.
#[derive(Clone, Copy)]
pub struct Row<'a> {
    pub code: usize,
    pub numbers: &'a str,
    pub words: &'a str,
}

impl Row<'_> {
    /// How many numbers come after the code.
    pub fn count(&self) -> usize {
        if self.numbers.is_empty() {
            0
        } else {
            self.numbers.split(',').count()
        }
    }
}

/// The row of a line, if it is one: its first cell is a code.
pub fn read_row(line: &str) -> Option<Row<'_>> {
    let cells = line.strip_prefix("| ")?;
    let (code, cells) = cells.split_once('|')?;
    let (numbers, cells) = cells.split_once('|')?;
    let (words, _) = cells.split_once('|')?;
    match code.trim().parse::<usize>() {
        Ok(code) => Some(Row {
            code,
            numbers: numbers.trim(),
            words: words.trim(),
        }),
        Err(_) => None,
    }
}
