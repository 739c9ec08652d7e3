// The words: the program's name, a command and its operands.
// They depend on nothing; a run asks them first.
ghost use Rattle.std.specs.Prelude.{◌≡◌, ◌≤◌, map, string_bytes, IfSome};
ghost use Rattle.statuses.specs.Words.{command_of, is_plain_word, all_plain, command_row, command_among, command_named, part_count, stress_of};

use word_tables::integers::integer;

/// A command that is built.
#[derive(Clone, Copy)]
pub enum Command {
    /// `print SRC DRV THEORY GOAL`
    Print,
    /// `names SRC DRV THEORY GOAL`
    Names,
    /// `check SRC THEORY GOAL DER`
    Check,
    /// `lift SRC DRV THEORY GOAL REF...`
    Lift,
    /// `stress N`, with this N, 1 to 200
    Stress(u64),
}

// Whether a word isn't empty and doesn't begin with `-`.
fn is_plain(word: &str) -> bool
    ensures { result ≡ is_plain_word word.now }
{
    match word.as_bytes() {
        [] => false,
        [c, ..] => *c != b'-',
    }
}

fn all_plain(words: &[String]) -> bool
    ensures { result ≡ all_plain (map string_bytes words.now) }
{
    for word in words {
        if !is_plain(word.as_str()) {
            return false;
        }
    }
    true
}

// A row of the table of commands: a name, how many operands come after it, and whether any number more may.
#[derive(Clone, Copy)]
struct Row {
    name: &'static str,
    operands: usize,
    more: bool,
    command: Command,
}

const COMMANDS: [Row; 4] = [
    Row {
        name: "print",
        operands: 4,
        more: false,
        command: Command::Print,
    },
    Row {
        name: "names",
        operands: 4,
        more: false,
        command: Command::Names,
    },
    Row {
        name: "check",
        operands: 4,
        more: false,
        command: Command::Check,
    },
    Row {
        name: "lift",
        operands: 4,
        more: true,
        command: Command::Lift,
    },
];

// The command of the first row with the name, if so many operands may come after it.
fn find_command(rows: &[Row], name: &str, operands: usize) -> Option<Command>
    ensures { result ≡ command_among (map command_row rows.now) name.now operands }
{
    for row in rows {
        if name == row.name {
            let fits = if row.more {
                row.operands <= operands
            } else {
                row.operands == operands
            };
            return if fits { Some(row.command) } else { None };
        }
    }
    None
}

// The integer of a word, where it is from 1 to 200.
fn part_count(word: &[u8]) -> Option<u64>
    ensures { result ≡ part_count word.now }
{
    match integer(word) {
        Some(n) => {
            if 1 <= n && n <= 200 {
                Some(n as u64)
            } else {
                None
            }
        }
        None => None,
    }
}

// `stress` with its operand.
fn stress_of(operands: &[String]) -> Option<Command>
    ensures { result ≡ stress_of (map string_bytes operands.now) }
{
    match operands {
        [number] => match part_count(number.as_bytes()) {
            Some(parts) => Some(Command::Stress(parts)),
            None => None,
        },
        _ => None,
    }
}

fn read_named(name: &str, operands: &[String]) -> Option<Command>
    ensures { result ≡ command_named name.now (map string_bytes operands.now) }
{
    if name == "stress" {
        return stress_of(operands);
    }
    find_command(&COMMANDS, name, operands.len())
}

/// The command of the words, if they have the shape of one.
pub fn read_command(words: &[String]) -> Option<Command>
    ensures { result ≡ command_of (map string_bytes words.now) }
{
    match words {
        [_, name, operands @ ..] => {
            if is_plain(name.as_str()) && all_plain(operands) {
                read_named(name.as_str(), operands)
            } else {
                None
            }
        }
        _ => None,
    }
}
