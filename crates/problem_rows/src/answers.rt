// The answer to a line: what its first letter asks for.
ghost use Rattle.tasks.specs.Meaning.{TaskHeld};
ghost use Rattle.printed_problems.specs.Made.{ProblemHeld};

use crate::given::{Given, bytes_of, library, number_of, theories};
use crate::held::read_task;
use crate::showing::{put_bytes, put_fault, put_names};
use drivers::driver_files::read_driver;
use drivers::driver_items::Printer;
use drivers::driver_parts::Driver;
use name_tables::{problem_names, task_names};
use part_texts::smt_texts::smt_text;
use part_texts::tff_texts::tff_text;
use printed_problems::{Problem, problem};
use std::alloc::{AllocError, Global};
use tasks::Task;
use trees::store::Store;

/// A part, counted from 1, and the number of parts.
type Counts = (usize, usize);

fn put_text(
    alloc: Global,
    out: &mut String,
    terms: &Store,
    one: &Task,
    by: &Driver,
    made: &Problem,
    counts: Counts,
) -> Result<(), AllocError>
    requires held { TaskHeld terms.now one.now }
    requires made_held { ProblemHeld terms.now made.now }
{
    let text = match by.printer {
        Printer::Smt => smt_text(alloc, terms, one, by, made, counts.0, counts.1)?,
        Printer::Tff => tff_text(alloc, terms, one, by, made, counts.0, counts.1)?,
    };
    put_bytes(out, text.as_slice())
}

// The text of a task under a driver, or its fault.
fn put_printed(
    alloc: Global,
    out: &mut String,
    terms: &Store,
    one: &Task,
    by: &Driver,
    counts: Counts,
) -> Result<(), AllocError>
    requires { TaskHeld terms.now one.now }
{
    match problem(alloc, terms, one, by) {
        Ok(made) => put_text(alloc, out, terms, one, by, &made, counts),
        Err(fault) => put_fault(alloc, out, fault),
    }
}

// The same under the driver that was given.
fn put_problem(
    alloc: Global,
    out: &mut String,
    terms: &Store,
    one: &Task,
    driver: &[u8],
    counts: Counts,
) -> Result<(), AllocError>
    requires { TaskHeld terms.now one.now }
{
    let mut files = library(alloc, driver)?;
    let known = theories(alloc)?;
    match read_driver(alloc, &mut files, &one.sig, &known, "d") {
        Ok(by) => put_printed(alloc, out, terms, one, &by, counts),
        Err(_) => out.push_str("no driver"),
    }
}

// The names of a task, or of its problem.
fn put_table(
    alloc: Global,
    out: &mut String,
    terms: &Store,
    one: &Task,
    is_task: bool,
) -> Result<(), AllocError>
    requires { TaskHeld terms.now one.now }
{
    let names = if is_task {
        task_names(alloc, terms, one)?
    } else {
        problem_names(alloc, terms, one)?
    };
    put_names(alloc, out, names.as_slice())
}

// What is asked of a task: its names, those of its problem, or a text, before which two digits stand.
fn put_asked(
    alloc: Global,
    out: &mut String,
    given: &Given,
    letter: u8,
    rest: &[u8],
) -> Result<(), AllocError> {
    let (digits, text) = if letter == b'x' {
        rest.split_at(if rest.len() < 2 { rest.len() } else { 2 })
    } else {
        (b"11".as_slice(), rest)
    };
    let mut terms = Store::new(alloc)?;
    let Some(one) = read_task(alloc, &mut terms, given, text)? else {
        return out.push_str("no task");
    };
    if letter != b'x' {
        return put_table(alloc, out, &terms, &one, letter == b'n');
    }
    let counts = (
        number_of(digits.get(..1).unwrap_or(b"")),
        number_of(digits.get(1..).unwrap_or(b"")),
    );
    put_problem(alloc, out, &terms, &one, given.driver.as_slice(), counts)
}

/// The answer to a line; what is given stays for the lines after it.
pub(crate) fn answer(alloc: Global, given: &mut Given, line: &str) -> Result<String, AllocError> {
    let mut out = String::new(alloc);
    let Some((letter, rest)) = line.as_bytes().split_first() else {
        return Ok(out);
    };
    match *letter {
        b'z' => *given = Given::new(alloc),
        b'y' => given.symbols.push(Vec::from_slice(alloc, rest)?)?,
        b'i' => given.ints = number_of(rest),
        b'd' => given.driver = bytes_of(alloc, rest)?,
        _ => put_asked(alloc, &mut out, given, *letter, rest)?,
    }
    Ok(out)
}
