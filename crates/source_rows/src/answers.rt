// The answer to a line: whether a source is right, its first fault by its code and numbers, or the task of one of its goals.
ghost use Rattle.tasks.specs.Meaning.{symbols_at};
ghost use Rattle.theory_states.specs.goal_tasks.Meaning.{AllTheoriesHeld, AreTuples};

use parser::std_theories::{drop_file, parse};
use row_texts::{put_declaration, put_number, put_numbered, put_tree};
use std::alloc::{AllocError, Global};
use surface::{File, lex};
use tasks::{Store, Task};
use theories::{SourceFault, type_file};
use theory_states::goal_tasks::{TaskFault, Theories, task_of};

// The code of a fault, its declaration, and its place there, if it has one.
#[derive(Clone, Copy)]
struct CodedFault {
    code: usize,
    decl: usize,
    place: Option<usize>,
}

// Nothing where memory ran out.
fn coded_fault(fault: SourceFault) -> Option<CodedFault> {
    let (code, decl, place) = match fault {
        SourceFault::Memory => return None,
        SourceFault::Unknown { decl, token } => (20, decl, Some(token)),
        SourceFault::Duplicate { decl, token } => (21, decl, Some(token)),
        SourceFault::WrongKind { decl, token } => (22, decl, Some(token)),
        SourceFault::Arity { decl, token } => (23, decl, Some(token)),
        SourceFault::Clash { decl, k } => (30, decl, Some(k)),
        SourceFault::Undetermined { decl, token } => (31, decl, Some(token)),
        SourceFault::NotExhaustive { decl, token } => (32, decl, Some(token)),
        SourceFault::BadClause { decl, clause } => (33, decl, Some(clause)),
        SourceFault::NotPositive { decl, clause } => (34, decl, Some(clause)),
        SourceFault::NotStructural { decl } => (35, decl, None),
        SourceFault::GroupTooWide { decl } => (36, decl, None),
        SourceFault::Uninhabited { decl } => (37, decl, None),
        SourceFault::BadSubstitution { decl, token } => (40, decl, Some(token)),
    };
    Some(CodedFault { code, decl, place })
}

fn put_fault(alloc: Global, text: &mut String, fault: SourceFault) -> Result<(), AllocError> {
    let Some(CodedFault { code, decl, place }) = coded_fault(fault) else {
        return Err(AllocError);
    };
    put_number(alloc, text, code)?;
    put_numbered(alloc, text, " ", decl)?;
    match place {
        Some(place) => put_numbered(alloc, text, " ", place),
        None => Ok(()),
    }
}

// The declarations of a task, its goal, and how many type variables the goal has.
fn put_task(
    alloc: Global,
    text: &mut String,
    store: &Store,
    task: &Task,
) -> Result<(), AllocError> {
    let names = task.sig.symbols.as_slice();
    for decl in task.decls.as_slice() {
        put_declaration(alloc, text, store, names, decl)?;
        text.push_str("; ")?;
    }
    text.push_str("> ")?;
    put_number(alloc, text, task.rigid.len())?;
    text.push_str(" ")?;
    put_tree(alloc, text, store, names, task.goal)
}

// The task of a goal of these theories, or why there is none.
fn put_goal(
    alloc: Global,
    text: &mut String,
    store: &Store,
    all: &Theories,
    theory: &str,
    goal: &str,
) -> Result<(), AllocError>
    requires held { AllTheoriesHeld store.now all.now }
    requires tuples { AreTuples (symbols_at store.now all.now.sig.value.symbols) }
{
    match task_of(alloc, store, all, theory, goal) {
        Ok(task) => put_task(alloc, text, store, &task),
        Err(TaskFault::NoTheory) => text.push_str("60"),
        Err(TaskFault::NoGoal) => text.push_str("61"),
        Err(TaskFault::Memory) => Err(AllocError),
    }
}

// What is asked of a source: whether it is right, or the task of a goal of a theory.
#[derive(Clone, Copy)]
enum Asked<'a> {
    Right,
    TaskOf(&'a str, &'a str),
}

fn put_typed(
    alloc: Global,
    text: &mut String,
    store: &mut Store,
    file: &File,
    asked: Asked,
) -> Result<(), AllocError> {
    match type_file(alloc, store, file) {
        Ok(all) => match asked {
            Asked::Right => text.push_str("right"),
            Asked::TaskOf(theory, goal) => put_goal(alloc, text, store, &all, theory, goal),
        },
        Err(fault) => put_fault(alloc, text, fault),
    }
}

fn put_source(
    alloc: Global,
    text: &mut String,
    source: &str,
    asked: Asked,
) -> Result<(), AllocError> {
    let bytes = source.as_bytes();
    let mut store = Store::new(alloc)?;
    let Ok(tokens) = lex(alloc, bytes) else {
        return text.push_str("no tokens");
    };
    match parse(alloc, &tokens, bytes) {
        Ok(file) => {
            let put = put_typed(alloc, text, &mut store, &file, asked);
            drop_file(file);
            put
        }
        Err(_) => text.push_str("no source"),
    }
}

// A source after the names of a theory and of a goal.
fn put_asked(alloc: Global, text: &mut String, line: &str) -> Result<(), AllocError> {
    let Some((theory, rest)) = line.split_once(' ') else {
        return text.push_str("no theory");
    };
    match rest.split_once(' ') {
        Some((goal, source)) => put_source(alloc, text, source, Asked::TaskOf(theory, goal)),
        None => text.push_str("no goal"),
    }
}

/// The answer to a line: a source, before which `task`, a theory's path and a goal's name may be there.
pub(crate) fn describe(alloc: Global, line: &str) -> Result<String, AllocError> {
    let mut text = String::new(alloc);
    match line.strip_prefix("task ") {
        Some(rest) => put_asked(alloc, &mut text, rest)?,
        None => put_source(alloc, &mut text, line, Asked::Right)?,
    }
    Ok(text)
}
