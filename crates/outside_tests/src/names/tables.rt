// What names mean after scopes are opened, closed, used and imported, with the answers of the rules of names: entries of
// every table, aliases of types, and look-ups by strings and by bytes.
// They depend on the calls of scopes; nothing depends on them.
use outside::Text;
use scopes::{NameFault, Scope, Table, TypeName};
use std::alloc::Global;
use std::process::Abort;

const MEMORY: &str = "out of memory";

#[derive(Clone, Copy)]
enum Call {
    Open,
    OpenUsed,
    Close,
    Enter(Table, usize),
    Bring(Table, usize),
    EnterType(TypeName),
    BringType(TypeName),
    Import,
    Look(Table),
    LookType,
}

#[derive(Clone, Copy, PartialEq, Eq)]
enum Answer {
    Done,
    Refused(NameFault),
    Found(usize),
    Means(TypeName),
    Nothing,
}

// A call, the name or path that it is made with, and its answer.
type Row = (Call, &'static [&'static str], Answer);

static HIDING: [Row; 14] = [
    (Call::Look(Table::Types), &["t"], Answer::Nothing),
    (Call::Enter(Table::Types, 1), &["t"], Answer::Done),
    (Call::Open, &["S"], Answer::Done),
    (Call::Look(Table::Types), &["t"], Answer::Found(1)),
    (Call::Enter(Table::Types, 2), &["t"], Answer::Done),
    (Call::Look(Table::Types), &["t"], Answer::Found(2)),
    (Call::Look(Table::Types), &["S", "t"], Answer::Found(2)),
    (Call::Look(Table::Symbols), &["t"], Answer::Nothing),
    (Call::Close, &[], Answer::Done),
    (Call::Close, &[], Answer::Nothing),
    (Call::Look(Table::Types), &["t"], Answer::Found(1)),
    (Call::Look(Table::Types), &["S", "t"], Answer::Found(2)),
    (Call::Look(Table::Types), &["S", "t", "t"], Answer::Nothing),
    (Call::Look(Table::Types), &[], Answer::Nothing),
];

static DECLARING: [Row; 9] = [
    (Call::Bring(Table::Symbols, 5), &["f"], Answer::Done),
    (Call::Enter(Table::Symbols, 6), &["f"], Answer::Done),
    (Call::Look(Table::Symbols), &["f"], Answer::Found(6)),
    (
        Call::Enter(Table::Symbols, 7),
        &["f"],
        Answer::Refused(NameFault::Duplicate),
    ),
    (Call::Look(Table::Symbols), &["f"], Answer::Found(6)),
    (Call::Enter(Table::Propositions, 8), &["f"], Answer::Done),
    (Call::Bring(Table::Symbols, 9), &["f"], Answer::Done),
    (Call::Look(Table::Symbols), &["f"], Answer::Found(9)),
    (
        Call::Enter(Table::Symbols, 10),
        &["f"],
        Answer::Refused(NameFault::Duplicate),
    ),
];

static USING: [Row; 15] = [
    (Call::Open, &["T"], Answer::Done),
    (Call::Enter(Table::Symbols, 1), &["f"], Answer::Done),
    (Call::Close, &[], Answer::Done),
    (Call::Open, &["T"], Answer::Refused(NameFault::Duplicate)),
    (Call::OpenUsed, &["T"], Answer::Done),
    (Call::Bring(Table::Symbols, 2), &["f"], Answer::Done),
    (Call::Look(Table::Symbols), &["f"], Answer::Found(2)),
    (Call::Bring(Table::Symbols, 12), &["f"], Answer::Done),
    (Call::Look(Table::Symbols), &["T", "f"], Answer::Found(12)),
    (Call::OpenUsed, &["T"], Answer::Done),
    (Call::Bring(Table::Symbols, 3), &["f"], Answer::Done),
    (Call::Look(Table::Symbols), &["f"], Answer::Found(3)),
    (Call::Bring(Table::Symbols, 13), &["f"], Answer::Done),
    (Call::Look(Table::Symbols), &["T", "f"], Answer::Found(13)),
    (Call::Look(Table::Scopes), &["T"], Answer::Found(3)),
];

static IMPORTING: [Row; 19] = [
    (Call::OpenUsed, &["A"], Answer::Done),
    (Call::Bring(Table::Symbols, 1), &["x"], Answer::Done),
    (Call::OpenUsed, &["B"], Answer::Done),
    (Call::Bring(Table::Types, 2), &["y"], Answer::Done),
    (Call::Close, &[], Answer::Done),
    (Call::Close, &[], Answer::Done),
    (Call::Look(Table::Symbols), &["x"], Answer::Nothing),
    (Call::Look(Table::Types), &["B", "y"], Answer::Nothing),
    (Call::Look(Table::Types), &["A", "B", "y"], Answer::Found(2)),
    (
        Call::Import,
        &["A", "C"],
        Answer::Refused(NameFault::Unknown),
    ),
    (Call::Import, &["x"], Answer::Refused(NameFault::Unknown)),
    (Call::Import, &["A"], Answer::Done),
    (Call::Import, &["A"], Answer::Done),
    (Call::Look(Table::Symbols), &["x"], Answer::Found(1)),
    (Call::Look(Table::Types), &["B", "y"], Answer::Found(2)),
    (Call::Enter(Table::Symbols, 3), &["x"], Answer::Done),
    (Call::Look(Table::Symbols), &["x"], Answer::Found(3)),
    (Call::Import, &["A"], Answer::Done),
    (Call::Look(Table::Symbols), &["x"], Answer::Found(1)),
];

static ALIASES: [Row; 24] = [
    (
        Call::EnterType(TypeName::Alias { vars: 1, ty: 7 }),
        &["a"],
        Answer::Done,
    ),
    (Call::Look(Table::Types), &["a"], Answer::Found(0)),
    (
        Call::LookType,
        &["a"],
        Answer::Means(TypeName::Alias { vars: 1, ty: 7 }),
    ),
    (
        Call::EnterType(TypeName::Entry(3)),
        &["a"],
        Answer::Refused(NameFault::Duplicate),
    ),
    (
        Call::Enter(Table::Types, 3),
        &["a"],
        Answer::Refused(NameFault::Duplicate),
    ),
    (Call::Enter(Table::Types, 3), &["t"], Answer::Done),
    (Call::LookType, &["t"], Answer::Means(TypeName::Entry(3))),
    (Call::OpenUsed, &["S"], Answer::Done),
    (
        Call::BringType(TypeName::Alias { vars: 2, ty: 9 }),
        &["a"],
        Answer::Done,
    ),
    (
        Call::LookType,
        &["a"],
        Answer::Means(TypeName::Alias { vars: 2, ty: 9 }),
    ),
    (Call::BringType(TypeName::Entry(4)), &["a"], Answer::Done),
    (
        Call::LookType,
        &["S", "a"],
        Answer::Means(TypeName::Entry(4)),
    ),
    (
        Call::BringType(TypeName::Alias { vars: 0, ty: 5 }),
        &["b"],
        Answer::Done,
    ),
    (
        Call::EnterType(TypeName::Alias { vars: 3, ty: 8 }),
        &["a"],
        Answer::Done,
    ),
    (Call::Close, &[], Answer::Done),
    (Call::Look(Table::Types), &["a"], Answer::Found(0)),
    (
        Call::LookType,
        &["S", "a"],
        Answer::Means(TypeName::Alias { vars: 3, ty: 8 }),
    ),
    (Call::LookType, &["b"], Answer::Nothing),
    (Call::LookType, &["a", "b"], Answer::Nothing),
    (Call::Import, &["S"], Answer::Done),
    (
        Call::LookType,
        &["b"],
        Answer::Means(TypeName::Alias { vars: 0, ty: 5 }),
    ),
    (Call::Look(Table::Types), &["b"], Answer::Found(0)),
    (Call::Look(Table::Symbols), &["b"], Answer::Nothing),
    (
        Call::LookType,
        &["a"],
        Answer::Means(TypeName::Alias { vars: 3, ty: 8 }),
    ),
];

fn answer_of(made: Result<(), NameFault>) -> Answer {
    match made {
        Ok(()) => Answer::Done,
        Err(fault) => Answer::Refused(fault),
    }
}

fn path(rt: &impl Abort, alloc: Global, words: &[&str]) -> Vec<String> {
    let mut names = Vec::new(alloc);
    for word in words {
        let name = String::from_str(alloc, word).expect(rt, MEMORY);
        names.push(name).expect(rt, MEMORY);
    }
    names
}

fn texts(rt: &impl Abort, alloc: Global, words: &[&str]) -> Vec<Text> {
    let mut names = Vec::new(alloc);
    for word in words {
        let name = Text::from_slice(alloc, word.as_bytes()).expect(rt, MEMORY);
        names.push(name).expect(rt, MEMORY);
    }
    names
}

// What a call answers, which is nothing where no scope is there to be closed.
fn ask(scope: &mut Scope, call: Call, name: &str, path: &[String]) -> Answer {
    match call {
        Call::Open => answer_of(scope.open(name)),
        Call::OpenUsed => answer_of(scope.open_used(name).map_err(NameFault::from)),
        Call::Close if scope.is_nested() => answer_of(scope.close()),
        Call::Close => Answer::Nothing,
        Call::Enter(table, thing) => answer_of(scope.enter(table, name, thing)),
        Call::Bring(table, thing) => {
            answer_of(scope.bring(table, name, thing).map_err(NameFault::from))
        }
        Call::EnterType(thing) => answer_of(scope.enter_type(name, thing)),
        Call::BringType(thing) => {
            answer_of(scope.bring_type(name, thing).map_err(NameFault::from))
        }
        Call::Import => answer_of(scope.import_from(path)),
        Call::Look(table) => scope
            .look(table, path)
            .map_or(Answer::Nothing, Answer::Found),
        Call::LookType => scope.look_type(path).map_or(Answer::Nothing, Answer::Means),
    }
}

const TABLES: [Table; 4] = [
    Table::Types,
    Table::Symbols,
    Table::Propositions,
    Table::Scopes,
];

// Whether look-ups by bytes agree with those by strings.
fn agree(scope: &Scope, path: &[String], texts: &[Text]) -> bool {
    let Some((last, scopes)) = texts.split_last() else {
        return true;
    };
    let name = last.as_slice();
    for table in &TABLES {
        if scope.look_at(*table, scopes, name) != scope.look(*table, path) {
            return false;
        }
    }
    scope.look_type_at(scopes, name) == scope.look_type(path)
}

fn is_right(rt: &impl Abort, alloc: Global, scope: &mut Scope, row: &Row) -> bool {
    let (call, words, answer) = *row;
    let path = path(rt, alloc, words);
    let name = words.last().copied().unwrap_or("");
    let made = ask(scope, call, name, &path);
    made == answer && agree(scope, &path, &texts(rt, alloc, words))
}

// The first row that isn't right.
fn wrong_row(rt: &impl Abort, alloc: Global, rows: &[Row]) -> Option<usize> {
    let mut scope = Scope::new(alloc).expect(rt, MEMORY);
    for (i, row) in rows.iter().enumerate() {
        if !is_right(rt, alloc, &mut scope, row) {
            return Some(i);
        }
    }
    None
}

#[test]
fn names_mean_what_the_rules_say(rt: HostRuntime) {
    let alloc = rt.alloc();
    assert_eq!(rt; wrong_row(&rt, alloc, &HIDING), None);
    assert_eq!(rt; wrong_row(&rt, alloc, &DECLARING), None);
    assert_eq!(rt; wrong_row(&rt, alloc, &USING), None);
    assert_eq!(rt; wrong_row(&rt, alloc, &IMPORTING), None);
    assert_eq!(rt; wrong_row(&rt, alloc, &ALIASES), None);
}
