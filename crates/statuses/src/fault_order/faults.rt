// What is wrong with the input, and why there is no text.
// It depends on nothing; every part of a run answers these.
ghost use Rattle.std.specs.Prelude.{◌≡◌};
ghost use Rattle.statuses.specs.declared.fault_order.faults.RunFault.TheVariants.{Memory as NoMemory};

use std::alloc::{AllocError, AllocFailed};

/// What is wrong with the input. Bytes, tokens, declarations, files, stages and places count from 0, lines and
/// parts from 1.
#[derive(Clone, Copy)]
pub enum Fault {
    /// 10: no token, blank, comment or attribute begins at this byte, or one that isn't closed begins there.
    Lexical { byte: usize },
    /// 11: a literal that begins there exceeds 2^127 - 1.
    BigLiteral { byte: usize },
    /// 12: no source begins with the tokens up to this one.
    Syntax { token: usize },
    /// 13: the first token at which the depth is above 200.
    TooDeep { token: usize },
    /// 14: a declaration of programs where a declaration is due.
    ProgramDecl { token: usize },
    /// 15: a file of more than 67,108,864 bytes.
    TooLong { file: usize },
    /// 20: a name or type variable isn't there.
    Unknown { decl: usize, token: usize },
    /// 21: a name is made twice.
    Duplicate { decl: usize, token: usize },
    /// 22: a term stands for a formula or the other way round, or alternatives bind different names.
    WrongKind { decl: usize, token: usize },
    /// 23: another number of arguments.
    Arity { decl: usize, token: usize },
    /// 30: the type equations up to this one have no solution.
    Clash { decl: usize, k: usize },
    /// 31: a node whose types the equations leave open.
    Undetermined { decl: usize, token: usize },
    /// 32: a value shape escapes all branches.
    NotExhaustive { decl: usize, token: usize },
    /// 33: a clause of another form.
    BadClause { decl: usize, clause: usize },
    /// 34: a clause in which a predicate of its group is in a place that isn't allowed.
    NotPositive { decl: usize, clause: usize },
    /// 35: no choice of argument positions descends.
    NotStructural { decl: usize },
    /// 36: a recursive group that is too wide.
    GroupTooWide { decl: usize },
    /// 37: a type without a finite value.
    Uninhabited { decl: usize },
    /// 40: a clone element that doesn't fit.
    BadSubstitution { decl: usize, token: usize },
    /// 50: the driver's syntax.
    DriverSyntax { file: usize, byte: usize },
    /// 51: a transformation that isn't known.
    UnknownTransformation { file: usize, byte: usize },
    /// 52: a template without each argument once.
    BadTemplate { file: usize, byte: usize },
    /// 53: a name that a known theory hasn't.
    UnknownSymbol { file: usize, byte: usize },
    /// 54: a file that is being read, or too many of them.
    ImportCycle { file: usize, byte: usize },
    /// 55: a printer that isn't known, or none.
    UnknownPrinter { file: usize, byte: usize },
    /// 60: no such theory.
    NoTheory,
    /// 61: no such goal.
    NoGoal,
    /// 70: a declaration that the stage forbids.
    Misplaced { stage: usize, decl: usize },
    /// 71: a task that is too large after the stage.
    TooLarge { stage: usize },
    /// 80: a polymorphic proposition.
    Polymorphic { part: usize, decl: usize },
    /// 81: a declaration that the printer lacks.
    Unprintable { part: usize, decl: usize },
    /// 82: a symbol without a template.
    NoSyntax { part: usize, symbol: usize },
    /// 90: another number of refutations than of problems.
    PartCount { want: usize, have: usize },
    /// 91: the first wrong line of a step file.
    WrongLine { part: usize, line: u64 },
}

/// Why there is no text.
#[derive(Clone, Copy)]
pub enum RunFault {
    Memory,
    Absent { file: usize },
    ReadFault { file: usize },
    Refused(Fault),
}

impl From<AllocError> for RunFault {
    ghost from_gives = { λ _ e. e ≡ NoMemory };

    fn from(_: AllocError) -> Self {
        RunFault::Memory
    }
}

impl<T: Drop> From<AllocFailed<T>> for RunFault {
    ghost from_gives = { λ _ e. e ≡ NoMemory };

    fn from(_: AllocFailed<T>) -> Self {
        RunFault::Memory
    }
}
