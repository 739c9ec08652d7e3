// The words of transformations and printers.
// They depend on word tables; the steps of the reader depend on them.
ghost use Rattle.std.specs.Prelude.{◌≡◌};
ghost use Rattle.drivers.specs.driver_items.Names.{printer_of, trans_of};

use crate::driver_items::kinds::{Printer, Trans};
use word_tables::WordTable;

const TRANS_WORDS: [&str; 14] = [
    "discriminate",
    "eliminate_algebraic",
    "eliminate_definition",
    "eliminate_if",
    "eliminate_inductive",
    "eliminate_let",
    "eliminate_match",
    "eliminate_recursion",
    "inline_all",
    "inline_goal",
    "inline_trivial",
    "introduce_premises",
    "simplify_formula",
    "split_goal_right",
];

const TRANS: [Trans; 14] = [
    Trans::Discriminate,
    Trans::EliminateAlgebraic,
    Trans::EliminateDefinition,
    Trans::EliminateIf,
    Trans::EliminateInductive,
    Trans::EliminateLet,
    Trans::EliminateMatch,
    Trans::EliminateRecursion,
    Trans::InlineAll,
    Trans::InlineGoal,
    Trans::InlineTrivial,
    Trans::IntroducePremises,
    Trans::SimplifyFormula,
    Trans::SplitGoalRight,
];

const PRINTER_WORDS: [&str; 2] = ["smtv2", "tptp-tff0"];

const PRINTERS: [Printer; 2] = [Printer::Smt, Printer::Tff];

/// The transformation that a word names.
pub fn trans_of(word: &[u8]) -> Option<Trans>
    ensures { result ≡ trans_of word.now }
{
    let table: WordTable<14> = WordTable::new(&TRANS_WORDS);
    let place = table.find(word)?;
    if place < 14 { Some(TRANS[place]) } else { None }
}

/// The printer that a word names.
pub fn printer_of(word: &[u8]) -> Option<Printer>
    ensures { result ≡ printer_of word.now }
{
    let table: WordTable<2> = WordTable::new(&PRINTER_WORDS);
    let place = table.find(word)?;
    if place < 2 {
        Some(PRINTERS[place])
    } else {
        None
    }
}
