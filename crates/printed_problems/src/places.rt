// Which things of a table are asked for, by place.
ghost use Rattle.std.specs.Prelude.{◌≡◌, IfOk};
ghost use Rattle.printed_problems.specs.Tests.{IsKindOf, IsQuestionAnswered, ArePlaces};

use crate::templates::has_template;
use drivers::driver_parts::Driver;
use name_tables::{Things, is_interpreted};
use std::alloc::{AllocError, Global};
use tasks::{SymbolKind, Task};

/// What is asked of a thing.
#[derive(Clone, Copy)]
pub enum Question {
    /// Whether it is an interpreted symbol without a template.
    IsBare,
    /// Whether it is a type that is declared.
    IsSort,
    /// Whether it is a function or predicate that is declared.
    IsDeclared,
}

// Whether a symbol is a type.
fn is_kind(task: &Task, symbol: usize) -> bool
    ensures { IsKindOf task.now symbol result }
{
    let symbols = task.sig.symbols.as_slice();
    if symbol < symbols.len() {
        matches!(symbols[symbol].kind, SymbolKind::Kind)
    } else {
        true
    }
}

// The answer for a symbol.
fn asks(driver: &Driver, task: &Task, question: Question, symbol: usize) -> bool
    ensures { IsQuestionAnswered question driver.now task.now symbol result }
{
    let interpreted = is_interpreted(task.sig.ints, symbol);
    let printed = has_template(driver, symbol);
    let kind = is_kind(task, symbol);
    match question {
        Question::IsBare => interpreted && !printed,
        Question::IsSort => kind && !(symbol == 0 || printed),
        Question::IsDeclared => !(kind || (interpreted || printed)),
    }
}

/// The places of the things for which the answer is yes.
pub(crate) fn places_of(
    alloc: Global,
    driver: &Driver,
    task: &Task,
    things: &Things,
    question: Question,
) -> Result<Vec<usize>, AllocError>
    ensures { IfOk result (λ v. ArePlaces question driver.now task.now things.now v.items) }
{
    let mut places = Vec::new(alloc);
    let keys = things.as_slice();
    for place in 0..keys.len() {
        if asks(driver, task, question, keys[place].0) {
            places.push(place)?;
        }
    }
    Ok(places)
}
