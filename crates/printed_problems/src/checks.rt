// The first fault of a task, declaration by declaration.
ghost use Rattle.std.specs.Prelude.{map, All, IfOk, OnOk};
ghost use Rattle.trees.specs.Node.{tree_at, Holds};
ghost use Rattle.drivers.specs.driver_items.Syntaxes.{syntax_of};
ghost use Rattle.tasks.specs.Meaning.{trees_at, body_at, declarations_at, BodyHeld, DeclHeld};
ghost use Rattle.name_tables.specs.Seen.{KeysHeld};
ghost use Rattle.printed_problems.specs.Faults.{formula_fault, printed_body_fault, printed_type_fault, declaration_faults, first_print_fault, print_fault};
ghost use Rattle.printed_problems.specs.Checks.{MeetsFault, AreFormed, CanCheck, MeetsSeen, bare_fault, the_task};
ghost use Rattle.printed_problems.specs.Checked.{IsChecked, AreChecked};

use crate::checked::Checked;
use crate::fault::PrintFault;
use crate::forms::has_forms;
use drivers::driver_parts::Driver;
use indexmap::IndexSet;
use name_tables::Things;
use std::alloc::{AllocError, Global};
use tasks::{Body, Decl, Task};
use trees::store::{Store, TermId};

/// What a look for faults is given: a task in a store, its driver, what is in its problem's table, and the places of the
/// interpreted symbols without a template.
#[derive(Clone, Copy)]
pub struct Checker<'a> {
    pub store: &'a Store,
    pub task: &'a Task,
    pub driver: &'a Driver,
    pub things: &'a Things,
    pub bare: &'a [usize],
}

// Whether a bare symbol is among what occurs; the one at the least place is told.
fn check_bare(c: &Checker<'_>, seen: &Things) -> Result<(), PrintFault>
    requires can { CanCheck c.now }
    requires seen_held { KeysHeld c.now.store.now seen.now }
    ensures { MeetsFault result (bare_fault c.now seen.now) }
{
    let keys = c.things.as_slice();
    for place in c.bare {
        if seen.contains(c.store, keys[*place]) {
            return Err(PrintFault::NoSyntax { symbol: *place });
        }
    }
    Ok(())
}

// Whether a bare symbol is among what occurs, where there was memory to find that.
fn check_seen(c: &Checker<'_>, seen: Result<Things, AllocError>) -> Result<(), PrintFault>
    requires can { CanCheck c.now }
    requires held { IfOk seen (KeysHeld c.now.store.now) }
    ensures { MeetsSeen c.now seen result }
{
    match seen {
        Ok(seen) => check_bare(c, &seen),
        Err(_) => Err(PrintFault::Memory),
    }
}

// The fault of a formula that is the declaration of a number.
fn check_formula(
    alloc: Global,
    c: &Checker<'_>,
    done: &mut IndexSet<usize>,
    number: usize,
    e: TermId,
) -> Result<(), PrintFault>
    requires can { CanCheck c.now }
    requires done { AreFormed c.now done.old.keys }
    requires held { Holds c.now.store.now e }
    ensures due { MeetsFault result (formula_fault c.now.driver.now (the_task c.now) number (tree_at
        c.now.store.now e)) }
    ensures done { OnOk result (AreFormed c.now done.new.keys) }
{
    if !has_forms(c.store, c.driver.printer, done, e)? {
        return Err(PrintFault::Unprintable { decl: number });
    }
    if c.store.above_type_variables(e) != 0 {
        return Err(PrintFault::Polymorphic { decl: number });
    }
    if c.bare.is_empty() {
        return Ok(());
    }
    check_seen(c, Things::of_term(alloc, c.store, e))
}

// The fault of a formula that is the declaration of a number, which is looked at unless it was found without one.
fn check_once(
    alloc: Global,
    c: &Checker<'_>,
    checked: &mut Checked,
    number: usize,
    e: TermId,
) -> Result<(), PrintFault>
    requires can { CanCheck c.now }
    requires checked { AreChecked c.now checked.old }
    requires held { Holds c.now.store.now e }
    ensures due { MeetsFault result (formula_fault c.now.driver.now (the_task c.now) number (tree_at
        c.now.store.now e)) }
    ensures checked { OnOk result (AreChecked c.now checked.new) }
{
    if checked.faultless.contains(&e.0) {
        return Ok(());
    }
    check_formula(alloc, c, &mut checked.formed, number, e)?;
    checked.faultless.insert(e.0)?;
    Ok(())
}

// The fault of the declaration of a number.
fn check_body(
    alloc: Global,
    c: &Checker<'_>,
    checked: &mut Checked,
    number: usize,
    body: &Body,
) -> Result<(), PrintFault>
    requires can { CanCheck c.now }
    requires checked { AreChecked c.now checked.old }
    requires held { BodyHeld c.now.store.now body.now }
    ensures due { MeetsFault result (printed_body_fault c.now.driver.now (the_task c.now) number
        (body_at
        c.now.store.now body.now)) }
    ensures checked { OnOk result (AreChecked c.now checked.new) }
{
    match body {
        Body::TypeSymbol(_) => Ok(()),
        Body::Symbol(_) => Ok(()),
        Body::Defs(_) => Err(PrintFault::Unprintable { decl: number }),
        Body::Inductives(_) => Err(PrintFault::Unprintable { decl: number }),
        Body::Algebraics(_) => Err(PrintFault::Unprintable { decl: number }),
        Body::Prop(formula) => check_once(alloc, c, checked, number, *formula),
    }
}

// The first fault of declarations.
fn check_declarations(
    alloc: Global,
    c: &Checker<'_>,
    checked: &mut Checked,
    decls: &[Decl],
) -> Result<(), PrintFault>
    requires can { CanCheck c.now }
    requires checked { AreChecked c.now checked.old }
    requires held { All (DeclHeld c.now.store.now) decls.now }
    ensures due { MeetsFault result (first_print_fault
        (declaration_faults c.now.driver.now (the_task c.now) 0
        (declarations_at c.now.store.now decls.now))) }
    ensures checked { OnOk result (AreChecked c.now checked.new) }
{
    for number in 0..decls.len() {
        check_body(alloc, c, checked, number, &decls[number].body)?;
    }
    Ok(())
}

// The first fault of types.
fn check_types(alloc: Global, c: &Checker<'_>, types: &[TermId]) -> Result<(), PrintFault>
    requires can { CanCheck c.now }
    requires held { All (Holds c.now.store.now) types.now }
    ensures { MeetsFault result (first_print_fault
        (map (printed_type_fault c.now.driver.now (the_task c.now))
        (trees_at c.now.store.now types.now))) }
{
    if c.bare.is_empty() {
        return Ok(());
    }
    for ty in types {
        check_seen(c, Things::of_type(alloc, c.store, *ty))?;
    }
    Ok(())
}

// The first fault of formulas that come after so many declarations.
fn check_formulas(
    alloc: Global,
    c: &Checker<'_>,
    checked: &mut Checked,
    number: usize,
    formulas: &[TermId],
) -> Result<(), PrintFault>
    requires can { CanCheck c.now }
    requires checked { AreChecked c.now checked.old }
    requires held { All (Holds c.now.store.now) formulas.now }
    ensures due { MeetsFault result (first_print_fault
        (map (formula_fault c.now.driver.now (the_task c.now)
        number) (trees_at c.now.store.now formulas.now))) }
    ensures checked { OnOk result (AreChecked c.now checked.new) }
{
    for formula in formulas {
        check_once(alloc, c, checked, number, *formula)?;
    }
    Ok(())
}

// The first fault of a task, given what was found without one.
fn check_parts(alloc: Global, c: &Checker<'_>, checked: &mut Checked) -> Result<(), PrintFault>
    requires can { CanCheck c.now }
    requires checked { AreChecked c.now checked.old }
    ensures due { MeetsFault result (print_fault c.now.driver.now (the_task c.now)) }
    ensures checked { OnOk result (AreChecked c.now checked.new) }
{
    let decls = c.task.decls.as_slice();
    check_declarations(alloc, c, checked, decls)?;
    check_types(alloc, c, c.task.params.as_slice())?;
    check_formulas(alloc, c, checked, decls.len(), c.task.locals.as_slice())?;
    check_once(alloc, c, checked, decls.len(), c.task.goal)
}

/// The first fault of a task, given what was found without one in others.
pub(crate) fn check_task(
    alloc: Global,
    c: &Checker<'_>,
    checked: &mut Checked,
) -> Result<(), PrintFault>
    requires can { CanCheck c.now }
    requires checked { IsChecked (syntax_of c.now.driver.now.printer) c.now.store.now checked.old }
    ensures due { MeetsFault result (print_fault c.now.driver.now (the_task c.now)) }
    ensures checked { OnOk result (IsChecked (syntax_of c.now.driver.now.printer) c.now.store.now
        checked.new) }
{
    checked.turn_to(alloc, c.things, c.bare)?;
    check_parts(alloc, c, checked)
}
