// Whether a printer has all forms of a term. A term that is shared is looked at once.
ghost use Rattle.std.specs.Prelude.{◌≡◌, IfOk};
ghost use Rattle.trees.specs.Node.{tree_at, head_of_node, Holds};
ghost use Rattle.drivers.specs.driver_items.Syntaxes.{syntax_of};
ghost use Rattle.printed_problems.specs.Faults.{is_smt, has_head, has_forms};
ghost use Rattle.printed_problems.specs.Checks.{HaveForms, LooksAt, parts_have_forms};

use drivers::driver_items::{Printer, Syntax, syntax_of};
use indexmap::IndexSet;
use std::alloc::AllocError;
use trees::store::{Node, Parts, Store, TermId};

fn is_smt(printer: Printer) -> bool
    ensures { result ≡ is_smt (syntax_of printer) }
{
    match syntax_of(printer) {
        Syntax::Smt => true,
        Syntax::Tff => false,
    }
}

// Whether a printer has the form of a node.
fn has_head(printer: Printer, node: Node) -> bool
    ensures { result ≡ has_head (syntax_of printer) (head_of_node node) }
{
    match node {
        Node::Case(_, _) => false,
        Node::Let(_, _) => is_smt(printer),
        Node::If(_, _, _) => is_smt(printer),
        _ => true,
    }
}

/// Whether a printer has all forms of a term, given terms whose forms it has.
#[cycle(forms)]
pub(crate) fn has_forms(
    store: &Store,
    printer: Printer,
    done: &mut IndexSet<usize>,
    e: TermId,
) -> Result<bool, AllocError>
    requires done { HaveForms (syntax_of printer) store.now done.old.keys }
    requires held { Holds store.now e }
    ensures { IfOk result (λ b. LooksAt (syntax_of printer) store.now (has_forms (syntax_of printer)
        (tree_at store.now e)) b done.new.keys) }
{
    if done.contains(&e.0) {
        return Ok(true);
    }
    if !has_head(printer, store.node(e)) {
        return Ok(false);
    }
    if !parts_have_forms(store, printer, done, e)? {
        return Ok(false);
    }
    done.insert(e.0)?;
    Ok(true)
}

// Whether a printer has all forms of the children of a term.
#[cycle(forms)]
fn parts_have_forms(
    store: &Store,
    printer: Printer,
    done: &mut IndexSet<usize>,
    e: TermId,
) -> Result<bool, AllocError>
    requires done { HaveForms (syntax_of printer) store.now done.old.keys }
    requires held { Holds store.now e }
    ensures { IfOk result (λ b. LooksAt (syntax_of printer) store.now (parts_have_forms
        (syntax_of printer) (tree_at store.now e)) b done.new.keys) }
{
    match store.node(e).parts() {
        Parts::None => Ok(true),
        Parts::One(a) => has_forms(store, printer, done, a),
        Parts::Two(a, b) => {
            if !has_forms(store, printer, done, a)? {
                return Ok(false);
            }
            has_forms(store, printer, done, b)
        }
        Parts::Three(a, b, c) => {
            if !has_forms(store, printer, done, a)? {
                return Ok(false);
            }
            if !has_forms(store, printer, done, b)? {
                return Ok(false);
            }
            has_forms(store, printer, done, c)
        }
    }
}
