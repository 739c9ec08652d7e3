// Types as words: a variable by `'` and its number, a symbol by `t`, its number, and its arguments in brackets.
// It depends on the store; the answers depend on it.
use std::alloc::{AllocError, Global};
use trees::store::Store;
use trees::{Node, TermId};

// A letter with a number.
fn put_numbered(
    alloc: Global,
    text: &mut String,
    word: &str,
    number: usize,
) -> Result<(), AllocError> {
    text.push_str(word)?;
    let digits = number.to_string(alloc)?;
    text.push_str(digits.as_str())
}

/// A type, or a list of types.
pub(crate) fn put_type(
    alloc: Global,
    text: &mut String,
    store: &Store,
    id: TermId,
) -> Result<(), AllocError> {
    if !store.holds(id) {
        return Ok(());
    }
    match store.node(id) {
        Node::TyVar(number) => put_numbered(alloc, text, "'", number),
        Node::TyApp(symbol, list) => {
            put_numbered(alloc, text, "t", symbol)?;
            put_type(alloc, text, store, list)
        }
        Node::Cell(first, rest) => {
            text.push_str("(")?;
            put_type(alloc, text, store, first)?;
            text.push_str(")")?;
            put_type(alloc, text, store, rest)
        }
        _ => Ok(()),
    }
}
