// Names, numbers, and trees of a store in prefix form: a letter for each operator, and the symbols and variables by number.
use std::alloc::{AllocError, Global};
use tasks::SymbolInfo;
use trees::store::Store;
use trees::{Node, Op, Parts, TermId};
use word_tables::integers::integer_word;

// The letters of an operator between formulas.
fn connective_word(op: Op) -> &'static str {
    match op {
        Op::And => "A",
        Op::AndThen => "B",
        Op::Or => "O",
        Op::OrElse => "P",
        Op::Imp => "I",
        Op::Iff => "E",
    }
}

// The letter of a node.
fn node_word(node: Node) -> &'static str {
    match node {
        Node::TyVar(_) => "'",
        Node::TyRigid(_) => "!",
        Node::TyApp(_, _) => "t",
        Node::End => ".",
        Node::Cell(_, _) => ",",
        Node::Bound(_, _) => "b",
        Node::Param(_, _) => "$",
        Node::Num(_) => "#",
        Node::Fun(_, _, _, _) => "f",
        Node::Pred(_, _, _) => "p",
        Node::Eq(_, _) => "=",
        Node::True => "T",
        Node::False => "F",
        Node::Not(_) => "~",
        Node::Join(op, _, _) => connective_word(op),
        Node::Forall(_, _) => "V",
        Node::Exists(_, _) => "X",
        Node::Let(_, _) => "L",
        Node::If(_, _, _) => "?",
        Node::Case(_, _) => "M",
        Node::Arm(_, _) => ":",
        Node::PatAny(_) => "_",
        Node::PatVar(_) => "v",
        Node::PatCon(_, _, _, _) => "c",
        Node::PatAlias(_) => "@",
    }
}

// The symbol that a node has.
fn node_symbol(node: Node) -> Option<usize> {
    match node {
        Node::TyRigid(symbol) | Node::TyApp(symbol, _) | Node::Pred(symbol, _, _) => Some(symbol),
        Node::Fun(symbol, _, _, _) | Node::PatCon(symbol, _, _, _) => Some(symbol),
        _ => None,
    }
}

// The number of the variable that a node is.
fn node_place(node: Node) -> Option<usize> {
    match node {
        Node::TyVar(place) | Node::Bound(place, _) | Node::Param(place, _) => Some(place),
        _ => None,
    }
}

/// A number in decimal.
pub fn put_number(alloc: Global, text: &mut String, number: usize) -> Result<(), AllocError> {
    let digits = number.to_string(alloc)?;
    text.push_str(digits.as_str())
}

/// A letter with a number.
pub fn put_numbered(
    alloc: Global,
    text: &mut String,
    word: &str,
    number: usize,
) -> Result<(), AllocError> {
    text.push_str(word)?;
    put_number(alloc, text, number)
}

/// A name, a byte as a character.
pub fn put_name(text: &mut String, name: &[u8]) -> Result<(), AllocError> {
    for letter in name {
        text.push(char::from(*letter))?;
    }
    Ok(())
}

/// A symbol by its name in this signature after a backquote, or by its number where the signature has none of that number.
pub fn put_symbol(
    alloc: Global,
    text: &mut String,
    names: &[SymbolInfo],
    symbol: usize,
) -> Result<(), AllocError> {
    match names.get(symbol) {
        Some(info) => {
            text.push_str("`")?;
            put_name(text, info.name.as_slice())
        }
        None => put_number(alloc, text, symbol),
    }
}

// A node without its children.
fn put_node(
    alloc: Global,
    text: &mut String,
    names: &[SymbolInfo],
    node: Node,
) -> Result<(), AllocError> {
    text.push_str(node_word(node))?;
    if let Node::Num(number) = node {
        let digits = integer_word(alloc, number)?;
        return text.push_str(digits.as_str());
    }
    if let Some(symbol) = node_symbol(node) {
        return put_symbol(alloc, text, names, symbol);
    }
    match node_place(node) {
        Some(place) => put_number(alloc, text, place),
        None => Ok(()),
    }
}

/// A tree, its node before its children, with symbols as `put_symbol` writes them.
pub fn put_tree(
    alloc: Global,
    text: &mut String,
    store: &Store,
    names: &[SymbolInfo],
    id: TermId,
) -> Result<(), AllocError> {
    if !store.holds(id) {
        return Ok(());
    }
    let node = store.node(id);
    put_node(alloc, text, names, node)?;
    match node.parts() {
        Parts::None => Ok(()),
        Parts::One(a) => put_tree(alloc, text, store, names, a),
        Parts::Two(a, b) => {
            put_tree(alloc, text, store, names, a)?;
            put_tree(alloc, text, store, names, b)
        }
        Parts::Three(a, b, c) => {
            put_tree(alloc, text, store, names, a)?;
            put_tree(alloc, text, store, names, b)?;
            put_tree(alloc, text, store, names, c)
        }
    }
}

/// A list of trees, each after a comma.
pub fn put_trees(
    alloc: Global,
    text: &mut String,
    store: &Store,
    names: &[SymbolInfo],
    ids: &[TermId],
) -> Result<(), AllocError> {
    for id in ids {
        text.push_str(",")?;
        put_tree(alloc, text, store, names, *id)?;
    }
    text.push_str(".")
}
