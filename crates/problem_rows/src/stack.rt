// Trees in postfix form: a number, then a letter for a node, which takes its children from the stack.
use std::alloc::{AllocError, Global};
use trees::store::{Grow, Node, Op, Store, TermId};

/// The trees that wait for their parents, and what was said with them.
#[derive(Drop)]
pub(crate) struct Said {
    /// The last one is on top.
    pub stack: Vec<TermId>,
    /// Declarations by a letter: `K` a type, `S` another symbol, `A` an algebraic type, `P` a proposition; each with its number.
    pub decls: Vec<(u8, usize)>,
    /// The entries of the goal's type variables.
    pub rigid: Vec<usize>,
    pub params: Vec<TermId>,
    pub locals: Vec<TermId>,
}

// The topmost tree, or the list without members.
fn pop(stack: &mut Vec<TermId>) -> TermId {
    match stack.pop() {
        Some(id) => id,
        None => TermId(0),
    }
}

// A node without children, by its letter.
fn leaf(letter: u8, number: usize, value: i128) -> Option<Node> {
    match letter {
        b'\'' => Some(Node::TyVar(number)),
        b'!' => Some(Node::TyRigid(number)),
        b'.' => Some(Node::End),
        b'#' => Some(Node::Num(value)),
        b'T' => Some(Node::True),
        b'F' => Some(Node::False),
        _ => None,
    }
}

// A node with one child.
fn node_of_one(letter: u8, number: usize, a: TermId) -> Option<Node> {
    match letter {
        b't' => Some(Node::TyApp(number, a)),
        b'b' => Some(Node::Bound(number, a)),
        b'$' => Some(Node::Param(number, a)),
        b'~' => Some(Node::Not(a)),
        b'_' => Some(Node::PatAny(a)),
        _ => None,
    }
}

// A node with two children.
fn node_of_two(letter: u8, number: usize, a: TermId, b: TermId) -> Option<Node> {
    match letter {
        b',' => Some(Node::Cell(a, b)),
        b'p' => Some(Node::Pred(number, a, b)),
        b'=' => Some(Node::Eq(a, b)),
        b'&' => Some(Node::Join(Op::And, a, b)),
        b'B' => Some(Node::Join(Op::AndThen, a, b)),
        b'|' => Some(Node::Join(Op::Or, a, b)),
        b'O' => Some(Node::Join(Op::OrElse, a, b)),
        b'>' => Some(Node::Join(Op::Imp, a, b)),
        b'E' => Some(Node::Join(Op::Iff, a, b)),
        b'V' => Some(Node::Forall(a, b)),
        b'X' => Some(Node::Exists(a, b)),
        b'l' => Some(Node::Let(a, b)),
        b'M' => Some(Node::Case(a, b)),
        b':' => Some(Node::Arm(a, b)),
        _ => None,
    }
}

// A node with three children.
fn node_of_three(letter: u8, number: usize, a: TermId, b: TermId, c: TermId) -> Option<Node> {
    match letter {
        b'f' => Some(Node::Fun(number, a, b, c)),
        b'?' => Some(Node::If(a, b, c)),
        _ => None,
    }
}

// The node of a letter, with its children from the stack.
fn node_of(letter: u8, number: usize, value: i128, stack: &mut Vec<TermId>) -> Option<Node> {
    if let Some(node) = leaf(letter, number, value) {
        return Some(node);
    }
    let c = pop(stack);
    if let Some(node) = node_of_one(letter, number, c) {
        return Some(node);
    }
    let b = pop(stack);
    if let Some(node) = node_of_two(letter, number, b, c) {
        return Some(node);
    }
    let a = pop(stack);
    node_of_three(letter, number, a, b, c)
}

// Puts the tree of a letter on the stack; none where the letter is of no node or its children don't fit.
fn push_node(
    store: &mut Store,
    stack: &mut Vec<TermId>,
    letter: u8,
    number: usize,
    value: i128,
) -> Result<(), AllocError> {
    if let Some(node) = node_of(letter, number, value, stack) {
        if store.accepts(node) {
            let id = store.add(node)?;
            stack.push(id)?;
        }
    }
    Ok(())
}

// What a letter says.
fn step(
    store: &mut Store,
    said: &mut Said,
    letter: u8,
    number: usize,
    value: i128,
) -> Result<(), AllocError> {
    match letter {
        b'K' | b'S' | b'A' => said.decls.push((letter, number))?,
        b'P' => {
            let id = pop(&mut said.stack);
            said.decls.push((letter, id.0))?;
        }
        b'Y' => said.rigid.push(number)?,
        b'R' => {
            let id = pop(&mut said.stack);
            said.params.push(id)?;
        }
        b'L' => {
            let id = pop(&mut said.stack);
            said.locals.push(id)?;
        }
        _ => push_node(store, &mut said.stack, letter, number, value)?,
    }
    Ok(())
}

/// What a text says, in which blanks say nothing. `-` makes the number before it negative.
pub(crate) fn read_trees(
    alloc: Global,
    store: &mut Store,
    text: &[u8],
) -> Result<Said, AllocError> {
    let mut said = Said {
        stack: Vec::new(alloc),
        decls: Vec::new(alloc),
        rigid: Vec::new(alloc),
        params: Vec::new(alloc),
        locals: Vec::new(alloc),
    };
    let mut value: i128 = 0;
    for letter in text {
        if letter.is_ascii_digit() {
            value = value
                .saturating_mul(10)
                .saturating_add(i128::from(*letter - b'0'));
        } else if *letter == b'-' {
            value = value.saturating_neg();
        } else if *letter != b' ' {
            let number = usize::try_from(value).unwrap_or(0);
            step(store, &mut said, *letter, number, value)?;
            value = 0;
        }
    }
    Ok(said)
}
