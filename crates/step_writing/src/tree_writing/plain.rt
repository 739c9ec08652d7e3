// The lines of terms and formulas without a symbol's name: a word, and the numbers of the parts.
// They depend on the words of numbers; the lines of all terms and formulas depend on them.
ghost use Rattle.std.specs.Prelude.{◌≡◌, [], ◌∷◌, IfOk};
ghost use Rattle.tasks.specs.trees.Node.{tree_at, Holds};
ghost use Rattle.step_writing.specs.tree_writing.Referring.{words_of, PushesNumbers, HasLine};
ghost use Rattle.step_writing.specs.tree_writing.Plain.{op_word, IsOneWord, AreVariableWords, AreTwoWords, AreThreeWords, IsIntegerWord, IsPlain, PartLines, ReadsBack};

use crate::tree_writing::naming::Source;
use crate::tree_writing::referring::{line_number, push_numbers};
use std::alloc::{AllocError, Global};
use tasks::{Node, Op, TermId};
use word_tables::integers::integer_word;

// The word of a connective.
fn word_of_op(op: Op) -> &'static [u8]
    ensures { result.now ≡ op_word op }
{
    match op {
        Op::And => b"and",
        Op::AndThen => b"andthen",
        Op::Or => b"or",
        Op::OrElse => b"orelse",
        Op::Imp => b"imp",
        Op::Iff => b"iff",
    }
}

// A word, and then those of numbers.
fn line_words(alloc: Global, word: &[u8], numbers: &[usize]) -> Result<Vec<Vec<u8>>, AllocError>
    ensures { IfOk result (λ v. PushesNumbers (word.now ∷ []) (words_of v.items) numbers.now) }
{
    let mut words = Vec::new(alloc);
    words.push(Vec::from_slice(alloc, word)?)?;
    push_numbers(alloc, &mut words, numbers)?;
    Ok(words)
}

// The words of two parts.
fn two_words(
    alloc: Global,
    x: &Source<'_>,
    word: &[u8],
    a: TermId,
    b: TermId,
) -> Result<Vec<Vec<u8>>, AllocError>
    requires a_held { Holds x.now.store.now a }
    requires b_held { Holds x.now.store.now b }
    requires a_line { HasLine x.now.store.now x.now.lines.now (tree_at x.now.store.now a) }
    requires b_line { HasLine x.now.store.now x.now.lines.now (tree_at x.now.store.now b) }
    ensures { IfOk result (λ v. AreTwoWords x.now.store.now x.now.lines.now word.now
        (tree_at x.now.store.now a) (tree_at x.now.store.now b) (words_of v.items)) }
{
    let first = line_number(x.store, x.lines, a);
    let second = line_number(x.store, x.lines, b);
    line_words(alloc, word, &[first, second])
}

// The words of one part.
pub(crate) fn one_word(
    alloc: Global,
    x: &Source<'_>,
    word: &[u8],
    a: TermId,
) -> Result<Vec<Vec<u8>>, AllocError>
    requires held { Holds x.now.store.now a }
    requires line { HasLine x.now.store.now x.now.lines.now (tree_at x.now.store.now a) }
    ensures { IfOk result (λ v. IsOneWord x.now.store.now x.now.lines.now word.now
        (tree_at x.now.store.now a) (words_of v.items)) }
{
    let first = line_number(x.store, x.lines, a);
    line_words(alloc, word, &[first])
}

// The words of a number and one part.
fn variable_words(
    alloc: Global,
    x: &Source<'_>,
    word: &[u8],
    n: usize,
    a: TermId,
) -> Result<Vec<Vec<u8>>, AllocError>
    requires held { Holds x.now.store.now a }
    requires line { HasLine x.now.store.now x.now.lines.now (tree_at x.now.store.now a) }
    ensures { IfOk result (λ v. AreVariableWords x.now.store.now x.now.lines.now word.now n
        (tree_at x.now.store.now a) (words_of v.items)) }
{
    let first = line_number(x.store, x.lines, a);
    line_words(alloc, word, &[n, first])
}

// The words of three parts.
fn three_words(
    alloc: Global,
    x: &Source<'_>,
    word: &[u8],
    a: TermId,
    b: TermId,
    c: TermId,
) -> Result<Vec<Vec<u8>>, AllocError>
    requires a_held { Holds x.now.store.now a }
    requires b_held { Holds x.now.store.now b }
    requires c_held { Holds x.now.store.now c }
    requires a_line { HasLine x.now.store.now x.now.lines.now (tree_at x.now.store.now a) }
    requires b_line { HasLine x.now.store.now x.now.lines.now (tree_at x.now.store.now b) }
    requires c_line { HasLine x.now.store.now x.now.lines.now (tree_at x.now.store.now c) }
    ensures { IfOk result (λ v. AreThreeWords x.now.store.now x.now.lines.now word.now
        (tree_at x.now.store.now a) (tree_at x.now.store.now b) (tree_at x.now.store.now c)
        (words_of v.items)) }
{
    let first = line_number(x.store, x.lines, a);
    let second = line_number(x.store, x.lines, b);
    let third = line_number(x.store, x.lines, c);
    line_words(alloc, word, &[first, second, third])
}

// The words of an integer.
fn integer_words(alloc: Global, n: i128) -> Result<Vec<Vec<u8>>, AllocError>
    ensures { IfOk result (λ v. IsIntegerWord n (words_of v.items)) }
{
    let digits = integer_word(alloc, n)?;
    let mut words = Vec::new(alloc);
    words.push(Vec::from_slice(alloc, b"num")?)?;
    words.push(digits.into_bytes())?;
    Ok(words)
}

/// The words of the line of a term or a formula without a symbol's name, which are read back as it wherever the lines before
/// it are those. Only want of memory refuses.
pub(crate) fn plain_words(
    alloc: Global,
    x: &Source<'_>,
    id: TermId,
) -> Result<Vec<Vec<u8>>, AllocError>
    requires held { Holds x.now.store.now id }
    requires plain { IsPlain (tree_at x.now.store.now id) }
    requires lines { PartLines x.now.store.now x.now.lines.now (tree_at x.now.store.now id) }
    ensures { IfOk result (λ v. ReadsBack x.now.store.now x.now.table.now x.now.lines.now
        (tree_at x.now.store.now id) (words_of v.items)) }
{
    match x.store.node(id) {
        Node::Bound(i, ty) => variable_words(alloc, x, b"bound", i, ty),
        Node::Param(n, ty) => variable_words(alloc, x, b"param", n, ty),
        Node::Num(n) => integer_words(alloc, n),
        Node::True => line_words(alloc, b"true", &[]),
        Node::False => line_words(alloc, b"false", &[]),
        Node::Not(a) => one_word(alloc, x, b"not", a),
        Node::Eq(a, b) => two_words(alloc, x, b"eq", a, b),
        Node::Join(op, a, b) => two_words(alloc, x, word_of_op(op), a, b),
        Node::Forall(ty, a) => two_words(alloc, x, b"forall", ty, a),
        Node::Exists(ty, a) => two_words(alloc, x, b"exists", ty, a),
        Node::Let(a, b) => two_words(alloc, x, b"let", a, b),
        Node::If(c, a, b) => three_words(alloc, x, b"if", c, a, b),
        _ => unreachable!(),
    }
}
