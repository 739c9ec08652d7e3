// Nodes of a word and the things that the words after it refer to.
// They depend on known things; the lines of patterns, terms and formulas depend on them.
ghost use Rattle.std.specs.Prelude.{◌≡◌, ◌<◌, List, length, All, IfSome};
ghost use Rattle.std.specs.Option.{option_map};
ghost use Rattle.trees.specs.Tree.{Tree, Leaf, Three, HNum, HIf};
ghost use Rattle.trees.specs.Node.{tree_at, node_tree, parts_of, Holds, AreBelow};
ghost use Rattle.trees.specs.declared.Parts.TheVariants as parts;
ghost use Rattle.tasks.specs.Meaning.{trees_at};
ghost use Rattle.word_tables.specs.integers.Integers.{integer};
ghost use Rattle.step_lines.specs.tree_lines.Words.{number, at_number, one, two, three, alone, texts};
ghost use Rattle.step_lines.specs.tree_lines.Lines.{one_tree, two_tree, variable_tree};

use crate::tree_lines::kinds::NodeWord;
use crate::tree_lines::known::thing;
use crate::tree_lines::words::number_of_word;
use trees::store::{Node, Op, Store, TermId};
use word_tables::integers::integer;

// The node of a word over one tree.
fn over_one(word: NodeWord, a: TermId) -> Node
    ensures tree { (s : List Tree) → node_tree s result ≡ one_tree word (tree_at s a) }
    ensures parts { parts_of result ≡ parts.One a }
{
    match word {
        NodeWord::Any => Node::PatAny(a),
        NodeWord::Var => Node::PatVar(a),
        NodeWord::As => Node::PatAlias(a),
        _ => Node::Not(a),
    }
}

// The node of a word over two trees.
fn over_two(word: NodeWord, a: TermId, b: TermId) -> Node
    ensures tree { (s : List Tree) → node_tree s result
        ≡ two_tree word (tree_at s a) (tree_at s b) }
    ensures parts { parts_of result ≡ parts.Two a b }
{
    match word {
        NodeWord::And => Node::Join(Op::And, a, b),
        NodeWord::AndThen => Node::Join(Op::AndThen, a, b),
        NodeWord::Or => Node::Join(Op::Or, a, b),
        NodeWord::OrElse => Node::Join(Op::OrElse, a, b),
        NodeWord::Imp => Node::Join(Op::Imp, a, b),
        NodeWord::Iff => Node::Join(Op::Iff, a, b),
        NodeWord::Forall => Node::Forall(a, b),
        NodeWord::Exists => Node::Exists(a, b),
        NodeWord::Let => Node::Let(a, b),
        _ => Node::Eq(a, b),
    }
}

// The node of a word over a number and a type.
fn over_number(word: NodeWord, n: usize, ty: TermId) -> Node
    ensures tree { (s : List Tree) → node_tree s result ≡ variable_tree word n (tree_at s ty) }
    ensures parts { parts_of result ≡ parts.One ty }
{
    match word {
        NodeWord::Bound => Node::Bound(n, ty),
        _ => Node::Param(n, ty),
    }
}

/// The node of a word and one thing.
pub(crate) fn one_node(
    store: &Store,
    word: NodeWord,
    things: &[TermId],
    words: &[&[u8]],
) -> Option<Node>
    requires { All (Holds store.now) things.now }
    ensures tree { option_map (node_tree store.now) result
        ≡ one (at_number (trees_at store.now things.now)) (one_tree word) (texts words.now) }
    ensures below { IfSome result (λ n. AreBelow (length store.now) (parts_of n)) }
{
    match words {
        [a] => Some(over_one(word, thing(store, things, a)?)),
        _ => None,
    }
}

/// The node of a word and two things.
pub(crate) fn two_node(
    store: &Store,
    word: NodeWord,
    firsts: &[TermId],
    seconds: &[TermId],
    words: &[&[u8]],
) -> Option<Node>
    requires firsts { All (Holds store.now) firsts.now }
    requires seconds { All (Holds store.now) seconds.now }
    ensures tree { option_map (node_tree store.now) result
        ≡ two (at_number (trees_at store.now firsts.now))
        (at_number (trees_at store.now seconds.now)) (two_tree word) (texts words.now) }
    ensures below { IfSome result (λ n. AreBelow (length store.now) (parts_of n)) }
{
    match words {
        [a, b] => Some(over_two(word, thing(store, firsts, a)?, thing(store, seconds, b)?)),
        _ => None,
    }
}

/// The node of a word, a number and a type.
pub(crate) fn variable_node(
    store: &Store,
    word: NodeWord,
    types: &[TermId],
    words: &[&[u8]],
) -> Option<Node>
    requires { All (Holds store.now) types.now }
    ensures tree { option_map (node_tree store.now) result
        ≡ two number (at_number (trees_at store.now types.now)) (variable_tree word)
        (texts words.now) }
    ensures below { IfSome result (λ n. AreBelow (length store.now) (parts_of n)) }
{
    match words {
        [n, ty] => Some(over_number(word, number_of_word(n)?, thing(store, types, ty)?)),
        _ => None,
    }
}

/// The node of a conditional of three things.
pub(crate) fn if_node(store: &Store, things: &[TermId], words: &[&[u8]]) -> Option<Node>
    requires { All (Holds store.now) things.now }
    ensures tree { let at = at_number (trees_at store.now things.now) in
        option_map (node_tree store.now) result ≡ three at at at (Three HIf) (texts words.now) }
    ensures below { IfSome result (λ n. AreBelow (length store.now) (parts_of n)) }
{
    match words {
        [c, a, b] => Some(Node::If(
            thing(store, things, c)?,
            thing(store, things, a)?,
            thing(store, things, b)?,
        )),
        _ => None,
    }
}

/// The node of a literal.
pub(crate) fn integer_node(store: &Store, words: &[&[u8]]) -> Option<Node>
    ensures tree { option_map (node_tree store.now) result
        ≡ one integer (λ n. Leaf (HNum n)) (texts words.now) }
    ensures below { IfSome result (λ n. AreBelow (length store.now) (parts_of n)) }
{
    let _ = store;
    match words {
        [n] => Some(Node::Num(integer(n)?)),
        _ => None,
    }
}

/// A node without children, where no word follows.
pub(crate) fn lone_node(store: &Store, node: Node, words: &[&[u8]]) -> Option<Node>
    requires { parts_of node ≡ parts.None }
    ensures tree { option_map (node_tree store.now) result
        ≡ alone (node_tree store.now node) (texts words.now) }
    ensures below { IfSome result (λ n. AreBelow (length store.now) (parts_of n)) }
{
    let _ = store;
    match words {
        [] => Some(node),
        _ => None,
    }
}
