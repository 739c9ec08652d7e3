// The words of the lines of patterns, terms and formulas.
// They depend on the tables of words; the lines of each kind depend on them.
ghost use Rattle.std.specs.Prelude.{◌≡◌, slice_get};
ghost use Rattle.step_lines.specs.tree_lines.Lines.{pattern_node_words, expression_names, pattern_words, expression_words, pattern_word, expression_word};

use word_tables::WordTable;

/// The word of a line of patterns, or of terms and formulas.
#[derive(Clone, Copy)]
pub enum NodeWord {
    And,
    AndThen,
    Any,
    As,
    Bound,
    Con,
    Eq,
    Exists,
    False,
    Forall,
    If,
    Iff,
    Imp,
    Let,
    Match,
    Not,
    Num,
    Or,
    OrElse,
    Param,
    Sym,
    True,
    Var,
}

// The words, in ascending order, and what they are.
const PATTERN_WORDS: [&str; 4] = ["any", "as", "con", "var"];

const PATTERN_NAMES: [NodeWord; 4] = [NodeWord::Any, NodeWord::As, NodeWord::Con, NodeWord::Var];

const EXPRESSION_WORDS: [&str; 19] = [
    "and", "andthen", "bound", "eq", "exists", "false", "forall", "if", "iff", "imp", "let",
    "match", "not", "num", "or", "orelse", "param", "sym", "true",
];

const EXPRESSION_NAMES: [NodeWord; 19] = [
    NodeWord::And,
    NodeWord::AndThen,
    NodeWord::Bound,
    NodeWord::Eq,
    NodeWord::Exists,
    NodeWord::False,
    NodeWord::Forall,
    NodeWord::If,
    NodeWord::Iff,
    NodeWord::Imp,
    NodeWord::Let,
    NodeWord::Match,
    NodeWord::Not,
    NodeWord::Num,
    NodeWord::Or,
    NodeWord::OrElse,
    NodeWord::Param,
    NodeWord::Sym,
    NodeWord::True,
];

fn pattern_table() -> WordTable<4>
    ensures { result ≡ pattern_words }
{
    WordTable::new(&PATTERN_WORDS)
}

fn expression_table() -> WordTable<19>
    ensures { result ≡ expression_words }
{
    WordTable::new(&EXPRESSION_WORDS)
}

// The word at a place.
fn word_at(names: &[NodeWord], place: usize) -> Option<NodeWord>
    ensures { result ≡ slice_get names.now place }
{
    names.get(place).copied()
}

/// The word of a pattern.
pub(crate) fn find_pattern_word(word: &[u8]) -> Option<NodeWord>
    ensures { result ≡ pattern_word word.now }
{
    match pattern_table().find(word) {
        Some(place) => word_at(&PATTERN_NAMES, place),
        None => None,
    }
}

/// The word of a term or a formula.
pub(crate) fn find_expression_word(word: &[u8]) -> Option<NodeWord>
    ensures { result ≡ expression_word word.now }
{
    match expression_table().find(word) {
        Some(place) => word_at(&EXPRESSION_NAMES, place),
        None => None,
    }
}
