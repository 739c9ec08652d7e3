// The reserved words.
ghost use Rattle.std.specs.Prelude.{◌≡◌};
ghost use Rattle.tokens_why.specs.Reserved.{reserved_words};

use word_tables::WordTable;

/// A table of the reserved words.
pub type ReservedWords = WordTable<63>;

/// The reserved words in ascending order.
const RESERVED: [&str; 63] = [
    "abstract",
    "absurd",
    "alias",
    "any",
    "as",
    "axiom",
    "begin",
    "by",
    "clone",
    "coinductive",
    "constant",
    "diverges",
    "do",
    "done",
    "else",
    "end",
    "ensures",
    "epsilon",
    "exception",
    "exists",
    "export",
    "false",
    "for",
    "forall",
    "fun",
    "function",
    "ghost",
    "goal",
    "if",
    "import",
    "in",
    "inductive",
    "invariant",
    "lemma",
    "let",
    "match",
    "meta",
    "module",
    "mutable",
    "not",
    "predicate",
    "private",
    "pure",
    "raise",
    "raises",
    "reads",
    "rec",
    "requires",
    "returns",
    "scope",
    "so",
    "then",
    "theory",
    "to",
    "true",
    "try",
    "type",
    "use",
    "val",
    "variant",
    "while",
    "with",
    "writes",
];

/// The table of the reserved words.
pub fn reserved_words() -> ReservedWords
    ensures { result ≡ reserved_words }
{
    WordTable::new(&RESERVED)
}
