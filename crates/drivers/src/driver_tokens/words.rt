// The words of driver files.
// They depend on a word table; the lexer depends on them.
ghost use Rattle.std.specs.Prelude.{◌≡◌};
ghost use Rattle.std.proofs.Common.{get_or};
ghost use Rattle.drivers.specs.driver_tokens.Words.{driver_words, word_kinds, word_of};
ghost use Rattle.drivers.specs.declared.driver_tokens.terminal.DriverWord.TheVariants.{Other};

use crate::driver_tokens::terminal::{DriverWord, Heading, NameKind};
use word_tables::WordTable;

/// A table of the words of driver files.
pub type DriverWords = WordTable<26>;

/// The words in ascending order.
const WORDS: [&str; 26] = [
    "_",
    "allprops",
    "end",
    "fail",
    "filename",
    "function",
    "import",
    "invalid",
    "meta",
    "model_parser",
    "outofmemory",
    "predicate",
    "prelude",
    "printer",
    "prop",
    "remove",
    "steplimitexceeded",
    "steps",
    "syntax",
    "theory",
    "time",
    "timeout",
    "transformation",
    "type",
    "unknown",
    "valid",
];

/// What each of them is.
const KINDS: [DriverWord; 26] = [
    DriverWord::Line,
    DriverWord::Allprops,
    DriverWord::End,
    DriverWord::Answer,
    DriverWord::Heading(Heading::Silent),
    DriverWord::Kind(NameKind::Function),
    DriverWord::Heading(Heading::Import),
    DriverWord::Answer,
    DriverWord::Meta,
    DriverWord::Heading(Heading::Silent),
    DriverWord::Answer,
    DriverWord::Kind(NameKind::Predicate),
    DriverWord::Prelude,
    DriverWord::Heading(Heading::Printer),
    DriverWord::Prop,
    DriverWord::Remove,
    DriverWord::Answer,
    DriverWord::Answer,
    DriverWord::Syntax,
    DriverWord::Theory,
    DriverWord::Answer,
    DriverWord::Answer,
    DriverWord::Heading(Heading::Transformation),
    DriverWord::Kind(NameKind::Type),
    DriverWord::Answer,
    DriverWord::Answer,
];

/// The table of these words.
pub fn driver_words() -> DriverWords
    ensures { result ≡ driver_words }
{
    WordTable::new(&WORDS)
}

fn kind_at(place: usize) -> DriverWord
    ensures { result ≡ get_or word_kinds place Other }
{
    if place < 26 {
        KINDS[place]
    } else {
        DriverWord::Other
    }
}

/// What a word is.
pub fn word_of(words: &DriverWords, word: &[u8]) -> DriverWord
    requires { words.now ≡ driver_words }
    ensures { result ≡ word_of word.now }
{
    match words.find(word) {
        Some(place) => kind_at(place),
        None => DriverWord::Other,
    }
}
