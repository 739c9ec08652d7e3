// What a token of a driver is to the grammar.
// It depends on nothing; the tokens and the machine depend on it.

/// The word of a line that has a string and is outside of blocks.
#[derive(Clone, Copy)]
pub enum Heading {
    Printer,
    Transformation,
    Import,
    /// `filename` or `model_parser`, which have no effect.
    Silent,
}

/// The word before a name.
#[derive(Clone, Copy)]
pub enum NameKind {
    Type,
    Function,
    Predicate,
}

/// A word, by what it may begin.
#[derive(Clone, Copy)]
pub enum DriverWord {
    Allprops,
    /// A word with which a line on answers of provers begins.
    Answer,
    End,
    Heading(Heading),
    /// `_`.
    Line,
    Meta,
    Kind(NameKind),
    Prelude,
    Prop,
    Remove,
    Syntax,
    Theory,
    Other,
}

/// The terminal symbols of driver files. `Nothing` is a byte with which no token begins, or a connective of sources.
#[derive(Clone, Copy)]
pub enum DriverTerminal {
    Word(DriverWord),
    Text,
    Number,
    Operator,
    Open,
    Close,
    Star,
    Dot,
    Comma,
    Nothing,
}
