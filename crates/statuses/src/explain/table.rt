// The table of faults: what comes after a code, and its words.
// It depends on nothing; the messages depend on it.
ghost use Rattle.std.specs.Prelude.{◌≡◌};
ghost use Rattle.std.specs.Option.{option_map};
ghost use Rattle.statuses.specs.explain.Table.{row_of, row_text};

/// What the last number of a fault counts: nothing in the file, its bytes or tokens from 0, or its
/// lines from 1.
#[derive(Clone, Copy)]
pub enum Counts {
    Nothing,
    Bytes,
    Tokens,
    Lines,
}

/// How many numbers follow a code, what the last of them counts, and the words.
#[derive(Clone, Copy)]
pub(crate) struct Row {
    pub fields: usize,
    pub counts: Counts,
    pub words: &'static str,
}

fn make_row(fields: usize, counts: Counts, words: &'static str) -> Option<Row>
    ensures { option_map row_text result
        ≡ Some (record { fields = fields; counts = counts; words = words.now }) }
{
    Some(Row {
        fields,
        counts,
        words,
    })
}

/// The row of a code, if there is one.
pub(crate) fn row_of(code: usize) -> Option<Row>
    ensures { option_map row_text result ≡ row_of code }
{
    match code {
        10 => make_row(
            1,
            Counts::Bytes,
            "no token begins here, or a comment or attribute that isn't closed",
        ),
        11 => make_row(1, Counts::Bytes, "integer literal above 2^127 - 1"),
        12 => make_row(1, Counts::Tokens, "syntax error"),
        13 => make_row(1, Counts::Tokens, "nested deeper than 200"),
        14 => make_row(1, Counts::Tokens, "declaration of a program"),
        15 => make_row(1, Counts::Nothing, "file longer than 67,108,864 bytes"),
        20 => make_row(2, Counts::Tokens, "unknown name"),
        21 => make_row(2, Counts::Tokens, "name that is taken"),
        22 => make_row(
            2,
            Counts::Tokens,
            "formula for a term, term for a formula, no field, or alternative with other names",
        ),
        23 => make_row(2, Counts::Tokens, "wrong number of arguments"),
        30 => make_row(2, Counts::Nothing, "types that clash"),
        31 => make_row(2, Counts::Tokens, "type that is left open"),
        32 => make_row(2, Counts::Tokens, "match that isn't exhaustive"),
        33 => make_row(2, Counts::Nothing, "clause of another form"),
        34 => make_row(
            2,
            Counts::Nothing,
            "predicate of the group where none is allowed",
        ),
        35 => make_row(1, Counts::Nothing, "recursion that doesn't descend"),
        36 => make_row(1, Counts::Nothing, "recursive group that is too wide"),
        37 => make_row(1, Counts::Nothing, "type without a finite value"),
        40 => make_row(2, Counts::Tokens, "clone element that doesn't fit"),
        50 => make_row(2, Counts::Bytes, "syntax error"),
        51 => make_row(2, Counts::Bytes, "unknown transformation"),
        52 => make_row(
            2,
            Counts::Bytes,
            "template that lacks an argument, or has one twice",
        ),
        53 => make_row(2, Counts::Bytes, "unknown symbol"),
        54 => make_row(
            2,
            Counts::Bytes,
            "import of a file that is being read, or too many imports",
        ),
        55 => make_row(2, Counts::Bytes, "unknown printer, or none"),
        60 => make_row(0, Counts::Nothing, "no such theory"),
        61 => make_row(0, Counts::Nothing, "no such goal"),
        70 => make_row(
            2,
            Counts::Nothing,
            "declaration that the stage doesn't take",
        ),
        71 => make_row(1, Counts::Nothing, "task that is too large after the stage"),
        80 => make_row(2, Counts::Nothing, "polymorphic proposition"),
        81 => make_row(
            2,
            Counts::Nothing,
            "declaration or form that the printer lacks",
        ),
        82 => make_row(2, Counts::Nothing, "symbol without a template"),
        90 => make_row(
            2,
            Counts::Nothing,
            "another number of refutations than of problems",
        ),
        91 => make_row(
            2,
            Counts::Lines,
            "wrong line; after the last line: the steps don't end in the start",
        ),
        _ => None,
    }
}
