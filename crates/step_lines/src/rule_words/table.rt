// The table of rules: for each its word, its name with its fields, and its form. The words, the reader and the writer of
// rules are made of it.
// It depends on names and arguments; the rules of words depend on it.
ghost use Rattle.std.specs.Prelude.{◌≡◌};
ghost use Rattle.step_lines.specs.rule_words.Rules.{rule_words};

use crate::rule_words::name::RuleName;
use word_tables::WordTable;

// Gives the rows to a macro, after what that macro is given.
macro_rules! rule_table {
    ($made:ident $(, $given:expr)*) => {
        $made! { ($($given),*)
            "and" And(i) one_number;
            "andthen" AndThen(i) one_number;
            "bound" Bound(e, n) expression_integer;
            "case" Case(e) one_expression;
            "clash" Clash(i, j) two_numbers;
            "clause" Clause(k, i, types) symbol_number_types;
            "cut" Cut(e) one_expression;
            "def" Def(k, types) symbol_types;
            "distinct" Distinct(i) one_number;
            "exists" Exists(i, j) two_numbers;
            "fact" Fact(k, types) number_types;
            "false" False(i) one_number;
            "forall" Forall(i, e) number_expression;
            "ifdef" IfDef(e) one_expression;
            "iff" Iff(i) one_number;
            "imp" Imp(i) one_number;
            "inject" Inject(i) one_number;
            "inv" Inv(k, types) symbol_types;
            "irrefl" Irrefl(i) one_number;
            "keep" Keep(places) any_numbers;
            "letdef" LetDef(e) one_expression;
            "linear" Linear(uses) any_pairs;
            "matchdef" MatchDef(e) one_expression;
            "notand" NotAnd(i) one_number;
            "notandthen" NotAndThen(i) one_number;
            "notexists" NotExists(i, e) number_expression;
            "notforall" NotForall(i, j) two_numbers;
            "notiff" NotIff(i) one_number;
            "notimp" NotImp(i) one_number;
            "notnot" NotNot(i) one_number;
            "notor" NotOr(i) one_number;
            "notorelse" NotOrElse(i) one_number;
            "nottrue" NotTrue(i) one_number;
            "or" Or(i) one_number;
            "orelse" OrElse(i) one_number;
            "project" Project(e) one_expression;
            "refl" Refl(e) one_expression;
            "replace" Replace(i, j, e) numbers_expression;
            "trichotomy" Trichotomy(a, b) two_expressions;
        }
    };
}

pub(crate) use rule_table;

macro_rules! words {
    (() $($word:literal $name:ident($($field:ident),*) $form:ident;)*) => {
        [$($word),*]
    };
}

macro_rules! names {
    (() $($word:literal $name:ident($($field:ident),*) $form:ident;)*) => {
        [$(RuleName::$name),*]
    };
}

/// The words of the rules, in ascending order.
const RULE_WORDS: [&str; 39] = rule_table!(words);

/// The rules' names, in the order of their words.
pub(crate) const RULE_NAMES: [RuleName; 39] = rule_table!(names);

/// The table of the words of the rules.
pub(crate) fn rule_words() -> WordTable<39>
    ensures { result ≡ rule_words }
{
    WordTable::new(&RULE_WORDS)
}
