// The words of the 39 rules with the kinds of their arguments, as step files write them; the rule of a name and arguments,
// and what a rule is written as.
//
// Contract: exactly the rule of a word and arguments; a rule's word and what it is written as are read back as that rule.

mod argument;
mod forms;
mod lists;
mod name;
mod rule;
mod table;

pub use argument::{Argument, ArgumentKind, Kinds};
pub use name::RuleName;
pub use rule::{WrittenRule, kinds_of, name_of_word, rule_of, word_of, written_rule};
