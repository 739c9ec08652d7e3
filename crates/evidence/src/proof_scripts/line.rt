// Lines of scripts.
ghost use Rattle.std.specs.Prelude.{◌≡◌, ◌++◌, List, map, IfOk};
ghost use Rattle.trees.specs.Tree.{Tree};
ghost use Rattle.rules.specs.Meaning.{rule_at, RuleHeld};
ghost use Rattle.evidence.specs.proof_scripts.Scripts.{word_rule, WordHeld, ids_of, added_ids};
ghost use Rattle.evidence.specs.proof_scripts.Words.{rule_past, WordFits};

use crate::{failing_rule, holding_rule, join_lists};
use rules::Rule;
use std::alloc::{AllocError, Global};
use trees::{Op, TermId};

/// A rule with its places and its trees. `Holding` takes a connective apart, `Failing` its negation.
#[derive(Clone, Copy)]
pub enum Word {
    NotTrue(usize),
    Clash(usize, usize),
    Holding(Op, usize),
    Failing(Op, usize),
    Cut(TermId),
    Forall(usize, TermId),
    NotForall(usize, usize),
    LetDef(TermId),
    IfDef(TermId),
    MatchDef(TermId),
    NotNot(usize),
    Irrefl(usize),
    Exists(usize, usize),
    NotExists(usize, TermId),
    Replace(usize, usize, TermId),
    False(usize),
    Refl(TermId),
    Distinct(usize),
    Project(TermId),
}

/// Places of the tail, as many as an earlier step has formulas.
#[derive(Clone, Copy)]
pub enum Places {
    One(usize),
    Two(usize, usize),
    Three(usize, usize, usize),
}

/// The formulas that a premise adds.
#[derive(Clone, Copy)]
pub(crate) enum Formulas {
    One(TermId),
    Two(TermId, TermId),
}

/// A line: an earlier step that refutes the front and so many formulas at the end of the tail; one that refutes the formulas at some
/// places of the tail, without the front; a rule on a connective, or on its negation, at a place of the tail; a cut; or a rule with
/// its places in the tail. What the premises of a rule add is made by the line. Three rules are told by the parts of an expression:
/// a `match` with one branch is alike the branch's body at the terms for its pattern's variables (`Branch`); one with more, first
/// comes the test of the first pattern, then that body, and then the `match` with the other branches (`Branches`); a projection of a
/// constructor's application is alike the field (`Field`).
#[derive(Clone, Copy)]
pub enum Line {
    Given(usize, usize),
    Kept(usize, Places),
    Holding(Op, usize),
    Failing(Op, usize),
    Cut(TermId),
    Rule(Word),
    Branch(TermId, TermId),
    Branches(TermId, TermId, TermId, TermId),
    Field(TermId, TermId),
}

/// What the premises of a rule add.
#[derive(Clone, Copy)]
pub(crate) struct Sides {
    pub first: Option<Formulas>,
    pub second: Option<Formulas>,
}

// The rule of a line: a word, the number of formulas before those in which its places are counted, and what its premises add.
#[derive(Clone, Copy)]
pub(crate) struct Opened {
    pub before: usize,
    pub word: Word,
    pub sides: Sides,
}

// The rule of a word, with so many formulas before those in which its places are counted.
pub(crate) fn rule_of(before: usize, word: Word) -> Rule
    requires fits { WordFits before word }
    ensures tree { (s : List Tree) → rule_at s result ≡ rule_past before (word_rule s word) }
    ensures held { (s : List Tree) → WordHeld s word → RuleHeld s result }
{
    match word {
        Word::NotTrue(i) => Rule::NotTrue(before + i),
        Word::Clash(i, j) => Rule::Clash(before + i, before + j),
        Word::Holding(op, i) => holding_rule(op, before + i),
        Word::Failing(op, i) => failing_rule(op, before + i),
        Word::Cut(a) => Rule::Cut(a),
        Word::Forall(i, t) => Rule::Forall(before + i, t),
        Word::NotForall(i, n) => Rule::NotForall(before + i, n),
        Word::LetDef(e) => Rule::LetDef(e),
        Word::IfDef(e) => Rule::IfDef(e),
        Word::MatchDef(e) => Rule::MatchDef(e),
        Word::NotNot(i) => Rule::NotNot(before + i),
        Word::Irrefl(i) => Rule::Irrefl(before + i),
        Word::Exists(i, n) => Rule::Exists(before + i, n),
        Word::NotExists(i, t) => Rule::NotExists(before + i, t),
        Word::Replace(i, j, e) => Rule::Replace(before + i, before + j, e),
        Word::False(i) => Rule::False(before + i),
        Word::Refl(e) => Rule::Refl(e),
        Word::Distinct(i) => Rule::Distinct(before + i),
        Word::Project(e) => Rule::Project(e),
    }
}

// The tail with the formulas that a premise adds.
pub(crate) fn tail_with(
    alloc: Global,
    tail: &[TermId],
    added: Formulas,
) -> Result<Vec<TermId>, AllocError>
    ensures { IfOk result (λ v. v.items ≡ tail.now ++ ids_of added) }
{
    match added {
        Formulas::One(a) => join_lists(alloc, tail, &[a]),
        Formulas::Two(a, b) => join_lists(alloc, tail, &[a, b]),
    }
}

// What the premises add, one after the other.
pub(crate) fn premises_of(alloc: Global, sides: Sides) -> Result<Vec<Formulas>, AllocError>
    ensures { IfOk result (λ v. map ids_of v.items
        ≡ added_ids sides.first ++ added_ids sides.second) }
{
    match sides.first {
        None => match sides.second {
            None => Ok(Vec::new(alloc)),
            Some(b) => Vec::from_slice(alloc, &[b]),
        },
        Some(a) => match sides.second {
            None => Vec::from_slice(alloc, &[a]),
            Some(b) => Vec::from_slice(alloc, &[a, b]),
        },
    }
}
