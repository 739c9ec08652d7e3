// Rules and steps.
// They depend on the terms' numbers; the checker, drafts and step files depend on them.
ghost use Rattle.std.specs.Prelude.{◌≡◌};
ghost use Rattle.rules.specs.Meaning.{types_in};

use std::alloc::AllocError;
use tasks::Seq;
use trees::TermId;

/// A rule of the tableau calculus, with its places in the sequent and its trees, in the order of the table.
#[derive(Drop)]
pub enum Rule {
    /// `false` at this place.
    False(usize),
    /// `not true`.
    NotTrue(usize),
    /// A formula, and its negation at the second place.
    Clash(usize, usize),
    /// A negated equation of a term with itself.
    Irrefl(usize),
    /// An equation of two different constructors.
    Distinct(usize),
    /// Formulas over the integers by their places, each with a multiplier.
    Linear(Seq<(usize, i128)>),
    /// A negation of a negation.
    NotNot(usize),
    /// A conjunction.
    And(usize),
    /// A negated conjunction.
    NotAnd(usize),
    /// A conjunction by `&&`.
    AndThen(usize),
    /// Its negation.
    NotAndThen(usize),
    /// A disjunction.
    Or(usize),
    /// A negated disjunction.
    NotOr(usize),
    /// A disjunction by `||`.
    OrElse(usize),
    /// Its negation.
    NotOrElse(usize),
    /// An implication.
    Imp(usize),
    /// A negated implication.
    NotImp(usize),
    /// An equivalence.
    Iff(usize),
    /// A negated equivalence.
    NotIff(usize),
    /// A universal formula, at a term.
    Forall(usize, TermId),
    /// A negated universal formula, at a new parameter.
    NotForall(usize, usize),
    /// An existential formula, at a new parameter.
    Exists(usize, usize),
    /// A negated existential formula, at a term.
    NotExists(usize, TermId),
    /// A formula, and its negation.
    Cut(TermId),
    /// The formulas at these places.
    Keep(Seq<usize>),
    /// A term equals itself.
    Refl(TermId),
    /// By an equation, one side of it for the other in a formula, at the variable 0 of a template.
    Replace(usize, usize, TermId),
    /// A `let`.
    LetDef(TermId),
    /// An `if`.
    IfDef(TermId),
    /// A `match`.
    MatchDef(TermId),
    /// A proposition of the task by its number, at these types.
    Fact(usize, Seq<TermId>),
    /// The equation of a defined symbol, at these types.
    Def(usize, Seq<TermId>),
    /// A clause of an inductive predicate by its number, at these types.
    Clause(usize, usize, Seq<TermId>),
    /// The inversion formula of an inductive predicate, at these types.
    Inv(usize, Seq<TermId>),
    /// A term by the constructors of its type.
    Case(TermId),
    /// An equation of one constructor on two lists of arguments.
    Inject(usize),
    /// A projection of its constructor.
    Project(TermId),
    /// Two integers compared.
    Trichotomy(TermId, TermId),
    /// An integer at most a literal, or at least the next one.
    Bound(TermId, i128),
}

impl Clone for Rule {
    ghost is_clone = { λ a b. b ≡ a };

    fn clone(&self) -> Result<Rule, AllocError> {
        Ok(match self {
            Rule::Linear(uses) => Rule::Linear(uses.clone()?),
            Rule::Keep(places) => Rule::Keep(places.clone()?),
            Rule::Fact(k, types) => Rule::Fact(*k, types.clone()?),
            Rule::Def(k, types) => Rule::Def(*k, types.clone()?),
            Rule::Clause(k, c, types) => Rule::Clause(*k, *c, types.clone()?),
            Rule::Inv(k, types) => Rule::Inv(*k, types.clone()?),
            Rule::False(i) => Rule::False(*i),
            Rule::NotTrue(i) => Rule::NotTrue(*i),
            Rule::Clash(i, j) => Rule::Clash(*i, *j),
            Rule::Irrefl(i) => Rule::Irrefl(*i),
            Rule::Distinct(i) => Rule::Distinct(*i),
            Rule::NotNot(i) => Rule::NotNot(*i),
            Rule::And(i) => Rule::And(*i),
            Rule::NotAnd(i) => Rule::NotAnd(*i),
            Rule::AndThen(i) => Rule::AndThen(*i),
            Rule::NotAndThen(i) => Rule::NotAndThen(*i),
            Rule::Or(i) => Rule::Or(*i),
            Rule::NotOr(i) => Rule::NotOr(*i),
            Rule::OrElse(i) => Rule::OrElse(*i),
            Rule::NotOrElse(i) => Rule::NotOrElse(*i),
            Rule::Imp(i) => Rule::Imp(*i),
            Rule::NotImp(i) => Rule::NotImp(*i),
            Rule::Iff(i) => Rule::Iff(*i),
            Rule::NotIff(i) => Rule::NotIff(*i),
            Rule::Forall(i, j) => Rule::Forall(*i, *j),
            Rule::NotForall(i, j) => Rule::NotForall(*i, *j),
            Rule::Exists(i, j) => Rule::Exists(*i, *j),
            Rule::NotExists(i, j) => Rule::NotExists(*i, *j),
            Rule::Cut(i) => Rule::Cut(*i),
            Rule::Refl(i) => Rule::Refl(*i),
            Rule::Replace(i, j, e) => Rule::Replace(*i, *j, *e),
            Rule::LetDef(i) => Rule::LetDef(*i),
            Rule::IfDef(i) => Rule::IfDef(*i),
            Rule::MatchDef(i) => Rule::MatchDef(*i),
            Rule::Case(i) => Rule::Case(*i),
            Rule::Inject(i) => Rule::Inject(*i),
            Rule::Project(i) => Rule::Project(*i),
            Rule::Trichotomy(i, j) => Rule::Trichotomy(*i, *j),
            Rule::Bound(i, j) => Rule::Bound(*i, *j),
        })
    }
}

impl Rule {
    /// The types that it names.
    pub fn types(&self) -> &[TermId]
        ensures { result.now ≡ types_in self.now }
    {
        match self {
            Rule::Fact(_, types) => types.as_slice(),
            Rule::Def(_, types) => types.as_slice(),
            Rule::Clause(_, _, types) => types.as_slice(),
            Rule::Inv(_, types) => types.as_slice(),
            _ => &[],
        }
    }
}

/// A sequent, the rule that refutes it, and the earlier steps that the rule takes.
#[derive(Drop)]
pub struct Step {
    pub sequent: Seq<TermId>,
    pub rule: Rule,
    pub premises: Seq<usize>,
}
