// What a line makes.
// It depends on steps; the reader of lines depends on it.
use rules::Step;
use trees::store::TermId;

/// What a line makes.
#[derive(Drop)]
pub enum MadeThing {
    Type(TermId),
    Pattern(TermId),
    Expression(TermId),
    Derived(Step),
}
