// The modes of inlining.

/// Which definitions are inlined, and in which formulas: those with trivial bodies in all formulas, all in the goal alone, or all in all
/// formulas. No definition of a recursive group is.
#[derive(Clone, Copy)]
pub enum InlineMode {
    Trivial,
    Goal,
    All,
}
