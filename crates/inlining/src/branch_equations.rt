// The equations of recursive definitions, by branches where a body is a `match` on one parameter: what they are, that they are
// formulas, and what they are at closed terms; no code.
//
// Contract: definitions and laws.

ghost use Rattle.inlining.specs.branch_equations.Laws.{BranchesAreFormulas, BranchesAtTerms};

/// The laws of the equations of branches: what recursive definitions of a valid task say are formulas,
/// where they are small; and at closed terms an equation says of the symbol, with the constructor on
/// the fields in the place of the matched parameter, what the branch's body is there. It does nothing
/// when it runs.
pub fn law_of_branches()
    ensures formulas { BranchesAreFormulas }
    ensures terms { BranchesAtTerms }
{}
