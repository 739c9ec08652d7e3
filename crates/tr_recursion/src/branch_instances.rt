// What is needed to derive the equations of branches: from which fact each follows, what it says at types and closed terms, and what
// projections are made as; no code.
//
// Contract: definitions and laws.

ghost use Rattle.tr_recursion.specs.branch_instances.Laws.{BranchesSayChosen, SaidFollowsFromFacts, ProjectionsAreMade};

/// The laws of branches' equations as facts: at types and closed terms an equation says of a use of the
/// symbol what the branch of the body there gives, for the constructor that the body is asked of; what a
/// task says once its recursive definitions are spelled out follows from the old fact of the listed name;
/// and each projection of a constructor of a valid task is made as that. It does nothing when it runs.
pub fn law_of_branch_instances()
    ensures instances { BranchesSayChosen }
    ensures origins { SaidFollowsFromFacts }
    ensures projections { ProjectionsAreMade }
{}
