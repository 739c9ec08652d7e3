// The facts of a task and their names: a law, by which a transformation that goes by places serves steps that cite by names.
// It depends on the list of facts; transformations depend on it.
ghost use Rattle.std.specs.Prelude.{◌≢◌, All, AllPairs};
ghost use Rattle.tasks.specs.declared.facts.Fact.{Fact};
ghost use Rattle.tasks.specs.Task.{TaskTree};
ghost use Rattle.tasks.specs.Facts.{facts};
ghost use Rattle.tasks.specs.Valid.{IsValid};
ghost use Rattle.evidence.specs.Facts.{IsFoundByName, IsListed};

/// A law: in a valid task each fact of the list is the one that its name names, and no two facts have one name; and what a
/// name names is in the list.
#[tactic(auto, using(crate::proofs::FactNames::all_named, crate::proofs::FactNames::names_apart, crate::proofs::FactsListed::listed))]
pub fn facts_named()
    ensures named { (t : TaskTree) → IsValid t → All (IsFoundByName t) (facts t) }
    ensures listed { (t : TaskTree) (name : Fact) → IsListed t name }
    ensures differ { (t : TaskTree) → IsValid t → AllPairs (λ f g. f.name ≢ g.name) (facts t) }
{}
