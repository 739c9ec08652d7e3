// Wanted instances of polymorphic propositions: which they are, by all assignments of types, filtered; what a task becomes with them;
// laws of its sets of instances, of the search for wanted assignments, and of validity.
//
// Contract: definitions and laws.

ghost use Rattle.tr_discriminate.specs.wanted_instances.Laws.{WantedStays, NodesRise, SetsGoOn, SearchFinds, InstancesAreValid};

/// The laws of wanted instances: what is wanted at a set is wanted at each that goes on from it, as the last of the three sets goes on
/// from those before it, so a task that is too large at an earlier one is too large; the search by one type variable after the other
/// finds what the filter of all assignments gives; and wanted instances are formulas of the task. It does nothing when it runs.
pub fn law_of_wanted_instances()
    ensures stays { WantedStays }
    ensures nodes { NodesRise }
    ensures sets { SetsGoOn }
    ensures finds { SearchFinds }
    ensures valid { InstancesAreValid }
{}
