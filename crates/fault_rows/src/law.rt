// A law that ties refusals to their explanations.
// It depends on the numbers of faults and on the table of explanations; readers cite it.
ghost use Rattle.fault_rows.specs.Explained.{EachIsExplained};

/// Each fault that a refusal tells has a message: the table of explanations has its code, with as many numbers. It
/// does nothing when it runs.
pub fn each_fault_is_explained()
    ensures { EachIsExplained }
{}
