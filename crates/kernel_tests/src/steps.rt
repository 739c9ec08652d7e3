// Steps for the random ones, and what no step file can write: integers whose symbols the task doesn't declare, and a formula with
// a schematic type. They depend on the small task and on the checker.
ghost use Rattle.kernel.specs.rules.Meaning.{RuleHeld, StepHeld, StepsHeld};

use crate::nodes::NODES;
use crate::small::{filled_store, ids_of, small_task};
use kernel::{Rule, Step, right_step};
use std::alloc::Global;
use std::process::Abort;
use tasks::Seq;
use trees::TermId;
use trees::store::Store;

const MEMORY: &str = "out of memory";

// 1 = 0, and forall x : 'a. x = x.
const EQUATION: TermId = TermId(198);

const SCHEMATIC: TermId = TermId(28);

/// A step with a sequent and a rule.
pub(crate) fn step(
    rt: &impl Abort,
    alloc: Global,
    store: &Store,
    ids: &[TermId],
    rule: Rule,
    k: &[usize],
) -> Step
    requires { RuleHeld store.now rule }
    ensures { StepHeld store.now result }
{
    Step {
        sequent: ids_of(rt, alloc, store, ids),
        rule,
        premises: Seq::from_slice(alloc, k).expect(rt, MEMORY),
    }
}

// Steps with these sequents, which are premises.
pub(crate) fn premise_steps(
    rt: &impl Abort,
    alloc: Global,
    store: &Store,
    sequents: &[&[TermId]],
) -> Seq<Step>
    ensures { StepsHeld store.now result }
{
    let mut steps = Seq::new(alloc);
    for ids in sequents {
        steps
            .push(step(rt, alloc, store, ids, Rule::NotNot(0), &[]))
            .expect(rt, MEMORY);
    }
    steps
}

#[test]
fn integers_are_declared(rt: HostRuntime) {
    let alloc = rt.alloc();
    let store = filled_store(&rt, alloc, &NODES);
    let task = small_task(&rt, alloc, &store, false);
    let uses = Seq::from_slice(alloc, &[(0, 1)]).expect(&rt, MEMORY);
    let tried = step(&rt, alloc, &store, &[EQUATION], Rule::Linear(uses), &[]);
    assert!(rt; !right_step(&store, &task, &[], &tried));
}

#[test]
fn a_sequent_has_no_schematic_formula(rt: HostRuntime) {
    let alloc = rt.alloc();
    let store = filled_store(&rt, alloc, &NODES);
    let task = small_task(&rt, alloc, &store, true);
    let earlier = premise_steps(&rt, alloc, &store, &[&[]]);
    let rule = Rule::Keep(Seq::new(alloc));
    let tried = step(&rt, alloc, &store, &[SCHEMATIC], rule, &[0]);
    assert!(rt; !right_step(&store, &task, earlier.as_slice(), &tried));
}
