// The trees that the lines of steps refer to.
// They depend on rules as they are written; the writer of files depends on them.
ghost use Rattle.std.specs.Prelude.{◌≡◌, ◌++◌, ◌∷◌, [], All, flat_map, IfOk, OnOk};
ghost use Rattle.kernel.specs.trees.Node.{Holds};
ghost use Rattle.kernel.specs.tasks.Meaning.{trees_at};
ghost use Rattle.kernel.specs.rules.Meaning.{step_at, steps_at, StepHeld, StepsHeld};
ghost use Rattle.step_lines.specs.rule_words.Arguments.{argument_at, arguments_at, ArgumentHeld};
ghost use Rattle.step_writing.specs.Named.{step_trees, trees_in};

use kernel::{Step, Store, TermId};
use std::alloc::{AllocError, Global};
use step_lines::rule_words::{Argument, written_rule};

// Appends the tree of an argument, where it has one.
fn push_tree(roots: &mut Vec<TermId>, store: &Store, argument: Argument) -> Result<(), AllocError>
    requires roots { All (Holds store.now) roots.old.items }
    requires argument { ArgumentHeld store.now argument }
    ensures trees { OnOk result (trees_at store.now roots.new.items
        ≡ trees_at store.now roots.old.items
        ++ trees_in (argument_at store.now argument ∷ [])) }
    ensures held { OnOk result (All (Holds store.now) roots.new.items) }
{
    let _ = store;
    match argument {
        Argument::Expression(e) => {
            roots.push(e)?;
            Ok(())
        }
        Argument::Type(y) => {
            roots.push(y)?;
            Ok(())
        }
        Argument::Number(_) => Ok(()),
        Argument::Symbol(_) => Ok(()),
        Argument::Integer(_) => Ok(()),
    }
}

// Appends the trees among arguments.
fn push_trees(
    roots: &mut Vec<TermId>,
    store: &Store,
    arguments: &[Argument],
) -> Result<(), AllocError>
    requires roots { All (Holds store.now) roots.old.items }
    requires arguments { All (ArgumentHeld store.now) arguments.now }
    ensures trees { OnOk result (trees_at store.now roots.new.items
        ≡ trees_at store.now roots.old.items ++ trees_in (arguments_at store.now arguments.now)) }
    ensures held { OnOk result (All (Holds store.now) roots.new.items) }
{
    for argument in arguments {
        push_tree(roots, store, *argument)?;
    }
    Ok(())
}

// Appends the trees of a step.
fn push_step(
    alloc: Global,
    roots: &mut Vec<TermId>,
    store: &Store,
    step: &Step,
) -> Result<(), AllocError>
    requires roots { All (Holds store.now) roots.old.items }
    requires step { StepHeld store.now step.now }
    ensures trees { OnOk result (trees_at store.now roots.new.items
        ≡ trees_at store.now roots.old.items ++ step_trees (step_at store.now step.now)) }
    ensures held { OnOk result (All (Holds store.now) roots.new.items) }
{
    roots.extend_from_slice(step.sequent.as_slice())?;
    let written = written_rule(alloc, &step.rule)?;
    push_trees(roots, store, &written.arguments)
}

/// The trees that steps have in their sequents and rules.
pub(crate) fn step_roots(
    alloc: Global,
    store: &Store,
    steps: &[Step],
) -> Result<Vec<TermId>, AllocError>
    requires { StepsHeld store.now steps.now }
    ensures trees { IfOk result (λ v. trees_at store.now v.items
        ≡ flat_map step_trees (steps_at store.now steps.now)) }
    ensures held { IfOk result (λ v. All (Holds store.now) v.items) }
{
    let mut roots = Vec::new(alloc);
    for step in steps {
        push_step(alloc, &mut roots, store, step)?;
    }
    Ok(roots)
}
