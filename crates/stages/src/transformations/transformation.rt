// The transformations, as one type.
// Each is a crate of its own; the words of drivers depend on them.
ghost use Rattle.stages.specs.transformations.Transformations.{keeps_of, task_equation_of};

use evidence::{Draft, StageFault, Transform};
use std::alloc::{AllocError, Global};
use tasks::{Fact, Store, Task, TermId};
use tr_algebraic::AlgebraicTypes;
use tr_define::{Definitions, InductiveGroups};
use tr_discriminate::Discriminate;
use tr_if::Conditionals;
use tr_inline::Inline;
use tr_introduce::Introduce;
use tr_let::Lets;
use tr_match::Matches;
use tr_recursion::Recursion;
use tr_remove::Remove;
use tr_simplify::SimplifiedFormulas;
use tr_split::Split;

/// A transformation of tasks.
#[derive(Drop)]
pub enum Transformation {
    Remove(Remove),
    Split(Split),
    Introduce(Introduce),
    Definitions(Definitions),
    InductiveGroups(InductiveGroups),
    Inline(Inline),
    Lets(Lets),
    Matches(Matches),
    Conditionals(Conditionals),
    SimplifiedFormulas(SimplifiedFormulas),
    Discriminate(Discriminate),
    Recursion(Recursion),
    AlgebraicTypes(AlgebraicTypes),
}

impl Transform for Transformation {
    ghost equation = { task_equation_of };

    fn make(&self, alloc: Global, store: &mut Store, task: &Task) -> Result<Vec<Task>, StageFault> {
        match self {
            Transformation::Remove(its) => its.make(alloc, store, task),
            Transformation::Split(its) => its.make(alloc, store, task),
            Transformation::Introduce(its) => its.make(alloc, store, task),
            Transformation::Definitions(its) => its.make(alloc, store, task),
            Transformation::InductiveGroups(its) => its.make(alloc, store, task),
            Transformation::Inline(its) => its.make(alloc, store, task),
            Transformation::Lets(its) => its.make(alloc, store, task),
            Transformation::Matches(its) => its.make(alloc, store, task),
            Transformation::Conditionals(its) => its.make(alloc, store, task),
            Transformation::SimplifiedFormulas(its) => its.make(alloc, store, task),
            Transformation::Discriminate(its) => its.make(alloc, store, task),
            Transformation::Recursion(its) => its.make(alloc, store, task),
            Transformation::AlgebraicTypes(its) => its.make(alloc, store, task),
        }
    }

    fn fact(
        &self,
        from: &Task,
        to: &Task,
        name: Fact,
        types: &[TermId],
        formula: TermId,
        draft: &mut Draft,
    ) -> Result<usize, AllocError> {
        match self {
            Transformation::Remove(its) => its.fact(from, to, name, types, formula, draft),
            Transformation::Split(its) => its.fact(from, to, name, types, formula, draft),
            Transformation::Introduce(its) => its.fact(from, to, name, types, formula, draft),
            Transformation::Definitions(its) => its.fact(from, to, name, types, formula, draft),
            Transformation::InductiveGroups(its) => its.fact(from, to, name, types, formula, draft),
            Transformation::Inline(its) => its.fact(from, to, name, types, formula, draft),
            Transformation::Lets(its) => its.fact(from, to, name, types, formula, draft),
            Transformation::Matches(its) => its.fact(from, to, name, types, formula, draft),
            Transformation::Conditionals(its) => its.fact(from, to, name, types, formula, draft),
            Transformation::SimplifiedFormulas(its) => {
                its.fact(from, to, name, types, formula, draft)
            }
            Transformation::Discriminate(its) => its.fact(from, to, name, types, formula, draft),
            Transformation::Recursion(its) => its.fact(from, to, name, types, formula, draft),
            Transformation::AlgebraicTypes(its) => its.fact(from, to, name, types, formula, draft),
        }
    }

    fn glue(
        &self,
        from: &Task,
        to: &Vec<Task>,
        ends: &[usize],
        draft: &mut Draft,
    ) -> Result<usize, AllocError> {
        match self {
            Transformation::Remove(its) => its.glue(from, to, ends, draft),
            Transformation::Split(its) => its.glue(from, to, ends, draft),
            Transformation::Introduce(its) => its.glue(from, to, ends, draft),
            Transformation::Definitions(its) => its.glue(from, to, ends, draft),
            Transformation::InductiveGroups(its) => its.glue(from, to, ends, draft),
            Transformation::Inline(its) => its.glue(from, to, ends, draft),
            Transformation::Lets(its) => its.glue(from, to, ends, draft),
            Transformation::Matches(its) => its.glue(from, to, ends, draft),
            Transformation::Conditionals(its) => its.glue(from, to, ends, draft),
            Transformation::SimplifiedFormulas(its) => its.glue(from, to, ends, draft),
            Transformation::Discriminate(its) => its.glue(from, to, ends, draft),
            Transformation::Recursion(its) => its.glue(from, to, ends, draft),
            Transformation::AlgebraicTypes(its) => its.glue(from, to, ends, draft),
        }
    }

    ghost keeps = { keeps_of };
}
