// Drafts: a store, a task, and steps that are right for it, with the steps that are remembered of formulas.
// It depends on the kernel's right steps; the transformations and `lift_stage` push their steps here.
ghost use Rattle.std.specs.Prelude.{◌≡◌, [], ◌∷◌, ◌++◌, length, All, IfOk, OnErr, IfSome};
ghost use Rattle.trees.specs.Node.{tree_at, Holds};
ghost use Rattle.tasks.specs.Task.{neg};
ghost use Rattle.tasks.specs.Meaning.{trees_at, task_at, TaskHeld};
ghost use Rattle.tasks.specs.Valid.{IsValid};
ghost use Rattle.kernel.specs.Right.{IsRight, AreRight};
ghost use Rattle.rules.specs.Meaning.{step_at, steps_at, StepHeld, StepsHeld};
ghost use Rattle.evidence.specs.Drafts.{Extends, AddsTrees, Refutes, IsFormulaAt, AreFormulas};
ghost use Rattle.evidence.specs.Drafts.{RefutesAt, cut_step, keep_step};
ghost use Rattle.evidence.specs.Laws.{AddsTrees_refl, AddsTrees_trans, AddsTrees_trees};

use indexmap::IndexMap;
use rules::{Rule, Step};
use std::alloc::{AllocError, Global};
use std::marker::Model;
use std::rc::Rc;
use tasks::{Seq, Task};
use trees::store::{Grow, Store};
use trees::{Node, TermId};

/// A derivation in the making: a store, a valid task, and steps that are all right for the task.
#[derive(Drop)]
pub struct Draft {
    store: Store,
    task: Rc<Task>,
    steps: Vec<Step>,
    // By a formula's number, a step whose sequent is the formula's negation, alone.
    lemmas: IndexMap<usize, usize>,
    alloc: Global,
}

impl Model for Draft {
    ghost use Rattle.evidence.specs.Drafts.{DraftTree, draft_code};

    ghost Value = { DraftTree };

    ghost coded = { draft_code };

    ghost use Rattle.tasks.specs.Meaning.{task_at};
    ghost use Rattle.rules.specs.Meaning.{steps_at};
    ghost use Rattle.evidence.specs.Inside.{IsDraft};

    ghost view = { λ a. record {
      trees = a.store;
      task = task_at a.store a.task.value;
      steps = steps_at a.store a.steps.items;
    } };

    ghost invariant = { λ a. IsDraft a.store a.task.value a.steps.items a.lemmas.entries };
}

impl Draft {
    /// A draft of a task, without steps.
    pub fn new(alloc: Global, store: Store, task: Rc<Task>) -> Draft
        requires held { TaskHeld store task.value }
        requires valid { IsValid (task_at store task.value) }
        ensures { result ≡ record { trees = store; task = task_at store task.value; steps = [] } }
    {
        Draft {
            store,
            task,
            steps: Vec::new(alloc),
            lemmas: IndexMap::new(alloc),
            alloc,
        }
    }

    /// The task.
    pub fn task(&self) -> &Rc<Task>
        ensures held { TaskHeld self.now.trees result.now.value }
        ensures tree { task_at self.now.trees result.now.value ≡ self.now.task }
        ensures valid { IsValid self.now.task }
    {
        &self.task
    }

    /// The steps, all of which are right.
    pub fn steps(&self) -> &[Step]
        ensures held { StepsHeld self.now.trees result.now }
        ensures trees { steps_at self.now.trees result.now ≡ self.now.steps }
        ensures right { AreRight self.now.task self.now.steps }
    {
        &self.steps
    }

    /// The store and the steps.
    pub fn into_parts(self) -> (Store, Vec<Step>)
        ensures store { result.0 ≡ self.trees }
        ensures held { StepsHeld result.0 result.1.items }
        ensures steps { steps_at result.0 result.1.items ≡ self.steps }
        ensures right { AreRight self.task self.steps }
    {
        let Draft {
            store,
            task: _,
            steps,
            lemmas: _,
            alloc: _,
        } = self;
        (store, steps)
    }

    /// Where memory comes from.
    pub fn allocator(&self) -> Global {
        self.alloc
    }

    /// The step that is remembered of a formula: its sequent is the formula's negation, alone.
    pub fn lemma_of(&self, formula: TermId) -> Option<usize>
        ensures { IfSome result (λ k. Refutes self.now k
            (neg (tree_at self.now.trees formula) ∷ [])) }
    {
        match self.lemmas.get(&formula.0) {
            Some(step) => Some(*step),
            None => None,
        }
    }

    /// Remembers a step of a formula, whose sequent is the formula's negation, alone.
    pub fn remember_lemma(&mut self, formula: TermId, step: usize) -> Result<(), AllocError>
        requires held { Holds self.old.trees formula }
        requires refutes { Refutes self.old step (neg (tree_at self.old.trees formula) ∷ []) }
        ensures unchanged { self.new ≡ self.old }
    {
        self.lemmas.insert(formula.0, step)?;
        Ok(())
    }

    /// Puts a right step at the end, and gives its number.
    pub fn push(&mut self, step: Step) -> Result<usize, AllocError>
        requires held { StepHeld self.old.trees step }
        requires right { IsRight self.old.task self.old.steps (step_at self.old.trees step) }
        ensures number { IfOk result (λ k. k ≡ length self.old.steps) }
        ensures pushed { IfOk result (λ _. self.new
            ≡ record self.old { steps = self.old.steps ++ step_at self.old.trees step ∷ [] }) }
        ensures unchanged { OnErr result (self.new ≡ self.old) }
        ensures refutes { IfOk result (λ k. Refutes self.new k
            (trees_at self.old.trees step.sequent)) }
        ensures grows { Extends self.old self.new }
    {
        let number = self.steps.len();
        self.steps.push(step)?;
        Ok(number)
    }

    /// Puts a step at the end that refutes a sequent by a cut, and gives its number: `yes` refutes the sequent with the
    /// formula after it, `no` the sequent with the formula's negation.
    pub fn cut(
        &mut self,
        sequent: &[TermId],
        formula: TermId,
        yes: usize,
        no: usize,
    ) -> Result<usize, AllocError>
        requires sequent { AreFormulas self.old sequent.now }
        requires formula { IsFormulaAt self.old formula }
        requires yes { Refutes self.old yes (trees_at self.old.trees sequent.now
            ++ tree_at self.old.trees formula ∷ []) }
        requires no { Refutes self.old no (trees_at self.old.trees sequent.now
            ++ neg (tree_at self.old.trees formula) ∷ []) }
        ensures number { IfOk result (λ k. k ≡ length self.old.steps) }
        ensures pushed { IfOk result (λ _. self.new
            ≡ record self.old {
              steps = self.old.steps ++ cut_step (trees_at self.old.trees sequent.now)
                  (tree_at self.old.trees formula) yes no ∷ [];
            }) }
        ensures unchanged { OnErr result (self.new ≡ self.old) }
        ensures refutes { IfOk result (λ k. Refutes self.new k
            (trees_at self.old.trees sequent.now)) }
        ensures grows { Extends self.old self.new }
    {
        let alloc = self.allocator();
        let sequent = Seq::from_slice(alloc, sequent)?;
        let premises = Seq::from_slice(alloc, &[yes, no])?;
        self.push(Step {
            sequent,
            rule: Rule::Cut(formula),
            premises,
        })
    }

    /// Puts a step at the end that refutes a sequent by some of its formulas, and gives its number: the given step refutes
    /// the formulas at these places of the sequent, in the order of the places.
    pub fn keep(
        &mut self,
        sequent: &[TermId],
        places: &[usize],
        step: usize,
    ) -> Result<usize, AllocError>
        requires sequent { AreFormulas self.old sequent.now }
        requires kept { RefutesAt self.old (trees_at self.old.trees sequent.now) places.now step }
        ensures number { IfOk result (λ k. k ≡ length self.old.steps) }
        ensures pushed { IfOk result (λ _. self.new
            ≡ record self.old {
              steps = self.old.steps ++ keep_step
                  (trees_at self.old.trees sequent.now) places.now step ∷ [];
            }) }
        ensures unchanged { OnErr result (self.new ≡ self.old) }
        ensures refutes { IfOk result (λ k. Refutes self.new k
            (trees_at self.old.trees sequent.now)) }
        ensures grows { Extends self.old self.new }
    {
        let alloc = self.allocator();
        let sequent = Seq::from_slice(alloc, sequent)?;
        let places = Seq::from_slice(alloc, places)?;
        let premises = Seq::from_slice(alloc, &[step])?;
        self.push(Step {
            sequent,
            rule: Rule::Keep(places),
            premises,
        })
    }
}

/// Its store grows, and nothing else changes.
impl Grow for Draft {
    ghost trees = { λ d. d.trees };

    ghost grows = { AddsTrees };

    ghost keeps_trees = { AddsTrees_trees };

    ghost grows_refl = { AddsTrees_refl };

    ghost grows_trans = { AddsTrees_trans };

    fn add(&mut self, node: Node) -> Result<TermId, AllocError> {
        self.store.add(node)
    }

    fn store(&self) -> &Store {
        &self.store
    }
}
