// What a task declares, by an index that is made once, or by going through its declarations: the answers are the same.
// It depends on roles and symbols; typing, the kernel and the evidence look a task up by it.
ghost use Rattle.std.specs.Prelude.{◌≡◌, ◌==◌, ◌++◌, List, slice_get, IsTrue, ◌↔◌, Contains, All, IfSome, OnOk, IfOk};
ghost use Rattle.std.specs.List.{list_any};
ghost use Rattle.std.specs.Option.{option_map, is_some};
ghost use Rattle.trees.specs.Tree.{Tree};
ghost use Rattle.tasks.specs.Task.{declared, props};
ghost use Rattle.tasks.specs.Roles.{maker, role};
ghost use Rattle.tasks.specs.Facts.{facts};
ghost use Rattle.tasks.specs.Meaning.{declaration_at, declarations_at, task_at, proposition_at, DeclHeld, TaskHeld};
ghost use Rattle.tasks.specs.Looking.{SetsWhere, AreMakers, stored_said_in, AreProps, AreFacts, fact_name, IsIndexOf, role_at, RoleHeld, LookupHeld};

use crate::facts::push_facts;
use crate::roles::{makes, role_in};
use crate::symbols::made_by;
use crate::{Body, Decl, Fact, Proposition, Role, Task, nth_proposition};
use std::alloc::{AllocError, Global};
use trees::store::Store;

/// An index of a task: where each symbol is made, its propositions and its facts.
#[derive(Drop)]
pub struct Index {
    // By entry the place of the declaration that makes it, or the number of declarations.
    makers: Vec<usize>,
    props: Vec<Proposition>,
    facts: Vec<Fact>,
}

/// A task, with its index if one was made.
#[derive(Clone, Copy)]
pub struct Lookup<'a> {
    pub task: &'a Task,
    pub index: Option<&'a Index>,
}

// Notes the place of a declaration at an entry, where there is room.
fn mark_one(makers: &mut Vec<usize>, symbol: usize, place: usize)
    ensures { SetsWhere makers.old.items makers.new.items (λ k. symbol == k) place }
{
    if symbol < makers.len() {
        makers[symbol] = place;
    }
}

// Notes the place of a declaration at these entries.
#[tactic(auto, using(crate::proofs::Marking::marks_none, crate::proofs::Marking::marks_then))]
fn mark(makers: &mut Vec<usize>, symbols: &[usize], place: usize)
    ensures { SetsWhere makers.old.items makers.new.items (λ k. list_any (λ j. j == k) symbols.now)
        place }
{
    match symbols.split_first() {
        Some((first, rest)) => {
            mark_one(makers, *first, place);
            mark(makers, rest, place);
        }
        None => (),
    }
}

// At each entry the place of the first declaration that makes it, or their number.
fn makers_of(alloc: Global, task: &Task) -> Result<Vec<usize>, AllocError>
    ensures { IfOk result (λ v. AreMakers task.now.decls v.items) }
{
    let decls = task.decls.as_slice();
    let mut makers = vec![in alloc; decls.len(); task.sig.symbols.len()]?;
    let mut place = decls.len();
    while place > 0 {
        place -= 1;
        let symbols = made_by(alloc, &decls[place].body)?;
        mark(&mut makers, symbols.as_slice(), place);
    }
    Ok(makers)
}

// The proposition of a declaration, if it says one, after others.
fn push_said(decl: &Decl, props: &mut Vec<Proposition>) -> Result<(), AllocError>
    ensures { OnOk result (props.new.items ≡ props.old.items
        ++ stored_said_in decl.now decl.now.body) }
{
    match decl.body {
        Body::Prop(formula) => {
            props.push(Proposition {
                vars: decl.vars,
                formula,
            })?;
            Ok(())
        }
        _ => Ok(()),
    }
}

// The propositions, and the names of the facts.
fn list_propositions(
    alloc: Global,
    decls: &[Decl],
) -> Result<(Vec<Proposition>, Vec<Fact>), AllocError>
    ensures props { IfOk result (λ p. AreProps decls.now p.0.items) }
    ensures facts { IfOk result (λ p. AreFacts decls.now p.1.items) }
{
    let mut props = Vec::new(alloc);
    let mut facts = Vec::new(alloc);
    for decl in decls {
        push_facts(&decl.body, props.len(), &mut facts)?;
        push_said(decl, &mut props)?;
    }
    Ok((props, facts))
}

// The first declaration that makes a symbol.
fn find_maker<'a>(store: &Store, decls: &'a [Decl], symbol: usize) -> Option<&'a Decl>
    requires { All (DeclHeld store.now) decls.now }
    ensures tree { option_map (λ d. declaration_at store.now d.now) result
        ≡ maker (declarations_at store.now decls.now) symbol }
    ensures held { IfSome result (λ d. DeclHeld store.now d.now) }
{
    for decl in decls {
        if makes(store, &decl.body, symbol) {
            return Some(decl);
        }
    }
    None
}

// Whether a number is in a list.
fn is_among(numbers: &[usize], number: usize) -> bool
    ensures { result ≡ list_any (λ j. j == number) numbers.now }
{
    numbers.iter().any(|n| *n == number)
}

impl Index {
    /// The index of a task, in one pass over its declarations. Only want of memory refuses.
    pub fn new(alloc: Global, task: &Task) -> Result<Index, AllocError>
        ensures { IfOk result (λ i. IsIndexOf i task.now) }
    {
        let makers = makers_of(alloc, task)?;
        let (props, facts) = list_propositions(alloc, task.decls.as_slice())?;
        Ok(Index {
            makers,
            props,
            facts,
        })
    }

    /// The fact at a place, counted from 0; none where there are not so many.
    pub fn fact_at(&self, place: usize) -> Option<Fact>
        ensures { (s : List Tree) (t : Task) → IsIndexOf self.now t → result
            ≡ option_map fact_name (slice_get (facts (task_at s t)) place) }
    {
        self.facts.get(place).copied()
    }
}

impl<'a> Lookup<'a> {
    /// A look-up that goes through the declarations.
    pub fn without_index(task: &'a Task) -> Lookup<'a>
        ensures held { (s : List Tree) → TaskHeld s task.now → LookupHeld s result }
        ensures task { result.task.now ≡ task.now }
    {
        Lookup { task, index: None }
    }

    /// A look-up by the index of the task.
    pub fn with_index(task: &'a Task, index: &'a Index) -> Lookup<'a>
        ensures held { (s : List Tree) → TaskHeld s task.now → IsIndexOf index.now task.now
            → LookupHeld s result }
        ensures task { result.task.now ≡ task.now }
    {
        Lookup {
            task,
            index: Some(index),
        }
    }

    // The first declaration that makes a symbol.
    fn maker(&self, store: &Store, symbol: usize) -> Option<&'a Decl>
        requires { LookupHeld store.now self.now }
        ensures tree { option_map (λ d. declaration_at store.now d.now) result
            ≡ maker (declarations_at store.now self.now.task.now.decls) symbol }
        ensures held { IfSome result (λ d. DeclHeld store.now d.now) }
    {
        let decls = self.task.decls.as_slice();
        match self.index {
            Some(index) => {
                if symbol < index.makers.len() {
                    decls.get(index.makers[symbol])
                } else {
                    find_maker(store, decls, symbol)
                }
            }
            None => find_maker(store, decls, symbol),
        }
    }

    /// Whether a declaration makes a symbol.
    pub fn is_made(&self, store: &Store, symbol: usize) -> bool
        requires { LookupHeld store.now self.now }
        ensures { result ≡ is_some (maker (task_at store.now self.now.task.now).decls symbol) }
    {
        self.maker(store, symbol).is_some()
    }

    /// Whether a symbol is a type variable of the goal.
    pub fn is_rigid(&self, store: &Store, symbol: usize) -> bool
        ensures { result ≡ list_any (λ j. j == symbol) (task_at store.now self.now.task.now).rigid }
    {
        let _ = store;
        is_among(self.task.rigid.as_slice(), symbol)
    }

    /// Whether the task declares a symbol: `int`, a type variable of the goal, or what a declaration makes.
    pub fn declares(&self, store: &Store, symbol: usize) -> bool
        requires { LookupHeld store.now self.now }
        ensures { IsTrue result ↔ Contains (declared (task_at store.now self.now.task.now)) symbol }
    {
        if symbol == 0 {
            return true;
        }
        if self.is_rigid(store, symbol) {
            return true;
        }
        self.is_made(store, symbol)
    }

    /// What the task's declarations make a symbol as.
    pub fn role(&self, store: &Store, symbol: usize) -> Role<'a>
        requires { LookupHeld store.now self.now }
        ensures tree { role_at store.now result
            ≡ role (task_at store.now self.now.task.now) symbol }
        ensures held { RoleHeld store.now result }
    {
        match self.maker(store, symbol) {
            Some(decl) => role_in(store, &decl.body, symbol),
            None => Role::Plain,
        }
    }

    /// The proposition with this number, counted from 0; none where there are not so many.
    pub fn proposition(&self, store: &Store, number: usize) -> Option<Proposition>
        requires { LookupHeld store.now self.now }
        ensures { option_map (proposition_at store.now) result
            ≡ slice_get (props (task_at store.now self.now.task.now)) number }
    {
        match self.index {
            Some(index) => index.props.get(number).copied(),
            None => nth_proposition(store, self.task, number),
        }
    }
}
