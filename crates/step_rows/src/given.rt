// The task of a theory, whose last declaration is its goal.
// It depends on the reader and on elaboration; the answers depend on it.
ghost use Rattle.std.specs.Prelude.{◌≡◌, length, All, OnOk, IfOk};
ghost use Rattle.tasks.specs.trees.Node.{Holds};
ghost use Rattle.tasks.specs.Meaning.{SymbolHeld, DeclHeld, TaskHeld};
ghost use Rattle.elab_groups.specs.parts.Entries.{IsSignature, AreScopes};

use elab_declarations::{ElabFault, Elaborated, begin, elaborate, is_logical, no_names};
use elab_groups::parts::Scope;
use parser::parse_decls::parse;
use std::alloc::{AllocError, Global};
use std::rc::Rc;
use surface::{DeclTree, lex};
use tasks::{Body, Decl, Ints, Seq, Signature, Store, SymbolInfo, Task, TermId};

// The declarations of what is made.
fn decls_of(made: Elaborated) -> Seq<Decl>
    ensures { result ≡ made.decls }
{
    let Elaborated {
        decls,
        rigid: _,
        matches: _,
    } = made;
    decls
}

// Elaborates declarations, the first of which has the number `at`, and puts what they make after others.
fn gather(
    alloc: Global,
    store: &mut Store,
    sig: &mut Signature,
    scope: &mut Scope,
    decls: &[DeclTree],
    at: usize,
    out: &mut Seq<Decl>,
) -> Result<(), ElabFault>
    requires signature { IsSignature store.old sig.old.symbols }
    requires scopes { AreScopes store.old (length sig.old.symbols) scope.old }
    requires held { All (DeclHeld store.old) out.old }
    ensures signature { OnOk result (IsSignature store.new sig.new.symbols) }
    ensures held { OnOk result (All (DeclHeld store.new) out.new) }
{
    let Some((first, rest)) = decls.split_first() else {
        return Ok(());
    };
    if !is_logical(first) {
        return Ok(());
    }
    let made = elaborate(alloc, store, sig, scope, b"T", b"", first, at)?;
    out.append(decls_of(made))?;
    gather(alloc, store, sig, scope, rest, at.saturating_add(1), out)
}

// The symbols of int.Int, if a function `-_` begins them.
fn ints_of(symbols: &[SymbolInfo]) -> Option<Ints> {
    for (k, info) in symbols.iter().enumerate() {
        if info.name.as_slice() == b"-_".as_slice() {
            return Some(Ints {
                neg: k,
                add: k.saturating_add(1),
                sub: k.saturating_add(2),
                mul: k.saturating_add(3),
                lt: k.saturating_add(4),
                le: k.saturating_add(5),
                gt: k.saturating_add(6),
                ge: k.saturating_add(7),
            });
        }
    }
    None
}

// The formula of a proposition, or the number of `int`.
fn formula_of(store: &Store, decl: &Decl) -> TermId
    requires { DeclHeld store.now decl.now }
    ensures { Holds store.now result }
{
    match &decl.body {
        Body::Prop(formula) => *formula,
        _ => store.int_type(),
    }
}

// The task of a goal after other declarations, in a list.
fn make_task(
    alloc: Global,
    store: &Store,
    symbols: Seq<SymbolInfo>,
    decls: Seq<Decl>,
    goal: &Decl,
) -> Result<Vec<Task>, AllocError>
    requires symbols { All (SymbolHeld store.now) symbols }
    requires decls { All (DeclHeld store.now) decls }
    requires goal { DeclHeld store.now goal.now }
    ensures { IfOk result (λ v. All (TaskHeld store.now) v.items) }
{
    let ints = ints_of(symbols.as_slice());
    let sig = Rc::new(alloc, Signature { symbols, ints })?;
    let task = Task {
        sig,
        rigid: Seq::new(alloc),
        decls,
        params: Seq::new(alloc),
        locals: Seq::new(alloc),
        goal: formula_of(store, goal),
    };
    let mut tasks = Vec::new(alloc);
    tasks.push(task)?;
    Ok(tasks)
}

// The task of declarations, the last of which is the goal; none where there are none.
#[tactic(auto, using(crate::proofs::Growth::symbols_held))]
fn last_as_goal(
    alloc: Global,
    store: &Store,
    symbols: Seq<SymbolInfo>,
    decls: Seq<Decl>,
) -> Result<Vec<Task>, AllocError>
    requires signature { IsSignature store.now symbols }
    requires decls { All (DeclHeld store.now) decls }
    ensures { IfOk result (λ v. All (TaskHeld store.now) v.items) }
{
    let mut all = decls;
    match all.pop() {
        Some(goal) => make_task(alloc, store, symbols, all, &goal),
        None => Ok(Vec::new(alloc)),
    }
}

// The task of a theory's declarations; none where they aren't elaborated, or there are none.
fn task_of(alloc: Global, store: &mut Store, decls: &[DeclTree]) -> Result<Vec<Task>, AllocError>
    ensures { IfOk result (λ v. All (TaskHeld store.new) v.items) }
{
    let mut sig = begin(alloc)?;
    let Ok(mut scope) = Scope::new(alloc) else {
        return Err(AllocError);
    };
    no_names(&scope);
    let mut all = Seq::new(alloc);
    match gather(alloc, store, &mut sig, &mut scope, decls, 1, &mut all) {
        Ok(()) => last_as_goal(alloc, store, sig.symbols, all),
        Err(_) => Ok(Vec::new(alloc)),
    }
}

/// The task of the first theory of a source, in a list; none where it has none.
pub(crate) fn read_task(
    alloc: Global,
    store: &mut Store,
    source: &str,
) -> Result<Vec<Task>, AllocError>
    ensures { IfOk result (λ v. All (TaskHeld store.new) v.items) }
{
    let bytes = source.as_bytes();
    let Ok(tokens) = lex(alloc, bytes) else {
        return Ok(Vec::new(alloc));
    };
    let Ok(file) = parse(alloc, &tokens, bytes) else {
        return Ok(Vec::new(alloc));
    };
    match file.theories.as_slice().first() {
        Some(theory) => task_of(alloc, store, theory.decls.as_slice()),
        None => Ok(Vec::new(alloc)),
    }
}
