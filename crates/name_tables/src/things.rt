// What is in a name table, each thing at its place, found without a walk.
// It depends on what occurs in a task; the entries of a table and the printers depend on it.
ghost use Rattle.std.specs.Prelude.{◌≡◌, ◌∷◌, [], map, All, IfOk, OnOk};
ghost use Rattle.std.specs.List.{flat_map};
ghost use Rattle.trees.specs.Node.{tree_at, Holds};
ghost use Rattle.tasks.specs.Meaning.{task_at, TaskHeld};
ghost use Rattle.name_tables.specs.Occurrences.{occurrence, whole_occurrence, in_type, occurrences};
ghost use Rattle.name_tables.specs.Tables.{is_of_ints, is_interpreted, problem_things, task_things, thing_of, occurrence_place, distinct};
ghost use Rattle.name_tables.specs.Seen.{occurrence_at, seen_occurrences, has, KeyHeld, KeysHeld, GainsKeys};
ghost use Rattle.name_tables.specs.Groups.{AreGroups, IsFilled, IsKeyPushed, instances_in, AreDeclaredSymbols};
ghost use Rattle.name_tables.specs.Fronts.{things_among};

use crate::walk::{
    Key, add_key, copied_keys, empty_list, has_key, seen_in, seen_in_term, seen_in_type,
};
use indexmap::IndexSet;
use std::alloc::{AllocError, Global};
use std::marker::Model;
use tasks::{Seq, Task, made_by};
use trees::store::Store;
use trees::{Ints, Node, TermId};

/// What the names of a table stand for, each thing once, by place. A thing is a symbol's entry with the number of the list of its
/// types.
#[derive(Drop)]
pub struct Things {
    keys: IndexSet<Key>,
}

impl Model for Things {
    ghost use Rattle.std.specs.Prelude.{List, ℕ};

    ghost Value = { List (ℕ × ℕ) };

    ghost view = { λ a. a.keys.keys };
}

// Whether a symbol is one of int.Int.
fn is_of_ints(ints: Option<Ints>, symbol: usize) -> bool
    ensures { result ≡ is_of_ints ints symbol }
{
    match ints {
        Some(z) => [z.neg, z.add, z.sub, z.mul, z.lt, z.le, z.gt, z.ge].contains(&symbol),
        None => false,
    }
}

/// Whether a symbol is `int` or one of int.Int. A problem's table has these wherever they are declared.
pub fn is_interpreted(ints: Option<Ints>, symbol: usize) -> bool
    ensures { result ≡ is_interpreted ints symbol }
{
    symbol == 0 || is_of_ints(ints, symbol)
}

// Makes groups up to that of a symbol.
fn fill_groups(alloc: Global, groups: &mut Vec<Seq<Key>>, symbol: usize) -> Result<(), AllocError>
    ensures { OnOk result (IsFilled groups.old.items groups.new.items symbol) }
{
    'filling: while groups.len() <= symbol {
        groups.push(Seq::new(alloc))?;
    }
    Ok(())
}

// Puts a key into the group of its symbol, where its types are ground.
fn push_in_group(
    alloc: Global,
    store: &Store,
    groups: &mut Vec<Seq<Key>>,
    key: Key,
) -> Result<(), AllocError>
    requires held { KeyHeld store.now key }
    ensures { OnOk result (IsKeyPushed store.now groups.old.items groups.new.items key) }
{
    if store.above_type_variables(TermId(key.1)) != 0 {
        return Ok(());
    }
    fill_groups(alloc, groups, key.0)?;
    groups[key.0].push(key)?;
    Ok(())
}

// For each symbol its instances.
fn groups_of(alloc: Global, store: &Store, seen: &[Key]) -> Result<Vec<Seq<Key>>, AllocError>
    requires { KeysHeld store.now seen.now }
    ensures { IfOk result (λ v. AreGroups store.now seen.now v.items) }
{
    let mut groups = Vec::new(alloc);
    for key in seen {
        push_in_group(alloc, store, &mut groups, *key)?;
    }
    Ok(groups)
}

// The symbols of a task: `int`, the goal's type variables, and those that the declarations make.
fn declared_in(alloc: Global, task: &Task) -> Result<Vec<usize>, AllocError>
    ensures { IfOk result (λ v. AreDeclaredSymbols task.now v.items) }
{
    let mut symbols = Vec::new(alloc);
    symbols.push(0)?;
    symbols.extend_from_slice(task.rigid.as_slice())?;
    for decl in task.decls.as_slice() {
        let more = made_by(alloc, &decl.body)?;
        symbols.extend_from_slice(more.as_slice())?;
    }
    Ok(symbols)
}

// Adds symbols at types, each unless it is there.
fn add_keys(store: &Store, keys: &mut IndexSet<Key>, more: &[Key]) -> Result<(), AllocError>
    requires keys_held { KeysHeld store.now keys.old.keys }
    requires held { KeysHeld store.now more.now }
    ensures { OnOk result (GainsKeys store.now keys.old.keys (seen_occurrences store.now more.now)
        keys.new.keys) }
{
    for key in more {
        add_key(store, keys, *key)?;
    }
    Ok(())
}

// Adds a symbol at no types.
fn add_whole(store: &Store, keys: &mut IndexSet<Key>, symbol: usize) -> Result<(), AllocError>
    requires { KeysHeld store.now keys.old.keys }
    ensures { OnOk result (GainsKeys store.now keys.old.keys (whole_occurrence symbol ∷ [])
        keys.new.keys) }
{
    add_key(store, keys, (symbol, empty_list(store).0))
}

// Adds what a problem's table has of a symbol.
fn add_instances(
    store: &Store,
    keys: &mut IndexSet<Key>,
    ints: Option<Ints>,
    groups: &[Seq<Key>],
    symbol: usize,
) -> Result<(), AllocError>
    requires keys_held { KeysHeld store.now keys.old.keys }
    requires groups_held { All (KeysHeld store.now) groups.now }
    ensures { OnOk result (GainsKeys store.now keys.old.keys (instances_in store.now ints groups.now
        symbol) keys.new.keys) }
{
    if is_interpreted(ints, symbol) {
        return add_whole(store, keys, symbol);
    }
    match groups.get(symbol) {
        Some(group) => add_keys(store, keys, group.as_slice()),
        None => Ok(()),
    }
}

// Adds what a problem's table has of symbols.
fn add_all_instances(
    store: &Store,
    keys: &mut IndexSet<Key>,
    ints: Option<Ints>,
    groups: &[Seq<Key>],
    symbols: &[usize],
) -> Result<(), AllocError>
    requires keys_held { KeysHeld store.now keys.old.keys }
    requires groups_held { All (KeysHeld store.now) groups.now }
    ensures { OnOk result (GainsKeys store.now keys.old.keys (flat_map (instances_in store.now ints
        groups.now) symbols.now) keys.new.keys) }
{
    for symbol in symbols {
        add_instances(store, keys, ints, groups, *symbol)?;
    }
    Ok(())
}

// Adds symbols at no types.
fn add_wholes(store: &Store, keys: &mut IndexSet<Key>, symbols: &[usize]) -> Result<(), AllocError>
    requires { KeysHeld store.now keys.old.keys }
    ensures { OnOk result (GainsKeys store.now keys.old.keys (map whole_occurrence symbols.now)
        keys.new.keys) }
{
    for symbol in symbols {
        add_whole(store, keys, *symbol)?;
    }
    Ok(())
}

impl Things {
    /// What is in the table of a task's problem. Only want of memory refuses.
    pub fn of_problem(alloc: Global, store: &Store, task: &Task) -> Result<Things, AllocError>
        requires { TaskHeld store.now task.now }
        ensures held { IfOk result (KeysHeld store.now) }
        ensures things { IfOk result (λ v. seen_occurrences store.now v
            ≡ problem_things (task_at store.now
            task.now)) }
    {
        let seen = seen_in(alloc, store, task)?;
        Things::of_seen(alloc, store, task, seen.as_slice())
    }

    /// What is in the table of a problem, where these occur in it and the task has its declarations.
    pub(crate) fn of_seen(
        alloc: Global,
        store: &Store,
        task: &Task,
        seen: &[Key],
    ) -> Result<Things, AllocError>
        requires { KeysHeld store.now seen.now }
        ensures held { IfOk result (KeysHeld store.now) }
        ensures things { IfOk result (λ v. seen_occurrences store.now v
            ≡ things_among (task_at store.now task.now) (seen_occurrences store.now seen.now)) }
    {
        let groups = groups_of(alloc, store, seen)?;
        let symbols = declared_in(alloc, task)?;
        let mut keys = IndexSet::new(alloc);
        add_all_instances(
            store,
            &mut keys,
            task.sig.ints,
            groups.as_slice(),
            symbols.as_slice(),
        )?;
        Ok(Things { keys })
    }

    /// No things.
    pub(crate) fn none(alloc: Global) -> Things
        ensures { result ≡ [] }
    {
        Things {
            keys: IndexSet::new(alloc),
        }
    }

    /// The same things once more.
    pub(crate) fn copied(&self) -> Result<Things, AllocError>
        ensures { IfOk result (λ v. v ≡ self.now) }
    {
        let keys = copied_keys(&self.keys)?;
        Ok(Things { keys })
    }

    /// What is in the table of a task: each of its symbols, whole. Only want of memory refuses.
    pub fn of_task(alloc: Global, store: &Store, task: &Task) -> Result<Things, AllocError>
        ensures held { IfOk result (KeysHeld store.now) }
        ensures things { IfOk result (λ v. seen_occurrences store.now v
            ≡ task_things (task_at store.now
            task.now)) }
    {
        let symbols = declared_in(alloc, task)?;
        let mut keys = IndexSet::new(alloc);
        add_wholes(store, &mut keys, symbols.as_slice())?;
        Ok(Things { keys })
    }

    /// What occurs in a term or formula. Only want of memory refuses.
    pub fn of_term(alloc: Global, store: &Store, e: TermId) -> Result<Things, AllocError>
        requires { Holds store.now e }
        ensures held { IfOk result (KeysHeld store.now) }
        ensures things { IfOk result (λ v. seen_occurrences store.now v
            ≡ distinct (occurrences (tree_at
            store.now e))) }
    {
        let keys = seen_in_term(alloc, store, e)?;
        Ok(Things { keys })
    }

    /// What is in a type. Only want of memory refuses.
    pub fn of_type(alloc: Global, store: &Store, ty: TermId) -> Result<Things, AllocError>
        requires { Holds store.now ty }
        ensures held { IfOk result (KeysHeld store.now) }
        ensures things { IfOk result (λ v. seen_occurrences store.now v ≡ distinct (in_type (tree_at
            store.now ty))) }
    {
        let keys = seen_in_type(alloc, store, ty)?;
        Ok(Things { keys })
    }

    /// Whether it has a thing.
    pub fn contains(&self, store: &Store, key: (usize, usize)) -> bool
        requires things_held { KeysHeld store.now self.now }
        requires held { KeyHeld store.now key }
        ensures { result ≡ has (seen_occurrences store.now self.now) (occurrence_at store.now key) }
    {
        has_key(store, &self.keys, key)
    }

    /// The things, by place.
    pub fn as_slice(&self) -> &[(usize, usize)]
        ensures { result.now ≡ self.now }
    {
        self.keys.as_slice()
    }

    /// The place of a symbol at types, or the number of things where it is none of them.
    pub fn place_of(&self, store: &Store, symbol: usize, types: TermId) -> usize
        requires things_held { KeysHeld store.now self.now }
        requires held { Holds store.now types }
        ensures { result ≡ occurrence_place (seen_occurrences store.now self.now)
            (occurrence symbol (tree_at
            store.now types)) }
    {
        store.laws();
        match self.keys.get_index_of(&(symbol, types.0)) {
            Some(place) => place,
            None => self.keys.len(),
        }
    }

    /// The place of a type, or the number of things where it is none of them.
    pub fn place_of_type(&self, store: &Store, ty: TermId) -> usize
        requires things_held { KeysHeld store.now self.now }
        requires held { Holds store.now ty }
        ensures { result ≡ occurrence_place (seen_occurrences store.now self.now)
            (thing_of (tree_at store.now ty)) }
    {
        match store.node(ty) {
            Node::TyApp(symbol, args) => self.place_of(store, symbol, args),
            Node::TyRigid(symbol) => self.place_of(store, symbol, empty_list(store)),
            _ => self.place_of(store, 0, empty_list(store)),
        }
    }
}
