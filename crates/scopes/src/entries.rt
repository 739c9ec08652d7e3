// The entries of one scope: a list of them, and a map that finds what a name means without walking it.
// It depends on a map of the standard library; scopes inside one another depend on it.
ghost use Rattle.std.specs.Prelude.{◌≡◌, ◌≤◌, ◌<◌, ◌++◌, ◌∷◌, [], List, length, map, drop, if◌then◌else◌, ◌||◌, IfOk, OnOk, OnErr};
ghost use Rattle.scopes.specs.declared.Table.{Table};
ghost use Rattle.scopes.specs.Kept.{was_declared, meaning_thing};
ghost use Rattle.scopes.specs.Names.{ScopeEntry, latest, is_declared, imported, same_table};

use crate::{Table, TypeName};
use std::alloc::{AllocError, Global};
use std::collections::HashMap;
use std::marker::Model;

/// The latest thing of a name in a table, and whether the name was declared there.
#[derive(Clone, Copy)]
pub struct Meaning {
    pub thing: TypeName,
    pub declared: bool,
}

/// What a name means in each table.
#[derive(Clone, Copy)]
pub struct Meanings {
    pub types: Option<Meaning>,
    pub symbols: Option<Meaning>,
    pub propositions: Option<Meaning>,
    pub scopes: Option<Meaning>,
}

/// An entry, with what its name meant in its table before it.
#[derive(Drop)]
pub struct Stored {
    pub table: Table,
    pub name: Vec<u8>,
    pub thing: TypeName,
    pub declared: bool,
    pub before: Option<Meaning>,
}

/// An entry to be brought in.
#[derive(Drop)]
pub struct Item {
    pub table: Table,
    pub name: Vec<u8>,
    pub thing: TypeName,
}

/// The entries of a scope, which contracts see as their list, latest first.
#[derive(Drop)]
pub struct Entries {
    stored: Vec<Stored>,
    meanings: HashMap<Vec<u8>, Meanings>,
}

impl Model for Entries {
    ghost use Rattle.std.specs.Prelude.{List};
    ghost use Rattle.scopes.specs.Names.{ScopeEntry};

    ghost Value = { List ScopeEntry };

    ghost use Rattle.scopes.specs.Kept.{latest_first, IsKeptMap};

    ghost view = { λ s. latest_first s.stored.items };

    ghost invariant = { λ s. IsKeptMap s.stored.items s.meanings };
}

impl Meanings {
    ghost use Rattle.scopes.specs.Kept.{meaning_in};

    /// What a name that is nowhere means.
    fn none() -> Meanings
        ensures { (table : Table) → meaning_in table result ≡ None }
    {
        Meanings {
            types: None,
            symbols: None,
            propositions: None,
            scopes: None,
        }
    }

    fn in_table(self, table: Table) -> Option<Meaning>
        ensures { result ≡ meaning_in table self }
    {
        match table {
            Table::Types => self.types,
            Table::Symbols => self.symbols,
            Table::Propositions => self.propositions,
            Table::Scopes => self.scopes,
        }
    }

    fn with_meaning(self, table: Table, meaning: Option<Meaning>) -> Meanings
        ensures { (other : Table) → meaning_in other result
            ≡ (if same_table other table then meaning else meaning_in other self) }
    {
        match table {
            Table::Types => Meanings {
                types: meaning,
                ..self
            },
            Table::Symbols => Meanings {
                symbols: meaning,
                ..self
            },
            Table::Propositions => Meanings {
                propositions: meaning,
                ..self
            },
            Table::Scopes => Meanings {
                scopes: meaning,
                ..self
            },
        }
    }
}

// Whether the name was declared.
fn was_declared(meaning: Option<Meaning>) -> bool
    ensures { result ≡ was_declared meaning }
{
    match meaning {
        Some(meaning) => meaning.declared,
        None => false,
    }
}

// What the name stands for.
fn thing_of(meaning: Option<Meaning>) -> Option<TypeName>
    ensures { result ≡ meaning_thing meaning }
{
    match meaning {
        Some(meaning) => Some(meaning.thing),
        None => None,
    }
}

// What a name means after a further entry.
fn meaning_after(before: Option<Meaning>, thing: TypeName, declared: bool) -> Meaning
    ensures { result ≡ record { thing = thing; declared = declared || was_declared before } }
{
    Meaning {
        thing,
        declared: declared || was_declared(before),
    }
}

impl Entries {
    ghost use Rattle.scopes.specs.Kept.{brought_before, latest_meaning, meaning_in};

    /// No entries. It takes no memory.
    pub fn new(alloc: Global) -> Entries
        ensures { result ≡ [] }
    {
        Entries {
            stored: Vec::new(alloc),
            meanings: HashMap::new(alloc),
        }
    }

    /// The number of entries.
    pub fn len(&self) -> usize
        ensures { result ≡ length self.now }
    {
        self.stored.as_slice().len()
    }

    /// What a name means in each table.
    fn meanings_of(&self, name: &[u8]) -> Meanings
        ensures { (table : Table) → meaning_in table result
            ≡ latest_meaning table name.now self.now }
    {
        match self.meanings.get(name) {
            Some(known) => *known,
            None => Meanings::none(),
        }
    }

    /// What the latest entry with this name in this table stands for.
    pub fn latest(&self, table: Table, name: &[u8]) -> Option<TypeName>
        ensures { result ≡ latest table name.now self.now }
    {
        thing_of(self.meanings_of(name).in_table(table))
    }

    /// Whether this name was declared in this table.
    pub fn is_declared(&self, table: Table, name: &[u8]) -> bool
        ensures { result ≡ is_declared table name.now self.now }
    {
        was_declared(self.meanings_of(name).in_table(table))
    }

    /// Adds an entry. Where memory is wanting, all stays.
    pub fn add(
        &mut self,
        table: Table,
        name: Vec<u8>,
        thing: TypeName,
        declared: bool,
    ) -> Result<(), AllocError>
        ensures ok { OnOk result (self.new
            ≡ record { table = table; name = name.items; thing = thing; declared = declared }
            ∷ self.old) }
        ensures err { OnErr result (self.new ≡ self.old) }
    {
        let key = Vec::from_slice(*name.allocator(), name.as_slice())?;
        let known = self.meanings_of(name.as_slice());
        let before = known.in_table(table);
        let meaning = meaning_after(before, thing, declared);
        let count = self.stored.len();
        self.stored.push(Stored {
            table,
            name,
            thing,
            declared,
            before,
        })?;
        match self
            .meanings
            .insert(key, known.with_meaning(table, Some(meaning)))
        {
            Ok(_) => {}
            Err(_) => {
                self.stored.truncate(count);
                return Err(AllocError);
            }
        }
        Ok(())
    }

    /// Takes the latest entry away.
    fn remove_latest(&mut self)
        requires { 0 < length self.old }
        ensures { self.new ≡ drop 1 self.old }
    {
        if let Some(last) = self.stored.pop() {
            if let Some(known) = self.meanings.get_mut(last.name.as_slice()) {
                *known = known.with_meaning(last.table, last.before);
            }
        }
    }

    /// Takes the latest entries away.
    fn remove_many(&mut self, count: usize)
        requires { count ≤ length self.old }
        ensures { self.new ≡ drop count self.old }
    {
        for _ in 0..count {
            self.remove_latest();
        }
    }

    /// Brings in entries, in this order. Where memory is wanting, all stays.
    pub fn bring_all(&mut self, items: Vec<Item>) -> Result<(), AllocError>
        ensures ok { OnOk result (self.new ≡ brought_before self.old items.items) }
        ensures err { OnErr result (self.new ≡ self.old) }
    {
        let before = self.len();
        for item in items {
            if let Err(fault) = self.add(item.table, item.name, item.thing, false) {
                self.remove_many(self.len() - before);
                return Err(fault);
            }
        }
        Ok(())
    }

    /// All entries, in the order in which they came.
    pub fn items(&self, alloc: Global) -> Result<Vec<Item>, AllocError>
        ensures { IfOk result (λ items. (more : List ScopeEntry) → brought_before more items.items
            ≡ map imported self.now ++ more) }
    {
        let mut items = Vec::new(alloc);
        for stored in &self.stored {
            items.push(Item {
                table: stored.table,
                name: Vec::from_slice(alloc, stored.name.as_slice())?,
                thing: stored.thing,
            })?;
        }
        Ok(items)
    }
}
