// Scopes inside one another, and the search for a name with its qualifiers.
// They depend on the entries of one scope; who gives names their meaning depends on them.
ghost use Rattle.std.specs.Prelude.{◌≡◌, ◌↔◌, ◌<◌, ◌≢◌, Some, List, [], ◌∷◌, ◌++◌, true, false, length, map, reverse, get_or, string_bytes, IsOk, IsTrue, IsNone, IfSome, IfOk, IfErr, OnOk, OnErr};
ghost use Rattle.scopes.specs.Names.{empty_names, find_number, find_name, find_within, first_found, latest, is_declared, imported, ScopeEntry, entries_of, innermost, with_entry, with_name, with_scope, with_import, closed};
ghost use Rattle.scopes.specs.Kept.{brought_before};

use crate::entries::{Entries, Item};
use crate::{NameFault, Table, TypeName, number};
use outside::Text;
use std::alloc::{AllocError, Global};
use std::marker::Model;

/// Scopes inside one another, of which contracts see the entries of each scope by its number, latest first, and the numbers
/// of the open ones, innermost first. Scopes are numbered from 0 in the order in which they were opened.
#[derive(Drop)]
pub struct Scope {
    alloc: Global,
    scopes: Vec<Entries>,
    current: usize,
    /// The open scopes around the current one, outermost first.
    outer: Vec<usize>,
}

impl Model for Scope {
    ghost use Rattle.std.specs.Prelude.{reverse, length, ◌∷◌, ◌<◌};
    ghost use Rattle.std.specs.Prelude.{All};
    ghost use Rattle.scopes.specs.Names.{ScopeNames};

    ghost Value = { ScopeNames };

    ghost view = { λ s. record {
      entries = s.scopes.items;
      nested = s.current ∷ reverse s.outer.items;
    } };

    ghost invariant = { λ s. (s.current < length s.scopes.items)
        × All (λ i. i < length s.scopes.items) s.outer.items };
}

// A word of a path, which is read as its bytes.
trait Word {
    ghost use Rattle.std.specs.Prelude.{List, ℕ, ◌≡◌};

    ghost word: { Self → List ℕ };

    fn word_bytes(&self) -> &[u8]
        ensures { result.now ≡ word self.now };
}

impl Word for String {
    ghost use Rattle.std.specs.Prelude.{string_bytes};

    ghost word = { string_bytes };

    fn word_bytes(&self) -> &[u8] {
        self.as_bytes()
    }
}

impl Word for Text {
    ghost word = { λ text. text };

    fn word_bytes(&self) -> &[u8] {
        self.as_slice()
    }
}

// What a name stands for in one scope.
fn latest_at(scopes: &[Entries], number: usize, table: Table, name: &[u8]) -> Option<TypeName>
    ensures { result ≡ latest table name.now (get_or scopes.now number []) }
{
    match scopes.get(number) {
        Some(entries) => entries.latest(table, name),
        None => None,
    }
}

// What a name stands for in these scopes, of which the last one is the innermost.
fn first_found(scopes: &[Entries], numbers: &[usize], table: Table, name: &[u8]) -> Option<TypeName>
    ensures { result ≡ first_found table name.now scopes.now (reverse numbers.now) }
{
    let mut left = numbers.len();
    while left > 0 {
        left -= 1;
        let found = latest_at(scopes, numbers[left], table, name);
        if found.is_some() {
            return found;
        }
    }
    None
}

// The search goes on in the found scope's own entries, along these names of scopes to the last name.
fn find_within<W: Word>(
    scopes: &[Entries],
    table: Table,
    mut found: Option<TypeName>,
    mut names: &[W],
    last: &[u8],
) -> Option<TypeName>
    ensures { result ≡ find_within scopes.now table found (map W.word names.now ++ last.now ∷ []) }
{
    while let Some((name, rest)) = names.split_first() {
        found = latest_at(scopes, number(found?), Table::Scopes, name.word_bytes());
        names = rest;
    }
    latest_at(scopes, number(found?), table, last)
}

impl Scope {
    /// One open scope, which has no entries and can't be closed.
    pub fn new(alloc: Global) -> Result<Scope, AllocError>
        ensures { IfOk result (λ s. s ≡ empty_names) }
    {
        let mut scopes = Vec::new(alloc);
        scopes.push(Entries::new(alloc))?;
        Ok(Scope {
            alloc,
            scopes,
            current: 0,
            outer: Vec::new(alloc),
        })
    }

    // What a name without qualifiers stands for.
    fn find_first(&self, table: Table, name: &[u8]) -> Option<TypeName>
        ensures { result ≡ first_found table name.now self.now.entries self.now.nested }
    {
        match latest_at(&self.scopes, self.current, table, name) {
            Some(thing) => Some(thing),
            None => first_found(&self.scopes, &self.outer, table, name),
        }
    }

    // What the last name stands for, its qualifiers being these names of scopes.
    fn find<W: Word>(&self, table: Table, names: &[W], last: &[u8]) -> Option<TypeName>
        ensures { result ≡ find_name self.now table (map W.word names.now ++ last.now ∷ []) }
    {
        match names.split_first() {
            None => self.find_first(table, last),
            Some((name, rest)) => {
                let found = self.find_first(Table::Scopes, name.word_bytes());
                find_within(&self.scopes, table, found, rest, last)
            }
        }
    }

    // What the name at the path's end stands for.
    fn find_path(&self, table: Table, path: &[String]) -> Option<TypeName>
        ensures { result ≡ find_name self.now table (map string_bytes path.now) }
    {
        let (last, names) = path.split_last()?;
        self.find(table, names, last.as_bytes())
    }

    /// What the name at the path's end stands for in this table, its qualifiers being the names before it. Of a scope it is
    /// the scope's number, of an alias, which is no entry, 0. It is `None` exactly where no open scope has the first name,
    /// or a name that follows isn't in the scope found so far. No memory is taken.
    pub fn look(&self, table: Table, path: &[String]) -> Option<usize>
        ensures { result ≡ find_number self.now table (map string_bytes path.now) }
    {
        Some(number(self.find_path(table, path)?))
    }

    /// As `look` in the table of types, and whether it is an entry or an alias. No memory is taken.
    pub fn look_type(&self, path: &[String]) -> Option<TypeName>
        ensures { result ≡ find_name self.now Table.Types (map string_bytes path.now) }
    {
        self.find_path(Table::Types, path)
    }

    /// As `look`, at the name with these bytes after these names of scopes. No memory is taken.
    pub fn look_at(&self, table: Table, scopes: &[Text], name: &[u8]) -> Option<usize>
        ensures { result ≡ find_number self.now table (scopes.now ++ name.now ∷ []) }
    {
        Some(number(self.find(table, scopes, name)?))
    }

    /// As `look_type`, at the name with these bytes after these names of scopes. No memory is taken.
    pub fn look_type_at(&self, scopes: &[Text], name: &[u8]) -> Option<TypeName>
        ensures { result ≡ find_name self.now Table.Types (scopes.now ++ name.now ∷ []) }
    {
        self.find(Table::Types, scopes, name)
    }

    // Whether the innermost scope declared the name in this table.
    fn declares(&self, table: Table, name: &[u8]) -> bool
        ensures { result ≡ is_declared table name.now (entries_of self.now (innermost self.now)) }
    {
        self.scopes[self.current].is_declared(table, name)
    }

    // A further name of the innermost scope.
    fn add(
        &mut self,
        table: Table,
        name: &[u8],
        thing: TypeName,
        declared: bool,
    ) -> Result<(), AllocError>
        ensures ok { OnOk result (self.new ≡ with_name table name.now thing declared self.old) }
        ensures err { OnErr result (self.new ≡ self.old) }
    {
        let name = Vec::from_slice(self.alloc, name)?;
        let entries = &mut self.scopes[self.current];
        entries.add(table, name, thing, declared)
    }

    // A further scope, inside the innermost one.
    fn add_scope(&mut self, name: &[u8], declared: bool) -> Result<(), AllocError>
        ensures ok { OnOk result (self.new ≡ with_scope name.now declared self.old) }
        ensures err { OnErr result (self.new ≡ self.old) }
    {
        let number = self.scopes.as_slice().len();
        let depth = self.outer.len();
        let name = Vec::from_slice(self.alloc, name)?;
        self.outer.push(self.current)?;
        match self.scopes.push(Entries::new(self.alloc)) {
            Ok(()) => {}
            Err(_) => {
                self.outer.truncate(depth);
                return Err(AllocError);
            }
        }
        let entries = &mut self.scopes[self.current];
        match entries.add(Table::Scopes, name, TypeName::Entry(number), declared) {
            Ok(()) => {}
            Err(fault) => {
                self.outer.truncate(depth);
                self.scopes.truncate(number);
                return Err(fault);
            }
        }
        self.current = number;
        Ok(())
    }

    /// Opens a scope inside the innermost one, which declares its name: `Duplicate` exactly where it declared a scope of
    /// this name before. After a refusal all stays.
    pub fn open(&mut self, name: &str) -> Result<(), NameFault>
        ensures ok { OnOk result (self.new ≡ with_scope name.now true self.old) }
        ensures duplicate { (result ≡ Err NameFault.Duplicate)
            ↔ IsTrue (is_declared Table.Scopes name.now
            (entries_of self.old (innermost self.old))) }
        ensures never_unknown { IfErr result (λ fault. fault ≢ NameFault.Unknown) }
        ensures err { OnErr result (self.new ≡ self.old) }
    {
        self.open_name(name.as_bytes())
    }

    /// As `open`, of a name by its bytes.
    pub fn open_name(&mut self, name: &[u8]) -> Result<(), NameFault>
        ensures ok { OnOk result (self.new ≡ with_scope name.now true self.old) }
        ensures duplicate { (result ≡ Err NameFault.Duplicate)
            ↔ IsTrue (is_declared Table.Scopes name.now
            (entries_of self.old (innermost self.old))) }
        ensures never_unknown { IfErr result (λ fault. fault ≢ NameFault.Unknown) }
        ensures err { OnErr result (self.new ≡ self.old) }
    {
        if self.declares(Table::Scopes, name) {
            return Err(NameFault::Duplicate);
        }
        self.add_scope(name, true)?;
        Ok(())
    }

    /// Opens a scope for the names of a `use` or `clone` inside the innermost one, which has its name as an imported one:
    /// it hides an earlier one, and is no duplicate. After a refusal all stays.
    pub fn open_used(&mut self, name: &str) -> Result<(), AllocError>
        ensures ok { OnOk result (self.new ≡ with_scope name.now false self.old) }
        ensures err { OnErr result (self.new ≡ self.old) }
    {
        self.add_scope(name.as_bytes(), false)
    }

    /// As `open_used`, of a name by its bytes.
    pub fn open_used_name(&mut self, name: &[u8]) -> Result<(), AllocError>
        ensures ok { OnOk result (self.new ≡ with_scope name.now false self.old) }
        ensures err { OnErr result (self.new ≡ self.old) }
    {
        self.add_scope(name, false)
    }

    /// Whether a scope is open that can be closed. No memory is taken.
    pub fn is_nested(&self) -> bool
        ensures { IsTrue result ↔ (1 < length self.now.nested) }
    {
        !self.outer.is_empty()
    }

    /// Leaves the innermost scope. No memory is taken, and the answer is always `Ok`.
    pub fn close(&mut self) -> Result<(), NameFault>
        requires { 1 < length self.old.nested }
        ensures answer { IsOk result }
        ensures ok { self.new ≡ closed self.old }
    {
        if let Some(number) = self.outer.pop() {
            self.current = number;
        }
        Ok(())
    }

    /// The innermost scope declares a name in a table: `Duplicate` exactly where it declared it there before. After a
    /// refusal all stays.
    pub fn enter(&mut self, table: Table, name: &str, thing: usize) -> Result<(), NameFault>
        ensures ok { OnOk result (self.new ≡ with_entry table name.now thing true self.old) }
        ensures duplicate { (result ≡ Err NameFault.Duplicate)
            ↔ IsTrue (is_declared table name.now (entries_of self.old (innermost self.old))) }
        ensures never_unknown { IfErr result (λ fault. fault ≢ NameFault.Unknown) }
        ensures err { OnErr result (self.new ≡ self.old) }
    {
        self.enter_name(table, name.as_bytes(), TypeName::Entry(thing))
    }

    /// As `enter` in the table of types, of a name that may be an alias.
    pub fn enter_type(&mut self, name: &str, thing: TypeName) -> Result<(), NameFault>
        ensures ok { OnOk result (self.new ≡ with_name Table.Types name.now thing true self.old) }
        ensures duplicate { (result ≡ Err NameFault.Duplicate)
            ↔ IsTrue (is_declared Table.Types name.now (entries_of self.old (innermost self.old))) }
        ensures never_unknown { IfErr result (λ fault. fault ≢ NameFault.Unknown) }
        ensures err { OnErr result (self.new ≡ self.old) }
    {
        self.enter_name(Table::Types, name.as_bytes(), thing)
    }

    /// As `enter` and `enter_type`, of a name by its bytes.
    pub fn enter_name(
        &mut self,
        table: Table,
        name: &[u8],
        thing: TypeName,
    ) -> Result<(), NameFault>
        ensures ok { OnOk result (self.new ≡ with_name table name.now thing true self.old) }
        ensures duplicate { (result ≡ Err NameFault.Duplicate)
            ↔ IsTrue (is_declared table name.now (entries_of self.old (innermost self.old))) }
        ensures never_unknown { IfErr result (λ fault. fault ≢ NameFault.Unknown) }
        ensures err { OnErr result (self.new ≡ self.old) }
    {
        if self.declares(table, name) {
            return Err(NameFault::Duplicate);
        }
        self.add(table, name, thing, true)?;
        Ok(())
    }

    /// The innermost scope gets an imported name, whatever it has. After a refusal all stays.
    pub fn bring(&mut self, table: Table, name: &str, thing: usize) -> Result<(), AllocError>
        ensures ok { OnOk result (self.new ≡ with_entry table name.now thing false self.old) }
        ensures err { OnErr result (self.new ≡ self.old) }
    {
        self.bring_name(table, name.as_bytes(), TypeName::Entry(thing))
    }

    /// As `bring` in the table of types, of a name that may be an alias.
    pub fn bring_type(&mut self, name: &str, thing: TypeName) -> Result<(), AllocError>
        ensures ok { OnOk result (self.new ≡ with_name Table.Types name.now thing false self.old) }
        ensures err { OnErr result (self.new ≡ self.old) }
    {
        self.bring_name(Table::Types, name.as_bytes(), thing)
    }

    /// As `bring` and `bring_type`, of a name by its bytes.
    pub fn bring_name(
        &mut self,
        table: Table,
        name: &[u8],
        thing: TypeName,
    ) -> Result<(), AllocError>
        ensures ok { OnOk result (self.new ≡ with_name table name.now thing false self.old) }
        ensures err { OnErr result (self.new ≡ self.old) }
    {
        self.add(table, name, thing, false)
    }

    // The entries of a scope, to be brought in.
    fn items(&self, number: usize) -> Result<Vec<Item>, AllocError>
        ensures { IfOk result (λ items. (more : List ScopeEntry) → brought_before more items.items
            ≡ map imported (entries_of self.now number) ++ more) }
    {
        match self.scopes.get(number) {
            Some(entries) => entries.items(self.alloc),
            None => Ok(Vec::new(self.alloc)),
        }
    }

    /// The innermost scope gets all names of the scope at this path as imported ones: `Unknown` exactly where no scope is
    /// found there. After a refusal all stays.
    pub fn import_from(&mut self, path: &[String]) -> Result<(), NameFault>
        ensures ok { OnOk result (IfSome
            (find_number self.old Table.Scopes (map string_bytes path.now))
            (λ number. self.new ≡ with_import number self.old)) }
        ensures unknown { (result ≡ Err NameFault.Unknown)
            ↔ IsNone (find_number self.old Table.Scopes (map string_bytes path.now)) }
        ensures never_duplicate { IfErr result (λ fault. fault ≢ NameFault.Duplicate) }
        ensures err { OnErr result (self.new ≡ self.old) }
    {
        let number = match self.look(Table::Scopes, path) {
            Some(number) => number,
            None => return Err(NameFault::Unknown),
        };
        let items = self.items(number)?;
        let entries = &mut self.scopes[self.current];
        entries.bring_all(items)?;
        Ok(())
    }
}
