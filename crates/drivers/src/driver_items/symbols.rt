// What a driver's name of a symbol stands for, and which theories are known.
// They depend on signatures; the steps of the reader depend on them.
ghost use Rattle.std.specs.Prelude.{◌≡◌, option_map, string_bytes};
ghost use Rattle.word_tables.specs.Words.{is_same_word};
ghost use Rattle.drivers.specs.driver_items.Symbols.{among, builtin_of, by_kind, entry_from, has_proposition, is_builtin, is_named_kind, is_known, is_symbol_named, is_path, target_of, theory_with_path};

use crate::driver_tokens::NameKind;
use tasks::{SymbolInfo, SymbolKind};
use tokens_why::is_lower_own;

/// A symbol for which a template may be there.
#[derive(Clone, Copy)]
pub enum Target {
    Int,
    Equality,
    Entry(usize),
}

fn is_builtin(path: &[u8]) -> bool
    ensures { result ≡ is_builtin path.now }
{
    path == b"BuiltIn".as_slice()
}

/// Whether a theory has this path.
fn is_path(theory: &(String, Vec<String>), path: &[u8]) -> bool
    ensures { result ≡ is_path path.now theory.now }
{
    theory.0.as_bytes() == path
}

/// The theory with a path.
fn theory_of<'a>(
    theories: &'a [(String, Vec<String>)],
    path: &[u8],
) -> Option<&'a (String, Vec<String>)>
    ensures { option_map (λ t. t.now) result ≡ theory_with_path path.now theories.now }
{
    for theory in theories {
        if is_path(theory, path) {
            return Some(theory);
        }
    }
    None
}

/// Whether a theory is known.
pub fn is_known(theories: &[(String, Vec<String>)], path: &[u8]) -> bool
    ensures { result ≡ is_known theories.now path.now }
{
    is_builtin(path) || theory_of(theories, path).is_some()
}

fn is_kind(kind: NameKind, its: SymbolKind, name: &[u8]) -> bool
    ensures { result ≡ is_named_kind kind its name.now }
{
    match (kind, its) {
        (NameKind::Type, SymbolKind::Kind) => true,
        (NameKind::Function, SymbolKind::Function) => true,
        (NameKind::Function, SymbolKind::Constructor) => !is_lower_own(name),
        (NameKind::Function, SymbolKind::Projection) => is_lower_own(name),
        (NameKind::Predicate, SymbolKind::Predicate) => true,
        _ => false,
    }
}

fn is_named(symbol: &SymbolInfo, path: &[u8], kind: NameKind, name: &[u8]) -> bool
    ensures { result ≡ is_symbol_named path.now kind name.now symbol.now }
{
    if !is_kind(kind, symbol.kind, symbol.name.as_slice()) {
        return false;
    }
    symbol.theory.as_slice() == path && symbol.name.as_slice() == name
}

fn arity_of(symbol: &SymbolInfo) -> usize
    ensures { result ≡ by_kind symbol.now.kind symbol.now }
{
    match symbol.kind {
        SymbolKind::Kind => symbol.vars,
        _ => symbol.args.len(),
    }
}

/// The last entry of a theory with this kind and name, and its number of arguments.
fn entry_of(
    symbols: &[SymbolInfo],
    path: &[u8],
    kind: NameKind,
    name: &[u8],
) -> Option<(Target, usize)>
    ensures { result ≡ entry_from path.now kind name.now 0 symbols.now }
{
    let mut found = None;
    for (entry, symbol) in symbols.iter().enumerate() {
        if is_named(symbol, path, kind, name) {
            found = Some((Target::Entry(entry), arity_of(symbol)));
        }
    }
    found
}

fn builtin_of(kind: NameKind, name: &[u8]) -> Option<(Target, usize)>
    ensures { result ≡ builtin_of kind name.now }
{
    match kind {
        NameKind::Type => {
            if name == b"int".as_slice() {
                Some((Target::Int, 0))
            } else {
                None
            }
        }
        NameKind::Predicate => {
            if name == b"=".as_slice() {
                Some((Target::Equality, 2))
            } else {
                None
            }
        }
        NameKind::Function => None,
    }
}

/// What a name of a theory stands for, with its number of arguments.
pub fn target_of(
    symbols: &[SymbolInfo],
    path: &[u8],
    kind: NameKind,
    name: &[u8],
) -> Option<(Target, usize)>
    ensures { result ≡ target_of symbols.now path.now kind name.now }
{
    if is_builtin(path) {
        builtin_of(kind, name)
    } else {
        entry_of(symbols, path, kind, name)
    }
}

fn is_text(its: &String, name: &[u8]) -> bool
    ensures { result ≡ is_same_word (string_bytes its.now) name.now }
{
    its.as_bytes() == name
}

fn has_name(names: &[String], name: &[u8]) -> bool
    ensures { result ≡ among names.now name.now }
{
    names.iter().any(|its| is_text(its, name))
}

/// Whether a theory has a proposition of this name.
pub fn has_proposition(theories: &[(String, Vec<String>)], path: &[u8], name: &[u8]) -> bool
    ensures { result ≡ has_proposition theories.now path.now name.now }
{
    if is_builtin(path) {
        return false;
    }
    match theory_of(theories, path) {
        Some(theory) => has_name(&theory.1, name),
        None => false,
    }
}
