// Names that a declaration makes, and what names mean where it is.
// They depend on scopes and signatures; each kind of declaration depends on them.
ghost use Rattle.std.specs.Prelude.{◌≡◌, ℕ, List, [], ◌++◌, length, map, IfOk, OnOk, option_map};
ghost use Rattle.std.specs.Option.{is_some};
ghost use Rattle.tasks.specs.trees.Tree.{Tree};
ghost use Rattle.tasks.specs.Meaning.{symbols_at};
ghost use Rattle.name_resolution.specs.Abstract.{texts_of_names};
ghost use Rattle.name_resolution.specs.Where.{place_of};
ghost use Rattle.name_resolution.specs.Naming.{where_at, scope_at};
ghost use Rattle.name_resolution.specs.declared.NamingFault.TheVariants.{Duplicate};
ghost use Rattle.open_types.specs.Scoped.{IsScoped};
ghost use Rattle.open_types.specs.Drafts.{WorldHeld};
ghost use Rattle.elab_groups.specs.parts.Declarations.{word, words, list_fault};
ghost use Rattle.elab_groups.specs.parts.Written.{written_token_name};
ghost use Rattle.elab_groups.specs.parts.Entries.{tuple_in, IsSignature, AreScopes};
ghost use Rattle.elab_groups.specs.parts.Outcomes.{over};

use name_resolution::World;
use scopes::{Scope, Text};
use std::alloc::{AllocError, Global};
use surface::Name;
use tasks::Signature;

/// A name with its token.
#[derive(Clone, Copy)]
pub struct NamedToken<'a> {
    pub at: usize,
    pub text: &'a [u8],
}

/// Names, after those that are there.
pub fn gather<'a>(list: &mut Vec<NamedToken<'a>>, names: &'a [Name]) -> Result<(), AllocError>
    ensures { OnOk result (map written_token_name list.new.items
        ≡ map written_token_name list.old.items ++ map word
        names.now) }
{
    let Some((first, rest)) = names.split_first() else {
        return Ok(());
    };
    list.push(NamedToken {
        at: first.at,
        text: first.text.as_slice(),
    })?;
    gather(list, rest)
}

// Whether a name is among these.
fn is_among(list: &[NamedToken<'_>], name: &[u8]) -> bool
    ensures { result ≡ is_some (place_of name.now (words (map written_token_name list.now))) }
{
    match list.split_first() {
        Some((first, rest)) => first.text == name || is_among(rest, name),
        None => false,
    }
}

/// The token of the second of two equal names in a list.
pub fn find_repeated(list: &[NamedToken<'_>]) -> Option<usize>
    ensures { option_map Duplicate result ≡ list_fault [] (map written_token_name list.now) }
{
    for (number, name) in list.iter().enumerate() {
        if is_among(&list[..number], name.text) {
            return Some(name.at);
        }
    }
    None
}

/// The texts of names.
pub fn texts_of(alloc: Global, names: &[Name]) -> Result<Vec<Text>, AllocError>
    ensures { IfOk result (λ them. them.items ≡ texts_of_names names.now) }
{
    let mut them = Vec::new(alloc);
    for name in names {
        let text = Text::from_slice(alloc, name.text.as_slice())?;
        them.push(text)?;
    }
    Ok(them)
}

/// What names mean over a signature and scopes, with the type variables of a declaration.
pub fn world_over<'a>(
    sig: &'a Signature,
    scope: &'a Scope,
    vars: &'a [Text],
    new_vars: bool,
) -> World<'a>
    ensures names { (s : List Tree) → where_at s result ≡ over (symbols_at s sig.now.symbols)
        (scope_at s scope.now) vars.now }
    ensures open { result.new_vars ≡ new_vars }
    ensures vars { result.vars.now ≡ vars.now }
    ensures held { (s : List Tree) → IsSignature s sig.now.symbols → AreScopes s
        (length sig.now.symbols) scope.now → WorldHeld s result }
    ensures scoped { (s : List Tree) → IsSignature s sig.now.symbols → AreScopes s
        (length sig.now.symbols) scope.now → IsScoped (where_at s result) }
{
    World {
        symbols: sig.symbols.as_slice(),
        scope,
        vars,
        new_vars,
    }
}
