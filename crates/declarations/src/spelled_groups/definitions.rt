// Groups of definitions that aren't recursive: what they say, and its names.
// It depends on what groups say; the transformation of definitions depends on it.
ghost use Rattle.std.specs.Prelude.{◌≡◌, List, map, All, IfOk, IfSome};
ghost use Rattle.std.specs.Option.{option_map};
ghost use Rattle.tasks.specs.Task.{SymbolTree};
ghost use Rattle.tasks.specs.Facts.{equation_fact};
ghost use Rattle.tasks.specs.Looking.{fact_name};
ghost use Rattle.tasks.specs.Meaning.{symbols_at, definitions_at, body_at, declaration_at, BodyHeld, DeclHeld};
ghost use Rattle.declarations.specs.Said.{IsFactSearch};
ghost use Rattle.declarations.specs.spelled_groups.Groups.{definition_facts};
ghost use Rattle.declarations.specs.spelled_groups.Spelled.{spelling_said};
ghost use Rattle.declarations.specs.spelled_groups.Stored.{facts_at, SaidHeld};

use crate::spelled_groups::said::{Said, push_equations};
use crate::{FactSearch, own_origin};
use checks::recursive_groups::is_recursive;
use std::alloc::{AllocError, Global};
use tasks::{Body, Decl, Def, Fact, Signature};
use trees::store::Store;

/// The equations of a group of definitions that isn't recursive; none of another body.
pub fn definitions_said(
    alloc: Global,
    store: &Store,
    sig: &Signature,
    body: &Body,
) -> Result<Option<Vec<Said>>, AllocError>
    requires body { BodyHeld store.now body.now }
    ensures said { IfOk result (λ o. option_map (λ v. facts_at store.now v.items) o
        ≡ definition_facts (symbols_at store.now sig.now.symbols) (body_at store.now body.now)) }
    ensures held { IfOk result (λ o. IfSome o (λ v. All (SaidHeld store.now) v.items)) }
{
    match body {
        Body::Defs(defs) => {
            if is_recursive(store, defs.as_slice()) {
                return Ok(None);
            }
            let mut said = Vec::new(alloc);
            push_equations(store, sig, defs.as_slice(), &mut said)?;
            Ok(Some(said))
        }
        _ => Ok(None),
    }
}

// Among the equations of definitions.
fn origin_in_defs(store: &Store, defs: &[Def], k: usize) -> FactSearch
    ensures { (symbols : List SymbolTree) → IsFactSearch (map fact_name
        (map (equation_fact symbols) (definitions_at store.now defs.now))) k result }
{
    let _ = store;
    if k < defs.len() {
        FactSearch::Here(Fact::Equation(defs[k].symbol))
    } else {
        FactSearch::After(k - defs.len())
    }
}

/// Where the k-th proposition from here on comes from, if it is one of the declaration's, where groups of definitions that aren't
/// recursive are spelled out and so many propositions of the old task are before the declaration.
pub fn definitions_origin(store: &Store, decl: &Decl, place: usize, k: usize) -> FactSearch
    requires { DeclHeld store.now decl.now }
    ensures { (symbols : List SymbolTree) → IsFactSearch (map fact_name
        (spelling_said definition_facts symbols place (declaration_at store.now decl.now))) k
        result }
{
    match &decl.body {
        Body::Defs(defs) => {
            if is_recursive(store, defs.as_slice()) {
                return FactSearch::After(k);
            }
            origin_in_defs(store, defs.as_slice(), k)
        }
        _ => own_origin(decl, place, k),
    }
}
