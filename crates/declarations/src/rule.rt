// Rules by which each declaration becomes a list of declarations that make the same symbols.
// They depend on the declarations; rewriting a task depends on them.
ghost use Rattle.std.specs.Prelude.{◌≡◌, ◌++◌, List, map, All, OnOk};
ghost use Rattle.trees.specs.Tree.{Tree};
ghost use Rattle.trees.specs.Node.{Grows};
ghost use Rattle.tasks.specs.Task.{SymbolTree};
ghost use Rattle.tasks.specs.Looking.{fact_name};
ghost use Rattle.tasks.specs.Meaning.{symbols_at, body_at, declaration_at, declarations_at, DeclHeld};
ghost use Rattle.declarations.specs.Rewritten.{DeclarationRule};
ghost use Rattle.declarations.specs.Said.{Sayings, own_said, IsFactSearch};
ghost use Rattle.declarations.specs.Stored.{IsValidIn};

use std::alloc::{AllocError, Global};
use tasks::{Body, Decl, Fact, Signature};
use trees::store::Store;

/// A name that is looked for in a list of names: it is there, or so many are left after them.
#[derive(Clone, Copy)]
pub enum FactSearch {
    Here(Fact),
    After(usize),
}

/// A rule by which declarations are rewritten one by one.
pub trait RewriteDeclarations {
    /// What is put in the place of a declaration, over the entries of a signature.
    ghost rule: { Self → DeclarationRule };

    /// What the propositions there say, each with the name of the old fact from which it follows.
    ghost said: { Self → Sayings };

    /// Puts what the rule says for the declaration after other declarations.
    fn push_in_place(
        &self,
        alloc: Global,
        store: &mut Store,
        sig: &Signature,
        decl: &Decl,
        decls: &mut Vec<Decl>,
    ) -> Result<(), AllocError>
        requires valid { IsValidIn store.old sig.now.symbols decl.now }
        requires held { All (DeclHeld store.old) decls.old.items }
        ensures decls { OnOk result (declarations_at store.new decls.new.items
            ≡ declarations_at store.old decls.old.items
            ++ rule self.now (symbols_at store.old sig.now.symbols)
            (declaration_at store.old decl.now)) }
        ensures held { OnOk result (All (DeclHeld store.new) decls.new.items) }
        ensures grows { Grows store.old store.new };

    /// Where the k-th proposition from here on comes from, if it is one of the declaration's, where so many propositions of the
    /// old task are before the declaration.
    fn origin(&self, store: &Store, decl: &Decl, place: usize, k: usize) -> FactSearch
        requires { DeclHeld store.now decl.now }
        ensures { (symbols : List SymbolTree) → IsFactSearch (map fact_name
            (said self.now symbols place (declaration_at store.now decl.now))) k result };
}

/// Where the k-th proposition from here on comes from, if it is the declaration's own, where it stays.
pub fn own_origin(decl: &Decl, place: usize, k: usize) -> FactSearch
    ensures { (s : List Tree) → IsFactSearch (map fact_name
        (own_said place (declaration_at s decl.now) (body_at s decl.now.body))) k result }
{
    match &decl.body {
        Body::Prop(_) => {
            if k == 0 {
                FactSearch::Here(Fact::Proposition(place))
            } else {
                FactSearch::After(k - 1)
            }
        }
        _ => FactSearch::After(k),
    }
}
