// Which declarations are removed.
// It depends on the declarations; the transformation depends on it.
ghost use Rattle.std.specs.Prelude.{◌≡◌, List};
ghost use Rattle.std.specs.List.{list_any};
ghost use Rattle.tasks.specs.trees.Tree.{Tree};
ghost use Rattle.tasks.specs.Meaning.{body_at, declaration_at};
ghost use Rattle.tr_remove.specs.Remove.{is_proposition, is_declaration_named, is_removed};

use tasks::{Body, Decl, Text};

// Whether a declaration has this theory and name.
fn is_named(decl: &Decl, name: &(Text, Text)) -> bool
    ensures { (s : List Tree) → result ≡ is_declaration_named (declaration_at s decl.now) name.now }
{
    decl.theory.as_slice() == name.0.as_slice() && decl.name.as_slice() == name.1.as_slice()
}

// Whether a declaration has one of these theories and names.
fn is_among(props: &[(Text, Text)], decl: &Decl) -> bool
    ensures { (s : List Tree) → result
        ≡ list_any (is_declaration_named (declaration_at s decl.now)) props.now }
{
    for name in props {
        if is_named(decl, name) {
            return true;
        }
    }
    false
}

// Whether a declaration says a proposition.
fn is_proposition(decl: &Decl) -> bool
    ensures { (s : List Tree) → result ≡ is_proposition (body_at s decl.now.body) }
{
    match &decl.body {
        Body::Prop(_) => true,
        Body::TypeSymbol(_)
        | Body::Symbol(_)
        | Body::Defs(_)
        | Body::Inductives(_)
        | Body::Algebraics(_) => false,
    }
}

/// Whether a declaration is removed: a proposition goes where both its theory and its name are among these.
pub fn is_removed(props: &[(Text, Text)], decl: &Decl) -> bool
    ensures { (s : List Tree) → result ≡ is_removed props.now (declaration_at s decl.now) }
{
    is_proposition(decl) && is_among(props, decl)
}
