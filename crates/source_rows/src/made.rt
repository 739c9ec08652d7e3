// What a declaration becomes, as text: declarations with their bodies, rigid type variables and matches.
use elab_declarations::Elaborated;
use row_texts::{put_declaration, put_numbered, put_trees};
use std::alloc::{AllocError, Global};
use tasks::Store;

/// The declarations, the rigid type variables and the matches of what is made.
pub(crate) fn put_made(
    alloc: Global,
    text: &mut String,
    store: &Store,
    made: &Elaborated,
) -> Result<(), AllocError> {
    text.push_str(" # ")?;
    for decl in made.decls.as_slice() {
        put_declaration(alloc, text, store, &[], decl)?;
    }
    for rigid in made.rigid.as_slice() {
        put_numbered(alloc, text, " !", *rigid)?;
    }
    text.push_str(" %")?;
    for it in made.matches.as_slice() {
        put_numbered(alloc, text, " ", it.token)?;
        put_trees(alloc, text, store, &[], it.patterns.as_slice())?;
    }
    Ok(())
}
