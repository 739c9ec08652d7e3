// The trees of the embedded library.
// They depend on the library's texts and the reader of sources; the tables of theories depend on them.
ghost use Rattle.std.specs.Prelude.{◌≡◌, map, All, IfOk, OnOk};
ghost use Rattle.tokens_why.specs.Tokens.{AreTokens};
ghost use Rattle.parser.specs.std_theories.Library.{LibraryEntry, AreFilesOf, IsSourceText, IsFileOfText, IsFilePushed, library_entry, library};

use crate::parse_decls::{SyntaxFault, parse};
use crate::std_theories::texts::{Entry, LIBRARY};
use outside::Text;
use std::alloc::{AllocError, Global};
use surface::File;
use tokens_why::{LexFault, Token, lex};

/// The tokens of a text of the library.
fn tokens_of_text(alloc: Global, text: &[u8]) -> Result<Vec<Token>, AllocError>
    requires { IsSourceText text.now }
    ensures { IfOk result (λ ts. AreTokens text.now ts.items) }
{
    match lex(alloc, text) {
        Ok(tokens) => Ok(tokens),
        Err(LexFault::Memory) => Err(AllocError),
        Err(LexFault::Lexical { .. } | LexFault::BigLiteral { .. }) => unreachable!(),
    }
}

/// The error for the one fault that a text of the library can have.
fn memory_error(fault: SyntaxFault) -> AllocError
    requires { fault ≡ SyntaxFault.Memory }
{
    match fault {
        SyntaxFault::Memory => AllocError,
        SyntaxFault::TooDeep { .. } => unreachable!(),
        SyntaxFault::Syntax { .. } => unreachable!(),
        SyntaxFault::ProgramDecl { .. } => unreachable!(),
    }
}

/// The file of a text of the library.
fn file_of_text(alloc: Global, text: &[u8]) -> Result<File, AllocError>
    requires { IsSourceText text.now }
    ensures { IfOk result (IsFileOfText text.now) }
{
    let tokens = tokens_of_text(alloc, text)?;
    match parse(alloc, tokens.as_slice(), text) {
        Ok(file) => Ok(file),
        Err(fault) => Err(memory_error(fault)),
    }
}

/// Puts the file of an entry after others.
fn push_file(alloc: Global, entry: &Entry, out: &mut Vec<(Text, File)>) -> Result<(), AllocError>
    requires { IsSourceText (library_entry entry.now).1 }
    ensures { OnOk result (IsFilePushed (library_entry entry.now) out.old.items out.new.items) }
{
    let path = Text::from_slice(alloc, entry.0.as_bytes())?;
    let file = file_of_text(alloc, entry.1.as_bytes())?;
    out.push((path, file))?;
    Ok(())
}

/// The entries of the library.
fn entries() -> &'static [Entry]
    ensures { map library_entry result.now ≡ library }
{
    &LIBRARY
}

/// The files of the embedded library, each with the path of its theory, in the order in which its theories are known: `int.Int`,
/// `int.Abs`, `int.MinMax`, `bool.Bool`, `option.Option`, `list.List`, `list.Length`, `list.Mem`, `list.Append` (Why3's standard
/// library, in part).
///
/// Only want of memory refuses.
pub fn library_files(alloc: Global) -> Result<Vec<(Text, File)>, AllocError>
    ensures { IfOk result (λ fs. AreFilesOf library fs.items) }
{
    let mut files = Vec::new(alloc);
    let all = entries();
    for entry in all {
        push_file(alloc, entry, &mut files)?;
    }
    Ok(files)
}

/// A law: each text of the library is a source, and isn't nested too deep.
pub fn texts_are_sources()
    ensures { All (λ (e : LibraryEntry). IsSourceText e.1) library }
{}

/// Lets the files of the library go, for a caller that is to have no code for their parts.
pub fn drop_files(files: Vec<(Text, File)>) {
    let _ = &files;
}

/// Lets the file of a source go, for a caller that is to have no code for its parts.
pub fn drop_file(file: File) {
    let _ = &file;
}
