// The theories of a file, after those of the embedded library.
// They depend on the typing of declarations.
ghost use Rattle.std.specs.Prelude.{◌≡◌, ℕ, List, map, IfErr, IfOk, OnOk};
ghost use Rattle.tasks.specs.trees.Tree.{Tree};
ghost use Rattle.tasks.specs.trees.Node.{Grows};
ghost use Rattle.tasks.specs.Meaning.{symbols_at};
ghost use Rattle.surface.specs.SurfaceDeclarations.{theory_of as source_of, file_of};
ghost use Rattle.elaboration_laws.specs.theory_states.goal_tasks.Meaning.{theories_at, AllTheoriesHeld, AreTuples};
ghost use Rattle.theory_states.specs.declared.fault.SourceFault.TheVariants.{Memory};
ghost use Rattle.theory_states.specs.declared.states.KnownTheory.{KnownTheory as KnownCode};
ghost use Rattle.theory_states.specs.Meaning.{known_at, state_at};
ghost use Rattle.theory_states.specs.Uses.{OrMemory};
ghost use Rattle.theories.specs.Files.{IsTheoryBegun, IsEnded, IsTypedTheoryBy, IsTheoryFault, is_path_taken, IsNewTheoryBy, IsNewFault, AreTypedInBy, AreFaultyIn, AreEmbeddedInBy, AreEmbeddedFaultyIn, AreEmbeddedBy, AreEmbeddedFaulty, nothing_known, IsLibraryTypedBy, IsLibraryFault, theories_of, TheoriesOf, IsFirstSourceFault};
ghost use Rattle.theories.specs.Sound.{AreSoundlyTyped, SoundTheoriesOf};
ghost use Rattle.theories.specs.Right.{IsStateRight, between_at, AreTheoriesRight, IsPath};

use crate::declarations::type_decls;
use crate::declaring::begin;
use crate::ints::int_entries;
use elaboration_laws::{Theories, Theory};
use parser::std_theories::{drop_files, library_files};
use std::alloc::{AllocError, Global};
use std::rc::Rc;
use surface::{File, TheoryTree};
use tasks::{Seq, Signature, Store, Text};
use theory_states::{KnownTheory, Opened, SourceFault, Typed};

// A theory begins, whose header has this number.
fn begin_theory(
    alloc: Global,
    store: &Store,
    typed: &Typed,
    path: Text,
    count: usize,
) -> Result<Opened, AllocError>
    requires right { AreTheoriesRight store.now typed.now }
    requires path { IsPath path }
    ensures ok { IfOk result (λ o. IsTheoryBegun path (between_at store.now typed.now count)
        (state_at store.now typed.now o)) }
    ensures right { IfOk result (IsStateRight store.now typed.now) }
{
    let _ = store;
    let _ = typed;
    match count.checked_add(1) {
        Some(first) => Opened::new(alloc, path, first),
        None => Err(AllocError),
    }
}

// The open theory ends. The number of the next declaration is given. Only want of memory refuses.
fn end_theory(
    alloc: Global,
    store: &Store,
    typed: &mut Typed,
    ended: Opened,
) -> Result<usize, SourceFault>
    requires { IsStateRight store.now typed.old ended }
    ensures ok { IfOk result (λ n. IsEnded (state_at store.now typed.old ended)
        (between_at store.now typed.new n)) }
    ensures right { OnOk result (AreTheoriesRight store.now typed.new) }
    ensures err { IfErr result (λ fault. fault ≡ Memory) }
{
    let _ = store;
    // Copied before the parts of the theory are named, so that one value is dropped where there is no memory.
    let visible = Seq::from_slice(alloc, ended.visible.as_slice())?;
    let Opened {
        path,
        goals,
        axioms,
        moves,
        count,
        ..
    } = ended;
    let theory = Theory {
        path,
        visible,
        goals,
    };
    typed.known.push(KnownTheory {
        theory,
        axioms,
        moves: Seq::from_vec(moves),
    })?;
    Ok(count)
}

// A theory, whose header has a number; the number of the declaration after it is given.
fn type_theory(
    alloc: Global,
    store: &mut Store,
    typed: &mut Typed,
    path: Text,
    theory: &TheoryTree,
    count: usize,
) -> Result<usize, SourceFault>
    requires right { AreTheoriesRight store.old typed.old }
    requires path { IsPath path }
    ensures ok { IfOk result (λ n. IsTypedTheoryBy AreSoundlyTyped path
        (source_of theory.now).decls (between_at store.old typed.old count)
        (between_at store.new typed.new n)) }
    ensures right { OnOk result (AreTheoriesRight store.new typed.new) }
    ensures err { IfErr result (OrMemory (IsTheoryFault path (source_of theory.now).decls
        (between_at store.old typed.old count))) }
    ensures grows { Grows store.old store.new }
{
    let mut open = begin_theory(alloc, store, typed, path, count)?;
    type_decls(alloc, store, typed, &mut open, theory.decls.as_slice())?;
    end_theory(alloc, store, typed, open)
}

// Whether a path is that of a theory, or of what is built in.
fn is_taken(store: &Store, typed: &Typed, path: &[u8]) -> bool
    ensures { result ≡ is_path_taken path.now (map (known_at store.now) typed.now.known) }
{
    let _ = store;
    path.is_empty() || path == b"BuiltIn".as_slice() || typed.theory_place(path).is_some()
}

// A theory with a path that no theory has yet.
fn type_new(
    alloc: Global,
    store: &mut Store,
    typed: &mut Typed,
    path: Text,
    theory: &TheoryTree,
    count: usize,
) -> Result<usize, SourceFault>
    requires { AreTheoriesRight store.old typed.old }
    ensures ok { IfOk result (λ n. IsNewTheoryBy AreSoundlyTyped path
        (source_of theory.now).decls (between_at store.old typed.old count)
        (between_at store.new typed.new n)) }
    ensures right { OnOk result (AreTheoriesRight store.new typed.new) }
    ensures err { IfErr result (OrMemory (IsNewFault path theory.now.name.at
        (source_of theory.now).decls (between_at store.old typed.old count))) }
    ensures grows { Grows store.old store.new }
{
    if is_taken(store, typed, path.as_slice()) {
        return Err(SourceFault::Duplicate {
            decl: count,
            token: theory.name.at,
        });
    }
    type_theory(alloc, store, typed, path, theory, count)
}

// The theories of a file of the library, each with the path of the file.
fn type_embedded(
    alloc: Global,
    store: &mut Store,
    typed: &mut Typed,
    path: &Text,
    theories: &[TheoryTree],
) -> Result<(), SourceFault>
    requires { AreTheoriesRight store.old typed.old }
    ensures ok { OnOk result (AreEmbeddedInBy AreSoundlyTyped path.now
        (map source_of theories.now) (between_at store.old typed.old 0)
        (between_at store.new typed.new 0)) }
    ensures right { OnOk result (AreTheoriesRight store.new typed.new) }
    ensures err { IfErr result (OrMemory (AreEmbeddedFaultyIn path.now
        (map source_of theories.now) (between_at store.old typed.old 0))) }
    ensures grows { Grows store.old store.new }
{
    for theory in theories {
        type_new(alloc, store, typed, path.clone()?, theory, 0)?;
    }
    Ok(())
}

// Nothing is known but `int`.
fn begin_typed(alloc: Global) -> Result<Typed, AllocError>
    ensures ok { IfOk result (λ t. (s : List Tree) → between_at s t 0 ≡ nothing_known) }
    ensures right { IfOk result (λ t. (s : List Tree) → AreTheoriesRight s t) }
{
    let sig = begin(alloc)?;
    Ok(Typed {
        sig,
        decls: Seq::new(alloc),
        known: Seq::new(alloc),
    })
}

// The theories of these files, each with the path of its file.
fn type_files(
    alloc: Global,
    store: &mut Store,
    typed: &mut Typed,
    files: &[(Text, File)],
) -> Result<(), SourceFault>
    requires { AreTheoriesRight store.old typed.old }
    ensures ok { OnOk result (AreEmbeddedBy AreSoundlyTyped files.now
        (between_at store.old typed.old 0) (between_at store.new typed.new 0)) }
    ensures right { OnOk result (AreTheoriesRight store.new typed.new) }
    ensures err { IfErr result (OrMemory (AreEmbeddedFaulty files.now
        (between_at store.old typed.old 0))) }
    ensures grows { Grows store.old store.new }
{
    for (path, file) in files {
        type_embedded(alloc, store, typed, path, file.theories.as_slice())?;
    }
    Ok(())
}

// The theories of the library.
fn type_library(alloc: Global, store: &mut Store, typed: &mut Typed) -> Result<(), SourceFault>
    requires nothing { between_at store.old typed.old 0 ≡ nothing_known }
    requires right { AreTheoriesRight store.old typed.old }
    ensures ok { OnOk result (IsLibraryTypedBy AreSoundlyTyped
        (between_at store.new typed.new 0)) }
    ensures right { OnOk result (AreTheoriesRight store.new typed.new) }
    ensures err { IfErr result (OrMemory IsLibraryFault) }
    ensures grows { Grows store.old store.new }
{
    let files = library_files(alloc)?;
    let done = type_files(alloc, store, typed, files.as_slice());
    drop_files(files);
    done
}

// The theories of a file.
fn type_theories(
    alloc: Global,
    store: &mut Store,
    typed: &mut Typed,
    theories: &[TheoryTree],
) -> Result<(), SourceFault>
    requires { AreTheoriesRight store.old typed.old }
    ensures ok { OnOk result ((n : ℕ) × AreTypedInBy AreSoundlyTyped (map source_of theories.now)
        (between_at store.old typed.old 0) (between_at store.new typed.new n)) }
    ensures right { OnOk result (AreTheoriesRight store.new typed.new) }
    ensures err { IfErr result (OrMemory (AreFaultyIn (map source_of theories.now)
        (between_at store.old typed.old 0))) }
    ensures grows { Grows store.old store.new }
{
    let mut count = 0;
    for theory in theories {
        let path = theory.name.text.clone()?;
        count = type_new(alloc, store, typed, path, theory, count)?;
    }
    Ok(())
}

// The theories without the names that they pass on.
fn theories_alone(alloc: Global, known: Vec<KnownTheory>) -> Result<Seq<Theory>, AllocError>
    ensures { IfOk result (λ list. list ≡ map (λ (k : KnownCode). k.theory) known.items) }
{
    let mut list = Seq::new(alloc);
    for one in known {
        let KnownTheory { theory, .. } = one;
        list.push(theory)?;
    }
    Ok(list)
}

// The theories of a signature, of which so many are embedded. Only want of memory refuses.
fn collect(
    alloc: Global,
    store: &Store,
    typed: Typed,
    embedded: usize,
) -> Result<Theories, SourceFault>
    requires { AreTheoriesRight store.now typed }
    ensures ok { IfOk result (λ all. (n : ℕ) → theories_at store.now all ≡ theories_of embedded
        (between_at store.now typed n)) }
    ensures held { IfOk result (AllTheoriesHeld store.now) }
    ensures tuples { IfOk result (λ all. AreTuples (symbols_at store.now all.sig.value.symbols)) }
    ensures err { IfErr result (λ fault. fault ≡ Memory) }
{
    let _ = store;
    let Typed { sig, decls, known } = typed;
    let Signature { symbols, .. } = sig;
    let list = theories_alone(alloc, known.into_vec())?;
    let sig = Signature {
        symbols,
        ints: Some(int_entries()),
    };
    Ok(Theories {
        sig: Rc::new(alloc, sig)?,
        decls,
        embedded,
        list,
    })
}

/// The theories of a file, after those of the embedded library, or the first thing that is wrong with one: its declaration's number
/// and its place there. Beside these faults only want of memory refuses.
pub fn type_file(alloc: Global, store: &mut Store, file: &File) -> Result<Theories, SourceFault>
    ensures ok { IfOk result (λ all. TheoriesOf (file_of file.now)
        (theories_at store.new all)) }
    ensures sound { IfOk result (λ all. SoundTheoriesOf (file_of file.now)
        (theories_at store.new all)) }
    ensures held { IfOk result (AllTheoriesHeld store.new) }
    ensures tuples { IfOk result (λ all. AreTuples (symbols_at store.new all.sig.value.symbols)) }
    ensures err { IfErr result (OrMemory (IsFirstSourceFault (file_of file.now))) }
    ensures grows { Grows store.old store.new }
{
    let mut typed = begin_typed(alloc)?;
    type_library(alloc, store, &mut typed)?;
    let embedded = typed.known.len();
    type_theories(alloc, store, &mut typed, file.theories.as_slice())?;
    collect(alloc, store, typed, embedded)
}
