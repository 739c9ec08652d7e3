// The theories of a source, from its bytes: its tokens, the file of the tokens, the theories of the file.
// The task of a goal is made from them.
ghost use Rattle.std.specs.Prelude.{◌≡◌, IfOk};
ghost use Rattle.tasks.specs.Meaning.{symbols_at};
ghost use Rattle.surface.specs.tokens_why.Tokens.{AreTokens};
ghost use Rattle.surface.specs.Lexeme.{rest};
ghost use Rattle.surface.specs.SurfaceDeclarations.{file_of};
ghost use Rattle.parser.specs.grammar.recognise.Sources.{IsOnlyFile};
ghost use Rattle.theories.specs.theory_states.goal_tasks.Meaning.{theories_at, AllTheoriesHeld, AreTuples};
ghost use Rattle.theories.specs.Sound.{SoundTheoriesOf};
ghost use Rattle.statuses.specs.fault_order.Answers.{IsStageAnswer};
ghost use Rattle.program.specs.source_goals.Order.{Lexes, Parses, Declares, SourceTheories};
ghost use Rattle.program.specs.source_goals.Sources.{AreSourceTheories};
ghost use Rattle.program.specs.source_goals.Values.{tokens_in, file_in, theories_in, source_fault};

use parser::parse_decls::{SyntaxFault, parse};
use parser::std_theories::drop_file;
use statuses::fault_order::{Fault, RunFault};
use std::alloc::Global;
use surface::{File, LexFault, Token, lex};
use tasks::Store;
use theories::{SourceFault, Theories, type_file};

// The tokens of a text.
fn tokens_of(alloc: Global, text: &[u8]) -> Result<Vec<Token>, RunFault>
    ensures { IsStageAnswer (Lexes text.now) (tokens_in result) }
{
    match lex(alloc, text) {
        Ok(tokens) => Ok(tokens),
        Err(LexFault::Memory) => Err(RunFault::Memory),
        Err(LexFault::Lexical { byte }) => Err(RunFault::Refused(Fault::Lexical { byte })),
        Err(LexFault::BigLiteral { byte }) => Err(RunFault::Refused(Fault::BigLiteral { byte })),
    }
}

// The file of the tokens of a text.
fn file_of(alloc: Global, tokens: &[Token], text: &[u8]) -> Result<File, RunFault>
    requires { AreTokens text.now tokens.now }
    ensures { IsStageAnswer (Parses (rest text.now tokens.now 0)) (file_in result) }
{
    match parse(alloc, tokens, text) {
        Ok(file) => Ok(file),
        Err(SyntaxFault::Memory) => Err(RunFault::Memory),
        Err(SyntaxFault::Syntax { token }) => Err(RunFault::Refused(Fault::Syntax { token })),
        Err(SyntaxFault::TooDeep { token }) => Err(RunFault::Refused(Fault::TooDeep { token })),
        Err(SyntaxFault::ProgramDecl { token }) => {
            Err(RunFault::Refused(Fault::ProgramDecl { token }))
        }
    }
}

// Why there is no task, where a source has no theories.
fn source_fault(fault: SourceFault) -> RunFault
    ensures { result ≡ source_fault fault }
{
    match fault {
        SourceFault::Memory => RunFault::Memory,
        SourceFault::Unknown { decl, token } => RunFault::Refused(Fault::Unknown { decl, token }),
        SourceFault::Duplicate { decl, token } => {
            RunFault::Refused(Fault::Duplicate { decl, token })
        }
        SourceFault::WrongKind { decl, token } => {
            RunFault::Refused(Fault::WrongKind { decl, token })
        }
        SourceFault::Arity { decl, token } => RunFault::Refused(Fault::Arity { decl, token }),
        SourceFault::Clash { decl, k } => RunFault::Refused(Fault::Clash { decl, k }),
        SourceFault::Undetermined { decl, token } => {
            RunFault::Refused(Fault::Undetermined { decl, token })
        }
        SourceFault::NotExhaustive { decl, token } => {
            RunFault::Refused(Fault::NotExhaustive { decl, token })
        }
        SourceFault::BadClause { decl, clause } => {
            RunFault::Refused(Fault::BadClause { decl, clause })
        }
        SourceFault::NotPositive { decl, clause } => {
            RunFault::Refused(Fault::NotPositive { decl, clause })
        }
        SourceFault::NotStructural { decl } => RunFault::Refused(Fault::NotStructural { decl }),
        SourceFault::GroupTooWide { decl } => RunFault::Refused(Fault::GroupTooWide { decl }),
        SourceFault::Uninhabited { decl } => RunFault::Refused(Fault::Uninhabited { decl }),
        SourceFault::BadSubstitution { decl, token } => {
            RunFault::Refused(Fault::BadSubstitution { decl, token })
        }
    }
}

// The theories of a file.
fn theories_of(alloc: Global, store: &mut Store, file: &File) -> Result<Theories, RunFault>
    ensures declares { IsStageAnswer (Declares (file_of file.now)) (theories_in store.new result) }
    ensures sound { IfOk result (λ all. SoundTheoriesOf (file_of file.now)
        (theories_at store.new all)) }
    ensures held { IfOk result (AllTheoriesHeld store.new) }
    ensures tuples { IfOk result (λ all. AreTuples (symbols_at store.new all.sig.value.symbols)) }
{
    match type_file(alloc, store, file) {
        Ok(all) => Ok(all),
        Err(fault) => Err(source_fault(fault)),
    }
}

/// The theories of a source.
///
/// The first fault refuses: a byte at which no token begins (10) or a literal that is too big (11); then the first token that is
/// nested too deep (13); then the least token with which no source begins (12, or 14 where a declaration of a program begins
/// there); then, in each declaration in turn, what is wrong with its names, its types, or what is asked beside these (20 to 40).
pub fn read_source(alloc: Global, store: &mut Store, text: &[u8]) -> Result<Theories, RunFault>
    ensures theories { IsStageAnswer (SourceTheories text.now) (theories_in store.new result) }
    ensures held { IfOk result (AllTheoriesHeld store.new) }
    ensures tuples { IfOk result (λ all. AreTuples (symbols_at store.new all.sig.value.symbols)) }
    ensures source { IfOk result (λ all. AreSourceTheories (theories_at store.new all)) }
{
    let tokens = tokens_of(alloc, text)?;
    let file = file_of(alloc, &tokens, text)?;
    let found = theories_of(alloc, store, &file);
    drop_file(file);
    found
}
