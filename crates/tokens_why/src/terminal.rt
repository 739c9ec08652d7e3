// What a token is to the grammar: a terminal symbol.
ghost use Rattle.std.specs.Prelude.{◌≡◌, map, IfOk};
ghost use Rattle.tokens_why.specs.Common.{Operator, Reserved};
ghost use Rattle.tokens_why.specs.Terminals.{kind_by, terminal_of};

use crate::token::TokenKind;
use std::alloc::{AllocError, Global};

/// The terminal symbols of the grammar, as those of Why3's parser: one for each word that a declaration or an expression
/// has, for each level of operators, and for each other kind of token.
///
/// `ProgramWord` is a word that begins a declaration of programs and nothing else (`coinductive`, `exception`, `meta`,
/// `val`), and `OtherWord` is any other reserved word.
#[derive(Clone, Copy, Debug, PartialEq, Eq)]
pub enum Terminal {
    Lident,
    Uident,
    Wild,
    TyVar,
    Int,
    StarName,
    LParen,
    RParen,
    LBrack,
    RBrack,
    LBrace,
    RBrace,
    Comma,
    Dot,
    Colon,
    Semi,
    Bar,
    Arrow,
    Equiv,
    Conj,
    AndAnd,
    Disj,
    OrOr,
    Equal,
    Minus,
    Operator1,
    Operator2,
    Operator3,
    Operator4,
    PrefixOperator,
    AsWord,
    AxiomWord,
    CloneWord,
    ConstantWord,
    ElseWord,
    EndWord,
    ExistsWord,
    ExportWord,
    FalseWord,
    ForallWord,
    FunctionWord,
    GoalWord,
    IfWord,
    ImportWord,
    InWord,
    InductiveWord,
    LemmaWord,
    LetWord,
    MatchWord,
    ModuleWord,
    NotWord,
    PredicateWord,
    ScopeWord,
    ThenWord,
    TheoryWord,
    TrueWord,
    TypeWord,
    UseWord,
    WithWord,
    ProgramWord,
    OtherWord,
}

/// The terminal of each reserved word, in the words' order.
const WORD_TERMINALS: [Terminal; 63] = [
    Terminal::OtherWord,
    Terminal::OtherWord,
    Terminal::OtherWord,
    Terminal::OtherWord,
    Terminal::AsWord,
    Terminal::AxiomWord,
    Terminal::OtherWord,
    Terminal::OtherWord,
    Terminal::CloneWord,
    Terminal::ProgramWord,
    Terminal::ConstantWord,
    Terminal::OtherWord,
    Terminal::OtherWord,
    Terminal::OtherWord,
    Terminal::ElseWord,
    Terminal::EndWord,
    Terminal::OtherWord,
    Terminal::OtherWord,
    Terminal::ProgramWord,
    Terminal::ExistsWord,
    Terminal::ExportWord,
    Terminal::FalseWord,
    Terminal::OtherWord,
    Terminal::ForallWord,
    Terminal::OtherWord,
    Terminal::FunctionWord,
    Terminal::OtherWord,
    Terminal::GoalWord,
    Terminal::IfWord,
    Terminal::ImportWord,
    Terminal::InWord,
    Terminal::InductiveWord,
    Terminal::OtherWord,
    Terminal::LemmaWord,
    Terminal::LetWord,
    Terminal::MatchWord,
    Terminal::ProgramWord,
    Terminal::ModuleWord,
    Terminal::OtherWord,
    Terminal::NotWord,
    Terminal::PredicateWord,
    Terminal::OtherWord,
    Terminal::OtherWord,
    Terminal::OtherWord,
    Terminal::OtherWord,
    Terminal::OtherWord,
    Terminal::OtherWord,
    Terminal::OtherWord,
    Terminal::OtherWord,
    Terminal::ScopeWord,
    Terminal::OtherWord,
    Terminal::ThenWord,
    Terminal::TheoryWord,
    Terminal::OtherWord,
    Terminal::TrueWord,
    Terminal::OtherWord,
    Terminal::TypeWord,
    Terminal::UseWord,
    Terminal::ProgramWord,
    Terminal::OtherWord,
    Terminal::OtherWord,
    Terminal::WithWord,
    Terminal::OtherWord,
];

fn operator(level: usize, prefix: bool) -> Terminal
    ensures { result ≡ terminal_of (Operator level prefix) }
{
    if prefix {
        return Terminal::PrefixOperator;
    }
    match level {
        1 => Terminal::Operator1,
        2 => Terminal::Operator2,
        3 => Terminal::Operator3,
        _ => Terminal::Operator4,
    }
}

fn word(place: usize) -> Terminal
    ensures { result ≡ terminal_of (Reserved place) }
{
    if place < WORD_TERMINALS.len() {
        WORD_TERMINALS[place]
    } else {
        Terminal::OtherWord
    }
}

/// The terminal symbol that a kind of token is.
pub fn classify(kind: TokenKind) -> Terminal
    ensures { result ≡ terminal_of kind }
{
    match kind {
        TokenKind::Lident => Terminal::Lident,
        TokenKind::Uident => Terminal::Uident,
        TokenKind::Wild => Terminal::Wild,
        TokenKind::TyVar => Terminal::TyVar,
        TokenKind::Int => Terminal::Int,
        TokenKind::StarName => Terminal::StarName,
        TokenKind::LParen => Terminal::LParen,
        TokenKind::RParen => Terminal::RParen,
        TokenKind::LBrack => Terminal::LBrack,
        TokenKind::RBrack => Terminal::RBrack,
        TokenKind::LBrace => Terminal::LBrace,
        TokenKind::RBrace => Terminal::RBrace,
        TokenKind::Comma => Terminal::Comma,
        TokenKind::Dot => Terminal::Dot,
        TokenKind::Colon => Terminal::Colon,
        TokenKind::Semi => Terminal::Semi,
        TokenKind::Bar => Terminal::Bar,
        TokenKind::Arrow => Terminal::Arrow,
        TokenKind::Equiv => Terminal::Equiv,
        TokenKind::Conj => Terminal::Conj,
        TokenKind::AndAnd => Terminal::AndAnd,
        TokenKind::Disj => Terminal::Disj,
        TokenKind::OrOr => Terminal::OrOr,
        TokenKind::Equal => Terminal::Equal,
        TokenKind::Minus => Terminal::Minus,
        TokenKind::Operator(level, prefix) => operator(level, prefix),
        TokenKind::Reserved(place) => word(place),
    }
}

/// A kind of token that is the terminal: the only one, but for `ProgramWord` and `OtherWord`, which are several words.
pub fn token_kind(terminal: Terminal) -> TokenKind
    ensures { result ≡ kind_by terminal }
{
    match terminal {
        Terminal::Lident => TokenKind::Lident,
        Terminal::Uident => TokenKind::Uident,
        Terminal::Wild => TokenKind::Wild,
        Terminal::TyVar => TokenKind::TyVar,
        Terminal::Int => TokenKind::Int,
        Terminal::StarName => TokenKind::StarName,
        Terminal::LParen => TokenKind::LParen,
        Terminal::RParen => TokenKind::RParen,
        Terminal::LBrack => TokenKind::LBrack,
        Terminal::RBrack => TokenKind::RBrack,
        Terminal::LBrace => TokenKind::LBrace,
        Terminal::RBrace => TokenKind::RBrace,
        Terminal::Comma => TokenKind::Comma,
        Terminal::Dot => TokenKind::Dot,
        Terminal::Colon => TokenKind::Colon,
        Terminal::Semi => TokenKind::Semi,
        Terminal::Bar => TokenKind::Bar,
        Terminal::Arrow => TokenKind::Arrow,
        Terminal::Equiv => TokenKind::Equiv,
        Terminal::Conj => TokenKind::Conj,
        Terminal::AndAnd => TokenKind::AndAnd,
        Terminal::Disj => TokenKind::Disj,
        Terminal::OrOr => TokenKind::OrOr,
        Terminal::Equal => TokenKind::Equal,
        Terminal::Minus => TokenKind::Minus,
        Terminal::Operator1 => TokenKind::Operator(1, false),
        Terminal::Operator2 => TokenKind::Operator(2, false),
        Terminal::Operator3 => TokenKind::Operator(3, false),
        Terminal::Operator4 => TokenKind::Operator(4, false),
        Terminal::PrefixOperator => TokenKind::Operator(4, true),
        Terminal::AsWord => TokenKind::Reserved(4),
        Terminal::AxiomWord => TokenKind::Reserved(5),
        Terminal::CloneWord => TokenKind::Reserved(8),
        Terminal::ConstantWord => TokenKind::Reserved(10),
        Terminal::ElseWord => TokenKind::Reserved(14),
        Terminal::EndWord => TokenKind::Reserved(15),
        Terminal::ExistsWord => TokenKind::Reserved(19),
        Terminal::ExportWord => TokenKind::Reserved(20),
        Terminal::FalseWord => TokenKind::Reserved(21),
        Terminal::ForallWord => TokenKind::Reserved(23),
        Terminal::FunctionWord => TokenKind::Reserved(25),
        Terminal::GoalWord => TokenKind::Reserved(27),
        Terminal::IfWord => TokenKind::Reserved(28),
        Terminal::ImportWord => TokenKind::Reserved(29),
        Terminal::InWord => TokenKind::Reserved(30),
        Terminal::InductiveWord => TokenKind::Reserved(31),
        Terminal::LemmaWord => TokenKind::Reserved(33),
        Terminal::LetWord => TokenKind::Reserved(34),
        Terminal::MatchWord => TokenKind::Reserved(35),
        Terminal::ModuleWord => TokenKind::Reserved(37),
        Terminal::NotWord => TokenKind::Reserved(39),
        Terminal::PredicateWord => TokenKind::Reserved(40),
        Terminal::ScopeWord => TokenKind::Reserved(49),
        Terminal::ThenWord => TokenKind::Reserved(51),
        Terminal::TheoryWord => TokenKind::Reserved(52),
        Terminal::TrueWord => TokenKind::Reserved(54),
        Terminal::TypeWord => TokenKind::Reserved(56),
        Terminal::UseWord => TokenKind::Reserved(57),
        Terminal::WithWord => TokenKind::Reserved(61),
        Terminal::ProgramWord => TokenKind::Reserved(9),
        Terminal::OtherWord => TokenKind::Reserved(0),
    }
}

/// A kind of token for each terminal. Only want of memory refuses.
pub fn token_kinds(alloc: Global, terminals: &[Terminal]) -> Result<Vec<TokenKind>, AllocError>
    ensures { IfOk result (λ v. v.items ≡ map kind_by terminals.now) }
{
    let mut kinds = Vec::new(alloc);
    for terminal in terminals {
        kinds.push(token_kind(*terminal))?;
    }
    Ok(kinds)
}
