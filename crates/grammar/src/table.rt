// The grammar in code: the rows of each rule but those of an expression and of operators.
ghost use Rattle.std.specs.Prelude.{map};
ghost use Rattle.grammar.specs.Rows.{HasRows, production_of};

use crate::symbols::Symbol::{self, *};
use tokens_why::Terminal as T;

/// A token with which a rule begins, and what comes after it.
pub type Row = (T, &'static [Symbol]);

// Tokens that are in many rows, and an expression of any level.
const COLON: Symbol = Take(T::Colon);

const EQUAL: Symbol = Take(T::Equal);

const THEN: Symbol = Take(T::ThenWord);

const ELSE: Symbol = Take(T::ElseWord);

const ANY: Symbol = Expr(0);

const FILE: [Row; 2] = [
    (T::TheoryWord, &[Take(T::Uident), Decls, File]),
    (T::ModuleWord, &[Take(T::Uident), Decls, File]),
];

const DECLS: [Row; 12] = [
    (T::EndWord, &[]),
    (T::ScopeWord, &[Take(T::Uident), Decls, Decls]),
    (T::TypeWord, &[Take(T::Lident), Tvars, Decls]),
    (T::FunctionWord, &[Op, Params, COLON, TypeOf, Body, Decls]),
    (T::PredicateWord, &[Op, Params, Body, Decls]),
    (T::ConstantWord, &[Op, COLON, TypeOf, Value, Decls]),
    (T::InductiveWord, &[Op, Params, EQUAL, Clause, Decls]),
    (T::AxiomWord, &[Ident, COLON, ANY, Decls]),
    (T::LemmaWord, &[Ident, COLON, ANY, Decls]),
    (T::GoalWord, &[Ident, COLON, ANY, Decls]),
    (T::UseWord, &[Used, Decls]),
    (T::CloneWord, &[Cloned, Decls]),
];

const TYPEDEF: [Row; 6] = [
    (T::TyVar, &[]),
    (T::Lident, &[Targs]),
    (T::LParen, &[Ttuple]),
    (T::Uident, &[Upper]),
    (T::Bar, &[Take(T::Uident), Fields]),
    (T::LBrace, &[RecordField, RecordRest]),
];

const CON: [Row; 3] = [
    (T::Uident, &[Fields]),
    (T::Bar, &[Take(T::Uident), Fields]),
    (T::LBrace, &[RecordField, RecordRest]),
];

const RECORD_FIELD: [Row; 1] = [(T::Lident, &[COLON, TypeOf])];

const RECORD_REST: [Row; 2] = [(T::RBrace, &[Algs]), (T::Semi, &[RecordNext])];

const RECORD_NEXT: [Row; 2] = [
    (T::RBrace, &[Algs]),
    (T::Lident, &[COLON, TypeOf, RecordRest]),
];

const ALGS: [Row; 1] = [(T::WithWord, &[Take(T::Lident), Algvars])];

const UPPER: [Row; 8] = [
    (T::Dot, &[Qlid, Targs]),
    (T::Bar, &[Take(T::Uident), Fields]),
    (T::WithWord, &[Take(T::Lident), Algvars]),
    (T::LParen, &[Pparen, Fields]),
    (T::TyVar, &[Fields]),
    (T::Lident, &[Fields]),
    (T::Uident, &[Take(T::Dot), Qlid, Fields]),
    (T::LParen, &[Ttuple, Fields]),
];

const OPNAME: [Row; 7] = [
    (T::Equal, &[Opend]),
    (T::Minus, &[Opend]),
    (T::Operator1, &[Opend]),
    (T::Operator2, &[Opend]),
    (T::Operator3, &[Opend]),
    (T::Operator4, &[Opend]),
    (T::PrefixOperator, &[Opend]),
];

const PARAM: [Row; 5] = [
    (T::LParen, &[Pparen]),
    (T::TyVar, &[]),
    (T::Lident, &[]),
    (T::Uident, &[Take(T::Dot), Qlid]),
    (T::LParen, &[Ttuple]),
];

const PARAMS: [Row; 5] = [
    (T::LParen, &[Pparen, Params]),
    (T::TyVar, &[Params]),
    (T::Lident, &[Params]),
    (T::Uident, &[Take(T::Dot), Qlid, Params]),
    (T::LParen, &[Ttuple, Params]),
];

const PPAREN: [Row; 6] = [
    (T::Lident, &[Pname]),
    (T::RParen, &[]),
    (T::TyVar, &[Tmore]),
    (T::Lident, &[Targs, Tmore]),
    (T::Uident, &[Take(T::Dot), Qlid, Targs, Tmore]),
    (T::LParen, &[Ttuple, Tmore]),
];

const PNAME: [Row; 8] = [
    (T::Colon, &[TypeOf, Take(T::RParen)]),
    (T::Lident, &[Pname]),
    (T::TyVar, &[Targs, Tmore]),
    (T::Lident, &[Targs, Tmore]),
    (T::Uident, &[Take(T::Dot), Qlid, Targs, Tmore]),
    (T::LParen, &[Ttuple, Targs, Tmore]),
    (T::RParen, &[]),
    (T::Comma, &[TypeOf, Tmore]),
];

const MEMBER: [Row; 2] = [
    (T::Equal, &[ANY, Members]),
    (T::Colon, &[TypeOf, EQUAL, ANY, Members]),
];

const CLAUSE: [Row; 3] = [
    (T::Lident, &[COLON, ANY, Clauses]),
    (T::Uident, &[COLON, ANY, Clauses]),
    (T::Bar, &[Ident, COLON, ANY, Clauses]),
];

const CLAUSES: [Row; 2] = [
    (T::Bar, &[Ident, COLON, ANY, Clauses]),
    (T::WithWord, &[Op, Params, EQUAL, Clause]),
];

const USED: [Row; 4] = [
    (T::ExportWord, &[Path]),
    (T::ImportWord, &[Path, Renamed]),
    (T::Lident, &[Take(T::Dot), Path, Renamed]),
    (T::Uident, &[Renamed]),
];

const CLONED: [Row; 4] = [
    (T::ExportWord, &[Path, Subst]),
    (T::ImportWord, &[Path, Renamed, Subst]),
    (T::Lident, &[Take(T::Dot), Path, Renamed, Subst]),
    (T::Uident, &[Renamed, Subst]),
];

const ELEM: [Row; 7] = [
    (T::TypeWord, &[Qlid, Elvars]),
    (T::FunctionWord, &[Qop, EQUAL, Qop]),
    (T::ConstantWord, &[Qop, EQUAL, Qop]),
    (T::PredicateWord, &[Qop, EQUAL, Qop]),
    (T::LemmaWord, &[Qid]),
    (T::GoalWord, &[Qid]),
    (T::AxiomWord, &[Axioms]),
];

const QOP: [Row; 4] = [
    (T::Uident, &[Take(T::Dot), Qop]),
    (T::Lident, &[]),
    (T::StarName, &[]),
    (T::LParen, &[Opname]),
];

const TYPE: [Row; 4] = [
    (T::TyVar, &[]),
    (T::Lident, &[Targs]),
    (T::Uident, &[Take(T::Dot), Qlid, Targs]),
    (T::LParen, &[Ttuple]),
];

const ATYPE: [Row; 4] = [
    (T::TyVar, &[]),
    (T::Lident, &[]),
    (T::Uident, &[Take(T::Dot), Qlid]),
    (T::LParen, &[Ttuple]),
];

const TARGS: [Row; 4] = [
    (T::TyVar, &[Targs]),
    (T::Lident, &[Targs]),
    (T::Uident, &[Take(T::Dot), Qlid, Targs]),
    (T::LParen, &[Ttuple, Targs]),
];

const TTUPLE: [Row; 5] = [
    (T::RParen, &[]),
    (T::TyVar, &[Tmore]),
    (T::Lident, &[Targs, Tmore]),
    (T::Uident, &[Take(T::Dot), Qlid, Targs, Tmore]),
    (T::LParen, &[Ttuple, Tmore]),
];

const PAT: [Row; 5] = [
    (T::Wild, &[AsPart]),
    (T::Lident, &[AsPart]),
    (T::Uident, &[Quids, Patoms, AsPart]),
    (T::LParen, &[Ptuple, AsPart]),
    (T::LBrace, &[Qlid, EQUAL, Pat, PatFields, AsPart]),
];

const PTUPLE: [Row; 6] = [
    (T::RParen, &[]),
    (T::Wild, &[AsPart, Pmore]),
    (T::Lident, &[AsPart, Pmore]),
    (T::Uident, &[Quids, Patoms, AsPart, Pmore]),
    (T::LParen, &[Ptuple, AsPart, Pmore]),
    (T::LBrace, &[Qlid, EQUAL, Pat, PatFields, AsPart, Pmore]),
];

const PATOMS: [Row; 5] = [
    (T::Wild, &[Patoms]),
    (T::Lident, &[Patoms]),
    (T::Uident, &[Quids, Patoms]),
    (T::LParen, &[Ptuple, Patoms]),
    (T::LBrace, &[Qlid, EQUAL, Pat, PatFields, Patoms]),
];

const GROUP: [Row; 3] = [
    (T::RParen, &[Dots]),
    (T::Comma, &[ANY, More, Dots]),
    (T::Colon, &[TypeOf, Take(T::RParen), Dots]),
];

const BRANCH: [Row; 6] = [
    (T::Bar, &[Pat, Arm]),
    (T::Wild, &[AsPart, Arm]),
    (T::Lident, &[AsPart, Arm]),
    (T::Uident, &[Quids, Patoms, AsPart, Arm]),
    (T::LParen, &[Ptuple, AsPart, Arm]),
    (T::LBrace, &[Qlid, EQUAL, Pat, PatFields, AsPart, Arm]),
];

const ARM: [Row; 3] = [
    (T::Comma, &[Pat, Arm]),
    (T::Bar, &[Pat, Arm]),
    (T::Arrow, &[ANY, Branches]),
];

const LETPATS: [Row; 2] = [
    (T::Comma, &[Pat, Letpats]),
    (T::Equal, &[ANY, Take(T::InWord), ANY, Seal]),
];

const BINDER: [Row; 5] = [
    (T::Lident, &[Binder]),
    (T::Colon, &[TypeOf, Binders]),
    (T::Comma, &[Take(T::Lident), Binder]),
    (T::LBrack, &[ANY, Trigger]),
    (T::Dot, &[ANY, Seal]),
];

const BINDERS: [Row; 3] = [
    (T::Comma, &[Take(T::Lident), Binder]),
    (T::LBrack, &[ANY, Trigger]),
    (T::Dot, &[ANY, Seal]),
];

const TRIGGER: [Row; 3] = [
    (T::Comma, &[ANY, Trigger]),
    (T::Bar, &[ANY, Trigger]),
    (T::RBrack, &[Take(T::Dot), ANY, Seal]),
];

/// The rows of the expressions that end only where what is around them ends: `if`, `let` and quantifiers.
pub const OPEN: [Row; 4] = [
    (T::IfWord, &[ANY, THEN, ANY, ELSE, ANY, Seal]),
    (T::LetWord, &[Pat, Letpats]),
    (T::ForallWord, &[Take(T::Lident), Binder]),
    (T::ExistsWord, &[Take(T::Lident), Binder]),
];

const FIELDS: [Row; 7] = [
    (T::Bar, &[Take(T::Uident), Fields]),
    (T::WithWord, &[Take(T::Lident), Algvars]),
    (T::LParen, &[Pparen, Fields]),
    (T::TyVar, &[Fields]),
    (T::Lident, &[Fields]),
    (T::Uident, &[Take(T::Dot), Qlid, Fields]),
    (T::LParen, &[Ttuple, Fields]),
];

const PATOM: [Row; 5] = [
    (T::Wild, &[]),
    (T::Lident, &[]),
    (T::Uident, &[Quids]),
    (T::LParen, &[Ptuple]),
    (T::LBrace, &[Qlid, EQUAL, Pat, PatFields]),
];

const PAT_FIELDS: [Row; 2] = [(T::RBrace, &[]), (T::Semi, &[PatField])];

const PAT_FIELD: [Row; 3] = [
    (T::RBrace, &[]),
    (T::Lident, &[EQUAL, Pat, PatFields]),
    (T::Uident, &[Take(T::Dot), Qlid, EQUAL, Pat, PatFields]),
];

const EXPR_FIELDS: [Row; 2] = [(T::RBrace, &[]), (T::Semi, &[ExprField])];

const EXPR_FIELD: [Row; 3] = [
    (T::RBrace, &[]),
    (T::Lident, &[EQUAL, ANY, ExprFields]),
    (T::Uident, &[Take(T::Dot), Qlid, EQUAL, ANY, ExprFields]),
];

/// The rows of primary expressions.
pub const PRIM: [Row; 9] = [
    (T::Lident, &[Applied]),
    (T::Uident, &[HeadRest(true)]),
    (T::StarName, &[Args]),
    (T::LParen, &[Hparen]),
    (T::Int, &[]),
    (T::TrueWord, &[]),
    (T::FalseWord, &[]),
    (T::MatchWord, &[ANY, Scrutinees, Dots]),
    (T::LBrace, &[Qlid, EQUAL, ANY, ExprFields, Dots]),
];

const DOTS: [Row; 1] = [(T::Dot, &[Qlid, Dots])];

const APPLIED: [Row; 10] = [
    (T::Dot, &[Qlid, Dots]),
    (T::Lident, &[Dots, Args]),
    (T::Uident, &[HeadRest(false), Args]),
    (T::StarName, &[Args]),
    (T::LParen, &[Aparen, Args]),
    (T::Int, &[Args]),
    (T::TrueWord, &[Args]),
    (T::FalseWord, &[Args]),
    (T::MatchWord, &[ANY, Scrutinees, Dots, Args]),
    (T::LBrace, &[Qlid, EQUAL, ANY, ExprFields, Dots, Args]),
];

const HEAD_REST: [Row; 10] = [
    (T::Dot, &[Head(true)]),
    (T::Lident, &[Dots, Args]),
    (T::Uident, &[HeadRest(false), Args]),
    (T::StarName, &[Args]),
    (T::LParen, &[Aparen, Args]),
    (T::Int, &[Args]),
    (T::TrueWord, &[Args]),
    (T::FalseWord, &[Args]),
    (T::MatchWord, &[ANY, Scrutinees, Dots, Args]),
    (T::LBrace, &[Qlid, EQUAL, ANY, ExprFields, Dots, Args]),
];

const ATOM_REST: [Row; 1] = [(T::Dot, &[Head(false)])];

const HEAD: [Row; 4] = [
    (T::Lident, &[Applied]),
    (T::Uident, &[HeadRest(true)]),
    (T::StarName, &[Args]),
    (T::LParen, &[Opname, Args]),
];

const ATOM_HEAD: [Row; 4] = [
    (T::Lident, &[Dots]),
    (T::Uident, &[HeadRest(false)]),
    (T::StarName, &[]),
    (T::LParen, &[Opname]),
];

const QHEAD: [Row; 4] = [
    (T::Lident, &[]),
    (T::Uident, &[Scoped]),
    (T::StarName, &[]),
    (T::LParen, &[Opname]),
];

const ARGS: [Row; 9] = [
    (T::Lident, &[Dots, Args]),
    (T::Uident, &[HeadRest(false), Args]),
    (T::StarName, &[Args]),
    (T::LParen, &[Aparen, Args]),
    (T::Int, &[Args]),
    (T::TrueWord, &[Args]),
    (T::FalseWord, &[Args]),
    (T::MatchWord, &[ANY, Scrutinees, Dots, Args]),
    (T::LBrace, &[Qlid, EQUAL, ANY, ExprFields, Dots, Args]),
];

const ATOM: [Row; 9] = [
    (T::Lident, &[Dots]),
    (T::Uident, &[HeadRest(false)]),
    (T::StarName, &[]),
    (T::LParen, &[Aparen]),
    (T::Int, &[]),
    (T::TrueWord, &[]),
    (T::FalseWord, &[]),
    (T::MatchWord, &[ANY, Scrutinees, Dots]),
    (T::LBrace, &[Qlid, EQUAL, ANY, ExprFields, Dots]),
];

const HPAREN: [Row; 24] = [
    (T::RParen, &[Dots]),
    (T::Equal, &[Opend, Args]),
    (T::Operator1, &[Opend, Args]),
    (T::Operator2, &[Opend, Args]),
    (T::Operator3, &[Opend, Args]),
    (T::Operator4, &[Opend, Args]),
    (T::Minus, &[Hminus]),
    (T::PrefixOperator, &[Hminus]),
    (T::NotWord, &[Expr(3), Tail(0, 3), GroupRest]),
    (T::Minus, &[Expr(8), Tail(0, 8), GroupRest]),
    (T::PrefixOperator, &[Expr(8), Tail(0, 8), GroupRest]),
    (T::IfWord, &[ANY, THEN, ANY, ELSE, ANY, Seal, GroupRest]),
    (T::LetWord, &[Pat, Letpats, GroupRest]),
    (T::ForallWord, &[Take(T::Lident), Binder, GroupRest]),
    (T::ExistsWord, &[Take(T::Lident), Binder, GroupRest]),
    (T::Lident, &[Applied, Tail(0, 9), GroupRest]),
    (T::Uident, &[HeadRest(true), Tail(0, 9), GroupRest]),
    (T::StarName, &[Args, Tail(0, 9), GroupRest]),
    (T::LParen, &[Hparen, Tail(0, 9), GroupRest]),
    (T::Int, &[Tail(0, 9), GroupRest]),
    (T::TrueWord, &[Tail(0, 9), GroupRest]),
    (T::FalseWord, &[Tail(0, 9), GroupRest]),
    (
        T::MatchWord,
        &[ANY, Scrutinees, Dots, Tail(0, 9), GroupRest],
    ),
    (
        T::LBrace,
        &[Qlid, EQUAL, ANY, ExprFields, Dots, Tail(0, 9), GroupRest],
    ),
];

const HMINUS: [Row; 17] = [
    (T::RParen, &[Args]),
    (T::Wild, &[Take(T::RParen), Args]),
    (T::Minus, &[Expr(8), Tail(8, 8), Tail(0, 8), GroupRest]),
    (
        T::PrefixOperator,
        &[Expr(8), Tail(8, 8), Tail(0, 8), GroupRest],
    ),
    (
        T::IfWord,
        &[ANY, THEN, ANY, ELSE, ANY, Seal, Tail(0, 8), GroupRest],
    ),
    (T::LetWord, &[Pat, Letpats, Tail(0, 8), GroupRest]),
    (
        T::ForallWord,
        &[Take(T::Lident), Binder, Tail(0, 8), GroupRest],
    ),
    (
        T::ExistsWord,
        &[Take(T::Lident), Binder, Tail(0, 8), GroupRest],
    ),
    (T::Lident, &[Applied, Tail(8, 9), Tail(0, 8), GroupRest]),
    (
        T::Uident,
        &[HeadRest(true), Tail(8, 9), Tail(0, 8), GroupRest],
    ),
    (T::StarName, &[Args, Tail(8, 9), Tail(0, 8), GroupRest]),
    (T::LParen, &[Hparen, Tail(8, 9), Tail(0, 8), GroupRest]),
    (T::Int, &[Tail(8, 9), Tail(0, 8), GroupRest]),
    (T::TrueWord, &[Tail(8, 9), Tail(0, 8), GroupRest]),
    (T::FalseWord, &[Tail(8, 9), Tail(0, 8), GroupRest]),
    (
        T::MatchWord,
        &[ANY, Scrutinees, Dots, Tail(8, 9), Tail(0, 8), GroupRest],
    ),
    (
        T::LBrace,
        &[
            Qlid,
            EQUAL,
            ANY,
            ExprFields,
            Dots,
            Tail(8, 9),
            Tail(0, 8),
            GroupRest,
        ],
    ),
];

const APAREN: [Row; 24] = [
    (T::RParen, &[Dots]),
    (T::Equal, &[Opend]),
    (T::Operator1, &[Opend]),
    (T::Operator2, &[Opend]),
    (T::Operator3, &[Opend]),
    (T::Operator4, &[Opend]),
    (T::Minus, &[Aminus]),
    (T::PrefixOperator, &[Aminus]),
    (T::NotWord, &[Expr(3), Tail(0, 3), GroupRest]),
    (T::Minus, &[Expr(8), Tail(0, 8), GroupRest]),
    (T::PrefixOperator, &[Expr(8), Tail(0, 8), GroupRest]),
    (T::IfWord, &[ANY, THEN, ANY, ELSE, ANY, Seal, GroupRest]),
    (T::LetWord, &[Pat, Letpats, GroupRest]),
    (T::ForallWord, &[Take(T::Lident), Binder, GroupRest]),
    (T::ExistsWord, &[Take(T::Lident), Binder, GroupRest]),
    (T::Lident, &[Applied, Tail(0, 9), GroupRest]),
    (T::Uident, &[HeadRest(true), Tail(0, 9), GroupRest]),
    (T::StarName, &[Args, Tail(0, 9), GroupRest]),
    (T::LParen, &[Hparen, Tail(0, 9), GroupRest]),
    (T::Int, &[Tail(0, 9), GroupRest]),
    (T::TrueWord, &[Tail(0, 9), GroupRest]),
    (T::FalseWord, &[Tail(0, 9), GroupRest]),
    (
        T::MatchWord,
        &[ANY, Scrutinees, Dots, Tail(0, 9), GroupRest],
    ),
    (
        T::LBrace,
        &[Qlid, EQUAL, ANY, ExprFields, Dots, Tail(0, 9), GroupRest],
    ),
];

const AMINUS: [Row; 17] = [
    (T::RParen, &[]),
    (T::Wild, &[Take(T::RParen)]),
    (T::Minus, &[Expr(8), Tail(8, 8), Tail(0, 8), GroupRest]),
    (
        T::PrefixOperator,
        &[Expr(8), Tail(8, 8), Tail(0, 8), GroupRest],
    ),
    (
        T::IfWord,
        &[ANY, THEN, ANY, ELSE, ANY, Seal, Tail(0, 8), GroupRest],
    ),
    (T::LetWord, &[Pat, Letpats, Tail(0, 8), GroupRest]),
    (
        T::ForallWord,
        &[Take(T::Lident), Binder, Tail(0, 8), GroupRest],
    ),
    (
        T::ExistsWord,
        &[Take(T::Lident), Binder, Tail(0, 8), GroupRest],
    ),
    (T::Lident, &[Applied, Tail(8, 9), Tail(0, 8), GroupRest]),
    (
        T::Uident,
        &[HeadRest(true), Tail(8, 9), Tail(0, 8), GroupRest],
    ),
    (T::StarName, &[Args, Tail(8, 9), Tail(0, 8), GroupRest]),
    (T::LParen, &[Hparen, Tail(8, 9), Tail(0, 8), GroupRest]),
    (T::Int, &[Tail(8, 9), Tail(0, 8), GroupRest]),
    (T::TrueWord, &[Tail(8, 9), Tail(0, 8), GroupRest]),
    (T::FalseWord, &[Tail(8, 9), Tail(0, 8), GroupRest]),
    (
        T::MatchWord,
        &[ANY, Scrutinees, Dots, Tail(8, 9), Tail(0, 8), GroupRest],
    ),
    (
        T::LBrace,
        &[
            Qlid,
            EQUAL,
            ANY,
            ExprFields,
            Dots,
            Tail(8, 9),
            Tail(0, 8),
            GroupRest,
        ],
    ),
];

/// The rows of a rule other than an expression and its tail.
pub fn rows_of(rule: Symbol) -> &'static [Row]
    ensures { HasRows rule (map production_of result.now) }
{
    match rule {
        Take(_) | Expr(_) | Tail(_, _) | Seal => &[],
        File => &FILE,
        Decls => &DECLS,
        Tvars => &[(T::TyVar, &[Tvars]), (T::Equal, &[Typedef])],
        Typedef => &TYPEDEF,
        Upper => &UPPER,
        Algvars => &[(T::TyVar, &[Algvars]), (T::Equal, &[Con])],
        Con => &CON,
        Op => &[(T::Lident, &[]), (T::StarName, &[]), (T::LParen, &[Opname])],
        Opname => &OPNAME,
        Opend => &[(T::RParen, &[]), (T::Wild, &[Take(T::RParen)])],
        Ident => &[(T::Lident, &[]), (T::Uident, &[])],
        Param => &PARAM,
        Params => &PARAMS,
        Pparen => &PPAREN,
        Pname => &PNAME,
        Body => &[(T::Equal, &[ANY, Members])],
        Members => &[(T::WithWord, &[Op, Params, Member])],
        Member => &MEMBER,
        Value => &[(T::Equal, &[ANY])],
        Clause => &CLAUSE,
        Clauses => &CLAUSES,
        Used => &USED,
        Cloned => &CLONED,
        Path => &[(T::Lident, &[Take(T::Dot), Path]), (T::Uident, &[])],
        Renamed => &[(T::AsWord, &[Take(T::Uident)])],
        Subst => &[(T::WithWord, &[Elem, Elems])],
        Elems => &[(T::Comma, &[Elem, Elems])],
        Elem => &ELEM,
        Axioms => &[(T::Dot, &[]), (T::Lident, &[]), (T::Uident, &[Qids])],
        Elvars => &[(T::TyVar, &[Elvars]), (T::Equal, &[TypeOf])],
        Qlid => &[(T::Lident, &[]), (T::Uident, &[Take(T::Dot), Qlid])],
        Qop => &QOP,
        Qid => &[(T::Lident, &[]), (T::Uident, &[Qids])],
        Qids => &[(T::Dot, &[Qid])],
        TypeOf => &TYPE,
        Atype => &ATYPE,
        Targs => &TARGS,
        Ttuple => &TTUPLE,
        Tmore => &[(T::RParen, &[]), (T::Comma, &[TypeOf, Tmore])],
        Pat => &PAT,
        AsPart => &[(T::AsWord, &[Take(T::Lident)])],
        Quids => &[(T::Dot, &[Take(T::Uident), Quids])],
        Ptuple => &PTUPLE,
        Pmore => &[(T::RParen, &[]), (T::Comma, &[Pat, Pmore])],
        Patoms => &PATOMS,
        GroupRest => &GROUP,
        More => &[(T::RParen, &[]), (T::Comma, &[ANY, More])],
        Scrutinees => &[(T::Comma, &[ANY, Scrutinees]), (T::WithWord, &[Branch])],
        Branch => &BRANCH,
        Arm => &ARM,
        Branches => &[(T::Bar, &[Pat, Arm]), (T::EndWord, &[])],
        Letpats => &LETPATS,
        Binder => &BINDER,
        Binders => &BINDERS,
        Trigger => &TRIGGER,
        OpenForm => &OPEN,
        Fields => &FIELDS,
        RecordField => &RECORD_FIELD,
        RecordRest => &RECORD_REST,
        RecordNext => &RECORD_NEXT,
        Algs => &ALGS,
        Patom => &PATOM,
        PatFields => &PAT_FIELDS,
        PatField => &PAT_FIELD,
        ExprFields => &EXPR_FIELDS,
        ExprField => &EXPR_FIELD,
        Prim => &PRIM,
        Dots => &DOTS,
        Applied => &APPLIED,
        HeadRest(true) => &HEAD_REST,
        HeadRest(false) => &ATOM_REST,
        Head(true) => &HEAD,
        Head(false) => &ATOM_HEAD,
        Scoped => &[(T::Dot, &[Qhead])],
        Qhead => &QHEAD,
        Args => &ARGS,
        Atom => &ATOM,
        Hparen => &HPAREN,
        Hminus => &HMINUS,
        Aparen => &APAREN,
        Aminus => &AMINUS,
    }
}
