// The kinds of the tokens of declarations, theories and files.
ghost use Rattle.std.specs.Prelude.{◌≡◌, ◌++◌, map, option_map, IfOk};
ghost use Rattle.surface.specs.Lexeme.{terminals, at, kinds};
ghost use Rattle.surface.specs.Forms.{write_called};
ghost use Rattle.surface.specs.Declarations.{variable_row, write_param, param_row, definition, write_member, other_members, write_constructor, constructor_list, write_field, write_type_body, write_algebraic, algebraic_list, write_clause, clause_list, write_inductive, inductive_list, prop_word, link_words, write_path, renamed, symbol_word, write_element, substitution, type_equation, write_decl, write_decls, heading, write_theory, write_file, type_decl, function_decl, predicate_decl, constant_decl, prop_decl, use_decl, clone_decl};
ghost use Rattle.surface.specs.Surface.{form_of, tree_of};
ghost use Rattle.surface.specs.unparse.Putting.{Puts};
ghost use Rattle.surface.specs.SurfaceDeclarations.{declared_name, plain_name, param_of, member_of, constructor_of, algebraic_of, clause_of, inductive_of, element_of, decls, decl_of, theory_of, file_of};

use crate::unparse::expressions::push_expr;
use crate::unparse::parts::{
    push_bar, push_called, push_names, push_own, push_terminal, push_type, push_type_part,
};
use crate::unparse::writing::Written;
use crate::{
    AlgTree, ClauseTree, ConTree, DeclNode, DeclTree, ElemNode, ElemTree, Expr, File, IndTree,
    Link, MemberTree, Name, OpName, ParamTree, Path, PropKind, Style, SymbolWord, TheoryTree,
    TypeTree,
};
use outside::Text;
use std::alloc::{AllocError, Global};
use tokens_why::{Terminal, TokenKind, token_kinds};

/// The kinds of the tokens of a file. Only want of memory refuses.
pub fn unparse(alloc: Global, file: &File) -> Result<Vec<TokenKind>, AllocError>
    ensures { IfOk result (λ v. v.items ≡ kinds (write_file (file_of file.now))) }
{
    let mut out = Written::new(alloc);
    push_theories(file.theories.as_slice(), &mut out);
    let terminals = out.finish()?;
    token_kinds(alloc, terminals.as_slice())
}

fn push_declared(name: &OpName, out: &mut Written)
    ensures { Puts out.old out.new (terminals
        (write_called (declared_name name.now))) }
{
    push_own(name.style, name.text.as_slice(), out)
}

fn push_plain(name: &Name, out: &mut Written)
    ensures { Puts out.old out.new (terminals
        (write_called (plain_name name.now))) }
{
    push_own(Style::Plain, name.text.as_slice(), out)
}

fn push_variables(vars: &[Name], out: &mut Written)
    ensures { Puts out.old out.new (terminals (variable_row vars.now)) }
{
    for _var in vars {
        out.push(Terminal::TyVar);
    }
}

fn push_param(param: &ParamTree, out: &mut Written)
    ensures { Puts out.old out.new (terminals
        (write_param (param_of param.now))) }
{
    let names = param.names.as_slice();
    if let [_, ..] = names {
        out.push(Terminal::LParen);
        push_names(names, out);
        out.push(Terminal::Colon);
        push_type(&param.ty, out);
        push_terminal(Terminal::RParen, out)
    } else {
        push_type(&param.ty, out)
    }
}

fn push_params(of: &[ParamTree], out: &mut Written)
    ensures { Puts out.old out.new (terminals
        (param_row (map param_of of.now))) }
{
    for param in of {
        push_param(param, out);
    }
}

fn push_definition(body: &Option<Expr>, out: &mut Written)
    ensures { Puts out.old out.new (terminals
        (definition (option_map tree_of body.now))) }
{
    match body {
        None => (),
        Some(e) => {
            out.push(Terminal::Equal);
            push_expr(e, out)
        }
    }
}

fn push_member(member: &MemberTree, out: &mut Written)
    ensures { Puts out.old out.new (terminals
        (write_member (member_of member.now))) }
{
    push_declared(&member.name, out);
    push_params(member.params.as_slice(), out);
    push_type_part(&member.result, out);
    out.push(Terminal::Equal);
    push_expr(&member.body, out)
}

fn push_members(of: &[MemberTree], out: &mut Written)
    ensures { Puts out.old out.new (terminals
        (other_members (map member_of of.now))) }
{
    for member in of {
        out.push(Terminal::WithWord);
        push_member(member, out);
    }
}

fn push_constructor(constructor: &ConTree, out: &mut Written)
    ensures { Puts out.old out.new (terminals
        (write_constructor (constructor_of constructor.now))) }
{
    out.push(Terminal::Uident);
    push_params(constructor.fields.as_slice(), out)
}

fn push_constructors(of: &[ConTree], out: &mut Written)
    ensures { Puts out.old out.new (terminals
        (constructor_list (map constructor_of of.now))) }
{
    if let [first, rest @ ..] = of {
        push_constructor(first, out);
        for constructor in rest {
            out.push(Terminal::Bar);
            push_constructor(constructor, out);
        }
    }
}

fn push_field(field: &ParamTree, out: &mut Written)
    ensures { Puts out.old out.new (terminals
        (write_field (param_of field.now))) }
{
    push_names(field.names.as_slice(), out);
    out.push(Terminal::Colon);
    push_type(&field.ty, out)
}

fn push_type_body(algebraic: &AlgTree, out: &mut Written)
    ensures { Puts out.old out.new (terminals
        (write_type_body algebraic.now.bar (map constructor_of algebraic.now.cons)
        (map param_of algebraic.now.fields) algebraic.now.semi)) }
{
    if let [first, rest @ ..] = algebraic.fields.as_slice() {
        out.push(Terminal::LBrace);
        push_field(first, out);
        for field in rest {
            out.push(Terminal::Semi);
            push_field(field, out);
        }
        if algebraic.semi {
            out.push(Terminal::Semi);
        }
        push_terminal(Terminal::RBrace, out)
    } else {
        push_bar(algebraic.bar, out);
        push_constructors(algebraic.cons.as_slice(), out)
    }
}

fn push_algebraic(algebraic: &AlgTree, out: &mut Written)
    ensures { Puts out.old out.new (terminals
        (write_algebraic (algebraic_of algebraic.now))) }
{
    out.push(Terminal::Lident);
    push_variables(algebraic.vars.as_slice(), out);
    out.push(Terminal::Equal);
    push_type_body(algebraic, out)
}

fn push_algebraics(of: &[AlgTree], out: &mut Written)
    ensures { Puts out.old out.new (terminals
        (algebraic_list (map algebraic_of of.now))) }
{
    if let [first, rest @ ..] = of {
        push_algebraic(first, out);
        for algebraic in rest {
            out.push(Terminal::WithWord);
            push_algebraic(algebraic, out);
        }
    }
}

fn push_clause(clause: &ClauseTree, out: &mut Written)
    ensures { Puts out.old out.new (terminals
        (write_clause (clause_of clause.now))) }
{
    push_plain(&clause.name, out);
    out.push(Terminal::Colon);
    push_expr(&clause.prop, out)
}

fn push_clauses(of: &[ClauseTree], out: &mut Written)
    ensures { Puts out.old out.new (terminals
        (clause_list (map clause_of of.now))) }
{
    if let [first, rest @ ..] = of {
        push_clause(first, out);
        for clause in rest {
            out.push(Terminal::Bar);
            push_clause(clause, out);
        }
    }
}

fn push_inductive(inductive: &IndTree, out: &mut Written)
    ensures { Puts out.old out.new (terminals
        (write_inductive (inductive_of inductive.now))) }
{
    push_declared(&inductive.name, out);
    push_params(inductive.params.as_slice(), out);
    out.push(Terminal::Equal);
    push_bar(inductive.bar, out);
    push_clauses(inductive.clauses.as_slice(), out)
}

fn push_inductives(of: &[IndTree], out: &mut Written)
    ensures { Puts out.old out.new (terminals
        (inductive_list (map inductive_of of.now))) }
{
    if let [first, rest @ ..] = of {
        push_inductive(first, out);
        for inductive in rest {
            out.push(Terminal::WithWord);
            push_inductive(inductive, out);
        }
    }
}

fn prop_terminal(kind: PropKind) -> Terminal
    ensures { result ≡ prop_word kind }
{
    match kind {
        PropKind::Axiom => Terminal::AxiomWord,
        PropKind::Lemma => Terminal::LemmaWord,
        PropKind::Goal => Terminal::GoalWord,
    }
}

fn symbol_terminal(symbol: SymbolWord) -> Terminal
    ensures { result ≡ symbol_word symbol }
{
    match symbol {
        SymbolWord::Function => Terminal::FunctionWord,
        SymbolWord::Constant => Terminal::ConstantWord,
        SymbolWord::Predicate => Terminal::PredicateWord,
    }
}

fn heading_terminal(module: bool) -> Terminal
    ensures { result ≡ heading «module» }
{
    if module {
        Terminal::ModuleWord
    } else {
        Terminal::TheoryWord
    }
}

fn push_link(link: Link, out: &mut Written)
    ensures { Puts out.old out.new (terminals (link_words link)) }
{
    match link {
        Link::Bare => (),
        Link::Import => push_terminal(Terminal::ImportWord, out),
        Link::Export => push_terminal(Terminal::ExportWord, out),
    }
}

fn push_path(parts: &[Text], out: &mut Written)
    ensures { Puts out.old out.new (terminals (write_path parts.now)) }
{
    if let [_, rest @ ..] = parts {
        for _part in rest {
            out.push(Terminal::Lident);
            out.push(Terminal::Dot);
        }
        out.push(Terminal::Uident);
    }
}

fn push_as(name: &Option<Name>, out: &mut Written)
    ensures { Puts out.old out.new (terminals (renamed name.now)) }
{
    match name {
        None => (),
        Some(_) => {
            out.push(Terminal::AsWord);
            push_terminal(Terminal::Uident, out)
        }
    }
}

fn push_element(element: &ElemTree, out: &mut Written)
    ensures { Puts out.old out.new (terminals
        (write_element (element_of element.now))) }
{
    match &element.node {
        ElemNode::TypeElem(name, vars, ty) => {
            out.push(Terminal::TypeWord);
            push_called(name, out);
            push_variables(vars.as_slice(), out);
            out.push(Terminal::Equal);
            push_type(ty, out)
        }
        ElemNode::SymbolElem(symbol, left, right) => {
            out.push(symbol_terminal(*symbol));
            push_called(left, out);
            out.push(Terminal::Equal);
            push_called(right, out)
        }
        ElemNode::PropElem(kind, name) => {
            out.push(prop_terminal(*kind));
            push_called(name, out)
        }
        ElemNode::AllAxioms => {
            out.push(Terminal::AxiomWord);
            push_terminal(Terminal::Dot, out)
        }
    }
}

fn push_substitution(of: &[ElemTree], out: &mut Written)
    ensures { Puts out.old out.new (terminals
        (substitution (map element_of of.now))) }
{
    if let [first, rest @ ..] = of {
        out.push(Terminal::WithWord);
        push_element(first, out);
        for element in rest {
            out.push(Terminal::Comma);
            push_element(element, out);
        }
    }
}

fn push_type_equation(ty: &Option<TypeTree>, out: &mut Written)
    ensures { Puts out.old out.new (terminals
        (type_equation (option_map form_of ty.now))) }
{
    match ty {
        None => (),
        Some(t) => {
            out.push(Terminal::Equal);
            push_type(t, out)
        }
    }
}

fn push_type_decl(vars: &[Name], ty: &Option<TypeTree>, out: &mut Written)
    ensures { (n : Name) → Puts out.old out.new (terminals
        (write_decl (type_decl (at 0) n vars.now (option_map form_of ty.now)))) }
{
    out.push(Terminal::TypeWord);
    out.push(Terminal::Lident);
    push_variables(vars, out);
    push_type_equation(ty, out)
}

fn push_function(
    name: &OpName,
    params: &[ParamTree],
    ty: &TypeTree,
    body: &Option<Expr>,
    members: &[MemberTree],
    out: &mut Written,
)
    ensures { Puts out.old out.new (terminals
        (write_decl (function_decl (at 0) (declared_name name.now) (map param_of params.now)
        (form_of ty.now) (option_map tree_of body.now) (map member_of members.now)))) }
{
    out.push(Terminal::FunctionWord);
    push_declared(name, out);
    push_params(params, out);
    out.push(Terminal::Colon);
    push_type(ty, out);
    push_definition(body, out);
    push_members(members, out)
}

fn push_predicate(
    name: &OpName,
    params: &[ParamTree],
    body: &Option<Expr>,
    members: &[MemberTree],
    out: &mut Written,
)
    ensures { Puts out.old out.new (terminals
        (write_decl (predicate_decl (at 0) (declared_name name.now) (map param_of params.now)
        (option_map tree_of body.now) (map member_of members.now)))) }
{
    out.push(Terminal::PredicateWord);
    push_declared(name, out);
    push_params(params, out);
    push_definition(body, out);
    push_members(members, out)
}

fn push_constant(name: &OpName, ty: &TypeTree, body: &Option<Expr>, out: &mut Written)
    ensures { Puts out.old out.new (terminals
        (write_decl (constant_decl (at 0) (declared_name name.now) (form_of ty.now)
        (option_map tree_of body.now)))) }
{
    out.push(Terminal::ConstantWord);
    push_declared(name, out);
    out.push(Terminal::Colon);
    push_type(ty, out);
    push_definition(body, out)
}

fn push_prop(kind: PropKind, name: &Name, prop: &Expr, out: &mut Written)
    ensures { Puts out.old out.new (terminals
        (write_decl (prop_decl (at 0) kind (plain_name name.now) (tree_of prop.now)))) }
{
    out.push(prop_terminal(kind));
    push_plain(name, out);
    out.push(Terminal::Colon);
    push_expr(prop, out)
}

fn push_use(link: Link, path: &Path, name: &Option<Name>, out: &mut Written)
    ensures { Puts out.old out.new (terminals
        (write_decl (use_decl (at 0) link path.now name.now))) }
{
    out.push(Terminal::UseWord);
    push_link(link, out);
    push_path(path.parts.as_slice(), out);
    push_as(name, out)
}

fn push_clone(
    link: Link,
    path: &Path,
    name: &Option<Name>,
    elements: &[ElemTree],
    out: &mut Written,
)
    ensures { Puts out.old out.new (terminals
        (write_decl (clone_decl (at 0) link path.now name.now (map element_of elements.now)))) }
{
    out.push(Terminal::CloneWord);
    push_link(link, out);
    push_path(path.parts.as_slice(), out);
    push_as(name, out);
    push_substitution(elements, out)
}

#[cycle(declaration_writing)]
fn push_decl(decl: &DeclTree, out: &mut Written)
    ensures { Puts out.old out.new (terminals
        (write_decl (decl_of decl.now))) }
{
    match &decl.node {
        DeclNode::TypeDecl(_, vars, ty) => push_type_decl(vars.as_slice(), ty, out),
        DeclNode::Algebraic(of) => {
            out.push(Terminal::TypeWord);
            push_algebraics(of.as_slice(), out)
        }
        DeclNode::Function(name, params, ty, body, members) => {
            push_function(name, params.as_slice(), ty, body, members.as_slice(), out)
        }
        DeclNode::Predicate(name, params, body, members) => {
            push_predicate(name, params.as_slice(), body, members.as_slice(), out)
        }
        DeclNode::Constant(name, ty, body) => push_constant(name, ty, body, out),
        DeclNode::Inductive(of) => {
            out.push(Terminal::InductiveWord);
            push_inductives(of.as_slice(), out)
        }
        DeclNode::Prop(kind, name, prop) => push_prop(*kind, name, prop, out),
        DeclNode::UseTheory(link, path, name) => push_use(*link, path, name, out),
        DeclNode::CloneTheory(link, path, name, elements) => {
            push_clone(*link, path, name, elements.as_slice(), out)
        }
        DeclNode::ScopeDecl(_, of) => {
            out.push(Terminal::ScopeWord);
            out.push(Terminal::Uident);
            push_decls(of.as_slice(), out);
            push_terminal(Terminal::EndWord, out)
        }
    }
}

#[cycle(declaration_writing)]
fn push_decls(of: &[DeclTree], out: &mut Written)
    ensures { Puts out.old out.new (terminals
        (write_decls (decls (map decl_of of.now)))) }
{
    for decl in of {
        push_decl(decl, out);
    }
}

fn push_theory(theory: &TheoryTree, out: &mut Written)
    ensures { Puts out.old out.new (terminals
        (write_theory (theory_of theory.now))) }
{
    out.push(heading_terminal(theory.module));
    out.push(Terminal::Uident);
    push_decls(theory.decls.as_slice(), out);
    push_terminal(Terminal::EndWord, out)
}

fn push_theories(of: &[TheoryTree], out: &mut Written)
    ensures { Puts out.old out.new (terminals
        (write_file (map theory_of of.now))) }
{
    for theory in of {
        push_theory(theory, out);
    }
}
