// Propositions: axioms, lemmas and goals.
// They depend on the solution of type equations, on entries and names; elaboration depends on them.
ghost use Rattle.std.specs.Prelude.{◌≡◌, ◌++◌, ◌∷◌, [], List, length, map, true, None, All, IfOk, IfErr, OnOk};
ghost use Rattle.tasks.specs.trees.Tree.{Tree};
ghost use Rattle.tasks.specs.trees.Node.{tree_at, Holds, Grows};
ghost use Rattle.tasks.specs.Task.{Says};
ghost use Rattle.tasks.specs.Rigid.{rigid_symbol};
ghost use Rattle.tasks.specs.Meaning.{symbols_at, declarations_at, trees_at, DeclHeld};
ghost use Rattle.name_resolution.specs.Abstract.{expression_of};
ghost use Rattle.name_resolution.specs.Faults.{fault};
ghost use Rattle.name_resolution.specs.Naming.{Tells, scope_at};
ghost use Rattle.elab_groups.specs.name_resolution.variables.Entered.{seen_at};
ghost use Rattle.surface.specs.SurfaceDeclarations.{plain_name};
ghost use Rattle.elab_groups.specs.open_types.Drafts.{HoldsType, MatchHeld, match_at};
ghost use Rattle.elab_groups.specs.parts.Elaborated.{IsSolved, IsTypingFault};
ghost use Rattle.elab_groups.specs.parts.Values.{FormulaHeld};
ghost use Rattle.elab_groups.specs.parts.Declarations.{symbol, proposition_declaration};
ghost use Rattle.elab_groups.specs.parts.Entries.{wanting_tuples, IsSignature, IsExtended, AreScopes};
ghost use Rattle.elab_groups.specs.parts.Outcomes.{over, setting, IsKept};
ghost use Rattle.elab_declarations.specs.Outcomes.{proposition_seen, proposition_piece, rigid_names, entry_numbers, rigid_types, said_as, schematic, solved_piece, IsTypedProposition, IsElaborated, IsRefusal};

use elab_groups::parts::{
    ElabFault, Elaborated, Formula, Place, Seen, TypingFault, declare, enter_variables, inst_types,
    join_words, naming_fault, push_entry, push_tuples, solve_formula, typing_fault, world_over,
};
use name_resolution::{Names, NamingFault, Scope, Table, TypeName, check, own_name};
use std::alloc::{AllocError, Global};
use surface::{Expr, Name, PropKind, Style};
use tasks::{Body, Decl, Grow, Node, Seq, Signature, Store, SymbolInfo, TermId, Text};

// The first fault of a proposition's names.
fn check_formula(alloc: Global, sig: &Signature, scope: &Scope, e: &Expr) -> Result<(), NamingFault>
    ensures { (s : List Tree) → Tells result (fault (over (symbols_at s sig.now.symbols)
        (scope_at s scope.now) []) true [] true (expression_of e.now)) }
{
    let world = world_over(sig, scope, &[], true);
    check(alloc, e, &world, &Names::Outside, true)
}

// The entries of the rigid type variables of these names, and their numbers after those that are there.
fn push_rigid(
    alloc: Global,
    store: &Store,
    sig: &mut Signature,
    numbers: &mut Vec<usize>,
    vars: &[Text],
) -> Result<(), AllocError>
    requires { IsSignature store.now sig.old.symbols }
    ensures entries { OnOk result (IsExtended store.now sig.old store.now sig.new
        (map rigid_symbol vars.now)) }
    ensures numbers { OnOk result (numbers.new.items ≡ numbers.old.items ++ entry_numbers
        (length sig.old.symbols) vars.now) }
{
    let Some((first, rest)) = vars.split_first() else {
        return Ok(());
    };
    let number = sig.symbols.len();
    let info = SymbolInfo::of_variable(alloc, first.as_slice())?;
    push_entry(store, sig, info)?;
    numbers.push(number)?;
    push_rigid(alloc, store, sig, numbers, rest)
}

// The rigid types of these entries, after those that are there.
fn push_rigid_types(
    store: &mut Store,
    types: &mut Vec<TermId>,
    numbers: &[usize],
) -> Result<(), AllocError>
    requires { All (HoldsType store.old) types.old.items }
    ensures held { OnOk result (All (HoldsType store.new) types.new.items) }
    ensures trees { OnOk result (trees_at store.new types.new.items ≡ trees_at store.old
        types.old.items ++ rigid_types numbers.now) }
    ensures grows { Grows store.old store.new }
{
    let Some((first, rest)) = numbers.split_first() else {
        return Ok(());
    };
    let ty = store.add(Node::TyRigid(*first))?;
    types.push(ty)?;
    push_rigid_types(store, types, rest)
}

// The type variables of a proposition that get entries.
fn rigid_vars(kind: PropKind, vars: &[Text]) -> &[Text]
    ensures { result.now ≡ rigid_names kind vars.now }
{
    match kind {
        PropKind::Axiom => &[],
        PropKind::Lemma => vars,
        PropKind::Goal => vars,
    }
}

/// What a proposition says: of a goal, at its rigid types. Only want of memory refuses.
pub fn say(
    alloc: Global,
    store: &mut Store,
    kind: PropKind,
    numbers: &[usize],
    formula: TermId,
) -> Result<TermId, AllocError>
    requires { Holds store.old formula }
    ensures held { IfOk result (Holds store.new) }
    ensures tree { IfOk result (λ id. tree_at store.new id ≡ said_as kind numbers.now
        (tree_at store.old formula)) }
    ensures grows { Grows store.old store.new }
{
    match kind {
        PropKind::Goal => {
            let mut types = Vec::new(alloc);
            push_rigid_types(store, &mut types, numbers)?;
            inst_types(alloc, store, formula, types.as_slice())
        }
        PropKind::Axiom => Ok(formula),
        PropKind::Lemma => Ok(formula),
    }
}

// The number of type variables of a proposition that stay schematic.
fn count_schematic(kind: PropKind, vars: &[Text]) -> usize
    ensures { result ≡ schematic kind vars.now }
{
    match kind {
        PropKind::Goal => 0,
        PropKind::Axiom => vars.len(),
        PropKind::Lemma => vars.len(),
    }
}

// The formula of a proposition whose names are there, with the entries of its tuples.
fn solve_proposition(
    alloc: Global,
    store: &mut Store,
    sig: &mut Signature,
    scope: &Scope,
    seen: &Seen,
    e: &Expr,
) -> Result<Formula, TypingFault>
    requires signature { IsSignature store.old sig.old.symbols }
    requires scopes { AreScopes store.old (length sig.old.symbols) scope.now }
    requires seen { seen_at seen.now ≡ proposition_seen (expression_of e.now) }
    requires resolved { fault (over (symbols_at store.old sig.old.symbols)
        (scope_at store.old scope.now) []) true [] true (expression_of e.now) ≡ None }
    ensures entries { OnOk result (IsExtended store.old sig.old store.new sig.new
        (wanting_tuples (symbols_at store.old sig.old.symbols) seen.now.widths)) }
    ensures held { IfOk result (FormulaHeld store.new) }
    ensures ok { IfOk result (λ it. IsSolved (length seen.now.vars)
        (solved_piece store.old sig.old scope.now seen.now (expression_of e.now))
        (tree_at store.new it.tree) (map (match_at store.new) it.matches)) }
    ensures err { IfErr result (IsTypingFault (length seen.now.vars)
        (solved_piece store.old sig.old scope.now seen.now (expression_of e.now)).notes) }
    ensures grows { Grows store.old store.new }
{
    push_tuples(alloc, store, sig, seen.widths.as_slice())?;
    let world = world_over(sig, scope, seen.vars.as_slice(), false);
    solve_formula(alloc, store, &world, e)
}

// The declaration of a proposition with its formula, and the entries of its rigid type variables.
fn make_proposition(
    alloc: Global,
    store: &mut Store,
    sig: &mut Signature,
    place: &Place<'_>,
    kind: PropKind,
    name: &[u8],
    vars: &[Text],
    it: Formula,
) -> Result<Elaborated, AllocError>
    requires signature { IsSignature store.old sig.old.symbols }
    requires held { FormulaHeld store.old it }
    ensures entries { OnOk result (IsExtended store.old sig.old store.new sig.new
        (map rigid_symbol (rigid_names kind vars.now))) }
    ensures rigid { IfOk result (λ made. made.rigid ≡ entry_numbers (length sig.old.symbols)
        (rigid_names kind vars.now)) }
    ensures decls { IfOk result (λ made. declarations_at store.new made.decls ≡ record {
      theory = place.now.theory.now;
      name = place.now.within.now ++ name.now;
      vars = schematic
          kind vars.now;
      body = Says (said_as kind made.rigid (tree_at store.old it.tree));
    } ∷ []) }
    ensures matches { IfOk result (λ made. map (match_at store.new) made.matches ≡ map
        (match_at store.old) it.matches) }
    ensures decls_held { IfOk result (λ made. All (DeclHeld store.new) made.decls) }
    ensures matches_held { IfOk result (λ made. All (MatchHeld store.new) made.matches) }
    ensures grows { Grows store.old store.new }
{
    let mut rigid = Vec::new(alloc);
    push_rigid(alloc, store, sig, &mut rigid, rigid_vars(kind, vars))?;
    let said = say(alloc, store, kind, rigid.as_slice(), it.tree)?;
    let mut decls = Seq::new(alloc);
    decls.push(Decl {
        theory: Text::from_slice(alloc, place.theory)?,
        name: join_words(alloc, place.within, name)?,
        vars: count_schematic(kind, vars),
        body: Body::Prop(said),
    })?;
    Ok(Elaborated {
        decls,
        rigid: Seq::from_vec(rigid),
        matches: it.matches,
    })
}

// A proposition whose names are there.
fn type_proposition(
    alloc: Global,
    store: &mut Store,
    sig: &mut Signature,
    scope: &Scope,
    place: &Place<'_>,
    kind: PropKind,
    name: &[u8],
    e: &Expr,
) -> Result<Elaborated, TypingFault>
    requires signature { IsSignature store.old sig.old.symbols }
    requires scopes { AreScopes store.old (length sig.old.symbols) scope.now }
    requires resolved { fault (over (symbols_at store.old sig.old.symbols)
        (scope_at store.old scope.now) []) true [] true (expression_of e.now) ≡ None }
    ensures ok { IfOk result (IsTypedProposition place.now store.old sig.old scope.now kind name.now
        (expression_of e.now) store.new sig.new) }
    ensures err { IfErr result (IsTypingFault (length (proposition_seen (expression_of e.now)).vars)
        (proposition_piece (setting place.now store.old sig.old scope.now)
        (expression_of e.now)).notes) }
    ensures grows { Grows store.old store.new }
{
    let mut seen = Seen {
        vars: Seq::new(alloc),
        widths: Seq::new(alloc),
    };
    enter_variables(alloc, &mut seen, e)?;
    let it = solve_proposition(alloc, store, sig, scope, &seen, e)?;
    let vars = seen.vars.as_slice();
    let made = make_proposition(alloc, store, sig, place, kind, name, vars, it)?;
    Ok(made)
}

/// An axiom, a lemma or a goal. A goal has rigid types for its type variables; those of an axiom and of a lemma stay schematic.
pub fn elaborate_proposition(
    alloc: Global,
    store: &mut Store,
    sig: &mut Signature,
    scope: &mut Scope,
    place: &Place<'_>,
    kind: PropKind,
    name: &Name,
    e: &Expr,
) -> Result<Elaborated, ElabFault>
    requires signature { IsSignature store.old sig.old.symbols }
    requires scopes { AreScopes store.old (length sig.old.symbols) scope.old }
    ensures ok { IfOk result (IsElaborated (setting place.now store.old sig.old scope.old)
        (proposition_declaration kind (symbol (plain_name name.now)) (expression_of e.now)) sig.old
        store.new
        sig.new scope.new) }
    ensures kept { IfOk result (IsKept store.new sig.new scope.new) }
    ensures err { IfErr result (IsRefusal (setting place.now store.old sig.old scope.old)
        (proposition_declaration kind (symbol (plain_name name.now)) (expression_of e.now))) }
    ensures grows { Grows store.old store.new }
{
    let own = own_name(alloc, Style::Plain, name.text.as_slice())?;
    let thing = TypeName::Entry(place.decl);
    match declare(scope, Table::Propositions, own.as_slice(), thing, name.at) {
        Ok(()) => match check_formula(alloc, sig, scope, e) {
            Ok(()) => {
                match type_proposition(alloc, store, sig, scope, place, kind, own.as_slice(), e) {
                    Ok(made) => Ok(made),
                    Err(fault) => Err(typing_fault(place.decl, fault)),
                }
            }
            Err(fault) => Err(naming_fault(place.decl, fault)),
        },
        Err(fault) => Err(naming_fault(place.decl, fault)),
    }
}
