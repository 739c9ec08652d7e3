// The table of rules: whether a rule's row holds.
// It depends on the rows; the checker of a step depends on it.
ghost use Rattle.std.specs.Prelude.{◌↔◌, IsTrue};
ghost use Rattle.rules.specs.Trees.{rule_trees};
ghost use Rattle.rules.specs.Meaning.{task_of, rule_at, RuleHeld, TriedHeld, RowOf};
ghost use Rattle.kernel.specs.Open.{EachClosed, TemplateIsOpen};

use rules::fact_rules::{bound, clause, def, fact, inv, linear, trichotomy};
use rules::term_rules::{case, distinct, inject, match_def, project};
use rules::{
    Rule, Tried, at_new, at_term, clash, connective_fails, connective_holds, cut,
    existential_parts, formula_at, if_def, irrefl, is_false, keep, let_def, negated_formula,
    not_not, not_true, refl, replace, universal_parts,
};
use trees::Op;

// Whether the row of a rule holds.
pub(crate) fn row_holds<'a>(x: &'a Tried<'a>, rule: &'a Rule) -> bool
    requires tried { TriedHeld x.now }
    requires held { RuleHeld x.now.store.now rule.now }
    requires closed { EachClosed (rule_trees (rule_at x.now.store.now rule.now)) }
    requires template { TemplateIsOpen (task_of x.now) (rule_at x.now.store.now rule.now) }
    ensures { IsTrue result ↔ RowOf x.now (rule_at x.now.store.now rule.now) }
{
    match rule {
        Rule::False(i) => is_false(x, *i),
        Rule::NotTrue(i) => not_true(x, *i),
        Rule::Clash(i, j) => clash(x, *i, *j),
        Rule::Irrefl(i) => irrefl(x, *i),
        Rule::Distinct(i) => distinct(x, *i),
        Rule::Linear(uses) => linear(x, uses.as_slice()),
        Rule::NotNot(i) => not_not(x, *i),
        Rule::And(i) => connective_holds(x, Op::And, formula_at(x, *i)),
        Rule::NotAnd(i) => connective_fails(
            x,
            Op::And,
            negated_formula(x.store, formula_at(x, *i)),
        ),
        Rule::AndThen(i) => connective_holds(x, Op::AndThen, formula_at(x, *i)),
        Rule::NotAndThen(i) => connective_fails(
            x,
            Op::AndThen,
            negated_formula(x.store, formula_at(x, *i)),
        ),
        Rule::Or(i) => connective_holds(x, Op::Or, formula_at(x, *i)),
        Rule::NotOr(i) => connective_fails(x, Op::Or, negated_formula(x.store, formula_at(x, *i))),
        Rule::OrElse(i) => connective_holds(x, Op::OrElse, formula_at(x, *i)),
        Rule::NotOrElse(i) => connective_fails(
            x,
            Op::OrElse,
            negated_formula(x.store, formula_at(x, *i)),
        ),
        Rule::Imp(i) => connective_holds(x, Op::Imp, formula_at(x, *i)),
        Rule::NotImp(i) => connective_fails(
            x,
            Op::Imp,
            negated_formula(x.store, formula_at(x, *i)),
        ),
        Rule::Iff(i) => connective_holds(x, Op::Iff, formula_at(x, *i)),
        Rule::NotIff(i) => connective_fails(
            x,
            Op::Iff,
            negated_formula(x.store, formula_at(x, *i)),
        ),
        Rule::Forall(i, t) => at_term(x, universal_parts(x.store, formula_at(x, *i)), *t, true),
        Rule::NotForall(i, n) => at_new(
            x,
            universal_parts(x.store, negated_formula(x.store, formula_at(x, *i))),
            *n,
            false,
        ),
        Rule::Exists(i, n) => at_new(x, existential_parts(x.store, formula_at(x, *i)), *n, true),
        Rule::NotExists(i, t) => at_term(
            x,
            existential_parts(x.store, negated_formula(x.store, formula_at(x, *i))),
            *t,
            false,
        ),
        Rule::Cut(a) => cut(x, *a),
        Rule::Keep(places) => keep(x, places.as_slice()),
        Rule::Refl(t) => refl(x, *t),
        Rule::Replace(i, j, e) => replace(x, *i, *j, *e),
        Rule::LetDef(e) => let_def(x, *e),
        Rule::IfDef(e) => if_def(x, *e),
        Rule::MatchDef(e) => match_def(x, *e),
        Rule::Fact(k, types) => fact(x, *k, types.as_slice()),
        Rule::Def(k, types) => def(x, *k, types.as_slice()),
        Rule::Clause(k, c, types) => clause(x, *k, *c, types.as_slice()),
        Rule::Inv(k, types) => inv(x, *k, types.as_slice()),
        Rule::Case(t) => case(x, *t),
        Rule::Inject(i) => inject(x, *i),
        Rule::Project(e) => project(x, *e),
        Rule::Trichotomy(a, b) => trichotomy(x, *a, *b),
        Rule::Bound(t, n) => bound(x, *t, *n),
    }
}
