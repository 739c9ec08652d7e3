// The `if` form of a `match`: its branches' bodies at the terms for their patterns' variables, under the patterns' tests; the rule
// that makes each `match` of a tree its form, with laws of it at a node.
//
// Contract: exactly the form of the definition, made in whatever grows by trees; laws.

ghost use Rattle.tr_match.specs.match_forms.Laws.{
  MatchRuleKeepsTyping,
  MatchRuleAtTypes,
  MatchRuleAtTerms,
};

mod forms;

pub use forms::match_node;

/// The laws of the rule that makes `match`es their `if` forms: it keeps typing at each node, commutes with types
/// that are put in, and with closed terms. It does nothing when it runs.
pub fn law_of_match_forms()
    ensures typing { MatchRuleKeepsTyping }
    ensures types { MatchRuleAtTypes }
    ensures terms { MatchRuleAtTerms }
{}
