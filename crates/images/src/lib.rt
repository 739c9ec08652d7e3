//! Images of trees under a rule for nodes, and their types; open trees at types and at environments of closed terms,
//! open terms put into open trees, templates and patterns at environments; the terms that stand for a pattern's
//! variables.
//!
//! Contract: definitions and laws; exactly the image, and an open tree at types and closed terms.
#![tactic(auto)]

ghost use Rattle.std.specs.Prelude.{◌≡◌, IfOk};
ghost use Rattle.trees.specs.Node.{tree_at, trees_at, Holds};
ghost use Rattle.trees.specs.Binding.{inst_many, inst_types, AreClosed};
ghost use Rattle.trees.specs.binders.Visits.{HoldTerms, HoldTypes};
ghost use Rattle.images.specs.Laws.{
  ImagesKeepTyping,
  TypesAreImages,
  OpenTreesClose,
  BodiesAreAt,
  TemplatesFill,
  NodesFill,
  NodesStayTyped,
  OneStaysTyped,
  ManyStayTyped,
  TestsAreAt,
  BindsAreAt,
};
ghost use Rattle.images.specs.Instances.{
  InstancesCompose,
  QuantifiersOpen,
  LoweredAreAt,
  ImagesAreAtTypes,
  TestsAreAtTypes,
  BindsAreAtTypes,
  IsInstanceAtTypes,
};
ghost use Rattle.images.specs.PatternTerms.{
  MatchesAreTyped,
  ClosedMatchesAreFor,
  MatchesHaveParts,
  ConstructorsHaveResults,
  TypesHaveResults,
};

use std::alloc::{AllocError, Global};
use trees::TermId;
use trees::binders::{inst_many, inst_types};
use trees::store::Grow;

/// An open tree at types, put in for its type variables, and then at closed terms, put in for its
/// open variables, the last one for the variable 0. Where the tree is typed in a valid task, and the
/// types and terms are of it, what is made is closed, typed and ground, and has parameters below the
/// same number. Only want of memory refuses.
pub fn instance_at<G: Grow>(
    alloc: Global,
    g: &mut G,
    e: TermId,
    types: &[TermId],
    env: &[TermId],
) -> Result<TermId, AllocError>
    requires held { Holds (G.trees g.old) e }
    requires types { HoldTypes (G.trees g.old) types.now }
    requires env { HoldTerms (G.trees g.old) env.now }
    requires closed { AreClosed (trees_at (G.trees g.old) env.now) }
    ensures held { IfOk result (Holds (G.trees g.new)) }
    ensures tree { IfOk result (λ id. tree_at (G.trees g.new) id
        ≡ inst_many (inst_types (tree_at (G.trees g.old) e) (trees_at (G.trees g.old) types.now))
        (trees_at (G.trees g.old) env.now)) }
    ensures keeps { IfOk result (λ id. IsInstanceAtTypes (trees_at (G.trees g.old) types.now)
        (trees_at (G.trees g.old) env.now) (tree_at (G.trees g.old) e)
        (tree_at (G.trees g.new) id)) }
    ensures grows { G.grows g.old g.new }
{
    g.store().laws();
    let at_types = inst_types(alloc, g, e, types)?;
    let made = inst_many(alloc, g, at_types, env)?;
    Ok(made)
}

/// The law of images, for readers to cite: where a rule keeps, at one node, what typing sees of a
/// tree (its sort and type, that it is typed under the same binders, and no new type variable or
/// parameter), the image of a typed tree under it does, as far as each stage of the image is well
/// sorted; and types are their own images. It does nothing when it runs.
pub fn law_of_images()
    ensures keeps { ImagesKeepTyping }
    ensures types { TypesAreImages }
{}

/// The laws of open trees at environments: a typed open tree is closed, typed and ground there, and
/// the body of a binder is at the environment with one term more. It does nothing when it runs.
pub fn law_of_environments()
    ensures closed { OpenTreesClose }
    ensures bodies { BodiesAreAt }
{}

/// The laws of templates: an open tree at closed terms, with the variable 0 in the place of one of
/// them, is the tree at all terms once that term is put in; the same of each node with a term in it,
/// and such a node is typed with the variable there. It does nothing when it runs.
pub fn law_of_templates()
    ensures fill { TemplatesFill }
    ensures nodes { NodesFill }
    ensures typed { NodesStayTyped }
{}

/// The laws of open terms that are put into open trees: the tree keeps its sort and type, it is
/// typed where it is well sorted, and with one term it has the type variables and parameters of both
/// alone. It does nothing when it runs.
pub fn law_of_open_terms()
    ensures one { OneStaysTyped }
    ensures many { ManyStayTyped }
{}

/// The laws of patterns: a pattern's test, and the terms for its variables, asked of a term at an
/// environment are those of the open term, at the environment; and so at types put in for type
/// variables, of a typed pattern in a valid task. It does nothing when it runs.
pub fn law_of_patterns()
    ensures tests { TestsAreAt }
    ensures terms { BindsAreAt }
    ensures tests_at_types { TestsAreAtTypes }
    ensures terms_at_types { BindsAreAtTypes }
{}

/// The laws of what a pattern's test and the terms for its variables are, of a valid task: where the pattern is typed and the term
/// has its type, the test is a typed formula and the terms are of the variables' types; they have the type variables of both, and
/// the parameters of the term alone. It does nothing when it runs.
pub fn law_of_pattern_terms()
    ensures typed { MatchesAreTyped }
    ensures closed { ClosedMatchesAreFor }
    ensures parts { MatchesHaveParts }
{}

/// The laws of constructors of a valid task: a constructor and its projections have closed types for results, by the constructor's
/// own role and by that of its type. It does nothing when it runs.
pub fn law_of_constructors()
    ensures results { ConstructorsHaveResults }
    ensures of_types { TypesHaveResults }
{}

/// The laws of instances one after another: open terms put in for all open variables and then closed
/// ones are the terms at the closed ones, put in; quantifiers at closed terms, one after another, are
/// the body at all of them; what is put in for a variable that isn't there makes no difference; and
/// the image of a tree at types is the tree's image at them, for a rule that commutes with them. It
/// does nothing when it runs.
pub fn law_of_instances()
    ensures compose { InstancesCompose }
    ensures quantifiers { QuantifiersOpen }
    ensures lowered { LoweredAreAt }
    ensures images { ImagesAreAtTypes }
{}

pub mod image_trees;
pub mod match_terms;
pub mod typing_laws;
