// The transformations that the words of a driver name.
// They depend on the transformations; the list of a driver's stages depends on them.
ghost use Rattle.std.specs.Prelude.{◌≡◌};
ghost use Rattle.stages.specs.transformations.Words.{transformation_of};

use crate::transformations::transformation::Transformation;
use drivers::driver_items::Trans;
use tr_algebraic::AlgebraicTypes;
use tr_define::{Definitions, InductiveGroups};
use tr_discriminate::Discriminate;
use tr_if::Conditionals;
use tr_inline::{Inline, InlineMode};
use tr_introduce::Introduce;
use tr_let::Lets;
use tr_match::Matches;
use tr_recursion::Recursion;
use tr_simplify::SimplifiedFormulas;
use tr_split::Split;

/// The transformation that a word names.
pub fn transformation_of(name: Trans) -> Transformation
    ensures { result ≡ transformation_of name }
{
    match name {
        Trans::SplitGoalRight => Transformation::Split(Split),
        Trans::IntroducePremises => Transformation::Introduce(Introduce),
        Trans::EliminateDefinition => Transformation::Definitions(Definitions),
        Trans::EliminateInductive => Transformation::InductiveGroups(InductiveGroups),
        Trans::InlineAll => Transformation::Inline(Inline {
            mode: InlineMode::All,
        }),
        Trans::InlineGoal => Transformation::Inline(Inline {
            mode: InlineMode::Goal,
        }),
        Trans::InlineTrivial => Transformation::Inline(Inline {
            mode: InlineMode::Trivial,
        }),
        Trans::EliminateLet => Transformation::Lets(Lets),
        Trans::EliminateMatch => Transformation::Matches(Matches),
        Trans::EliminateIf => Transformation::Conditionals(Conditionals),
        Trans::SimplifyFormula => Transformation::SimplifiedFormulas(SimplifiedFormulas),
        Trans::Discriminate => Transformation::Discriminate(Discriminate),
        Trans::EliminateRecursion => Transformation::Recursion(Recursion),
        Trans::EliminateAlgebraic => Transformation::AlgebraicTypes(AlgebraicTypes),
    }
}
