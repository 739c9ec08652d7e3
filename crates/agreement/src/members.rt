// Applications of one symbol: the questions for their arguments, place by place, and evidence from evidence for them.
ghost use Rattle.std.specs.Prelude.{◌≡◌, ◌<◌, List, IfOk};
ghost use Rattle.trees.specs.Tree.{Tree};
ghost use Rattle.trees.specs.Node.{tree_at, trees_at, Holds};
ghost use Rattle.images.specs.Templates.{listed};
ghost use Rattle.evidence.specs.Drafts.{Extends};
ghost use Rattle.congruence.specs.Alike.{ArePair, Shows};
ghost use Rattle.congruence.specs.Applications.{applied, IsSymbolHeld};
ghost use Rattle.agreement.specs.Agreement.{ArePaired, ArePartsOf};
ghost use Rattle.agreement.specs.Questions.{
  IsAsked,
  AreQuestions,
  AreLists,
  AddsQuestions,
  CanReplace,
  HasLinkedParts,
};

use crate::questions::{Link, Question};
use congruence::{
    AlikeBy, Replaced, SymbolAt, arguments_of, cells_of, chain, member_parts, replace_argument,
};
use evidence::Draft;
use std::alloc::AllocError;
use trees::TermId;

// Adds the questions for the members of two lists.
fn push_members(
    draft: &Draft,
    q: Question,
    list: TermId,
    other: TermId,
    questions: &mut Vec<Question>,
) -> Result<(), AllocError>
    requires lists { AreLists draft.now q list other }
    ensures adds { IfOk result (λ _. AddsQuestions draft.now q questions.old.items
        questions.new.items
        (ArePaired (tree_at draft.now.trees list) (tree_at draft.now.trees other))) }
{
    match cells_of(draft, list) {
        Some(one) => {
            let two = member_parts(draft, other);
            questions.push(Question {
                left: one.first,
                right: two.first,
                number: q.number,
            })?;
            push_members(draft, q, one.others, two.others, questions)
        }
        None => Ok(()),
    }
}

/// Of two applications of one symbol.
pub(crate) fn symbol_parts(
    draft: &Draft,
    q: Question,
    symbol: SymbolAt,
    arguments: TermId,
) -> Result<Vec<Question>, AllocError>
    requires asked { IsAsked draft.now q }
    requires left { tree_at draft.now.trees q.left
        ≡ applied draft.now.trees symbol (tree_at draft.now.trees arguments) }
    requires below { arguments.0 < q.left.0 }
    requires parts { (ps : List (Tree × Tree)) × ArePartsOf draft.now.task q.number
        (tree_at draft.now.trees q.left) (tree_at draft.now.trees q.right) ps }
    ensures parts { IfOk result (λ v. AreQuestions draft.now q v.items) }
{
    let other = arguments_of(draft, symbol, q.right);
    let mut made = Vec::new(draft.allocator());
    push_members(draft, q, arguments, other, &mut made)?;
    Ok(made)
}

// An application with the terms after the first ones replaced by those of another list.
fn replace_members(
    draft: &mut Draft,
    symbol: SymbolAt,
    before: &mut Vec<TermId>,
    left: TermId,
    list: TermId,
    other: TermId,
    links: &[Link],
) -> Result<Replaced, AllocError>
    requires can { CanReplace draft.old symbol before.old.items left list other links.now }
    ensures pair { IfOk result (λ m. ArePair draft.new left m.right) }
    ensures right_is { IfOk result (λ m. tree_at draft.new.trees m.right
        ≡ applied draft.old.trees symbol (listed (trees_at draft.old.trees before.old.items)
        (tree_at draft.old.trees other))) }
    ensures shows { IfOk result (λ m. Shows draft.new m.alike (tree_at draft.old.trees left)
        (tree_at draft.new.trees m.right)) }
    ensures grows { Extends draft.old draft.new }
{
    match links.split_first() {
        Some((link, others)) => {
            let one = member_parts(draft, list);
            let two = member_parts(draft, other);
            let made = replace_argument(
                draft, symbol, before, left, link.left, link.right, one.others, link.alike,
            )?;
            before.push(link.right)?;
            let more = replace_members(
                draft, symbol, before, made.right, one.others, two.others, others,
            )?;
            let alike = chain(draft, left, made.right, more.right, made.alike, more.alike)?;
            Ok(Replaced {
                right: more.right,
                alike,
            })
        }
        None => Ok(Replaced {
            right: left,
            alike: AlikeBy::Same,
        }),
    }
}

/// For two applications of one symbol.
pub(crate) fn answer_symbol(
    draft: &mut Draft,
    q: Question,
    symbol: SymbolAt,
    arguments: TermId,
    links: &[Link],
) -> Result<AlikeBy, AllocError>
    requires linked { HasLinkedParts draft.old q links.now }
    requires symbol_held { IsSymbolHeld draft.old.trees symbol }
    requires arguments_held { Holds draft.old.trees arguments }
    requires left { tree_at draft.old.trees q.left
        ≡ applied draft.old.trees symbol (tree_at draft.old.trees arguments) }
    ensures shows { IfOk result (λ w. Shows draft.new w (tree_at draft.old.trees q.left)
        (tree_at draft.old.trees q.right)) }
    ensures grows { Extends draft.old draft.new }
{
    let other = arguments_of(draft, symbol, q.right);
    let mut before = Vec::new(draft.allocator());
    let made = replace_members(draft, symbol, &mut before, q.left, arguments, other, links)?;
    Ok(made.alike)
}
