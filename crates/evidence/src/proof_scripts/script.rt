// Steps by the lines of a script.
ghost use Rattle.std.specs.Prelude.{◌≡◌, ◌+◌, ◌++◌, [], ◌∷◌, map, IfOk};
ghost use Rattle.tasks.specs.Meaning.{trees_at};
ghost use Rattle.evidence.specs.Drafts.{Extends, Refutes, AreFormulas, RefutesAt};
ghost use Rattle.evidence.specs.proof_scripts.Scripts.{word_rule, WordHeld, sequents_under, lines_at, LinesHeld, IsByRule, IsGiven, places_of, PlacesFit, Follows, CanFollow};
ghost use Rattle.evidence.specs.proof_scripts.Words.{rule_past, WordFits};
ghost use Rattle.evidence.specs.proof_scripts.Derived.{AreAdded, all_added, IsByLines, IsByRuleAndLines, AreByLines};

use crate::proof_scripts::line::{Formulas, Line, Places, Word, premises_of, rule_of, tail_with};
use crate::proof_scripts::opening::open_line;
use crate::{Draft, by_rule, join_lists, keep_but};
use std::alloc::{AllocError, Global};
use trees::TermId;

// A step, and how many lines it took.
#[derive(Clone, Copy)]
pub(crate) struct Derived {
    step: usize,
    used: usize,
}

// By an earlier step that refutes the front and so many formulas at the end of the tail.
fn by_given(
    draft: &mut Draft,
    front: &[TermId],
    tail: &[TermId],
    step: usize,
    count: usize,
) -> Result<usize, AllocError>
    requires front { AreFormulas draft.old front.now }
    requires tail { AreFormulas draft.old tail.now }
    requires given { IsGiven draft.old (trees_at draft.old.trees front.now)
        (trees_at draft.old.trees tail.now) step count }
    ensures refutes { IfOk result (λ k. Refutes draft.new k
        (trees_at draft.old.trees front.now ++ trees_at draft.old.trees tail.now)) }
    ensures grows { Extends draft.old draft.new }
{
    let (before, last) = tail.split_at(tail.len() - count);
    keep_but(draft, front, before, last, step)
}

// Places of a tail, where there are so many formulas before it.
fn places_after(alloc: Global, before: usize, places: Places) -> Result<Vec<usize>, AllocError>
    requires { PlacesFit before places }
    ensures { IfOk result (λ v. v.items ≡ map (λ i. before + i) (places_of places)) }
{
    match places {
        Places::One(i) => Vec::from_slice(alloc, &[before + i]),
        Places::Two(i, j) => Vec::from_slice(alloc, &[before + i, before + j]),
        Places::Three(i, j, k) => { Vec::from_slice(alloc, &[before + i, before + j, before + k]) }
    }
}

// By an earlier step that refutes the formulas at these places of the tail.
fn by_kept(
    draft: &mut Draft,
    front: &[TermId],
    tail: &[TermId],
    step: usize,
    places: Places,
) -> Result<usize, AllocError>
    requires front { AreFormulas draft.old front.now }
    requires tail { AreFormulas draft.old tail.now }
    requires kept { RefutesAt draft.old
        (trees_at draft.old.trees tail.now) (places_of places) step }
    ensures refutes { IfOk result (λ k. Refutes draft.new k
        (trees_at draft.old.trees front.now ++ trees_at draft.old.trees tail.now)) }
    ensures grows { Extends draft.old draft.new }
{
    let alloc = draft.allocator();
    let places = places_after(alloc, front.len(), places)?;
    let sequent = join_lists(alloc, front, tail)?;
    draft.keep(&sequent, &places, step)
}

// A step for the front and the tail by the first lines.
#[cycle(walk)]
fn walk(
    draft: &mut Draft,
    front: &[TermId],
    tail: &[TermId],
    lines: &[Line],
) -> Result<Derived, AllocError>
    requires front { AreFormulas draft.old front.now }
    requires tail { AreFormulas draft.old tail.now }
    requires lines { LinesHeld draft.old lines.now }
    requires follow { CanFollow draft.old (trees_at draft.old.trees front.now)
        (lines_at draft.old.trees lines.now) (trees_at draft.old.trees tail.now ∷ []) }
    ensures derived { IfOk result (λ r. IsByLines draft.new (trees_at draft.old.trees front.now)
        (trees_at draft.old.trees tail.now) (lines_at draft.old.trees lines.now) r) }
    ensures grows { Extends draft.old draft.new }
{
    match lines.split_first() {
        Some((line, rest)) => match line {
            Line::Given(step, count) => {
                let made = by_given(draft, front, tail, *step, *count)?;
                Ok(Derived {
                    step: made,
                    used: 1,
                })
            }
            Line::Kept(step, places) => {
                let made = by_kept(draft, front, tail, *step, *places)?;
                Ok(Derived {
                    step: made,
                    used: 1,
                })
            }
            _ => {
                let opened = open_line(draft, front, tail, *line)?;
                let added = premises_of(draft.allocator(), opened.sides)?;
                by_word(draft, front, tail, opened.before, opened.word, &added, rest)
            }
        },
        None => unreachable!(),
    }
}

// The same by a rule, over the lines after it: what each premise adds is refuted by the first of these.
#[cycle(walk)]
fn by_word(
    draft: &mut Draft,
    front: &[TermId],
    tail: &[TermId],
    before: usize,
    word: Word,
    added: &[Formulas],
    lines: &[Line],
) -> Result<Derived, AllocError>
    requires front { AreFormulas draft.old front.now }
    requires tail { AreFormulas draft.old tail.now }
    requires word { WordHeld draft.old.trees word }
    requires fits { WordFits before word }
    requires added { AreAdded draft.old added.now }
    requires lines { LinesHeld draft.old lines.now }
    requires rule { IsByRule draft.old.task
        (trees_at draft.old.trees front.now ++ trees_at draft.old.trees tail.now)
        (rule_past before (word_rule draft.old.trees word))
        (all_added draft.old.trees added.now) }
    requires follow { CanFollow draft.old (trees_at draft.old.trees front.now)
        (lines_at draft.old.trees lines.now)
        (sequents_under (trees_at draft.old.trees tail.now)
        (all_added draft.old.trees added.now)) }
    ensures derived { IfOk result (λ r. IsByRuleAndLines draft.new
        (trees_at draft.old.trees front.now) (trees_at draft.old.trees tail.now)
        (lines_at draft.old.trees lines.now) (all_added draft.old.trees added.now) r) }
    ensures grows { Extends draft.old draft.new }
{
    let mut steps = Vec::new(draft.allocator());
    let used = premises(draft, front, tail, added, lines, &mut steps)?;
    let step = by_rule(draft, front, tail, rule_of(before, word), &steps)?;
    Ok(Derived {
        step,
        used: used + 1,
    })
}

// Adds the number of a step for each premise, by the first lines, and gives how many these are.
#[cycle(walk)]
fn premises(
    draft: &mut Draft,
    front: &[TermId],
    tail: &[TermId],
    added: &[Formulas],
    lines: &[Line],
    steps: &mut Vec<usize>,
) -> Result<usize, AllocError>
    requires front { AreFormulas draft.old front.now }
    requires tail { AreFormulas draft.old tail.now }
    requires added { AreAdded draft.old added.now }
    requires lines { LinesHeld draft.old lines.now }
    requires follow { CanFollow draft.old (trees_at draft.old.trees front.now)
        (lines_at draft.old.trees lines.now)
        (sequents_under (trees_at draft.old.trees tail.now)
        (all_added draft.old.trees added.now)) }
    ensures derived { IfOk result (λ n. AreByLines draft.new (trees_at draft.old.trees front.now)
        (sequents_under (trees_at draft.old.trees tail.now)
        (all_added draft.old.trees added.now)) (lines_at draft.old.trees lines.now)
        steps.old.items steps.new.items n) }
    ensures grows { Extends draft.old draft.new }
{
    match added.split_first() {
        None => Ok(0),
        Some((first, rest)) => {
            let all = tail_with(draft.allocator(), tail, *first)?;
            let made = walk(draft, front, &all, lines)?;
            steps.push(made.step)?;
            let (_, following) = lines.split_at(made.used);
            let more = premises(draft, front, tail, rest, following, steps)?;
            Ok(made.used + more)
        }
    }
}

/// A step whose sequent is the front and the tail, by a script that refutes it.
pub fn derive(
    draft: &mut Draft,
    front: &[TermId],
    tail: &[TermId],
    lines: &[Line],
) -> Result<usize, AllocError>
    requires front { AreFormulas draft.old front.now }
    requires tail { AreFormulas draft.old tail.now }
    requires lines { LinesHeld draft.old lines.now }
    requires follow { Follows draft.old (trees_at draft.old.trees front.now)
        (lines_at draft.old.trees lines.now) (trees_at draft.old.trees tail.now ∷ []) }
    ensures refutes { IfOk result (λ k. Refutes draft.new k
        (trees_at draft.old.trees front.now ++ trees_at draft.old.trees tail.now)) }
    ensures grows { Extends draft.old draft.new }
{
    let made = walk(draft, front, tail, lines)?;
    Ok(made.step)
}
