// Random small sequents and steps, right ones and changed ones, against a plain check that makes what each premise adds.
// It depends on the small task and on the checker; nothing depends on it.
ghost use Rattle.std.specs.Prelude.{◌<◌};
ghost use Rattle.kernel.specs.rules.Meaning.{RuleHeld};

use crate::nodes::NODES;
use crate::small::{filled_store, held_or_int, small_task};
use crate::steps::{premise_steps, step};
use kernel::{Rule, right_step};
use std::alloc::Global;
use std::process::Abort;
use trees::store::{Grow, Store};
use trees::{Node, Op, Parts, TermId};

const MEMORY: &str = "out of memory";

const END: TermId = TermId(0);

const INT: TermId = TermId(1);

// Formulas of the small task: closed, typed, free of schematic types.
static FORMULAS: [TermId; 47] = [
    TermId(2),
    TermId(3),
    TermId(5),
    TermId(6),
    TermId(25),
    TermId(26),
    TermId(29),
    TermId(30),
    TermId(31),
    TermId(32),
    TermId(33),
    TermId(34),
    TermId(35),
    TermId(36),
    TermId(39),
    TermId(42),
    TermId(46),
    TermId(47),
    TermId(48),
    TermId(54),
    TermId(55),
    TermId(56),
    TermId(57),
    TermId(58),
    TermId(59),
    TermId(60),
    TermId(61),
    TermId(62),
    TermId(63),
    TermId(64),
    TermId(65),
    TermId(66),
    TermId(67),
    TermId(68),
    TermId(70),
    TermId(71),
    TermId(72),
    TermId(73),
    TermId(76),
    TermId(78),
    TermId(88),
    TermId(91),
    TermId(92),
    TermId(93),
    TermId(94),
    TermId(154),
    TermId(198),
];

// Trees that are no formulas of the task: open, schematic, or terms and types.
static OTHERS: [TermId; 7] = [
    TermId(69),
    TermId(21),
    TermId(27),
    TermId(28),
    TermId(7),
    INT,
    TermId(75),
];

// Terms of the task, first those of the type int, then those of t.
static TERMS: [TermId; 9] = [
    TermId(7),
    TermId(9),
    TermId(10),
    TermId(11),
    TermId(43),
    TermId(8),
    TermId(12),
    TermId(38),
    TermId(41),
];

const INTEGERS: usize = 5;

// Formulas in which the variable 0 of type int may be open.
static TEMPLATES: [TermId; 4] = [TermId(21), TermId(87), TermId(158), TermId(5)];

static OPS: [Op; 6] = [Op::And, Op::AndThen, Op::Or, Op::OrElse, Op::Imp, Op::Iff];

const KINDS: u64 = 26;

// So many levels deep trees are looked at.
const LEVELS: usize = 30;

static FIRST_TWO: [usize; 2] = [0, 1];

// A rule by its kind, with two numbers and a tree.
#[derive(Clone, Copy)]
struct Choice {
    kind: usize,
    i: usize,
    j: usize,
    tree: TermId,
}

// How many premises there are, and what the first and the second one have after the sequent; END is none.
#[derive(Clone, Copy)]
struct Premises {
    count: usize,
    a: TermId,
    b: TermId,
    c: TermId,
    d: TermId,
}

const NO_PREMISES: Premises = Premises {
    count: 0,
    a: END,
    b: END,
    c: END,
    d: END,
};

// A number below a bound, from a linear congruential generator.
fn random(seed: &mut u64, bound: u64) -> usize
    requires { 0 < bound }
    ensures { result < bound }
{
    *seed = (*seed % 2_147_483_648 * 1_103_515_245 + 12_345) % 2_147_483_648;
    (*seed / 65_536 % bound) as usize
}

// One of some numbers.
fn pick_any(seed: &mut u64, ids: &[TermId]) -> TermId {
    let at = random(seed, 1000) % ids.len().max(1);
    ids.get(at).copied().unwrap_or(END)
}

// A formula of the task, seldom something else.
fn any_formula(seed: &mut u64) -> TermId {
    if random(seed, 40) == 0 {
        pick_any(seed, &OTHERS)
    } else {
        pick_any(seed, &FORMULAS)
    }
}

// The node of a number that is there.
fn node_at(store: &Store, id: TermId) -> Node {
    if store.holds(id) {
        store.node(id)
    } else {
        Node::End
    }
}

// The number of a node, or that of the empty list where its parts don't fit.
fn put(store: &mut Store, node: Node) -> TermId {
    if !store.accepts(node) {
        return END;
    }
    store.add(node).unwrap_or(END)
}

// What a negation negates.
fn negation_of(store: &Store, id: TermId) -> TermId {
    match node_at(store, id) {
        Node::Not(a) => a,
        _ => END,
    }
}

// A body with a closed term for its variable, so many levels deep.
fn open_at(store: &mut Store, e: TermId, term: TermId, depth: usize, levels: usize) -> TermId {
    if levels == 0 {
        return END;
    }
    let node = node_at(store, e);
    if let Node::Bound(i, _) = node {
        return if i == depth { term } else { e };
    }
    let under = match node {
        Node::Forall(_, _) | Node::Exists(_, _) => depth.saturating_add(1),
        _ => depth,
    };
    let parts = match node.parts() {
        Parts::None => return e,
        Parts::One(a) => Parts::One(open_at(store, a, term, depth, levels - 1)),
        Parts::Two(a, b) => {
            let a = open_at(store, a, term, depth, levels - 1);
            Parts::Two(a, open_at(store, b, term, under, levels - 1))
        }
        Parts::Three(a, b, c) => {
            let a = open_at(store, a, term, depth, levels - 1);
            let b = open_at(store, b, term, depth, levels - 1);
            Parts::Three(a, b, open_at(store, c, term, depth, levels - 1))
        }
    };
    put(store, node.with_parts(parts))
}

// Whether a parameter occurs, so many levels deep.
fn occurs(store: &Store, e: TermId, number: usize, levels: usize) -> bool {
    if levels == 0 {
        return false;
    }
    let node = node_at(store, e);
    if let Node::Param(n, _) = node {
        return n == number;
    }
    match node.parts() {
        Parts::None => false,
        Parts::One(a) => occurs(store, a, number, levels - 1),
        Parts::Two(a, b) => {
            occurs(store, a, number, levels - 1) || occurs(store, b, number, levels - 1)
        }
        Parts::Three(a, b, c) => {
            occurs(store, a, number, levels - 1)
                || occurs(store, b, number, levels - 1)
                || occurs(store, c, number, levels - 1)
        }
    }
}

// The type of one of the terms.
fn type_of(term: TermId) -> TermId {
    match TERMS.iter().position(|t| *t == term) {
        Some(at) => if at < INTEGERS { INT } else { TermId(4) },
        None => END,
    }
}

// One premise with these formulas.
fn one_premise(a: TermId, b: TermId) -> Option<Premises> {
    Some(Premises {
        count: 1,
        a,
        b,
        ..NO_PREMISES
    })
}

// Two premises with these formulas.
fn two_premises(a: TermId, b: TermId, c: TermId, d: TermId) -> Option<Premises> {
    Some(Premises {
        count: 2,
        a,
        b,
        c,
        d,
    })
}

// What a connective adds where it holds, or where its negation does.
fn join_premises(store: &mut Store, op: Op, f: TermId, holds: bool) -> Option<Premises> {
    let Node::Join(found, a, b) = node_at(store, f) else {
        return None;
    };
    if found != op {
        return None;
    }
    let no_a = put(store, Node::Not(a));
    let no_b = put(store, Node::Not(b));
    match op {
        Op::And | Op::AndThen => if holds {
            one_premise(a, b)
        } else {
            two_premises(no_a, END, no_b, END)
        },
        Op::Or | Op::OrElse => if holds {
            two_premises(a, END, b, END)
        } else {
            one_premise(no_a, no_b)
        },
        Op::Imp => if holds {
            two_premises(no_a, END, b, END)
        } else {
            one_premise(a, no_b)
        },
        Op::Iff => if holds {
            two_premises(a, b, no_a, no_b)
        } else {
            two_premises(a, no_b, no_a, b)
        },
    }
}

// What a quantifier adds at a term of its type, or at a new parameter.
fn quantify_premises(
    store: &mut Store,
    sequent: &[TermId],
    choice: Choice,
    f: TermId,
) -> Option<Premises> {
    let negates = choice.kind % 2 == 1;
    let universal = choice.kind < 14;
    let f = if negates { negation_of(store, f) } else { f };
    let (ty, body, is_universal) = match node_at(store, f) {
        Node::Forall(ty, body) => (ty, body, true),
        Node::Exists(ty, body) => (ty, body, false),
        _ => return None,
    };
    if universal != is_universal {
        return None;
    }
    let term = if universal != negates {
        if type_of(choice.tree) != ty {
            return None;
        }
        choice.tree
    } else {
        for formula in sequent {
            if occurs(store, *formula, choice.j, LEVELS) {
                return None;
            }
        }
        put(store, Node::Param(choice.j, ty))
    };
    let made = open_at(store, body, term, 0, LEVELS);
    if negates {
        one_premise(put(store, Node::Not(made)), END)
    } else {
        one_premise(made, END)
    }
}

// What a replacement adds: the template at the second side of the equation, where the first one's stands.
fn replace_formula(store: &mut Store, f: TermId, g: TermId, template: TermId) -> Option<Premises> {
    let Node::Eq(a, b) = node_at(store, f) else {
        return None;
    };
    if template != TermId(5) && type_of(a) != INT {
        return None;
    }
    if g == END || open_at(store, template, a, 0, LEVELS) != g {
        return None;
    }
    one_premise(open_at(store, template, b, 0, LEVELS), END)
}

// The symbol of a constructor of t and its only argument, if it has one.
fn constructor_parts(store: &Store, e: TermId) -> Option<(usize, TermId)> {
    match node_at(store, e) {
        Node::Fun(4, _, args, _) => match node_at(store, args) {
            Node::Cell(a, _) => Some((4, a)),
            _ => None,
        },
        Node::Fun(6, _, _, _) => Some((6, END)),
        _ => None,
    }
}

// What two constructors in an equation add.
fn equate_premises(store: &mut Store, f: TermId, injects: bool) -> Option<Premises> {
    let Node::Eq(a, b) = node_at(store, f) else {
        return None;
    };
    let (c, s) = constructor_parts(store, a)?;
    let (d, t) = constructor_parts(store, b)?;
    if (c == d) != injects {
        return None;
    }
    if !injects {
        Some(NO_PREMISES)
    } else if s == END {
        one_premise(END, END)
    } else {
        one_premise(put(store, Node::Eq(s, t)), END)
    }
}

fn nothing_if(holds: bool) -> Option<Premises> {
    if holds { Some(NO_PREMISES) } else { None }
}

// What the premises of a rule add to a sequent of formulas, where it may be used.
fn add_formulas(store: &mut Store, sequent: &[TermId], choice: Choice) -> Option<Premises> {
    let f = sequent.get(choice.i).copied().unwrap_or(END);
    let g = sequent.get(choice.j).copied().unwrap_or(END);
    let n = negation_of(store, f);
    let op = OPS[choice.kind % 6];
    match choice.kind {
        0..=5 => join_premises(store, op, f, true),
        6..=11 => join_premises(store, op, n, false),
        12..=15 => quantify_premises(store, sequent, choice, f),
        16 => nothing_if(matches!(node_at(store, f), Node::False)),
        17 => nothing_if(matches!(node_at(store, n), Node::True)),
        18 => nothing_if(f != END && negation_of(store, g) == f),
        19 => match node_at(store, n) {
            Node::Eq(a, b) => nothing_if(a == b),
            _ => None,
        },
        20 => {
            let a = negation_of(store, n);
            if a == END { None } else { one_premise(a, END) }
        }
        21 => {
            if !FORMULAS.contains(&choice.tree) {
                return None;
            }
            let no = put(store, Node::Not(choice.tree));
            two_premises(choice.tree, END, no, END)
        }
        22 => {
            if type_of(choice.tree) == END {
                return None;
            }
            one_premise(put(store, Node::Eq(choice.tree, choice.tree)), END)
        }
        23 => replace_formula(store, f, g, choice.tree),
        24 => equate_premises(store, f, false),
        _ => equate_premises(store, f, true),
    }
}

fn any_choice(seed: &mut u64) -> Choice {
    let kind = random(seed, KINDS);
    let tree = match kind {
        21 => any_formula(seed),
        23 => pick_any(seed, &TEMPLATES),
        _ => pick_any(seed, &TERMS),
    };
    Choice {
        kind,
        i: random(seed, 3),
        j: random(seed, 3),
        tree,
    }
}

// The rule.
fn rule_of(store: &Store, choice: Choice) -> Rule
    ensures { RuleHeld store.now result }
{
    let i = choice.i;
    let tree = held_or_int(store, Some(choice.tree));
    match choice.kind {
        0 => Rule::And(i),
        1 => Rule::AndThen(i),
        2 => Rule::Or(i),
        3 => Rule::OrElse(i),
        4 => Rule::Imp(i),
        5 => Rule::Iff(i),
        6 => Rule::NotAnd(i),
        7 => Rule::NotAndThen(i),
        8 => Rule::NotOr(i),
        9 => Rule::NotOrElse(i),
        10 => Rule::NotImp(i),
        11 => Rule::NotIff(i),
        12 => Rule::Forall(i, tree),
        13 => Rule::NotForall(i, choice.j),
        14 => Rule::Exists(i, choice.j),
        15 => Rule::NotExists(i, tree),
        16 => Rule::False(i),
        17 => Rule::NotTrue(i),
        18 => Rule::Clash(i, choice.j),
        19 => Rule::Irrefl(i),
        20 => Rule::NotNot(i),
        21 => Rule::Cut(tree),
        22 => Rule::Refl(tree),
        23 => Rule::Replace(i, choice.j, tree),
        24 => Rule::Distinct(i),
        _ => Rule::Inject(i),
    }
}

// The same with a change: another formula, one more or one less, another number of premises, or the premises exchanged.
fn change_premises(seed: &mut u64, p: Premises) -> Premises {
    let formula = any_formula(seed);
    match random(seed, 6) {
        0 => Premises { a: formula, ..p },
        1 => Premises {
            b: if p.b == END { formula } else { END },
            ..p
        },
        2 => Premises { c: formula, ..p },
        3 => Premises {
            d: if p.d == END { formula } else { END },
            ..p
        },
        4 => Premises {
            count: random(seed, 3),
            ..p
        },
        _ => Premises {
            count: p.count,
            a: p.c,
            b: p.d,
            c: p.a,
            d: p.b,
        },
    }
}

// Whether premises are those that a rule asks for.
fn are_asked(asked: Option<Premises>, p: Premises) -> bool {
    match asked {
        Some(q) => q.count == p.count
            && (p.count == 0 || q.a == p.a && q.b == p.b)
            && (p.count < 2 || q.c == p.c && q.d == p.d),
        None => false,
    }
}

// A sequent with formulas after it.
fn with_formulas(
    rt: &impl Abort,
    alloc: Global,
    sequent: &[TermId],
    a: TermId,
    b: TermId,
) -> Vec<TermId> {
    let mut all = Vec::from_slice(alloc, sequent).expect(rt, MEMORY);
    for formula in &[a, b] {
        if *formula != END {
            all.push(*formula).expect(rt, MEMORY);
        }
    }
    all
}

// Whether the checker takes a step with these premises.
fn is_taken(
    rt: &impl Abort,
    alloc: Global,
    store: &Store,
    sequent: &[TermId],
    choice: Choice,
    p: Premises,
) -> bool {
    let task = small_task(rt, alloc, store, true);
    let first = with_formulas(rt, alloc, sequent, p.a, p.b);
    let second = with_formulas(rt, alloc, sequent, p.c, p.d);
    let earlier = premise_steps(rt, alloc, store, &[&first, &second]);
    let rule = rule_of(store, choice);
    let tried = step(
        rt,
        alloc,
        store,
        sequent,
        rule,
        &FIRST_TWO[..p.count.min(2)],
    );
    right_step(store, &task, earlier.as_slice(), &tried)
}

// Tries a step, and answers its kind where it is right by the plain check; where the two differ the test ends.
fn try_one(rt: &impl Abort, alloc: Global, store: &mut Store, seed: &mut u64) -> Option<usize> {
    let formulas = [any_formula(seed), any_formula(seed), any_formula(seed)];
    let sequent = &formulas[..random(seed, 3) + 1];
    let choice = any_choice(seed);
    let asked = add_formulas(store, sequent, choice);
    let mut p = asked.unwrap_or(Premises {
        count: 1,
        ..NO_PREMISES
    });
    if random(seed, 2) == 0 {
        p = change_premises(seed, p);
    }
    let are_formulas = sequent.iter().all(|f| FORMULAS.contains(f));
    let right = are_formulas && are_asked(asked, p);
    let taken = is_taken(rt, alloc, store, sequent, choice, p);
    assert!(rt;
        right == taken,
        "kind {} {} {} {}",
        choice.kind,
        choice.i,
        choice.j,
        choice.tree.0
    );
    right.then_some(choice.kind)
}

#[test]
fn random_steps_are_right_or_wrong(rt: HostRuntime) {
    let mut store = filled_store(&rt, rt.alloc(), &NODES);
    let mut seed = 7;
    let mut were_right = [false; 26];
    for _ in 0..20_000 {
        if let Some(kind) = try_one(&rt, rt.alloc(), &mut store, &mut seed) {
            if kind < were_right.len() {
                were_right[kind] = true;
            }
        }
    }
    for (kind, was_right) in were_right.iter().enumerate() {
        assert!(rt; *was_right, "kind {kind} was never right");
    }
}
