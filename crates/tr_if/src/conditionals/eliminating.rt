// Formulas without their conditionals.
ghost use Rattle.std.specs.Prelude.{◌≡◌, IfOk, IfErr};
ghost use Rattle.trees.specs.Tree.{size};
ghost use Rattle.trees.specs.Node.{tree_at, Holds, Grows};
ghost use Rattle.evidence.specs.images.typing_laws.HasTyping.{over_parts};
ghost use Rattle.tr_if.specs.conditionals.Conditionals.{if_rule, without_ifs};
ghost use Rattle.tr_if.specs.conditionals.Held.{CanEliminate, IsEliminated, IsGrowthFault, IsRuled, IsOver};

use crate::conditionals::atoms::{atom_by_cases, bounded, implications};
use crate::conditionals::growth::GrowthFault;
use trees::store::{Grow, Store};
use trees::{Node, Parts, Sort, TermId};

// What the rule makes of a node.
fn by_rule(store: &mut Store, e: TermId) -> Result<TermId, GrowthFault>
    requires { Holds store.old e }
    ensures ruled { IfOk result (IsRuled (tree_at store.old e) store.new) }
    ensures fault { IfErr result (IsGrowthFault (size (if_rule (tree_at store.old e)))) }
    ensures grows { Grows store.old store.new }
{
    match store.node(e) {
        Node::Pred(_, _, _) | Node::Eq(_, _) => {
            let made = atom_by_cases(store, e)?;
            Ok(made)
        }
        Node::If(condition, a, b) => match store.sort(a) {
            Sort::Formula => {
                let made = implications(store, condition, a, b)?;
                Ok(made)
            }
            _ => Ok(e),
        },
        _ => Ok(e),
    }
}

/// A typed formula without its conditionals, or that it has more than 2^20 tree nodes.
#[cycle(eliminating)]
pub fn eliminate_ifs(store: &mut Store, e: TermId) -> Result<TermId, GrowthFault>
    requires { CanEliminate store.old e }
    ensures eliminated { IfOk result (IsEliminated (tree_at store.old e) store.new) }
    ensures fault { IfErr result (IsGrowthFault (size (without_ifs (tree_at store.old e)))) }
    ensures grows { Grows store.old store.new }
{
    let over = eliminate_in_parts(store, e)?;
    let made = by_rule(store, over)?;
    bounded(store, made)
}

// The node over its parts without their conditionals.
#[cycle(eliminating)]
fn eliminate_in_parts(store: &mut Store, e: TermId) -> Result<TermId, GrowthFault>
    requires { CanEliminate store.old e }
    ensures over { IfOk result (IsOver (tree_at store.old e) store.new) }
    ensures fault { IfErr result
        (IsGrowthFault (size (over_parts if_rule (tree_at store.old e)))) }
    ensures grows { Grows store.old store.new }
{
    let node = store.node(e);
    match node.parts() {
        Parts::None => Ok(e),
        Parts::One(a) => {
            let x = eliminate_ifs(store, a)?;
            let made = store.add(node.with_parts(Parts::One(x)))?;
            Ok(made)
        }
        Parts::Two(a, b) => {
            let x = eliminate_ifs(store, a)?;
            let y = eliminate_ifs(store, b)?;
            let made = store.add(node.with_parts(Parts::Two(x, y)))?;
            Ok(made)
        }
        Parts::Three(a, b, c) => {
            let x = eliminate_ifs(store, a)?;
            let y = eliminate_ifs(store, b)?;
            let z = eliminate_ifs(store, c)?;
            let made = store.add(node.with_parts(Parts::Three(x, y, z)))?;
            Ok(made)
        }
    }
}
