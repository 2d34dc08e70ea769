//! Conditions whose truth values are known where a term is false.

ghost use Rattle.std.specs.Prelude.{◌≡◌, ◌<◌, length, IfOk, IfSome, IsTrue};
ghost use Rattle.wb_values.specs.Value.{truth};
ghost use Rattle.wb_terms.specs.Graph.{AllBelow, operands_of, tree_of_node};
ghost use Rattle.condition_terms.specs.Told.{IsTermOf, AreAllOfSorts};
ghost use Rattle.fixed_terms.specs.Fixed.{AreKnown, known_by, IsCase, IsOneAndZero};

use crate::NoMemory;
use crate::nodes::node_of;
use std::alloc::Global;
use wb_terms::{Node, TermId, Terms};

/// For each term of the store its truth value where the given term is false, if it is known. The time is that of one pass over the terms
/// before this one.
pub(crate) fn known_where_false(
    alloc: Global,
    terms: &Terms,
    id: TermId,
) -> Result<Vec<Option<bool>>, NoMemory>
    requires id { IsTermOf terms.now id.0 truth }
    requires sorts { AreAllOfSorts terms.now }
    ensures { IfOk result (λ ks. AreKnown terms.now id.0 ks.items) }
{
    let mut known = vec![in alloc; None; terms.len() as usize]?;
    known[id.0] = Some(false);
    for done in 0..id.0 {
        let place = id.0 - done;
        if let Some(truth) = known[place] {
            let node = node_of(terms, TermId(place));
            tell(&mut known, node, truth);
            if let Some(condition) = condition_of_bit(terms, node) {
                known[condition.0] = Some(truth);
            }
        }
    }
    Ok(known)
}

/// Notes what a node's truth value says of its operands.
fn tell(known: &mut Vec<Option<bool>>, node: Node, truth: bool)
    requires { AllBelow (length known.old.items) (operands_of node) }
    ensures { known.new.items ≡ known_by node truth known.old.items }
{
    match (node, truth) {
        (Node::Not(x), _) => known[x.0] = Some(!truth),
        (Node::And(x, y), true) | (Node::Or(x, y), false) => {
            known[x.0] = Some(truth);
            known[y.0] = Some(truth);
        }
        _ => {}
    }
}

/// The condition that a node tests, where it asks whether the bit that a condition was made is not 0.
fn condition_of_bit(terms: &Terms, node: Node) -> Option<TermId>
    requires { AllBelow (length terms.now.nodes) (operands_of node) }
    ensures { IfSome result (λ c. IsCase terms.now (tree_of_node terms.now node) c.0) }
{
    let Node::Ult(zero, bit) = node else {
        return None;
    };
    match (node_of(terms, zero), node_of(terms, bit)) {
        (Node::Const(_, 0), Node::Ite(condition, chosen, other)) if is_bit(terms, chosen, other) =>
            { Some(condition) }
        _ => None,
    }
}

/// Whether two terms are the constants 1 and 0.
fn is_bit(terms: &Terms, chosen: TermId, other: TermId) -> bool
    requires first { chosen.0 < length terms.now.nodes }
    requires second { other.0 < length terms.now.nodes }
    ensures { IsTrue result → IsOneAndZero terms.now chosen.0 other.0 }
{
    match (node_of(terms, chosen), node_of(terms, other)) {
        (Node::Const(_, 1), Node::Const(_, 0)) => true,
        _ => false,
    }
}
