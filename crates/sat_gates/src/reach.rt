//! The terms that a term stands on.

ghost use Rattle.std.specs.Prelude.{◌≡◌, ◌<◌, length, slice_index_or, IfOk, OnOk};
ghost use Rattle.std.specs.BTreeSet.{insert_key};
ghost use Rattle.std.specs.Ordering.{nat_cmp};
ghost use Rattle.wb_terms.specs.Graph.{operands_of};
ghost use Rattle.sat_gates.specs.Cone.{IsCone, AreParts, places, with_keys};

use sat_base::NoMemory;
use std::alloc::Global;
use std::collections::BTreeSet;
use wb_terms::{Node, TermId, Terms};

/// The terms that a term stands on, itself among them: each once, by ascending id. No other term of the store is looked at.
pub fn cone(alloc: Global, terms: &Terms, id: TermId) -> Result<Vec<TermId>, NoMemory>
    requires { id.0 < length terms.now.nodes }
    ensures exact { IfOk result (λ ids. IsCone terms.now id.0 (places ids.items)) }
    ensures parts { OnOk result (AreParts terms.now id.0) }
{
    let mut waiting = BTreeSet::new(alloc);
    waiting.insert(id.0)?;
    let mut ids = Vec::new(alloc);
    while let Some(place) = waiting.pop_last() {
        let next = TermId(place);
        add_operands(&mut waiting, *terms.node(next))?;
        ids.push(next)?;
    }
    ids.reverse();
    Ok(ids)
}

/// The term at a place of a list.
pub(crate) fn term_in(ids: &[TermId], place: usize) -> TermId
    requires { place < length ids.now }
    ensures { result ≡ slice_index_or ids.now place result }
{
    ids[place]
}

/// Adds the operands of a node.
fn add_operands(waiting: &mut BTreeSet<usize>, node: Node) -> Result<(), NoMemory>
    ensures { OnOk result (waiting.new.keys ≡ with_keys (operands_of node) waiting.old.keys) }
{
    match node {
        Node::Name(_) | Node::Truth(_) | Node::Const(_, _) => {}
        Node::Not(x)
        | Node::Neg(x)
        | Node::Extract(_, _, x)
        | Node::Zext(_, x)
        | Node::Sext(_, x) => add_one(waiting, x)?,
        Node::And(x, y)
        | Node::Or(x, y)
        | Node::Xor(x, y)
        | Node::Add(x, y)
        | Node::Sub(x, y)
        | Node::Mul(x, y)
        | Node::Shl(x, y)
        | Node::Lshr(x, y)
        | Node::Ashr(x, y)
        | Node::Eq(x, y)
        | Node::Ult(x, y)
        | Node::Ule(x, y)
        | Node::Slt(x, y)
        | Node::Sle(x, y)
        | Node::Concat(x, y)
        | Node::Load(x, y) => add_two(waiting, x, y)?,
        Node::Ite(x, y, z) | Node::Store(x, y, z) => {
            add_one(waiting, x)?;
            add_two(waiting, y, z)?;
        }
    }
    Ok(())
}

fn add_one(waiting: &mut BTreeSet<usize>, x: TermId) -> Result<(), NoMemory>
    ensures { OnOk result (waiting.new.keys ≡ insert_key nat_cmp waiting.old.keys x.0) }
{
    waiting.insert(x.0)?;
    Ok(())
}

fn add_two(waiting: &mut BTreeSet<usize>, x: TermId, y: TermId) -> Result<(), NoMemory>
    ensures { OnOk result (waiting.new.keys ≡ insert_key nat_cmp (insert_key nat_cmp waiting.old.keys x.0) y.0) }
{
    add_one(waiting, x)?;
    add_one(waiting, y)?;
    Ok(())
}
