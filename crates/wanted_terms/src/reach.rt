//! Lists of terms with all that they stand on.

ghost use Rattle.std.specs.Prelude.{◌≡◌, ◌<◌, ◌≤◌, true, length, slice_set, IfOk};
ghost use Rattle.wb_terms.specs.Graph.{operands_of, AllBelow};
ghost use Rattle.wanted_terms.specs.Wanted.{IsClosed, AreListed, AreBelow, AllMarked, AreMarkedFrom, with_marks};

use crate::NoMemory;
use crate::nodes::node_of;
use std::alloc::Global;
use wb_terms::{Node, TermId, Terms};

/// The terms of the list and all that they stand on, by ascending id: so each stands after its operands. The time is that of one pass over
/// the store.
pub fn closed(alloc: Global, terms: &Terms, roots: &[TermId]) -> Result<Vec<TermId>, NoMemory>
    requires { AreBelow (length terms.now.nodes) roots.now }
    ensures closed { IfOk result (λ ids. IsClosed terms.now ids.items) }
    ensures roots { IfOk result (λ ids. AreListed ids.items roots.now) }
{
    let mut marks = vec![in alloc; false; terms.len() as usize]?;
    mark_roots(&mut marks, roots);
    mark_under(terms, &mut marks, roots);
    marked(alloc, terms, &marks, roots)
}

/// Marks the terms of a list.
fn mark_roots(marks: &mut Vec<bool>, roots: &[TermId])
    requires { AreBelow (length marks.old.items) roots.now }
    ensures marked { AllMarked marks.new.items roots.now }
    ensures length { length marks.new.items ≡ length marks.old.items }
{
    for place in 0..roots.len() {
        let root = roots[place];
        marks[root.0] = true;
    }
}

/// Marks all that the marked terms stand on.
fn mark_under(terms: &Terms, marks: &mut Vec<bool>, roots: &[TermId])
    requires room { length marks.old.items ≡ length terms.now.nodes }
    requires roots { AllMarked marks.old.items roots.now }
    ensures marked { AllMarked marks.new.items roots.now }
    ensures under { AreMarkedFrom terms.now marks.new.items 0 }
    ensures length { length marks.new.items ≡ length marks.old.items }
{
    for done in 0..marks.len() {
        let place = marks.len() - 1 - done;
        if marks[place] {
            mark_operands(marks, node_of(terms, TermId(place)));
        }
    }
}

/// Marks the operands of a node.
fn mark_operands(marks: &mut Vec<bool>, node: Node)
    requires { AllBelow (length marks.old.items) (operands_of node) }
    ensures { marks.new.items ≡ with_marks (operands_of node) marks.old.items }
{
    match node {
        Node::Name(_) | Node::Truth(_) | Node::Const(_, _) => {}
        Node::Not(x)
        | Node::Neg(x)
        | Node::Extract(_, _, x)
        | Node::Zext(_, x)
        | Node::Sext(_, x) => marks[x.0] = true,
        Node::And(x, y)
        | Node::Or(x, y)
        | Node::Xor(x, y)
        | Node::Add(x, y)
        | Node::Sub(x, y)
        | Node::Mul(x, y)
        | Node::Shl(x, y)
        | Node::Lshr(x, y)
        | Node::Ashr(x, y)
        | Node::Eq(x, y)
        | Node::Ult(x, y)
        | Node::Ule(x, y)
        | Node::Slt(x, y)
        | Node::Sle(x, y)
        | Node::Concat(x, y)
        | Node::Load(x, y) => mark_two(marks, x, y),
        Node::Ite(x, y, z) | Node::Store(x, y, z) => {
            marks[x.0] = true;
            mark_two(marks, y, z);
        }
    }
}

fn mark_two(marks: &mut Vec<bool>, x: TermId, y: TermId)
    requires first { x.0 < length marks.old.items }
    requires second { y.0 < length marks.old.items }
    ensures { marks.new.items ≡ slice_set (slice_set marks.old.items x.0 true) y.0 true }
{
    marks[x.0] = true;
    marks[y.0] = true;
}

/// The marked terms, by ascending id.
fn marked(
    alloc: Global,
    terms: &Terms,
    marks: &[bool],
    roots: &[TermId],
) -> Result<Vec<TermId>, NoMemory>
    requires room { length marks.now ≡ length terms.now.nodes }
    requires under { AreMarkedFrom terms.now marks.now 0 }
    requires roots { AllMarked marks.now roots.now }
    requires below { AreBelow (length terms.now.nodes) roots.now }
    ensures closed { IfOk result (λ ids. IsClosed terms.now ids.items) }
    ensures roots { IfOk result (λ ids. AreListed ids.items roots.now) }
{
    let mut ids = Vec::new(alloc);
    for (place, mark) in marks.iter().enumerate() {
        if *mark {
            ids.push(TermId(place))?;
        }
    }
    Ok(ids)
}
