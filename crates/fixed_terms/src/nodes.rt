//! Single nodes over the copies of their operands.

ghost use Rattle.std.specs.Prelude.{◌≡◌, ◌<◌, length, IfOk, IsSome};
ghost use Rattle.model_meaning.specs.Term.{sort_of};
ghost use Rattle.wb_terms.specs.Graph.{IsOver, AllBelow, operands_of, tree, tree_of_node};
ghost use Rattle.term_copies.specs.Copies.{IsExtended, over_copies, copy_of};

use crate::NoMemory;
use std::alloc::AllocError;
use wb_terms::{Node, PutStop, TermId, Terms};

/// Puts a node that has a sort.
pub(crate) fn put(terms: &mut Terms, node: Node) -> Result<TermId, NoMemory>
    requires over { IsOver terms.old (length terms.old.nodes) node }
    requires sorted { IsSome (sort_of (tree_of_node terms.old node)) }
    ensures extended { IsExtended terms.old terms.new }
    ensures below { IfOk result (λ r. r.0 < length terms.new.nodes) }
    ensures tree { IfOk result (λ r. tree terms.new r.0 ≡ tree_of_node terms.old node) }
{
    match terms.put(node) {
        Ok(id) => Ok(id),
        Err(PutStop::NoMemory) => Err(AllocError),
        Err(PutStop::BadSort) => unreachable!(),
    }
}

/// The node of a term.
pub(crate) fn node_of(terms: &Terms, id: TermId) -> Node
    requires { id.0 < length terms.now.nodes }
    ensures tree { tree terms.now id.0 ≡ tree_of_node terms.now result }
    ensures over { IsOver terms.now id.0 result }
    ensures sorted { IsSome (sort_of (tree terms.now id.0)) }
{
    *terms.node(id)
}

/// The copy of an operand.
fn copy_of(copies: &[TermId], id: TermId) -> TermId
    requires { id.0 < length copies.now }
    ensures { result ≡ copy_of copies.now id }
{
    copies[id.0]
}

/// The node over the copies of its operands.
pub(crate) fn over_copies(node: Node, copies: &[TermId]) -> Node
    requires { AllBelow (length copies.now) (operands_of node) }
    ensures { result ≡ over_copies copies.now node }
{
    match node {
        Node::Name(name) => Node::Name(name),
        Node::Truth(truth) => Node::Truth(truth),
        Node::Const(width, number) => Node::Const(width, number),
        Node::Not(x) => Node::Not(copy_of(copies, x)),
        Node::And(x, y) => Node::And(copy_of(copies, x), copy_of(copies, y)),
        Node::Or(x, y) => Node::Or(copy_of(copies, x), copy_of(copies, y)),
        Node::Xor(x, y) => Node::Xor(copy_of(copies, x), copy_of(copies, y)),
        Node::Neg(x) => Node::Neg(copy_of(copies, x)),
        Node::Add(x, y) => Node::Add(copy_of(copies, x), copy_of(copies, y)),
        Node::Sub(x, y) => Node::Sub(copy_of(copies, x), copy_of(copies, y)),
        Node::Mul(x, y) => Node::Mul(copy_of(copies, x), copy_of(copies, y)),
        Node::Shl(x, y) => Node::Shl(copy_of(copies, x), copy_of(copies, y)),
        Node::Lshr(x, y) => Node::Lshr(copy_of(copies, x), copy_of(copies, y)),
        Node::Ashr(x, y) => Node::Ashr(copy_of(copies, x), copy_of(copies, y)),
        Node::Eq(x, y) => Node::Eq(copy_of(copies, x), copy_of(copies, y)),
        Node::Ult(x, y) => Node::Ult(copy_of(copies, x), copy_of(copies, y)),
        Node::Ule(x, y) => Node::Ule(copy_of(copies, x), copy_of(copies, y)),
        Node::Slt(x, y) => Node::Slt(copy_of(copies, x), copy_of(copies, y)),
        Node::Sle(x, y) => Node::Sle(copy_of(copies, x), copy_of(copies, y)),
        Node::Concat(x, y) => Node::Concat(copy_of(copies, x), copy_of(copies, y)),
        Node::Extract(high, low, x) => Node::Extract(high, low, copy_of(copies, x)),
        Node::Zext(width, x) => Node::Zext(width, copy_of(copies, x)),
        Node::Sext(width, x) => Node::Sext(width, copy_of(copies, x)),
        Node::Ite(c, x, y) => Node::Ite(copy_of(copies, c), copy_of(copies, x), copy_of(copies, y)),
        Node::Load(m, i) => Node::Load(copy_of(copies, m), copy_of(copies, i)),
        Node::Store(m, i, x) => {
            Node::Store(copy_of(copies, m), copy_of(copies, i), copy_of(copies, x))
        }
    }
}

/// Whether another term stands in place of this one.
fn is_other(copies: &[TermId], id: TermId) -> bool
    requires { id.0 < length copies.now }
{
    copies[id.0] != id
}

/// Whether other terms stand in place of two terms.
fn is_one_other(copies: &[TermId], x: TermId, y: TermId) -> bool
    requires first { x.0 < length copies.now }
    requires second { y.0 < length copies.now }
{
    is_other(copies, x) || is_other(copies, y)
}

/// Whether another term stands in place of an operand.
pub(crate) fn has_changed(copies: &[TermId], node: Node) -> bool
    requires { AllBelow (length copies.now) (operands_of node) }
{
    match node {
        Node::Name(_) | Node::Truth(_) | Node::Const(_, _) => false,
        Node::Not(x)
        | Node::Neg(x)
        | Node::Extract(_, _, x)
        | Node::Zext(_, x)
        | Node::Sext(_, x) => is_other(copies, x),
        Node::And(x, y)
        | Node::Or(x, y)
        | Node::Xor(x, y)
        | Node::Add(x, y)
        | Node::Sub(x, y)
        | Node::Mul(x, y)
        | Node::Shl(x, y)
        | Node::Lshr(x, y)
        | Node::Ashr(x, y)
        | Node::Eq(x, y)
        | Node::Ult(x, y)
        | Node::Ule(x, y)
        | Node::Slt(x, y)
        | Node::Sle(x, y)
        | Node::Concat(x, y)
        | Node::Load(x, y) => is_one_other(copies, x, y),
        Node::Ite(x, y, z) | Node::Store(x, y, z) => {
            is_other(copies, x) || is_one_other(copies, y, z)
        }
    }
}
