//! The circuits of nodes over one word, or over two of one width.

ghost use Rattle.std.specs.Prelude.{◌≡◌};
ghost use Rattle.sat_gates.specs.Forms.{form_of};

use gate_words::{Cell, Operator};
use wb_terms::{Node, TermId};

/// The circuit of a node, by the cells, the first carry and the operands.
#[derive(Clone, Copy, Debug)]
pub(crate) enum Form {
    /// The bits of a chain.
    Chain(Cell, bool, TermId, TermId),
    /// The last carry of a chain.
    Last(Cell, bool, TermId, TermId),
    /// An operator on two words of one width that gives a word.
    Word(Operator, TermId, TermId),
    /// Whether one word is below another in two's complement.
    SignedBelow(TermId, TermId),
    /// Whether one word is at most another in two's complement.
    SignedAtMost(TermId, TermId),
    /// Another circuit.
    Other,
}

/// The form of a node.
pub(crate) fn form_of(node: Node) -> Form
    ensures { result ≡ form_of node }
{
    match node {
        Node::Not(x) => Form::Chain(Cell::Not, false, x, x),
        Node::And(x, y) => Form::Chain(Cell::And, false, x, y),
        Node::Or(x, y) => Form::Chain(Cell::Or, false, x, y),
        Node::Xor(x, y) => Form::Chain(Cell::Xor, false, x, y),
        Node::Add(x, y) => Form::Chain(Cell::Sum, false, x, y),
        Node::Sub(x, y) => Form::Chain(Cell::Difference, true, x, y),
        Node::Eq(x, y) => Form::Last(Cell::Same, true, x, y),
        Node::Ult(x, y) => Form::Last(Cell::Below, false, x, y),
        Node::Ule(x, y) => Form::Last(Cell::Below, true, x, y),
        Node::Mul(x, y) => Form::Word(Operator::Mul, x, y),
        Node::Shl(x, y) => Form::Word(Operator::Shl, x, y),
        Node::Lshr(x, y) => Form::Word(Operator::Lshr, x, y),
        Node::Ashr(x, y) => Form::Word(Operator::Ashr, x, y),
        Node::Slt(x, y) => Form::SignedBelow(x, y),
        Node::Sle(x, y) => Form::SignedAtMost(x, y),
        _ => Form::Other,
    }
}
