//! The nodes of written operators over terms that are in a store.

ghost use Rattle.std.specs.Prelude.{◌≡◌, ◌<◌, ◌≤◌, ◌+◌, [], ◌∷◌, length};
ghost use Rattle.model_meaning.specs.Term.{const, extract, ite, store};
ghost use Rattle.model_files.specs.Scope.{unary_term, binary_term, widened_term};
ghost use Rattle.wb_terms.specs.Graph.{Graph, IsOver, tree, tree_of_node, operands_of, names_of};
ghost use Rattle.ila_file.specs.View.{unary_view, binary_view, widening_view};
ghost use Rattle.ila_build.specs.Standing.{IsPut};

use ila_file::{BinaryOperator, UnaryOperator, Widening};
use wb_terms::{Node, PutStop, Sort, TermId, Terms};

/// Puts a node.
pub(crate) fn put_node(terms: &mut Terms, node: Node) -> Result<TermId, PutStop>
    requires { IsOver terms.old (length terms.old.nodes) node }
    ensures put { IsPut terms.old terms.new result (tree_of_node terms.old node) }
    ensures added { length terms.new.nodes ≤ length terms.old.nodes + 1 }
{
    terms.put(node)
}

fn unary_node(operator: UnaryOperator, x: TermId) -> Node
    ensures tree { (g : Graph) → tree_of_node g result ≡ unary_term (unary_view operator) (tree g x.0) }
    ensures operands { operands_of result ≡ x.0 ∷ [] }
    ensures names { names_of result ≡ [] }
{
    match operator {
        UnaryOperator::Not => Node::Not(x),
        UnaryOperator::Neg => Node::Neg(x),
    }
}

fn binary_node(operator: BinaryOperator, x: TermId, y: TermId) -> Node
    ensures tree { (g : Graph) → tree_of_node g result ≡ binary_term (binary_view operator) (tree g x.0) (tree g y.0) }
    ensures operands { operands_of result ≡ x.0 ∷ y.0 ∷ [] }
    ensures names { names_of result ≡ [] }
{
    match operator {
        BinaryOperator::And => Node::And(x, y),
        BinaryOperator::Or => Node::Or(x, y),
        BinaryOperator::Xor => Node::Xor(x, y),
        BinaryOperator::Add => Node::Add(x, y),
        BinaryOperator::Sub => Node::Sub(x, y),
        BinaryOperator::Mul => Node::Mul(x, y),
        BinaryOperator::Shl => Node::Shl(x, y),
        BinaryOperator::Lshr => Node::Lshr(x, y),
        BinaryOperator::Ashr => Node::Ashr(x, y),
        BinaryOperator::Eq => Node::Eq(x, y),
        BinaryOperator::Ult => Node::Ult(x, y),
        BinaryOperator::Ule => Node::Ule(x, y),
        BinaryOperator::Slt => Node::Slt(x, y),
        BinaryOperator::Sle => Node::Sle(x, y),
        BinaryOperator::Concat => Node::Concat(x, y),
        BinaryOperator::Load => Node::Load(x, y),
    }
}

fn widening_node(widening: Widening, width: u32, x: TermId) -> Node
    ensures tree { (g : Graph) → tree_of_node g result ≡ widened_term (widening_view widening) width (tree g x.0) }
    ensures operands { operands_of result ≡ x.0 ∷ [] }
    ensures names { names_of result ≡ [] }
{
    match widening {
        Widening::Zext => Node::Zext(width, x),
        Widening::Sext => Node::Sext(width, x),
    }
}

/// Puts a word by its width in bits and its number.
pub(crate) fn put_const(terms: &mut Terms, width: u64, value: u128) -> Result<TermId, PutStop>
    ensures put { IsPut terms.old terms.new result (const width value) }
    ensures added { length terms.new.nodes ≤ length terms.old.nodes + 1 }
{
    if width > 128 {
        return Err(PutStop::BadSort);
    }
    put_node(terms, Node::Const(width as u32, value))
}

/// Puts an operator with one operand.
pub(crate) fn put_unary(
    terms: &mut Terms,
    operator: UnaryOperator,
    x: TermId,
) -> Result<TermId, PutStop>
    requires { x.0 < length terms.old.nodes }
    ensures put { IsPut terms.old terms.new result (unary_term (unary_view operator) (tree terms.old x.0)) }
    ensures added { length terms.new.nodes ≤ length terms.old.nodes + 1 }
{
    put_node(terms, unary_node(operator, x))
}

/// Puts an operator with two operands.
pub(crate) fn put_binary(
    terms: &mut Terms,
    operator: BinaryOperator,
    x: TermId,
    y: TermId,
) -> Result<TermId, PutStop>
    requires x { x.0 < length terms.old.nodes }
    requires y { y.0 < length terms.old.nodes }
    ensures put { IsPut terms.old terms.new result (binary_term (binary_view operator) (tree terms.old x.0) (tree terms.old y.0)) }
    ensures added { length terms.new.nodes ≤ length terms.old.nodes + 1 }
{
    put_node(terms, binary_node(operator, x, y))
}

/// Puts the bits of a word from a high index down to a low one.
pub(crate) fn put_extract(
    terms: &mut Terms,
    high: u64,
    low: u64,
    x: TermId,
) -> Result<TermId, PutStop>
    requires { x.0 < length terms.old.nodes }
    ensures put { IsPut terms.old terms.new result (extract high low (tree terms.old x.0)) }
    ensures added { length terms.new.nodes ≤ length terms.old.nodes + 1 }
{
    let _sort = terms.sort(x);
    if low > high || high >= 128 {
        return Err(PutStop::BadSort);
    }
    put_node(terms, Node::Extract(high as u32, low as u32, x))
}

/// Puts a word that is widened to a width in bits.
pub(crate) fn put_widened(
    terms: &mut Terms,
    widening: Widening,
    width: u64,
    x: TermId,
) -> Result<TermId, PutStop>
    requires { x.0 < length terms.old.nodes }
    ensures put { IsPut terms.old terms.new result (widened_term (widening_view widening) width (tree terms.old x.0)) }
    ensures added { length terms.new.nodes ≤ length terms.old.nodes + 1 }
{
    if width > 128 {
        return Err(PutStop::BadSort);
    }
    put_node(terms, widening_node(widening, width as u32, x))
}
