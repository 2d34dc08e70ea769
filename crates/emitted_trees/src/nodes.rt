//! The expression of a term over the wires of earlier terms.

ghost use Rattle.std.specs.Prelude.{◌≡◌, ◌<◌, ◌≤◌, codes, length, IfOk, IsSome};
ghost use Rattle.wb_values.specs.Number.{word_extract};
ghost use Rattle.model_meaning.specs.Term.{sort_of, extract_sort};
ghost use Rattle.verilog_trees.specs.Syntax as pure;
ghost use Rattle.term_expressions.specs.Expressions as term;
ghost use Rattle.verilog_meaning.specs.Expression.{bit};
ghost use Rattle.wb_terms.specs.Graph.{AllBelow, names_of, operands_of, tree, tree_of_node};
ghost use Rattle.v_syntax.specs.Tree.{tree_of, prefixed, combined, tested};
ghost use Rattle.emitted_modules.specs.Nodes.{wire_name_of, leaf_or_wire, operand, bits_of_leaf_or_wire, bits_of_operand, width_at, filled_to, is_changed, word_of, expression_of};
ghost use Rattle.emitted_names.specs.Named.{AreNumbered};
ghost use Rattle.emitted_names.specs.Parts.{AreWordNames};
ghost use Rattle.emitted_trees.specs.Words.{HasWord, HasLoadedWord};

use crate::NoMemory;
use crate::expressions::{
    arithmetic_shift, bits, conditional, filled, pair, prefixed, signed, sized, whole, word_at,
};
use emitted_names::{PartName, name_at, node_of, part_name};
use std::alloc::Global;
use v_expr::ExpressionStop;
use v_expr::node::with_joint;
use v_expr::operator::JointOperator;
use v_syntax::tree::{BinaryOperator, Expression, PrefixOperator, TestOperator};
use wb_bits::{Word, extract};
use wb_terms::{Node, Sort, TermId, Terms};

/// The terms of a model, and the names of their wires by their ids.
#[derive(Clone, Copy)]
pub(crate) struct Wires<'n> {
    pub(crate) terms: &'n Terms,
    pub(crate) names: &'n [String],
}

/// Whether a node is a memory with a word stored to it, or a choice.
pub(crate) fn is_changed(node: Node) -> bool
    ensures { result ≡ is_changed node }
{
    match node {
        Node::Store(_, _, _) => true,
        Node::Ite(_, _, _) => true,
        _ => false,
    }
}

/// How many bits a term has that is a word.
fn width_of(terms: &Terms, id: TermId) -> u32
    requires { id.0 < length terms.now.nodes }
    ensures { result ≡ width_at terms.now id.0 }
{
    match terms.sort(id) {
        Sort::Word(width) => width,
        Sort::Truth => 0,
        Sort::Memory(_, _) => 0,
    }
}

/// A truth value as a number.
pub(crate) fn bit(truth: bool) -> u128
    ensures { result ≡ bit truth }
{
    if truth { 1 } else { 0 }
}

/// The name of a term's wire.
pub(crate) fn wire_name<'n>(wires: Wires<'n>, id: TermId) -> &'n str
    requires id { id.0 < length wires.terms.now.nodes }
    requires named { AreNumbered (codes "wb_t") (length wires.terms.now.nodes) wires.names.now }
    ensures { result.now ≡ wire_name_of id.0 }
{
    name_at(wires.names, id.0)
}

/// A name or a constant stands for itself, any other term is its wire.
fn leaf_or_wire<'n>(wires: Wires<'n>, id: TermId, node: Node) -> Expression<'n>
    requires id { id.0 < length wires.terms.now.nodes }
    requires names { AllBelow (length wires.terms.now.names) (names_of node) }
    requires named { AreNumbered (codes "wb_t") (length wires.terms.now.nodes) wires.names.now }
    ensures { tree_of result ≡ leaf_or_wire wires.entry.terms.now.names id.0 node }
{
    match node {
        Node::Name(name) => whole(wires.terms.name(name)),
        Node::Truth(truth) => sized(1, bit(truth)),
        Node::Const(width, value) => sized(width, value),
        _ => whole(wire_name(wires, id)),
    }
}

/// A term as an operand.
pub(crate) fn operand<'n>(wires: Wires<'n>, id: TermId) -> Expression<'n>
    requires id { id.0 < length wires.terms.now.nodes }
    requires named { AreNumbered (codes "wb_t") (length wires.terms.now.nodes) wires.names.now }
    ensures { tree_of result ≡ operand wires.entry.terms.now id.0 }
{
    leaf_or_wire(wires, id, node_of(wires.terms, id))
}

/// An operator before a term.
pub(crate) fn prefixed_term<'n>(
    alloc: Global,
    wires: Wires<'n>,
    operator: PrefixOperator,
    x: TermId,
) -> Result<Expression<'n>, ExpressionStop>
    requires x { x.0 < length wires.terms.now.nodes }
    requires named { AreNumbered (codes "wb_t") (length wires.terms.now.nodes) wires.names.now }
    ensures { IfOk result (λ e. tree_of e ≡ prefixed operator (operand wires.entry.terms.now x.0)) }
{
    let made = prefixed(alloc, operator, operand(wires, x))?;
    Ok(made)
}

/// An operator that makes a word, between two terms.
fn binary_terms<'n>(
    alloc: Global,
    wires: Wires<'n>,
    operator: BinaryOperator,
    x: TermId,
    y: TermId,
) -> Result<Expression<'n>, ExpressionStop>
    requires x { x.0 < length wires.terms.now.nodes }
    requires y { y.0 < length wires.terms.now.nodes }
    requires named { AreNumbered (codes "wb_t") (length wires.terms.now.nodes) wires.names.now }
    ensures { IfOk result (λ e. tree_of e ≡ combined operator (operand wires.entry.terms.now x.0) (operand wires.entry.terms.now y.0)) }
{
    let operator = JointOperator::Binary(operator);
    let made = with_joint(alloc, operand(wires, x), operator, operand(wires, y))?;
    Ok(made)
}

/// A test of two terms.
fn tested_terms<'n>(
    alloc: Global,
    wires: Wires<'n>,
    operator: TestOperator,
    x: TermId,
    y: TermId,
) -> Result<Expression<'n>, ExpressionStop>
    requires x { x.0 < length wires.terms.now.nodes }
    requires y { y.0 < length wires.terms.now.nodes }
    requires named { AreNumbered (codes "wb_t") (length wires.terms.now.nodes) wires.names.now }
    ensures { IfOk result (λ e. tree_of e ≡ tested operator (operand wires.entry.terms.now x.0) (operand wires.entry.terms.now y.0)) }
{
    let operator = JointOperator::Test(operator);
    let made = with_joint(alloc, operand(wires, x), operator, operand(wires, y))?;
    Ok(made)
}

/// A comparison of two terms in two's complement.
fn signed_test<'n>(
    alloc: Global,
    wires: Wires<'n>,
    operator: TestOperator,
    x: TermId,
    y: TermId,
) -> Result<Expression<'n>, ExpressionStop>
    requires x { x.0 < length wires.terms.now.nodes }
    requires y { y.0 < length wires.terms.now.nodes }
    requires named { AreNumbered (codes "wb_t") (length wires.terms.now.nodes) wires.names.now }
    ensures { IfOk result (λ e. tree_of e ≡ tested operator (pure.as_signed (operand wires.entry.terms.now x.0)) (pure.as_signed (operand wires.entry.terms.now y.0))) }
{
    let left = signed(alloc, operand(wires, x))?;
    let right = signed(alloc, operand(wires, y))?;
    let made = with_joint(alloc, left, JointOperator::Test(operator), right)?;
    Ok(made)
}

/// A term shifted to the right by another one, and filled with its top bit.
fn shifted_term<'n>(
    alloc: Global,
    wires: Wires<'n>,
    x: TermId,
    y: TermId,
) -> Result<Expression<'n>, ExpressionStop>
    requires x { x.0 < length wires.terms.now.nodes }
    requires y { y.0 < length wires.terms.now.nodes }
    requires named { AreNumbered (codes "wb_t") (length wires.terms.now.nodes) wires.names.now }
    ensures { IfOk result (λ e. tree_of e ≡ term.arithmetic_shift (operand wires.entry.terms.now x.0) (operand wires.entry.terms.now y.0)) }
{
    let made = arithmetic_shift(alloc, operand(wires, x), operand(wires, y))?;
    Ok(made)
}

/// The bits of a term above those of another one.
fn paired_terms<'n>(
    alloc: Global,
    wires: Wires<'n>,
    x: TermId,
    y: TermId,
) -> Result<Expression<'n>, ExpressionStop>
    requires x { x.0 < length wires.terms.now.nodes }
    requires y { y.0 < length wires.terms.now.nodes }
    requires named { AreNumbered (codes "wb_t") (length wires.terms.now.nodes) wires.names.now }
    ensures { IfOk result (λ e. tree_of e ≡ term.pair_of (operand wires.entry.terms.now x.0) (operand wires.entry.terms.now y.0)) }
{
    let made = pair(alloc, operand(wires, x), operand(wires, y))?;
    Ok(made)
}

/// Bits of a number.
fn bits_of_number(high: u32, low: u32, value: u128) -> u128
    requires order { low ≤ high }
    requires within { high < 128 }
    ensures { result ≡ word_extract high low value }
{
    let word = Word::new(128, value);
    extract(high, low, word).value
}

/// Bits of a name, of a constant, or of a term's wire. Verilog takes bits of names alone: those of a constant are a constant.
fn bits_of_leaf_or_wire<'n>(
    alloc: Global,
    wires: Wires<'n>,
    id: TermId,
    node: Node,
    high: u32,
    low: u32,
) -> Result<Expression<'n>, ExpressionStop>
    requires id { id.0 < length wires.terms.now.nodes }
    requires names { AllBelow (length wires.terms.now.names) (names_of node) }
    requires order { low ≤ high }
    requires within { high < 128 }
    requires named { AreNumbered (codes "wb_t") (length wires.terms.now.nodes) wires.names.now }
    ensures { IfOk result (λ e. tree_of e ≡ bits_of_leaf_or_wire wires.entry.terms.now.names id.0 node high low) }
{
    match node {
        Node::Name(name) => {
            let made = bits(alloc, wires.terms.name(name), high, low)?;
            Ok(made)
        }
        Node::Const(_, value) => Ok(sized(high + 1 - low, bits_of_number(high, low, value))),
        _ => {
            let made = bits(alloc, wire_name(wires, id), high, low)?;
            Ok(made)
        }
    }
}

/// Bits of a term.
fn bits_of_term<'n>(
    alloc: Global,
    wires: Wires<'n>,
    high: u32,
    low: u32,
    x: TermId,
) -> Result<Expression<'n>, ExpressionStop>
    requires x { x.0 < length wires.terms.now.nodes }
    requires sorted { IsSome (extract_sort high low (sort_of (tree wires.terms.now x.0))) }
    requires named { AreNumbered (codes "wb_t") (length wires.terms.now.nodes) wires.names.now }
    ensures { IfOk result (λ e. tree_of e ≡ bits_of_operand wires.entry.terms.now x.0 high low) }
{
    let _sort = wires.terms.sort(x);
    let node = node_of(wires.terms, x);
    let made = bits_of_leaf_or_wire(alloc, wires, x, node, high, low)?;
    Ok(made)
}

/// A word filled with zeros to so many bits.
fn filled_term<'n>(
    alloc: Global,
    wires: Wires<'n>,
    width: u32,
    x: TermId,
) -> Result<Expression<'n>, ExpressionStop>
    requires x { x.0 < length wires.terms.now.nodes }
    requires named { AreNumbered (codes "wb_t") (length wires.terms.now.nodes) wires.names.now }
    ensures { IfOk result (λ e. tree_of e ≡ filled_to width (width_at wires.entry.terms.now x.0) (operand wires.entry.terms.now x.0)) }
{
    let from = width_of(wires.terms, x);
    let made = filled(alloc, operand(wires, x), from, width)?;
    Ok(made)
}

/// A term as a number with a sign.
fn signed_term<'n>(
    alloc: Global,
    wires: Wires<'n>,
    x: TermId,
) -> Result<Expression<'n>, ExpressionStop>
    requires x { x.0 < length wires.terms.now.nodes }
    requires named { AreNumbered (codes "wb_t") (length wires.terms.now.nodes) wires.names.now }
    ensures { IfOk result (λ e. tree_of e ≡ pure.as_signed (operand wires.entry.terms.now x.0)) }
{
    let made = signed(alloc, operand(wires, x))?;
    Ok(made)
}

/// The choice of a term by a condition, or of another one.
fn chosen_term<'n>(
    alloc: Global,
    wires: Wires<'n>,
    condition: TermId,
    x: TermId,
    y: TermId,
) -> Result<Expression<'n>, ExpressionStop>
    requires condition { condition.0 < length wires.terms.now.nodes }
    requires x { x.0 < length wires.terms.now.nodes }
    requires y { y.0 < length wires.terms.now.nodes }
    requires named { AreNumbered (codes "wb_t") (length wires.terms.now.nodes) wires.names.now }
    ensures { IfOk result (λ e. tree_of e ≡ pure.conditional (operand wires.entry.terms.now condition.0) (operand wires.entry.terms.now x.0) (operand wires.entry.terms.now y.0)) }
{
    let made = conditional(
        alloc,
        operand(wires, condition),
        operand(wires, x),
        operand(wires, y),
    )?;
    Ok(made)
}

/// The word of a memory that has a name, at an address.
fn named_word<'n>(
    alloc: Global,
    wires: Wires<'n>,
    name: &'n str,
    address: TermId,
) -> Result<Expression<'n>, NoMemory>
    requires address { address.0 < length wires.terms.now.nodes }
    requires named { AreNumbered (codes "wb_t") (length wires.terms.now.nodes) wires.names.now }
    ensures { IfOk result (λ e. tree_of e ≡ term.word_at name.now (operand wires.entry.terms.now address.0)) }
{
    let made = word_at(alloc, name, operand(wires, address))?;
    Ok(made)
}

/// The word at an address of a memory with a word stored to it, by that of the memory.
pub(crate) fn stored_word<'n>(
    alloc: Global,
    rest: Expression<'n>,
    wires: Wires<'n>,
    address: TermId,
    at: TermId,
    value: TermId,
) -> Result<Expression<'n>, ExpressionStop>
    requires address { address.0 < length wires.terms.now.nodes }
    requires at { at.0 < length wires.terms.now.nodes }
    requires value { value.0 < length wires.terms.now.nodes }
    requires named { AreNumbered (codes "wb_t") (length wires.terms.now.nodes) wires.names.now }
    ensures { IfOk result (λ e. tree_of e ≡ pure.conditional (pure.comparison pure.equal (operand wires.entry.terms.now address.0) (operand wires.entry.terms.now at.0)) (operand wires.entry.terms.now value.0) (tree_of rest.entry)) }
{
    let test = tested_terms(alloc, wires, TestOperator::Equal, address, at)?;
    let made = conditional(alloc, test, operand(wires, value), rest)?;
    Ok(made)
}

/// The word at an address of one of two memories by a condition, by those of the two.
pub(crate) fn chosen_word<'n>(
    alloc: Global,
    first: Expression<'n>,
    second: Expression<'n>,
    wires: Wires<'n>,
    condition: TermId,
) -> Result<Expression<'n>, ExpressionStop>
    requires condition { condition.0 < length wires.terms.now.nodes }
    requires named { AreNumbered (codes "wb_t") (length wires.terms.now.nodes) wires.names.now }
    ensures { IfOk result (λ e. tree_of e ≡ pure.conditional (operand wires.entry.terms.now condition.0) (tree_of first.entry) (tree_of second.entry)) }
{
    let made = conditional(alloc, operand(wires, condition), first, second)?;
    Ok(made)
}

/// The word at the address of a load of one of the memories that its memory is made of. Of a name it is the word there, of another one a
/// wire.
pub(crate) fn word_of<'n>(
    alloc: Global,
    wires: Wires<'n>,
    row: &'n [PartName],
    load: TermId,
    address: TermId,
    memory: TermId,
) -> Result<Expression<'n>, ExpressionStop>
    requires address { address.0 < length wires.terms.now.nodes }
    requires memory { memory.0 < length wires.terms.now.nodes }
    requires named { AreNumbered (codes "wb_t") (length wires.terms.now.nodes) wires.names.now }
    requires row { AreWordNames wires.terms.now load.0 row.now }
    requires there { HasWord wires.terms.now row.now memory.0 }
    ensures { IfOk result (λ e. tree_of e ≡ word_of wires.entry.terms.now load.0 (operand wires.entry.terms.now address.0) memory.0) }
{
    let _load = load;
    match node_of(wires.terms, memory) {
        Node::Name(name) => {
            let made = named_word(alloc, wires, wires.terms.name(name), address)?;
            Ok(made)
        }
        _ => Ok(whole(part_name(row, memory))),
    }
}

/// The expression of a node over its operands.
pub(crate) fn expression_of<'n>(
    alloc: Global,
    wires: Wires<'n>,
    row: &'n [PartName],
    id: TermId,
    node: Node,
) -> Result<Expression<'n>, ExpressionStop>
    requires id { id.0 < length wires.terms.now.nodes }
    requires operands { AllBelow (length wires.terms.now.nodes) (operands_of node) }
    requires names { AllBelow (length wires.terms.now.names) (names_of node) }
    requires sorted { IsSome (sort_of (tree_of_node wires.terms.now node)) }
    requires named { AreNumbered (codes "wb_t") (length wires.terms.now.nodes) wires.names.now }
    requires row { AreWordNames wires.terms.now id.0 row.now }
    requires there { HasLoadedWord wires.terms.now row.now node }
    ensures { IfOk result (λ e. tree_of e ≡ expression_of wires.entry.terms.now id.0 node) }
{
    match node {
        Node::Name(_) => Ok(leaf_or_wire(wires, id, node)),
        Node::Truth(_) => Ok(leaf_or_wire(wires, id, node)),
        Node::Const(_, _) => Ok(leaf_or_wire(wires, id, node)),
        Node::Load(memory, address) => word_of(alloc, wires, row, id, address, memory),
        Node::Store(_, _, _) => Ok(leaf_or_wire(wires, id, node)),
        Node::Not(x) => prefixed_term(alloc, wires, PrefixOperator::Complement, x),
        Node::Neg(x) => prefixed_term(alloc, wires, PrefixOperator::Minus, x),
        Node::And(x, y) => binary_terms(alloc, wires, BinaryOperator::And, x, y),
        Node::Or(x, y) => binary_terms(alloc, wires, BinaryOperator::Or, x, y),
        Node::Xor(x, y) => binary_terms(alloc, wires, BinaryOperator::Xor, x, y),
        Node::Add(x, y) => binary_terms(alloc, wires, BinaryOperator::Add, x, y),
        Node::Sub(x, y) => binary_terms(alloc, wires, BinaryOperator::Subtract, x, y),
        Node::Mul(x, y) => binary_terms(alloc, wires, BinaryOperator::Multiply, x, y),
        Node::Shl(x, y) => binary_terms(alloc, wires, BinaryOperator::ShiftLeft, x, y),
        Node::Lshr(x, y) => binary_terms(alloc, wires, BinaryOperator::ShiftRight, x, y),
        Node::Ashr(x, y) => shifted_term(alloc, wires, x, y),
        Node::Eq(x, y) => tested_terms(alloc, wires, TestOperator::Equal, x, y),
        Node::Ult(x, y) => tested_terms(alloc, wires, TestOperator::Less, x, y),
        Node::Ule(x, y) => tested_terms(alloc, wires, TestOperator::LessOrEqual, x, y),
        Node::Slt(x, y) => signed_test(alloc, wires, TestOperator::Less, x, y),
        Node::Sle(x, y) => signed_test(alloc, wires, TestOperator::LessOrEqual, x, y),
        Node::Concat(x, y) => paired_terms(alloc, wires, x, y),
        Node::Extract(high, low, x) => bits_of_term(alloc, wires, high, low, x),
        Node::Zext(width, x) => filled_term(alloc, wires, width, x),
        Node::Sext(_, x) => signed_term(alloc, wires, x),
        Node::Ite(condition, x, y) => chosen_term(alloc, wires, condition, x, y),
    }
}
