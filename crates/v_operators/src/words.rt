//! Numbers: constants, longer copies, arithmetic and bits.

ghost use Rattle.std.specs.Prelude.{ℕ, ◌<◌, ◌≤◌, ◌^◌, IfOk};
ghost use Rattle.wb_values.specs.Value.{word, Valuation};
ghost use Rattle.wb_values.specs.Number.{word_not, word_neg, word_and, word_or, word_xor, word_add, word_sub, word_mul};
ghost use Rattle.verilog_meaning.specs.Expression.{widened};
ghost use Rattle.v_operators.specs.Meaning.{Grows, IsOfSort, HasNumber, Makes, Joins};

use crate::NoMemory;
use crate::putting::put;
use wb_terms::{Node, TermId, Terms};

/// A number of `width` bits.
pub fn constant(terms: &mut Terms, width: u32, number: u128) -> Result<TermId, NoMemory>
    requires some_bits { 1 ≤ width }
    requires at_most_128 { width ≤ 128 }
    requires fits { number < 2 ^ width }
    ensures grows { Grows terms.old terms.new }
    ensures of_sort { IfOk result (λ r. IsOfSort terms.new r.0 (word width)) }
    ensures value { IfOk result (λ r. (p : Valuation) → HasNumber terms.new r.0 width p number) }
{
    let id = put(terms, Node::Const(width, number))?;
    Ok(id)
}

/// A number of `from` bits in a context of `to` bits: the sign bit is copied where the whole is signed.
pub fn widened(
    terms: &mut Terms,
    operand: TermId,
    from: u32,
    to: u32,
    signed: bool,
) -> Result<TermId, NoMemory>
    requires operand { IsOfSort terms.old operand.0 (word from) }
    requires wider { from ≤ to }
    requires at_most_128 { to ≤ 128 }
    ensures grows { Grows terms.old terms.new }
    ensures made { IfOk result (λ r. Makes terms.old terms.new operand.0 from r.0 to (widened signed from to)) }
{
    if from == to {
        return Ok(operand);
    }
    if signed {
        let id = put(terms, Node::Sext(to, operand))?;
        return Ok(id);
    }
    let id = put(terms, Node::Zext(to, operand))?;
    Ok(id)
}

/// The number negated, modulo 2^width.
pub fn negated(terms: &mut Terms, operand: TermId, width: u32) -> Result<TermId, NoMemory>
    requires { IsOfSort terms.old operand.0 (word width) }
    ensures grows { Grows terms.old terms.new }
    ensures made { IfOk result (λ r. Makes terms.old terms.new operand.0 width r.0 width (word_neg width)) }
{
    let id = put(terms, Node::Neg(operand))?;
    Ok(id)
}

/// Each bit flipped.
pub fn complement(terms: &mut Terms, operand: TermId, width: u32) -> Result<TermId, NoMemory>
    requires { IsOfSort terms.old operand.0 (word width) }
    ensures grows { Grows terms.old terms.new }
    ensures made { IfOk result (λ r. Makes terms.old terms.new operand.0 width r.0 width (word_not width)) }
{
    let id = put(terms, Node::Not(operand))?;
    Ok(id)
}

/// The sum modulo 2^width.
pub fn sum(terms: &mut Terms, left: TermId, right: TermId, width: u32) -> Result<TermId, NoMemory>
    requires left { IsOfSort terms.old left.0 (word width) }
    requires right { IsOfSort terms.old right.0 (word width) }
    ensures grows { Grows terms.old terms.new }
    ensures made { IfOk result (λ r. Joins terms.old terms.new left.0 width right.0 width r.0 width (word_add width)) }
{
    let id = put(terms, Node::Add(left, right))?;
    Ok(id)
}

/// The difference modulo 2^width.
pub fn difference(
    terms: &mut Terms,
    left: TermId,
    right: TermId,
    width: u32,
) -> Result<TermId, NoMemory>
    requires left { IsOfSort terms.old left.0 (word width) }
    requires right { IsOfSort terms.old right.0 (word width) }
    ensures grows { Grows terms.old terms.new }
    ensures made { IfOk result (λ r. Joins terms.old terms.new left.0 width right.0 width r.0 width (word_sub width)) }
{
    let id = put(terms, Node::Sub(left, right))?;
    Ok(id)
}

/// The product modulo 2^width.
pub fn product(
    terms: &mut Terms,
    left: TermId,
    right: TermId,
    width: u32,
) -> Result<TermId, NoMemory>
    requires left { IsOfSort terms.old left.0 (word width) }
    requires right { IsOfSort terms.old right.0 (word width) }
    ensures grows { Grows terms.old terms.new }
    ensures made { IfOk result (λ r. Joins terms.old terms.new left.0 width right.0 width r.0 width (word_mul width)) }
{
    let id = put(terms, Node::Mul(left, right))?;
    Ok(id)
}

/// The conjunction, bit by bit.
pub fn conjunction(
    terms: &mut Terms,
    left: TermId,
    right: TermId,
    width: u32,
) -> Result<TermId, NoMemory>
    requires left { IsOfSort terms.old left.0 (word width) }
    requires right { IsOfSort terms.old right.0 (word width) }
    ensures grows { Grows terms.old terms.new }
    ensures made { IfOk result (λ r. Joins terms.old terms.new left.0 width right.0 width r.0 width word_and) }
{
    let id = put(terms, Node::And(left, right))?;
    Ok(id)
}

/// The disjunction, bit by bit.
pub fn disjunction(
    terms: &mut Terms,
    left: TermId,
    right: TermId,
    width: u32,
) -> Result<TermId, NoMemory>
    requires left { IsOfSort terms.old left.0 (word width) }
    requires right { IsOfSort terms.old right.0 (word width) }
    ensures grows { Grows terms.old terms.new }
    ensures made { IfOk result (λ r. Joins terms.old terms.new left.0 width right.0 width r.0 width word_or) }
{
    let id = put(terms, Node::Or(left, right))?;
    Ok(id)
}

/// The exclusive or, bit by bit.
pub fn exclusive_or(
    terms: &mut Terms,
    left: TermId,
    right: TermId,
    width: u32,
) -> Result<TermId, NoMemory>
    requires left { IsOfSort terms.old left.0 (word width) }
    requires right { IsOfSort terms.old right.0 (word width) }
    ensures grows { Grows terms.old terms.new }
    ensures made { IfOk result (λ r. Joins terms.old terms.new left.0 width right.0 width r.0 width word_xor) }
{
    let id = put(terms, Node::Xor(left, right))?;
    Ok(id)
}
