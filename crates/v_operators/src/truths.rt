//! Truth values: numbers that are not 0, comparisons, connectives, and choices by them.

ghost use Rattle.std.specs.Prelude.{ℕ, ◌≤◌, ◌&&◌, ◌||◌, ◌==◌, not, IfOk, int_lt, int_le};
ghost use Rattle.wb_values.specs.Value.{truth, word};
ghost use Rattle.verilog_meaning.specs.Expression.{is_nonzero, bit, integer_from};
ghost use Rattle.v_operators.specs.Meaning.{Grows, IsOfSort, Tests, Compares, Counts, Connects, Chooses};

use crate::NoMemory;
use crate::putting::put;
use crate::words::constant;
use wb_terms::{Node, TermId, Terms};

/// Whether a number is not 0: of a constant a constant.
pub fn is_nonzero(terms: &mut Terms, operand: TermId, width: u32) -> Result<TermId, NoMemory>
    requires { IsOfSort terms.old operand.0 (word width) }
    ensures grows { Grows terms.old terms.new }
    ensures made { IfOk result (λ r. Tests terms.old terms.new operand.0 width r.0 is_nonzero) }
{
    match *terms.node(operand) {
        Node::Const(_, number) => {
            let id = put(terms, Node::Truth(number != 0))?;
            Ok(id)
        }
        _ => is_above_zero(terms, operand, width),
    }
}

/// Whether 0 is below a number.
fn is_above_zero(terms: &mut Terms, operand: TermId, width: u32) -> Result<TermId, NoMemory>
    requires { IsOfSort terms.old operand.0 (word width) }
    ensures grows { Grows terms.old terms.new }
    ensures made { IfOk result (λ r. Tests terms.old terms.new operand.0 width r.0 is_nonzero) }
{
    let zero = constant(terms, width, 0)?;
    let id = put(terms, Node::Ult(zero, operand))?;
    Ok(id)
}

/// Whether one number is below another, by their signs.
pub fn is_below(
    terms: &mut Terms,
    left: TermId,
    right: TermId,
    width: u32,
    signed: bool,
) -> Result<TermId, NoMemory>
    requires left { IsOfSort terms.old left.0 (word width) }
    requires right { IsOfSort terms.old right.0 (word width) }
    ensures grows { Grows terms.old terms.new }
    ensures made { IfOk result (λ r. Compares terms.old terms.new left.0 right.0 width r.0 (λ a b. int_lt (integer_from signed width a) (integer_from signed width b))) }
{
    if signed {
        let id = put(terms, Node::Slt(left, right))?;
        return Ok(id);
    }
    let id = put(terms, Node::Ult(left, right))?;
    Ok(id)
}

/// Whether one number is at most another, by their signs.
pub fn is_at_most(
    terms: &mut Terms,
    left: TermId,
    right: TermId,
    width: u32,
    signed: bool,
) -> Result<TermId, NoMemory>
    requires left { IsOfSort terms.old left.0 (word width) }
    requires right { IsOfSort terms.old right.0 (word width) }
    ensures grows { Grows terms.old terms.new }
    ensures made { IfOk result (λ r. Compares terms.old terms.new left.0 right.0 width r.0 (λ a b. int_le (integer_from signed width a) (integer_from signed width b))) }
{
    if signed {
        let id = put(terms, Node::Sle(left, right))?;
        return Ok(id);
    }
    let id = put(terms, Node::Ule(left, right))?;
    Ok(id)
}

/// Whether two numbers are equal.
pub fn is_equal(
    terms: &mut Terms,
    left: TermId,
    right: TermId,
    width: u32,
) -> Result<TermId, NoMemory>
    requires left { IsOfSort terms.old left.0 (word width) }
    requires right { IsOfSort terms.old right.0 (word width) }
    ensures grows { Grows terms.old terms.new }
    ensures made { IfOk result (λ r. Compares terms.old terms.new left.0 right.0 width r.0 (λ a b. a == b)) }
{
    let id = put(terms, Node::Eq(left, right))?;
    Ok(id)
}

/// Whether both hold.
pub fn both(terms: &mut Terms, left: TermId, right: TermId) -> Result<TermId, NoMemory>
    requires left { IsOfSort terms.old left.0 truth }
    requires right { IsOfSort terms.old right.0 truth }
    ensures grows { Grows terms.old terms.new }
    ensures made { IfOk result (λ r. Connects terms.old terms.new left.0 right.0 r.0 (λ a b. a && b)) }
{
    let id = put(terms, Node::And(left, right))?;
    Ok(id)
}

/// Whether one of the two holds.
pub fn either(terms: &mut Terms, left: TermId, right: TermId) -> Result<TermId, NoMemory>
    requires left { IsOfSort terms.old left.0 truth }
    requires right { IsOfSort terms.old right.0 truth }
    ensures grows { Grows terms.old terms.new }
    ensures made { IfOk result (λ r. Connects terms.old terms.new left.0 right.0 r.0 (λ a b. a || b)) }
{
    let id = put(terms, Node::Or(left, right))?;
    Ok(id)
}

/// One of two words where a truth value holds, and else the other.
pub fn choice(
    terms: &mut Terms,
    condition: TermId,
    chosen: TermId,
    other: TermId,
    width: u32,
) -> Result<TermId, NoMemory>
    requires condition { IsOfSort terms.old condition.0 truth }
    requires chosen { IsOfSort terms.old chosen.0 (word width) }
    requires other { IsOfSort terms.old other.0 (word width) }
    ensures grows { Grows terms.old terms.new }
    ensures made { IfOk result (λ r. Chooses terms.old terms.new condition.0 chosen.0 other.0 width r.0) }
{
    let id = put(terms, Node::Ite(condition, chosen, other))?;
    Ok(id)
}

/// A truth value as a number of `width` bits: 1 or 0.
pub fn bit(terms: &mut Terms, condition: TermId, width: u32) -> Result<TermId, NoMemory>
    requires condition { IsOfSort terms.old condition.0 truth }
    requires some_bits { 1 ≤ width }
    requires at_most_128 { width ≤ 128 }
    ensures grows { Grows terms.old terms.new }
    ensures made { IfOk result (λ r. Counts terms.old terms.new condition.0 r.0 width bit) }
{
    let one = constant(terms, width, 1)?;
    let zero = constant(terms, width, 0)?;
    let id = choice(terms, condition, one, zero, width)?;
    Ok(id)
}
