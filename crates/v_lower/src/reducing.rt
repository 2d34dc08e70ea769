//! Operators that make one bit of a whole operand.

ghost use Rattle.std.specs.Prelude.{◌≡◌, ℕ, ◌<◌, ◌≤◌, ◌-◌, ◌/◌, ◌%◌, ◌^◌, ◌==◌, Bool, true, not, IfOk, count_ones};
ghost use Rattle.wb_values.specs.Value.{word};
ghost use Rattle.verilog_trees.specs.Syntax.{Expression};
ghost use Rattle.verilog_meaning.specs.Expression.{Scope};
ghost use Rattle.v_syntax.specs.Tree.{prefixed};
ghost use Rattle.v_operators.specs.Meaning.{Grows, IsOfSort, Makes, Tests};
ghost use Rattle.v_lower.specs.Kinds.{is_test_of_all};
ghost use Rattle.v_lower.specs.Deciding.{reduced};
ghost use Rattle.v_lower.specs.Lowered.{Images, HasImages, IsLowered, IsLoweredAlone};

use crate::NoMemory;
use v_operators::{bit, constant, exclusive_or, is_equal, is_nonzero, part, put};
use v_syntax::tree::PrefixOperator;
use wb_terms::{Node, TermId, Terms};

/// Whether a number of `width` bits is this one.
fn is_number(
    terms: &mut Terms,
    operand: TermId,
    width: u32,
    number: u128,
) -> Result<TermId, NoMemory>
    requires operand { IsOfSort terms.old operand.0 (word width) }
    requires fits { number < 2 ^ width }
    ensures grows { Grows terms.old terms.new }
    ensures made { IfOk result (λ r. Tests terms.old terms.new operand.0 width r.0 (λ a. a == number)) }
{
    let other = constant(terms, width, number)?;
    let id = is_equal(terms, operand, other, width)?;
    Ok(id)
}

/// Whether a number of `width` bits is another than this one.
fn is_other(
    terms: &mut Terms,
    operand: TermId,
    width: u32,
    number: u128,
) -> Result<TermId, NoMemory>
    requires operand { IsOfSort terms.old operand.0 (word width) }
    requires fits { number < 2 ^ width }
    ensures grows { Grows terms.old terms.new }
    ensures made { IfOk result (λ r. Tests terms.old terms.new operand.0 width r.0 (λ a. not (a == number))) }
{
    let same = is_number(terms, operand, width, number)?;
    let id = put(terms, Node::Not(same))?;
    Ok(id)
}

/// The number with all of `width` bits set.
fn ones(width: u32) -> u128
    requires { width ≤ 128 }
    ensures value { result ≡ 2 ^ width - 1 }
    ensures fits { result < 2 ^ width }
{
    wb_bits::mask(width)
}

/// The bit of a number at this place, counted from 0 at the low end.
fn one_bit(terms: &mut Terms, operand: TermId, width: u32, place: u32) -> Result<TermId, NoMemory>
    requires operand { IsOfSort terms.old operand.0 (word width) }
    requires within { place < width }
    ensures grows { Grows terms.old terms.new }
    ensures made { IfOk result (λ r. Makes terms.old terms.new operand.0 width r.0 1 (λ a. a / 2 ^ place % 2)) }
{
    let id = part(terms, operand, width, place, place)?;
    Ok(id)
}

/// One bit: whether a number has an odd number of bits set.
fn parity(terms: &mut Terms, operand: TermId, width: u32) -> Result<TermId, NoMemory>
    requires operand { IsOfSort terms.old operand.0 (word width) }
    requires some_bits { 1 ≤ width }
    ensures grows { Grows terms.old terms.new }
    ensures made { IfOk result (λ r. Makes terms.old terms.new operand.0 width r.0 1 (λ a. count_ones a % 2)) }
{
    let top = one_bit(terms, operand, width, width - 1)?;
    let mut sum = top;
    for i in 1..width {
        let bit = one_bit(terms, operand, width, width - 1 - i)?;
        sum = exclusive_or(terms, sum, bit, 1)?;
    }
    Ok(sum)
}

/// Whether the number of bits that are set in a number is odd (1) or even (0).
fn has_parity(terms: &mut Terms, operand: TermId, width: u32, odd: u128) -> Result<TermId, NoMemory>
    requires operand { IsOfSort terms.old operand.0 (word width) }
    requires some_bits { 1 ≤ width }
    requires fits { odd < 2 ^ 1 }
    ensures grows { Grows terms.old terms.new }
    ensures made { IfOk result (λ r. Tests terms.old terms.new operand.0 width r.0 (λ a. count_ones a % 2 == odd)) }
{
    let bit = parity(terms, operand, width)?;
    let id = is_number(terms, bit, 1, odd)?;
    Ok(id)
}

/// What an operator says of a whole number of `width` bits.
fn reduced(
    terms: &mut Terms,
    operator: PrefixOperator,
    operand: TermId,
    width: u32,
) -> Result<TermId, NoMemory>
    requires operator { is_test_of_all operator ≡ true }
    requires operand { IsOfSort terms.old operand.0 (word width) }
    requires at_most_128 { width ≤ 128 }
    ensures grows { Grows terms.old terms.new }
    ensures made { IfOk result (λ r. Tests terms.old terms.new operand.0 width r.0 (reduced operator width)) }
{
    match operator {
        PrefixOperator::IsZero => {
            let id = is_number(terms, operand, width, 0)?;
            Ok(id)
        }
        PrefixOperator::AllOnes => {
            let id = is_number(terms, operand, width, ones(width))?;
            Ok(id)
        }
        PrefixOperator::NotAllOnes => {
            let id = is_other(terms, operand, width, ones(width))?;
            Ok(id)
        }
        PrefixOperator::AnyOne => {
            let id = is_nonzero(terms, operand, width)?;
            Ok(id)
        }
        PrefixOperator::NoOne => {
            let id = is_number(terms, operand, width, 0)?;
            Ok(id)
        }
        PrefixOperator::OddOnes => {
            let id = has_parity(terms, operand, width, 1)?;
            Ok(id)
        }
        PrefixOperator::EvenOnes => {
            let id = has_parity(terms, operand, width, 0)?;
            Ok(id)
        }
        _ => unreachable!(),
    }
}

/// What `!`, `&`, `~&`, `|`, `~|`, `^` and `~^` make of an operand by itself, of `own` bits, in a context of `width` bits.
pub fn lower_reduction(
    terms: &mut Terms,
    operator: PrefixOperator,
    operand: TermId,
    own: u32,
    width: u32,
) -> Result<TermId, NoMemory>
    requires operator { is_test_of_all operator ≡ true }
    requires operand { IsOfSort terms.old operand.0 (word own) }
    requires own_at_most_128 { own ≤ 128 }
    requires some_bits { 1 ≤ width }
    requires at_most_128 { width ≤ 128 }
    ensures grows { Grows terms.old terms.new }
    ensures of_sort { IfOk result (λ r. IsOfSort terms.new r.0 (word width)) }
    ensures lowered { IfOk result (λ r. (s : Scope) (images : Images) (x : Expression) (t : Bool) → HasImages s images terms.old
        → IsLoweredAlone s images terms.old x own operand.0 → IsLowered s images terms.new (prefixed operator x) width t r.0) }
{
    let said = reduced(terms, operator, operand, own)?;
    let id = bit(terms, said, width)?;
    Ok(id)
}
