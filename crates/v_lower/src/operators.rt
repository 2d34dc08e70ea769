//! Operators whose result is as wide as their context.

ghost use Rattle.std.specs.Prelude.{◌≡◌, ℕ, ◌≤◌, Bool, true, IfOk};
ghost use Rattle.wb_values.specs.Value.{word};
ghost use Rattle.verilog_trees.specs.Syntax.{Expression, as_signed, as_unsigned, arithmetic_right};
ghost use Rattle.wb_values.specs.Number.{word_not, word_xor};
ghost use Rattle.verilog_meaning.specs.Expression.{Scope, shift_value};
ghost use Rattle.v_syntax.specs.Tree.{prefixed, combined};
ghost use Rattle.v_operators.specs.Meaning.{Grows, IsOfSort, Joins};
ghost use Rattle.v_lower.specs.Kinds.{keeps_width, is_plain, is_shift};
ghost use Rattle.v_lower.specs.Lowered.{Images, HasImages, IsLowered, IsLoweredAlone};

use crate::NoMemory;
use v_operators::{
    complement, conjunction, difference, disjunction, exclusive_or, negated, product, shifted_left,
    shifted_right, shifted_right_signed, sum, widened,
};
use v_syntax::tree::{BinaryOperator, PrefixOperator};
use wb_terms::{TermId, Terms};

/// What `$signed` makes of an operand by itself, in a context of `to` bits.
pub fn lower_signed(
    terms: &mut Terms,
    operand: TermId,
    from: u32,
    to: u32,
    signed: bool,
) -> Result<TermId, NoMemory>
    requires operand { IsOfSort terms.old operand.0 (word from) }
    requires wider { from ≤ to }
    requires at_most_128 { to ≤ 128 }
    ensures grows { Grows terms.old terms.new }
    ensures lowered { IfOk result (λ r. (s : Scope) (images : Images) (x : Expression) → HasImages s images terms.old
        → IsLoweredAlone s images terms.old x from operand.0 → IsLowered s images terms.new (as_signed x) to signed r.0) }
{
    let id = widened(terms, operand, from, to, signed)?;
    Ok(id)
}

/// What `$unsigned` makes of an operand by itself, in a context of `to` bits.
pub fn lower_unsigned(
    terms: &mut Terms,
    operand: TermId,
    from: u32,
    to: u32,
    signed: bool,
) -> Result<TermId, NoMemory>
    requires operand { IsOfSort terms.old operand.0 (word from) }
    requires wider { from ≤ to }
    requires at_most_128 { to ≤ 128 }
    ensures grows { Grows terms.old terms.new }
    ensures lowered { IfOk result (λ r. (s : Scope) (images : Images) (x : Expression) → HasImages s images terms.old
        → IsLoweredAlone s images terms.old x from operand.0 → IsLowered s images terms.new (as_unsigned x) to signed r.0) }
{
    let id = widened(terms, operand, from, to, signed)?;
    Ok(id)
}

/// What `+`, `-` and `~` make of an operand in a context of `width` bits.
pub fn lower_prefix(
    terms: &mut Terms,
    operator: PrefixOperator,
    operand: TermId,
    width: u32,
) -> Result<TermId, NoMemory>
    requires operator { keeps_width operator ≡ true }
    requires operand { IsOfSort terms.old operand.0 (word width) }
    ensures grows { Grows terms.old terms.new }
    ensures of_sort { IfOk result (λ r. IsOfSort terms.new r.0 (word width)) }
    ensures lowered { IfOk result (λ r. (s : Scope) (images : Images) (x : Expression) (signed : Bool) → HasImages s images terms.old
        → IsLowered s images terms.old x width signed operand.0 → IsLowered s images terms.new (prefixed operator x) width signed r.0) }
{
    match operator {
        PrefixOperator::Plus => Ok(operand),
        PrefixOperator::Minus => {
            let id = negated(terms, operand, width)?;
            Ok(id)
        }
        PrefixOperator::Complement => {
            let id = complement(terms, operand, width)?;
            Ok(id)
        }
        _ => unreachable!(),
    }
}

/// The bits in which two numbers do not differ.
fn equivalence(
    terms: &mut Terms,
    left: TermId,
    right: TermId,
    width: u32,
) -> Result<TermId, NoMemory>
    requires left { IsOfSort terms.old left.0 (word width) }
    requires right { IsOfSort terms.old right.0 (word width) }
    ensures grows { Grows terms.old terms.new }
    ensures made { IfOk result (λ r. Joins terms.old terms.new left.0 width right.0 width r.0 width (λ a b. word_not width (word_xor a b))) }
{
    let differing = exclusive_or(terms, left, right, width)?;
    let id = complement(terms, differing, width)?;
    Ok(id)
}

/// What an operator makes of two operands in one context of `width` bits.
pub fn lower_binary(
    terms: &mut Terms,
    operator: BinaryOperator,
    left: TermId,
    right: TermId,
    width: u32,
) -> Result<TermId, NoMemory>
    requires operator { is_plain operator ≡ true }
    requires left { IsOfSort terms.old left.0 (word width) }
    requires right { IsOfSort terms.old right.0 (word width) }
    ensures grows { Grows terms.old terms.new }
    ensures of_sort { IfOk result (λ r. IsOfSort terms.new r.0 (word width)) }
    ensures lowered { IfOk result (λ r. (s : Scope) (images : Images) (x y : Expression) (signed : Bool) → HasImages s images terms.old
        → IsLowered s images terms.old x width signed left.0 → IsLowered s images terms.old y width signed right.0
        → IsLowered s images terms.new (combined operator x y) width signed r.0) }
{
    match operator {
        BinaryOperator::Multiply => {
            let id = product(terms, left, right, width)?;
            Ok(id)
        }
        BinaryOperator::Add => {
            let id = sum(terms, left, right, width)?;
            Ok(id)
        }
        BinaryOperator::Subtract => {
            let id = difference(terms, left, right, width)?;
            Ok(id)
        }
        BinaryOperator::And => {
            let id = conjunction(terms, left, right, width)?;
            Ok(id)
        }
        BinaryOperator::Xor => {
            let id = exclusive_or(terms, left, right, width)?;
            Ok(id)
        }
        BinaryOperator::Xnor => {
            let id = equivalence(terms, left, right, width)?;
            Ok(id)
        }
        BinaryOperator::Or => {
            let id = disjunction(terms, left, right, width)?;
            Ok(id)
        }
        _ => unreachable!(),
    }
}

/// What `>>>` makes of a number, which copies the top bit where the whole is signed.
fn shift_by_sign(
    terms: &mut Terms,
    operand: TermId,
    width: u32,
    signed: bool,
    count: TermId,
    count_width: u32,
) -> Result<TermId, NoMemory>
    requires operand { IsOfSort terms.old operand.0 (word width) }
    requires count { IsOfSort terms.old count.0 (word count_width) }
    ensures grows { Grows terms.old terms.new }
    ensures made { IfOk result (λ r. Joins terms.old terms.new operand.0 width count.0 count_width r.0 width (shift_value arithmetic_right width signed)) }
{
    if signed {
        let id = shifted_right_signed(terms, operand, width, count, count_width)?;
        return Ok(id);
    }
    let id = shifted_right(terms, operand, width, count, count_width)?;
    Ok(id)
}

/// What a shift makes of an operand in a context of `width` bits and this sign, and of a number of places by itself.
pub fn lower_shift(
    terms: &mut Terms,
    operator: BinaryOperator,
    operand: TermId,
    width: u32,
    signed: bool,
    count: TermId,
    count_width: u32,
) -> Result<TermId, NoMemory>
    requires operator { is_shift operator ≡ true }
    requires operand { IsOfSort terms.old operand.0 (word width) }
    requires count { IsOfSort terms.old count.0 (word count_width) }
    ensures grows { Grows terms.old terms.new }
    ensures of_sort { IfOk result (λ r. IsOfSort terms.new r.0 (word width)) }
    ensures lowered { IfOk result (λ r. (s : Scope) (images : Images) (x y : Expression) → HasImages s images terms.old
        → IsLowered s images terms.old x width signed operand.0 → IsLoweredAlone s images terms.old y count_width count.0
        → IsLowered s images terms.new (combined operator x y) width signed r.0) }
{
    match operator {
        BinaryOperator::ShiftLeft => {
            let id = shifted_left(terms, operand, width, count, count_width)?;
            Ok(id)
        }
        BinaryOperator::ShiftRight => {
            let id = shifted_right(terms, operand, width, count, count_width)?;
            Ok(id)
        }
        BinaryOperator::ArithmeticShiftRight => {
            let id = shift_by_sign(terms, operand, width, signed, count, count_width)?;
            Ok(id)
        }
        _ => unreachable!(),
    }
}
