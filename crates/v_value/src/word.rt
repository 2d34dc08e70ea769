//! What the operators do to numbers of so many bits, 1 to 128, with 1364's signs.
ghost use Rattle.std.specs.Prelude.{◌≡◌, ℕ, true, false, ◌^◌, ◌<◌, ◌≤◌, int_lt, int_le};
ghost use Rattle.verilog_meaning.specs.Expression.{widened, integer_from, bit};
ghost use Rattle.v_value.specs.Links.{is_reduction};
ghost use Rattle.v_value.specs.Operators as operators;

use crate::arithmetic::{natural, power, quotient, remainder};
use v_syntax::tree::{BinaryOperator, PrefixOperator, TestOperator};
use wb_bits::Word;

/// The truth value as one bit.
pub(crate) fn bit(truth: bool) -> u128
    ensures value { result ≡ bit truth }
    ensures fits { result < 2 }
{
    if truth { 1 } else { 0 }
}

/// The number widened from `from` to `to` bits, with its sign bit where the whole is signed.
pub(crate) fn widened(signed: bool, from: u32, to: u32, value: u128) -> u128
    requires some_bits { 1 ≤ from }
    requires wider { from ≤ to }
    requires at_most_128 { to ≤ 128 }
    requires fits { value < 2 ^ from }
    ensures value { result ≡ widened signed from to value }
    ensures fits { result < 2 ^ to }
{
    let word = Word::new(from, value);
    if signed {
        wb_bits::sext(to, word).value
    } else {
        wb_bits::zext(to, word).value
    }
}

/// What `+`, `-` and `~` make of a number of `width` bits.
pub(crate) fn unary(operator: PrefixOperator, width: u32, value: u128) -> u128
    requires unary { is_reduction operator ≡ false }
    requires some_bits { 1 ≤ width }
    requires at_most_128 { width ≤ 128 }
    requires fits { value < 2 ^ width }
    ensures value { result ≡ operators.unary_prefix_value operator width value }
    ensures fits { result < 2 ^ width }
{
    let word = Word::new(width, value);
    match operator {
        PrefixOperator::Minus => wb_bits::neg(word).value,
        PrefixOperator::Complement => wb_bits::not(word).value,
        _ => word.value,
    }
}

/// What the other prefix operators make of a number of `width` bits.
pub(crate) fn reduction(operator: PrefixOperator, width: u32, value: u128) -> bool
    requires reduces { is_reduction operator ≡ true }
    requires some_bits { 1 ≤ width }
    requires at_most_128 { width ≤ 128 }
    requires fits { value < 2 ^ width }
    ensures { result ≡ operators.reduction_prefix_value operator width value }
{
    let ones = value.count_ones();
    match operator {
        PrefixOperator::AllOnes => value == wb_bits::mask(width),
        PrefixOperator::NotAllOnes => value != wb_bits::mask(width),
        PrefixOperator::AnyOne => value != 0,
        PrefixOperator::OddOnes => ones % 2 == 1,
        PrefixOperator::EvenOnes => ones % 2 == 0,
        _ => value == 0,
    }
}

/// The word of this width shifted by the unsigned number `count`.
fn shifted(operator: BinaryOperator, width: u32, signed: bool, value: u128, count: u128) -> u128
    requires some_bits { 1 ≤ width }
    requires at_most_128 { width ≤ 128 }
    requires fits { value < 2 ^ width }
    ensures value { result ≡ operators.shifted_value operator width signed value count }
    ensures fits { result < 2 ^ width }
{
    let word = Word::new(width, value);
    let places = Word::new(width, count.min(u128::from(width)));
    match operator {
        BinaryOperator::ShiftLeft => wb_bits::shl(word, places).value,
        BinaryOperator::ArithmeticShiftRight if signed => wb_bits::ashr(word, places).value,
        _ => wb_bits::lshr(word, places).value,
    }
}

/// What a shift or `**` makes of a number of `width` bits and an operand by itself.
pub(crate) fn by_operand(
    operator: BinaryOperator,
    width: u32,
    signed: bool,
    value: u128,
    operand: Word,
    operand_signed: bool,
) -> u128
    requires some_bits { 1 ≤ width }
    requires at_most_128 { width ≤ 128 }
    requires fits { value < 2 ^ width }
    ensures value { result ≡ operators.outer_value operator width signed value operand_signed operand.width operand.value }
    ensures fits { result < 2 ^ width }
{
    match operator {
        BinaryOperator::Power => power(width, value, natural(operand_signed, operand)),
        _ => shifted(operator, width, signed, value, operand.value),
    }
}

/// What an operator other than `**` and the shifts makes of two numbers of `width` bits.
pub(crate) fn binary(operator: BinaryOperator, width: u32, signed: bool, x: u128, y: u128) -> u128
    requires some_bits { 1 ≤ width }
    requires at_most_128 { width ≤ 128 }
    requires left_fits { x < 2 ^ width }
    requires right_fits { y < 2 ^ width }
    ensures value { result ≡ operators.plain_value operator width signed x y }
    ensures fits { result < 2 ^ width }
{
    let left = Word::new(width, x);
    let right = Word::new(width, y);
    match operator {
        BinaryOperator::Add => wb_bits::add(left, right).value,
        BinaryOperator::Subtract => wb_bits::sub(left, right).value,
        BinaryOperator::Multiply => wb_bits::mul(left, right).value,
        BinaryOperator::Divide => quotient(signed, width, x, y),
        BinaryOperator::Modulo => remainder(signed, width, x, y),
        BinaryOperator::And => wb_bits::and(left, right).value,
        BinaryOperator::Or => wb_bits::or(left, right).value,
        BinaryOperator::Xor => wb_bits::xor(left, right).value,
        BinaryOperator::Xnor => wb_bits::not(wb_bits::xor(left, right)).value,
        _ => x,
    }
}

/// Whether one number of `width` bits is below another, as their signs say.
fn is_below(signed: bool, width: u32, x: u128, y: u128) -> bool
    requires some_bits { 1 ≤ width }
    requires at_most_128 { width ≤ 128 }
    requires left_fits { x < 2 ^ width }
    requires right_fits { y < 2 ^ width }
    ensures { result ≡ int_lt (integer_from signed width x) (integer_from signed width y) }
{
    if signed {
        wb_bits::slt(Word::new(width, x), Word::new(width, y))
    } else {
        x < y
    }
}

/// Whether one number of `width` bits is at most another, as their signs say.
fn is_at_most(signed: bool, width: u32, x: u128, y: u128) -> bool
    requires some_bits { 1 ≤ width }
    requires at_most_128 { width ≤ 128 }
    requires left_fits { x < 2 ^ width }
    requires right_fits { y < 2 ^ width }
    ensures { result ≡ int_le (integer_from signed width x) (integer_from signed width y) }
{
    if signed {
        wb_bits::sle(Word::new(width, x), Word::new(width, y))
    } else {
        x <= y
    }
}

/// What a comparison says of two numbers of `width` bits.
pub(crate) fn compared(operator: TestOperator, signed: bool, width: u32, x: u128, y: u128) -> bool
    requires some_bits { 1 ≤ width }
    requires at_most_128 { width ≤ 128 }
    requires left_fits { x < 2 ^ width }
    requires right_fits { y < 2 ^ width }
    ensures { result ≡ operators.compared_value operator (integer_from signed width x) (integer_from signed width y) }
{
    match operator {
        TestOperator::Less => is_below(signed, width, x, y),
        TestOperator::LessOrEqual => is_at_most(signed, width, x, y),
        TestOperator::Greater => is_below(signed, width, y, x),
        TestOperator::GreaterOrEqual => is_at_most(signed, width, y, x),
        TestOperator::NotEqual => is_below(signed, width, x, y) || is_below(signed, width, y, x),
        _ => is_at_most(signed, width, x, y) && is_at_most(signed, width, y, x),
    }
}

/// What `&&` or `||` makes of two truth values.
pub(crate) fn logical(operator: TestOperator, x: bool, y: bool) -> bool
    ensures { result ≡ operators.joined_truth operator x y }
{
    match operator {
        TestOperator::Both => x && y,
        _ => x || y,
    }
}
