//! Expressions of the forms that an emitted design has.

ghost use Rattle.std.specs.Prelude.{◌≡◌, IfOk};
ghost use Rattle.verilog_trees.specs.Syntax as pure;
ghost use Rattle.verilog_meaning.specs.Settled.{whole_name};
ghost use Rattle.v_syntax.specs.Tree.{tree_of, prefixed};
ghost use Rattle.v_syntax.specs.Chain.{chosen};
ghost use Rattle.term_expressions.specs.Expressions.{sized, plain, pair_of, bits_of, word_at, arithmetic_shift};
ghost use Rattle.emitted_modules.specs.Nodes.{filled_to};

use crate::NoMemory;
use crate::lists::{one, with};
use std::alloc::Global;
use v_expr::ExpressionStop;
use v_expr::node::{concatenation, with_choices, with_joint, with_prefixes};
use v_expr::operator::JointOperator;
use v_syntax::tree::{BinaryOperator, Choice, Expression, Number, PrefixOperator, Select, Selects};

/// A name, whole.
pub(crate) fn whole<'n>(name: &'n str) -> Expression<'n>
    ensures { tree_of result ≡ whole_name name.now }
{
    Expression::Name(name, Selects::Whole)
}

/// A number of so many bits.
pub(crate) fn sized<'n>(width: u32, value: u128) -> Expression<'n>
    ensures { tree_of result ≡ sized width value }
{
    Expression::Number(Number {
        width: u64::from(width),
        sized: true,
        signed: false,
        has_unknown: false,
        has_wild: false,
        value,
        unknown: 0,
        wild: 0,
    })
}

/// A number without a size.
pub(crate) fn plain<'n>(value: u128) -> Expression<'n>
    ensures { tree_of result ≡ plain value }
{
    Expression::Number(Number {
        width: 32,
        sized: false,
        signed: true,
        has_unknown: false,
        has_wild: false,
        value,
        unknown: 0,
        wild: 0,
    })
}

/// An operator before an operand.
pub(crate) fn prefixed<'n>(
    alloc: Global,
    operator: PrefixOperator,
    operand: Expression<'n>,
) -> Result<Expression<'n>, ExpressionStop>
    ensures { IfOk result (λ e. tree_of e ≡ prefixed operator (tree_of operand.entry)) }
{
    let mut operators = Vec::new(alloc);
    operators.push(operator)?;
    let made = with_prefixes(alloc, operators, operand)?;
    Ok(made)
}

/// A condition with a value, alone.
fn one_choice<'n>(
    alloc: Global,
    condition: Expression<'n>,
    value: Expression<'n>,
) -> Result<Vec<Choice<'n>>, NoMemory>
    ensures { IfOk result (λ v. (y : pure.Expression) → chosen v.items y ≡ pure.conditional (tree_of condition.entry) (tree_of value.entry) y) }
{
    let choices = one(alloc, Choice { condition, value })?;
    Ok(choices)
}

/// `c ? x : y`
pub(crate) fn conditional<'n>(
    alloc: Global,
    condition: Expression<'n>,
    value: Expression<'n>,
    other: Expression<'n>,
) -> Result<Expression<'n>, ExpressionStop>
    ensures { IfOk result (λ e. tree_of e ≡ pure.conditional (tree_of condition.entry) (tree_of value.entry) (tree_of other.entry)) }
{
    let choices = one_choice(alloc, condition, value)?;
    let made = with_choices(alloc, choices, other)?;
    Ok(made)
}

/// `{x, y}`
pub(crate) fn pair<'n>(
    alloc: Global,
    high: Expression<'n>,
    low: Expression<'n>,
) -> Result<Expression<'n>, ExpressionStop>
    ensures { IfOk result (λ e. tree_of e ≡ pair_of (tree_of high.entry) (tree_of low.entry)) }
{
    let first = one(alloc, high)?;
    let both = with(first, low)?;
    Ok(concatenation(both))
}

/// A word of so many bits filled with zeros to a width, if that is more.
pub(crate) fn filled<'n>(
    alloc: Global,
    word: Expression<'n>,
    from: u32,
    width: u32,
) -> Result<Expression<'n>, ExpressionStop>
    ensures { IfOk result (λ e. tree_of e ≡ filled_to width from (tree_of word.entry)) }
{
    if from < width {
        let made = pair(alloc, sized(width - from, 0), word)?;
        return Ok(made);
    }
    Ok(word)
}

/// `$signed(x)`
pub(crate) fn signed<'n>(
    alloc: Global,
    operand: Expression<'n>,
) -> Result<Expression<'n>, ExpressionStop>
    ensures { IfOk result (λ e. tree_of e ≡ pure.as_signed (tree_of operand.entry)) }
{
    let operand = Box::new(alloc, operand)?;
    Ok(Expression::AsSigned(operand))
}

/// `$unsigned(x)`
fn unsigned<'n>(alloc: Global, operand: Expression<'n>) -> Result<Expression<'n>, ExpressionStop>
    ensures { IfOk result (λ e. tree_of e ≡ pure.as_unsigned (tree_of operand.entry)) }
{
    let operand = Box::new(alloc, operand)?;
    Ok(Expression::AsUnsigned(operand))
}

/// `$unsigned($signed(x) >>> y)`
pub(crate) fn arithmetic_shift<'n>(
    alloc: Global,
    operand: Expression<'n>,
    count: Expression<'n>,
) -> Result<Expression<'n>, ExpressionStop>
    ensures { IfOk result (λ e. tree_of e ≡ arithmetic_shift (tree_of operand.entry) (tree_of count.entry)) }
{
    let operator = JointOperator::Binary(BinaryOperator::ArithmeticShiftRight);
    let left = signed(alloc, operand)?;
    let shifted = with_joint(alloc, left, operator, count)?;
    let made = unsigned(alloc, shifted)?;
    Ok(made)
}

/// A number without a size, in a box.
fn boxed<'n>(alloc: Global, value: u32) -> Result<Box<Expression<'n>>, NoMemory>
    ensures { IfOk result (λ b. tree_of b.value ≡ plain value) }
{
    Ok(Box::new(alloc, plain(u128::from(value)))?)
}

/// `n[h:l]`
pub(crate) fn bits<'n>(
    alloc: Global,
    name: &'n str,
    high: u32,
    low: u32,
) -> Result<Expression<'n>, ExpressionStop>
    ensures { IfOk result (λ e. tree_of e ≡ bits_of name.now high low) }
{
    let left = boxed(alloc, high)?;
    let right = boxed(alloc, low)?;
    Ok(Expression::Name(name, Selects::One(Select::Part(left, right))))
}

/// `m[e]`
pub(crate) fn word_at<'n>(
    alloc: Global,
    name: &'n str,
    address: Expression<'n>,
) -> Result<Expression<'n>, NoMemory>
    ensures { IfOk result (λ e. tree_of e ≡ word_at name.now (tree_of address.entry)) }
{
    let index = Box::new(alloc, address)?;
    Ok(Expression::Name(name, Selects::One(Select::Index(index))))
}

/// `x & y`
pub(crate) fn both<'n>(
    alloc: Global,
    x: Expression<'n>,
    y: Expression<'n>,
) -> Result<Expression<'n>, ExpressionStop>
    ensures { IfOk result (λ e. tree_of e ≡ pure.binary pure.bitwise_and (tree_of x.entry) (tree_of y.entry)) }
{
    let made = with_joint(alloc, x, JointOperator::Binary(BinaryOperator::And), y)?;
    Ok(made)
}

/// `x | y`
pub(crate) fn either<'n>(
    alloc: Global,
    x: Expression<'n>,
    y: Expression<'n>,
) -> Result<Expression<'n>, ExpressionStop>
    ensures { IfOk result (λ e. tree_of e ≡ pure.binary pure.bitwise_or (tree_of x.entry) (tree_of y.entry)) }
{
    let made = with_joint(alloc, x, JointOperator::Binary(BinaryOperator::Or), y)?;
    Ok(made)
}
