//! Signs of expressions (1364-2005, 5.5.1).
ghost use Rattle.std.specs.Prelude.{◌≡◌, not, ◌&&◌};
ghost use Rattle.verilog_meaning.specs.Expression.{sign_of, selects_sign};
ghost use Rattle.v_value.specs.Scope.{object_of, scope_at};
ghost use Rattle.v_syntax.specs.Tree.{tree_of, selects_of};
ghost use Rattle.v_value.specs.Links.{is_reduction, has_reduction, has_no_link, leaves_to_left, links_signed, choices_signed};

use crate::scope::{Object, Scope};
use v_syntax::tree::{
    BinaryLink, BinaryOperator, Choice, Expression, PrefixOperator, Selects, TestLink,
};

/// Whether the operator makes one bit of a whole operand.
pub(crate) fn is_reduction(operator: PrefixOperator) -> bool
    ensures { result ≡ is_reduction operator }
{
    !matches!(
        operator,
        PrefixOperator::Plus | PrefixOperator::Minus | PrefixOperator::Complement
    )
}

/// Whether one of the operators makes one bit of a whole operand.
pub(crate) fn reduces(operators: &[PrefixOperator]) -> bool
    ensures { result ≡ has_reduction operators.now }
{
    for operator in operators {
        if is_reduction(*operator) {
            return true;
        }
    }
    false
}

/// Whether the operator leaves its sign to the left operand alone.
pub(crate) fn leaves_to_left(operator: BinaryOperator) -> bool
    ensures { result ≡ leaves_to_left operator }
{
    matches!(
        operator,
        BinaryOperator::Power
            | BinaryOperator::ShiftLeft
            | BinaryOperator::ShiftRight
            | BinaryOperator::ArithmeticShiftRight
    )
}

/// The sign of a name with selects.
fn selects_sign(object: Object, selects: &Selects<'_>) -> bool
    ensures { result ≡ selects_sign (object_of object) (selects_of selects.now) }
{
    match selects {
        Selects::Whole => object.signed,
        Selects::One(_) => object.addresses.is_some() && object.signed,
        Selects::Two(_, _) => false,
    }
}

/// The sign of a chain of tests whose first operand has this sign: it stands where no test follows.
fn tested_sign(signed: bool, links: &[TestLink<'_>]) -> bool
    ensures { result ≡ (has_no_link links.now && signed) }
{
    links.is_empty() && signed
}

/// The sign of an operand with this sign behind operators.
fn prefixed_sign(operators: &[PrefixOperator], signed: bool) -> bool
    ensures { result ≡ (not (has_reduction operators.now) && signed) }
{
    !reduces(operators) && signed
}

/// Whether the expression is signed.
#[cycle(sign)]
pub fn sign_of(expression: &Expression<'_>, scope: &Scope<'_>) -> bool
    ensures { result ≡ sign_of (scope_at scope.now) (tree_of expression.now) }
{
    match expression {
        Expression::Number(number) => number.signed,
        Expression::Name(name, selects) => selects_sign(scope.object(name), selects),
        Expression::Concatenation(_) | Expression::Replication(_, _) => false,
        Expression::AsSigned(_) => true,
        Expression::AsUnsigned(_) => false,
        Expression::Prefix(operators, operand) => prefixed_sign(operators, sign_of(operand, scope)),
        Expression::Binary(first, links) => linked_sign(links, scope, sign_of(first, scope)),
        Expression::Test(first, links) => tested_sign(sign_of(first, scope), links),
        Expression::Conditional(choices, last) => chosen_sign(choices, scope, sign_of(last, scope)),
    }
}

/// The sign of a chain whose first operand has this sign.
#[cycle(sign)]
fn linked_sign(links: &[BinaryLink<'_>], scope: &Scope<'_>, signed: bool) -> bool
    ensures { result ≡ (signed && links_signed (scope_at scope.now) links.now) }
{
    for link in links {
        if !leaves_to_left(link.operator) && !sign_of(&link.operand, scope) {
            return false;
        }
    }
    signed
}

/// The sign of a conditional whose last value has this sign.
#[cycle(sign)]
fn chosen_sign(choices: &[Choice<'_>], scope: &Scope<'_>, signed: bool) -> bool
    ensures { result ≡ (choices_signed (scope_at scope.now) choices.now && signed) }
{
    for choice in choices {
        if !sign_of(&choice.value, scope) {
            return false;
        }
    }
    signed
}
