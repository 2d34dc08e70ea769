//! Which right sides are plain: names with constant selects, numbers, concatenations and replications alone.

ghost use Rattle.std.specs.Prelude.{◌≡◌, ◌&&◌};
ghost use Rattle.v_syntax.specs.Tree.{tree_of};
ghost use Rattle.v_value.specs.Scope.{scope_at};
ghost use Rattle.v_depend.specs.Copying.{plain_at, parts_plain, has_none};

use v_flow::are_constant_selects;
use v_syntax::tree::{BinaryLink, Choice, Expression, PrefixOperator, TestLink};
use v_value::scope::Scope;

/// Whether an operand after operators is plain, where it is by itself.
fn prefixed(operators: &[PrefixOperator], plain: bool) -> bool
    ensures { result ≡ (has_none operators.now && plain) }
{
    operators.is_empty() && plain
}

fn linked(links: &[BinaryLink<'_>], plain: bool) -> bool
    ensures { result ≡ (has_none links.now && plain) }
{
    links.is_empty() && plain
}

fn tested(links: &[TestLink<'_>], plain: bool) -> bool
    ensures { result ≡ (has_none links.now && plain) }
{
    links.is_empty() && plain
}

fn chosen(choices: &[Choice<'_>], plain: bool) -> bool
    ensures { result ≡ (has_none choices.now && plain) }
{
    choices.is_empty() && plain
}

/// Whether an expression is plain.
#[cycle(plain)]
pub(crate) fn is_plain(expression: &Expression<'_>, scope: &Scope<'_>) -> bool
    ensures { result ≡ plain_at (scope_at scope.now) (tree_of expression.now) }
{
    match expression {
        Expression::Number(_) => true,
        Expression::Name(_, selects) => are_constant_selects(selects, scope),
        Expression::Concatenation(parts) => are_plain(parts, scope),
        Expression::Replication(_, parts) => are_plain(parts, scope),
        Expression::AsSigned(_) => false,
        Expression::AsUnsigned(_) => false,
        Expression::Prefix(operators, operand) => prefixed(operators, is_plain(operand, scope)),
        Expression::Binary(first, links) => linked(links, is_plain(first, scope)),
        Expression::Test(first, links) => tested(links, is_plain(first, scope)),
        Expression::Conditional(choices, last) => chosen(choices, is_plain(last, scope)),
    }
}

#[cycle(plain)]
fn are_plain(parts: &[Expression<'_>], scope: &Scope<'_>) -> bool
    ensures { result ≡ parts_plain (scope_at scope.now) parts.now }
{
    for part in parts {
        if !is_plain(part, scope) {
            return false;
        }
    }
    true
}
