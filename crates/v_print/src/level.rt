//! How tightly the outermost operator of an expression binds.
ghost use Rattle.std.specs.Prelude.{◌≡◌};
ghost use Rattle.v_syntax.specs.Tree.{tree_of};
ghost use Rattle.v_print.specs.Spelled.{printed_level};
ghost use Rattle.v_print.specs.Links.{level_over, level_after, level_after_tests, level_with, prefix_level};

use crate::operator::{link_level, test_level};
use v_syntax::tree::{BinaryLink, Choice, Expression, PrefixOperator, TestLink};

/// How tightly an operand of prefix operators must bind, where there are any.
pub(crate) fn prefix_level(operators: &[PrefixOperator]) -> u64
    ensures { result ≡ prefix_level operators.now }
{
    match operators {
        [] => 0,
        [_, ..] => 12,
    }
}

/// The level of operators before an operand of a level.
fn over_prefixes(operators: &[PrefixOperator], inner: u64) -> u64
    ensures { result ≡ level_over inner operators.now }
{
    match operators {
        [] => inner,
        [_, ..] => 12,
    }
}

/// The level of a chain whose first operand has a level.
fn level_of_links(first: u64, links: &[BinaryLink<'_>]) -> u64
    ensures { result ≡ level_after first links.now }
{
    let mut level = first;
    for link in links {
        level = link_level(link.operator);
    }
    level
}

/// The level of a chain of tests whose first operand has a level.
fn level_of_tests(first: u64, links: &[TestLink<'_>]) -> u64
    ensures { result ≡ level_after_tests first links.now }
{
    let mut level = first;
    for link in links {
        level = test_level(link.operator);
    }
    level
}

/// The level of choices before a last value of a level.
fn over_choices(choices: &[Choice<'_>], last: u64) -> u64
    ensures { result ≡ level_with last choices.now }
{
    match choices {
        [] => last,
        [_, ..] => 0,
    }
}

/// How tightly the outermost operator binds: 0 for `?:`, 1 to 11 for operators between operands, 12 for prefix operators, 13 for what
/// stands alone.
pub fn level_of(expression: &Expression<'_>) -> u64
    ensures { result ≡ printed_level (tree_of expression.now) }
{
    match expression {
        Expression::Number(_) => 13,
        Expression::Name(_, _) => 13,
        Expression::Concatenation(_) => 13,
        Expression::Replication(_, _) => 13,
        Expression::AsSigned(_) => 13,
        Expression::AsUnsigned(_) => 13,
        Expression::Prefix(operators, operand) => over_prefixes(operators, level_of(operand)),
        Expression::Binary(first, links) => level_of_links(level_of(first), links),
        Expression::Test(first, links) => level_of_tests(level_of(first), links),
        Expression::Conditional(choices, last) => over_choices(choices, level_of(last)),
    }
}
