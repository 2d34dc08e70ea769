//! Whether an expression is the whole of a name.
ghost use Rattle.std.specs.Prelude.{◌≡◌, ◌&&◌};
ghost use Rattle.v_syntax.specs.Tree.{tree_of, selects_of};
ghost use Rattle.v_clocks.specs.Uses.{are_whole, is_whole_name};
ghost use Rattle.v_clocks.specs.Views.{are_none};

use v_syntax::tree::{Expression, Selects};

/// Whether this is so, and nothing else stands beside it.
fn alone<X>(others: &[X], holds: bool) -> bool
    ensures { result ≡ (are_none others.now && holds) }
{
    others.is_empty() && holds
}

/// Whether nothing is selected.
fn are_whole(selects: &Selects<'_>) -> bool
    ensures { result ≡ are_whole (selects_of selects.now) }
{
    match selects {
        Selects::Whole => true,
        Selects::One(_) => false,
        Selects::Two(_, _) => false,
    }
}

/// Whether an expression is the whole of a name. A chain without links is what stands in it.
#[cycle(whole)]
pub(crate) fn is_whole(expression: &Expression<'_>) -> bool
    ensures { result ≡ is_whole_name (tree_of expression.now) }
{
    match expression {
        Expression::Number(_) => false,
        Expression::Name(_, selects) => are_whole(selects),
        Expression::Concatenation(_) => false,
        Expression::Replication(_, _) => false,
        Expression::AsSigned(_) => false,
        Expression::AsUnsigned(_) => false,
        Expression::Prefix(operators, operand) => alone(operators, is_whole(operand)),
        Expression::Binary(first, links) => alone(links, is_whole(first)),
        Expression::Test(first, links) => alone(links, is_whole(first)),
        Expression::Conditional(choices, last) => alone(choices, is_whole(last)),
    }
}
