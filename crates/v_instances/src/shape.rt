//! Whether an expression is a target as well: a name, or such side by side.
ghost use Rattle.std.specs.Prelude.{◌≡◌, ◌&&◌};
ghost use Rattle.v_syntax.specs.Tree.{tree_of};
ghost use Rattle.v_instances.specs.Connections.{is_target, are_targets, are_none};

use v_syntax::tree::Expression;

/// Whether this is so, and nothing else stands beside it.
fn alone<X>(others: &[X], holds: bool) -> bool
    ensures { result ≡ (are_none others.now && holds) }
{
    others.is_empty() && holds
}

/// Whether an expression is a target as well. A chain without links is what stands in it.
#[cycle(shape)]
pub(crate) fn is_target(expression: &Expression<'_>) -> bool
    ensures { result ≡ is_target (tree_of expression.now) }
{
    match expression {
        Expression::Number(_) => false,
        Expression::Name(_, _) => true,
        Expression::Concatenation(parts) => are_targets(parts),
        Expression::Replication(_, _) => false,
        Expression::AsSigned(_) => false,
        Expression::AsUnsigned(_) => false,
        Expression::Prefix(operators, operand) => alone(operators, is_target(operand)),
        Expression::Binary(first, links) => alone(links, is_target(first)),
        Expression::Test(first, links) => alone(links, is_target(first)),
        Expression::Conditional(choices, last) => alone(choices, is_target(last)),
    }
}

/// Whether all expressions are targets as well.
#[cycle(shape)]
fn are_targets(parts: &[Expression<'_>]) -> bool
    ensures { result ≡ are_targets parts.now }
{
    for part in parts {
        if !is_target(part) {
            return false;
        }
    }
    true
}
