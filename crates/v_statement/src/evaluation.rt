//! What statements read: the values that assignments give, conditions, and indexes.
ghost use Rattle.std.specs.Prelude.{◌≡◌, true, ◌≤◌, ◌<◌, ◌^◌};
ghost use Rattle.verilog_meaning.specs.Expression.{width_of, value_of, integer_of as meaning_integer, is_true, assigned_value, no_values};
ghost use Rattle.v_value.specs.Scope.{scope_at, valuation_at};
ghost use Rattle.v_syntax.specs.Tree.{tree_of};
ghost use Rattle.v_value.specs.Narrow.{IsNarrow, HasNarrowObjects};
ghost use Rattle.v_value.specs.Index.{integer_at};
ghost use Rattle.v_statement.specs.Statements.{IsReadyFor};

use crate::place::lowest;
use v_syntax::tree::Expression;
use v_value::scope::{Entry, Scope};
use v_value::select::Integer;
use v_value::sign::sign_of;
use v_value::taken::integer_of;
use v_value::value::value_in_context;
use v_value::width::width_of;

/// The value of the expression in a context of this width and sign.
pub(crate) fn value_of(
    expression: &Expression<'_>,
    scope: &Scope<'_>,
    values: &[Entry<'_>],
    width: u32,
    signed: bool,
) -> u128
    requires ready { IsReadyFor (scope_at scope.now) (valuation_at values.now) }
    requires narrow { IsNarrow (scope_at scope.now) (tree_of expression.now) }
    requires within { width_of (scope_at scope.now) (tree_of expression.now) ≤ width }
    requires at_most_128 { width ≤ 128 }
    ensures value { result ≡ value_of (scope_at scope.now) (valuation_at values.now) (tree_of expression.now) width signed }
    ensures fits { result < 2 ^ width }
{
    value_in_context(expression, scope, values, width, signed)
}

/// Whether the expression is true as a condition.
pub(crate) fn is_true(expression: &Expression<'_>, scope: &Scope<'_>, values: &[Entry<'_>]) -> bool
    requires ready { IsReadyFor (scope_at scope.now) (valuation_at values.now) }
    requires narrow { IsNarrow (scope_at scope.now) (tree_of expression.now) }
    ensures { result ≡ is_true (scope_at scope.now) (valuation_at values.now) (tree_of expression.now) }
{
    let width = width_of(expression, scope);
    let signed = sign_of(expression, scope);
    value_of(expression, scope, values, width, signed) > 0
}

/// The value that an assignment of the expression gives a target of `width` bits.
pub(crate) fn assigned_value(
    expression: &Expression<'_>,
    scope: &Scope<'_>,
    values: &[Entry<'_>],
    width: u32,
) -> u128
    requires ready { IsReadyFor (scope_at scope.now) (valuation_at values.now) }
    requires narrow { IsNarrow (scope_at scope.now) (tree_of expression.now) }
    requires at_most_128 { width ≤ 128 }
    ensures { result ≡ assigned_value (scope_at scope.now) (valuation_at values.now) width (tree_of expression.now) }
{
    let wider = width.max(width_of(expression, scope));
    let signed = sign_of(expression, scope);
    lowest(value_of(expression, scope, values, wider, signed), width)
}

/// The integer of a constant, read where no net or variable has a value.
pub(crate) fn constant_of(expression: &Expression<'_>, scope: &Scope<'_>) -> Integer
    requires objects { HasNarrowObjects (scope_at scope.now) }
    requires narrow { IsNarrow (scope_at scope.now) (tree_of expression.now) }
    ensures value { integer_at result ≡ meaning_integer (scope_at scope.now) no_values (tree_of expression.now) }
    ensures small { result.negative ≡ true → result.magnitude < 2 ^ 127 }
{
    integer_of(expression, scope, &[])
}
