//! What expressions are worth, as the rest of the workbench asks: values in a context, by themselves, as conditions and as assigned.
ghost use Rattle.std.specs.Prelude.{◌≡◌, [], ◌≤◌, ◌<◌, ◌^◌};
ghost use Rattle.verilog_meaning.specs.Expression as meaning;
ghost use Rattle.v_value.specs.Scope.{scope_at, valuation_at, valuation_in};
ghost use Rattle.v_syntax.specs.Tree.{tree_of};
ghost use Rattle.v_value.specs.Narrow.{IsNarrow, HasNarrowObjects, HasFittingValues};

use crate::scope::{Scope, Values};
use crate::sign::sign_of;
use crate::value::{self_word, value_in_context};
use crate::width::width_of;
use v_syntax::tree::Expression;
use wb_bits::Word;

/// The value of the expression in a context of `width` bits, at most 128 and no fewer than its own, where `signed` says
/// whether its operands are widened with their sign (1364-2005, 5.4.2 and 5.5.2).
pub fn value_of(
    expression: &Expression<'_>,
    scope: &Scope<'_>,
    values: &Values<'_>,
    width: u32,
    signed: bool,
) -> u128
    requires objects { HasNarrowObjects (scope_at scope.now) }
    requires values { HasFittingValues (scope_at scope.now) (valuation_in values.now) }
    requires narrow { IsNarrow (scope_at scope.now) (tree_of expression.now) }
    requires within { meaning.width_of (scope_at scope.now) (tree_of expression.now) ≤ width }
    requires at_most_128 { width ≤ 128 }
    ensures value { result ≡ meaning.value_of (scope_at scope.now) (valuation_in values.now) (tree_of expression.now) width signed }
    ensures fits { result < 2 ^ width }
{
    value_in_context(expression, scope, &values.entries, width, signed)
}

/// The value of the expression by itself, in a context of its own width and sign.
pub fn self_value(expression: &Expression<'_>, scope: &Scope<'_>, values: &Values<'_>) -> u128
    requires objects { HasNarrowObjects (scope_at scope.now) }
    requires values { HasFittingValues (scope_at scope.now) (valuation_in values.now) }
    requires narrow { IsNarrow (scope_at scope.now) (tree_of expression.now) }
    ensures { result ≡ meaning.self_value (scope_at scope.now) (valuation_in values.now) (tree_of expression.now) }
{
    self_word(expression, scope, &values.entries).value
}

/// Whether the expression is true as a condition: whether it is not 0.
pub fn is_true(expression: &Expression<'_>, scope: &Scope<'_>, values: &Values<'_>) -> bool
    requires objects { HasNarrowObjects (scope_at scope.now) }
    requires values { HasFittingValues (scope_at scope.now) (valuation_in values.now) }
    requires narrow { IsNarrow (scope_at scope.now) (tree_of expression.now) }
    ensures { result ≡ meaning.is_true (scope_at scope.now) (valuation_in values.now) (tree_of expression.now) }
{
    self_word(expression, scope, &values.entries).value != 0
}

/// The value that an assignment gives a target of `width` bits, 1 to 128: evaluated in the wider of both widths by the
/// expression's own sign, then cut (1364-2005, 5.4 and 5.5.3).
pub fn assigned_value(
    expression: &Expression<'_>,
    scope: &Scope<'_>,
    values: &Values<'_>,
    width: u32,
) -> u128
    requires objects { HasNarrowObjects (scope_at scope.now) }
    requires values { HasFittingValues (scope_at scope.now) (valuation_in values.now) }
    requires narrow { IsNarrow (scope_at scope.now) (tree_of expression.now) }
    requires some_bits { 1 ≤ width }
    requires at_most_128 { width ≤ 128 }
    ensures { result ≡ meaning.assigned_value (scope_at scope.now) (valuation_in values.now) width (tree_of expression.now) }
{
    let context = width.max(width_of(expression, scope));
    let signed = sign_of(expression, scope);
    let value = value_in_context(expression, scope, &values.entries, context, signed);
    Word::lowest_bits(width, value).value
}
