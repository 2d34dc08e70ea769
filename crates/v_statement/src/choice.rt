//! Which item of a case is run (1364-2005, 9.5): the first that matches, else the default.
ghost use Rattle.std.specs.Prelude.{◌≡◌, ◌≤◌, ◌<◌, ◌^◌, ◌==◌, max, length, None, IfSome, if◌then◌else◌};
ghost use Rattle.verilog_meaning.specs.Expression.{width_of, sign_of};
ghost use Rattle.verilog_meaning.specs.Statement.{wild_bits, matches, any_matches, greatest_width, all_signed, items_width, items_signed};
ghost use Rattle.v_value.specs.Scope.{scope_at, valuation_at};
ghost use Rattle.v_syntax.specs.Tree.{tree_of, case_kind_of, expressions_of};
ghost use Rattle.v_value.specs.Narrow.{IsNarrow, AreNarrow};
ghost use Rattle.v_statement.specs.Statements.{IsReadyFor};
ghost use Rattle.v_statement.specs.Effects.{item_list, AreValuesNarrow, matching_from, chosen_item};

use crate::evaluation::value_of;
use v_syntax::tree::{CaseItem, CaseKind, Expression};
use v_value::scope::{Entry, Scope};
use v_value::sign::sign_of;
use v_value::width::width_of;

/// This number where no link comes after it, else 0.
fn alone<T>(links: &[T], wild: u128) -> u128
    ensures { result ≡ (if length links.now == 0 then wild else 0) }
{
    if links.is_empty() { wild } else { 0 }
}

/// The z and `?` bits of a case item that is a number.
fn wild_bits(expression: &Expression<'_>) -> u128
    ensures { result ≡ wild_bits (tree_of expression.now) }
{
    match expression {
        Expression::Number(number) => number.wild,
        Expression::Prefix(operators, operand) => alone(operators, wild_bits(operand)),
        Expression::Binary(first, links) => alone(links, wild_bits(first)),
        Expression::Test(first, links) => alone(links, wild_bits(first)),
        Expression::Conditional(choices, last) => alone(choices, wild_bits(last)),
        Expression::Name(_, _)
        | Expression::Concatenation(_)
        | Expression::Replication(_, _)
        | Expression::AsSigned(_)
        | Expression::AsUnsigned(_) => 0,
    }
}

/// Whether an item's number matches, where these bits of it match any bit in `casez`.
fn matches(kind: CaseKind, wild: u128, value: u128, item: u128) -> bool
    ensures { result ≡ matches (case_kind_of kind) wild value item }
{
    match kind {
        CaseKind::Exact => value == item,
        CaseKind::Wild => value | wild == item | wild,
    }
}

/// Whether one of the expressions, widened to `width` bits by this sign, matches the value.
fn any_matches(
    expressions: &[Expression<'_>],
    scope: &Scope<'_>,
    values: &[Entry<'_>],
    kind: CaseKind,
    width: u32,
    signed: bool,
    value: u128,
) -> bool
    requires ready { IsReadyFor (scope_at scope.now) (valuation_at values.now) }
    requires narrow { AreNarrow (scope_at scope.now) (expressions_of expressions.now) }
    requires within { greatest_width (scope_at scope.now) (expressions_of expressions.now) ≤ width }
    requires at_most_128 { width ≤ 128 }
    ensures { result ≡ any_matches (scope_at scope.now) (valuation_at values.now) (case_kind_of kind) width signed value
        (expressions_of expressions.now) }
{
    for expression in expressions {
        let item = value_of(expression, scope, values, width, signed);
        if matches(kind, wild_bits(expression), value, item) {
            return true;
        }
    }
    false
}

/// The greatest width of the expressions, or this one where it is greater.
fn greatest_width(expressions: &[Expression<'_>], scope: &Scope<'_>, mut width: u32) -> u32
    requires { AreNarrow (scope_at scope.now) (expressions_of expressions.now) }
    ensures { result ≡ max width (greatest_width (scope_at scope.now) (expressions_of expressions.now)) }
{
    for expression in expressions {
        width = width.max(width_of(expression, scope));
    }
    width
}

/// Whether all the expressions are signed.
fn all_signed(expressions: &[Expression<'_>], scope: &Scope<'_>) -> bool
    ensures { result ≡ all_signed (scope_at scope.now) (expressions_of expressions.now) }
{
    for expression in expressions {
        if !sign_of(expression, scope) {
            return false;
        }
    }
    true
}

/// The greatest width of the items' expressions, or this one where it is greater.
fn items_width(items: &[CaseItem<'_>], scope: &Scope<'_>, mut width: u32) -> u32
    requires { AreValuesNarrow (scope_at scope.now) items.now }
    ensures { result ≡ max width (items_width (scope_at scope.now) (item_list items.now)) }
{
    for item in items {
        if let CaseItem::Values(expressions, _) = item {
            width = greatest_width(expressions, scope, width);
        }
    }
    width
}

/// Whether all the items' expressions are signed.
fn items_signed(items: &[CaseItem<'_>], scope: &Scope<'_>) -> bool
    ensures { result ≡ items_signed (scope_at scope.now) (item_list items.now) }
{
    for item in items {
        if let CaseItem::Values(expressions, _) = item
            && !all_signed(expressions, scope)
        {
            return false;
        }
    }
    true
}

/// The index of the item that is run for this value, widened as all items are.
fn matching(
    items: &[CaseItem<'_>],
    scope: &Scope<'_>,
    values: &[Entry<'_>],
    kind: CaseKind,
    width: u32,
    signed: bool,
    value: u128,
) -> Option<usize>
    requires ready { IsReadyFor (scope_at scope.now) (valuation_at values.now) }
    requires narrow { AreValuesNarrow (scope_at scope.now) items.now }
    requires within { items_width (scope_at scope.now) (item_list items.now) ≤ width }
    requires at_most_128 { width ≤ 128 }
    ensures { result ≡ matching_from (scope_at scope.now) (valuation_at values.now) (case_kind_of kind) width signed value 0 items.now None }
{
    let mut default = None;
    for (index, item) in items.iter().enumerate() {
        match item {
            CaseItem::Values(expressions, _) => {
                if any_matches(expressions, scope, values, kind, width, signed, value) {
                    return Some(index);
                }
            }
            CaseItem::Default(_) => default = Some(index),
        }
    }
    default
}

/// The index of the item of a case that is run, if one is.
pub(crate) fn chosen_item<'s>(
    expression: &Expression<'s>,
    items: &[CaseItem<'s>],
    scope: &Scope<'_>,
    values: &[Entry<'_>],
    kind: CaseKind,
) -> Option<usize>
    requires ready { IsReadyFor (scope_at scope.now) (valuation_at values.now) }
    requires narrow { IsNarrow (scope_at scope.now) (tree_of expression.now) }
    requires values_narrow { AreValuesNarrow (scope_at scope.now) items.now }
    ensures below { IfSome result (λ index. index < length items.now) }
    ensures value { result ≡ chosen_item (scope_at scope.now) (valuation_at values.now) (case_kind_of kind) (tree_of expression.now) items.now }
{
    let width = items_width(items, scope, width_of(expression, scope));
    let signed = sign_of(expression, scope) && items_signed(items, scope);
    let value = value_of(expression, scope, values, width, signed);
    matching(items, scope, values, kind, width, signed, value)
}
