//! The rules that expressions break: by themselves, as bounds of ranges, and as items of a case.
ghost use Rattle.std.specs.Prelude.{◌≡◌, option_map, Some, is_none};
ghost use Rattle.verilog_designs.specs.Known.{as_bound};
ghost use Rattle.verilog_designs.specs.Expressions as designs;
ghost use Rattle.v_value.specs.Index.{integer_at};
ghost use Rattle.v_value.specs.Scope.{scope_at};
ghost use Rattle.v_syntax.specs.Tree.{tree_of, number_of, case_kind_of};
ghost use Rattle.v_syntax.specs.Source.{optional_range_of};
ghost use Rattle.v_size.specs.Rule.{number_at};
ghost use Rattle.v_rules.specs.Judging.{broken_at, bound_at, range_at, number_in, number_alone, are_none, has_wrong_wild, judged_number, value_at, values_from, none};

use v_size::{Broken, Names, also, broken_in, constant_if, constant_in, nothing};
use v_syntax::module::Range;
use v_syntax::tree::{CaseKind, Expression, Number};
use v_value::select::Integer;

/// The rules that an expression breaks where anything may be read.
pub(crate) fn broken_expression(expression: &Expression<'_>, names: Names<'_, '_>) -> Broken
    ensures { result ≡ broken_at (scope_at names.entry.scope.now) (tree_of expression.now) }
{
    broken_in(expression, names)
}

/// Whether the number is outside 0 to 65,535.
fn is_no_bound(number: Integer) -> bool
    ensures { result ≡ is_none (as_bound (Some (integer_at number))) }
{
    number.negative || number.magnitude > 65_535
}

/// Whether the number of a bound, where it has one, is outside 0 to 65,535.
fn is_outside(number: Option<Integer>) -> bool
    ensures { result ≡ designs.is_outside (number_at number) }
{
    match number {
        Some(number) => is_no_bound(number),
        None => false,
    }
}

/// The rules that a bound of a declared range breaks.
fn broken_bound(expression: &Expression<'_>, names: Names<'_, '_>) -> Broken
    ensures { result ≡ bound_at (scope_at names.entry.scope.now) (tree_of expression.now) }
{
    let constant = constant_in(expression, names);
    also(constant_if(is_outside(constant.number)), constant.broken)
}

/// The rules that a declared range breaks, if there is one.
pub(crate) fn broken_range(range: &Option<Box<Range<'_>>>, names: Names<'_, '_>) -> Broken
    ensures { result ≡ range_at (scope_at names.entry.scope.now) (optional_range_of range.now) }
{
    match range {
        Some(range) => also(
            broken_bound(&range.left, names),
            broken_bound(&range.right, names),
        ),
        None => nothing(),
    }
}

/// The number, where nothing else stands beside it.
fn number_alone<X>(others: &[X], number: Option<Number>) -> Option<Number>
    ensures { option_map number_of result ≡ number_alone (are_none others.now) (option_map number_of number) }
{
    if others.is_empty() { number } else { None }
}

/// The number that an expression is as a whole, if it is one.
#[cycle(number)]
fn number_in(expression: &Expression<'_>) -> Option<Number>
    ensures { option_map number_of result ≡ number_in (tree_of expression.now) }
{
    match expression {
        Expression::Number(number) => Some(*number),
        Expression::Name(_, _) => None,
        Expression::Concatenation(_) => None,
        Expression::Replication(_, _) => None,
        Expression::AsSigned(_) => None,
        Expression::AsUnsigned(_) => None,
        Expression::Prefix(operators, operand) => number_alone(operators, number_in(operand)),
        Expression::Binary(first, links) => number_alone(links, number_in(first)),
        Expression::Test(first, links) => number_alone(links, number_in(first)),
        Expression::Conditional(choices, last) => number_alone(choices, number_in(last)),
    }
}

/// Whether the number has wild digits that may not stand in it as an item of a casez: it has no size, or it is signed.
fn has_wrong_wild(number: Number) -> bool
    ensures { result ≡ has_wrong_wild (number_of number) }
{
    number.has_wild && !(number.sized && !number.signed)
}

/// A number as an item of a case: without its wild digits where these may stand.
fn judged_number(kind: CaseKind, number: Number) -> Number
    ensures { number_of result ≡ judged_number (case_kind_of kind) (number_of number) }
{
    match kind {
        CaseKind::Exact => number,
        CaseKind::Wild => Number {
            has_wild: has_wrong_wild(number),
            ..number
        },
    }
}

/// The rules that an item of a case breaks.
fn broken_value(expression: &Expression<'_>, names: Names<'_, '_>, kind: CaseKind) -> Broken
    ensures { result ≡ value_at (scope_at names.entry.scope.now) (case_kind_of kind) (tree_of expression.now) }
{
    match number_in(expression) {
        Some(number) => {
            let judged = judged_number(kind, number);
            let item = Expression::Number(judged);
            broken_in(&item, names)
        }
        None => broken_in(expression, names),
    }
}

/// The rules that the values of an item of a case break.
pub(crate) fn broken_values(
    values: &[Expression<'_>],
    names: Names<'_, '_>,
    kind: CaseKind,
) -> Broken
    ensures { result ≡ values_from (scope_at names.entry.scope.now) (case_kind_of kind) none values.now }
{
    let mut all = nothing();
    for value in values {
        all = also(all, broken_value(value, names, kind));
    }
    all
}
