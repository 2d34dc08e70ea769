//! Whether concatenations, replications and selects have 1 to 128 bits, once what stands in them is known to be narrow.
ghost use Rattle.std.specs.Prelude.{◌≡◌, true, ◌&&◌, ◌*◌, ◌≤◌, ◌<◌, ◌^◌, min, cond};
ghost use Rattle.verilog_meaning.specs.Expression.{widths_of, object_width, is_memory};
ghost use Rattle.v_value.specs.Scope.{object_of, scope_at};
ghost use Rattle.v_syntax.specs.Tree.{tree_of, select_of, expressions_of};
ghost use Rattle.v_value.specs.Index.{integer_at, count_between};
ghost use Rattle.v_value.specs.Narrow.{IsNarrow, AreNarrow, IsSelectNarrow, HasNarrowObjects};
ghost use Rattle.v_value.specs.Evaluation.{count_at, bound_at, taken_at};
ghost use Rattle.v_narrow.specs.Test.{is_width, narrow_at, select_narrow_at, parts_test};

use crate::expression::Checked;
use crate::object::is_object_narrow;
use v_syntax::tree::{Expression, Select};
use v_value::scope::{Object, Scope};
use v_value::select::Integer;
use v_value::taken::integer_of;
use v_value::width::width_of;

/// Whether so many bits are 1 to 128.
fn is_width(bits: u128) -> bool
    ensures { result ≡ is_width bits }
{
    1 <= bits && bits <= 128
}

/// Whether so many copies of so many bits have 1 to 128 bits, where 129 stands for all widths above 128.
fn copies_fit(count: u128, width: u32) -> bool
    requires { width ≤ 129 }
    ensures { result ≡ is_width (count * width) }
{
    if width == 0 || count > 128 {
        return false;
    }
    is_width(count * u128::from(width))
}

/// Whether at most 128 bits stand between two bounds, both among them.
fn are_near(left: Integer, right: Integer) -> bool
    ensures { result ≡ is_width (count_between (integer_at left) (integer_at right)) }
{
    let most = left.magnitude.max(right.magnitude);
    let least = left.magnitude.min(right.magnitude);
    if left.negative != right.negative {
        return most <= 126 && most + least <= 126;
    }
    most - least <= 127
}

/// How many bits parts that are narrow have together, 129 for all widths above 128.
fn width_together(parts: &[Expression<'_>], scope: &Scope<'_>) -> u32
    requires { AreNarrow (scope_at scope.now) (expressions_of parts.now) }
    ensures { result ≡ min (widths_of (scope_at scope.now) (expressions_of parts.now)) 129 }
{
    let mut width = 0;
    for part in parts {
        let own = width_of(part, scope);
        if own > 128 - width {
            return 129;
        }
        width += own;
    }
    width
}

/// The integer of a constant, read where no net or variable has a value.
fn bound_of(expression: &Expression<'_>, scope: &Scope<'_>) -> Integer
    requires objects { HasNarrowObjects (scope_at scope.now) }
    requires narrow { IsNarrow (scope_at scope.now) (tree_of expression.now) }
    ensures { integer_at result ≡ bound_at (scope_at scope.now) (tree_of expression.now) }
{
    integer_of(expression, scope, &[])
}

/// The number of a constant, read where no net or variable has a value: one below 0 counts as 0.
fn count_of(expression: &Expression<'_>, scope: &Scope<'_>) -> u128
    requires objects { HasNarrowObjects (scope_at scope.now) }
    requires narrow { IsNarrow (scope_at scope.now) (tree_of expression.now) }
    ensures { result ≡ count_at (scope_at scope.now) (tree_of expression.now) }
{
    let integer = bound_of(expression, scope);
    if integer.negative {
        0
    } else {
        integer.magnitude
    }
}

/// Whether the parts have 1 to 128 bits together, where `narrow` says whether each is narrow.
pub(crate) fn parts_fit(parts: &[Expression<'_>], checked: Checked<'_, '_>, narrow: bool) -> bool
    requires { narrow ≡ parts_test checked.objects (scope_at checked.scope.now) parts.now }
    ensures { result ≡ (parts_test checked.entry.objects (scope_at checked.entry.scope.now) parts.now && is_width (widths_of (scope_at checked.entry.scope.now) (expressions_of parts.now))) }
{
    narrow && copies_fit(1, width_together(parts, checked.scope))
}

/// Whether so many copies of the parts have 1 to 128 bits together, where `counted` and `narrow` say whether the count and
/// the parts are narrow.
pub(crate) fn repeated_fit<'s>(
    count: &Expression<'s>,
    parts: &[Expression<'s>],
    checked: Checked<'_, '_>,
    counted: bool,
    narrow: bool,
) -> bool
    requires count { counted ≡ narrow_at checked.objects (scope_at checked.scope.now) (tree_of count.now) }
    requires parts { narrow ≡ parts_test checked.objects (scope_at checked.scope.now) parts.now }
    ensures { result ≡ ((checked.entry.objects && (counted && narrow)) && is_width (count_at (scope_at checked.entry.scope.now) (tree_of count.now) * widths_of (scope_at checked.entry.scope.now) (expressions_of parts.now))) }
{
    if !checked.objects || !counted || !narrow {
        return false;
    }
    copies_fit(
        count_of(count, checked.scope),
        width_together(parts, checked.scope),
    )
}

/// Whether the select takes 1 to 128 bits.
fn takes_few(select: &Select<'_>, scope: &Scope<'_>) -> bool
    requires { IsSelectNarrow (scope_at scope.now) (select_of select.now) }
    ensures { result ≡ is_width (taken_at (scope_at scope.now) (select_of select.now)) }
{
    match select {
        Select::Index(_) => true,
        Select::Part(left, right) => are_near(bound_of(left, scope), bound_of(right, scope)),
        Select::PartUp(_, count) => is_width(count_of(count, scope)),
        Select::PartDown(_, count) => is_width(count_of(count, scope)),
    }
}

/// Whether one select reads 1 to 128 bits of the object, where `narrow` says whether it is narrow.
pub(crate) fn one_fits(
    select: &Select<'_>,
    checked: Checked<'_, '_>,
    object: Object,
    narrow: bool,
) -> bool
    requires { narrow ≡ select_narrow_at checked.objects (scope_at checked.scope.now) (select_of select.now) }
    ensures { result ≡ (narrow && is_width (cond (is_memory (object_of object)) (object_width (object_of object)) (taken_at (scope_at checked.entry.scope.now) (select_of select.now)))) }
{
    if !narrow {
        return false;
    }
    if object.addresses.is_some() {
        return is_object_narrow(object);
    }
    takes_few(select, checked.scope)
}

/// Whether a select after an index takes 1 to 128 bits, where `first` and `second` say whether the two are narrow.
pub(crate) fn two_fit(
    select: &Select<'_>,
    checked: Checked<'_, '_>,
    first: bool,
    second: bool,
) -> bool
    requires { second ≡ select_narrow_at checked.objects (scope_at checked.scope.now) (select_of select.now) }
    ensures { result ≡ ((first && second) && is_width (taken_at (scope_at checked.entry.scope.now) (select_of select.now))) }
{
    if !first || !second {
        return false;
    }
    takes_few(select, checked.scope)
}
