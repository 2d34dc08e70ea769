//! What selects behind names take: the addresses of words, and bits, by the values of their indexes (1364-2005, 5.2).
ghost use Rattle.std.specs.Prelude.{◌≡◌, true, ◌<◌, ◌≤◌, ◌^◌, negsuc};
ghost use Rattle.verilog_meaning.specs.Expression as meaning;
ghost use Rattle.v_value.specs.Index.{integer_at, span_of};
ghost use Rattle.v_value.specs.Scope.{object_of, scope_at, valuation_at};
ghost use Rattle.v_syntax.specs.Tree.{tree_of, select_of};
ghost use Rattle.v_value.specs.Narrow.{IsWidth, IsNarrow, IsSelectNarrow, HasNarrowObjects, HasFittingValues, IsReady};
ghost use Rattle.v_value.specs.Evaluation.{integer_self_at, bound_at, index_at, bits_at, taken_at};

use crate::scope::{Entry, Object, Scope};
use crate::select::{
    self, Integer, Span, bits_downward, bits_from_index, bits_upward, count_between,
};
use crate::value::{constant_of, operand_sign, self_value};
use v_syntax::tree::{Expression, Select};

/// The integer that an expression stands for by its own sign.
#[cycle(value)]
pub(crate) fn integer_by_itself(
    expression: &Expression<'_>,
    scope: &Scope<'_>,
    values: &[Entry<'_>],
) -> Integer
    requires ready { IsReady (scope_at scope.now) (valuation_at values.now) }
    requires narrow { IsNarrow (scope_at scope.now) (tree_of expression.now) }
    ensures value { integer_at result ≡ integer_self_at (scope_at scope.now) (valuation_at values.now) (tree_of expression.now) }
    ensures small { result.negative ≡ true → result.magnitude < 2 ^ 127 }
{
    let word = self_value(expression, scope, values);
    select::integer_of(word, operand_sign(expression, scope))
}

/// The integer of a constant, read where no net or variable has a value.
#[cycle(value)]
fn bound_of(expression: &Expression<'_>, scope: &Scope<'_>) -> Integer
    requires objects { HasNarrowObjects (scope_at scope.now) }
    requires narrow { IsNarrow (scope_at scope.now) (tree_of expression.now) }
    ensures value { integer_at result ≡ bound_at (scope_at scope.now) (tree_of expression.now) }
    ensures small { result.negative ≡ true → result.magnitude < 2 ^ 127 }
{
    integer_by_itself(expression, scope, &[])
}

/// What a part select is as an index of a memory: out of range.
fn no_index() -> Integer
    ensures { integer_at result ≡ negsuc 0 }
{
    Integer {
        negative: true,
        magnitude: 0,
    }
}

/// The integer of an index; of a part select, which is no index, one that is out of range.
#[cycle(value)]
pub(crate) fn index_of(select: &Select<'_>, scope: &Scope<'_>, values: &[Entry<'_>]) -> Integer
    requires ready { IsReady (scope_at scope.now) (valuation_at values.now) }
    requires narrow { IsSelectNarrow (scope_at scope.now) (select_of select.now) }
    ensures { integer_at result ≡ index_at (scope_at scope.now) (valuation_at values.now) (select_of select.now) }
{
    match select {
        Select::Index(index) => integer_by_itself(index, scope, values),
        Select::Part(_, _) => no_index(),
        Select::PartUp(_, _) => no_index(),
        Select::PartDown(_, _) => no_index(),
    }
}

/// How many bits a select takes.
#[cycle(value)]
pub(crate) fn count_of(select: &Select<'_>, scope: &Scope<'_>) -> u32
    requires narrow { IsSelectNarrow (scope_at scope.now) (select_of select.now) }
    requires at_most_128 { taken_at (scope_at scope.now) (select_of select.now) ≤ 128 }
    ensures { result ≡ taken_at (scope_at scope.now) (select_of select.now) }
{
    match select {
        Select::Index(_) => 1,
        Select::Part(left, right) => count_between(bound_of(left, scope), bound_of(right, scope)),
        Select::PartUp(_, count) => constant_of(count, scope) as u32,
        Select::PartDown(_, count) => constant_of(count, scope) as u32,
    }
}

/// The bits that a select takes.
#[cycle(value)]
pub(crate) fn taken_by(
    select: &Select<'_>,
    scope: &Scope<'_>,
    values: &[Entry<'_>],
    object: Object,
) -> Span
    requires ready { IsReady (scope_at scope.now) (valuation_at values.now) }
    requires narrow { IsSelectNarrow (scope_at scope.now) (select_of select.now) }
    requires some_bits { 1 ≤ taken_at (scope_at scope.now) (select_of select.now) }
    requires at_most_128 { taken_at (scope_at scope.now) (select_of select.now) ≤ 128 }
    ensures { span_of result ≡ bits_at (scope_at scope.now) (valuation_at values.now) (object_of object) (select_of select.now) }
{
    let count = count_of(select, scope);
    match select {
        Select::Index(index) => bits_from_index(
            object,
            integer_by_itself(index, scope, values),
            count,
        ),
        Select::Part(_, right) => bits_from_index(object, bound_of(right, scope), count),
        Select::PartUp(base, _) => bits_upward(
            object,
            integer_by_itself(base, scope, values),
            count,
        ),
        Select::PartDown(base, _) => bits_downward(
            object,
            integer_by_itself(base, scope, values),
            count,
        ),
    }
}

/// The integer that an expression stands for by its own sign.
pub fn integer_of(expression: &Expression<'_>, scope: &Scope<'_>, values: &[Entry<'_>]) -> Integer
    requires objects { HasNarrowObjects (scope_at scope.now) }
    requires values { HasFittingValues (scope_at scope.now) (valuation_at values.now) }
    requires narrow { IsNarrow (scope_at scope.now) (tree_of expression.now) }
    ensures value { integer_at result ≡ meaning.integer_of (scope_at scope.now) (valuation_at values.now) (tree_of expression.now) }
    ensures small { result.negative ≡ true → result.magnitude < 2 ^ 127 }
{
    integer_by_itself(expression, scope, values)
}

/// The number of an index by its own sign; of a part select, which is no index, -1.
pub fn select_index(select: &Select<'_>, scope: &Scope<'_>, values: &[Entry<'_>]) -> Integer
    requires objects { HasNarrowObjects (scope_at scope.now) }
    requires values { HasFittingValues (scope_at scope.now) (valuation_at values.now) }
    requires narrow { IsSelectNarrow (scope_at scope.now) (select_of select.now) }
    ensures { integer_at result ≡ meaning.select_index (scope_at scope.now) (valuation_at values.now) (select_of select.now) }
{
    index_of(select, scope, values)
}

/// The bits of an object that a select takes, 1 to 128 of them.
pub fn select_bits(
    select: &Select<'_>,
    scope: &Scope<'_>,
    values: &[Entry<'_>],
    object: Object,
) -> Span
    requires objects { HasNarrowObjects (scope_at scope.now) }
    requires values { HasFittingValues (scope_at scope.now) (valuation_at values.now) }
    requires narrow { IsSelectNarrow (scope_at scope.now) (select_of select.now) }
    requires count { IsWidth (meaning.select_bits (scope_at scope.now) (valuation_at values.now) (object_of object) (select_of select.now)).count }
    ensures { span_of result ≡ meaning.select_bits (scope_at scope.now) (valuation_at values.now) (object_of object) (select_of select.now) }
{
    taken_by(select, scope, values, object)
}
