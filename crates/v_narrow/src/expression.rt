//! Whether expressions fit words, one after the other down the tree.
ghost use Rattle.std.specs.Prelude.{◌≡◌, IsTrue, ◌&&◌, true};
ghost use Rattle.v_value.specs.Scope.{object_of, scope_at};
ghost use Rattle.v_syntax.specs.Tree.{tree_of, select_of, selects_of};
ghost use Rattle.v_value.specs.Narrow.{IsNarrow};
ghost use Rattle.v_narrow.specs.Test.{number_test, narrow_at, select_narrow_at, selects_narrow_at, parts_test, links_test, tests_test, choices_test};
ghost use Rattle.v_narrow.specs.Fitting.{declared_test};

use crate::object::{are_declared_narrow, is_object_narrow};
use crate::width::{one_fits, parts_fit, repeated_fit, two_fit};
use v_syntax::tree::{BinaryLink, Choice, Expression, Number, Select, Selects, TestLink};
use v_value::scope::{Object, Scope};

/// A scope, and whether all its objects fit words.
#[derive(Clone, Copy)]
pub(crate) struct Checked<'s, 't> {
    pub(crate) scope: &'s Scope<'t>,
    pub(crate) objects: bool,
    pub(crate) ghost known: { objects ≡ declared_test (scope_at scope.now) scope.now.declarations.items },
}

/// Whether the number has 1 to 128 bits, and its value no more than these.
fn is_number_narrow(number: &Number) -> bool
    ensures { result ≡ number_test number.now.width number.now.value }
{
    let Number { width, value, .. } = *number;
    1 <= width && width <= 128 && value <= wb_bits::mask(width as u32)
}

/// Whether all three hold.
fn all_three(first: bool, second: bool, third: bool) -> bool
    ensures { result ≡ (first && (second && third)) }
{
    first && second && third
}

/// Whether the expression is narrow.
#[cycle(narrow)]
fn narrow(expression: &Expression<'_>, checked: Checked<'_, '_>) -> bool
    ensures { result ≡ narrow_at checked.entry.objects (scope_at checked.entry.scope.now) (tree_of expression.now) }
{
    match expression {
        Expression::Number(number) => is_number_narrow(number),
        Expression::Name(name, selects) => selects_narrow(
            selects,
            checked,
            checked.scope.object(name),
        ),
        Expression::Concatenation(parts) => parts_fit(parts, checked, parts_narrow(parts, checked)),
        Expression::Replication(count, parts) => repeated_fit(
            count,
            parts,
            checked,
            narrow(count, checked),
            parts_narrow(parts, checked),
        ),
        Expression::AsSigned(operand) => narrow(operand, checked),
        Expression::AsUnsigned(operand) => narrow(operand, checked),
        Expression::Prefix(_, operand) => narrow(operand, checked),
        Expression::Binary(first, links) => links_narrow(links, checked, narrow(first, checked)),
        Expression::Test(first, links) => tests_narrow(links, checked, narrow(first, checked)),
        Expression::Conditional(choices, last) => choices_narrow(
            choices,
            checked,
            narrow(last, checked),
        ),
    }
}

/// Whether what the selects read of the object has 1 to 128 bits, and each select is narrow.
#[cycle(narrow)]
fn selects_narrow(selects: &Selects<'_>, checked: Checked<'_, '_>, object: Object) -> bool
    ensures { result ≡ selects_narrow_at checked.entry.objects (scope_at checked.entry.scope.now) (object_of object) (selects_of selects.now) }
{
    match selects {
        Selects::Whole => is_object_narrow(object),
        Selects::One(select) => one_fits(select, checked, object, select_narrow(select, checked)),
        Selects::Two(first, second) => two_fit(
            second,
            checked,
            select_narrow(first, checked),
            select_narrow(second, checked),
        ),
    }
}

/// Whether the expressions in the select are narrow, and what is read of them with no values can be.
#[cycle(narrow)]
fn select_narrow(select: &Select<'_>, checked: Checked<'_, '_>) -> bool
    ensures { result ≡ select_narrow_at checked.entry.objects (scope_at checked.entry.scope.now) (select_of select.now) }
{
    match select {
        Select::Index(index) => narrow(index, checked),
        Select::Part(left, right) => all_three(
            checked.objects,
            narrow(left, checked),
            narrow(right, checked),
        ),
        Select::PartUp(base, count) => all_three(
            checked.objects,
            narrow(base, checked),
            narrow(count, checked),
        ),
        Select::PartDown(base, count) => all_three(
            checked.objects,
            narrow(base, checked),
            narrow(count, checked),
        ),
    }
}

/// Whether each part is narrow.
#[cycle(narrow)]
fn parts_narrow(parts: &[Expression<'_>], checked: Checked<'_, '_>) -> bool
    ensures { result ≡ parts_test checked.entry.objects (scope_at checked.entry.scope.now) parts.now }
{
    for part in parts {
        if !narrow(part, checked) {
            return false;
        }
    }
    true
}

/// Whether a chain is narrow, where `first` says so of its first operand.
#[cycle(narrow)]
fn links_narrow(links: &[BinaryLink<'_>], checked: Checked<'_, '_>, first: bool) -> bool
    ensures { result ≡ (first && links_test checked.entry.objects (scope_at checked.entry.scope.now) links.now) }
{
    for link in links {
        if !narrow(&link.operand, checked) {
            return false;
        }
    }
    first
}

/// Whether a chain of tests is narrow, where `first` says so of its first operand.
#[cycle(narrow)]
fn tests_narrow(links: &[TestLink<'_>], checked: Checked<'_, '_>, first: bool) -> bool
    ensures { result ≡ (first && tests_test checked.entry.objects (scope_at checked.entry.scope.now) links.now) }
{
    for link in links {
        if !narrow(&link.operand, checked) {
            return false;
        }
    }
    first
}

/// Whether a conditional is narrow, where `last` says so of its last value.
#[cycle(narrow)]
fn choices_narrow(choices: &[Choice<'_>], checked: Checked<'_, '_>, last: bool) -> bool
    ensures { result ≡ (choices_test checked.entry.objects (scope_at checked.entry.scope.now) choices.now && last) }
{
    for choice in choices {
        if !narrow(&choice.condition, checked) || !narrow(&choice.value, checked) {
            return false;
        }
    }
    last
}

/// Whether each part of the expression fits words of at most 128 bits. Counts of replications and bounds of part selects are
/// read with no values, so where some stands all objects of the scope must fit words. The parts of a concatenation or
/// replication are walked through again for their widths, and counts and bounds for their values.
pub fn is_narrow(expression: &Expression<'_>, scope: &Scope<'_>) -> bool
    ensures narrow { IsTrue result → IsNarrow (scope_at scope.now) (tree_of expression.now) }
    ensures exact { IsNarrow (scope_at scope.now) (tree_of expression.now) → IsTrue result }
{
    let checked = Checked {
        scope,
        objects: are_declared_narrow(scope, scope.declarations()),
    };
    narrow(expression, checked)
}
