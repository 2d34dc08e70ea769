//! Widths of expressions (1364-2005, 5.4.1).
ghost use Rattle.std.specs.Prelude.{◌≡◌, ◌*◌, ◌≤◌, if◌then◌else◌};
ghost use Rattle.verilog_meaning.specs.Expression.{width_of, widths_of, object_width, selects_width};
ghost use Rattle.v_value.specs.Scope.{object_of, scope_at};
ghost use Rattle.v_syntax.specs.Tree.{tree_of, selects_of, expressions_of};
ghost use Rattle.v_value.specs.Narrow.{IsNarrow, AreNarrow, AreSelectsNarrow};
ghost use Rattle.v_value.specs.Links.{has_reduction, has_no_link, links_width, choices_width, AreLinksNarrow, AreChoicesNarrow};

use crate::scope::{Object, Scope};
use crate::sign::{leaves_to_left, reduces};
use crate::taken::count_of;
use crate::value::constant_of;
use v_syntax::tree::{BinaryLink, Choice, Expression, PrefixOperator, Selects, TestLink};

/// How many bits a net, a variable or a word of a memory has, at most 128.
pub fn object_width(object: Object) -> u32
    requires { object_width (object_of object) ≤ 128 }
    ensures { result ≡ object_width (object_of object) }
{
    object.left.max(object.right) - object.left.min(object.right) + 1
}

/// The width of a chain of tests whose first operand has this width.
fn tested_width(width: u32, links: &[TestLink<'_>]) -> u32
    ensures { result ≡ (if has_no_link links.now then width else 1) }
{
    if links.is_empty() { width } else { 1 }
}

/// The width of an operand of this width behind operators.
fn prefixed_width(operators: &[PrefixOperator], width: u32) -> u32
    ensures { result ≡ (if has_reduction operators.now then 1 else width) }
{
    if reduces(operators) { 1 } else { width }
}

/// The width of so many copies of this width.
fn repeated_width(count: u128, width: u32) -> u32
    requires { count * width ≤ 128 }
    ensures { result ≡ count * width }
{
    if width == 0 { 0 } else { count as u32 * width }
}

/// How many bits the expression has by itself.
#[cycle(value)]
pub fn width_of(expression: &Expression<'_>, scope: &Scope<'_>) -> u32
    requires narrow { IsNarrow (scope_at scope.now) (tree_of expression.now) }
    ensures { result ≡ width_of (scope_at scope.now) (tree_of expression.now) }
{
    match expression {
        Expression::Number(number) => number.width as u32,
        Expression::Name(name, selects) => selected_width(selects, scope, scope.object(name)),
        Expression::Concatenation(parts) => parts_width(parts, scope),
        Expression::Replication(count, parts) => repeated_width(
            constant_of(count, scope),
            parts_width(parts, scope),
        ),
        Expression::AsSigned(operand) => width_of(operand, scope),
        Expression::AsUnsigned(operand) => width_of(operand, scope),
        Expression::Prefix(operators, operand) => prefixed_width(
            operators,
            width_of(operand, scope),
        ),
        Expression::Binary(first, links) => linked_width(links, scope, width_of(first, scope)),
        Expression::Test(first, links) => tested_width(width_of(first, scope), links),
        Expression::Conditional(choices, last) => chosen_width(
            choices,
            scope,
            width_of(last, scope),
        ),
    }
}

/// How many bits selects read of an object: a word of a memory is read whole.
#[cycle(value)]
fn selected_width(selects: &Selects<'_>, scope: &Scope<'_>, object: Object) -> u32
    requires narrow { AreSelectsNarrow (scope_at scope.now) (selects_of selects.now) }
    requires at_most_128 { selects_width (scope_at scope.now) (object_of object) (selects_of selects.now) ≤ 128 }
    ensures { result ≡ selects_width (scope_at scope.now) (object_of object) (selects_of selects.now) }
{
    match selects {
        Selects::Whole => object_width(object),
        Selects::One(select) => {
            if object.addresses.is_some() {
                object_width(object)
            } else {
                count_of(select, scope)
            }
        }
        Selects::Two(_, select) => count_of(select, scope),
    }
}

/// How many bits the parts have together.
#[cycle(value)]
pub(crate) fn parts_width(parts: &[Expression<'_>], scope: &Scope<'_>) -> u32
    requires narrow { AreNarrow (scope_at scope.now) (expressions_of parts.now) }
    requires at_most_128 { widths_of (scope_at scope.now) (expressions_of parts.now) ≤ 128 }
    ensures { result ≡ widths_of (scope_at scope.now) (expressions_of parts.now) }
{
    let mut width = 0;
    for part in parts {
        width += width_of(part, scope);
    }
    width
}

/// The width of a chain whose first operand has this width.
#[cycle(value)]
fn linked_width(links: &[BinaryLink<'_>], scope: &Scope<'_>, mut width: u32) -> u32
    requires narrow { AreLinksNarrow (scope_at scope.now) links.now }
    ensures { result ≡ links_width (scope_at scope.now) width links.now }
{
    for link in links {
        if !leaves_to_left(link.operator) {
            width = width.max(width_of(&link.operand, scope));
        }
    }
    width
}

/// The width of a conditional whose last value has this width.
#[cycle(value)]
fn chosen_width(choices: &[Choice<'_>], scope: &Scope<'_>, mut width: u32) -> u32
    requires narrow { AreChoicesNarrow (scope_at scope.now) choices.now }
    ensures { result ≡ choices_width (scope_at scope.now) choices.now width }
{
    for choice in choices {
        width = width.max(width_of(&choice.value, scope));
    }
    width
}
