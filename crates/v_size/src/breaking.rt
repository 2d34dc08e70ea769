//! The rules that expressions, constants and assigned names break, for the rules on what they stand in.
ghost use Rattle.std.specs.Prelude.{◌≡◌, ◌&&◌, nat_le};
ghost use Rattle.wb_values.specs.Choice.{some_if};
ghost use Rattle.verilog_meaning.specs.Expression.{object_width, selects_width, width_of};
ghost use Rattle.verilog_rules.specs.Expression as rules;
ghost use Rattle.v_value.specs.Scope.{object_of, scope_at};
ghost use Rattle.v_syntax.specs.Tree.{tree_of, selects_of};
ghost use Rattle.v_size.specs.Rule.{coded, position_of, number_at};
ghost use Rattle.v_size.specs.Judged.{with_number};

use crate::judged::{ConstantNumber, Names, judge, judged_constant, named};
use crate::rule::{Broken, Position};
use v_syntax::tree::{Expression, Selects};
use v_value::scope::Object;

/// The rules that an expression breaks where anything may be read.
pub fn broken_in(expression: &Expression<'_>, names: Names<'_, '_>) -> Broken
    ensures { result ≡ coded (rules.broken (scope_at names.entry.scope.now) rules.anywhere (tree_of expression.now)) }
{
    let judged = judge(expression, names, Position::Anywhere);
    judged.broken
}

/// The rules that an expression breaks in this place, and its width, where that has a value.
pub fn judged_in(
    expression: &Expression<'_>,
    names: Names<'_, '_>,
    place: Position,
) -> (Broken, Option<u32>)
    ensures broken { result.0 ≡ coded (rules.broken (scope_at names.entry.scope.now) (position_of place) (tree_of expression.now)) }
    ensures width { result.1 ≡ some_if (rules.has_width (scope_at names.entry.scope.now) (tree_of expression.now)) (width_of (scope_at names.entry.scope.now) (tree_of expression.now)) }
{
    let judged = judge(expression, names, place);
    (judged.broken, judged.width)
}

/// A constant: the rules that it breaks in the context of its own width and sign, and its number, where it breaks none.
pub fn constant_in(expression: &Expression<'_>, names: Names<'_, '_>) -> ConstantNumber
    ensures broken { result.broken ≡ coded (rules.broken_constant (scope_at names.entry.scope.now) (tree_of expression.now)) }
    ensures number { number_at result.number ≡ rules.constant_number (scope_at names.entry.scope.now) (tree_of expression.now) }
{
    judged_constant(expression, names)
}

/// The object with a number where it has none.
fn numbered(object: Object) -> Object
    ensures { object_of result ≡ with_number (object_of object) }
{
    Object {
        constant: Some(0),
        ..object
    }
}

/// What a name breaks that is assigned, where the indexes behind it stand in this place, and the width of what is assigned of it,
/// where that has a value. The name itself may be a net also where its indexes must be constant, so it is judged as one with a number.
pub fn place_in(
    selects: &Selects<'_>,
    names: Names<'_, '_>,
    place: Position,
    object: Object,
) -> (Broken, Option<u32>)
    ensures broken { result.0 ≡ coded (rules.also (rules.by_name rules.anywhere (object_of object) (selects_of selects.now))
        (rules.broken_selects (scope_at names.entry.scope.now) (position_of place) (object_of object) (selects_of selects.now))) }
    ensures width { result.1 ≡ some_if (((object_of object).is_declared && nat_le (object_width (object_of object)) 128) && rules.selects_have_width (scope_at names.entry.scope.now) (object_of object) (selects_of selects.now))
        (selects_width (scope_at names.entry.scope.now) (object_of object) (selects_of selects.now)) }
{
    let judged = named(selects, names, place, numbered(object));
    (judged.broken, judged.width)
}
