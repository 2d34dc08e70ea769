//! Declared ranges with the values of their bounds.
ghost use Rattle.std.specs.Prelude.{◌≡◌};
ghost use Rattle.verilog_designs.specs.Known.{as_bound, both_bounds};
ghost use Rattle.v_syntax.specs.Tree.{tree_of};
ghost use Rattle.v_syntax.specs.Source.{optional_range_of};
ghost use Rattle.v_value.specs.Scope.{scope_at};
ghost use Rattle.v_size.specs.Rule.{number_at};
ghost use Rattle.v_scopes.specs.Bounds.{bound_at, known_bounds, bounds, is_wide};

use crate::constant::Constants;
use v_size::constant_number;
use v_syntax::module::Range;
use v_syntax::tree::Expression;
use v_value::select::Integer;

/// A declared range, or the addresses of a memory.
#[derive(Clone, Copy, PartialEq, Eq, Debug)]
pub enum Bounds {
    /// None is declared.
    Absent,
    /// A bound has no value, or none from 0 to 65,535.
    Unknown,
    /// `[left:right]`
    Known(u32, u32),
}

/// The bound that a number is, from 0 to 65,535.
fn bound_from(number: Option<Integer>) -> Option<u32>
    ensures { result ≡ as_bound (number_at number) }
{
    match number {
        Some(number) => {
            if number.negative || number.magnitude > 65_535 {
                None
            } else {
                Some(number.magnitude as u32)
            }
        }
        None => None,
    }
}

/// The value of a bound.
fn bound(expression: &Expression<'_>, constants: Constants<'_, '_>) -> Option<u32>
    ensures { result ≡ bound_at (scope_at constants.entry.scope.now) (tree_of expression.now) }
{
    bound_from(constant_number(expression, constants.scope))
}

/// The range of two bounds.
fn between(left: Option<u32>, right: Option<u32>) -> Bounds
    ensures { result ≡ known_bounds (both_bounds left right) }
{
    match (left, right) {
        (Some(left), Some(right)) => Bounds::Known(left, right),
        _ => Bounds::Unknown,
    }
}

/// The value of a range, if one is declared.
pub fn bounds_of(range: &Option<Box<Range<'_>>>, constants: Constants<'_, '_>) -> Bounds
    ensures { result ≡ bounds (scope_at constants.entry.scope.now) (optional_range_of range.now) }
{
    match range {
        Some(range) => between(
            bound(&range.left, constants),
            bound(&range.right, constants),
        ),
        None => Bounds::Absent,
    }
}

/// Whether the range has another number of bits than one.
pub(crate) fn is_wide(bounds: Bounds) -> bool
    ensures { result ≡ is_wide bounds }
{
    match bounds {
        Bounds::Absent => false,
        Bounds::Unknown => false,
        Bounds::Known(left, right) => left != right,
    }
}
