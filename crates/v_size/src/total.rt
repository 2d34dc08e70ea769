//! Widths of parts and copies taken together: 129 stands for all widths above 128.
ghost use Rattle.std.specs.Prelude.{◌≡◌, ◌≤◌, Some, pos};
ghost use Rattle.verilog_rules.specs.Expression as rules;
ghost use Rattle.v_size.specs.Rule.{coded, number_at};
ghost use Rattle.v_size.specs.Judged.{capped, added, fitting};

use crate::rule::{Broken, nothing};
use v_value::select::Integer;

/// Both widths together, where both have values.
pub fn added(x: Option<u32>, y: Option<u32>) -> Option<u32>
    ensures { result ≡ added x y }
{
    match (x, y) {
        (Some(v), Some(w)) => Some((v.min(129) + w.min(129)).min(129)),
        _ => None,
    }
}

/// The wider of two, where both have values.
pub(crate) fn wider(x: Option<u32>, y: Option<u32>) -> Option<u32>
    ensures { result ≡ rules.wider x y }
{
    match (x, y) {
        (Some(v), Some(w)) => Some(v.max(w)),
        _ => None,
    }
}

/// Whether the integer is below 1.
pub(crate) fn is_below_one(number: Integer) -> bool
    ensures { result ≡ rules.is_below (pos 1) (number_at (Some number)) }
{
    number.negative || number.magnitude == 0
}

/// Whether the number of a constant is below 1, where it has one.
pub(crate) fn is_number_below_one(number: Option<Integer>) -> bool
    ensures { result ≡ rules.is_below (pos 1) (number_at number) }
{
    match number {
        Some(number) => is_below_one(number),
        None => false,
    }
}

/// Whether the number of a constant is below 0, where it has one.
pub(crate) fn is_number_below_zero(number: Option<Integer>) -> bool
    ensures { result ≡ rules.is_below (pos 0) (number_at number) }
{
    match number {
        Some(number) => number.negative,
        None => false,
    }
}

/// So many copies, at least one, of so many bits together.
pub(crate) fn copies(number: Option<Integer>, width: Option<u32>) -> Option<u32>
    ensures { result ≡ capped (rules.copies (number_at number) (capped width)) }
{
    match (number, width) {
        (Some(number), Some(width)) => copies_of(number, width.min(129)),
        _ => None,
    }
}

/// So many copies, at least one, of so many bits together.
fn copies_of(number: Integer, width: u32) -> Option<u32>
    requires { width ≤ 129 }
    ensures { result ≡ capped (rules.copies (number_at (Some number)) (Some width)) }
{
    if is_below_one(number) {
        return None;
    }
    if width == 0 {
        return Some(0);
    }
    if number.magnitude > 128 {
        return Some(129);
    }
    Some((number.magnitude as u32 * width).min(129))
}

/// A width of at most 128 bits.
pub(crate) fn fitting(width: Option<u32>) -> Option<u32>
    ensures { result ≡ fitting width }
{
    match width {
        Some(width) if width <= 128 => Some(width),
        _ => None,
    }
}

/// The rules that so many bits together break.
pub fn by_total(width: Option<u32>) -> Broken
    ensures { result ≡ coded (rules.by_total width) }
{
    match width {
        Some(width) => Broken {
            width_over_128: width > 128,
            misshapen: width == 0,
            ..nothing()
        },
        None => nothing(),
    }
}
