//! Whether one of the branches of a `case` is always taken.

use crate::bits::number_of;
use v_flow::is_constant;
use v_size::{Names, Position, judged_in};
use v_syntax::tree::{CaseItem, CaseKind, Expression};

/// The width of an expression, if it has at most 128 bits, or else 129.
fn width_of(expression: &Expression<'_>, names: Names<'_, '_>) -> u32 {
    judged_in(expression, names, Position::Anywhere)
        .1
        .unwrap_or(129)
}

/// The greatest of a width and those of these labels.
fn widest(labels: &[Expression<'_>], names: Names<'_, '_>, least: u32) -> u32 {
    let mut width = least;
    for label in labels {
        width = width.max(width_of(label, names));
    }
    width
}

/// The width to which the value of a case and its labels are widened, or 0 where one of its items is the default.
fn width_of_case(items: &[CaseItem<'_>], names: Names<'_, '_>, least: u32) -> u32 {
    let mut width = least;
    for item in items {
        match item {
            CaseItem::Values(labels, _) => width = widest(labels, names, width),
            CaseItem::Default(_) => return 0,
        }
    }
    width
}

/// The number whose bits are so many, at most 8, from the lowest.
fn low_bits(width: u32) -> u64 {
    255 >> (8 - width.min(8))
}

/// The numbers below 256 as bits: those that constant labels have, in two halves.
#[derive(Clone, Copy)]
struct Values {
    low: u128,
    high: u128,
}

/// The same with the value of a label, where it is constant.
fn with_label(label: &Expression<'_>, names: Names<'_, '_>, values: Values) -> Values {
    let mut found = values;
    if is_constant(label, names.scope) {
        let width = width_of(label, names);
        let number = number_of(label, names).cast_unsigned() & low_bits(width);
        if number < 128 {
            found.low = found.low | 1u128.checked_shl(number as u32).unwrap_or(0);
        } else {
            let place = number.saturating_sub(128).min(127) as u32;
            found.high = found.high | 1u128.checked_shl(place).unwrap_or(0);
        }
    }
    found
}

/// The same with the values of labels.
fn with_labels(labels: &[Expression<'_>], names: Names<'_, '_>, values: Values) -> Values {
    let mut found = values;
    for label in labels {
        found = with_label(label, names, found);
    }
    found
}

/// How many values the constant labels have.
fn count_of(items: &[CaseItem<'_>], names: Names<'_, '_>) -> u32 {
    let mut values = Values { low: 0, high: 0 };
    for item in items {
        if let CaseItem::Values(labels, _) = item {
            values = with_labels(labels, names, values);
        }
    }
    values
        .low
        .count_ones()
        .saturating_add(values.high.count_ones())
}

/// Whether one of the branches of a case is always taken. Labels are taken by their own values.
pub(crate) fn is_full(
    value: &Expression<'_>,
    items: &[CaseItem<'_>],
    names: Names<'_, '_>,
    kind: CaseKind,
) -> bool {
    let width = width_of_case(items, names, width_of(value, names));
    if width == 0 {
        return true;
    }
    match kind {
        CaseKind::Wild => false,
        CaseKind::Exact => width <= 8 && u64::from(count_of(items, names)) > low_bits(width),
    }
}
