//! Bits of nets and variables as numbers with a bit for each. All words of a memory count as one bit.

use crate::scopes::last_place;
use v_flow::are_constant_selects;
use v_size::{Names, constant_in};
use v_syntax::tree::{Expression, Select, Selects};
use v_value::scope::Object;

/// Numbers past this, or below it as a negative one, count as this.
const FAR: u128 = 1 << 40;

/// The number of a constant, or 0 where it has none.
pub(crate) fn number_of(expression: &Expression<'_>, names: Names<'_, '_>) -> i64 {
    let Some(number) = constant_in(expression, names).number else {
        return 0;
    };
    let magnitude = number.magnitude.min(FAR) as i64;
    if number.negative {
        0i64.saturating_sub(magnitude)
    } else {
        magnitude
    }
}

/// The bits below this place.
pub(crate) fn below(place: u32) -> u128 {
    if place >= 128 {
        return u128::MAX;
    }
    if place == 0 {
        return 0;
    }
    u128::MAX >> (128 - place)
}

/// All bits of an object.
pub(crate) fn all_bits(object: Object) -> u128 {
    if object.addresses.is_some() {
        return 1;
    }
    below(last_place(object).saturating_add(1))
}

/// The indexes of the first and the last bit that a constant select means.
fn ends_of(select: &Select<'_>, names: Names<'_, '_>) -> (i64, i64) {
    match select {
        Select::Index(index) => {
            let place = number_of(index, names);
            (place, place)
        }
        Select::Part(left, right) => (number_of(left, names), number_of(right, names)),
        Select::PartUp(base, width) => {
            let place = number_of(base, names);
            let more = number_of(width, names).saturating_sub(1);
            (place, place.saturating_add(more))
        }
        Select::PartDown(base, width) => {
            let place = number_of(base, names);
            let more = number_of(width, names).saturating_sub(1);
            (place.saturating_sub(more), place)
        }
    }
}

/// A place, or the nearest one from 0 to 128.
fn as_place(place: i64) -> u32 {
    if place < 0 {
        return 0;
    }
    if place > 128 { 128 } else { place as u32 }
}

/// The bits of an object from one index to another, those that it has.
fn between(object: Object, one: i64, other: i64) -> u128 {
    let right = i64::from(object.right);
    let (first, second) = if object.left >= object.right {
        (one.saturating_sub(right), other.saturating_sub(right))
    } else {
        (right.saturating_sub(one), right.saturating_sub(other))
    };
    let low = as_place(first.min(second));
    let end = as_place(first.max(second).saturating_add(1));
    below(end) & !below(low) & all_bits(object)
}

/// The bits of a name that are meant, or may be meant, and whether they are surely meant.
pub(crate) fn reach(selects: &Selects<'_>, names: Names<'_, '_>, object: Object) -> (u128, bool) {
    if object.addresses.is_some() {
        return (1, false);
    }
    let fixed = are_constant_selects(selects, names.scope);
    match selects {
        Selects::One(select) | Selects::Two(select, _) if fixed => {
            let (one, other) = ends_of(select, names);
            (between(object, one, other), true)
        }
        _ => (all_bits(object), fixed),
    }
}
