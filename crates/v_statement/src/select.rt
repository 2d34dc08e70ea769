//! What selects take of an object: some of its bits, or a word of a memory (1364-2005, 5.2).
ghost use Rattle.std.specs.Prelude.{◌≡◌, true, ◌<◌, ◌≤◌, ◌^◌, ◌+◌};
ghost use Rattle.verilog_meaning.specs.Expression as meaning;
ghost use Rattle.verilog_meaning.specs.Statement.{indexed_cell, all_bits};
ghost use Rattle.v_value.specs.Scope.{object_of};
ghost use Rattle.v_value.specs.Narrow.{IsNarrowObject};
ghost use Rattle.v_value.specs.Index.{integer_at, count_between};
ghost use Rattle.v_statement.specs.Places.{bits_of, cell_of};

use crate::place::{Bits, Cell};
use v_value::scope::Object;
use v_value::select::{Integer, count_between, place_of_bit};
use v_value::width::object_width;

/// The word of a memory that an index names.
pub(crate) fn indexed_cell(object: Object, index: Integer) -> Cell
    ensures { cell_of result ≡ indexed_cell (object_of object) (integer_at index) }
{
    match object.addresses {
        None => Cell::Nowhere,
        Some((first, last)) => {
            let low = u128::from(first.min(last));
            let high = u128::from(first.max(last));
            if !index.negative && low <= index.magnitude && index.magnitude <= high {
                Cell::Word((index.magnitude - low) as u32)
            } else {
                Cell::Nowhere
            }
        }
    }
}

/// All bits of a net, a variable or a word of a memory.
pub(crate) fn all_bits(object: Object) -> Bits
    requires { IsNarrowObject (object_of object) }
    ensures { bits_of result ≡ all_bits (object_of object) }
{
    Bits {
        from: Integer {
            negative: false,
            magnitude: 0,
        },
        downward: false,
        count: object_width(object),
    }
}

/// The bit with this index.
pub(crate) fn bit_at(object: Object, index: Integer) -> Bits
    requires { index.negative ≡ true → index.magnitude < 2 ^ 127 }
    ensures { bits_of result ≡ record { low = meaning.place_of_bit (object_of object) (integer_at index); count = 1 } }
{
    Bits {
        from: place_of_bit(object, index),
        downward: false,
        count: 1,
    }
}

/// The bits between two bounds, both among them.
pub(crate) fn bits_between(object: Object, left: Integer, right: Integer) -> Bits
    requires small { right.negative ≡ true → right.magnitude < 2 ^ 127 }
    requires at_most_128 { count_between (integer_at left) (integer_at right) ≤ 128 }
    ensures { bits_of result ≡ meaning.bits_between (object_of object) (integer_at left) (integer_at right) }
{
    Bits {
        from: place_of_bit(object, right),
        downward: false,
        count: count_between(left, right),
    }
}

/// The integer as a count, which is 0 where it is negative.
pub(crate) fn count_of(integer: Integer) -> u32
    requires { meaning.natural_of (integer_at integer) ≤ 128 }
    ensures { result ≡ meaning.natural_of (integer_at integer) }
{
    if integer.negative {
        0
    } else {
        integer.magnitude as u32
    }
}

/// So many bits with indexes from the base up, as `[base +: count]` takes them.
pub(crate) fn bits_upward(object: Object, base: Integer, count: u32) -> Bits
    requires { base.negative ≡ true → base.magnitude < 2 ^ 127 }
    ensures { bits_of result ≡ meaning.bits_upward (object_of object) (integer_at base) count }
{
    Bits {
        from: place_of_bit(object, base),
        downward: object.left < object.right,
        count,
    }
}

/// So many bits with indexes from the base down, as `[base -: count]` takes them.
pub(crate) fn bits_downward(object: Object, base: Integer, count: u32) -> Bits
    requires { base.negative ≡ true → base.magnitude < 2 ^ 127 }
    ensures { bits_of result ≡ meaning.bits_downward (object_of object) (integer_at base) count }
{
    Bits {
        from: place_of_bit(object, base),
        downward: object.right <= object.left,
        count,
    }
}
