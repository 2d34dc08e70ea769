//! Places: some bits of a net, a variable or a word of a memory, and what a number written there leaves.
ghost use Rattle.std.specs.Prelude.{◌≡◌, ◌%◌, ◌^◌, ◌<◌, ◌≤◌, pos, ◌-ℤ◌};
ghost use Rattle.verilog_meaning.specs.Statement.{with_bits_from, with_bits_at, with_bits};
ghost use Rattle.v_value.specs.Index.{integer_at};
ghost use Rattle.v_statement.specs.Places.{bits_of};

use v_value::select::Integer;

/// So many bits side by side, from a place upward, or downward from it, which is then the place of the highest of them.
/// Places are counted from 0 at the low end; those below 0 and from the width on are out of range.
#[derive(Clone, Copy, PartialEq, Eq, Debug)]
pub struct Bits {
    pub from: Integer,
    pub downward: bool,
    pub count: u32,
}

/// Where a value goes.
#[derive(Clone, Copy, PartialEq, Eq, Debug)]
pub enum Cell {
    /// A net or variable.
    Variable,
    /// The word of a memory with this number, counted from 0 at the least address.
    Word(u32),
    /// An address out of range.
    Nowhere,
}

/// Some bits of a name's cell.
#[derive(Clone, Copy)]
pub struct Place<'s> {
    pub name: &'s str,
    pub cell: Cell,
    pub bits: Bits,
}

/// A waiting nonblocking assignment: its places, the leftmost first, and its value.
#[derive(Drop)]
pub struct Update<'s> {
    pub places: Vec<Place<'s>>,
    pub value: u128,
}

/// The lowest `count` bits of a number.
pub(crate) fn lowest(number: u128, count: u32) -> u128
    requires { count ≤ 128 }
    ensures { result ≡ number % 2 ^ count }
{
    number & wb_bits::mask(count)
}

/// The number `old` of `width` bits with `count` of them, from `low` on, replaced by those of `number`.
/// Bits past the width are not written.
pub(crate) fn with_bits_from(width: u32, old: u128, low: u128, count: u32, number: u128) -> u128
    requires at_most_128 { width ≤ 128 }
    requires fits { old < 2 ^ width }
    ensures { result ≡ with_bits_from width old low count number }
{
    if low >= u128::from(width) {
        return old;
    }
    let from = low as u32;
    let to = width.min(from.saturating_add(count));
    let below = lowest(old, from);
    let taken = lowest(number, to - from) << from;
    below + taken + (old - lowest(old, to))
}

/// The same for `count` bits from the place `low` on. Bits out of range are not written.
fn with_bits_upward(width: u32, old: u128, low: Integer, count: u32, number: u128) -> u128
    requires at_most_128 { width ≤ 128 }
    requires fits { old < 2 ^ width }
    requires count_at_most_128 { count ≤ 128 }
    ensures value { result ≡ with_bits_at width old (integer_at low) count number }
    ensures fits { result < 2 ^ width }
{
    if !low.negative {
        return with_bits_from(width, old, low.magnitude, count, number);
    }
    if low.magnitude >= u128::from(count) {
        return old;
    }
    let below = low.magnitude as u32 + 1;
    let shown = number.checked_shr(below).unwrap_or(0);
    with_bits_from(width, old, 0, count - below, shown)
}

/// The integer `number` - `back`.
fn lowered(number: u128, back: u32) -> Integer
    ensures { integer_at result ≡ pos number -ℤ pos back }
{
    let back = u128::from(back);
    if back <= number {
        Integer {
            negative: false,
            magnitude: number - back,
        }
    } else {
        Integer {
            negative: true,
            magnitude: back - number - 1,
        }
    }
}

/// The same for `count` bits from the place `high` downward. Bits out of range are not written.
fn with_bits_downward(width: u32, old: u128, high: Integer, count: u32, number: u128) -> u128
    requires at_most_128 { width ≤ 128 }
    requires fits { old < 2 ^ width }
    requires count_at_most_128 { count ≤ 128 }
    ensures value { result ≡ with_bits_at width old (integer_at high -ℤ (pos count -ℤ pos 1)) count number }
    ensures fits { result < 2 ^ width }
{
    if high.negative || count == 0 {
        return old;
    }
    let low = lowered(high.magnitude, count - 1);
    with_bits_upward(width, old, low, count, number)
}

/// The number `old` of `width` bits with some of them replaced by those of `number`. Bits out of range are not written.
pub(crate) fn with_bits(width: u32, old: u128, bits: Bits, number: u128) -> u128
    requires at_most_128 { width ≤ 128 }
    requires fits { old < 2 ^ width }
    requires count_at_most_128 { bits.count ≤ 128 }
    ensures value { result ≡ with_bits width old (bits_of bits) number }
    ensures fits { result < 2 ^ width }
{
    if bits.downward {
        with_bits_downward(width, old, bits.from, bits.count, number)
    } else {
        with_bits_upward(width, old, bits.from, bits.count, number)
    }
}
