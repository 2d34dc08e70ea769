//! What selects take of a value: the word with an address, and some bits of a number (1364-2005, 5.2).
ghost use Rattle.std.specs.Prelude.{◌≡◌, true, ◌<◌, ◌≤◌, ◌*◌, ◌/◌, ◌%◌, ◌^◌};
ghost use Rattle.verilog_meaning.specs.Expression as meaning;
ghost use Rattle.v_value.specs.Scope.{object_of};
ghost use Rattle.v_value.specs.Index.{integer_at, span_of, count_between};

use crate::scope::Object;
use wb_bits::Word;

/// An integer: `magnitude`, or `-1 - magnitude` where it is negative.
#[derive(Clone, Copy, PartialEq, Eq, Debug)]
pub struct Integer {
    pub negative: bool,
    pub magnitude: u128,
}

/// So many bits: the lowest of them stands `back` places below `place`. Places are counted from 0 at the low end of a
/// number, and may be out of range.
#[derive(Clone, Copy, PartialEq, Eq, Debug)]
pub struct Span {
    pub place: Integer,
    pub back: u32,
    pub count: u32,
}

/// The integer that the bits of a word stand for, by this sign.
pub fn integer_of(word: Word, signed: bool) -> Integer
    ensures value { integer_at result ≡ meaning.integer_from signed word.width word.value }
    ensures small { result.negative ≡ true → result.magnitude < 2 ^ 127 }
{
    if signed && word.is_negative() {
        Integer {
            negative: true,
            magnitude: wb_bits::not(word).value,
        }
    } else {
        Integer {
            negative: false,
            magnitude: word.value,
        }
    }
}

/// The place of the bit with this index, counted from 0 at the low end.
pub fn place_of_bit(object: Object, index: Integer) -> Integer
    requires { index.negative ≡ true → index.magnitude < 2 ^ 127 }
    ensures { integer_at result ≡ meaning.place_of_bit (object_of object) (integer_at index) }
{
    let right = u128::from(object.right);
    let (negative, magnitude) = match (object.right <= object.left, index.negative) {
        (true, true) => (true, index.magnitude + right),
        (true, false) if right <= index.magnitude => (false, index.magnitude - right),
        (true, false) => (true, right - index.magnitude - 1),
        (false, true) => (false, right + index.magnitude + 1),
        (false, false) if index.magnitude <= right => (false, right - index.magnitude),
        (false, false) => (true, index.magnitude - right - 1),
    };
    Integer {
        negative,
        magnitude,
    }
}

/// How many bits stand between two bounds, both among them.
pub fn count_between(left: Integer, right: Integer) -> u32
    requires { count_between (integer_at left) (integer_at right) ≤ 128 }
    ensures { result ≡ count_between (integer_at left) (integer_at right) }
{
    if left.negative != right.negative {
        return (left.magnitude + right.magnitude) as u32 + 2;
    }
    let most = left.magnitude.max(right.magnitude);
    let least = left.magnitude.min(right.magnitude);
    (most - least) as u32 + 1
}

/// So many bits, the lowest of them the one with this index.
pub fn bits_from_index(object: Object, lowest: Integer, count: u32) -> Span
    requires { lowest.negative ≡ true → lowest.magnitude < 2 ^ 127 }
    ensures { span_of result ≡ record { low = meaning.place_of_bit (object_of object) (integer_at lowest); count = count } }
{
    Span {
        place: place_of_bit(object, lowest),
        back: 0,
        count,
    }
}

/// So many bits with indexes from the base up, as `[base +: count]` takes them.
pub fn bits_upward(object: Object, base: Integer, count: u32) -> Span
    requires small { base.negative ≡ true → base.magnitude < 2 ^ 127 }
    requires some_bits { 1 ≤ count }
    ensures { span_of result ≡ meaning.bits_upward (object_of object) (integer_at base) count }
{
    let place = place_of_bit(object, base);
    let back = if object.left < object.right {
        count - 1
    } else {
        0
    };
    Span { place, back, count }
}

/// So many bits with indexes from the base down, as `[base -: count]` takes them.
pub fn bits_downward(object: Object, base: Integer, count: u32) -> Span
    requires small { base.negative ≡ true → base.magnitude < 2 ^ 127 }
    requires some_bits { 1 ≤ count }
    ensures { span_of result ≡ meaning.bits_downward (object_of object) (integer_at base) count }
{
    let place = place_of_bit(object, base);
    let back = if object.right <= object.left {
        count - 1
    } else {
        0
    };
    Span { place, back, count }
}

/// The lowest bits of a number moved down by so many places.
fn lowered(count: u32, value: u128, places: u128) -> Word
    requires some_bits { 1 ≤ count }
    requires at_most_128 { count ≤ 128 }
    ensures width { result.width ≡ count }
    ensures value { result.value ≡ value / 2 ^ places % 2 ^ count }
{
    if places < 128 {
        Word::lowest_bits(count, value >> places as u32)
    } else {
        Word::new(count, 0)
    }
}

/// The lowest bits of a number moved up by so many places.
fn raised(count: u32, value: u128, places: u128) -> Word
    requires some_bits { 1 ≤ count }
    requires at_most_128 { count ≤ 128 }
    ensures width { result.width ≡ count }
    ensures value { result.value ≡ value * 2 ^ places % 2 ^ count }
{
    if places < 128 {
        Word::lowest_bits(count, value << places as u32)
    } else {
        Word::new(count, 0)
    }
}

/// The bits of a number of at most 128 bits at these places; those out of range are 0.
pub fn bits_of(value: u128, span: Span) -> Word
    requires some_bits { 1 ≤ span.count }
    requires at_most_128 { span.count ≤ 128 }
    ensures width { result.width ≡ span.count }
    ensures value { result.value ≡ meaning.bits_taken value (span_of span) }
{
    let place = span.place.magnitude;
    let back = u128::from(span.back);
    if !span.place.negative {
        if back <= place {
            return lowered(span.count, value, place - back);
        }
        return raised(span.count, value, back - place);
    }
    if place >= 128 {
        return Word::new(span.count, 0);
    }
    raised(span.count, value, place + back + 1)
}

/// The number of the word with this address, counted from 0 at the least address, where it is in range.
pub fn word_number(addresses: (u32, u32), index: Integer) -> Option<u128>
    ensures { result ≡ meaning.word_number addresses (integer_at index) }
{
    let least = u128::from(addresses.0.min(addresses.1));
    let most = u128::from(addresses.0.max(addresses.1));
    if !index.negative && least <= index.magnitude && index.magnitude <= most {
        Some(index.magnitude - least)
    } else {
        None
    }
}
