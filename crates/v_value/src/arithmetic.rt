//! Quotients, remainders and powers of numbers of so many bits, 1 to 128, with 1364's signs.
ghost use Rattle.std.specs.Prelude.{◌≡◌, ◌^◌, ◌%◌, ◌/◌, ◌<◌, ◌≤◌, ◌&&◌};
ghost use Rattle.wb_values.specs.Number.{top_bit};
ghost use Rattle.verilog_trees.specs.Syntax.{divide, modulo};
ghost use Rattle.verilog_meaning.specs.Expression.{integer_from, natural_of, bits_of_integer, binary_value};
ghost use Rattle.v_value.specs.Operators.{integer_of_size};

use wb_bits::Word;

/// An integer: `size`, or `-size` where it is negative.
#[derive(Clone, Copy)]
struct Signed {
    negative: bool,
    size: u128,
}

/// The integer that a number of `width` bits stands for by its sign.
fn read_integer(signed: bool, width: u32, value: u128) -> Signed
    requires some_bits { 1 ≤ width }
    requires at_most_128 { width ≤ 128 }
    requires fits { value < 2 ^ width }
    ensures value { integer_from signed width value ≡ integer_of_size result.negative result.size }
    ensures fits { result.size < 2 ^ width }
{
    let word = Word::new(width, value);
    if signed && word.is_negative() {
        return Signed {
            negative: true,
            size: wb_bits::neg(word).value,
        };
    }
    Signed {
        negative: false,
        size: value,
    }
}

/// The number from 0 on that the bits of a word stand for by this sign; one below 0 counts as 0.
pub(crate) fn natural(signed: bool, word: Word) -> u128
    ensures { result ≡ natural_of (integer_from signed word.width word.value) }
{
    if signed && word.is_negative() {
        0
    } else {
        word.value
    }
}

/// The bits of the integer of this size.
fn bits_of(width: u32, negative: bool, size: u128) -> u128
    requires some_bits { 1 ≤ width }
    requires at_most_128 { width ≤ 128 }
    requires fits { size < 2 ^ width }
    ensures value { result ≡ bits_of_integer width (integer_of_size negative size) }
    ensures fits { result < 2 ^ width }
{
    if negative {
        wb_bits::neg(Word::new(width, size)).value
    } else {
        size
    }
}

/// The quotient of two numbers, rounded down; 0 where the divisor is 0.
fn divided(x: u128, y: u128) -> u128
    ensures value { result ≡ x / y }
    ensures fits { result ≤ x }
{
    if y == 0 { 0 } else { x / y }
}

/// What is left of a number behind that; the number itself where the divisor is 0.
fn rest(x: u128, y: u128) -> u128
    ensures value { result ≡ x % y }
    ensures fits { result ≤ x }
{
    if y == 0 { x } else { x % y }
}

/// The quotient of two numbers of `width` bits, cut toward 0.
pub(crate) fn quotient(signed: bool, width: u32, x: u128, y: u128) -> u128
    requires some_bits { 1 ≤ width }
    requires at_most_128 { width ≤ 128 }
    requires left_fits { x < 2 ^ width }
    requires right_fits { y < 2 ^ width }
    ensures value { result ≡ binary_value divide width signed x y }
    ensures fits { result < 2 ^ width }
{
    let left = read_integer(signed, width, x);
    let right = read_integer(signed, width, y);
    bits_of(
        width,
        left.negative != right.negative,
        divided(left.size, right.size),
    )
}

/// The remainder of that quotient, with the sign of the left side.
pub(crate) fn remainder(signed: bool, width: u32, x: u128, y: u128) -> u128
    requires some_bits { 1 ≤ width }
    requires at_most_128 { width ≤ 128 }
    requires left_fits { x < 2 ^ width }
    requires right_fits { y < 2 ^ width }
    ensures value { result ≡ binary_value modulo width signed x y }
    ensures fits { result < 2 ^ width }
{
    let left = read_integer(signed, width, x);
    let right = read_integer(signed, width, y);
    bits_of(width, left.negative, rest(left.size, right.size))
}

/// The power of a number of `width` bits, cut to them.
pub(crate) fn power(width: u32, base: u128, exponent: u128) -> u128
    requires some_bits { 1 ≤ width }
    requires at_most_128 { width ≤ 128 }
    ensures value { result ≡ base ^ exponent % 2 ^ width }
    ensures fits { result < 2 ^ width }
{
    let mut product = 1u128;
    let mut square = base;
    let mut left = exponent;
    while left > 0 {
        if left % 2 == 1 {
            product = product.wrapping_mul(square);
        }
        square = square.wrapping_mul(square);
        left /= 2;
    }
    Word::lowest_bits(width, product).value
}
