//! Words of 1 to 128 bits and their operators: arithmetic, bitwise operators, shifts, comparisons, and changes of width.
#![tactic(auto)]

ghost use Rattle.std.specs.Prelude.{◌≡◌, ℕ, ◌+◌, ◌-◌, ◌%◌, ◌^◌, ◌<◌, ◌≤◌, min};
ghost use Rattle.wb_values.specs.Number.{top_bit, word_not, word_and, word_or, word_xor, word_neg, word_add, word_sub, word_mul, word_shl, word_lshr, word_ashr, word_eq, word_ult, word_ule, word_slt, word_sle, word_concat, word_extract, word_zext, word_sext};

/// The largest width of a word, in bits.
pub const MAX_WIDTH: u32 = 128;

/// A word: `width` bits, 1 to 128, read as the unsigned number `value`, bit 0 being the lowest.
#[derive(Clone, Copy, PartialEq, Eq, Debug)]
pub struct Word {
    pub width: u32,
    pub value: u128,
    pub ghost some_bits: { 1 ≤ width },
    pub ghost at_most_128: { width ≤ 128 },
    pub ghost fits: { value < 2 ^ width },
}

impl Word {
    /// The word of `width` bits with this value.
    pub fn new(width: u32, value: u128) -> Self
        requires some_bits { 1 ≤ width }
        requires at_most_128 { width ≤ 128 }
        requires fits { value < 2 ^ width }
        ensures width { result.width ≡ width }
        ensures value { result.value ≡ value }
    {
        Word { width, value }
    }

    /// The lowest `width` bits of a number.
    pub fn lowest_bits(width: u32, number: u128) -> Self
        requires some_bits { 1 ≤ width }
        requires at_most_128 { width ≤ 128 }
        ensures width { result.width ≡ width }
        ensures value { result.value ≡ number % 2 ^ width }
    {
        Word {
            width,
            value: number & mask(width),
        }
    }

    /// Whether the top bit is set, so that the word is negative in two's complement.
    pub fn is_negative(self) -> bool
        ensures { result ≡ top_bit self.width self.value }
    {
        self.value >> (self.width - 1) != 0
    }
}

/// The number with its lowest `width` bits set and no other, where `width` is 0 to 128.
pub fn mask(width: u32) -> u128
    requires { width ≤ 128 }
    ensures { result ≡ 2 ^ width - 1 }
{
    if width == 0 {
        0
    } else {
        u128::MAX >> (MAX_WIDTH - width)
    }
}

/// The number with the bits from `low` up to `high`, without `high`, set and no other.
fn mask_between(low: u32, high: u32) -> u128
    requires order { low ≤ high }
    requires at_most_128 { high ≤ 128 }
    ensures { result ≡ 2 ^ high - 2 ^ low }
{
    mask(high) - mask(low)
}

/// The sum modulo 2^width of two words of one width.
pub fn add(x: Word, y: Word) -> Word
    requires { x.width ≡ y.width }
    ensures width { result.width ≡ x.width }
    ensures value { result.value ≡ word_add x.width x.value y.value }
{
    Word::lowest_bits(x.width, x.value.wrapping_add(y.value))
}

/// The difference modulo 2^width of two words of one width.
pub fn sub(x: Word, y: Word) -> Word
    requires { x.width ≡ y.width }
    ensures width { result.width ≡ x.width }
    ensures value { result.value ≡ word_sub x.width x.value y.value }
{
    Word::lowest_bits(x.width, x.value.wrapping_sub(y.value))
}

/// The product modulo 2^width of two words of one width.
pub fn mul(x: Word, y: Word) -> Word
    requires { x.width ≡ y.width }
    ensures width { result.width ≡ x.width }
    ensures value { result.value ≡ word_mul x.width x.value y.value }
{
    Word::lowest_bits(x.width, x.value.wrapping_mul(y.value))
}

/// The negated word modulo 2^width, its two's complement.
pub fn neg(x: Word) -> Word
    ensures width { result.width ≡ x.width }
    ensures value { result.value ≡ word_neg x.width x.value }
{
    Word::lowest_bits(x.width, 0u128.wrapping_sub(x.value))
}

/// Each bit flipped.
pub fn not(x: Word) -> Word
    ensures width { result.width ≡ x.width }
    ensures value { result.value ≡ word_not x.width x.value }
{
    Word::lowest_bits(x.width, !x.value)
}

/// The bitwise and of two words of one width.
pub fn and(x: Word, y: Word) -> Word
    requires { x.width ≡ y.width }
    ensures width { result.width ≡ x.width }
    ensures value { result.value ≡ word_and x.value y.value }
{
    Word {
        width: x.width,
        value: x.value & y.value,
    }
}

/// The bitwise or of two words of one width.
pub fn or(x: Word, y: Word) -> Word
    requires { x.width ≡ y.width }
    ensures width { result.width ≡ x.width }
    ensures value { result.value ≡ word_or x.value y.value }
{
    Word {
        width: x.width,
        value: x.value | y.value,
    }
}

/// The bitwise exclusive or of two words of one width.
pub fn xor(x: Word, y: Word) -> Word
    requires { x.width ≡ y.width }
    ensures width { result.width ≡ x.width }
    ensures value { result.value ≡ word_xor x.value y.value }
{
    Word {
        width: x.width,
        value: x.value ^ y.value,
    }
}

/// By how many bits a shift by `count` moves a word of `width` bits: `count`, but at most `width`.
fn shift_of(width: u32, count: u128) -> u32
    ensures { result ≡ min count width }
{
    if count < u128::from(width) {
        count as u32
    } else {
        width
    }
}

/// The word shifted left by the unsigned number `y`, filled with 0; 0 where `y` is the width or more.
pub fn shl(x: Word, y: Word) -> Word
    requires { x.width ≡ y.width }
    ensures width { result.width ≡ x.width }
    ensures value { result.value ≡ word_shl x.width x.value y.value }
{
    let shift = shift_of(x.width, y.value);
    Word::lowest_bits(x.width, x.value.checked_shl(shift).unwrap_or(0))
}

/// The word shifted right by the unsigned number `y`, filled with 0; 0 where `y` is the width or more.
pub fn lshr(x: Word, y: Word) -> Word
    requires { x.width ≡ y.width }
    ensures width { result.width ≡ x.width }
    ensures value { result.value ≡ word_lshr x.width x.value y.value }
{
    let shift = shift_of(x.width, y.value);
    Word {
        width: x.width,
        value: x.value.checked_shr(shift).unwrap_or(0),
    }
}

/// The word shifted right by the unsigned number `y`, filled with its top bit; that bit throughout where `y` is the width or more.
pub fn ashr(x: Word, y: Word) -> Word
    requires { x.width ≡ y.width }
    ensures width { result.width ≡ x.width }
    ensures value { result.value ≡ word_ashr x.width x.value y.value }
{
    let shifted = lshr(x, y);
    if !x.is_negative() {
        return shifted;
    }
    let fill = mask_between(x.width - shift_of(x.width, y.value), x.width);
    Word {
        width: x.width,
        value: shifted.value | fill,
    }
}

/// Whether two words of one width are equal.
pub fn eq(x: Word, y: Word) -> bool
    requires { x.width ≡ y.width }
    ensures { result ≡ word_eq x.value y.value }
{
    x.value == y.value
}

/// Whether `x` is below `y`, both unsigned and of one width.
pub fn ult(x: Word, y: Word) -> bool
    requires { x.width ≡ y.width }
    ensures { result ≡ word_ult x.value y.value }
{
    x.value < y.value
}

/// Whether `x` is at most `y`, both unsigned and of one width.
pub fn ule(x: Word, y: Word) -> bool
    requires { x.width ≡ y.width }
    ensures { result ≡ word_ule x.value y.value }
{
    x.value <= y.value
}

/// Whether `x` is below `y`, both in two's complement and of one width.
pub fn slt(x: Word, y: Word) -> bool
    requires { x.width ≡ y.width }
    ensures { result ≡ word_slt x.width x.value y.value }
{
    if x.is_negative() == y.is_negative() {
        ult(x, y)
    } else {
        x.is_negative()
    }
}

/// Whether `x` is at most `y`, both in two's complement and of one width.
pub fn sle(x: Word, y: Word) -> bool
    requires { x.width ≡ y.width }
    ensures { result ≡ word_sle x.width x.value y.value }
{
    !slt(y, x)
}

/// The bits of `x` above those of `y`.
pub fn concat(x: Word, y: Word) -> Word
    requires { x.width + y.width ≤ 128 }
    ensures width { result.width ≡ x.width + y.width }
    ensures value { result.value ≡ word_concat y.width x.value y.value }
{
    Word {
        width: x.width + y.width,
        value: x.value << y.width | y.value,
    }
}

/// Bits `h` to `l` of `x`, both included and counted from 0 at the low end.
pub fn extract(h: u32, l: u32, x: Word) -> Word
    requires order { l ≤ h }
    requires within { h < x.width }
    ensures width { result.width ≡ h + 1 - l }
    ensures value { result.value ≡ word_extract h l x.value }
{
    Word::lowest_bits(h - l + 1, x.value >> l)
}

/// The word widened to `n` bits, filled with 0.
pub fn zext(n: u32, x: Word) -> Word
    requires wider { x.width ≤ n }
    requires at_most_128 { n ≤ 128 }
    ensures width { result.width ≡ n }
    ensures value { result.value ≡ word_zext x.value }
{
    Word {
        width: n,
        value: x.value,
    }
}

/// The word widened to `n` bits, filled with its top bit.
pub fn sext(n: u32, x: Word) -> Word
    requires wider { x.width ≤ n }
    requires at_most_128 { n ≤ 128 }
    ensures width { result.width ≡ n }
    ensures value { result.value ≡ word_sext n x.width x.value }
{
    if !x.is_negative() {
        return zext(n, x);
    }
    Word {
        width: n,
        value: x.value | mask_between(x.width, n),
    }
}
