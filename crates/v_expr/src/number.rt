//! Numbers (1364-2005, 3.5.1), in time that is linear in their digits.

ghost use Rattle.std.specs.Prelude.{◌≡◌, ℕ, ◌+◌, ◌-◌, ◌%◌, ◌^◌, ◌≤◌, ◌⊎◌, min, option_map, Some, None, ◌∷◌};
ghost use Rattle.std.specs.List.{list_any};
ghost use Rattle.verilog_text.specs.Spelling.{is_decimal_digit, digit_value, is_x, is_z, is_silent, digits_from, decimal_value, base_of, bits_of_base, bits_of_digits, begins_with_z, filled_above, filled_where, width_of_size, kept_width, greatest_size, plain_number, number_in_base, behind_sign, based_number};
ghost use Rattle.v_syntax.specs.Tree.{number_of};
ghost use Rattle.v_token.specs.View.{tokens_of};
ghost use Rattle.v_expr.specs.Digits.{standing, with_digit, with_bits};
ghost use Rattle.v_expr.specs.Reading.{number_at};

use v_syntax::tree::Number;
use v_token::token::{Token, TokenKind};
use wb_bits::mask;

/// The widest number that the tree keeps whole, in bits.
const KEPT_BITS: u64 = 128;

/// What digits are read for.
#[derive(Clone, Copy, PartialEq, Eq, Debug)]
pub enum DigitPart {
    /// The number's bits.
    Value,
    /// The bits of x digits.
    Unknown,
    /// The bits of z and `?` digits.
    Wild,
}

fn digit_value(byte: u8) -> u8
    ensures { result ≡ digit_value byte }
{
    if 48 <= byte && byte <= 57 {
        byte - 48
    } else if 97 <= byte && byte <= 102 {
        byte - 87
    } else if 65 <= byte && byte <= 70 {
        byte - 55
    } else {
        0
    }
}

fn is_x(byte: u8) -> bool
    ensures { result ≡ is_x byte }
{
    byte == b'x' || byte == b'X'
}

fn is_z(byte: u8) -> bool
    ensures { result ≡ is_z byte }
{
    byte == b'z' || byte == b'Z' || byte == b'?'
}

fn is_silent(byte: u8) -> bool
    ensures { result ≡ is_silent byte }
{
    byte == b'_' || byte == 92 || byte <= 32
}

/// What a digit stands for in this part of a number.
#[tactic(auto, unfolding(crate::specs::Digits::standing))]
fn standing(part: DigitPart, base: u8, byte: u8) -> u8
    requires { 1 ≤ base }
    ensures { result ≡ standing part base byte }
{
    match part {
        DigitPart::Value => digit_value(byte),
        DigitPart::Unknown => { if is_x(byte) { base - 1 } else { 0 } }
        DigitPart::Wild => { if is_z(byte) { base - 1 } else { 0 } }
    }
}

/// The lowest 128 bits of a number with one more digit behind its own.
fn with_digit(part: DigitPart, base: u8, number: u128, byte: u8) -> u128
    requires { 1 ≤ base }
    ensures { result ≡ with_digit base (standing part base) number byte % 2 ^ 128 }
{
    if is_silent(byte) {
        number
    } else {
        number
            .wrapping_mul(u128::from(base))
            .wrapping_add(u128::from(standing(part, base, byte)))
    }
}

/// The lowest 128 bits of digits.
fn digits(part: DigitPart, base: u8, text: &[u8]) -> u128
    requires { 1 ≤ base }
    ensures { result ≡ digits_from base (standing part base) 0 text.now % 2 ^ 128 }
{
    let mut number = 0;
    for byte in text {
        number = with_digit(part, base, number, *byte);
    }
    number
}

/// A size with one more digit behind its own, or the greatest size where it would be above that.
fn with_size_digit(size: u64, byte: u8) -> u64
    ensures { result ≡ min (with_digit 10 digit_value size byte) greatest_size }
{
    if is_silent(byte) {
        size
    } else {
        size.saturating_mul(10)
            .saturating_add(u64::from(digit_value(byte)))
    }
}

/// The value of a size, or the greatest size where it is above that.
fn size_of(text: &[u8]) -> u64
    ensures { result ≡ min (decimal_value text.now) greatest_size }
{
    let mut size = 0;
    for byte in text {
        size = with_size_digit(size, *byte);
    }
    size
}

/// How many bits one digit more makes of so many, up to 128.
fn with_bits(bits: u8, count: u32, byte: u8) -> u32
    requires few { bits ≤ 4 }
    requires at_most_128 { count ≤ 128 }
    ensures { result ≡ min (with_bits bits count byte) 128 }
{
    if is_silent(byte) {
        count
    } else {
        128.min(count + u32::from(bits))
    }
}

/// How many bits the digits take, up to 128.
fn bits_of(bits: u8, text: &[u8]) -> u32
    requires { bits ≤ 4 }
    ensures { result ≡ min (bits_of_digits bits text.now) 128 }
{
    let mut count = 0;
    for byte in text {
        count = with_bits(bits, count, *byte);
    }
    count
}

fn begins_with_z(text: &[u8]) -> bool
    ensures { result ≡ begins_with_z text.now }
{
    for byte in text {
        if !is_silent(*byte) {
            return is_z(*byte);
        }
    }
    false
}

fn base_of(byte: u8) -> u8
    ensures value { result ≡ base_of byte }
    ensures known { (result ≡ 2) ⊎ (result ≡ 8) ⊎ (result ≡ 16) ⊎ (result ≡ 10) }
{
    if byte == b'b' || byte == b'B' {
        2
    } else if byte == b'o' || byte == b'O' {
        8
    } else if byte == b'h' || byte == b'H' {
        16
    } else {
        10
    }
}

fn bits_of_base(base: u8) -> u8
    ensures value { result ≡ bits_of_base base }
    ensures few { result ≤ 4 }
{
    if base == 2 {
        1
    } else if base == 8 {
        3
    } else {
        4
    }
}

/// How many bits of a number of this width the tree keeps.
fn kept_width(width: u64) -> u32
    ensures value { result ≡ kept_width width }
    ensures few { result ≤ 128 }
{
    width.min(KEPT_BITS) as u32
}

/// The lowest bits.
fn cut(number: u128, width: u32) -> u128
    requires { width ≤ 128 }
    ensures { result ≡ number % 2 ^ width }
{
    number & mask(width)
}

fn value_in(base: u8, width: u32, text: &[u8]) -> u128
    requires some { 1 ≤ base }
    requires at_most_128 { width ≤ 128 }
    ensures { result ≡ digits_from base digit_value 0 text.now % 2 ^ width }
{
    cut(digits(DigitPart::Value, base, text), width)
}

fn unknown_in(base: u8, width: u32, text: &[u8]) -> u128
    requires some { 1 ≤ base }
    requires at_most_128 { width ≤ 128 }
    ensures { result ≡ digits_from base (filled_where base is_x) 0 text.now % 2 ^ width }
{
    cut(digits(DigitPart::Unknown, base, text), width)
}

fn wild_in(base: u8, width: u32, text: &[u8]) -> u128
    requires some { 1 ≤ base }
    requires at_most_128 { width ≤ 128 }
    ensures { result ≡ digits_from base (filled_where base is_z) 0 text.now % 2 ^ width }
{
    cut(digits(DigitPart::Wild, base, text), width)
}

/// The bits up to the width that are z because the leftmost digit is.
fn above(bits: u8, width: u32, text: &[u8]) -> u128
    requires few { bits ≤ 4 }
    requires at_most_128 { width ≤ 128 }
    ensures { result ≡ filled_above bits width text.now }
{
    if begins_with_z(text) {
        mask(width) - mask(bits_of(bits, text).min(width))
    } else {
        0
    }
}

/// The bits of z digits, and those above them.
fn wild(base: u8, width: u32, text: &[u8]) -> u128
    requires known { (base ≡ 2) ⊎ (base ≡ 8) ⊎ (base ≡ 16) ⊎ (base ≡ 10) }
    requires at_most_128 { width ≤ 128 }
    ensures { result ≡ digits_from base (filled_where base is_z) 0 text.now % 2 ^ width + filled_above (bits_of_base base) width text.now }
{
    wild_in(base, width, text) + above(bits_of_base(base), width, text)
}

/// Whether some digit is x.
fn has_unknown(text: &[u8]) -> bool
    ensures { result ≡ list_any is_x text.now }
{
    text.iter().any(|byte| is_x(*byte))
}

/// Whether some digit is z or `?`.
fn has_wild(text: &[u8]) -> bool
    ensures { result ≡ list_any is_z text.now }
{
    text.iter().any(|byte| is_z(*byte))
}

fn width_of_size(size: Option<u64>) -> u64
    ensures { result ≡ width_of_size size }
{
    size.unwrap_or(32)
}

fn number_in_base(size: Option<u64>, signed: bool, base: u8, text: &[u8]) -> Number
    requires known { (base ≡ 2) ⊎ (base ≡ 8) ⊎ (base ≡ 16) ⊎ (base ≡ 10) }
    ensures { number_of result ≡ number_in_base size signed base text.now }
{
    let width = width_of_size(size);
    let kept = kept_width(width);
    Number {
        width,
        sized: size.is_some(),
        signed,
        value: value_in(base, kept, text),
        unknown: unknown_in(base, kept, text),
        wild: wild(base, kept, text),
        has_unknown: has_unknown(text),
        has_wild: has_wild(text),
    }
}

fn behind_sign(size: Option<u64>, signed: bool, text: &[u8]) -> Number
    ensures { number_of result ≡ behind_sign size signed text.now }
{
    match text {
        [] => number_in_base(size, signed, 10, text),
        [base, digits @ ..] => number_in_base(size, signed, base_of(*base), digits),
    }
}

fn behind_quote(size: Option<u64>, text: &[u8]) -> Number
    ensures { (quote : ℕ) → number_of result ≡ based_number size (quote ∷ text.now) }
{
    match text {
        [] => behind_sign(size, false, text),
        [first, digits @ ..] => {
            if *first == b's' || *first == b'S' {
                behind_sign(size, true, digits)
            } else {
                behind_sign(size, false, text)
            }
        }
    }
}

/// A based number, from its quote on.
fn based_number(size: Option<u64>, text: &[u8]) -> Number
    ensures { number_of result ≡ based_number size text.now }
{
    match text {
        [] => behind_sign(size, false, text),
        [_, behind @ ..] => behind_quote(size, behind),
    }
}

/// A plain decimal: signed, in 32 bits.
fn plain_number(text: &[u8]) -> Number
    ensures { number_of result ≡ plain_number text.now }
{
    Number {
        width: 32,
        sized: false,
        signed: true,
        value: value_in(10, 32, text),
        unknown: 0,
        wild: 0,
        has_unknown: false,
        has_wild: false,
    }
}

/// A based number behind its size.
fn sized_number(size: &[u8], text: &[u8]) -> Number
    ensures { number_of result ≡ based_number (Some (decimal_value size.now)) text.now }
{
    based_number(Some(size_of(size)), text)
}

/// The number in front, and what stands behind it.
#[tactic(auto, unfolding(crate::specs::Reading::number_at))]
pub fn number<'s, 't>(tokens: &'t [Token<'s>]) -> Option<(Number, &'t [Token<'s>])>
    ensures { option_map (λ x. (number_of x.0, tokens_of x.1.now)) result ≡ number_at (tokens_of tokens.now) }
{
    let [first, rest @ ..] = tokens else {
        return None;
    };
    match first.kind {
        TokenKind::Based => Some((based_number(None, first.text.as_bytes()), rest)),
        TokenKind::Decimal => match rest {
            [second, behind @ ..] if second.kind == TokenKind::Based => Some((
                sized_number(first.text.as_bytes(), second.text.as_bytes()),
                behind,
            )),
            _ => Some((plain_number(first.text.as_bytes()), rest)),
        },
        _ => None,
    }
}
