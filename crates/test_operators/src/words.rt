//! Operators on words by themselves.

ghost use Rattle.std.specs.Prelude.{◌≡◌, IfSome};

use crate::rows::halves;
use crate::sheet::Sheet;
use crate::stores::{large, small};
use std::alloc::Global;
use wb_bits::{
    MAX_WIDTH, Word, add, and, ashr, concat, eq, extract, lshr, mask, mul, neg, not, or, sext, shl,
    sle, slt, sub, ule, ult, xor, zext,
};

/// A word of a width, where there is one of this value.
fn word(width: u32, value: &str) -> Option<Word>
    ensures { IfSome result (λ w. w.width ≡ width) }
{
    if width < 1 || width > MAX_WIDTH {
        return None;
    }
    let value = large(value);
    if value > mask(width) {
        return None;
    }
    Some(Word::new(width, value))
}

/// A truth value as 0 or 1.
fn number(truth: bool) -> u128 {
    if truth { 1 } else { 0 }
}

/// What an operator on two words of one width gives.
fn of_two(operator: &str, x: Word, y: Word) -> Option<u128>
    requires { x.width ≡ y.width }
{
    match operator {
        "add" => Some(add(x, y).value),
        "sub" => Some(sub(x, y).value),
        "mul" => Some(mul(x, y).value),
        "and" => Some(and(x, y).value),
        "or" => Some(or(x, y).value),
        "xor" => Some(xor(x, y).value),
        "shl" => Some(shl(x, y).value),
        "lshr" => Some(lshr(x, y).value),
        "ashr" => Some(ashr(x, y).value),
        _ => compared(operator, x, y),
    }
}

/// What a comparison of two words of one width gives.
fn compared(operator: &str, x: Word, y: Word) -> Option<u128>
    requires { x.width ≡ y.width }
{
    match operator {
        "eq" => Some(number(eq(x, y))),
        "ult" => Some(number(ult(x, y))),
        "ule" => Some(number(ule(x, y))),
        "slt" => Some(number(slt(x, y))),
        "sle" => Some(number(sle(x, y))),
        _ => None,
    }
}

/// What a widening to so many bits gives.
fn widened(operator: &str, x: Word, width: u32) -> Option<u128> {
    if width < x.width || width > MAX_WIDTH {
        return None;
    }
    if operator == "zext" {
        Some(zext(width, x).value)
    } else {
        Some(sext(width, x).value)
    }
}

/// The bits of a word from a high one down to a low one.
fn cut(x: Word, high: u32, low: u32) -> Option<u128> {
    if high < low || high >= x.width {
        return None;
    }
    Some(extract(high, low, x).value)
}

/// A high and a low word joined.
fn joined(x: Word, y: Word) -> Option<u128> {
    if x.width + y.width > MAX_WIDTH {
        return None;
    }
    Some(concat(x, y).value)
}

/// What an operator gives of a word and two further numbers.
fn given(operator: &str, first: Word, third: &str, fourth: &str) -> Option<u128> {
    match operator {
        "neg" => Some(neg(first).value),
        "not" => Some(not(first).value),
        "zext" | "sext" => widened(operator, first, small(third)),
        "extract" => cut(first, small(third), small(fourth)),
        "concat" => joined(first, word(small(third), fourth)?),
        _ => of_two(operator, first, word(first.width, third)?),
    }
}

/// Adds what an operator gives: one of one word (`OPERATOR WIDTH X`), of two (`OPERATOR WIDTH X Y`), a widening (`OPERATOR WIDTH X WIDER`),
/// a cut (`extract WIDTH X HIGH LOW`), or a join (`concat HIGH_WIDTH X LOW_WIDTH Y`).
pub fn add_word(alloc: Global, text: &str, out: &mut Sheet) {
    let (operator, rest) = halves(text, " ");
    let (width, rest) = halves(rest, " ");
    let (value, rest) = halves(rest, " ");
    let (third, fourth) = halves(rest, " ");
    let Some(first) = word(small(width), value) else {
        return out.add("is no word");
    };
    match given(operator, first, third, fourth) {
        Some(number) => out.add_number(alloc, number),
        None => out.add("is no operator on these"),
    }
}
