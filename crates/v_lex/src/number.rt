//! Numbers at the front of a text.

ghost use Rattle.std.specs.Prelude.{◌≡◌, ◌==◌, ◌||◌, true, option_map, IfSome};
ghost use Rattle.std.specs.List.{list_all, list_any};
ghost use Rattle.wb_values.specs.Names.{is_digit, begins_with};
ghost use Rattle.verilog_text.specs.Lexical.{fraction_length, signed_length, exponent_length, real_length, number_at, is_base, is_unknown_digit, is_hexadecimal_digit, is_digit_of, are_digits_of, digits_length, base_length, behind_quote, based_at};
ghost use Rattle.v_lex.specs.View.{rest_after, front_of, at_front, taken, HasText};

use crate::ascii::ascii_text;
use crate::piece::Piece;
use crate::run::{Run, behind_blanks, is_decimal_base, split_run, taken_before};
use v_token::token::TokenKind;
use wb_names::is_digit;

fn begins_with_digit(text: &[u8]) -> bool
    ensures { result ≡ begins_with is_digit text.now }
{
    match text.first() {
        Some(first) => is_digit(*first),
        None => false,
    }
}

/// What stands behind the point and the digits of a real number.
#[tactic(auto, unfolding(verilog_text::specs::Lexical::fraction_length))]
fn behind_fraction(text: &[u8]) -> Option<&[u8]>
    ensures { option_map (λ r. r.now) result ≡ rest_after text.now (fraction_length text.now) }
{
    let Some((first, more)) = text.split_first() else {
        return None;
    };
    if *first == b'.' && begins_with_digit(more) {
        Some(split_run(Run::Decimal, more).1)
    } else {
        None
    }
}

/// What stands behind digits, perhaps behind a sign.
#[tactic(auto, unfolding(verilog_text::specs::Lexical::signed_length))]
fn behind_signed(text: &[u8]) -> Option<&[u8]>
    ensures { option_map (λ r. r.now) result ≡ rest_after text.now (signed_length text.now) }
{
    let Some((first, more)) = text.split_first() else {
        return None;
    };
    if is_digit(*first) || ((*first == b'+' || *first == b'-') && begins_with_digit(more)) {
        Some(split_run(Run::Decimal, more).1)
    } else {
        None
    }
}

/// What stands behind the exponent of a real number.
#[tactic(auto, unfolding(verilog_text::specs::Lexical::exponent_length))]
fn behind_exponent(text: &[u8]) -> Option<&[u8]>
    ensures { option_map (λ r. r.now) result ≡ rest_after text.now (exponent_length text.now) }
{
    let Some((first, more)) = text.split_first() else {
        return None;
    };
    if *first == b'e' || *first == b'E' {
        behind_signed(more)
    } else {
        None
    }
}

/// What stands behind the fraction and the exponent that make a real number of the digits in front of them.
#[tactic(auto, unfolding(verilog_text::specs::Lexical::real_length))]
fn behind_real(text: &[u8]) -> Option<&[u8]>
    ensures { option_map (λ r. r.now) result ≡ rest_after text.now (real_length text.now) }
{
    match behind_fraction(text) {
        Some(rest) => Some(behind_exponent(rest).unwrap_or(rest)),
        None => behind_exponent(text),
    }
}

/// A plain decimal or a real number, where a digit stands first.
#[tactic(auto, unfolding(verilog_text::specs::Lexical::number_at))]
pub(crate) fn number(text: &[u8]) -> Option<(Piece<'_>, &[u8])>
    requires { begins_with is_digit text.now ≡ true }
    ensures front { option_map front_of result ≡ at_front number_at text.now }
    ensures part { IfSome result (λ f. HasText f.0 (taken text.now f.1.now)) }
{
    let Some((_, more)) = text.split_first() else {
        return None;
    };
    let (_, rest) = split_run(Run::Decimal, more);
    match behind_real(rest) {
        Some(behind) => Some((Piece::LeftOut, behind)),
        None => Some((
            Piece::Token(TokenKind::Decimal, ascii_text(taken_before(text, rest))),
            rest,
        )),
    }
}

fn is_base(byte: u8) -> bool
    ensures { result ≡ is_base byte }
{
    byte == b'b'
        || byte == b'B'
        || byte == b'o'
        || byte == b'O'
        || byte == b'd'
        || byte == b'D'
        || byte == b'h'
        || byte == b'H'
}

fn is_unknown_digit(byte: u8) -> bool
    ensures { result ≡ is_unknown_digit byte }
{
    byte == b'x' || byte == b'X' || byte == b'z' || byte == b'Z' || byte == b'?'
}

fn is_hexadecimal_digit(byte: u8) -> bool
    ensures { result ≡ is_hexadecimal_digit byte }
{
    is_digit(byte) || (97 <= byte && byte <= 102) || (65 <= byte && byte <= 70)
}

#[tactic(auto, unfolding(verilog_text::specs::Lexical::is_digit_of))]
fn is_digit_of(base: u8, byte: u8) -> bool
    ensures { result ≡ is_digit_of base byte }
{
    if is_decimal_base(base) {
        return is_digit(byte);
    }
    if is_unknown_digit(byte) {
        return true;
    }
    if base == b'b' || base == b'B' {
        return byte == b'0' || byte == b'1';
    }
    if base == b'o' || base == b'O' {
        return 48 <= byte && byte <= 55;
    }
    is_hexadecimal_digit(byte)
}

fn has_digit_of(base: u8, digits: &[u8]) -> bool
    ensures { result ≡ list_any (is_digit_of base) digits.now }
{
    digits.iter().any(|digit| is_digit_of(base, *digit))
}

fn is_digit_or_line(base: u8, byte: u8) -> bool
    ensures { result ≡ (is_digit_of base byte || byte == 95) }
{
    is_digit_of(base, byte) || byte == b'_'
}

fn has_no_other(base: u8, digits: &[u8]) -> bool
    ensures { result ≡ list_all (λ b. is_digit_of base b || b == 95) digits.now }
{
    digits.iter().all(|digit| is_digit_or_line(base, *digit))
}

#[tactic(auto, unfolding(verilog_text::specs::Lexical::are_digits_of))]
fn are_digits_of(base: u8, digits: &[u8]) -> bool
    ensures { result ≡ are_digits_of base digits.now }
{
    has_digit_of(base, digits) && has_no_other(base, digits)
}

/// What stands behind blanks and the digits of a base.
#[tactic(auto, unfolding(verilog_text::specs::Lexical::digits_length))]
fn behind_digits(is_macro: bool, base: u8, text: &[u8]) -> Option<&[u8]>
    ensures { option_map (λ r. r.now) result ≡ rest_after text.now (digits_length is_macro base text.now) }
{
    let (digits, rest) = split_run(Run::Digits(base), behind_blanks(is_macro, text));
    if are_digits_of(base, digits) {
        Some(rest)
    } else {
        None
    }
}

/// What stands behind a base, blanks and digits.
#[tactic(auto, unfolding(verilog_text::specs::Lexical::base_length))]
fn behind_base(is_macro: bool, text: &[u8]) -> Option<&[u8]>
    ensures { option_map (λ r. r.now) result ≡ rest_after text.now (base_length is_macro text.now) }
{
    let Some((first, more)) = text.split_first() else {
        return None;
    };
    if is_base(*first) {
        behind_digits(is_macro, *first, more)
    } else {
        None
    }
}

/// What stands behind a based number, by what stands behind its quote.
#[tactic(auto, unfolding(verilog_text::specs::Lexical::behind_quote))]
fn behind_quote(is_macro: bool, text: &[u8]) -> Option<&[u8]>
    ensures { option_map (λ r. r.now) result ≡ rest_after text.now (behind_quote is_macro text.now) }
{
    let Some((first, more)) = text.split_first() else {
        return None;
    };
    if *first == b's' || *first == b'S' {
        behind_base(is_macro, more)
    } else {
        behind_base(is_macro, text)
    }
}

/// A based number without its size, where a quote stands first.
#[tactic(auto, unfolding(verilog_text::specs::Lexical::based_at))]
pub(crate) fn based(is_macro: bool, text: &[u8]) -> Option<(Piece<'_>, &[u8])>
    requires { begins_with (λ b. b == 39) text.now ≡ true }
    ensures front { option_map front_of result ≡ at_front (based_at is_macro) text.now }
    ensures part { IfSome result (λ f. HasText f.0 (taken text.now f.1.now)) }
{
    let Some((_, more)) = text.split_first() else {
        return None;
    };
    match behind_quote(is_macro, more) {
        Some(rest) => Some((
            Piece::Token(TokenKind::Based, ascii_text(taken_before(text, rest))),
            rest,
        )),
        None => None,
    }
}
