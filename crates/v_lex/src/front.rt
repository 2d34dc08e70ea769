//! The front of a text.

ghost use Rattle.std.specs.Prelude.{◌≡◌, ◌∷◌, false, Some, None, option_map, slice_get, IfSome, IsTrue};
ghost use Rattle.verilog_text.specs.Lexical.{excluded, mark_at, slash_at, is_star_alone, bracket_at, string_length, if_closed, read_at, left_out_at};
ghost use Rattle.v_lex.specs.Marks.{mark_of_one, mark_of_two, mark_of_three, or_shorter, mark_by_length};
ghost use Rattle.v_lex.specs.Quotes.{are_alone};
ghost use Rattle.v_lex.specs.View.{front_of, after, at_front, taken, HasText, IsPart, IsPlain};

use crate::ascii::ascii_before;
use crate::directive::{behind_passed, directive, left_out_directive};
use crate::mark::{double, single, triple};
use crate::number::{based, number};
use crate::piece::Piece;
use crate::run::{Run, behind, behind_blanks, is_blank_before, split_run};
use crate::scan::{begins_with_byte, behind_closing, behind_string};
use crate::words::{escaped, system, word};
use v_token::token::{Mark, TokenKind};
use wb_names::{is_digit, is_letter};

fn short_mark<'t>(byte: u8, text: &'t [u8], more: &'t [u8]) -> Option<(Piece<'t>, &'t [u8])>
    requires { text.now ≡ byte ∷ more.now }
    ensures front { option_map front_of result ≡ after more.now (or_shorter (mark_of_one byte) 0 None) }
    ensures part { IfSome result (λ f. HasText f.0 (taken text.now f.1.now)) }
{
    match single(byte) {
        Some(mark) => Some((
            Piece::Token(TokenKind::Mark(mark), ascii_before(text, more)),
            more,
        )),
        None => None,
    }
}

fn middle_mark<'t>(
    byte: u8,
    next: u8,
    text: &'t [u8],
    more: &'t [u8],
) -> Option<(Piece<'t>, &'t [u8])>
    requires whole { text.now ≡ byte ∷ more.now }
    requires second { slice_get more.now 0 ≡ Some next }
    ensures front { option_map front_of result ≡ after more.now (or_shorter (mark_of_two byte next) 1 (or_shorter (mark_of_one byte) 0 None)) }
    ensures part { IfSome result (λ f. HasText f.0 (taken text.now f.1.now)) }
{
    match double(byte, next) {
        Some(mark) => {
            let rest = behind(more, 1);
            Some((
                Piece::Token(TokenKind::Mark(mark), ascii_before(text, rest)),
                rest,
            ))
        }
        None => short_mark(byte, text, more),
    }
}

fn long_mark<'t>(
    byte: u8,
    next: u8,
    third: u8,
    text: &'t [u8],
    more: &'t [u8],
) -> Option<(Piece<'t>, &'t [u8])>
    requires whole { text.now ≡ byte ∷ more.now }
    requires second { slice_get more.now 0 ≡ Some next }
    requires third { slice_get more.now 1 ≡ Some third }
    ensures front { option_map front_of result ≡ after more.now (or_shorter (mark_of_three byte next third) 2 (or_shorter (mark_of_two byte next) 1 (or_shorter (mark_of_one byte) 0 None))) }
    ensures part { IfSome result (λ f. HasText f.0 (taken text.now f.1.now)) }
{
    match triple(byte, next, third) {
        Some(mark) => {
            let rest = behind(more, 2);
            Some((
                Piece::Token(TokenKind::Mark(mark), ascii_before(text, rest)),
                rest,
            ))
        }
        None => middle_mark(byte, next, text, more),
    }
}

/// The longest mark at the front, by the number of characters.
#[tactic(auto, unfolding(crate::specs::Marks::mark_by_length))]
fn mark_by_length(text: &[u8]) -> Option<(Piece<'_>, &[u8])>
    ensures front { option_map front_of result ≡ at_front mark_by_length text.now }
    ensures part { IfSome result (λ f. HasText f.0 (taken text.now f.1.now)) }
{
    match text {
        [] => None,
        [byte] => short_mark(*byte, text, &text[1..]),
        [byte, next] => middle_mark(*byte, *next, text, &text[1..]),
        [byte, next, third, ..] => long_mark(*byte, *next, *third, text, &text[1..]),
    }
}

/// The longest mark at the front.
fn mark(text: &[u8]) -> Option<(Piece<'_>, &[u8])>
    ensures front { option_map front_of result ≡ at_front mark_at text.now }
    ensures part { IfSome result (λ f. HasText f.0 (taken text.now f.1.now)) }
{
    mark_by_length(text)
}

/// A comment or an operator, by what stands behind its slash.
#[tactic(auto, unfolding(verilog_text::specs::Lexical::slash_at))]
fn slash<'t>(text: &'t [u8], more: &'t [u8]) -> Option<(Piece<'t>, &'t [u8])>
    requires { text.now ≡ 47 ∷ more.now }
    ensures front { option_map front_of result ≡ after more.now (slash_at more.now) }
    ensures part { IfSome result (λ f. HasText f.0 (taken text.now f.1.now)) }
{
    let alone = Piece::Token(TokenKind::Mark(Mark::Slash), ascii_before(text, more));
    let Some((first, comment)) = more.split_first() else {
        return Some((alone, more));
    };
    if *first == b'/' {
        return Some((Piece::Nothing, split_run(Run::Line, comment).1));
    }
    if *first == b'*' {
        return match behind_closing(b'*', b'/', comment) {
            Some(rest) => Some((Piece::Nothing, rest)),
            None => None,
        };
    }
    Some((alone, more))
}

#[tactic(auto, unfolding(verilog_text::specs::Lexical::is_star_alone))]
fn is_star_alone(is_macro: bool, text: &[u8]) -> bool
    ensures { result ≡ is_star_alone is_macro text.now }
{
    begins_with_byte(behind_blanks(is_macro, text), b')')
}

/// An attribute or a bracket, by what stands behind the bracket.
#[tactic(auto, unfolding(verilog_text::specs::Lexical::bracket_at))]
fn bracket<'t>(is_macro: bool, text: &'t [u8], more: &'t [u8]) -> Option<(Piece<'t>, &'t [u8])>
    requires { text.now ≡ 40 ∷ more.now }
    ensures front { option_map front_of result ≡ after more.now (bracket_at is_macro more.now) }
    ensures part { IfSome result (λ f. HasText f.0 (taken text.now f.1.now)) }
{
    let alone = Piece::Token(
        TokenKind::Mark(Mark::LeftParenthesis),
        ascii_before(text, more),
    );
    let Some((first, attribute)) = more.split_first() else {
        return Some((alone, more));
    };
    if *first == b'*' && !is_star_alone(is_macro, attribute) {
        return match behind_closing(b'*', b')', attribute) {
            Some(rest) => Some((Piece::Nothing, rest)),
            None => None,
        };
    }
    Some((alone, more))
}

/// A string, by what stands behind the quote that begins it.
fn string(more: &[u8]) -> Option<(Piece<'_>, &[u8])>
    ensures front { option_map front_of result ≡ after more.now (if_closed excluded (string_length false more.now)) }
    ensures part { IfSome result (λ f. IsPlain f.0) }
{
    match behind_string(more) {
        Some(rest) => Some((Piece::LeftOut, rest)),
        None => None,
    }
}

/// The front of a text that is read, the text of a macro or a file.
#[tactic(auto, unfolding(verilog_text::specs::Lexical::read_at))]
pub(crate) fn read_front(is_macro: bool, text: &[u8]) -> Option<(Piece<'_>, &[u8])>
    ensures front { option_map front_of result ≡ at_front (read_at is_macro) text.now }
    ensures part { IfSome result (λ f. IsPart f.0 text.now f.1.now) }
{
    let Some((first, more)) = text.split_first() else {
        return None;
    };
    if is_blank_before(is_macro, *first, more) {
        return Some((Piece::Nothing, behind_blanks(is_macro, more)));
    }
    if is_letter(*first) {
        return word(text);
    }
    if is_digit(*first) {
        return number(text);
    }
    match *first {
        b'\'' => based(is_macro, text),
        b'"' => string(more),
        b'$' => system(text),
        b'\\' => escaped(more),
        b'`' => directive(more),
        b'/' => slash(text, more),
        b'(' => bracket(is_macro, text, more),
        _ => mark(text),
    }
}

/// The front of a text that a conditional leaves out, where quotes in front of so many last bytes have no partners; the same of the rest.
#[tactic(auto, unfolding(verilog_text::specs::Lexical::left_out_at))]
pub(crate) fn left_out_front(text: &[u8], alone: usize) -> Option<(Piece<'_>, &[u8], usize)>
    requires { IsTrue (are_alone alone text.now) }
    ensures front { option_map (λ f. front_of (f.0, f.1)) result ≡ at_front left_out_at text.now }
    ensures part { IfSome result (λ f. IsPlain f.0) }
    ensures alone { IfSome result (λ f. IsTrue (are_alone f.2 f.1.now)) }
{
    let Some((first, more)) = text.split_first() else {
        return None;
    };
    if *first == b'`' {
        let Some(found) = left_out_directive(more) else {
            return None;
        };
        return Some((found.0, found.1, alone));
    }
    if *first == b'/' && begins_with_byte(more, b'/') {
        return Some((Piece::Nothing, split_run(Run::Line, more).1, alone));
    }
    match behind_passed(*first, more, alone) {
        Some((rest, alone_there)) => Some((Piece::Nothing, rest, alone_there)),
        None => None,
    }
}
