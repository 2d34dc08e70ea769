//! Directives at the front of a text.

ghost use Rattle.std.specs.Prelude.{◌≡◌, ◌∷◌, Some, None, false, true, option_map, drop, codes, IfSome, IsTrue};
ghost use Rattle.wb_values.specs.Value.{Name};
ghost use Rattle.verilog_text.specs.Lexical.{Front, name_behind, with_name, undefine, if_defined, else_if, or_zero, string_length, passed_length, continued_length, defined_length, ends_definition, definition_length, definition_of, definition_at, conditional_directive_at, is_line_word, directive_from, directive_of, directive_at, conditional_behind};
ghost use Rattle.v_lex.specs.Quotes.{are_alone};
ghost use Rattle.v_lex.specs.View.{rest_after, front_of, after, or_front, name_after, HasDefinition, IsPlain};

use crate::piece::Piece;
use crate::run::{Run, behind, split_run, taken_before};
use crate::scan::{begins_with_byte, behind_closing, behind_string};
use crate::words::begins_with_letter;

/// What stands behind a quote and the string that it begins, if this is closed on its line; and in front of how many last bytes of
/// that quotes have no partners.
fn behind_quote(more: &[u8], alone: usize) -> (&[u8], usize)
    requires { IsTrue (are_alone alone (34 ∷ more.now)) }
    ensures rest { result.0.now ≡ drop (or_zero (string_length false more.now)) more.now }
    ensures alone { IsTrue (are_alone result.1 result.0.now) }
{
    if alone <= more.len() {
        return (more, alone);
    }
    match behind_string(more) {
        Some(rest) => (rest, alone),
        None => (more, split_run(Run::Line, more).1.len()),
    }
}

/// What stands behind all that is passed over with a byte, by what stands behind that byte; and in front of how many last bytes of that
/// quotes have no partners.
#[tactic(auto, unfolding(verilog_text::specs::Lexical::passed_length))]
pub(crate) fn behind_passed(byte: u8, more: &[u8], alone: usize) -> Option<(&[u8], usize)>
    requires { IsTrue (are_alone alone (byte ∷ more.now)) }
    ensures rest { option_map (λ r. r.0.now) result ≡ rest_after more.now (passed_length byte more.now) }
    ensures alone { IfSome result (λ r. IsTrue (are_alone r.1 r.0.now)) }
{
    if byte == b'/' && begins_with_byte(more, b'*') {
        let Some(rest) = behind_closing(b'*', b'/', behind(more, 1)) else {
            return None;
        };
        return Some((rest, alone));
    }
    if byte == b'"' {
        return Some(behind_quote(more, alone));
    }
    Some((more, alone))
}

/// What stands behind a line's end at the front, if there is one.
#[tactic(auto, unfolding(verilog_text::specs::Lexical::continued_length))]
fn behind_line_end(text: &[u8]) -> &[u8]
    ensures { result.now ≡ drop (continued_length text.now) text.now }
{
    match text {
        [b'\n', ..] => behind(text, 1),
        [b'\r', b'\n', ..] => behind(text, 2),
        _ => text,
    }
}

/// The same for a byte of the text of a definition.
#[tactic(auto, unfolding(verilog_text::specs::Lexical::defined_length))]
fn behind_defined(byte: u8, more: &[u8], alone: usize) -> Option<(&[u8], usize)>
    requires { IsTrue (are_alone alone (byte ∷ more.now)) }
    ensures rest { option_map (λ r. r.0.now) result ≡ rest_after more.now (defined_length byte more.now) }
    ensures alone { IfSome result (λ r. IsTrue (are_alone r.1 r.0.now)) }
{
    if byte == b'\\' {
        return Some((behind_line_end(more), alone));
    }
    behind_passed(byte, more, alone)
}

fn ends_definition(byte: u8, more: &[u8]) -> bool
    ensures { result ≡ ends_definition byte more.now }
{
    byte == b'\n' || (byte == b'/' && begins_with_byte(more, b'/'))
}

/// What stands behind the text of a definition.
fn behind_definition(text: &[u8]) -> Option<&[u8]>
    ensures { option_map (λ r. r.now) result ≡ rest_after text.now (definition_length 0 text.now) }
{
    let mut rest = text;
    let mut alone = text.len();
    loop {
        let Some((first, more)) = rest.split_first() else {
            return Some(rest);
        };
        if ends_definition(*first, more) {
            return Some(rest);
        }
        match behind_defined(*first, more, alone) {
            Some((passed, alone_there)) => {
                rest = passed;
                alone = alone_there;
            }
            None => return None,
        }
    }
}

/// The name behind a directive's word on its line, and what stands behind it.
#[tactic(auto, unfolding(verilog_text::specs::Lexical::name_behind))]
fn name_behind(text: &[u8]) -> Option<(&[u8], &[u8])>
    ensures { option_map (λ n. (n.0.now, n.1.now)) result ≡ name_after text.now (name_behind text.now) }
{
    let (_, rest) = split_run(Run::LineBlank, text);
    if begins_with_letter(rest) {
        let (name, behind) = split_run(Run::Word, rest);
        Some((name, behind))
    } else {
        None
    }
}

fn conditional_begin(is_wanted: bool, text: &[u8]) -> (Piece<'_>, &[u8])
    ensures front { Some (front_of result) ≡ after text.now (with_name (if_defined is_wanted) (name_behind text.now)) }
    ensures plain { IsPlain result.0 }
{
    match name_behind(text) {
        Some((name, rest)) => (Piece::IfDefined(is_wanted, name), rest),
        None => (Piece::Misdirected, text),
    }
}

fn other_condition(text: &[u8]) -> (Piece<'_>, &[u8])
    ensures front { Some (front_of result) ≡ after text.now (with_name else_if (name_behind text.now)) }
    ensures plain { IsPlain result.0 }
{
    match name_behind(text) {
        Some((name, rest)) => (Piece::ElseIf(name), rest),
        None => (Piece::Misdirected, text),
    }
}

fn undefinition(text: &[u8]) -> (Piece<'_>, &[u8])
    ensures front { Some (front_of result) ≡ after text.now (with_name undefine (name_behind text.now)) }
    ensures plain { IsPlain result.0 }
{
    match name_behind(text) {
        Some((name, rest)) => (Piece::Undefine(name), rest),
        None => (Piece::Misdirected, text),
    }
}

/// The text of a definition behind its name.
fn definition_text<'t>(name: &'t [u8], text: &'t [u8]) -> Option<(Piece<'t>, &'t [u8])>
    ensures front { option_map front_of result ≡ after text.now (definition_of name.now text.now (definition_length 0 text.now)) }
    ensures part { IfSome result (λ f. HasDefinition f.0 text.now f.1.now) }
{
    match behind_definition(text) {
        Some(rest) => {
            if begins_with_byte(text, b'(') {
                Some((Piece::Misdirected, rest))
            } else {
                Some((Piece::Define(name, taken_before(text, rest)), rest))
            }
        }
        None => None,
    }
}

#[tactic(auto, unfolding(verilog_text::specs::Lexical::definition_at))]
fn definition(text: &[u8]) -> Option<(Piece<'_>, &[u8])>
    ensures front { option_map front_of result ≡ after text.now (definition_at text.now) }
    ensures part { IfSome result (λ f. HasDefinition f.0 text.now f.1.now) }
{
    match name_behind(text) {
        Some((name, rest)) => definition_text(name, rest),
        None => Some((Piece::Misdirected, text)),
    }
}

/// The directive of a conditional, where the word is one of theirs.
#[tactic(auto, unfolding(verilog_text::specs::Lexical::conditional_directive_at))]
fn conditional<'t>(word: &[u8], text: &'t [u8]) -> Option<(Piece<'t>, &'t [u8])>
    ensures front { (other : Front) → after text.now (conditional_directive_at word.now text.now other) ≡ or_front (option_map front_of result) (after text.now other) }
    ensures plain { IfSome result (λ f. IsPlain f.0) }
{
    if word == b"ifdef".as_slice() {
        return Some(conditional_begin(true, text));
    }
    if word == b"ifndef".as_slice() {
        return Some(conditional_begin(false, text));
    }
    if word == b"elsif".as_slice() {
        return Some(other_condition(text));
    }
    if word == b"else".as_slice() {
        return Some((Piece::Otherwise, text));
    }
    if word == b"endif".as_slice() {
        return Some((Piece::EndIf, text));
    }
    None
}

fn is_line_word(word: &[u8]) -> bool
    ensures { result ≡ is_line_word word.now }
{
    word == b"timescale".as_slice()
        || word == b"default_nettype".as_slice()
        || word == b"line".as_slice()
        || word == b"resetall".as_slice()
        || word == b"celldefine".as_slice()
        || word == b"endcelldefine".as_slice()
}

/// The other directives, and uses of macros.
#[tactic(auto, unfolding(verilog_text::specs::Lexical::directive_from))]
fn other_directive<'t>(word: &'t [u8], text: &'t [u8]) -> Option<(Piece<'t>, &'t [u8])>
    ensures front { option_map front_of result ≡ after text.now (directive_from word.now text.now) }
    ensures part { IfSome result (λ f. HasDefinition f.0 text.now f.1.now) }
{
    if word == b"define".as_slice() {
        return definition(text);
    }
    if word == b"undef".as_slice() {
        return Some(undefinition(text));
    }
    if is_line_word(word) {
        return Some((Piece::Nothing, split_run(Run::Line, text).1));
    }
    Some((Piece::Use(word), text))
}

fn directive_of<'t>(word: &'t [u8], text: &'t [u8]) -> Option<(Piece<'t>, &'t [u8])>
    ensures front { option_map front_of result ≡ after text.now (directive_of word.now text.now) }
    ensures part { IfSome result (λ f. HasDefinition f.0 text.now f.1.now) }
{
    match conditional(word, text) {
        Some(found) => Some(found),
        None => other_directive(word, text),
    }
}

/// A directive or the use of a macro, by what stands behind its backquote.
#[tactic(auto, unfolding(verilog_text::specs::Lexical::directive_at))]
pub(crate) fn directive(text: &[u8]) -> Option<(Piece<'_>, &[u8])>
    ensures front { option_map front_of result ≡ after text.now (directive_at text.now) }
    ensures part { IfSome result (λ f. HasDefinition f.0 text.now f.1.now) }
{
    if !begins_with_letter(text) {
        return None;
    }
    let (word, rest) = split_run(Run::Word, text);
    directive_of(word, rest)
}

/// The same in text that a conditional leaves out.
#[tactic(auto, unfolding(verilog_text::specs::Lexical::conditional_behind))]
pub(crate) fn left_out_directive(text: &[u8]) -> Option<(Piece<'_>, &[u8])>
    ensures front { option_map front_of result ≡ after text.now (conditional_behind text.now) }
    ensures plain { IfSome result (λ f. IsPlain f.0) }
{
    let (word, rest) = split_run(Run::Word, text);
    match conditional(word, rest) {
        Some(found) => Some(found),
        None => Some((Piece::Nothing, rest)),
    }
}
