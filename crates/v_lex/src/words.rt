//! Words, and names with `$`.

ghost use Rattle.std.specs.Prelude.{◌≡◌, true, option_map, IfSome};
ghost use Rattle.std.specs.Char.{is_ascii};
ghost use Rattle.std.specs.Str.{bytes_eq};
ghost use Rattle.std.specs.List.{list_all, list_any};
ghost use Rattle.wb_values.specs.ReservedWords.{grammar_words};
ghost use Rattle.wb_values.specs.Names.{begins_with, is_letter};
ghost use Rattle.verilog_text.specs.Lexical.{is_word_byte, is_graphic, is_excluded, word_piece, word_front, system_piece, system_at, escaped_at};
ghost use Rattle.v_lex.specs.View.{piece_of, front_of, after, at_front, taken, HasText, IsPlain};

use crate::ascii::ascii_text;
use crate::piece::Piece;
use crate::run::{Run, is_graphic, is_word_byte, split_run, taken_before};
use v_token::token::TokenKind;
use wb_names::{is_letter, is_reserved_word};

/// The words of the grammar.
const GRAMMAR_WORDS: [&str; 22] = [
    "always",
    "assign",
    "begin",
    "case",
    "casez",
    "default",
    "else",
    "end",
    "endcase",
    "endmodule",
    "if",
    "input",
    "localparam",
    "module",
    "negedge",
    "or",
    "output",
    "parameter",
    "posedge",
    "reg",
    "signed",
    "wire",
];

fn is_among(word: &[u8], words: &[&str]) -> bool
    ensures { result ≡ list_any (λ w. bytes_eq word.now w.now) words.now }
{
    words.iter().any(|w| word == w.as_bytes())
}

fn is_grammar_word(word: &[u8]) -> bool
    ensures { result ≡ list_any (bytes_eq word.now) grammar_words }
{
    is_among(word, &GRAMMAR_WORDS)
}

fn is_excluded(word: &[u8]) -> bool
    ensures { result ≡ is_excluded word.now }
{
    is_reserved_word(word) && !is_grammar_word(word)
}

#[tactic(auto, unfolding(verilog_text::specs::Lexical::word_piece))]
fn word_piece(word: &[u8]) -> Piece<'_>
    requires { list_all is_ascii word.now ≡ true }
    ensures piece { piece_of result ≡ word_piece word.now }
    ensures text { HasText result word.now }
{
    if is_excluded(word) {
        Piece::LeftOut
    } else {
        Piece::Token(TokenKind::Word, ascii_text(word))
    }
}

/// An identifier or a reserved word, where a letter or `_` stands first.
#[tactic(auto, unfolding(verilog_text::specs::Lexical::word_front))]
pub(crate) fn word(text: &[u8]) -> Option<(Piece<'_>, &[u8])>
    requires { begins_with is_letter text.now ≡ true }
    ensures front { option_map front_of result ≡ at_front word_front text.now }
    ensures part { IfSome result (λ f. HasText f.0 (taken text.now f.1.now)) }
{
    let Some((_, more)) = text.split_first() else {
        return None;
    };
    let (_, rest) = split_run(Run::Word, more);
    Some((word_piece(taken_before(text, rest)), rest))
}

#[tactic(auto, unfolding(verilog_text::specs::Lexical::system_piece))]
fn system_piece(word: &[u8]) -> Piece<'_>
    ensures piece { piece_of result ≡ system_piece word.now }
    ensures text { HasText result word.now }
{
    if word == b"$signed".as_slice() || word == b"$unsigned".as_slice() {
        Piece::Token(TokenKind::System, ascii_text(word))
    } else {
        Piece::LeftOut
    }
}

fn begins_with_word_byte(text: &[u8]) -> bool
    ensures { result ≡ begins_with is_word_byte text.now }
{
    match text.first() {
        Some(first) => is_word_byte(*first),
        None => false,
    }
}

fn begins_with_graphic(text: &[u8]) -> bool
    ensures { result ≡ begins_with is_graphic text.now }
{
    match text.first() {
        Some(first) => is_graphic(*first),
        None => false,
    }
}

/// Whether the text begins with a letter or `_`.
pub(crate) fn begins_with_letter(text: &[u8]) -> bool
    ensures { result ≡ begins_with is_letter text.now }
{
    match text.first() {
        Some(first) => is_letter(*first),
        None => false,
    }
}

/// A name with `$`, where `$` stands first.
#[tactic(auto, unfolding(verilog_text::specs::Lexical::system_at))]
pub(crate) fn system(text: &[u8]) -> Option<(Piece<'_>, &[u8])>
    ensures front { option_map front_of result ≡ at_front system_at text.now }
    ensures part { IfSome result (λ f. HasText f.0 (taken text.now f.1.now)) }
{
    let Some((_, more)) = text.split_first() else {
        return None;
    };
    if !begins_with_word_byte(more) {
        return None;
    }
    let (_, rest) = split_run(Run::Word, more);
    Some((system_piece(taken_before(text, rest)), rest))
}

/// An escaped identifier, by what stands behind its backslash.
#[tactic(auto, unfolding(verilog_text::specs::Lexical::escaped_at))]
pub(crate) fn escaped(more: &[u8]) -> Option<(Piece<'_>, &[u8])>
    ensures front { option_map front_of result ≡ after more.now (escaped_at more.now) }
    ensures part { IfSome result (λ f. IsPlain f.0) }
{
    if begins_with_graphic(more) {
        Some((Piece::LeftOut, split_run(Run::Graphic, more).1))
    } else {
        None
    }
}
