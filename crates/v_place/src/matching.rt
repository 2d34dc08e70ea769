//! Which tokens a terminal may be.

ghost use Rattle.std.specs.Prelude.{◌≡◌, ◌||◌, codes, is_some};
ghost use Rattle.std.specs.Str.{bytes_eq};
ghost use Rattle.verilog_text.specs.Spelling.{prefix_of, operator_of};
ghost use Rattle.v_token.specs.View.{mark_of, token_of};
ghost use Rattle.v_place.specs.Table.{matches, a_name, a_decimal, a_based, a_conversion, a_prefix, an_operator, the_word, the_mark};
ghost use Rattle.v_place.specs.View.{terminal_of};

use crate::symbols::Terminal;
use v_token::token::{Mark, Token, TokenKind};
use wb_names::is_reserved_word;

fn is_name(token: Token<'_>) -> bool
    ensures { result ≡ matches a_name (token_of token.entry) }
{
    match token.kind {
        TokenKind::Word => !is_reserved_word(token.text.as_bytes()),
        TokenKind::System => false,
        TokenKind::Decimal => false,
        TokenKind::Based => false,
        TokenKind::Mark(_) => false,
    }
}

fn is_decimal(token: Token<'_>) -> bool
    ensures { result ≡ matches a_decimal (token_of token.entry) }
{
    match token.kind {
        TokenKind::Word => false,
        TokenKind::System => false,
        TokenKind::Decimal => true,
        TokenKind::Based => false,
        TokenKind::Mark(_) => false,
    }
}

fn is_based(token: Token<'_>) -> bool
    ensures { result ≡ matches a_based (token_of token.entry) }
{
    match token.kind {
        TokenKind::Word => false,
        TokenKind::System => false,
        TokenKind::Decimal => false,
        TokenKind::Based => true,
        TokenKind::Mark(_) => false,
    }
}

fn is_conversion_word(word: &str) -> bool
    ensures { result ≡ (bytes_eq word.now (codes "$signed") || bytes_eq word.now (codes "$unsigned")) }
{
    word == "$signed" || word == "$unsigned"
}

fn is_conversion(token: Token<'_>) -> bool
    ensures { result ≡ matches a_conversion (token_of token.entry) }
{
    match token.kind {
        TokenKind::Word => false,
        TokenKind::System => is_conversion_word(token.text),
        TokenKind::Decimal => false,
        TokenKind::Based => false,
        TokenKind::Mark(_) => false,
    }
}

fn is_prefix_mark(mark: Mark) -> bool
    ensures { result ≡ is_some (prefix_of (mark_of mark)) }
{
    match mark {
        Mark::Plus => true,
        Mark::Minus => true,
        Mark::Tilde => true,
        Mark::Exclamation => true,
        Mark::Ampersand => true,
        Mark::TildeAmpersand => true,
        Mark::Bar => true,
        Mark::TildeBar => true,
        Mark::Caret => true,
        Mark::TildeCaret => true,
        Mark::CaretTilde => true,
        _ => false,
    }
}

fn is_prefix(token: Token<'_>) -> bool
    ensures { result ≡ matches a_prefix (token_of token.entry) }
{
    match token.kind {
        TokenKind::Word => false,
        TokenKind::System => false,
        TokenKind::Decimal => false,
        TokenKind::Based => false,
        TokenKind::Mark(mark) => is_prefix_mark(mark),
    }
}

fn is_operator_mark(mark: Mark) -> bool
    ensures { result ≡ is_some (operator_of (mark_of mark)) }
{
    match mark {
        Mark::DoubleBar => true,
        Mark::DoubleAmpersand => true,
        Mark::Bar => true,
        Mark::Caret => true,
        Mark::CaretTilde => true,
        Mark::TildeCaret => true,
        Mark::Ampersand => true,
        Mark::DoubleEquals => true,
        Mark::TripleEquals => true,
        Mark::ExclamationEquals => true,
        Mark::ExclamationDoubleEquals => true,
        Mark::Less => true,
        Mark::LessEquals => true,
        Mark::Greater => true,
        Mark::GreaterEquals => true,
        Mark::DoubleLess => true,
        Mark::TripleLess => true,
        Mark::DoubleGreater => true,
        Mark::TripleGreater => true,
        Mark::Plus => true,
        Mark::Minus => true,
        Mark::Star => true,
        Mark::Slash => true,
        Mark::Percent => true,
        Mark::DoubleStar => true,
        _ => false,
    }
}

fn is_operator(token: Token<'_>) -> bool
    ensures { result ≡ matches an_operator (token_of token.entry) }
{
    match token.kind {
        TokenKind::Word => false,
        TokenKind::System => false,
        TokenKind::Decimal => false,
        TokenKind::Based => false,
        TokenKind::Mark(mark) => is_operator_mark(mark),
    }
}

fn is_word(word: &str, token: Token<'_>) -> bool
    ensures { result ≡ matches (the_word word.now) (token_of token.entry) }
{
    match token.kind {
        TokenKind::Word => token.text == word,
        TokenKind::System => false,
        TokenKind::Decimal => false,
        TokenKind::Based => false,
        TokenKind::Mark(_) => false,
    }
}

fn is_mark(mark: Mark, token: Token<'_>) -> bool
    ensures { result ≡ matches (the_mark (mark_of mark)) (token_of token.entry) }
{
    match token.kind {
        TokenKind::Word => false,
        TokenKind::System => false,
        TokenKind::Decimal => false,
        TokenKind::Based => false,
        TokenKind::Mark(found) => found == mark,
    }
}

/// Whether the token is one of the terminal.
pub fn is_of(terminal: Terminal, token: Token<'_>) -> bool
    ensures { result ≡ matches (terminal_of terminal) (token_of token.entry) }
{
    match terminal {
        Terminal::AName => is_name(token),
        Terminal::ADecimal => is_decimal(token),
        Terminal::ABased => is_based(token),
        Terminal::AConversion => is_conversion(token),
        Terminal::APrefix => is_prefix(token),
        Terminal::AnOperator => is_operator(token),
        Terminal::TheWord(word) => is_word(word, token),
        Terminal::TheMark(mark) => is_mark(mark, token),
    }
}
