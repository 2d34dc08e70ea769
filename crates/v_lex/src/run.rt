//! Runs of bytes at the front of a text.

ghost use Rattle.std.specs.Prelude.{◌≡◌, ◌-◌, length, take, drop};
ghost use Rattle.verilog_text.specs.Lexical.{is_line_blank, is_blank, is_word_byte, is_decimal_byte, is_graphic, runs_on, is_decimal_base, run_length, is_blank_before, ends_line, blank_length};
ghost use Rattle.v_lex.specs.View.{passes};

use wb_names::{is_digit, is_letter};

/// The bytes that a run goes over.
#[derive(Clone, Copy)]
pub(crate) enum Run {
    /// Letters, digits, `_` and `$`.
    Word,
    /// Digits and `_`.
    Decimal,
    /// Printable characters of ASCII but the space.
    Graphic,
    /// Blanks but the line feed.
    LineBlank,
    /// All but the line feed.
    Line,
    /// Letters, digits, `_` and, but for the decimal base, `?`.
    Digits(u8),
}

fn is_line_blank(byte: u8) -> bool
    ensures { result ≡ is_line_blank byte }
{
    byte == b' ' || byte == b'\t' || byte == b'\r' || byte == 12
}

fn is_blank(byte: u8) -> bool
    ensures { result ≡ is_blank byte }
{
    is_line_blank(byte) || byte == b'\n'
}

pub(crate) fn is_word_byte(byte: u8) -> bool
    ensures { result ≡ is_word_byte byte }
{
    is_letter(byte) || is_digit(byte) || byte == b'$'
}

pub(crate) fn is_graphic(byte: u8) -> bool
    ensures { result ≡ is_graphic byte }
{
    33 <= byte && byte <= 126
}

pub(crate) fn is_decimal_base(base: u8) -> bool
    ensures { result ≡ is_decimal_base base }
{
    base == b'd' || base == b'D'
}

fn runs_on(base: u8, byte: u8) -> bool
    ensures { result ≡ runs_on base byte }
{
    is_letter(byte) || is_digit(byte) || (byte == b'?' && !is_decimal_base(base))
}

fn passes(run: Run, byte: u8) -> bool
    ensures { result ≡ passes run byte }
{
    match run {
        Run::Word => is_word_byte(byte),
        Run::Decimal => is_digit(byte) || byte == b'_',
        Run::Graphic => is_graphic(byte),
        Run::LineBlank => is_line_blank(byte),
        Run::Line => byte != b'\n',
        Run::Digits(base) => runs_on(base, byte),
    }
}

#[tactic(auto, unfolding(verilog_text::specs::Lexical::run_length))]
fn run_length(run: Run, text: &[u8]) -> usize
    ensures { result ≡ run_length (passes run) text.now }
{
    for (i, byte) in text.iter().enumerate() {
        if !passes(run, *byte) {
            return i;
        }
    }
    text.len()
}

/// The first bytes of the text, at most so many.
pub(crate) fn first_bytes(text: &[u8], count: usize) -> &[u8]
    ensures { result.now ≡ take count text.now }
{
    if count <= text.len() {
        &text[..count]
    } else {
        text
    }
}

/// What stands behind so many bytes of the text.
pub(crate) fn behind(text: &[u8], count: usize) -> &[u8]
    ensures { result.now ≡ drop count text.now }
{
    if count <= text.len() {
        &text[count..]
    } else {
        &text[text.len()..]
    }
}

/// The text up to a rest of it.
pub(crate) fn taken_before<'t>(text: &'t [u8], rest: &[u8]) -> &'t [u8]
    ensures { result.now ≡ take (length text.now - length rest.now) text.now }
{
    first_bytes(text, text.len().saturating_sub(rest.len()))
}

/// The run at the front, and what stands behind it.
pub(crate) fn split_run(run: Run, text: &[u8]) -> (&[u8], &[u8])
    ensures run { result.0.now ≡ take (run_length (passes run) text.now) text.now }
    ensures rest { result.1.now ≡ drop (run_length (passes run) text.now) text.now }
{
    let length = run_length(run, text);
    (first_bytes(text, length), behind(text, length))
}

fn ends_line(text: &[u8]) -> bool
    ensures { result ≡ ends_line text.now }
{
    match text {
        [b'\n', ..] => true,
        [b'\r', b'\n', ..] => true,
        _ => false,
    }
}

pub(crate) fn is_blank_before(is_macro: bool, byte: u8, more: &[u8]) -> bool
    ensures { result ≡ is_blank_before is_macro byte more.now }
{
    is_blank(byte) || (is_macro && byte == b'\\' && ends_line(more))
}

/// What stands behind the blanks at the front.
#[tactic(auto, unfolding(verilog_text::specs::Lexical::blank_length))]
pub(crate) fn behind_blanks(is_macro: bool, text: &[u8]) -> &[u8]
    ensures { result.now ≡ drop (blank_length is_macro text.now) text.now }
{
    for (i, byte) in text.iter().enumerate() {
        if !is_blank_before(is_macro, *byte, &text[i + 1..]) {
            return &text[i..];
        }
    }
    &text[text.len()..]
}
