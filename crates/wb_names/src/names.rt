//! Names of models, by their bytes.

ghost use Rattle.std.specs.Prelude.{◌≡◌};
ghost use Rattle.std.specs.List.{list_all};
ghost use Rattle.wb_values.specs.Names.{is_letter, is_digit, is_name_byte, begins_with, begins_with_wb, is_kept_word, is_model_name};

use crate::words::is_reserved_word;

/// Whether the byte is a letter or `_`.
pub fn is_letter(byte: u8) -> bool
    ensures { result ≡ is_letter byte }
{
    (65 <= byte && byte <= 90) || (97 <= byte && byte <= 122) || byte == 95
}

/// Whether the byte is a decimal digit.
pub fn is_digit(byte: u8) -> bool
    ensures { result ≡ is_digit byte }
{
    48 <= byte && byte <= 57
}

/// Whether the byte is a letter, a digit or `_`.
pub fn is_name_byte(byte: u8) -> bool
    ensures { result ≡ is_name_byte byte }
{
    is_letter(byte) || is_digit(byte)
}

/// Whether the text begins with a letter or `_`.
pub fn begins_with_letter(text: &[u8]) -> bool
    ensures { result ≡ begins_with is_letter text.now }
{
    match text.first() {
        Some(byte) => is_letter(*byte),
        None => false,
    }
}

fn begins_with_wb(text: &[u8]) -> bool
    ensures { result ≡ begins_with_wb text.now }
{
    match text {
        [first, second, third, ..] => *first == 119 && *second == 98 && *third == 95,
        _ => false,
    }
}

fn are_name_bytes(text: &[u8]) -> bool
    ensures { result ≡ list_all is_name_byte text.now }
{
    text.iter().all(|byte| is_name_byte(*byte))
}

/// Whether the word is reserved, `fetch`, or begins with `wb_`.
fn is_kept_word(text: &[u8]) -> bool
    ensures { result ≡ is_kept_word text.now }
{
    is_reserved_word(text) || text == b"fetch".as_slice() || begins_with_wb(text)
}

/// Whether the text is a name of a model.
pub fn is_model_name(text: &[u8]) -> bool
    ensures { result ≡ is_model_name text.now }
{
    begins_with_letter(text) && are_name_bytes(text) && text.len() <= 64 && !is_kept_word(text)
}
