//! Sorts and numbers of a model file.

ghost use Rattle.std.specs.Prelude.{◌≡◌, ◌<◌, codes, IsTrue, Some, option_map};
ghost use Rattle.std.specs.List.{list_all};
ghost use Rattle.wb_values.specs.Choice.{some_if};
ghost use Rattle.wb_values.specs.Value.{same_name, truth, word, truth_value, number as number_value};
ghost use Rattle.serde_json.specs.Data.{array};
ghost use Rattle.serde_json.specs.View.{view, items_view};
ghost use Rattle.model_files.specs.Shape.{is_lower_digit, lower_digit_value, with_hexadecimal_digits, are_hexadecimal_digits, number_of_text, constant_in, sort_in, memory_of};
ghost use Rattle.ila_file.specs.View.{sort_view, initial_view};

use crate::written::{WrittenSort, WrittenValue};
use serde_json::Value;

/// "bool", the width of a word, or the two widths of a memory.
pub(crate) fn sort_in(value: &Value) -> Option<WrittenSort>
    ensures { option_map sort_view result ≡ sort_in (view value.now) }
{
    match value {
        Value::String(text) => sort_of_text(text.as_str()),
        Value::Number(_) => word_sort(value.as_u64()),
        Value::Array(items) => memory_sort(items),
        Value::Null | Value::Bool(_) | Value::Object(_) => None,
    }
}

fn sort_of_text(text: &str) -> Option<WrittenSort>
    ensures { option_map sort_view result ≡ some_if (same_name text.now (codes "bool")) truth }
{
    if text == "bool" {
        Some(WrittenSort::Truth)
    } else {
        None
    }
}

fn word_sort(width: Option<u64>) -> Option<WrittenSort>
    ensures { option_map sort_view result ≡ option_map word width }
{
    match width {
        Some(width) => Some(WrittenSort::Word(width)),
        None => None,
    }
}

fn memory_sort(items: &[Value]) -> Option<WrittenSort>
    ensures { option_map sort_view result ≡ sort_in (array (items_view items.now)) }
{
    match items {
        [address, word] => memory_of(address.as_u64(), word.as_u64()),
        _ => None,
    }
}

fn memory_of(address_width: Option<u64>, word_width: Option<u64>) -> Option<WrittenSort>
    ensures { option_map sort_view result ≡ memory_of address_width word_width }
{
    match (address_width, word_width) {
        (Some(address_width), Some(word_width)) => {
            Some(WrittenSort::Memory(address_width, word_width))
        }
        _ => None,
    }
}

/// The number of a constant or of an initial value: an unsigned number below 2^64, or 0x and 1 to 32 lower-case hexadecimal digits.
pub(crate) fn number_in(value: &Value) -> Option<u128>
    ensures { result ≡ constant_in (view value.now) }
{
    match value.as_str() {
        Some(text) => number_of_text(text.as_bytes()),
        None => wide(value.as_u64()),
    }
}

fn wide(number: Option<u64>) -> Option<u128>
    ensures { result ≡ number }
{
    match number {
        Some(number) => Some(u128::from(number)),
        None => None,
    }
}

fn number_of_text(text: &[u8]) -> Option<u128>
    ensures { result ≡ number_of_text text.now }
{
    match text {
        [b'0', b'x', digits @ ..] if are_hexadecimal_digits(digits) => {
            Some(number_of_digits(digits))
        }
        _ => None,
    }
}

fn are_hexadecimal_digits(digits: &[u8]) -> bool
    ensures { result ≡ are_hexadecimal_digits digits.now }
{
    1 <= digits.len() && digits.len() <= 32 && all_hexadecimal_digits(digits)
}

fn all_hexadecimal_digits(digits: &[u8]) -> bool
    ensures { result ≡ list_all is_lower_digit digits.now }
{
    digits.iter().all(|digit| is_hexadecimal_digit(*digit))
}

fn is_hexadecimal_digit(byte: u8) -> bool
    ensures { result ≡ is_lower_digit byte }
{
    (48 <= byte && byte <= 57) || (97 <= byte && byte <= 102)
}

/// The value of a decimal digit or of one of the letters a to f.
fn digit_value(byte: u8) -> u8
    requires { IsTrue (is_lower_digit byte) }
    ensures value { result ≡ lower_digit_value byte }
    ensures small { result < 16 }
{
    if 97 <= byte { byte - 87 } else { byte - 48 }
}

/// The number of at most 32 hexadecimal digits.
fn number_of_digits(digits: &[u8]) -> u128
    requires { IsTrue (are_hexadecimal_digits digits.now) }
    ensures { result ≡ with_hexadecimal_digits 0 digits.now }
{
    let mut number = 0u128;
    for digit in digits {
        number = number * 16 + u128::from(digit_value(*digit));
    }
    number
}

/// An initial truth value, where one is stated as it should be.
pub(crate) fn stated_truth(truth: Option<bool>) -> Option<Option<WrittenValue>>
    ensures { option_map initial_view result ≡ option_map (λ b. Some (truth_value b)) truth }
{
    match truth {
        Some(truth) => Some(Some(WrittenValue::Truth(truth))),
        None => None,
    }
}

/// The initial number of a word, where one is stated as it should be.
pub(crate) fn stated_number(number: Option<u128>) -> Option<Option<WrittenValue>>
    ensures { option_map initial_view result ≡ option_map (λ n. Some (number_value n)) number }
{
    match number {
        Some(number) => Some(Some(WrittenValue::Number(number))),
        None => None,
    }
}
