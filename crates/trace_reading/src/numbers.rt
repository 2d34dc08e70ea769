//! Numbers as the texts of a trace write them.

ghost use Rattle.std.specs.Prelude.{◌≡◌, ◌<◌, IsTrue};
ghost use Rattle.std.specs.List.{list_all};
ghost use Rattle.serde_json.specs.View.{view};
ghost use Rattle.model_files.specs.Shape.{is_lower_digit, lower_digit_value, with_hexadecimal_digits, are_hexadecimal_digits};
ghost use Rattle.trace_reading.specs.Numbers.{begins_with_zero, are_shortest_digits, number_of_shortest, numeral_in};

use serde_json::Value;

/// The number of a text: `0x` and lower-case hexadecimal digits without leading zeros, of at most 128 bits.
pub(crate) fn numeral_in(value: &Value) -> Option<u128>
    ensures { result ≡ numeral_in (view value.now) }
{
    let text = value.as_str()?;
    number_of_shortest(text.as_bytes())
}

fn number_of_shortest(text: &[u8]) -> Option<u128>
    ensures { result ≡ number_of_shortest text.now }
{
    match text {
        [b'0', b'x', digits @ ..] if are_shortest_digits(digits) => Some(number_of_digits(digits)),
        _ => None,
    }
}

fn are_shortest_digits(digits: &[u8]) -> bool
    ensures { result ≡ are_shortest_digits digits.now }
{
    are_hexadecimal_digits(digits) && (!begins_with_zero(digits) || digits.len() == 1)
}

fn begins_with_zero(digits: &[u8]) -> bool
    ensures { result ≡ begins_with_zero digits.now }
{
    match digits {
        [first, ..] => *first == b'0',
        _ => false,
    }
}

fn are_hexadecimal_digits(digits: &[u8]) -> bool
    ensures { result ≡ are_hexadecimal_digits digits.now }
{
    1 <= digits.len() && digits.len() <= 32 && all_hexadecimal_digits(digits)
}

fn all_hexadecimal_digits(digits: &[u8]) -> bool
    ensures { result ≡ list_all is_lower_digit digits.now }
{
    digits.iter().all(|digit| is_hexadecimal_digit(*digit))
}

fn is_hexadecimal_digit(byte: u8) -> bool
    ensures { result ≡ is_lower_digit byte }
{
    (48 <= byte && byte <= 57) || (97 <= byte && byte <= 102)
}

/// The value of a decimal digit or of one of the letters a to f.
fn digit_value(byte: u8) -> u8
    requires { IsTrue (is_lower_digit byte) }
    ensures value { result ≡ lower_digit_value byte }
    ensures small { result < 16 }
{
    if 97 <= byte { byte - 87 } else { byte - 48 }
}

/// The number of at most 32 hexadecimal digits.
fn number_of_digits(digits: &[u8]) -> u128
    requires { IsTrue (are_hexadecimal_digits digits.now) }
    ensures { result ≡ with_hexadecimal_digits 0 digits.now }
{
    let mut number = 0u128;
    for digit in digits {
        number = number * 16 + u128::from(digit_value(*digit));
    }
    number
}
