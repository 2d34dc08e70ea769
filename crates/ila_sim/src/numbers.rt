//! Numbers as scripts write them.

ghost use Rattle.std.specs.Prelude.{◌≡◌, ◌^◌, ◌*◌, ◌+◌, ◌∷◌, [], Some};
ghost use Rattle.std.specs.List.{list_all};
ghost use Rattle.scripts.specs.Script.{is_script_digit, is_either_hexadecimal_digit, either_digit_value, with_decimal_digits, with_either_digits, decimal_in, hexadecimal_in, numeral_in};
ghost use Rattle.ila_sim.specs.Cuts.{below};

/// A decimal number, or a hexadecimal one behind `0x`, where it is below 2^128.
pub(crate) fn number_in(text: &[u8]) -> Option<u128>
    ensures { result ≡ below (2 ^ 128) (numeral_in text.now) }
{
    match text {
        [b'0', b'x', digits @ ..] => hexadecimal_in(digits),
        _ => decimal_in(text),
    }
}

fn decimal_in(text: &[u8]) -> Option<u128>
    ensures { result ≡ below (2 ^ 128) (decimal_in text.now) }
{
    match text {
        [] => None,
        [byte] => digit_in(*byte),
        [first, _, ..] => {
            if *first == 48 || !are_decimal_digits(text) {
                return None;
            }
            decimal_value(text)
        }
    }
}

/// The number of one decimal digit.
fn digit_in(byte: u8) -> Option<u128>
    ensures { result ≡ below (2 ^ 128) (decimal_in (byte ∷ [])) }
{
    if is_decimal_digit(byte) {
        Some(u128::from(byte - 48))
    } else {
        None
    }
}

fn hexadecimal_in(text: &[u8]) -> Option<u128>
    ensures { result ≡ below (2 ^ 128) (hexadecimal_in text.now) }
{
    if text.is_empty() || !are_hexadecimal_digits(text) {
        return None;
    }
    hexadecimal_value(text)
}

fn is_decimal_digit(byte: u8) -> bool
    ensures { result ≡ is_script_digit byte }
{
    48 <= byte && byte <= 57
}

fn is_hexadecimal_digit(byte: u8) -> bool
    ensures { result ≡ is_either_hexadecimal_digit byte }
{
    is_decimal_digit(byte) || (97 <= byte && byte <= 102) || (65 <= byte && byte <= 70)
}

fn are_decimal_digits(text: &[u8]) -> bool
    ensures { result ≡ list_all is_script_digit text.now }
{
    text.iter().all(|byte| is_decimal_digit(*byte))
}

fn are_hexadecimal_digits(text: &[u8]) -> bool
    ensures { result ≡ list_all is_either_hexadecimal_digit text.now }
{
    text.iter().all(|byte| is_hexadecimal_digit(*byte))
}

/// The value of a digit: of a letter of either case 10 to 15.
fn digit_value(byte: u8) -> u8
    ensures { result ≡ either_digit_value byte }
{
    if 97 <= byte {
        byte - 87
    } else if 65 <= byte {
        byte - 55
    } else {
        byte.saturating_sub(48)
    }
}

/// A number with one digit more behind its own, where it is below 2^128.
fn with_digit(number: u128, base: u128, digit: u8) -> Option<u128>
    ensures { result ≡ below (2 ^ 128) (Some (number * base + digit)) }
{
    let number = number.checked_mul(base)?;
    number.checked_add(u128::from(digit))
}

fn decimal_value(digits: &[u8]) -> Option<u128>
    ensures { result ≡ below (2 ^ 128) (Some (with_decimal_digits 0 digits.now)) }
{
    let mut number = 0;
    for digit in digits {
        match with_digit(number, 10, digit.saturating_sub(48)) {
            Some(longer) => number = longer,
            None => return None,
        }
    }
    Some(number)
}

fn hexadecimal_value(digits: &[u8]) -> Option<u128>
    ensures { result ≡ below (2 ^ 128) (Some (with_either_digits 0 digits.now)) }
{
    let mut number = 0;
    for digit in digits {
        match with_digit(number, 16, digit_value(*digit)) {
            Some(longer) => number = longer,
            None => return None,
        }
    }
    Some(number)
}
