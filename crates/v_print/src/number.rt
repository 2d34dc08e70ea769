//! Numbers, in decimal, or in binary where some digit is x, z or `?`.
ghost use Rattle.std.specs.Prelude.{◌≡◌, ◌≤◌, ◌++◌, ◌∷◌, [], cond, codes, OnOk};
ghost use Rattle.std.specs.Fmt.{decimal as numeral};
ghost use Rattle.std.specs.String.{string_bytes};
ghost use Rattle.v_syntax.specs.Tree.{number_of};
ghost use Rattle.verilog_text.specs.Token.{based};
ghost use Rattle.verilog_text.specs.Spelling.{kept_width};
ghost use Rattle.v_print.specs.Spelled.{is_plain, bit_digit, bit_digits, cut_unknown, cut_wild, digits_text, sign_text, based_text, size_before, number_before};
ghost use Rattle.v_print.specs.Writes.{Writes};

use crate::last::Last;
use crate::writer::Writer;
use itoa::Buffer;
use std::alloc::AllocError;
use v_syntax::tree::Number;

/// A plain decimal stands for it.
fn is_plain(number: &Number) -> bool
    ensures { result ≡ is_plain (number_of number.now) }
{
    !number.sized && number.signed && !number.has_unknown && !number.has_wild
}

/// The digit of a bit.
fn bit_text(value: u128, unknown: u128, wild: u128) -> &'static str
    ensures { result.now ≡ bit_digit value unknown wild ∷ [] }
{
    if unknown == 1 {
        "x"
    } else if wild == 1 {
        "?"
    } else if value == 1 {
        "1"
    } else {
        "0"
    }
}

/// Appends a digit for each of so many bits, the highest first.
#[tactic(auto, unfolding(crate::specs::Spelled::bit_digits))]
fn append_bits(number: &Number, bits: u32, out: &mut Writer) -> Result<(), AllocError>
    requires { bits ≤ 128 }
    ensures { OnOk result (string_bytes out.new.text ≡ string_bytes out.old.text ++ bit_digits bits number.now.value number.now.unknown number.now.wild) }
{
    let mut left = bits;
    while left > 0 {
        left -= 1;
        let digit = bit_text(
            (number.value >> left) % 2,
            (number.unknown >> left) % 2,
            (number.wild >> left) % 2,
        );
        out.piece(digit, Last::Run)?;
    }
    Ok(())
}

/// Appends a digit that is cut away, where it is wanted.
fn append_cut(wanted: bool, digit: &str, out: &mut Writer) -> Result<(), AllocError>
    ensures { OnOk result (string_bytes out.new.text ≡ string_bytes out.old.text ++ cond wanted digit.now []) }
{
    if !wanted {
        return Ok(());
    }
    out.piece(digit, Last::Run)?;
    Ok(())
}

/// Appends a number in decimal.
fn append_decimal(number: u128, out: &mut Writer) -> Result<(), AllocError>
    ensures { OnOk result (string_bytes out.new.text ≡ string_bytes out.old.text ++ numeral number) }
{
    let mut buffer = Buffer::new();
    out.piece(buffer.format(number), Last::Run)?;
    Ok(())
}

/// Appends the base and digits in binary.
fn append_binary(number: &Number, out: &mut Writer) -> Result<(), AllocError>
    ensures { OnOk result (string_bytes out.new.text ≡ string_bytes out.old.text ++ (codes "b" ++ (cut_unknown (number_of number.now) ++ (cut_wild (number_of number.now) ++ bit_digits (kept_width number.now.width) number.now.value number.now.unknown number.now.wild)))) }
{
    out.piece("b", Last::Run)?;
    append_cut(number.has_unknown && number.unknown == 0, "x", out)?;
    append_cut(number.has_wild && number.wild == 0, "?", out)?;
    append_bits(number, number.width.min(128) as u32, out)?;
    Ok(())
}

/// Appends the base and the digits.
fn append_digits(number: &Number, out: &mut Writer) -> Result<(), AllocError>
    ensures { OnOk result (string_bytes out.new.text ≡ string_bytes out.old.text ++ digits_text (number_of number.now)) }
{
    if number.has_unknown || number.has_wild {
        append_binary(number, out)?;
        return Ok(());
    }
    out.piece("d", Last::Run)?;
    append_decimal(number.value, out)?;
    Ok(())
}

/// Appends a based number from its quote on.
fn append_based(number: &Number, out: &mut Writer) -> Result<(), AllocError>
    ensures { OnOk result (string_bytes out.new.text ≡ string_bytes out.old.text ++ based_text (number_of number.now)) }
{
    out.piece("'", Last::Run)?;
    append_cut(number.signed, "s", out)?;
    append_digits(number, out)?;
    Ok(())
}

/// A based number from its quote on.
fn write_based(number: &Number, out: &mut Writer) -> Result<(), AllocError>
    ensures { OnOk result (Writes out.old out.new (λ r. based (based_text (number_of number.now)) ∷ r)) }
{
    out.part_from("'")?;
    append_based(number, out)?;
    out.last = Last::Run;
    Ok(())
}

/// The size, where there is one.
fn write_size(number: &Number, out: &mut Writer) -> Result<(), AllocError>
    ensures { OnOk result (Writes out.old out.new (λ r. size_before (number_of number.now) r)) }
{
    let sized = number.sized;
    if !sized {
        return Ok(());
    }
    out.decimal(number.width as u128)?;
    Ok(())
}

/// A number.
pub(crate) fn write_number(number: &Number, out: &mut Writer) -> Result<(), AllocError>
    ensures { OnOk result (Writes out.old out.new (λ r. number_before (number_of number.now) r)) }
{
    let plain = is_plain(number);
    if plain {
        out.decimal(number.value)?;
        return Ok(());
    }
    write_size(number, out)?;
    write_based(number, out)?;
    Ok(())
}
