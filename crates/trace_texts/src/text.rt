//! Traces as text.

ghost use Rattle.std.specs.Prelude.{◌≡◌, ◌++◌, [], ◌∷◌, ◌<◌, false, length, map, OnOk};
ghost use Rattle.std.specs.Fmt.{digits, digit_glyph};
ghost use Rattle.wb_values.specs.Value.{number};
ghost use Rattle.wb_terms.specs.Graph.{AllBelow};
ghost use Rattle.wb_terms.specs.Environment.{as_value};
ghost use Rattle.reports.specs.Report.{quoted, hexadecimal, number_texts, value_text, in_brackets, member_text, object_text, object_texts, trace_text};
ghost use Rattle.v_design.specs.Bits.{counted_bits};
ghost use Rattle.v_design.specs.Parts.{registers_of, inputs_of};
ghost use Rattle.v_design.specs.Seen.{parts_of};
ghost use Rattle.trace_texts.specs.Told.{numbers_of, shown, register_entry, input_entry, trace_of, AreNamesOf};
ghost use Rattle.trace_texts.specs.Texts.{comma_after, entry_text};

use crate::names::{NoMemory, TraceNames, input_name};
use std::alloc::Global;
use v_design::{Design, RegisterBits};
use wb_terms::Value;

/// The hexadecimal digit of a number below 16, in lower case.
fn glyph(digit: u8) -> u8
    requires { digit < 16 }
    ensures { result ≡ digit_glyph false digit }
{
    if digit < 10 {
        b'0' + digit
    } else {
        b'a' + (digit - 10)
    }
}

/// Appends the number's lower-case hexadecimal digits, without leading zeros.
fn append_digits(out: &mut Vec<u8>, number: u128) -> Result<(), NoMemory>
    ensures { OnOk result (out.new.items ≡ out.old.items ++ digits 16 false number) }
{
    let start = out.len();
    let mut rest = number;
    // A number of 128 bits has at most 32 digits; 64 is what the definition of digits counts down from.
    for _taken in 0..64u8 {
        out.insert(start, glyph((rest % 16) as u8))?;
        rest /= 16;
        if rest == 0 {
            return Ok(());
        }
    }
    Ok(())
}

/// Appends the number as a text in quotation marks.
fn append_number(out: &mut Vec<u8>, number: u128) -> Result<(), NoMemory>
    ensures { OnOk result (out.new.items ≡ out.old.items ++ quoted (hexadecimal number)) }
{
    out.extend_from_slice(b"\"0x")?;
    append_digits(out, number)?;
    out.push(b'"')?;
    Ok(())
}

/// Appends a comma, if there is something before it.
fn append_comma(out: &mut Vec<u8>, written: usize) -> Result<(), NoMemory>
    ensures { OnOk result (out.new.items ≡ out.old.items ++ comma_after written) }
{
    if written > 0 {
        out.push(b',')?;
    }
    Ok(())
}

/// Appends the numbers as texts in brackets.
fn append_numbers(out: &mut Vec<u8>, numbers: &[u128]) -> Result<(), NoMemory>
    ensures { OnOk result (out.new.items ≡ out.old.items ++ in_brackets (number_texts numbers.now)) }
{
    out.push(b'[')?;
    for (index, number) in numbers.iter().enumerate() {
        append_comma(out, index)?;
        append_number(out, *number)?;
    }
    out.push(b']')?;
    Ok(())
}

/// Appends the value of a register; of a memory the words that it has.
fn append_value(out: &mut Vec<u8>, bits: &RegisterBits, value: &Value) -> Result<(), NoMemory>
    ensures { OnOk result (out.new.items ≡ out.old.items ++ value_text (shown (counted_bits bits.now) (as_value value.now))) }
{
    match value {
        Value::Truth(truth) => append_number(out, u128::from(*truth)),
        Value::Number(number) => append_number(out, *number),
        Value::Words(words) => {
            let count = bits.masks.len().min(words.len());
            append_numbers(out, &words[..count])
        }
    }
}

/// Appends a key, and the colon after it.
fn append_key(out: &mut Vec<u8>, name: &str) -> Result<(), NoMemory>
    ensures { OnOk result (out.new.items ≡ out.old.items ++ member_text name.now []) }
{
    out.push(b'"')?;
    out.extend_from_slice(name.as_bytes())?;
    out.extend_from_slice(b"\":")?;
    Ok(())
}

/// Appends a register's name and its value. A register without a value has 0.
fn append_register(
    out: &mut Vec<u8>,
    design: &Design,
    place: usize,
    registers: &[Value],
) -> Result<(), NoMemory>
    requires { place < length (registers_of (parts_of design.now)) }
    ensures { OnOk result (out.new.items ≡ out.old.items
        ++ entry_text (register_entry (parts_of design.now) (map as_value registers.now) place)) }
{
    append_key(out, design.register_name(place))?;
    match registers.get(place) {
        Some(value) => append_value(out, &design.bits[place], value),
        None => append_number(out, 0),
    }
}

/// Appends registers with their values in braces.
fn append_registers(
    out: &mut Vec<u8>,
    design: &Design,
    places: &[usize],
    registers: &[Value],
) -> Result<(), NoMemory>
    requires { AllBelow (length (registers_of (parts_of design.now))) places.now }
    ensures { OnOk result (out.new.items ≡ out.old.items
        ++ object_text (map (register_entry (parts_of design.now) (map as_value registers.now)) places.now)) }
{
    out.push(b'{')?;
    for (index, place) in places.iter().enumerate() {
        append_comma(out, index)?;
        append_register(out, design, *place, registers)?;
    }
    out.push(b'}')?;
    Ok(())
}

/// Appends an input's name and its number. An input without a number has 0.
fn append_input(
    out: &mut Vec<u8>,
    design: &Design,
    place: usize,
    numbers: &[u128],
) -> Result<(), NoMemory>
    requires { place < length (inputs_of (parts_of design.now)) }
    ensures { OnOk result (out.new.items ≡ out.old.items
        ++ entry_text (input_entry (parts_of design.now) (map number numbers.now) place)) }
{
    append_key(out, input_name(design, place))?;
    match numbers.get(place) {
        Some(number) => append_number(out, *number),
        None => append_number(out, 0),
    }
}

/// Appends the inputs of a cycle with their numbers in braces.
fn append_inputs(
    out: &mut Vec<u8>,
    design: &Design,
    places: &[usize],
    numbers: &[u128],
) -> Result<(), NoMemory>
    requires { AllBelow (length (inputs_of (parts_of design.now))) places.now }
    ensures { OnOk result (out.new.items ≡ out.old.items
        ++ object_text (map (input_entry (parts_of design.now) (map number numbers.now)) places.now)) }
{
    out.push(b'{')?;
    for (index, place) in places.iter().enumerate() {
        append_comma(out, index)?;
        append_input(out, design, *place, numbers)?;
    }
    out.push(b'}')?;
    Ok(())
}

/// Appends the inputs of each cycle in brackets.
fn append_cycles(
    out: &mut Vec<u8>,
    design: &Design,
    places: &[usize],
    inputs: &[Vec<u128>],
) -> Result<(), NoMemory>
    requires { AllBelow (length (inputs_of (parts_of design.now))) places.now }
    ensures { OnOk result (out.new.items ≡ out.old.items
        ++ in_brackets (object_texts (map (λ xs. map (input_entry (parts_of design.now) xs) places.now) (numbers_of inputs.now)))) }
{
    out.push(b'[')?;
    for (index, numbers) in inputs.iter().enumerate() {
        append_comma(out, index)?;
        append_inputs(out, design, places, numbers.as_slice())?;
    }
    out.push(b']')?;
    Ok(())
}

/// Appends the text of the trace with these values of the first registers, and these numbers of the inputs at each cycle, in the
/// design's order.
pub fn append_trace(
    _alloc: Global,
    out: &mut Vec<u8>,
    design: &Design,
    names: &TraceNames,
    obligation: &str,
    registers: &[Value],
    inputs: &[Vec<u128>],
) -> Result<(), NoMemory>
    requires { AreNamesOf (parts_of design.now) names.now }
    ensures { OnOk result (out.new.items ≡ out.old.items
        ++ trace_text (trace_of (parts_of design.now) obligation.now (map as_value registers.now) (numbers_of inputs.now))) }
{
    out.extend_from_slice(b"{\"inputs\":")?;
    append_cycles(out, design, names.inputs.as_slice(), inputs)?;
    out.extend_from_slice(b",\"obligation\":\"")?;
    out.extend_from_slice(obligation.as_bytes())?;
    out.extend_from_slice(b"\",\"registers\":")?;
    append_registers(out, design, names.registers.as_slice(), registers)?;
    out.push(b'}')?;
    Ok(())
}
