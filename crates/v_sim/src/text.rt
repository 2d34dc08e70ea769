//! The text that tells what a design did.

ghost use Rattle.std.specs.Prelude.{◌≡◌, ◌++◌, ◌+◌, ◌≤◌, List, cond, length, map, OnOk, slice_index_or};
ghost use Rattle.wb_values.specs.Value as meaning;
ghost use Rattle.wb_terms.specs.Environment.{as_value};
ghost use Rattle.scripts.specs.Simulation.{words_text};
ghost use Rattle.design_scripts.specs.Simulation.{least_of, number_text, register_text};
ghost use Rattle.v_design.specs.Seen.{parts_of};
ghost use Rattle.ila_sim.specs.Kinds.{addresses_of};
ghost use Rattle.ila_sim.specs.Names.{settable_of};
ghost use Rattle.v_cycle.specs.Running.{IsRun, HasRun};
ghost use Rattle.ila_sim.specs.Texts.{word_text};
ghost use Rattle.v_sim.specs.Texts.{cycle_line, end_by, outputs_by, registers_by, settled_number};

use ila_sim::{Kind, Settable, append_decimal};
use v_cycle::Cycle;
use v_design::Design;
use wb_terms::{NoMemory, Value};

/// Appends ` cnt=7`.
fn append_number(out: &mut Vec<u8>, name: &[u8], number: u128) -> Result<(), NoMemory>
    ensures { OnOk result (out.new.items ≡ out.old.items ++ number_text name.now number) }
{
    out.push(b' ')?;
    out.extend_from_slice(name)?;
    out.push(b'=')?;
    append_decimal(out, number)?;
    Ok(())
}

/// Appends ` m[5]=7`, where the word is not 0.
fn append_word(out: &mut Vec<u8>, name: &[u8], address: u128, word: u128) -> Result<(), NoMemory>
    ensures { OnOk result (out.new.items ≡ out.old.items ++ word_text name.now address word) }
{
    if word == 0 {
        return Ok(());
    }
    out.push(b' ')?;
    out.extend_from_slice(name)?;
    out.push(b'[')?;
    append_decimal(out, address)?;
    out.extend_from_slice(b"]=")?;
    append_decimal(out, word)?;
    Ok(())
}

/// Appends the words of a memory that are not 0, from its least address on.
fn append_words(out: &mut Vec<u8>, name: &[u8], least: u64, words: &[u128]) -> Result<(), NoMemory>
    ensures { OnOk result (out.new.items ≡ out.old.items ++ words_text name.now least words.now) }
{
    for (place, word) in words.iter().enumerate() {
        append_word(out, name, u128::from(least) + place as u128, *word)?;
    }
    Ok(())
}

/// A truth value as a number.
fn bit(truth: bool) -> u128
    ensures { result ≡ cond truth 1 0 }
{
    if truth { 1 } else { 0 }
}

/// The least address of a memory, and 0 of what is none.
fn least_of(kind: Kind) -> u64
    ensures { result ≡ least_of (addresses_of kind) }
{
    match kind {
        Kind::Memory(least, _, _) => least,
        _ => 0,
    }
}

/// Appends the value of a register.
fn append_register(out: &mut Vec<u8>, register: &Settable, value: &Value) -> Result<(), NoMemory>
    ensures { OnOk result (out.new.items ≡ out.old.items ++ register_text (settable_of register.now) (as_value value.now)) }
{
    match value {
        Value::Truth(truth) => append_number(out, &register.name, bit(*truth)),
        Value::Number(number) => append_number(out, &register.name, *number),
        Value::Words(words) => append_words(out, &register.name, least_of(register.kind), words),
    }
}

/// Appends the values of registers.
fn append_registers(
    out: &mut Vec<u8>,
    registers: &[Settable],
    values: &[Value],
) -> Result<(), NoMemory>
    requires { length registers.now ≡ length values.now }
    ensures { OnOk result (out.new.items ≡ out.old.items ++ registers_by (map settable_of registers.now) (map as_value values.now)) }
{
    for place in 0..registers.len() {
        append_register(out, &registers[place], &values[place])?;
    }
    Ok(())
}

/// Appends the last line, with the values of registers.
pub(crate) fn append_end(
    out: &mut Vec<u8>,
    registers: &[Settable],
    values: &[Value],
) -> Result<(), NoMemory>
    requires { length registers.now ≡ length values.now }
    ensures { OnOk result (out.new.items ≡ out.old.items ++ end_by (map settable_of registers.now) (map as_value values.now)) }
{
    out.extend_from_slice(b"end")?;
    append_registers(out, registers, values)?;
    out.push(b'\n')?;
    Ok(())
}

/// What a name settled to in the last cycle.
fn settled_number(design: &Design, cycle: &Cycle, name: &str) -> u128
    requires { IsRun (parts_of design.now) cycle.now }
    ensures { (rs is : List meaning.Value) → HasRun (parts_of design.now) cycle.now rs is → result ≡ settled_number (parts_of design.now) rs is name.now }
{
    cycle.value(design, name)
}

/// Appends what the outputs settled to in the last cycle.
fn append_outputs(design: &Design, cycle: &Cycle, out: &mut Vec<u8>) -> Result<(), NoMemory>
    requires { IsRun (parts_of design.now) cycle.now }
    ensures { OnOk result ((rs is : List meaning.Value) → HasRun (parts_of design.now) cycle.now rs is
        → out.new.items ≡ out.old.items ++ outputs_by (parts_of design.now) rs is (parts_of design.now).outputs) }
{
    for name in &design.outputs {
        let number = settled_number(design, cycle, name);
        append_number(out, name.as_bytes(), number)?;
    }
    Ok(())
}

/// Appends the line of the last cycle, with its number.
pub(crate) fn append_line(
    design: &Design,
    cycle: &Cycle,
    out: &mut Vec<u8>,
    number: usize,
) -> Result<(), NoMemory>
    requires { IsRun (parts_of design.now) cycle.now }
    ensures { OnOk result ((rs is : List meaning.Value) → HasRun (parts_of design.now) cycle.now rs is
        → out.new.items ≡ out.old.items ++ cycle_line (parts_of design.now) number rs is) }
{
    append_decimal(out, number as u128)?;
    append_outputs(design, cycle, out)?;
    out.push(b'\n')?;
    Ok(())
}
