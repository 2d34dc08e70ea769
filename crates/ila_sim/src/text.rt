//! The text that tells what a model did.

ghost use Rattle.std.specs.Prelude.{◌≡◌, ◌++◌, cond, OnOk, IfOk, map, decimal, slice_index_or};
ghost use Rattle.wb_values.specs.Value.{Value, number};
ghost use Rattle.model_meaning.specs.Model.{states_of};
ghost use Rattle.model_meaning.specs.Instruction.{stuck, too_long};
ghost use Rattle.scripts.specs.Simulation.{state_text, name_of_instruction, trouble_text, outcome_text, simulation_text};
ghost use Rattle.term_evaluation.specs.Slots.{IsShownAs};
ghost use Rattle.ila_model.specs.Model.{model_of};
ghost use Rattle.ila_child.specs.Runs.{IsRunnerOf, state_in, stepped_of};
ghost use Rattle.ila_child.specs.Step.{outcome_view};
ghost use Rattle.ila_sim.specs.Outcomes.{values_text};
ghost use Rattle.ila_sim.specs.Texts.{number_text, address_text, set_words_text, several_text, next_text, outcome_line};

use ila_child::{Moved, Runner, Stepped};
use ila_model::IlaModel;
use itoa::Buffer;
use std::alloc::Global;
use term_evaluation::{SetWord, SharedValues, Shown};
use wb_terms::NoMemory;

/// Appends a number in decimal.
pub fn append_decimal(out: &mut Vec<u8>, number: u128) -> Result<(), NoMemory>
    ensures { OnOk result (out.new.items ≡ out.old.items ++ decimal number) }
{
    let mut buffer = Buffer::new();
    out.extend_from_slice(buffer.format(number).as_bytes())?;
    Ok(())
}

/// Appends ` cnt=7`.
fn append_number(out: &mut Vec<u8>, name: &str, number: u128) -> Result<(), NoMemory>
    ensures { OnOk result (out.new.items ≡ out.old.items ++ number_text name.now number) }
{
    out.push(b' ')?;
    out.extend_from_slice(name.as_bytes())?;
    out.push(b'=')?;
    append_decimal(out, number)?;
    Ok(())
}

/// Appends ` m[5]=7`.
fn append_address(out: &mut Vec<u8>, name: &str, address: u64, word: u128) -> Result<(), NoMemory>
    ensures { OnOk result (out.new.items ≡ out.old.items ++ address_text name.now address word) }
{
    out.push(b' ')?;
    out.extend_from_slice(name.as_bytes())?;
    out.push(b'[')?;
    append_decimal(out, u128::from(address))?;
    out.extend_from_slice(b"]=")?;
    append_decimal(out, word)?;
    Ok(())
}

/// Appends the words of a memory that are not 0.
fn append_words(out: &mut Vec<u8>, name: &str, words: &[SetWord]) -> Result<(), NoMemory>
    ensures { OnOk result (out.new.items ≡ out.old.items ++ set_words_text name.now words.now) }
{
    for k in 0..words.len() {
        let word = words[k];
        append_address(out, name, word.address, word.word)?;
    }
    Ok(())
}

/// A truth value as a number.
fn bit(truth: bool) -> u128
    ensures { result ≡ cond truth 1 0 }
{
    if truth { 1 } else { 0 }
}

/// Appends the value of a state, by what is shown of it.
fn append_value(out: &mut Vec<u8>, name: &str, shown: &Shown) -> Result<(), NoMemory>
    ensures { (v : Value) → IsShownAs v shown.now → OnOk result (out.new.items ≡ out.old.items ++ state_text name.now v) }
{
    match shown {
        Shown::Truth(truth) => append_number(out, name, bit(*truth)),
        Shown::Number(number) => append_number(out, name, *number),
        Shown::Words(words) => append_words(out, name, words),
    }
}

/// Appends the value of the state at a place, 0 where there is none.
fn append_value_at(
    alloc: Global,
    out: &mut Vec<u8>,
    name: &str,
    values: &SharedValues,
    place: usize,
) -> Result<(), NoMemory>
    ensures { OnOk result (out.new.items ≡ out.old.items ++ state_text name.now (slice_index_or values.now place (number 0))) }
{
    if place < values.len() {
        let shown = values.shown(alloc, place)?;
        append_value(out, name, &shown)?;
        return Ok(());
    }
    append_number(out, name, 0)?;
    Ok(())
}

/// Appends the values of all states.
fn append_states(
    alloc: Global,
    out: &mut Vec<u8>,
    model: &IlaModel,
    values: &SharedValues,
) -> Result<(), NoMemory>
    ensures { OnOk result (out.new.items ≡ out.old.items ++ values_text (states_of (model_of model.now).top) values.now) }
{
    for place in 0..model.state_count() {
        append_value_at(alloc, out, model.state_name(place), values, place)?;
    }
    Ok(())
}

/// Appends the values of the states of a model that is run.
fn append_states_there(
    alloc: Global,
    out: &mut Vec<u8>,
    model: &IlaModel,
    runner: &Runner,
) -> Result<(), NoMemory>
    requires { IsRunnerOf model.now.parts runner.now }
    ensures { OnOk result (out.new.items ≡ out.old.items ++ values_text (states_of (model_of model.now).top) (state_in model.now.parts runner.now)) }
{
    for place in 0..model.state_count() {
        let shown = runner.shown(alloc, place)?;
        append_value(out, model.state_name(place), &shown)?;
    }
    Ok(())
}

/// Appends the name of the instruction at a place, if there is one.
fn append_name(out: &mut Vec<u8>, model: &IlaModel, place: usize) -> Result<(), NoMemory>
    ensures { OnOk result (out.new.items ≡ out.old.items ++ name_of_instruction (model_of model.now) place) }
{
    if place < model.parts.instructions.len() {
        let name = &model.parts.instructions[place].name;
        out.extend_from_slice(name.as_bytes())?;
    }
    Ok(())
}

/// Appends that several instructions decode.
fn append_several(
    out: &mut Vec<u8>,
    model: &IlaModel,
    first: usize,
    second: usize,
) -> Result<(), NoMemory>
    ensures { OnOk result (out.new.items ≡ out.old.items ++ several_text (model_of model.now) first second) }
{
    out.extend_from_slice(b"several ")?;
    append_name(out, model, first)?;
    out.push(b' ')?;
    append_name(out, model, second)?;
    Ok(())
}

/// Appends that the child at a depth is stuck at a step.
fn append_stuck(out: &mut Vec<u8>, depth: u32, step: u32) -> Result<(), NoMemory>
    ensures { OnOk result (out.new.items ≡ out.old.items ++ trouble_text (stuck depth step)) }
{
    out.extend_from_slice(b"child-stuck ")?;
    append_decimal(out, depth as u128)?;
    out.push(b' ')?;
    append_decimal(out, step as u128)?;
    Ok(())
}

/// Appends that the child at a depth takes too many steps.
fn append_too_long(out: &mut Vec<u8>, depth: u32) -> Result<(), NoMemory>
    ensures { OnOk result (out.new.items ≡ out.old.items ++ trouble_text (too_long depth)) }
{
    out.extend_from_slice(b"child-too-long ")?;
    append_decimal(out, depth as u128)?;
    Ok(())
}

/// Appends an instruction's name and the state that it led to.
fn append_next(
    alloc: Global,
    out: &mut Vec<u8>,
    model: &IlaModel,
    place: usize,
    values: &SharedValues,
) -> Result<(), NoMemory>
    ensures { OnOk result (out.new.items ≡ out.old.items ++ next_text (model_of model.now) place values.now) }
{
    append_name(out, model, place)?;
    append_states(alloc, out, model, values)?;
    Ok(())
}

/// The same of a model that is run.
fn append_next_there(
    alloc: Global,
    out: &mut Vec<u8>,
    model: &IlaModel,
    place: usize,
    runner: &Runner,
) -> Result<(), NoMemory>
    requires { IsRunnerOf model.now.parts runner.now }
    ensures { OnOk result (out.new.items ≡ out.old.items ++ next_text (model_of model.now) place (state_in model.now.parts runner.now)) }
{
    append_name(out, model, place)?;
    append_states_there(alloc, out, model, runner)?;
    Ok(())
}

/// Appends bytes.
fn append_bytes(out: &mut Vec<u8>, bytes: &[u8]) -> Result<(), NoMemory>
    ensures { OnOk result (out.new.items ≡ out.old.items ++ bytes.now) }
{
    out.extend_from_slice(bytes)?;
    Ok(())
}

/// Appends what a step gave.
fn append_outcome(
    alloc: Global,
    out: &mut Vec<u8>,
    model: &IlaModel,
    answer: &Stepped,
) -> Result<(), NoMemory>
    ensures { OnOk result (out.new.items ≡ out.old.items ++ outcome_text (model_of model.now) (outcome_view (model_of model.now) answer.now)) }
{
    match answer {
        Stepped::Next(place, state) => append_next(alloc, out, model, *place, state.values()),
        Stepped::NotValid => append_bytes(out, b"none"),
        Stepped::NoInstruction => append_bytes(out, b"no-instruction"),
        Stepped::Several(first, second) => append_several(out, model, *first, *second),
        Stepped::ChildStuck(depth, step) => append_stuck(out, *depth, *step),
        Stepped::ChildTooLong(depth) => append_too_long(out, *depth),
    }
}

/// The same of a model that is run.
fn append_outcome_there(
    alloc: Global,
    out: &mut Vec<u8>,
    model: &IlaModel,
    runner: &Runner,
    moved: Moved,
) -> Result<(), NoMemory>
    requires { IsRunnerOf model.now.parts runner.now }
    ensures { OnOk result (out.new.items ≡ out.old.items ++ outcome_text (model_of model.now) (outcome_view (model_of model.now) (stepped_of moved (state_in model.now.parts runner.now)))) }
{
    match moved {
        Moved::Next(place) => append_next_there(alloc, out, model, place, runner),
        Moved::NotValid => append_bytes(out, b"none"),
        Moved::NoInstruction => append_bytes(out, b"no-instruction"),
        Moved::Several(first, second) => append_several(out, model, first, second),
        Moved::ChildStuck(depth, step) => append_stuck(out, depth, step),
        Moved::ChildTooLong(depth) => append_too_long(out, depth),
    }
}

/// Appends the line of a step with its number.
fn append_line(
    alloc: Global,
    out: &mut Vec<u8>,
    model: &IlaModel,
    number: usize,
    answer: &Stepped,
) -> Result<(), NoMemory>
    ensures { OnOk result (out.new.items ≡ out.old.items ++ outcome_line (model_of model.now) number (outcome_view (model_of model.now) answer.now)) }
{
    append_decimal(out, number as u128)?;
    out.push(b' ')?;
    append_outcome(alloc, out, model, answer)?;
    out.push(b'\n')?;
    Ok(())
}

/// The same of a model that is run.
pub(crate) fn append_moved(
    alloc: Global,
    out: &mut Vec<u8>,
    model: &IlaModel,
    number: usize,
    runner: &Runner,
    moved: Moved,
) -> Result<(), NoMemory>
    requires { IsRunnerOf model.now.parts runner.now }
    ensures { OnOk result (out.new.items ≡ out.old.items ++ outcome_line (model_of model.now) number (outcome_view (model_of model.now) (stepped_of moved (state_in model.now.parts runner.now)))) }
{
    append_decimal(out, number as u128)?;
    out.push(b' ')?;
    append_outcome_there(alloc, out, model, runner, moved)?;
    out.push(b'\n')?;
    Ok(())
}

/// The text that tells what a model did: a line for each step, numbered from 1.
pub fn simulation_text(
    alloc: Global,
    model: &IlaModel,
    steps: &[Stepped],
) -> Result<Vec<u8>, NoMemory>
    ensures { IfOk result (λ v. v.items ≡ simulation_text (model_of model.now) (map (outcome_view (model_of model.now)) steps.now)) }
{
    let mut text = Vec::new(alloc);
    for (place, answer) in steps.iter().enumerate() {
        append_line(alloc, &mut text, model, place + 1, answer)?;
    }
    Ok(text)
}
