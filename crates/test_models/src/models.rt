//! Models that are read from their files, by what they declare, and by what is found of them.

use crate::parts::add_parts;
use crate::runs::{add_first_step, add_of_script, add_said, add_stepped};
use crate::sheet::Sheet;
use ila_json::{ModelStop, read_model};
use ila_model::{IlaModel, Instruction};
use std::alloc::Global;
use wb_terms::{Sort, Value};

/// Adds what is found for a row of the model that a file is read as, or the note of the file's refusal. The row has a text and its bytes.
pub fn add_of_file(
    alloc: Global,
    file: &[u8],
    kind: &str,
    text: &str,
    bytes: &[u8],
    out: &mut Sheet,
) {
    match read_model(alloc, file) {
        Ok(model) if kind == "parts" => add_parts(alloc, model, text, out),
        Ok(model) => add_of_model(alloc, &model, kind, text, bytes, out),
        Err(ModelStop::Refused(refusal)) => out.add_bytes(refusal.note.as_bytes()),
        Err(ModelStop::NoMemory) => out.fail(),
    }
}

/// Adds what is found for a row of a model.
fn add_of_model(
    alloc: Global,
    model: &IlaModel,
    kind: &str,
    text: &str,
    bytes: &[u8],
    out: &mut Sheet,
) {
    match kind {
        "note" => out.add("a model"),
        "names" => add_names(model, out),
        "declared" => add_declared(alloc, model, out),
        "built" => add_counts(alloc, model, out),
        "said" => add_said(alloc, model, bytes, out),
        "kept" | "script" => add_of_script(alloc, model, kind, bytes, out),
        "step" => add_stepped(alloc, model, text, out),
        "first" => add_first_step(alloc, model, text, out),
        _ => out.add("is no row"),
    }
}

/// Adds how many terms a model stands on, the place of its valid condition, and how many instructions it has.
fn add_counts(alloc: Global, model: &IlaModel, out: &mut Sheet) {
    out.add_number(alloc, "", u128::from(model.parts.terms.len()));
    out.add_number(alloc, " terms, valid ", model.parts.valid.0 as u128);
    out.add_number(alloc, ", ", model.parts.instructions.len() as u128);
    out.add(" instructions");
}

fn add_name(name: &str, out: &mut Sheet) {
    out.add(" ");
    out.add(name);
}

fn add_instructions(instructions: &[Instruction], out: &mut Sheet) {
    for instruction in instructions {
        add_name(instruction.name.as_str(), out);
    }
}

/// Adds the names of a model: its own, those of its states, its inputs and its instructions, and those of each child's instructions.
fn add_names(model: &IlaModel, out: &mut Sheet) {
    out.add(model.name.as_str());
    out.add(":");
    for place in 0..model.state_count() {
        add_name(model.state_name(place), out);
    }
    add_name("|", out);
    for place in 0..model.input_count() {
        add_name(model.input_name(place), out);
    }
    add_name("|", out);
    add_instructions(&model.parts.instructions, out);
    for child in model.parts.children.iter() {
        add_name("+", out);
        add_instructions(&child.instructions, out);
    }
}

fn add_sort(alloc: Global, sort: Sort, out: &mut Sheet) {
    match sort {
        Sort::Truth => out.add(":bool"),
        Sort::Word(width) => out.add_number(alloc, ":", u128::from(width)),
        Sort::Memory(address, width) => {
            out.add_number(alloc, ":[", u128::from(address));
            out.add_number(alloc, ",", u128::from(width));
            out.add("]");
        }
    }
}

/// Adds a value: a truth value, a number, or the words of a memory.
pub fn add_value(alloc: Global, value: &Value, out: &mut Sheet) {
    match value {
        Value::Truth(true) => out.add("true"),
        Value::Truth(false) => out.add("false"),
        Value::Number(number) => out.add_number(alloc, "", *number),
        Value::Words(words) => {
            out.add("[");
            for word in words {
                out.add_number(alloc, " ", *word);
            }
            out.add(" ]");
        }
    }
}

/// Adds the states with their sorts and initial values, and the inputs with their sorts.
fn add_declared(alloc: Global, model: &IlaModel, out: &mut Sheet) {
    for place in 0..model.state_count() {
        out.add(model.state_name(place));
        add_sort(alloc, model.state_sort(place), out);
        if let Some(value) = model.initial_value(place) {
            out.add("=");
            add_value(alloc, value, out);
        }
        out.add(" ");
    }
    out.add("|");
    for place in 0..model.input_count() {
        add_name(model.input_name(place), out);
        add_sort(alloc, model.input_sort(place), out);
    }
}
