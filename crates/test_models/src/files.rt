//! Model files: what refuses them, and what they say.

use crate::outline::add_outline;
use crate::sheet::Sheet;
use ila_file::{ShapeStop, WrittenModel, read_shape, unknown_key};
use ila_json::{ModelStop, read_document, read_model, read_written};
use ila_rules::broken_rule;
use serde_json::Value;
use std::alloc::Global;

/// The answer that is no refusal.
const MODEL: &str = "a model";

/// Adds the note of the first unknown key, or nothing where there is none.
fn add_unknown_key(alloc: Global, value: &Value, out: &mut Sheet) {
    match unknown_key(alloc, value) {
        Ok(Some(note)) => out.add_bytes(note.as_bytes()),
        Ok(None) => {}
        Err(_) => out.fail(),
    }
}

/// Adds the rule that a written model breaks first, and its place, or nothing where it breaks none.
fn add_broken_rule(model: &WrittenModel<'_>, alloc: Global, out: &mut Sheet) {
    match broken_rule(alloc, model) {
        Ok(Some(refusal)) => {
            out.add(refusal.rule.name());
            out.add(", ");
            out.add_bytes(refusal.note.as_bytes());
        }
        Ok(None) => {}
        Err(_) => out.fail(),
    }
}

/// Adds what is found for data: the note of the refusal for its shape, or, of the shape of a model, what this kind of row asks for.
fn add_of_value(alloc: Global, value: &Value, kind: &str, out: &mut Sheet) {
    match read_shape(alloc, value) {
        Ok(model) => {
            match kind {
                "rule" => add_broken_rule(&model, alloc, out),
                "outline" => add_outline(&model, alloc, out),
                _ => {}
            }
            drop(model);
        }
        Err(ShapeStop::Refused(note)) => out.add_bytes(note.as_bytes()),
        Err(ShapeStop::NoMemory) => out.fail(),
    }
}

/// Adds what is found for a file's data.
pub fn add_of_data(alloc: Global, file: &[u8], kind: &str, out: &mut Sheet) {
    let Ok(value) = Value::from_slice(alloc, file) else {
        return out.add("is not JSON");
    };
    if kind == "key" {
        add_unknown_key(alloc, &value, out);
    } else {
        add_of_value(alloc, &value, kind, out);
    }
}

fn name_of(stop: &ModelStop) -> &'static str {
    match stop {
        ModelStop::Refused(refusal) => refusal.rule.name(),
        ModelStop::NoMemory => "no memory",
    }
}

/// What the reading of what is written in data answers.
fn judged_value(alloc: Global, value: &Value) -> &'static str {
    match read_written(alloc, value) {
        Ok(model) => {
            drop(model);
            MODEL
        }
        Err(stop) => name_of(&stop),
    }
}

/// What the reading of the data, and of what is written in it, answers.
fn judged(alloc: Global, file: &[u8]) -> &'static str {
    match read_document(alloc, file) {
        Ok(value) => judged_value(alloc, &value),
        Err(stop) => name_of(&stop),
    }
}

/// What reads a whole model answers.
fn whole(alloc: Global, file: &[u8]) -> &'static str {
    match read_model(alloc, file) {
        Ok(_) => MODEL,
        Err(stop) => name_of(&stop),
    }
}

/// Adds what both answer.
pub fn add_first_answer(alloc: Global, file: &[u8], out: &mut Sheet) {
    let answer = judged(alloc, file);
    if whole(alloc, file) == answer {
        out.add(answer);
    } else {
        out.add("two answers");
    }
}

/// Adds what is answered to each file that begins this one and is shorter.
pub fn add_prefixes(alloc: Global, file: &[u8], out: &mut Sheet) {
    let answer = judged(alloc, b"");
    for end in 0..file.len() {
        if judged(alloc, &file[..end]) != answer {
            out.add("two answers, ");
        }
    }
    out.add(answer);
}
