//! Scripts that are run on models, and single steps.

ghost use Rattle.std.specs.Prelude.{◌<◌, length};
ghost use Rattle.ila_model.specs.Model.{model_of};
ghost use Rattle.ila_child.specs.State.{IsStateOf};

use crate::rows::halves;
use crate::sheet::Sheet;
use ila_child::{Inputs, State, Stepped, initial_state, step};
use ila_model::IlaModel;
use ila_sim::{
    ScriptStop, Simulation, names_of, read_script, simulate, simulated, simulation_text,
};
use std::alloc::Global;
use term_evaluation::{SetWord, SharedValues, Shown};
use wb_terms::Value;

/// What is told of texts that are no state or no inputs.
const OTHER: &str = "is no state, or no inputs";

/// Adds what a simulation says: its text, or the refusal and its note.
pub fn add_said(alloc: Global, model: &IlaModel, script: &[u8], out: &mut Sheet) {
    match simulated(alloc, model, script) {
        Ok(Simulation::Text(text)) => out.add_bytes(&text),
        Ok(Simulation::Refused(refusal)) => {
            out.add(refusal.kind.name());
            out.add(", ");
            out.add_bytes(refusal.note.as_bytes());
        }
        Err(_) => out.fail(),
    }
}

/// Adds what a text is, over the names of a model, or, of a script, the text of the steps that are kept of it.
pub fn add_of_script(alloc: Global, model: &IlaModel, kind: &str, text: &[u8], out: &mut Sheet) {
    let Ok(names) = names_of(alloc, model) else {
        return out.fail();
    };
    let script = match read_script(alloc, text, &names) {
        Ok(script) => script,
        Err(ScriptStop::Refused(refusal)) => return out.add(refusal.kind.name()),
        Err(ScriptStop::NoMemory) => return out.fail(),
    };
    if kind == "script" {
        return out.add("a script");
    }
    let Ok(steps) = simulate(alloc, model, &script) else {
        return out.fail();
    };
    add_steps(alloc, model, &steps, out);
}

fn add_steps(alloc: Global, model: &IlaModel, steps: &[Stepped], out: &mut Sheet) {
    match simulation_text(alloc, model, steps) {
        Ok(text) => out.add_bytes(&text),
        Err(_) => out.fail(),
    }
}

/// Numbers with blanks between them, as values. One for which no memory is left is wanting.
fn values(alloc: Global, text: &str) -> Vec<Value> {
    let mut values = Vec::new(alloc);
    for word in text.split_whitespace() {
        let value = Value::Number(word.parse::<u128>().unwrap_or(0));
        let _kept = values.push(value).is_ok();
    }
    values
}

/// Adds what a model with one state does in it under inputs: `STATE INPUT..`.
pub fn add_stepped(alloc: Global, model: &IlaModel, text: &str, out: &mut Sheet) {
    let (state, inputs) = halves(text, " ");
    match State::checked(alloc, model, &values(alloc, state)) {
        Ok(Some(state)) => add_step(alloc, model, &state, inputs, out),
        Ok(None) => out.add(OTHER),
        Err(_) => out.fail(),
    }
}

/// Adds the values of a model's initial state, and what it does there under inputs.
pub fn add_first_step(alloc: Global, model: &IlaModel, inputs: &str, out: &mut Sheet) {
    let Ok(state) = initial_state(alloc, model) else {
        return out.fail();
    };
    let values = state.values();
    for place in 0..values.len() {
        add_shown(alloc, values, place, out);
        out.add(" ");
    }
    add_step(alloc, model, &state, inputs, out);
}

/// Adds what a model does in a state under inputs.
fn add_step(alloc: Global, model: &IlaModel, state: &State, inputs: &str, out: &mut Sheet)
    requires { IsStateOf (model_of model.now) state.now }
{
    let Some(inputs) = Inputs::checked(model, values(alloc, inputs)) else {
        return out.add(OTHER);
    };
    match step(alloc, model, state, &inputs) {
        Ok(stepped) => add_answer(alloc, &stepped, out),
        Err(_) => out.fail(),
    }
}

/// Adds what is shown of a value.
fn add_shown(alloc: Global, values: &SharedValues, place: usize, out: &mut Sheet)
    requires { place < length values.now }
{
    match values.shown(alloc, place) {
        Ok(Shown::Truth(true)) => out.add("true"),
        Ok(Shown::Truth(false)) => out.add("false"),
        Ok(Shown::Number(number)) => out.add_number(alloc, "", number),
        Ok(Shown::Words(words)) => add_words(alloc, &words, out),
        Err(_) => out.fail(),
    }
}

/// Adds the words of a memory other than 0.
fn add_words(alloc: Global, words: &[SetWord], out: &mut Sheet) {
    out.add("[");
    for k in 0..words.len() {
        let word = words[k];
        out.add_number(alloc, " ", u128::from(word.address));
        out.add_number(alloc, "=", word.word);
    }
    out.add(" ]");
}

fn add_answer(alloc: Global, stepped: &Stepped, out: &mut Sheet) {
    match stepped {
        Stepped::Next(place, next) => {
            out.add_number(alloc, "next ", *place as u128);
            let values = next.values();
            for place in 0..values.len() {
                out.add(" ");
                add_shown(alloc, values, place, out);
            }
        }
        Stepped::NotValid => out.add("not valid"),
        Stepped::NoInstruction => out.add("no instruction"),
        Stepped::Several(first, second) => {
            out.add_number(alloc, "several ", *first as u128);
            out.add_number(alloc, " ", *second as u128);
        }
        Stepped::ChildStuck(depth, place) => {
            out.add_number(alloc, "child stuck ", u128::from(*depth));
            out.add_number(alloc, " ", u128::from(*place));
        }
        Stepped::ChildTooLong(depth) => {
            out.add_number(alloc, "child too long ", u128::from(*depth));
        }
    }
}
