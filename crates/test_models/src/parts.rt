//! The parts of a model, and changed parts: whether they are well sorted.

use crate::rows::halves;
use crate::sheet::Sheet;
use ila_model::{Child, ChildId, IlaModel, Instruction, Parts, SortedParts, Update};
use std::alloc::Global;
use wb_terms::{NameId, TermId, Value};

/// A number of a row, or a great one.
fn number(word: &str) -> u32 {
    word.parse::<u32>().unwrap_or(u32::MAX)
}

fn term(word: &str) -> TermId {
    TermId(number(word) as usize)
}

/// Lets one name begin at a number, or at no value where the word is none. Gives whether memory was left for it.
fn begin(values: &mut Vec<Option<Value>>, word: &str) -> bool {
    let value = match word.parse::<u128>() {
        Ok(number) => Some(Value::Number(number)),
        Err(_) => None,
    };
    values.clear();
    values.push(value).is_ok()
}

/// Lets an instruction update one name: `NAME TERM`. Gives whether memory was left for it.
fn update(instruction: &mut Instruction, text: &str) -> bool {
    let (state, word) = halves(text, " ");
    let state = NameId(number(state) as usize);
    instruction.updates.clear();
    let update = Update {
        state,
        term: term(word),
    };
    instruction.updates.push(update).is_ok()
}

/// Changes a field of a child program. Gives whether there is one, and memory was left for it.
fn change_child(child: &mut Child, field: &str, word: &str) -> bool {
    match field {
        "around" => child.around = Some(ChildId(number(word) as usize)),
        "begins" => return begin(&mut child.initial_values, word),
        "steps" => child.steps = number(word),
        "child_valid" => child.valid = term(word),
        _ => return false,
    }
    true
}

/// Changes a field of parts whose first instruction has a child program. Gives whether there is one, and memory was left for it.
fn change(parts: &mut Parts, field: &str, text: &str) -> bool {
    match field {
        "" => true,
        "initial" => begin(&mut parts.initial_values, text),
        "valid" => {
            parts.valid = term(text);
            true
        }
        "update" => match parts.instructions.first_mut() {
            Some(instruction) => update(instruction, text),
            None => false,
        },
        _ => match parts.children.first_mut() {
            Some(child) => change_child(child, field, text),
            None => false,
        },
    }
}

/// Adds whether the parts of a model with a change are well sorted: `FIELD VALUE`, `update NAME TERM`, or nothing.
pub fn add_parts(alloc: Global, model: IlaModel, text: &str, out: &mut Sheet) {
    let (field, value) = halves(text, " ");
    let mut parts = model.parts;
    if !change(&mut parts, field, value) {
        return out.add("are no parts");
    }
    match SortedParts::new(alloc, parts) {
        Ok(Some(_)) => out.add("sorted"),
        Ok(None) => out.add("not sorted"),
        Err(_) => out.fail(),
    }
}
