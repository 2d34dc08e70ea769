//! The written model that a file's data has the shape of.

ghost use Rattle.std.specs.Prelude.{◌≡◌, codes, false, is_none, IfErr, Some, option_map};
ghost use Rattle.serde_json.specs.Find.{get, as_array, as_object};
ghost use Rattle.serde_json.specs.View.{view, items_view, members_view};
ghost use Rattle.model_files.specs.Shape.{list_in, unsigned_in, input_in, definition_in, term_in, update_in, instruction_in, all_instructions, model_in};
ghost use Rattle.model_places.specs.ShapePlaces.{shape_note, under};
ghost use Rattle.ila_file.specs.Parts.{under_if_there, or_empty, state_of, machine_under, child_found, instruction_list, instruction_parts, child_parts, model_parts};
ghost use Rattle.ila_file.specs.Reading.{IsReading, IsNotedReading, IsShapeNoted};
ghost use Rattle.ila_file.specs.View.{term_view, states_view, inputs_view, definitions_view, updates_view, fetch_view, instructions_view, machine_view, instruction_view, child_view, instruction_list_view, held_child_view, model_view};

use crate::declarations::{definitions_in, inputs_in, states_in, text_under, updates_in};
use crate::diagnosis::shape_note;
use crate::stop::{ShapeStop, Stop};
use crate::terms::read_term;
use crate::written::{
    Definition, WrittenChild, WrittenInput, WrittenInstruction, WrittenMachine, WrittenModel,
    WrittenState, WrittenTerm, WrittenUpdate,
};
use serde_json::Value;
use std::alloc::Global;

/// The list under a key.
pub(crate) fn list_under<'v>(value: &'v Value, key: &str) -> Option<&'v Vec<Value>>
    ensures { option_map (λ v. items_view v.now.items) result ≡ under as_array key.now (view value.now) }
{
    let found = value.get(key)?;
    found.as_array()
}

/// The term under a key that must be there.
fn term_under<'v>(alloc: Global, value: &'v Value, key: &str) -> Result<WrittenTerm<'v>, Stop>
    ensures { IsReading term_view result (under term_in key.now (view value.now)) }
{
    let found = value.get(key).ok_or(Stop::Refused)?;
    let term = read_term(alloc, found)?;
    Ok(term)
}

/// The term under the key `fetch`, which may be absent.
fn fetch_under<'v>(alloc: Global, value: &'v Value) -> Result<Option<WrittenTerm<'v>>, Stop>
    ensures { IsReading fetch_view result (under_if_there term_in (codes "fetch") (view value.now)) }
{
    match value.get("fetch") {
        Some(found) => {
            let term = read_term(alloc, found)?;
            Ok(Some(term))
        }
        None => Ok(None),
    }
}

/// The states of a machine's object, private ones or others.
pub(crate) fn states_under<'v>(
    alloc: Global,
    value: &'v Value,
    is_private: bool,
) -> Result<Vec<WrittenState<'v>>, Stop>
    ensures { IsReading states_view result (under (list_in (state_of is_private)) (codes "states") (view value.now)) }
{
    let items = list_under(value, "states").ok_or(Stop::Refused)?;
    let states = states_in(alloc, items, is_private)?;
    Ok(states)
}

pub(crate) fn inputs_under<'v>(
    alloc: Global,
    value: &'v Value,
) -> Result<Vec<WrittenInput<'v>>, Stop>
    ensures { IsReading inputs_view result (under (list_in input_in) (codes "inputs") (view value.now)) }
{
    let items = list_under(value, "inputs").ok_or(Stop::Refused)?;
    let inputs = inputs_in(alloc, items)?;
    Ok(inputs)
}

/// The definitions of a machine's object; there are none where the key is absent.
pub(crate) fn definitions_under<'v>(
    alloc: Global,
    value: &'v Value,
) -> Result<Vec<Definition<'v>>, Stop>
    ensures { IsReading definitions_view result
        (or_empty (under_if_there (list_in definition_in) (codes "define") (view value.now))) }
{
    match value.get("define") {
        Some(found) => {
            let definitions = definition_list(alloc, found)?;
            Ok(definitions)
        }
        None => Ok(Vec::new(alloc)),
    }
}

fn definition_list<'v>(alloc: Global, value: &'v Value) -> Result<Vec<Definition<'v>>, Stop>
    ensures { IsReading definitions_view result (list_in definition_in (view value.now)) }
{
    let items = value.as_array().ok_or(Stop::Refused)?;
    let definitions = definitions_in(alloc, items)?;
    Ok(definitions)
}

/// The updates of an instruction's object.
pub(crate) fn updates_under<'v>(
    alloc: Global,
    value: &'v Value,
) -> Result<Vec<WrittenUpdate<'v>>, Stop>
    ensures { IsReading updates_view result (under update_in (codes "update") (view value.now)) }
{
    let found = value.get("update").ok_or(Stop::Refused)?;
    let members = found.as_object().ok_or(Stop::Refused)?;
    let updates = updates_in(alloc, members)?;
    Ok(updates)
}

/// A machine by its object and its instructions, with private states or others.
fn machine_with<'v>(
    alloc: Global,
    value: &'v Value,
    is_private: bool,
    instructions: Vec<WrittenInstruction<'v>>,
) -> Result<WrittenMachine<'v>, Stop>
    ensures { IsReading machine_view result
        (machine_under is_private (view value.now) (Some (instructions_view instructions.entry.items))) }
{
    let states = states_under(alloc, value, is_private)?;
    let definitions = definitions_under(alloc, value)?;
    let fetch = fetch_under(alloc, value)?;
    let valid = term_under(alloc, value, "valid")?;
    Ok(WrittenMachine {
        states,
        definitions,
        fetch,
        valid,
        instructions,
    })
}

/// An instruction with its child program, if it has one.
#[cycle(instruction)]
pub(crate) fn instruction_in<'v>(
    alloc: Global,
    value: &'v Value,
) -> Result<WrittenInstruction<'v>, Stop>
    ensures { IsReading instruction_view result (instruction_in (view value.now)) }
{
    instruction_by_parts(alloc, value)
}

#[cycle(instruction)]
fn instruction_by_parts<'v>(alloc: Global, value: &'v Value) -> Result<WrittenInstruction<'v>, Stop>
    ensures { IsReading instruction_view result (instruction_parts (view value.now)) }
{
    let name = text_under(value, "name").ok_or(Stop::Refused)?;
    let decode = term_under(alloc, value, "decode")?;
    let updates = updates_under(alloc, value)?;
    let child = child_under(alloc, value)?;
    Ok(WrittenInstruction {
        name,
        decode,
        updates,
        child,
    })
}

#[cycle(instruction)]
fn child_under<'v>(alloc: Global, value: &'v Value) -> Result<Option<Box<WrittenChild<'v>>>, Stop>
    ensures { IsReading held_child_view result (child_found (get (codes "child") (view value.now))) }
{
    match value.get("child") {
        Some(found) => {
            let child = child_in(alloc, found)?;
            let child = Box::new(alloc, child)?;
            Ok(Some(child))
        }
        None => Ok(None),
    }
}

#[cycle(instruction)]
fn child_in<'v>(alloc: Global, value: &'v Value) -> Result<WrittenChild<'v>, Stop>
    ensures { IsReading child_view result (child_parts (view value.now)) }
{
    let steps = steps_under(value).ok_or(Stop::Refused)?;
    let instructions = instructions_under(alloc, value)?;
    let machine = machine_with(alloc, value, true, instructions)?;
    Ok(WrittenChild { steps, machine })
}

/// The instructions of a machine's object.
#[cycle(instruction)]
fn instructions_under<'v>(
    alloc: Global,
    value: &'v Value,
) -> Result<Vec<WrittenInstruction<'v>>, Stop>
    ensures { IsReading instruction_list_view result (under instruction_list (codes "instructions") (view value.now)) }
{
    let items = list_under(value, "instructions").ok_or(Stop::Refused)?;
    let instructions = written_instructions(alloc, items)?;
    Ok(instructions)
}

#[cycle(instruction)]
fn written_instructions<'v>(
    alloc: Global,
    items: &'v Vec<Value>,
) -> Result<Vec<WrittenInstruction<'v>>, Stop>
    ensures { IsReading instruction_list_view result (all_instructions (items_view items.now.items)) }
{
    let mut instructions = Vec::new(alloc);
    for item in items {
        let instruction = instruction_in(alloc, item)?;
        instructions.push(instruction)?;
    }
    Ok(instructions)
}

/// The greatest number of steps of a child program, as it is written.
pub(crate) fn steps_under(value: &Value) -> Option<u64>
    ensures { result ≡ under unsigned_in (codes "steps") (view value.now) }
{
    let found = value.get("steps")?;
    found.as_u64()
}

fn model_in<'v>(alloc: Global, value: &'v Value) -> Result<WrittenModel<'v>, Stop>
    ensures { IsReading model_view result (model_in (view value.now)) }
{
    model_by_parts(alloc, value)
}

fn model_by_parts<'v>(alloc: Global, value: &'v Value) -> Result<WrittenModel<'v>, Stop>
    ensures { IsReading model_view result (model_parts (view value.now)) }
{
    let name = text_under(value, "name").ok_or(Stop::Refused)?;
    let inputs = inputs_under(alloc, value)?;
    let instructions = instructions_under(alloc, value)?;
    let machine = machine_with(alloc, value, false, instructions)?;
    Ok(WrittenModel {
        name,
        inputs,
        machine,
    })
}

/// The written model that a file's data has the shape of. Its names are borrowed from the data. The note of a refusal leads to the
/// first place, in the order in which a model is gone through, at which something of another kind stands or a key is missing.
pub fn read_shape<'v>(alloc: Global, value: &'v Value) -> Result<WrittenModel<'v>, ShapeStop>
    ensures shape { IsNotedReading model_view result (model_in (view value.now)) }
    ensures note { IfErr result (IsShapeNoted (view value.now)) }
{
    match model_in(alloc, value) {
        Ok(model) => Ok(model),
        Err(Stop::Refused) => Err(refusal(alloc, value)),
        Err(Stop::Memory) => Err(ShapeStop::NoMemory),
    }
}

/// The refusal of data of another shape, with its note.
fn refusal(alloc: Global, value: &Value) -> ShapeStop
    requires { is_none (shape_note (view value.now)) ≡ false }
    ensures { IsShapeNoted (view value.now) result }
{
    match shape_note(alloc, value) {
        Ok(Some(note)) => ShapeStop::Refused(note),
        Ok(None) => unreachable!(),
        Err(_) => ShapeStop::NoMemory,
    }
}
