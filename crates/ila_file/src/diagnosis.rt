//! Notes that lead to what is refused. They are looked for once a reading has refused, by trying its parts again.

ghost use Rattle.std.specs.Prelude.{◌≡◌, IfOk};
ghost use Rattle.serde_json.specs.View.{view};
ghost use Rattle.model_places.specs.KeyPlaces.{unknown_key_note};
ghost use Rattle.model_places.specs.ShapePlaces.{shape_note};
ghost use Rattle.ila_file.specs.Places.{found_text};

use crate::instruction_misfits::{instruction_spot, refused_instruction};
use crate::machine_misfits::machine_spot;
use crate::unknown_keys::{instruction_key_spot, instruction_with_unknown_key, machine_key_spot};
use crate::{NoMemory, Note, Place};
use serde_json::Value;
use std::alloc::Global;

/// The note of the first place at which something of another kind stands, where there is one.
pub(crate) fn shape_note(alloc: Global, value: &Value) -> Result<Option<Note>, NoMemory>
    ensures { IfOk result (λ o. found_text o ≡ shape_note (view value.now)) }
{
    let mut place = Place::top(alloc);
    if let Some(spot) = machine_spot(alloc, value, false)? {
        let note = place.note(spot)?;
        return Ok(Some(note));
    }
    let mut machine = value;
    while let Some((index, instruction)) = refused_instruction(alloc, machine)? {
        if let Some(spot) = instruction_spot(alloc, index, instruction)? {
            let note = place.note(spot)?;
            return Ok(Some(note));
        }
        let Some(child) = instruction.get("child") else {
            return Ok(None);
        };
        place.enter(index)?;
        if let Some(spot) = machine_spot(alloc, child, true)? {
            let note = place.note(spot)?;
            return Ok(Some(note));
        }
        machine = child;
    }
    Ok(None)
}

/// The note of the first key that objects of its kind do not have, where there is one.
pub(crate) fn unknown_key_note(alloc: Global, value: &Value) -> Result<Option<Note>, NoMemory>
    ensures { IfOk result (λ o. found_text o ≡ unknown_key_note (view value.now)) }
{
    let mut place = Place::top(alloc);
    if let Some(spot) = machine_key_spot(value, false) {
        let note = place.note(spot)?;
        return Ok(Some(note));
    }
    let mut machine = value;
    while let Some((index, instruction)) = instruction_with_unknown_key(machine) {
        if let Some(spot) = instruction_key_spot(index, instruction) {
            let note = place.note(spot)?;
            return Ok(Some(note));
        }
        let Some(child) = instruction.get("child") else {
            return Ok(None);
        };
        place.enter(index)?;
        if let Some(spot) = machine_key_spot(child, true) {
            let note = place.note(spot)?;
            return Ok(Some(note));
        }
        machine = child;
    }
    Ok(None)
}
