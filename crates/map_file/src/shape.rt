//! The written map that a file's data has the shape of.

ghost use Rattle.std.specs.Prelude.{◌≡◌, codes, string_bytes};
ghost use Rattle.serde_json.specs.Find.{as_str};
ghost use Rattle.serde_json.specs.View.{view, items_view, members_view};
ghost use Rattle.model_files.specs.Shape.{all_in, list_in};
ghost use Rattle.map_files.specs.Shape.{members_mapped_in, entry_in, map_in, mapped_in, named, reset_in, read_under};
ghost use Rattle.map_file.specs.Reading.{IsReading};
ghost use Rattle.map_file.specs.View.{entries_view, entry_view, instructions_view, map_view, mapped_view, reset_view, texts_view};

use crate::json::{
    active_under, list_under, members_under, text_under, unsigned_under, version_under,
};
use crate::stop::Stop;
use crate::written::{InstructionEntry, Mapped, WrittenMap, WrittenReset};
use serde_json::{Map, Value};
use std::alloc::Global;

/// The written map that data has the shape of.
pub(crate) fn map_in(alloc: Global, value: &Value) -> Result<WrittenMap, Stop>
    ensures { IsReading map_view result (map_in (view value.now)) }
{
    let _version = version_under(value).ok_or(Stop::Refused)?;
    let top = kept_text(alloc, value, "top")?;
    let clock = kept_text(alloc, value, "clock")?;
    let reset = reset_under(alloc, value)?;
    let assume = texts_under(alloc, value, "assume")?;
    let invariants = texts_under(alloc, value, "invariants")?;
    let start = kept_text(alloc, value, "start")?;
    let states = entries_under(alloc, value, "states")?;
    let inputs = entries_under(alloc, value, "inputs")?;
    let instructions = instructions_under(alloc, value)?;
    Ok(WrittenMap {
        top,
        clock,
        reset,
        assume,
        invariants,
        start,
        states,
        inputs,
        instructions,
    })
}

/// A copy of the text under a key.
fn kept_text(alloc: Global, value: &Value, key: &str) -> Result<String, Stop>
    ensures { IsReading string_bytes result (read_under as_str key.now (view value.now)) }
{
    let text = text_under(value, key).ok_or(Stop::Refused)?;
    Ok(String::from_str(alloc, text)?)
}

fn reset_under(alloc: Global, value: &Value) -> Result<WrittenReset, Stop>
    ensures { IsReading reset_view result (read_under reset_in (codes "reset") (view value.now)) }
{
    let found = value.get("reset").ok_or(Stop::Refused)?;
    reset_in(alloc, found)
}

fn reset_in(alloc: Global, value: &Value) -> Result<WrittenReset, Stop>
    ensures { IsReading reset_view result (reset_in (view value.now)) }
{
    let signal = kept_text(alloc, value, "signal")?;
    let is_active_high = active_under(value).ok_or(Stop::Refused)?;
    let cycles = unsigned_under(value, "cycles").ok_or(Stop::Refused)?;
    Ok(WrittenReset {
        signal,
        is_active_high,
        cycles,
    })
}

/// The texts of the list under a key.
fn texts_under(alloc: Global, value: &Value, key: &str) -> Result<Vec<String>, Stop>
    ensures { IsReading texts_view result (read_under (list_in as_str) key.now (view value.now)) }
{
    let items = list_under(value, key).ok_or(Stop::Refused)?;
    texts_in(alloc, items)
}

fn texts_in(alloc: Global, items: &[Value]) -> Result<Vec<String>, Stop>
    ensures { IsReading texts_view result (all_in as_str (items_view items.now)) }
{
    let mut texts = Vec::new(alloc);
    for item in items {
        let text = text_in(alloc, item)?;
        texts.push(text)?;
    }
    Ok(texts)
}

fn text_in(alloc: Global, value: &Value) -> Result<String, Stop>
    ensures { IsReading string_bytes result (as_str (view value.now)) }
{
    let text = value.as_str().ok_or(Stop::Refused)?;
    Ok(String::from_str(alloc, text)?)
}

/// The entries of the object under a key, by ascending names.
fn entries_under(alloc: Global, value: &Value, key: &str) -> Result<Vec<Mapped>, Stop>
    ensures { IsReading entries_view result (read_under mapped_in key.now (view value.now)) }
{
    let members = members_under(value, key).ok_or(Stop::Refused)?;
    members_mapped_in(alloc, members)
}

fn members_mapped_in(alloc: Global, members: &Map<String, Value>) -> Result<Vec<Mapped>, Stop>
    ensures { IsReading entries_view result (members_mapped_in (members_view members.now.entries)) }
{
    let mut entries = Vec::new(alloc);
    for (name, found) in members.iter() {
        let entry = named(alloc, name.as_str(), found)?;
        entries.push(entry)?;
    }
    Ok(entries)
}

fn named(alloc: Global, name: &str, value: &Value) -> Result<Mapped, Stop>
    ensures { IsReading mapped_view result (named name.now (as_str (view value.now))) }
{
    let expression = text_in(alloc, value)?;
    let name = String::from_str(alloc, name)?;
    Ok(Mapped { name, expression })
}

fn instructions_under(alloc: Global, value: &Value) -> Result<Vec<InstructionEntry>, Stop>
    ensures { IsReading instructions_view result (read_under (list_in entry_in) (codes "instructions") (view value.now)) }
{
    let items = list_under(value, "instructions").ok_or(Stop::Refused)?;
    instructions_in(alloc, items)
}

fn instructions_in(alloc: Global, items: &[Value]) -> Result<Vec<InstructionEntry>, Stop>
    ensures { IsReading instructions_view result (all_in entry_in (items_view items.now)) }
{
    let mut instructions = Vec::new(alloc);
    for item in items {
        let instruction = entry_in(alloc, item)?;
        instructions.push(instruction)?;
    }
    Ok(instructions)
}

fn entry_in(alloc: Global, value: &Value) -> Result<InstructionEntry, Stop>
    ensures { IsReading entry_view result (entry_in (view value.now)) }
{
    let name = kept_text(alloc, value, "name")?;
    let commit = kept_text(alloc, value, "commit")?;
    let bound = unsigned_under(value, "bound").ok_or(Stop::Refused)?;
    Ok(InstructionEntry {
        name,
        commit,
        bound,
    })
}
