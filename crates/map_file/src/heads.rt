//! From the bytes of a map file to what it says.

ghost use Rattle.std.specs.Prelude.{◌≡◌, false, is_none, Option, Some, IfErr};
ghost use Rattle.serde_json.specs.Data.{Data};
ghost use Rattle.serde_json.specs.View.{view};
ghost use Rattle.model_files.specs.Shape.{document};
ghost use Rattle.map_files.specs.Meaning as meaning;
ghost use Rattle.map_files.specs.Meaning.{map_reading, judged_shape, refused_by};
ghost use Rattle.map_files.specs.Shape.{map_in};
ghost use Rattle.map_file.specs.Places.{shape_misfit};
ghost use Rattle.map_file.specs.Reading.{IsDocument, IsHeadsRead, IsNoted, IsStoppedBy, IsWritten};
ghost use Rattle.map_file.specs.View.{heads_view, map_view};

use crate::keys::unknown_key;
use crate::misfits::shape_misfit;
use crate::refusal::refused_at;
use crate::shape::map_in;
use crate::stop::Stop;
use crate::{MapRefusal, MapRule, MapStop, WrittenMap};
use ila_file::{NoMemory, Note};
use serde_json::{Error, Value};
use std::alloc::Global;

/// What a map file says before a model and a design are at hand. Its expressions are texts that were not read yet.
#[derive(Drop)]
pub struct Heads {
    map: WrittenMap,
}

impl Heads {
    /// The name of the top module.
    pub fn top(&self) -> &str
        ensures { result.now ≡ (heads_view self.now).top }
    {
        self.map.top.as_str()
    }

    /// The name of the clock, an input port of the top.
    pub fn clock(&self) -> &str
        ensures { result.now ≡ (heads_view self.now).clock }
    {
        self.map.clock.as_str()
    }

    /// All that the file says.
    pub fn map(&self) -> &WrittenMap
        ensures { map_view result.now ≡ heads_view self.now }
    {
        &self.map
    }
}

/// What the bytes of a map file say, or the first of the rules on files alone, in the order in which they are judged, that refuses
/// them: `BadJson`, `BadShape`, `UnknownKey`. The note of a refusal leads to the first place, in the order in which a map is gone
/// through, at which its rule is broken.
pub fn map_heads(alloc: Global, bytes: &[u8]) -> Result<Heads, MapStop>
    ensures reading { IsHeadsRead result (map_reading bytes.now) }
    ensures note { IfErr result (IsNoted (document bytes.now)) }
{
    let value = read_document(alloc, bytes)?;
    let map = read_written(alloc, &value)?;
    Ok(Heads { map })
}

/// The data of a map file's bytes.
fn read_document(alloc: Global, bytes: &[u8]) -> Result<Value, MapStop>
    ensures document { IsDocument view result (document bytes.now) }
    ensures note { IfErr result (λ s. (o : Option Data) → IsNoted o s) }
{
    match Value::from_slice(alloc, bytes) {
        Ok(value) => Ok(value),
        Err(error) if error.is_memory() => Err(MapStop::NoMemory),
        Err(error) => Err(no_document(alloc, &error)),
    }
}

/// The written map of a file's data.
fn read_written(alloc: Global, value: &Value) -> Result<WrittenMap, MapStop>
    ensures reading { IsWritten result (judged_shape (view value.now) (map_in (view value.now))) }
    ensures note { IfErr result (IsNoted (Some (view value.now))) }
{
    match map_in(alloc, value) {
        Ok(map) => match unknown_key(value) {
            Some(spot) => Err(refused_at(alloc, MapRule::UnknownKey, spot)),
            None => Ok(map),
        },
        Err(Stop::Refused) => Err(bad_shape(alloc, value)),
        Err(Stop::Memory) => Err(MapStop::NoMemory),
    }
}

/// The refusal of data of another shape.
fn bad_shape(alloc: Global, value: &Value) -> MapStop
    requires { is_none (shape_misfit (view value.now)) ≡ false }
    ensures stop { IsStoppedBy result (refused_by meaning.BadShape) }
    ensures note { IsNoted (Some (view value.now)) result }
{
    match shape_misfit(value) {
        Some(spot) => refused_at(alloc, MapRule::BadShape, spot),
        None => unreachable!(),
    }
}

/// The refusal of bytes that are no JSON document, with the line and the column (from 1 on) at which the reader stopped, where
/// it knows them.
fn no_document(alloc: Global, error: &Error) -> MapStop
    ensures stop { IsStoppedBy result (refused_by meaning.BadJson) }
    ensures note { (o : Option Data) → IsNoted o result }
{
    match json_note(alloc, error) {
        Ok(note) => MapStop::Refused(MapRefusal {
            rule: MapRule::BadJson,
            note,
        }),
        Err(_) => MapStop::NoMemory,
    }
}

fn json_note(alloc: Global, error: &Error) -> Result<Note, NoMemory> {
    let line = error.line();
    if line == 0 {
        return Note::new(alloc, b"not JSON");
    }
    let column = error.column();
    let text = format!(in alloc; "not JSON: line {line} column {column}")?;
    Note::new(alloc, text.as_bytes())
}
