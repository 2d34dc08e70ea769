//! The rules in their order: JSON, shape, keys, and then those on names, sorts, numbers and children.

ghost use Rattle.std.specs.Prelude.{◌≡◌, Option, Some, option_map, IfOk, IfErr};
ghost use Rattle.serde_json.specs.Data.{Data};
ghost use Rattle.serde_json.specs.View.{view};
ghost use Rattle.model_files.specs.Shape.{document, model_in};
ghost use Rattle.model_files.specs.Meaning as meaning;
ghost use Rattle.model_files.specs.Meaning.{model_reading, of_shape, with_known_keys, judged_by, broken_rule, refused_by};
ghost use Rattle.ila_file.specs.Places.{note_text};
ghost use Rattle.ila_file.specs.View.{model_view};
ghost use Rattle.ila_rules.specs.Refusals.{refusal_view, IsNotedIn};
ghost use Rattle.ila_rules.specs.Rule.{rule_view};
ghost use Rattle.ila_json.specs.Reading.{IsDocument, IsFoundNoted, IsModelRead, IsNoted, IsRefusalIn, IsStoppedBy, IsWritten};

use crate::ModelStop;
use ila_file::{NoMemory, Note, ShapeStop, WrittenModel, read_shape, unknown_key};
use ila_model::IlaModel;
use ila_rules::{ModelRefusal, ModelRule, broken_rule};
use ila_whole::whole_model;
use serde_json::{Error, Value};
use std::alloc::Global;

/// The model that the bytes of a model file stand for, or the first rule, in the order in which they are judged, that refuses
/// them, with the first place, in the order in which a model is gone through, at which it is broken.
pub fn read_model(alloc: Global, bytes: &[u8]) -> Result<IlaModel, ModelStop>
    ensures reading { IsModelRead result (model_reading bytes.now) }
    ensures note { IfErr result (IsNoted (document bytes.now)) }
{
    let value = read_document(alloc, bytes)?;
    let written = read_written(alloc, &value)?;
    let model = whole_model(alloc, &written)?;
    Ok(model)
}

/// The data of a model file's bytes.
pub fn read_document(alloc: Global, bytes: &[u8]) -> Result<Value, ModelStop>
    ensures document { IsDocument view result (document bytes.now) }
    ensures note { IfErr result (λ s. (o : Option Data) → IsNoted o s) }
{
    match Value::from_slice(alloc, bytes) {
        Ok(value) => Ok(value),
        Err(error) if error.is_memory() => Err(ModelStop::NoMemory),
        Err(error) => Err(no_document(alloc, &error)),
    }
}

/// The written model of a file's data, where no rule refuses it.
pub fn read_written<'v>(alloc: Global, value: &'v Value) -> Result<WrittenModel<'v>, ModelStop>
    ensures model { IfOk result (λ w. model_in (view value.now) ≡ Some (model_view w)) }
    ensures reading { IsWritten result (of_shape (view value.now) (model_in (view value.now))) }
    ensures note { IfErr result (IsNoted (Some (view value.now))) }
{
    match read_shape(alloc, value) {
        Ok(written) => {
            let found = with_known_keys(alloc, value, &written)?;
            match found {
                Some(refusal) => Err(ModelStop::Refused(refusal)),
                None => Ok(written),
            }
        }
        Err(ShapeStop::Refused(note)) => {
            let refusal = refused(ModelRule::BadShape, note);
            Err(ModelStop::Refused(refusal))
        }
        Err(ShapeStop::NoMemory) => Err(ModelStop::NoMemory),
    }
}

/// The refusal of a written model, whose data may have keys besides.
fn with_known_keys(
    alloc: Global,
    value: &Value,
    written: &WrittenModel<'_>,
) -> Result<Option<ModelRefusal>, NoMemory>
    ensures found { IfOk result (λ found. IsRefusalIn found (with_known_keys (view value.now) (model_view written.now))) }
    ensures note { IfOk result (λ found. IsFoundNoted (view value.now) (model_view written.now) found) }
{
    match unknown_key(alloc, value)? {
        Some(note) => Ok(Some(refused(ModelRule::UnknownKey, note))),
        None => {
            let found = judged(alloc, written)?;
            Ok(found)
        }
    }
}

/// The refusal of a written model by the rules from `BadName` on.
fn judged(alloc: Global, written: &WrittenModel<'_>) -> Result<Option<ModelRefusal>, NoMemory>
    ensures found { IfOk result (λ found. IsRefusalIn found (judged_by (model_view written.now) (broken_rule (model_view written.now)))) }
    ensures note { IfOk result (λ found. IsNotedIn (model_view written.now) (option_map refusal_view found)) }
{
    let found = broken_rule(alloc, written)?;
    Ok(found)
}

/// A refusal by a rule, with its note.
fn refused(rule: ModelRule, note: Note) -> ModelRefusal
    ensures rule { rule_view result.rule ≡ rule_view rule }
    ensures note { note_text result.note ≡ note_text note }
{
    ModelRefusal { rule, note }
}

/// The refusal of bytes that are no JSON document, with the line and the column (from 1 on) at which the reader stopped, where
/// it knows them.
fn no_document(alloc: Global, error: &Error) -> ModelStop
    ensures stop { IsStoppedBy result (refused_by meaning.BadJson) }
    ensures note { (o : Option Data) → IsNoted o result }
{
    match json_note(alloc, error) {
        Ok(note) => ModelStop::Refused(refused(ModelRule::BadJson, note)),
        Err(_) => ModelStop::NoMemory,
    }
}

fn json_note(alloc: Global, error: &Error) -> Result<Note, NoMemory> {
    let line = error.line();
    if line == 0 {
        return Note::new(alloc, b"not JSON");
    }
    let column = error.column();
    let text = format!(in alloc; "not JSON: line {line} column {column}")?;
    Note::new(alloc, text.as_bytes())
}
