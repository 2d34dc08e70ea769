//! Keys that a model file's objects do not have.

ghost use Rattle.std.specs.Prelude.{◌≡◌, IfOk, is_some, codes, map, option_map};
ghost use Rattle.serde_json.specs.Find.{get, as_array, as_object};
ghost use Rattle.serde_json.specs.View.{view, items_view, members_view};
ghost use Rattle.model_meaning.specs.Among.{is_name_in};
ghost use Rattle.model_files.specs.Keys.{has_other_key, some_item, state_has_other_key, instruction_has_unknown_key, model_has_unknown_key};
ghost use Rattle.model_places.specs.KeyPlaces.{first_other_key, unknown_key_note};
ghost use Rattle.model_places.specs.ShapePlaces.{under};
ghost use Rattle.ila_file.specs.KeyParts.{other_key_in, is_list_found, state_key_parts, some_listed, child_key_parts, child_key_found, instruction_key_parts};
ghost use Rattle.ila_file.specs.KeySpots.{other_key_of, state_key_of};
ghost use Rattle.ila_file.specs.Places.{found_text};

use crate::diagnosis::unknown_key_note;
use crate::shape::list_under;
use crate::{NoMemory, Note};
use serde_json::{Map, Value};
use std::alloc::Global;

pub(crate) const MODEL_KEYS: [&str; 7] = [
    "name",
    "states",
    "inputs",
    "define",
    "fetch",
    "valid",
    "instructions",
];

pub(crate) const CHILD_KEYS: [&str; 6] = [
    "states",
    "define",
    "fetch",
    "valid",
    "steps",
    "instructions",
];

pub(crate) const INSTRUCTION_KEYS: [&str; 4] = ["name", "decode", "update", "child"];

pub(crate) const INPUT_KEYS: [&str; 2] = ["name", "sort"];

const MEMORY_KEYS: [&str; 2] = ["name", "sort"];

const STATE_KEYS: [&str; 3] = ["name", "sort", "init"];

/// The note of the first key, in the order in which a model is gone through, that objects of its kind do not have, where there is
/// one.
pub fn unknown_key(alloc: Global, value: &Value) -> Result<Option<Note>, NoMemory>
    ensures found { IfOk result (λ o. is_some o ≡ model_has_unknown_key (view value.now)) }
    ensures note { IfOk result (λ o. found_text o ≡ unknown_key_note (view value.now)) }
{
    let note = unknown_key_note(alloc, value)?;
    Ok(note)
}

/// The first key of an object that is none of these.
pub(crate) fn other_key_in<'v>(value: &'v Value, keys: &[&str]) -> Option<&'v str>
    ensures is { is_some result ≡ other_key_in (map (λ k. k.now) keys.now) (as_object (view value.now)) }
    ensures key { option_map (λ k. k.now) result ≡ other_key_of (map (λ k. k.now) keys.now) (as_object (view value.now)) }
{
    match value.as_object() {
        Some(members) => other_key(members, keys),
        None => None,
    }
}

fn other_key<'v>(members: &'v Map<String, Value>, keys: &[&str]) -> Option<&'v str>
    ensures is { is_some result ≡ has_other_key (map (λ k. k.now) keys.now) (members_view members.now.entries) }
    ensures key { option_map (λ k. k.now) result ≡ first_other_key (map (λ k. k.now) keys.now) (members_view members.now.entries) }
{
    for (key, _found) in members.iter() {
        if !is_among(key.as_str(), keys) {
            return Some(key.as_str());
        }
    }
    None
}

fn is_among(name: &str, keys: &[&str]) -> bool
    ensures { result ≡ is_name_in name.now (map (λ k. k.now) keys.now) }
{
    for key in keys {
        if name == *key {
            return true;
        }
    }
    false
}

/// The first key of a state's object that a state of its sort does not have.
pub(crate) fn state_other_key<'v>(value: &'v Value) -> Option<&'v str>
    ensures is { is_some result ≡ state_key_parts (view value.now) }
    ensures key { option_map (λ k. k.now) result ≡ state_key_of (view value.now) }
{
    if is_memory_state(value) {
        other_key_in(value, &MEMORY_KEYS)
    } else {
        other_key_in(value, &STATE_KEYS)
    }
}

fn is_memory_state(value: &Value) -> bool
    ensures { result ≡ is_list_found (get (codes "sort") (view value.now)) }
{
    match value.get("sort") {
        Some(sort) => sort.is_array(),
        None => false,
    }
}

fn state_has_other_key(value: &Value) -> bool
    ensures { result ≡ state_has_other_key (view value.now) }
{
    state_other_key(value).is_some()
}

fn some_state_under(value: &Value) -> bool
    ensures { result ≡ some_listed state_has_other_key (under as_array (codes "states") (view value.now)) }
{
    match list_under(value, "states") {
        Some(items) => some_state(items),
        None => false,
    }
}

fn some_state(items: &[Value]) -> bool
    ensures { result ≡ some_item state_has_other_key (items_view items.now) }
{
    for item in items {
        if state_has_other_key(item) {
            return true;
        }
    }
    false
}

/// Whether an instruction's object, or one of those in it, has an unknown key.
#[cycle(unknown)]
pub(crate) fn instruction_has_unknown_key(value: &Value) -> bool
    ensures { result ≡ instruction_has_unknown_key (view value.now) }
{
    instruction_by_parts(value)
}

#[cycle(unknown)]
fn instruction_by_parts(value: &Value) -> bool
    ensures { result ≡ instruction_key_parts (view value.now) }
{
    if other_key_in(value, &INSTRUCTION_KEYS).is_some() {
        return true;
    }
    child_found_has_unknown_key(value)
}

#[cycle(unknown)]
fn child_found_has_unknown_key(value: &Value) -> bool
    ensures { result ≡ child_key_found (get (codes "child") (view value.now)) }
{
    match value.get("child") {
        Some(child) => child_has_unknown_key(child),
        None => false,
    }
}

#[cycle(unknown)]
fn child_has_unknown_key(value: &Value) -> bool
    ensures { result ≡ child_key_parts (view value.now) }
{
    if other_key_in(value, &CHILD_KEYS).is_some() {
        return true;
    }
    if some_state_under(value) {
        return true;
    }
    instructions_have_unknown_key(value)
}

#[cycle(unknown)]
fn instructions_have_unknown_key(value: &Value) -> bool
    ensures { result ≡ some_listed instruction_has_unknown_key (under as_array (codes "instructions") (view value.now)) }
{
    match list_under(value, "instructions") {
        Some(items) => some_instruction_has_unknown_key(items),
        None => false,
    }
}

#[cycle(unknown)]
fn some_instruction_has_unknown_key(items: &Vec<Value>) -> bool
    ensures { result ≡ some_item instruction_has_unknown_key (items_view items.now.items) }
{
    for item in items {
        if instruction_has_unknown_key(item) {
            return true;
        }
    }
    false
}
