//! Keys that a map file's objects do not have.

ghost use Rattle.std.specs.Prelude.{◌≡◌, codes, map, option_map};
ghost use Rattle.serde_json.specs.Find.{as_array, as_object, get};
ghost use Rattle.serde_json.specs.View.{view, items_view, members_view};
ghost use Rattle.model_meaning.specs.Among.{is_name_in};
ghost use Rattle.model_places.specs.KeyPlaces.{first_other_key};
ghost use Rattle.ila_file.specs.Places.{spot_view};
ghost use Rattle.map_files.specs.Shape.{read_under};
ghost use Rattle.map_file.specs.Places.{instruction_key, instruction_keys_in, other_key_of, reset_key_in, there, unknown_key_spot};

use crate::json::list_under;
use crate::misfits::entry_spot;
use ila_file::Spot;
use serde_json::{Map, Value};

const MAP_KEYS: [&str; 10] = [
    "version",
    "top",
    "clock",
    "reset",
    "assume",
    "invariants",
    "start",
    "states",
    "inputs",
    "instructions",
];

const RESET_KEYS: [&str; 3] = ["signal", "active", "cycles"];

const INSTRUCTION_KEYS: [&str; 3] = ["name", "commit", "bound"];

/// The first key that objects of its kind do not have: of the map, of its reset, of its instructions.
pub(crate) fn unknown_key<'v>(value: &'v Value) -> Option<Spot<'v>>
    ensures { option_map spot_view result ≡ unknown_key_spot (view value.now) }
{
    if let Some(key) = other_key_in(value, &MAP_KEYS) {
        return Some(Spot::key(key));
    }
    if let Some(spot) = reset_key(value) {
        return Some(spot);
    }
    instructions_key(value)
}

fn reset_key<'v>(value: &'v Value) -> Option<Spot<'v>>
    ensures { option_map spot_view result ≡ there reset_key_in (get (codes "reset") (view value.now)) }
{
    let reset = value.get("reset")?;
    let key = other_key_in(reset, &RESET_KEYS)?;
    Some(Spot::key("reset").part(key))
}

fn instructions_key<'v>(value: &'v Value) -> Option<Spot<'v>>
    ensures { option_map spot_view result ≡ there (instruction_keys_in 0) (read_under as_array (codes "instructions") (view value.now)) }
{
    match list_under(value, "instructions") {
        Some(items) => instruction_keys(items),
        None => None,
    }
}

fn instruction_keys<'v>(items: &'v [Value]) -> Option<Spot<'v>>
    ensures { option_map spot_view result ≡ instruction_keys_in 0 (items_view items.now) }
{
    for (index, item) in items.iter().enumerate() {
        if let Some(spot) = instruction_key(index, item) {
            return Some(spot);
        }
    }
    None
}

fn instruction_key<'v>(index: usize, item: &'v Value) -> Option<Spot<'v>>
    ensures { option_map spot_view result ≡ instruction_key index (view item.now) }
{
    match other_key_in(item, &INSTRUCTION_KEYS) {
        Some(key) => Some(entry_spot(index, item).part(key)),
        None => None,
    }
}

/// The first key of an object that is none of these.
fn other_key_in<'v>(value: &'v Value, keys: &[&str]) -> Option<&'v str>
    ensures { option_map (λ k. k.now) result ≡ other_key_of (map (λ k. k.now) keys.now) (as_object (view value.now)) }
{
    match value.as_object() {
        Some(members) => other_key(members, keys),
        None => None,
    }
}

fn other_key<'v>(members: &'v Map<String, Value>, keys: &[&str]) -> Option<&'v str>
    ensures { option_map (λ k. k.now) result ≡ first_other_key (map (λ k. k.now) keys.now) (members_view members.now.entries) }
{
    for (key, _found) in members.iter() {
        if !is_among(key.as_str(), keys) {
            return Some(key.as_str());
        }
    }
    None
}

fn is_among(name: &str, keys: &[&str]) -> bool
    ensures { result ≡ is_name_in name.now (map (λ k. k.now) keys.now) }
{
    for key in keys {
        if name == *key {
            return true;
        }
    }
    false
}
