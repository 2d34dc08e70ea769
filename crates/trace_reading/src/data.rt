//! Looking into the data of a trace file.

ghost use Rattle.std.specs.Prelude.{◌≡◌, codes, is_none, map, not, option_map};
ghost use Rattle.serde_json.specs.Find.{as_array, as_object, as_str};
ghost use Rattle.serde_json.specs.View.{view, items_view, members_view};
ghost use Rattle.map_files.specs.Keys.{has_key_besides};
ghost use Rattle.map_files.specs.Shape.{read_under};
ghost use Rattle.model_files.specs.Keys.{has_other_key};
ghost use Rattle.model_meaning.specs.Among.{is_name_in};
ghost use Rattle.trace_files.specs.Shape.{trace_keys};
ghost use Rattle.trace_reading.specs.Fitting.{register_in};

use serde_json::{Map, Value};

const TRACE_KEYS: [&str; 3] = ["inputs", "obligation", "registers"];

/// The name of the obligation, where the file has one.
pub(crate) fn obligation_name(file: &Value) -> Option<&str>
    ensures { option_map (λ s. s.now) result ≡ read_under as_str (codes "obligation") (view file.now) }
{
    let found = file.get("obligation")?;
    found.as_str()
}

/// The values of registers.
pub(crate) fn registers(file: &Value) -> Option<&Map<String, Value>>
    ensures { option_map (λ m. members_view m.now.entries) result ≡ read_under as_object (codes "registers") (view file.now) }
{
    let found = file.get("registers")?;
    found.as_object()
}

/// The inputs of each cycle.
pub(crate) fn cycles(file: &Value) -> Option<&Vec<Value>>
    ensures { option_map (λ v. items_view v.now.items) result ≡ read_under as_array (codes "inputs") (view file.now) }
{
    let found = file.get("inputs")?;
    found.as_array()
}

/// What the file has for a register's name.
pub(crate) fn register_in<'v>(file: &'v Value, name: &str) -> Option<&'v Value>
    ensures { option_map (λ v. view v.now) result ≡ register_in (view file.now) name.now }
{
    let registers = file.get("registers")?;
    registers.get(name)
}

/// The first key of an object that a trace does not have.
pub(crate) fn other_key(file: &Value) -> Option<&str>
    ensures { is_none result ≡ not (has_key_besides trace_keys (view file.now)) }
{
    match file.as_object() {
        Some(members) => other_key_in(members, &TRACE_KEYS),
        None => None,
    }
}

/// The first key that is none of these.
fn other_key_in<'v>(members: &'v Map<String, Value>, keys: &[&str]) -> Option<&'v str>
    ensures { is_none result ≡ not (has_other_key (map (λ k. k.now) keys.now) (members_view members.now.entries)) }
{
    for (key, _found) in members.iter() {
        if !is_among(key.as_str(), keys) {
            return Some(key.as_str());
        }
    }
    None
}

fn is_among(name: &str, keys: &[&str]) -> bool
    ensures { result ≡ is_name_in name.now (map (λ k. k.now) keys.now) }
{
    for key in keys {
        if name == *key {
            return true;
        }
    }
    false
}
