//! Looking into the data of a map file.

ghost use Rattle.std.specs.Prelude.{◌≡◌, codes, option_map};
ghost use Rattle.serde_json.specs.Find.{as_array, as_object, as_str};
ghost use Rattle.serde_json.specs.View.{view, items_view, members_view};
ghost use Rattle.model_files.specs.Shape.{unsigned_in};
ghost use Rattle.map_files.specs.Shape.{active_in, read_under, version_in};
ghost use Rattle.map_file.specs.View.{level};

use serde_json::{Map, Value};

/// The text under a key.
pub(crate) fn text_under<'v>(value: &'v Value, key: &str) -> Option<&'v str>
    ensures { option_map (λ s. s.now) result ≡ read_under as_str key.now (view value.now) }
{
    let found = value.get(key)?;
    found.as_str()
}

/// The unsigned number below 2^64 under a key.
pub(crate) fn unsigned_under(value: &Value, key: &str) -> Option<u64>
    ensures { result ≡ read_under unsigned_in key.now (view value.now) }
{
    let found = value.get(key)?;
    found.as_u64()
}

/// The version, where it is one that is read.
pub(crate) fn version_under(value: &Value) -> Option<u64>
    ensures { result ≡ read_under version_in (codes "version") (view value.now) }
{
    let found = value.get("version")?;
    version_in(found)
}

fn version_in(value: &Value) -> Option<u64>
    ensures { result ≡ version_in (view value.now) }
{
    let version = value.as_u64()?;
    if version == 1 { Some(version) } else { None }
}

/// Whether a reset is active at 1, else at 0.
pub(crate) fn active_under(value: &Value) -> Option<bool>
    ensures { option_map level result ≡ read_under active_in (codes "active") (view value.now) }
{
    let found = value.get("active")?;
    active_in(found)
}

fn active_in(value: &Value) -> Option<bool>
    ensures { option_map level result ≡ active_in (view value.now) }
{
    let active = value.as_u64()?;
    match active {
        0 => Some(false),
        1 => Some(true),
        _ => None,
    }
}

/// The list under a key.
pub(crate) fn list_under<'v>(value: &'v Value, key: &str) -> Option<&'v Vec<Value>>
    ensures { option_map (λ v. items_view v.now.items) result ≡ read_under as_array key.now (view value.now) }
{
    let found = value.get(key)?;
    found.as_array()
}

/// The members of the object under a key.
pub(crate) fn members_under<'v>(value: &'v Value, key: &str) -> Option<&'v Map<String, Value>>
    ensures { option_map (λ m. members_view m.now.entries) result ≡ read_under as_object key.now (view value.now) }
{
    let found = value.get(key)?;
    found.as_object()
}
