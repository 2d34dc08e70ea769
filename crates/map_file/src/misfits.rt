//! Where in a map file something of another kind stands first, or a key is missing.

ghost use Rattle.std.specs.Prelude.{◌≡◌, codes, is_some, option_map};
ghost use Rattle.serde_json.specs.Find.{as_array, as_object, as_str, get};
ghost use Rattle.serde_json.specs.View.{view, items_view, members_view};
ghost use Rattle.model_files.specs.Shape.{unsigned_in};
ghost use Rattle.model_places.specs.Sites.{item_spot, key_spot, part_spot};
ghost use Rattle.ila_file.specs.Places.{spot_view};
ghost use Rattle.map_files.specs.Shape.{active_in, version_in};
ghost use Rattle.map_file.specs.Places.{condition_misfit, entries_misfit, entry_misfits, entry_spot, head_misfit, instruction_misfit, instruction_misfits, instructions_misfit, key_misfit, list_misfit, mapped_misfit, misfit_in, part_misfit, reset_misfit, reset_misfit_in, shape_misfit, text_misfits, unless};

use crate::json::{
    active_under, list_under, members_under, text_under, unsigned_under, version_under,
};
use ila_file::Spot;
use serde_json::{Map, Value};

/// The first place at which data has another shape than a map's.
pub(crate) fn shape_misfit<'v>(value: &'v Value) -> Option<Spot<'v>>
    ensures { option_map spot_view result ≡ shape_misfit (view value.now) }
{
    if let Some(spot) = head_misfit(value) {
        return Some(spot);
    }
    if let Some(spot) = condition_misfit(value) {
        return Some(spot);
    }
    entries_misfit(value)
}

/// Of the keys up to the reset.
fn head_misfit<'v>(value: &'v Value) -> Option<Spot<'v>>
    ensures { option_map spot_view result ≡ head_misfit (view value.now) }
{
    if !value.is_object() {
        return Some(Spot::key("map"));
    }
    if version_under(value).is_none() {
        return Some(Spot::key("version"));
    }
    if let Some(spot) = text_misfit(value, "top") {
        return Some(spot);
    }
    if let Some(spot) = text_misfit(value, "clock") {
        return Some(spot);
    }
    reset_misfit(value)
}

/// Of the conditions.
fn condition_misfit<'v>(value: &'v Value) -> Option<Spot<'v>>
    ensures { option_map spot_view result ≡ condition_misfit (view value.now) }
{
    if let Some(spot) = list_misfit(value, "assume") {
        return Some(spot);
    }
    if let Some(spot) = list_misfit(value, "invariants") {
        return Some(spot);
    }
    text_misfit(value, "start")
}

/// Of the states, the inputs and the instructions.
fn entries_misfit<'v>(value: &'v Value) -> Option<Spot<'v>>
    ensures { option_map spot_view result ≡ entries_misfit (view value.now) }
{
    if let Some(spot) = mapped_misfit(value, "states") {
        return Some(spot);
    }
    if let Some(spot) = mapped_misfit(value, "inputs") {
        return Some(spot);
    }
    instructions_misfit(value)
}

fn text_misfit<'v>(value: &'v Value, key: &'v str) -> Option<Spot<'v>>
    ensures { option_map spot_view result ≡ key_misfit as_str key.now (view value.now) }
{
    match text_under(value, key) {
        Some(_) => None,
        None => Some(Spot::key(key)),
    }
}

fn list_misfit<'v>(value: &'v Value, key: &'v str) -> Option<Spot<'v>>
    ensures { option_map spot_view result ≡ list_misfit key.now (view value.now) }
{
    match list_under(value, key) {
        Some(items) => text_misfits(key, items),
        None => Some(Spot::key(key)),
    }
}

fn text_misfits<'v>(key: &'v str, items: &'v [Value]) -> Option<Spot<'v>>
    ensures { option_map spot_view result ≡ text_misfits key.now 0 (items_view items.now) }
{
    for (index, item) in items.iter().enumerate() {
        if item.as_str().is_none() {
            return Some(Spot::item(key, index, None));
        }
    }
    None
}

fn mapped_misfit<'v>(value: &'v Value, key: &'v str) -> Option<Spot<'v>>
    ensures { option_map spot_view result ≡ mapped_misfit key.now (view value.now) }
{
    match members_under(value, key) {
        Some(members) => entry_misfits(key, members),
        None => Some(Spot::key(key)),
    }
}

fn entry_misfits<'v>(key: &'v str, members: &'v Map<String, Value>) -> Option<Spot<'v>>
    ensures { option_map spot_view result ≡ entry_misfits key.now (members_view members.now.entries) }
{
    for (name, found) in members.iter() {
        if found.as_str().is_none() {
            return Some(Spot::key(key).part(name.as_str()));
        }
    }
    None
}

fn reset_misfit<'v>(value: &'v Value) -> Option<Spot<'v>>
    ensures { option_map spot_view result ≡ reset_misfit (view value.now) }
{
    match value.get("reset") {
        Some(found) => reset_misfit_in(found),
        None => Some(Spot::key("reset")),
    }
}

fn reset_misfit_in<'v>(value: &'v Value) -> Option<Spot<'v>>
    ensures { option_map spot_view result ≡ reset_misfit_in (view value.now) }
{
    let spot = Spot::key("reset");
    if !value.is_object() {
        return Some(spot);
    }
    if let Some(part) = text_part(spot, value, "signal") {
        return Some(part);
    }
    if active_under(value).is_none() {
        return Some(spot.part("active"));
    }
    number_part(spot, value, "cycles")
}

/// A text under a key of the object at a spot.
fn text_part<'v>(spot: Spot<'v>, value: &Value, key: &'v str) -> Option<Spot<'v>>
    ensures { option_map spot_view result ≡ part_misfit as_str (spot_view spot.entry) key.now (view value.now) }
{
    match text_under(value, key) {
        Some(_) => None,
        None => Some(spot.part(key)),
    }
}

/// An unsigned number there.
fn number_part<'v>(spot: Spot<'v>, value: &Value, key: &'v str) -> Option<Spot<'v>>
    ensures { option_map spot_view result ≡ part_misfit unsigned_in (spot_view spot.entry) key.now (view value.now) }
{
    match unsigned_under(value, key) {
        Some(_) => None,
        None => Some(spot.part(key)),
    }
}

fn instructions_misfit<'v>(value: &'v Value) -> Option<Spot<'v>>
    ensures { option_map spot_view result ≡ instructions_misfit (view value.now) }
{
    match list_under(value, "instructions") {
        Some(items) => instruction_misfits(items),
        None => Some(Spot::key("instructions")),
    }
}

fn instruction_misfits<'v>(items: &'v [Value]) -> Option<Spot<'v>>
    ensures { option_map spot_view result ≡ instruction_misfits 0 (items_view items.now) }
{
    for (index, item) in items.iter().enumerate() {
        if let Some(spot) = instruction_misfit(entry_spot(index, item), item) {
            return Some(spot);
        }
    }
    None
}

/// An instruction's entry by its place, with its name where it has one.
pub(crate) fn entry_spot<'v>(index: usize, item: &'v Value) -> Spot<'v>
    ensures { spot_view result ≡ entry_spot index (view item.now) }
{
    Spot::item("instructions", index, text_under(item, "name"))
}

fn instruction_misfit<'v>(spot: Spot<'v>, value: &Value) -> Option<Spot<'v>>
    ensures { option_map spot_view result ≡ instruction_misfit (spot_view spot.entry) (view value.now) }
{
    if !value.is_object() {
        return Some(spot);
    }
    if let Some(part) = text_part(spot, value, "name") {
        return Some(part);
    }
    if let Some(part) = text_part(spot, value, "commit") {
        return Some(part);
    }
    number_part(spot, value, "bound")
}
