//! Which key of a machine of a model file is the first that objects of its kind do not have.

ghost use Rattle.std.specs.Prelude.{◌≡◌, codes, option_map};
ghost use Rattle.serde_json.specs.Find.{as_array, as_object};
ghost use Rattle.serde_json.specs.View.{view, items_view};
ghost use Rattle.model_files.specs.Keys.{input_keys, instruction_keys, instruction_has_unknown_key};
ghost use Rattle.model_places.specs.ShapePlaces.{named_spot, under};
ghost use Rattle.model_places.specs.Sites.{part_spot};
ghost use Rattle.ila_file.specs.KeySpots.{other_key_of, state_key_of, state_spots, input_spots, listed, own_keys, own_spot, inputs_spot, first_item};
ghost use Rattle.ila_file.specs.Places.{spot_view};

use crate::Spot;
use crate::keys::{
    CHILD_KEYS, INPUT_KEYS, INSTRUCTION_KEYS, MODEL_KEYS, instruction_has_unknown_key,
    other_key_in, state_other_key,
};
use crate::machine_misfits::item_spot;
use crate::shape::list_under;
use serde_json::Value;

/// An unknown key of a machine's own object, or of its inputs and states.
pub(crate) fn machine_key_spot<'v>(value: &'v Value, is_private: bool) -> Option<Spot<'v>>
    ensures { option_map spot_view result ≡ own_spot is_private (view value.now) }
{
    if let Some(key) = own_key(value, is_private) {
        return Some(Spot::key(key));
    }
    if let Some(spot) = own_input_spot(value, is_private) {
        return Some(spot);
    }
    state_key_spot(value)
}

/// An unknown key of the inputs. A child has none.
fn own_input_spot<'v>(value: &'v Value, is_private: bool) -> Option<Spot<'v>>
    ensures { option_map spot_view result ≡ inputs_spot is_private (view value.now) }
{
    if is_private {
        None
    } else {
        input_key_spot(value)
    }
}

fn own_key<'v>(value: &'v Value, is_private: bool) -> Option<&'v str>
    ensures { option_map (λ k. k.now) result ≡ other_key_of (own_keys is_private) (as_object (view value.now)) }
{
    if is_private {
        other_key_in(value, &CHILD_KEYS)
    } else {
        other_key_in(value, &MODEL_KEYS)
    }
}

fn state_key_spot<'v>(value: &'v Value) -> Option<Spot<'v>>
    ensures { option_map spot_view result ≡ listed (state_spots 0) (under as_array (codes "states") (view value.now)) }
{
    match list_under(value, "states") {
        Some(items) => some_state_spot(items),
        None => None,
    }
}

fn some_state_spot<'v>(items: &'v [Value]) -> Option<Spot<'v>>
    ensures { option_map spot_view result ≡ state_spots 0 (items_view items.now) }
{
    for (index, item) in items.iter().enumerate() {
        if let Some(spot) = one_state_spot(index, item) {
            return Some(spot);
        }
    }
    None
}

fn one_state_spot<'v>(index: usize, item: &'v Value) -> Option<Spot<'v>>
    ensures { option_map spot_view result ≡ option_map (part_spot (named_spot (codes "states") index (view item.now))) (state_key_of (view item.now)) }
{
    match state_other_key(item) {
        Some(key) => Some(item_spot("states", index, item).part(key)),
        None => None,
    }
}

fn input_key_spot<'v>(value: &'v Value) -> Option<Spot<'v>>
    ensures { option_map spot_view result ≡ listed (input_spots 0) (under as_array (codes "inputs") (view value.now)) }
{
    match list_under(value, "inputs") {
        Some(items) => some_input_spot(items),
        None => None,
    }
}

fn some_input_spot<'v>(items: &'v [Value]) -> Option<Spot<'v>>
    ensures { option_map spot_view result ≡ input_spots 0 (items_view items.now) }
{
    for (index, item) in items.iter().enumerate() {
        if let Some(spot) = one_input_spot(index, item) {
            return Some(spot);
        }
    }
    None
}

fn one_input_spot<'v>(index: usize, item: &'v Value) -> Option<Spot<'v>>
    ensures { option_map spot_view result ≡ option_map (part_spot (named_spot (codes "inputs") index (view item.now))) (other_key_of input_keys (as_object (view item.now))) }
{
    match other_key_in(item, &INPUT_KEYS) {
        Some(key) => Some(item_spot("inputs", index, item).part(key)),
        None => None,
    }
}

/// An unknown key of an instruction's own object.
pub(crate) fn instruction_key_spot<'v>(index: usize, item: &'v Value) -> Option<Spot<'v>>
    ensures { option_map spot_view result ≡ option_map (part_spot (named_spot (codes "instructions") index (view item.now))) (other_key_of instruction_keys (as_object (view item.now))) }
{
    match other_key_in(item, &INSTRUCTION_KEYS) {
        Some(key) => Some(item_spot("instructions", index, item).part(key)),
        None => None,
    }
}

/// The first instruction of a machine that has an unknown key, in its object or in one of those in it.
pub(crate) fn instruction_with_unknown_key<'v>(value: &'v Value) -> Option<(usize, &'v Value)>
    ensures { option_map (λ r. (r.0, view r.1.now)) result ≡ listed (first_item instruction_has_unknown_key 0) (under as_array (codes "instructions") (view value.now)) }
{
    match list_under(value, "instructions") {
        Some(items) => first_with_unknown_key(items),
        None => None,
    }
}

fn first_with_unknown_key<'v>(items: &'v [Value]) -> Option<(usize, &'v Value)>
    ensures { option_map (λ r. (r.0, view r.1.now)) result ≡ first_item instruction_has_unknown_key 0 (items_view items.now) }
{
    for (index, item) in items.iter().enumerate() {
        if instruction_has_unknown_key(item) {
            return Some((index, item));
        }
    }
    None
}
