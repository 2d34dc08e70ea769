//! Where in the states of a model file something of another kind stands first.

ghost use Rattle.std.specs.Prelude.{◌≡◌, codes, option_map, Some};
ghost use Rattle.serde_json.specs.Find.{as_array};
ghost use Rattle.serde_json.specs.View.{view, items_view};
ghost use Rattle.model_places.specs.ShapePlaces.{named_spot, under, no_memory, private_sort_in};
ghost use Rattle.model_places.specs.Sites.{part_spot};
ghost use Rattle.ila_file.specs.Places.{spot_view};
ghost use Rattle.ila_file.specs.ShapeSpots.{in_required, initial_fault, state_fault, state_misfits, value_fault};
ghost use Rattle.ila_file.specs.Parts.{sort_of};
ghost use Rattle.ila_file.specs.View.{sort_view};

use crate::Spot;
use crate::declarations::{sort_under, state_in, text_under};
use crate::machine_misfits::item_spot;
use crate::scalars::sort_in;
use crate::shape::list_under;
use crate::written::WrittenSort;
use serde_json::Value;

pub(crate) fn state_spot<'v>(value: &'v Value, is_private: bool) -> Option<Spot<'v>>
    ensures { option_map spot_view result ≡ in_required (codes "states") (state_misfits is_private 0) (under as_array (codes "states") (view value.now)) }
{
    match list_under(value, "states") {
        Some(items) => some_state(items, is_private),
        None => Some(Spot::key("states")),
    }
}

fn some_state<'v>(items: &'v [Value], is_private: bool) -> Option<Spot<'v>>
    ensures { option_map spot_view result ≡ state_misfits is_private 0 (items_view items.now) }
{
    for (index, item) in items.iter().enumerate() {
        if let Some(spot) = one_state(index, item, is_private) {
            return Some(spot);
        }
    }
    None
}

fn one_state<'v>(index: usize, item: &'v Value, is_private: bool) -> Option<Spot<'v>>
    ensures { option_map spot_view result ≡ option_map (part_spot (named_spot (codes "states") index (view item.now))) (state_fault is_private (view item.now)) }
{
    match state_fault(item, is_private) {
        Some(key) => Some(item_spot("states", index, item).part(key)),
        None => None,
    }
}

/// The key of a state under which something else stands.
fn state_fault<'v>(item: &'v Value, is_private: bool) -> Option<&'v str>
    ensures { option_map (λ k. k.now) result ≡ state_fault is_private (view item.now) }
{
    match text_under(item, "name") {
        Some(_) => value_fault(item, is_private),
        None => Some("name"),
    }
}

/// The same of the keys behind the name.
fn value_fault<'v>(item: &'v Value, is_private: bool) -> Option<&'v str>
    ensures { option_map (λ k. k.now) result ≡ value_fault is_private (view item.now) }
{
    match stated_sort(item, is_private) {
        Some(_) => initial_fault(item, is_private),
        None => Some("sort"),
    }
}

/// The sort of a state. A private one is no memory.
fn stated_sort(value: &Value, is_private: bool) -> Option<WrittenSort>
    ensures { option_map sort_view result ≡ under (sort_of is_private) (codes "sort") (view value.now) }
{
    if is_private {
        private_sort(value)
    } else {
        sort_under(value)
    }
}

fn private_sort(value: &Value) -> Option<WrittenSort>
    ensures { option_map sort_view result ≡ under private_sort_in (codes "sort") (view value.now) }
{
    let found = value.get("sort")?;
    let sort = sort_in(found)?;
    no_memory(sort)
}

fn no_memory(sort: WrittenSort) -> Option<WrittenSort>
    ensures { option_map sort_view result ≡ no_memory (Some (sort_view sort)) }
{
    match sort {
        WrittenSort::Truth | WrittenSort::Word(_) => Some(sort),
        WrittenSort::Memory(_, _) => None,
    }
}

fn initial_fault<'v>(item: &'v Value, is_private: bool) -> Option<&'v str>
    ensures { option_map (λ k. k.now) result ≡ initial_fault is_private (view item.now) }
{
    match state_in(item, is_private) {
        Some(_) => None,
        None => Some("init"),
    }
}
