//! Where in a machine of a model file something of another kind stands first, its states and instructions aside.

ghost use Rattle.std.specs.Prelude.{◌≡◌, IfOk, codes, is_some, option_and_then, option_map};
ghost use Rattle.serde_json.specs.Find.{get, at, as_str, as_array};
ghost use Rattle.serde_json.specs.View.{view, items_view};
ghost use Rattle.model_files.specs.Shape.{definition_in, input_in, term_in, unsigned_in};
ghost use Rattle.model_places.specs.ShapePlaces.{definition_spot, has, may_have, named_spot, under};
ghost use Rattle.model_places.specs.Sites.{key_spot};
ghost use Rattle.ila_file.specs.Places.{spot_view};
ghost use Rattle.ila_file.specs.ShapeSpots.{definition_misfits, head_misfit, in_optional, in_required, input_misfits, machine_misfit, term_misfit, unless};

use crate::declarations::{definition_in, input_in, text_under};
use crate::shape::{list_under, steps_under};
use crate::state_misfits::state_spot;
use crate::stop::Stop;
use crate::terms::read_term;
use crate::{NoMemory, Spot};
use serde_json::Value;
use std::alloc::{AllocError, Global};

/// Whether a value is a term.
pub(crate) fn is_term(alloc: Global, value: &Value) -> Result<bool, NoMemory>
    ensures { IfOk result (λ b. b ≡ is_some (term_in (view value.now))) }
{
    match read_term(alloc, value) {
        Ok(_) => Ok(true),
        Err(Stop::Refused) => Ok(false),
        Err(Stop::Memory) => Err(AllocError),
    }
}

/// Whether a term stands under a key.
pub(crate) fn has_term(alloc: Global, value: &Value, key: &str) -> Result<bool, NoMemory>
    ensures { IfOk result (λ b. b ≡ has term_in key.now (view value.now)) }
{
    match value.get(key) {
        Some(found) => {
            let fits = is_term(alloc, found)?;
            Ok(fits)
        }
        None => Ok(false),
    }
}

/// Whether a term stands under the key `fetch`, or the key is absent.
fn may_have_fetch(alloc: Global, value: &Value) -> Result<bool, NoMemory>
    ensures { IfOk result (λ b. b ≡ may_have term_in (codes "fetch") (view value.now)) }
{
    match value.get("fetch") {
        Some(found) => {
            let fits = is_term(alloc, found)?;
            Ok(fits)
        }
        None => Ok(true),
    }
}

/// An item of a list, with its name where it has one.
pub(crate) fn item_spot<'v>(key: &'v str, index: usize, item: &'v Value) -> Spot<'v>
    ensures { spot_view result ≡ named_spot key.now index (view item.now) }
{
    Spot::item(key, index, text_under(item, "name"))
}

/// What is refused of a machine, the items of its instructions aside.
pub(crate) fn machine_spot<'v>(
    alloc: Global,
    value: &'v Value,
    is_private: bool,
) -> Result<Option<Spot<'v>>, NoMemory>
    ensures { IfOk result (λ o. option_map spot_view o ≡ machine_misfit is_private (view value.now)) }
{
    if let Some(spot) = head_spot(value, is_private) {
        return Ok(Some(spot));
    }
    if let Some(spot) = state_spot(value, is_private) {
        return Ok(Some(spot));
    }
    let spot = term_spot(alloc, value)?;
    Ok(spot)
}

/// What is refused of the keys that a model alone or a child alone has.
fn head_spot<'v>(value: &'v Value, is_private: bool) -> Option<Spot<'v>>
    ensures { option_map spot_view result ≡ head_misfit is_private (view value.now) }
{
    if is_private {
        return steps_spot(value);
    }
    if !value.is_object() {
        return Some(Spot::key("model"));
    }
    match text_under(value, "name") {
        Some(_) => input_spot(value),
        None => Some(Spot::key("name")),
    }
}

fn steps_spot<'v>(value: &'v Value) -> Option<Spot<'v>>
    ensures { option_map spot_view result ≡ unless (has unsigned_in (codes "steps") (view value.now)) (key_spot (codes "steps")) }
{
    match steps_under(value) {
        Some(_) => None,
        None => Some(Spot::key("steps")),
    }
}

fn input_spot<'v>(value: &'v Value) -> Option<Spot<'v>>
    ensures { option_map spot_view result ≡ in_required (codes "inputs") (input_misfits 0) (under as_array (codes "inputs") (view value.now)) }
{
    match list_under(value, "inputs") {
        Some(items) => some_input(items),
        None => Some(Spot::key("inputs")),
    }
}

fn some_input<'v>(items: &'v [Value]) -> Option<Spot<'v>>
    ensures { option_map spot_view result ≡ input_misfits 0 (items_view items.now) }
{
    for (index, item) in items.iter().enumerate() {
        if let Some(spot) = one_input(index, item) {
            return Some(spot);
        }
    }
    None
}

fn one_input<'v>(index: usize, item: &'v Value) -> Option<Spot<'v>>
    ensures { option_map spot_view result ≡ unless (is_some (input_in (view item.now))) (named_spot (codes "inputs") index (view item.now)) }
{
    match input_in(item) {
        Some(_) => None,
        None => Some(item_spot("inputs", index, item)),
    }
}

/// What is refused of the definitions and of what stands behind them.
fn term_spot<'v>(alloc: Global, value: &'v Value) -> Result<Option<Spot<'v>>, NoMemory>
    ensures { IfOk result (λ o. option_map spot_view o ≡ term_misfit (view value.now)) }
{
    if let Some(spot) = definitions_spot(alloc, value)? {
        return Ok(Some(spot));
    }
    if !may_have_fetch(alloc, value)? {
        return Ok(Some(Spot::key("fetch")));
    }
    if !has_term(alloc, value, "valid")? {
        return Ok(Some(Spot::key("valid")));
    }
    match list_under(value, "instructions") {
        Some(_) => Ok(None),
        None => Ok(Some(Spot::key("instructions"))),
    }
}

fn definitions_spot<'v>(alloc: Global, value: &'v Value) -> Result<Option<Spot<'v>>, NoMemory>
    ensures { IfOk result (λ o. option_map spot_view o ≡ in_optional (codes "define") (definition_misfits 0) (get (codes "define") (view value.now))) }
{
    match value.get("define") {
        Some(found) => {
            let spot = listed_definition(alloc, found)?;
            Ok(spot)
        }
        None => Ok(None),
    }
}

fn listed_definition<'v>(alloc: Global, value: &'v Value) -> Result<Option<Spot<'v>>, NoMemory>
    ensures { IfOk result (λ o. option_map spot_view o ≡ in_required (codes "define") (definition_misfits 0) (as_array (view value.now))) }
{
    match value.as_array() {
        Some(items) => {
            let spot = some_definition(alloc, items)?;
            Ok(spot)
        }
        None => Ok(Some(Spot::key("define"))),
    }
}

fn some_definition<'v>(alloc: Global, items: &'v [Value]) -> Result<Option<Spot<'v>>, NoMemory>
    ensures { IfOk result (λ o. option_map spot_view o ≡ definition_misfits 0 (items_view items.now)) }
{
    for (index, item) in items.iter().enumerate() {
        if let Some(spot) = one_definition(alloc, index, item)? {
            return Ok(Some(spot));
        }
    }
    Ok(None)
}

fn one_definition<'v>(
    alloc: Global,
    index: usize,
    item: &'v Value,
) -> Result<Option<Spot<'v>>, NoMemory>
    ensures { IfOk result (λ o. option_map spot_view o ≡ unless (is_some (definition_in (view item.now))) (definition_spot index (view item.now))) }
{
    match definition_in(alloc, item) {
        Ok(_) => Ok(None),
        Err(Stop::Refused) => Ok(Some(Spot::item("define", index, definition_name(item)))),
        Err(Stop::Memory) => Err(AllocError),
    }
}

/// The name of a definition, which stands first in its list.
fn definition_name(item: &Value) -> Option<&str>
    ensures { option_map (λ s. s.now) result ≡ option_and_then as_str (at 0 (view item.now)) }
{
    let first = item.get(0usize)?;
    first.as_str()
}
