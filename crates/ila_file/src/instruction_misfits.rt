//! Where in the instructions of a model file something of another kind stands first.

ghost use Rattle.std.specs.Prelude.{◌≡◌, IfOk, codes, is_some, option_map};
ghost use Rattle.serde_json.specs.Find.{get, as_array, as_object};
ghost use Rattle.serde_json.specs.View.{view, items_view, members_view};
ghost use Rattle.model_files.specs.Shape.{instruction_in};
ghost use Rattle.model_places.specs.ShapePlaces.{under};
ghost use Rattle.model_places.specs.Sites.{member_spot};
ghost use Rattle.ila_file.specs.KeySpots.{listed, first_item};
ghost use Rattle.ila_file.specs.Places.{spot_view};
ghost use Rattle.ila_file.specs.ShapeSpots.{bad_update, child_misfit, instruction_misfit, instruction_misfit_at, is_no_instruction, unless, update_misfit};

use crate::declarations::text_under;
use crate::machine_misfits::{has_term, is_term, item_spot};
use crate::shape::{instruction_in, list_under};
use crate::stop::Stop;
use crate::{NoMemory, Spot};
use serde_json::{Map, Value};
use std::alloc::{AllocError, Global};

/// The first instruction of a machine that is refused.
pub(crate) fn refused_instruction<'v>(
    alloc: Global,
    value: &'v Value,
) -> Result<Option<(usize, &'v Value)>, NoMemory>
    ensures { IfOk result (λ o. option_map (λ r. (r.0, view r.1.now)) o ≡ listed (first_item is_no_instruction 0) (under as_array (codes "instructions") (view value.now))) }
{
    match list_under(value, "instructions") {
        Some(items) => {
            let found = first_refused(alloc, items)?;
            Ok(found)
        }
        None => Ok(None),
    }
}

fn first_refused<'v>(
    alloc: Global,
    items: &'v [Value],
) -> Result<Option<(usize, &'v Value)>, NoMemory>
    ensures { IfOk result (λ o. option_map (λ r. (r.0, view r.1.now)) o ≡ first_item is_no_instruction 0 (items_view items.now)) }
{
    for (index, item) in items.iter().enumerate() {
        if !is_instruction(alloc, item)? {
            return Ok(Some((index, item)));
        }
    }
    Ok(None)
}

/// Whether a value is an instruction.
fn is_instruction(alloc: Global, value: &Value) -> Result<bool, NoMemory>
    ensures { IfOk result (λ b. b ≡ is_some (instruction_in (view value.now))) }
{
    match instruction_in(alloc, value) {
        Ok(_) => Ok(true),
        Err(Stop::Refused) => Ok(false),
        Err(Stop::Memory) => Err(AllocError),
    }
}

/// What is refused of an instruction, what stands in its child aside.
pub(crate) fn instruction_spot<'v>(
    alloc: Global,
    index: usize,
    item: &'v Value,
) -> Result<Option<Spot<'v>>, NoMemory>
    ensures { IfOk result (λ o. option_map spot_view o ≡ instruction_misfit index (view item.now)) }
{
    let spot = spot_within(alloc, item_spot("instructions", index, item), item)?;
    Ok(spot)
}

/// The same of an instruction that stands at a spot.
fn spot_within<'v>(
    alloc: Global,
    spot: Spot<'v>,
    item: &'v Value,
) -> Result<Option<Spot<'v>>, NoMemory>
    ensures { IfOk result (λ o. option_map spot_view o ≡ instruction_misfit_at (spot_view spot.entry) (view item.now)) }
{
    let Some(_name) = text_under(item, "name") else {
        return Ok(Some(spot.part("name")));
    };
    if !has_term(alloc, item, "decode")? {
        return Ok(Some(spot.part("decode")));
    }
    if let Some(update) = update_spot(alloc, spot.part("update"), item)? {
        return Ok(Some(update));
    }
    Ok(child_spot(spot.part("child"), item))
}

/// What is refused of the updates that stand at a spot.
fn update_spot<'v>(
    alloc: Global,
    spot: Spot<'v>,
    item: &'v Value,
) -> Result<Option<Spot<'v>>, NoMemory>
    ensures { IfOk result (λ o. option_map spot_view o ≡ update_misfit (spot_view spot.entry) (under as_object (codes "update") (view item.now))) }
{
    match updates_of(item) {
        Some(members) => {
            let state = refused_update(alloc, members)?;
            Ok(member_spot(spot, state))
        }
        None => Ok(Some(spot)),
    }
}

/// A member of what stands at a spot, where there is one.
fn member_spot<'v>(spot: Spot<'v>, state: Option<&'v str>) -> Option<Spot<'v>>
    ensures { option_map spot_view result ≡ option_map (member_spot (spot_view spot.entry)) (option_map (λ n. n.now) state.entry) }
{
    match state {
        Some(state) => Some(spot.member(state)),
        None => None,
    }
}

fn updates_of(item: &Value) -> Option<&Map<String, Value>>
    ensures { option_map (λ m. members_view m.now.entries) result ≡ under as_object (codes "update") (view item.now) }
{
    let found = item.get("update")?;
    found.as_object()
}

/// The first state whose update is no term.
fn refused_update<'v>(
    alloc: Global,
    members: &'v Map<String, Value>,
) -> Result<Option<&'v str>, NoMemory>
    ensures { IfOk result (λ o. option_map (λ n. n.now) o ≡ bad_update (members_view members.now.entries)) }
{
    for (state, found) in members.iter() {
        if !is_term(alloc, found)? {
            return Ok(Some(state.as_str()));
        }
    }
    Ok(None)
}

/// A child that is there is an object.
fn child_spot<'v>(spot: Spot<'v>, item: &'v Value) -> Option<Spot<'v>>
    ensures { option_map spot_view result ≡ child_misfit (spot_view spot.entry) (get (codes "child") (view item.now)) }
{
    match item.get("child") {
        Some(child) => not_object(spot, child),
        None => None,
    }
}

fn not_object<'v>(spot: Spot<'v>, value: &'v Value) -> Option<Spot<'v>>
    ensures { option_map spot_view result ≡ unless (is_some (as_object (view value.now))) (spot_view spot.entry) }
{
    if value.is_object() { None } else { Some(spot) }
}
