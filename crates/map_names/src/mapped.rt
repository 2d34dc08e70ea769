//! Whether each state and each input of the model is mapped, and nothing else.

ghost use Rattle.std.specs.Prelude.{◌≡◌, IfOk, codes, is_some, option_map};
ghost use Rattle.verilog_trees.specs.Syntax.{Source};
ghost use Rattle.ila_file.specs.Places.{spot_view};
ghost use Rattle.ila_model.specs.Model.{model_of};
ghost use Rattle.map_file.specs.View.{map_view};
ghost use Rattle.map_rules.specs.Accepted.{case_of};
ghost use Rattle.map_rules.specs.Names.{has_unknown_state, has_unmapped_state, has_unknown_input, has_unmapped_input};
ghost use Rattle.map_names.specs.Places.{first_under, unknown_state_spot, unmapped_state_spot, unknown_input_spot, unmapped_input_spot};

use crate::listed::{entry_names, input_names, state_names};
use crate::sets::first_outside;
use ila_file::{NoMemory, Spot};
use ila_model::IlaModel;
use map_file::WrittenMap;
use std::alloc::Global;

/// A name under a key of the map, as `states: cnt`.
pub(crate) fn spot_under<'n>(key: &'n str, name: Option<&'n str>) -> Option<Spot<'n>>
    ensures { option_map spot_view result ≡ first_under key.now (option_map (λ n. n.now) name.entry) }
{
    match name {
        Some(name) => Some(Spot::key(key).part(name)),
        None => None,
    }
}

/// The first entry for what is no state of the model.
pub fn unknown_state<'w>(
    alloc: Global,
    map: &'w WrittenMap,
    model: &IlaModel,
) -> Result<Option<Spot<'w>>, NoMemory>
    ensures place { IfOk result (λ o. option_map spot_view o ≡ unknown_state_spot (map_view map.now) (model_of model.now)) }
    ensures rule { IfOk result (λ o. (s : Source) → is_some o ≡ has_unknown_state (case_of (map_view map.now) (model_of model.now) s)) }
{
    let states = state_names(alloc, model)?;
    let mapped = entry_names(alloc, &map.states)?;
    let found = first_outside(alloc, &states, &mapped)?;
    Ok(spot_under("states", found))
}

/// The first state of the model that has no entry.
pub fn unmapped_state<'m>(
    alloc: Global,
    map: &WrittenMap,
    model: &'m IlaModel,
) -> Result<Option<Spot<'m>>, NoMemory>
    ensures place { IfOk result (λ o. option_map spot_view o ≡ unmapped_state_spot (map_view map.now) (model_of model.now)) }
    ensures rule { IfOk result (λ o. (s : Source) → is_some o ≡ has_unmapped_state (case_of (map_view map.now) (model_of model.now) s)) }
{
    let states = state_names(alloc, model)?;
    let mapped = entry_names(alloc, &map.states)?;
    let found = first_outside(alloc, &mapped, &states)?;
    Ok(spot_under("states", found))
}

/// The first entry for what is no input of the model.
pub fn unknown_input<'w>(
    alloc: Global,
    map: &'w WrittenMap,
    model: &IlaModel,
) -> Result<Option<Spot<'w>>, NoMemory>
    ensures place { IfOk result (λ o. option_map spot_view o ≡ unknown_input_spot (map_view map.now) (model_of model.now)) }
    ensures rule { IfOk result (λ o. (s : Source) → is_some o ≡ has_unknown_input (case_of (map_view map.now) (model_of model.now) s)) }
{
    let inputs = input_names(alloc, model)?;
    let mapped = entry_names(alloc, &map.inputs)?;
    let found = first_outside(alloc, &inputs, &mapped)?;
    Ok(spot_under("inputs", found))
}

/// The first input of the model that has no entry.
pub fn unmapped_input<'m>(
    alloc: Global,
    map: &WrittenMap,
    model: &'m IlaModel,
) -> Result<Option<Spot<'m>>, NoMemory>
    ensures place { IfOk result (λ o. option_map spot_view o ≡ unmapped_input_spot (map_view map.now) (model_of model.now)) }
    ensures rule { IfOk result (λ o. (s : Source) → is_some o ≡ has_unmapped_input (case_of (map_view map.now) (model_of model.now) s)) }
{
    let inputs = input_names(alloc, model)?;
    let mapped = entry_names(alloc, &map.inputs)?;
    let found = first_outside(alloc, &mapped, &inputs)?;
    Ok(spot_under("inputs", found))
}
