//! Whether each instruction of the model has one entry, and nothing else has.

ghost use Rattle.std.specs.Prelude.{◌≡◌, IfOk, is_some, option_map};
ghost use Rattle.verilog_trees.specs.Syntax.{Source};
ghost use Rattle.ila_file.specs.Places.{spot_view};
ghost use Rattle.ila_model.specs.Model.{model_of};
ghost use Rattle.map_file.specs.View.{map_view};
ghost use Rattle.map_rules.specs.Accepted.{case_of};
ghost use Rattle.map_rules.specs.Names.{has_unknown_instruction, has_missing_bound};
ghost use Rattle.map_names.specs.Places.{unknown_instruction_spot, missing_bound_spot};

use crate::listed::{called_names, instruction_names};
use crate::mapped::spot_under;
use crate::sets::{first_outside, first_unknown};
use ila_file::{NoMemory, Spot};
use ila_model::IlaModel;
use map_file::WrittenMap;
use std::alloc::Global;

/// The first entry that names no instruction of the model's top machine, or one that was named before.
pub fn unknown_instruction<'w>(
    alloc: Global,
    map: &'w WrittenMap,
    model: &IlaModel,
) -> Result<Option<Spot<'w>>, NoMemory>
    ensures place { IfOk result (λ o. option_map spot_view o ≡ unknown_instruction_spot (map_view map.now) (model_of model.now)) }
    ensures rule { IfOk result (λ o. (s : Source) → is_some o ≡ has_unknown_instruction (case_of (map_view map.now) (model_of model.now) s)) }
{
    let known = instruction_names(alloc, model)?;
    let called = called_names(alloc, &map.instructions)?;
    let found = first_unknown(alloc, &known, &called)?;
    Ok(found)
}

/// The first instruction of the model's top machine that has no entry.
pub fn missing_bound<'m>(
    alloc: Global,
    map: &WrittenMap,
    model: &'m IlaModel,
) -> Result<Option<Spot<'m>>, NoMemory>
    ensures place { IfOk result (λ o. option_map spot_view o ≡ missing_bound_spot (map_view map.now) (model_of model.now)) }
    ensures rule { IfOk result (λ o. (s : Source) → is_some o ≡ has_missing_bound (case_of (map_view map.now) (model_of model.now) s)) }
{
    let known = instruction_names(alloc, model)?;
    let called = called_names(alloc, &map.instructions)?;
    let found = first_outside(alloc, &called, &known)?;
    Ok(spot_under("instructions", found))
}
