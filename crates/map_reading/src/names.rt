//! The rules on names of states and of inputs, one after the other.

ghost use Rattle.std.specs.Prelude.{◌≡◌};
ghost use Rattle.verilog_trees.specs.Syntax.{Source};
ghost use Rattle.ila_model.specs.Model.{model_of};
ghost use Rattle.map_file.specs.View.{map_view};
ghost use Rattle.map_rules.specs.Accepted.{case_of};
ghost use Rattle.map_reading.specs.Judged.{IsPassed, name_rules};

use crate::passed::passed;
use ila_model::IlaModel;
use map_file::{MapRule, MapStop, WrittenMap};
use map_names::{unknown_input, unknown_state, unmapped_input, unmapped_state};
use std::alloc::Global;

/// None of the rules on names of states and inputs is broken; or the refusal by the first that is.
pub(crate) fn names_passed(alloc: Global, map: &WrittenMap, model: &IlaModel) -> Result<(), MapStop>
    ensures { (s : Source) → IsPassed (case_of (map_view map.now) (model_of model.now) s) name_rules result }
{
    passed(
        alloc,
        MapRule::UnknownState,
        unknown_state(alloc, map, model),
    )?;
    passed(
        alloc,
        MapRule::StateUnmapped,
        unmapped_state(alloc, map, model),
    )?;
    passed(
        alloc,
        MapRule::UnknownInput,
        unknown_input(alloc, map, model),
    )?;
    passed(
        alloc,
        MapRule::InputUnmapped,
        unmapped_input(alloc, map, model),
    )
}
