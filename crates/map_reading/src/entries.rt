//! The rules on instructions and bounds, one after the other.

ghost use Rattle.std.specs.Prelude.{◌≡◌};
ghost use Rattle.verilog_trees.specs.Syntax.{Source};
ghost use Rattle.ila_model.specs.Model.{model_of};
ghost use Rattle.map_file.specs.View.{map_view};
ghost use Rattle.map_rules.specs.Accepted.{case_of};
ghost use Rattle.map_reading.specs.Judged.{IsPassed, entry_rules};

use crate::passed::passed;
use ila_model::IlaModel;
use map_file::{MapRule, MapStop, WrittenMap};
use map_names::{bad_bound, missing_bound, unknown_instruction};
use std::alloc::Global;

/// None of the rules on instructions and bounds is broken; or the refusal by the first that is.
pub(crate) fn entries_passed(
    alloc: Global,
    map: &WrittenMap,
    model: &IlaModel,
) -> Result<(), MapStop>
    ensures { (s : Source) → IsPassed (case_of (map_view map.now) (model_of model.now) s) entry_rules result }
{
    passed(
        alloc,
        MapRule::UnknownInstruction,
        unknown_instruction(alloc, map, model),
    )?;
    passed(
        alloc,
        MapRule::BoundMissing,
        missing_bound(alloc, map, model),
    )?;
    passed(alloc, MapRule::BadBound, Ok(bad_bound(map)))
}
