//! The rule on memories of a map.

ghost use Rattle.std.specs.Prelude.{◌↔◌, ◌∷◌, [], is_some, IfOk, IsTrue};
ghost use Rattle.verilog_trees.specs.Syntax.{Source};
ghost use Rattle.verilog_meaning.specs.Settled.{Design};
ghost use Rattle.ila_model.specs.Model.{model_of};
ghost use Rattle.map_files.specs.Meaning.{MemoryMismatch};
ghost use Rattle.map_file.specs.View.{map_view};
ghost use Rattle.map_rules.specs.Case.{case_design};
ghost use Rattle.map_rules.specs.Mapped.{HasMemoryMismatch};
ghost use Rattle.map_rules.specs.Accepted.{case_of};
ghost use Rattle.v_places.specs.Views.{spots_of};
ghost use Rattle.map_judged.specs.Known.{StandsAt};
ghost use Rattle.map_reading.specs.Judged.{IsPassed};

use crate::passed::passed;
use flat_rules::laws::sound_modules_are_known;
use ila_file::{NoMemory, Spot};
use ila_model::IlaModel;
use map_file::{MapRule, MapStop, WrittenMap};
use map_memories::memory_mismatch;
use map_paths::Instances;
use place_kinds::laws::block_kinds_are_at_places;
use std::alloc::Global;
use v_places::Place;

/// The first memory of the model that is not mapped to one of its shape.
fn unfit_memory<'t, 'w>(
    places: &'t [Place<'t, '_>],
    alloc: Global,
    map: &'w WrittenMap,
    model: &IlaModel,
) -> Result<Option<Spot<'w>>, NoMemory>
    requires { (d : Design) × StandsAt d (spots_of places.now) }
    ensures { IfOk result (λ o. (s : Source) → StandsAt (case_design (case_of (map_view map.now) (model_of model.now) s)) (spots_of places.now)
        → IsTrue (is_some o) ↔ HasMemoryMismatch (case_of (map_view map.now) (model_of model.now) s)) }
{
    sound_modules_are_known();
    block_kinds_are_at_places();
    let instances = Instances::of(alloc, places)?;
    memory_mismatch(alloc, places, &instances, map, model)
}

/// Each memory of the model is mapped to one of its shape; or the refusal by this rule.
pub(crate) fn memories_passed<'t>(
    places: &'t [Place<'t, '_>],
    alloc: Global,
    map: &WrittenMap,
    model: &IlaModel,
) -> Result<(), MapStop>
    requires { (d : Design) × StandsAt d (spots_of places.now) }
    ensures { (s : Source) → StandsAt (case_design (case_of (map_view map.now) (model_of model.now) s)) (spots_of places.now)
        → IsPassed (case_of (map_view map.now) (model_of model.now) s) (MemoryMismatch ∷ []) result }
{
    let unfit = unfit_memory(places, alloc, map, model);
    passed(alloc, MapRule::MemoryMismatch, unfit)
}
