//! The first memory of a model that is not mapped to one of its shape.

ghost use Rattle.std.specs.Prelude.{◌≡◌, ◌↔◌, List, IsTrue, IfOk, codes, map, option_map};
ghost use Rattle.wb_values.specs.Value.{Name};
ghost use Rattle.verilog_trees.specs.Syntax.{Source};
ghost use Rattle.verilog_meaning.specs.Settled.{Design};
ghost use Rattle.ila_file.specs.Places.{spot_view};
ghost use Rattle.ila_model.specs.Model.{model_of};
ghost use Rattle.model_meaning.specs.Model.{Model};
ghost use Rattle.refinement.specs.Map.{dotted_parts};
ghost use Rattle.map_file.specs.View.{map_view, mapped_view};
ghost use Rattle.map_rules.specs.Accepted.{case_of};
ghost use Rattle.map_rules.specs.Case.{case_design};
ghost use Rattle.v_places.specs.Views.{spots_of};
ghost use Rattle.map_paths.specs.Located.{located};
ghost use Rattle.map_paths.specs.Tables.{numbers_in};
ghost use Rattle.map_sorts.specs.Tables.{sort_of_state_in};
ghost use Rattle.map_memories.specs.Memories.{AreNarrowSpots, HaveMemories, IsMemoryWhere};
ghost use Rattle.map_memories.specs.Mismatch.{HasInstances, IsFirstUnfit, IsMismatch, IsUnfit, KnowsStates, memory_shape, shape_view};
ghost use Rattle.map_names.specs.Places.{first_under};

use crate::NoMemory;
use crate::kept::{Memories, Shape};
use crate::memories::{asked_memories, has_memory_there};
use ila_file::Spot;
use ila_model::IlaModel;
use map_file::{Mapped, WrittenMap};
use map_paths::Instances;
use map_sorts::ModelSorts;
use std::alloc::Global;
use v_places::Place;
use wb_terms::Sort;

/// The shape of the memory that the state of this name is, if it is one.
fn shape_of(sorts: &ModelSorts<'_>, name: &str) -> Option<Shape>
    ensures { shape_view result ≡ memory_shape (sort_of_state_in sorts.now name.now) }
{
    match sorts.state(name) {
        Some(Sort::Memory(address_width, width)) => Some(Shape {
            address_width,
            width,
        }),
        Some(Sort::Truth) | Some(Sort::Word(_)) | None => None,
    }
}

/// The places to which memories are mapped, as a flag for each.
fn asked_places(
    alloc: Global,
    count: usize,
    instances: &Instances<'_>,
    sorts: &ModelSorts<'_>,
    entries: &[Mapped],
) -> Result<Vec<bool>, NoMemory> {
    let mut asked = Vec::new(alloc);
    for _place in 0..count {
        asked.push(false)?;
    }
    for entry in entries {
        if shape_of(sorts, entry.name.as_str()).is_some()
            && let Some(found) = instances.locate(entry.expression.as_str())
            && found.0 < asked.len()
        {
            asked[found.0] = true;
        }
    }
    Ok(asked)
}

/// Whether a dotted name leads to a memory of this shape, of which a clocked block may assign a bit.
fn is_memory_path<'t>(
    alloc: Global,
    places: &'t [Place<'t, '_>],
    kept: &[Option<Memories<'_>>],
    instances: &Instances<'_>,
    path: &str,
    shape: Shape,
) -> Result<bool, NoMemory>
    requires narrow { AreNarrowSpots (spots_of places.now) }
    requires kept { HaveMemories (spots_of places.now) kept.now }
    ensures { IfOk result (λ b. IsTrue b ↔ IsMemoryWhere (spots_of places.now) (located (numbers_in instances.now) 0 (dotted_parts path.now)) shape.address_width shape.width) }
{
    match instances.locate(path) {
        Some(found) => has_memory_there(alloc, places, kept, found.0, found.1, shape),
        None => Ok(false),
    }
}

/// Whether the state of an entry is a memory that is not mapped to one of its shape.
fn is_unfit<'t>(
    alloc: Global,
    places: &'t [Place<'t, '_>],
    kept: &[Option<Memories<'_>>],
    instances: &Instances<'_>,
    sorts: &ModelSorts<'_>,
    entry: &Mapped,
) -> Result<bool, NoMemory>
    requires narrow { AreNarrowSpots (spots_of places.now) }
    requires kept { HaveMemories (spots_of places.now) kept.now }
    ensures { IfOk result (λ b. (d : Design) (m : Model) → HasInstances d (spots_of places.now) (numbers_in instances.now) → KnowsStates sorts.now m
        → IsTrue b ↔ IsUnfit d m (mapped_view entry.now)) }
{
    match shape_of(sorts, entry.name.as_str()) {
        Some(shape) => {
            let path = entry.expression.as_str();
            let fits = is_memory_path(alloc, places, kept, instances, path, shape)?;
            Ok(!fits)
        }
        None => Ok(false),
    }
}

/// The first of these entries whose state is a memory that is not mapped to one of its shape.
fn first_unfit<'t, 'w>(
    alloc: Global,
    places: &'t [Place<'t, '_>],
    kept: &[Option<Memories<'_>>],
    instances: &Instances<'_>,
    sorts: &ModelSorts<'_>,
    entries: &'w [Mapped],
) -> Result<Option<&'w str>, NoMemory>
    requires narrow { AreNarrowSpots (spots_of places.now) }
    requires kept { HaveMemories (spots_of places.now) kept.now }
    ensures { IfOk result (λ o. (d : Design) (m : Model) → HasInstances d (spots_of places.now) (numbers_in instances.now) → KnowsStates sorts.now m
        → IsFirstUnfit d m (map mapped_view entries.now) (option_map (λ n. n.now) o)) }
{
    for entry in entries {
        if is_unfit(alloc, places, kept, instances, sorts, entry)? {
            return Ok(Some(entry.name.as_str()));
        }
    }
    Ok(None)
}

/// A name under the states of the map, as `states: mem`.
fn spot_of_state<'n>(name: Option<&'n str>) -> Option<Spot<'n>>
    ensures { option_map spot_view result ≡ first_under (codes "states") (option_map (λ n. n.now) name.entry) }
{
    match name {
        Some(name) => Some(Spot::key("states").part(name)),
        None => None,
    }
}

/// The first state of the map that is a memory of the model and not mapped to the path of a memory of its shape, of which a clocked block
/// may assign a bit. These are the places of the modules that stand in a design, and the instances in each.
pub fn memory_mismatch<'t, 'w>(
    alloc: Global,
    places: &'t [Place<'t, '_>],
    instances: &Instances<'_>,
    map_file: &'w WrittenMap,
    model: &IlaModel,
) -> Result<Option<Spot<'w>>, NoMemory>
    requires { AreNarrowSpots (spots_of places.now) }
    ensures { IfOk result (λ o. (s : Source) → HasInstances (case_design (case_of (map_view map_file.now) (model_of model.now) s)) (spots_of places.now) (numbers_in instances.now)
        → IsMismatch (case_of (map_view map_file.now) (model_of model.now) s) (option_map spot_view o)) }
{
    let sorts = ModelSorts::of(alloc, model)?;
    let entries = &map_file.states;
    let asked = asked_places(alloc, places.len(), instances, &sorts, entries)?;
    let kept = asked_memories(alloc, &asked, places)?;
    let found = first_unfit(alloc, places, &kept, instances, &sorts, entries)?;
    Ok(spot_of_state(found))
}
