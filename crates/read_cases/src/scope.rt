//! What the names in a map mean in a design.

ghost use Rattle.std.specs.Prelude.{IfOk};
ghost use Rattle.verilog_meaning.specs.Settled.{Design};
ghost use Rattle.v_value.specs.Scope.{scope_at};
ghost use Rattle.v_places.specs.Views.{spots_of};
ghost use Rattle.map_judged.specs.Known.{StandsAt};
ghost use Rattle.path_terms.specs.Cycles.{IsScopeOf};
ghost use Rattle.ready_maps.specs.Names.{Knows};
ghost use Rattle.read_cases.specs.Named.{names_of_texts};

use crate::NoMemory;
use flat_rules::laws::{objects_of_sound_modules_are_in_bounds, sound_modules_are_known};
use map_paths::Instances;
use map_scope::laws::scopes_of_names_are_those_of_the_design;
use map_scope::map_scope;
use std::alloc::Global;
use v_places::Place;
use v_value::scope::Scope;

/// The scope of these names: what each of them means in an accepted design whose modules stand at these places, and nothing else.
pub(crate) fn scope_of_names<'t, 'n>(
    places: &'t [Place<'t, '_>],
    alloc: Global,
    names: &[&'n str],
) -> Result<Scope<'n>, NoMemory>
    ensures { IfOk result (λ s. (d : Design) → StandsAt d (spots_of places.now) → IsScopeOf d (scope_at s) × Knows (scope_at s) d (names_of_texts names.now)) }
{
    sound_modules_are_known();
    objects_of_sound_modules_are_in_bounds();
    scopes_of_names_are_those_of_the_design();
    let instances = Instances::of(alloc, places)?;
    let scope = map_scope(alloc, places, &instances, names)?;
    Ok(scope)
}
