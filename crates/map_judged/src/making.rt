//! What the names of a map's expressions mean in a design, and which of them are clocks.

ghost use Rattle.std.specs.Prelude.{◌≡◌, IfOk};
ghost use Rattle.verilog_meaning.specs.Settled.{Design};
ghost use Rattle.v_syntax.specs.Source.{source_of};
ghost use Rattle.v_places.specs.Views.{spots_of};
ghost use Rattle.map_judged.specs.Asked.{asked_list, names_asked, AreNamed};
ghost use Rattle.map_judged.specs.Known.{StandsAt, AreKnown};

use crate::expression::{MapExpression, all_names};
use crate::known::KnownNames;
use flat_rules::laws::{objects_of_sound_modules_are_in_bounds, sound_modules_are_known};
use map_paths::Instances;
use map_scope::laws::scopes_of_names_are_those_of_the_design;
use map_scope::map_scope;
use std::alloc::{AllocError, Global};
use v_clocks::clock_nets;
use v_instances::interface::interfaces_of;
use v_places::Place;
use v_syntax::module::Tree;

/// What the names in these expressions mean in an accepted design with this clock, whose modules stand at these places.
pub fn known_names<'t, 'n, 's: 'n>(
    alloc: Global,
    tree: &'t Tree<'s>,
    places: &'t [Place<'t, 's>],
    expressions: &[MapExpression<'_, 'n>],
    clock: &'n str,
) -> Result<KnownNames<'n, 's>, AllocError>
    requires { (d : Design) × StandsAt d (spots_of places.now) }
    ensures { IfOk result (λ x. (d : Design) → StandsAt d (spots_of places.now) → d.source ≡ source_of tree.now → d.clock ≡ clock.now
        → AreNamed expressions.now → AreKnown d (names_asked (asked_list expressions.now)) x) }
{
    sound_modules_are_known();
    objects_of_sound_modules_are_in_bounds();
    scopes_of_names_are_those_of_the_design();
    let interfaces = interfaces_of(alloc, tree)?;
    let nets = clock_nets(alloc, places, &interfaces, clock)?;
    let instances = Instances::of(alloc, places)?;
    let names = all_names(alloc, expressions)?;
    let scope = map_scope(alloc, places, &instances, &names)?;
    Ok(KnownNames {
        instances,
        nets,
        scope,
    })
}
