//! The kind on drivers, module by module: two drivers of one bit, and names that may not be assigned.
ghost use Rattle.std.specs.Prelude.{◌≡◌, ◌↔◌, ◌<◌, ◌∷◌, [], Some, length, map, slice_get, IsTrue, IfOk};
ghost use Rattle.verilog_meaning.specs.Settled.{Design};
ghost use Rattle.verilog_designs.specs.Accepted.{bad_driver};
ghost use Rattle.v_syntax.specs.Source.{item_of};
ghost use Rattle.v_places.specs.Views.{spots_of};
ghost use Rattle.v_flat.specs.Views.{lists_of};
ghost use Rattle.v_judged.specs.First.{IsFirst};
ghost use Rattle.place_kinds.specs.Places.{SomeWith, IsDrivenSpot, AreDrivenSpots, HasBadDriverAt};
ghost use Rattle.v_judged.specs.Sharing.{IsSame, IsSharing};
ghost use Rattle.v_judged.specs.Spots.{spot_in, spots_in};
ghost use Rattle.v_judged.specs.Standing.{IsSoundDesign};

use crate::kind::DesignKind;
use crate::place::PlaceScope;
use crate::scopes::scope_with;
use place_kinds::laws::{bad_drivers_are_at_places, places_are_placed};
use std::alloc::{AllocError, Global};
use v_assigned::has_bad_name;
use v_drivers::has_two_drivers;
use v_flat::items_with_outputs;
use v_instances::interface::Interfaces;
use v_places::Place;
use v_syntax::module::Item;

/// Whether two of these items, which are what a module of this scope drives, drive one bit, or one assigns a name that it may not assign.
fn has_bad_driver_at<'p, 's>(
    alloc: Global,
    own: &'p PlaceScope<'p, 'p, 's>,
    items: &[Item<'s>],
) -> Result<bool, AllocError>
    requires { IsDrivenSpot (map item_of items.now) (spot_in own.now) }
    ensures { IfOk result (λ r. IsTrue r ↔ HasBadDriverAt (map item_of items.now) (spot_in own.now)) }
{
    bad_drivers_are_at_places();
    if has_bad_name(items, &own.names, &own.scope) {
        return Ok(true);
    }
    let twice = has_two_drivers(alloc, items, &own.scope)?;
    Ok(twice)
}

/// The items of one of these lists.
fn list_at<'x, 'a>(lists: &'x [Vec<Item<'a>>], number: usize) -> &'x [Item<'a>]
    requires { number < length lists.now }
    ensures { slice_get (lists_of lists.now) number ≡ Some (map item_of result.now) }
{
    &lists[number]
}

/// Whether it is so at one of these places, where these are their scopes and each module drives these.
pub(crate) fn any_bad_driver<'p, 't, 's>(
    alloc: Global,
    places: &'t [Place<'t, 's>],
    scopes: &'p [PlaceScope<'p, 'p, 's>],
    numbers: &[usize],
    lists: &[Vec<Item<'s>>],
) -> Result<bool, AllocError>
    requires as_many { length lists.now ≡ length places.now }
    requires shared { IsSharing IsSame (spots_in scopes.now) numbers.now (spots_of places.now) }
    requires ready { AreDrivenSpots (lists_of lists.now) (spots_of places.now) }
    ensures { IfOk result (λ r. IsTrue r ↔ SomeWith HasBadDriverAt (lists_of lists.now) (spots_of places.now)) }
{
    for number in 0..places.len() {
        let own = scope_with(scopes, numbers, number);
        if has_bad_driver_at(alloc, own, list_at(lists, number))? {
            return Ok(true);
        }
    }
    Ok(false)
}

/// The kind on drivers, if one of the modules that stand at these places breaks its rule.
pub(crate) fn driver_refusal<'p, 't, 's>(
    alloc: Global,
    places: &'t [Place<'t, 's>],
    scopes: &'p [PlaceScope<'p, 'p, 's>],
    numbers: &[usize],
    interfaces: &Interfaces<'s>,
) -> Result<Option<DesignKind>, AllocError>
    requires sound { (d : Design) × IsSoundDesign interfaces.now (spots_of places.now) d }
    requires shared { IsSharing IsSame (spots_in scopes.now) numbers.now (spots_of places.now) }
    ensures { IfOk result (λ k. (d : Design) → IsSoundDesign interfaces.now (spots_of places.now) d → IsFirst d (bad_driver ∷ []) k) }
{
    places_are_placed();
    bad_drivers_are_at_places();
    let lists = items_with_outputs(alloc, places, interfaces)?;
    let bad = any_bad_driver(alloc, places, scopes, numbers, &lists)?;
    if bad {
        return Ok(Some(DesignKind::BadDriver));
    }
    Ok(None)
}
