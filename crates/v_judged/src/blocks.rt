//! The kinds on clock nets and on blocks, over all modules of a design.
ghost use Rattle.std.specs.Prelude.{◌≡◌, ◌↔◌, length, IsTrue, IfOk};
ghost use Rattle.std.specs.List.{list_any};
ghost use Rattle.verilog_meaning.specs.Settled.{Design};
ghost use Rattle.v_hier.specs.Tables.{has_name};
ghost use Rattle.v_instances.specs.declared.interface.Interfaces.{Interfaces};
ghost use Rattle.v_places.specs.Views.{spot_of, spots_of};
ghost use Rattle.v_clocks.specs.Views.{sets_of};
ghost use Rattle.v_clocks.specs.Whole.{AreClockNets};
ghost use Rattle.v_judged.specs.First.{IsFirst, item_kinds, block_kinds};
ghost use Rattle.place_kinds.specs.Places.{SomeSpot, SomeWith, IsReadySpot, AreReadySpots, HasBadEventListAt, HasLatchAt, has_blocking_in_clocked, has_nonblocking_in_combinational};
ghost use Rattle.v_judged.specs.Sharing.{IsSame, IsSharing};
ghost use Rattle.v_judged.specs.Spots.{spot_in, spots_in};
ghost use Rattle.v_judged.specs.Standing.{IsSoundDesign};

use crate::kind::DesignKind;
use crate::place::PlaceScope;
use crate::scopes::scope_with;
use flat_rules::laws::sound_modules_are_known;
use place_kinds::laws::block_kinds_are_at_places;
use std::alloc::{AllocError, Global};
use std::collections::BTreeSet;
use v_blocks::{first_blocking_in_clocked, first_nonblocking_in_combinational};
use v_clocks::{clock_nets, has_clock_as_data};
use v_instances::interface::Interfaces;
use v_paths::{has_bad_event_list, has_latch};
use v_places::Place;
use v_syntax::module::{Item, Module};

/// The items of a module.
fn items_of<'x, 's>(within: &'x Module<'s>) -> &'x [Item<'s>]
    ensures { result.now ≡ within.now.items.items }
{
    &within.items
}

/// Whether a block of the module of a scope has a list of events that it may not have, where these are its clock nets.
fn has_bad_event_list_at<'p>(
    alloc: Global,
    own: &'p PlaceScope<'p, 'p, '_>,
    clocks: &BTreeSet<&str>,
) -> Result<bool, AllocError>
    requires { IsReadySpot (spot_in own.now) }
    ensures { IfOk result (λ r. IsTrue r ↔ HasBadEventListAt (has_name clocks.now) (spot_in own.now)) }
{
    let bad = has_bad_event_list(alloc, items_of(own.place.within), &own.scope, clocks)?;
    Ok(bad)
}

/// Whether one of the modules at these places has such a block, where these are their scopes and the clock nets of each.
fn any_bad_event_list<'p, 't, 's>(
    alloc: Global,
    places: &'t [Place<'t, 's>],
    scopes: &'p [PlaceScope<'p, 'p, 's>],
    numbers: &[usize],
    nets: &[BTreeSet<&str>],
) -> Result<bool, AllocError>
    requires as_many { length nets.now ≡ length places.now }
    requires ready { AreReadySpots (spots_of places.now) }
    requires shared { IsSharing IsSame (spots_in scopes.now) numbers.now (spots_of places.now) }
    ensures { IfOk result (λ r. IsTrue r ↔ SomeWith HasBadEventListAt (sets_of nets.now) (spots_of places.now)) }
{
    for number in 0..places.len() {
        let own = scope_with(scopes, numbers, number);
        if has_bad_event_list_at(alloc, own, &nets[number])? {
            return Ok(true);
        }
    }
    Ok(false)
}

/// Whether the module at a place has a blocking assignment in a clocked block.
fn has_blocking_in_clocked<'t>(place: &'t Place<'t, '_>) -> bool
    ensures { result ≡ has_blocking_in_clocked (spot_of place.now) }
{
    first_blocking_in_clocked(items_of(place.within)).is_some()
}

/// Whether one of the modules at these places has one.
fn any_blocking_in_clocked<'t>(places: &'t [Place<'t, '_>]) -> bool
    ensures { result ≡ list_any has_blocking_in_clocked (spots_of places.now) }
{
    for place in places {
        if has_blocking_in_clocked(place) {
            return true;
        }
    }
    false
}

/// Whether the module at a place has a nonblocking assignment in a combinational block.
fn has_nonblocking_in_combinational<'t>(place: &'t Place<'t, '_>) -> bool
    ensures { result ≡ has_nonblocking_in_combinational (spot_of place.now) }
{
    first_nonblocking_in_combinational(items_of(place.within)).is_some()
}

/// Whether one of the modules at these places has one.
fn any_nonblocking_in_combinational<'t>(places: &'t [Place<'t, '_>]) -> bool
    ensures { result ≡ list_any has_nonblocking_in_combinational (spots_of places.now) }
{
    for place in places {
        if has_nonblocking_in_combinational(place) {
            return true;
        }
    }
    false
}

/// Whether the module of a scope has a latch.
fn has_latch_at<'p>(alloc: Global, one: &'p PlaceScope<'p, 'p, '_>) -> Result<bool, AllocError>
    requires { IsReadySpot (spot_in one.now) }
    ensures { IfOk result (λ r. IsTrue r ↔ HasLatchAt (spot_in one.now)) }
{
    let found = has_latch(alloc, items_of(one.place.within), &one.scope)?;
    Ok(found)
}

/// Whether the module of one of these scopes has a latch.
fn any_latch<'p>(alloc: Global, scopes: &'p [PlaceScope<'p, 'p, '_>]) -> Result<bool, AllocError>
    requires { AreReadySpots (spots_in scopes.now) }
    ensures { IfOk result (λ r. IsTrue r ↔ SomeSpot HasLatchAt (spots_in scopes.now)) }
{
    for one in scopes {
        if has_latch_at(alloc, one)? {
            return Ok(true);
        }
    }
    Ok(false)
}

/// The first of the kinds on blocks whose rule one of these modules breaks, where these are their scopes and the clock nets of each.
fn items_refusal<'p, 't, 's>(
    alloc: Global,
    places: &'t [Place<'t, 's>],
    scopes: &'p [PlaceScope<'p, 'p, 's>],
    numbers: &[usize],
    nets: &[BTreeSet<&str>],
) -> Result<Option<DesignKind>, AllocError>
    requires as_many { length nets.now ≡ length places.now }
    requires shared { IsSharing IsSame (spots_in scopes.now) numbers.now (spots_of places.now) }
    requires ready { AreReadySpots (spots_of places.now) }
    ensures { IfOk result (λ k. (d : Design) (t : Interfaces) → IsSoundDesign t (spots_of places.now) d → AreClockNets d (spots_of places.now) (sets_of nets.now)
        → IsFirst d item_kinds k) }
{
    block_kinds_are_at_places();
    let events = any_bad_event_list(alloc, places, scopes, numbers, nets)?;
    if events {
        return Ok(Some(DesignKind::BadEventList));
    }
    if any_blocking_in_clocked(places) {
        return Ok(Some(DesignKind::BlockingInClocked));
    }
    if any_nonblocking_in_combinational(places) {
        return Ok(Some(DesignKind::NonblockingInComb));
    }
    let latched = any_latch(alloc, scopes)?;
    if latched {
        return Ok(Some(DesignKind::Latch));
    }
    Ok(None)
}

/// The first of these kinds whose rule is broken by one of the modules that stand in a design, which are those at these places.
pub(crate) fn blocks_refusal<'p, 't, 's>(
    alloc: Global,
    places: &'t [Place<'t, 's>],
    scopes: &'p [PlaceScope<'p, 'p, 's>],
    numbers: &[usize],
    interfaces: &Interfaces<'s>,
    clock: &str,
) -> Result<Option<DesignKind>, AllocError>
    requires sound { (d : Design) × IsSoundDesign interfaces.now (spots_of places.now) d × (d.clock ≡ clock.now) }
    requires shared { IsSharing IsSame (spots_in scopes.now) numbers.now (spots_of places.now) }
    ensures { IfOk result (λ k. (d : Design) → IsSoundDesign interfaces.now (spots_of places.now) d → d.clock ≡ clock.now → IsFirst d block_kinds k) }
{
    sound_modules_are_known();
    block_kinds_are_at_places();
    let nets = clock_nets(alloc, places, interfaces, clock)?;
    let data = has_clock_as_data(alloc, places, &nets, interfaces)?;
    if data {
        return Ok(Some(DesignKind::ClockAsData));
    }
    let kind = items_refusal(alloc, places, scopes, numbers, &nets)?;
    Ok(kind)
}
