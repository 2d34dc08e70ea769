//! The kinds on bits without drivers and on combinational loops, over the design in one scope.
ghost use Rattle.std.specs.Prelude.{◌≡◌, ◌↔◌, true, length, map, slice_get, Some, IfOk};
ghost use Rattle.verilog_meaning.specs.Settled.{Design};
ghost use Rattle.verilog_designs.specs.Drivers.{HasUndriven};
ghost use Rattle.verilog_designs.specs.Dependence.{HasLoop};
ghost use Rattle.v_value.specs.Scope.{scope_at};
ghost use Rattle.v_syntax.specs.Source.{item_of};
ghost use Rattle.v_assigned.specs.Names.{HasNamesOf};
ghost use Rattle.v_undriven.specs.Undriven.{HasUndrivenBit};
ghost use Rattle.v_loops.specs.OneModule.{HasLoopIn};
ghost use Rattle.v_places.specs.Below.{Spot};
ghost use Rattle.v_places.specs.Views.{spots_of};
ghost use Rattle.v_flat.specs.Numbered.{numbered};
ghost use Rattle.v_flat.specs.Whole.{IsPlacing, AreCalled};
ghost use Rattle.v_flat.specs.Views.{names_in};
ghost use Rattle.place_kinds.specs.Flat.{FlatIsReady};
ghost use Rattle.v_judged.specs.First.{IsFirst, flat_kinds};
ghost use Rattle.v_judged.specs.Sharing.{IsSame, IsSharing};
ghost use Rattle.v_judged.specs.Spots.{spots_in};
ghost use Rattle.v_judged.specs.Standing.{IsSoundDesign};

use crate::kind::DesignKind;
use crate::place::PlaceScope;
use crate::scopes::scope_with;
use place_kinds::laws::{flat_kinds_are_kinds_of_the_design, places_are_placed};
use std::alloc::{AllocError, Global};
use v_flat::{DottedNames, FlatDesign, flat_design, numbered_names};
use v_instances::interface::Interfaces;
use v_loops::has_loop;
use v_places::Place;
use v_scopes::ModuleScope;
use v_undriven::has_undriven;

/// The first of these kinds whose rule a design breaks that is this one in one scope, whose top declares these names.
fn flat_refusal<'n, 's: 'n>(
    alloc: Global,
    flat: &FlatDesign<'n>,
    names: &ModuleScope<'s>,
    clock: &str,
) -> Result<Option<DesignKind>, AllocError>
    requires { FlatIsReady (scope_at flat.now.scope) (map item_of flat.now.items.items) }
    ensures { IfOk result (λ k. (d : Design)
        → HasUndriven d ↔ HasUndrivenBit (scope_at flat.now.scope) names.now clock.now (map item_of flat.now.items.items)
        → HasLoop d ↔ HasLoopIn (scope_at flat.now.scope) (map item_of flat.now.items.items) → IsFirst d flat_kinds k) }
{
    let lacking = has_undriven(alloc, &flat.items, &flat.scope, names, clock)?;
    if lacking {
        return Ok(Some(DesignKind::Undriven));
    }
    let loops = has_loop(alloc, &flat.items, &flat.scope)?;
    if loops {
        return Ok(Some(DesignKind::CombLoop));
    }
    Ok(None)
}

/// The same of the design that stands at these places, where its names are called by the numbers of their modules, those of its top as
/// they are.
fn numbered_refusal<'t, 's>(
    alloc: Global,
    places: &'t [Place<'t, 's>],
    names: &DottedNames<'s>,
    top: &ModuleScope<'s>,
    interfaces: &Interfaces<'s>,
    clock: &str,
) -> Result<Option<DesignKind>, AllocError>
    requires count { length names.now.places.items ≡ length places.now }
    requires called { (d : Design) → IsPlacing d (spots_of places.now)
        → AreCalled d (numbered true (spots_of places.now)) (spots_of places.now) (map names_in names.now.places.items) }
    requires sound { (d : Design) × IsSoundDesign interfaces.now (spots_of places.now) d }
    ensures { IfOk result (λ k. (d : Design) (x : Spot) → IsSoundDesign interfaces.now (spots_of places.now) d → slice_get (spots_of places.now) 0 ≡ Some x
        → HasNamesOf top.now x.of_module → d.clock ≡ clock.now → IsFirst d flat_kinds k) }
{
    places_are_placed();
    flat_kinds_are_kinds_of_the_design();
    let flat = flat_design(alloc, places, names, interfaces)?;
    let kind = flat_refusal(alloc, &flat, top, clock)?;
    Ok(kind)
}

/// The first of the kinds on bits without drivers and on loops whose rule is broken by the design that stands at these places, of which the
/// first is its top. These are their scopes.
pub(crate) fn one_scope_refusal<'p, 't, 's>(
    alloc: Global,
    places: &'t [Place<'t, 's>],
    scopes: &'p [PlaceScope<'p, 'p, 's>],
    numbers: &[usize],
    interfaces: &Interfaces<'s>,
    clock: &str,
) -> Result<Option<DesignKind>, AllocError>
    requires sound { (d : Design) × IsSoundDesign interfaces.now (spots_of places.now) d }
    requires shared { IsSharing IsSame (spots_in scopes.now) numbers.now (spots_of places.now) }
    ensures { IfOk result (λ k. (d : Design) → IsSoundDesign interfaces.now (spots_of places.now) d → d.clock ≡ clock.now → IsFirst d flat_kinds k) }
{
    let top = scope_with(scopes, numbers, 0);
    let numbered = numbered_names(alloc, places, true)?;
    let kind = numbered_refusal(alloc, places, &numbered, &top.names, interfaces, clock)?;
    Ok(kind)
}
