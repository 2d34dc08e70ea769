//! The design of modules that stand at a list of places, elaborated in one scope.

ghost use Rattle.std.specs.Prelude.{◌≡◌, false, length, map, IfOk};
ghost use Rattle.wb_values.specs.Value.{Valuation};
ghost use Rattle.verilog_meaning.specs.Settled.{Design as PureDesign};
ghost use Rattle.flat_designs.specs.Flat.{IsNaming, IsSeenAs};
ghost use Rattle.v_syntax.specs.Source.{item_of, module_of};
ghost use Rattle.v_value.specs.Scope.{scope_at};
ghost use Rattle.v_places.specs.Views.{spots_of};
ghost use Rattle.v_flat.specs.Numbered.{numbered};
ghost use Rattle.v_flat.specs.Views.{names_in};
ghost use Rattle.v_flat.specs.Whole.{IsPlacing, AreCalled};
ghost use Rattle.v_design.specs.Seen.{parts_of};
ghost use Rattle.v_design.specs.Design.{outputs_of, IsDesignOf};
ghost use Rattle.v_elab.specs.Names.{top_front, is_given_port};
ghost use Rattle.v_elab.specs.Elaborable.{IsElaborable};
ghost use Rattle.v_elab.specs.Elaborated.{IsElaborated, body_in};
ghost use Rattle.v_elab.specs.Elements.{elements_of};
ghost use Rattle.v_elab.specs.Flat.{StandsAt};
ghost use Rattle.v_elab.specs.Settled.{IsCalledSo};
ghost use Rattle.v_elab.specs.Told.{AreCalledNets, IsTold};

use crate::NoMemory;
use crate::design::elements_in;
use crate::elements::Elements;
use crate::ports::outputs_of;
use crate::settled::settled_of;
use crate::told::told_names;
use place_kinds::laws::places_are_placed;
use std::alloc::Global;
use v_design::Design;
use v_flat::{DottedNames, FlatDesign, flat_design, numbered_names};
use v_instances::interface::Interfaces;
use v_ordered::names_in_order;
use v_places::Place;
use v_scopes::{Constants, declared_scope};
use v_syntax::module::Item;
use v_value::scope::Scope;
use v_write::laws::unbroken_statements_are_sound;

/// The items of a design in one scope.
fn items_of<'x, 'a>(flat: &'x FlatDesign<'a>) -> &'x [Item<'a>]
    ensures { result.now ≡ flat.now.items.items }
{
    &flat.items
}

/// What is elaborated of a design in one scope, whose nets and variables are these and whose top is the module at a place.
fn elements_below<'t, 'a>(
    top: &'t Place<'t, '_>,
    flat: &FlatDesign<'a>,
    alloc: Global,
    declared: &[&'a str],
    clock: &str,
) -> Result<Elements<'a>, NoMemory>
    requires { IsElaborable (body_in (scope_at flat.now.scope) (map item_of flat.now.items.items) (map (λ n. n.now) declared.now)) (is_given_port (module_of top.now.within.now) clock.now top_front) }
    ensures { IfOk result (λ r. IsElaborated (body_in (scope_at flat.now.scope) (map item_of flat.now.items.items) (map (λ n. n.now) declared.now)) (is_given_port (module_of top.now.within.now) clock.now top_front)
        (outputs_of (module_of top.now.within.now)) (elements_of r)) }
{
    let constants = Constants {
        scope: &top.constants,
    };
    let names = declared_scope(alloc, top.within, constants)?;
    let outputs = outputs_of(alloc, top.within, &names)?;
    let items = items_of(flat);
    let elements = elements_in(alloc, items, declared, &names, &flat.scope, clock, outputs)?;
    Ok(elements)
}

/// A design out of what was elaborated under numbers: under dotted names, with the terms of what settles by its places.
fn told_design<'t>(
    places: &'t [Place<'t, '_>],
    names: &DottedNames<'_>,
    alloc: Global,
    scope: &Scope<'_>,
    elements: Elements<'_>,
) -> Result<Design, NoMemory>
    requires { (d : PureDesign) × IsNaming d (numbered false (spots_of places.now))
        × IsCalledSo d (numbered false (spots_of places.now)) (spots_of places.now) (map names_in names.now.places.items) (scope_at scope.now)
        × AreCalledNets d (numbered false (spots_of places.now)) elements.terms.names }
    ensures { IfOk result (λ r. (d : PureDesign)
        → IsCalledSo d (numbered false (spots_of places.now)) (spots_of places.now) (map names_in names.now.places.items) (scope_at scope.now)
        → IsTold d (numbered false (spots_of places.now)) (elements_of elements.entry) (parts_of r)) }
{
    let settled = settled_of(places, names, alloc, scope, &elements.table)?;
    let told = told_names(places, &elements.stored, alloc)?;
    // What the names of the store are called differs for each.
    let _count = elements.terms.name_count();
    let terms = elements.terms.with_names(alloc, told)?;
    Ok(Design {
        terms,
        register_count: elements.register_count,
        next: elements.next,
        bits: elements.bits,
        settled,
        outputs: elements.outputs,
    })
}

/// The design that stands at these places, where its names are called by the numbers of their places.
fn numbered_design<'t, 'a, 's: 'a>(
    places: &'t [Place<'t, 's>],
    names: &'a DottedNames<'a>,
    interfaces: &Interfaces<'s>,
    alloc: Global,
    clock: &str,
) -> Result<Design, NoMemory>
    requires count { length names.now.places.items ≡ length places.now }
    requires called { (d : PureDesign) → IsPlacing d (spots_of places.now)
        → AreCalled d (numbered false (spots_of places.now)) (spots_of places.now) (map names_in names.now.places.items) }
    requires seen { (d : PureDesign) (v : Valuation) → IsPlacing d (spots_of places.now)
        → (w : Valuation) × IsSeenAs d (numbered false (spots_of places.now)) v w }
    requires stands { (d : PureDesign) × StandsAt interfaces.now clock.now (spots_of places.now) d }
    ensures { IfOk result (λ r. (d : PureDesign) → StandsAt interfaces.now clock.now (spots_of places.now) d → IsDesignOf d (parts_of r)) }
{
    places_are_placed();
    unbroken_statements_are_sound();
    let declared = names_in_order(alloc, places, names)?;
    let flat = flat_design(alloc, places, names, interfaces)?;
    match places.first() {
        Some(top) => {
            let elements = elements_below(top, &flat, alloc, &declared, clock)?;
            let design = told_design(places, names, alloc, &flat.scope, elements)?;
            Ok(design)
        }
        // A design has a top.
        None => unreachable!(),
    }
}

/// The design that stands at these places, where the modules of its source have these interfaces.
pub(crate) fn placed_design<'t, 's>(
    places: &'t [Place<'t, 's>],
    interfaces: &Interfaces<'s>,
    alloc: Global,
    clock: &str,
) -> Result<Design, NoMemory>
    requires { (d : PureDesign) × StandsAt interfaces.now clock.now (spots_of places.now) d }
    ensures { IfOk result (λ r. (d : PureDesign) → StandsAt interfaces.now clock.now (spots_of places.now) d → IsDesignOf d (parts_of r)) }
{
    let names = numbered_names(alloc, places, false)?;
    let design = numbered_design(places, &names, interfaces, alloc, clock)?;
    Ok(design)
}
