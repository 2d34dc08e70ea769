//! A design with instances in one scope.
ghost use Rattle.std.specs.Prelude.{◌≡◌, length, map, IfOk};
ghost use Rattle.verilog_meaning.specs.Settled.{Design};
ghost use Rattle.v_syntax.specs.Source.{item_of};
ghost use Rattle.v_value.specs.Scope.{scope_at};
ghost use Rattle.v_instances.specs.Interface.{AreInterfacesOf};
ghost use Rattle.v_places.specs.Views.{spots_of};
ghost use Rattle.flat_designs.specs.Flat.{Naming};
ghost use Rattle.v_flat.specs.Views.{names_in};
ghost use Rattle.v_flat.specs.Whole.{IsPlacing, AreCalled, IsFlatDesign};

use crate::driven::all_items;
use crate::names::DottedNames;
use crate::tables::{scope_of, tables_of};
use std::alloc::{AllocError, Global};
use v_instances::interface::Interfaces;
use v_places::Place;
use v_syntax::module::Item;
use v_value::scope::Scope;

/// A design in one scope: what its names there stand for, and its assignments and blocks under these names, connections of ports among
/// the assignments.
#[derive(Drop)]
pub struct FlatDesign<'a> {
    pub scope: Scope<'a>,
    pub items: Vec<Item<'a>>,
}

/// The design that stands at these places, in one scope under these names.
pub fn flat_design<'t, 'a, 's: 'a>(
    alloc: Global,
    places: &'t [Place<'t, 's>],
    names: &'a DottedNames<'a>,
    interfaces: &Interfaces<'s>,
) -> Result<FlatDesign<'a>, AllocError>
    requires { length names.now.places.items ≡ length places.now }
    ensures { IfOk result (λ f. (d : Design) (called : Naming) → AreInterfacesOf interfaces.now d.source → IsPlacing d (spots_of places.now)
        → AreCalled d called (spots_of places.now) (map names_in names.now.places.items) → IsFlatDesign d called (scope_at f.scope) (map item_of f.items.items)) }
{
    let tables = tables_of(alloc, &names.places)?;
    let scope = scope_of(alloc, &names.places)?;
    let items = all_items(places, &tables, interfaces, alloc)?;
    Ok(FlatDesign { scope, items })
}
