//! What each module drives under its own names, what outputs of its instances drive there among it.
ghost use Rattle.std.specs.Prelude.{◌≡◌, ◌∷◌, [], Some, map, length, IfOk, OnOk};
ghost use Rattle.verilog_trees.specs.Syntax as pure;
ghost use Rattle.verilog_meaning.specs.Hierarchy.{module_named};
ghost use Rattle.verilog_meaning.specs.Settled.{Design};
ghost use Rattle.v_renamed.specs.NewNames.{new_name};
ghost use Rattle.v_instances.specs.Interface.{AreInterfacesOf};
ghost use Rattle.v_places.specs.Views.{spot_of, spots_of};
ghost use Rattle.v_flat.specs.Items.{own_items, spot_links};
ghost use Rattle.v_flat.specs.Outputs.{same_names, with_outputs, own_lists, added_outputs, all_added};
ghost use Rattle.v_flat.specs.Paths.{AreRowsOf};
ghost use Rattle.v_flat.specs.Views.{assignments_of, items_of, lists_of};
ghost use Rattle.v_flat.specs.Whole.{IsPlacing};

use crate::driven::add_between;
use crate::item::add_items;
use std::alloc::{AllocError, Global};
use std::collections::BTreeMap;
use v_instances::interface::Interfaces;
use v_places::Place;
use v_renamed::Names;
use v_syntax::module::{Assignment, Direction, Item};

/// A table without new names.
fn no_names<'s>(alloc: Global) -> Names<'s>
    ensures { new_name result ≡ same_names }
{
    Names {
        table: BTreeMap::new(alloc),
    }
}

/// What the module at a place drives, instances aside.
fn own_items<'t, 's>(
    place: &'t Place<'t, 's>,
    names: &Names<'s>,
    alloc: Global,
) -> Result<Vec<Item<'s>>, AllocError>
    ensures { IfOk result (λ v. items_of v ≡ own_items (new_name names.now) (spot_of place.now).of_module.items) }
{
    let mut list = Vec::new(alloc);
    add_items(&place.within.items, names, &mut list, alloc)?;
    Ok(list)
}

/// What the module at each place drives, instances aside.
fn all_own_items<'t, 's>(
    places: &'t [Place<'t, 's>],
    names: &Names<'s>,
    alloc: Global,
) -> Result<Vec<Vec<Item<'s>>>, AllocError>
    ensures { IfOk result (λ v. lists_of v.items ≡ own_lists (new_name names.now) (spots_of places.now)) }
{
    let mut lists = Vec::new(alloc);
    for place in places {
        let list = own_items(place, names, alloc)?;
        lists.push(list)?;
    }
    Ok(lists)
}

/// What the outputs of a place's instance drive around it.
fn outputs_of<'t, 's>(
    place: &'t Place<'t, 's>,
    names: &Names<'s>,
    interfaces: &Interfaces<'s>,
    alloc: Global,
) -> Result<Vec<Assignment<'s>>, AllocError>
    ensures { IfOk result (λ v. (source : pure.Source) → AreInterfacesOf interfaces.now source
        → module_named source (spot_of place.now).of_module.module_name ≡ Some (spot_of place.now).of_module
        → assignments_of v.items ≡ spot_links pure.output (new_name names.now) (new_name names.now) (spot_of place.now)) }
{
    let mut links = Vec::new(alloc);
    add_between(
        place,
        Direction::Output,
        names,
        names,
        interfaces,
        &mut links,
        alloc,
    )?;
    Ok(links)
}

/// Adds what the outputs of a place's instance drive to the list of the module around it.
fn add_outputs<'t, 's>(
    place: &'t Place<'t, 's>,
    names: &Names<'s>,
    interfaces: &Interfaces<'s>,
    lists: &mut Vec<Vec<Item<'s>>>,
    alloc: Global,
) -> Result<(), AllocError>
    ensures { OnOk result ((source : pure.Source) → AreInterfacesOf interfaces.now source
        → module_named source (spot_of place.now).of_module.module_name ≡ Some (spot_of place.now).of_module
        → lists_of lists.new.items ≡ added_outputs (new_name names.now) (spot_of place.now) (lists_of lists.old.items)) }
{
    if place.parent >= lists.len() {
        return Ok(());
    }
    let links = outputs_of(place, names, interfaces, alloc)?;
    let list = &mut lists[place.parent];
    list.push(Item::Assign(links))?;
    Ok(())
}

/// Adds what the outputs of all instances drive, each to the list of the module around it.
fn add_all_outputs<'t, 's>(
    places: &'t [Place<'t, 's>],
    names: &Names<'s>,
    interfaces: &Interfaces<'s>,
    lists: &mut Vec<Vec<Item<'s>>>,
    alloc: Global,
) -> Result<(), AllocError>
    ensures { OnOk result ((source : pure.Source) → AreInterfacesOf interfaces.now source → AreRowsOf source (length places.now) (spots_of places.now)
        → lists_of lists.new.items ≡ all_added (new_name names.now) (spots_of places.now) (lists_of lists.old.items)) }
{
    for place in places {
        add_outputs(place, names, interfaces, lists, alloc)?;
    }
    Ok(())
}

/// What the module at each place drives: its continuous assignments and blocks, and what outputs of its instances drive, as assignments.
/// The names are the module's own.
pub fn items_with_outputs<'t, 's>(
    alloc: Global,
    places: &'t [Place<'t, 's>],
    interfaces: &Interfaces<'s>,
) -> Result<Vec<Vec<Item<'s>>>, AllocError>
    ensures { IfOk result (λ v. (d : Design) → AreInterfacesOf interfaces.now d.source → IsPlacing d (spots_of places.now)
        → lists_of v.items ≡ with_outputs (spots_of places.now)) }
{
    let names = no_names(alloc);
    let mut lists = all_own_items(places, &names, alloc)?;
    add_all_outputs(places, &names, interfaces, &mut lists, alloc)?;
    Ok(lists)
}
