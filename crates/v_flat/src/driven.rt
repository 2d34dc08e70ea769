//! What all places drive.
ghost use Rattle.std.specs.Prelude.{◌≡◌, ◌++◌, ◌∷◌, [], Some, map, length, IfOk, OnOk};
ghost use Rattle.verilog_trees.specs.Syntax as pure;
ghost use Rattle.verilog_meaning.specs.Hierarchy.{module_named};
ghost use Rattle.v_syntax.specs.Source.{direction_of, item_of};
ghost use Rattle.v_renamed.specs.NewNames.{new_name};
ghost use Rattle.v_instances.specs.Interface.{AreInterfacesOf};
ghost use Rattle.v_places.specs.Views.{spot_of, spots_of};
ghost use Rattle.v_flat.specs.Items.{naming_at, spot_links, spot_items, items_from, inputs_from, all_items};
ghost use Rattle.v_flat.specs.Paths.{IsRowOf, AreRowsOf};
ghost use Rattle.v_flat.specs.Views.{assignments_of, namings};

use crate::connection::add_connections;
use crate::item::add_items;
use std::alloc::{AllocError, Global};
use v_instances::interface::Interfaces;
use v_places::Place;
use v_renamed::Names;
use v_syntax::module::{Assignment, Direction, Item};

/// Adds the connections of a place's instance to ports of one direction, with these new names around it and for its own names. The top
/// has none.
pub(crate) fn add_between<'t, 'a, 's: 'a>(
    place: &'t Place<'t, 's>,
    way: Direction,
    around: &Names<'a>,
    own: &Names<'a>,
    interfaces: &Interfaces<'s>,
    list: &mut Vec<Assignment<'a>>,
    alloc: Global,
) -> Result<(), AllocError>
    ensures { OnOk result ((source : pure.Source) → AreInterfacesOf interfaces.now source
        → module_named source (spot_of place.now).of_module.module_name ≡ Some (spot_of place.now).of_module
        → assignments_of list.new.items ≡ assignments_of list.old.items ++ spot_links (direction_of way) (new_name around.now) (new_name own.now) (spot_of place.now)) }
{
    let Some(instance) = place.instance else {
        return Ok(());
    };
    let Some(interface) = interfaces.find(place.within.name) else {
        return Ok(());
    };
    add_connections(
        &instance.connections,
        way,
        interface,
        around,
        own,
        list,
        alloc,
    )?;
    Ok(())
}

/// Adds the connections of a place's instance to ports of one direction, where its own names are those of `own`. The top has none.
fn add_links<'t, 'a, 's: 'a>(
    place: &'t Place<'t, 's>,
    way: Direction,
    own: &Names<'a>,
    tables: &[Names<'a>],
    interfaces: &Interfaces<'s>,
    list: &mut Vec<Assignment<'a>>,
    alloc: Global,
) -> Result<(), AllocError>
    ensures { OnOk result ((source : pure.Source) → AreInterfacesOf interfaces.now source → IsRowOf source (length tables.now) (spot_of place.now)
        → assignments_of list.new.items ≡ assignments_of list.old.items ++ spot_links (direction_of way) (naming_at (namings tables.now) place.now.parent) (new_name own.now) (spot_of place.now)) }
{
    let Some(around) = tables.get(place.parent) else {
        return Ok(());
    };
    add_between(place, way, around, own, interfaces, list, alloc)?;
    Ok(())
}

/// What the outputs of a place's instance drive.
fn outputs<'t, 'a, 's: 'a>(
    place: &'t Place<'t, 's>,
    own: &Names<'a>,
    tables: &[Names<'a>],
    interfaces: &Interfaces<'s>,
    alloc: Global,
) -> Result<Vec<Assignment<'a>>, AllocError>
    ensures { IfOk result (λ v. (source : pure.Source) → AreInterfacesOf interfaces.now source → IsRowOf source (length tables.now) (spot_of place.now)
        → assignments_of v.items ≡ spot_links pure.output (naming_at (namings tables.now) place.now.parent) (new_name own.now) (spot_of place.now)) }
{
    let mut links = Vec::new(alloc);
    add_links(
        place,
        Direction::Output,
        own,
        tables,
        interfaces,
        &mut links,
        alloc,
    )?;
    Ok(links)
}

/// Adds what the module at a place drives, and what its outputs drive around it.
fn add_place<'t, 'a, 's: 'a>(
    place: &'t Place<'t, 's>,
    own: &Names<'a>,
    tables: &[Names<'a>],
    interfaces: &Interfaces<'s>,
    list: &mut Vec<Item<'a>>,
    alloc: Global,
) -> Result<(), AllocError>
    ensures { OnOk result ((source : pure.Source) → AreInterfacesOf interfaces.now source → IsRowOf source (length tables.now) (spot_of place.now)
        → map item_of list.new.items ≡ map item_of list.old.items ++ spot_items (naming_at (namings tables.now) place.now.parent) (new_name own.now) (spot_of place.now)) }
{
    add_items(&place.within.items, own, list, alloc)?;
    let links = outputs(place, own, tables, interfaces, alloc)?;
    list.push(Item::Assign(links))?;
    Ok(())
}

/// Adds what the modules of all places drive, and what their outputs drive around them.
fn add_places<'t, 'a, 's: 'a>(
    places: &'t [Place<'t, 's>],
    tables: &[Names<'a>],
    interfaces: &Interfaces<'s>,
    list: &mut Vec<Item<'a>>,
    alloc: Global,
) -> Result<(), AllocError>
    requires { length tables.now ≡ length places.now }
    ensures { OnOk result ((source : pure.Source) → AreInterfacesOf interfaces.now source → AreRowsOf source (length places.now) (spots_of places.now)
        → map item_of list.new.items ≡ map item_of list.old.items ++ items_from (namings tables.now) 0 (spots_of places.now)) }
{
    for (number, place) in places.iter().enumerate() {
        add_place(place, &tables[number], tables, interfaces, list, alloc)?;
    }
    Ok(())
}

/// What drives the inputs of all places.
fn inputs<'t, 'a, 's: 'a>(
    places: &'t [Place<'t, 's>],
    tables: &[Names<'a>],
    interfaces: &Interfaces<'s>,
    alloc: Global,
) -> Result<Vec<Assignment<'a>>, AllocError>
    requires { length tables.now ≡ length places.now }
    ensures { IfOk result (λ v. (source : pure.Source) → AreInterfacesOf interfaces.now source → AreRowsOf source (length places.now) (spots_of places.now)
        → assignments_of v.items ≡ inputs_from (namings tables.now) 0 (spots_of places.now)) }
{
    let mut links = Vec::new(alloc);
    for (number, place) in places.iter().enumerate() {
        add_links(
            place,
            Direction::Input,
            &tables[number],
            tables,
            interfaces,
            &mut links,
            alloc,
        )?;
    }
    Ok(links)
}

/// What all places drive, and last what drives their inputs.
pub(crate) fn all_items<'t, 'a, 's: 'a>(
    places: &'t [Place<'t, 's>],
    tables: &[Names<'a>],
    interfaces: &Interfaces<'s>,
    alloc: Global,
) -> Result<Vec<Item<'a>>, AllocError>
    requires { length tables.now ≡ length places.now }
    ensures { IfOk result (λ v. (source : pure.Source) → AreInterfacesOf interfaces.now source → AreRowsOf source (length places.now) (spots_of places.now)
        → map item_of v.items ≡ all_items (namings tables.now) (spots_of places.now)) }
{
    let mut list = Vec::new(alloc);
    add_places(places, tables, interfaces, &mut list, alloc)?;
    let links = inputs(places, tables, interfaces, alloc)?;
    list.push(Item::Assign(links))?;
    Ok(list)
}
