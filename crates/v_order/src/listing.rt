//! The drivers of a module, in the order of the text.

ghost use Rattle.std.specs.Prelude.{◌≡◌, ◌++◌, ◌∷◌, [], map, IfOk, OnOk};
ghost use Rattle.v_syntax.specs.Source.{item_of};
ghost use Rattle.v_drivers.specs.Lists.{links_of, wire_links};
ghost use Rattle.v_order.specs.Drivers.{all_links, drivings, drivers};
ghost use Rattle.v_order.specs.Lists.{drivings_in, statements_in};

use crate::driver::Driver;
use std::alloc::{AllocError, Global};
use v_statement::register::is_clocked;
use v_syntax::module::{Assignment, Item, Wire};

/// Adds continuous assignments.
fn add_assignments<'t, 's>(
    assignments: &'t [Assignment<'s>],
    found: &mut Vec<Driver<'t, 's>>,
) -> Result<(), AllocError>
    ensures { OnOk result (drivings_in found.new.items ≡ drivings_in found.old.items ++ all_links (links_of assignments.now)) }
{
    for assignment in assignments {
        found.push(Driver::Link(&assignment.target, &assignment.value))?;
    }
    Ok(())
}

/// Adds a net that its declaration gives a value.
fn add_wire<'t, 's>(wire: &'t Wire<'s>, found: &mut Vec<Driver<'t, 's>>) -> Result<(), AllocError>
    ensures { OnOk result (drivings_in found.new.items ≡ drivings_in found.old.items ++ all_links (wire_links (wire.now ∷ []))) }
{
    match &wire.value {
        Some(value) => {
            found.push(Driver::Net(wire.name, value))?;
            Ok(())
        }
        None => Ok(()),
    }
}

/// Adds the nets of a declaration.
fn add_wires<'t, 's>(
    wires: &'t [Wire<'s>],
    found: &mut Vec<Driver<'t, 's>>,
) -> Result<(), AllocError>
    ensures { OnOk result (drivings_in found.new.items ≡ drivings_in found.old.items ++ all_links (wire_links wires.now)) }
{
    for wire in wires {
        add_wire(wire, found)?;
    }
    Ok(())
}

/// Adds the drivers of an item.
fn add_item<'t, 's>(item: &'t Item<'s>, found: &mut Vec<Driver<'t, 's>>) -> Result<(), AllocError>
    ensures { OnOk result (drivings_in found.new.items ≡ drivings_in found.old.items ++ drivings (item_of item.now ∷ [])) }
{
    match item {
        Item::Wires(_, _, wires) => {
            add_wires(wires, found)?;
            Ok(())
        }
        Item::Assign(assignments) => {
            add_assignments(assignments, found)?;
            Ok(())
        }
        Item::Always(events, block) => {
            if is_clocked(events) {
                return Ok(());
            }
            found.push(Driver::Block(block))?;
            Ok(())
        }
        Item::Port(_) => Ok(()),
        Item::Parameter(_) => Ok(()),
        Item::Variables(_, _, _) => Ok(()),
        Item::Instances(_, _, _) => Ok(()),
    }
}

/// The drivers of a module: its continuous assignments and combinational blocks (1364-2005, 6.1 and 9.9), in the order of the text.
pub fn drivers_of<'t, 's>(
    alloc: Global,
    items: &'t [Item<'s>],
) -> Result<Vec<Driver<'t, 's>>, AllocError>
    ensures drivings { IfOk result (λ v. drivings_in v.items ≡ drivings (map item_of items.now)) }
    ensures statements { IfOk result (λ v. statements_in v.items ≡ drivers (map item_of items.now)) }
{
    let mut found = Vec::new(alloc);
    for item in items {
        add_item(item, &mut found)?;
    }
    Ok(found)
}
