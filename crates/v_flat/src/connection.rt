//! Connections of ports as assignments (IEEE 1364-2005, 12.3.9).
ghost use Rattle.std.specs.Prelude.{◌≡◌, ◌++◌, Some, map, option_map, OnOk};
ghost use Rattle.wb_values.specs.Value.{Name, entry_of};
ghost use Rattle.verilog_trees.specs.Syntax as pure;
ghost use Rattle.verilog_meaning.specs.Settled.{port_named, port_numbered, port_meant, port_directions, named_connections, ordered_connections, instance_connections};
ghost use Rattle.v_syntax.specs.Tree.{tree_of};
ghost use Rattle.v_syntax.specs.Source.{direction_of, optional_tree_of, connections_of};
ghost use Rattle.v_renamed.specs.NewNames.{new_name};
ghost use Rattle.v_instances.specs.Interface.{direction_in, IsInterfaceOf};
ghost use Rattle.v_flat.specs.Links.{port_link, meant_link, entry_link, connection_links};
ghost use Rattle.v_flat.specs.Views.{assignments_of};

use std::alloc::{AllocError, Global};
use v_instances::interface::Interface;
use v_renamed::{Names, name_for, renamed_as_target, renamed_expression};
use v_syntax::module::{Assignment, Connections, Direction, NamedConnection};
use v_syntax::tree::{Expression, Selects, Target};

/// Adds the assignment of an expression to an input.
fn add_into<'a, 's: 'a>(
    expression: &Expression<'s>,
    port: &'s str,
    names: &Names<'a>,
    below: &Names<'a>,
    list: &mut Vec<Assignment<'a>>,
    alloc: Global,
) -> Result<(), AllocError>
    ensures { OnOk result (assignments_of list.new.items ≡ assignments_of list.old.items ++ port_link pure.input (new_name names.now) (new_name below.now) port.now (tree_of expression.now) (Some pure.input)) }
{
    let value = renamed_expression(alloc, expression, names)?;
    let target = Target::Place(name_for(below, port), Selects::Whole);
    list.push(Assignment { target, value })?;
    Ok(())
}

/// Adds the assignment of an output to what is connected to it, if this is a target.
fn add_from<'a, 's: 'a>(
    expression: &Expression<'s>,
    port: &'s str,
    names: &Names<'a>,
    below: &Names<'a>,
    list: &mut Vec<Assignment<'a>>,
    alloc: Global,
) -> Result<(), AllocError>
    ensures { OnOk result (assignments_of list.new.items ≡ assignments_of list.old.items ++ port_link pure.output (new_name names.now) (new_name below.now) port.now (tree_of expression.now) (Some pure.output)) }
{
    let found = renamed_as_target(alloc, expression, names)?;
    match found {
        Some(target) => {
            let value = Expression::Name(name_for(below, port), Selects::Whole);
            list.push(Assignment { target, value })?;
            Ok(())
        }
        None => Ok(()),
    }
}

/// Adds what is connected to a port of this direction, if it is the one that is asked for.
fn add_way<'a, 's: 'a>(
    expression: &Expression<'s>,
    port: &'s str,
    found: Direction,
    way: Direction,
    names: &Names<'a>,
    below: &Names<'a>,
    list: &mut Vec<Assignment<'a>>,
    alloc: Global,
) -> Result<(), AllocError>
    ensures { OnOk result (assignments_of list.new.items ≡ assignments_of list.old.items ++ port_link (direction_of way) (new_name names.now) (new_name below.now) port.now (tree_of expression.now) (Some (direction_of found))) }
{
    match way {
        Direction::Input => match found {
            Direction::Input => {
                add_into(expression, port, names, below, list, alloc)?;
                Ok(())
            }
            Direction::Output => Ok(()),
        },
        Direction::Output => match found {
            Direction::Input => Ok(()),
            Direction::Output => {
                add_from(expression, port, names, below, list, alloc)?;
                Ok(())
            }
        },
    }
}

/// The direction of a port, where the name has one.
fn direction_under(interface: &Interface<'_>, port: &str) -> Option<Direction>
    ensures { option_map direction_of result ≡ direction_in interface.now.directions port.now }
{
    interface.directions.get(port).copied()
}

/// Adds what is connected to the port of this name, if it has the direction that is asked for.
fn add_port<'a, 's: 'a>(
    expression: &Expression<'s>,
    port: &'s str,
    way: Direction,
    interface: &Interface<'s>,
    names: &Names<'a>,
    below: &Names<'a>,
    list: &mut Vec<Assignment<'a>>,
    alloc: Global,
) -> Result<(), AllocError>
    ensures { OnOk result ((m : pure.Module) → IsInterfaceOf interface.now m → assignments_of list.new.items ≡ assignments_of list.old.items
        ++ port_link (direction_of way) (new_name names.now) (new_name below.now) port.now (tree_of expression.now) (entry_of (port_directions m) port.now)) }
{
    match direction_under(interface, port) {
        Some(found) => {
            add_way(expression, port, found, way, names, below, list, alloc)?;
            Ok(())
        }
        None => Ok(()),
    }
}

/// Adds what is connected by name, if anything is.
fn add_named<'a, 's: 'a>(
    connection: &NamedConnection<'s>,
    way: Direction,
    interface: &Interface<'s>,
    names: &Names<'a>,
    below: &Names<'a>,
    list: &mut Vec<Assignment<'a>>,
    alloc: Global,
) -> Result<(), AllocError>
    ensures { OnOk result ((m : pure.Module) → IsInterfaceOf interface.now m → assignments_of list.new.items ≡ assignments_of list.old.items
        ++ entry_link (direction_of way) (new_name names.now) (new_name below.now) m (port_named connection.now.name.now) (optional_tree_of connection.now.value)) }
{
    match &connection.value {
        Some(expression) => {
            add_port(
                expression,
                connection.name,
                way,
                interface,
                names,
                below,
                list,
                alloc,
            )?;
            Ok(())
        }
        None => Ok(()),
    }
}

/// Adds connections by name.
fn add_all_named<'a, 's: 'a>(
    connections: &[NamedConnection<'s>],
    way: Direction,
    interface: &Interface<'s>,
    names: &Names<'a>,
    below: &Names<'a>,
    list: &mut Vec<Assignment<'a>>,
    alloc: Global,
) -> Result<(), AllocError>
    ensures { OnOk result ((m : pure.Module) (u : Name) → IsInterfaceOf interface.now m → assignments_of list.new.items ≡ assignments_of list.old.items
        ++ connection_links (direction_of way) (new_name names.now) (new_name below.now) m (named_connections u (map (λ c. (c.name.now, optional_tree_of c.value)) connections.now))) }
{
    for connection in connections {
        add_named(connection, way, interface, names, below, list, alloc)?;
    }
    Ok(())
}

/// Adds what is connected to the port at a place of the module's list, if there is one.
fn add_numbered<'a, 's: 'a>(
    expression: &Expression<'s>,
    place: usize,
    way: Direction,
    interface: &Interface<'s>,
    names: &Names<'a>,
    below: &Names<'a>,
    list: &mut Vec<Assignment<'a>>,
    alloc: Global,
) -> Result<(), AllocError>
    ensures { OnOk result ((m : pure.Module) → IsInterfaceOf interface.now m → assignments_of list.new.items ≡ assignments_of list.old.items
        ++ meant_link (direction_of way) (new_name names.now) (new_name below.now) m (tree_of expression.now) (port_meant m (port_numbered place))) }
{
    match interface.ports.order.get(place) {
        Some(port) => {
            add_port(expression, *port, way, interface, names, below, list, alloc)?;
            Ok(())
        }
        None => Ok(()),
    }
}

/// Adds what is connected by place, if anything is.
fn add_entry<'a, 's: 'a>(
    entry: &Option<Expression<'s>>,
    place: usize,
    way: Direction,
    interface: &Interface<'s>,
    names: &Names<'a>,
    below: &Names<'a>,
    list: &mut Vec<Assignment<'a>>,
    alloc: Global,
) -> Result<(), AllocError>
    ensures { OnOk result ((m : pure.Module) → IsInterfaceOf interface.now m → assignments_of list.new.items ≡ assignments_of list.old.items
        ++ entry_link (direction_of way) (new_name names.now) (new_name below.now) m (port_numbered place) (optional_tree_of entry.now)) }
{
    match entry {
        Some(expression) => {
            add_numbered(expression, place, way, interface, names, below, list, alloc)?;
            Ok(())
        }
        None => Ok(()),
    }
}

/// Adds connections by place.
fn add_all_ordered<'a, 's: 'a>(
    entries: &[Option<Expression<'s>>],
    way: Direction,
    interface: &Interface<'s>,
    names: &Names<'a>,
    below: &Names<'a>,
    list: &mut Vec<Assignment<'a>>,
    alloc: Global,
) -> Result<(), AllocError>
    ensures { OnOk result ((m : pure.Module) (u : Name) → IsInterfaceOf interface.now m → assignments_of list.new.items ≡ assignments_of list.old.items
        ++ connection_links (direction_of way) (new_name names.now) (new_name below.now) m (ordered_connections u 0 (map optional_tree_of entries.now))) }
{
    for (place, entry) in entries.iter().enumerate() {
        add_entry(entry, place, way, interface, names, below, list, alloc)?;
    }
    Ok(())
}

/// Adds the connections of an instance to ports of one direction.
pub(crate) fn add_connections<'a, 's: 'a>(
    connections: &Connections<'s>,
    way: Direction,
    interface: &Interface<'s>,
    names: &Names<'a>,
    below: &Names<'a>,
    list: &mut Vec<Assignment<'a>>,
    alloc: Global,
) -> Result<(), AllocError>
    ensures { OnOk result ((m : pure.Module) (u : Name) → IsInterfaceOf interface.now m → assignments_of list.new.items ≡ assignments_of list.old.items
        ++ connection_links (direction_of way) (new_name names.now) (new_name below.now) m (instance_connections u (connections_of connections.now))) }
{
    match connections {
        Connections::ByName(named) => {
            add_all_named(named, way, interface, names, below, list, alloc)?;
            Ok(())
        }
        Connections::ByOrder(entries) => {
            add_all_ordered(entries, way, interface, names, below, list, alloc)?;
            Ok(())
        }
    }
}
