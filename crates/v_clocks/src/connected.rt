//! How clock nets stand in what is connected to an instance, one connection after the other.
ghost use Rattle.std.specs.Prelude.{◌≡◌, ◌++◌, map, option_map, OnOk};
ghost use Rattle.wb_values.specs.Value.{Name};
ghost use Rattle.verilog_trees.specs.Syntax as pure;
ghost use Rattle.verilog_meaning.specs.Settled.{port_named, port_numbered, named_connections, ordered_connections, instance_connections};
ghost use Rattle.verilog_designs.specs.Ports.{is_input};
ghost use Rattle.v_syntax.specs.Tree.{tree_of};
ghost use Rattle.v_syntax.specs.Source.{direction_of, optional_tree_of, connections_of};
ghost use Rattle.v_hier.specs.Tables.{has_name};
ghost use Rattle.v_instances.specs.Interface.{direction_in, IsInterfaceOf};
ghost use Rattle.v_clocks.specs.Uses.{has_input, at_port, use_at, use_if_any, uses_of};
ghost use Rattle.v_clocks.specs.Views.{use_of, uses_in};

use crate::expression::mentions;
use crate::uses::Use;
use crate::whole::is_whole;
use std::alloc::AllocError;
use std::collections::BTreeSet;
use v_instances::interface::Interface;
use v_syntax::module::{Connections, Direction, NamedConnection};
use v_syntax::tree::Expression;

/// The direction of a port, where the name has one.
fn direction_under(interface: &Interface<'_>, port: &str) -> Option<Direction>
    ensures { option_map direction_of result ≡ direction_in interface.now.directions port.now }
{
    interface.directions.get(port).copied()
}

/// Whether this is the direction of an input.
fn is_input(direction: Option<Direction>) -> bool
    ensures { result ≡ is_input (option_map direction_of direction) }
{
    match direction {
        Some(Direction::Input) => true,
        Some(Direction::Output) => false,
        None => false,
    }
}

/// Whether the module has an input of this name.
fn has_input(interface: &Interface<'_>, port: &str) -> bool
    ensures { (m : pure.Module) → IsInterfaceOf interface.now m → result ≡ has_input m port.now }
{
    is_input(direction_under(interface, port))
}

/// How an expression with a clock net in it stands at the port of this name.
fn at_port<'s>(expression: &Expression<'_>, interface: &Interface<'_>, port: &'s str) -> Use<'s>
    ensures { (m : pure.Module) → IsInterfaceOf interface.now m → use_of result ≡ at_port m (tree_of expression.now) port.now }
{
    if !has_input(interface, port) {
        return Use::AsData;
    }
    if is_whole(expression) {
        return Use::AsClock(port);
    }
    Use::AsData
}

/// How clock nets stand in what is connected to the port of this name.
fn use_named<'s>(
    expression: &Expression<'_>,
    clocks: &BTreeSet<&str>,
    interface: &Interface<'_>,
    port: &'s str,
) -> Use<'s>
    ensures { (m : pure.Module) → IsInterfaceOf interface.now m → use_of result ≡ use_at (has_name clocks.now) m (port_named port.now) (tree_of expression.now) }
{
    if !mentions(expression, clocks) {
        return Use::NoClock;
    }
    at_port(expression, interface, port)
}

/// How clock nets stand in what is connected to the port at this place of the module's list.
fn use_numbered<'s>(
    expression: &Expression<'_>,
    clocks: &BTreeSet<&str>,
    interface: &Interface<'s>,
    place: usize,
) -> Use<'s>
    ensures { (m : pure.Module) → IsInterfaceOf interface.now m → use_of result ≡ use_at (has_name clocks.now) m (port_numbered place) (tree_of expression.now) }
{
    if !mentions(expression, clocks) {
        return Use::NoClock;
    }
    match interface.ports.order.get(place) {
        Some(port) => at_port(expression, interface, *port),
        None => Use::AsData,
    }
}

/// Adds a connection by name, if it connects something.
fn add_named<'s>(
    connection: &NamedConnection<'s>,
    clocks: &BTreeSet<&str>,
    interface: &Interface<'_>,
    list: &mut Vec<Use<'s>>,
) -> Result<(), AllocError>
    ensures { OnOk result ((m : pure.Module) → IsInterfaceOf interface.now m → uses_in list.new.items ≡ uses_in list.old.items
        ++ use_if_any (has_name clocks.now) m (port_named connection.now.name.now) (optional_tree_of connection.now.value)) }
{
    match &connection.value {
        Some(expression) => {
            list.push(use_named(expression, clocks, interface, connection.name))?;
            Ok(())
        }
        None => Ok(()),
    }
}

/// Adds connections by name.
fn add_all_named<'s>(
    connections: &[NamedConnection<'s>],
    clocks: &BTreeSet<&str>,
    interface: &Interface<'_>,
    list: &mut Vec<Use<'s>>,
) -> Result<(), AllocError>
    ensures { OnOk result ((m : pure.Module) (u : Name) → IsInterfaceOf interface.now m → uses_in list.new.items ≡ uses_in list.old.items
        ++ uses_of (has_name clocks.now) m (named_connections u (map (λ c. (c.name.now, optional_tree_of c.value)) connections.now))) }
{
    for connection in connections {
        add_named(connection, clocks, interface, list)?;
    }
    Ok(())
}

/// Adds a connection by place, if it connects something.
fn add_entry<'s>(
    entry: &Option<Expression<'_>>,
    place: usize,
    clocks: &BTreeSet<&str>,
    interface: &Interface<'s>,
    list: &mut Vec<Use<'s>>,
) -> Result<(), AllocError>
    ensures { OnOk result ((m : pure.Module) → IsInterfaceOf interface.now m → uses_in list.new.items ≡ uses_in list.old.items
        ++ use_if_any (has_name clocks.now) m (port_numbered place) (optional_tree_of entry.now)) }
{
    match entry {
        Some(expression) => {
            list.push(use_numbered(expression, clocks, interface, place))?;
            Ok(())
        }
        None => Ok(()),
    }
}

/// Adds connections by place.
fn add_all_ordered<'s>(
    entries: &[Option<Expression<'_>>],
    clocks: &BTreeSet<&str>,
    interface: &Interface<'s>,
    list: &mut Vec<Use<'s>>,
) -> Result<(), AllocError>
    ensures { OnOk result ((m : pure.Module) (u : Name) → IsInterfaceOf interface.now m → uses_in list.new.items ≡ uses_in list.old.items
        ++ uses_of (has_name clocks.now) m (ordered_connections u 0 (map optional_tree_of entries.now))) }
{
    for (place, entry) in entries.iter().enumerate() {
        add_entry(entry, place, clocks, interface, list)?;
    }
    Ok(())
}

/// Adds the connections of an instance.
pub(crate) fn add_connections<'s>(
    connections: &Connections<'s>,
    clocks: &BTreeSet<&str>,
    interface: &Interface<'s>,
    list: &mut Vec<Use<'s>>,
) -> Result<(), AllocError>
    ensures { OnOk result ((m : pure.Module) (u : Name) → IsInterfaceOf interface.now m → uses_in list.new.items ≡ uses_in list.old.items
        ++ uses_of (has_name clocks.now) m (instance_connections u (connections_of connections.now))) }
{
    match connections {
        Connections::ByName(named) => {
            add_all_named(named, clocks, interface, list)?;
            Ok(())
        }
        Connections::ByOrder(entries) => {
            add_all_ordered(entries, clocks, interface, list)?;
            Ok(())
        }
    }
}
