//! Connections of instances that do not fit the ports and parameters of the module below.
ghost use Rattle.std.specs.Prelude.{◌≡◌, ◌∷◌, [], map, not, option_map, IfOk};
ghost use Rattle.std.specs.List.{list_any};
ghost use Rattle.verilog_trees.specs.Syntax.{Source};
ghost use Rattle.verilog_meaning.specs.Settled.{port_named, port_numbered};
ghost use Rattle.verilog_designs.specs.Names.{is_among};
ghost use Rattle.verilog_designs.specs.Ports.{connected_names, entry_count, are_bad_connections};
ghost use Rattle.verilog_designs.specs.Ports as designs;
ghost use Rattle.v_syntax.specs.Source.{direction_of, optional_tree_of, connections_of, item_of};
ghost use Rattle.v_instances.specs.Texts.{texts};
ghost use Rattle.v_instances.specs.Interface.{direction_in, interface_in, AreInterfacesOf};
ghost use Rattle.v_instances.specs.Connections.{is_output_of, repeats, are_bad_names, is_bad_at, one_bad_named, one_bad_ordered, one_bad, is_bad_to, one_bad_to, are_bad_to, is_bad_item, one_bad_item};

use crate::interface::{Interface, Interfaces};
use crate::listing::Listing;
use crate::shape::is_target;
use std::alloc::{AllocError, Global};
use std::collections::BTreeSet;
use v_syntax::module::{Connections, Direction, Instance, Item, NamedConnection};
use v_syntax::tree::Expression;

/// Whether some connection has a name that is none of the list.
fn has_other(connections: &[NamedConnection<'_>], listing: &Listing<'_>) -> bool
    ensures { result ≡ list_any (λ n. not (is_among (texts listing.now.order.items) n)) (connected_names (map (λ c. (c.name.now, optional_tree_of c.value)) connections.now)) }
{
    for connection in connections {
        if !listing.set.contains(connection.name) {
            return true;
        }
    }
    false
}

/// Whether two connections have the same name.
fn has_repeated(alloc: Global, connections: &[NamedConnection<'_>]) -> Result<bool, AllocError>
    ensures { IfOk result (λ b. b ≡ repeats (connected_names (map (λ c. (c.name.now, optional_tree_of c.value)) connections.now))) }
{
    let mut seen = BTreeSet::new(alloc);
    for connection in connections {
        if !seen.insert(connection.name)? {
            return Ok(true);
        }
    }
    Ok(false)
}

/// Whether some connection has a name that is none of the list, or two have the same name.
fn are_bad_names(
    alloc: Global,
    connections: &[NamedConnection<'_>],
    listing: &Listing<'_>,
) -> Result<bool, AllocError>
    ensures { IfOk result (λ b. b ≡ are_bad_names (texts listing.now.order.items) (connected_names (map (λ c. (c.name.now, optional_tree_of c.value)) connections.now))) }
{
    if has_other(connections, listing) {
        return Ok(true);
    }
    let repeated = has_repeated(alloc, connections)?;
    Ok(repeated)
}

/// How many entries a single one is: none, where it is empty.
fn single_count(entry: &Option<Expression<'_>>) -> usize
    ensures { result ≡ entry_count (optional_tree_of entry.now ∷ []) }
{
    match entry {
        Some(_) => 1,
        None => 0,
    }
}

/// How many entries connect something: a single empty one stands for none.
fn entry_count(entries: &[Option<Expression<'_>>]) -> usize
    ensures { result ≡ entry_count (map optional_tree_of entries.now) }
{
    match entries {
        [entry] => single_count(entry),
        _ => entries.len(),
    }
}

/// Whether connections to the names of the list have another name, have a name twice, or are too many.
fn are_bad_connections(
    alloc: Global,
    connections: &Connections<'_>,
    listing: &Listing<'_>,
) -> Result<bool, AllocError>
    ensures { IfOk result (λ b. b ≡ are_bad_connections (texts listing.now.order.items) (connections_of connections.now)) }
{
    match connections {
        Connections::ByName(named) => {
            let bad = are_bad_names(alloc, named, listing)?;
            Ok(bad)
        }
        Connections::ByOrder(entries) => Ok(listing.order.len() < entry_count(entries)),
    }
}

/// The direction of a port, where the name has one.
fn direction_under(interface: &Interface<'_>, name: &str) -> Option<Direction>
    ensures { option_map direction_of result ≡ direction_in interface.now.directions name.now }
{
    interface.directions.get(name).copied()
}

/// Whether the port of this name is an output.
pub(crate) fn is_output_named(interface: &Interface<'_>, name: &str) -> bool
    ensures { result ≡ is_output_of interface.now (port_named name.now) }
{
    matches!(direction_under(interface, name), Some(Direction::Output))
}

/// Whether the port at this place of the list is an output.
pub(crate) fn is_output_numbered(interface: &Interface<'_>, place: usize) -> bool
    ensures { result ≡ is_output_of interface.now (port_numbered place) }
{
    match interface.ports.order.get(place) {
        Some(name) => is_output_named(interface, *name),
        None => false,
    }
}

/// Whether the connection of an output is to what is no target.
fn is_bad_named(connection: &NamedConnection<'_>, interface: &Interface<'_>) -> bool
    ensures { result ≡ is_bad_at interface.now (port_named connection.now.name.now) (optional_tree_of connection.now.value) }
{
    match &connection.value {
        Some(expression) => {
            is_output_named(interface, connection.name) && !is_target(expression)
        }
        None => false,
    }
}

/// Whether the entry at this place connects an output to what is no target.
fn is_bad_numbered(entry: &Option<Expression<'_>>, interface: &Interface<'_>, place: usize) -> bool
    ensures { result ≡ is_bad_at interface.now (port_numbered place) (optional_tree_of entry.now) }
{
    match entry {
        Some(expression) => is_output_numbered(interface, place) && !is_target(expression),
        None => false,
    }
}

/// Whether some connection by name of an output is to what is no target.
fn has_bad_named(connections: &[NamedConnection<'_>], interface: &Interface<'_>) -> bool
    ensures { result ≡ one_bad_named interface.now (map (λ c. (c.name.now, optional_tree_of c.value)) connections.now) }
{
    for connection in connections {
        if is_bad_named(connection, interface) {
            return true;
        }
    }
    false
}

/// Whether some connection by place of an output is to what is no target.
fn has_bad_ordered(entries: &[Option<Expression<'_>>], interface: &Interface<'_>) -> bool
    ensures { result ≡ one_bad_ordered interface.now 0 (map optional_tree_of entries.now) }
{
    for (place, entry) in entries.iter().enumerate() {
        if is_bad_numbered(entry, interface, place) {
            return true;
        }
    }
    false
}

/// Whether some connection of an output is to what is no target.
fn has_bad_output(connections: &Connections<'_>, interface: &Interface<'_>) -> bool
    ensures { result ≡ one_bad interface.now (connections_of connections.now) }
{
    match connections {
        Connections::ByName(named) => has_bad_named(named, interface),
        Connections::ByOrder(entries) => has_bad_ordered(entries, interface),
    }
}

/// Whether the connections of an instance do not fit the ports.
fn is_badly_connected(
    alloc: Global,
    instance: &Instance<'_>,
    interface: &Interface<'_>,
) -> Result<bool, AllocError>
    ensures { IfOk result (λ b. b ≡ is_bad_to interface.now (instance.now.name.now, connections_of instance.now.connections)) }
{
    if are_bad_connections(alloc, &instance.connections, &interface.ports)? {
        return Ok(true);
    }
    Ok(has_bad_output(&instance.connections, interface))
}

/// Whether the connections of some instance do not fit the ports.
fn has_badly_connected(
    alloc: Global,
    instances: &[Instance<'_>],
    interface: &Interface<'_>,
) -> Result<bool, AllocError>
    ensures { IfOk result (λ b. b ≡ one_bad_to interface.now (map (λ i. (i.name.now, connections_of i.connections)) instances.now)) }
{
    for instance in instances {
        if is_badly_connected(alloc, instance, interface)? {
            return Ok(true);
        }
    }
    Ok(false)
}

/// Whether overrides of parameters, or connections of instances, do not fit the module of this name, if there is one.
fn are_badly_connected<'s>(
    alloc: Global,
    given: &Connections<'s>,
    instances: &[Instance<'s>],
    interfaces: &Interfaces<'_>,
    name: &str,
) -> Result<bool, AllocError>
    ensures { IfOk result (λ b. b ≡ are_bad_to (interface_in interfaces.now name.now) (connections_of given.now) (map (λ i. (i.name.now, connections_of i.connections)) instances.now)) }
{
    match interfaces.find(name) {
        Some(interface) => {
            if are_bad_connections(alloc, given, &interface.parameters)? {
                return Ok(true);
            }
            let bad = has_badly_connected(alloc, instances, interface)?;
            Ok(bad)
        }
        None => Ok(false),
    }
}

/// Whether an item is of instances that do not fit their module.
fn is_bad_item(
    alloc: Global,
    item: &Item<'_>,
    interfaces: &Interfaces<'_>,
) -> Result<bool, AllocError>
    ensures { IfOk result (λ b. b ≡ is_bad_item (interface_in interfaces.now) (item_of item.now)) }
{
    match item {
        Item::Instances(name, given, instances) => {
            let bad = are_badly_connected(alloc, given, instances, interfaces, *name)?;
            Ok(bad)
        }
        Item::Port(_) => Ok(false),
        Item::Parameter(_) => Ok(false),
        Item::Wires(_, _, _) => Ok(false),
        Item::Variables(_, _, _) => Ok(false),
        Item::Assign(_) => Ok(false),
        Item::Always(_, _) => Ok(false),
    }
}

/// Whether some item is of instances that do not fit their module.
fn has_bad_item(
    alloc: Global,
    items: &[Item<'_>],
    interfaces: &Interfaces<'_>,
) -> Result<bool, AllocError>
    ensures { IfOk result (λ b. b ≡ one_bad_item (interface_in interfaces.now) (map item_of items.now)) }
{
    for item in items {
        if is_bad_item(alloc, item, interfaces)? {
            return Ok(true);
        }
    }
    Ok(false)
}

/// Whether some instance does not fit its module: a connection or an override has a name that the module lacks or has one twice, there
/// are more of them than the module has, or an output is connected to what is no target. Instances of no module say nothing.
pub fn has_bad_instance(
    alloc: Global,
    items: &[Item<'_>],
    interfaces: &Interfaces<'_>,
) -> Result<bool, AllocError>
    ensures { (source : Source) → AreInterfacesOf interfaces.now source → IfOk result (λ b. b ≡ designs.has_bad_instance source (map item_of items.now)) }
{
    let bad = has_bad_item(alloc, items, interfaces)?;
    Ok(bad)
}
