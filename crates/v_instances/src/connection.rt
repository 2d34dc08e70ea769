//! The rules that overrides of parameters and connections of ports break.
ghost use Rattle.std.specs.Prelude.{◌≡◌, map, option_map};
ghost use Rattle.verilog_meaning.specs.Settled.{port_named, port_numbered};
ghost use Rattle.v_value.specs.Scope.{scope_at};
ghost use Rattle.v_syntax.specs.Tree.{tree_of};
ghost use Rattle.v_syntax.specs.Source.{optional_tree_of, connections_of, item_of};
ghost use Rattle.v_instances.specs.Interface.{interface_in};
ghost use Rattle.v_instances.specs.Outputs.{none};
ghost use Rattle.v_instances.specs.Connected.{is_output_to, connected_at, connection_at, named_from, ordered_from, connections_at, instances_from, override_at, named_values_from, ordered_values_from, overrides_at, instance_item_at, instance_items_from};

use crate::interface::{Interface, Interfaces};
use crate::output::{broken_constant, broken_expression, broken_output};
use crate::ports::{is_output_named, is_output_numbered};
use v_size::{Broken, Names, also, nothing};
use v_syntax::module::{Connections, Instance, Item, NamedConnection};
use v_syntax::tree::Expression;

/// Whether the port of this name of the module below, if there is one, is an output.
fn is_named_output(below: Option<&Interface<'_>>, name: &str) -> bool
    ensures { result ≡ is_output_to (option_map (λ i. i.now) below.entry) (port_named name.now) }
{
    match below {
        Some(interface) => is_output_named(interface, name),
        None => false,
    }
}

/// Whether the port at this place of the module below, if there is one, is an output.
fn is_numbered_output(below: Option<&Interface<'_>>, place: usize) -> bool
    ensures { result ≡ is_output_to (option_map (λ i. i.now) below.entry) (port_numbered place) }
{
    match below {
        Some(interface) => is_output_numbered(interface, place),
        None => false,
    }
}

/// The rules that what is connected to a port breaks.
fn broken_connected(expression: &Expression<'_>, names: Names<'_, '_>, is_output: bool) -> Broken
    ensures { result ≡ connected_at (scope_at names.entry.scope.now) is_output (tree_of expression.now) }
{
    if is_output {
        return broken_output(expression, names);
    }
    broken_expression(expression, names)
}

/// The rules that a connection by name breaks, if it connects something.
fn broken_named(
    connection: &NamedConnection<'_>,
    names: Names<'_, '_>,
    below: Option<&Interface<'_>>,
) -> Broken
    ensures { result ≡ connection_at (scope_at names.entry.scope.now) (option_map (λ i. i.now) below.entry) (port_named connection.now.name.now) (optional_tree_of connection.now.value) }
{
    match &connection.value {
        Some(expression) => {
            let is_output = is_named_output(below, connection.name);
            broken_connected(expression, names, is_output)
        }
        None => nothing(),
    }
}

/// The rules that a connection by place breaks, if it connects something.
fn broken_numbered(
    entry: &Option<Expression<'_>>,
    names: Names<'_, '_>,
    below: Option<&Interface<'_>>,
    place: usize,
) -> Broken
    ensures { result ≡ connection_at (scope_at names.entry.scope.now) (option_map (λ i. i.now) below.entry) (port_numbered place) (optional_tree_of entry.now) }
{
    match entry {
        Some(expression) => {
            let is_output = is_numbered_output(below, place);
            broken_connected(expression, names, is_output)
        }
        None => nothing(),
    }
}

/// The rules that connections by name break.
fn broken_by_name(
    connections: &[NamedConnection<'_>],
    names: Names<'_, '_>,
    below: Option<&Interface<'_>>,
) -> Broken
    ensures { result ≡ named_from (scope_at names.entry.scope.now) (option_map (λ i. i.now) below.entry) none (map (λ c. (c.name.now, optional_tree_of c.value)) connections.now) }
{
    let mut all = nothing();
    for connection in connections {
        all = also(all, broken_named(connection, names, below));
    }
    all
}

/// The rules that connections by place break.
fn broken_by_order(
    entries: &[Option<Expression<'_>>],
    names: Names<'_, '_>,
    below: Option<&Interface<'_>>,
) -> Broken
    ensures { result ≡ ordered_from (scope_at names.entry.scope.now) (option_map (λ i. i.now) below.entry) 0 none (map optional_tree_of entries.now) }
{
    let mut all = nothing();
    for (place, entry) in entries.iter().enumerate() {
        all = also(all, broken_numbered(entry, names, below, place));
    }
    all
}

/// The rules that the connections of an instance break.
fn broken_connections(
    connections: &Connections<'_>,
    names: Names<'_, '_>,
    below: Option<&Interface<'_>>,
) -> Broken
    ensures { result ≡ connections_at (scope_at names.entry.scope.now) (option_map (λ i. i.now) below.entry) (connections_of connections.now) }
{
    match connections {
        Connections::ByName(named) => broken_by_name(named, names, below),
        Connections::ByOrder(entries) => broken_by_order(entries, names, below),
    }
}

/// The rules that the connections of instances break.
fn broken_instances(
    instances: &[Instance<'_>],
    names: Names<'_, '_>,
    below: Option<&Interface<'_>>,
) -> Broken
    ensures { result ≡ instances_from (scope_at names.entry.scope.now) (option_map (λ i. i.now) below.entry) none (map (λ i. (i.name.now, connections_of i.connections)) instances.now) }
{
    let mut all = nothing();
    for instance in instances {
        all = also(all, broken_connections(&instance.connections, names, below));
    }
    all
}

/// The rules that the value breaks by which a parameter is overridden, if there is one.
fn broken_override(value: &Option<Expression<'_>>, names: Names<'_, '_>) -> Broken
    ensures { result ≡ override_at (scope_at names.entry.scope.now) (optional_tree_of value.now) }
{
    match value {
        Some(expression) => broken_constant(expression, names),
        None => nothing(),
    }
}

/// The rules that overrides by name break.
fn broken_named_values(given: &[NamedConnection<'_>], names: Names<'_, '_>) -> Broken
    ensures { result ≡ named_values_from (scope_at names.entry.scope.now) none (map (λ c. (c.name.now, optional_tree_of c.value)) given.now) }
{
    let mut all = nothing();
    for each in given {
        all = also(all, broken_override(&each.value, names));
    }
    all
}

/// The rules that overrides by place break.
fn broken_ordered_values(given: &[Option<Expression<'_>>], names: Names<'_, '_>) -> Broken
    ensures { result ≡ ordered_values_from (scope_at names.entry.scope.now) none (map optional_tree_of given.now) }
{
    let mut all = nothing();
    for each in given {
        all = also(all, broken_override(each, names));
    }
    all
}

/// The rules that overrides of parameters break.
fn broken_overrides(given: &Connections<'_>, names: Names<'_, '_>) -> Broken
    ensures { result ≡ overrides_at (scope_at names.entry.scope.now) (connections_of given.now) }
{
    match given {
        Connections::ByName(named) => broken_named_values(named, names),
        Connections::ByOrder(entries) => broken_ordered_values(entries, names),
    }
}

/// The rules that an item breaks by the instances that it is of. Of other items nothing is said.
fn broken_item(item: &Item<'_>, names: Names<'_, '_>, interfaces: &Interfaces<'_>) -> Broken
    ensures { result ≡ instance_item_at (scope_at names.entry.scope.now) (interface_in interfaces.now) (item_of item.now) }
{
    match item {
        Item::Instances(name, given, instances) => also(
            broken_overrides(given, names),
            broken_instances(instances, names, interfaces.find(*name)),
        ),
        Item::Port(_) => nothing(),
        Item::Parameter(_) => nothing(),
        Item::Wires(_, _, _) => nothing(),
        Item::Variables(_, _, _) => nothing(),
        Item::Assign(_) => nothing(),
        Item::Always(_, _) => nothing(),
    }
}

/// The rules that items break by the instances that they are of.
pub(crate) fn broken_by_instances(
    items: &[Item<'_>],
    names: Names<'_, '_>,
    interfaces: &Interfaces<'_>,
) -> Broken
    ensures { result ≡ instance_items_from (scope_at names.entry.scope.now) (interface_in interfaces.now) none (map item_of items.now) }
{
    let mut all = nothing();
    for item in items {
        all = also(all, broken_item(item, names, interfaces));
    }
    all
}
