//! Whether each name in an item of a module may be used.
ghost use Rattle.std.specs.Prelude.{◌≡◌, map};
ghost use Rattle.verilog_meaning.specs.Hierarchy.{header_ports};
ghost use Rattle.v_syntax.specs.Tree.{tree_of, target_of};
ghost use Rattle.v_syntax.specs.Source.{optional_range_of, optional_tree_of, boxed_tree_of, port_of, ports_of, connections_of, events_of, edge_of, item_of};
ghost use Rattle.v_hier.specs.Reading.{knows, range_known, optional_known, named_known, ordered_known, addresses_known, assignments_known, connections_known, instances_known, event_list_known, events_known, ports_known, text_known};

use crate::expression::is_expression_known;
use crate::known::{Names, both, is_known};
use crate::statement::{is_statement_known, is_target_known};
use v_syntax::module::{
    Assignment, Connections, Event, Events, Instance, Item, NamedConnection, PortDeclaration,
    Ports, Range, Variable, Wire,
};
use v_syntax::tree::Expression;

/// Whether each name in the range may be used.
pub(crate) fn is_range_known(range: &Option<Box<Range<'_>>>, names: &Names<'_, '_>) -> bool
    ensures { result ≡ range_known (knows names.now) (optional_range_of range.now) }
{
    match range {
        Some(bounds) => both(
            is_expression_known(&bounds.left, names),
            is_expression_known(&bounds.right, names),
        ),
        None => true,
    }
}

/// Whether each name in the expression may be used, where there is one.
fn is_optional_known(value: &Option<Expression<'_>>, names: &Names<'_, '_>) -> bool
    ensures { result ≡ optional_known (knows names.now) (optional_tree_of value.now) }
{
    match value {
        Some(expression) => is_expression_known(expression, names),
        None => true,
    }
}

/// Whether each name in the value of a net may be used, where it has one.
fn is_boxed_known(value: &Option<Box<Expression<'_>>>, names: &Names<'_, '_>) -> bool
    ensures { result ≡ optional_known (knows names.now) (boxed_tree_of value.now) }
{
    match value {
        Some(expression) => is_expression_known(expression, names),
        None => true,
    }
}

/// Whether each name in the values of nets may be used.
fn are_wires_known(wires: &[Wire<'_>], names: &Names<'_, '_>) -> bool
    ensures { result ≡ named_known (knows names.now) (map (λ w. (w.name.now, boxed_tree_of w.value)) wires.now) }
{
    for wire in wires {
        if !is_boxed_known(&wire.value, names) {
            return false;
        }
    }
    true
}

/// Whether each name in the addresses of variables may be used.
pub(crate) fn are_variables_known(variables: &[Variable<'_>], names: &Names<'_, '_>) -> bool
    ensures { result ≡ addresses_known (knows names.now) (map (λ v. (v.name.now, optional_range_of v.addresses)) variables.now) }
{
    for variable in variables {
        if !is_range_known(&variable.addresses, names) {
            return false;
        }
    }
    true
}

/// Whether each name in continuous assignments may be used.
pub(crate) fn are_assignments_known(assignments: &[Assignment<'_>], names: &Names<'_, '_>) -> bool
    ensures { result ≡ assignments_known (knows names.now) (map (λ a. (target_of a.target, tree_of a.value)) assignments.now) }
{
    for assignment in assignments {
        if !is_target_known(&assignment.target, names)
            || !is_expression_known(&assignment.value, names)
        {
            return false;
        }
    }
    true
}

/// Whether each name in connections by name may be used.
fn are_named_known(connections: &[NamedConnection<'_>], names: &Names<'_, '_>) -> bool
    ensures { result ≡ named_known (knows names.now) (map (λ c. (c.name.now, optional_tree_of c.value)) connections.now) }
{
    for connection in connections {
        if !is_optional_known(&connection.value, names) {
            return false;
        }
    }
    true
}

/// Whether each name in connections by order may be used.
fn are_ordered_known(connections: &[Option<Expression<'_>>], names: &Names<'_, '_>) -> bool
    ensures { result ≡ ordered_known (knows names.now) (map optional_tree_of connections.now) }
{
    for connection in connections {
        if !is_optional_known(connection, names) {
            return false;
        }
    }
    true
}

/// Whether each name in the connections may be used.
pub(crate) fn are_connections_known(connections: &Connections<'_>, names: &Names<'_, '_>) -> bool
    ensures { result ≡ connections_known (knows names.now) (connections_of connections.now) }
{
    match connections {
        Connections::ByName(list) => are_named_known(list, names),
        Connections::ByOrder(list) => are_ordered_known(list, names),
    }
}

/// Whether each name in what is connected to instances may be used.
fn are_instances_known(instances: &[Instance<'_>], names: &Names<'_, '_>) -> bool
    ensures { result ≡ instances_known (knows names.now) (map (λ i. (i.name.now, connections_of i.connections)) instances.now) }
{
    for instance in instances {
        if !are_connections_known(&instance.connections, names) {
            return false;
        }
    }
    true
}

/// Whether each name in the list of events may be used.
fn is_event_list_known(events: &[Event<'_>], names: &Names<'_, '_>) -> bool
    ensures { result ≡ event_list_known (knows names.now) (map (λ e. record { edge = edge_of e.edge; signal = e.signal.now }) events.now) }
{
    for event in events {
        if !is_known(names, event.signal) {
            return false;
        }
    }
    true
}

/// Whether each name in the events may be used.
fn are_events_known(events: &Events<'_>, names: &Names<'_, '_>) -> bool
    ensures { result ≡ events_known (knows names.now) (events_of events.now) }
{
    match events {
        Events::AnyChange => true,
        Events::OnEvents(list) => is_event_list_known(list, names),
    }
}

/// Whether each name in the ranges of ports may be used.
fn are_declared_known(ports: &[PortDeclaration<'_>], names: &Names<'_, '_>) -> bool
    ensures { result ≡ ports_known (knows names.now) (map port_of ports.now) }
{
    for port in ports {
        if !is_range_known(&port.range, names) {
            return false;
        }
    }
    true
}

/// Whether each name in the list of ports may be used.
pub(crate) fn are_ports_known(ports: &Ports<'_>, names: &Names<'_, '_>) -> bool
    ensures { result ≡ ports_known (knows names.now) (header_ports (ports_of ports.now)) }
{
    match ports {
        Ports::NoPorts => true,
        Ports::Listed(_) => true,
        Ports::Declared(list) => are_declared_known(list, names),
    }
}

/// Whether each name in the item may be used. Of parameters, which declare names, nothing is said here.
pub(crate) fn is_text_known(item: &Item<'_>, names: &Names<'_, '_>) -> bool
    ensures { result ≡ text_known (knows names.now) (item_of item.now) }
{
    match item {
        Item::Port(port) => is_range_known(&port.range, names),
        Item::Parameter(_) => true,
        Item::Wires(_, range, wires) => both(
            is_range_known(range, names),
            are_wires_known(wires, names),
        ),
        Item::Variables(_, range, variables) => both(
            is_range_known(range, names),
            are_variables_known(variables, names),
        ),
        Item::Assign(assignments) => are_assignments_known(assignments, names),
        Item::Always(events, statement) => both(
            are_events_known(events, names),
            is_statement_known(statement, names),
        ),
        Item::Instances(_, given, instances) => both(
            are_connections_known(given, names),
            are_instances_known(instances, names),
        ),
    }
}
