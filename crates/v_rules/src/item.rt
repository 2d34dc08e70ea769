//! The rules that the items of a module break.
ghost use Rattle.std.specs.Prelude.{◌≡◌, map};
ghost use Rattle.verilog_meaning.specs.Hierarchy.{header_ports};
ghost use Rattle.v_value.specs.Scope.{scope_at};
ghost use Rattle.v_syntax.specs.Tree.{tree_of, target_of};
ghost use Rattle.v_syntax.specs.Source.{boxed_tree_of, optional_range_of, port_of, ports_of, events_of, edge_of, item_of};
ghost use Rattle.v_size.specs.Rule.{both};
ghost use Rattle.v_rules.specs.Judging.{none, broken_at};
ghost use Rattle.v_rules.specs.Targets.{net_target_at};
ghost use Rattle.v_rules.specs.Items.{ports_from, optional_at, wires_from, variables_from, assignments_from, event_at, event_list_from, events_at, module_item_at, module_items_from};
ghost use Rattle.verilog_designs.specs.Expressions as designs;

use crate::expression::{broken_expression, broken_range};
use crate::statement::broken_statement;
use crate::target::{broken_net_target, is_memory, memory_if};
use v_size::{Broken, Names, Position, also, nothing};
use v_statement::register::is_clocked;
use v_syntax::module::{Assignment, Event, Events, Item, PortDeclaration, Ports, Variable, Wire};
use v_syntax::tree::{Expression, Target};

/// The rules that the ranges of ports break.
fn broken_ports(ports: &[PortDeclaration<'_>], names: Names<'_, '_>) -> Broken
    ensures { result ≡ ports_from (scope_at names.entry.scope.now) none (map port_of ports.now) }
{
    let mut all = nothing();
    for port in ports {
        all = also(all, broken_range(&port.range, names));
    }
    all
}

/// The rules that the list of ports breaks.
pub(crate) fn broken_header(ports: &Ports<'_>, names: Names<'_, '_>) -> Broken
    ensures { result ≡ ports_from (scope_at names.entry.scope.now) none (header_ports (ports_of ports.now)) }
{
    match ports {
        Ports::NoPorts => nothing(),
        Ports::Listed(_) => nothing(),
        Ports::Declared(list) => broken_ports(list, names),
    }
}

/// The rules that the value of a net breaks, if it has one.
fn broken_initial(value: &Option<Box<Expression<'_>>>, names: Names<'_, '_>) -> Broken
    ensures { result ≡ optional_at (scope_at names.entry.scope.now) (boxed_tree_of value.now) }
{
    match value {
        Some(expression) => broken_expression(expression, names),
        None => nothing(),
    }
}

/// The rules that the values of nets break.
fn broken_wires(wires: &[Wire<'_>], names: Names<'_, '_>) -> Broken
    ensures { result ≡ wires_from (scope_at names.entry.scope.now) none (map (λ w. (w.name.now, boxed_tree_of w.value)) wires.now) }
{
    let mut all = nothing();
    for wire in wires {
        all = also(all, broken_initial(&wire.value, names));
    }
    all
}

/// The rules that the addresses of memories break.
fn broken_variables(variables: &[Variable<'_>], names: Names<'_, '_>) -> Broken
    ensures { result ≡ variables_from (scope_at names.entry.scope.now) none (map (λ v. (v.name.now, optional_range_of v.addresses)) variables.now) }
{
    let mut all = nothing();
    for variable in variables {
        all = also(all, broken_range(&variable.addresses, names));
    }
    all
}

/// The rules that a continuous assignment breaks: the indexes of its target are constants.
fn broken_assignment<'s>(
    target: &Target<'s>,
    value: &Expression<'s>,
    names: Names<'_, '_>,
) -> Broken
    ensures { result ≡ both (net_target_at (scope_at names.entry.scope.now) designs.by_constants (target_of target.now)) (broken_at (scope_at names.entry.scope.now) (tree_of value.now)) }
{
    also(
        broken_net_target(target, names, Position::Constant(None, false)),
        broken_expression(value, names),
    )
}

/// The rules that continuous assignments break.
fn broken_assignments(assignments: &[Assignment<'_>], names: Names<'_, '_>) -> Broken
    ensures { result ≡ assignments_from (scope_at names.entry.scope.now) none (map (λ a. (target_of a.target, tree_of a.value)) assignments.now) }
{
    let mut all = nothing();
    for assignment in assignments {
        all = also(
            all,
            broken_assignment(&assignment.target, &assignment.value, names),
        );
    }
    all
}

/// The rules that a name in a list of events breaks.
fn broken_event(names: Names<'_, '_>, signal: &str) -> Broken
    ensures { result ≡ event_at (scope_at names.entry.scope.now) signal.now }
{
    memory_if(is_memory(names.scope.object(signal)))
}

/// The rules that a list of events breaks.
fn broken_event_list(names: Names<'_, '_>, events: &[Event<'_>]) -> Broken
    ensures { result ≡ event_list_from (scope_at names.entry.scope.now) none (map (λ e. record { edge = edge_of e.edge; signal = e.signal.now }) events.now) }
{
    let mut all = nothing();
    for event in events {
        all = also(all, broken_event(names, event.signal));
    }
    all
}

/// The rules that the events of a block break.
fn broken_events(names: Names<'_, '_>, events: &Events<'_>) -> Broken
    ensures { result ≡ events_at (scope_at names.entry.scope.now) (events_of events.now) }
{
    match events {
        Events::AnyChange => nothing(),
        Events::OnEvents(list) => broken_event_list(names, list),
    }
}

/// The rules that an item breaks. Of parameters and instances nothing is said.
fn broken_item(item: &Item<'_>, names: Names<'_, '_>) -> Broken
    ensures { result ≡ module_item_at (scope_at names.entry.scope.now) (item_of item.now) }
{
    match item {
        Item::Port(port) => broken_range(&port.range, names),
        Item::Parameter(_) => nothing(),
        Item::Wires(_, range, wires) => also(
            broken_range(range, names),
            broken_wires(wires, names),
        ),
        Item::Variables(_, range, variables) => also(
            broken_range(range, names),
            broken_variables(variables, names),
        ),
        Item::Assign(assignments) => broken_assignments(assignments, names),
        Item::Always(events, statement) => also(
            broken_events(names, events),
            broken_statement(statement, names, is_clocked(events)),
        ),
        Item::Instances(_, _, _) => nothing(),
    }
}

/// The rules that the items of a module break.
pub(crate) fn broken_items(items: &[Item<'_>], names: Names<'_, '_>) -> Broken
    ensures { result ≡ module_items_from (scope_at names.entry.scope.now) none (map item_of items.now) }
{
    let mut all = nothing();
    for item in items {
        all = also(all, broken_item(item, names));
    }
    all
}
