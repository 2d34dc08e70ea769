//! Modules, laid out.

use crate::connections::{Side, add_connections};
use crate::expressions::{Way, add_assignment, add_expression, end_assignment};
use crate::kind::RuleKind;
use crate::layout::Layout;
use crate::piece::{Site, What};
use crate::rules::{Stance, outer};
use crate::scopes::Scopes;
use crate::statements::add_statement;
use v_blocks::is_clocked;
use v_instances::interface::Interfaces;
use v_scopes::{Bounds, Constants, bounds_of};
use v_syntax::module::{
    Assignment, EdgeKind, Event, Events, Instance, Item, Module, ParameterDeclaration,
    PortDeclaration, Ports, Range, Variable, Wire,
};
use v_syntax::tree::Statement;

/// Adds a range of a declaration, if there is one.
fn add_range<'s>(range: &Option<Box<Range<'s>>>, scopes: Scopes<'_, 's>, out: &mut Layout<'s>) {
    if let Some(range) = range {
        let bound = outer(Site::Declaration, true).with(Stance::Bound);
        add_expression(&range.left, scopes, bound, out);
        add_expression(&range.right, scopes, bound, out);
    }
}

fn add_port<'s>(
    port: &PortDeclaration<'s>,
    scopes: Scopes<'_, 's>,
    is_listed: bool,
    out: &mut Layout<'s>,
) {
    add_range(&port.range, scopes, out);
    for name in &port.names {
        out.port(scopes, *name, port.direction, port.kind, is_listed);
    }
}

fn add_ports<'s>(ports: &[PortDeclaration<'s>], scopes: Scopes<'_, 's>, out: &mut Layout<'s>) {
    for port in ports {
        add_port(port, scopes, true, out);
    }
}

fn add_header<'s>(ports: &Ports<'s>, scopes: Scopes<'_, 's>, out: &mut Layout<'s>) {
    match ports {
        Ports::NoPorts => {}
        Ports::Listed(names) => {
            for name in names {
                out.list(scopes, *name);
            }
        }
        Ports::Declared(list) => add_ports(list, scopes, out),
    }
}

/// Whether a range has more than 128 bits.
fn is_wide(range: &Option<Box<Range<'_>>>, scopes: Scopes<'_, '_>) -> bool {
    let scope = scopes.names.scope;
    let constants = Constants { scope };
    match bounds_of(range, constants) {
        Bounds::Known(left, right) => left.max(right) - left.min(right) > 127,
        _ => false,
    }
}

/// Adds a declaration of parameters: each may be used from the end of its own value on.
fn add_parameter<'s>(
    declaration: &ParameterDeclaration<'s>,
    scopes: Scopes<'_, 's>,
    out: &mut Layout<'s>,
) {
    add_range(&declaration.range, scopes, out);
    let is_wide = is_wide(&declaration.range, scopes);
    for value in &declaration.values {
        out.tell(RuleKind::WidthOver128, is_wide);
        let number = out.number(scopes, value.name);
        out.stand(number, 3);
        out.pass();
        add_expression(&value.value, scopes, outer(Site::Declaration, true), out);
        out.know(number);
    }
}

fn add_parameters<'s>(
    declarations: &[ParameterDeclaration<'s>],
    scopes: Scopes<'_, 's>,
    out: &mut Layout<'s>,
) {
    for declaration in declarations {
        add_parameter(declaration, scopes, out);
    }
}

fn add_wires<'s>(wires: &[Wire<'s>], scopes: Scopes<'_, 's>, out: &mut Layout<'s>) {
    for wire in wires {
        let from = out.pieces.len();
        if wire.value.is_some() {
            let number = out.number(scopes, wire.name);
            let is_clock = out.known_of(number).is_clock;
            out.tell(RuleKind::ClockAsData, is_clock);
            out.add(What::Written, number, u128::MAX, true, Site::Link);
        }
        out.declare(scopes, wire.name, 2);
        if let Some(value) = &wire.value {
            add_expression(value, scopes, outer(Site::Link, false), out);
            end_assignment(value, scopes, Site::Link, out);
            out.end_driver(from, Site::Link);
        }
    }
}

fn add_variables<'s>(variables: &[Variable<'s>], scopes: Scopes<'_, 's>, out: &mut Layout<'s>) {
    for variable in variables {
        let token = out.at.token;
        let number = out.declare(scopes, variable.name, 2);
        let is_input = out.known_of(number).is_input;
        out.tell_at(RuleKind::BadPort, is_input, token);
        add_range(&variable.addresses, scopes, out);
    }
}

fn add_assignments<'s>(
    assignments: &[Assignment<'s>],
    scopes: Scopes<'_, 's>,
    out: &mut Layout<'s>,
) {
    for assignment in assignments {
        let from = out.pieces.len();
        let at = outer(Site::Link, true);
        add_assignment(
            &assignment.target,
            &assignment.value,
            scopes,
            Way::Link,
            at,
            out,
        );
        out.end_driver(from, Site::Link);
    }
}

/// Goes past an event.
fn add_event<'s>(event: Event<'s>, scopes: Scopes<'_, 's>, site: Site, out: &mut Layout<'s>) {
    let number = out.number(scopes, event.signal);
    let info = out.known_of(number);
    out.tell(RuleKind::MemoryUse, info.is_memory);
    let bits = match event.edge {
        EdgeKind::AnyEdge => 0,
        EdgeKind::Posedge if info.is_clock => 3,
        _ => {
            if info.bits == 1 && !info.is_memory {
                2
            } else {
                0
            }
        }
    };
    out.add(What::Event, number, bits, true, site);
    out.pass();
}

/// Adds a block.
fn add_block<'s>(
    statement: &Statement<'s>,
    events: &Events<'s>,
    scopes: Scopes<'_, 's>,
    out: &mut Layout<'s>,
) {
    let site = if is_clocked(events) {
        Site::Clocked
    } else {
        Site::Combinational
    };
    let from = out.pieces.len();
    out.block = Some(from);
    if let Events::OnEvents(list) = events {
        for event in list {
            add_event(*event, scopes, site, out);
        }
    }
    add_statement(statement, scopes, outer(site, false), out);
    out.block = None;
    out.end_driver(from, site);
}

fn add_instances<'s>(
    instances: &[Instance<'s>],
    side: Side<'_, 's>,
    scopes: Scopes<'_, 's>,
    out: &mut Layout<'s>,
) {
    for instance in instances {
        let owner = out.at.token;
        let number = out.number(scopes, instance.name);
        out.stand(number, 3);
        out.pass();
        out.instances = out.instances.saturating_add(1);
        let ports = side.of_ports(owner);
        add_connections(&instance.connections, ports, scopes, out);
    }
}

/// Adds an item.
fn add_item<'s>(
    item: &Item<'s>,
    interfaces: &Interfaces<'s>,
    scopes: Scopes<'_, 's>,
    out: &mut Layout<'s>,
) {
    match item {
        Item::Port(port) => add_port(port, scopes, false, out),
        Item::Parameter(declaration) => add_parameter(declaration, scopes, out),
        Item::Wires(_, range, wires) => {
            add_range(range, scopes, out);
            add_wires(wires, scopes, out);
        }
        Item::Variables(_, range, variables) => {
            add_range(range, scopes, out);
            add_variables(variables, scopes, out);
        }
        Item::Assign(assignments) => add_assignments(assignments, scopes, out),
        Item::Always(events, statement) => add_block(statement, events, scopes, out),
        Item::Instances(name, given, instances) => {
            let below = interfaces.find(*name);
            let owner = out.at.token;
            let side = Side {
                below,
                is_port: false,
                owner,
            };
            out.of_module(*name);
            add_connections(given, side, scopes, out);
            add_instances(instances, side, scopes, out);
        }
    }
}

/// Adds a module.
pub(crate) fn add_module<'s>(
    within: &Module<'s>,
    interfaces: &Interfaces<'s>,
    scopes: Scopes<'_, 's>,
    out: &mut Layout<'s>,
) {
    out.pass();
    add_parameters(&within.parameters, scopes, out);
    add_header(&within.ports, scopes, out);
    for item in &within.items {
        add_item(item, interfaces, scopes, out);
    }
}
