//! The clock of a module: an input port of one bit.
ghost use Rattle.std.specs.Prelude.{◌≡◌, ◌&&◌, ◌||◌, not, map, option_map};
ghost use Rattle.wb_values.specs.Choice.{first_of};
ghost use Rattle.verilog_meaning.specs.Hierarchy.{header_ports};
ghost use Rattle.verilog_designs.specs.Names.{is_among};
ghost use Rattle.verilog_designs.specs.Ports.{is_input, connected_names};
ghost use Rattle.verilog_designs.specs.Accepted.{variable_names, is_input_port, has_no_clock};
ghost use Rattle.v_syntax.specs.Source.{direction_of, port_of, ports_of, boxed_tree_of, optional_range_of, item_of, module_of};
ghost use Rattle.v_value.specs.Scope.{scope_at};
ghost use Rattle.v_scopes.specs.Bounds.{bounds, is_wide};
ghost use Rattle.v_scopes.specs.Ports.{is_port_of, is_listed, direction_among, port_direction, item_direction, direction_in, wide_port, is_wide_item, wide_item, alone, lacks_clock};

use crate::constant::{Constants, no_constants};
use crate::range::{bounds_of, is_wide};
use std::alloc::Global;
use v_syntax::module::{Direction, Item, Module, PortDeclaration, Ports, Range, Variable, Wire};

/// Whether both hold.
fn both(x: bool, y: bool) -> bool
    ensures { result ≡ (x && y) }
{
    x && y
}

/// Whether one of the two holds.
pub(crate) fn either(x: bool, y: bool) -> bool
    ensures { result ≡ (x || y) }
{
    x || y
}

/// Whether the name is one of these.
fn is_named(names: &[&str], name: &str) -> bool
    ensures { result ≡ is_among (map (λ n. n.now) names.now) name.now }
{
    for each in names {
        if *each == name {
            return true;
        }
    }
    false
}

/// Whether one of the nets has the name.
fn is_wire(wires: &[Wire<'_>], name: &str) -> bool
    ensures { result ≡ is_among (connected_names (map (λ w. (w.name.now, boxed_tree_of w.value)) wires.now)) name.now }
{
    for wire in wires {
        if wire.name == name {
            return true;
        }
    }
    false
}

/// Whether one of the variables has the name.
fn is_variable(variables: &[Variable<'_>], name: &str) -> bool
    ensures { result ≡ is_among (variable_names (map (λ v. (v.name.now, optional_range_of v.addresses)) variables.now)) name.now }
{
    for variable in variables {
        if variable.name == name {
            return true;
        }
    }
    false
}

/// Whether the range has another number of bits than one.
fn is_wide_range(range: &Option<Box<Range<'_>>>, constants: Constants<'_, '_>) -> bool
    ensures { result ≡ is_wide (bounds (scope_at constants.entry.scope.now) (optional_range_of range.now)) }
{
    is_wide(bounds_of(range, constants))
}

/// Whether the declaration is of the name, with a range of another number of bits than one.
fn is_wide_port(port: &PortDeclaration<'_>, constants: Constants<'_, '_>, name: &str) -> bool
    ensures { result ≡ (is_among (port_of port.now).names name.now && is_wide (bounds (scope_at constants.entry.scope.now) (port_of port.now).range)) }
{
    is_named(&port.names, name) && is_wide_range(&port.range, constants)
}

/// Whether one of the declarations is of the name, with a range of another number of bits than one.
fn has_wide_port(ports: &[PortDeclaration<'_>], constants: Constants<'_, '_>, name: &str) -> bool
    ensures { result ≡ wide_port (scope_at constants.entry.scope.now) name.now (map port_of ports.now) }
{
    for port in ports {
        if is_wide_port(port, constants, name) {
            return true;
        }
    }
    false
}

/// Whether one of the nets has the name, and a range of another number of bits than one.
fn is_wide_wire<'s>(
    range: &Option<Box<Range<'s>>>,
    wires: &[Wire<'s>],
    constants: Constants<'_, '_>,
    name: &str,
) -> bool
    ensures { result ≡ (is_among (connected_names (map (λ w. (w.name.now, boxed_tree_of w.value)) wires.now)) name.now && is_wide (bounds (scope_at constants.entry.scope.now) (optional_range_of range.now))) }
{
    is_wire(wires, name) && is_wide_range(range, constants)
}

/// Whether one of the variables has the name, and a range of another number of bits than one.
fn is_wide_variable<'s>(
    range: &Option<Box<Range<'s>>>,
    variables: &[Variable<'s>],
    constants: Constants<'_, '_>,
    name: &str,
) -> bool
    ensures { result ≡ (is_among (variable_names (map (λ v. (v.name.now, optional_range_of v.addresses)) variables.now)) name.now && is_wide (bounds (scope_at constants.entry.scope.now) (optional_range_of range.now))) }
{
    is_variable(variables, name) && is_wide_range(range, constants)
}

/// Whether the item declares the name with a range of another number of bits than one.
fn is_wide_item(item: &Item<'_>, constants: Constants<'_, '_>, name: &str) -> bool
    ensures { result ≡ is_wide_item (scope_at constants.entry.scope.now) name.now (item_of item.now) }
{
    match item {
        Item::Port(port) => is_wide_port(port, constants, name),
        Item::Wires(_, range, wires) => is_wide_wire(range, wires, constants, name),
        Item::Variables(_, range, variables) => is_wide_variable(range, variables, constants, name),
        Item::Parameter(_) => false,
        Item::Assign(_) => false,
        Item::Always(_, _) => false,
        Item::Instances(_, _, _) => false,
    }
}

/// Whether one of the items declares the name with a range of another number of bits than one.
fn has_wide_item(items: &[Item<'_>], constants: Constants<'_, '_>, name: &str) -> bool
    ensures { result ≡ wide_item (scope_at constants.entry.scope.now) name.now (map item_of items.now) }
{
    for item in items {
        if is_wide_item(item, constants, name) {
            return true;
        }
    }
    false
}

/// Whether one of the declarations of ports is of the name.
fn is_port(ports: &[PortDeclaration<'_>], name: &str) -> bool
    ensures { result ≡ is_port_of name.now (map port_of ports.now) }
{
    for port in ports {
        if is_named(&port.names, name) {
            return true;
        }
    }
    false
}

/// Whether the name stands in the list of ports.
fn is_listed(ports: &Ports<'_>, name: &str) -> bool
    ensures { result ≡ is_listed name.now (ports_of ports.now) }
{
    match ports {
        Ports::NoPorts => false,
        Ports::Listed(names) => is_named(names, name),
        Ports::Declared(ports) => is_port(ports, name),
    }
}

/// The direction that declarations of ports give the name, if one is of it.
fn direction_among(ports: &[PortDeclaration<'_>], name: &str) -> Option<Direction>
    ensures { option_map direction_of result ≡ direction_among name.now (map port_of ports.now) }
{
    for port in ports {
        if is_named(&port.names, name) {
            return Some(port.direction);
        }
    }
    None
}

/// The direction that the list of ports gives the name.
fn header_direction(ports: &Ports<'_>, name: &str) -> Option<Direction>
    ensures { option_map direction_of result ≡ direction_among name.now (header_ports (ports_of ports.now)) }
{
    match ports {
        Ports::NoPorts => None,
        Ports::Listed(_) => None,
        Ports::Declared(ports) => direction_among(ports, name),
    }
}

/// The direction that a declaration of ports gives the name.
fn port_direction(port: &PortDeclaration<'_>, name: &str) -> Option<Direction>
    ensures { option_map direction_of result ≡ port_direction name.now (port_of port.now) }
{
    if is_named(&port.names, name) {
        Some(port.direction)
    } else {
        None
    }
}

/// The direction that an item gives the name.
fn item_direction(item: &Item<'_>, name: &str) -> Option<Direction>
    ensures { option_map direction_of result ≡ item_direction name.now (item_of item.now) }
{
    match item {
        Item::Port(port) => port_direction(port, name),
        Item::Wires(_, _, _) => None,
        Item::Variables(_, _, _) => None,
        Item::Parameter(_) => None,
        Item::Assign(_) => None,
        Item::Always(_, _) => None,
        Item::Instances(_, _, _) => None,
    }
}

/// The direction that items give the name.
fn direction_in(items: &[Item<'_>], name: &str) -> Option<Direction>
    ensures { option_map direction_of result ≡ direction_in name.now (map item_of items.now) }
{
    for item in items {
        if let Some(direction) = item_direction(item, name) {
            return Some(direction);
        }
    }
    None
}

/// The direction that the module gives the name.
fn direction(within: &Module<'_>, name: &str) -> Option<Direction>
    ensures { option_map direction_of result ≡ first_of (direction_among name.now (header_ports (module_of within.now).ports)) (direction_in name.now (module_of within.now).items) }
{
    match header_direction(&within.ports, name) {
        Some(direction) => Some(direction),
        None => direction_in(&within.items, name),
    }
}

/// Whether it is the direction of an input.
fn is_input(direction: Option<Direction>) -> bool
    ensures { result ≡ is_input (option_map direction_of direction) }
{
    match direction {
        Some(Direction::Input) => true,
        Some(Direction::Output) => false,
        None => false,
    }
}

/// Whether the name is an input port of the module.
fn is_input_port(within: &Module<'_>, name: &str) -> bool
    ensures { result ≡ is_input_port (module_of within.now) name.now }
{
    both(
        is_listed(&within.ports, name),
        is_input(direction(within, name)),
    )
}

/// Whether the list of ports declares the name with a range of another number of bits than one.
fn is_wide_header(ports: &Ports<'_>, constants: Constants<'_, '_>, name: &str) -> bool
    ensures { result ≡ wide_port (scope_at constants.entry.scope.now) name.now (header_ports (ports_of ports.now)) }
{
    match ports {
        Ports::NoPorts => false,
        Ports::Listed(_) => false,
        Ports::Declared(ports) => has_wide_port(ports, constants, name),
    }
}

/// Whether the module declares the name with a range of another number of bits than one.
fn is_wide_name(within: &Module<'_>, constants: Constants<'_, '_>, name: &str) -> bool
    ensures { result ≡ (wide_port (scope_at constants.entry.scope.now) name.now (header_ports (module_of within.now).ports) || wide_item (scope_at constants.entry.scope.now) name.now (module_of within.now).items) }
{
    either(
        is_wide_header(&within.ports, constants, name),
        has_wide_item(&within.items, constants, name),
    )
}

/// Whether the module lacks an input port of this name and of one bit.
pub(crate) fn lacks_clock(alloc: Global, within: &Module<'_>, clock: &str) -> bool
    ensures { result ≡ lacks_clock (module_of within.now) clock.now }
{
    let scope = no_constants(alloc);
    let constants = Constants { scope: &scope };
    let input = is_input_port(within, clock);
    let wide = is_wide_name(within, constants, clock);
    either(!input, wide)
}

/// Whether the module, which has no parameters, has an input port of this name and of one bit. A range without a value says nothing.
#[tactic(auto, unfolding(crate::specs::Ports::lacks_clock))]
pub fn has_clock(alloc: Global, within: &Module<'_>, clock: &str) -> bool
    ensures { result ≡ not (has_no_clock (alone (module_of within.now)) clock.now) }
{
    !lacks_clock(alloc, within, clock)
}
