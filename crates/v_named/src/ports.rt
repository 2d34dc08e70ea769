//! The input ports of a module.
ghost use Rattle.std.specs.Prelude.{◌≡◌, ◌&&◌, map, option_map};
ghost use Rattle.wb_values.specs.Choice.{first_of};
ghost use Rattle.verilog_meaning.specs.Hierarchy.{header_ports};
ghost use Rattle.verilog_designs.specs.Names.{is_among};
ghost use Rattle.verilog_designs.specs.Ports.{is_input};
ghost use Rattle.verilog_designs.specs.Accepted.{is_input_port};
ghost use Rattle.v_syntax.specs.Source.{direction_of, port_of, ports_of, item_of, module_of};
ghost use Rattle.v_scopes.specs.Ports.{is_port_of, is_listed, direction_among, port_direction, item_direction, direction_in};

use v_syntax::module::{Direction, Item, Module, PortDeclaration, Ports};

/// Whether both hold.
fn both(x: bool, y: bool) -> bool
    ensures { result ≡ (x && y) }
{
    x && y
}

/// Whether the name is one of these.
pub(crate) fn is_named(names: &[&str], name: &str) -> bool
    ensures { result ≡ is_among (map (λ n. n.now) names.now) name.now }
{
    for each in names {
        if *each == name {
            return true;
        }
    }
    false
}

/// Whether one of the declarations of ports is of the name.
fn is_port(ports: &[PortDeclaration<'_>], name: &str) -> bool
    ensures { result ≡ is_port_of name.now (map port_of ports.now) }
{
    for port in ports {
        if is_named(&port.names, name) {
            return true;
        }
    }
    false
}

/// Whether the name stands in the list of ports.
fn is_listed(ports: &Ports<'_>, name: &str) -> bool
    ensures { result ≡ is_listed name.now (ports_of ports.now) }
{
    match ports {
        Ports::NoPorts => false,
        Ports::Listed(names) => is_named(names, name),
        Ports::Declared(ports) => is_port(ports, name),
    }
}

/// The direction that declarations of ports give the name, if one is of it.
fn direction_among(ports: &[PortDeclaration<'_>], name: &str) -> Option<Direction>
    ensures { option_map direction_of result ≡ direction_among name.now (map port_of ports.now) }
{
    for port in ports {
        if is_named(&port.names, name) {
            return Some(port.direction);
        }
    }
    None
}

/// The direction that the list of ports gives the name.
fn header_direction(ports: &Ports<'_>, name: &str) -> Option<Direction>
    ensures { option_map direction_of result ≡ direction_among name.now (header_ports (ports_of ports.now)) }
{
    match ports {
        Ports::NoPorts => None,
        Ports::Listed(_) => None,
        Ports::Declared(ports) => direction_among(ports, name),
    }
}

/// The direction that a declaration of ports gives the name.
fn port_direction(port: &PortDeclaration<'_>, name: &str) -> Option<Direction>
    ensures { option_map direction_of result ≡ port_direction name.now (port_of port.now) }
{
    if is_named(&port.names, name) {
        Some(port.direction)
    } else {
        None
    }
}

/// The direction that an item gives the name.
fn item_direction(item: &Item<'_>, name: &str) -> Option<Direction>
    ensures { option_map direction_of result ≡ item_direction name.now (item_of item.now) }
{
    match item {
        Item::Port(port) => port_direction(port, name),
        Item::Wires(_, _, _) => None,
        Item::Variables(_, _, _) => None,
        Item::Parameter(_) => None,
        Item::Assign(_) => None,
        Item::Always(_, _) => None,
        Item::Instances(_, _, _) => None,
    }
}

/// The direction that items give the name.
fn direction_in(items: &[Item<'_>], name: &str) -> Option<Direction>
    ensures { option_map direction_of result ≡ direction_in name.now (map item_of items.now) }
{
    for item in items {
        if let Some(direction) = item_direction(item, name) {
            return Some(direction);
        }
    }
    None
}

/// The direction that the module gives the name.
fn direction(within: &Module<'_>, name: &str) -> Option<Direction>
    ensures { option_map direction_of result ≡ first_of (direction_among name.now (header_ports (module_of within.now).ports)) (direction_in name.now (module_of within.now).items) }
{
    match header_direction(&within.ports, name) {
        Some(direction) => Some(direction),
        None => direction_in(&within.items, name),
    }
}

/// Whether it is the direction of an input.
fn is_input(direction: Option<Direction>) -> bool
    ensures { result ≡ is_input (option_map direction_of direction) }
{
    match direction {
        Some(Direction::Input) => true,
        Some(Direction::Output) => false,
        None => false,
    }
}

/// Whether the name is an input port of the module.
pub(crate) fn is_input_port(within: &Module<'_>, name: &str) -> bool
    ensures { result ≡ is_input_port (module_of within.now) name.now }
{
    both(
        is_listed(&within.ports, name),
        is_input(direction(within, name)),
    )
}
