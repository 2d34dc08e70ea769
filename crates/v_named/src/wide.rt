//! Whether a module declares a name with a range of another number of bits than one, where each range may use the parameters that are
//! declared before it.
ghost use Rattle.std.specs.Prelude.{◌≡◌, ◌&&◌, [], Bool, map, IfOk};
ghost use Rattle.wb_values.specs.Value.{Name};
ghost use Rattle.verilog_meaning.specs.Hierarchy.{header_ports};
ghost use Rattle.verilog_designs.specs.Names.{is_among};
ghost use Rattle.verilog_designs.specs.Ports.{connected_names};
ghost use Rattle.verilog_designs.specs.Accepted.{variable_names, is_wide_clock};
ghost use Rattle.v_syntax.specs.Source.{port_of, ports_of, boxed_tree_of, optional_range_of, item_of, module_of};
ghost use Rattle.v_value.specs.Scope.{objects_of, scope_at};
ghost use Rattle.v_scopes.specs.Bounds.{bounds, is_wide};
ghost use Rattle.v_scopes.specs.Ports.{wide_port, is_wide_item};
ghost use Rattle.v_named.specs.Before.{IsBefore, wide_in};

use crate::before::{Before, none, with_header, with_item};
use crate::ports::is_named;
use std::alloc::{AllocError, Global};
use v_scopes::{Bounds, Constants, bounds_of};
use v_syntax::module::{Item, Module, PortDeclaration, Ports, Range, Variable, Wire};

/// Whether the range has another number of bits than one.
fn is_wide(bounds: Bounds) -> bool
    ensures { result ≡ is_wide bounds }
{
    match bounds {
        Bounds::Absent => false,
        Bounds::Unknown => false,
        Bounds::Known(left, right) => left != right,
    }
}

/// Whether one of the nets has the name.
fn is_wire(wires: &[Wire<'_>], name: &str) -> bool
    ensures { result ≡ is_among (connected_names (map (λ w. (w.name.now, boxed_tree_of w.value)) wires.now)) name.now }
{
    for wire in wires {
        if wire.name == name {
            return true;
        }
    }
    false
}

/// Whether one of the variables has the name.
fn is_variable(variables: &[Variable<'_>], name: &str) -> bool
    ensures { result ≡ is_among (variable_names (map (λ v. (v.name.now, optional_range_of v.addresses)) variables.now)) name.now }
{
    for variable in variables {
        if variable.name == name {
            return true;
        }
    }
    false
}

/// Whether the range has another number of bits than one.
fn is_wide_range(range: &Option<Box<Range<'_>>>, constants: Constants<'_, '_>) -> bool
    ensures { result ≡ is_wide (bounds (scope_at constants.entry.scope.now) (optional_range_of range.now)) }
{
    is_wide(bounds_of(range, constants))
}

/// Whether the declaration is of the name, with a range of another number of bits than one.
fn is_wide_port(port: &PortDeclaration<'_>, constants: Constants<'_, '_>, name: &str) -> bool
    ensures { result ≡ (is_among (port_of port.now).names name.now && is_wide (bounds (scope_at constants.entry.scope.now) (port_of port.now).range)) }
{
    is_named(&port.names, name) && is_wide_range(&port.range, constants)
}

/// Whether one of the declarations is of the name, with a range of another number of bits than one.
fn has_wide_port(ports: &[PortDeclaration<'_>], constants: Constants<'_, '_>, name: &str) -> bool
    ensures { result ≡ wide_port (scope_at constants.entry.scope.now) name.now (map port_of ports.now) }
{
    for port in ports {
        if is_wide_port(port, constants, name) {
            return true;
        }
    }
    false
}

/// Whether one of the nets has the name, and a range of another number of bits than one.
fn is_wide_wire<'s>(
    range: &Option<Box<Range<'s>>>,
    wires: &[Wire<'s>],
    constants: Constants<'_, '_>,
    name: &str,
) -> bool
    ensures { result ≡ (is_among (connected_names (map (λ w. (w.name.now, boxed_tree_of w.value)) wires.now)) name.now && is_wide (bounds (scope_at constants.entry.scope.now) (optional_range_of range.now))) }
{
    is_wire(wires, name) && is_wide_range(range, constants)
}

/// Whether one of the variables has the name, and a range of another number of bits than one.
fn is_wide_variable<'s>(
    range: &Option<Box<Range<'s>>>,
    variables: &[Variable<'s>],
    constants: Constants<'_, '_>,
    name: &str,
) -> bool
    ensures { result ≡ (is_among (variable_names (map (λ v. (v.name.now, optional_range_of v.addresses)) variables.now)) name.now && is_wide (bounds (scope_at constants.entry.scope.now) (optional_range_of range.now))) }
{
    is_variable(variables, name) && is_wide_range(range, constants)
}

/// Whether the item declares the name with a range of another number of bits than one.
fn is_wide_item(item: &Item<'_>, constants: Constants<'_, '_>, name: &str) -> bool
    ensures { result ≡ is_wide_item (scope_at constants.entry.scope.now) name.now (item_of item.now) }
{
    match item {
        Item::Port(port) => is_wide_port(port, constants, name),
        Item::Wires(_, range, wires) => is_wide_wire(range, wires, constants, name),
        Item::Variables(_, range, variables) => is_wide_variable(range, variables, constants, name),
        Item::Parameter(_) => false,
        Item::Assign(_) => false,
        Item::Always(_, _) => false,
        Item::Instances(_, _, _) => false,
    }
}

/// Whether the list of ports declares the name with a range of another number of bits than one.
fn is_wide_header(ports: &Ports<'_>, constants: Constants<'_, '_>, name: &str) -> bool
    ensures { result ≡ wide_port (scope_at constants.entry.scope.now) name.now (header_ports (ports_of ports.now)) }
{
    match ports {
        Ports::NoPorts => false,
        Ports::Listed(_) => false,
        Ports::Declared(ports) => has_wide_port(ports, constants, name),
    }
}

/// Whether one of the items declares the name with a range of another number of bits than one.
fn has_wide_item<'s>(
    items: &[Item<'s>],
    before: Before<'s>,
    constants: Constants<'_, '_>,
    name: &str,
) -> Result<bool, AllocError>
    ensures { IfOk result (λ w. (b : Name → Bool) → IsBefore (objects_of before.entry.scope.declarations.items) (scope_at constants.entry.scope.now) b
        → w ≡ wide_in (scope_at constants.entry.scope.now) b name.now (map item_of items.now)) }
{
    let mut known = before;
    for item in items {
        let around = Constants {
            scope: &known.scope,
        };
        if is_wide_item(item, around, name) {
            return Ok(true);
        }
        known = with_item(item, known, constants)?;
    }
    Ok(false)
}

/// Whether the module, whose constants are these, declares the name with a range of another number of bits than one.
pub(crate) fn is_wide_name(
    within: &Module<'_>,
    constants: Constants<'_, '_>,
    name: &str,
    alloc: Global,
) -> Result<bool, AllocError>
    ensures { IfOk result (λ w. w ≡ is_wide_clock (record { path = []; of_module = module_of within.now; constants = objects_of constants.entry.scope.now.declarations.items }) name.now) }
{
    let before = with_header(&within.parameters, none(alloc), constants)?;
    let around = Constants {
        scope: &before.scope,
    };
    if is_wide_header(&within.ports, around, name) {
        return Ok(true);
    }
    let wide = has_wide_item(&within.items, before, constants, name)?;
    Ok(wide)
}
