//! The ports of a module: its list, and their declarations.
ghost use Rattle.std.specs.Prelude.{◌≡◌, ◌++◌, ℕ, List, [], not, map, option_map, is_none, is_some, IfOk, OnOk};
ghost use Rattle.std.specs.List.{list_any};
ghost use Rattle.wb_values.specs.Value.{entry_of};
ghost use Rattle.verilog_trees.specs.Syntax.{Source};
ghost use Rattle.verilog_meaning.specs.Expression.{Scope, scope_of};
ghost use Rattle.verilog_meaning.specs.Hierarchy.{Placed, declarations};
ghost use Rattle.verilog_meaning.specs.Settled.{declared_ports, header_names, names_of, port_directions, port_order};
ghost use Rattle.verilog_designs.specs.Names.{is_among};
ghost use Rattle.verilog_designs.specs.Ports.{lacks_direction, lacks_port, has_reg_input, has_bad_port as is_bad_port};
ghost use Rattle.v_syntax.specs.Source.{direction_of, module_of, port_of, ports_of};
ghost use Rattle.v_hier.specs.Tables.{has_name};
ghost use Rattle.v_scopes.specs.Rows.{row_of, rows_of};
ghost use Rattle.v_scopes.specs.Scopes.{declared_in};
ghost use Rattle.v_instances.specs.Interface.{AreInterfacesOf};
ghost use Rattle.v_ports.specs.Ports.{IsScopeIn, ports_are_bad, direction_in, is_reg_input_row, some_port_is};

use crate::ranges::has_unequal_ranges;
use std::alloc::{AllocError, Global};
use std::collections::BTreeSet;
use v_instances::has_bad_instance;
use v_instances::interface::Interfaces;
use v_scopes::{Declared, ModuleScope};
use v_syntax::module::{Direction, Module, NetKind, PortDeclaration, Ports};

/// Whether a name is declared as a port.
pub(crate) fn is_port(names: &ModuleScope<'_>, name: &str) -> bool
    ensures { result ≡ is_some (direction_in (declared_in names.now name.now)) }
{
    match names.find(name) {
        Some(declared) => declared.direction.is_some(),
        None => false,
    }
}

/// Whether a name is declared as an input and as a variable.
fn is_reg_input(names: &ModuleScope<'_>, name: &str) -> bool
    ensures { result ≡ is_reg_input_row (declared_in names.now name.now) }
{
    match names.find(name) {
        Some(declared) => {
            declared.direction == Some(Direction::Input) && declared.kind == Some(NetKind::Reg)
        }
        None => false,
    }
}

/// Adds names.
fn add_names<'s>(names: &[&'s str], order: &mut Vec<&'s str>) -> Result<(), AllocError>
    ensures { OnOk result (map (λ n. n.now) order.new.items ≡ map (λ n. n.now) order.old.items ++ map (λ n. n.now) names.now) }
{
    for name in names {
        order.push(*name)?;
    }
    Ok(())
}

/// Adds the names of declarations of ports.
fn add_declared<'s>(
    ports: &[PortDeclaration<'s>],
    order: &mut Vec<&'s str>,
) -> Result<(), AllocError>
    ensures { OnOk result (map (λ n. n.now) order.new.items ≡ map (λ n. n.now) order.old.items ++ names_of (declared_ports (map port_of ports.now))) }
{
    for port in ports {
        add_names(&port.names, order)?;
    }
    Ok(())
}

/// The ports in the order of the module's list.
fn order_of<'s>(alloc: Global, ports: &Ports<'s>) -> Result<Vec<&'s str>, AllocError>
    ensures { IfOk result (λ v. map (λ n. n.now) v.items ≡ header_names (ports_of ports.now)) }
{
    let mut order = Vec::new(alloc);
    match ports {
        Ports::NoPorts => {}
        Ports::Listed(names) => add_names(names, &mut order)?,
        Ports::Declared(declared) => add_declared(declared, &mut order)?,
    }
    Ok(order)
}

/// The names as a set.
fn set_of<'s>(alloc: Global, names: &[&'s str]) -> Result<BTreeSet<&'s str>, AllocError>
    ensures { IfOk result (λ s. (q : List ℕ) → has_name s q ≡ is_among (map (λ n. n.now) names.now) q) }
{
    let mut set = BTreeSet::new(alloc);
    for name in names {
        set.insert(*name)?;
    }
    Ok(set)
}

/// Whether some name of the list has no direction.
fn lacks_direction(names: &ModuleScope<'_>, order: &[&str]) -> bool
    ensures { result ≡ list_any (λ n. not (is_some (direction_in (declared_in names.now n)))) (map (λ n. n.now) order.now) }
{
    for name in order {
        if !is_port(names, name) {
            return true;
        }
    }
    false
}

/// Whether some name of the list is declared as an input and as a variable.
fn has_reg_input(names: &ModuleScope<'_>, order: &[&str]) -> bool
    ensures { result ≡ list_any (λ n. is_reg_input_row (declared_in names.now n)) (map (λ n. n.now) order.now) }
{
    for name in order {
        if is_reg_input(names, name) {
            return true;
        }
    }
    false
}

/// Whether some declared port is not in the list.
fn lacks_port(declared: &[Declared<'_>], listed: &BTreeSet<&str>) -> bool
    ensures { result ≡ some_port_is (λ n. not (has_name listed.now n)) (rows_of declared.now) }
{
    for row in declared {
        if row.direction.is_some() && !listed.contains(row.name) {
            return true;
        }
    }
    false
}

/// Whether what the module declares breaks the rule on ports: a listed port has no direction, or a direction no port in the list, an
/// input is declared `reg`, or two ranges of one port are unequal. A range without a value says nothing.
fn has_bad_declaration<'s>(
    alloc: Global,
    within: &Module<'s>,
    names: &ModuleScope<'s>,
) -> Result<bool, AllocError>
    ensures { IfOk result (λ b. (s : Scope) → IsScopeIn s names.now (module_of within.now) → b ≡ ports_are_bad s (module_of within.now)) }
{
    let order = order_of(alloc, &within.ports)?;
    if lacks_direction(names, &order) {
        return Ok(true);
    }
    let listed = set_of(alloc, &order)?;
    if lacks_port(names.declarations(), &listed) {
        return Ok(true);
    }
    if has_reg_input(names, &order) {
        return Ok(true);
    }
    has_unequal_ranges(alloc, names, names.declarations())
}

/// Whether a module breaks the rule on ports, which stands in a design with some of its parameters known: in what it declares, or by an
/// instance whose connections or overrides do not fit the module below. It is said of each such module whose declarations are these.
pub fn has_bad_port<'s>(
    alloc: Global,
    within: &Module<'s>,
    names: &ModuleScope<'s>,
    interfaces: &Interfaces<'_>,
) -> Result<bool, AllocError>
    ensures { IfOk result (λ b. (source : Source) (p : Placed) → AreInterfacesOf interfaces.now source → p.of_module ≡ module_of within.now
        → IsScopeIn (scope_of p.constants) names.now (module_of within.now) → b ≡ is_bad_port source p) }
{
    if has_bad_declaration(alloc, within, names)? {
        return Ok(true);
    }
    let bad = has_bad_instance(alloc, &within.items, interfaces)?;
    Ok(bad)
}
