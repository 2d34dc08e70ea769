//! The outputs of a module in the order of its ports.

ghost use Rattle.std.specs.Prelude.{◌≡◌, ◌++◌, ◌∷◌, [], map, string_bytes, IfOk, OnOk};
ghost use Rattle.verilog_meaning.specs.Expression.{Scope};
ghost use Rattle.verilog_meaning.specs.Settled.{declared_ports, header_names, names_of};
ghost use Rattle.verilog_registers.specs.Outputs.{outputs_of};
ghost use Rattle.v_syntax.specs.Source.{module_of, port_of, ports_of};
ghost use Rattle.v_ports.specs.Ports.{IsScopeIn};
ghost use Rattle.v_elab.specs.Names.{is_output_of, chosen};

use crate::NoMemory;
use crate::naming::add_names;
use std::alloc::Global;
use v_scopes::ModuleScope;
use v_syntax::module::{Direction, Module, PortDeclaration, Ports};

/// Adds the names of declarations of ports.
fn add_declared<'s>(ports: &[PortDeclaration<'s>], order: &mut Vec<&'s str>) -> Result<(), NoMemory>
    ensures { OnOk result (map (λ n. n.now) order.new.items ≡ map (λ n. n.now) order.old.items ++ names_of (declared_ports (map port_of ports.now))) }
{
    for port in ports {
        add_names(&port.names, order)?;
    }
    Ok(())
}

/// The ports in the order of the module's list.
fn order_of<'s>(alloc: Global, ports: &Ports<'s>) -> Result<Vec<&'s str>, NoMemory>
    ensures { IfOk result (λ v. map (λ n. n.now) v.items ≡ header_names (ports_of ports.now)) }
{
    let mut order = Vec::new(alloc);
    match ports {
        Ports::NoPorts => {}
        Ports::Listed(names) => add_names(names, &mut order)?,
        Ports::Declared(declared) => add_declared(declared, &mut order)?,
    }
    Ok(order)
}

/// Whether a name is declared as an output.
fn is_output(names: &ModuleScope<'_>, name: &str) -> bool
    ensures { result ≡ is_output_of names.now name.now }
{
    match names.find(name) {
        Some(declared) => match declared.direction {
            Some(Direction::Input) => false,
            Some(Direction::Output) => true,
            None => false,
        },
        None => false,
    }
}

/// Adds a name, if it is that of an output.
fn add_output(
    alloc: Global,
    names: &ModuleScope<'_>,
    name: &str,
    found: &mut Vec<String>,
) -> Result<(), NoMemory>
    ensures { OnOk result (map string_bytes found.new.items ≡ map string_bytes found.old.items ++ chosen (is_output_of names.now) (name.now ∷ [])) }
{
    if is_output(names, name) {
        let text = String::from_str(alloc, name)?;
        found.push(text)?;
    }
    Ok(())
}

/// The outputs among names, in their order.
fn outputs_among(
    alloc: Global,
    names: &ModuleScope<'_>,
    list: &[&str],
) -> Result<Vec<String>, NoMemory>
    ensures { IfOk result (λ v. map string_bytes v.items ≡ chosen (is_output_of names.now) (map (λ n. n.now) list.now)) }
{
    let mut found = Vec::new(alloc);
    for name in list {
        add_output(alloc, names, *name, &mut found)?;
    }
    Ok(found)
}

/// The outputs of a module, in the order of its ports.
pub(crate) fn outputs_of(
    alloc: Global,
    within: &Module<'_>,
    names: &ModuleScope<'_>,
) -> Result<Vec<String>, NoMemory>
    requires { (s : Scope) × IsScopeIn s names.now (module_of within.now) }
    ensures { IfOk result (λ v. map string_bytes v.items ≡ outputs_of (module_of within.now)) }
{
    let order = order_of(alloc, &within.ports)?;
    let found = outputs_among(alloc, names, &order)?;
    Ok(found)
}
