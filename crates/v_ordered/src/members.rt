//! The members of a module in the order of its text, each where it first stands.
ghost use Rattle.std.specs.Prelude.{◌≡◌, ◌∷◌, [], map, IfOk, OnOk};
ghost use Rattle.verilog_meaning.specs.Hierarchy.{header_ports};
ghost use Rattle.verilog_registers.specs.Order as order;
ghost use Rattle.verilog_registers.specs.Order.{members_in};
ghost use Rattle.v_hier.specs.Tables.{has_name};
ghost use Rattle.v_syntax.specs.Source.{port_of, ports_of, item_of, module_of};
ghost use Rattle.v_ordered.specs.Membership.{member_of, Adds, nets_named, instances_named, port_nets, header_nets, item_nets, all_item_nets};

use crate::member::Member;
use crate::variables::{no_names, variables_of};
use std::alloc::{AllocError, Global};
use std::collections::BTreeSet;
use v_syntax::module::{Instance, Item, Module, PortDeclaration, Ports, Variable, Wire};

/// Members so far, and which names are among them.
#[derive(Drop)]
pub(crate) struct Members<'s> {
    pub(crate) list: Vec<Member<'s>>,
    pub(crate) nets: BTreeSet<&'s str>,
    pub(crate) instances: BTreeSet<&'s str>,
}

/// Adds a net or variable, unless it is there already.
fn add_net<'s>(name: &'s str, members: &mut Members<'s>) -> Result<(), AllocError>
    ensures { OnOk result (Adds members.old (order.net name.now ∷ []) members.new) }
{
    if members.nets.contains(name) {
        return Ok(());
    }
    members.nets.insert(name)?;
    members.list.push(Member::Net(name))?;
    Ok(())
}

/// Adds an instance, unless it is there already.
fn add_instance<'s>(name: &'s str, members: &mut Members<'s>) -> Result<(), AllocError>
    ensures { OnOk result (Adds members.old (order.instance name.now ∷ []) members.new) }
{
    if members.instances.contains(name) {
        return Ok(());
    }
    members.instances.insert(name)?;
    members.list.push(Member::Instance(name))?;
    Ok(())
}

/// Adds a port, unless it is declared as a variable besides.
fn add_port<'s>(
    name: &'s str,
    variables: &BTreeSet<&str>,
    members: &mut Members<'s>,
) -> Result<(), AllocError>
    ensures { OnOk result (Adds members.old (port_nets (has_name variables.now) (name.now ∷ [])) members.new) }
{
    if variables.contains(name) {
        return Ok(());
    }
    add_net(name, members)
}

/// Adds ports that are not declared as variables besides.
fn add_ports<'s>(
    names: &[&'s str],
    variables: &BTreeSet<&str>,
    members: &mut Members<'s>,
) -> Result<(), AllocError>
    ensures { OnOk result (Adds members.old (port_nets (has_name variables.now) (map (λ n. n.now) names.now)) members.new) }
{
    for name in names {
        add_port(*name, variables, members)?;
    }
    Ok(())
}

/// Adds the ports of a header.
fn add_header<'s>(
    ports: &[PortDeclaration<'s>],
    variables: &BTreeSet<&str>,
    members: &mut Members<'s>,
) -> Result<(), AllocError>
    ensures { OnOk result (Adds members.old (header_nets (has_name variables.now) (map port_of ports.now)) members.new) }
{
    for port in ports {
        add_ports(&port.names, variables, members)?;
    }
    Ok(())
}

/// Adds nets.
fn add_wires<'s>(wires: &[Wire<'s>], members: &mut Members<'s>) -> Result<(), AllocError>
    ensures { OnOk result (Adds members.old (nets_named (map (λ w. w.name.now) wires.now)) members.new) }
{
    for wire in wires {
        add_net(wire.name, members)?;
    }
    Ok(())
}

/// Adds variables.
fn add_variables<'s>(
    variables: &[Variable<'s>],
    members: &mut Members<'s>,
) -> Result<(), AllocError>
    ensures { OnOk result (Adds members.old (nets_named (map (λ v. v.name.now) variables.now)) members.new) }
{
    for variable in variables {
        add_net(variable.name, members)?;
    }
    Ok(())
}

/// Adds instances.
fn add_instances<'s>(
    instances: &[Instance<'s>],
    members: &mut Members<'s>,
) -> Result<(), AllocError>
    ensures { OnOk result (Adds members.old (instances_named (map (λ i. i.name.now) instances.now)) members.new) }
{
    for each in instances {
        add_instance(each.name, members)?;
    }
    Ok(())
}

/// Adds what an item declares, parameters aside.
fn add_item<'s>(
    item: &Item<'s>,
    variables: &BTreeSet<&str>,
    members: &mut Members<'s>,
) -> Result<(), AllocError>
    ensures { OnOk result (Adds members.old (item_nets (has_name variables.now) (item_of item.now)) members.new) }
{
    match item {
        Item::Port(port) => add_ports(&port.names, variables, members),
        Item::Wires(_, _, wires) => add_wires(wires, members),
        Item::Variables(_, _, variables) => add_variables(variables, members),
        Item::Instances(_, _, instances) => add_instances(instances, members),
        Item::Parameter(_) => Ok(()),
        Item::Assign(_) => Ok(()),
        Item::Always(_, _) => Ok(()),
    }
}

/// Adds what items declare, parameters aside.
fn add_items<'s>(
    items: &[Item<'s>],
    variables: &BTreeSet<&str>,
    members: &mut Members<'s>,
) -> Result<(), AllocError>
    ensures { OnOk result (Adds members.old (all_item_nets (has_name variables.now) (map item_of items.now)) members.new) }
{
    for item in items {
        add_item(item, variables, members)?;
    }
    Ok(())
}

/// Adds the ports that a module's list of ports declares.
fn add_list<'s>(
    ports: &Ports<'s>,
    variables: &BTreeSet<&str>,
    members: &mut Members<'s>,
) -> Result<(), AllocError>
    ensures { OnOk result (Adds members.old (header_nets (has_name variables.now) (header_ports (ports_of ports.now))) members.new) }
{
    match ports {
        Ports::NoPorts => Ok(()),
        Ports::Listed(_) => Ok(()),
        Ports::Declared(ports) => add_header(ports, variables, members),
    }
}

/// The members of a module: those of its header, and then those of its items, in the order of the text.
pub(crate) fn members_of<'s>(
    alloc: Global,
    within: &Module<'s>,
) -> Result<Vec<Member<'s>>, AllocError>
    ensures { IfOk result (λ v. map member_of v.items ≡ members_in (module_of within.now)) }
{
    let variables = variables_of(alloc, &within.items)?;
    let mut members = Members {
        list: Vec::new(alloc),
        nets: no_names(alloc),
        instances: no_names(alloc),
    };
    add_list(&within.ports, &variables, &mut members)?;
    add_items(&within.items, &variables, &mut members)?;
    Ok(members.list)
}
