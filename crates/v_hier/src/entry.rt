//! What a module declares, name by name: its ports, nets and variables, its parameters, its instances.
ghost use Rattle.std.specs.Prelude.{◌≡◌, ◌++◌, ◌∷◌, [], List, map, OnOk, IfOk};
ghost use Rattle.verilog_trees.specs.Syntax as pure;
ghost use Rattle.verilog_meaning.specs.Hierarchy.{value_names, all_parameters, body_parameters, declarations, item_declarations, port_declarations, header_ports};
ghost use Rattle.verilog_meaning.specs.Settled.{names_of, declared_ports, header_names};
ghost use Rattle.verilog_designs.specs.Names.{parameter_names, all_instance_names, instance_names, module_names};
ghost use Rattle.v_syntax.specs.Tree.{tree_of};
ghost use Rattle.v_syntax.specs.Source.{kind_of, port_of, ports_of, parameter_of, connections_of, optional_range_of, boxed_tree_of, item_of, module_of};
ghost use Rattle.v_hier.specs.declared.entry.Tag.TheVariants.{Net, Other};
ghost use Rattle.v_hier.specs.Entries.{entries_of, port_tag, declaration_entries, tagged};

use std::alloc::{AllocError, Global};
use v_syntax::module::{
    Instance, Item, Module, NetKind, ParameterDeclaration, ParameterValue, PortDeclaration, Ports,
    Variable, Wire,
};

/// How a name is declared.
#[derive(Clone, Copy, PartialEq, Eq, Debug)]
pub(crate) enum Tag {
    /// As a port, without `wire` or `reg`.
    BarePort,
    /// As a net or variable, without a direction.
    Net,
    /// As a port with `wire` or `reg`, a parameter or an instance.
    Other,
}

/// A name as it is declared once.
#[derive(Clone, Copy)]
pub(crate) struct Entry<'s> {
    pub(crate) name: &'s str,
    pub(crate) tag: Tag,
}

/// How the names of a declaration of ports are declared.
fn tag_of_port(kind: Option<NetKind>) -> Tag
    ensures { result ≡ port_tag (kind_of kind) }
{
    match kind {
        None => Tag::BarePort,
        Some(NetKind::Wire) => Tag::Other,
        Some(NetKind::Reg) => Tag::Other,
    }
}

/// Adds a name.
fn add<'s>(name: &'s str, tag: Tag, entries: &mut Vec<Entry<'s>>) -> Result<(), AllocError>
    ensures { OnOk result (entries_of entries.new.items ≡ entries_of entries.old.items ++ (name.now, tag) ∷ []) }
{
    entries.push(Entry { name, tag })?;
    Ok(())
}

/// Adds names that are declared alike.
fn add_names<'s>(
    names: &[&'s str],
    tag: Tag,
    entries: &mut Vec<Entry<'s>>,
) -> Result<(), AllocError>
    ensures { OnOk result (entries_of entries.new.items ≡ entries_of entries.old.items ++ tagged tag (map (λ n. n.now) names.now)) }
{
    for name in names {
        add(*name, tag, entries)?;
    }
    Ok(())
}

/// Adds the names of a declaration of ports.
fn add_port<'s>(port: &PortDeclaration<'s>, entries: &mut Vec<Entry<'s>>) -> Result<(), AllocError>
    ensures { OnOk result (entries_of entries.new.items ≡ entries_of entries.old.items ++ tagged (port_tag (port_of port.now).kind) (port_of port.now).names) }
{
    add_names(&port.names, tag_of_port(port.kind), entries)?;
    Ok(())
}

/// Adds the names of declarations of ports.
fn add_ports<'s>(
    ports: &[PortDeclaration<'s>],
    entries: &mut Vec<Entry<'s>>,
) -> Result<(), AllocError>
    ensures { OnOk result (entries_of entries.new.items ≡ entries_of entries.old.items ++ declaration_entries (port_declarations (map port_of ports.now))) }
{
    for port in ports {
        add_port(port, entries)?;
    }
    Ok(())
}

/// Adds the names that the list of ports declares.
fn add_header<'s>(ports: &Ports<'s>, entries: &mut Vec<Entry<'s>>) -> Result<(), AllocError>
    ensures { OnOk result (entries_of entries.new.items ≡ entries_of entries.old.items ++ declaration_entries (port_declarations (header_ports (ports_of ports.now)))) }
{
    match ports {
        Ports::NoPorts => Ok(()),
        Ports::Listed(_) => Ok(()),
        Ports::Declared(list) => {
            add_ports(list, entries)?;
            Ok(())
        }
    }
}

/// Adds nets.
fn add_wires<'s>(wires: &[Wire<'s>], entries: &mut Vec<Entry<'s>>) -> Result<(), AllocError>
    ensures { OnOk result (entries_of entries.new.items ≡ entries_of entries.old.items ++ tagged Net (map (λ w. w.name.now) wires.now)) }
{
    for wire in wires {
        add(wire.name, Tag::Net, entries)?;
    }
    Ok(())
}

/// Adds variables.
fn add_variables<'s>(
    variables: &[Variable<'s>],
    entries: &mut Vec<Entry<'s>>,
) -> Result<(), AllocError>
    ensures { OnOk result (entries_of entries.new.items ≡ entries_of entries.old.items ++ tagged Net (map (λ v. v.name.now) variables.now)) }
{
    for variable in variables {
        add(variable.name, Tag::Net, entries)?;
    }
    Ok(())
}

/// Adds the ports, nets and variables that an item declares.
fn add_declared<'s>(item: &Item<'s>, entries: &mut Vec<Entry<'s>>) -> Result<(), AllocError>
    ensures { OnOk result ((rest : List pure.Item) → entries_of entries.old.items ++ declaration_entries (item_declarations (item_of item.now ∷ rest))
        ≡ entries_of entries.new.items ++ declaration_entries (item_declarations rest)) }
{
    match item {
        Item::Port(port) => {
            add_port(port, entries)?;
            Ok(())
        }
        Item::Wires(_, _, wires) => {
            add_wires(wires, entries)?;
            Ok(())
        }
        Item::Variables(_, _, variables) => {
            add_variables(variables, entries)?;
            Ok(())
        }
        Item::Parameter(_) => Ok(()),
        Item::Assign(_) => Ok(()),
        Item::Always(_, _) => Ok(()),
        Item::Instances(_, _, _) => Ok(()),
    }
}

/// Adds the ports, nets and variables that items declare.
fn add_all_declared<'s>(items: &[Item<'s>], entries: &mut Vec<Entry<'s>>) -> Result<(), AllocError>
    ensures { OnOk result (entries_of entries.new.items ≡ entries_of entries.old.items ++ declaration_entries (item_declarations (map item_of items.now))) }
{
    for item in items {
        add_declared(item, entries)?;
    }
    Ok(())
}

/// Adds the ports, nets and variables of a module, those of its list of ports first.
pub(crate) fn add_nets<'s>(
    within: &Module<'s>,
    entries: &mut Vec<Entry<'s>>,
) -> Result<(), AllocError>
    ensures { OnOk result (entries_of entries.new.items ≡ entries_of entries.old.items ++ declaration_entries (declarations (module_of within.now))) }
{
    add_header(&within.ports, entries)?;
    add_all_declared(&within.items, entries)?;
    Ok(())
}

/// Adds the parameters of a declaration.
fn add_values<'s>(
    values: &[ParameterValue<'s>],
    entries: &mut Vec<Entry<'s>>,
) -> Result<(), AllocError>
    ensures { OnOk result (entries_of entries.new.items ≡ entries_of entries.old.items ++ tagged Other (value_names (map (λ v. (v.name.now, tree_of v.value)) values.now))) }
{
    for value in values {
        add(value.name, Tag::Other, entries)?;
    }
    Ok(())
}

/// Adds the parameters of declarations.
fn add_declarations<'s>(
    declarations: &[ParameterDeclaration<'s>],
    entries: &mut Vec<Entry<'s>>,
) -> Result<(), AllocError>
    ensures { OnOk result (entries_of entries.new.items ≡ entries_of entries.old.items ++ tagged Other (parameter_names (map parameter_of declarations.now))) }
{
    for declaration in declarations {
        add_values(&declaration.values, entries)?;
    }
    Ok(())
}

/// Adds the parameters that an item declares.
fn add_body<'s>(item: &Item<'s>, entries: &mut Vec<Entry<'s>>) -> Result<(), AllocError>
    ensures { OnOk result ((rest : List pure.Item) → entries_of entries.old.items ++ tagged Other (parameter_names (body_parameters (item_of item.now ∷ rest)))
        ≡ entries_of entries.new.items ++ tagged Other (parameter_names (body_parameters rest))) }
{
    match item {
        Item::Parameter(declaration) => {
            add_values(&declaration.values, entries)?;
            Ok(())
        }
        Item::Port(_) => Ok(()),
        Item::Wires(_, _, _) => Ok(()),
        Item::Variables(_, _, _) => Ok(()),
        Item::Assign(_) => Ok(()),
        Item::Always(_, _) => Ok(()),
        Item::Instances(_, _, _) => Ok(()),
    }
}

/// Adds the parameters that items declare.
fn add_bodies<'s>(items: &[Item<'s>], entries: &mut Vec<Entry<'s>>) -> Result<(), AllocError>
    ensures { OnOk result (entries_of entries.new.items ≡ entries_of entries.old.items ++ tagged Other (parameter_names (body_parameters (map item_of items.now)))) }
{
    for item in items {
        add_body(item, entries)?;
    }
    Ok(())
}

/// Adds the parameters of a module, those of its header first.
pub(crate) fn add_parameters<'s>(
    within: &Module<'s>,
    entries: &mut Vec<Entry<'s>>,
) -> Result<(), AllocError>
    ensures { OnOk result (entries_of entries.new.items ≡ entries_of entries.old.items ++ tagged Other (parameter_names (all_parameters (module_of within.now)))) }
{
    add_declarations(&within.parameters, entries)?;
    add_bodies(&within.items, entries)?;
    Ok(())
}

/// Adds instances.
fn add_instance_list<'s>(
    instances: &[Instance<'s>],
    entries: &mut Vec<Entry<'s>>,
) -> Result<(), AllocError>
    ensures { OnOk result (entries_of entries.new.items ≡ entries_of entries.old.items ++ tagged Other (instance_names (map (λ i. (i.name.now, connections_of i.connections)) instances.now))) }
{
    for instance in instances {
        add(instance.name, Tag::Other, entries)?;
    }
    Ok(())
}

/// Adds the instances of an item.
fn add_placed<'s>(item: &Item<'s>, entries: &mut Vec<Entry<'s>>) -> Result<(), AllocError>
    ensures { OnOk result ((rest : List pure.Item) → entries_of entries.old.items ++ tagged Other (all_instance_names (item_of item.now ∷ rest))
        ≡ entries_of entries.new.items ++ tagged Other (all_instance_names rest)) }
{
    match item {
        Item::Instances(_, _, instances) => {
            add_instance_list(instances, entries)?;
            Ok(())
        }
        Item::Port(_) => Ok(()),
        Item::Parameter(_) => Ok(()),
        Item::Wires(_, _, _) => Ok(()),
        Item::Variables(_, _, _) => Ok(()),
        Item::Assign(_) => Ok(()),
        Item::Always(_, _) => Ok(()),
    }
}

/// Adds the instances of items.
pub(crate) fn add_instances<'s>(
    items: &[Item<'s>],
    entries: &mut Vec<Entry<'s>>,
) -> Result<(), AllocError>
    ensures { OnOk result (entries_of entries.new.items ≡ entries_of entries.old.items ++ tagged Other (all_instance_names (map item_of items.now))) }
{
    for item in items {
        add_placed(item, entries)?;
    }
    Ok(())
}

/// All that a module declares, name by name: ports, nets and variables, then parameters, then instances.
pub(crate) fn all_entries<'s>(
    alloc: Global,
    within: &Module<'s>,
) -> Result<Vec<Entry<'s>>, AllocError>
    ensures { IfOk result (λ v. entries_of v.items ≡ declaration_entries (declarations (module_of within.now))
        ++ tagged Other (parameter_names (all_parameters (module_of within.now))) ++ tagged Other (all_instance_names (module_of within.now).items)) }
{
    let mut entries = Vec::new(alloc);
    add_nets(within, &mut entries)?;
    add_parameters(within, &mut entries)?;
    add_instances(&within.items, &mut entries)?;
    Ok(entries)
}

/// Adds the names of the ports of a list of declarations.
fn add_port_names<'s>(
    ports: &[PortDeclaration<'s>],
    entries: &mut Vec<Entry<'s>>,
) -> Result<(), AllocError>
    ensures { OnOk result (entries_of entries.new.items ≡ entries_of entries.old.items ++ tagged Other (names_of (declared_ports (map port_of ports.now)))) }
{
    for port in ports {
        add_names(&port.names, Tag::Other, entries)?;
    }
    Ok(())
}

/// The names in a list of ports, in its order.
pub(crate) fn port_entries<'s>(
    alloc: Global,
    ports: &Ports<'s>,
) -> Result<Vec<Entry<'s>>, AllocError>
    ensures { IfOk result (λ v. entries_of v.items ≡ tagged Other (header_names (ports_of ports.now))) }
{
    let mut entries = Vec::new(alloc);
    match ports {
        Ports::NoPorts => {}
        Ports::Listed(names) => add_names(names, Tag::Other, &mut entries)?,
        Ports::Declared(list) => add_port_names(list, &mut entries)?,
    }
    Ok(entries)
}

/// The names of modules.
pub(crate) fn module_entries<'s>(
    alloc: Global,
    modules: &[Module<'s>],
) -> Result<Vec<Entry<'s>>, AllocError>
    ensures { IfOk result (λ v. entries_of v.items ≡ tagged Other (module_names (map module_of modules.now))) }
{
    let mut entries = Vec::new(alloc);
    for each in modules {
        add(each.name, Tag::Other, &mut entries)?;
    }
    Ok(entries)
}
