//! The interface of a module: what of it an instance meets. And the interfaces of all modules of a source, by name.
ghost use Rattle.std.specs.Prelude.{◌≡◌, ◌++◌, ◌∷◌, ℕ, List, map, option_map, IfOk, OnOk};
ghost use Rattle.wb_values.specs.Value.{same_name, entry_of};
ghost use Rattle.wb_values.specs.Choice.{first_of, some_if};
ghost use Rattle.verilog_trees.specs.Syntax as pure;
ghost use Rattle.verilog_meaning.specs.Hierarchy.{all_parameters, body_parameters, header_ports, overridable, value_names};
ghost use Rattle.verilog_meaning.specs.Settled.{declared_ports, header_names, item_ports, named_ports, names_of, port_directions};
ghost use Rattle.v_syntax.specs.Tree.{tree_of};
ghost use Rattle.v_syntax.specs.Source.{direction_of, item_of, module_of, parameter_of, port_of, ports_of, source_of};
ghost use Rattle.v_instances.specs.Texts.{texts};
ghost use Rattle.v_instances.specs.Interface.{direction_in, IsInterfaceOf, interface_in, AreInterfacesOf, own_ports, own_parameters, item_parameters, AreSoFar};

use crate::listing::{Listing, add_names, listing_of};
use std::alloc::{AllocError, Global};
use std::collections::BTreeMap;
use v_syntax::module::{
    Direction, Item, Module, ParameterDeclaration, ParameterValue, PortDeclaration, Ports, Tree,
};

/// What of a module an instance meets.
#[derive(Drop)]
pub struct Interface<'s> {
    /// The ports in the order of the module's list.
    pub ports: Listing<'s>,
    /// The direction of each name that is declared as a port, by its first declaration.
    pub directions: BTreeMap<&'s str, Direction>,
    /// The parameters that can be overridden, in their order.
    pub parameters: Listing<'s>,
}

/// The interfaces of the modules of a source, each that of the first module of its name.
#[derive(Drop)]
pub struct Interfaces<'s> {
    pub modules: BTreeMap<&'s str, Interface<'s>>,
}

/// Adds the names of declarations of ports.
fn add_declared<'s>(
    ports: &[PortDeclaration<'s>],
    order: &mut Vec<&'s str>,
) -> Result<(), AllocError>
    ensures { OnOk result (texts order.new.items ≡ texts order.old.items ++ names_of (declared_ports (map port_of ports.now))) }
{
    for port in ports {
        add_names(&port.names, order)?;
    }
    Ok(())
}

/// The ports in the order of the module's list.
fn order_of<'s>(alloc: Global, ports: &Ports<'s>) -> Result<Vec<&'s str>, AllocError>
    ensures { IfOk result (λ v. texts v.items ≡ header_names (ports_of ports.now)) }
{
    let mut order = Vec::new(alloc);
    match ports {
        Ports::NoPorts => {}
        Ports::Listed(names) => add_names(names, &mut order)?,
        Ports::Declared(declared) => add_declared(declared, &mut order)?,
    }
    Ok(order)
}

/// Puts a direction under a name unless one stands there.
fn add_first<'s>(
    directions: &mut BTreeMap<&'s str, Direction>,
    name: &'s str,
    direction: Direction,
) -> Result<(), AllocError>
    ensures { OnOk result ((q : List ℕ) → direction_in directions.new q ≡ first_of (direction_in directions.old q) (some_if (same_name name.now q) (direction_of direction))) }
{
    if !directions.contains_key(name) {
        directions.insert(name, direction)?;
    }
    Ok(())
}

/// Adds ports of one direction.
fn add_named<'s>(
    names: &[&'s str],
    direction: Direction,
    directions: &mut BTreeMap<&'s str, Direction>,
) -> Result<(), AllocError>
    ensures { OnOk result ((q : List ℕ) → direction_in directions.new q ≡ first_of (direction_in directions.old q) (entry_of (named_ports (direction_of direction) (texts names.now)) q)) }
{
    for name in names {
        add_first(directions, *name, direction)?;
    }
    Ok(())
}

/// Adds declarations of ports.
fn add_ports<'s>(
    ports: &[PortDeclaration<'s>],
    directions: &mut BTreeMap<&'s str, Direction>,
) -> Result<(), AllocError>
    ensures { OnOk result ((q : List ℕ) → direction_in directions.new q ≡ first_of (direction_in directions.old q) (entry_of (declared_ports (map port_of ports.now)) q)) }
{
    for port in ports {
        add_named(&port.names, port.direction, directions)?;
    }
    Ok(())
}

/// Adds the ports that stand in the list of ports with their declarations.
fn add_header<'s>(
    ports: &Ports<'s>,
    directions: &mut BTreeMap<&'s str, Direction>,
) -> Result<(), AllocError>
    ensures { OnOk result ((q : List ℕ) → direction_in directions.new q ≡ first_of (direction_in directions.old q) (entry_of (declared_ports (header_ports (ports_of ports.now))) q)) }
{
    match ports {
        Ports::NoPorts => Ok(()),
        Ports::Listed(_) => Ok(()),
        Ports::Declared(declared) => {
            add_ports(declared, directions)?;
            Ok(())
        }
    }
}

/// Adds the ports that an item declares.
fn add_item<'s>(
    item: &Item<'s>,
    directions: &mut BTreeMap<&'s str, Direction>,
) -> Result<(), AllocError>
    ensures { OnOk result ((q : List ℕ) → direction_in directions.new q ≡ first_of (direction_in directions.old q) (entry_of (own_ports (item_of item.now)) q)) }
{
    match item {
        Item::Port(port) => {
            add_named(&port.names, port.direction, directions)?;
            Ok(())
        }
        Item::Parameter(_) => Ok(()),
        Item::Wires(_, _, _) => Ok(()),
        Item::Variables(_, _, _) => Ok(()),
        Item::Assign(_) => Ok(()),
        Item::Always(_, _) => Ok(()),
        Item::Instances(_, _, _) => Ok(()),
    }
}

/// Adds the ports that items declare.
fn add_items<'s>(
    items: &[Item<'s>],
    directions: &mut BTreeMap<&'s str, Direction>,
) -> Result<(), AllocError>
    ensures { OnOk result ((q : List ℕ) → direction_in directions.new q ≡ first_of (direction_in directions.old q) (entry_of (item_ports (map item_of items.now)) q)) }
{
    for item in items {
        add_item(item, directions)?;
    }
    Ok(())
}

/// The direction of each name that is declared as a port.
fn directions_of<'s>(
    alloc: Global,
    within: &Module<'s>,
) -> Result<BTreeMap<&'s str, Direction>, AllocError>
    ensures { IfOk result (λ t. (q : List ℕ) → direction_in t q ≡ entry_of (port_directions (module_of within.now)) q) }
{
    let mut directions = BTreeMap::new(alloc);
    add_header(&within.ports, &mut directions)?;
    add_items(&within.items, &mut directions)?;
    Ok(directions)
}

/// Adds the names of parameters.
fn add_values<'s>(values: &[ParameterValue<'s>], order: &mut Vec<&'s str>) -> Result<(), AllocError>
    ensures { OnOk result (texts order.new.items ≡ texts order.old.items ++ value_names (map (λ v. (v.name.now, tree_of v.value)) values.now)) }
{
    for value in values {
        order.push(value.name)?;
    }
    Ok(())
}

/// Adds the parameters of a declaration that can be overridden.
fn add_declaration<'s>(
    declaration: &ParameterDeclaration<'s>,
    order: &mut Vec<&'s str>,
) -> Result<(), AllocError>
    ensures { OnOk result (texts order.new.items ≡ texts order.old.items ++ own_parameters (parameter_of declaration.now)) }
{
    if !declaration.is_local {
        add_values(&declaration.values, order)?;
    }
    Ok(())
}

/// Adds the parameters of declarations that can be overridden.
fn add_declarations<'s>(
    declarations: &[ParameterDeclaration<'s>],
    order: &mut Vec<&'s str>,
) -> Result<(), AllocError>
    ensures { OnOk result (texts order.new.items ≡ texts order.old.items ++ overridable (map parameter_of declarations.now)) }
{
    for declaration in declarations {
        add_declaration(declaration, order)?;
    }
    Ok(())
}

/// Adds the parameters of an item that can be overridden.
fn add_of_item<'s>(item: &Item<'s>, order: &mut Vec<&'s str>) -> Result<(), AllocError>
    ensures { OnOk result (texts order.new.items ≡ texts order.old.items ++ item_parameters (item_of item.now)) }
{
    match item {
        Item::Parameter(declaration) => {
            add_declaration(declaration, order)?;
            Ok(())
        }
        Item::Port(_) => Ok(()),
        Item::Wires(_, _, _) => Ok(()),
        Item::Variables(_, _, _) => Ok(()),
        Item::Assign(_) => Ok(()),
        Item::Always(_, _) => Ok(()),
        Item::Instances(_, _, _) => Ok(()),
    }
}

/// Adds the parameters of items that can be overridden.
fn add_body<'s>(items: &[Item<'s>], order: &mut Vec<&'s str>) -> Result<(), AllocError>
    ensures { OnOk result (texts order.new.items ≡ texts order.old.items ++ overridable (body_parameters (map item_of items.now))) }
{
    for item in items {
        add_of_item(item, order)?;
    }
    Ok(())
}

/// The parameters of a module that can be overridden, in their order.
fn parameters_of<'s>(alloc: Global, within: &Module<'s>) -> Result<Vec<&'s str>, AllocError>
    ensures { IfOk result (λ v. texts v.items ≡ overridable (all_parameters (module_of within.now))) }
{
    let mut order = Vec::new(alloc);
    add_declarations(&within.parameters, &mut order)?;
    add_body(&within.items, &mut order)?;
    Ok(order)
}

/// The interface of a module.
pub fn interface_of<'s>(alloc: Global, within: &Module<'s>) -> Result<Interface<'s>, AllocError>
    ensures { IfOk result (λ i. IsInterfaceOf i (module_of within.now)) }
{
    let order = order_of(alloc, &within.ports)?;
    let ports = listing_of(alloc, order)?;
    let directions = directions_of(alloc, within)?;
    let overridden = parameters_of(alloc, within)?;
    let parameters = listing_of(alloc, overridden)?;
    Ok(Interface {
        ports,
        directions,
        parameters,
    })
}

/// Adds the interface of a module unless one stands under its name.
fn add_module<'s>(
    alloc: Global,
    within: &Module<'s>,
    interfaces: &mut Interfaces<'s>,
) -> Result<(), AllocError>
    ensures { OnOk result ((all : List pure.Module) (rest : List pure.Module) → AreSoFar interfaces.old all (module_of within.now ∷ rest) → AreSoFar interfaces.new all rest) }
{
    if interfaces.modules.contains_key(within.name) {
        return Ok(());
    }
    let interface = interface_of(alloc, within)?;
    interfaces.modules.insert(within.name, interface)?;
    Ok(())
}

/// The interfaces of the modules of a source.
pub fn interfaces_of<'s>(alloc: Global, tree: &Tree<'s>) -> Result<Interfaces<'s>, AllocError>
    ensures { IfOk result (λ t. AreInterfacesOf t (source_of tree.now)) }
{
    let mut interfaces = Interfaces {
        modules: BTreeMap::new(alloc),
    };
    for within in &tree.modules {
        add_module(alloc, within, &mut interfaces)?;
    }
    Ok(interfaces)
}

impl<'s> Interfaces<'s> {
    ghost use Rattle.std.specs.Prelude.{◌≡◌, option_map};
    ghost use Rattle.v_instances.specs.Interface.{interface_in};

    /// The interface of the first module of this name, if there is one.
    pub fn find(&self, name: &str) -> Option<&Interface<'s>>
        ensures { option_map (λ i. i.now) result ≡ interface_in self.now name.now }
    {
        self.modules.get(name)
    }
}
