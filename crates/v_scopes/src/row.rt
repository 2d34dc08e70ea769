//! What a module declares, name by name in the order of its text, with the values of its ranges.
ghost use Rattle.std.specs.Prelude.{◌≡◌, ◌++◌, ◌∷◌, [], List, map, OnOk, IfOk};
ghost use Rattle.verilog_trees.specs.Syntax as pure;
ghost use Rattle.verilog_meaning.specs.Hierarchy.{declarations, item_declarations, port_declarations, each_port, header_ports};
ghost use Rattle.v_syntax.specs.Source.{port_of, ports_of, optional_range_of, item_of, module_of};
ghost use Rattle.v_value.specs.Scope.{scope_at};
ghost use Rattle.v_scopes.specs.declared.range.Bounds.TheVariants.{Absent};
ghost use Rattle.v_scopes.specs.Bounds.{bounds};
ghost use Rattle.v_scopes.specs.Rows.{rows, rows_of, formed, named, placed};

use crate::constant::Constants;
use crate::range::{Bounds, bounds_of};
use std::alloc::{AllocError, Global};
use v_syntax::module::{
    Direction, Item, Module, NetKind, PortDeclaration, Ports, Range, Variable, Wire,
};

/// A name as one declaration gives it, or as all that are of it do.
#[derive(Clone, Copy)]
pub struct Declared<'s> {
    pub name: &'s str,
    /// Its direction, where it is a port.
    pub direction: Option<Direction>,
    /// Whether it is a net or a variable, where `wire` or `reg` is written.
    pub kind: Option<NetKind>,
    pub signed: bool,
    /// Its range, that of a word for a memory.
    pub range: Bounds,
    /// Its addresses, where it is a memory.
    pub addresses: Bounds,
}

/// How the names of a declaration are declared.
#[derive(Clone, Copy)]
pub(crate) struct Form {
    pub(crate) direction: Option<Direction>,
    pub(crate) kind: Option<NetKind>,
    pub(crate) signed: bool,
    pub(crate) range: Bounds,
}

/// Adds a name.
fn add<'s>(
    name: &'s str,
    form: Form,
    addresses: Bounds,
    list: &mut Vec<Declared<'s>>,
) -> Result<(), AllocError>
    ensures { OnOk result (rows_of list.new.items ≡ rows_of list.old.items ++ formed form addresses name.now ∷ []) }
{
    list.push(Declared {
        name,
        direction: form.direction,
        kind: form.kind,
        signed: form.signed,
        range: form.range,
        addresses,
    })?;
    Ok(())
}

/// Adds names of ports.
fn add_names<'s>(
    names: &[&'s str],
    form: Form,
    list: &mut Vec<Declared<'s>>,
) -> Result<(), AllocError>
    ensures { OnOk result (rows_of list.new.items ≡ rows_of list.old.items ++ named form (map (λ n. n.now) names.now)) }
{
    for name in names {
        add(*name, form, Bounds::Absent, list)?;
    }
    Ok(())
}

/// Adds nets.
fn add_wires<'s>(
    wires: &[Wire<'s>],
    form: Form,
    list: &mut Vec<Declared<'s>>,
) -> Result<(), AllocError>
    ensures { OnOk result (rows_of list.new.items ≡ rows_of list.old.items ++ named form (map (λ w. w.name.now) wires.now)) }
{
    for wire in wires {
        add(wire.name, form, Bounds::Absent, list)?;
    }
    Ok(())
}

/// Adds a variable, or a memory.
fn add_variable<'s>(
    variable: &Variable<'s>,
    constants: Constants<'_, '_>,
    form: Form,
    list: &mut Vec<Declared<'s>>,
) -> Result<(), AllocError>
    ensures { OnOk result (rows_of list.new.items ≡ rows_of list.old.items ++ formed form (bounds (scope_at constants.entry.scope.now) (optional_range_of variable.now.addresses)) variable.now.name.now ∷ []) }
{
    let addresses = bounds_of(&variable.addresses, constants);
    add(variable.name, form, addresses, list)?;
    Ok(())
}

/// Adds variables and memories.
fn add_variables<'s>(
    variables: &[Variable<'s>],
    constants: Constants<'_, '_>,
    form: Form,
    list: &mut Vec<Declared<'s>>,
) -> Result<(), AllocError>
    ensures { OnOk result (rows_of list.new.items ≡ rows_of list.old.items ++ placed (scope_at constants.entry.scope.now) form (map (λ v. (v.name.now, optional_range_of v.addresses)) variables.now)) }
{
    for variable in variables {
        add_variable(variable, constants, form, list)?;
    }
    Ok(())
}

/// How a declaration of ports declares its names.
fn port_form(port: &PortDeclaration<'_>, constants: Constants<'_, '_>) -> Form
    ensures direction { result.direction ≡ Some port.now.direction }
    ensures kind { result.kind ≡ port.now.kind }
    ensures signed { result.signed ≡ port.now.signed }
    ensures range { result.range ≡ bounds (scope_at constants.entry.scope.now) (optional_range_of port.now.range) }
{
    Form {
        direction: Some(port.direction),
        kind: port.kind,
        signed: port.signed,
        range: bounds_of(&port.range, constants),
    }
}

/// Adds the names of a declaration of ports.
fn add_port<'s>(
    port: &PortDeclaration<'s>,
    constants: Constants<'_, '_>,
    list: &mut Vec<Declared<'s>>,
) -> Result<(), AllocError>
    ensures { OnOk result (rows_of list.new.items ≡ rows_of list.old.items ++ rows (scope_at constants.entry.scope.now) (each_port (port_of port.now) (port_of port.now).names)) }
{
    let form = port_form(port, constants);
    add_names(&port.names, form, list)?;
    Ok(())
}

/// Adds the names of declarations of ports.
fn add_ports<'s>(
    ports: &[PortDeclaration<'s>],
    constants: Constants<'_, '_>,
    list: &mut Vec<Declared<'s>>,
) -> Result<(), AllocError>
    ensures { OnOk result (rows_of list.new.items ≡ rows_of list.old.items ++ rows (scope_at constants.entry.scope.now) (port_declarations (map port_of ports.now))) }
{
    for port in ports {
        add_port(port, constants, list)?;
    }
    Ok(())
}

/// Adds the names that the list of ports declares.
fn add_header<'s>(
    ports: &Ports<'s>,
    constants: Constants<'_, '_>,
    list: &mut Vec<Declared<'s>>,
) -> Result<(), AllocError>
    ensures { OnOk result (rows_of list.new.items ≡ rows_of list.old.items ++ rows (scope_at constants.entry.scope.now) (port_declarations (header_ports (ports_of ports.now)))) }
{
    match ports {
        Ports::NoPorts => Ok(()),
        Ports::Listed(_) => Ok(()),
        Ports::Declared(declared) => {
            add_ports(declared, constants, list)?;
            Ok(())
        }
    }
}

/// How a declaration of nets or variables declares its names.
fn net_form(
    range: &Option<Box<Range<'_>>>,
    constants: Constants<'_, '_>,
    kind: NetKind,
    signed: bool,
) -> Form
    ensures { result ≡ record { direction = None; kind = Some kind; signed = signed; range = bounds (scope_at constants.entry.scope.now) (optional_range_of range.now) } }
{
    Form {
        direction: None,
        kind: Some(kind),
        signed,
        range: bounds_of(range, constants),
    }
}

/// Adds the ports, nets and variables that an item declares.
fn add_item<'s>(
    item: &Item<'s>,
    constants: Constants<'_, '_>,
    list: &mut Vec<Declared<'s>>,
) -> Result<(), AllocError>
    ensures { OnOk result ((rest : List pure.Item) → rows_of list.old.items ++ rows (scope_at constants.entry.scope.now) (item_declarations (item_of item.now ∷ rest))
        ≡ rows_of list.new.items ++ rows (scope_at constants.entry.scope.now) (item_declarations rest)) }
{
    match item {
        Item::Port(port) => {
            add_port(port, constants, list)?;
            Ok(())
        }
        Item::Wires(signed, range, wires) => {
            let form = net_form(range, constants, NetKind::Wire, *signed);
            add_wires(wires, form, list)?;
            Ok(())
        }
        Item::Variables(signed, range, variables) => {
            let form = net_form(range, constants, NetKind::Reg, *signed);
            add_variables(variables, constants, form, list)?;
            Ok(())
        }
        Item::Parameter(_) => Ok(()),
        Item::Assign(_) => Ok(()),
        Item::Always(_, _) => Ok(()),
        Item::Instances(_, _, _) => Ok(()),
    }
}

/// Adds the ports, nets and variables that items declare.
fn add_items<'s>(
    items: &[Item<'s>],
    constants: Constants<'_, '_>,
    list: &mut Vec<Declared<'s>>,
) -> Result<(), AllocError>
    ensures { OnOk result (rows_of list.new.items ≡ rows_of list.old.items ++ rows (scope_at constants.entry.scope.now) (item_declarations (map item_of items.now))) }
{
    for item in items {
        add_item(item, constants, list)?;
    }
    Ok(())
}

/// The ports, nets and variables of a module in the order of its text, those of its list of ports first. A name that is declared as a
/// port and as a net or variable besides stands there twice.
pub fn declared_rows<'s>(
    alloc: Global,
    within: &Module<'s>,
    constants: Constants<'_, '_>,
) -> Result<Vec<Declared<'s>>, AllocError>
    ensures { IfOk result (λ v. rows_of v.items ≡ rows (scope_at constants.entry.scope.now) (declarations (module_of within.now))) }
{
    let mut all = Vec::new(alloc);
    add_header(&within.ports, constants, &mut all)?;
    add_items(&within.items, constants, &mut all)?;
    Ok(all)
}
