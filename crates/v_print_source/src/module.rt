//! Modules and sources.
ghost use Rattle.std.specs.Prelude.{false, map, OnOk};
ghost use Rattle.v_syntax.specs.Source.{port_of, parameter_of, item_of, ports_of, module_of, source_of};
ghost use Rattle.v_print.specs.Bodies.{parts_before, row_before};
ghost use Rattle.v_print.specs.Writes.{Writes};
ghost use Rattle.v_print_source.specs.Shown.{printed_port, printed_parameter, printed_item, printed_header, printed_ports, printed_module, printed_modules};

use crate::declaration::{write_names, write_parameter, write_port};
use crate::item::write_item;
use crate::layout::{begin_line, is_nil, separate};
use std::alloc::AllocError;
use v_print::writer::Writer;
use v_syntax::module::{Item, Module, ParameterDeclaration, PortDeclaration, Ports, Tree};
use v_token::token::Mark;

/// Declarations of parameters, each on a line.
fn write_parameters(
    parameters: &[ParameterDeclaration<'_>],
    out: &mut Writer,
) -> Result<(), AllocError>
    ensures { OnOk result (Writes out.old out.new (λ r. parts_before printed_parameter false (map parameter_of parameters.now) r)) }
{
    let mut started = false;
    for parameter in parameters {
        separate(started, true, 1, out)?;
        write_parameter(parameter, out)?;
        started = true;
    }
    Ok(())
}

/// The parameters of a header, if there are some.
fn write_header(parameters: &[ParameterDeclaration<'_>], out: &mut Writer) -> Result<(), AllocError>
    ensures { OnOk result (Writes out.old out.new (λ r. printed_header (map parameter_of parameters.now) r)) }
{
    let none = is_nil(parameters);
    if none {
        return Ok(());
    }
    out.blank()?;
    out.mark(Mark::Hash)?;
    out.mark(Mark::LeftParenthesis)?;
    write_parameters(parameters, out)?;
    begin_line(0, out)?;
    out.mark(Mark::RightParenthesis)?;
    Ok(())
}

/// Declarations of ports, each on a line.
fn write_all_ports(ports: &[PortDeclaration<'_>], out: &mut Writer) -> Result<(), AllocError>
    ensures { OnOk result (Writes out.old out.new (λ r. parts_before printed_port false (map port_of ports.now) r)) }
{
    let mut started = false;
    for port in ports {
        separate(started, true, 1, out)?;
        write_port(port, out)?;
        started = true;
    }
    Ok(())
}

/// The ports of a header.
fn write_ports(ports: &Ports<'_>, out: &mut Writer) -> Result<(), AllocError>
    ensures { OnOk result (Writes out.old out.new (λ r. printed_ports (ports_of ports.now) r)) }
{
    match ports {
        Ports::NoPorts => Ok(()),
        Ports::Listed(names) => {
            out.blank()?;
            out.mark(Mark::LeftParenthesis)?;
            write_names(names, out)?;
            out.mark(Mark::RightParenthesis)?;
            Ok(())
        }
        Ports::Declared(list) => {
            out.blank()?;
            out.mark(Mark::LeftParenthesis)?;
            write_all_ports(list, out)?;
            begin_line(0, out)?;
            out.mark(Mark::RightParenthesis)?;
            Ok(())
        }
    }
}

/// Items, each on a line.
fn write_items(items: &[Item<'_>], colons: bool, out: &mut Writer) -> Result<(), AllocError>
    ensures { OnOk result (Writes out.old out.new (λ r. row_before (printed_item colons) (map item_of items.now) r)) }
{
    for item in items {
        begin_line(1, out)?;
        write_item(item, colons, out)?;
    }
    Ok(())
}

/// A module.
pub(crate) fn write_module(
    unit: &Module<'_>,
    colons: bool,
    out: &mut Writer,
) -> Result<(), AllocError>
    ensures { OnOk result (Writes out.old out.new (λ r. printed_module colons (module_of unit.now) r)) }
{
    out.word("module")?;
    out.word(unit.name)?;
    write_header(&unit.parameters, out)?;
    write_ports(&unit.ports, out)?;
    out.mark(Mark::Semicolon)?;
    write_items(&unit.items, colons, out)?;
    begin_line(0, out)?;
    out.word("endmodule")?;
    Ok(())
}

/// Modules with a blank line between them.
fn write_modules(modules: &[Module<'_>], colons: bool, out: &mut Writer) -> Result<(), AllocError>
    ensures { OnOk result (Writes out.old out.new (λ r. row_before (printed_module colons) (map module_of modules.now) r)) }
{
    let mut started = false;
    for module in modules {
        out.line_if(started)?;
        write_module(module, colons, out)?;
        begin_line(0, out)?;
        started = true;
    }
    Ok(())
}

/// A source, with a colon behind each `default` or without one.
pub(crate) fn write_source(
    tree: &Tree<'_>,
    colons: bool,
    out: &mut Writer,
) -> Result<(), AllocError>
    ensures { OnOk result (Writes out.old out.new (λ r. printed_modules colons (source_of tree.now) r)) }
{
    write_modules(&tree.modules, colons, out)?;
    Ok(())
}
