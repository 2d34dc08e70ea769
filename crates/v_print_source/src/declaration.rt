//! Declarations of ports, parameters, nets and variables, without the `;` that ends them.
ghost use Rattle.std.specs.Prelude.{◌≡◌, false, map, codes, OnOk};
ghost use Rattle.verilog_text.specs.Grammar.{direction_word, parameter_word};
ghost use Rattle.v_syntax.specs.Source.{direction_of, kind_of, optional_range_of, boxed_tree_of, port_of, parameter_of};
ghost use Rattle.v_print.specs.Bodies.{parts_before, flag_before, kind_before, name_before};
ghost use Rattle.v_print.specs.Writes.{Writes};
ghost use Rattle.v_print_source.specs.Lists.{net_word, name_of, setting_of, wire_of, variable_of};
ghost use Rattle.v_print_source.specs.Shown.{printed_range, printed_value, printed_setting, printed_wire, printed_variable, printed_port, printed_parameter};

use std::alloc::AllocError;
use v_print::expression::write;
use v_print::writer::Writer;
use v_syntax::module::{
    Direction, NetKind, ParameterDeclaration, ParameterValue, PortDeclaration, Range, Variable,
    Wire,
};
use v_syntax::tree::Expression;
use v_token::token::Mark;

/// `signed`, where it is wanted.
pub(crate) fn write_signed(wanted: bool, out: &mut Writer) -> Result<(), AllocError>
    ensures { OnOk result (Writes out.old out.new (λ r. flag_before (codes "signed") wanted r)) }
{
    if !wanted {
        return Ok(());
    }
    out.word("signed")?;
    Ok(())
}

/// A range behind a blank, if there is one.
pub(crate) fn write_range(
    range: &Option<Box<Range<'_>>>,
    out: &mut Writer,
) -> Result<(), AllocError>
    ensures { OnOk result (Writes out.old out.new (λ r. printed_range (optional_range_of range.now) r)) }
{
    match range {
        Some(bounds) => {
            out.blank()?;
            out.mark(Mark::LeftBracket)?;
            write(&bounds.left, out)?;
            out.mark(Mark::Colon)?;
            write(&bounds.right, out)?;
            out.mark(Mark::RightBracket)?;
            Ok(())
        }
        None => Ok(()),
    }
}

/// Names with commas between them.
pub(crate) fn write_names(names: &[&str], out: &mut Writer) -> Result<(), AllocError>
    ensures { OnOk result (Writes out.old out.new (λ r. parts_before name_before false (map name_of names.now) r)) }
{
    let mut started = false;
    for name in names {
        out.comma_if(started)?;
        out.word(name)?;
        started = true;
    }
    Ok(())
}

fn direction_word(direction: Direction) -> &'static str
    ensures { result.now ≡ direction_word (direction_of direction) }
{
    match direction {
        Direction::Input => "input",
        Direction::Output => "output",
    }
}

fn net_word(kind: NetKind) -> &'static str
    ensures { result.now ≡ net_word kind }
{
    match kind {
        NetKind::Wire => "wire",
        NetKind::Reg => "reg",
    }
}

/// `wire` or `reg`, where it stands there.
fn write_kind(kind: Option<NetKind>, out: &mut Writer) -> Result<(), AllocError>
    ensures { OnOk result (Writes out.old out.new (λ r. kind_before (kind_of kind) r)) }
{
    match kind {
        Some(net) => {
            out.word(net_word(net))?;
            Ok(())
        }
        None => Ok(()),
    }
}

/// A declaration of ports.
pub(crate) fn write_port(port: &PortDeclaration<'_>, out: &mut Writer) -> Result<(), AllocError>
    ensures { OnOk result (Writes out.old out.new (λ r. printed_port (port_of port.now) r)) }
{
    out.word(direction_word(port.direction))?;
    write_kind(port.kind, out)?;
    write_signed(port.signed, out)?;
    write_range(&port.range, out)?;
    out.blank()?;
    write_names(&port.names, out)?;
    Ok(())
}

fn parameter_word(is_local: bool) -> &'static str
    ensures { result.now ≡ parameter_word is_local }
{
    if is_local { "localparam" } else { "parameter" }
}

/// A name and its value.
fn write_setting(setting: &ParameterValue<'_>, out: &mut Writer) -> Result<(), AllocError>
    ensures { OnOk result (Writes out.old out.new (λ r. printed_setting (setting_of setting.now) r)) }
{
    out.word(setting.name)?;
    out.between(Mark::Equals)?;
    write(&setting.value, out)?;
    Ok(())
}

/// Names with their values.
fn write_settings(settings: &[ParameterValue<'_>], out: &mut Writer) -> Result<(), AllocError>
    ensures { OnOk result (Writes out.old out.new (λ r. parts_before printed_setting false (map setting_of settings.now) r)) }
{
    let mut started = false;
    for setting in settings {
        out.comma_if(started)?;
        write_setting(setting, out)?;
        started = true;
    }
    Ok(())
}

/// A declaration of parameters.
pub(crate) fn write_parameter(
    parameter: &ParameterDeclaration<'_>,
    out: &mut Writer,
) -> Result<(), AllocError>
    ensures { OnOk result (Writes out.old out.new (λ r. printed_parameter (parameter_of parameter.now) r)) }
{
    out.word(parameter_word(parameter.is_local))?;
    write_signed(parameter.signed, out)?;
    write_range(&parameter.range, out)?;
    out.blank()?;
    write_settings(&parameter.values, out)?;
    Ok(())
}

/// What a net is assigned, if it is.
fn write_value(value: &Option<Box<Expression<'_>>>, out: &mut Writer) -> Result<(), AllocError>
    ensures { OnOk result (Writes out.old out.new (λ r. printed_value (boxed_tree_of value.now) r)) }
{
    match value {
        Some(expression) => {
            out.between(Mark::Equals)?;
            write(expression, out)?;
            Ok(())
        }
        None => Ok(()),
    }
}

/// A net.
fn write_wire(wire: &Wire<'_>, out: &mut Writer) -> Result<(), AllocError>
    ensures { OnOk result (Writes out.old out.new (λ r. printed_wire (wire_of wire.now) r)) }
{
    out.word(wire.name)?;
    write_value(&wire.value, out)?;
    Ok(())
}

/// Nets with commas between them.
pub(crate) fn write_wires(wires: &[Wire<'_>], out: &mut Writer) -> Result<(), AllocError>
    ensures { OnOk result (Writes out.old out.new (λ r. parts_before printed_wire false (map wire_of wires.now) r)) }
{
    let mut started = false;
    for wire in wires {
        out.comma_if(started)?;
        write_wire(wire, out)?;
        started = true;
    }
    Ok(())
}

/// A variable, or a memory.
fn write_variable(variable: &Variable<'_>, out: &mut Writer) -> Result<(), AllocError>
    ensures { OnOk result (Writes out.old out.new (λ r. printed_variable (variable_of variable.now) r)) }
{
    out.word(variable.name)?;
    write_range(&variable.addresses, out)?;
    Ok(())
}

/// Variables with commas between them.
pub(crate) fn write_variables(
    variables: &[Variable<'_>],
    out: &mut Writer,
) -> Result<(), AllocError>
    ensures { OnOk result (Writes out.old out.new (λ r. parts_before printed_variable false (map variable_of variables.now) r)) }
{
    let mut started = false;
    for variable in variables {
        out.comma_if(started)?;
        write_variable(variable, out)?;
        started = true;
    }
    Ok(())
}
