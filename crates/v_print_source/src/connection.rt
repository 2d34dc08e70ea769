//! Instances: what their ports and parameters are connected to.
ghost use Rattle.std.specs.Prelude.{◌≡◌, ◌∷◌, false, map, OnOk};
ghost use Rattle.verilog_text.specs.Token.{mark, right_parenthesis};
ghost use Rattle.v_syntax.specs.Source.{optional_tree_of, connections_of};
ghost use Rattle.v_print.specs.Bodies.{parts_before};
ghost use Rattle.v_print.specs.Writes.{Writes};
ghost use Rattle.v_print_source.specs.Lists.{named_of, instance_of, are_left_out};
ghost use Rattle.v_print_source.specs.Shown.{printed_entry, printed_named, printed_connections, printed_overrides, printed_instance};

use crate::layout::{begin_line, is_nil, separate};
use std::alloc::AllocError;
use v_print::expression::write;
use v_print::writer::Writer;
use v_syntax::module::{Connections, Instance, NamedConnection};
use v_syntax::tree::Expression;
use v_token::token::Mark;

/// What something is connected to, if it is.
fn write_entry(entry: &Option<Expression<'_>>, out: &mut Writer) -> Result<(), AllocError>
    ensures { OnOk result (Writes out.old out.new (λ r. printed_entry (optional_tree_of entry.now) r)) }
{
    match entry {
        Some(expression) => {
            write(expression, out)?;
            Ok(())
        }
        None => Ok(()),
    }
}

/// A connection by name.
fn write_named(connection: &NamedConnection<'_>, out: &mut Writer) -> Result<(), AllocError>
    ensures { OnOk result (Writes out.old out.new (λ r. printed_named (named_of connection.now) r)) }
{
    out.mark(Mark::Dot)?;
    out.word(connection.name)?;
    out.mark(Mark::LeftParenthesis)?;
    write_entry(&connection.value, out)?;
    out.mark(Mark::RightParenthesis)?;
    Ok(())
}

/// Connections by name, each on a line where that is wanted, up to the closing bracket.
fn write_all_named(
    connections: &[NamedConnection<'_>],
    on_lines: bool,
    out: &mut Writer,
) -> Result<(), AllocError>
    ensures { OnOk result (Writes out.old out.new (λ r. parts_before printed_named false (map named_of connections.now) r)) }
{
    let mut started = false;
    for connection in connections {
        separate(started, on_lines, 2, out)?;
        write_named(connection, out)?;
        started = true;
    }
    Ok(())
}

/// Connections by order.
fn write_entries(entries: &[Option<Expression<'_>>], out: &mut Writer) -> Result<(), AllocError>
    ensures { OnOk result (Writes out.old out.new (λ r. parts_before printed_entry false (map optional_tree_of entries.now) r)) }
{
    let mut started = false;
    for entry in entries {
        out.comma_if(started)?;
        write_entry(entry, out)?;
        started = true;
    }
    Ok(())
}

/// The closing bracket, on a line where that is wanted.
fn close(on_lines: bool, out: &mut Writer) -> Result<(), AllocError>
    ensures { OnOk result (Writes out.old out.new (λ r. mark right_parenthesis ∷ r)) }
{
    if on_lines {
        begin_line(1, out)?;
        out.mark(Mark::RightParenthesis)?;
        return Ok(());
    }
    out.mark(Mark::RightParenthesis)?;
    Ok(())
}

/// Connections, with the closing bracket.
fn write_connections(
    connections: &Connections<'_>,
    on_lines: bool,
    out: &mut Writer,
) -> Result<(), AllocError>
    ensures { OnOk result (Writes out.old out.new (λ r. printed_connections (connections_of connections.now) r)) }
{
    match connections {
        Connections::ByName(list) => {
            write_all_named(list, on_lines, out)?;
            close(on_lines, out)?;
            Ok(())
        }
        Connections::ByOrder(list) => {
            write_entries(list, out)?;
            out.mark(Mark::RightParenthesis)?;
            Ok(())
        }
    }
}

/// Whether no parameter is set.
fn are_left_out(connections: &Connections<'_>) -> bool
    ensures { result ≡ are_left_out (connections_of connections.now) }
{
    match connections {
        Connections::ByName(_) => false,
        Connections::ByOrder(list) => is_nil(list),
    }
}

/// The parameters of instances, if some are set.
pub(crate) fn write_overrides(
    connections: &Connections<'_>,
    out: &mut Writer,
) -> Result<(), AllocError>
    ensures { OnOk result (Writes out.old out.new (λ r. printed_overrides (connections_of connections.now) r)) }
{
    let none = are_left_out(connections);
    if none {
        return Ok(());
    }
    out.blank()?;
    out.mark(Mark::Hash)?;
    out.mark(Mark::LeftParenthesis)?;
    write_connections(connections, false, out)?;
    Ok(())
}

/// An instance.
fn write_instance(instance: &Instance<'_>, out: &mut Writer) -> Result<(), AllocError>
    ensures { OnOk result (Writes out.old out.new (λ r. printed_instance (instance_of instance.now) r)) }
{
    out.word(instance.name)?;
    out.blank()?;
    out.mark(Mark::LeftParenthesis)?;
    write_connections(&instance.connections, true, out)?;
    Ok(())
}

/// Instances with commas between them.
pub(crate) fn write_instances(
    instances: &[Instance<'_>],
    out: &mut Writer,
) -> Result<(), AllocError>
    ensures { OnOk result (Writes out.old out.new (λ r. parts_before printed_instance false (map instance_of instances.now) r)) }
{
    let mut started = false;
    for instance in instances {
        out.comma_if(started)?;
        write_instance(instance, out)?;
        started = true;
    }
    Ok(())
}
