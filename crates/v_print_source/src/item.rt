//! Module items, each with the `;` or the statement that ends it.
ghost use Rattle.std.specs.Prelude.{◌∷◌, false, map, codes, OnOk};
ghost use Rattle.verilog_text.specs.Token.{word, mark, at};
ghost use Rattle.v_syntax.specs.Tree.{statement_of};
ghost use Rattle.v_syntax.specs.Source.{events_of, optional_range_of, item_of};
ghost use Rattle.v_print.specs.Bodies.{parts_before, flag_before, event_before, events_before, or_if, control_before};
ghost use Rattle.v_print.specs.Writes.{Writes};
ghost use Rattle.v_print_source.specs.Lists.{event_of, continuous_of};
ghost use Rattle.v_print_source.specs.Shown.{printed_range, printed_statement, printed_continuous, printed_item};

use crate::connection::{write_instances, write_overrides};
use crate::declaration::{
    write_parameter, write_port, write_range, write_signed, write_variables, write_wires,
};
use crate::layout::{body_level, gap};
use crate::statement::{stands_beside, write_statement};
use crate::target::write_assignment;
use std::alloc::AllocError;
use v_print::writer::Writer;
use v_syntax::module::{Assignment, EdgeKind, Event, Events, Item, Range};
use v_syntax::tree::Statement;
use v_token::token::Mark;

/// An event.
fn write_event(event: &Event<'_>, out: &mut Writer) -> Result<(), AllocError>
    ensures { OnOk result (Writes out.old out.new (λ r. event_before (event_of event.now) r)) }
{
    match event.edge {
        EdgeKind::Posedge => {
            out.word("posedge")?;
            out.word(event.signal)?;
            Ok(())
        }
        EdgeKind::Negedge => {
            out.word("negedge")?;
            out.word(event.signal)?;
            Ok(())
        }
        EdgeKind::AnyEdge => {
            out.word(event.signal)?;
            Ok(())
        }
    }
}

/// `or`, where something stands before.
fn write_or(wanted: bool, out: &mut Writer) -> Result<(), AllocError>
    ensures { OnOk result (Writes out.old out.new (λ r. or_if wanted r)) }
{
    if !wanted {
        return Ok(());
    }
    out.word("or")?;
    Ok(())
}

/// Events with `or` between them.
fn write_events(events: &[Event<'_>], out: &mut Writer) -> Result<(), AllocError>
    ensures { OnOk result (Writes out.old out.new (λ r. events_before false (map event_of events.now) r)) }
{
    let mut started = false;
    for event in events {
        write_or(started, out)?;
        write_event(event, out)?;
        started = true;
    }
    Ok(())
}

/// What a block waits for, behind its `@`.
fn write_control(events: &Events<'_>, out: &mut Writer) -> Result<(), AllocError>
    ensures { OnOk result (Writes out.old out.new (λ r. control_before (events_of events.now) r)) }
{
    match events {
        Events::AnyChange => {
            out.mark(Mark::Star)?;
            Ok(())
        }
        Events::OnEvents(list) => {
            out.mark(Mark::LeftParenthesis)?;
            write_events(list, out)?;
            out.mark(Mark::RightParenthesis)?;
            Ok(())
        }
    }
}

/// A continuous assignment.
fn write_continuous(assignment: &Assignment<'_>, out: &mut Writer) -> Result<(), AllocError>
    ensures { OnOk result (Writes out.old out.new (λ r. printed_continuous (continuous_of assignment.now) r)) }
{
    write_assignment(&assignment.target, Mark::Equals, &assignment.value, out)?;
    Ok(())
}

/// Continuous assignments with commas between them.
fn write_all_continuous(assignments: &[Assignment<'_>], out: &mut Writer) -> Result<(), AllocError>
    ensures { OnOk result (Writes out.old out.new (λ r. parts_before printed_continuous false (map continuous_of assignments.now) r)) }
{
    let mut started = false;
    for assignment in assignments {
        out.comma_if(started)?;
        write_continuous(assignment, out)?;
        started = true;
    }
    Ok(())
}

/// The word of a declaration, `signed` and the range.
fn write_kind_of(
    text: &str,
    signed: bool,
    range: &Option<Box<Range<'_>>>,
    out: &mut Writer,
) -> Result<(), AllocError>
    ensures { OnOk result (Writes out.old out.new (λ r. word text.now ∷ flag_before (codes "signed") signed (printed_range (optional_range_of range.now) r))) }
{
    out.word(text)?;
    write_signed(signed, out)?;
    write_range(range, out)?;
    out.blank()?;
    Ok(())
}

/// A module item.
pub(crate) fn write_item(item: &Item<'_>, colons: bool, out: &mut Writer) -> Result<(), AllocError>
    ensures { OnOk result (Writes out.old out.new (λ r. printed_item colons (item_of item.now) r)) }
{
    match item {
        Item::Port(port) => {
            write_port(port, out)?;
            out.mark(Mark::Semicolon)?;
            Ok(())
        }
        Item::Parameter(parameter) => {
            write_parameter(parameter, out)?;
            out.mark(Mark::Semicolon)?;
            Ok(())
        }
        Item::Wires(signed, range, wires) => {
            write_kind_of("wire", *signed, range, out)?;
            write_wires(wires, out)?;
            out.mark(Mark::Semicolon)?;
            Ok(())
        }
        Item::Variables(signed, range, variables) => {
            write_kind_of("reg", *signed, range, out)?;
            write_variables(variables, out)?;
            out.mark(Mark::Semicolon)?;
            Ok(())
        }
        Item::Assign(assignments) => {
            out.word("assign")?;
            out.blank()?;
            write_all_continuous(assignments, out)?;
            out.mark(Mark::Semicolon)?;
            Ok(())
        }
        Item::Always(events, statement) => {
            write_always(events, statement, colons, out)?;
            Ok(())
        }
        Item::Instances(module, overrides, instances) => {
            out.word(module)?;
            write_overrides(overrides, out)?;
            out.blank()?;
            write_instances(instances, out)?;
            out.mark(Mark::Semicolon)?;
            Ok(())
        }
    }
}

/// A block with what it waits for.
fn write_always(
    events: &Events<'_>,
    statement: &Statement<'_>,
    colons: bool,
    out: &mut Writer,
) -> Result<(), AllocError>
    ensures { OnOk result (Writes out.old out.new (λ r. word (codes "always") ∷ mark at ∷ control_before (events_of events.now) (printed_statement colons (statement_of statement.now) r))) }
{
    let beside = stands_beside(statement);
    let level = body_level(beside, 1);
    out.word("always")?;
    out.blank()?;
    out.mark(Mark::At)?;
    write_control(events, out)?;
    gap(beside, level, out)?;
    write_statement(statement, colons, level, out)?;
    Ok(())
}
