//! The clocked block of an emitted design.

ghost use Rattle.std.specs.Prelude.{◌≡◌, codes, length, IfOk};
ghost use Rattle.verilog_trees.specs.Syntax as pure;
ghost use Rattle.verilog_meaning.specs.Settled.{whole_name};
ghost use Rattle.v_syntax.specs.Tree.{statement_of};
ghost use Rattle.v_syntax.specs.Source.{events_of, item_of};
ghost use Rattle.emitted_designs.specs.Names.{reset_name, start_name};
ghost use Rattle.emitted_modules.specs.Rtl as rtl;
ghost use Rattle.emitted_names.specs.Named.{AreNumbered};
ghost use Rattle.emitted_names.specs.Parts.{AreWaysTo};
ghost use Rattle.emitted_trees.specs.Emitted.{clocked_for};

use crate::NoMemory;
use crate::expressions::whole;
use crate::lists::{one, with};
use crate::nodes::Wires;
use crate::resets::reset_statements;
use crate::statements::in_block;
use crate::updates::instruction_statements;
use emitted_names::Way;
use ila_model::IlaModel;
use std::alloc::Global;
use v_expr::ExpressionStop;
use v_syntax::module::{EdgeKind, Event, Events, Item};
use v_syntax::tree::{Arm, Statement};

/// `if (wb_rst) x else if (wb_start) y`
fn reset_or_start<'n>(
    alloc: Global,
    reset: Statement<'n>,
    start: Statement<'n>,
) -> Result<Statement<'n>, NoMemory>
    ensures { IfOk result (λ x. statement_of x ≡ pure.if_else (whole_name reset_name) (statement_of reset.entry) (pure.if_then (whole_name start_name) (statement_of start.entry))) }
{
    let first = Arm {
        condition: whole("wb_rst"),
        statement: reset,
    };
    let second = Arm {
        condition: whole("wb_start"),
        statement: start,
    };
    let arm = one(alloc, first)?;
    let arms = with(arm, second)?;
    Ok(Statement::If(arms, None))
}

/// What the clock's edge does.
fn clocked_statement<'n>(
    alloc: Global,
    wires: Wires<'n>,
    model: &'n IlaModel,
    ways: &'n [Vec<Way>],
) -> Result<Statement<'n>, ExpressionStop>
    requires terms { wires.terms.now ≡ model.now.parts.terms }
    requires ways { AreWaysTo model.now.parts.terms model.now.parts.instructions.items (length model.now.parts.instructions.items) ways.now }
    requires named { AreNumbered (codes "wb_t") (length wires.terms.now.nodes) wires.names.now }
    ensures { IfOk result (λ x. statement_of x ≡ clocked_for model.now.parts) }
{
    let reset = reset_statements(alloc, model)?;
    let instructions = model.parts.instructions.as_slice();
    let start = instruction_statements(alloc, wires, instructions, ways)?;
    let made = reset_or_start(alloc, in_block(reset), in_block(start))?;
    Ok(made)
}

/// `@(posedge wb_clk)`
fn at_clock<'n>(alloc: Global) -> Result<Events<'n>, NoMemory>
    ensures { IfOk result (λ e. events_of e ≡ rtl.at_clock) }
{
    let mut events = Vec::new(alloc);
    events.push(Event {
        edge: EdgeKind::Posedge,
        signal: "wb_clk",
    })?;
    Ok(Events::OnEvents(events))
}

/// `always @(posedge wb_clk) x`
fn always<'n>(alloc: Global, statement: Statement<'n>) -> Result<Item<'n>, NoMemory>
    ensures { IfOk result (λ i. item_of i ≡ pure.always rtl.at_clock (statement_of statement.entry)) }
{
    let body = Box::new(alloc, statement)?;
    let events = at_clock(alloc)?;
    Ok(Item::Always(events, body))
}

/// The clocked block.
pub(crate) fn clocked_block<'n>(
    alloc: Global,
    wires: Wires<'n>,
    model: &'n IlaModel,
    ways: &'n [Vec<Way>],
) -> Result<Item<'n>, ExpressionStop>
    requires terms { wires.terms.now ≡ model.now.parts.terms }
    requires ways { AreWaysTo model.now.parts.terms model.now.parts.instructions.items (length model.now.parts.instructions.items) ways.now }
    requires named { AreNumbered (codes "wb_t") (length wires.terms.now.nodes) wires.names.now }
    ensures { IfOk result (λ i. item_of i ≡ pure.always rtl.at_clock (clocked_for model.now.parts)) }
{
    let statement = clocked_statement(alloc, wires, model, ways)?;
    let item = always(alloc, statement)?;
    Ok(item)
}
