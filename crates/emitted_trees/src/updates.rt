//! What instructions do where they decode: a statement for each update, and for each store to a memory.

ghost use Rattle.std.specs.Prelude.{◌≡◌, ◌<◌, ◌++◌, ◌∷◌, [], codes, length, map, IfOk};
ghost use Rattle.emitted_names.specs.Parts.{AreWaysFor, AreWaysTo};
ghost use Rattle.v_syntax.specs.Tree.{statement_of};
ghost use Rattle.emitted_modules.specs.Rtl as rtl;
ghost use Rattle.emitted_modules.specs.Nodes.{operand};
ghost use Rattle.emitted_modules.specs.Module.{updates_for, guarded_for, guarded_from};
ghost use Rattle.emitted_trees.specs.Items.{take_statements};
ghost use Rattle.emitted_names.specs.Named.{AreNumbered};
ghost use Rattle.emitted_names.specs.Within.{AreUpdatesWithin, IsWithin, AreWithin};

use crate::NoMemory;
use crate::nodes::{Wires, operand};
use crate::statements::{guarded, takes, with_statement};
use crate::ways::{ways_at, with_all_stores};
use emitted_names::{Way, instruction_at, is_of_memory, update_at};
use ila_model::{Instruction, Update};
use std::alloc::Global;
use v_syntax::tree::Statement;
use wb_terms::TermId;

/// Statements with an update of a truth value or a word behind them, where a decode condition holds.
fn with_update<'n>(
    alloc: Global,
    statements: Vec<Statement<'n>>,
    wires: Wires<'n>,
    decode: TermId,
    update: Update,
) -> Result<Vec<Statement<'n>>, NoMemory>
    requires decode { decode.0 < length wires.terms.now.nodes }
    requires state { update.state.0 < length wires.terms.now.names }
    requires term { update.term.0 < length wires.terms.now.nodes }
    requires named { AreNumbered (codes "wb_t") (length wires.terms.now.nodes) wires.names.now }
    ensures { IfOk result (λ v. map statement_of v.items ≡ map statement_of statements.entry.items ++ take_statements (operand wires.entry.terms.now decode.0) (updates_for wires.entry.terms.now (update ∷ []))) }
{
    if is_of_memory(wires.terms, update) {
        return Ok(statements);
    }
    let name = wires.terms.name(update.state);
    let take = takes(alloc, name, operand(wires, update.term))?;
    let made = guarded(alloc, operand(wires, decode), take)?;
    let all = with_statement(statements, made)?;
    Ok(all)
}

/// Statements with updates of truth values and words behind them, where a decode condition holds.
fn with_updates<'n>(
    alloc: Global,
    statements: Vec<Statement<'n>>,
    wires: Wires<'n>,
    decode: TermId,
    updates: &[Update],
) -> Result<Vec<Statement<'n>>, NoMemory>
    requires decode { decode.0 < length wires.terms.now.nodes }
    requires within { AreUpdatesWithin wires.terms.now updates.now }
    requires named { AreNumbered (codes "wb_t") (length wires.terms.now.nodes) wires.names.now }
    ensures { IfOk result (λ v. map statement_of v.items ≡ map statement_of statements.entry.items ++ take_statements (operand wires.entry.terms.now decode.0) (updates_for wires.entry.terms.now updates.now)) }
{
    let mut all = statements;
    for place in 0..updates.len() {
        all = with_update(alloc, all, wires, decode, update_at(updates, place))?;
    }
    Ok(all)
}

/// Statements with what an instruction does behind them.
fn with_instruction<'n>(
    alloc: Global,
    statements: Vec<Statement<'n>>,
    wires: Wires<'n>,
    ways: &'n [Way],
    number: usize,
    instruction: &Instruction,
) -> Result<Vec<Statement<'n>>, NoMemory>
    requires within { IsWithin wires.terms.now instruction.now }
    requires named { AreNumbered (codes "wb_t") (length wires.terms.now.nodes) wires.names.now }
    requires ways { AreWaysFor wires.terms.now number instruction.now ways.now }
    ensures { IfOk result (λ v. map statement_of v.items ≡ map statement_of statements.entry.items ++ rtl.guarded_statements (guarded_for wires.entry.terms.now number instruction.now)) }
{
    let _number = number;
    let updates = instruction.updates.as_slice();
    let taken = with_updates(alloc, statements, wires, instruction.decode, updates)?;
    let all = with_all_stores(alloc, taken, wires, ways)?;
    Ok(all)
}

/// What instructions do.
pub(crate) fn instruction_statements<'n>(
    alloc: Global,
    wires: Wires<'n>,
    instructions: &[Instruction],
    rows: &'n [Vec<Way>],
) -> Result<Vec<Statement<'n>>, NoMemory>
    requires within { AreWithin wires.terms.now instructions.now }
    requires named { AreNumbered (codes "wb_t") (length wires.terms.now.nodes) wires.names.now }
    requires ways { AreWaysTo wires.terms.now instructions.now (length instructions.now) rows.now }
    ensures { IfOk result (λ v. map statement_of v.items ≡ rtl.all_guarded (guarded_from wires.entry.terms.now 0 instructions.now)) }
{
    let mut all = Vec::new(alloc);
    for number in 0..instructions.len() {
        let each = instruction_at(instructions, number);
        all = with_instruction(alloc, all, wires, ways_at(rows, number), number, each)?;
    }
    Ok(all)
}
