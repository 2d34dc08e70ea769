//! Statements. A body stands on the line that is open where it is a block, else on a line of its own.
ghost use Rattle.std.specs.Prelude.{◌≡◌, ◌∷◌, false, cond, not, OnOk};
ghost use Rattle.verilog_text.specs.Token.{word, mark, left_parenthesis, right_parenthesis, semicolon};
ghost use Rattle.verilog_text.specs.Grammar.{case_word};
ghost use Rattle.v_syntax.specs.Tree.{tree_of, statement_of, case_kind_of, name_of_option};
ghost use Rattle.v_print.specs.Spelled.{printed};
ghost use Rattle.v_print.specs.Bodies.{block_name_before};
ghost use Rattle.v_print.specs.Writes.{Writes};
ghost use Rattle.v_print_source.specs.Lists.{is_nil};
ghost use Rattle.v_print_source.specs.Shown.{else_if, printed_statement, printed_arm, printed_arms, printed_case_item, printed_case_items, printed_statements};

use crate::layout::{begin_line, body_level, gap, is_nil};
use crate::target::write_assignment;
use std::alloc::AllocError;
use v_print::expression::{write, write_parts};
use v_print::writer::Writer;
use v_syntax::tree::{Arm, CaseItem, CaseKind, Expression, Statement};
use v_token::token::Mark;

/// Whether a statement is `begin .. end`.
fn is_block(statement: &Statement<'_>) -> bool {
    match statement {
        Statement::Block(_, _) => true,
        _ => false,
    }
}

/// Whether a statement stands on the line of the `if`, `else` or `always` before it.
pub(crate) fn stands_beside(statement: &Statement<'_>) -> bool {
    match statement {
        Statement::Block(_, _) => true,
        Statement::Empty => true,
        _ => false,
    }
}

/// Whether a statement stands on the line of the values before it.
fn stands_beside_values(statement: &Statement<'_>) -> bool {
    match statement {
        Statement::If(_, _) => false,
        Statement::Case(_, _, _) => false,
        _ => true,
    }
}

/// Whether the last arm is a block.
fn ends_with_block(arms: &[Arm<'_>]) -> bool {
    match arms {
        [] => false,
        [.., arm] => is_block(&arm.statement),
    }
}

/// `case` or `casez`.
fn case_word(kind: CaseKind) -> &'static str
    ensures { result.now ≡ case_word (case_kind_of kind) }
{
    match kind {
        CaseKind::Exact => "case",
        CaseKind::Wild => "casez",
    }
}

/// The name of a block, if it has one.
fn write_block_name(name: &Option<&str>, out: &mut Writer) -> Result<(), AllocError>
    ensures { OnOk result (Writes out.old out.new (λ r. block_name_before (name_of_option name.now) r)) }
{
    match name {
        Some(text) => {
            out.between(Mark::Colon)?;
            out.word(text)?;
            Ok(())
        }
        None => Ok(()),
    }
}

/// A condition in brackets, behind its word.
fn write_head(text: &str, condition: &Expression<'_>, out: &mut Writer) -> Result<(), AllocError>
    ensures { OnOk result (Writes out.old out.new (λ r. word text.now ∷ mark left_parenthesis ∷ printed (tree_of condition.now) (mark right_parenthesis ∷ r))) }
{
    out.word(text)?;
    out.blank()?;
    out.mark(Mark::LeftParenthesis)?;
    write(condition, out)?;
    out.mark(Mark::RightParenthesis)?;
    Ok(())
}

/// `else`, where something stands before, on the line that is open or on its own.
fn write_else(wanted: bool, beside: bool, level: u64, out: &mut Writer) -> Result<(), AllocError>
    ensures { OnOk result (Writes out.old out.new (λ r. else_if wanted r)) }
{
    if !wanted {
        return Ok(());
    }
    gap(beside, level, out)?;
    out.word("else")?;
    Ok(())
}

/// The `else` behind the last arm, if there is an arm.
fn write_last_else(arms: &[Arm<'_>], level: u64, out: &mut Writer) -> Result<(), AllocError>
    ensures { OnOk result (Writes out.old out.new (λ r. else_if (not (is_nil arms.now)) r)) }
{
    write_else(!is_nil(arms), ends_with_block(arms), level, out)?;
    Ok(())
}

/// `;`, where there is no arm.
fn write_nothing(arms: &[Arm<'_>], out: &mut Writer) -> Result<(), AllocError>
    ensures { OnOk result (Writes out.old out.new (λ r. cond (is_nil arms.now) (mark semicolon ∷ r) r)) }
{
    out.mark_if(Mark::Semicolon, is_nil(arms))?;
    Ok(())
}

/// A statement at a level, from where it begins on its first line to its end.
#[cycle(statement)]
pub(crate) fn write_statement(
    statement: &Statement<'_>,
    colons: bool,
    level: u64,
    out: &mut Writer,
) -> Result<(), AllocError>
    ensures { OnOk result (Writes out.old out.new (λ r. printed_statement colons (statement_of statement.now) r)) }
{
    match statement {
        Statement::Empty => {
            out.mark(Mark::Semicolon)?;
            Ok(())
        }
        Statement::Blocking(target, value) => {
            write_assignment(target, Mark::Equals, value, out)?;
            out.mark(Mark::Semicolon)?;
            Ok(())
        }
        Statement::Nonblocking(target, value) => {
            write_assignment(target, Mark::LessEquals, value, out)?;
            out.mark(Mark::Semicolon)?;
            Ok(())
        }
        Statement::If(arms, last) => match last {
            Some(other) => {
                let beside = stands_beside(other);
                let inner = body_level(beside, level);
                write_arms(arms, colons, level, out)?;
                write_last_else(arms, level, out)?;
                gap(beside, inner, out)?;
                write_statement(other, colons, inner, out)?;
                Ok(())
            }
            None => {
                write_arms(arms, colons, level, out)?;
                write_nothing(arms, out)?;
                Ok(())
            }
        },
        Statement::Case(kind, value, items) => {
            write_head(case_word(*kind), value, out)?;
            write_case_items(items, colons, level.saturating_add(1), out)?;
            begin_line(level, out)?;
            out.word("endcase")?;
            Ok(())
        }
        Statement::Block(name, statements) => {
            out.word("begin")?;
            write_block_name(name, out)?;
            write_statements(statements, colons, level.saturating_add(1), out)?;
            begin_line(level, out)?;
            out.word("end")?;
            Ok(())
        }
    }
}

/// Conditions with their statements, and `else` between them.
#[cycle(statement)]
fn write_arms(
    arms: &[Arm<'_>],
    colons: bool,
    level: u64,
    out: &mut Writer,
) -> Result<(), AllocError>
    ensures { OnOk result (Writes out.old out.new (λ r. printed_arms colons false arms.now r)) }
{
    let mut started = false;
    let mut beside = false;
    for arm in arms {
        write_else(started, beside, level, out)?;
        write_arm(arm, colons, level, out)?;
        beside = is_block(&arm.statement);
        started = true;
    }
    Ok(())
}

/// A condition with its statement.
#[cycle(statement)]
fn write_arm(arm: &Arm<'_>, colons: bool, level: u64, out: &mut Writer) -> Result<(), AllocError>
    ensures { OnOk result (Writes out.old out.new (λ r. printed_arm colons arm.now r)) }
{
    let beside = stands_beside(&arm.statement);
    let inner = body_level(beside, level);
    write_head("if", &arm.condition, out)?;
    gap(beside, inner, out)?;
    write_statement(&arm.statement, colons, inner, out)?;
    Ok(())
}

/// Items of a case, each on a line.
#[cycle(statement)]
fn write_case_items(
    items: &[CaseItem<'_>],
    colons: bool,
    level: u64,
    out: &mut Writer,
) -> Result<(), AllocError>
    ensures { OnOk result (Writes out.old out.new (λ r. printed_case_items colons items.now r)) }
{
    for item in items {
        begin_line(level, out)?;
        write_case_item(item, colons, level, out)?;
    }
    Ok(())
}

/// Values, or `default`, with their statement.
#[cycle(statement)]
fn write_case_item(
    item: &CaseItem<'_>,
    colons: bool,
    level: u64,
    out: &mut Writer,
) -> Result<(), AllocError>
    ensures { OnOk result (Writes out.old out.new (λ r. printed_case_item colons item.now r)) }
{
    match item {
        CaseItem::Values(values, statement) => {
            let beside = stands_beside_values(statement);
            let inner = body_level(beside, level);
            write_parts(values, out)?;
            out.mark(Mark::Colon)?;
            gap(beside, inner, out)?;
            write_statement(statement, colons, inner, out)?;
            Ok(())
        }
        CaseItem::Default(statement) => {
            let beside = stands_beside_values(statement);
            let inner = body_level(beside, level);
            out.word("default")?;
            out.mark_if(Mark::Colon, colons)?;
            gap(beside, inner, out)?;
            write_statement(statement, colons, inner, out)?;
            Ok(())
        }
    }
}

/// Statements, each on a line.
#[cycle(statement)]
fn write_statements(
    statements: &[Statement<'_>],
    colons: bool,
    level: u64,
    out: &mut Writer,
) -> Result<(), AllocError>
    ensures { OnOk result (Writes out.old out.new (λ r. printed_statements colons statements.now r)) }
{
    for statement in statements {
        begin_line(level, out)?;
        write_statement(statement, colons, level, out)?;
    }
    Ok(())
}
