//! The bits that statements read.

ghost use Rattle.std.specs.Prelude.{◌≡◌, OnOk};
ghost use Rattle.verilog_designs.specs.Reads.{or_in};
ghost use Rattle.verilog_designs.specs.Drivers.{statement_reads};
ghost use Rattle.v_value.specs.Scope.{scope_at};
ghost use Rattle.v_value.specs.Narrow.{IsNarrow, HasNarrowObjects};
ghost use Rattle.v_syntax.specs.Tree.{tree_of, target_of, statement_of};
ghost use Rattle.v_statement.specs.Effects.{item_statement};
ghost use Rattle.v_flow.specs.Spans.{bits_in};
ghost use Rattle.v_flow.specs.Narrow.{HasNarrowParts, IsNarrowFlow};
ghost use Rattle.v_flow.specs.Flow.{reads_at, target_reads_at, statement_reads_at, all_read, ladder_reads, label_reads, labels_read, bodies_read, AreNarrowLadder, AreNarrowAll, IsNarrowLabel, AreNarrowItems};

use crate::reached::add_indexes;
use crate::read::{add_parts, add_read};
use crate::span::Span;
use std::alloc::AllocError;
use v_syntax::tree::{Arm, CaseItem, Expression, Statement, Target};
use v_value::scope::Scope;

/// Adds what an assignment reads: its value, and the indexes of its target.
fn add_assignment<'s>(
    target: &Target<'s>,
    value: &Expression<'s>,
    scope: &Scope<'_>,
    found: &mut Vec<Span<'s>>,
) -> Result<(), AllocError>
    requires objects { HasNarrowObjects (scope_at scope.now) }
    requires target { HasNarrowParts (scope_at scope.now) (target_of target.now) }
    requires value { IsNarrow (scope_at scope.now) (tree_of value.now) }
    ensures { OnOk result (bits_in found.new.items ≡ or_in (bits_in found.old.items) (or_in (reads_at (scope_at scope.now) (tree_of value.now)) (target_reads_at (scope_at scope.now) (target_of target.now)))) }
{
    add_read(value, scope, found)?;
    add_indexes(target, scope, found)
}

/// Adds what the values of an item read.
fn add_label<'s>(
    item: &CaseItem<'s>,
    scope: &Scope<'_>,
    found: &mut Vec<Span<'s>>,
) -> Result<(), AllocError>
    requires objects { HasNarrowObjects (scope_at scope.now) }
    requires narrow { IsNarrowLabel (scope_at scope.now) item.now }
    ensures { OnOk result (bits_in found.new.items ≡ or_in (bits_in found.old.items) (label_reads (scope_at scope.now) item.now)) }
{
    match item {
        CaseItem::Values(values, _) => add_parts(values, scope, found),
        CaseItem::Default(_) => Ok(()),
    }
}

fn add_labels<'s>(
    items: &[CaseItem<'s>],
    scope: &Scope<'_>,
    found: &mut Vec<Span<'s>>,
) -> Result<(), AllocError>
    requires objects { HasNarrowObjects (scope_at scope.now) }
    requires narrow { AreNarrowItems (scope_at scope.now) items.now }
    ensures { OnOk result (bits_in found.new.items ≡ or_in (bits_in found.old.items) (labels_read (scope_at scope.now) items.now)) }
{
    for item in items {
        add_label(item, scope, found)?;
    }
    Ok(())
}

#[cycle(stating)]
fn add_statement<'s>(
    statement: &Statement<'s>,
    scope: &Scope<'_>,
    found: &mut Vec<Span<'s>>,
) -> Result<(), AllocError>
    requires objects { HasNarrowObjects (scope_at scope.now) }
    requires narrow { IsNarrowFlow (scope_at scope.now) (statement_of statement.now) }
    ensures { OnOk result (bits_in found.new.items ≡ or_in (bits_in found.old.items) (statement_reads_at (scope_at scope.now) (statement_of statement.now))) }
{
    match statement {
        Statement::Empty => Ok(()),
        Statement::Blocking(target, value) => add_assignment(target, value, scope, found),
        Statement::Nonblocking(target, value) => add_assignment(target, value, scope, found),
        Statement::If(arms, last) => {
            add_ladder(arms, scope, found)?;
            match last {
                Some(other) => add_statement(other, scope, found),
                None => Ok(()),
            }
        }
        Statement::Case(_, value, items) => {
            add_read(value, scope, found)?;
            add_labels(items, scope, found)?;
            add_bodies(items, scope, found)
        }
        Statement::Block(_, statements) => add_all(statements, scope, found),
    }
}

#[cycle(stating)]
fn add_all<'s>(
    statements: &[Statement<'s>],
    scope: &Scope<'_>,
    found: &mut Vec<Span<'s>>,
) -> Result<(), AllocError>
    requires objects { HasNarrowObjects (scope_at scope.now) }
    requires narrow { AreNarrowAll (scope_at scope.now) statements.now }
    ensures { OnOk result (bits_in found.new.items ≡ or_in (bits_in found.old.items) (all_read (scope_at scope.now) statements.now)) }
{
    for statement in statements {
        add_statement(statement, scope, found)?;
    }
    Ok(())
}

#[cycle(stating)]
fn add_ladder<'s>(
    arms: &[Arm<'s>],
    scope: &Scope<'_>,
    found: &mut Vec<Span<'s>>,
) -> Result<(), AllocError>
    requires objects { HasNarrowObjects (scope_at scope.now) }
    requires narrow { AreNarrowLadder (scope_at scope.now) arms.now }
    ensures { OnOk result (bits_in found.new.items ≡ or_in (bits_in found.old.items) (ladder_reads (scope_at scope.now) arms.now)) }
{
    for arm in arms {
        add_read(&arm.condition, scope, found)?;
        add_statement(&arm.statement, scope, found)?;
    }
    Ok(())
}

#[cycle(stating)]
fn add_bodies<'s>(
    items: &[CaseItem<'s>],
    scope: &Scope<'_>,
    found: &mut Vec<Span<'s>>,
) -> Result<(), AllocError>
    requires objects { HasNarrowObjects (scope_at scope.now) }
    requires narrow { AreNarrowItems (scope_at scope.now) items.now }
    ensures { OnOk result (bits_in found.new.items ≡ or_in (bits_in found.old.items) (bodies_read (scope_at scope.now) items.now)) }
{
    for item in items {
        add_body(item, scope, found)?;
    }
    Ok(())
}

#[cycle(stating)]
fn add_body<'s>(
    item: &CaseItem<'s>,
    scope: &Scope<'_>,
    found: &mut Vec<Span<'s>>,
) -> Result<(), AllocError>
    requires objects { HasNarrowObjects (scope_at scope.now) }
    requires narrow { IsNarrowFlow (scope_at scope.now) (item_statement item.now) }
    ensures { OnOk result (bits_in found.new.items ≡ or_in (bits_in found.old.items) (statement_reads_at (scope_at scope.now) (item_statement item.now))) }
{
    match item {
        CaseItem::Values(_, statement) => add_statement(statement, scope, found),
        CaseItem::Default(statement) => add_statement(statement, scope, found),
    }
}

/// Adds the bits that a statement reads anywhere.
#[tactic(auto, unfolding(crate::specs::Flow::statement_reads_at))]
pub fn add_statement_reads<'s>(
    statement: &Statement<'s>,
    scope: &Scope<'_>,
    found: &mut Vec<Span<'s>>,
) -> Result<(), AllocError>
    requires objects { HasNarrowObjects (scope_at scope.now) }
    requires narrow { IsNarrowFlow (scope_at scope.now) (statement_of statement.now) }
    ensures { OnOk result (bits_in found.new.items ≡ or_in (bits_in found.old.items) (statement_reads (scope_at scope.now) (statement_of statement.now))) }
{
    add_statement(statement, scope, found)
}
