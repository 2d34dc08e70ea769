//! The bits that statements may assign.

ghost use Rattle.std.specs.Prelude.{◌≡◌, OnOk};
ghost use Rattle.verilog_designs.specs.Reads.{or_in};
ghost use Rattle.verilog_meaning.specs.Register.{may_assign};
ghost use Rattle.v_value.specs.Scope.{scope_at};
ghost use Rattle.v_value.specs.Narrow.{HasNarrowObjects};
ghost use Rattle.v_syntax.specs.Tree.{statement_of};
ghost use Rattle.v_statement.specs.Effects.{item_statement};
ghost use Rattle.v_flow.specs.Spans.{bits_in, existing};
ghost use Rattle.v_flow.specs.Narrow.{IsNarrowFlow};
ghost use Rattle.v_flow.specs.Flow.{assigned_at, all_assigned, ladder_assigned, bodies_assigned, AreNarrowLadder, AreNarrowAll, AreNarrowItems};

use crate::reached::add_each;
use crate::span::Span;
use std::alloc::AllocError;
use v_syntax::tree::{Arm, CaseItem, Statement};
use v_value::scope::Scope;

#[cycle(assigning)]
fn add_statement<'s>(
    statement: &Statement<'s>,
    scope: &Scope<'_>,
    found: &mut Vec<Span<'s>>,
) -> Result<(), AllocError>
    requires objects { HasNarrowObjects (scope_at scope.now) }
    requires narrow { IsNarrowFlow (scope_at scope.now) (statement_of statement.now) }
    ensures { OnOk result (bits_in found.new.items ≡ or_in (bits_in found.old.items) (assigned_at (scope_at scope.now) (statement_of statement.now))) }
{
    match statement {
        Statement::Empty => Ok(()),
        Statement::Blocking(target, _) => add_each(target, scope, false, found),
        Statement::Nonblocking(target, _) => add_each(target, scope, false, found),
        Statement::If(arms, last) => {
            add_ladder(arms, scope, found)?;
            match last {
                Some(other) => add_statement(other, scope, found),
                None => Ok(()),
            }
        }
        Statement::Case(_, _, items) => add_bodies(items, scope, found),
        Statement::Block(_, statements) => add_all(statements, scope, found),
    }
}

#[cycle(assigning)]
fn add_all<'s>(
    statements: &[Statement<'s>],
    scope: &Scope<'_>,
    found: &mut Vec<Span<'s>>,
) -> Result<(), AllocError>
    requires objects { HasNarrowObjects (scope_at scope.now) }
    requires narrow { AreNarrowAll (scope_at scope.now) statements.now }
    ensures { OnOk result (bits_in found.new.items ≡ or_in (bits_in found.old.items) (all_assigned (scope_at scope.now) statements.now)) }
{
    for statement in statements {
        add_statement(statement, scope, found)?;
    }
    Ok(())
}

#[cycle(assigning)]
fn add_ladder<'s>(
    arms: &[Arm<'s>],
    scope: &Scope<'_>,
    found: &mut Vec<Span<'s>>,
) -> Result<(), AllocError>
    requires objects { HasNarrowObjects (scope_at scope.now) }
    requires narrow { AreNarrowLadder (scope_at scope.now) arms.now }
    ensures { OnOk result (bits_in found.new.items ≡ or_in (bits_in found.old.items) (ladder_assigned (scope_at scope.now) arms.now)) }
{
    for arm in arms {
        add_statement(&arm.statement, scope, found)?;
    }
    Ok(())
}

#[cycle(assigning)]
fn add_bodies<'s>(
    items: &[CaseItem<'s>],
    scope: &Scope<'_>,
    found: &mut Vec<Span<'s>>,
) -> Result<(), AllocError>
    requires objects { HasNarrowObjects (scope_at scope.now) }
    requires narrow { AreNarrowItems (scope_at scope.now) items.now }
    ensures { OnOk result (bits_in found.new.items ≡ or_in (bits_in found.old.items) (bodies_assigned (scope_at scope.now) items.now)) }
{
    for item in items {
        add_body(item, scope, found)?;
    }
    Ok(())
}

#[cycle(assigning)]
fn add_body<'s>(
    item: &CaseItem<'s>,
    scope: &Scope<'_>,
    found: &mut Vec<Span<'s>>,
) -> Result<(), AllocError>
    requires objects { HasNarrowObjects (scope_at scope.now) }
    requires narrow { IsNarrowFlow (scope_at scope.now) (item_statement item.now) }
    ensures { OnOk result (bits_in found.new.items ≡ or_in (bits_in found.old.items) (assigned_at (scope_at scope.now) (item_statement item.now))) }
{
    match item {
        CaseItem::Values(_, statement) => add_statement(statement, scope, found),
        CaseItem::Default(statement) => add_statement(statement, scope, found),
    }
}

/// Adds the bits of names that a run of a statement may assign, whatever its conditions are.
#[tactic(auto, unfolding(crate::specs::Flow::assigned_at))]
pub fn add_assigned<'s>(
    statement: &Statement<'s>,
    scope: &Scope<'_>,
    found: &mut Vec<Span<'s>>,
) -> Result<(), AllocError>
    requires objects { HasNarrowObjects (scope_at scope.now) }
    requires narrow { IsNarrowFlow (scope_at scope.now) (statement_of statement.now) }
    ensures { OnOk result (bits_in found.new.items ≡ or_in (bits_in found.old.items) (existing (scope_at scope.now) (may_assign (scope_at scope.now) (statement_of statement.now)))) }
{
    add_statement(statement, scope, found)
}
