//! Whether all expressions of statements, and all parts of their targets, are narrow.

ghost use Rattle.std.specs.Prelude.{IsTrue};
ghost use Rattle.v_syntax.specs.Tree.{tree_of, target_of, statement_of};
ghost use Rattle.v_value.specs.Scope.{scope_at};
ghost use Rattle.v_value.specs.Narrow.{IsNarrow};
ghost use Rattle.v_statement.specs.Effects.{item_statement};
ghost use Rattle.v_flow.specs.Narrow.{HasNarrowParts, IsNarrowFlow};
ghost use Rattle.v_flow.specs.Flow.{AreNarrowLadder, AreNarrowAll, IsNarrowLabel, AreNarrowItems};

use crate::fit::{labels_fit, target_fits};
use v_narrow::is_narrow;
use v_size::Names;
use v_syntax::tree::{Arm, CaseItem, Expression, Statement, Target};

fn assignment_fits<'s>(target: &Target<'s>, value: &Expression<'s>, names: Names<'_, '_>) -> bool
    ensures { IsTrue result → HasNarrowParts (scope_at names.entry.scope.now) (target_of target.now) × IsNarrow (scope_at names.entry.scope.now) (tree_of value.now) }
{
    if !target_fits(target, names) {
        return false;
    }
    is_narrow(value, names.scope)
}

/// Whether all expressions of a statement, and all parts of its targets, are narrow.
#[cycle(fitting)]
pub fn statement_fits(statement: &Statement<'_>, names: Names<'_, '_>) -> bool
    ensures { IsTrue result → IsNarrowFlow (scope_at names.entry.scope.now) (statement_of statement.now) }
{
    match statement {
        Statement::Empty => true,
        Statement::Blocking(target, value) => assignment_fits(target, value, names),
        Statement::Nonblocking(target, value) => assignment_fits(target, value, names),
        Statement::If(arms, last) => match last {
            Some(other) => {
                if !statement_fits(other, names) {
                    return false;
                }
                arms_fit(arms, names)
            }
            None => arms_fit(arms, names),
        },
        Statement::Case(_, value, items) => {
            if !is_narrow(value, names.scope) {
                return false;
            }
            items_fit(items, names)
        }
        Statement::Block(_, statements) => all_fit(statements, names),
    }
}

#[cycle(fitting)]
fn all_fit(statements: &[Statement<'_>], names: Names<'_, '_>) -> bool
    ensures { IsTrue result → AreNarrowAll (scope_at names.entry.scope.now) statements.now }
{
    for statement in statements {
        if !statement_fits(statement, names) {
            return false;
        }
    }
    true
}

#[cycle(fitting)]
fn arms_fit(arms: &[Arm<'_>], names: Names<'_, '_>) -> bool
    ensures { IsTrue result → AreNarrowLadder (scope_at names.entry.scope.now) arms.now }
{
    for arm in arms {
        if !is_narrow(&arm.condition, names.scope) {
            return false;
        }
        if !statement_fits(&arm.statement, names) {
            return false;
        }
    }
    true
}

#[cycle(fitting)]
fn items_fit(items: &[CaseItem<'_>], names: Names<'_, '_>) -> bool
    ensures { IsTrue result → AreNarrowItems (scope_at names.entry.scope.now) items.now }
{
    for item in items {
        if !labels_fit(item, names) {
            return false;
        }
        if !body_fits(item, names) {
            return false;
        }
    }
    true
}

#[cycle(fitting)]
fn body_fits(item: &CaseItem<'_>, names: Names<'_, '_>) -> bool
    ensures { IsTrue result → IsNarrowFlow (scope_at names.entry.scope.now) (item_statement item.now) }
{
    match item {
        CaseItem::Values(_, statement) => statement_fits(statement, names),
        CaseItem::Default(statement) => statement_fits(statement, names),
    }
}
