//! Whether each name in a statement may be used, one after the other down the tree.
ghost use Rattle.std.specs.Prelude.{◌≡◌, ◌&&◌, ◌++◌};
ghost use Rattle.verilog_designs.specs.Names.{names_in, names_in_target};
ghost use Rattle.v_syntax.specs.Tree.{tree_of, target_of, statement_of};
ghost use Rattle.v_hier.specs.Reading.{knows, all_known, target_known, targets_known, statement_known, statements_known, arms_known, item_known, items_known};

use crate::expression::{are_parts_known, are_selects_known, is_expression_known};
use crate::known::{Names, both, is_known};
use v_syntax::tree::{Arm, CaseItem, Expression, Statement, Target};

/// Whether each name in the target may be used.
#[cycle(target)]
pub(crate) fn is_target_known(target: &Target<'_>, names: &Names<'_, '_>) -> bool
    ensures { result ≡ target_known (knows names.now) (target_of target.now) }
{
    match target {
        Target::Place(name, selects) => both(
            is_known(names, name),
            are_selects_known(selects, names),
        ),
        Target::Joined(targets) => are_targets_known(targets, names),
    }
}

/// Whether each name in the targets may be used.
#[cycle(target)]
fn are_targets_known(targets: &[Target<'_>], names: &Names<'_, '_>) -> bool
    ensures { result ≡ targets_known (knows names.now) targets.now }
{
    for target in targets {
        if !is_target_known(target, names) {
            return false;
        }
    }
    true
}

/// Whether each name in an assignment may be used.
pub(crate) fn is_assignment_known<'s>(
    target: &Target<'s>,
    value: &Expression<'s>,
    names: &Names<'_, '_>,
) -> bool
    ensures { result ≡ all_known (knows names.now) (names_in_target (target_of target.now) ++ names_in (tree_of value.now)) }
{
    both(
        is_target_known(target, names),
        is_expression_known(value, names),
    )
}

/// Whether each name in the statement may be used.
#[cycle(statement)]
pub(crate) fn is_statement_known(statement: &Statement<'_>, names: &Names<'_, '_>) -> bool
    ensures { result ≡ statement_known (knows names.now) (statement_of statement.now) }
{
    match statement {
        Statement::Empty => true,
        Statement::Blocking(target, value) => is_assignment_known(target, value, names),
        Statement::Nonblocking(target, value) => is_assignment_known(target, value, names),
        Statement::If(arms, last) => match last {
            Some(other) => are_arms_known(arms, names, is_statement_known(other, names)),
            None => are_arms_known(arms, names, true),
        },
        Statement::Case(_, expression, items) => both(
            is_expression_known(expression, names),
            are_items_known(items, names),
        ),
        Statement::Block(_, statements) => are_statements_known(statements, names),
    }
}

/// Whether each name in the statements may be used.
#[cycle(statement)]
fn are_statements_known(statements: &[Statement<'_>], names: &Names<'_, '_>) -> bool
    ensures { result ≡ statements_known (knows names.now) statements.now }
{
    for statement in statements {
        if !is_statement_known(statement, names) {
            return false;
        }
    }
    true
}

/// Whether each name in the arms of an `if` may be used, where `last` says so of what stands after its last `else`.
#[cycle(statement)]
fn are_arms_known(arms: &[Arm<'_>], names: &Names<'_, '_>, last: bool) -> bool
    ensures { result ≡ (arms_known (knows names.now) arms.now && last) }
{
    for arm in arms {
        if !is_expression_known(&arm.condition, names)
            || !is_statement_known(&arm.statement, names)
        {
            return false;
        }
    }
    last
}

/// Whether each name in the items of a `case` may be used.
#[cycle(statement)]
fn are_items_known(items: &[CaseItem<'_>], names: &Names<'_, '_>) -> bool
    ensures { result ≡ items_known (knows names.now) items.now }
{
    for item in items {
        if !is_item_known(item, names) {
            return false;
        }
    }
    true
}

/// Whether each name in an item of a `case` may be used.
#[cycle(statement)]
fn is_item_known(item: &CaseItem<'_>, names: &Names<'_, '_>) -> bool
    ensures { result ≡ item_known (knows names.now) item.now }
{
    match item {
        CaseItem::Values(values, statement) => both(
            are_parts_known(values, names),
            is_statement_known(statement, names),
        ),
        CaseItem::Default(statement) => is_statement_known(statement, names),
    }
}
