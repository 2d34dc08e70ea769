//! The rules that statements break, one after the other down the tree.
ghost use Rattle.std.specs.Prelude.{◌≡◌};
ghost use Rattle.v_value.specs.Scope.{scope_at};
ghost use Rattle.v_syntax.specs.Tree.{tree_of, target_of, case_kind_of, statement_of};
ghost use Rattle.v_size.specs.Rule.{both};
ghost use Rattle.v_rules.specs.Judging.{broken_at, none};
ghost use Rattle.v_rules.specs.Targets.{block_target_at};
ghost use Rattle.v_rules.specs.Statements.{statement_at, statements_from, ladder_from, item_at, items_from};

use crate::expression::{broken_expression, broken_values};
use crate::target::broken_block_target;
use v_size::{Broken, Names, also, nothing};
use v_syntax::tree::{Arm, CaseItem, CaseKind, Expression, Statement, Target};

/// The rules that an assignment in a block breaks.
fn broken_assignment<'s>(
    target: &Target<'s>,
    value: &Expression<'s>,
    names: Names<'_, '_>,
    clocked: bool,
) -> Broken
    ensures { result ≡ both (block_target_at (scope_at names.entry.scope.now) clocked (target_of target.now)) (broken_at (scope_at names.entry.scope.now) (tree_of value.now)) }
{
    also(
        broken_block_target(target, names, clocked),
        broken_expression(value, names),
    )
}

/// The rules that a statement of a clocked block breaks, or of another one.
#[cycle(statement)]
pub(crate) fn broken_statement(
    statement: &Statement<'_>,
    names: Names<'_, '_>,
    clocked: bool,
) -> Broken
    ensures { result ≡ statement_at (scope_at names.entry.scope.now) clocked (statement_of statement.now) }
{
    match statement {
        Statement::Empty => nothing(),
        Statement::Blocking(target, value) => broken_assignment(target, value, names, clocked),
        Statement::Nonblocking(target, value) => broken_assignment(target, value, names, clocked),
        Statement::If(arms, last) => match last {
            Some(other) => broken_ladder(
                arms,
                names,
                clocked,
                broken_statement(other, names, clocked),
            ),
            None => broken_ladder(arms, names, clocked, nothing()),
        },
        Statement::Case(kind, expression, items) => also(
            broken_expression(expression, names),
            broken_items(items, names, clocked, *kind),
        ),
        Statement::Block(_, statements) => broken_statements(statements, names, clocked),
    }
}

/// The rules that statements break.
#[cycle(statement)]
fn broken_statements(statements: &[Statement<'_>], names: Names<'_, '_>, clocked: bool) -> Broken
    ensures { result ≡ statements_from (scope_at names.entry.scope.now) clocked none statements.now }
{
    let mut all = nothing();
    for statement in statements {
        all = also(all, broken_statement(statement, names, clocked));
    }
    all
}

/// The rules that the arms of an `if` break, and with them those that the statement after its last `else` breaks.
#[cycle(statement)]
fn broken_ladder(arms: &[Arm<'_>], names: Names<'_, '_>, clocked: bool, last: Broken) -> Broken
    ensures { result ≡ both (ladder_from (scope_at names.entry.scope.now) clocked none arms.now) last }
{
    let mut all = nothing();
    for arm in arms {
        all = also(
            all,
            also(
                broken_expression(&arm.condition, names),
                broken_statement(&arm.statement, names, clocked),
            ),
        );
    }
    also(all, last)
}

/// The rules that the items of a case break.
#[cycle(statement)]
fn broken_items(
    items: &[CaseItem<'_>],
    names: Names<'_, '_>,
    clocked: bool,
    kind: CaseKind,
) -> Broken
    ensures { result ≡ items_from (scope_at names.entry.scope.now) clocked (case_kind_of kind) none items.now }
{
    let mut all = nothing();
    for item in items {
        all = also(all, broken_item(item, names, clocked, kind));
    }
    all
}

/// The rules that an item of a case breaks.
#[cycle(statement)]
fn broken_item(item: &CaseItem<'_>, names: Names<'_, '_>, clocked: bool, kind: CaseKind) -> Broken
    ensures { result ≡ item_at (scope_at names.entry.scope.now) clocked (case_kind_of kind) item.now }
{
    match item {
        CaseItem::Values(values, statement) => also(
            broken_values(values, names, kind),
            broken_statement(statement, names, clocked),
        ),
        CaseItem::Default(statement) => broken_statement(statement, names, clocked),
    }
}
