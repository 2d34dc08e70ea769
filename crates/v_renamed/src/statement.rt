//! Statements with other names.
ghost use Rattle.std.specs.Prelude.{◌≡◌, IfOk, map};
ghost use Rattle.v_syntax.specs.Tree.{statement_of};
ghost use Rattle.v_renamed.specs.NewNames.{new_name};
ghost use Rattle.v_renamed.specs.Copies.{statement_at, arm_of, item_of, statement_under, arm_under, item_under};

use crate::expression::{copy, copy_parts};
use crate::names::Names;
use crate::target::copy_target;
use std::alloc::{AllocError, Global};
use v_syntax::tree::{Arm, CaseItem, Statement};

/// The statement with its names replaced.
#[cycle(statement)]
fn copy_statement<'a, 's: 'a>(
    alloc: Global,
    tree: &Statement<'s>,
    names: &Names<'a>,
) -> Result<Statement<'a>, AllocError>
    ensures { IfOk result (λ x. statement_of x ≡ statement_at (new_name names.now) (statement_of tree.now)) }
{
    match tree {
        Statement::Empty => Ok(Statement::Empty),
        Statement::Blocking(target, value) => {
            let copied = copy_target(alloc, target, names)?;
            let target = Box::new(alloc, copied)?;
            let value = copy(alloc, value, names)?;
            Ok(Statement::Blocking(target, value))
        }
        Statement::Nonblocking(target, value) => {
            let copied = copy_target(alloc, target, names)?;
            let target = Box::new(alloc, copied)?;
            let value = copy(alloc, value, names)?;
            Ok(Statement::Nonblocking(target, value))
        }
        Statement::If(arms, last) => match last {
            Some(other) => {
                let other = copy_boxed_statement(alloc, other, names)?;
                let arms = copy_arms(alloc, arms, names)?;
                Ok(Statement::If(arms, Some(other)))
            }
            None => {
                let arms = copy_arms(alloc, arms, names)?;
                Ok(Statement::If(arms, None))
            }
        },
        Statement::Case(kind, subject, items) => {
            let subject = copy(alloc, subject, names)?;
            let items = copy_items(alloc, items, names)?;
            Ok(Statement::Case(*kind, subject, items))
        }
        Statement::Block(name, statements) => {
            let statements = copy_statements(alloc, statements, names)?;
            Ok(Statement::Block(*name, statements))
        }
    }
}

/// The statement with its names replaced, in a box.
#[cycle(statement)]
pub(crate) fn copy_boxed_statement<'a, 's: 'a>(
    alloc: Global,
    tree: &Statement<'s>,
    names: &Names<'a>,
) -> Result<Box<Statement<'a>>, AllocError>
    ensures { IfOk result (λ b. statement_of b.value ≡ statement_at (new_name names.now) (statement_of tree.now)) }
{
    let tree = copy_statement(alloc, tree, names)?;
    Ok(Box::new(alloc, tree)?)
}

/// Statements with their names replaced.
#[cycle(statement)]
fn copy_statements<'a, 's: 'a>(
    alloc: Global,
    statements: &[Statement<'s>],
    names: &Names<'a>,
) -> Result<Vec<Statement<'a>>, AllocError>
    ensures { IfOk result (λ v. map statement_of v.items ≡ map (statement_under (new_name names.now)) statements.now) }
{
    let mut copies = Vec::with_capacity(alloc, statements.len())?;
    for statement in statements {
        let statement = copy_statement(alloc, statement, names)?;
        copies.push(statement)?;
    }
    Ok(copies)
}

/// The arms of an `if` with their names replaced.
#[cycle(statement)]
fn copy_arms<'a, 's: 'a>(
    alloc: Global,
    arms: &[Arm<'s>],
    names: &Names<'a>,
) -> Result<Vec<Arm<'a>>, AllocError>
    ensures { IfOk result (λ v. map arm_of v.items ≡ map (arm_under (new_name names.now)) arms.now) }
{
    let mut copies = Vec::with_capacity(alloc, arms.len())?;
    for arm in arms {
        let condition = copy(alloc, &arm.condition, names)?;
        let statement = copy_statement(alloc, &arm.statement, names)?;
        copies.push(Arm {
            condition,
            statement,
        })?;
    }
    Ok(copies)
}

/// The items of a `case` with their names replaced.
#[cycle(statement)]
fn copy_items<'a, 's: 'a>(
    alloc: Global,
    items: &[CaseItem<'s>],
    names: &Names<'a>,
) -> Result<Vec<CaseItem<'a>>, AllocError>
    ensures { IfOk result (λ v. map item_of v.items ≡ map (item_under (new_name names.now)) items.now) }
{
    let mut copies = Vec::with_capacity(alloc, items.len())?;
    for item in items {
        let item = copy_item(alloc, item, names)?;
        copies.push(item)?;
    }
    Ok(copies)
}

/// An item of a `case` with its names replaced.
#[cycle(statement)]
fn copy_item<'a, 's: 'a>(
    alloc: Global,
    item: &CaseItem<'s>,
    names: &Names<'a>,
) -> Result<CaseItem<'a>, AllocError>
    ensures { IfOk result (λ i. item_of i ≡ item_under (new_name names.now) item.now) }
{
    match item {
        CaseItem::Values(values, statement) => {
            let values = copy_parts(alloc, values, names)?;
            let statement = copy_statement(alloc, statement, names)?;
            Ok(CaseItem::Values(values, statement))
        }
        CaseItem::Default(statement) => {
            let statement = copy_statement(alloc, statement, names)?;
            Ok(CaseItem::Default(statement))
        }
    }
}
