//! Expressions with other names.
ghost use Rattle.std.specs.Prelude.{◌≡◌, IfOk, map};
ghost use Rattle.v_syntax.specs.Tree.{tree_of, select_of, selects_of};
ghost use Rattle.v_renamed.specs.NewNames.{new_name};
ghost use Rattle.v_renamed.specs.Copies.{renamed_at, select_at, selects_at, link_of, test_of, choice_of, part_under, link_under, test_under, choice_under};

use crate::names::{Names, name_for};
use std::alloc::{AllocError, Global};
use v_syntax::tree::{BinaryLink, Choice, Expression, PrefixOperator, Select, Selects, TestLink};

/// The operators.
fn copy_operators(
    alloc: Global,
    operators: &[PrefixOperator],
) -> Result<Vec<PrefixOperator>, AllocError>
    ensures { IfOk result (λ v. v.items ≡ operators.now) }
{
    let operators = Vec::from_slice(alloc, operators)?;
    Ok(operators)
}

/// The expression with its names replaced.
#[cycle(expression)]
pub(crate) fn copy<'a, 's: 'a>(
    alloc: Global,
    tree: &Expression<'s>,
    names: &Names<'a>,
) -> Result<Expression<'a>, AllocError>
    ensures { IfOk result (λ e. tree_of e ≡ renamed_at (new_name names.now) (tree_of tree.now)) }
{
    match tree {
        Expression::Number(number) => Ok(Expression::Number(*number)),
        Expression::Name(name, selects) => {
            let selects = copy_selects(alloc, selects, names)?;
            Ok(Expression::Name(name_for(names, name), selects))
        }
        Expression::Concatenation(parts) => {
            let parts = copy_parts(alloc, parts, names)?;
            Ok(Expression::Concatenation(parts))
        }
        Expression::Replication(count, parts) => {
            let count = copy_boxed(alloc, count, names)?;
            let parts = copy_parts(alloc, parts, names)?;
            Ok(Expression::Replication(count, parts))
        }
        Expression::AsSigned(operand) => {
            let operand = copy_boxed(alloc, operand, names)?;
            Ok(Expression::AsSigned(operand))
        }
        Expression::AsUnsigned(operand) => {
            let operand = copy_boxed(alloc, operand, names)?;
            Ok(Expression::AsUnsigned(operand))
        }
        Expression::Prefix(operators, operand) => {
            let operand = copy_boxed(alloc, operand, names)?;
            let operators = copy_operators(alloc, operators)?;
            Ok(Expression::Prefix(operators, operand))
        }
        Expression::Binary(first, links) => {
            let first = copy_boxed(alloc, first, names)?;
            let links = copy_links(alloc, links, names)?;
            Ok(Expression::Binary(first, links))
        }
        Expression::Test(first, links) => {
            let first = copy_boxed(alloc, first, names)?;
            let links = copy_tests(alloc, links, names)?;
            Ok(Expression::Test(first, links))
        }
        Expression::Conditional(choices, last) => {
            let last = copy_boxed(alloc, last, names)?;
            let choices = copy_choices(alloc, choices, names)?;
            Ok(Expression::Conditional(choices, last))
        }
    }
}

/// The expression with its names replaced, in a box.
#[cycle(expression)]
fn copy_boxed<'a, 's: 'a>(
    alloc: Global,
    tree: &Expression<'s>,
    names: &Names<'a>,
) -> Result<Box<Expression<'a>>, AllocError>
    ensures { IfOk result (λ b. tree_of b.value ≡ renamed_at (new_name names.now) (tree_of tree.now)) }
{
    let tree = copy(alloc, tree, names)?;
    Ok(Box::new(alloc, tree)?)
}

/// Expressions with their names replaced.
#[cycle(expression)]
pub(crate) fn copy_parts<'a, 's: 'a>(
    alloc: Global,
    parts: &[Expression<'s>],
    names: &Names<'a>,
) -> Result<Vec<Expression<'a>>, AllocError>
    ensures { IfOk result (λ v. map tree_of v.items ≡ map (part_under (new_name names.now)) parts.now) }
{
    let mut copies = Vec::with_capacity(alloc, parts.len())?;
    for part in parts {
        let part = copy(alloc, part, names)?;
        copies.push(part)?;
    }
    Ok(copies)
}

/// Operators with their right operands, whose names are replaced.
#[cycle(expression)]
fn copy_links<'a, 's: 'a>(
    alloc: Global,
    links: &[BinaryLink<'s>],
    names: &Names<'a>,
) -> Result<Vec<BinaryLink<'a>>, AllocError>
    ensures { IfOk result (λ v. map link_of v.items ≡ map (link_under (new_name names.now)) links.now) }
{
    let mut copies = Vec::with_capacity(alloc, links.len())?;
    for link in links {
        let operand = copy(alloc, &link.operand, names)?;
        copies.push(BinaryLink {
            operator: link.operator,
            operand,
        })?;
    }
    Ok(copies)
}

/// The same of comparisons and logical operators.
#[cycle(expression)]
fn copy_tests<'a, 's: 'a>(
    alloc: Global,
    links: &[TestLink<'s>],
    names: &Names<'a>,
) -> Result<Vec<TestLink<'a>>, AllocError>
    ensures { IfOk result (λ v. map test_of v.items ≡ map (test_under (new_name names.now)) links.now) }
{
    let mut copies = Vec::with_capacity(alloc, links.len())?;
    for link in links {
        let operand = copy(alloc, &link.operand, names)?;
        copies.push(TestLink {
            operator: link.operator,
            operand,
        })?;
    }
    Ok(copies)
}

/// Conditions with values, whose names are replaced.
#[cycle(expression)]
fn copy_choices<'a, 's: 'a>(
    alloc: Global,
    choices: &[Choice<'s>],
    names: &Names<'a>,
) -> Result<Vec<Choice<'a>>, AllocError>
    ensures { IfOk result (λ v. map choice_of v.items ≡ map (choice_under (new_name names.now)) choices.now) }
{
    let mut copies = Vec::with_capacity(alloc, choices.len())?;
    for choice in choices {
        let condition = copy(alloc, &choice.condition, names)?;
        let value = copy(alloc, &choice.value, names)?;
        copies.push(Choice { condition, value })?;
    }
    Ok(copies)
}

/// The select with its names replaced.
#[cycle(expression)]
fn copy_select<'a, 's: 'a>(
    alloc: Global,
    select: &Select<'s>,
    names: &Names<'a>,
) -> Result<Select<'a>, AllocError>
    ensures { IfOk result (λ x. select_of x ≡ select_at (new_name names.now) (select_of select.now)) }
{
    match select {
        Select::Index(index) => {
            let index = copy_boxed(alloc, index, names)?;
            Ok(Select::Index(index))
        }
        Select::Part(left, right) => {
            let left = copy_boxed(alloc, left, names)?;
            let right = copy_boxed(alloc, right, names)?;
            Ok(Select::Part(left, right))
        }
        Select::PartUp(base, width) => {
            let base = copy_boxed(alloc, base, names)?;
            let width = copy_boxed(alloc, width, names)?;
            Ok(Select::PartUp(base, width))
        }
        Select::PartDown(base, width) => {
            let base = copy_boxed(alloc, base, names)?;
            let width = copy_boxed(alloc, width, names)?;
            Ok(Select::PartDown(base, width))
        }
    }
}

/// The selects after a name with their names replaced.
#[cycle(expression)]
pub(crate) fn copy_selects<'a, 's: 'a>(
    alloc: Global,
    selects: &Selects<'s>,
    names: &Names<'a>,
) -> Result<Selects<'a>, AllocError>
    ensures { IfOk result (λ x. selects_of x ≡ selects_at (new_name names.now) (selects_of selects.now)) }
{
    match selects {
        Selects::Whole => Ok(Selects::Whole),
        Selects::One(select) => {
            let select = copy_select(alloc, select, names)?;
            Ok(Selects::One(select))
        }
        Selects::Two(first, second) => {
            let first = copy_select(alloc, first, names)?;
            let second = copy_select(alloc, second, names)?;
            Ok(Selects::Two(first, second))
        }
    }
}
