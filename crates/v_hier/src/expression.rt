//! Whether each name in an expression may be used, one after the other down the tree.
ghost use Rattle.std.specs.Prelude.{◌≡◌, ◌&&◌};
ghost use Rattle.v_syntax.specs.Tree.{tree_of, select_of, selects_of};
ghost use Rattle.v_hier.specs.Reading.{knows, expression_known, select_known, selects_known, parts_known, links_known, tests_known, choices_known};

use crate::known::{Names, both, is_known};
use v_syntax::tree::{BinaryLink, Choice, Expression, Select, Selects, TestLink};

/// Whether each name in the expression may be used.
#[cycle(expression)]
pub(crate) fn is_expression_known(expression: &Expression<'_>, names: &Names<'_, '_>) -> bool
    ensures { result ≡ expression_known (knows names.now) (tree_of expression.now) }
{
    match expression {
        Expression::Number(_) => true,
        Expression::Name(name, selects) => both(
            is_known(names, name),
            are_selects_known(selects, names),
        ),
        Expression::Concatenation(parts) => are_parts_known(parts, names),
        Expression::Replication(count, parts) => both(
            is_expression_known(count, names),
            are_parts_known(parts, names),
        ),
        Expression::AsSigned(operand) => is_expression_known(operand, names),
        Expression::AsUnsigned(operand) => is_expression_known(operand, names),
        Expression::Prefix(_, operand) => is_expression_known(operand, names),
        Expression::Binary(first, links) => are_links_known(
            links,
            names,
            is_expression_known(first, names),
        ),
        Expression::Test(first, links) => are_tests_known(
            links,
            names,
            is_expression_known(first, names),
        ),
        Expression::Conditional(choices, last) => are_choices_known(
            choices,
            names,
            is_expression_known(last, names),
        ),
    }
}

/// Whether each name in the selects may be used.
#[cycle(expression)]
pub(crate) fn are_selects_known(selects: &Selects<'_>, names: &Names<'_, '_>) -> bool
    ensures { result ≡ selects_known (knows names.now) (selects_of selects.now) }
{
    match selects {
        Selects::Whole => true,
        Selects::One(select) => is_select_known(select, names),
        Selects::Two(first, second) => both(
            is_select_known(first, names),
            is_select_known(second, names),
        ),
    }
}

/// Whether each name in the select may be used.
#[cycle(expression)]
fn is_select_known(select: &Select<'_>, names: &Names<'_, '_>) -> bool
    ensures { result ≡ select_known (knows names.now) (select_of select.now) }
{
    match select {
        Select::Index(index) => is_expression_known(index, names),
        Select::Part(left, right) => both(
            is_expression_known(left, names),
            is_expression_known(right, names),
        ),
        Select::PartUp(base, count) => both(
            is_expression_known(base, names),
            is_expression_known(count, names),
        ),
        Select::PartDown(base, count) => both(
            is_expression_known(base, names),
            is_expression_known(count, names),
        ),
    }
}

/// Whether each name in the parts may be used.
#[cycle(expression)]
pub(crate) fn are_parts_known(parts: &[Expression<'_>], names: &Names<'_, '_>) -> bool
    ensures { result ≡ parts_known (knows names.now) parts.now }
{
    for part in parts {
        if !is_expression_known(part, names) {
            return false;
        }
    }
    true
}

/// Whether each name in a chain may be used, where `first` says so of its first operand.
#[cycle(expression)]
fn are_links_known(links: &[BinaryLink<'_>], names: &Names<'_, '_>, first: bool) -> bool
    ensures { result ≡ (first && links_known (knows names.now) links.now) }
{
    for link in links {
        if !is_expression_known(&link.operand, names) {
            return false;
        }
    }
    first
}

/// Whether each name in a chain of tests may be used, where `first` says so of its first operand.
#[cycle(expression)]
fn are_tests_known(links: &[TestLink<'_>], names: &Names<'_, '_>, first: bool) -> bool
    ensures { result ≡ (first && tests_known (knows names.now) links.now) }
{
    for link in links {
        if !is_expression_known(&link.operand, names) {
            return false;
        }
    }
    first
}

/// Whether each name in a conditional may be used, where `last` says so of its last value.
#[cycle(expression)]
fn are_choices_known(choices: &[Choice<'_>], names: &Names<'_, '_>, last: bool) -> bool
    ensures { result ≡ (choices_known (knows names.now) choices.now && last) }
{
    for choice in choices {
        if !is_expression_known(&choice.condition, names)
            || !is_expression_known(&choice.value, names)
        {
            return false;
        }
    }
    last
}
