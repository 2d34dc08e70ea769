//! Whether a clock net stands in an expression, one name after the other down the tree.
ghost use Rattle.std.specs.Prelude.{◌≡◌, ◌&&◌, not};
ghost use Rattle.v_syntax.specs.Tree.{tree_of, select_of, selects_of};
ghost use Rattle.v_hier.specs.Reading.{expression_known, select_known, selects_known, parts_known, links_known, tests_known, choices_known};
ghost use Rattle.v_hier.specs.Tables.{has_name};
ghost use Rattle.v_clocks.specs.Uses.{none_of, mentions};

use std::collections::BTreeSet;
use v_syntax::tree::{BinaryLink, Choice, Expression, Select, Selects, TestLink};

/// Whether the name is none of the clock nets.
fn is_no_clock(clocks: &BTreeSet<&str>, name: &str) -> bool
    ensures { result ≡ none_of (has_name clocks.now) name.now }
{
    !clocks.contains(name)
}

/// Whether both hold.
fn both(x: bool, y: bool) -> bool
    ensures { result ≡ (x && y) }
{
    x && y
}

/// Whether no clock net stands in the expression.
#[cycle(expression)]
fn is_free(expression: &Expression<'_>, clocks: &BTreeSet<&str>) -> bool
    ensures { result ≡ expression_known (none_of (has_name clocks.now)) (tree_of expression.now) }
{
    match expression {
        Expression::Number(_) => true,
        Expression::Name(name, selects) => both(
            is_no_clock(clocks, name),
            are_selects_free(selects, clocks),
        ),
        Expression::Concatenation(parts) => are_parts_free(parts, clocks),
        Expression::Replication(count, parts) => both(
            is_free(count, clocks),
            are_parts_free(parts, clocks),
        ),
        Expression::AsSigned(operand) => is_free(operand, clocks),
        Expression::AsUnsigned(operand) => is_free(operand, clocks),
        Expression::Prefix(_, operand) => is_free(operand, clocks),
        Expression::Binary(first, links) => are_links_free(links, clocks, is_free(first, clocks)),
        Expression::Test(first, links) => are_tests_free(links, clocks, is_free(first, clocks)),
        Expression::Conditional(choices, last) => are_choices_free(
            choices,
            clocks,
            is_free(last, clocks),
        ),
    }
}

/// Whether none stands in the selects.
#[cycle(expression)]
fn are_selects_free(selects: &Selects<'_>, clocks: &BTreeSet<&str>) -> bool
    ensures { result ≡ selects_known (none_of (has_name clocks.now)) (selects_of selects.now) }
{
    match selects {
        Selects::Whole => true,
        Selects::One(select) => is_select_free(select, clocks),
        Selects::Two(first, second) => both(
            is_select_free(first, clocks),
            is_select_free(second, clocks),
        ),
    }
}

/// Whether none stands in the select.
#[cycle(expression)]
fn is_select_free(select: &Select<'_>, clocks: &BTreeSet<&str>) -> bool
    ensures { result ≡ select_known (none_of (has_name clocks.now)) (select_of select.now) }
{
    match select {
        Select::Index(index) => is_free(index, clocks),
        Select::Part(left, right) => both(is_free(left, clocks), is_free(right, clocks)),
        Select::PartUp(base, count) => both(is_free(base, clocks), is_free(count, clocks)),
        Select::PartDown(base, count) => both(is_free(base, clocks), is_free(count, clocks)),
    }
}

/// Whether none stands in the parts.
#[cycle(expression)]
fn are_parts_free(parts: &[Expression<'_>], clocks: &BTreeSet<&str>) -> bool
    ensures { result ≡ parts_known (none_of (has_name clocks.now)) parts.now }
{
    for part in parts {
        if !is_free(part, clocks) {
            return false;
        }
    }
    true
}

/// Whether none stands in a chain, where `first` says so of its first operand.
#[cycle(expression)]
fn are_links_free(links: &[BinaryLink<'_>], clocks: &BTreeSet<&str>, first: bool) -> bool
    ensures { result ≡ (first && links_known (none_of (has_name clocks.now)) links.now) }
{
    for link in links {
        if !is_free(&link.operand, clocks) {
            return false;
        }
    }
    first
}

/// Whether none stands in a chain of tests, where `first` says so of its first operand.
#[cycle(expression)]
fn are_tests_free(links: &[TestLink<'_>], clocks: &BTreeSet<&str>, first: bool) -> bool
    ensures { result ≡ (first && tests_known (none_of (has_name clocks.now)) links.now) }
{
    for link in links {
        if !is_free(&link.operand, clocks) {
            return false;
        }
    }
    first
}

/// Whether none stands in a conditional, where `last` says so of its last value.
#[cycle(expression)]
fn are_choices_free(choices: &[Choice<'_>], clocks: &BTreeSet<&str>, last: bool) -> bool
    ensures { result ≡ (choices_known (none_of (has_name clocks.now)) choices.now && last) }
{
    for choice in choices {
        if !is_free(&choice.condition, clocks) || !is_free(&choice.value, clocks) {
            return false;
        }
    }
    last
}

/// Whether a clock net stands in the expression.
pub(crate) fn mentions(expression: &Expression<'_>, clocks: &BTreeSet<&str>) -> bool
    ensures { result ≡ mentions (has_name clocks.now) (tree_of expression.now) }
{
    !is_free(expression, clocks)
}
