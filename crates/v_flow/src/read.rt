//! The bits that expressions read.

ghost use Rattle.std.specs.Prelude.{◌≡◌, OnOk};
ghost use Rattle.verilog_trees.specs.Syntax.{name as named};
ghost use Rattle.verilog_designs.specs.Reads.{or_in, reads};
ghost use Rattle.v_value.specs.Scope.{scope_at};
ghost use Rattle.v_value.specs.Narrow.{IsNarrow, AreNarrow, IsSelectNarrow, AreSelectsNarrow, HasNarrowObjects};
ghost use Rattle.v_value.specs.Links.{AreLinksNarrow, AreTestsNarrow, AreChoicesNarrow};
ghost use Rattle.v_syntax.specs.Tree.{tree_of, select_of, selects_of, expressions_of};
ghost use Rattle.v_flow.specs.Spans.{bits_in};
ghost use Rattle.v_flow.specs.Flow.{name_reads_at, reads_at, select_reads_at, selects_read_at, parts_read, links_read, tests_read, choices_read};

use crate::constant::are_constant_selects;
use crate::place::{add_meant, add_whole};
use crate::span::Span;
use std::alloc::AllocError;
use v_syntax::tree::{BinaryLink, Choice, Expression, Select, Selects, TestLink};
use v_value::scope::Scope;

/// Adds the bits of a name that stands with selects in an expression. A parameter has none.
fn add_name<'s>(
    selects: &Selects<'s>,
    scope: &Scope<'_>,
    name: &'s str,
    found: &mut Vec<Span<'s>>,
) -> Result<(), AllocError>
    requires objects { HasNarrowObjects (scope_at scope.now) }
    requires narrow { IsNarrow (scope_at scope.now) (named name.now (selects_of selects.now)) }
    ensures { OnOk result (bits_in found.new.items ≡ or_in (bits_in found.old.items) (name_reads_at (scope_at scope.now) name.now (selects_of selects.now))) }
{
    if scope.object(name).constant.is_some() {
        return Ok(());
    }
    if are_constant_selects(selects, scope) {
        add_meant(selects, scope, name, found)
    } else {
        add_whole(scope, name, found)
    }
}

#[cycle(reading)]
pub(crate) fn add_read<'s>(
    expression: &Expression<'s>,
    scope: &Scope<'_>,
    found: &mut Vec<Span<'s>>,
) -> Result<(), AllocError>
    requires objects { HasNarrowObjects (scope_at scope.now) }
    requires narrow { IsNarrow (scope_at scope.now) (tree_of expression.now) }
    ensures { OnOk result (bits_in found.new.items ≡ or_in (bits_in found.old.items) (reads_at (scope_at scope.now) (tree_of expression.now))) }
{
    match expression {
        Expression::Number(_) => Ok(()),
        Expression::Name(name, selects) => add_named(selects, scope, name, found),
        Expression::Concatenation(parts) => add_parts(parts, scope, found),
        Expression::Replication(_, parts) => add_parts(parts, scope, found),
        Expression::AsSigned(operand) => add_read(operand, scope, found),
        Expression::AsUnsigned(operand) => add_read(operand, scope, found),
        Expression::Prefix(_, operand) => add_read(operand, scope, found),
        Expression::Binary(first, links) => {
            add_read(first, scope, found)?;
            add_links(links, scope, found)
        }
        Expression::Test(first, links) => {
            add_read(first, scope, found)?;
            add_tests(links, scope, found)
        }
        Expression::Conditional(choices, last) => {
            add_choices(choices, scope, found)?;
            add_read(last, scope, found)
        }
    }
}

#[cycle(reading)]
fn add_named<'s>(
    selects: &Selects<'s>,
    scope: &Scope<'_>,
    name: &'s str,
    found: &mut Vec<Span<'s>>,
) -> Result<(), AllocError>
    requires objects { HasNarrowObjects (scope_at scope.now) }
    requires narrow { IsNarrow (scope_at scope.now) (named name.now (selects_of selects.now)) }
    ensures { OnOk result (bits_in found.new.items ≡ or_in (bits_in found.old.items) (reads_at (scope_at scope.now) (named name.now (selects_of selects.now)))) }
{
    add_name(selects, scope, name, found)?;
    add_selects(selects, scope, found)
}

#[cycle(reading)]
pub(crate) fn add_parts<'s>(
    parts: &[Expression<'s>],
    scope: &Scope<'_>,
    found: &mut Vec<Span<'s>>,
) -> Result<(), AllocError>
    requires objects { HasNarrowObjects (scope_at scope.now) }
    requires narrow { AreNarrow (scope_at scope.now) (expressions_of parts.now) }
    ensures { OnOk result (bits_in found.new.items ≡ or_in (bits_in found.old.items) (parts_read (scope_at scope.now) parts.now)) }
{
    for part in parts {
        add_read(part, scope, found)?;
    }
    Ok(())
}

#[cycle(reading)]
fn add_links<'s>(
    links: &[BinaryLink<'s>],
    scope: &Scope<'_>,
    found: &mut Vec<Span<'s>>,
) -> Result<(), AllocError>
    requires objects { HasNarrowObjects (scope_at scope.now) }
    requires narrow { AreLinksNarrow (scope_at scope.now) links.now }
    ensures { OnOk result (bits_in found.new.items ≡ or_in (bits_in found.old.items) (links_read (scope_at scope.now) links.now)) }
{
    for link in links {
        add_read(&link.operand, scope, found)?;
    }
    Ok(())
}

#[cycle(reading)]
fn add_tests<'s>(
    links: &[TestLink<'s>],
    scope: &Scope<'_>,
    found: &mut Vec<Span<'s>>,
) -> Result<(), AllocError>
    requires objects { HasNarrowObjects (scope_at scope.now) }
    requires narrow { AreTestsNarrow (scope_at scope.now) links.now }
    ensures { OnOk result (bits_in found.new.items ≡ or_in (bits_in found.old.items) (tests_read (scope_at scope.now) links.now)) }
{
    for link in links {
        add_read(&link.operand, scope, found)?;
    }
    Ok(())
}

#[cycle(reading)]
fn add_choices<'s>(
    choices: &[Choice<'s>],
    scope: &Scope<'_>,
    found: &mut Vec<Span<'s>>,
) -> Result<(), AllocError>
    requires objects { HasNarrowObjects (scope_at scope.now) }
    requires narrow { AreChoicesNarrow (scope_at scope.now) choices.now }
    ensures { OnOk result (bits_in found.new.items ≡ or_in (bits_in found.old.items) (choices_read (scope_at scope.now) choices.now)) }
{
    for choice in choices {
        add_read(&choice.condition, scope, found)?;
        add_read(&choice.value, scope, found)?;
    }
    Ok(())
}

/// Adds what the indexes behind a name read.
#[cycle(reading)]
pub(crate) fn add_selects<'s>(
    selects: &Selects<'s>,
    scope: &Scope<'_>,
    found: &mut Vec<Span<'s>>,
) -> Result<(), AllocError>
    requires objects { HasNarrowObjects (scope_at scope.now) }
    requires narrow { AreSelectsNarrow (scope_at scope.now) (selects_of selects.now) }
    ensures { OnOk result (bits_in found.new.items ≡ or_in (bits_in found.old.items) (selects_read_at (scope_at scope.now) (selects_of selects.now))) }
{
    match selects {
        Selects::Whole => Ok(()),
        Selects::One(select) => add_select(select, scope, found),
        Selects::Two(first, second) => {
            add_select(first, scope, found)?;
            add_select(second, scope, found)
        }
    }
}

#[cycle(reading)]
fn add_select<'s>(
    select: &Select<'s>,
    scope: &Scope<'_>,
    found: &mut Vec<Span<'s>>,
) -> Result<(), AllocError>
    requires objects { HasNarrowObjects (scope_at scope.now) }
    requires narrow { IsSelectNarrow (scope_at scope.now) (select_of select.now) }
    ensures { OnOk result (bits_in found.new.items ≡ or_in (bits_in found.old.items) (select_reads_at (scope_at scope.now) (select_of select.now))) }
{
    match select {
        Select::Index(index) => add_read(index, scope, found),
        Select::Part(_, _) => Ok(()),
        Select::PartUp(base, _) => add_read(base, scope, found),
        Select::PartDown(base, _) => add_read(base, scope, found),
    }
}

/// Adds the bits that an expression reads.
#[tactic(auto, unfolding(crate::specs::Flow::reads_at))]
pub fn add_reads<'s>(
    expression: &Expression<'s>,
    scope: &Scope<'_>,
    found: &mut Vec<Span<'s>>,
) -> Result<(), AllocError>
    requires objects { HasNarrowObjects (scope_at scope.now) }
    requires narrow { IsNarrow (scope_at scope.now) (tree_of expression.now) }
    ensures { OnOk result (bits_in found.new.items ≡ or_in (bits_in found.old.items) (reads (scope_at scope.now) (tree_of expression.now))) }
{
    add_read(expression, scope, found)
}
