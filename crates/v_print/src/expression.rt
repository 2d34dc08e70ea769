//! Expressions: brackets stand exactly where the level of an operator asks for them.
ghost use Rattle.std.specs.Prelude.{◌∷◌, false, OnOk};
ghost use Rattle.verilog_text.specs.Token.{system, mark, left_parenthesis, left_brace, right_brace};
ghost use Rattle.v_syntax.specs.Tree.{tree_of, select_of, selects_of, expressions_of};
ghost use Rattle.v_print.specs.Spelled.{printed, printed_parts, printed_select, printed_selects};
ghost use Rattle.v_print.specs.Links.{openings_before, test_openings_before, printed_link, printed_links, printed_test, printed_tests, printed_choice, printed_choices, prefixes_before};
ghost use Rattle.v_print.specs.Writes.{Writes};

use crate::level::{level_of, prefix_level};
use crate::number::write_number;
use crate::operator::{link_level, link_mark, prefix_mark, test_level, test_mark};
use crate::writer::Writer;
use std::alloc::AllocError;
use v_syntax::tree::{BinaryLink, Choice, Expression, PrefixOperator, Select, Selects, TestLink};
use v_token::token::Mark;

/// `$signed(` or `$unsigned(`.
fn open_conversion(name: &str, out: &mut Writer) -> Result<(), AllocError>
    ensures { OnOk result (Writes out.old out.new (λ r. system name.now ∷ mark left_parenthesis ∷ r)) }
{
    out.system(name)?;
    out.mark(Mark::LeftParenthesis)?;
    Ok(())
}

/// Operators before an operand, with a blank between two of them.
fn write_prefixes(operators: &[PrefixOperator], out: &mut Writer) -> Result<(), AllocError>
    ensures { OnOk result (Writes out.old out.new (λ r. prefixes_before operators.now r)) }
{
    let mut started = false;
    for operator in operators {
        out.blank_if(started)?;
        out.mark(prefix_mark(*operator))?;
        started = true;
    }
    Ok(())
}

/// The brackets that open in front of a chain whose first operand binds so tightly.
fn open_links(first: u64, links: &[BinaryLink<'_>], out: &mut Writer) -> Result<(), AllocError>
    ensures { OnOk result (Writes out.old out.new (λ r. openings_before first links.now r)) }
{
    let mut level = first;
    for link in links {
        let own = link_level(link.operator);
        out.open_if(level < own)?;
        level = own;
    }
    Ok(())
}

/// The same of a chain of tests.
fn open_tests(first: u64, links: &[TestLink<'_>], out: &mut Writer) -> Result<(), AllocError>
    ensures { OnOk result (Writes out.old out.new (λ r. test_openings_before first links.now r)) }
{
    let mut level = first;
    for link in links {
        let own = test_level(link.operator);
        out.open_if(level < own)?;
        level = own;
    }
    Ok(())
}

/// An expression without brackets round it.
#[cycle(expression)]
pub fn write(expression: &Expression<'_>, out: &mut Writer) -> Result<(), AllocError>
    ensures { OnOk result (Writes out.old out.new (λ r. printed (tree_of expression.now) r)) }
{
    match expression {
        Expression::Number(number) => write_number(number, out),
        Expression::Name(name, selects) => {
            out.word(name)?;
            write_selects(selects, out)?;
            Ok(())
        }
        Expression::Concatenation(parts) => write_braced(parts, out),
        Expression::Replication(count, parts) => {
            out.mark(Mark::LeftBrace)?;
            write(count, out)?;
            write_braced(parts, out)?;
            out.mark(Mark::RightBrace)?;
            Ok(())
        }
        Expression::AsSigned(operand) => {
            open_conversion("$signed", out)?;
            write(operand, out)?;
            out.mark(Mark::RightParenthesis)?;
            Ok(())
        }
        Expression::AsUnsigned(operand) => {
            open_conversion("$unsigned", out)?;
            write(operand, out)?;
            out.mark(Mark::RightParenthesis)?;
            Ok(())
        }
        Expression::Prefix(operators, operand) => {
            let brackets = level_of(operand) < prefix_level(operators);
            write_prefixes(operators, out)?;
            out.open_if(brackets)?;
            write(operand, out)?;
            out.close_if(brackets)?;
            Ok(())
        }
        Expression::Binary(first, links) => {
            let level = level_of(first);
            open_links(level, links, out)?;
            write(first, out)?;
            write_links(links, level, out)?;
            Ok(())
        }
        Expression::Test(first, links) => {
            let level = level_of(first);
            open_tests(level, links, out)?;
            write(first, out)?;
            write_tests(links, level, out)?;
            Ok(())
        }
        Expression::Conditional(choices, last) => {
            write_choices(choices, out)?;
            write(last, out)?;
            Ok(())
        }
    }
}

/// Expressions in braces, with commas between them.
#[cycle(expression)]
fn write_braced(parts: &[Expression<'_>], out: &mut Writer) -> Result<(), AllocError>
    ensures { OnOk result (Writes out.old out.new (λ r. mark left_brace ∷ printed_parts false (expressions_of parts.now) (mark right_brace ∷ r))) }
{
    out.mark(Mark::LeftBrace)?;
    write_parts(parts, out)?;
    out.mark(Mark::RightBrace)?;
    Ok(())
}

/// Expressions with commas between them.
#[cycle(expression)]
pub fn write_parts(parts: &[Expression<'_>], out: &mut Writer) -> Result<(), AllocError>
    ensures { OnOk result (Writes out.old out.new (λ r. printed_parts false (expressions_of parts.now) r)) }
{
    let mut started = false;
    for part in parts {
        out.comma_if(started)?;
        write(part, out)?;
        started = true;
    }
    Ok(())
}

/// The links of a chain, behind its first operand, which binds so tightly.
#[cycle(expression)]
fn write_links(links: &[BinaryLink<'_>], first: u64, out: &mut Writer) -> Result<(), AllocError>
    ensures { OnOk result (Writes out.old out.new (λ r. printed_links first links.now r)) }
{
    let mut level = first;
    for link in links {
        write_link(link, level, out)?;
        level = link_level(link.operator);
    }
    Ok(())
}

/// A link: the bracket that closes what stands before it, where that binds less tightly, the operator, and its operand.
#[cycle(expression)]
fn write_link(link: &BinaryLink<'_>, level: u64, out: &mut Writer) -> Result<(), AllocError>
    ensures { OnOk result (Writes out.old out.new (λ r. printed_link level link.now r)) }
{
    let own = link_level(link.operator);
    let brackets = level_of(&link.operand) <= own;
    out.close_if(level < own)?;
    out.between(link_mark(link.operator))?;
    out.open_if(brackets)?;
    write(&link.operand, out)?;
    out.close_if(brackets)?;
    Ok(())
}

/// The links of a chain of tests, behind its first operand, which binds so tightly.
#[cycle(expression)]
fn write_tests(links: &[TestLink<'_>], first: u64, out: &mut Writer) -> Result<(), AllocError>
    ensures { OnOk result (Writes out.old out.new (λ r. printed_tests first links.now r)) }
{
    let mut level = first;
    for link in links {
        write_test(link, level, out)?;
        level = test_level(link.operator);
    }
    Ok(())
}

/// A link of such a chain.
#[cycle(expression)]
fn write_test(link: &TestLink<'_>, level: u64, out: &mut Writer) -> Result<(), AllocError>
    ensures { OnOk result (Writes out.old out.new (λ r. printed_test level link.now r)) }
{
    let own = test_level(link.operator);
    let brackets = level_of(&link.operand) <= own;
    out.close_if(level < own)?;
    out.between(test_mark(link.operator))?;
    out.open_if(brackets)?;
    write(&link.operand, out)?;
    out.close_if(brackets)?;
    Ok(())
}

/// Conditions with their values, in front of the last value.
#[cycle(expression)]
fn write_choices(choices: &[Choice<'_>], out: &mut Writer) -> Result<(), AllocError>
    ensures { OnOk result (Writes out.old out.new (λ r. printed_choices choices.now r)) }
{
    for choice in choices {
        write_choice(choice, out)?;
    }
    Ok(())
}

/// A condition with its value.
#[cycle(expression)]
fn write_choice(choice: &Choice<'_>, out: &mut Writer) -> Result<(), AllocError>
    ensures { OnOk result (Writes out.old out.new (λ r. printed_choice choice.now r)) }
{
    let brackets = level_of(&choice.condition) < 1;
    out.open_if(brackets)?;
    write(&choice.condition, out)?;
    out.close_if(brackets)?;
    out.between(Mark::Question)?;
    write(&choice.value, out)?;
    out.between(Mark::Colon)?;
    Ok(())
}

/// A select behind a name.
#[cycle(expression)]
fn write_select(select: &Select<'_>, out: &mut Writer) -> Result<(), AllocError>
    ensures { OnOk result (Writes out.old out.new (λ r. printed_select (select_of select.now) r)) }
{
    out.mark(Mark::LeftBracket)?;
    match select {
        Select::Index(index) => {
            write(index, out)?;
            out.mark(Mark::RightBracket)?;
            Ok(())
        }
        Select::Part(left, right) => {
            write(left, out)?;
            out.mark(Mark::Colon)?;
            write(right, out)?;
            out.mark(Mark::RightBracket)?;
            Ok(())
        }
        Select::PartUp(base, width) => {
            write(base, out)?;
            out.between(Mark::PlusColon)?;
            write(width, out)?;
            out.mark(Mark::RightBracket)?;
            Ok(())
        }
        Select::PartDown(base, width) => {
            write(base, out)?;
            out.between(Mark::MinusColon)?;
            write(width, out)?;
            out.mark(Mark::RightBracket)?;
            Ok(())
        }
    }
}

/// The selects behind a name.
#[cycle(expression)]
pub fn write_selects(selects: &Selects<'_>, out: &mut Writer) -> Result<(), AllocError>
    ensures { OnOk result (Writes out.old out.new (λ r. printed_selects (selects_of selects.now) r)) }
{
    match selects {
        Selects::Whole => Ok(()),
        Selects::One(select) => write_select(select, out),
        Selects::Two(first, second) => {
            write_select(first, out)?;
            write_select(second, out)?;
            Ok(())
        }
    }
}
