//! Expressions and targets, laid out.

use crate::bits::{below, number_of, reach};
use crate::kind::RuleKind;
use crate::layout::Layout;
use crate::piece::{NO_NAME, Site, What};
use crate::rules::{At, Stance, has_rule, is_rule, outer, value_breaks};
use crate::scopes::Scopes;
use v_size::{Position, place_in};
use v_syntax::tree::{BinaryLink, Choice, Expression, Select, Selects, Target, TestLink};
use v_value::sign::sign_of;

/// Whether an expression is asked for the rule and breaks it.
fn breaks_there(
    expression: &Expression<'_>,
    scopes: Scopes<'_, '_>,
    at: At,
    out: &Layout<'_>,
) -> bool {
    at.is_asked
        && out.is_silent
        && is_rule(out.kind)
        && value_breaks(expression, scopes.names, out.kind, at)
}

/// Goes past a name in an expression.
fn add_read<'s>(
    selects: &Selects<'s>,
    scopes: Scopes<'_, 's>,
    name: &'s str,
    at: At,
    out: &mut Layout<'s>,
) {
    let number = out.number(scopes, name);
    let (bits, flag) = reach(selects, scopes.names, scopes.names.scope.object(name));
    let is_whole = at.is_outer && at.site == Site::Input && matches!(selects, Selects::Whole);
    let info = out.known_of(number);
    out.tell(RuleKind::ClockAsData, info.is_clock && !is_whole);
    out.add(What::Read, number, bits, flag, at.site);
    out.pass();
}

/// Tells the first name or number of what breaks the rule and begins there, unless something in it was told.
fn end_broken(out: &mut Layout<'_>, is_broken: bool, token: usize) {
    let kind = out.kind;
    if is_broken && out.is_silent {
        out.tell_at(kind, true, token);
    }
}

/// Adds an expression.
#[cycle(expression)]
pub(crate) fn add_expression<'s>(
    expression: &Expression<'s>,
    scopes: Scopes<'_, 's>,
    at: At,
    out: &mut Layout<'s>,
) {
    let token = out.at.token;
    let broken = breaks_there(expression, scopes, at, out);
    let inner = at.inner(broken);
    match expression {
        Expression::Number(_) => out.pass(),
        Expression::Name(name, selects) => {
            add_read(selects, scopes, *name, at, out);
            add_selects(selects, scopes, inner, out);
        }
        Expression::Concatenation(parts) => {
            add_parts(parts, scopes, inner.with(Stance::Part), out);
        }
        Expression::Replication(count, parts) => {
            add_expression(count, scopes, inner.constant(), out);
            add_parts(parts, scopes, inner.with(Stance::Part), out);
        }
        Expression::AsSigned(operand)
        | Expression::AsUnsigned(operand)
        | Expression::Prefix(_, operand) => add_expression(operand, scopes, inner, out),
        Expression::Binary(first, links) => {
            add_expression(first, scopes, inner, out);
            add_links(links, scopes, inner, out);
        }
        Expression::Test(first, links) => {
            add_expression(first, scopes, inner, out);
            add_tests(links, scopes, inner, out);
        }
        Expression::Conditional(choices, last) => {
            add_choices(choices, scopes, inner, out);
            add_expression(last, scopes, inner, out);
        }
    }
    end_broken(out, broken, token);
}

/// Adds expressions side by side.
#[cycle(expression)]
pub(crate) fn add_parts<'s>(
    parts: &[Expression<'s>],
    scopes: Scopes<'_, 's>,
    at: At,
    out: &mut Layout<'s>,
) {
    for part in parts {
        add_expression(part, scopes, at, out);
    }
}

#[cycle(expression)]
fn add_links<'s>(links: &[BinaryLink<'s>], scopes: Scopes<'_, 's>, at: At, out: &mut Layout<'s>) {
    for link in links {
        add_expression(&link.operand, scopes, at, out);
    }
}

#[cycle(expression)]
fn add_tests<'s>(links: &[TestLink<'s>], scopes: Scopes<'_, 's>, at: At, out: &mut Layout<'s>) {
    for link in links {
        add_expression(&link.operand, scopes, at, out);
    }
}

#[cycle(expression)]
fn add_choices<'s>(choices: &[Choice<'s>], scopes: Scopes<'_, 's>, at: At, out: &mut Layout<'s>) {
    for choice in choices {
        add_expression(&choice.condition, scopes, at, out);
        add_expression(&choice.value, scopes, at, out);
    }
}

/// Adds the selects after a name.
#[cycle(expression)]
fn add_selects<'s>(selects: &Selects<'s>, scopes: Scopes<'_, 's>, at: At, out: &mut Layout<'s>) {
    match selects {
        Selects::Whole => {}
        Selects::One(select) => add_select(select, scopes, at, out),
        Selects::Two(first, second) => {
            add_select(first, scopes, at, out);
            add_select(second, scopes, at, out);
        }
    }
}

#[cycle(expression)]
fn add_select<'s>(select: &Select<'s>, scopes: Scopes<'_, 's>, at: At, out: &mut Layout<'s>) {
    match select {
        Select::Index(index) => add_expression(index, scopes, at, out),
        Select::Part(left, right) => {
            add_expression(left, scopes, at.constant(), out);
            add_expression(right, scopes, at.constant(), out);
        }
        Select::PartUp(base, width) | Select::PartDown(base, width) => {
            add_expression(base, scopes, at, out);
            add_expression(width, scopes, at.constant(), out);
        }
    }
}

/// How a name is assigned.
#[derive(Clone, Copy, PartialEq, Eq)]
pub(crate) enum Way {
    /// By a continuous assignment or an instance's output.
    Link,
    /// `=`
    Blocking,
    /// `<=`
    Nonblocking,
}

/// Goes past a name in a target, with its selects. Gives how many bits are assigned.
pub(crate) fn add_written<'s>(
    selects: &Selects<'s>,
    scopes: Scopes<'_, 's>,
    name: &'s str,
    way: Way,
    at: At,
    out: &mut Layout<'s>,
) -> u32 {
    let object = scopes.names.scope.object(name);
    let position = if at.is_constant {
        Position::Constant(None, false)
    } else {
        Position::Anywhere
    };
    let (broken, width) = place_in(selects, scopes.names, position, object);
    let token = out.at.token;
    let number = out.number(scopes, name);
    let info = out.known_of(number);
    let (bits, flag) = reach(selects, scopes.names, object);
    let is_clocked = at.site == Site::Clocked;
    out.tell(RuleKind::ClockAsData, info.is_clock);
    out.tell(
        RuleKind::BlockingInClocked,
        way == Way::Blocking && is_clocked,
    );
    out.tell(
        RuleKind::NonblockingInComb,
        way == Way::Nonblocking && !is_clocked,
    );
    out.tell(RuleKind::MemoryUse, info.is_memory && !is_clocked);
    out.add(What::Written, number, bits, flag, at.site);
    out.pass();
    let is_broken = out.is_silent && has_rule(out.kind, broken);
    add_selects(selects, scopes, at.inner(is_broken), out);
    end_broken(out, is_broken, token);
    width.unwrap_or(0)
}

/// Ends a target of several parts that has so many bits: it may have at most 128.
fn end_joined(out: &mut Layout<'_>, width: u32, token: usize) {
    let is_broken = out.kind == RuleKind::WidthOver128 && width > 128;
    end_broken(out, is_broken, token);
}

/// Adds a target. Gives how many bits are assigned.
#[cycle(target)]
pub(crate) fn add_target<'s>(
    target: &Target<'s>,
    scopes: Scopes<'_, 's>,
    way: Way,
    at: At,
    out: &mut Layout<'s>,
) -> u32 {
    match target {
        Target::Place(name, selects) => add_written(selects, scopes, *name, way, at, out),
        Target::Joined(targets) => add_targets(targets, scopes, way, at, out),
    }
}

#[cycle(target)]
fn add_targets<'s>(
    targets: &[Target<'s>],
    scopes: Scopes<'_, 's>,
    way: Way,
    at: At,
    out: &mut Layout<'s>,
) -> u32 {
    let token = out.at.token;
    let mut width: u32 = 0;
    for target in targets {
        width = width.saturating_add(add_target(target, scopes, way, at, out));
    }
    end_joined(out, width, token);
    width
}

/// Whether an expression is a target as well.
#[cycle(shape)]
pub(crate) fn is_target(expression: &Expression<'_>) -> bool {
    match expression {
        Expression::Name(_, _) => true,
        Expression::Concatenation(parts) => are_targets(parts),
        _ => false,
    }
}

#[cycle(shape)]
fn are_targets(parts: &[Expression<'_>]) -> bool {
    for part in parts {
        if !is_target(part) {
            return false;
        }
    }
    true
}

/// Adds an expression that is a target as well, as a target. Gives how many bits are assigned.
#[cycle(output)]
pub(crate) fn add_output<'s>(
    expression: &Expression<'s>,
    scopes: Scopes<'_, 's>,
    at: At,
    out: &mut Layout<'s>,
) -> u32 {
    match expression {
        Expression::Name(name, selects) => {
            add_written(selects, scopes, *name, Way::Link, at, out)
        }
        Expression::Concatenation(parts) => add_outputs(parts, scopes, at, out),
        _ => 0,
    }
}

#[cycle(output)]
fn add_outputs<'s>(
    parts: &[Expression<'s>],
    scopes: Scopes<'_, 's>,
    at: At,
    out: &mut Layout<'s>,
) -> u32 {
    let token = out.at.token;
    let mut width: u32 = 0;
    for part in parts {
        width = width.saturating_add(add_output(part, scopes, at, out));
    }
    end_joined(out, width, token);
    width
}

/// Adds a name whose bits are copied, if they are.
fn copy_name<'s>(
    selects: &Selects<'s>,
    scopes: Scopes<'_, 's>,
    name: &'s str,
    out: &mut Layout<'s>,
) -> bool {
    let number = out.number(scopes, name);
    let info = out.known_of(number);
    let (bits, flag) = reach(selects, scopes.names, scopes.names.scope.object(name));
    let known = if info.is_constant { NO_NAME } else { number };
    out.add(What::Copied, known, bits, flag, Site::Declaration);
    flag
}

/// Adds the names and numbers whose bits an expression copies one by one. Says whether it does nothing else.
#[cycle(copy)]
fn add_copy<'s>(expression: &Expression<'s>, scopes: Scopes<'_, 's>, out: &mut Layout<'s>) -> bool {
    match expression {
        Expression::Number(number) => {
            let bits = below(number.width.min(128) as u32);
            out.add(What::Copied, NO_NAME, bits, true, Site::Declaration);
            true
        }
        Expression::Name(name, selects) => copy_name(selects, scopes, *name, out),
        Expression::Concatenation(parts) => add_copies(parts, scopes, 1, out),
        Expression::Replication(count, parts) => {
            let times = number_of(count, scopes.names);
            add_copies(parts, scopes, times, out)
        }
        _ => false,
    }
}

/// The same of expressions side by side, so many times.
#[cycle(copy)]
fn add_copies<'s>(
    parts: &[Expression<'s>],
    scopes: Scopes<'_, 's>,
    times: i64,
    out: &mut Layout<'s>,
) -> bool {
    for _ in 0..times.min(128) {
        for part in parts {
            if !add_copy(part, scopes, out) {
                return false;
            }
        }
    }
    true
}

/// Ends an assignment of a value.
pub(crate) fn end_assignment<'s>(
    value: &Expression<'s>,
    scopes: Scopes<'_, 's>,
    site: Site,
    out: &mut Layout<'s>,
) {
    let is_copy = out.kind == RuleKind::CombLoop && add_copy(value, scopes, out);
    let bits = if sign_of(value, scopes.names.scope) {
        1
    } else {
        0
    };
    out.add(What::Assigned, NO_NAME, bits, is_copy, site);
}

/// Adds an assignment.
pub(crate) fn add_assignment<'s>(
    target: &Target<'s>,
    value: &Expression<'s>,
    scopes: Scopes<'_, 's>,
    way: Way,
    at: At,
    out: &mut Layout<'s>,
) {
    add_target(target, scopes, way, at, out);
    let place = outer(at.site, false);
    add_expression(value, scopes, place, out);
    end_assignment(value, scopes, at.site, out);
}
