//! Module items.

ghost use Rattle.std.specs.Prelude.{◌≡◌, map, Some, IfOk};
ghost use Rattle.v_token.specs.View.{tokens_of};
ghost use Rattle.v_syntax.specs.Source.{direction_of, item_of};
ghost use Rattle.verilog_text.specs.Token.{equals};
ghost use Rattle.v_expr.specs.View.{Gives};
ghost use Rattle.v_expr.specs.Flat.{Each};
ghost use Rattle.v_parse.specs.Flat.{IsFlatAssignment, IsFlatItem};
ghost use Rattle.v_body.specs.Targets.{assignment_at};
ghost use Rattle.v_parse.specs.Reading.{port_item_at, parameter_item_at, wires_item_at, variables_item_at, assignments_at, assign_item_at, always_item_at, instances_item_at, declared_item_at, item_at};
ghost use Rattle.v_parse.specs.View.{assignment_of};

use crate::declaration::{
    declared_parameter, declared_port, direction, parameter_word, perhaps_range, variables, wires,
};
use crate::event::control;
use crate::front::{begun_with, flag};
use crate::instance::{instances, overrides};
use std::alloc::Global;
use v_body::statement::statement;
use v_body::target::assignment;
use v_body::word::{behind_word, name};
use v_expr::ExpressionStop;
use v_expr::reader::{behind_mark, mark};
use v_syntax::module::{Assignment, Direction, Item};
use v_token::token::{Mark, Token};

/// Ports behind their direction.
#[tactic(auto, unfolding(crate::specs::Reading::port_item_at))]
fn port_item<'s, 't>(
    alloc: Global,
    direction: Direction,
    tokens: &'t [Token<'s>],
) -> Result<(Item<'s>, &'t [Token<'s>]), ExpressionStop>
    ensures read { Gives (λ x. (item_of x.0, tokens_of x.1.now)) result (port_item_at (direction_of direction) (tokens_of tokens.now)) }
    ensures flat { IfOk result (λ x. IsFlatItem x.0) }
{
    let (port, rest) = declared_port(alloc, direction, tokens)?;
    let rest = mark(rest, Mark::Semicolon)?;
    Ok((Item::Port(port), rest))
}

/// Parameters behind their word.
#[tactic(auto, unfolding(crate::specs::Reading::parameter_item_at))]
fn parameter_item<'s, 't>(
    alloc: Global,
    is_local: bool,
    tokens: &'t [Token<'s>],
) -> Result<(Item<'s>, &'t [Token<'s>]), ExpressionStop>
    ensures read { Gives (λ x. (item_of x.0, tokens_of x.1.now)) result (parameter_item_at is_local (tokens_of tokens.now)) }
    ensures flat { IfOk result (λ x. IsFlatItem x.0) }
{
    let (parameter, rest) = declared_parameter(alloc, is_local, tokens)?;
    let rest = mark(rest, Mark::Semicolon)?;
    Ok((Item::Parameter(parameter), rest))
}

/// Nets behind `wire`.
#[tactic(auto, unfolding(crate::specs::Reading::wires_item_at))]
fn wires_item<'s, 't>(
    alloc: Global,
    tokens: &'t [Token<'s>],
) -> Result<(Item<'s>, &'t [Token<'s>]), ExpressionStop>
    ensures read { Gives (λ x. (item_of x.0, tokens_of x.1.now)) result (wires_item_at (tokens_of tokens.now)) }
    ensures flat { IfOk result (λ x. IsFlatItem x.0) }
{
    let (signed, rest) = flag(tokens, "signed");
    let (range, rest) = perhaps_range(alloc, rest)?;
    let (wires, rest) = wires(alloc, rest)?;
    let rest = mark(rest, Mark::Semicolon)?;
    Ok((Item::Wires(signed, range, wires), rest))
}

/// Variables behind `reg`.
#[tactic(auto, unfolding(crate::specs::Reading::variables_item_at))]
fn variables_item<'s, 't>(
    alloc: Global,
    tokens: &'t [Token<'s>],
) -> Result<(Item<'s>, &'t [Token<'s>]), ExpressionStop>
    ensures read { Gives (λ x. (item_of x.0, tokens_of x.1.now)) result (variables_item_at (tokens_of tokens.now)) }
    ensures flat { IfOk result (λ x. IsFlatItem x.0) }
{
    let (signed, rest) = flag(tokens, "signed");
    let (range, rest) = perhaps_range(alloc, rest)?;
    let (variables, rest) = variables(alloc, rest)?;
    let rest = mark(rest, Mark::Semicolon)?;
    Ok((Item::Variables(signed, range, variables), rest))
}

/// A continuous assignment.
fn one_assignment<'s, 't>(
    alloc: Global,
    tokens: &'t [Token<'s>],
) -> Result<(Assignment<'s>, &'t [Token<'s>]), ExpressionStop>
    ensures read { Gives (λ x. (assignment_of x.0, tokens_of x.1.now)) result (assignment_at equals (tokens_of tokens.now)) }
    ensures flat { IfOk result (λ x. IsFlatAssignment x.0) }
{
    let ((target, value), rest) = assignment(alloc, Mark::Equals, tokens)?;
    Ok((Assignment { target, value }, rest))
}

/// Assignments with commas between them.
#[tactic(auto, unfolding(crate::specs::Reading::assignments_at))]
fn assignments<'s, 't>(
    alloc: Global,
    tokens: &'t [Token<'s>],
) -> Result<(Vec<Assignment<'s>>, &'t [Token<'s>]), ExpressionStop>
    ensures read { Gives (λ x. (map assignment_of x.0.items, tokens_of x.1.now)) result (assignments_at (tokens_of tokens.now)) }
    ensures flat { IfOk result (λ x. Each IsFlatAssignment x.0.items) }
{
    let (first, mut rest) = one_assignment(alloc, tokens)?;
    let mut assignments = begun_with(alloc, first)?;
    loop {
        match behind_mark(rest, Mark::Comma) {
            None => return Ok((assignments, rest)),
            Some(more) => {
                let (next, after) = one_assignment(alloc, more)?;
                assignments.push(next)?;
                rest = after;
            }
        }
    }
}

/// Assignments behind `assign`.
#[tactic(auto, unfolding(crate::specs::Reading::assign_item_at))]
fn assign_item<'s, 't>(
    alloc: Global,
    tokens: &'t [Token<'s>],
) -> Result<(Item<'s>, &'t [Token<'s>]), ExpressionStop>
    ensures read { Gives (λ x. (item_of x.0, tokens_of x.1.now)) result (assign_item_at (tokens_of tokens.now)) }
    ensures flat { IfOk result (λ x. IsFlatItem x.0) }
{
    let (assignments, rest) = assignments(alloc, tokens)?;
    let rest = mark(rest, Mark::Semicolon)?;
    Ok((Item::Assign(assignments), rest))
}

/// A block behind `always`.
#[tactic(auto, unfolding(crate::specs::Reading::always_item_at))]
fn always_item<'s, 't>(
    alloc: Global,
    tokens: &'t [Token<'s>],
) -> Result<(Item<'s>, &'t [Token<'s>]), ExpressionStop>
    ensures read { Gives (λ x. (item_of x.0, tokens_of x.1.now)) result (always_item_at (tokens_of tokens.now)) }
    ensures flat { IfOk result (λ x. IsFlatItem x.0) }
{
    let rest = mark(tokens, Mark::At)?;
    let (events, rest) = control(alloc, rest)?;
    let (body, rest) = statement(alloc, rest)?;
    let body = Box::new(alloc, body)?;
    Ok((Item::Always(events, body), rest))
}

/// Instances, with the name of their module.
#[tactic(auto, unfolding(crate::specs::Reading::instances_item_at))]
fn instances_item<'s, 't>(
    alloc: Global,
    tokens: &'t [Token<'s>],
) -> Result<(Item<'s>, &'t [Token<'s>]), ExpressionStop>
    ensures read { Gives (λ x. (item_of x.0, tokens_of x.1.now)) result (instances_item_at (tokens_of tokens.now)) }
    ensures flat { IfOk result (λ x. IsFlatItem x.0) }
{
    let (module, rest) = name(tokens)?;
    let (parameters, rest) = overrides(alloc, rest)?;
    let (instances, rest) = instances(alloc, rest)?;
    let rest = mark(rest, Mark::Semicolon)?;
    Ok((Item::Instances(module, parameters, instances), rest))
}

/// Ports, parameters or instances.
#[tactic(auto, unfolding(crate::specs::Reading::declared_item_at))]
fn declared_item<'s, 't>(
    alloc: Global,
    tokens: &'t [Token<'s>],
) -> Result<(Item<'s>, &'t [Token<'s>]), ExpressionStop>
    ensures read { Gives (λ x. (item_of x.0, tokens_of x.1.now)) result (declared_item_at (tokens_of tokens.now)) }
    ensures flat { IfOk result (λ x. IsFlatItem x.0) }
{
    if let Some((direction, rest)) = direction(tokens) {
        let (item, rest) = port_item(alloc, direction, rest)?;
        return Ok((item, rest));
    }
    if let Some((is_local, rest)) = parameter_word(tokens) {
        let (item, rest) = parameter_item(alloc, is_local, rest)?;
        return Ok((item, rest));
    }
    let (item, rest) = instances_item(alloc, tokens)?;
    Ok((item, rest))
}

/// An item.
#[tactic(auto, unfolding(crate::specs::Reading::item_at))]
pub fn item<'s, 't>(
    alloc: Global,
    tokens: &'t [Token<'s>],
) -> Result<(Item<'s>, &'t [Token<'s>]), ExpressionStop>
    ensures read { Gives (λ x. (item_of x.0, tokens_of x.1.now)) result (item_at (tokens_of tokens.now)) }
    ensures flat { IfOk result (λ x. IsFlatItem x.0) }
{
    if let Some(rest) = behind_word(tokens, "wire") {
        let (item, rest) = wires_item(alloc, rest)?;
        return Ok((item, rest));
    }
    if let Some(rest) = behind_word(tokens, "reg") {
        let (item, rest) = variables_item(alloc, rest)?;
        return Ok((item, rest));
    }
    if let Some(rest) = behind_word(tokens, "assign") {
        let (item, rest) = assign_item(alloc, rest)?;
        return Ok((item, rest));
    }
    if let Some(rest) = behind_word(tokens, "always") {
        let (item, rest) = always_item(alloc, rest)?;
        return Ok((item, rest));
    }
    let (item, rest) = declared_item(alloc, tokens)?;
    Ok((item, rest))
}
