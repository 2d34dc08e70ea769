//! Declarations: ranges, ports, parameters, nets, variables.

ghost use Rattle.std.specs.Prelude.{◌≡◌, option_map, map, Some, IfOk};
ghost use Rattle.v_token.specs.View.{tokens_of};
ghost use Rattle.v_syntax.specs.Source.{range_of, optional_range_of, boxed_tree_of, direction_of, kind_of, port_of, parameter_of};
ghost use Rattle.v_expr.specs.View.{Gives};
ghost use Rattle.v_expr.specs.Flat.{Each};
ghost use Rattle.v_parse.specs.Flat.{IsFlatBoxed, IsFlatOptionalRange, IsFlatParameter, IsFlatPort, IsFlatRange, IsFlatSetting, IsFlatVariable, IsFlatWire};
ghost use Rattle.v_parse.specs.Reading.{range_at, perhaps_range_at, direction_at, net_kind_at, names_at, declared_port_at, port_at, setting_at, settings_at, parameter_word_at, declared_parameter_at, perhaps_value_at, wire_at, wires_at, variable_at, variables_at};
ghost use Rattle.v_parse.specs.View.{setting_of, wire_of, variable_of};

use crate::front::{begun_with, behind_comma_at_name, flag};
use std::alloc::Global;
use v_body::word::{behind_word, name};
use v_expr::reader::{behind_mark, mark};
use v_expr::{ExpressionStop, expression};
use v_syntax::module::{
    Direction, NetKind, ParameterDeclaration, ParameterValue, PortDeclaration, Range, Variable,
    Wire,
};
use v_syntax::tree::Expression;
use v_token::token::{Mark, Token};

/// The range behind `[`.
#[tactic(auto, unfolding(crate::specs::Reading::range_at))]
fn range<'s, 't>(
    alloc: Global,
    tokens: &'t [Token<'s>],
) -> Result<(Range<'s>, &'t [Token<'s>]), ExpressionStop>
    ensures read { Gives (λ x. (range_of x.0, tokens_of x.1.now)) result (range_at (tokens_of tokens.now)) }
    ensures flat { IfOk result (λ x. IsFlatRange x.0) }
{
    let (left, rest) = expression(alloc, tokens)?;
    let rest = mark(rest, Mark::Colon)?;
    let (right, rest) = expression(alloc, rest)?;
    let rest = mark(rest, Mark::RightBracket)?;
    Ok((Range { left, right }, rest))
}

/// A range, if `[` stands in front.
#[tactic(auto, unfolding(crate::specs::Reading::perhaps_range_at, crate::specs::Lists::perhaps_at, crate::specs::Lists::given_at))]
pub fn perhaps_range<'s, 't>(
    alloc: Global,
    tokens: &'t [Token<'s>],
) -> Result<(Option<Box<Range<'s>>>, &'t [Token<'s>]), ExpressionStop>
    ensures read { Gives (λ x. (optional_range_of x.0, tokens_of x.1.now)) result (perhaps_range_at (tokens_of tokens.now)) }
    ensures flat { IfOk result (λ x. IsFlatOptionalRange x.0) }
{
    match behind_mark(tokens, Mark::LeftBracket) {
        Some(inside) => {
            let (range, rest) = range(alloc, inside)?;
            let range = Box::new(alloc, range)?;
            Ok((Some(range), rest))
        }
        None => Ok((None, tokens)),
    }
}

/// A direction, if one stands in front.
#[tactic(auto, unfolding(crate::specs::Reading::direction_at))]
pub fn direction<'s, 't>(tokens: &'t [Token<'s>]) -> Option<(Direction, &'t [Token<'s>])>
    ensures { option_map (λ x. (direction_of x.0, tokens_of x.1.now)) result ≡ direction_at (tokens_of tokens.now) }
{
    if let Some(rest) = behind_word(tokens, "input") {
        return Some((Direction::Input, rest));
    }
    match behind_word(tokens, "output") {
        Some(rest) => Some((Direction::Output, rest)),
        None => None,
    }
}

/// `wire` or `reg`, if one stands in front.
#[tactic(auto, unfolding(crate::specs::Reading::net_kind_at))]
fn net_kind<'s, 't>(tokens: &'t [Token<'s>]) -> (Option<NetKind>, &'t [Token<'s>])
    ensures { net_kind_at (tokens_of tokens.now) ≡ Some (kind_of result.0, tokens_of result.1.now) }
{
    if let Some(rest) = behind_word(tokens, "wire") {
        return (Some(NetKind::Wire), rest);
    }
    match behind_word(tokens, "reg") {
        Some(rest) => (Some(NetKind::Reg), rest),
        None => (None, tokens),
    }
}

/// Names, as long as a name stands behind the comma.
#[tactic(auto, unfolding(crate::specs::Reading::names_at))]
pub fn names<'s, 't>(
    alloc: Global,
    tokens: &'t [Token<'s>],
) -> Result<(Vec<&'s str>, &'t [Token<'s>]), ExpressionStop>
    ensures { Gives (λ x. (map (λ n. n.now) x.0.items, tokens_of x.1.now)) result (names_at (tokens_of tokens.now)) }
{
    let (first, mut rest) = name(tokens)?;
    let mut names = begun_with(alloc, first)?;
    loop {
        match behind_comma_at_name(rest) {
            None => return Ok((names, rest)),
            Some(more) => {
                let (next, after) = name(more)?;
                names.push(next)?;
                rest = after;
            }
        }
    }
}

/// A port behind its direction.
#[tactic(auto, unfolding(crate::specs::Reading::declared_port_at))]
pub fn declared_port<'s, 't>(
    alloc: Global,
    direction: Direction,
    tokens: &'t [Token<'s>],
) -> Result<(PortDeclaration<'s>, &'t [Token<'s>]), ExpressionStop>
    ensures read { Gives (λ x. (port_of x.0, tokens_of x.1.now)) result (declared_port_at (direction_of direction) (tokens_of tokens.now)) }
    ensures flat { IfOk result (λ x. IsFlatPort x.0) }
{
    let (kind, rest) = net_kind(tokens);
    let (signed, rest) = flag(rest, "signed");
    let (range, rest) = perhaps_range(alloc, rest)?;
    let (names, rest) = names(alloc, rest)?;
    Ok((
        PortDeclaration {
            direction,
            kind,
            signed,
            range,
            names,
        },
        rest,
    ))
}

/// A port.
#[tactic(auto, unfolding(crate::specs::Reading::port_at))]
pub fn port<'s, 't>(
    alloc: Global,
    tokens: &'t [Token<'s>],
) -> Result<(PortDeclaration<'s>, &'t [Token<'s>]), ExpressionStop>
    ensures read { Gives (λ x. (port_of x.0, tokens_of x.1.now)) result (port_at (tokens_of tokens.now)) }
    ensures flat { IfOk result (λ x. IsFlatPort x.0) }
{
    match direction(tokens) {
        Some((direction, rest)) => {
            let (port, rest) = declared_port(alloc, direction, rest)?;
            Ok((port, rest))
        }
        None => Err(ExpressionStop::Refused(tokens.len())),
    }
}

/// A name with its value.
#[tactic(auto, unfolding(crate::specs::Reading::setting_at))]
fn setting<'s, 't>(
    alloc: Global,
    tokens: &'t [Token<'s>],
) -> Result<(ParameterValue<'s>, &'t [Token<'s>]), ExpressionStop>
    ensures read { Gives (λ x. (setting_of x.0, tokens_of x.1.now)) result (setting_at (tokens_of tokens.now)) }
    ensures flat { IfOk result (λ x. IsFlatSetting x.0) }
{
    let (name, rest) = name(tokens)?;
    let rest = mark(rest, Mark::Equals)?;
    let (value, rest) = expression(alloc, rest)?;
    Ok((ParameterValue { name, value }, rest))
}

/// Names with their values, as long as a name stands behind the comma.
#[tactic(auto, unfolding(crate::specs::Reading::settings_at))]
fn settings<'s, 't>(
    alloc: Global,
    tokens: &'t [Token<'s>],
) -> Result<(Vec<ParameterValue<'s>>, &'t [Token<'s>]), ExpressionStop>
    ensures read { Gives (λ x. (map setting_of x.0.items, tokens_of x.1.now)) result (settings_at (tokens_of tokens.now)) }
    ensures flat { IfOk result (λ x. Each IsFlatSetting x.0.items) }
{
    let (first, mut rest) = setting(alloc, tokens)?;
    let mut values = begun_with(alloc, first)?;
    loop {
        match behind_comma_at_name(rest) {
            None => return Ok((values, rest)),
            Some(more) => {
                let (next, after) = setting(alloc, more)?;
                values.push(next)?;
                rest = after;
            }
        }
    }
}

/// Whether it is a local one, if a word that declares parameters stands in front.
#[tactic(auto, unfolding(crate::specs::Reading::parameter_word_at))]
pub fn parameter_word<'s, 't>(tokens: &'t [Token<'s>]) -> Option<(bool, &'t [Token<'s>])>
    ensures { option_map (λ x. (x.0, tokens_of x.1.now)) result ≡ parameter_word_at (tokens_of tokens.now) }
{
    if let Some(rest) = behind_word(tokens, "localparam") {
        return Some((true, rest));
    }
    match behind_word(tokens, "parameter") {
        Some(rest) => Some((false, rest)),
        None => None,
    }
}

/// Parameters behind their word.
#[tactic(auto, unfolding(crate::specs::Reading::declared_parameter_at))]
pub fn declared_parameter<'s, 't>(
    alloc: Global,
    is_local: bool,
    tokens: &'t [Token<'s>],
) -> Result<(ParameterDeclaration<'s>, &'t [Token<'s>]), ExpressionStop>
    ensures read { Gives (λ x. (parameter_of x.0, tokens_of x.1.now)) result (declared_parameter_at is_local (tokens_of tokens.now)) }
    ensures flat { IfOk result (λ x. IsFlatParameter x.0) }
{
    let (signed, rest) = flag(tokens, "signed");
    let (range, rest) = perhaps_range(alloc, rest)?;
    let (values, rest) = settings(alloc, rest)?;
    Ok((
        ParameterDeclaration {
            is_local,
            signed,
            range,
            values,
        },
        rest,
    ))
}

/// An expression, if `=` stands in front.
#[tactic(auto, unfolding(crate::specs::Reading::perhaps_value_at, crate::specs::Lists::perhaps_at, crate::specs::Lists::given_at))]
fn perhaps_value<'s, 't>(
    alloc: Global,
    tokens: &'t [Token<'s>],
) -> Result<(Option<Box<Expression<'s>>>, &'t [Token<'s>]), ExpressionStop>
    ensures read { Gives (λ x. (boxed_tree_of x.0, tokens_of x.1.now)) result (perhaps_value_at (tokens_of tokens.now)) }
    ensures flat { IfOk result (λ x. IsFlatBoxed x.0) }
{
    match behind_mark(tokens, Mark::Equals) {
        Some(value) => {
            let (value, rest) = expression(alloc, value)?;
            let value = Box::new(alloc, value)?;
            Ok((Some(value), rest))
        }
        None => Ok((None, tokens)),
    }
}

/// A net, perhaps with what it is assigned.
#[tactic(auto, unfolding(crate::specs::Reading::wire_at))]
fn wire<'s, 't>(
    alloc: Global,
    tokens: &'t [Token<'s>],
) -> Result<(Wire<'s>, &'t [Token<'s>]), ExpressionStop>
    ensures read { Gives (λ x. (wire_of x.0, tokens_of x.1.now)) result (wire_at (tokens_of tokens.now)) }
    ensures flat { IfOk result (λ x. IsFlatWire x.0) }
{
    let (name, rest) = name(tokens)?;
    let (value, rest) = perhaps_value(alloc, rest)?;
    Ok((Wire { name, value }, rest))
}

/// Nets with commas between them.
#[tactic(auto, unfolding(crate::specs::Reading::wires_at))]
pub fn wires<'s, 't>(
    alloc: Global,
    tokens: &'t [Token<'s>],
) -> Result<(Vec<Wire<'s>>, &'t [Token<'s>]), ExpressionStop>
    ensures read { Gives (λ x. (map wire_of x.0.items, tokens_of x.1.now)) result (wires_at (tokens_of tokens.now)) }
    ensures flat { IfOk result (λ x. Each IsFlatWire x.0.items) }
{
    let (first, mut rest) = wire(alloc, tokens)?;
    let mut wires = begun_with(alloc, first)?;
    loop {
        match behind_mark(rest, Mark::Comma) {
            None => return Ok((wires, rest)),
            Some(more) => {
                let (next, after) = wire(alloc, more)?;
                wires.push(next)?;
                rest = after;
            }
        }
    }
}

/// A variable, or a memory.
#[tactic(auto, unfolding(crate::specs::Reading::variable_at))]
fn variable<'s, 't>(
    alloc: Global,
    tokens: &'t [Token<'s>],
) -> Result<(Variable<'s>, &'t [Token<'s>]), ExpressionStop>
    ensures read { Gives (λ x. (variable_of x.0, tokens_of x.1.now)) result (variable_at (tokens_of tokens.now)) }
    ensures flat { IfOk result (λ x. IsFlatVariable x.0) }
{
    let (name, rest) = name(tokens)?;
    let (addresses, rest) = perhaps_range(alloc, rest)?;
    Ok((Variable { name, addresses }, rest))
}

/// Variables with commas between them.
#[tactic(auto, unfolding(crate::specs::Reading::variables_at))]
pub fn variables<'s, 't>(
    alloc: Global,
    tokens: &'t [Token<'s>],
) -> Result<(Vec<Variable<'s>>, &'t [Token<'s>]), ExpressionStop>
    ensures read { Gives (λ x. (map variable_of x.0.items, tokens_of x.1.now)) result (variables_at (tokens_of tokens.now)) }
    ensures flat { IfOk result (λ x. Each IsFlatVariable x.0.items) }
{
    let (first, mut rest) = variable(alloc, tokens)?;
    let mut variables = begun_with(alloc, first)?;
    loop {
        match behind_mark(rest, Mark::Comma) {
            None => return Ok((variables, rest)),
            Some(more) => {
                let (next, after) = variable(alloc, more)?;
                variables.push(next)?;
                rest = after;
            }
        }
    }
}
