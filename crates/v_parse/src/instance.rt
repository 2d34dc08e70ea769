//! Instances of modules, with their connections.

ghost use Rattle.std.specs.Prelude.{◌≡◌, map, Some, IfOk};
ghost use Rattle.v_token.specs.View.{tokens_of};
ghost use Rattle.v_syntax.specs.Source.{optional_tree_of, connections_of};
ghost use Rattle.v_expr.specs.View.{Gives};
ghost use Rattle.v_expr.specs.Flat.{Each};
ghost use Rattle.v_parse.specs.Flat.{IsFlatConnections, IsFlatInstance, IsFlatNamed, IsFlatOptional};
ghost use Rattle.v_parse.specs.Reading.{entry_at, entries_at, named_entry_at, named_entries_at, by_order_at, by_name_at, connections_at, instance_at, instances_at, overrides_at};
ghost use Rattle.v_parse.specs.View.{named_entry_of, instance_of};

use crate::front::begun_with;
use std::alloc::Global;
use v_body::word::name;
use v_expr::reader::{behind_mark, mark};
use v_expr::{ExpressionStop, expression};
use v_syntax::module::{Connections, Instance, NamedConnection};
use v_syntax::tree::Expression;
use v_token::token::{Mark, Token};

/// An expression, or nothing in front of a comma or `)`.
#[tactic(auto, unfolding(crate::specs::Reading::entry_at, crate::specs::Reading::some_entry_at))]
fn entry<'s, 't>(
    alloc: Global,
    tokens: &'t [Token<'s>],
) -> Result<(Option<Expression<'s>>, &'t [Token<'s>]), ExpressionStop>
    ensures read { Gives (λ x. (optional_tree_of x.0, tokens_of x.1.now)) result (entry_at (tokens_of tokens.now)) }
    ensures flat { IfOk result (λ x. IsFlatOptional x.0) }
{
    if behind_mark(tokens, Mark::Comma).is_some() {
        return Ok((None, tokens));
    }
    if behind_mark(tokens, Mark::RightParenthesis).is_some() {
        return Ok((None, tokens));
    }
    let (value, rest) = expression(alloc, tokens)?;
    Ok((Some(value), rest))
}

/// Entries with commas between them.
#[tactic(auto, unfolding(crate::specs::Reading::entries_at))]
fn entries<'s, 't>(
    alloc: Global,
    tokens: &'t [Token<'s>],
) -> Result<(Vec<Option<Expression<'s>>>, &'t [Token<'s>]), ExpressionStop>
    ensures read { Gives (λ x. (map optional_tree_of x.0.items, tokens_of x.1.now)) result (entries_at (tokens_of tokens.now)) }
    ensures flat { IfOk result (λ x. Each IsFlatOptional x.0.items) }
{
    let (first, mut rest) = entry(alloc, tokens)?;
    let mut entries = begun_with(alloc, first)?;
    loop {
        match behind_mark(rest, Mark::Comma) {
            None => return Ok((entries, rest)),
            Some(more) => {
                let (next, after) = entry(alloc, more)?;
                entries.push(next)?;
                rest = after;
            }
        }
    }
}

/// `.name(value)`
#[tactic(auto, unfolding(crate::specs::Reading::named_entry_at))]
fn named_entry<'s, 't>(
    alloc: Global,
    tokens: &'t [Token<'s>],
) -> Result<(NamedConnection<'s>, &'t [Token<'s>]), ExpressionStop>
    ensures read { Gives (λ x. (named_entry_of x.0, tokens_of x.1.now)) result (named_entry_at (tokens_of tokens.now)) }
    ensures flat { IfOk result (λ x. IsFlatNamed x.0) }
{
    let rest = mark(tokens, Mark::Dot)?;
    let (name, rest) = name(rest)?;
    let rest = mark(rest, Mark::LeftParenthesis)?;
    let (value, rest) = entry(alloc, rest)?;
    let rest = mark(rest, Mark::RightParenthesis)?;
    Ok((NamedConnection { name, value }, rest))
}

/// Named entries with commas between them.
#[tactic(auto, unfolding(crate::specs::Reading::named_entries_at))]
fn named_entries<'s, 't>(
    alloc: Global,
    tokens: &'t [Token<'s>],
) -> Result<(Vec<NamedConnection<'s>>, &'t [Token<'s>]), ExpressionStop>
    ensures read { Gives (λ x. (map named_entry_of x.0.items, tokens_of x.1.now)) result (named_entries_at (tokens_of tokens.now)) }
    ensures flat { IfOk result (λ x. Each IsFlatNamed x.0.items) }
{
    let (first, mut rest) = named_entry(alloc, tokens)?;
    let mut entries = begun_with(alloc, first)?;
    loop {
        match behind_mark(rest, Mark::Comma) {
            None => return Ok((entries, rest)),
            Some(more) => {
                let (next, after) = named_entry(alloc, more)?;
                entries.push(next)?;
                rest = after;
            }
        }
    }
}

/// Connections by order, up to `)`, which is passed.
#[tactic(auto, unfolding(crate::specs::Reading::by_order_at))]
fn by_order<'s, 't>(
    alloc: Global,
    tokens: &'t [Token<'s>],
) -> Result<(Connections<'s>, &'t [Token<'s>]), ExpressionStop>
    ensures read { Gives (λ x. (connections_of x.0, tokens_of x.1.now)) result (by_order_at (tokens_of tokens.now)) }
    ensures flat { IfOk result (λ x. IsFlatConnections x.0) }
{
    let (entries, rest) = entries(alloc, tokens)?;
    let rest = mark(rest, Mark::RightParenthesis)?;
    Ok((Connections::ByOrder(entries), rest))
}

/// Connections by name, up to `)`, which is passed.
#[tactic(auto, unfolding(crate::specs::Reading::by_name_at))]
fn by_name<'s, 't>(
    alloc: Global,
    tokens: &'t [Token<'s>],
) -> Result<(Connections<'s>, &'t [Token<'s>]), ExpressionStop>
    ensures read { Gives (λ x. (connections_of x.0, tokens_of x.1.now)) result (by_name_at (tokens_of tokens.now)) }
    ensures flat { IfOk result (λ x. IsFlatConnections x.0) }
{
    let (entries, rest) = named_entries(alloc, tokens)?;
    let rest = mark(rest, Mark::RightParenthesis)?;
    Ok((Connections::ByName(entries), rest))
}

/// Connections, up to `)`, which is passed.
#[tactic(auto, unfolding(crate::specs::Reading::connections_at))]
fn connections<'s, 't>(
    alloc: Global,
    tokens: &'t [Token<'s>],
) -> Result<(Connections<'s>, &'t [Token<'s>]), ExpressionStop>
    ensures read { Gives (λ x. (connections_of x.0, tokens_of x.1.now)) result (connections_at (tokens_of tokens.now)) }
    ensures flat { IfOk result (λ x. IsFlatConnections x.0) }
{
    if behind_mark(tokens, Mark::Dot).is_some() {
        let (connections, rest) = by_name(alloc, tokens)?;
        return Ok((connections, rest));
    }
    let (connections, rest) = by_order(alloc, tokens)?;
    Ok((connections, rest))
}

/// An instance: its name and connections.
#[tactic(auto, unfolding(crate::specs::Reading::instance_at))]
fn instance<'s, 't>(
    alloc: Global,
    tokens: &'t [Token<'s>],
) -> Result<(Instance<'s>, &'t [Token<'s>]), ExpressionStop>
    ensures read { Gives (λ x. (instance_of x.0, tokens_of x.1.now)) result (instance_at (tokens_of tokens.now)) }
    ensures flat { IfOk result (λ x. IsFlatInstance x.0) }
{
    let (name, rest) = name(tokens)?;
    let rest = mark(rest, Mark::LeftParenthesis)?;
    let (connections, rest) = connections(alloc, rest)?;
    Ok((Instance { name, connections }, rest))
}

/// Instances with commas between them.
#[tactic(auto, unfolding(crate::specs::Reading::instances_at))]
pub fn instances<'s, 't>(
    alloc: Global,
    tokens: &'t [Token<'s>],
) -> Result<(Vec<Instance<'s>>, &'t [Token<'s>]), ExpressionStop>
    ensures read { Gives (λ x. (map instance_of x.0.items, tokens_of x.1.now)) result (instances_at (tokens_of tokens.now)) }
    ensures flat { IfOk result (λ x. Each IsFlatInstance x.0.items) }
{
    let (first, mut rest) = instance(alloc, tokens)?;
    let mut instances = begun_with(alloc, first)?;
    loop {
        match behind_mark(rest, Mark::Comma) {
            None => return Ok((instances, rest)),
            Some(more) => {
                let (next, after) = instance(alloc, more)?;
                instances.push(next)?;
                rest = after;
            }
        }
    }
}

/// Parameters of instances, if `#` stands in front.
#[tactic(auto, unfolding(crate::specs::Reading::overrides_at))]
pub fn overrides<'s, 't>(
    alloc: Global,
    tokens: &'t [Token<'s>],
) -> Result<(Connections<'s>, &'t [Token<'s>]), ExpressionStop>
    ensures read { Gives (λ x. (connections_of x.0, tokens_of x.1.now)) result (overrides_at (tokens_of tokens.now)) }
    ensures flat { IfOk result (λ x. IsFlatConnections x.0) }
{
    match behind_mark(tokens, Mark::Hash) {
        Some(rest) => {
            let rest = mark(rest, Mark::LeftParenthesis)?;
            let (connections, rest) = connections(alloc, rest)?;
            Ok((connections, rest))
        }
        None => Ok((Connections::ByOrder(Vec::new(alloc)), tokens)),
    }
}
