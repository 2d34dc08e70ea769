//! What a block waits for.

ghost use Rattle.std.specs.Prelude.{◌≡◌, map, option_map, Some};
ghost use Rattle.v_token.specs.View.{tokens_of};
ghost use Rattle.v_syntax.specs.Source.{edge_of, events_of};
ghost use Rattle.v_expr.specs.View.{Gives};
ghost use Rattle.v_parse.specs.Reading.{edge_at, event_at, next_event, event_list_at, events_at, star_at, in_parentheses_at, control_at};
ghost use Rattle.v_parse.specs.View.{event_of};

use crate::front::begun_with;
use std::alloc::Global;
use v_body::word::{behind_word, name};
use v_expr::ExpressionStop;
use v_expr::reader::{behind_mark, mark};
use v_syntax::module::{EdgeKind, Event, Events};
use v_token::token::{Mark, Token};

/// The edge of an event, and what stands behind its word.
#[tactic(auto, unfolding(crate::specs::Reading::edge_at))]
fn edge<'s, 't>(tokens: &'t [Token<'s>]) -> (EdgeKind, &'t [Token<'s>])
    ensures { edge_at (tokens_of tokens.now) ≡ Some (edge_of result.0, tokens_of result.1.now) }
{
    if let Some(rest) = behind_word(tokens, "posedge") {
        return (EdgeKind::Posedge, rest);
    }
    match behind_word(tokens, "negedge") {
        Some(rest) => (EdgeKind::Negedge, rest),
        None => (EdgeKind::AnyEdge, tokens),
    }
}

/// An event.
#[tactic(auto, unfolding(crate::specs::Reading::event_at))]
fn event<'s, 't>(tokens: &'t [Token<'s>]) -> Result<(Event<'s>, &'t [Token<'s>]), ExpressionStop>
    ensures { Gives (λ x. (event_of x.0, tokens_of x.1.now)) result (event_at (tokens_of tokens.now)) }
{
    let (edge, rest) = edge(tokens);
    let (signal, rest) = name(rest)?;
    Ok((Event { edge, signal }, rest))
}

/// What stands behind `or` or a comma.
#[tactic(auto, unfolding(crate::specs::Reading::next_event))]
fn behind_or<'s, 't>(tokens: &'t [Token<'s>]) -> Option<&'t [Token<'s>]>
    ensures { option_map (λ r. tokens_of r.now) result ≡ next_event (tokens_of tokens.now) }
{
    match behind_word(tokens, "or") {
        Some(rest) => Some(rest),
        None => behind_mark(tokens, Mark::Comma),
    }
}

/// Events with `or` or a comma between them.
#[tactic(auto, unfolding(crate::specs::Reading::event_list_at))]
fn event_list<'s, 't>(
    alloc: Global,
    tokens: &'t [Token<'s>],
) -> Result<(Vec<Event<'s>>, &'t [Token<'s>]), ExpressionStop>
    ensures { Gives (λ x. (map event_of x.0.items, tokens_of x.1.now)) result (event_list_at (tokens_of tokens.now)) }
{
    let (first, mut rest) = event(tokens)?;
    let mut events = begun_with(alloc, first)?;
    loop {
        match behind_or(rest) {
            None => return Ok((events, rest)),
            Some(more) => {
                let (next, after) = event(more)?;
                events.push(next)?;
                rest = after;
            }
        }
    }
}

/// Events, up to `)`, which is passed.
#[tactic(auto, unfolding(crate::specs::Reading::events_at))]
fn events<'s, 't>(
    alloc: Global,
    tokens: &'t [Token<'s>],
) -> Result<(Events<'s>, &'t [Token<'s>]), ExpressionStop>
    ensures { Gives (λ x. (events_of x.0, tokens_of x.1.now)) result (events_at (tokens_of tokens.now)) }
{
    let (events, rest) = event_list(alloc, tokens)?;
    let rest = mark(rest, Mark::RightParenthesis)?;
    Ok((Events::OnEvents(events), rest))
}

/// What stands behind `(`.
#[tactic(auto, unfolding(crate::specs::Reading::in_parentheses_at, crate::specs::Reading::star_at))]
fn in_parentheses<'s, 't>(
    alloc: Global,
    tokens: &'t [Token<'s>],
) -> Result<(Events<'s>, &'t [Token<'s>]), ExpressionStop>
    ensures { Gives (λ x. (events_of x.0, tokens_of x.1.now)) result (in_parentheses_at (tokens_of tokens.now)) }
{
    if let Some(rest) = behind_mark(tokens, Mark::Star) {
        let rest = mark(rest, Mark::RightParenthesis)?;
        return Ok((Events::AnyChange, rest));
    }
    let (events, rest) = events(alloc, tokens)?;
    Ok((events, rest))
}

/// What stands behind `@`.
#[tactic(auto, unfolding(crate::specs::Reading::control_at))]
pub fn control<'s, 't>(
    alloc: Global,
    tokens: &'t [Token<'s>],
) -> Result<(Events<'s>, &'t [Token<'s>]), ExpressionStop>
    ensures { Gives (λ x. (events_of x.0, tokens_of x.1.now)) result (control_at (tokens_of tokens.now)) }
{
    if let Some(rest) = behind_mark(tokens, Mark::Star) {
        return Ok((Events::AnyChange, rest));
    }
    let rest = mark(tokens, Mark::LeftParenthesis)?;
    let (events, rest) = in_parentheses(alloc, rest)?;
    Ok((events, rest))
}
