//! Reading targets and assignments from tokens.

ghost use Rattle.std.specs.Prelude.{◌≡◌, map, IfOk};
ghost use Rattle.verilog_text.specs.Token.{right_brace};
ghost use Rattle.v_token.specs.View.{mark_of, tokens_of};
ghost use Rattle.v_syntax.specs.Tree.{tree_of, target_of};
ghost use Rattle.v_expr.specs.View.{Gives};
ghost use Rattle.v_expr.specs.Flat.{IsFlat, Each};
ghost use Rattle.v_body.specs.Flat.{IsFlatTarget};
ghost use Rattle.v_body.specs.Words.{behind_comma, listed_at};
ghost use Rattle.v_body.specs.Targets.{place_at, outer_target_at, target_in, target_at, assignment_at};

use crate::word::name;
use std::alloc::Global;
use v_expr::reader::{behind_mark, mark};
use v_expr::{ExpressionStop, expression, selects};
use v_syntax::tree::{Expression, Target};
use v_token::token::{Mark, Token};

#[tactic(auto, unfolding(crate::specs::Targets::place_at))]
fn place<'s, 't>(
    alloc: Global,
    tokens: &'t [Token<'s>],
) -> Result<(Target<'s>, &'t [Token<'s>]), ExpressionStop>
    ensures read { Gives (λ x. (target_of x.0, tokens_of x.1.now)) result (place_at (tokens_of tokens.now)) }
    ensures flat { IfOk result (λ x. IsFlatTarget x.0) }
{
    let (name, rest) = name(tokens)?;
    let (selects, rest) = selects(alloc, rest)?;
    Ok((Target::Place(name, selects), rest))
}

/// A comma, and a target with at most `levels` levels.
#[cycle(target)]
#[tactic(auto, unfolding(crate::specs::Words::behind_comma))]
fn next<'s, 't>(
    alloc: Global,
    levels: usize,
    tokens: &'t [Token<'s>],
) -> Result<(Target<'s>, &'t [Token<'s>]), ExpressionStop>
    ensures read { Gives (λ x. (target_of x.0, tokens_of x.1.now)) result (behind_comma (target_in levels) (tokens_of tokens.now)) }
    ensures flat { IfOk result (λ x. IsFlatTarget x.0) }
{
    let rest = mark(tokens, Mark::Comma)?;
    let (target, rest) = nested(alloc, levels, rest)?;
    Ok((target, rest))
}

/// The targets behind `{`, each with at most `levels` levels, up to `}`, which is passed.
#[cycle(target)]
#[tactic(auto, unfolding(crate::specs::Words::listed_at))]
fn parts<'s, 't>(
    alloc: Global,
    levels: usize,
    tokens: &'t [Token<'s>],
) -> Result<(Vec<Target<'s>>, &'t [Token<'s>]), ExpressionStop>
    ensures read { Gives (λ x. (map target_of x.0.items, tokens_of x.1.now)) result (listed_at right_brace (target_in levels) (tokens_of tokens.now)) }
    ensures flat { IfOk result (λ x. Each IsFlatTarget x.0.items) }
{
    let (first, mut rest) = nested(alloc, levels, tokens)?;
    let mut targets = Vec::new(alloc);
    targets.push(first)?;
    loop {
        match behind_mark(rest, Mark::RightBrace) {
            Some(after) => return Ok((targets, after)),
            None => {
                let (target, after) = next(alloc, levels, rest)?;
                targets.push(target)?;
                rest = after;
            }
        }
    }
}

/// A target whose parts have at most `levels` levels.
#[cycle(target)]
#[tactic(auto, unfolding(crate::specs::Targets::outer_target_at, crate::specs::Targets::joined_at))]
fn outer<'s, 't>(
    alloc: Global,
    levels: usize,
    tokens: &'t [Token<'s>],
) -> Result<(Target<'s>, &'t [Token<'s>]), ExpressionStop>
    ensures read { Gives (λ x. (target_of x.0, tokens_of x.1.now)) result (outer_target_at (target_in levels) (tokens_of tokens.now)) }
    ensures flat { IfOk result (λ x. IsFlatTarget x.0) }
{
    if let Some(inside) = behind_mark(tokens, Mark::LeftBrace) {
        let (targets, rest) = parts(alloc, levels, inside)?;
        return Ok((Target::Joined(targets), rest));
    }
    let (target, rest) = place(alloc, tokens)?;
    Ok((target, rest))
}

/// A target with at most `levels` levels.
#[cycle(target)]
fn nested<'s, 't>(
    alloc: Global,
    levels: usize,
    tokens: &'t [Token<'s>],
) -> Result<(Target<'s>, &'t [Token<'s>]), ExpressionStop>
    ensures read { Gives (λ x. (target_of x.0, tokens_of x.1.now)) result (target_in levels (tokens_of tokens.now)) }
    ensures flat { IfOk result (λ x. IsFlatTarget x.0) }
{
    if levels == 0 {
        return Err(ExpressionStop::Refused(tokens.len()));
    }
    let (target, rest) = outer(alloc, levels - 1, tokens)?;
    Ok((target, rest))
}

/// The target in front, and what stands behind it.
#[tactic(auto, unfolding(crate::specs::Targets::target_at))]
pub fn target<'s, 't>(
    alloc: Global,
    tokens: &'t [Token<'s>],
) -> Result<(Target<'s>, &'t [Token<'s>]), ExpressionStop>
    ensures read { Gives (λ x. (target_of x.0, tokens_of x.1.now)) result (target_at (tokens_of tokens.now)) }
    ensures flat { IfOk result (λ x. IsFlatTarget x.0) }
{
    let (target, rest) = nested(alloc, tokens.len(), tokens)?;
    Ok((target, rest))
}

/// The target, the sign and the value in front, and what stands behind them.
#[tactic(auto, unfolding(crate::specs::Targets::assignment_at))]
pub fn assignment<'s, 't>(
    alloc: Global,
    sign: Mark,
    tokens: &'t [Token<'s>],
) -> Result<((Target<'s>, Expression<'s>), &'t [Token<'s>]), ExpressionStop>
    ensures read { Gives (λ x. ((target_of x.0.0, tree_of x.0.1), tokens_of x.1.now)) result (assignment_at (mark_of sign) (tokens_of tokens.now)) }
    ensures flat { IfOk result (λ x. IsFlatTarget x.0.0 × IsFlat x.0.1) }
{
    let (target, rest) = target(alloc, tokens)?;
    let rest = mark(rest, sign)?;
    let (value, rest) = expression(alloc, rest)?;
    Ok(((target, value), rest))
}
