//! Expressions and what stands in their brackets: the functions that call one another, each with a bound on the levels of brackets.

ghost use Rattle.std.specs.Prelude.{◌≡◌, map, IfOk};
ghost use Rattle.verilog_text.specs.Token.{comma};
ghost use Rattle.v_token.specs.View.{mark_of, tokens_of};
ghost use Rattle.v_syntax.specs.Tree.{tree_of, select_of, selects_of};
ghost use Rattle.v_expr.specs.Reading.{Reader, next_at, parts_at, expressions_at, braces_at, select_at, selects_at, alone_at, prefixed_at, tier_at, expression_at};
ghost use Rattle.v_expr.specs.Starting.{closed_at};
ghost use Rattle.v_expr.specs.View.{Gives, in_front};
ghost use Rattle.v_expr.specs.Flat.{IsFlat, AreFlat, IsFlatSelect, AreFlatSelects};

use crate::limit::{Limit, limit_of, range};
use crate::made::{behind_closing, choice, joined, two_selects};
use crate::node::{concatenation, first_part, replication, with_choices, with_prefixes};
use crate::operator::{behind_joint, prefixes};
use crate::reader::{behind_mark, from_here, mark};
use crate::start::{Start, converted, start_of};
use crate::stop::ExpressionStop;
use std::alloc::Global;
use v_syntax::tree::{Expression, Select, Selects};
use v_token::token::{Mark, Token};

/// An expression with the mark behind it, which is passed.
#[cycle(reading)]
fn closed<'s, 't>(
    alloc: Global,
    levels: usize,
    tokens: &'t [Token<'s>],
    closing: Mark,
) -> Result<(Expression<'s>, &'t [Token<'s>]), ExpressionStop>
    ensures read { Gives (λ x. (tree_of x.0, tokens_of x.1.now)) result (closed_at (mark_of closing) (expression_at levels) (tokens_of tokens.now)) }
    ensures flat { IfOk result (λ x. IsFlat x.0) }
{
    let read = expression(alloc, levels, tokens);
    behind_closing(read, closing)
}

/// A comma and the expression behind it.
#[cycle(reading)]
#[tactic(auto, unfolding(crate::specs::Reading::next_at))]
fn next<'s, 't>(
    alloc: Global,
    levels: usize,
    tokens: &'t [Token<'s>],
) -> Result<(Expression<'s>, &'t [Token<'s>]), ExpressionStop>
    ensures read { Gives (λ x. (tree_of x.0, tokens_of x.1.now)) result (next_at (expression_at levels) (tokens_of tokens.now)) }
    ensures flat { IfOk result (λ x. IsFlat x.0) }
{
    let rest = mark(tokens, Mark::Comma)?;
    let (expression, rest) = expression(alloc, levels, rest)?;
    Ok((expression, rest))
}

/// The first parts with the further ones behind them, up to the closing brace, which is passed.
#[cycle(reading)]
fn parts<'s, 't>(
    alloc: Global,
    levels: usize,
    first: Vec<Expression<'s>>,
    tokens: &'t [Token<'s>],
) -> Result<(Vec<Expression<'s>>, &'t [Token<'s>]), ExpressionStop>
    ensures read { Gives (λ x. (map tree_of x.0.items, tokens_of x.1.now)) result (in_front (map tree_of first.entry.items) (parts_at (expression_at levels) (tokens_of tokens.now))) }
    ensures flat { AreFlat first.entry.items → IfOk result (λ x. AreFlat x.0.items) }
{
    let mut parts = first;
    let mut rest = from_here(tokens)?;
    loop {
        match behind_mark(rest, Mark::RightBrace) {
            Some(after) => return Ok((parts, after)),
            None => {
                let (part, after) = next(alloc, levels, rest)?;
                parts.push(part)?;
                rest = after;
            }
        }
    }
}

/// The parts behind an opening brace, up to the closing one, which is passed.
#[cycle(reading)]
fn copied<'s, 't>(
    alloc: Global,
    levels: usize,
    tokens: &'t [Token<'s>],
) -> Result<(Vec<Expression<'s>>, &'t [Token<'s>]), ExpressionStop>
    ensures read { Gives (λ x. (map tree_of x.0.items, tokens_of x.1.now)) result (expressions_at (expression_at levels) (tokens_of tokens.now)) }
    ensures flat { IfOk result (λ x. AreFlat x.0.items) }
{
    let (first, rest) = expression(alloc, levels, tokens)?;
    let first = first_part(alloc, first)?;
    let (parts, rest) = parts(alloc, levels, first, rest)?;
    Ok((parts, rest))
}

/// What stands behind an opening brace, up to the closing one, which is passed.
#[cycle(reading)]
fn braces<'s, 't>(
    alloc: Global,
    levels: usize,
    tokens: &'t [Token<'s>],
) -> Result<(Expression<'s>, &'t [Token<'s>]), ExpressionStop>
    ensures read { Gives (λ x. (tree_of x.0, tokens_of x.1.now)) result (braces_at (expression_at levels) (tokens_of tokens.now)) }
    ensures flat { IfOk result (λ x. IsFlat x.0) }
{
    let (first, rest) = expression(alloc, levels, tokens)?;
    match behind_mark(rest, Mark::LeftBrace) {
        Some(inside) => {
            let count = Box::new(alloc, first)?;
            let (parts, rest) = copied(alloc, levels, inside)?;
            let rest = mark(rest, Mark::RightBrace)?;
            Ok((replication(count, parts), rest))
        }
        None => {
            let first = first_part(alloc, first)?;
            let (parts, rest) = parts(alloc, levels, first, rest)?;
            Ok((concatenation(parts), rest))
        }
    }
}

/// What stands behind an opening bracket, up to the closing one, which is passed.
#[cycle(reading)]
fn select<'s, 't>(
    alloc: Global,
    levels: usize,
    tokens: &'t [Token<'s>],
) -> Result<(Select<'s>, &'t [Token<'s>]), ExpressionStop>
    ensures read { Gives (λ x. (select_of x.0, tokens_of x.1.now)) result (select_at (expression_at levels) (tokens_of tokens.now)) }
    ensures flat { IfOk result (λ x. IsFlatSelect x.0) }
{
    let (first, rest) = expression(alloc, levels, tokens)?;
    let first = Box::new(alloc, first)?;
    match limit_of(rest) {
        Limit::Index(rest) => Ok((Select::Index(first), rest)),
        Limit::Range(kind, rest) => {
            let (second, rest) = closed(alloc, levels, rest, Mark::RightBracket)?;
            let select = range(alloc, kind, first, second)?;
            Ok((select, rest))
        }
        Limit::Nothing => Err(ExpressionStop::Refused(rest.len())),
    }
}

/// The selects behind a name, each with at most `levels` levels in its brackets.
#[cycle(reading)]
#[tactic(auto, unfolding(crate::specs::Reading::selects_at, crate::specs::Reading::second_select_at))]
pub fn selects<'s, 't>(
    alloc: Global,
    levels: usize,
    tokens: &'t [Token<'s>],
) -> Result<(Selects<'s>, &'t [Token<'s>]), ExpressionStop>
    ensures read { Gives (λ x. (selects_of x.0, tokens_of x.1.now)) result (selects_at (expression_at levels) (tokens_of tokens.now)) }
    ensures flat { IfOk result (λ x. AreFlatSelects x.0) }
{
    match behind_mark(tokens, Mark::LeftBracket) {
        None => Ok((Selects::Whole, tokens)),
        Some(inside) => {
            let (first, rest) = select(alloc, levels, inside)?;
            match behind_mark(rest, Mark::LeftBracket) {
                None => Ok((Selects::One(first), rest)),
                Some(inside) => {
                    let second = select(alloc, levels, inside);
                    two_selects(first, second)
                }
            }
        }
    }
}

/// What stands alone: a number, a name with its selects, or what brackets hold.
#[cycle(reading)]
fn alone<'s, 't>(
    alloc: Global,
    levels: usize,
    tokens: &'t [Token<'s>],
) -> Result<(Expression<'s>, &'t [Token<'s>]), ExpressionStop>
    ensures read { Gives (λ x. (tree_of x.0, tokens_of x.1.now)) result (alone_at (expression_at levels) (tokens_of tokens.now)) }
    ensures flat { IfOk result (λ x. IsFlat x.0) }
{
    match start_of(tokens) {
        Start::Number(number, rest) => Ok((Expression::Number(number), rest)),
        Start::Name(name, rest) => {
            let (selects, rest) = selects(alloc, levels, rest)?;
            Ok((Expression::Name(name, selects), rest))
        }
        Start::Inside(conversion, rest) => {
            let (inside, rest) = closed(alloc, levels, rest, Mark::RightParenthesis)?;
            let expression = converted(alloc, conversion, inside)?;
            Ok((expression, rest))
        }
        Start::Braces(rest) => {
            let (expression, rest) = braces(alloc, levels, rest)?;
            Ok((expression, rest))
        }
        Start::Nothing(rest) => Err(ExpressionStop::Refused(rest.len())),
    }
}

/// What stands alone, with the operators in front of it.
#[cycle(reading)]
fn operand<'s, 't>(
    alloc: Global,
    levels: usize,
    tokens: &'t [Token<'s>],
) -> Result<(Expression<'s>, &'t [Token<'s>]), ExpressionStop>
    ensures read { Gives (λ x. (tree_of x.0, tokens_of x.1.now)) result (prefixed_at (expression_at levels) (tokens_of tokens.now)) }
    ensures flat { IfOk result (λ x. IsFlat x.0) }
{
    let (operators, rest) = prefixes(alloc, tokens)?;
    let (alone, rest) = alone(alloc, levels, rest)?;
    let operand = with_prefixes(alloc, operators, alone)?;
    Ok((operand, rest))
}

/// Operands with operators of the first `tiers` tiers between them, counted from the tightest.
#[cycle(reading)]
fn tier<'s, 't>(
    alloc: Global,
    levels: usize,
    tiers: u8,
    tokens: &'t [Token<'s>],
) -> Result<(Expression<'s>, &'t [Token<'s>]), ExpressionStop>
    ensures read { Gives (λ x. (tree_of x.0, tokens_of x.1.now)) result (tier_at tiers (expression_at levels) (tokens_of tokens.now)) }
    ensures flat { IfOk result (λ x. IsFlat x.0) }
{
    let (first, behind) = operand(alloc, levels, tokens)?;
    let mut left = first;
    let mut rest = behind;
    loop {
        match behind_joint(rest, tiers) {
            None => return Ok((left, rest)),
            Some((joint, after)) => {
                let right = tier(alloc, levels, joint.tier, after);
                let (whole, behind) = joined(alloc, left, joint.operator, right)?;
                left = whole;
                rest = behind;
            }
        }
    }
}

/// An expression with at most `levels` levels of what stands in brackets or between `?` and `:`, itself counted.
#[cycle(reading)]
pub fn expression<'s, 't>(
    alloc: Global,
    levels: usize,
    tokens: &'t [Token<'s>],
) -> Result<(Expression<'s>, &'t [Token<'s>]), ExpressionStop>
    ensures read { Gives (λ x. (tree_of x.0, tokens_of x.1.now)) result (expression_at levels (tokens_of tokens.now)) }
    ensures flat { IfOk result (λ x. IsFlat x.0) }
{
    if levels == 0 {
        return Err(ExpressionStop::Refused(tokens.len()));
    }
    let mut choices = Vec::new(alloc);
    let mut rest = from_here(tokens)?;
    loop {
        let (condition, after) = tier(alloc, levels - 1, 11, rest)?;
        match behind_mark(after, Mark::Question) {
            None => {
                let whole = with_choices(alloc, choices, condition)?;
                return Ok((whole, after));
            }
            Some(inside) => {
                let value = closed(alloc, levels - 1, inside, Mark::Colon);
                let (choice, behind) = choice(condition, value)?;
                choices.push(choice)?;
                rest = behind;
            }
        }
    }
}
