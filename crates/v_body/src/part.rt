//! The parts of statements that hold no statement.

ghost use Rattle.std.specs.Prelude.{◌≡◌, false, map, IfOk};
ghost use Rattle.verilog_text.specs.Token.{colon};
ghost use Rattle.v_token.specs.View.{tokens_of};
ghost use Rattle.v_syntax.specs.Tree.{tree_of, statement_of, name_of_option};
ghost use Rattle.v_expr.specs.View.{Gives};
ghost use Rattle.v_expr.specs.Whole.{whole_at};
ghost use Rattle.v_body.specs.Words.{behind_comma, listed_at};
ghost use Rattle.v_body.specs.Statements.{condition_at, value_at, assigning_at, behind_perhaps_colon, block_name_at, is_default, has_few_defaults, are_items_of_case, as_items};
ghost use Rattle.v_body.specs.View.{item_of};
ghost use Rattle.v_expr.specs.Flat.{IsFlat, Each};
ghost use Rattle.v_body.specs.Flat.{IsFlatStatement, IsNoIf};

use crate::target::target;
use crate::word::{behind_word, name};
use std::alloc::Global;
use v_expr::reader::{behind_mark, mark};
use v_expr::{ExpressionStop, expression};
use v_syntax::tree::{CaseItem, Expression, Statement};
use v_token::token::{Mark, Token};

/// An expression in parentheses.
#[tactic(auto, unfolding(crate::specs::Statements::condition_at))]
pub fn condition<'s, 't>(
    alloc: Global,
    tokens: &'t [Token<'s>],
) -> Result<(Expression<'s>, &'t [Token<'s>]), ExpressionStop>
    ensures read { Gives (λ x. (tree_of x.0, tokens_of x.1.now)) result (condition_at (tokens_of tokens.now)) }
    ensures flat { IfOk result (λ x. IsFlat x.0) }
{
    let rest = mark(tokens, Mark::LeftParenthesis)?;
    let (condition, rest) = expression(alloc, rest)?;
    let rest = mark(rest, Mark::RightParenthesis)?;
    Ok((condition, rest))
}

/// The value that is assigned, and its semicolon.
#[tactic(auto, unfolding(crate::specs::Statements::value_at))]
fn value<'s, 't>(
    alloc: Global,
    tokens: &'t [Token<'s>],
) -> Result<(Expression<'s>, &'t [Token<'s>]), ExpressionStop>
    ensures read { Gives (λ x. (tree_of x.0, tokens_of x.1.now)) result (value_at (tokens_of tokens.now)) }
    ensures flat { IfOk result (λ x. IsFlat x.0) }
{
    let (value, rest) = expression(alloc, tokens)?;
    let rest = mark(rest, Mark::Semicolon)?;
    Ok((value, rest))
}

/// An assignment that is a statement.
#[tactic(auto, unfolding(crate::specs::Statements::assigning_at, crate::specs::Statements::blocking_at, crate::specs::Statements::nonblocking_at))]
pub fn assigning<'s, 't>(
    alloc: Global,
    tokens: &'t [Token<'s>],
) -> Result<(Statement<'s>, &'t [Token<'s>]), ExpressionStop>
    ensures read { Gives (λ x. (statement_of x.0, tokens_of x.1.now)) result (assigning_at (tokens_of tokens.now)) }
    ensures flat { IfOk result (λ x. IsFlatStatement x.0) }
    ensures no_if { IfOk result (λ x. IsNoIf x.0) }
{
    let (target, rest) = target(alloc, tokens)?;
    let target = Box::new(alloc, target)?;
    if let Some(rest) = behind_mark(rest, Mark::Equals) {
        let (value, rest) = value(alloc, rest)?;
        return Ok((Statement::Blocking(target, value), rest));
    }
    let rest = mark(rest, Mark::LessEquals)?;
    let (value, rest) = value(alloc, rest)?;
    Ok((Statement::Nonblocking(target, value), rest))
}

#[tactic(auto, unfolding(crate::specs::Words::behind_comma))]
fn next_value<'s, 't>(
    alloc: Global,
    tokens: &'t [Token<'s>],
) -> Result<(Expression<'s>, &'t [Token<'s>]), ExpressionStop>
    ensures read { Gives (λ x. (tree_of x.0, tokens_of x.1.now)) result (behind_comma whole_at (tokens_of tokens.now)) }
    ensures flat { IfOk result (λ x. IsFlat x.0) }
{
    let rest = mark(tokens, Mark::Comma)?;
    let (value, rest) = expression(alloc, rest)?;
    Ok((value, rest))
}

/// The values of an item of a `case`, up to `:`, which is passed.
#[tactic(auto, unfolding(crate::specs::Words::listed_at))]
pub fn values<'s, 't>(
    alloc: Global,
    tokens: &'t [Token<'s>],
) -> Result<(Vec<Expression<'s>>, &'t [Token<'s>]), ExpressionStop>
    ensures read { Gives (λ x. (map tree_of x.0.items, tokens_of x.1.now)) result (listed_at colon whole_at (tokens_of tokens.now)) }
    ensures flat { IfOk result (λ x. Each IsFlat x.0.items) }
{
    let (first, mut rest) = expression(alloc, tokens)?;
    // Most items have one value, and room for more is made when a second one is read.
    let mut values = Vec::with_capacity(alloc, 1)?;
    values.push(first)?;
    loop {
        match behind_mark(rest, Mark::Colon) {
            Some(after) => return Ok((values, after)),
            None => {
                let (value, after) = next_value(alloc, rest)?;
                values.push(value)?;
                rest = after;
            }
        }
    }
}

/// What stands behind a colon, where one stands in front.
#[tactic(auto, unfolding(crate::specs::Statements::behind_perhaps_colon))]
pub fn behind_perhaps_colon<'s, 't>(tokens: &'t [Token<'s>]) -> &'t [Token<'s>]
    ensures { tokens_of result.now ≡ behind_perhaps_colon (tokens_of tokens.now) }
{
    if let Some(rest) = behind_mark(tokens, Mark::Colon) {
        return rest;
    }
    tokens
}

/// The name of a block, which may be left out.
#[tactic(auto, unfolding(crate::specs::Statements::block_name_at))]
pub fn block_name<'s, 't>(
    tokens: &'t [Token<'s>],
) -> Result<(Option<&'s str>, &'t [Token<'s>]), ExpressionStop>
    ensures { Gives (λ x. (name_of_option x.0, tokens_of x.1.now)) result (block_name_at (tokens_of tokens.now)) }
{
    if let Some(rest) = behind_mark(tokens, Mark::Colon) {
        let (name, rest) = name(rest)?;
        return Ok((Some(name), rest));
    }
    Ok((None, tokens))
}

fn is_default(item: &CaseItem<'_>) -> bool
    ensures { result ≡ is_default (item_of item.now) }
{
    match item {
        CaseItem::Values(_, _) => false,
        CaseItem::Default(_) => true,
    }
}

fn has_few_defaults(items: &[CaseItem<'_>]) -> bool
    ensures { result ≡ has_few_defaults false (map item_of items.now) }
{
    let mut met = false;
    for item in items.iter() {
        let default = is_default(item);
        if met & default {
            return false;
        }
        met = met | default;
    }
    true
}

/// One item at least, and one default at most.
pub fn are_items_of_case(items: &[CaseItem<'_>]) -> bool
    ensures { result ≡ are_items_of_case (as_items (map item_of items.now)) }
{
    match items {
        [] => false,
        [_, ..] => has_few_defaults(items),
    }
}

/// Where the items of a `case` are refused: at the second default, or at the first token where there is no item.
#[derive(Clone, Copy)]
pub struct Refusal {
    met: bool,
    /// How many tokens were left there.
    pub place: usize,
    found: bool,
}

/// Nothing was met yet.
pub fn no_refusal(tokens: &[Token<'_>]) -> Refusal {
    Refusal {
        met: false,
        place: tokens.len(),
        found: false,
    }
}

/// With the item in front.
pub fn with_item(refusal: Refusal, tokens: &[Token<'_>]) -> Refusal {
    if behind_word(tokens, "default").is_none() {
        return refusal;
    }
    if refusal.met && !refusal.found {
        return Refusal {
            met: true,
            place: tokens.len(),
            found: true,
        };
    }
    Refusal {
        met: true,
        ..refusal
    }
}
