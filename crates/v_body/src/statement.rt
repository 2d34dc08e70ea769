//! Reading statements from tokens.

ghost use Rattle.std.specs.Prelude.{◌≡◌, map, codes, None, IfOk};
ghost use Rattle.v_token.specs.View.{tokens_of};
ghost use Rattle.v_syntax.specs.Tree.{statement_of, case_kind_of};
ghost use Rattle.v_expr.specs.Repeat.{repeated};
ghost use Rattle.v_expr.specs.View.{Gives};
ghost use Rattle.v_body.specs.Words.{after_word};
ghost use Rattle.v_body.specs.Statements.{guarded_at, conditional_at, item_at, items_at, case_at, block_at, outer_statement_at, statement_in, statement_at};
ghost use Rattle.v_body.specs.View.{arm_of, item_of};
ghost use Rattle.v_expr.specs.Flat.{Each};
ghost use Rattle.v_body.specs.Flat.{IsNoIf, IsFlatStatement, IsFlatArm, IsFlatCaseItem};

use crate::list::append;
use crate::node::{alone, block_of, case_of, with_else};
use crate::part::{
    Refusal, are_items_of_case, assigning, behind_perhaps_colon, block_name, condition, no_refusal,
    values, with_item,
};
use crate::word::behind_word;
use std::alloc::Global;
use v_expr::ExpressionStop;
use v_expr::reader::{behind_mark, from_here};
use v_syntax::tree::{Arm, CaseItem, CaseKind, Statement};
use v_token::token::{Mark, Token};

/// A condition and the statement that it guards, which has at most `levels` levels.
#[cycle(statement)]
#[tactic(auto, unfolding(crate::specs::Statements::guarded_at))]
fn guarded<'s, 't>(
    alloc: Global,
    levels: usize,
    tokens: &'t [Token<'s>],
) -> Result<(Arm<'s>, &'t [Token<'s>]), ExpressionStop>
    ensures read { Gives (λ x. (arm_of x.0, tokens_of x.1.now)) result (guarded_at (statement_in levels) (tokens_of tokens.now)) }
    ensures flat { IfOk result (λ x. IsFlatArm x.0) }
{
    let (condition, rest) = condition(alloc, tokens)?;
    let (statement, rest) = nested(alloc, levels, rest)?;
    Ok((
        Arm {
            condition,
            statement,
        },
        rest,
    ))
}

/// What stands behind `if`, with each `else if` behind it.
#[cycle(statement)]
fn ladder<'s, 't>(
    alloc: Global,
    levels: usize,
    tokens: &'t [Token<'s>],
) -> Result<(Statement<'s>, &'t [Token<'s>]), ExpressionStop>
    ensures read { Gives (λ x. (statement_of x.0, tokens_of x.1.now)) result (conditional_at (statement_in levels) (tokens_of tokens.now)) }
    ensures flat { IfOk result (λ x. IsFlatStatement x.0) }
{
    let mut rest = from_here(tokens)?;
    // Most have one arm, and room for more is made when a second one is read.
    let mut arms = Vec::with_capacity(alloc, 1)?;
    loop {
        let (arm, after) = guarded(alloc, levels, rest)?;
        arms.push(arm)?;
        match behind_word(after, "else") {
            None => return Ok((alone(arms), after)),
            Some(other) => match behind_word(other, "if") {
                Some(next) => rest = next,
                None => {
                    let (last, behind) = nested(alloc, levels, other)?;
                    let whole = with_else(alloc, arms, last)?;
                    return Ok((whole, behind));
                }
            },
        }
    }
}

/// An item of a `case`.
#[cycle(statement)]
#[tactic(auto, unfolding(crate::specs::Statements::item_at, crate::specs::Statements::default_at, crate::specs::Statements::arm_at))]
fn item<'s, 't>(
    alloc: Global,
    levels: usize,
    tokens: &'t [Token<'s>],
) -> Result<(CaseItem<'s>, &'t [Token<'s>]), ExpressionStop>
    ensures read { Gives (λ x. (item_of x.0, tokens_of x.1.now)) result (item_at (statement_in levels) (tokens_of tokens.now)) }
    ensures flat { IfOk result (λ x. IsFlatCaseItem x.0) }
{
    if let Some(rest) = behind_word(tokens, "default") {
        let (statement, rest) = nested(alloc, levels, behind_perhaps_colon(rest))?;
        return Ok((CaseItem::Default(statement), rest));
    }
    let (values, rest) = values(alloc, tokens)?;
    let (statement, rest) = nested(alloc, levels, rest)?;
    Ok((CaseItem::Values(values, statement), rest))
}

/// The items of a `case` up to `endcase`, which is passed, and where they are refused.
#[cycle(statement)]
#[tactic(auto, unfolding(crate::specs::Statements::items_at))]
fn items<'s, 't>(
    alloc: Global,
    levels: usize,
    tokens: &'t [Token<'s>],
) -> Result<(Vec<CaseItem<'s>>, Refusal, &'t [Token<'s>]), ExpressionStop>
    ensures read { Gives (λ x. (map item_of x.0.items, tokens_of x.2.now)) result (items_at (statement_in levels) (tokens_of tokens.now)) }
    ensures flat { IfOk result (λ x. Each IsFlatCaseItem x.0.items) }
{
    let mut rest = from_here(tokens)?;
    let mut refusal = no_refusal(tokens);
    let mut items = Vec::new(alloc);
    loop {
        match behind_word(rest, "endcase") {
            Some(after) => return Ok((items, refusal, after)),
            None => {
                let (item, after) = item(alloc, levels, rest)?;
                append(&mut items, item)?;
                refusal = with_item(refusal, rest);
                rest = after;
            }
        }
    }
}

/// What stands behind `case` or `casez`.
#[cycle(statement)]
#[tactic(auto, unfolding(crate::specs::Statements::case_at))]
fn case<'s, 't>(
    alloc: Global,
    levels: usize,
    kind: CaseKind,
    tokens: &'t [Token<'s>],
) -> Result<(Statement<'s>, &'t [Token<'s>]), ExpressionStop>
    ensures read { Gives (λ x. (statement_of x.0, tokens_of x.1.now)) result (case_at (statement_in levels) (case_kind_of kind) (tokens_of tokens.now)) }
    ensures flat { IfOk result (λ x. IsFlatStatement x.0) }
    ensures no_if { IfOk result (λ x. IsNoIf x.0) }
{
    let (subject, rest) = condition(alloc, tokens)?;
    let (items, refusal, rest) = items(alloc, levels, rest)?;
    if !are_items_of_case(&items) {
        return Err(ExpressionStop::Refused(refusal.place));
    }
    Ok((case_of(kind, subject, items), rest))
}

/// Statements up to `end`, which is passed.
#[cycle(statement)]
fn statements<'s, 't>(
    alloc: Global,
    levels: usize,
    tokens: &'t [Token<'s>],
) -> Result<(Vec<Statement<'s>>, &'t [Token<'s>]), ExpressionStop>
    ensures read { Gives (λ x. (map statement_of x.0.items, tokens_of x.1.now)) result (repeated (after_word (codes "end")) (statement_in levels) (tokens_of tokens.now)) }
    ensures flat { IfOk result (λ x. Each IsFlatStatement x.0.items) }
{
    let mut rest = from_here(tokens)?;
    let mut statements = Vec::new(alloc);
    loop {
        match behind_word(rest, "end") {
            Some(after) => return Ok((statements, after)),
            None => {
                let (statement, after) = nested(alloc, levels, rest)?;
                append(&mut statements, statement)?;
                rest = after;
            }
        }
    }
}

/// What stands behind `begin`.
#[cycle(statement)]
#[tactic(auto, unfolding(crate::specs::Statements::block_at))]
fn block<'s, 't>(
    alloc: Global,
    levels: usize,
    tokens: &'t [Token<'s>],
) -> Result<(Statement<'s>, &'t [Token<'s>]), ExpressionStop>
    ensures read { Gives (λ x. (statement_of x.0, tokens_of x.1.now)) result (block_at (statement_in levels) (tokens_of tokens.now)) }
    ensures flat { IfOk result (λ x. IsFlatStatement x.0) }
    ensures no_if { IfOk result (λ x. IsNoIf x.0) }
{
    let (name, rest) = block_name(tokens)?;
    let (statements, rest) = statements(alloc, levels, rest)?;
    Ok((block_of(name, statements), rest))
}

/// A statement whose parts have at most `levels` levels.
#[cycle(statement)]
#[tactic(auto, unfolding(crate::specs::Statements::outer_statement_at))]
fn outer<'s, 't>(
    alloc: Global,
    levels: usize,
    tokens: &'t [Token<'s>],
) -> Result<(Statement<'s>, &'t [Token<'s>]), ExpressionStop>
    ensures read { Gives (λ x. (statement_of x.0, tokens_of x.1.now)) result (outer_statement_at (statement_in levels) (tokens_of tokens.now)) }
    ensures flat { IfOk result (λ x. IsFlatStatement x.0) }
    ensures no_if { IfOk result (λ x. after_word (codes "if") (tokens_of tokens.now) ≡ None → IsNoIf x.0) }
{
    if let Some(rest) = behind_mark(tokens, Mark::Semicolon) {
        return Ok((Statement::Empty, rest));
    }
    if let Some(rest) = behind_word(tokens, "if") {
        let (statement, rest) = ladder(alloc, levels, rest)?;
        return Ok((statement, rest));
    }
    if let Some(rest) = behind_word(tokens, "begin") {
        let (statement, rest) = block(alloc, levels, rest)?;
        return Ok((statement, rest));
    }
    if let Some(rest) = behind_word(tokens, "case") {
        let (statement, rest) = case(alloc, levels, CaseKind::Exact, rest)?;
        return Ok((statement, rest));
    }
    if let Some(rest) = behind_word(tokens, "casez") {
        let (statement, rest) = case(alloc, levels, CaseKind::Wild, rest)?;
        return Ok((statement, rest));
    }
    let (statement, rest) = assigning(alloc, tokens)?;
    Ok((statement, rest))
}

/// A statement with at most `levels` levels.
#[cycle(statement)]
fn nested<'s, 't>(
    alloc: Global,
    levels: usize,
    tokens: &'t [Token<'s>],
) -> Result<(Statement<'s>, &'t [Token<'s>]), ExpressionStop>
    ensures read { Gives (λ x. (statement_of x.0, tokens_of x.1.now)) result (statement_in levels (tokens_of tokens.now)) }
    ensures flat { IfOk result (λ x. IsFlatStatement x.0) }
    ensures no_if { IfOk result (λ x. after_word (codes "if") (tokens_of tokens.now) ≡ None → IsNoIf x.0) }
{
    if levels == 0 {
        return Err(ExpressionStop::Refused(tokens.len()));
    }
    let (statement, rest) = outer(alloc, levels - 1, tokens)?;
    Ok((statement, rest))
}

/// The statement in front, and what stands behind it.
#[tactic(auto, unfolding(crate::specs::Statements::statement_at))]
pub fn statement<'s, 't>(
    alloc: Global,
    tokens: &'t [Token<'s>],
) -> Result<(Statement<'s>, &'t [Token<'s>]), ExpressionStop>
    ensures read { Gives (λ x. (statement_of x.0, tokens_of x.1.now)) result (statement_at (tokens_of tokens.now)) }
    ensures flat { IfOk result (λ x. IsFlatStatement x.0) }
{
    let (statement, rest) = nested(alloc, tokens.len(), tokens)?;
    Ok((statement, rest))
}
