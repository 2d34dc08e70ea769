//! What stands behind the first expression of a select.

ghost use Rattle.std.specs.Prelude.{◌≡◌, IfOk, IfErr};
ghost use Rattle.verilog_trees.specs.Syntax as pure;
ghost use Rattle.v_token.specs.View.{tokens_of};
ghost use Rattle.v_syntax.specs.Tree.{tree_of, select_of};
ghost use Rattle.v_expr.specs.Reading.{Reader, limits_at};
ghost use Rattle.v_expr.specs.Starting.{range_of, limited};
ghost use Rattle.v_expr.specs.Flat.{IsFlat, IsFlatSelect};
ghost use Rattle.v_expr.specs.declared.stop.ExpressionStop.TheVariants.{NoMemory};

use crate::reader::behind_mark;
use crate::stop::ExpressionStop;
use std::alloc::Global;
use v_syntax::tree::{Expression, Select};
use v_token::token::{Mark, Token};

/// A select of several bits or words.
#[derive(Clone, Copy, PartialEq, Eq, Debug)]
pub enum RangeKind {
    /// `:`
    Part,
    /// `+:`
    PartUp,
    /// `-:`
    PartDown,
}

/// The mark behind the first expression of a select, and the tokens behind that.
#[derive(Clone, Copy)]
pub enum Limit<'s, 't> {
    /// `]`
    Index(&'t [Token<'s>]),
    /// A mark before a second expression.
    Range(RangeKind, &'t [Token<'s>]),
    /// None of these.
    Nothing,
}

/// The mark in front, behind the first expression of a select.
#[tactic(auto, unfolding(crate::specs::Reading::limits_at, crate::specs::Reading::second_at, crate::specs::Reading::limit_at, crate::specs::Starting::closed_at))]
pub fn limit_of<'s, 't>(tokens: &'t [Token<'s>]) -> Limit<'s, 't>
    ensures { (whole_at : Reader) → (e : pure.Expression) → limits_at whole_at e (tokens_of tokens.now) ≡ limited whole_at e result }
{
    if let Some(rest) = behind_mark(tokens, Mark::RightBracket) {
        return Limit::Index(rest);
    }
    if let Some(rest) = behind_mark(tokens, Mark::Colon) {
        return Limit::Range(RangeKind::Part, rest);
    }
    if let Some(rest) = behind_mark(tokens, Mark::PlusColon) {
        return Limit::Range(RangeKind::PartUp, rest);
    }
    match behind_mark(tokens, Mark::MinusColon) {
        Some(rest) => Limit::Range(RangeKind::PartDown, rest),
        None => Limit::Nothing,
    }
}

/// A select of this kind.
pub fn range<'s>(
    alloc: Global,
    kind: RangeKind,
    first: Box<Expression<'s>>,
    second: Expression<'s>,
) -> Result<Select<'s>, ExpressionStop>
    ensures made { IfOk result (λ s. select_of s ≡ range_of kind (tree_of first.entry.value) (tree_of second.entry)) }
    ensures flat { IfOk result (λ s. IsFlat first.entry.value → IsFlat second.entry → IsFlatSelect s) }
    ensures memory { IfErr result (λ e. e ≡ NoMemory) }
{
    let second = Box::new(alloc, second)?;
    match kind {
        RangeKind::Part => Ok(Select::Part(first, second)),
        RangeKind::PartUp => Ok(Select::PartUp(first, second)),
        RangeKind::PartDown => Ok(Select::PartDown(first, second)),
    }
}
