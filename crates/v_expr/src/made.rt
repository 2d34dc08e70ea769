//! What is made of what was read before and what is read behind it.

ghost use Rattle.std.specs.Prelude.{◌≡◌, IfOk};
ghost use Rattle.verilog_text.specs.Token.{Token as PureToken};
ghost use Rattle.verilog_trees.specs.Syntax as pure;
ghost use Rattle.v_token.specs.View.{mark_of, tokens_of};
ghost use Rattle.v_syntax.specs.Tree.{tree_of, select_of, selects_of};
ghost use Rattle.v_expr.specs.Repeat.{Read};
ghost use Rattle.v_expr.specs.Starting.{closed_by, joined_by, valued_by, two_by, choice_of};
ghost use Rattle.v_expr.specs.View.{Gives, joins_of};
ghost use Rattle.v_expr.specs.Flat.{IsFlat, IsFlatChoice, IsFlatSelect, AreFlatSelects};

use crate::node::with_joint;
use crate::operator::JointOperator;
use crate::reader::behind_mark;
use crate::stop::ExpressionStop;
use std::alloc::Global;
use v_syntax::tree::{Choice, Expression, Select, Selects};
use v_token::token::{Mark, Token};

/// An expression and the mark behind it, which is passed.
pub fn behind_closing<'s, 't>(
    read: Result<(Expression<'s>, &'t [Token<'s>]), ExpressionStop>,
    closing: Mark,
) -> Result<(Expression<'s>, &'t [Token<'s>]), ExpressionStop>
    ensures read { (r : Read PureToken pure.Expression) → Gives (λ x. (tree_of x.0, tokens_of x.1.now)) read.entry r → Gives (λ x. (tree_of x.0, tokens_of x.1.now)) result (closed_by (mark_of closing) r) }
    ensures flat { IfOk read.entry (λ x. IsFlat x.0) → IfOk result (λ x. IsFlat x.0) }
{
    match read {
        Err(stop) => Err(stop),
        Ok((expression, rest)) => match behind_mark(rest, closing) {
            Some(after) => Ok((expression, after)),
            None => Err(ExpressionStop::Refused(rest.len())),
        },
    }
}

/// The left operand, an operator, and the right operand as it was read.
pub fn joined<'s, 't>(
    alloc: Global,
    left: Expression<'s>,
    operator: JointOperator,
    right: Result<(Expression<'s>, &'t [Token<'s>]), ExpressionStop>,
) -> Result<(Expression<'s>, &'t [Token<'s>]), ExpressionStop>
    ensures flat { IfOk right.entry (λ x. IsFlat x.0) → IsFlat left.entry → IfOk result (λ x. IsFlat x.0) }
    ensures read { (r : Read PureToken pure.Expression) → Gives (λ x. (tree_of x.0, tokens_of x.1.now)) right.entry r → Gives (λ x. (tree_of x.0, tokens_of x.1.now)) result (joined_by (joins_of operator) (tree_of left.entry) r) }
{
    match right {
        Err(stop) => Err(stop),
        Ok((right, rest)) => {
            let whole = with_joint(alloc, left, operator, right)?;
            Ok((whole, rest))
        }
    }
}

/// A condition, and its value as it was read.
pub fn choice<'s, 't>(
    condition: Expression<'s>,
    value: Result<(Expression<'s>, &'t [Token<'s>]), ExpressionStop>,
) -> Result<(Choice<'s>, &'t [Token<'s>]), ExpressionStop>
    ensures flat { IfOk value.entry (λ x. IsFlat x.0) → IsFlat condition.entry → IfOk result (λ x. IsFlatChoice x.0) }
    ensures read { (r : Read PureToken pure.Expression) → Gives (λ x. (tree_of x.0, tokens_of x.1.now)) value.entry r → Gives (λ x. (choice_of x.0, tokens_of x.1.now)) result (valued_by (tree_of condition.entry) r) }
{
    match value {
        Err(stop) => Err(stop),
        Ok((value, rest)) => Ok((Choice { condition, value }, rest)),
    }
}

/// A select, and the second one as it was read.
pub fn two_selects<'s, 't>(
    first: Select<'s>,
    second: Result<(Select<'s>, &'t [Token<'s>]), ExpressionStop>,
) -> Result<(Selects<'s>, &'t [Token<'s>]), ExpressionStop>
    ensures flat { IfOk second.entry (λ x. IsFlatSelect x.0) → IsFlatSelect first.entry → IfOk result (λ x. AreFlatSelects x.0) }
    ensures read { (r : Read PureToken pure.Select) → Gives (λ x. (select_of x.0, tokens_of x.1.now)) second.entry r → Gives (λ x. (selects_of x.0, tokens_of x.1.now)) result (two_by (select_of first.entry) r) }
{
    match second {
        Err(stop) => Err(stop),
        Ok((second, rest)) => Ok((Selects::Two(first, second), rest)),
    }
}
