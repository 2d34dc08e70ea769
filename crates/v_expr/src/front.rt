//! Whole expressions and the selects behind a name, as deep as the tokens can be.

ghost use Rattle.std.specs.Prelude.{IfOk};
ghost use Rattle.v_token.specs.View.{tokens_of};
ghost use Rattle.v_syntax.specs.Tree.{tree_of, selects_of};
ghost use Rattle.v_expr.specs.View.{Gives};
ghost use Rattle.v_expr.specs.Whole.{whole_at, whole_selects_at};
ghost use Rattle.v_expr.specs.Flat.{IsFlat, AreFlatSelects};

use crate::nested;
use crate::stop::ExpressionStop;
use std::alloc::Global;
use v_syntax::tree::{Expression, Selects};
use v_token::token::Token;

/// The expression in front, and the tokens behind it.
#[tactic(auto, unfolding(crate::specs::Whole::whole_at))]
pub fn expression<'s, 't>(
    alloc: Global,
    tokens: &'t [Token<'s>],
) -> Result<(Expression<'s>, &'t [Token<'s>]), ExpressionStop>
    ensures read { Gives (λ x. (tree_of x.0, tokens_of x.1.now)) result (whole_at (tokens_of tokens.now)) }
    ensures flat { IfOk result (λ x. IsFlat x.0) }
{
    nested::expression(alloc, tokens.len() + 1, tokens)
}

/// The selects in front, behind a name, and the tokens behind them.
#[tactic(auto, unfolding(crate::specs::Whole::whole_selects_at))]
pub fn selects<'s, 't>(
    alloc: Global,
    tokens: &'t [Token<'s>],
) -> Result<(Selects<'s>, &'t [Token<'s>]), ExpressionStop>
    ensures read { Gives (λ x. (selects_of x.0, tokens_of x.1.now)) result (whole_selects_at (tokens_of tokens.now)) }
    ensures flat { IfOk result (λ x. AreFlatSelects x.0) }
{
    nested::selects(alloc, tokens.len(), tokens)
}
