//! Single tokens.

ghost use Rattle.std.specs.Prelude.{◌≡◌, option_map, IfOk, IfErr};
ghost use Rattle.v_token.specs.View.{mark_of, token_of, tokens_of};
ghost use Rattle.v_expr.specs.Reading.{is_mark, after_mark};
ghost use Rattle.v_expr.specs.View.{Gives};

use crate::stop::ExpressionStop;
use v_token::token::{Mark, Token, TokenKind};

fn has_mark(token: Token<'_>, mark: Mark) -> bool
    ensures { result ≡ is_mark (mark_of mark) (token_of token.entry) }
{
    match token.kind {
        TokenKind::Mark(found) => found == mark,
        TokenKind::Word => false,
        TokenKind::System => false,
        TokenKind::Decimal => false,
        TokenKind::Based => false,
    }
}

/// What stands behind the mark, if it stands in front.
#[tactic(auto, unfolding(crate::specs::Reading::after_mark))]
pub fn behind_mark<'s, 't>(tokens: &'t [Token<'s>], mark: Mark) -> Option<&'t [Token<'s>]>
    ensures { option_map (λ r. tokens_of r.now) result ≡ after_mark (mark_of mark) (tokens_of tokens.now) }
{
    match tokens {
        [] => None,
        [token, rest @ ..] => {
            if has_mark(*token, mark) {
                Some(rest)
            } else {
                None
            }
        }
    }
}

/// What stands behind the mark.
pub fn mark<'s, 't>(tokens: &'t [Token<'s>], mark: Mark) -> Result<&'t [Token<'s>], ExpressionStop>
    ensures { Gives (λ r. tokens_of r.now) result (after_mark (mark_of mark) (tokens_of tokens.now)) }
{
    behind_mark(tokens, mark).ok_or(ExpressionStop::Refused(tokens.len()))
}

/// The tokens themselves: a reading begins here.
pub fn from_here<'s, 't>(tokens: &'t [Token<'s>]) -> Result<&'t [Token<'s>], ExpressionStop>
    ensures same { IfOk result (λ r. r.now ≡ tokens.now) }
    ensures always { IfErr result (λ _. ⊥) }
{
    Ok(tokens)
}
