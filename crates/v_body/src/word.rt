//! Words of the grammar and names.

ghost use Rattle.std.specs.Prelude.{◌≡◌, option_map};
ghost use Rattle.v_token.specs.View.{token_of, tokens_of};
ghost use Rattle.v_expr.specs.View.{Gives};
ghost use Rattle.v_body.specs.Words.{is_word, after_word, name_at};

use v_expr::ExpressionStop;
use v_token::token::{Token, TokenKind};
use wb_names::is_reserved_word;

fn has_word(token: Token<'_>, word: &str) -> bool
    ensures { result ≡ is_word word.now (token_of token.entry) }
{
    match token.kind {
        TokenKind::Mark(_) => false,
        TokenKind::Word => token.text == word,
        TokenKind::System => false,
        TokenKind::Decimal => false,
        TokenKind::Based => false,
    }
}

/// What stands behind the word, if it stands in front.
#[tactic(auto, unfolding(crate::specs::Words::after_word))]
pub fn behind_word<'s, 't>(tokens: &'t [Token<'s>], word: &str) -> Option<&'t [Token<'s>]>
    ensures { option_map (λ r. tokens_of r.now) result ≡ after_word word.now (tokens_of tokens.now) }
{
    match tokens {
        [] => None,
        [token, rest @ ..] => {
            if has_word(*token, word) {
                Some(rest)
            } else {
                None
            }
        }
    }
}

/// The name in front, which is no reserved word.
#[tactic(auto, unfolding(crate::specs::Words::name_at))]
pub fn name<'s, 't>(tokens: &'t [Token<'s>]) -> Result<(&'s str, &'t [Token<'s>]), ExpressionStop>
    ensures { Gives (λ x. (x.0.now, tokens_of x.1.now)) result (name_at (tokens_of tokens.now)) }
{
    match tokens {
        [] => Err(ExpressionStop::Refused(0)),
        [token, rest @ ..] => match token.kind {
            TokenKind::Word => {
                if is_reserved_word(token.text.as_bytes()) {
                    return Err(ExpressionStop::Refused(tokens.len()));
                }
                Ok((token.text, rest))
            }
            TokenKind::System => Err(ExpressionStop::Refused(tokens.len())),
            TokenKind::Decimal => Err(ExpressionStop::Refused(tokens.len())),
            TokenKind::Based => Err(ExpressionStop::Refused(tokens.len())),
            TokenKind::Mark(_) => Err(ExpressionStop::Refused(tokens.len())),
        },
    }
}
